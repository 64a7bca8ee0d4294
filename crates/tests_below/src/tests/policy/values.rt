//! What policies choose, by worked values.

use super::any::chosen_by;
use super::own::{Youngest, are_rows};
use far_log::LogRow;
use far_policy::{
    Chosen, LeastLive, MOST_CHOSEN, Oldest, Policy, Scripted, choices_are_so, least_is_one,
    rows_tell_of_logs, script_is_one,
};
use far_word::Refused;
use std::test::*;

const fn row(log: u8, live: u16) -> LogRow {
    LogRow {
        log,
        live,
        dead: 0,
        unused: 0,
    }
}

// Four sealed logs, oldest first: two have as many live bytes.
const FOUR: [LogRow; 4] = [
    LogRow {
        log: 5,
        live: 4096,
        dead: 0,
        unused: 0,
    },
    LogRow {
        log: 2,
        live: 16,
        dead: 8,
        unused: 4072,
    },
    LogRow {
        log: 9,
        live: 0,
        dead: 4096,
        unused: 0,
    },
    LogRow {
        log: 0,
        live: 16,
        dead: 0,
        unused: 4080,
    },
];

fn has_logs(chosen: &Chosen, wanted: &[u8]) -> bool {
    chosen.as_slice() == wanted
        && chosen.len() == wanted.len()
        && chosen.is_empty() == wanted.is_empty()
}

// Whether the policy takes exactly the logs that are wanted.
fn takes<P: Policy>(policy: &mut P, rows: &[LogRow], most: usize, wanted: &[u8]) -> bool {
    if !are_rows(rows) {
        return false;
    }
    match chosen_by(policy, rows, most) {
        Ok(chosen) => has_logs(&chosen, wanted),
        Err(_) => false,
    }
}

// Whether it takes these of the four, one choice after another, and none where there are no rows.
fn takes_each<P: Policy>(policy: &mut P, rows: &[(usize, &[u8])]) -> bool {
    for (most, wanted) in rows {
        if !takes(policy, &FOUR, *most, wanted) {
            return false;
        }
    }
    takes(policy, &[], 3, &[])
}

fn is_refused(answer: Result<(), Refused>, log: u8) -> bool {
    let bad = Refused::BadChoice(log);
    answer == Err(bad) && bad.number() == 17
}

// Whether the script is refused with this log, and the list is empty.
fn refuses(named: &[u8], rows: &[LogRow], most: usize, log: u8) -> bool {
    if !are_rows(rows) {
        return false;
    }
    let mut chosen = Chosen::new();
    let answer = Scripted { logs: named }.choose(rows, most, &mut chosen);
    is_refused(answer, log) && chosen.is_empty()
}

#[test]
fn readme(rt: HostRuntime) -> Result<(), Fail> {
    let rows = [
        LogRow {
            log: 3,
            live: 40,
            dead: 0,
            unused: 4056,
        },
        LogRow {
            log: 1,
            live: 16,
            dead: 4072,
            unused: 8,
        },
    ];
    let mut chosen = Chosen::new();
    LeastLive.choose(&rows, 1, &mut chosen)?;
    assert_eq!(rt; chosen.as_slice(), [1].as_slice());
    chosen.clear();
    let answer = Scripted { logs: &[3, 3] }.choose(&rows, 2, &mut chosen);
    assert_eq!(rt; answer, Err(Refused::BadChoice(3)));
    assert!(rt; chosen.is_empty());
    Ok(())
}

#[test]
fn oldest_takes_the_first(rt: HostRuntime) {
    let rows: [(usize, &[u8]); 4] = [
        (2, &[5, 2]),
        (0, &[]),
        (4, &[5, 2, 9, 0]),
        (usize::MAX, &[5, 2, 9, 0]),
    ];
    assert!(rt; takes_each(&mut Oldest, &rows));
}

#[test]
fn least_live_takes_the_emptiest(rt: HostRuntime) {
    let rows: [(usize, &[u8]); 5] = [
        (1, &[9]),
        (2, &[9, 0]),
        (3, &[9, 0, 2]),
        (0, &[]),
        (usize::MAX, &[9, 0, 2, 5]),
    ];
    assert!(rt; takes_each(&mut LeastLive, &rows));
}

// Whether a script's logs are taken in its order.
fn takes_named(named: &[u8], rows: &[LogRow], most: usize) -> bool {
    takes(&mut Scripted { logs: named }, rows, most, named)
}

#[test]
fn script_is_taken_in_its_order(rt: HostRuntime) {
    assert!(rt;
        takes_named(&[9, 5], &FOUR, 2)
            && takes_named(&[0, 9, 2, 5], &FOUR, 64)
            && takes_named(&[], &FOUR, 0)
            && takes_named(&[], &[], 4)
    );
}

fn refuses_each(rows: &[(&[u8], &[LogRow], usize, u8)]) -> bool {
    for (named, logs, most, log) in rows {
        if !refuses(named, logs, *most, *log) {
            return false;
        }
    }
    true
}

#[test]
fn script_is_refused(rt: HostRuntime) {
    let one = [row(0, 16)];
    let rows: [(&[u8], &[LogRow], usize, u8); 8] = [
        (&[1], &one, 1, 1),
        (&[0, 0], &one, 2, 0),
        (&[0], &[], 1, 0),
        (&[0], &one, 0, 0),
        (&[9, 5, 2], &FOUR, 2, 2),
        (&[9, 255, 9], &FOUR, 4, 255),
        (&[9, 9, 255], &FOUR, 4, 9),
        (&[64], &FOUR, 4, 64),
    ];
    assert!(rt; refuses_each(&rows));
}

// Rows of all logs of the largest heap, the last log first; each second one has as many live bytes as the one before it.
fn largest_rows() -> [LogRow; 64] {
    let mut rows = [row(0, 0); 64];
    for i in 0..64u8 {
        rows[i as usize] = row(63 - i, 16 * (i as u16 / 2));
    }
    rows
}

// Their logs in their order.
fn falling_logs() -> [u8; 64] {
    let mut logs = [0; 64];
    for i in 0..64u8 {
        logs[i as usize] = 63 - i;
    }
    logs
}

// Their logs by their live bytes, the lower log first.
fn rising_logs() -> [u8; 64] {
    let mut logs = [0; 64];
    for i in 0..64u8 {
        logs[i as usize] = if i % 2 == 0 { 62 - i } else { 64 - i };
    }
    logs
}

#[test]
fn largest_heap(rt: HostRuntime) {
    let rows = largest_rows();
    let falling = falling_logs();
    assert!(rt;
        takes(&mut Oldest, &rows, 64, &falling)
            && takes(&mut LeastLive, &rows, 64, &rising_logs())
            && takes_named(&falling, &rows, 64)
            && refuses(&falling, &rows, 63, 0)
            && MOST_CHOSEN == 64
    );
}

// Whether the policy refuses the four rows with this log.
fn refuses_four(policy: &mut Youngest, log: u8) -> bool {
    if !are_rows(&FOUR) {
        return false;
    }
    match chosen_by(policy, &FOUR, 7) {
        Ok(_) => false,
        Err(why) => why == Refused::BadChoice(log),
    }
}

#[test]
fn policy_of_the_tests_own(rt: HostRuntime) {
    let mut policy = Youngest { times: 3 };
    assert!(rt;
        takes(&mut policy, &FOUR, 7, &[0])
            && takes(&mut policy, &FOUR, 0, &[])
            && takes(&mut policy, &[], 1, &[])
            && refuses_four(&mut policy, 200)
    );
}

fn differ_by_what_they_have() -> bool {
    let mut one = Chosen::new();
    let mut other = Chosen::new();
    one.push(7);
    other.push(7);
    other.push(8);
    let differ = one != other;
    let copied = other;
    other.clear();
    other.push(7);
    differ && one == other && copied.contains(8) && !other.contains(8) && copied.len() == 2
}

#[test]
fn lists_are_values(rt: HostRuntime) {
    assert!(rt; differ_by_what_they_have());
}

#[test]
fn laws_are_called() {
    rows_tell_of_logs();
    least_is_one();
    script_is_one();
    choices_are_so();
}
