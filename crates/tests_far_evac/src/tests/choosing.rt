//! Which logs a round is of: the three policies, a policy that counts how often it is asked, and a script that names none.

ghost use Rattle.std.specs.Prelude.{◌≡◌};

use crate::tests::acts::Act::*;
use crate::tests::acts::Choice::{Eldest, Emptiest, Named};
use crate::tests::acts::{Act, End, Play};
use crate::tests::making::{SMALL, evacuator};
use crate::tests::stage::{does_all, play};
use crate::tests::steps::selects;
use far_book::Plain;
use far_core::Shape;
use far_device::MemDevice;
use far_evac::{Evac, LogKind, Phase, Polled};
use far_log::LogRow;
use far_policy::{Chosen, Policy};
use far_word::Refused;
use std::alloc::Global;

// The first log is sealed. Scripts of a log that isn't, or of a log that is named twice, are refused for that log.
const BAD_SCRIPTS: &[Act] = &[
    MakesMany(1, 8),
    MakesMany(1, 4088),
    Selects(Named(&[1]), 1, Err(Refused::BadChoice(1))),
    Selects(Named(&[0, 0]), 2, Err(Refused::BadChoice(0))),
    Marks(1, Err(Refused::Phase)),
    Log(0, LogKind::Sealed, [16, 0, 4080]),
];

// A heap at the last epoch, and one that has one epoch left.
const AT_LAST_EPOCH: Shape = Shape {
    logs: 4,
    mutators: 1,
    epoch: (1 << 62) - 1,
};

const BEFORE_IT: Shape = Shape {
    logs: 4,
    mutators: 1,
    epoch: (1 << 62) - 2,
};

const NO_EPOCH_LEFT: &[Act] = &[
    MakesMany(1, 8),
    MakesMany(1, 4088),
    Selects(Eldest, 1, Err(Refused::EpochsSpent)),
    Selects(Named(&[9]), 1, Err(Refused::EpochsSpent)),
    In(Phase::Idle),
];

// A round reaches the last epoch, and another is refused for the phase until then. It ends, and another is refused for the epoch.
const TO_THE_LAST: &[Act] = &[
    MakesMany(1, 8),
    MakesMany(1, 4088),
    Selects(Eldest, 1, Ok(&[0])),
    Selects(Eldest, 1, Err(Refused::Phase)),
    Marks(1, Ok((1, Some((1 << 62) - 1)))),
    Selects(Eldest, 1, Err(Refused::Phase)),
    Polls(Ok(Polled::Clear)),
    Deals(1, [0, 1, 0, 1], true),
    Selects(Eldest, 1, Err(Refused::EpochsSpent)),
];

const LARGEST: Shape = Shape {
    logs: 64,
    mutators: 1,
    epoch: 0,
};

/// Takes no log, and counts how often it is asked, with how many rows and with which first.
#[derive(Drop)]
struct Asked {
    times: u8,
    rows: usize,
    first: Option<LogRow>,
}

impl Policy for Asked {
    ghost gives = { λ old rows most outcome new. Unit {0} };

    fn choose(&mut self, rows: &[LogRow], _most: usize, _out: &mut Chosen) -> Result<(), Refused> {
        self.times = self.times.saturating_add(1);
        self.rows = rows.len();
        self.first = rows.first().copied();
        Ok(())
    }
}

// One that was asked for nothing yet.
fn unasked() -> Asked {
    Asked {
        times: 0,
        rows: 0,
        first: None,
    }
}

// Whether a policy is asked with a row of each log but the open one and the one that is kept free, of a heap of 64.
fn has_62_rows(evac: &mut Evac<Plain, MemDevice>) -> bool {
    let mut asked = unasked();
    does_all(evac, &[MakesMany(63, 4088)])
        && selects(evac, &mut asked, 64, Ok(&[]))
        && (asked.times, asked.rows) == (1, 62)
        && does_all(evac, &[Selects(Eldest, 3, Ok(&[0, 1, 2]))])
}

fn is_handed_all(alloc: Global) -> bool {
    match evacuator(alloc, LARGEST) {
        Ok(mut evac) => has_62_rows(&mut evac),
        Err(_) => false,
    }
}

#[test]
fn a_policy_is_handed_all_rows_of_the_largest_heap(rt: HostRuntime) {
    assert!(rt; is_handed_all(rt.alloc()));
}

const SIX: Shape = Shape {
    logs: 6,
    mutators: 1,
    epoch: 0,
};

// Logs 2, 0 and 1 are sealed in this order.
const OUT_OF_ORDER: &[Act] = &[
    MakesMany(3, 4088),
    Drops(0),
    Drops(1),
    Runs(Eldest, 2, 9, End::Done([0, 0, 0, 2])),
    MakesMany(1, 8),
    MakesMany(2, 4088),
];

// Whether it was asked once, with three rows, of which the first was that of log 2.
fn was_asked_once(asked: &Asked) -> bool {
    let (log, live, dead, unused) = (2, 4096, 0, 0);
    let first = LogRow {
        log,
        live,
        dead,
        unused,
    };
    asked.times == 1 && asked.rows == 3 && asked.first == Some(first)
}

// Whether it is asked once where a round may begin, and not while one is running.
fn asks_once(evac: &mut Evac<Plain, MemDevice>) -> bool {
    let mut asked = unasked();
    does_all(evac, OUT_OF_ORDER)
        && selects(evac, &mut asked, 9, Ok(&[]))
        && was_asked_once(&asked)
        && does_all(evac, &[In(Phase::Idle), Selects(Eldest, 1, Ok(&[2]))])
        && selects(evac, &mut asked, 9, Err(Refused::Phase))
        && asked.times == 1
}

fn is_asked_once(alloc: Global) -> bool {
    match evacuator(alloc, SIX) {
        Ok(mut evac) => asks_once(&mut evac),
        Err(_) => false,
    }
}

// A policy is asked once, and only where a round may begin, with all sealed logs, the oldest first.
#[test]
fn a_policy_is_asked_once(rt: HostRuntime) {
    assert!(rt; is_asked_once(rt.alloc()));
}

// The oldest two logs are chosen, then the two with the least live bytes, and then a script's logs, and no other.
const BY_EACH: &[Act] = &[
    Selects(Eldest, 2, Ok(&[2, 0])),
    GivesUp(Ok(())),
    Selects(Emptiest, 2, Ok(&[0, 1])),
    GivesUp(Ok(())),
    Selects(Named(&[1, 2]), 3, Ok(&[1, 2])),
    Log(0, LogKind::Sealed, [16, 0, 4080]),
    Log(1, LogKind::Chosen, [4096, 0, 0]),
    Log(2, LogKind::Chosen, [4096, 0, 0]),
    GivesUp(Ok(())),
    Runs(Named(&[1, 2]), 3, 9, End::Done([0, 2, 0, 2])),
];

// A round of logs 1 and 0 comes to where objects leave, and log 1 is emptied first.
const TURNED: &[Act] = &[
    Selects(Named(&[1, 0]), 2, Ok(&[1, 0])),
    Marks(9, Ok((2, Some(2)))),
    Polls(Ok(Polled::Clear)),
    Deals(1, [0, 1, 0, 1], false),
    Log(1, LogKind::Free, [0, 0, 4096]),
    Log(0, LogKind::Chosen, [16, 0, 4080]),
    Deals(1, [0, 1, 0, 1], true),
];

#[rattlefmt::skip]
const PLAYS: &[Play] = &[
    Play { name: "a_bad_script_begins_no_round", shape: SMALL, parts: &[BAD_SCRIPTS] },
    Play { name: "the_last_epoch_begins_no_round", shape: AT_LAST_EPOCH, parts: &[NO_EPOCH_LEFT] },
    // While a round is running that has reached the last epoch, another is refused for the phase.
    Play { name: "a_running_round_comes_before_the_last_epoch", shape: BEFORE_IT, parts: &[TO_THE_LAST] },
    Play { name: "each_policy_chooses", shape: SIX, parts: &[OUT_OF_ORDER, BY_EACH] },
    // A script's order is that in which logs are emptied.
    Play { name: "logs_are_emptied_in_their_order", shape: SIX, parts: &[OUT_OF_ORDER, TURNED] },
];

#[test]
fn logs_are_chosen(rt: HostRuntime) {
    play(&rt, rt.alloc(), PLAYS);
}
