//! Texts with the replies that were worked out by hand, whatever order the threads come in.

use super::talk::{printed, prints};
use far_evac::RoundEnd;
use far_reply::{LogLine, Reply};
use far_split::{NoGate, Replies, SplitOut, Told, run_split};
use std::alloc::{AllocError, Global};
use std::str;
use std::sync::Wait;
use std::thread::Threads;

/// Two mutators, each with an object.
pub(super) const TWO: &str = "\
heap 4 2
new 0 8 1
new 1 8 1
open 0
write 0 0 0 0a
read 0 0 0 1
open 1
read 1 256 0 1
";

/// What a run of them prints.
pub(super) const TWO_TOLD: &str = "\
mutator 0
pointer 0
ok
ok
data 0a
mutator 1
pointer 256
ok
data 00
book
";

#[test]
fn each_mutator_has_its_own_replies(rt: HostRuntime) {
    assert!(rt; prints(&rt, rt.alloc(), TWO, &NoGate, TWO_TOLD));
}

const ONE: &str = "\
heap 4 1
new 0 9 1
open 0
write 0 0 8 ff
read 0 0 0 9
close 0
drop 0 0
audit
";

#[test]
fn one_mutator_runs_beside_the_book(rt: HostRuntime) {
    let told = printed(&rt, rt.alloc(), ONE, &NoGate);
    let wanted =
        b"mutator 0\npointer 0\nok\nok\ndata 0000000000000000ff\nok\nok\nbook\naudit near ";
    assert!(rt; matches!(&told, Some(told) if told.starts_with(wanted)));
}

fn is_pointer(told: &Told<'_>, wanted: u16) -> bool {
    matches!(told, Told::Reply(Reply::Pointer(pointer)) if *pointer == wanted)
}

fn is_done(told: &Told<'_>) -> bool {
    matches!(told, Told::Reply(Reply::Done))
}

fn is_byte(told: &Told<'_>, wanted: u8) -> bool {
    matches!(told, Told::Reply(Reply::Data(bytes)) if *bytes == [wanted].as_slice())
}

// Whether these are the replies to what the first mutator of two asks.
fn is_first(told: &Replies) -> bool {
    told.len() == 4
        && is_pointer(&told.at(0), 0)
        && is_done(&told.at(1))
        && is_done(&told.at(2))
        && is_byte(&told.at(3), 10)
}

fn is_second(told: &Replies) -> bool {
    told.len() == 3
        && is_pointer(&told.at(0), 256)
        && is_done(&told.at(1))
        && is_byte(&told.at(2), 0)
}

// Whether a run of the text for two gives each of them its replies, and the book none.
fn are_of_two<R: Threads + Wait + Sync>(rt: &R, alloc: Global) -> bool {
    let Ok(SplitOut::Ran { mutators, book }) = run_split(alloc, rt, TWO.as_bytes(), &NoGate) else {
        return false;
    };
    let [first, second] = mutators.as_slice() else {
        return false;
    };
    book.is_empty() && is_first(first) && is_second(second)
}

#[test]
fn replies_have_types(rt: HostRuntime) {
    assert!(rt; are_of_two(&rt, rt.alloc()));
}

// Whether a log of an empty heap is told: it has nothing.
fn is_unused(line: LogLine, log: u8) -> bool {
    line.log == log && line.live == 0 && line.dead == 0 && line.unused == 4096
}

fn are_unused(told: &Told<'_>, first: u8, count: usize) -> bool {
    match told {
        Told::Logs(lines) => {
            lines.len() == count && count > 0 && is_unused(lines.at(count - 1), first)
        }
        Told::Reply(_) => false,
    }
}

fn are_counted(told: &Told<'_>) -> bool {
    matches!(told, Told::Reply(Reply::Audited(counts)) if counts.near == 0 && counts.live == 0)
}

fn is_none(told: &Told<'_>) -> bool {
    matches!(told, Told::Reply(Reply::Ended(RoundEnd::Nothing)))
}

// Whether these are the book's replies to what it is asked of an empty heap.
fn is_books(told: &Replies) -> bool {
    told.len() == 5
        && are_unused(&told.at(0), 63, 64)
        && are_unused(&told.at(1), 9, 1)
        && are_counted(&told.at(2))
        && is_none(&told.at(3))
        && are_unused(&told.at(4), 63, 64)
}

// Whether a run of these inquiries gives those replies.
fn are_books<R: Threads + Wait + Sync>(rt: &R, alloc: Global) -> bool {
    let text = b"heap 64 1\nlogs\nlog 9\naudit\nround oldest 1 9\nlogs\n";
    match run_split(alloc, rt, text, &NoGate) {
        Ok(SplitOut::Ran { book, .. }) => is_books(&book),
        _ => false,
    }
}

#[test]
fn the_books_replies_have_types(rt: HostRuntime) {
    assert!(rt; are_books(&rt, rt.alloc()));
}

// What each of eight mutators asks, and the book beside it: M is its number, P that of its first pointer.
const LINES: &str = "\
new M 8 1
new M 4088 2
open M
write M P 0 0102030405060M
close M
round oldest 2 100
log M
open M
read M P 0 8
close M
round leastlive 1 100
";

// What it is answered: Q is the number of its second pointer.
const ANSWERS: &str = "\
mutator M
pointer P
pointer Q
ok
ok
ok
ok
data 0102030405060M00
ok
";

// The number of each mutator, and those of its two pointers.
const EIGHT: [(&str, &str, &str); 8] = [
    ("0", "0", "1"),
    ("1", "256", "257"),
    ("2", "512", "513"),
    ("3", "768", "769"),
    ("4", "1024", "1025"),
    ("5", "1280", "1281"),
    ("6", "1536", "1537"),
    ("7", "1792", "1793"),
];

// Adds a form for a mutator.
fn push_filled(
    text: &mut String,
    alloc: Global,
    form: &str,
    of: (&str, &str, &str),
) -> Result<(), AllocError> {
    let (mutator, first, next) = of;
    for sign in form.chars() {
        match sign {
            'M' => text.push_str(mutator)?,
            'P' => text.push_str(first)?,
            'Q' => text.push_str(next)?,
            _ => text.push(sign)?,
        }
    }
    Ok(())
}

// Whether these are replies to rounds, and to logs between them.
fn are_of_rounds(replies: &str) -> bool {
    let mut count = 0u64;
    for line in replies.lines() {
        if !line.starts_with("round ") && !line.starts_with("log ") && line != "refused 12" {
            return false;
        }
        count = count.saturating_add(1);
    }
    count == 24
}

// Whether they print what eight mutators are answered, and after it what the book is.
fn is_of_eight(told: Option<Vec<u8>>, wanted: &str) -> bool {
    let Some(told) = told else {
        return false;
    };
    let Ok(told) = str::from_utf8(&told) else {
        return false;
    };
    match told.strip_prefix(wanted) {
        Some(replies) => are_of_rounds(replies),
        None => false,
    }
}

// The text of eight mutators, and what they are answered.
fn texts_of_eight(alloc: Global) -> Result<(String, String), AllocError> {
    let mut text = String::new(alloc);
    let mut wanted = String::new(alloc);
    text.push_str("heap 64 8\n")?;
    for of in EIGHT {
        push_filled(&mut text, alloc, LINES, of)?;
        push_filled(&mut wanted, alloc, ANSWERS, of)?;
    }
    wanted.push_str("book\n")?;
    Ok((text, wanted))
}

#[test]
fn eight_mutators_run_beside_rounds(rt: HostRuntime) {
    let Ok((text, wanted)) = texts_of_eight(rt.alloc()) else {
        panic!(rt; "no text is made");
    };
    for _ in 0..20u8 {
        assert!(rt; is_of_eight(printed(&rt, rt.alloc(), &text, &NoGate), &wanted));
    }
}
