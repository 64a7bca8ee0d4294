//! Texts whose commands are split among threads: whose each line is, and which line is the first that is nobody's.

use far_text::{
    Command, Flaw, Inquiry, Lines, ParseError, Request, SplitText, SplitTrace, Step, Thread,
    parse_split,
};
use std::alloc::{AllocGlobal, Global};
use std::test::*;

fn have_numbers(lines: &Lines<'_>, numbers: &[u64]) -> bool {
    if lines.len() != numbers.len() {
        return false;
    }
    for at in 0..lines.len() {
        if lines.at(at).0 != numbers[at] {
            return false;
        }
    }
    true
}

fn has_lines(alloc: Global, text: &SplitText, thread: Thread, numbers: &[u64]) -> bool {
    match text.lines_of(alloc, thread) {
        Ok(lines) => have_numbers(&lines, numbers),
        Err(_) => false,
    }
}

// Whether a text's lines of these numbers are the thread's, and no others.
fn runs_lines(alloc: Global, text: &[u8], thread: Thread, numbers: &[u64]) -> bool {
    match parse_split(alloc, text) {
        Ok(SplitTrace::Heap { lines, .. }) => has_lines(alloc, &lines, thread, numbers),
        Ok(SplitTrace::Nothing) | Err(_) => false,
    }
}

fn are_same(said: (u64, u64, u64), wanted: (u64, u64, u64)) -> bool {
    said.0 == wanted.0 && said.1 == wanted.1 && said.2 == wanted.2
}

// Whether a text says this heap.
fn says_heap(alloc: Global, text: &[u8], heap: (u64, u64, u64)) -> bool {
    match parse_split(alloc, text) {
        Ok(
            SplitTrace::Heap {
                logs,
                mutators,
                epoch,
                ..
            },
        ) => are_same((logs, mutators, epoch), heap),
        Ok(SplitTrace::Nothing) | Err(_) => false,
    }
}

fn says_nothing(alloc: Global, text: &[u8]) -> bool {
    matches!(parse_split(alloc, text), Ok(SplitTrace::Nothing))
}

// Whether this line is the first that can't be split.
fn is_refused_at(alloc: Global, text: &[u8], line: u64) -> bool {
    match parse_split(alloc, text) {
        Err(ParseError::Syntax(number)) => number == line,
        Ok(_) | Err(ParseError::Memory) => false,
    }
}

// Whether it is a write of 10, a round, or an inquiry of log 3.
fn is_as_written(command: Command) -> bool {
    match command {
        Command::Mutator {
            request: Request::Write { bytes, .. },
            ..
        } => bytes == [10].as_slice(),
        Command::Evacuator(Step::Round { turns, .. }) => turns == 9,
        Command::Book(Inquiry::Log { log }) => log == 3,
        _ => false,
    }
}

fn is_known_at(lines: &Lines<'_>, at: usize) -> bool {
    at < lines.len() && is_as_written(lines.at(at).1)
}

// Whether the command at this place of a thread's lines is one of those.
fn runs_known_at(alloc: Global, text: &SplitText, thread: Thread, at: usize) -> bool {
    match text.lines_of(alloc, thread) {
        Ok(lines) => is_known_at(&lines, at),
        Err(_) => false,
    }
}

fn has_known_at(alloc: Global, text: &[u8], thread: Thread, at: usize) -> bool {
    match parse_split(alloc, text) {
        Ok(SplitTrace::Heap { lines, .. }) => runs_known_at(alloc, &lines, thread, at),
        Ok(SplitTrace::Nothing) | Err(_) => false,
    }
}

// A text of two mutators.
const MUTATORS: &[u8] =
    b"heap 4 2\nnew 0 8 1\nnew 1 8 1\nopen 0\nwrite 0 0 0 0a\nread 0 0 0 1\nopen 1\nread 1 256 0 1";

fn runs_mutators(alloc: Global) -> bool {
    runs_lines(alloc, MUTATORS, Thread::Mutator(0), &[2, 4, 5, 6])
        && has_known_at(alloc, MUTATORS, Thread::Mutator(0), 2)
        && runs_lines(alloc, MUTATORS, Thread::Mutator(1), &[3, 7, 8])
        && runs_lines(alloc, MUTATORS, Thread::Mutator(2), &[])
        && runs_lines(alloc, MUTATORS, Thread::Book, &[])
}

#[test]
fn each_mutator_has_its_own_lines(rt: HostRuntime) {
    assert!(rt; runs_mutators(rt.alloc()));
}

// A text of the book and one mutator. Comments and empty lines are counted.
const BOOK: &[u8] =
    b"# first\n\nheap 4 8 5\nlogs\nview 7 900\nround leastlive 2 9\n\nlog 3\ntry 7 900\n# the last\naudit\ndrop 7 900\nclose 7\n";

fn runs_book(alloc: Global) -> bool {
    says_heap(alloc, BOOK, (4, 8, 5))
        && runs_lines(alloc, BOOK, Thread::Book, &[4, 6, 8, 11])
        && has_known_at(alloc, BOOK, Thread::Book, 1)
        && has_known_at(alloc, BOOK, Thread::Book, 2)
        && runs_lines(alloc, BOOK, Thread::Mutator(7), &[5, 9, 12, 13])
        && runs_lines(alloc, BOOK, Thread::Mutator(6), &[])
}

#[test]
fn the_books_lines_stand_among_them(rt: HostRuntime) {
    assert!(rt; runs_book(rt.alloc()));
}

#[test]
fn a_text_may_say_nothing(rt: HostRuntime) {
    assert!(rt;
        says_nothing(rt.alloc(), b"")
            && says_nothing(rt.alloc(), b"\n# a comment\n")
            // a heap has threads without lines too
            && runs_lines(rt.alloc(), b"heap 4 1\n", Thread::Book, &[])
    );
}

pub(crate) fn is_flaw(flaw: Flaw, wanted: Flaw) -> bool {
    matches!(
        (flaw, wanted),
        (Flaw::Fail, Flaw::Fail) | (Flaw::Short, Flaw::Short) | (Flaw::Flip, Flaw::Flip)
    )
}

// Whether a text says a device of which this call has this flaw.
fn says_device(alloc: Global, text: &[u8], flaw: Flaw, call: u64) -> bool {
    match parse_split(alloc, text) {
        Ok(
            SplitTrace::Heap {
                device: Some(device),
                ..
            },
        ) => is_flaw(device.flaw, flaw) && device.call == call,
        Ok(_) | Err(_) => false,
    }
}

fn says_devices(alloc: Global) -> bool {
    says_device(alloc, b"heap 4 1\n\ndevice fail 3\nlogs", Flaw::Fail, 3)
        && says_device(alloc, b"heap 4 1\n# it\ndevice short 0", Flaw::Short, 0)
        && says_device(
            alloc,
            b"heap 4 1\ndevice flip 18446744073709551615\n",
            Flaw::Flip,
            u64::MAX,
        )
}

// A device's line is none of a thread's.
fn passes_devices(alloc: Global) -> bool {
    let short = b"heap 4 1\n\ndevice short 1\nopen 0\nlogs";
    let flip = b"heap 4 1\n\ndevice flip 1\nopen 0\nlogs";
    runs_lines(alloc, short, Thread::Mutator(0), &[4])
        && runs_lines(alloc, flip, Thread::Book, &[5])
}

#[test]
fn a_device_may_fail_or_lie(rt: HostRuntime) {
    assert!(rt; says_devices(rt.alloc()) && passes_devices(rt.alloc()));
}

fn are_refused_at(alloc: Global, texts: &[&[u8]], line: u64) -> bool {
    for text in texts {
        if !is_refused_at(alloc, text, line) {
            return false;
        }
    }
    true
}

#[test]
fn lines_of_nobody_are_refused(rt: HostRuntime) {
    let lines: [&[u8]; 20] = [
        b"heap 4 1\nnew 0 8 1\nround oldest 1 9\nepoch 0",
        b"heap 4 1\nnew 0 8 1\nlogs\nwhere 0 0\nepoch 0",
        b"heap 4 1\n\n\nselect oldest 1\nlogs",
        b"heap 4 1\n\n\nselect script 1 0",
        b"heap 4 1\naudit\naudit\nmark 1",
        b"heap 4 1\nlogs\nlogs\nwait",
        b"heap 4 1\nlogs\nlogs\nevacuate 0",
        b"heap 4 1\nlogs\nlogs\nabort\nwait",
        // off the grammar of all traces
        b"heap 4 1\nlogs\nlogs\nlogs 0\nepoch 0",
        b"heap 4 1\nopen 0\nopen 0\nwrite 0 0 0 abc\nepoch 0",
        b"heap 4 1\nopen 0\nopen 0\nheap 4 1",
        b"# first\n\n\nopen 0\nheap 4 1",
        // a mutator that the heap hasn't
        b"heap 4 2\nopen 0\nopen 1\nopen 2\nlog 99",
        b"heap 4 2\nopen 0\nlog 99\nwrite 18446744073709551615 0 0 00\nopen 2",
        // a device behind a command, or a second one
        b"heap 4 1\n# it\nlogs\ndevice short 1\nlogs",
        b"heap 4 1\n\ndevice flip 0\nepoch 0",
        b"\nheap 4 1\ndevice flip 18446744073709551615\ndevice flip 1",
        b"heap 4 1\ndevice fail 1\nlogs\ndevice short 1",
        b"\nheap 4 1\ndevice fail 1\ndevice flip 1",
        b"heap 4 1\nlogs\nlogs\ndevice fail 1",
    ];
    assert!(rt; are_refused_at(rt.alloc(), &lines, 4));
}

// Whether a heap may have so many mutators isn't asked.
fn runs_any_mutator(alloc: Global) -> bool {
    let text = b"heap 4 18446744073709551615\nopen 18446744073709551614\nopen 8";
    runs_lines(alloc, text, Thread::Mutator(u64::MAX - 1), &[2])
        && runs_lines(alloc, text, Thread::Mutator(8), &[3])
}

#[test]
fn mutators_are_those_of_the_heaps_line(rt: HostRuntime) {
    assert!(rt;
        runs_any_mutator(rt.alloc())
            && is_refused_at(rt.alloc(), b"heap 1 1\nnew 1 8 1", 2)
            && is_refused_at(rt.alloc(), b"heap 4 0\nopen 0", 2)
    );
}
