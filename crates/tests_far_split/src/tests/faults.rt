//! Lines that a gate says no to, and lines that are all made.

use super::talk::{is_stopped, printed};
use super::watch::{NO_STOPS, Stops, Watch};
use far_split::THE_BOOK;
use std::alloc::Global;
use std::sync::Wait;
use std::thread::Threads;

const B: u8 = THE_BOOK;

/// Four of its lines are the first mutator's, three the second's, four the book's.
const TEXT: &str = "\
heap 4 2
new 0 8 1
new 1 8 1
logs
open 0
write 0 0 0 0a
read 0 0 0 1
audit
open 1
read 1 256 0 1
round oldest 1 9
log 9
";

/// A run of the text: the thread that is watched, whether it waits before its first line for a no, which lines are refused, the
/// thread that is named then, and how many calls come of the one that is watched, if that is known.
#[derive(Clone, Copy)]
struct Row {
    who: u8,
    waits: bool,
    stops: Stops,
    named: Option<u8>,
    calls: Option<u64>,
}

#[rattlefmt::skip]
const ROWS: &[Row] = &[
    // Each line is asked for and told once.
    Row { who: 0, waits: false, stops: NO_STOPS, named: None, calls: Some(8) },
    Row { who: 1, waits: false, stops: NO_STOPS, named: None, calls: Some(6) },
    Row { who: B, waits: false, stops: NO_STOPS, named: None, calls: Some(8) },

    // A no ends its thread's lines.
    Row { who: 0, waits: false, stops: Stops { first: 0, last: 0, turn: 0 }, named: Some(0), calls: Some(1) },
    Row { who: 0, waits: false, stops: Stops { first: 0, last: 0, turn: 1 }, named: Some(0), calls: Some(3) },
    Row { who: 0, waits: false, stops: Stops { first: 0, last: 0, turn: 2 }, named: Some(0), calls: Some(5) },
    Row { who: 0, waits: false, stops: Stops { first: 0, last: 0, turn: 3 }, named: Some(0), calls: Some(7) },
    Row { who: 1, waits: false, stops: Stops { first: 1, last: 1, turn: 0 }, named: Some(1), calls: Some(1) },
    Row { who: 1, waits: false, stops: Stops { first: 1, last: 1, turn: 1 }, named: Some(1), calls: Some(3) },
    Row { who: 1, waits: false, stops: Stops { first: 1, last: 1, turn: 2 }, named: Some(1), calls: Some(5) },
    Row { who: B, waits: false, stops: Stops { first: B, last: B, turn: 0 }, named: Some(B), calls: Some(1) },
    Row { who: B, waits: false, stops: Stops { first: B, last: B, turn: 1 }, named: Some(B), calls: Some(3) },
    Row { who: B, waits: false, stops: Stops { first: B, last: B, turn: 2 }, named: Some(B), calls: Some(5) },
    Row { who: B, waits: false, stops: Stops { first: B, last: B, turn: 3 }, named: Some(B), calls: Some(7) },

    // Of several threads of which a line is refused the least is named.
    Row { who: 0, waits: false, stops: Stops { first: 0, last: B, turn: 0 }, named: Some(0), calls: None },
    Row { who: 0, waits: false, stops: Stops { first: 0, last: 1, turn: 1 }, named: Some(0), calls: None },
    Row { who: 0, waits: false, stops: Stops { first: 1, last: B, turn: 2 }, named: Some(1), calls: None },
    Row { who: 0, waits: false, stops: Stops { first: 1, last: B, turn: 3 }, named: Some(B), calls: None },
    Row { who: 0, waits: false, stops: Stops { first: 2, last: B, turn: 0 }, named: Some(B), calls: None },
    Row { who: 0, waits: false, stops: Stops { first: 0, last: B, turn: 3 }, named: Some(0), calls: None },

    // Each other thread makes its lines after one has ended.
    Row { who: 0, waits: true, stops: Stops { first: 1, last: 1, turn: 0 }, named: Some(1), calls: Some(8) },
    Row { who: 0, waits: true, stops: Stops { first: B, last: B, turn: 0 }, named: Some(B), calls: Some(8) },
    Row { who: 1, waits: true, stops: Stops { first: 0, last: 0, turn: 0 }, named: Some(0), calls: Some(6) },
    Row { who: 1, waits: true, stops: Stops { first: B, last: B, turn: 0 }, named: Some(B), calls: Some(6) },
    Row { who: B, waits: true, stops: Stops { first: 0, last: 0, turn: 0 }, named: Some(0), calls: Some(8) },
    Row { who: B, waits: true, stops: Stops { first: 1, last: 1, turn: 0 }, named: Some(1), calls: Some(8) },
];

// Whether a run ends so under its gate.
fn ends_so<R: Threads + Wait + Sync>(rt: &R, alloc: Global, row: Row, gate: &Watch) -> bool {
    match row.named {
        Some(thread) => is_stopped(rt, alloc, TEXT, gate, thread),
        None => printed(rt, alloc, TEXT, gate).is_some(),
    }
}

// Whether a run comes out as it should.
fn comes_out<R: Threads + Wait + Sync>(rt: &R, alloc: Global, row: Row) -> bool {
    let gate = if row.waits {
        Watch::waiting(row.who, row.stops)
    } else {
        Watch::new(row.who, row.stops)
    };
    if !ends_so(rt, alloc, row, &gate) {
        return false;
    }
    match row.calls {
        Some(calls) => gate.has_calls(calls),
        None => true,
    }
}

#[test]
fn lines_are_made_or_refused(rt: HostRuntime) {
    for (at, row) in ROWS.iter().enumerate() {
        assert!(rt; comes_out(&rt, rt.alloc(), *row), "row {at}");
    }
}
