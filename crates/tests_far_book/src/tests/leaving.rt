//! Objects that go far: what the device is given, what is left, what is refused, and what owners do between two steps.

use crate::tests::acts::Act::*;
use crate::tests::acts::{Act, DROP, HOT, IS_DROPPED, IS_HOT, NO_MARKS, SMALL, WENT};
use crate::tests::devices::Flaw;
use crate::tests::stage::{Beside, plays, plays_over, plays_rows};
use far_core::{Kind, Reply};
use far_word::{LOG_BYTES, Place, Refused};

/// The cell of pointer 0, an object of 8 bytes of data structure 1 at the start of log 0, with HOT, EVAC and MOVE; and the cell of one of no bytes
/// that is far.
const LEAVING: u64 = 0xf600_0000_0001_0008;

const FAR: u64 = 0x0400_0000_0001_0000;

// Whether an object of so many bytes goes far, over a device that takes these bytes alone, and its log has its span of so many bytes, live before and dead
// after.
fn gives_its_bytes(rt: &HostRuntime, len: u16, size: u16) -> bool {
    let rest = LOG_BYTES.saturating_sub(size);
    let goes_far = [
        Leaves(len),
        Log(0, Kind::Sealed, [size, 0, rest]),
        Evicts(0, WENT),
        Cell(0, FAR + len as u64),
        Log(0, Kind::Sealed, [0, size, rest]),
        Evicts(0, None),
    ];
    plays_over(rt, SMALL, Flaw::Picky(len), &[&goes_far])
}

// The shortest and the longest that are read by way of each row, among others.
const SIZES: &[(u16, u16)] = &[
    (1, 16),
    (7, 16),
    (8, 16),
    (9, 24),
    (16, 24),
    (64, 72),
    (65, 80),
    (256, 264),
    (257, 272),
    (1024, 1032),
    (1025, 1040),
    (4088, 4096),
];

#[test]
fn the_device_is_given_the_bytes(rt: HostRuntime) {
    for (len, size) in SIZES {
        assert!(rt; gives_its_bytes(&rt, *len, *size), "{len} bytes");
    }
}

const REFUSED_MEMORY: &[Act] = &[Leaves(8), Evicts(0, Some(Err(Refused::Memory)))];

const REFUSED_DEVICE: &[Act] = &[Leaves(8), Evicts(0, Some(Err(Refused::Device)))];

// The object and its log are as they were.
const IS_LEFT: &[Act] = &[Log(0, Kind::Sealed, [16, 0, 4080]), Cell(0, LEAVING)];

// It moves, and has its bytes.
const MOVES: &[Act] = &[
    Moves(0, Some(Ok(Some(Place { log: 2, at: 0 })))),
    Near(0, (2, 0), NO_MARKS),
    Loads(0, 8),
];

const LEFT_AND_MOVED: &[&[Act]] = &[REFUSED_DEVICE, IS_LEFT, MOVES];

const REFUSED_AND_LEFT: &[&[Act]] = &[REFUSED_MEMORY, IS_LEFT];

// Alone against an eviction that failed and goes far all the same, or takes a failure for want of memory.
#[test]
fn a_refused_eviction_leaves_the_object(rt: HostRuntime) {
    assert!(rt;
        plays_over(&rt, SMALL, Flaw::Starved, REFUSED_AND_LEFT)
            && plays_over(&rt, SMALL, Flaw::Picky(7), LEFT_AND_MOVED)
    );
}

// An object of one word with EVAC and MOVE goes far, with these marks, and the device has its bytes.
const LEFT: &[Act] = &[
    Evicts(0, WENT),
    Far(0, NO_MARKS),
    Log(0, Kind::Sealed, [0, 16, 4080]),
    Holds(true),
];

const LEFT_HOT: &[Act] = &[
    Evicts(0, WENT),
    Far(0, IS_HOT),
    Log(0, Kind::Sealed, [0, 16, 4080]),
    Holds(true),
];

const LEFT_DROPPED: &[Act] = &[
    Evicts(0, WENT),
    Far(0, IS_DROPPED),
    Log(0, Kind::Sealed, [0, 16, 4080]),
    Holds(true),
];

// It is found dropped, and the device has none.
const RETIRED: &[Act] = &[
    Evicts(0, Some(Ok(false))),
    Gone(0),
    Log(0, Kind::Sealed, [0, 16, 4080]),
    Holds(false),
];

// An eviction of one word has three steps: a look at the cell, a word that is read, the naming. At the third a second try begins, and after it the
// event came too late.
const HOT_AT_A_STEP: &[Beside] = &[
    (0, &[], LEFT),
    (0, &[HOT], LEFT),
    (1, &[HOT], LEFT),
    (2, &[HOT], LEFT),
    (3, &[HOT], LEFT_HOT),
];

// Alone against an eviction that tries its naming once. The cell is looked at once before the eviction.
#[test]
fn an_eviction_finds_hot_at_any_step(rt: HostRuntime) {
    assert!(rt; plays_rows(&rt, 514, HOT_AT_A_STEP));
}

// At the second step the device holds the bytes, and forgets them as the naming finds the DROP; where HOT is found before, the third try is the retiring's.
const DROP_AT_A_STEP: &[Beside] = &[
    (0, &[DROP], RETIRED),
    (1, &[DROP], RETIRED),
    (2, &[DROP], RETIRED),
    (2, &[HOT, DROP], RETIRED),
    (3, &[DROP], LEFT_DROPPED),
];

// Alone against an eviction that sends a dropped object far, retires nothing where it finds the DROP late, or leaves its bytes.
#[test]
fn an_eviction_finds_a_drop_at_any_step(rt: HostRuntime) {
    assert!(rt; plays_rows(&rt, 514, DROP_AT_A_STEP));
}

// An object that is dropped before it leaves is retired instead.
const LEAVES_DROPPED: &[Act] = &[
    Leaves(8),
    Owns(DROP, Reply::Word(LEAVING)),
    Evicts(0, Some(Ok(false))),
    Cell(0, 0),
    Log(0, Kind::Sealed, [0, 16, 4080]),
];

#[test]
fn a_dropped_object_is_retired(rt: HostRuntime) {
    assert!(rt; plays(&rt, LEAVES_DROPPED));
}
