//! Rounds beside an owner, step by step: what each answers, and where all is then.

use crate::tests::acts::Act;
use crate::tests::acts::Act::*;
use crate::tests::heaps::plays;
use crate::tests::pairs::SMALL;
use far_core::Shape;
use far_evac::LogKind;
use far_word::{LOG_BYTES, LONGEST, Place};

/// The bytes 1 to 8 in a word.
const COUNTED: u64 = 0x0807_0605_0403_0201;

// Two objects fill all logs but the last.
const ALL_BUT_ONE: &[Act] = &[Makes(LONGEST, 0), Makes(LONGEST, 1), MakesNone(8)];

const ROOM_AGAIN: &[Act] = &[
    Drops(0),
    Runs([0, 0, 0, 1]),
    Makes(8, 0),
    Log(0, LogKind::Open, [16, 0, LOG_BYTES - 16]),
];

#[test]
fn the_reserve_is_kept(rt: HostRuntime) {
    let three = Shape { logs: 3, ..SMALL };
    assert!(rt; plays(&rt, three, ALL_BUT_ONE, ROOM_AGAIN));
}

// Of two objects in log 0 the one that was written moves, and the other goes far.
const TWO_PART: &[Act] = &[
    Makes(8, 0),
    Makes(8, 1),
    ReadsEpoch(0),
    Opens,
    Views(0),
    Stores(0, COUNTED),
    Closes,
    Makes(LONGEST, 2),
    Runs([1, 1, 0, 1]),
    Near(0, Place { log: 2, at: 0 }, false),
    Far(1),
];

// Log 0 is free then, and log 2 has the object that moved. Both are read, and the far one is near again.
const PARTED: &[Act] = &[
    Log(0, LogKind::Free, [0, 0, LOG_BYTES]),
    Log(1, LogKind::Sealed, [LOG_BYTES, 0, 0]),
    Log(2, LogKind::Open, [16, 0, LOG_BYTES - 16]),
    Counts(2, 1, 4112),
    ReadsEpoch(1),
    Opens,
    Views(0),
    Loads(0, COUNTED),
    Views(1),
    Loads(1, 0),
    Clean(1, Place { log: 2, at: 2 }, true),
];

#[test]
fn a_plain_round(rt: HostRuntime) {
    assert!(rt; plays(&rt, SMALL, TWO_PART, PARTED));
}

// An object of a sealed log is viewed when a round begins.
const VIEWED_BEFORE: &[Act] = &[
    Makes(8, 0),
    Makes(LONGEST, 1),
    ReadsEpoch(0),
    Opens,
    Views(0),
    Begins(&[0], 1),
];

// The round waits until the scope is closed, and moves the object then.
const WAITED_FOR: &[Act] = &[Waits, Closes, IsClear, Leaves([1, 0, 0, 1])];

#[test]
fn a_round_waits(rt: HostRuntime) {
    assert!(rt; plays(&rt, SMALL, VIEWED_BEFORE, WAITED_FOR));
}

// An object is written, and a round of its log goes on to its leaving after the owner has read the epoch.
const EPOCH_READ: &[Act] = &[
    Makes(8, 0),
    ReadsEpoch(0),
    Opens,
    Views(0),
    Stores(0, 0xaa),
    Closes,
    Makes(LONGEST, 1),
    ReadsEpoch(0),
    Begins(&[0], 1),
    IsClear,
];

// The owner, whose scope opens at that epoch, finds the marks, has the object moved and reads it.
const OPENED_LATE: &[Act] = &[
    Opens,
    Finds(0, 0xe600_0000_0001_0008),
    Views(0),
    Loads(0, 0xaa),
    Leaves([0, 0, 0, 1]),
];

#[test]
fn a_scope_opens_at_a_stale_epoch(rt: HostRuntime) {
    assert!(rt; plays(&rt, SMALL, EPOCH_READ, OPENED_LATE));
}

// An object that is viewed is written while the round waits, and read after that.
const WRITTEN_MEANWHILE: &[Act] = &[
    Views(0),
    Stores(0, 0xbb),
    Waits,
    Closes,
    IsClear,
    Leaves([1, 0, 0, 1]),
    ReadsEpoch(1),
    Opens,
    Views(0),
    Loads(0, 0xbb),
];

#[test]
fn an_old_view_is_used_again(rt: HostRuntime) {
    assert!(rt; plays(&rt, SMALL, VIEWED_BEFORE, WRITTEN_MEANWHILE));
}

const TWO_MARKED: &[Act] = &[
    Makes(8, 0),
    Makes(8, 1),
    Makes(LONGEST, 2),
    Begins(&[0], 2),
    IsClear,
];

// The owner has both moved before the round comes to them.
const OWNER_FIRST: &[Act] = &[
    ReadsEpoch(1),
    Opens,
    Views(0),
    Views(1),
    Leaves([0, 0, 0, 1]),
];

#[test]
fn the_owner_is_first(rt: HostRuntime) {
    assert!(rt; plays(&rt, SMALL, TWO_MARKED, OWNER_FIRST));
}

// A round of two logs begins, of which one has a hot object.
const HOT_AND_COLD: &[Act] = &[
    Makes(LONGEST, 0),
    Makes(LONGEST, 1),
    Makes(LONGEST, 2),
    ReadsEpoch(0),
    Opens,
    Views(0),
    Closes,
    Begins(&[0, 1], 2),
];

// The owner's move takes the last free log, so that the hot object goes far.
const NO_ROOM_LEFT: &[Act] = &[
    IsClear,
    ReadsEpoch(1),
    Opens,
    Views(1),
    Leaves([0, 1, 0, 2]),
    Far(0),
];

#[test]
fn a_hot_object_finds_no_room(rt: HostRuntime) {
    assert!(rt; plays(&rt, SMALL, HOT_AND_COLD, NO_ROOM_LEFT));
}
