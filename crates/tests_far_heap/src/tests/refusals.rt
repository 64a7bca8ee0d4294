//! What each call of a mutator and of its scope is refused, in the order of the reasons, with nothing changed.

use crate::tests::acts::Act::*;
use crate::tests::acts::Choice::Eldest;
use crate::tests::acts::{Act, End, ZEROS};
use crate::tests::play::Scene::{Acts, Begins, Never};
use crate::tests::play::{ONE, Play, holds};
use far_evac::{LogKind, Phase};
use far_word::Refused;

const NO_HEAP: Play = Play {
    scene: Never,
    refused: Some(Refused::Shape),
    ..ONE
};

// Shapes that no heap has, and two that a heap may have.
const SHAPES: &[Play] = &[
    Play {
        logs: 1,
        mutators: 1,
        epoch: 0,
        ..NO_HEAP
    },
    Play {
        logs: 65,
        mutators: 1,
        epoch: 0,
        ..NO_HEAP
    },
    Play {
        logs: 4,
        mutators: 0,
        epoch: 0,
        ..NO_HEAP
    },
    Play {
        logs: 4,
        mutators: 9,
        epoch: 0,
        ..NO_HEAP
    },
    Play {
        logs: 4,
        mutators: 1,
        epoch: 1 << 62,
        ..NO_HEAP
    },
    Play {
        logs: u64::MAX,
        mutators: u64::MAX,
        epoch: u64::MAX,
        ..NO_HEAP
    },
    Play {
        logs: 2,
        mutators: 1,
        epoch: 0,
        scene: Begins(1, 0),
        ..ONE
    },
    Play {
        logs: 64,
        mutators: 8,
        epoch: (1 << 62) - 1,
        scene: Begins(8, 0),
        ..ONE
    },
];

#[test]
fn a_shape_is_in_range(rt: HostRuntime) {
    holds(&rt, rt.alloc(), SHAPES);
}

// Two logs are full of one mutator's objects of 24 bytes, which take four words each, and all its pointers are used.
const TWO_FULL_LOGS: &[Act] = &[
    Fills(256, 24),
    Log(0, LogKind::Sealed, [4096, 0, 0]),
    Log(1, LogKind::Open, [4096, 0, 0]),
];

// Lengths out of range are refused, whatever else is wanting.
const BAD_LENGTHS: &[Act] = &[
    Makes(0, Err(Refused::Length)),
    Makes(4089, Err(Refused::Length)),
    Makes(u16::MAX, Err(Refused::Length)),
];

const NO_POINTER: &[Act] = &[Makes(1, Err(Refused::NoPointer)), Turns];

// A mutator with a free pointer is refused another object, in an open scope too, since no log has room.
const NO_ROOM: &[Act] = &[
    Makes(1, Err(Refused::NoRoom)),
    Turns,
    Drops(5, Ok(())),
    Makes(1, Err(Refused::NoRoom)),
    Turns,
    Opens,
    Makes(0, Err(Refused::Length)),
    Makes(4089, Err(Refused::Length)),
    Makes(1, Err(Refused::NoRoom)),
];

const A_NEW_OBJECT_IS_REFUSED_IN_ORDER_PLAYS: &[Play] = &[Play {
    logs: 3,
    mutators: 2,
    scene: Acts(&[TWO_FULL_LOGS, BAD_LENGTHS, NO_POINTER, BAD_LENGTHS, NO_ROOM]),
    ..ONE
}];

#[test]
fn a_new_object_is_refused_in_order(rt: HostRuntime) {
    holds(&rt, rt.alloc(), A_NEW_OBJECT_IS_REFUSED_IN_ORDER_PLAYS);
}

// Each mutator makes an object. The first can't drop a pointer that it never used, one of the other mutator, and one that nobody has.
const ONE_FOR_EACH: &[Act] = &[
    Makes(8, Ok(0)),
    Turns,
    Makes(8, Ok(256)),
    Turns,
    Drops(1, Err(Refused::NotHeld)),
    Drops(256, Err(Refused::NotHeld)),
    Drops(u16::MAX, Err(Refused::NotHeld)),
];

// An object that the scope views can't be dropped, and another can; both are gone at last, and one of three lives in the first log.
const DROPPED_OBJECTS: &[Act] = &[
    Makes(8, Ok(1)),
    Opens,
    Reads(0, ZEROS),
    Drops(0, Err(Refused::Held)),
    Reads(0, ZEROS),
    Drops(2, Err(Refused::NotHeld)),
    Drops(256, Err(Refused::NotHeld)),
    Drops(1, Ok(())),
    Drops(1, Err(Refused::NotHeld)),
    Closes,
    Drops(0, Ok(())),
    Drops(0, Err(Refused::NotHeld)),
    Log(0, LogKind::Open, [16, 32, 4048]),
];

const A_DROP_IS_REFUSED_IN_ORDER_PLAYS: &[Play] = &[Play {
    mutators: 2,
    scene: Acts(&[ONE_FOR_EACH, DROPPED_OBJECTS]),
    ..ONE
}];

#[test]
fn a_drop_is_refused_in_order(rt: HostRuntime) {
    holds(&rt, rt.alloc(), A_DROP_IS_REFUSED_IN_ORDER_PLAYS);
}

// A mutator views only what it uses.
const UNHELD_OBJECTS: &[Act] = &[
    Opens,
    Lacks(1),
    Lacks(256),
    Lacks(2048),
    Lacks(u16::MAX),
    Tells(0, Some(8), Some(1)),
    Drops(0, Ok(())),
    Lacks(0),
];

const AN_UNHELD_POINTER_HAS_NO_VIEW_PLAYS: &[Play] = &[Play {
    mutators: 2,
    scene: Acts(&[ONE_FOR_EACH, UNHELD_OBJECTS]),
    ..ONE
}];

#[test]
fn an_unheld_pointer_has_no_view(rt: HostRuntime) {
    holds(&rt, rt.alloc(), AN_UNHELD_POINTER_HAS_NO_VIEW_PLAYS);
}

// An object is far, and all room but the log that is kept back is taken.
const FILLED_UP: &[Act] = &[
    Makes(8, Ok(0)),
    Makes(4088, Ok(1)),
    Runs(Eldest, 1, 9, End::Done([0, 1, 0, 1])),
    Makes(4088, Ok(2)),
    Makes(4088, Ok(3)),
    Makes(8, Err(Refused::NoRoom)),
];

// It isn't viewed while a round stands, which goes on to stand.
const STANDS_WITHOUT_ROOM: &[Act] = &[
    Selects(Eldest, 1, Ok(&[1])),
    Opens,
    ViewsNone(0, Refused::NoRoom),
    Closes,
    In(Phase::Marking),
    GivesUp(Ok(())),
];

// The far object can't be viewed for want of room, and stays far, until a round gives a log back.
const FAR_WITHOUT_ROOM: &[Act] = &[
    Opens,
    Reads(2, ZEROS),
    ViewsNone(0, Refused::NoRoom),
    ViewsNone(0, Refused::NoRoom),
    Far(0, true),
    Closes,
    Runs(Eldest, 1, 9, End::Done([0, 1, 0, 1])),
    Opens,
    Brings(0, ZEROS),
];

// A far object isn't viewed while no log has room for it, and is after a round that gave a log back.
const A_FAR_OBJECT_WAITS_FOR_ROOM_PLAYS: &[Play] = &[Play {
    scene: Acts(&[FILLED_UP, STANDS_WITHOUT_ROOM, FAR_WITHOUT_ROOM]),
    ..ONE
}];

#[test]
fn a_far_object_waits_for_room(rt: HostRuntime) {
    holds(&rt, rt.alloc(), A_FAR_OBJECT_WAITS_FOR_ROOM_PLAYS);
}
