//! Rounds on a heap, by worked answers.

use crate::tests::acts::Act::*;
use crate::tests::acts::Choice::Eldest;
use crate::tests::acts::{Act, EIGHT, End, ZEROS};
use crate::tests::play::Scene::Acts;
use crate::tests::play::{ONE, Play, holds};
use far_evac::{LogKind, Polled};
use far_word::Refused;

// A new object has zeros, and takes its bytes and a header of the first log.
const NEW_OBJECT: &[Act] = &[
    Makes(8, Ok(0)),
    Opens,
    Reads(0, ZEROS),
    Log(0, LogKind::Open, [16, 0, 4080]),
    Free(1),
    Free(2),
    Free(3),
];

// Two objects are in a log, of which the first is written, and a round moves that and sends the other far.
const PLAIN_ROUND: &[Act] = &[
    Makes(8, Ok(0)),
    Makes(8, Ok(1)),
    Opens,
    Writes(0, EIGHT),
    Closes,
    Makes(4088, Ok(2)),
    Runs(Eldest, 1, 9, End::Done([1, 1, 0, 1])),
];

// The object that was written is in another log, the other is far, and their log is given back.
const AFTER_ROUND: &[Act] = &[
    Near(0, (2, 0), false),
    Far(1, false),
    Free(0),
    Log(1, LogKind::Sealed, [4096, 0, 0]),
    Log(2, LogKind::Open, [16, 0, 4080]),
    Lists(1, 2, 1),
    Counts(2, 1, 4112),
];

// Both can be read again, the far one slowly, and this is near then; once it is dropped, its cell is used again.
const BROUGHT_BACK: &[Act] = &[
    Opens,
    Reads(0, EIGHT),
    IsSlow(1),
    Brings(1, ZEROS),
    Drops(1, Err(Refused::Held)),
    Clean(1, (2, 2), true),
    Closes,
    Drops(1, Ok(())),
    Makes(4088, Ok(1)),
];

// A round waits for a scope that was open before it, and moves the object that was viewed.
const WAITING_ROUND: &[Act] = &[
    Makes(8, Ok(0)),
    Makes(4088, Ok(1)),
    Opens,
    Reads(0, ZEROS),
    Selects(Eldest, 1, Ok(&[0])),
    Marks(9, Ok((1, Some(1)))),
    Polls(Ok(Polled::StillOpen(0, 0))),
    Closes,
    Polls(Ok(Polled::Clear)),
    Deals(9, Ok([1, 0, 0, 1])),
];

const HEAP_ROWS_PLAYS: &[Play] = &[
    Play {
        scene: Acts(&[NEW_OBJECT]),
        ..ONE
    },
    Play {
        scene: Acts(&[PLAIN_ROUND, AFTER_ROUND, BROUGHT_BACK]),
        ..ONE
    },
    Play {
        scene: Acts(&[WAITING_ROUND]),
        ..ONE
    },
];

#[test]
fn heap_rows(rt: HostRuntime) {
    holds(&rt, rt.alloc(), HEAP_ROWS_PLAYS);
}

// The owner's own move takes the last free log, so that a round of the first two logs has no room for a viewed object, which goes far.
const HOT_ROUND: &[Act] = &[
    Makes(4088, Ok(0)),
    Makes(4088, Ok(1)),
    Makes(4088, Ok(2)),
    Opens,
    Reads(0, ZEROS),
    Closes,
    Selects(Eldest, 2, Ok(&[0, 1])),
    Marks(9, Ok((2, Some(1)))),
    Polls(Ok(Polled::Clear)),
    Opens,
    Brings(1, ZEROS),
    Near(1, (3, 0), true),
    Deals(9, Ok([0, 1, 0, 2])),
    Far(0, false),
];

const A_VIEWED_OBJECT_WITHOUT_ROOM_GOES_FAR_PLAYS: &[Play] = &[Play {
    scene: Acts(&[HOT_ROUND]),
    ..ONE
}];

#[test]
fn a_viewed_object_without_room_goes_far(rt: HostRuntime) {
    holds(&rt, rt.alloc(), A_VIEWED_OBJECT_WITHOUT_ROOM_GOES_FAR_PLAYS);
}

// One step finds the word of a marked object, and a view has the object moved; the round has nothing to do then but to give the log back.
const MARKED_OBJECT: &[Act] = &[
    Makes(8, Ok(0)),
    Makes(4088, Ok(1)),
    Opens,
    Writes(0, EIGHT),
    Closes,
    Selects(Eldest, 1, Ok(&[0])),
    Marks(9, Ok((1, Some(1)))),
    Polls(Ok(Polled::Clear)),
    Opens,
    Finds(0, 0xe600_0000_0001_0008),
    Brings(0, EIGHT),
    Deals(9, Ok([0, 0, 0, 1])),
];

const A_MARKED_OBJECT_IS_MOVED_FOR_A_VIEW_PLAYS: &[Play] = &[Play {
    scene: Acts(&[MARKED_OBJECT]),
    ..ONE
}];

#[test]
fn a_marked_object_is_moved_for_a_view(rt: HostRuntime) {
    holds(&rt, rt.alloc(), A_MARKED_OBJECT_IS_MOVED_FOR_A_VIEW_PLAYS);
}
