//! What a new object leaves as it was: where it is refused, all of it, also a running round; else all but itself.

use crate::tests::acts::Act;
use crate::tests::acts::Act::*;
use crate::tests::acts::Choice::Eldest;
use crate::tests::play::Scene::Acts;
use crate::tests::play::{ONE, Play, holds};
use far_evac::{Phase, Polled};
use far_word::Refused;

// An object is refused by a mutator and by its scope for want of room, one without bytes for its length, and a drop of what isn't used; all stands as before.
const NO_ROOM: &[Act] = &[
    Notes,
    Makes(0, Err(Refused::Length)),
    Drops(255, Err(Refused::NotHeld)),
    Makes(8, Err(Refused::NoRoom)),
    Opens,
    Makes(8, Err(Refused::NoRoom)),
    Closes,
    AsNoted,
];

// The same for want of a pointer.
const NO_POINTER: &[Act] = &[
    Notes,
    Makes(8, Err(Refused::NoPointer)),
    Opens,
    Makes(8, Err(Refused::NoPointer)),
    Closes,
    AsNoted,
];

// A round of the first log begins, and has marked one object of it.
const MARKING: &[Act] = &[
    Selects(Eldest, 1, Ok(&[0])),
    Marks(1, Ok((1, None))),
    In(Phase::Marking),
];

const LEAVING: &[Act] = &[Polls(Ok(Polled::Clear)), In(Phase::Evacuating)];

// Three logs have no room for 33 objects of 248 bytes each in two; all others of the first log are marked then.
const NO_ROOM_LEFT: &[Act] = &[
    Fills(32, 248),
    Makes(248, Err(Refused::NoRoom)),
    In(Phase::Idle),
];

const ROOMLESS_WAITING: &[Act] = &[Marks(64, Ok((15, Some(1)))), In(Phase::Waiting)];

// Two logs hold 256 objects of 24 bytes, and there is no pointer more.
const NO_POINTER_LEFT: &[Act] = &[
    Fills(256, 24),
    Makes(24, Err(Refused::NoPointer)),
    In(Phase::Idle),
];

const POINTERLESS_WAITING: &[Act] = &[Marks(128, Ok((127, Some(1)))), In(Phase::Waiting)];

// In each phase of a round.
const ROOMLESS: Play = Play {
    logs: 3,
    scene: Acts(&[
        NO_ROOM_LEFT,
        NO_ROOM,
        MARKING,
        NO_ROOM,
        ROOMLESS_WAITING,
        NO_ROOM,
        LEAVING,
        NO_ROOM,
    ]),
    ..ONE
};

const POINTERLESS: Play = Play {
    logs: 6,
    scene: Acts(&[
        NO_POINTER_LEFT,
        NO_POINTER,
        MARKING,
        NO_POINTER,
        POINTERLESS_WAITING,
        NO_POINTER,
        LEAVING,
        NO_POINTER,
    ]),
    ..ONE
};

// Without copiers and with one.
const A_REFUSED_OBJECT_LEAVES_A_ROUND_AS_IT_IS_PLAYS: &[Play] = &[
    ROOMLESS,
    POINTERLESS,
    Play {
        copiers: Some(1),
        ..ROOMLESS
    },
    Play {
        copiers: Some(1),
        ..POINTERLESS
    },
];

#[test]
fn a_refused_object_leaves_a_round_as_it_is(rt: HostRuntime) {
    holds(
        &rt,
        rt.alloc(),
        A_REFUSED_OBJECT_LEAVES_A_ROUND_AS_IT_IS_PLAYS,
    );
}

// Objects of 9 bytes are made where no round is running, by a mutator and by its scope, each time one alone of 24 with its header; and one
// fills the next log.
const PLACED_IDLE: &[Act] = &[
    Notes,
    Makes(9, Ok(0)),
    OneMore(24),
    Notes,
    Opens,
    Makes(9, Ok(1)),
    Closes,
    OneMore(24),
    Makes(4088, Ok(2)),
];

// The same while a round marks.
const PLACED_MARKING: &[Act] = &[
    Notes,
    Makes(9, Ok(3)),
    OneMore(24),
    Notes,
    Opens,
    Makes(9, Ok(4)),
    Closes,
    OneMore(24),
];

// The same while it waits.
const PLACED_WAITING: &[Act] = &[
    Marks(64, Ok((1, Some(1)))),
    Notes,
    Makes(9, Ok(5)),
    OneMore(24),
    Notes,
    Opens,
    Makes(9, Ok(6)),
    Closes,
    OneMore(24),
];

// The same where objects leave.
const PLACED_LEAVING: &[Act] = &[
    Notes,
    Makes(9, Ok(7)),
    OneMore(24),
    Notes,
    Opens,
    Makes(9, Ok(8)),
    Closes,
    OneMore(24),
];

const PLACED: Play = Play {
    logs: 6,
    scene: Acts(&[
        PLACED_IDLE,
        MARKING,
        PLACED_MARKING,
        PLACED_WAITING,
        LEAVING,
        PLACED_LEAVING,
    ]),
    ..ONE
};

const A_NEW_OBJECT_IS_PLACED_ONCE_PLAYS: &[Play] = &[
    PLACED,
    Play {
        copiers: Some(1),
        ..PLACED
    },
];

#[test]
fn a_new_object_is_placed_once(rt: HostRuntime) {
    holds(&rt, rt.alloc(), A_NEW_OBJECT_IS_PLACED_ONCE_PLAYS);
}
