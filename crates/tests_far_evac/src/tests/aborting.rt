//! Marks that come one by one, and rounds that are given up.

use crate::tests::acts::Act::*;
use crate::tests::acts::Choice::{Eldest, Named};
use crate::tests::acts::{Act, End, Play};
use crate::tests::making::SMALL;
use crate::tests::stage::play;
use far_core::Shape;
use far_evac::{LogKind, Phase};
use far_word::{Place, Refused};

const FIVE: Shape = Shape {
    logs: 5,
    mutators: 1,
    epoch: 0,
};

// A round of the first two of three full logs begins, the second first.
const BEGUN_TURNED: &[Act] = &[MakesMany(3, 4088), Selects(Named(&[1, 0]), 2, Ok(&[1, 0]))];

// The object of log 1 is marked first, and alone; that of log 0 is marked next, and then the epoch rises.
const BOTH_MARKED: &[Act] = &[
    Marks(0, Ok((0, None))),
    Near(1, Place { log: 1, at: 0 }, false),
    Marks(1, Ok((1, None))),
    Leaving(1, Place { log: 1, at: 0 }),
    Near(0, Place { log: 0, at: 0 }, false),
    Marks(0, Ok((0, None))),
    Marks(1, Ok((1, Some(1)))),
    Leaving(0, Place { log: 0, at: 0 }),
    Near(2, Place { log: 2, at: 0 }, false),
    In(Phase::Waiting),
    Epoch(1),
];

const NO_MARK: &[Act] = &[
    MakesMany(3, 4088),
    Drops(0),
    Selects(Eldest, 1, Ok(&[0])),
    Marks(0, Ok((0, Some(1)))),
];

// Logs 0 and 1 are sealed in this order, and have what they had.
const AS_BEFORE: &[Act] = &[
    Log(0, LogKind::Sealed, [4096, 0, 0]),
    Log(1, LogKind::Sealed, [4096, 0, 0]),
    Near(0, Place { log: 0, at: 0 }, false),
    Near(1, Place { log: 1, at: 0 }, false),
    In(Phase::Idle),
    Selects(Eldest, 2, Ok(&[0, 1])),
];

const GIVEN_UP_MARKING: &[Act] = &[Marks(1, Ok((1, None))), GivesUp(Ok(())), Epoch(0)];

const GIVEN_UP_WAITING: &[Act] = &[
    Marks(9, Ok((2, Some(1)))),
    GivesUp(Ok(())),
    GivesUp(Err(Refused::Phase)),
];

// A round of the first two of three full logs is given up once the first is empty: its first object is far, and its second still there.
const GIVEN_UP_MIDWAY: &[Act] = &[
    MakesMany(3, 4088),
    Runs(Eldest, 2, 2, End::Limit(Phase::Evacuating)),
    Deals(1, [0, 1, 0, 1], false),
    GivesUp(Ok(())),
    Far(0),
    Near(1, Place { log: 1, at: 0 }, false),
    Log(0, LogKind::Free, [0, 0, 4096]),
    Log(1, LogKind::Sealed, [4096, 0, 0]),
    Selects(Eldest, 2, Ok(&[1])),
];

// The first of two small objects in log 0 is dealt with, and the log is sealed as it was once the round is given up.
const HALF_EMPTY: &[Act] = &[
    MakesMany(2, 8),
    MakesMany(3, 4088),
    Runs(Eldest, 1, 2, End::Limit(Phase::Evacuating)),
    Deals(1, [0, 1, 0, 0], false),
    Log(0, LogKind::Chosen, [16, 16, 4064]),
    GivesUp(Ok(())),
    Log(0, LogKind::Sealed, [16, 16, 4064]),
    Near(1, Place { log: 0, at: 2 }, false),
];

// The next round takes the other object.
const EMPTY: &[Act] = &[
    Runs(Eldest, 1, 9, End::Done([0, 1, 0, 1])),
    Selects(Eldest, 9, Ok(&[1, 2])),
];

#[rattlefmt::skip]
const PLAYS: &[Play] = &[
    Play { name: "marks_come_one_by_one", shape: SMALL, parts: &[BEGUN_TURNED, BOTH_MARKED] },
    // Where no object lives there is none to be marked, so the epoch rises at once.
    Play { name: "no_mark_is_needed", shape: SMALL, parts: &[NO_MARK] },
    // The logs were chosen in the other order.
    Play {
        name: "a_round_is_given_up_while_marking", shape: SMALL,
        parts: &[BEGUN_TURNED, GIVEN_UP_MARKING, AS_BEFORE],
    },
    Play {
        name: "a_round_is_given_up_while_waiting", shape: SMALL,
        parts: &[BEGUN_TURNED, GIVEN_UP_WAITING, AS_BEFORE],
    },
    // What has left stays away, and a log that was given back stays free.
    Play { name: "a_round_is_given_up_midway", shape: SMALL, parts: &[GIVEN_UP_MIDWAY] },
    // A log in which one of two objects was dealt with is sealed as it was; the next round takes the other.
    Play { name: "a_log_is_half_empty", shape: FIVE, parts: &[HALF_EMPTY, EMPTY] },
];

#[test]
fn rounds_are_given_up(rt: HostRuntime) {
    play(&rt, rt.alloc(), PLAYS);
}
