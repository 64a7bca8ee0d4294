//! Rounds that wait for a scope, and owners that move their objects themselves.

use crate::tests::acts::Act::*;
use crate::tests::acts::Choice::Eldest;
use crate::tests::acts::{Act, End, Play};
use crate::tests::making::SMALL;
use crate::tests::stage::play;
use far_evac::{LogKind, Phase, Polled};
use far_word::Place;

/// The cell of pointer 0, an object of 8 bytes of data structure 1 at the start of log 0, with HOT, EVAC and DIRTY; and without HOT.
const HOT_AND_LEAVING: u64 = 0xe600_0000_0001_0008;

const LEAVING: u64 = 0xa600_0000_0001_0008;

// Its owner views pointer 0, whose log is sealed.
const VIEWED: &[Act] = &[MakesMany(1, 8), MakesMany(1, 4088), Opens, Views(0)];

// A round of log 0 marks one object, and the epoch rises.
const ONE_MARKED: &[Act] = &[Selects(Eldest, 1, Ok(&[0])), Marks(9, Ok((1, Some(1))))];

// The round is clear once the scope is closed, and its one object moves.
const ENDS_ONCE_CLOSED: &[Act] = &[
    Closes,
    Polls(Ok(Polled::Clear)),
    Deals(9, [1, 0, 0, 1], true),
];

const STILL_OPEN: &[Act] = &[
    Polls(Ok(Polled::StillOpen(0, 0))),
    Polls(Ok(Polled::StillOpen(0, 0))),
];

const ALONE: &[Act] = &[
    RunsAlone(1, u64::MAX, End::Limit(Phase::Waiting)),
    Closes,
    GivesUp(Ok(())),
    RunsAlone(1, u64::MAX, End::Done([1, 0, 0, 1])),
];

// An owner reads the epoch.
const EPOCH_READ: &[Act] = &[
    MakesMany(1, 8),
    Writes(0, 0xaa),
    MakesMany(1, 4088),
    ReadsEpoch(0),
];

// The round is clear after that. The owner opens then, and isn't given what leaves, until it has moved it itself.
const OPENED_LATE: &[Act] = &[
    Polls(Ok(Polled::Clear)),
    OpensLate,
    Finds(0, HOT_AND_LEAVING),
    Views(0),
    Loads(0, 0xaa),
    Deals(9, [0, 0, 0, 1], true),
    Near(0, Place { log: 2, at: 0 }, true),
];

const WRITTEN_LATE: &[Act] = &[Stores(0, 0xbb), Polls(Ok(Polled::StillOpen(0, 0)))];

const READ_LATE: &[Act] = &[Reads(0, 0xbb)];

const MOVES_ITS_OWN: &[Act] = &[
    MakesMany(2, 8),
    MakesMany(1, 4088),
    Selects(Eldest, 1, Ok(&[0])),
    Marks(9, Ok((2, Some(1)))),
    Polls(Ok(Polled::Clear)),
    Opens,
    Views(0),
    Views(1),
    Deals(9, [0, 0, 0, 1], true),
];

// The first of two objects that are to leave is hot, and none is viewed.
const HOT_LEAVES: &[Act] = &[
    MakesMany(3, 4088),
    Opens,
    Views(0),
    Closes,
    Selects(Eldest, 2, Ok(&[0, 1])),
    Marks(9, Ok((2, Some(1)))),
    Polls(Ok(Polled::Clear)),
];

// The owner moves the second to the last free log, and the first goes far then.
const NO_ROOM_FOR_IT: &[Act] = &[
    Opens,
    Views(1),
    Log(3, LogKind::Open, [4096, 0, 0]),
    Deals(9, [0, 1, 0, 2], true),
    Far(0),
];

const SEALED: &[Act] = &[MakesMany(1, 8), MakesMany(1, 4088)];

// The object was hot before it left, so it moves.
const CLEAR_THOUGH_OPEN: &[Act] = &[
    Opens,
    Finds(0, LEAVING),
    Polls(Ok(Polled::Clear)),
    Deals(9, [1, 0, 0, 1], true),
    Pins(0),
];

#[rattlefmt::skip]
const PLAYS: &[Play] = &[
    Play {
        name: "a_round_waits_for_a_scope", shape: SMALL,
        parts: &[VIEWED, ONE_MARKED, STILL_OPEN, ENDS_ONCE_CLOSED],
    },
    // The first poll that finds the scope open ends it, however many turns are left; and a round alone goes on where none is.
    Play { name: "a_round_alone_ends_where_it_waits", shape: SMALL, parts: &[VIEWED, ALONE] },
    // It read the epoch before the round's, and opened after all were seen clear.
    Play { name: "a_scope_opens_at_an_old_epoch", shape: SMALL, parts: &[EPOCH_READ, ONE_MARKED, OPENED_LATE] },
    // What was viewed before its object was marked is viewed until the scope ends.
    Play {
        name: "a_view_outlives_a_mark", shape: SMALL,
        parts: &[VIEWED, ONE_MARKED, WRITTEN_LATE, ENDS_ONCE_CLOSED, READ_LATE],
    },
    // Alone against a walk that counts what has left already.
    Play { name: "an_owner_moves_its_objects_first", shape: SMALL, parts: &[MOVES_ITS_OWN] },
    // The owner's move took the last free log, so the first object goes far.
    Play { name: "a_hot_object_goes_far_without_room", shape: SMALL, parts: &[HOT_LEAVES, NO_ROOM_FOR_IT] },
    // An owner who opened after the epoch rose is clear, and is refused what leaves.
    Play { name: "a_new_scope_is_clear", shape: SMALL, parts: &[SEALED, ONE_MARKED, CLEAR_THOUGH_OPEN] },
];

#[test]
fn rounds_wait(rt: HostRuntime) {
    play(&rt, rt.alloc(), PLAYS);
}
