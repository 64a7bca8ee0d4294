//! What an owner asked for while a round goes on: a move, a drop, a far object.

use crate::tests::acts::Act::*;
use crate::tests::acts::Choice::{Eldest, Named};
use crate::tests::acts::{Act, End, Moved, Play};
use crate::tests::making::SMALL;
use crate::tests::stage::play;
use far_core::Shape;
use far_evac::{LogKind, Phase, Polled};
use far_word::{Mark, Place, Refused};

const ASKED_FOR: &[Act] = &[
    MakesMany(1, 8),
    MakesMany(1, 4088),
    Asks(0, Mark::Moved),
    Runs(Eldest, 1, 9, End::Done([0, 1, 0, 1])),
    Far(0),
];

const ASKED_ALONE: &[Act] = &[
    MakesMany(1, 8),
    Asks(0, Mark::Moved),
    ListsAsked(0, Place { log: 0, at: 0 }),
];

// Object 0 is far, and a second round deals with its objects. The far object comes near meanwhile, to a log that isn't the round's.
const FETCHED_MEANWHILE: &[Act] = &[
    MakesMany(1, 8),
    MakesMany(1, 4088),
    Runs(Eldest, 1, 9, End::Done([0, 1, 0, 1])),
    MakesMany(1, 4088),
    Selects(Eldest, 1, Ok(&[1])),
    Marks(2, Ok((1, Some(2)))),
    Polls(Ok(Polled::Clear)),
    In(Phase::Evacuating),
    Fetches(0),
    Clean(0, Place { log: 2, at: 0 }, false),
    Deals(2, [0, 1, 0, 1], true),
    Clean(0, Place { log: 2, at: 0 }, false),
    Log(1, LogKind::Free, [0, 0, 4096]),
];

const FIVE: Shape = Shape {
    logs: 5,
    mutators: 1,
    epoch: 0,
};

// Of three sealed logs the middle one is given back: the others stand in their order.
const MIDDLE_FREED: &[Act] = &[
    MakesMany(4, 4088),
    Drops(1),
    Runs(Named(&[1]), 1, 9, End::Done([0, 0, 0, 1])),
    Sealed(&[0, 2]),
];

// Logs 0 and 1 are to be emptied, and what lay in log 0 fills the last free log. An object that its owner has dropped is retired where it asked
// for a move, room or no room.
const RETIRED_WITHOUT_ROOM: &[Act] = &[
    MakesMany(3, 4088),
    Selects(Eldest, 2, Ok(&[0, 1])),
    Marks(3, Ok((2, Some(1)))),
    Asks(0, Mark::Moved),
    Moves(0, Moved::ToAnotherLog),
    Asks(1, Mark::Moved),
    Moves(1, Moved::Refused(Refused::NoRoom)),
    Asks(1, Mark::Dropped),
    Moves(1, Moved::Retired),
    Log(1, LogKind::Chosen, [0, 4096, 0]),
];

#[rattlefmt::skip]
const PLAYS: &[Play] = &[
    // An object that isn't hot goes far in a round, also where its owner asks for a move.
    Play { name: "who_asks_for_a_move_is_not_hot", shape: SMALL, parts: &[ASKED_FOR] },
    Play { name: "an_audit_lists_what_asks_for_a_move", shape: SMALL, parts: &[ASKED_ALONE] },
    Play { name: "a_fetch_while_objects_leave_keeps_out_of_the_round", shape: SMALL, parts: &[FETCHED_MEANWHILE] },
    Play { name: "a_log_given_back_leaves_the_order", shape: FIVE, parts: &[MIDDLE_FREED] },
    Play { name: "a_dropped_object_needs_no_room", shape: SMALL, parts: &[RETIRED_WITHOUT_ROOM] },
];

#[test]
fn owners_ask(rt: HostRuntime) {
    play(&rt, rt.alloc(), PLAYS);
}
