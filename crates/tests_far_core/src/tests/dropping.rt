//! What an owner asks for, and what the book retires.

use crate::tests::acts::Act::*;
use crate::tests::acts::{Act, Play, TWO_OWNERS};
use crate::tests::peopled::PEOPLED;
use crate::tests::stage::play;
use far_core::Event::*;
use far_core::Reply::*;
use far_word::Mark::{Dropped, Evac, Hot, Moved};

const PLACED: u64 = 0x8600_0000_0701_0008;

const MOVING: u64 = 0x9600_0000_0701_0008;

const DROPPED: u64 = 0x9e00_0000_0701_0008;

#[rattlefmt::skip]
const NOT_ASKED: &[Act] = &[
    Refuses(&[
        Ask { owner: 0, pointer: 0, mark: Dropped },
        Ask { owner: 0, pointer: 1, mark: Moved },
        Ask { owner: 0, pointer: 2, mark: Hot },
        Ask { owner: 0, pointer: 2, mark: Evac },
        Ask { owner: 1, pointer: 2, mark: Dropped },
        Ask { owner: 2, pointer: 512, mark: Dropped },
        Name { pointer: 2, old: PLACED, new: 0 },
    ]),
];

#[rattlefmt::skip]
const RETIRED: &[Act] = &[
    Does(Ask { owner: 0, pointer: 2, mark: Moved }, Word(PLACED)),
    Does(Ask { owner: 0, pointer: 2, mark: Dropped }, Word(MOVING)),
    Does(Ask { owner: 0, pointer: 2, mark: Dropped }, Refused),
    Does(See { pointer: 2 }, Word(DROPPED)),
    Does(Name { pointer: 2, old: 0x8e00_0000_0701_0008, new: 0 }, Word(DROPPED)),
    Does(Name { pointer: 2, old: DROPPED, new: 0 }, Done),
    Does(See { pointer: 2 }, Word(0)),
    Used(2, false),
];

/// The parts that come first.
const FIRSTS: &[&[Act]] = &[PEOPLED];

#[rattlefmt::skip]
const PLAYS: &[Play] = &[
    Play { name: "a_request_of_what_may_not_be_asked", shape: TWO_OWNERS, honest: true, after: 1, parts: &[NOT_ASKED] },
    Play { name: "an_object_is_dropped_and_retired", shape: TWO_OWNERS, honest: true, after: 1, parts: &[RETIRED] },
];

#[test]
fn objects_are_dropped(rt: HostRuntime) {
    play(&rt, rt.alloc(), FIRSTS, PLAYS);
}
