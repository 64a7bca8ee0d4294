//! What owners are answered, by worked values, of objects that they view, that are marked, and that they drop.

use crate::tests::acts::Act::*;
use crate::tests::acts::{
    ADOPT, Act, CLOSE, DROP, HOT, LOAD, MARKED, MOVE, NEAR, NO_MARKS, OPEN, READ, SMALL, SOIL,
    STORE, WAS_HOT,
};
use crate::tests::stage::plays_parts;
use far_core::{Core, Event, Kind, Reply};
use far_word::Place;
use std::alloc::Global;

const FIRST: Place = Place { log: 0, at: 0 };

const THIRD: Place = Place { log: 2, at: 0 };

// Its owner views a new object.
const VIEWS: &[Act] = &[
    Makes(8, 0, (0, 0)),
    Owns(ADOPT, Reply::Word(NEAR)),
    Owns(READ, Reply::Epoch(0)),
    Owns(OPEN, Reply::Done),
    Owns(HOT, Reply::Held(FIRST)),
];

// What it views isn't dropped before it closes, and isn't used after.
const DROPS_AFTER_A_CLOSE: &[Act] = &[
    Owns(DROP, Reply::Refused),
    Owns(CLOSE, Reply::Done),
    Owns(DROP, Reply::Word(WAS_HOT)),
    Retires(0, true),
    Log(0, Kind::Open, [0, 16, 4080]),
    Owns(DROP, Reply::Refused),
];

const VIEWS_AND_DROPS: &[&[Act]] = &[VIEWS, DROPS_AFTER_A_CLOSE];

// Alone against a core in which what its owner holds may be dropped.
#[test]
fn an_object_that_is_viewed_is_not_dropped(rt: HostRuntime) {
    assert!(rt; plays_parts(&rt, VIEWS_AND_DROPS));
}

/// Whether each of these events is answered so.
pub(super) fn answers_all(core: &mut Core, events: &[(Event, Reply)]) -> bool {
    for (event, reply) in events {
        if core.step(*event) != *reply {
            return false;
        }
    }
    true
}

const PUT_FIRST: Event = Event::Put {
    log: 0,
    at: 0,
    word: 0xa200_0000_0100_0008,
};

const NAME_FIRST: Event = Event::Name {
    pointer: 0,
    old: 0,
    new: NEAR,
};

const PUT_FULL: Event = Event::Put {
    log: 1,
    at: 0,
    word: 0xa200_0001_0100_0ff8,
};

const NAME_FULL: Event = Event::Name {
    pointer: 1,
    old: 0,
    new: 0x8600_0004_0001_0ff8,
};

const MARK: Event = Event::Mark { pointer: 0 };

const SEE: Event = Event::See { pointer: 0 };

// Pointer 0's object is placed and viewed, and then another one fills log 1, so that log 0 is sealed. It is marked, viewed by nobody, and its owner gets it no
// more, but asks for it to move.
const VIEWS_NOTHING: &[(Event, Reply)] = &[
    (PUT_FIRST, Reply::Done),
    (NAME_FIRST, Reply::Done),
    (ADOPT, Reply::Word(NEAR)),
    (READ, Reply::Epoch(0)),
    (OPEN, Reply::Done),
    (HOT, Reply::Held(FIRST)),
    (CLOSE, Reply::Done),
    (PUT_FULL, Reply::Done),
    (NAME_FULL, Reply::Done),
    (READ, Reply::Epoch(0)),
    (MARK, Reply::Word(WAS_HOT)),
    (OPEN, Reply::Done),
    (HOT, Reply::Word(MARKED)),
    (MOVE, Reply::Word(MARKED)),
    (SEE, Reply::Word(0xf600_0000_0001_0008)),
];

fn views_nothing(alloc: Global) -> bool {
    match Core::new(alloc, SMALL, true) {
        Ok(mut core) => answers_all(&mut core, VIEWS_NOTHING),
        Err(_) => false,
    }
}

#[test]
fn a_marked_object_is_not_viewed(rt: HostRuntime) {
    assert!(rt; views_nothing(rt.alloc()));
}

// An owner stores a word into what it views and closes; another object seals its log then. The owner isn't given the object once it is marked, and asks for it
// to move.
const ASKS_FOR_A_MOVE: &[Act] = &[
    Owns(SOIL, Reply::Word(WAS_HOT)),
    Owns(STORE, Reply::Done),
    Owns(CLOSE, Reply::Done),
    Makes(4088, 1, (1, 0)),
    Owns(READ, Reply::Epoch(0)),
    Marks(0, Some(WAS_HOT)),
    Owns(OPEN, Reply::Done),
    Owns(HOT, Reply::Word(MARKED)),
    Owns(MOVE, Reply::Word(MARKED)),
];

// It is given it where it has come then.
const IS_GIVEN_IT: &[Act] = &[
    Moves(0, Some(Ok(Some(THIRD)))),
    Near(0, (2, 0), NO_MARKS),
    Owns(HOT, Reply::Held(THIRD)),
    Owns(CLOSE, Reply::Done),
    Does(&[READ, OPEN, HOT]),
    Owns(LOAD, Reply::Word(0xaa)),
];

const VIEWS_AND_MOVES: &[&[Act]] = &[VIEWS, ASKS_FOR_A_MOVE, IS_GIVEN_IT];

#[test]
fn an_owner_moves_what_is_marked(rt: HostRuntime) {
    assert!(rt; plays_parts(&rt, VIEWS_AND_MOVES));
}
