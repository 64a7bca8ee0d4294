//! Each event's own call, and what a core shows after it.

use crate::tests::acts::Act::*;
use crate::tests::acts::{Act, Play, SMALL, TWO_OWNERS};
use crate::tests::peopled::{HEADER, NEAR, PEOPLED};
use crate::tests::stage::play;
use far_core::Event::*;
use far_core::Kind;
use far_core::Reply::*;
use far_word::Mark::Dropped;
use far_word::Place;

const FIRST: Place = Place { log: 0, at: 0 };

/// The header and the cell of an object of 4,088 bytes there.
const WHOLE_HEADER: u64 = 0xa200_0000_0100_0ff8;

const WHOLE: u64 = 0x8600_0000_0001_0ff8;

/// Pointer 0's object is made and taken over.
#[rattlefmt::skip]
const FIRST_MADE: &[Act] = &[
    Calls(Put { log: 0, at: 0, word: HEADER }, Done),
    WordAt(FIRST, HEADER),
    Calls(Name { pointer: 0, old: 0, new: NEAR }, Done),
    Starts(FIRST, true),
    Starts(Place { log: 0, at: 1 }, false),
    Calls(See { pointer: 0 }, Word(NEAR)),
    Calls(Adopt { owner: 0, pointer: 1 }, Refused),
    Calls(Adopt { owner: 0, pointer: 0 }, Word(NEAR)),
];

/// It is viewed, and its word stored and loaded.
#[rattlefmt::skip]
const FIRST_VIEWED: &[Act] = &[
    Calls(ReadEpoch { owner: 0 }, Epoch(5)),
    Scope(0, 0, Some(5)),
    Calls(Open { owner: 0 }, Done),
    Scope(0, 2 * 5 + 1, Some(5)),
    Calls(Pin { owner: 0, pointer: 0 }, Held(FIRST)),
    HeldAt(0, Some(FIRST)),
    Calls(Store { owner: 0, pointer: 0, index: 0, word: 1 }, Refused),
    Calls(Soil { owner: 0, pointer: 0 }, Word(0xc600_0000_0001_0008)),
    Calls(Store { owner: 0, pointer: 0, index: 0, word: 0x0807_0605_0403_0201 }, Done),
    Calls(Load { owner: 0, pointer: 0, index: 0 }, Word(0x0807_0605_0403_0201)),
    WordAt(Place { log: 0, at: 1 }, 0x0807_0605_0403_0201),
    Calls(Close { owner: 0 }, Done),
    Scope(0, 0, None),
    HeldAt(0, None),
    Begun(5, true),
];

#[rattlefmt::skip]
const MARKED: &[Act] = &[
    Does(Put { log: 1, at: 0, word: 0xa200_0003_0100_0008 }, Done),
    Does(Name { pointer: 3, old: 0, new: 0x8600_0004_0001_0008 }, Done),
    Calls(Mark { pointer: 2 }, Word(0x8600_0000_0701_0008)),
    Calls(See { pointer: 2 }, Word(0xa600_0000_0701_0008)),
    Calls(Pin { owner: 0, pointer: 2 }, Word(0xa600_0000_0701_0008)),
    HeldAt(2, None),
];

#[rattlefmt::skip]
const CELL_FOUND: &[Act] = &[
    Calls(Put { log: 0, at: 9, word: 0xa200_0001_0100_0008 }, Done),
    WordAt(Place { log: 0, at: 9 }, 0xa200_0001_0100_0008),
    Calls(Name { pointer: 1, old: 0, new: 0x8600_0000_0901_0008 }, Word(0x8600_0000_0301_0008)),
    Starts(Place { log: 0, at: 9 }, false),
];

/// Pointer 0's object fills log 0 and is taken over; another one opens log 1.
#[rattlefmt::skip]
const FIRST_FILLED: &[Act] = &[
    Calls(Put { log: 0, at: 0, word: WHOLE_HEADER }, Done),
    WordAt(FIRST, WHOLE_HEADER),
    Calls(Name { pointer: 0, old: 0, new: WHOLE }, Done),
    Calls(Put { log: 1, at: 0, word: 0xa200_0001_0100_0008 }, Done),
    WordAt(Place { log: 1, at: 0 }, 0xa200_0001_0100_0008),
    Calls(Name { pointer: 1, old: 0, new: 0x8600_0004_0001_0008 }, Done),
    Calls(Adopt { owner: 0, pointer: 0 }, Word(WHOLE)),
];

#[rattlefmt::skip]
const GIVEN_BACK: &[Act] = &[
    Calls(Ask { owner: 0, pointer: 0, mark: Dropped }, Word(WHOLE)),
    Used(0, false),
    May(Get { log: 0, at: 0, free: true }, false),
    May(Name { pointer: 0, old: WHOLE, new: 0 }, false),
    May(Name { pointer: 0, old: 0x8e00_0000_0001_0ff8, new: 0 }, true),
    Calls(Name { pointer: 0, old: 0x8e00_0000_0001_0ff8, new: 0 }, Done),
    May(Get { log: 0, at: 0, free: true }, true),
    Calls(Get { log: 0, at: 0, free: true }, Word(WHOLE_HEADER)),
    Log(0, Kind::Free, 0),
];

/// The parts that come first.
const FIRSTS: &[&[Act]] = &[PEOPLED];

#[rattlefmt::skip]
const PLAYS: &[Play] = &[
    Play { name: "object_is_made_and_viewed", shape: TWO_OWNERS, honest: true, after: 0, parts: &[FIRST_MADE, FIRST_VIEWED] },
    Play { name: "marked_object_is_not_viewed", shape: TWO_OWNERS, honest: true, after: 1, parts: &[MARKED] },
    Play { name: "named_cell_is_found", shape: TWO_OWNERS, honest: true, after: 1, parts: &[CELL_FOUND] },
    Play {
        name: "log_of_a_dropped_object_is_given_back", shape: SMALL, honest: true, after: 0,
        parts: &[FIRST_FILLED, GIVEN_BACK],
    },
];

#[test]
fn events_by_their_own_calls(rt: HostRuntime) {
    play(&rt, rt.alloc(), FIRSTS, PLAYS);
}
