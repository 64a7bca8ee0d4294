//! Objects that go to another place, near or far before.

use crate::tests::acts::Act::*;
use crate::tests::acts::{Act, Play, TWO_OWNERS};
use crate::tests::stage::play;
use far_core::Event::*;
use far_core::Kind;
use far_core::Reply::*;
use far_word::Mark::Moved;
use far_word::Place;

/// The cell of pointer 1, an object of 9 bytes at word 3 of log 0: as it was placed, viewed before, and asked to be moved then.
const PLACED: u64 = 0x8600_0000_0301_0009;

const VIEWED: u64 = 0xc600_0000_0301_0009;

const MOVING: u64 = 0xd600_0000_0301_0009;

/// The same object at the open log's tail, at the start of log 1, and far.
const AT_TAIL: u64 = 0x8600_0000_0601_0009;

const AT_START: u64 = 0x8600_0004_0001_0009;

const FAR: u64 = 0x0400_0000_0001_0009;

/// As it would come near at that tail, and as it comes at the tail of log 2: without DIRTY.
const FETCHED: u64 = 0x8400_0000_0601_0009;

const BACK: u64 = 0x8400_0008_0201_0009;

const HEADER: u64 = 0xa200_0001_0100_0009;

const FIRST: u64 = 0x0807_0605_0403_0201;

const OPENED: &[Act] = &[
    Does(ReadEpoch { owner: 0 }, Epoch(5)),
    Does(Open { owner: 0 }, Done),
];

/// Pointer 0's object lies below pointer 1's, at word 3 of log 0, and owner 0 uses both.
#[rattlefmt::skip]
const MADE: &[Act] = &[
    Does(Put { log: 0, at: 0, word: 0xa200_0000_0100_0009 }, Done),
    Does(Name { pointer: 0, old: 0, new: 0x8600_0000_0001_0009 }, Done),
    Does(Put { log: 0, at: 3, word: HEADER }, Done),
    Does(Name { pointer: 1, old: 0, new: PLACED }, Done),
    Does(Adopt { owner: 0, pointer: 0 }, Word(0x8600_0000_0001_0009)),
    Does(Adopt { owner: 0, pointer: 1 }, Word(PLACED)),
];

/// Owner 0, whose scope is open, stores bytes 1 to 9 in pointer 1's object and closes it. Header and words of pointer 1 are
/// written at the tail, 6, and at the start of log 1.
#[rattlefmt::skip]
const WRITTEN: &[Act] = &[
    Does(Pin { owner: 0, pointer: 1 }, Held(Place { log: 0, at: 3 })),
    Does(Soil { owner: 0, pointer: 1 }, Word(VIEWED)),
    Does(Store { owner: 0, pointer: 1, index: 0, word: FIRST }, Done),
    Does(Store { owner: 0, pointer: 1, index: 1, word: 9 }, Done),
    Does(Close { owner: 0 }, Done),
    Does(Put { log: 0, at: 6, word: HEADER }, Done),
    Does(Put { log: 0, at: 7, word: FIRST }, Done),
    Does(Put { log: 0, at: 8, word: 9 }, Done),
    Does(Put { log: 1, at: 0, word: HEADER }, Done),
    Does(Put { log: 1, at: 1, word: FIRST }, Done),
    Does(Put { log: 1, at: 2, word: 9 }, Done),
];

/// The viewed object has bytes 1 to 9 still.
#[rattlefmt::skip]
const KEPT: &[Act] = &[
    Does(Load { owner: 0, pointer: 1, index: 0 }, Word(FIRST)),
    Does(Load { owner: 0, pointer: 1, index: 1 }, Word(9)),
];

#[rattlefmt::skip]
const MOVED_TO_TAIL: &[Act] = &[
    Does(Ask { owner: 0, pointer: 1, mark: Moved }, Word(VIEWED)),
    Does(Name { pointer: 1, old: VIEWED, new: AT_TAIL }, Word(MOVING)),
    Does(Name { pointer: 1, old: MOVING, new: AT_TAIL }, Done),
    Does(See { pointer: 1 }, Word(AT_TAIL)),
    Does(Name { pointer: 1, old: MOVING, new: AT_TAIL }, Refused),
    Log(0, Kind::Open, 9),
];

#[rattlefmt::skip]
const HELD_AT_TAIL: &[Act] = &[
    Does(Pin { owner: 0, pointer: 1 }, Held(Place { log: 0, at: 6 })),
];

#[rattlefmt::skip]
const MOVED_TO_START: &[Act] = &[
    Does(Ask { owner: 0, pointer: 1, mark: Moved }, Word(VIEWED)),
    Does(Name { pointer: 1, old: MOVING, new: AT_START }, Done),
    Log(0, Kind::Sealed, 6),
    Log(1, Kind::Open, 3),
];

#[rattlefmt::skip]
const HELD_AT_START: &[Act] = &[
    Does(Pin { owner: 0, pointer: 1 }, Held(Place { log: 1, at: 0 })),
];

#[rattlefmt::skip]
const STAYS_UNASKED: &[Act] = &[
    Refuses(&[Name { pointer: 1, old: VIEWED, new: AT_TAIL }]),
];

#[rattlefmt::skip]
const STAYS_HELD: &[Act] = &[
    Does(Pin { owner: 0, pointer: 1 }, Held(Place { log: 0, at: 3 })),
    Refuses(&[
        Name { pointer: 1, old: VIEWED, new: AT_TAIL },
        Ask { owner: 0, pointer: 1, mark: Moved },
    ]),
];

#[rattlefmt::skip]
const ONLY_MARKED: &[Act] = &[
    Does(Put { log: 2, at: 0, word: 0xa200_0002_0100_0008 }, Done),
    Does(Name { pointer: 2, old: 0, new: 0x8600_0008_0001_0008 }, Done),
    Does(Mark { pointer: 1 }, Word(VIEWED)),
    Does(See { pointer: 1 }, Word(0xe600_0000_0301_0009)),
    Refuses(&[Name { pointer: 1, old: 0xe600_0000_0301_0009, new: AT_START }]),
];

#[rattlefmt::skip]
const MOVES_NOTHING: &[Act] = &[
    Does(Ask { owner: 0, pointer: 1, mark: Moved }, Word(VIEWED)),
    Refuses(&[
        // Marks on the new word; DIRTY lost; another length; another data structure.
        Name { pointer: 1, old: MOVING, new: AT_TAIL | 1 << 62 },
        Name { pointer: 1, old: MOVING, new: AT_TAIL | 1 << 60 },
        Name { pointer: 1, old: MOVING, new: FETCHED },
        Name { pointer: 1, old: MOVING, new: 0x8600_0000_0601_0008 },
        Name { pointer: 1, old: MOVING, new: 0x8600_0000_0602_0009 },
        // A dropped word; a place in log 5; another pointer; no new span.
        Name { pointer: 1, old: 0xde00_0000_0301_0009, new: AT_TAIL },
        Name { pointer: 1, old: 0xd600_0014_0301_0009, new: AT_TAIL },
        Name { pointer: 0, old: 0x8600_0000_0001_0009, new: AT_TAIL },
        Name { pointer: 1, old: MOVING, new: 0x8600_0000_0701_0009 },
        Name { pointer: 1, old: MOVING, new: 0x8600_0004_0101_0009 },
        Name { pointer: 1, old: MOVING, new: 0x8600_0008_0001_0009 },
    ]),
];

#[rattlefmt::skip]
const HALF_COPIED: &[Act] = &[
    Does(Ask { owner: 0, pointer: 1, mark: Moved }, Word(VIEWED)),
    Does(Put { log: 0, at: 8, word: 8 }, Done),
    Does(Name { pointer: 1, old: MOVING, new: AT_TAIL }, Refused),
    Does(Put { log: 0, at: 8, word: 9 }, Done),
    Does(Put { log: 0, at: 7, word: 0 }, Done),
    Does(Name { pointer: 1, old: MOVING, new: AT_TAIL }, Refused),
    Does(Put { log: 0, at: 7, word: FIRST }, Done),
    Does(Put { log: 0, at: 6, word: 0xa200_0000_0100_0009 }, Done),
    Does(Name { pointer: 1, old: MOVING, new: AT_TAIL }, Refused),
    Does(Put { log: 0, at: 6, word: HEADER }, Done),
    Does(Name { pointer: 1, old: MOVING, new: AT_TAIL }, Done),
];

#[rattlefmt::skip]
const NOT_FETCHED: &[Act] = &[
    Refuses(&[
        Name { pointer: 1, old: FAR, new: FETCHED },
        Name { pointer: 3, old: FAR, new: FETCHED },
        Name { pointer: 1, old: FAR | 1 << 59, new: FETCHED },
    ]),
];

#[rattlefmt::skip]
const FETCHED_LATE: &[Act] = &[
    Does(Name { pointer: 1, old: FAR, new: FETCHED }, Word(VIEWED)),
    Does(Name { pointer: 1, old: FAR | 1 << 59, new: FETCHED }, Refused),
    Does(Name { pointer: 1, old: FAR, new: 0x8400_0000_0601_0008 }, Refused),
    Does(Put { log: 0, at: 8, word: 0x100 }, Done),
    Does(Name { pointer: 1, old: FAR, new: FETCHED }, Refused),
];

/// Log 2 is open, its tail 2, and pointer 1's object far.
#[rattlefmt::skip]
const AWAY: &[Act] = &[
    Does(Put { log: 2, at: 0, word: 0xa200_0002_0100_0008 }, Done),
    Does(Name { pointer: 2, old: 0, new: 0x8600_0008_0001_0008 }, Done),
    Does(Mark { pointer: 1 }, Word(VIEWED)),
    Does(Ask { owner: 0, pointer: 1, mark: Moved }, Word(0xe600_0000_0301_0009)),
    Does(Name { pointer: 1, old: 0xf600_0000_0301_0009, new: FAR }, Done),
    Does(See { pointer: 1 }, Word(FAR)),
];

#[rattlefmt::skip]
const COME_BACK: &[Act] = &[
    Does(Put { log: 2, at: 2, word: HEADER }, Done),
    Does(Put { log: 2, at: 3, word: FIRST }, Done),
    Does(Put { log: 2, at: 4, word: 9 }, Done),
    Does(Name { pointer: 1, old: FAR, new: BACK | 1 << 57 }, Refused),
    Does(Name { pointer: 1, old: FAR, new: BACK }, Done),
    Does(Name { pointer: 1, old: FAR, new: BACK }, Refused),
    Log(2, Kind::Open, 5),
];

#[rattlefmt::skip]
const HELD_IN_2: &[Act] = &[
    Does(Pin { owner: 0, pointer: 1 }, Held(Place { log: 2, at: 2 })),
];

#[rattlefmt::skip]
const OTHER_WORDS: &[Act] = &[
    Does(Put { log: 2, at: 2, word: HEADER }, Done),
    Does(Put { log: 2, at: 3, word: FIRST }, Done),
    Does(Put { log: 2, at: 4, word: 8 }, Done),
    Does(Name { pointer: 1, old: FAR, new: BACK }, Refused),
    Does(Put { log: 2, at: 3, word: 0 }, Done),
    Does(Put { log: 2, at: 4, word: 9 }, Done),
    Does(Name { pointer: 1, old: FAR, new: BACK }, Refused),
    Does(Put { log: 2, at: 3, word: FIRST }, Done),
    Does(Name { pointer: 1, old: FAR | 1 << 59, new: BACK }, Refused),
    Does(Name { pointer: 1, old: FAR | 1 << 62, new: BACK }, Word(FAR)),
    Does(Name { pointer: 1, old: FAR, new: BACK }, Done),
];

#[rattlefmt::skip]
const ANY_WORDS: &[Act] = &[
    Does(Put { log: 2, at: 2, word: HEADER }, Done),
    Does(Put { log: 2, at: 3, word: u64::MAX }, Done),
    Does(Put { log: 2, at: 4, word: 0x100 }, Done),
    Does(Name { pointer: 1, old: FAR, new: BACK }, Refused),
    Does(Put { log: 2, at: 4, word: 0xff }, Done),
    Does(Name { pointer: 1, old: FAR, new: BACK }, Done),
];

#[rattlefmt::skip]
const ANY_LOADED: &[Act] = &[
    Does(Load { owner: 0, pointer: 1, index: 0 }, Word(u64::MAX)),
    Does(Load { owner: 0, pointer: 1, index: 1 }, Word(0xff)),
];

/// The parts that come first.
const FIRSTS: &[&[Act]] = &[MADE, OPENED, WRITTEN, AWAY];

#[rattlefmt::skip]
const PLAYS: &[Play] = &[
    Play {
        name: "an_object_moves_to_the_tail", shape: TWO_OWNERS, honest: true, after: 3,
        parts: &[MOVED_TO_TAIL, OPENED, HELD_AT_TAIL, KEPT],
    },
    Play {
        name: "an_object_moves_into_a_free_log", shape: TWO_OWNERS, honest: true, after: 3,
        parts: &[MOVED_TO_START, OPENED, HELD_AT_START, KEPT],
    },
    Play {
        name: "an_object_that_is_not_quiet_stays", shape: TWO_OWNERS, honest: true, after: 3,
        parts: &[STAYS_UNASKED, OPENED, STAYS_HELD],
    },
    // EVAC in a log that is in no round makes nothing quiet.
    Play {
        name: "an_object_that_is_only_marked_stays", shape: TWO_OWNERS, honest: true, after: 3,
        parts: &[ONLY_MARKED],
    },
    Play {
        name: "words_that_move_nothing_refuse", shape: TWO_OWNERS, honest: true, after: 3,
        parts: &[MOVES_NOTHING],
    },
    Play {
        name: "a_copy_that_is_not_whole_refuses", shape: TWO_OWNERS, honest: true, after: 3,
        parts: &[HALF_COPIED],
    },
    // Of an object that isn't far no words are stored, so with an honest far side none come near; with another any may, with
    // zeros after the last byte.
    Play {
        name: "what_is_not_far_is_not_fetched", shape: TWO_OWNERS, honest: true, after: 3,
        parts: &[NOT_FETCHED],
    },
    Play {
        name: "what_is_not_far_is_not_fetched", shape: TWO_OWNERS, honest: false, after: 3,
        parts: &[FETCHED_LATE],
    },
    Play {
        name: "an_object_goes_away_and_comes_back", shape: TWO_OWNERS, honest: true, after: 4,
        parts: &[COME_BACK, OPENED, HELD_IN_2, KEPT],
    },
    Play {
        name: "other_words_than_those_stored_refuse", shape: TWO_OWNERS, honest: true, after: 4,
        parts: &[OTHER_WORDS],
    },
    Play {
        name: "a_lying_far_side_gives_any_words", shape: TWO_OWNERS, honest: false, after: 4,
        parts: &[ANY_WORDS, OPENED, HELD_IN_2, ANY_LOADED],
    },
];

#[test]
fn objects_move(rt: HostRuntime) {
    play(&rt, rt.alloc(), FIRSTS, PLAYS);
}
