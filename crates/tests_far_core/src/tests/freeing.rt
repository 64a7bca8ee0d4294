//! Words that the book reads, and logs that it gives back.

use crate::tests::acts::Act::*;
use crate::tests::acts::{Act, Play, SMALL};
use crate::tests::stage::play;
use far_core::Event::*;
use far_core::Kind;
use far_core::Reply::*;
use far_word::Mark::Dropped;
use far_word::Place;

/// The header and the cell of pointer 0, an object of 4,088 bytes that fills log 0.
const WHOLE_HEADER: u64 = 0xa200_0000_0100_0ff8;

const WHOLE: u64 = 0x8600_0000_0001_0ff8;

const DROPPED: u64 = 0x8e00_0000_0001_0ff8;

/// The cell once the object was viewed, far, and near again at the start of log 2.
const VIEWED: u64 = 0xc600_0000_0001_0ff8;

const FAR: u64 = 0x0400_0000_0001_0ff8;

const BACK: u64 = 0x8400_0008_0001_0ff8;

/// Log 0 is sealed and full of pointer 0's object, and log 1 is open.
#[rattlefmt::skip]
const SEALED: &[Act] = &[
    Does(Put { log: 0, at: 0, word: WHOLE_HEADER }, Done),
    Does(Name { pointer: 0, old: 0, new: WHOLE }, Done),
    Does(Put { log: 1, at: 0, word: 0xa200_0001_0100_0008 }, Done),
    Does(Name { pointer: 1, old: 0, new: 0x8600_0004_0001_0008 }, Done),
    Does(Adopt { owner: 0, pointer: 0 }, Word(WHOLE)),
];

#[rattlefmt::skip]
const NOT_GIVEN_BACK: &[Act] = &[
    Refuses(&[
        Get { log: 0, at: 0, free: true },
        Get { log: 1, at: 0, free: true },
        Get { log: 2, at: 0, free: true },
        Get { log: 4, at: 0, free: false },
        Get { log: 0, at: 512, free: false },
    ]),
];

const NOT_MARKED: &[Act] = &[Refuses(&[
    Mark { pointer: 1 },
    Mark { pointer: 2 },
    Mark { pointer: 256 },
    See { pointer: 256 },
])];

#[rattlefmt::skip]
const GIVEN_BACK: &[Act] = &[
    Does(Get { log: 0, at: 0, free: false }, Word(WHOLE_HEADER)),
    Does(Ask { owner: 0, pointer: 0, mark: Dropped }, Word(WHOLE)),
    Does(Get { log: 0, at: 0, free: true }, Refused),
    Does(Name { pointer: 0, old: DROPPED, new: 0 }, Done),
    Does(Get { log: 0, at: 0, free: true }, Word(WHOLE_HEADER)),
    Does(Get { log: 0, at: 0, free: true }, Refused),
    Does(Get { log: 0, at: 0, free: false }, Word(WHOLE_HEADER)),
    Does(Put { log: 0, at: 0, word: 0 }, Done),
    Log(0, Kind::Free, 0),
    Log(1, Kind::Open, 2),
];

/// The owner stores the object's last word; the object goes far, and its log is given back.
#[rattlefmt::skip]
const SENT_FAR: &[Act] = &[
    Does(ReadEpoch { owner: 0 }, Epoch(0)),
    Does(Open { owner: 0 }, Done),
    Does(Pin { owner: 0, pointer: 0 }, Held(Place { log: 0, at: 0 })),
    Does(Soil { owner: 0, pointer: 0 }, Word(VIEWED)),
    Does(Store { owner: 0, pointer: 0, index: 511, word: 5 }, Refused),
    Does(Store { owner: 0, pointer: 0, index: 510, word: 5 }, Done),
    Does(Close { owner: 0 }, Done),
    Does(Mark { pointer: 0 }, Word(VIEWED)),
    Does(Advance { logs: 1 }, Epoch(1)),
    Does(Look { owner: 0 }, Word(0)),
    Does(Name { pointer: 0, old: VIEWED | 1 << 61, new: FAR }, Done),
    Does(Get { log: 0, at: 511, free: true }, Word(5)),
];

#[rattlefmt::skip]
const COME_BACK: &[Act] = &[
    Does(Put { log: 2, at: 0, word: WHOLE_HEADER }, Done),
    Does(Name { pointer: 0, old: FAR, new: BACK }, Refused),
    Does(Put { log: 2, at: 511, word: 5 }, Done),
    Does(Name { pointer: 0, old: FAR, new: BACK }, Done),
    Log(2, Kind::Open, 512),
    Does(ReadEpoch { owner: 0 }, Epoch(1)),
    Does(Open { owner: 0 }, Done),
    Does(Pin { owner: 0, pointer: 0 }, Held(Place { log: 2, at: 0 })),
    Does(Load { owner: 0, pointer: 0, index: 0 }, Word(0)),
    Does(Load { owner: 0, pointer: 0, index: 510 }, Word(5)),
];

/// The parts that come first.
const FIRSTS: &[&[Act]] = &[SEALED];

#[rattlefmt::skip]
const PLAYS: &[Play] = &[
    Play { name: "a_log_that_may_not_be_given_back", shape: SMALL, honest: true, after: 1, parts: &[NOT_GIVEN_BACK] },
    Play { name: "a_pointer_that_may_not_be_marked", shape: SMALL, honest: true, after: 1, parts: &[NOT_MARKED] },
    Play { name: "a_log_is_given_back", shape: SMALL, honest: true, after: 1, parts: &[GIVEN_BACK] },
    Play { name: "the_longest_object_goes_away", shape: SMALL, honest: true, after: 1, parts: &[SENT_FAR, COME_BACK] },
];

#[test]
fn logs_are_given_back(rt: HostRuntime) {
    play(&rt, rt.alloc(), FIRSTS, PLAYS);
}
