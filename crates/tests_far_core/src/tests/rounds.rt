//! Rounds: how they begin, who is seen clear in them, and what may be done to their objects then.

use crate::tests::acts::Act::*;
use crate::tests::acts::{Act, Play, SMALL, TWO_OWNERS};
use crate::tests::peopled::{HEADER, NEAR, SETTLED};
use crate::tests::stage::play;
use far_core::Event::*;
use far_core::Reply::*;
use far_core::Shape;
use far_word::Mark::Dropped;
use far_word::Place;

const WITH_EVAC: u64 = 0xa600_0000_0001_0008;

const WITH_HOT: u64 = 0xc600_0000_0001_0008;

const WITH_HOT_AND_EVAC: u64 = 0xe600_0000_0001_0008;

const FAR: u64 = 0x0400_0000_0001_0008;

const MOVED: u64 = 0x8600_0004_0201_0008;

#[rattlefmt::skip]
const BEGINS: &[Act] = &[
    Refuses(&[
        Advance { logs: 1 },
        Advance { logs: 2 },
        Advance { logs: 4 },
        Advance { logs: 16 },
        Advance { logs: 1 << 63 },
    ]),
    Does(Mark { pointer: 0 }, Word(NEAR)),
    Refuses(&[
        Advance { logs: 2 },
        Advance { logs: 3 },
        Advance { logs: 17 },
        Advance { logs: 1 | 1 << 63 },
    ]),
    Does(Advance { logs: 1 }, Epoch(1)),
    InRound(0, true),
    InRound(1, false),
    SeenClear(0, false),
    Begun(1, true),
];

#[rattlefmt::skip]
const DROPPED_TOO: &[Act] = &[
    Does(Ask { owner: 0, pointer: 0, mark: Dropped }, Word(NEAR)),
    Refuses(&[Advance { logs: 1 }]),
    Does(Mark { pointer: 0 }, Word(NEAR | 1 << 59)),
    Does(Advance { logs: 1 }, Epoch(1)),
];

const LAST_BUT_ONE: Shape = Shape {
    logs: 4,
    mutators: 1,
    epoch: (1 << 62) - 2,
};

const LAST_EPOCH: &[Act] = &[
    Does(Advance { logs: 0 }, Epoch((1 << 62) - 1)),
    Refuses(&[Advance { logs: 0 }]),
];

const ONE_IS_CLEAR: &[Act] = &[
    Does(ReadEpoch { owner: 0 }, Epoch(5)),
    Does(ReadEpoch { owner: 1 }, Epoch(5)),
    Does(Open { owner: 1 }, Done),
    Does(Mark { pointer: 0 }, Word(NEAR)),
    Does(Advance { logs: 1 }, Epoch(6)),
    Does(Look { owner: 1 }, Word(11)),
    SeenClear(1, false),
    Does(Look { owner: 0 }, Word(0)),
    SeenClear(0, true),
];

const BOTH_ARE_CLEAR: &[Act] = &[
    Does(Open { owner: 0 }, Done),
    Does(Look { owner: 0 }, Word(11)),
    Does(Close { owner: 1 }, Done),
    Does(ReadEpoch { owner: 1 }, Epoch(6)),
    Does(Open { owner: 1 }, Done),
    Does(Look { owner: 1 }, Word(13)),
    SeenClear(0, true),
    SeenClear(1, true),
    Refuses(&[Look { owner: 2 }]),
    Does(Advance { logs: 1 }, Epoch(7)),
    SeenClear(0, false),
    SeenClear(1, false),
];

#[rattlefmt::skip]
const STALE: &[Act] = &[
    Does(ReadEpoch { owner: 0 }, Epoch(0)),
    Does(Open { owner: 0 }, Done),
    Does(Pin { owner: 0, pointer: 0 }, Held(Place { log: 0, at: 0 })),
    Does(Store { owner: 0, pointer: 0, index: 0, word: 0xaa }, Refused),
    Does(Soil { owner: 0, pointer: 0 }, Word(0xc600_0000_0001_0008)),
    Does(Store { owner: 0, pointer: 0, index: 0, word: 0xaa }, Done),
    Does(Close { owner: 0 }, Done),
    Does(ReadEpoch { owner: 0 }, Epoch(0)),
    Does(Mark { pointer: 0 }, Word(WITH_HOT)),
    Does(Advance { logs: 1 }, Epoch(1)),
    Does(Look { owner: 0 }, Word(0)),
    Does(Open { owner: 0 }, Done),
    Does(Pin { owner: 0, pointer: 0 }, Word(WITH_HOT_AND_EVAC)),
    Pointer(0, WITH_HOT_AND_EVAC, true, false),
];

#[rattlefmt::skip]
const SENT_FAR: &[Act] = &[
    Does(Look { owner: 0 }, Word(0)),
    Does(Mark { pointer: 0 }, Word(NEAR)),
    Refuses(&[Name { pointer: 0, old: WITH_EVAC, new: FAR }]),
    Does(Advance { logs: 1 }, Epoch(1)),
    Refuses(&[Name { pointer: 0, old: WITH_EVAC, new: FAR }]),
    Does(Look { owner: 0 }, Word(0)),
    Does(Name { pointer: 0, old: WITH_EVAC, new: FAR }, Done),
    Does(Get { log: 0, at: 0, free: true }, Word(HEADER)),
    InRound(0, false),
];

#[rattlefmt::skip]
const MOVED_BY_ROUND: &[Act] = &[
    Does(Mark { pointer: 0 }, Word(NEAR)),
    Does(Put { log: 1, at: 2, word: HEADER }, Done),
    May(Advance { logs: 1 }, true),
    Calls(Advance { logs: 1 }, Epoch(1)),
    Calls(Look { owner: 0 }, Word(0)),
    Does(Name { pointer: 0, old: WITH_EVAC, new: MOVED }, Done),
];

#[rattlefmt::skip]
const CLEARED: &[Act] = &[
    Does(Mark { pointer: 0 }, Word(NEAR)),
    Does(Advance { logs: 1 }, Epoch(1)),
    Does(Look { owner: 0 }, Word(0)),
    Does(Clear { pointer: 0 }, Word(WITH_EVAC)),
    Does(Mark { pointer: 0 }, Word(NEAR)),
    InRound(0, false),
    Refuses(&[Name { pointer: 0, old: WITH_EVAC, new: FAR }]),
];

/// The parts that come first.
const FIRSTS: &[&[Act]] = &[SETTLED];

#[rattlefmt::skip]
const PLAYS: &[Play] = &[
    Play { name: "a_round_begins", shape: SMALL, honest: true, after: 1, parts: &[BEGINS] },
    Play { name: "a_dropped_object_is_marked_too", shape: SMALL, honest: true, after: 1, parts: &[DROPPED_TOO] },
    Play { name: "the_epoch_stays_below_its_end", shape: LAST_BUT_ONE, honest: true, after: 0, parts: &[LAST_EPOCH] },
    Play {
        name: "who_is_seen_clear", shape: TWO_OWNERS, honest: true, after: 1,
        parts: &[ONE_IS_CLEAR, BOTH_ARE_CLEAR],
    },
    // An owner reads the epoch before it rises and opens its scope at it after: it was seen clear, and its pin finds EVAC.
    Play { name: "a_stale_epoch_views_nothing", shape: SMALL, honest: true, after: 1, parts: &[STALE] },
    // A whole round: its object goes far once its owner is seen clear, and its log is given back.
    Play { name: "a_round_sends_an_object_far", shape: SMALL, honest: true, after: 1, parts: &[SENT_FAR] },
    Play { name: "a_round_moves_an_object", shape: SMALL, honest: true, after: 1, parts: &[MOVED_BY_ROUND] },
    Play { name: "a_cleared_log_leaves_the_round", shape: SMALL, honest: true, after: 1, parts: &[CLEARED] },
];

#[test]
fn rounds_are_made(rt: HostRuntime) {
    play(&rt, rt.alloc(), FIRSTS, PLAYS);
}
