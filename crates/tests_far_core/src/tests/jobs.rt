//! Words of jobs, and offers.

use crate::tests::acts::Act::*;
use crate::tests::acts::{Act, Play, SMALL};
use crate::tests::peopled::{HEADER, NEAR, NEXT};
use crate::tests::stage::play;
use far_core::Event::*;
use far_core::Kind;
use far_core::Reply::*;
use far_word::Place;

const MARKED: u64 = 0xa600_0000_0001_0008;

/// Where a copy may stand: behind the open log's tail.
const AT_TAIL: Place = Place { log: 1, at: 2 };

/// The place behind that copy.
const BEHIND: Place = Place { log: 1, at: 4 };

/// Object 0 lies in log 0, which is sealed; log 1 is open behind object 1. Nothing else is there.
#[rattlefmt::skip]
const TWO_LOGS: &[Act] = &[
    Does(Put { log: 0, at: 0, word: HEADER }, Done),
    Does(Put { log: 0, at: 1, word: 0 }, Done),
    Does(Name { pointer: 0, old: 0, new: NEAR }, Done),
    Does(Put { log: 1, at: 0, word: 0xa200_0001_0100_0008 }, Done),
    Does(Put { log: 1, at: 1, word: 0 }, Done),
    Does(Name { pointer: 1, old: 0, new: NEXT }, Done),
    Does(Mark { pointer: 0 }, Word(NEAR)),
];

/// The header of a copy and a 0 stand behind the open log's tail.
#[rattlefmt::skip]
const COPY_PUT: &[Act] = &[
    Does(Put { log: 1, at: 2, word: HEADER }, Done),
    Does(Put { log: 1, at: 3, word: 0 }, Done),
];

/// The round is of log 0, in which object 0 has EVAC. At the start of log 2 stands the header of a copy, and a word that isn't 0.
#[rattlefmt::skip]
const IN_ROUND: &[Act] = &[
    Does(Advance { logs: 1 }, Epoch(1)),
    Does(Put { log: 2, at: 0, word: HEADER }, Done),
    Does(Put { log: 2, at: 1, word: 1 }, Done),
];

/// Pointer 0, from the start of log 0 to word 2 of log 1.
const OFFER: u64 = 0x4000_1008_0000_0000;

#[rattlefmt::skip]
const OFFER_MADE: &[Act] = &[
    Does(Look { owner: 0 }, Word(0)),
    Does(Offer { job: 3, pointer: 0, to: AT_TAIL }, Done),
    Does(SeeJob { job: 3 }, Word(OFFER)),
    Does(PeekJob { copier: 2, job: 3 }, Word(OFFER)),
    Does(SeeJob { job: 2 }, Word(0)),
    Log(1, Kind::Open, 4),
];

#[rattlefmt::skip]
const SOURCE_MOVED: &[Act] = &[
    Does(Put { log: 1, at: 4, word: HEADER }, Done),
    Does(Put { log: 1, at: 5, word: 0 }, Done),
    Does(Name { pointer: 0, old: MARKED, new: 0x8600_0004_0401_0008 }, Done),
    Refuses(&[
        Get { log: 0, at: 0, free: true },
        Offer { job: 4, pointer: 0, to: Place { log: 1, at: 6 } },
    ]),
];

#[rattlefmt::skip]
const NO_ROUND: &[Act] = &[
    Does(Look { owner: 0 }, Word(0)),
    Refuses(&[Offer { job: 0, pointer: 0, to: AT_TAIL }]),
];

#[rattlefmt::skip]
const NOBODY_CLEAR: &[Act] = &[
    May(Offer { job: 0, pointer: 0, to: AT_TAIL }, false),
    Calls(Offer { job: 0, pointer: 0, to: AT_TAIL }, Refused),
    Refuses(&[Offer { job: 0, pointer: 0, to: AT_TAIL }]),
];

#[rattlefmt::skip]
const NO_PLACE: &[Act] = &[
    Does(Look { owner: 0 }, Word(0)),
    May(Offer { job: 0, pointer: 0, to: AT_TAIL }, true),
    Calls(Offer { job: 0, pointer: 0, to: AT_TAIL }, Done),
    Calls(SeeJob { job: 0 }, Word(OFFER)),
    Does(Put { log: 1, at: 4, word: HEADER }, Done),
    Does(Put { log: 1, at: 5, word: 0 }, Done),
    Refuses(&[
        Offer { job: 0, pointer: 0, to: BEHIND },
        Offer { job: 16, pointer: 0, to: BEHIND },
        Offer { job: 1, pointer: 256, to: BEHIND },
        Offer { job: 1, pointer: 1, to: BEHIND },
        Offer { job: 1, pointer: 2, to: BEHIND },
        Offer { job: 1, pointer: 0, to: AT_TAIL },
        Offer { job: 1, pointer: 0, to: Place { log: 1, at: 6 } },
        Offer { job: 1, pointer: 0, to: Place { log: 1, at: 511 } },
        Offer { job: 1, pointer: 0, to: Place { log: 0, at: 2 } },
        Offer { job: 1, pointer: 0, to: Place { log: 2, at: 0 } },
        Offer { job: 1, pointer: 0, to: Place { log: 3, at: 0 } },
        Offer { job: 1, pointer: 0, to: Place { log: 4, at: 0 } },
    ]),
];

#[rattlefmt::skip]
const NO_JOB: &[Act] = &[
    Does(SeeJob { job: 0 }, Word(0)),
    Does(SeeJob { job: 15 }, Word(0)),
    Does(PeekJob { copier: 0, job: 0 }, Word(0)),
    Does(PeekJob { copier: 7, job: 15 }, Word(0)),
    Calls(SeeJob { job: 15 }, Word(0)),
    Calls(PeekJob { copier: 7, job: 15 }, Word(0)),
    Refuses(&[
        SeeJob { job: 16 },
        PeekJob { copier: 0, job: 16 },
        PeekJob { copier: 8, job: 0 },
    ]),
];

/// A job word: pointer 0, from word 2 of log 0 to word 0 of log 1; offered, taken by copier 3, finished by copier 3.
const OFFERED: u64 = 0x4000_1000_0002_0000;

const TAKEN: u64 = 0x8c00_1000_0002_0000;

const FINISHED: u64 = 0xcc00_1000_0002_0000;

/// Words off the layout: offered, and by copier 3; of pointer 2,048; finished by copier 8.
const OFFERED_BY: u64 = 0x4c00_1000_0002_0000;

const OF_NO_POINTER: u64 = 0x4000_1000_0002_0800;

const BY_NO_COPIER: u64 = 0xe000_1000_0002_0000;

#[rattlefmt::skip]
const LOST: &[Act] = &[
    Leaves(Claim { copier: 7, job: 15, old: OFFERED }, Word(0)),
    Leaves(Collect { job: 15, old: OFFERED }, Word(0)),
    Leaves(Collect { job: 15, old: FINISHED }, Word(0)),
];

#[rattlefmt::skip]
const NOTHING_TO_TAKE: &[Act] = &[
    Refuses(&[
        Claim { copier: 8, job: 0, old: OFFERED },
        Claim { copier: 0, job: 16, old: OFFERED },
        Claim { copier: 0, job: 0, old: 0 },
        Claim { copier: 3, job: 0, old: TAKEN },
        Claim { copier: 3, job: 0, old: FINISHED },
        Claim { copier: 3, job: 0, old: OFFERED_BY },
        Claim { copier: 3, job: 0, old: OF_NO_POINTER },
    ]),
];

#[rattlefmt::skip]
const NOTHING_TO_EMPTY: &[Act] = &[
    Refuses(&[
        Collect { job: 16, old: FINISHED },
        Collect { job: 0, old: TAKEN },
        Collect { job: 0, old: 0 },
        Collect { job: 0, old: 1 },
        Collect { job: 0, old: OFFERED_BY },
        Collect { job: 0, old: OF_NO_POINTER },
        Collect { job: 0, old: BY_NO_COPIER },
    ]),
];

#[rattlefmt::skip]
const IDLE: &[Act] = &[
    Refuses(&[
        ReadLength { copier: 0 },
        ReadLength { copier: 8 },
        Read { copier: 0, index: 0 },
        Write { copier: 0, index: 0 },
        Finish { copier: 0 },
        Finish { copier: 255 },
    ]),
];

/// The parts that come first.
const FIRSTS: &[&[Act]] = &[TWO_LOGS, IN_ROUND, COPY_PUT];

#[rattlefmt::skip]
const PLAYS: &[Play] = &[
    // A job is offered: its word says the object, where it lies and where its copy is to stand, whose span ends the open log. No log
    // that it names is given back, where no object lies in it any more either.
    Play {
        name: "offers_are_made", shape: SMALL, honest: true, after: 3,
        parts: &[OFFER_MADE, SOURCE_MOVED],
    },
    // What isn't quiet by the round isn't offered, nor to a place where no span for its copy may stand, nor as a job that isn't empty.
    Play { name: "no_offer_before_a_round", shape: SMALL, honest: true, after: 1, parts: &[COPY_PUT, NO_ROUND] },
    Play {
        name: "no_offer_before_a_look", shape: SMALL, honest: true, after: 3,
        parts: &[NOBODY_CLEAR],
    },
    Play {
        name: "offers_are_refused", shape: SMALL, honest: true, after: 3,
        parts: &[NO_PLACE],
    },
    // Nobody has offered a job: each word is 0, to the book and to each copier. Past the last job or copier is nothing.
    Play { name: "words_of_jobs", shape: SMALL, honest: true, after: 0, parts: &[NO_JOB] },
    // Who awaits another word than the job's finds it, and nothing changes.
    Play { name: "lost_exchanges", shape: SMALL, honest: true, after: 0, parts: &[LOST] },
    // A job that isn't offered isn't claimed, and none past the last, nor by a copier past the last.
    Play { name: "refused_claims", shape: SMALL, honest: true, after: 0, parts: &[NOTHING_TO_TAKE] },
    // A job that a copier has isn't emptied, nor one that is empty, nor one past the last.
    Play { name: "refused_collects", shape: SMALL, honest: true, after: 0, parts: &[NOTHING_TO_EMPTY] },
    // A copier without a job reads, writes and finishes nothing.
    Play { name: "idle_copiers", shape: SMALL, honest: true, after: 0, parts: &[IDLE] },
];

#[test]
fn jobs_are_offered(rt: HostRuntime) {
    play(&rt, rt.alloc(), FIRSTS, PLAYS);
}
