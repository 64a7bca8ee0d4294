//! One copier's job, and the pointer that is named to what it has copied.

use crate::tests::acts::Act::*;
use crate::tests::acts::{Act, Play, SMALL};
use crate::tests::stage::play;
use far_core::Event::*;
use far_core::Kind;
use far_core::Reply::*;
use far_word::Mark::{Dropped, Moved};
use far_word::Place;

/// The header of object 0, whose words are 7 and 9, and its cell as it is placed.
const HEADER: u64 = 0xa200_0000_0100_0009;

const PLACED: u64 = 0x8600_0000_0001_0009;

/// It is hot in log 0; with EVAC there; with MOVE too, with DROP too; and where a job copies it.
const HOT: u64 = 0xc600_0000_0001_0009;

const MARKED: u64 = 0xe600_0000_0001_0009;

const ASKED: u64 = 0xf600_0000_0001_0009;

const DROPPED: u64 = 0xee00_0000_0001_0009;

const COPY: u64 = 0x8600_0004_0201_0009;

/// The cell of object 1, and that of object 0 where its owner's move brings it.
const OTHER: u64 = 0x8600_0004_0001_0008;

const ELSEWHERE: u64 = 0x8600_0004_0501_0009;

/// The word of job 3, of copier 2.
const OFFERED: u64 = 0x4000_1008_0000_0000;

const TAKEN: u64 = 0x8800_1008_0000_0000;

const FINISHED: u64 = 0xc800_1008_0000_0000;

#[rattlefmt::skip]
const MADE: &[Act] = &[
    Does(Put { log: 0, at: 0, word: HEADER }, Done),
    Does(Name { pointer: 0, old: 0, new: PLACED }, Done),
    Does(Adopt { owner: 0, pointer: 0 }, Word(PLACED)),
    Does(ReadEpoch { owner: 0 }, Epoch(0)),
    Does(Open { owner: 0 }, Done),
    Does(Pin { owner: 0, pointer: 0 }, Held(Place { log: 0, at: 0 })),
    Does(Soil { owner: 0, pointer: 0 }, Word(PLACED | 1 << 62)),
    Does(Store { owner: 0, pointer: 0, index: 0, word: 7 }, Done),
    Does(Store { owner: 0, pointer: 0, index: 1, word: 9 }, Done),
    Does(Close { owner: 0 }, Done),
];

/// The round is of log 0, where object 0 lies; job 3 is offered, which copies it behind object 1.
#[rattlefmt::skip]
const OFFER_MADE: &[Act] = &[
    Does(Put { log: 1, at: 0, word: 0xa200_0001_0100_0008 }, Done),
    Does(Name { pointer: 1, old: 0, new: OTHER }, Done),
    Does(Mark { pointer: 0 }, Word(HOT)),
    Does(Advance { logs: 1 }, Epoch(1)),
    Does(Look { owner: 0 }, Word(0)),
    Does(Put { log: 1, at: 2, word: HEADER }, Done),
    Does(Offer { job: 3, pointer: 0, to: Place { log: 1, at: 2 } }, Done),
];

/// Copier 2 has taken the job, and written its first word.
#[rattlefmt::skip]
const BEGUN: &[Act] = &[
    Does(Claim { copier: 2, job: 3, old: OFFERED }, Done),
    Does(PeekJob { copier: 5, job: 3 }, Word(TAKEN)),
    Does(ReadLength { copier: 2 }, Word(HEADER)),
    Does(Read { copier: 2, index: 0 }, Word(7)),
    Does(Write { copier: 2, index: 0 }, Done),
];

/// It has written all words of the job, and hasn't said so.
#[rattlefmt::skip]
const WRITTEN: &[Act] = &[
    Does(Read { copier: 2, index: 1 }, Word(9)),
    Does(Write { copier: 2, index: 1 }, Done),
];

#[rattlefmt::skip]
const ENDED: &[Act] = &[
    Does(Finish { copier: 2 }, Done),
    Does(SeeJob { job: 3 }, Word(FINISHED)),
];

#[rattlefmt::skip]
const ONE_COPIERS: &[Act] = &[
    Leaves(Claim { copier: 5, job: 3, old: OFFERED }, Word(TAKEN)),
    Leaves(Collect { job: 3, old: OFFERED }, Word(TAKEN)),
    Refuses(&[
        Claim { copier: 5, job: 3, old: TAKEN },
        Claim { copier: 2, job: 3, old: OFFERED },
        Write { copier: 2, index: 1 },
        Write { copier: 5, index: 0 },
        Read { copier: 2, index: 2 },
        Finish { copier: 2 },
        Finish { copier: 5 },
        Collect { job: 3, old: TAKEN },
    ]),
];

#[rattlefmt::skip]
const NAMED: &[Act] = &[
    Does(Name { pointer: 0, old: MARKED, new: COPY }, Done),
    Does(See { pointer: 0 }, Word(COPY)),
    Does(SeeJob { job: 3 }, Word(FINISHED)),
    Does(ReadEpoch { owner: 0 }, Epoch(1)),
    Does(Open { owner: 0 }, Done),
    Does(Pin { owner: 0, pointer: 0 }, Held(Place { log: 1, at: 2 })),
    Does(Load { owner: 0, pointer: 0, index: 0 }, Word(7)),
    Does(Load { owner: 0, pointer: 0, index: 1 }, Word(9)),
    Log(1, Kind::Open, 5),
];

#[rattlefmt::skip]
const GIVEN_BACK: &[Act] = &[
    Refuses(&[Name { pointer: 0, old: MARKED, new: COPY }, Get { log: 0, at: 0, free: true }]),
    Does(Collect { job: 3, old: FINISHED }, Done),
    Does(Get { log: 0, at: 0, free: true }, Word(HEADER)),
];

const TOO_EARLY: &[Act] = &[Refuses(&[Name {
    pointer: 0,
    old: MARKED,
    new: COPY,
}])];

#[rattlefmt::skip]
const OTHERS_NAMED: &[Act] = &[
    Refuses(&[Name { pointer: 1, old: OTHER, new: COPY }, Name { pointer: 2, old: 0, new: COPY }]),
];

#[rattlefmt::skip]
const CLEARED: &[Act] = &[
    Does(Clear { pointer: 0 }, Word(MARKED)),
    Refuses(&[Name { pointer: 0, old: HOT, new: COPY }, Name { pointer: 0, old: MARKED, new: COPY }]),
];

#[rattlefmt::skip]
const ADVANCED: &[Act] = &[
    Does(Advance { logs: 1 }, Epoch(2)),
    Does(Look { owner: 0 }, Word(0)),
    Refuses(&[Name { pointer: 0, old: MARKED, new: COPY }]),
];

#[rattlefmt::skip]
const ASKED_AND_NAMED: &[Act] = &[
    Does(Ask { owner: 0, pointer: 0, mark: Moved }, Word(MARKED)),
    Does(Name { pointer: 0, old: MARKED, new: COPY }, Word(ASKED)),
    Does(Name { pointer: 0, old: ASKED, new: COPY }, Done),
    Refuses(&[Name { pointer: 0, old: ASKED, new: COPY }]),
];

#[rattlefmt::skip]
const MOVED_ELSEWHERE: &[Act] = &[
    Does(Ask { owner: 0, pointer: 0, mark: Moved }, Word(MARKED)),
    Does(Put { log: 1, at: 5, word: HEADER }, Done),
    Does(Put { log: 1, at: 6, word: 7 }, Done),
    Does(Put { log: 1, at: 7, word: 9 }, Done),
    Does(Name { pointer: 0, old: ASKED, new: ELSEWHERE }, Done),
    Refuses(&[
        Name { pointer: 0, old: ASKED, new: COPY },
        Name { pointer: 0, old: ELSEWHERE, new: COPY },
        Get { log: 0, at: 0, free: true },
    ]),
];

#[rattlefmt::skip]
const DROPPED_FIRST: &[Act] = &[
    Does(Ask { owner: 0, pointer: 0, mark: Dropped }, Word(MARKED)),
    Does(Name { pointer: 0, old: MARKED, new: COPY }, Word(DROPPED)),
    Does(Name { pointer: 0, old: DROPPED, new: 0 }, Done),
    Refuses(&[
        Name { pointer: 0, old: DROPPED, new: COPY },
        Name { pointer: 0, old: 0, new: COPY },
        Get { log: 0, at: 0, free: true },
    ]),
];

/// The parts that come first.
const FIRSTS: &[&[Act]] = &[MADE, OFFER_MADE, BEGUN, WRITTEN, ENDED];

#[rattlefmt::skip]
const PLAYS: &[Play] = &[
    // A job is one copier's. It writes no word that it hasn't read, and reads none past the object's end; it finishes behind its last word.
    Play { name: "a_job_is_one_copiers", shape: SMALL, honest: true, after: 3, parts: &[ONE_COPIERS] },
    // The pointer is named to the copy once; its owner finds its bytes there. No log is given back before the job is emptied, and the
    // source's log is then. The open log ends where it ended.
    Play {
        name: "a_copy_is_named", shape: SMALL, honest: true, after: 5,
        parts: &[NAMED, GIVEN_BACK],
    },
    // Before it is finished no copy is named, and no other pointer ever.
    Play { name: "an_offered_copy_is_not_named", shape: SMALL, honest: true, after: 2, parts: &[TOO_EARLY] },
    Play {
        name: "an_unfinished_copy_is_not_named", shape: SMALL, honest: true, after: 3,
        parts: &[TOO_EARLY, WRITTEN, TOO_EARLY],
    },
    Play {
        name: "no_other_pointer_is_named", shape: SMALL, honest: true, after: 5,
        parts: &[OTHERS_NAMED],
    },
    // The source's log has left the round, or another round has begun: the copy isn't named.
    Play {
        name: "a_cleared_copy_is_not_named", shape: SMALL, honest: true, after: 5,
        parts: &[CLEARED],
    },
    Play {
        name: "a_late_copy_is_not_named", shape: SMALL, honest: true, after: 5,
        parts: &[ADVANCED],
    },
    // What its owner has asked to be moved may still be named to its copy; once it was moved elsewhere it may not.
    Play {
        name: "a_move_is_asked_for", shape: SMALL, honest: true, after: 5,
        parts: &[ASKED_AND_NAMED],
    },
    Play {
        name: "a_move_goes_first", shape: SMALL, honest: true, after: 5,
        parts: &[MOVED_ELSEWHERE],
    },
    // What was dropped isn't named to its copy; its cell is free as ever.
    Play {
        name: "a_dropped_object_keeps_no_copy", shape: SMALL, honest: true, after: 5,
        parts: &[DROPPED_FIRST],
    },
];

#[test]
fn copies_are_named(rt: HostRuntime) {
    play(&rt, rt.alloc(), FIRSTS, PLAYS);
}
