//! Copiers beside one another, and jobs that are left over.

use crate::tests::acts::Act::*;
use crate::tests::acts::{Act, Play, SMALL};
use crate::tests::stage::play;
use far_core::Event::*;
use far_core::Kind;
use far_core::Reply::*;
use far_word::Mark::{Dropped, Moved};
use far_word::Place;

/// The headers of a long and a short object, pointer 0's of 9 bytes and pointer 1's of 8, which lie in log 0.
const LONG_HEADER: u64 = 0xa200_0000_0100_0009;

const SHORT_HEADER: u64 = 0xa200_0001_0100_0008;

/// Their cells: hot, and with EVAC too.
const LONG_HOT: u64 = 0xc600_0000_0001_0009;

const SHORT_HOT: u64 = 0xc600_0000_0301_0008;

const LONG: u64 = 0xe600_0000_0001_0009;

const SHORT: u64 = 0xe600_0000_0301_0008;

/// The long one's with MOVE too, and with DROP too.
const LONG_ASKED: u64 = 0xf600_0000_0001_0009;

const LONG_DROPPED: u64 = 0xee00_0000_0001_0009;

/// Where they are copied, at words 2 and 5 of log 1, and the place behind, where the long one may go else.
const LONG_COPY: u64 = 0x8600_0004_0201_0009;

const SHORT_COPY: u64 = 0x8600_0004_0501_0008;

const ELSEWHERE: u64 = 0x8600_0004_0701_0009;

const BEHIND: Place = Place { log: 1, at: 7 };

/// Job 0's word, which copies the long one: offered, taken and finished by copier 2.
const LONG_OFFERED: u64 = 0x4000_1008_0000_0000;

const LONG_TAKEN: u64 = 0x8800_1008_0000_0000;

const LONG_FINISHED: u64 = 0xc800_1008_0000_0000;

/// Job 1's word, which copies the short one: offered, taken and finished by copier 5.
const SHORT_OFFERED: u64 = 0x4000_1014_0003_0001;

const SHORT_TAKEN: u64 = 0x9400_1014_0003_0001;

const SHORT_FINISHED: u64 = 0xd400_1014_0003_0001;

/// Both objects, as they are placed and stored: 7 and 9, and 5.
#[rattlefmt::skip]
const MADE: &[Act] = &[
    Does(Put { log: 0, at: 0, word: LONG_HEADER }, Done),
    Does(Name { pointer: 0, old: 0, new: 0x8600_0000_0001_0009 }, Done),
    Does(Put { log: 0, at: 3, word: SHORT_HEADER }, Done),
    Does(Name { pointer: 1, old: 0, new: 0x8600_0000_0301_0008 }, Done),
    Does(Adopt { owner: 0, pointer: 0 }, Word(0x8600_0000_0001_0009)),
    Does(Adopt { owner: 0, pointer: 1 }, Word(0x8600_0000_0301_0008)),
    Does(ReadEpoch { owner: 0 }, Epoch(0)),
    Does(Open { owner: 0 }, Done),
    Does(Pin { owner: 0, pointer: 0 }, Held(Place { log: 0, at: 0 })),
    Does(Pin { owner: 0, pointer: 1 }, Held(Place { log: 0, at: 3 })),
    Does(Soil { owner: 0, pointer: 0 }, Word(0xc600_0000_0001_0009)),
    Does(Soil { owner: 0, pointer: 1 }, Word(0xc600_0000_0301_0008)),
    Does(Store { owner: 0, pointer: 0, index: 0, word: 7 }, Done),
    Does(Store { owner: 0, pointer: 0, index: 1, word: 9 }, Done),
    Does(Store { owner: 0, pointer: 1, index: 0, word: 5 }, Done),
    Does(Close { owner: 0 }, Done),
];

/// The round is of log 0, and the owner was seen clear in it. Log 1 is open, with pointer 2's object.
#[rattlefmt::skip]
const IN_ROUND: &[Act] = &[
    Does(Put { log: 1, at: 0, word: 0xa200_0002_0100_0008 }, Done),
    Does(Name { pointer: 2, old: 0, new: 0x8600_0004_0001_0008 }, Done),
    Does(Mark { pointer: 0 }, Word(LONG_HOT)),
    Does(Mark { pointer: 1 }, Word(SHORT_HOT)),
    Does(Advance { logs: 1 }, Epoch(1)),
    Does(Look { owner: 0 }, Word(0)),
];

#[rattlefmt::skip]
const OFFERS: &[Act] = &[
    Does(Put { log: 1, at: 2, word: LONG_HEADER }, Done),
    Does(Offer { job: 0, pointer: 0, to: Place { log: 1, at: 2 } }, Done),
    Does(SeeJob { job: 0 }, Word(LONG_OFFERED)),
    Does(Put { log: 1, at: 5, word: SHORT_HEADER }, Done),
    Does(Offer { job: 1, pointer: 1, to: Place { log: 1, at: 5 } }, Done),
    Does(SeeJob { job: 1 }, Word(SHORT_OFFERED)),
    Log(1, Kind::Open, 7),
];

/// Copier 2 takes the long one's job, and writes its first word.
#[rattlefmt::skip]
const LONG_BEGUN: &[Act] = &[
    Does(Claim { copier: 2, job: 0, old: LONG_OFFERED }, Done),
    Does(SeeJob { job: 0 }, Word(LONG_TAKEN)),
    Does(ReadLength { copier: 2 }, Word(LONG_HEADER)),
    Does(Read { copier: 2, index: 0 }, Word(7)),
    Does(Write { copier: 2, index: 0 }, Done),
    Refuses(&[Finish { copier: 2 }]),
];

/// It writes the last word and finishes.
#[rattlefmt::skip]
const LONG_ENDED: &[Act] = &[
    Does(Read { copier: 2, index: 1 }, Word(9)),
    Does(Write { copier: 2, index: 1 }, Done),
    Does(Finish { copier: 2 }, Done),
    Does(SeeJob { job: 0 }, Word(LONG_FINISHED)),
];

/// Copier 5 takes the short one's job, and finishes it.
#[rattlefmt::skip]
const SHORT_COPIED: &[Act] = &[
    Does(Claim { copier: 5, job: 1, old: SHORT_OFFERED }, Done),
    Does(SeeJob { job: 1 }, Word(SHORT_TAKEN)),
    Does(ReadLength { copier: 5 }, Word(SHORT_HEADER)),
    Does(Read { copier: 5, index: 0 }, Word(5)),
    Refuses(&[Finish { copier: 5 }]),
    Does(Write { copier: 5, index: 0 }, Done),
    Does(Finish { copier: 5 }, Done),
    Does(SeeJob { job: 1 }, Word(SHORT_FINISHED)),
];

#[rattlefmt::skip]
const SHORT_NAMED: &[Act] = &[
    Does(Name { pointer: 1, old: SHORT, new: SHORT_COPY }, Done),
    Does(Collect { job: 1, old: SHORT_FINISHED }, Done),
    Does(SeeJob { job: 1 }, Word(0)),
];

#[rattlefmt::skip]
const BOTH_TAKEN: &[Act] = &[
    Does(Claim { copier: 2, job: 0, old: LONG_OFFERED }, Done),
    Leaves(Claim { copier: 5, job: 0, old: LONG_OFFERED }, Word(LONG_TAKEN)),
    Refuses(&[Claim { copier: 2, job: 1, old: SHORT_OFFERED }]),
    Does(Claim { copier: 5, job: 1, old: SHORT_OFFERED }, Done),
    Leaves(Claim { copier: 7, job: 1, old: SHORT_OFFERED }, Word(SHORT_TAKEN)),
    Leaves(Collect { job: 0, old: LONG_OFFERED }, Word(LONG_TAKEN)),
    Leaves(Collect { job: 1, old: SHORT_FINISHED }, Word(SHORT_TAKEN)),
    Refuses(&[
        Claim { copier: 7, job: 0, old: LONG_TAKEN },
        Claim { copier: 5, job: 0, old: LONG_OFFERED },
        Collect { job: 0, old: LONG_TAKEN },
        Collect { job: 1, old: SHORT_TAKEN },
    ]),
];

/// Each reads and writes its own job's words, in turn with the other.
#[rattlefmt::skip]
const BOTH_COPY: &[Act] = &[
    Does(ReadLength { copier: 5 }, Word(SHORT_HEADER)),
    Does(ReadLength { copier: 2 }, Word(LONG_HEADER)),
    Does(Read { copier: 2, index: 0 }, Word(7)),
    Refuses(&[Write { copier: 5, index: 0 }, Finish { copier: 5 }]),
    Does(Read { copier: 5, index: 0 }, Word(5)),
    Does(Write { copier: 5, index: 0 }, Done),
    Does(Write { copier: 2, index: 0 }, Done),
    WordAt(Place { log: 1, at: 3 }, 7),
    WordAt(Place { log: 1, at: 4 }, 0),
    WordAt(Place { log: 1, at: 6 }, 5),
    Refuses(&[Read { copier: 5, index: 1 }, Write { copier: 2, index: 1 }, Finish { copier: 2 }]),
    Does(Finish { copier: 5 }, Done),
    Does(SeeJob { job: 0 }, Word(LONG_TAKEN)),
    Does(SeeJob { job: 1 }, Word(SHORT_FINISHED)),
    Refuses(&[ReadLength { copier: 5 }, Read { copier: 5, index: 0 }, Write { copier: 5, index: 0 }, Finish { copier: 5 }]),
];

#[rattlefmt::skip]
const BOTH_NAMED: &[Act] = &[
    Does(Name { pointer: 1, old: SHORT, new: SHORT_COPY }, Done),
    Does(Name { pointer: 0, old: LONG, new: LONG_COPY }, Done),
    WordAt(Place { log: 1, at: 3 }, 7),
    WordAt(Place { log: 1, at: 4 }, 9),
    Does(ReadEpoch { owner: 0 }, Epoch(1)),
    Does(Open { owner: 0 }, Done),
    Does(Pin { owner: 0, pointer: 0 }, Held(Place { log: 1, at: 2 })),
    Does(Pin { owner: 0, pointer: 1 }, Held(Place { log: 1, at: 5 })),
    Does(Load { owner: 0, pointer: 0, index: 1 }, Word(9)),
    Does(Load { owner: 0, pointer: 1, index: 0 }, Word(5)),
];

/// The source's log is given back once both jobs are empty.
#[rattlefmt::skip]
const BOTH_COLLECTED: &[Act] = &[
    Refuses(&[Get { log: 0, at: 0, free: true }]),
    Does(Collect { job: 1, old: SHORT_FINISHED }, Done),
    Does(SeeJob { job: 0 }, Word(LONG_FINISHED)),
    Refuses(&[Get { log: 0, at: 0, free: true }]),
    Does(Collect { job: 0, old: LONG_FINISHED }, Done),
    Does(Get { log: 0, at: 0, free: true }, Word(LONG_HEADER)),
    Log(0, Kind::Free, 0),
];

/// Copier 5, which has finished the short one's job, takes the long one's, of which it has read and written nothing. It writes the
/// last word first.
#[rattlefmt::skip]
const THEN_LONG: &[Act] = &[
    Does(Claim { copier: 5, job: 0, old: LONG_OFFERED }, Done),
    Does(SeeJob { job: 0 }, Word(0x9400_1008_0000_0000)),
    Refuses(&[Write { copier: 5, index: 0 }, Finish { copier: 5 }]),
    Does(Read { copier: 5, index: 1 }, Word(9)),
    Does(Write { copier: 5, index: 1 }, Done),
    Refuses(&[Finish { copier: 5 }]),
    Does(Read { copier: 5, index: 0 }, Word(7)),
    Refuses(&[Finish { copier: 5 }]),
    Does(Write { copier: 5, index: 0 }, Done),
    Does(Finish { copier: 5 }, Done),
    Does(SeeJob { job: 0 }, Word(0xd400_1008_0000_0000)),
    Does(Name { pointer: 0, old: LONG, new: LONG_COPY }, Done),
    Does(Name { pointer: 1, old: SHORT, new: SHORT_COPY }, Done),
];

#[rattlefmt::skip]
const LONG_MOVED: &[Act] = &[
    Does(Ask { owner: 0, pointer: 0, mark: Moved }, Word(LONG)),
    Does(Put { log: 1, at: 7, word: LONG_HEADER }, Done),
    Does(Put { log: 1, at: 8, word: 7 }, Done),
    Does(Put { log: 1, at: 9, word: 9 }, Done),
    Does(Name { pointer: 0, old: LONG_ASKED, new: ELSEWHERE }, Done),
];

#[rattlefmt::skip]
const MOVED_ALREADY: &[Act] = &[
    Refuses(&[
        Name { pointer: 0, old: ELSEWHERE, new: LONG_COPY },
        Name { pointer: 0, old: LONG_ASKED, new: LONG_COPY },
        Name { pointer: 0, old: LONG, new: LONG_COPY },
    ]),
    Cell(0, ELSEWHERE),
];

#[rattlefmt::skip]
const LONG_RETIRED: &[Act] = &[
    Does(Ask { owner: 0, pointer: 0, mark: Dropped }, Word(LONG)),
    Refuses(&[Name { pointer: 0, old: LONG_DROPPED, new: LONG_COPY }]),
    Does(Name { pointer: 0, old: LONG_DROPPED, new: 0 }, Done),
];

#[rattlefmt::skip]
const RETIRED_ALREADY: &[Act] = &[
    Refuses(&[
        Name { pointer: 0, old: 0, new: LONG_COPY },
        Name { pointer: 0, old: LONG_DROPPED, new: LONG_COPY },
        Name { pointer: 0, old: LONG, new: LONG_COPY },
    ]),
    Cell(0, 0),
];

/// No object lies in log 0, but a job reads it, whose copier goes on: it isn't given back.
const SOURCE_KEPT: &[Act] = &[Refuses(&[Get {
    log: 0,
    at: 0,
    free: true,
}])];

#[rattlefmt::skip]
const SOURCE_GIVEN_BACK: &[Act] = &[
    Does(Collect { job: 0, old: LONG_FINISHED }, Done),
    Does(Get { log: 0, at: 0, free: true }, Word(LONG_HEADER)),
    Log(0, Kind::Free, 0),
];

/// Log 0 leaves the round while one job is taken and one offered. The owner stores a word in the long one then.
#[rattlefmt::skip]
const CLEARED: &[Act] = &[
    Does(Clear { pointer: 0 }, Word(LONG)),
    Does(Clear { pointer: 1 }, Word(SHORT)),
    InRound(0, false),
    Does(SeeJob { job: 0 }, Word(LONG_TAKEN)),
    Does(SeeJob { job: 1 }, Word(SHORT_OFFERED)),
    Does(Put { log: 1, at: 7, word: SHORT_HEADER }, Done),
    Refuses(&[Offer { job: 2, pointer: 1, to: BEHIND }]),
    Does(ReadEpoch { owner: 0 }, Epoch(1)),
    Does(Open { owner: 0 }, Done),
    Does(Pin { owner: 0, pointer: 0 }, Held(Place { log: 0, at: 0 })),
    Does(Soil { owner: 0, pointer: 0 }, Word(0xc600_0000_0001_0009)),
    Does(Store { owner: 0, pointer: 0, index: 0, word: 8 }, Done),
];

/// Both jobs go on and are emptied; what they have copied isn't named, and the owner finds what it stored.
#[rattlefmt::skip]
const ABORTED: &[Act] = &[
    Refuses(&[
        Name { pointer: 0, old: LONG_HOT, new: LONG_COPY },
        Name { pointer: 0, old: LONG, new: LONG_COPY },
        Name { pointer: 1, old: SHORT_HOT, new: SHORT_COPY },
        Name { pointer: 1, old: SHORT, new: SHORT_COPY },
    ]),
    WordAt(Place { log: 1, at: 3 }, 7),
    Does(Load { owner: 0, pointer: 0, index: 0 }, Word(8)),
    Does(Collect { job: 0, old: LONG_FINISHED }, Done),
    Does(Collect { job: 1, old: SHORT_FINISHED }, Done),
    Does(SeeJob { job: 0 }, Word(0)),
    Does(SeeJob { job: 1 }, Word(0)),
    Refuses(&[Name { pointer: 0, old: LONG_HOT, new: LONG_COPY }]),
];

/// The next round is of log 0 too, while one job is taken and one offered.
#[rattlefmt::skip]
const ADVANCED: &[Act] = &[
    Does(Advance { logs: 1 }, Epoch(2)),
    Does(Look { owner: 0 }, Word(0)),
    SeenClear(0, true),
    InRound(0, true),
    Does(SeeJob { job: 0 }, Word(LONG_TAKEN)),
    Does(SeeJob { job: 1 }, Word(SHORT_OFFERED)),
];

/// What the last round's job has copied isn't named; a job is offered anew once it is empty.
#[rattlefmt::skip]
const OFFERED_ANEW: &[Act] = &[
    Refuses(&[Name { pointer: 0, old: LONG, new: LONG_COPY }]),
    Does(Collect { job: 1, old: SHORT_OFFERED }, Done),
    Leaves(Claim { copier: 5, job: 1, old: SHORT_OFFERED }, Word(0)),
    Does(Put { log: 1, at: 7, word: LONG_HEADER }, Done),
    Refuses(&[Offer { job: 0, pointer: 0, to: BEHIND }]),
    Does(Collect { job: 0, old: LONG_FINISHED }, Done),
    Refuses(&[Name { pointer: 0, old: LONG, new: LONG_COPY }]),
    Does(Offer { job: 0, pointer: 0, to: BEHIND }, Done),
    Does(SeeJob { job: 0 }, Word(0x4000_101c_0000_0000)),
];

#[rattlefmt::skip]
const COPIED_ANEW: &[Act] = &[
    Does(Claim { copier: 2, job: 0, old: 0x4000_101c_0000_0000 }, Done),
    Refuses(&[Write { copier: 2, index: 0 }, Write { copier: 2, index: 1 }, Finish { copier: 2 }]),
    Does(Read { copier: 2, index: 0 }, Word(7)),
    Does(Write { copier: 2, index: 0 }, Done),
    Does(Read { copier: 2, index: 1 }, Word(9)),
    Does(Write { copier: 2, index: 1 }, Done),
    Does(Finish { copier: 2 }, Done),
    Refuses(&[Name { pointer: 0, old: LONG, new: LONG_COPY }]),
    Does(Name { pointer: 0, old: LONG, new: ELSEWHERE }, Done),
    WordAt(Place { log: 1, at: 8 }, 7),
    WordAt(Place { log: 1, at: 9 }, 9),
];

/// Log 1 is sealed, and no object lies in it.
#[rattlefmt::skip]
const TARGET_SEALED: &[Act] = &[
    Does(Put { log: 2, at: 0, word: 0xa200_0003_0100_0008 }, Done),
    Does(Name { pointer: 3, old: 0, new: 0x8600_0008_0001_0008 }, Done),
    Log(1, Kind::Sealed, 7),
    Does(Adopt { owner: 0, pointer: 2 }, Word(0x8600_0004_0001_0008)),
    Does(Ask { owner: 0, pointer: 2, mark: Dropped }, Word(0x8600_0004_0001_0008)),
    Does(Name { pointer: 2, old: 0x8e00_0004_0001_0008, new: 0 }, Done),
    Refuses(&[Get { log: 1, at: 0, free: true }]),
    Does(Collect { job: 1, old: SHORT_OFFERED }, Done),
];

/// No object lies in log 1, but a job writes there.
const TARGET_KEPT: &[Act] = &[Refuses(&[Get {
    log: 1,
    at: 0,
    free: true,
}])];

#[rattlefmt::skip]
const TARGET_GIVEN_BACK: &[Act] = &[
    Does(Collect { job: 0, old: LONG_FINISHED }, Done),
    Does(Get { log: 1, at: 0, free: true }, Word(0xa200_0002_0100_0008)),
    Log(1, Kind::Free, 0),
    Refuses(&[Name { pointer: 0, old: LONG, new: LONG_COPY }]),
    Cell(0, LONG),
];

/// The dropped object is offered, to the start of the next log, which is open then.
#[rattlefmt::skip]
const DROPPED_OFFERED: &[Act] = &[
    Does(Ask { owner: 0, pointer: 0, mark: Dropped }, Word(LONG)),
    Does(Put { log: 2, at: 0, word: LONG_HEADER }, Done),
    Does(Offer { job: 15, pointer: 0, to: Place { log: 2, at: 0 } }, Done),
    Does(PeekJob { copier: 7, job: 15 }, Word(0x4000_2000_0000_0000)),
    Log(1, Kind::Sealed, 2),
    Log(2, Kind::Open, 3),
    Does(Name { pointer: 0, old: LONG_DROPPED, new: 0 }, Done),
    Does(Collect { job: 15, old: 0x4000_2000_0000_0000 }, Done),
    Does(SeeJob { job: 15 }, Word(0)),
];

/// The parts that come first.
const FIRSTS: &[&[Act]] = &[MADE, IN_ROUND, OFFERS, LONG_BEGUN];

#[rattlefmt::skip]
const PLAYS: &[Play] = &[
    Play {
        name: "two_copiers_have_a_job_each", shape: SMALL, honest: true, after: 3,
        parts: &[BOTH_TAKEN, BOTH_COPY, LONG_ENDED, BOTH_NAMED, BOTH_COLLECTED],
    },
    Play {
        name: "a_copier_has_one_job_after_the_other", shape: SMALL, honest: true, after: 3,
        parts: &[SHORT_COPIED, THEN_LONG],
    },
    // The owner's move goes first, before the job is taken, and while it is: it is void, and the copier finishes all the same.
    Play {
        name: "a_move_goes_before_a_claim", shape: SMALL, honest: true, after: 3,
        parts: &[
            LONG_MOVED, MOVED_ALREADY, SHORT_COPIED, SHORT_NAMED, SOURCE_KEPT, LONG_BEGUN, SOURCE_KEPT, LONG_ENDED,
            MOVED_ALREADY, SOURCE_KEPT, SOURCE_GIVEN_BACK,
        ],
    },
    Play {
        name: "a_move_goes_before_the_last_word", shape: SMALL, honest: true, after: 4,
        parts: &[
            LONG_MOVED, MOVED_ALREADY, SHORT_COPIED, SHORT_NAMED, SOURCE_KEPT, LONG_ENDED, MOVED_ALREADY,
            SOURCE_KEPT, SOURCE_GIVEN_BACK,
        ],
    },
    // The same of an owner that drops the object.
    Play {
        name: "a_drop_goes_before_the_last_word", shape: SMALL, honest: true, after: 4,
        parts: &[
            LONG_RETIRED, RETIRED_ALREADY, SHORT_COPIED, SHORT_NAMED, SOURCE_KEPT, LONG_ENDED, RETIRED_ALREADY,
            SOURCE_KEPT, SOURCE_GIVEN_BACK,
        ],
    },
    Play {
        name: "a_round_ends_with_jobs_left", shape: SMALL, honest: true, after: 4,
        parts: &[CLEARED, LONG_ENDED, SHORT_COPIED, ABORTED],
    },
    Play {
        name: "a_round_begins_with_jobs_left", shape: SMALL, honest: true, after: 4,
        parts: &[ADVANCED, LONG_ENDED, OFFERED_ANEW, COPIED_ANEW],
    },
    Play {
        name: "the_targets_log_is_kept", shape: SMALL, honest: true, after: 3,
        parts: &[
            TARGET_SEALED, TARGET_KEPT, LONG_BEGUN, TARGET_KEPT, LONG_ENDED, TARGET_KEPT, TARGET_GIVEN_BACK,
        ],
    },
    Play { name: "a_copy_opens_a_log", shape: SMALL, honest: true, after: 2, parts: &[DROPPED_OFFERED] },
];

#[test]
fn copiers_go_beside_one_another(rt: HostRuntime) {
    play(&rt, rt.alloc(), FIRSTS, PLAYS);
}
