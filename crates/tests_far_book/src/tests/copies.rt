//! Copies that are offered to copiers, and what becomes of them, by worked values: alone, and beside a copier and an owner at work.

use crate::tests::acts::Act::*;
use crate::tests::acts::{ADOPT, Act, DROP, HAS_EVAC, IS_DROPPED, MOVE, NO_MARKS};
use crate::tests::stage::{ByTurns, plays_by_turns, plays_parts};
use far_core::{Event, Kind};
use far_word::{Mark, Marks, Place};

// Seventeen objects of 8 bytes lie in log 0, which another one seals, and have EVAC.
const MARKS_SEVENTEEN: &[Act] = &[MakesMany(17, 8, 1), Makes(4088, 17, (1, 0)), MarksMany(17)];

// There are sixteen jobs; each takes two words of log 2.
const OFFERS_SIXTEEN: &[Act] = &[
    Offers(&[
        (0, true),
        (1, true),
        (2, true),
        (3, true),
        (4, true),
        (5, true),
        (6, true),
        (7, true),
        (8, true),
        (9, true),
        (10, true),
        (11, true),
        (12, true),
        (13, true),
        (14, true),
        (15, true),
        (16, false),
    ]),
    HasJob(0, Some(true)),
    HasJob(15, Some(true)),
    HasJob(16, Some(false)),
    Near(0, (0, 0), HAS_EVAC),
    Log(0, Kind::Sealed, [272, 0, 3824]),
    Log(2, Kind::Open, [0, 256, 3840]),
];

// No copier has come: they stay offered when they are collected, until another round begins. Then they are empty.
const EMPTIES_THEM: &[Act] = &[
    Collects(0),
    HasJob(15, Some(true)),
    BeginsNone(Ok(2)),
    HasJob(15, Some(false)),
    Collects(0),
    Offers(&[(16, true)]),
    HasJob(16, Some(true)),
    Log(2, Kind::Open, [0, 272, 3824]),
];

const SIXTEEN_COPIES: &[&[Act]] = &[MARKS_SEVENTEEN, OFFERS_SIXTEEN, EMPTIES_THEM];

#[test]
fn sixteen_copies_are_offered(rt: HostRuntime) {
    assert!(rt; plays_parts(&rt, SIXTEEN_COPIES));
}

// No log is free: objects fill three, and one of them has moved to the last.
const FILLS_FOUR: &[Act] = &[
    Makes(8, 0, (0, 0)),
    Makes(4088, 1, (1, 0)),
    Makes(4088, 2, (2, 0)),
    MarksMany(2),
    Asks(1, Mark::Moved),
    Moves(1, Some(Ok(Some(Place { log: 3, at: 0 })))),
];

// There is no room for a copy; once a log is given back there is, though it is the last free one.
const OFFERS_WHERE_ROOM_IS: &[Act] = &[
    Offers(&[(0, false)]),
    HasJob(0, Some(false)),
    Log(3, Kind::Open, [4096, 0, 0]),
    Releases(1, Some(true)),
    Offers(&[(0, true)]),
    HasJob(0, Some(true)),
    Log(3, Kind::Sealed, [4096, 0, 0]),
    Log(1, Kind::Open, [0, 16, 4080]),
];

const COPIES_IN_ROOM: &[&[Act]] = &[FILLS_FOUR, OFFERS_WHERE_ROOM_IS];

#[test]
fn a_copy_is_offered_where_room_is(rt: HostRuntime) {
    assert!(rt; plays_parts(&rt, COPIES_IN_ROOM));
}

// The copy of pointer 0 to log 2 is offered, and a move to log 3 seals that.
const SEALS_THE_TARGET: &[Act] = &[
    Makes(8, 0, (0, 0)),
    Makes(4088, 1, (1, 0)),
    MarksMany(1),
    Offers(&[(0, true)]),
    Marks(1, Some(0x8600_0004_0001_0ff8)),
    Asks(1, Mark::Moved),
    Moves(1, Some(Ok(Some(Place { log: 3, at: 0 })))),
    Log(2, Kind::Sealed, [0, 16, 4080]),
];

// Its log isn't given back before the job is taken back, though the job is void.
const GIVES_THE_TARGET_BACK: &[Act] = &[
    Releases(2, Some(false)),
    Clears(0, Some(0xa600_0000_0001_0008)),
    HasJob(0, Some(false)),
    Releases(2, Some(false)),
    Releases(1, Some(true)),
    TakesBack,
    Releases(2, Some(true)),
    Near(0, (0, 0), NO_MARKS),
];

const TARGET_SEALED: &[&[Act]] = &[SEALS_THE_TARGET, GIVES_THE_TARGET_BACK];

#[test]
fn a_target_isnt_given_back(rt: HostRuntime) {
    assert!(rt; plays_parts(&rt, TARGET_SEALED));
}

// Pointer 0 is an object of log 0, which another one seals; job 0 is its copy to log 2.
const OFFERS_ONE: &[Act] = &[
    Makes(8, 0, (0, 0)),
    Makes(4088, 1, (1, 0)),
    MarksMany(1),
    Offers(&[(0, true)]),
    HasJob(0, Some(true)),
    Log(2, Kind::Open, [0, 16, 4080]),
];

// The objects take 3 and 513 turns, their marking 2, the round 258, the offer 5, and the last look 1.
const TURNS_OF_ONE: u16 = 782;

const CLAIM: Event = Event::Claim {
    copier: 0,
    job: 0,
    old: 0x4000_2000_0000_0000,
};

const LENGTH: Event = Event::ReadLength { copier: 0 };

const WORD: Event = Event::Read {
    copier: 0,
    index: 0,
};

const WRITE: Event = Event::Write {
    copier: 0,
    index: 0,
};

const FINISH: Event = Event::Finish { copier: 0 };

// A copier finishes job 0.
const COPIES: &[Event] = &[CLAIM, LENGTH, WORD, WRITE, FINISH];

const GOES_ON: &[Event] = &[LENGTH, WORD, WRITE, FINISH];

const EVAC_AND_DROP: Marks = Marks {
    dropped: true,
    ..HAS_EVAC
};

// The copy is named, once, and the log of the source is given back.
const IS_NAMED: &[Act] = &[
    Collects(0),
    Near(0, (0, 0), HAS_EVAC),
    Waits(4),
    Collects(1),
    Near(0, (2, 0), NO_MARKS),
    HasJob(0, Some(false)),
    Log(2, Kind::Open, [16, 0, 4080]),
    Log(0, Kind::Sealed, [0, 16, 4080]),
    Collects(0),
    Releases(0, Some(true)),
];

// Its owner had asked for a move, which was made: the copy isn't named, and the source's log isn't given back before the job is empty.
const HAS_MOVED: &[Act] = &[
    Waits(2),
    Moves(0, Some(Ok(Some(Place { log: 2, at: 2 })))),
    HasJob(0, Some(false)),
    Waits(5),
    Releases(0, Some(false)),
    Collects(0),
    Near(0, (2, 2), NO_MARKS),
    Log(2, Kind::Open, [16, 16, 4064]),
    Releases(0, Some(true)),
];

// Its owner had asked for a move, which wasn't made: the copy is named.
const IS_NAMED_THOUGH_ASKED: &[Act] = &[
    Waits(7),
    Collects(1),
    Near(0, (2, 0), NO_MARKS),
    Log(2, Kind::Open, [16, 0, 4080]),
    Releases(0, Some(true)),
];

// Its owner dropped the object, and no copier has come: the job stays offered until the object is retired.
const STAYS_OFFERED: &[Act] = &[
    Waits(2),
    Collects(0),
    HasJob(0, Some(true)),
    Near(0, (0, 0), EVAC_AND_DROP),
    Retires(0, true),
    Releases(0, Some(false)),
    Collects(0),
    Releases(0, Some(true)),
];

// Its owner dropped the object.
const DROPS_FIRST: &[Act] = &[
    Waits(7),
    Collects(0),
    Near(0, (0, 0), EVAC_AND_DROP),
    Log(2, Kind::Open, [0, 16, 4080]),
    Retires(0, true),
    Releases(0, Some(true)),
];

// Its owner drops it while the copy is being named, which is lost, or sets MOVE, which isn't.
const IS_DROPPED_MEANWHILE: &[Act] = &[
    Waits(6),
    Collects(0),
    Near(0, (0, 0), EVAC_AND_DROP),
    Log(2, Kind::Open, [0, 16, 4080]),
    Retires(0, true),
    Releases(0, Some(true)),
];

const IS_NAMED_AFTER_ALL: &[Act] = &[
    Waits(6),
    Collects(1),
    Near(0, (2, 0), NO_MARKS),
    Log(2, Kind::Open, [16, 0, 4080]),
    Releases(0, Some(true)),
];

// Its owner drops it only then.
const IS_NAMED_AND_DROPPED: &[Act] = &[
    Waits(6),
    Collects(1),
    Near(0, (2, 0), IS_DROPPED),
    Releases(0, Some(true)),
];

// The object was dropped, and is retired. Before the void job is emptied a copier takes it, which keeps it until it has finished.
const IS_TAKEN_MEANWHILE: &[Act] = &[
    Waits(2),
    Retires(0, true),
    Collects(0),
    Releases(0, Some(false)),
    Waits(4),
    Collects(0),
    Releases(0, Some(true)),
];

// Another round has begun.
const IS_OF_AN_OLD_ROUND: &[Act] = &[
    Waits(5),
    BeginsNone(Ok(2)),
    Collects(0),
    Near(0, (0, 0), HAS_EVAC),
    Log(2, Kind::Open, [0, 16, 4080]),
];

const BESIDE_A_COPIER: &[ByTurns] = &[
    (&[(0, COPIES)], IS_NAMED),
    (&[(0, &[ADOPT, MOVE]), (20, COPIES)], HAS_MOVED),
    (&[(0, &[ADOPT, MOVE]), (0, COPIES)], IS_NAMED_THOUGH_ASKED),
    (&[(0, &[ADOPT, DROP])], STAYS_OFFERED),
    (&[(0, &[ADOPT, DROP]), (0, COPIES)], DROPS_FIRST),
    (
        &[(0, &[ADOPT]), (0, COPIES), (2, &[DROP])],
        IS_DROPPED_MEANWHILE,
    ),
    (
        &[(0, &[ADOPT]), (0, COPIES), (3, &[DROP])],
        IS_NAMED_AND_DROPPED,
    ),
    (
        &[(0, &[ADOPT]), (0, COPIES), (2, &[MOVE])],
        IS_NAMED_AFTER_ALL,
    ),
    (
        &[(0, &[ADOPT, DROP]), (5, &[CLAIM]), (0, GOES_ON)],
        IS_TAKEN_MEANWHILE,
    ),
    (&[(0, COPIES)], IS_OF_AN_OLD_ROUND),
];

#[test]
fn a_copy_is_collected(rt: HostRuntime) {
    assert!(rt; plays_by_turns(&rt, OFFERS_ONE, TURNS_OF_ONE, BESIDE_A_COPIER));
}

// Pointers 0 and 1 are objects of log 0; jobs 0 and 1 are their copies to log 2.
const OFFERS_TWO: &[Act] = &[
    Makes(8, 0, (0, 0)),
    Makes(8, 1, (0, 2)),
    Makes(4088, 2, (1, 0)),
    MarksMany(2),
    Offers(&[(0, true), (1, true)]),
];

const TURNS_OF_TWO: u16 = 791;

// Of the two jobs the one that a copier has taken or finished stays when they are taken back.
const FIRST_STAYS: &[Act] = &[
    TakesBack,
    HasJob(0, Some(true)),
    HasJob(1, Some(false)),
    Collects(0),
];

const FINISHED_STAYS: &[Act] = &[
    Waits(5),
    TakesBack,
    HasJob(0, Some(true)),
    HasJob(1, Some(false)),
    Collects(1),
    Near(0, (2, 0), NO_MARKS),
];

// The first is named, and so the lowest empty job is offered next: a copier takes it for the second object's.
const OFFERS_THE_LOWEST: &[Act] = &[
    Waits(5),
    Collects(1),
    HasJob(1, Some(true)),
    Offers(&[(1, true)]),
    Waits(5),
    Collects(1),
    Near(1, (2, 4), NO_MARKS),
    Log(2, Kind::Open, [32, 16, 4048]),
    Releases(0, Some(true)),
];

const CLAIM_ANEW: Event = Event::Claim {
    copier: 0,
    job: 0,
    old: 0x4000_2010_0002_0001,
};

const TWO_BESIDE_A_COPIER: &[ByTurns] = &[
    (&[(0, &[CLAIM])], FIRST_STAYS),
    (&[(1, &[CLAIM])], FIRST_STAYS),
    (&[(0, COPIES)], FINISHED_STAYS),
    (
        &[(0, COPIES), (270, &[CLAIM_ANEW]), (0, GOES_ON)],
        OFFERS_THE_LOWEST,
    ),
];

#[test]
fn two_copies_are_taken_back_or_collected(rt: HostRuntime) {
    assert!(rt; plays_by_turns(&rt, OFFERS_TWO, TURNS_OF_TWO, TWO_BESIDE_A_COPIER));
}
