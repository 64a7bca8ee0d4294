//! More copies than jobs, by eight copiers; copiers that are lost or dropped; room beside copies; and how many copiers a heap may have.

use crate::tests::acts::Act::*;
use crate::tests::acts::Choice::Eldest;
use crate::tests::acts::Went::*;
use crate::tests::acts::{Act, EIGHT, End};
use crate::tests::play::Scene::{Acts, Begins, Never};
use crate::tests::play::{ONE, Play, holds};
use far_evac::{LogKind, Phase, Polled};
use far_word::Refused;

// Eighteen objects lie in a log, all of which are written; another fills the next.
const EIGHTEEN: &[Act] = &[
    Fills(18, 8),
    Opens,
    Numbers(18),
    Closes,
    Makes(4088, Ok(18)),
];

// There are sixteen jobs: the last two objects are moved at once.
const SIXTEEN_OFFERED: &[Act] = &[
    Selects(Eldest, 1, Ok(&[0])),
    Marks(99, Ok((18, Some(1)))),
    Polls(Ok(Polled::Clear)),
    AllWork(8, Nowhere),
    DealsOn(99, [2, 0, 0, 0]),
    Near(16, (2, 32), false),
    Near(17, (2, 34), false),
    DealsOn(99, [0, 0, 0, 0]),
];

// Each copier copies one object; the copies that are finished are named, and the log stays.
const EIGHT_COPIED: &[Act] = &[
    AllWork(8, Claimed),
    AllWork(7, Copied),
    AllWork(7, Finished),
    DealsOn(99, [7, 0, 0, 0]),
    Near(0, (2, 0), false),
    Near(6, (2, 12), false),
    Log(0, LogKind::Chosen, [144, 144, 3808]),
];

// Each copies another one.
const ALL_COPIED: &[Act] = &[
    AllWork(7, Claimed),
    AllWork(8, Copied),
    AllWork(8, Finished),
    DealsOn(99, [8, 0, 0, 0]),
    Works(7, Claimed),
    AllWork(7, Nowhere),
    DealsOn(99, [0, 0, 0, 0]),
    Works(7, Copied),
    Works(7, Finished),
    AllWork(8, Nowhere),
    Deals(99, Ok([1, 0, 0, 1])),
    Free(0),
    Near(15, (2, 30), false),
    Log(2, LogKind::Open, [288, 0, 3808]),
];

const ALL_READ: &[Act] = &[Opens, HasNumbers(18), Closes, Has(19)];

const EIGHT_COPIERS_BY_HAND_PLAYS: &[Play] = &[Play {
    copiers: Some(8),
    scene: Acts(&[
        EIGHTEEN,
        SIXTEEN_OFFERED,
        EIGHT_COPIED,
        ALL_COPIED,
        ALL_READ,
    ]),
    ..ONE
}];

#[test]
fn eight_copiers_by_hand(rt: HostRuntime) {
    holds(&rt, rt.alloc(), EIGHT_COPIERS_BY_HAND_PLAYS);
}

// A few objects are dealt with at a time, offered ones too.
const FEW_AT_A_TIME: &[Act] = &[
    Selects(Eldest, 1, Ok(&[0])),
    Marks(99, Ok((18, Some(1)))),
    Polls(Ok(Polled::Clear)),
    DealsOn(0, [0, 0, 0, 0]),
    Works(0, Nowhere),
    DealsOn(1, [0, 0, 0, 0]),
    Works(0, Claimed),
    Works(1, Nowhere),
    DealsOn(2, [0, 0, 0, 0]),
    Works(1, Claimed),
    Works(2, Claimed),
    Works(3, Nowhere),
    DealsOn(14, [1, 0, 0, 0]),
    Near(16, (2, 32), false),
];

// The round is given up: what was taken may be finished, and the rest is offered no more.
const FEW_FINISHED: &[Act] = &[
    GivesUp(Ok(())),
    Works(3, Nowhere),
    AllWork(3, Copied),
    AllWork(3, Finished),
    AllWork(8, Nowhere),
    Near(0, (0, 0), true),
    Near(17, (0, 34), true),
];

const A_FEW_ARE_OFFERED_AT_A_TIME_PLAYS: &[Play] = &[Play {
    copiers: Some(8),
    scene: Acts(&[EIGHTEEN, FEW_AT_A_TIME, FEW_FINISHED, ALL_READ]),
    ..ONE
}];

#[test]
fn a_few_are_offered_at_a_time(rt: HostRuntime) {
    holds(&rt, rt.alloc(), A_FEW_ARE_OFFERED_AT_A_TIME_PLAYS);
}

// Three objects have a log each. The first is viewed, and its copy is offered; the round isn't done.
const ONE_TAKEN: &[Act] = &[
    Makes(4088, Ok(0)),
    Makes(4088, Ok(1)),
    Makes(4088, Ok(2)),
    Opens,
    Writes(0, [7; 8]),
    Closes,
    Runs(Eldest, 1, 3, End::Limit(Phase::Evacuating)),
    Works(0, Claimed),
    Works(0, Copied),
];

// The copier is gone, and its job stays taken.
const LOST: &[Act] = &[
    Loses(0),
    Works(0, Lost),
    Runs(Eldest, 9, 9, End::Refused(Refused::Phase)),
];

// The round is given up, and another takes all logs: those that nobody copies from or to are given back.
const ALL_TAKEN: &[Act] = &[
    GivesUp(Ok(())),
    Makes(8, Ok(3)),
    Log(3, LogKind::Sealed, [0, 4096, 0]),
    Runs(Eldest, 9, 9, End::Limit(Phase::Evacuating)),
    Free(1),
    Free(2),
    Log(0, LogKind::Chosen, [4096, 0, 0]),
];

// The other copier copies the object.
const OTHER_COPIES: &[Act] = &[Works(1, Claimed), Ends(1, true)];

// That which the lost one reads is never given back, nor that into which it was to write.
const TWO_KEPT: &[Act] = &[
    DealsOn(9, [1, 0, 0, 0]),
    Log(0, LogKind::Chosen, [0, 4096, 0]),
    Log(3, LogKind::Chosen, [0, 4096, 0]),
    GivesUp(Ok(())),
    Counts(2, 2, 4112),
];

const WRITTEN_READ: &[Act] = &[Opens, Brings(0, [7; 8]), Closes];

// Two logs more are garbage, and no log has room.
const GARBAGE: &[Act] = &[
    Makes(4088, Ok(4)),
    Drops(4, Ok(())),
    Makes(4088, Ok(4)),
    Drops(4, Ok(())),
    Makes(4088, Ok(4)),
    Drops(4, Ok(())),
    Makes(4088, Err(Refused::NoRoom)),
];

// The two that are kept are the oldest: rounds of two logs give nothing back.
const TWO_OLDEST: &[Act] = &[
    Runs(Eldest, 2, 9, End::Limit(Phase::Evacuating)),
    Log(0, LogKind::Chosen, [0, 4096, 0]),
    Log(3, LogKind::Chosen, [0, 4096, 0]),
    GivesUp(Ok(())),
    Makes(4088, Err(Refused::NoRoom)),
];

// Wider ones do.
const FOUR_OLDEST: &[Act] = &[
    Runs(Eldest, 4, 9, End::Limit(Phase::Evacuating)),
    GivesUp(Ok(())),
    Makes(4088, Ok(4)),
];

const EIGHT_LOGS: Play = Play {
    logs: 8,
    copiers: Some(2),
    ..ONE
};

const A_LOST_COPIER_KEEPS_TWO_LOGS_PLAYS: &[Play] = &[Play {
    scene: Acts(&[
        ONE_TAKEN,
        LOST,
        ALL_TAKEN,
        OTHER_COPIES,
        TWO_KEPT,
        GARBAGE,
        TWO_OLDEST,
        TWO_OLDEST,
        FOUR_OLDEST,
        WRITTEN_READ,
    ]),
    ..EIGHT_LOGS
}];

#[test]
fn a_lost_copier_keeps_two_logs(rt: HostRuntime) {
    holds(&rt, rt.alloc(), A_LOST_COPIER_KEEPS_TWO_LOGS_PLAYS);
}

// The copier is dropped.
const QUITS: &[Act] = &[Quits(0), Works(0, Lost)];

// Its copy is named, and the round is over.
const COPY_NAMED: &[Act] = &[Deals(9, Ok([1, 0, 0, 1])), Free(0), Near(0, (3, 0), false)];

// The copy of a round that was given up is dead; both logs are given back.
const NONE_KEPT: &[Act] = &[
    Deals(9, Ok([1, 0, 0, 1])),
    Free(0),
    Free(3),
    Counts(2, 2, 4112),
];

// A copier that is dropped finishes its job, whether its round stands or was given up.
const A_DROPPED_COPIER_FINISHES_ITS_JOB_PLAYS: &[Play] = &[
    Play {
        scene: Acts(&[ONE_TAKEN, QUITS, COPY_NAMED, WRITTEN_READ]),
        ..EIGHT_LOGS
    },
    Play {
        scene: Acts(&[
            ONE_TAKEN,
            QUITS,
            ALL_TAKEN,
            OTHER_COPIES,
            NONE_KEPT,
            WRITTEN_READ,
        ]),
        ..EIGHT_LOGS
    },
];

#[test]
fn a_dropped_copier_finishes_its_job(rt: HostRuntime) {
    holds(&rt, rt.alloc(), A_DROPPED_COPIER_FINISHES_ITS_JOB_PLAYS);
}

// Five of the longest objects have a log each, and all are written; two logs are free. A round takes the five.
const FIVE: &[Act] = &[
    Makes(4088, Ok(0)),
    Makes(4088, Ok(1)),
    Makes(4088, Ok(2)),
    Makes(4088, Ok(3)),
    Makes(4088, Ok(4)),
    Makes(8, Ok(5)),
    Opens,
    Numbers(5),
    Closes,
    Selects(Eldest, 5, Ok(&[0, 1, 2, 3, 4])),
    Marks(16, Ok((5, Some(1)))),
    Polls(Ok(Polled::Clear)),
];

// Without copiers each move frees a log for the next. With one each copy takes a log while its object still lies in another: the last two go far.
const COPIES_TAKE_ROOM_PLAYS: &[Play] = &[
    Play {
        logs: 8,
        scene: Acts(&[FIVE, &[Deals(16, Ok([5, 0, 0, 5]))]]),
        ..ONE
    },
    Play {
        scene: Acts(&[FIVE, &[DealsOn(16, [0, 2, 0, 2])]]),
        ..EIGHT_LOGS
    },
];

#[test]
fn copies_take_room(rt: HostRuntime) {
    holds(&rt, rt.alloc(), COPIES_TAKE_ROOM_PLAYS);
}

// The copy of a written object is offered, and takes the last free log.
const LAST_LOG_TAKEN: &[Act] = &[
    Makes(4088, Ok(0)),
    Makes(4088, Ok(1)),
    Makes(4088, Ok(2)),
    Opens,
    Writes(0, EIGHT),
    Closes,
    Selects(Eldest, 1, Ok(&[0])),
    Marks(16, Ok((1, Some(1)))),
    Polls(Ok(Polled::Clear)),
    DealsOn(16, [0, 0, 0, 0]),
];

// A new object is refused, by a mutator and by its scope, and a view of the object; all stands as before.
const NO_NEW_OBJECT: &[Act] = &[
    Notes,
    Makes(8, Err(Refused::NoRoom)),
    Opens,
    Makes(8, Err(Refused::NoRoom)),
    Closes,
    AsNoted,
];

const NO_VIEW: &[Act] = &[
    Opens,
    ViewsNone(0, Refused::NoRoom),
    Closes,
    In(Phase::Evacuating),
];

// The round goes on, and the copy is named.
const GOES_ON: &[Act] = &[
    Works(0, Claimed),
    Ends(0, true),
    Deals(16, Ok([1, 0, 0, 1])),
    Opens,
    Brings(0, EIGHT),
];

// For want of room beside a copy the round isn't given up.
const A_REFUSAL_LEAVES_COPIES_AS_THEY_ARE_PLAYS: &[Play] = &[
    Play {
        copiers: Some(1),
        scene: Acts(&[LAST_LOG_TAKEN, NO_NEW_OBJECT, GOES_ON]),
        ..ONE
    },
    Play {
        copiers: Some(1),
        scene: Acts(&[LAST_LOG_TAKEN, NO_VIEW, GOES_ON]),
        ..ONE
    },
];

#[test]
fn a_refusal_leaves_copies_as_they_are(rt: HostRuntime) {
    holds(&rt, rt.alloc(), A_REFUSAL_LEAVES_COPIES_AS_THEY_ARE_PLAYS);
}

const TWO: Play = Play {
    logs: 2,
    mutators: 2,
    ..ONE
};

// A heap has one to eight copiers, and no other number.
const HOW_MANY: &[Play] = &[
    Play {
        copiers: Some(1),
        scene: Begins(2, 1),
        ..TWO
    },
    Play {
        copiers: Some(2),
        scene: Begins(2, 2),
        ..TWO
    },
    Play {
        copiers: Some(3),
        scene: Begins(2, 3),
        ..TWO
    },
    Play {
        copiers: Some(4),
        scene: Begins(2, 4),
        ..TWO
    },
    Play {
        copiers: Some(5),
        scene: Begins(2, 5),
        ..TWO
    },
    Play {
        copiers: Some(6),
        scene: Begins(2, 6),
        ..TWO
    },
    Play {
        copiers: Some(7),
        scene: Begins(2, 7),
        ..TWO
    },
    Play {
        copiers: Some(8),
        scene: Begins(2, 8),
        ..TWO
    },
    Play {
        copiers: Some(0),
        scene: Never,
        refused: Some(Refused::Shape),
        ..TWO
    },
    Play {
        copiers: Some(9),
        scene: Never,
        refused: Some(Refused::Shape),
        ..TWO
    },
    Play {
        copiers: Some(255),
        scene: Never,
        refused: Some(Refused::Shape),
        ..TWO
    },
];

#[test]
fn a_heap_has_eight_copiers_at_most(rt: HostRuntime) {
    holds(&rt, rt.alloc(), HOW_MANY);
}
