//! Copies made outside the lock, by worked answers, each copier's calls made by hand.

use crate::tests::acts::Act::*;
use crate::tests::acts::Choice::Eldest;
use crate::tests::acts::Went::*;
use crate::tests::acts::{Act, EIGHT, ZEROS};
use crate::tests::play::Scene::Acts;
use crate::tests::play::{ONE, Play, holds};
use far_evac::{LogKind, Phase, Polled};

/// Two objects lie in a log, of which the first is written, and another fills the next.
pub(super) const THREE: &[Act] = &[
    Makes(8, Ok(0)),
    Makes(8, Ok(1)),
    Opens,
    Writes(0, EIGHT),
    Closes,
    Makes(4088, Ok(2)),
];

/// A round of that log comes to where its objects leave.
pub(super) const LEAVING: &[Act] = &[
    Selects(Eldest, 1, Ok(&[0])),
    Marks(16, Ok((2, Some(1)))),
    Polls(Ok(Polled::Clear)),
    Works(0, Nowhere),
];

/// The copy of the first is offered, and the second goes far.
pub(super) const OFFERED: &[Act] = &[DealsOn(16, [0, 1, 0, 0]), In(Phase::Evacuating)];

const CLAIMED: &[Act] = &[Works(0, Claimed)];

const COPIED: &[Act] = &[Works(0, Copied), Works(0, Finished), Works(0, Nowhere)];

// The first is in another log, and its own is given back.
const NAMED: &[Act] = &[
    Deals(16, Ok([1, 0, 0, 1])),
    In(Phase::Idle),
    Near(0, (2, 0), false),
    Far(1, false),
    Free(0),
    Log(1, LogKind::Sealed, [4096, 0, 0]),
    Log(2, LogKind::Open, [16, 0, 4080]),
    Counts(2, 1, 4112),
];

// Both have their bytes.
const BOTH_READ: &[Act] = &[
    Opens,
    Brings(0, EIGHT),
    Brings(1, ZEROS),
    Brings(2, ZEROS),
    Closes,
    Works(0, Nowhere),
    Has(3),
];

const COPIER_BY_HAND_PLAYS: &[Play] = &[Play {
    copiers: Some(1),
    scene: Acts(&[THREE, LEAVING, OFFERED, CLAIMED, COPIED, NAMED, BOTH_READ]),
    ..ONE
}];

#[test]
fn copier_by_hand(rt: HostRuntime) {
    holds(&rt, rt.alloc(), COPIER_BY_HAND_PLAYS);
}

// The copy isn't made yet, or only in part: nothing is left to be done meanwhile, and the round isn't over.
const WAITS: &[Act] = &[DealsOn(16, [0, 0, 0, 0]), In(Phase::Evacuating)];

const COPIES_A_WORD: &[Act] = &[Works(0, Copied)];

// The copier finishes whatever is left.
const ENDS: &[Act] = &[Ends(0, true), Ends(0, false), Works(0, Nowhere)];

const A_ROUND_WAITS_FOR_ITS_COPIES_PLAYS: &[Play] = &[
    Play {
        copiers: Some(1),
        scene: Acts(&[
            THREE,
            LEAVING,
            OFFERED,
            WAITS,
            CLAIMED,
            WAITS,
            COPIES_A_WORD,
            WAITS,
            ENDS,
            NAMED,
            BOTH_READ,
        ]),
        ..ONE
    },
    Play {
        copiers: Some(1),
        scene: Acts(&[THREE, LEAVING, OFFERED, CLAIMED, ENDS, NAMED, BOTH_READ]),
        ..ONE
    },
];

#[test]
fn a_round_waits_for_its_copies(rt: HostRuntime) {
    holds(&rt, rt.alloc(), A_ROUND_WAITS_FOR_ITS_COPIES_PLAYS);
}

// The owner views the first object, which moves to the next place.
const OWNER_VIEWS: &[Act] = &[
    Opens,
    IsSlow(0),
    Brings(0, EIGHT),
    Closes,
    Near(0, (2, 2), true),
];

// Nobody is named to the copy, but the log is given back once the copier doesn't read it any more.
const OVER: &[Act] = &[
    Deals(16, Ok([0, 0, 0, 1])),
    In(Phase::Idle),
    Near(0, (2, 2), true),
    Free(0),
    Log(2, LogKind::Open, [16, 16, 4064]),
];

const OWNER_FIRST_PLAYS: &[Play] = &[Play {
    copiers: Some(1),
    scene: Acts(&[
        THREE,
        LEAVING,
        OFFERED,
        CLAIMED,
        OWNER_VIEWS,
        WAITS,
        COPIED,
        OVER,
        BOTH_READ,
    ]),
    ..ONE
}];

#[test]
fn owner_first(rt: HostRuntime) {
    holds(&rt, rt.alloc(), OWNER_FIRST_PLAYS);
}

// The same if the copy was finished before, or nobody claimed the job: it is emptied.
const OWNER_LATER_PLAYS: &[Play] = &[
    Play {
        copiers: Some(1),
        scene: Acts(&[
            THREE,
            LEAVING,
            OFFERED,
            CLAIMED,
            COPIED,
            OWNER_VIEWS,
            OVER,
            BOTH_READ,
        ]),
        ..ONE
    },
    Play {
        copiers: Some(1),
        scene: Acts(&[THREE, LEAVING, OFFERED, OWNER_VIEWS, OVER, BOTH_READ]),
        ..ONE
    },
];

#[test]
fn owner_later(rt: HostRuntime) {
    holds(&rt, rt.alloc(), OWNER_LATER_PLAYS);
}

// The owner drops the first object while it is copied, and makes another at its pointer.
const OWNER_DROPS: &[Act] = &[
    Drops(0, Ok(())),
    Gone(0),
    Makes(8, Ok(0)),
    Near(0, (2, 2), false),
];

// The new object isn't named to the copy of the old one.
const OTHER_OBJECT: &[Act] = &[
    Deals(16, Ok([0, 0, 0, 1])),
    Free(0),
    Near(0, (2, 2), false),
    Log(2, LogKind::Open, [16, 16, 4064]),
    Opens,
    Reads(0, ZEROS),
    Closes,
    Has(3),
];

const A_COPY_OF_A_DROPPED_OBJECT_IS_DEAD_PLAYS: &[Play] = &[
    Play {
        copiers: Some(1),
        scene: Acts(&[
            THREE,
            LEAVING,
            OFFERED,
            CLAIMED,
            OWNER_DROPS,
            WAITS,
            COPIED,
            OTHER_OBJECT,
        ]),
        ..ONE
    },
    Play {
        copiers: Some(1),
        scene: Acts(&[
            THREE,
            LEAVING,
            OFFERED,
            CLAIMED,
            COPIED,
            OWNER_DROPS,
            OTHER_OBJECT,
        ]),
        ..ONE
    },
];

#[test]
fn a_copy_of_a_dropped_object_is_dead(rt: HostRuntime) {
    holds(&rt, rt.alloc(), A_COPY_OF_A_DROPPED_OBJECT_IS_DEAD_PLAYS);
}

// The round is given up; the first object stays, and nothing is offered any more.
const GIVEN_UP: &[Act] = &[
    GivesUp(Ok(())),
    In(Phase::Idle),
    Near(0, (0, 0), true),
    Far(1, false),
    Log(0, LogKind::Sealed, [16, 16, 4064]),
    Log(2, LogKind::Open, [0, 16, 4080]),
];

const NOTHING_OFFERED: &[Act] = &[Works(0, Nowhere)];

// The next round of the log offers the copy anew, at the next place.
const AGAIN: &[Act] = &[
    Selects(Eldest, 1, Ok(&[0])),
    Marks(16, Ok((1, Some(2)))),
    Polls(Ok(Polled::Clear)),
    DealsOn(16, [0, 0, 0, 0]),
];

const NAMED_AGAIN: &[Act] = &[
    Deals(16, Ok([1, 0, 0, 1])),
    Near(0, (2, 2), false),
    Free(0),
    Log(2, LogKind::Open, [16, 16, 4064]),
];

// A job that nobody has claimed is taken back where the round is given up.
const AN_OFFER_IS_TAKEN_BACK_PLAYS: &[Play] = &[Play {
    copiers: Some(1),
    scene: Acts(&[
        THREE,
        LEAVING,
        OFFERED,
        GIVEN_UP,
        NOTHING_OFFERED,
        AGAIN,
        CLAIMED,
        COPIED,
        NAMED_AGAIN,
        BOTH_READ,
    ]),
    ..ONE
}];

#[test]
fn an_offer_is_taken_back(rt: HostRuntime) {
    holds(&rt, rt.alloc(), AN_OFFER_IS_TAKEN_BACK_PLAYS);
}

// A copy that was begun stays, and nobody is named to it, whether it is finished before the round is given up, or after that, or in the next round.
const A_COPY_OF_AN_EARLIER_ROUND_IS_DEAD_PLAYS: &[Play] = &[
    Play {
        copiers: Some(1),
        scene: Acts(&[
            THREE,
            LEAVING,
            OFFERED,
            CLAIMED,
            COPIED,
            GIVEN_UP,
            AGAIN,
            CLAIMED,
            COPIED,
            NAMED_AGAIN,
            BOTH_READ,
        ]),
        ..ONE
    },
    Play {
        copiers: Some(1),
        scene: Acts(&[
            THREE,
            LEAVING,
            OFFERED,
            CLAIMED,
            GIVEN_UP,
            COPIED,
            AGAIN,
            CLAIMED,
            COPIED,
            NAMED_AGAIN,
            BOTH_READ,
        ]),
        ..ONE
    },
    Play {
        copiers: Some(1),
        scene: Acts(&[
            THREE,
            LEAVING,
            OFFERED,
            CLAIMED,
            GIVEN_UP,
            AGAIN,
            ENDS_EARLIER,
            CLAIMED,
            COPIED,
            NAMED_AGAIN,
            BOTH_READ,
        ]),
        ..ONE
    },
];

#[test]
fn a_copy_of_an_earlier_round_is_dead(rt: HostRuntime) {
    holds(&rt, rt.alloc(), A_COPY_OF_AN_EARLIER_ROUND_IS_DEAD_PLAYS);
}

// The job of the earlier round is finished where another is offered.
const ENDS_EARLIER: &[Act] = &[Works(0, Copied), Works(0, Finished)];

// Another copier copies the object, which is named to that copy; the log is given back once the first doesn't read it any more.
const ANOTHER_COPIES: &[Act] = &[
    Works(1, Claimed),
    Works(1, Copied),
    Works(1, Finished),
    Works(1, Nowhere),
    DealsOn(16, [1, 0, 0, 0]),
    Near(0, (2, 2), false),
    Log(0, LogKind::Chosen, [0, 32, 4064]),
    DealsOn(16, [0, 0, 0, 0]),
];

const LATE: &[Act] = &[
    Works(0, Copied),
    DealsOn(16, [0, 0, 0, 0]),
    Works(0, Finished),
    Deals(16, Ok([0, 0, 0, 1])),
    Free(0),
    Near(0, (2, 2), false),
];

const A_LOG_STAYS_WHILE_IT_IS_COPIED_FROM_PLAYS: &[Play] = &[Play {
    copiers: Some(2),
    scene: Acts(&[
        THREE,
        LEAVING,
        OFFERED,
        CLAIMED,
        GIVEN_UP,
        AGAIN,
        ANOTHER_COPIES,
        LATE,
        BOTH_READ,
    ]),
    ..ONE
}];

#[test]
fn a_log_stays_while_it_is_copied_from(rt: HostRuntime) {
    holds(&rt, rt.alloc(), A_LOG_STAYS_WHILE_IT_IS_COPIED_FROM_PLAYS);
}
