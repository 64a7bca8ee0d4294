//! What the calls of a round are refused, in the order of the reasons, with the round as it was.

use crate::tests::acts::Act::*;
use crate::tests::acts::Choice::{Eldest, Named};
use crate::tests::acts::{Act, End};
use crate::tests::play::Scene::Acts;
use crate::tests::play::{ONE, Play, holds};
use far_evac::{LogKind, Phase, Polled};
use far_word::Refused;

// A small object in the first log, and one that fills the next.
const FIRST_SEALED: &[Act] = &[Makes(8, Ok(0)), Makes(4088, Ok(1))];

// Nothing can be done but to select logs.
const IDLE: &[Act] = &[
    Marks(0, Err(Refused::Phase)),
    Marks(9, Err(Refused::Phase)),
    Polls(Err(Refused::Phase)),
    Deals(0, Err(Refused::Phase)),
    Deals(9, Err(Refused::Phase)),
    TurnsNone(Refused::Phase),
    GivesUp(Err(Refused::Phase)),
    In(Phase::Idle),
];

// A round begins, and can only mark.
const MARKING: &[Act] = &[
    Selects(Eldest, 1, Ok(&[0])),
    Selects(Eldest, 1, Err(Refused::Phase)),
    Selects(Named(&[9]), 1, Err(Refused::Phase)),
    Polls(Err(Refused::Phase)),
    Deals(0, Err(Refused::Phase)),
    Deals(9, Err(Refused::Phase)),
    In(Phase::Marking),
];

// Where it waits, it can only look at scopes.
const WAITING: &[Act] = &[
    Selects(Eldest, 1, Err(Refused::Phase)),
    Selects(Named(&[9]), 1, Err(Refused::Phase)),
    Marks(0, Err(Refused::Phase)),
    Marks(9, Err(Refused::Phase)),
    Deals(0, Err(Refused::Phase)),
    Deals(9, Err(Refused::Phase)),
    In(Phase::Waiting),
];

// Where objects leave, it can only deal with them. A whole round is refused meanwhile. It ends with its object far.
const LEAVING: &[Act] = &[
    Polls(Ok(Polled::Clear)),
    Selects(Eldest, 1, Err(Refused::Phase)),
    Selects(Named(&[9]), 1, Err(Refused::Phase)),
    Marks(0, Err(Refused::Phase)),
    Marks(9, Err(Refused::Phase)),
    Polls(Err(Refused::Phase)),
    In(Phase::Evacuating),
    Runs(Eldest, 9, 9, End::Refused(Refused::Phase)),
    Deals(9, Ok([0, 1, 0, 1])),
];

const ALL_MARKED: &[Act] = &[Marks(9, Ok((1, Some(1))))];

// Each phase has its call, and is refused the others.
const A_CALL_BELONGS_TO_A_PHASE_PLAYS: &[Play] = &[Play {
    scene: Acts(&[
        FIRST_SEALED,
        IDLE,
        MARKING,
        ALL_MARKED,
        WAITING,
        LEAVING,
        IDLE,
    ]),
    ..ONE
}];

#[test]
fn a_call_belongs_to_a_phase(rt: HostRuntime) {
    holds(&rt, rt.alloc(), A_CALL_BELONGS_TO_A_PHASE_PLAYS);
}

// Scripts of logs that aren't sealed, or of a log that is named twice, are refused for that log, as a choice and as a whole round.
const BAD_CHOICES: &[Act] = &[
    Selects(Named(&[1]), 9, Err(Refused::BadChoice(1))),
    Runs(Named(&[1]), 9, 9, End::Refused(Refused::BadChoice(1))),
    Selects(Named(&[3]), 9, Err(Refused::BadChoice(3))),
    Runs(Named(&[3]), 9, 9, End::Refused(Refused::BadChoice(3))),
    Selects(Named(&[0, 0]), 9, Err(Refused::BadChoice(0))),
    Runs(Named(&[0, 0]), 9, 9, End::Refused(Refused::BadChoice(0))),
    Selects(Named(&[0, 64]), 9, Err(Refused::BadChoice(64))),
    Runs(Named(&[0, 64]), 9, 9, End::Refused(Refused::BadChoice(64))),
];

const STILL_SEALED: &[Act] = &[Log(0, LogKind::Sealed, [16, 0, 4080])];

const A_BAD_SCRIPT_BEGINS_NO_ROUND_PLAYS: &[Play] = &[Play {
    scene: Acts(&[FIRST_SEALED, BAD_CHOICES, IDLE, STILL_SEALED]),
    ..ONE
}];

#[test]
fn a_bad_script_begins_no_round(rt: HostRuntime) {
    holds(&rt, rt.alloc(), A_BAD_SCRIPT_BEGINS_NO_ROUND_PLAYS);
}

// A round reaches the last epoch.
const IN_THE_LAST: &[Act] = &[
    Selects(Eldest, 1, Ok(&[0])),
    Marks(9, Ok((1, Some((1 << 62) - 1)))),
];

// It is given up, and no other begins, whatever the policy is.
const AFTER_THE_LAST: &[Act] = &[
    GivesUp(Ok(())),
    Selects(Named(&[9]), 1, Err(Refused::EpochsSpent)),
    Runs(Eldest, 9, 9, End::Refused(Refused::EpochsSpent)),
];

const THE_LAST_EPOCH_PLAYS: &[Play] = &[Play {
    epoch: (1 << 62) - 2,
    scene: Acts(&[FIRST_SEALED, IN_THE_LAST, WAITING, AFTER_THE_LAST, IDLE]),
    ..ONE
}];

#[test]
fn the_last_epoch_begins_no_round(rt: HostRuntime) {
    holds(&rt, rt.alloc(), THE_LAST_EPOCH_PLAYS);
}

// Rounds of none, one and two turns go so far, and stand there.
const TURN_BY_TURN: &[Act] = &[
    Runs(Eldest, 1, 0, End::Limit(Phase::Marking)),
    In(Phase::Marking),
    GivesUp(Ok(())),
    Runs(Eldest, 1, 1, End::Limit(Phase::Waiting)),
    In(Phase::Waiting),
    GivesUp(Ok(())),
    Runs(Eldest, 1, 2, End::Limit(Phase::Evacuating)),
    In(Phase::Evacuating),
    GivesUp(Ok(())),
];

const A_ROUND_MAKES_NO_TURN_MORE_PLAYS: &[Play] = &[Play {
    scene: Acts(&[FIRST_SEALED, TURN_BY_TURN]),
    ..ONE
}];

#[test]
fn a_round_makes_no_turn_more(rt: HostRuntime) {
    holds(&rt, rt.alloc(), A_ROUND_MAKES_NO_TURN_MORE_PLAYS);
}
