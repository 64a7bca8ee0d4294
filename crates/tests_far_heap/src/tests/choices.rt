//! What a whole round makes of its policy's choice: it runs those logs and no others, asks once, and stands where its turns are over.

use crate::tests::acts::Act::*;
use crate::tests::acts::Choice::Named;
use crate::tests::acts::{Act, End};
use crate::tests::play::Scene::Acts;
use crate::tests::play::{ONE, Play, holds};
use far_evac::{LogKind, Phase};
use far_word::Refused;

// Three logs have an object each, and all are sealed.
const THREE_LOGS: &[Act] = &[
    Makes(4088, Ok(0)),
    Makes(4088, Ok(1)),
    Makes(4088, Ok(2)),
    Makes(8, Ok(3)),
];

// The round of the second log, which isn't the oldest, stands, and none of it was given back; the others are sealed and full. Then it is given up.
const STANDS: &[Act] = &[
    Asked(1),
    Log(1, LogKind::Chosen, [4096, 0, 0]),
    Log(0, LogKind::Sealed, [4096, 0, 0]),
    Log(2, LogKind::Sealed, [4096, 0, 0]),
    GivesUp(Ok(())),
];

// Rounds whose turns are over before they are.
const NO_TURN: &[Act] = &[
    Runs(Named(&[1]), 1, 0, End::Limit(Phase::Marking)),
    In(Phase::Marking),
];

const ONE_TURN: &[Act] = &[
    Runs(Named(&[1]), 1, 1, End::Limit(Phase::Waiting)),
    In(Phase::Waiting),
];

const TWO_TURNS: &[Act] = &[
    Runs(Named(&[1]), 1, 2, End::Limit(Phase::Evacuating)),
    In(Phase::Evacuating),
];

const LIMITED: Play = Play {
    logs: 6,
    scene: Acts(&[
        THREE_LOGS, NO_TURN, STANDS, ONE_TURN, STANDS, TWO_TURNS, STANDS,
    ]),
    ..ONE
};

// Without copiers and with one.
const A_LIMIT_LEAVES_THE_ROUND_STANDING_PLAYS: &[Play] = &[
    LIMITED,
    Play {
        copiers: Some(1),
        ..LIMITED
    },
];

#[test]
fn a_limit_leaves_the_round_standing(rt: HostRuntime) {
    holds(&rt, rt.alloc(), A_LIMIT_LEAVES_THE_ROUND_STANDING_PLAYS);
}

// A whole round of the second log: that alone is given back, and its object alone goes far.
const CHOSEN_ALONE: &[Act] = &[
    Runs(Named(&[1]), 1, 9, End::Done([0, 1, 0, 1])),
    Asked(1),
    In(Phase::Idle),
    Free(1),
    Log(0, LogKind::Sealed, [4096, 0, 0]),
    Log(2, LogKind::Sealed, [4096, 0, 0]),
    Near(0, (0, 0), false),
    Far(1, false),
    Near(2, (2, 0), false),
];

const CHOSEN: Play = Play {
    logs: 6,
    scene: Acts(&[THREE_LOGS, CHOSEN_ALONE]),
    ..ONE
};

const A_ROUND_EMPTIES_WHAT_ITS_POLICY_CHOSE_PLAYS: &[Play] = &[
    CHOSEN,
    Play {
        copiers: Some(1),
        ..CHOSEN
    },
];

#[test]
fn a_round_empties_what_its_policy_chose(rt: HostRuntime) {
    holds(&rt, rt.alloc(), A_ROUND_EMPTIES_WHAT_ITS_POLICY_CHOSE_PLAYS);
}

// A policy that names a free log is refused, and one that comes while a round is running is not asked.
const REFUSED: &[Act] = &[
    Runs(Named(&[5]), 1, 9, End::Refused(Refused::BadChoice(5))),
    Asked(1),
    In(Phase::Idle),
    Selects(Named(&[1]), 1, Ok(&[1])),
    Runs(Named(&[2]), 1, 9, End::Refused(Refused::Phase)),
    Asked(0),
    In(Phase::Marking),
];

const UNASKED: Play = Play {
    logs: 6,
    scene: Acts(&[THREE_LOGS, REFUSED]),
    ..ONE
};

const A_POLICY_THAT_IS_REFUSED_IS_NOT_ASKED_AGAIN_PLAYS: &[Play] = &[
    UNASKED,
    Play {
        copiers: Some(1),
        ..UNASKED
    },
];

#[test]
fn a_policy_that_is_refused_is_not_asked_again(rt: HostRuntime) {
    holds(
        &rt,
        rt.alloc(),
        A_POLICY_THAT_IS_REFUSED_IS_NOT_ASKED_AGAIN_PLAYS,
    );
}
