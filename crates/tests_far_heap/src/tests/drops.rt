//! A drop beside a running round frees its cell at once, in each phase of the round.

use crate::tests::acts::Act;
use crate::tests::acts::Act::*;
use crate::tests::acts::Choice::Eldest;
use crate::tests::play::Scene::Acts;
use crate::tests::play::{ONE, Play, holds};
use far_evac::{Phase, Polled};

// Six objects lie in the first log, and one fills the next; a round of the first has marked one object.
const MARKING: &[Act] = &[
    Fills(6, 8),
    Makes(4088, Ok(6)),
    Selects(Eldest, 1, Ok(&[0])),
    Marks(1, Ok((1, None))),
];

// In each phase an object is dropped by its mutator, and another by the open scope; the cell of each is free then.
const TWO_WHILE_MARKING: &[Act] = &[
    Drops(0, Ok(())),
    In(Phase::Marking),
    Gone(0),
    Opens,
    Drops(1, Ok(())),
    In(Phase::Marking),
    Gone(1),
    Closes,
];

// Nothing is left to be marked.
const TWO_WHILE_WAITING: &[Act] = &[
    Marks(9, Ok((4, Some(1)))),
    Drops(2, Ok(())),
    In(Phase::Waiting),
    Gone(2),
    Opens,
    Drops(3, Ok(())),
    In(Phase::Waiting),
    Gone(3),
    Closes,
];

// The last two are dropped where objects leave, and the log is given back, with nothing that lives there.
const TWO_AT_LAST: &[Act] = &[
    Polls(Ok(Polled::Clear)),
    Drops(4, Ok(())),
    In(Phase::Evacuating),
    Gone(4),
    Opens,
    Drops(5, Ok(())),
    In(Phase::Evacuating),
    Gone(5),
    Closes,
    Deals(9, Ok([0, 0, 0, 1])),
];

const DROPPED: Play = Play {
    scene: Acts(&[MARKING, TWO_WHILE_MARKING, TWO_WHILE_WAITING, TWO_AT_LAST]),
    ..ONE
};

// Without copiers and with one.
const A_DROP_BESIDE_A_ROUND_FREES_ITS_CELL_PLAYS: &[Play] = &[
    DROPPED,
    Play {
        copiers: Some(1),
        ..DROPPED
    },
];

#[test]
fn a_drop_beside_a_round_frees_its_cell(rt: HostRuntime) {
    holds(&rt, rt.alloc(), A_DROP_BESIDE_A_ROUND_FREES_ITS_CELL_PLAYS);
}
