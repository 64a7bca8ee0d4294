//! A scope that is dropped unclosed: what rounds answer then, and what other mutators do.

use crate::tests::acts::Act::*;
use crate::tests::acts::Choice::Eldest;
use crate::tests::acts::{Act, EIGHT, End};
use crate::tests::play::Scene::Acts;
use crate::tests::play::{ONE, Play, holds};
use far_evac::{Phase, Polled};

// The first mutator drops its scope unclosed, with a view. The other writes an object, and another one fills the next log.
const LEFT_OPEN: &[Act] = &[
    Makes(8, Ok(0)),
    Opens,
    Writes(0, EIGHT),
    LeavesOpen,
    Turns,
    Makes(8, Ok(256)),
    Makes(4088, Ok(257)),
    Opens,
    Writes(256, EIGHT),
    Closes,
];

// A round goes no further than to wait for the first mutator. The other works on: an object that the round wants is moved where it can be viewed.
const FIRST_ROUND: &[Act] = &[
    Runs(Eldest, 1, 9, End::Limit(Phase::Waiting)),
    In(Phase::Waiting),
    Polls(Ok(Polled::StillOpen(0, 0))),
    Epoch(1),
    Opens,
    IsSlow(256),
    Brings(256, EIGHT),
    Closes,
    Makes(8, Ok(258)),
    Drops(257, Ok(())),
];

// The next round waits too.
const NEXT_ROUND: &[Act] = &[
    GivesUp(Ok(())),
    Runs(Eldest, 1, 9, End::Limit(Phase::Waiting)),
    In(Phase::Waiting),
    Polls(Ok(Polled::StillOpen(0, 0))),
    Epoch(2),
    GivesUp(Ok(())),
    Opens,
    Reads(256, EIGHT),
];

const SCOPE_LEFT_OPEN_PLAYS: &[Play] = &[Play {
    logs: 6,
    mutators: 2,
    scene: Acts(&[LEFT_OPEN, FIRST_ROUND, NEXT_ROUND]),
    ..ONE
}];

#[test]
fn scope_left_open(rt: HostRuntime) {
    holds(&rt, rt.alloc(), SCOPE_LEFT_OPEN_PLAYS);
}
