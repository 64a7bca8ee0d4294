//! What each call is refused in each phase to which it doesn't belong, with nothing changed.

use crate::tests::acts::Act::*;
use crate::tests::acts::Choice::Eldest;
use crate::tests::acts::{Act, End, Play};
use crate::tests::making::SMALL;
use crate::tests::stage::play;
use far_evac::{EvacFault, Phase, Polled, Progress};
use far_word::Refused;
use std::test::Fail;

const WITHOUT_A_ROUND: &[Act] = &[
    MakesMany(3, 4088),
    Notes,
    Marks(0, Err(Refused::Phase)),
    Marks(9, Err(Refused::Phase)),
    Polls(Err(Refused::Phase)),
    DealsUntil(0, [0, 0, 0, 0], Refused::Phase),
    DealsUntil(9, [0, 0, 0, 0], Refused::Phase),
    TurnsNone(Refused::Phase),
    GivesUp(Err(Refused::Phase)),
    AsNoted,
];

// A round of the first two of three full logs begins.
const BEGUN: &[Act] = &[MakesMany(3, 4088), Selects(Eldest, 2, Ok(&[0, 1]))];

const MARKING: &[Act] = &[
    Marks(1, Ok((1, None))),
    Notes,
    Selects(Eldest, 1, Err(Refused::Phase)),
    Runs(Eldest, 1, 9, End::Stopped([0, 0, 0, 0], Refused::Phase)),
    Polls(Err(Refused::Phase)),
    DealsUntil(0, [0, 0, 0, 0], Refused::Phase),
    DealsUntil(9, [0, 0, 0, 0], Refused::Phase),
    AsNoted,
    Marks(1, Ok((1, Some(1)))),
];

const WAITING: &[Act] = &[
    Marks(9, Ok((2, Some(1)))),
    Notes,
    Selects(Eldest, 1, Err(Refused::Phase)),
    Runs(Eldest, 1, 9, End::Stopped([0, 0, 0, 0], Refused::Phase)),
    Marks(0, Err(Refused::Phase)),
    Marks(9, Err(Refused::Phase)),
    DealsUntil(0, [0, 0, 0, 0], Refused::Phase),
    DealsUntil(9, [0, 0, 0, 0], Refused::Phase),
    AsNoted,
    Polls(Ok(Polled::Clear)),
];

const LEAVING: &[Act] = &[
    MakesMany(3, 4088),
    Runs(Eldest, 2, 2, End::Limit(Phase::Evacuating)),
    Notes,
    Selects(Eldest, 1, Err(Refused::Phase)),
    Runs(Eldest, 1, 9, End::Stopped([0, 0, 0, 0], Refused::Phase)),
    Marks(0, Err(Refused::Phase)),
    Marks(9, Err(Refused::Phase)),
    Polls(Err(Refused::Phase)),
    AsNoted,
];

#[test]
fn a_fault_tells_why_and_what_was_done(rt: HostRuntime) -> Result<(), Fail> {
    let so_far = Progress {
        moved: 1,
        far: 2,
        dropped: 3,
        freed: 4,
        done: false,
    };
    let fault = EvacFault {
        so_far,
        why: Refused::Device,
    };
    let text = format!(in rt.alloc(); "{fault}")?;
    assert!(rt; text.as_str() == "the device failed; done before: moved 1 far 2 dropped 3 freed 4");
    Ok(())
}

#[rattlefmt::skip]
const PLAYS: &[Play] = &[
    Play { name: "nothing_runs_without_a_round", shape: SMALL, parts: &[WITHOUT_A_ROUND] },
    Play { name: "marking_comes_first", shape: SMALL, parts: &[BEGUN, MARKING] },
    Play { name: "waiting_comes_next", shape: SMALL, parts: &[BEGUN, WAITING] },
    Play { name: "leaving_comes_last", shape: SMALL, parts: &[LEAVING] },
];

#[test]
fn each_phase_refuses(rt: HostRuntime) {
    play(&rt, rt.alloc(), PLAYS);
}
