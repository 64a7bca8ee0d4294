//! A device that lies once: only bytes are wrong, or the call is refused; the book stands as its law says after each step.

use crate::tests::acts::Act::*;
use crate::tests::acts::Choice::Eldest;
use crate::tests::acts::{Act, End};
use crate::tests::devices::{COMES_BACK, IN_LOG_TWO, SENT_FAR};
use crate::tests::play::Scene::Acts;
use crate::tests::play::{ONE, Over, Play, holds};
use far_evac::{LogKind, Phase};
use far_word::Refused;

// An object of a byte goes far, beside one that stays, and comes back with the byte that the device gave, in the log that was given back.
const FLIPPED: &[Act] = &[
    Makes(1, Ok(0)),
    Has(1),
    Makes(4088, Ok(1)),
    Has(2),
    Runs(Eldest, 1, 9, End::Done([0, 1, 0, 1])),
    Has(2),
    Far(0, false),
    Opens,
    KeepsSlowly(0),
    ReadsAt(0, &[0xff]),
    Closes,
    Has(2),
    Clean(0, (0, 0), true),
    Log(0, LogKind::Open, [16, 0, 4080]),
];

// A round begins.
const BEGINS: &[Act] = &[Selects(Eldest, 1, Ok(&[1]))];

// A view is refused once, and the object stays far.
const DAMAGED: &[Act] = &[
    Has(3),
    Opens,
    IsSlow(0),
    ViewsNone(0, Refused::Damaged),
    Far(0, true),
];

// The round goes on to stand.
const STANDS: &[Act] = &[In(Phase::Marking), GivesUp(Ok(()))];

const STILL_THREE: &[Act] = &[Closes, Has(3)];

// A device gives inverted bytes once, and another one byte less once.
const LIES: &[Play] = &[
    Play {
        over: Over::Flip,
        scene: Acts(&[FLIPPED]),
        ..ONE
    },
    Play {
        over: Over::Short,
        scene: Acts(&[
            IN_LOG_TWO,
            SENT_FAR,
            BEGINS,
            DAMAGED,
            STANDS,
            COMES_BACK,
            STILL_THREE,
        ]),
        ..ONE
    },
];

#[test]
fn liar_on_heap(rt: HostRuntime) {
    holds(&rt, rt.alloc(), LIES);
}
