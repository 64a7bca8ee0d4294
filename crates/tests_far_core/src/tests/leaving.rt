//! Objects that stay or go far, and marks that are cleared.

use crate::tests::acts::Act::*;
use crate::tests::acts::{Act, Play, SMALL};
use crate::tests::peopled::{NEAR, NEXT, SETTLED};
use crate::tests::stage::play;
use far_core::Event::*;
use far_core::Reply::*;
use far_word::Mark::Moved;

const WITH_EVAC: u64 = 0xa600_0000_0001_0008;

const WITH_MOVE: u64 = 0x9600_0000_0001_0008;

const WITH_BOTH: u64 = 0xb600_0000_0001_0008;

const FAR: u64 = 0x0400_0000_0001_0008;

#[rattlefmt::skip]
const SENT_FAR: &[Act] = &[
    Does(Mark { pointer: 0 }, Word(NEAR)),
    Does(Name { pointer: 0, old: WITH_EVAC, new: FAR }, Refused),
    Does(Ask { owner: 0, pointer: 0, mark: Moved }, Word(WITH_EVAC)),
    Does(Name { pointer: 0, old: WITH_EVAC, new: FAR }, Word(WITH_BOTH)),
    Does(Name { pointer: 0, old: WITH_BOTH, new: FAR }, Done),
    Does(See { pointer: 0 }, Word(FAR)),
    Does(Name { pointer: 0, old: WITH_BOTH, new: FAR }, Refused),
    Does(Clear { pointer: 0 }, Refused),
    May(Get { log: 0, at: 0, free: true }, true),
];

#[rattlefmt::skip]
const NOT_SENT: &[Act] = &[
    Does(Ask { owner: 0, pointer: 0, mark: Moved }, Word(NEAR)),
    Does(Mark { pointer: 0 }, Word(WITH_MOVE)),
    Refuses(&[
        Name { pointer: 0, old: WITH_MOVE, new: FAR },
        Name { pointer: 0, old: WITH_BOTH, new: FAR + 1 },
        Name { pointer: 0, old: WITH_BOTH, new: FAR + 0x1_0000 },
        Name { pointer: 0, old: WITH_BOTH, new: 0x4400_0000_0001_0008 },
        Name { pointer: 0, old: WITH_BOTH | 1 << 59, new: FAR },
        Name { pointer: 1, old: WITH_BOTH, new: FAR },
    ]),
];

#[rattlefmt::skip]
const STAYING: &[Act] = &[
    Does(Ask { owner: 0, pointer: 0, mark: Moved }, Word(NEAR)),
    Does(Name { pointer: 0, old: WITH_MOVE | 1 << 62, new: NEAR }, Word(WITH_MOVE)),
    Does(Name { pointer: 0, old: WITH_MOVE, new: NEAR }, Done),
    Does(See { pointer: 0 }, Word(NEAR)),
    Refuses(&[
        Name { pointer: 0, old: NEAR, new: NEAR },
        Name { pointer: 0, old: WITH_BOTH, new: NEAR },
        Name { pointer: 0, old: WITH_MOVE, new: NEAR + 1 },
        Name { pointer: 0, old: WITH_MOVE, new: NEXT },
        Name { pointer: 0, old: WITH_MOVE, new: WITH_EVAC },
        Name { pointer: 0, old: WITH_MOVE | 1 << 59, new: NEAR },
    ]),
];

#[rattlefmt::skip]
const CLEARED: &[Act] = &[
    Does(Mark { pointer: 0 }, Word(NEAR)),
    Does(Ask { owner: 0, pointer: 0, mark: Moved }, Word(WITH_EVAC)),
    Does(Clear { pointer: 0 }, Word(WITH_BOTH)),
    Does(Clear { pointer: 0 }, Word(WITH_MOVE)),
    Does(Clear { pointer: 1 }, Word(NEXT)),
    Refuses(&[Clear { pointer: 2 }, Clear { pointer: 256 }]),
    Calls(Clear { pointer: 0 }, Word(WITH_MOVE)),
];

/// The parts that come first.
const FIRSTS: &[&[Act]] = &[SETTLED];

#[rattlefmt::skip]
const PLAYS: &[Play] = &[
    Play { name: "a_quiet_object_goes_far", shape: SMALL, honest: true, after: 1, parts: &[SENT_FAR] },
    Play { name: "an_object_that_may_not_go_far", shape: SMALL, honest: true, after: 1, parts: &[NOT_SENT] },
    Play { name: "an_object_stays", shape: SMALL, honest: true, after: 1, parts: &[STAYING] },
    Play { name: "a_mark_is_cleared", shape: SMALL, honest: true, after: 1, parts: &[CLEARED] },
];

#[test]
fn objects_leave_or_stay(rt: HostRuntime) {
    play(&rt, rt.alloc(), FIRSTS, PLAYS);
}
