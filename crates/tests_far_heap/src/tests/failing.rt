//! Each call of a device fails in turn, without copiers and with one: whatever fails, all objects keep their bytes.

use crate::tests::acts::Act::*;
use crate::tests::acts::Choice::Eldest;
use crate::tests::acts::Went::*;
use crate::tests::acts::{Act, EIGHT, End, ZEROS};
use crate::tests::copying::{LEAVING, OFFERED, THREE};
use crate::tests::play::Scene::Acts;
use crate::tests::play::{ONE, Over, Play, holds};
use far_evac::{Phase, Polled};
use far_word::Refused;

// A round moves the first object, and sends the second far.
const ROUND: &[Act] = &[Runs(Eldest, 1, 9, End::Done([1, 1, 0, 1])), In(Phase::Idle)];

// It is refused where the second was to go far, and is given up.
const STOPPED_ROUND: &[Act] = &[
    Runs(Eldest, 1, 9, End::Stopped([1, 0, 0, 0], Refused::Device)),
    GivesUp(Ok(())),
];

// All objects have their bytes.
const BYTES: &[Act] = &[Opens, Brings(0, EIGHT), Brings(1, ZEROS), Brings(2, ZEROS)];

// A round stands while the second isn't viewed.
const STANDS: &[Act] = &[
    Selects(Eldest, 1, Ok(&[1])),
    Opens,
    ViewsNone(1, Refused::Device),
    Closes,
    In(Phase::Marking),
    GivesUp(Ok(())),
];

// The second, which is far, isn't viewed at first.
const LATER_BYTES: &[Act] = &[
    Opens,
    Brings(0, EIGHT),
    ViewsNone(1, Refused::Device),
    Brings(2, ZEROS),
];

// All objects have their bytes once more, and are there.
const ALL_THREE: &[Act] = &[
    Brings(0, EIGHT),
    Brings(1, ZEROS),
    Brings(2, ZEROS),
    Closes,
    Has(3),
];

// Three objects fill a log each, the first is viewed, and its owner's move of the second takes the last free log in a round of both.
const HOT_THREE: &[Act] = &[
    Makes(4088, Ok(0)),
    Makes(4088, Ok(1)),
    Makes(4088, Ok(2)),
    Opens,
    Reads(0, ZEROS),
    Closes,
    Selects(Eldest, 2, Ok(&[0, 1])),
    Marks(9, Ok((2, Some(1)))),
    Polls(Ok(Polled::Clear)),
    Opens,
    Brings(1, ZEROS),
    Closes,
];

// The round sends the first object far, although it was viewed.
const HOT_ROUND: &[Act] = &[Deals(9, Ok([0, 1, 0, 2])), In(Phase::Idle)];

// It is refused there, and is given up.
const STOPPED_HOT_ROUND: &[Act] = &[Deals(9, Err(Refused::Device)), GivesUp(Ok(()))];

// All objects have zeros.
const HOT_BYTES: &[Act] = &[Opens, Brings(0, ZEROS), Brings(1, ZEROS), Brings(2, ZEROS)];

// The first, which is far, isn't viewed at first.
const LATER_HOT_BYTES: &[Act] = &[
    Opens,
    ViewsNone(0, Refused::Device),
    Brings(1, ZEROS),
    Brings(2, ZEROS),
];

// All objects have zeros once more, and are there.
const ALL_HOT_THREE: &[Act] = &[
    Brings(0, ZEROS),
    Brings(1, ZEROS),
    Brings(2, ZEROS),
    Closes,
    Has(3),
];

// Each run makes two calls, by which an object goes far and comes back: the first fails, the second, or none.
const WITHOUT_COPIERS: &[Play] = &[
    Play {
        over: Over::FailAt(1),
        scene: Acts(&[THREE, STOPPED_ROUND, BYTES, ALL_THREE]),
        ..ONE
    },
    Play {
        over: Over::FailAt(2),
        scene: Acts(&[THREE, ROUND, LATER_BYTES, ALL_THREE]),
        ..ONE
    },
    Play {
        over: Over::FailAt(2),
        scene: Acts(&[THREE, ROUND, STANDS, BYTES, ALL_THREE]),
        ..ONE
    },
    Play {
        over: Over::FailAt(3),
        scene: Acts(&[THREE, ROUND, BYTES, ALL_THREE]),
        ..ONE
    },
    Play {
        over: Over::FailAt(1),
        scene: Acts(&[HOT_THREE, STOPPED_HOT_ROUND, HOT_BYTES, ALL_HOT_THREE]),
        ..ONE
    },
    Play {
        over: Over::FailAt(2),
        scene: Acts(&[HOT_THREE, HOT_ROUND, LATER_HOT_BYTES, ALL_HOT_THREE]),
        ..ONE
    },
    Play {
        over: Over::FailAt(3),
        scene: Acts(&[HOT_THREE, HOT_ROUND, HOT_BYTES, ALL_HOT_THREE]),
        ..ONE
    },
];

#[test]
fn fail_each_without_copiers(rt: HostRuntime) {
    holds(&rt, rt.alloc(), WITHOUT_COPIERS);
}

// The second object was to go far, which is refused, once the copy of the first was offered.
const STOPPED: &[Act] = &[Deals(16, Err(Refused::Device)), In(Phase::Evacuating)];

// The round is given up, and nothing is offered any more.
const GIVEN_UP: &[Act] = &[GivesUp(Ok(())), In(Phase::Idle), Works(0, Nowhere)];

// The copier has claimed it before, and finishes it after.
const CLAIMED: &[Act] = &[Works(0, Claimed)];

const FINISHED: &[Act] = &[
    GivesUp(Ok(())),
    In(Phase::Idle),
    Works(0, Copied),
    Works(0, Finished),
    Works(0, Nowhere),
];

// The round goes on where it stopped, and ends.
const COPIED: &[Act] = &[
    Works(0, Copied),
    Works(0, Finished),
    Deals(16, Ok([1, 0, 0, 1])),
    In(Phase::Idle),
];

// A device's first call, or its second, fails where the copy of an object is offered and another one goes far; or none does.
const WITH_A_COPIER: &[Play] = &[
    Play {
        copiers: Some(1),
        over: Over::FailAt(1),
        scene: Acts(&[THREE, LEAVING, STOPPED, GIVEN_UP, BYTES, ALL_THREE]),
        ..ONE
    },
    Play {
        copiers: Some(1),
        over: Over::FailAt(1),
        scene: Acts(&[THREE, LEAVING, STOPPED, CLAIMED, FINISHED, BYTES, ALL_THREE]),
        ..ONE
    },
    Play {
        copiers: Some(1),
        over: Over::FailAt(1),
        scene: Acts(&[
            THREE, LEAVING, STOPPED, OFFERED, CLAIMED, COPIED, BYTES, ALL_THREE,
        ]),
        ..ONE
    },
    Play {
        copiers: Some(1),
        over: Over::FailAt(2),
        scene: Acts(&[
            THREE,
            LEAVING,
            OFFERED,
            CLAIMED,
            COPIED,
            LATER_BYTES,
            ALL_THREE,
        ]),
        ..ONE
    },
    Play {
        copiers: Some(1),
        over: Over::FailAt(3),
        scene: Acts(&[THREE, LEAVING, OFFERED, CLAIMED, COPIED, BYTES, ALL_THREE]),
        ..ONE
    },
];

#[test]
fn fail_each_on_heap(rt: HostRuntime) {
    holds(&rt, rt.alloc(), WITH_A_COPIER);
}

// No copy of a hot object can be offered, since there is no room.
const NOTHING_OFFERED: &[Act] = &[Works(0, Nowhere)];

// The same where a hot object goes far.
const WITHOUT_ROOM: &[Play] = &[
    Play {
        copiers: Some(1),
        over: Over::FailAt(1),
        scene: Acts(&[
            HOT_THREE,
            NOTHING_OFFERED,
            STOPPED_HOT_ROUND,
            NOTHING_OFFERED,
            HOT_BYTES,
            ALL_HOT_THREE,
        ]),
        ..ONE
    },
    Play {
        copiers: Some(1),
        over: Over::FailAt(2),
        scene: Acts(&[
            HOT_THREE,
            HOT_ROUND,
            NOTHING_OFFERED,
            LATER_HOT_BYTES,
            ALL_HOT_THREE,
        ]),
        ..ONE
    },
    Play {
        copiers: Some(1),
        over: Over::FailAt(3),
        scene: Acts(&[
            HOT_THREE,
            HOT_ROUND,
            NOTHING_OFFERED,
            HOT_BYTES,
            ALL_HOT_THREE,
        ]),
        ..ONE
    },
];

#[test]
fn fail_each_without_room(rt: HostRuntime) {
    holds(&rt, rt.alloc(), WITHOUT_ROOM);
}
