//! Copiers, each in a thread of its own, beside rounds.

use crate::tests::acts::Act::*;
use crate::tests::acts::Choice::Eldest;
use crate::tests::acts::{Act, EIGHT, End, ZEROS};
use crate::tests::copy_hands::CopyHand;
use crate::tests::copying::THREE;
use crate::tests::flag::Tally;
use crate::tests::play::{ONE, Play, Scene, holds};
use crate::tests::stage::Stage;
use far_device::Device;
use far_evac::Phase;
use far_heap::HeapName;
use std::sync::Wait;
use std::thread::{Threads, join};
use std::{mem, thread};

/// What is done beside copiers, and what is done before, and again and again first.
#[derive(Clone, Copy)]
pub(super) struct Copied {
    before: &'static [Act],
    /// So often.
    times: u64,
    again: &'static [Act],
    acts: &'static [Act],
}

// Whether each came to the end.
fn are_all(ends: &[bool]) -> bool {
    for end in ends {
        if !*end {
            return false;
        }
    }
    true
}

// Whether all copiers, each in a thread of its own, came to the end.
fn all_keep_on<K: HeapName + Send + Sync, D: Device + Drop + Send + Sync, R: Threads + Wait + Sync>(
    rt: &R,
    copiers: Vec<CopyHand<K, D>>,
    over: &Tally,
) -> bool {
    match thread::map_vec(rt, copiers, &|copier| copier.keeps_on(over)) {
        Ok(ends) => are_all(&ends),
        Err(_) => false,
    }
}

// Whether acts come out as they should so many times.
fn does_again<K: HeapName, D: Device + Drop, R: Wait>(
    rt: &R,
    stage: &mut Stage<'_, K, D>,
    times: u64,
    acts: &[Act],
) -> bool {
    for _ in 0..times {
        if !stage.does_all(rt, acts) {
            return false;
        }
    }
    true
}

// What is done beside the copiers, which are told then that all is over.
fn plays_beside<K: HeapName, D: Device + Drop, R: Wait>(
    rt: &R,
    stage: &mut Stage<'_, K, D>,
    over: &Tally,
    plan: &Copied,
) -> bool {
    let came = stage.does_all(rt, plan.before)
        && does_again(rt, stage, plan.times, plan.again)
        && stage.does_all(rt, plan.acts);
    over.raise();
    came
}

/// Whether all comes out as it should.
pub(super) fn plays<
    K: HeapName + Send + Sync,
    D: Device + Drop + Send + Sync,
    R: Threads + Wait + Sync,
>(rt: &R, stage: &mut Stage<'_, K, D>, plan: &Copied) -> bool {
    stage.sets_out();
    let copiers = mem::replace(&mut stage.copiers, Vec::new(stage.alloc));
    let over = &Tally::new();
    let (copied, came) = join(
        rt,
        move || all_keep_on(rt, copiers, over),
        move || plays_beside(rt, stage, over, plan),
    );
    copied && came
}

// A round moves the first object by a copier, and sends the second far.
const COPIED: &[Act] = &[
    Runs(Eldest, 1, 1_000_000, End::Done([1, 1, 0, 1])),
    Near(0, (2, 0), false),
    Far(1, false),
    Free(0),
    Counts(2, 1, 4112),
    Opens,
    Brings(0, EIGHT),
    Brings(1, ZEROS),
    Brings(2, ZEROS),
];

const ALONE: Copied = Copied {
    before: THREE,
    times: 0,
    again: &[],
    acts: COPIED,
};

const COPIER_THREADS: &[Play] = &[Play {
    copiers: Some(1),
    scene: Scene::Copied(&ALONE),
    ..ONE
}];

#[test]
fn copier_thread(rt: HostRuntime) {
    holds(&rt, rt.alloc(), COPIER_THREADS);
}

// A round is given up as soon as the copy of its object is offered, which a copier may have claimed by then, or claims meanwhile.
const GIVEN_UP: &[Act] = &[
    Runs(Eldest, 1, 3, End::Limit(Phase::Evacuating)),
    GivesUp(Ok(())),
    In(Phase::Idle),
    Near(0, (0, 0), true),
];

const TWO: &[Act] = &[
    Makes(8, Ok(0)),
    Makes(4088, Ok(1)),
    Opens,
    Writes(0, EIGHT),
    Closes,
];

// The next round is done.
const DONE: &[Act] = &[
    Runs(Eldest, 1, 1_000_000, End::Done([1, 0, 0, 1])),
    Free(0),
    Counts(2, 0, 4112),
    Opens,
    Brings(0, EIGHT),
    Brings(1, ZEROS),
];

const LOST: Copied = Copied {
    before: TWO,
    times: 400,
    again: GIVEN_UP,
    acts: DONE,
};

const LOST_EXCHANGES: &[Play] = &[Play {
    logs: 16,
    copiers: Some(4),
    scene: Scene::Copied(&LOST),
    ..ONE
}];

#[test]
fn an_exchange_may_be_lost(rt: HostRuntime) {
    holds(&rt, rt.alloc(), LOST_EXCHANGES);
}

// So many objects fill six logs and a part of the next, and all are written.
const NINETY_SIX: &[Act] = &[Fills(96, 280), Opens, Numbers(96), Closes];

// A round of all sealed logs moves what lies there, since all of it was viewed; and all is viewed again.
const ALL_MOVED: &[Act] = &[
    Runs(Eldest, 64, 1_000_000, End::Emptied(84, 6)),
    Opens,
    HasNumbers(96),
    Closes,
];

const ALL_THERE: &[Act] = &[Has(96)];

const EIGHT_COPIERS: Copied = Copied {
    before: NINETY_SIX,
    times: 40,
    again: ALL_MOVED,
    acts: ALL_THERE,
};

const EIGHT_COPIERS_PLAYED: &[Play] = &[Play {
    logs: 32,
    copiers: Some(8),
    scene: Scene::Copied(&EIGHT_COPIERS),
    ..ONE
}];

#[test]
fn eight_copiers_in_threads(rt: HostRuntime) {
    holds(&rt, rt.alloc(), EIGHT_COPIERS_PLAYED);
}
