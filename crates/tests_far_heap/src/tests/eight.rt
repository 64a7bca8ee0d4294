//! Eight mutators, in the smallest heap and in the largest.

use crate::tests::acts::Act::*;
use crate::tests::acts::Choice::Eldest;
use crate::tests::acts::{Act, End};
use crate::tests::hands::Hand;
use crate::tests::play::{ONE, Play, Scene, holds};
use crate::tests::stage::Stage;
use far_device::Device;
use far_evac::LogKind;
use far_heap::{HeapName, Mutator};
use far_word::Refused;
use std::alloc::Global;
use std::sync::Wait;
use std::thread::Threads;
use std::{mem, thread};

/// A mutator, with its number; and whether all came out as it should.
#[derive(Drop)]
struct Numbered<K: HeapName, D: Device + Drop> {
    number: u16,
    hand: Hand<K, D>,
    well: bool,
}

/// What each mutator does in a thread of its own: in a scope, with each of so many objects, which have their pointers in their bytes.
#[derive(Clone, Copy)]
enum Work {
    /// An object of this length is made, has its pointer, and is written.
    Fill(u16),
    /// An object has what was written, wherever it is.
    Read,
    /// A new object is refused for this reason.
    Refuse(Refused),
}

/// What all do: each fills its objects, the book comes out like this, each reads its objects, and is refused another.
#[derive(Clone, Copy)]
pub(super) struct Filled {
    objects: u16,
    len: u16,
    book: &'static [Act],
    why: Refused,
}

// Each with its number; fewer where memory was refused.
fn with_numbers<K: HeapName, D: Device + Drop>(
    alloc: Global,
    mutators: Vec<Mutator<K, D>>,
) -> Vec<Numbered<K, D>> {
    let mut all = Vec::new(alloc);
    let mut number = 0u16;
    for mutator in mutators {
        let (hand, well) = (Hand::Closed(mutator), true);
        if all.push(Numbered { number, hand, well }).is_err() {
            break;
        }
        number = number.saturating_add(1);
    }
    all
}

// Whether an act comes out as it should.
fn does<K: HeapName, D: Device + Drop, R: Wait>(rt: &R, hand: &mut Hand<K, D>, act: Act) -> bool {
    hand.does(rt, None, act) == Some(true)
}

// Whether the work on one object comes out as it should.
fn does_one<K: HeapName, D: Device + Drop, R: Wait>(
    rt: &R,
    hand: &mut Hand<K, D>,
    pointer: u16,
    work: Work,
) -> bool {
    let bytes = (pointer as u64).to_le_bytes();
    match work {
        Work::Fill(len) => {
            does(rt, hand, Makes(len, Ok(pointer))) && does(rt, hand, Writes(pointer, bytes))
        }
        Work::Read => does(rt, hand, Brings(pointer, bytes)),
        Work::Refuse(why) => does(rt, hand, Makes(8, Err(why))),
    }
}

// The same of so many objects of a mutator, by number.
fn does_each<K: HeapName, D: Device + Drop, R: Wait>(
    rt: &R,
    hand: &mut Hand<K, D>,
    (number, objects): (u16, u16),
    work: Work,
) -> bool {
    for cell in 0..objects {
        let pointer = number.saturating_mul(256).saturating_add(cell);
        if !does_one(rt, hand, pointer, work) {
            return false;
        }
    }
    true
}

// The same in a scope of its own.
fn worked<K: HeapName, D: Device + Drop, R: Wait>(
    rt: &R,
    one: Numbered<K, D>,
    objects: u16,
    work: Work,
) -> Numbered<K, D> {
    let Numbered {
        number,
        mut hand,
        well,
    } = one;
    let came = does(rt, &mut hand, Opens)
        && does_each(rt, &mut hand, (number, objects), work)
        && does(rt, &mut hand, Closes);
    let well = well && came;
    Numbered { number, hand, well }
}

// The same of all, each in a thread of its own; none where memory was refused.
fn all_worked<K: HeapName + Send + Sync, D: Device + Drop + Send + Sync, R: Threads + Wait + Sync>(
    (rt, alloc): (&R, Global),
    all: Vec<Numbered<K, D>>,
    objects: u16,
    work: Work,
) -> Vec<Numbered<K, D>> {
    match thread::map_vec(rt, all, &|one| worked(rt, one, objects, work)) {
        Ok(all) => all,
        Err(_) => Vec::new(alloc),
    }
}

// Whether there are eight, and all came out as it should.
fn are_well<K: HeapName, D: Device + Drop>(all: &[Numbered<K, D>]) -> bool {
    for one in all {
        if !one.well {
            return false;
        }
    }
    all.len() == 8
}

/// Whether a plan comes out as it should.
pub(super) fn plays<
    K: HeapName + Send + Sync,
    D: Device + Drop + Send + Sync,
    R: Threads + Wait + Sync,
>(rt: &R, stage: &mut Stage<'_, K, D>, plan: &Filled) -> bool {
    let by = (rt, stage.alloc);
    let mutators = mem::replace(&mut stage.mutators, Vec::new(stage.alloc));
    let all = with_numbers(stage.alloc, mutators);
    let all = all_worked(by, all, plan.objects, Work::Fill(plan.len));
    let came = stage.does_all(rt, plan.book);
    let all = all_worked(by, all, plan.objects, Work::Read);
    let all = all_worked(by, all, 1, Work::Refuse(plan.why));
    came && are_well(&all)
}

// Eight objects fill the one log of two that isn't kept back, and no round begins.
const TWO_LOGS: Filled = Filled {
    objects: 1,
    len: 504,
    book: &[
        Log(0, LogKind::Open, [4096, 0, 0]),
        Log(1, LogKind::Free, [0, 0, 4096]),
        Counts(8, 0, 4096),
        Runs(Eldest, 2, 9, End::Nothing),
    ],
    why: Refused::NoRoom,
};

const IN_TWO_LOGS: &[Play] = &[Play {
    logs: 2,
    mutators: 8,
    scene: Scene::Filled(&TWO_LOGS),
    ..ONE
}];

#[test]
fn eight_mutators_in_two_logs(rt: HostRuntime) {
    holds(&rt, rt.alloc(), IN_TWO_LOGS);
}

// All pointers are used; a round of all sealed logs moves or sends far all but the 32 objects of the open log; the next sends objects far,
// since nobody has viewed them meanwhile, and all are there; each mutator has its objects brought back.
const MOST_LOGS: Filled = Filled {
    objects: 256,
    len: 104,
    book: &[
        Counts(2048, 0, 229_376),
        Runs(Eldest, 64, 1000, End::Emptied(2016, 56)),
        Runs(Eldest, 64, 1000, End::FarAbove(1800)),
        Has(2048),
    ],
    why: Refused::NoPointer,
};

const IN_MOST_LOGS: &[Play] = &[Play {
    logs: 64,
    mutators: 8,
    scene: Scene::Filled(&MOST_LOGS),
    ..ONE
}];

#[test]
fn eight_mutators_in_most_logs(rt: HostRuntime) {
    holds(&rt, rt.alloc(), IN_MOST_LOGS);
}
