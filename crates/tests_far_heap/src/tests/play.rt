//! A play: over which device a heap is begun, with how many mutators and copiers, and what is done with it.

ghost use Rattle.std.specs.Prelude.{◌≡◌};
ghost use Rattle.far_heap.specs.HeapId.{with_copiers};

use crate::tests::acts::Act;
use crate::tests::beside::Plan;
use crate::tests::between::Made;
use crate::tests::copy_hands::hands_of;
use crate::tests::copy_threads::Copied;
use crate::tests::devices::{Fault, Faulty};
use crate::tests::eight::Filled;
use crate::tests::stage::{Signals, Stage};
use crate::tests::threads::{Duet, moves};
use crate::tests::values::has_values;
use crate::tests::{beside, between, copy_threads, eight, threads};
use far_core::Shape;
use far_device::{Device, FailAt, Liar, MemDevice};
use far_heap::{Blank, Copier, Heap, HeapName, Mutator};
use far_word::Refused;
use std::alloc::Global;
use std::marker::Brand;
use std::process::Abort;
use std::sync::Wait;
use std::thread::Threads;

/// What is done with a new heap.
#[derive(Clone, Copy)]
pub(super) enum Scene {
    /// Each act, part by part, with the first mutator at hand.
    Acts(&'static [&'static [Act]]),
    /// It is looked at alone: it has so many mutators and copiers.
    Begins(usize, usize),
    /// No heap should be begun.
    Never,
    /// An open scope goes to another thread, and its mutator comes back.
    Moves,
    /// Integers and records are written and read in scopes that are lent.
    Values,
    /// Two threads play.
    Duet(&'static Duet),
    /// Another thread keeps taking the lock.
    Between(Made),
    /// Rounds are made beside copiers, each in a thread of its own.
    Copied(&'static Copied),
    /// Rounds are made beside mutators, each in a thread of its own.
    Beside(&'static Plan),
    /// Eight mutators work, each in a thread of its own.
    Filled(&'static Filled),
}

/// The device of a heap.
#[derive(Clone, Copy)]
pub(super) enum Over {
    Memory,
    /// The call of this number fails.
    FailAt(u64),
    /// The first read gives inverted bytes.
    Flip,
    /// The first read gives one byte less.
    Short,
    /// The call after so many, a write or a read, has this fault.
    Faulty(u64, Fault),
}

/// A heap of so many logs and mutators, from this epoch on, over a device, with copiers if any are said, and what is done with it.
#[derive(Clone, Copy)]
pub(super) struct Play {
    pub logs: u64,
    pub mutators: u64,
    pub epoch: u64,
    pub copiers: Option<u8>,
    pub over: Over,
    pub scene: Scene,
    /// Why no heap may be begun in place of that.
    pub refused: Option<Refused>,
}

/// One of four logs and one mutator, from the first epoch on, over a device in memory, without copiers.
pub(super) const ONE: Play = Play {
    logs: 4,
    mutators: 1,
    epoch: 0,
    copiers: None,
    over: Over::Memory,
    scene: Scene::Never,
    refused: None,
};

// Whether what is done with this heap comes out as it should.
fn shows<
    K: HeapName + Send + Sync + 'static,
    D: Device + Drop + Send + Sync + 'static,
    R: Threads + Wait + Sync,
>(rt: &R, stage: &mut Stage<'_, K, D>, scene: Scene) -> bool {
    match scene {
        Scene::Acts(parts) => stage.plays(rt, parts),
        Scene::Begins(mutators, copiers) => stage.has(mutators, copiers),
        Scene::Never => false,
        Scene::Moves => moves(rt, stage),
        Scene::Values => has_values(rt, stage),
        Scene::Duet(duet) => threads::plays(rt, stage, duet),
        Scene::Between(made) => between::plays(rt, stage, made),
        Scene::Copied(plan) => copy_threads::plays(rt, stage, plan),
        Scene::Beside(plan) => beside::plays(rt, stage, plan),
        Scene::Filled(plan) => eight::plays(rt, stage, plan),
    }
}

// The same of a heap that was begun with these.
fn begun<
    K: HeapName + Send + Sync + 'static,
    D: Device + Drop + Send + Sync + 'static,
    R: Threads + Wait + Sync,
>(
    (rt, alloc): (&R, Global),
    heap: &Heap<K, D>,
    mutators: Vec<Mutator<K, D>>,
    copiers: Vec<Copier<K, D>>,
    play: &Play,
) -> bool {
    match hands_of(alloc, copiers) {
        Ok(copiers) => {
            let signals = Signals::new();
            let mut stage = Stage::new((heap, &signals), alloc, mutators, copiers);
            shows(rt, &mut stage, play.scene)
        }
        Err(_) => play.refused == Some(Refused::Memory),
    }
}

fn begin<
    K: HeapName + Send + Sync + 'static,
    D: Device + Drop + Send + Sync + 'static,
    R: Threads + Wait + Sync,
>(rt: &R, alloc: Global, blank: Blank<D>, play: &Play) -> bool
    requires { blank.heap ≡ K.heap }
{
    match Heap::<K, D>::new(alloc, blank) {
        Ok((heap, mutators)) => begun((rt, alloc), &heap, mutators, Vec::new(alloc), play),
        Err(why) => play.refused == Some(why),
    }
}

fn begin_with_copiers<
    K: HeapName + Send + Sync + 'static,
    D: Device + Drop + Send + Sync + 'static,
    R: Threads + Wait + Sync,
>(rt: &R, alloc: Global, blank: Blank<D>, copiers: u8, play: &Play) -> bool
    requires { with_copiers blank.heap ≡ K.heap }
{
    match Heap::<K, D>::with_copiers(alloc, blank, copiers) {
        Ok((heap, mutators, copiers)) => begun((rt, alloc), &heap, mutators, copiers, play),
        Err(why) => play.refused == Some(why),
    }
}

// Whether what a play does comes out as it should over these parts of a heap.
fn over_parts<D: Device + Drop + Send + Sync + 'static, R: Threads + Wait + Sync>(
    rt: &R,
    alloc: Global,
    blank: Blank<D>,
    play: &Play,
) -> bool {
    match play.copiers {
        Some(copiers) => { begin_with_copiers::<Brand, D, R>(rt, alloc, blank, copiers, play) }
        None => begin::<Brand, D, R>(rt, alloc, blank, play),
    }
}

// The same over this device.
fn over_device<D: Device + Drop + Send + Sync + 'static, R: Threads + Wait + Sync>(
    rt: &R,
    alloc: Global,
    device: D,
    play: &Play,
) -> bool {
    let shape = Shape {
        logs: play.logs,
        mutators: play.mutators,
        epoch: play.epoch,
    };
    match Blank::new(alloc, shape, device) {
        Ok(blank) => over_parts(rt, alloc, blank, play),
        Err(why) => play.refused == Some(why),
    }
}

// Whether what a play does comes out as it should.
fn comes_out<R: Threads + Wait + Sync>(rt: &R, alloc: Global, play: &Play) -> bool {
    let device = MemDevice::new(alloc);
    match play.over {
        Over::Memory => over_device(rt, alloc, device, play),
        Over::FailAt(k) => over_device(rt, alloc, FailAt::new(device, k), play),
        Over::Flip => over_device(rt, alloc, Liar::flip(device, 1), play),
        Over::Short => over_device(rt, alloc, Liar::short(device, 1), play),
        Over::Faulty(before, fault) => over_device(
            rt,
            alloc,
            Faulty::new(device, before, fault),
            play,
        ),
    }
}

// The same of each play.
fn come_out<R: Threads + Wait + Sync>(rt: &R, alloc: Global, plays: &[Play]) -> bool {
    for play in plays {
        if !comes_out(rt, alloc, play) {
            return false;
        }
    }
    true
}

/// Asserts that what each of these plays does comes out as it should. A test that only calls this costs its proof two thirds of what it would with an
/// assertion of its own.
pub(super) fn holds<R: Abort + Threads + Wait + Sync>(rt: &R, alloc: Global, plays: &[Play]) {
    assert!(rt; come_out(rt, alloc, plays));
}
