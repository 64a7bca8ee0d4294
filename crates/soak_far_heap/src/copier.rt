//! A copier at work.

use crate::Asked;
use crate::counts::{Count, Counts};
use crate::gate::Gate;
use crate::random::Random;
use far_device::Device;
use far_heap::{Copier, Copying, HeapName};
use std::thread;

// Copies so many words, if there are as many, and stops for a while: it has the job until then.
fn stop<K: HeapName, D: Device + Drop>(gate: &Gate, copying: &mut Copying<K, D>, words: u64) {
    for _ in 0..words {
        copying.copy_word();
    }
    gate.stop();
}

// Makes a copy; now and then it stops in the midst of that.
fn make<K: HeapName, D: Device + Drop>(
    gate: &Gate,
    mut copying: Copying<K, D>,
    random: &mut Random,
    counts: &mut Counts,
) -> Copier<K, D> {
    if random.once_in(32) {
        stop(gate, &mut copying, random.below(4));
        counts.one(Count::Stops);
    }
    counts.one(Count::Copies);
    copying.finish()
}

/// Makes copies until all objects were read again.
pub fn copy<K: HeapName, D: Device + Drop>(
    gate: &Gate,
    asked: Asked,
    mut copier: Copier<K, D>,
) -> Counts {
    let mut counts = Counts::new(asked.fails());
    let mut random = Random::new(asked.seed_of(gate.enter()));
    for _ in 0..u64::MAX {
        if !gate.is_open() {
            break;
        }
        copier = match copier.claim() {
            Ok(copying) => make(gate, copying, &mut random, &mut counts),
            Err(copier) => {
                thread::yield_now();
                copier
            }
        };
    }
    counts
}
