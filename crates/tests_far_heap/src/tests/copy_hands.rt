//! A copier, and the job that it has.

use crate::tests::acts::Went;
use crate::tests::flag::Tally;
use far_device::Device;
use far_heap::{Copier, Copying, HeapName};
use std::alloc::{AllocError, Global};
use std::{mem, thread};

/// How many turns a copier's thread takes at most.
const PATIENCE: u64 = 1_000_000_000;

/// A copier without a job, or with one.
#[derive(Drop)]
pub(super) enum CopyHand<K: HeapName, D: Device + Drop> {
    Free(Copier<K, D>),
    Busy(Copying<K, D>),
    Gone,
}

impl<K: HeapName, D: Device + Drop> CopyHand<K, D> {
    // Claims a job; whether there was one.
    fn claims(&mut self, copier: Copier<K, D>) -> Went {
        match copier.claim() {
            Ok(copying) => {
                *self = CopyHand::Busy(copying);
                Went::Claimed
            }
            Err(copier) => {
                *self = CopyHand::Free(copier);
                Went::Nowhere
            }
        }
    }

    // Copies a word of the job, or finishes it if none is left.
    fn copies(&mut self, mut copying: Copying<K, D>) -> Went {
        if copying.copy_word() {
            *self = CopyHand::Busy(copying);
            return Went::Copied;
        }
        *self = CopyHand::Free(copying.finish());
        Went::Finished
    }

    /// Goes on by one call: claims a job if there is none at hand; else copies the next word of that, or finishes the job if none is left.
    pub(super) fn goes_on(&mut self) -> Went {
        match mem::replace(self, CopyHand::Gone) {
            CopyHand::Free(copier) => self.claims(copier),
            CopyHand::Busy(copying) => self.copies(copying),
            CopyHand::Gone => Went::Lost,
        }
    }

    /// Finishes the job at hand, whatever is left of it; whether there was one.
    pub(super) fn ends(&mut self) -> bool {
        match mem::replace(self, CopyHand::Gone) {
            CopyHand::Busy(copying) => {
                *self = CopyHand::Free(copying.finish());
                true
            }
            free => {
                *self = free;
                false
            }
        }
    }

    /// Drops the copier, which finishes the job at hand; whether it was there.
    pub(super) fn quits(&mut self) -> bool {
        !matches!(mem::replace(self, CopyHand::Gone), CopyHand::Gone)
    }

    /// Keeps the copier from being dropped, so that the job at hand is never finished; whether it was there.
    pub(super) fn is_lost(&mut self) -> bool {
        let hand = mem::replace(self, CopyHand::Gone);
        let was_there = !matches!(hand, CopyHand::Gone);
        mem::forget(hand);
        was_there
    }

    /// Goes on, as a copier does in a thread of its own, until all is over, and finishes the job at hand then; `false` where that end didn't come.
    pub(super) fn keeps_on(mut self, over: &Tally) -> bool {
        for _ in 0..PATIENCE {
            if over.count() > 0 {
                self.ends();
                return true;
            }
            if self.goes_on() == Went::Nowhere {
                thread::yield_now();
            }
        }
        false
    }
}

/// Copiers as they are at the start, by number.
pub(super) fn hands_of<K: HeapName, D: Device + Drop>(
    alloc: Global,
    copiers: Vec<Copier<K, D>>,
) -> Result<Vec<CopyHand<K, D>>, AllocError> {
    let mut hands = Vec::new(alloc);
    for copier in copiers {
        hands.push(CopyHand::Free(copier))?;
    }
    Ok(hands)
}
