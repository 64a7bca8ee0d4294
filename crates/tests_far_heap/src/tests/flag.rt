//! What threads tell each other.

use std::sync::atomic::{AtomicU64, Ordering};
use std::thread;

/// How many turns a thread waits at most.
const PATIENCE: u64 = 1_000_000_000;

/// Counts up, in one thread or in many, and others wait for it.
#[derive(Drop)]
pub(super) struct Tally {
    count: AtomicU64,
}

impl Tally {
    pub(super) fn new() -> Tally {
        Tally {
            count: AtomicU64::new(0),
        }
    }

    /// Counts one more.
    pub(super) fn raise(&self) {
        self.count.fetch_add(1, Ordering::SeqCst);
    }

    pub(super) fn count(&self) -> u64 {
        self.count.load(Ordering::SeqCst)
    }

    /// Waits until so many are counted; `false` where that didn't come.
    pub(super) fn wait_for(&self, count: u64) -> bool {
        for _ in 0..PATIENCE {
            if self.count() >= count {
                return true;
            }
            thread::yield_now();
        }
        false
    }
}
