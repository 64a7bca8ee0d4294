//! How long the threads go on.

use std::sync::atomic::{AtomicU64, Ordering};
use std::thread;

/// How often a mutator without room looks whether a round has ended.
const PATIENCE: u64 = 1_000;

/// How often a copier that stops in the midst of a copy does so.
const STOP: u64 = 200;

/// Whether all mutators have ended, and whether anything was found wrong: then all threads end. Copiers end last.
#[derive(Drop)]
pub struct Gate {
    entered: AtomicU64,
    ended: AtomicU64,
    closed: AtomicU64,
    wrong: AtomicU64,
    rounds: AtomicU64,
}

impl Gate {
    /// Before the first mutator.
    pub fn new() -> Gate {
        Gate {
            entered: AtomicU64::new(0),
            ended: AtomicU64::new(0),
            closed: AtomicU64::new(0),
            wrong: AtomicU64::new(0),
            rounds: AtomicU64::new(0),
        }
    }

    /// A mutator or a copier begins: how many did before.
    pub fn enter(&self) -> u64 {
        self.entered.fetch_add(1, Ordering::SeqCst)
    }

    /// All mutators have ended.
    pub fn end(&self) {
        self.ended.store(1, Ordering::SeqCst);
    }

    /// All objects were read again.
    pub fn close(&self) {
        self.closed.store(1, Ordering::SeqCst);
    }

    /// Whether copiers go on.
    pub fn is_open(&self) -> bool {
        self.closed.load(Ordering::SeqCst) == 0
    }

    /// A round has ended.
    pub fn end_round(&self) {
        self.rounds.fetch_add(1, Ordering::SeqCst);
    }

    /// Lets other threads run until a round has ended, or for a while.
    pub fn wait_for_round(&self) {
        self.wait(PATIENCE);
    }

    /// The same for a shorter while.
    pub fn stop(&self) {
        self.wait(STOP);
    }

    fn wait(&self, times: u64) {
        let before = self.rounds.load(Ordering::SeqCst);
        for _ in 0..times {
            if self.rounds.load(Ordering::SeqCst) != before {
                return;
            }
            thread::yield_now();
        }
    }

    /// Whether a thread that found so much wrong goes on: none does once one found anything.
    pub fn goes_on(&self, wrong: u64) -> bool {
        if wrong != 0 {
            self.wrong.store(1, Ordering::SeqCst);
        }
        self.wrong.load(Ordering::SeqCst) == 0
    }

    /// Whether rounds go on, beside mutators.
    pub fn has_mutators(&self) -> bool {
        self.goes_on(0) && self.ended.load(Ordering::SeqCst) == 0
    }

    /// Leaves the heap's lock to others for a while, and the processor, if they have none.
    pub fn pause(&self) {
        for _ in 0..64u8 {
            if !self.has_mutators() {
                return;
            }
        }
        thread::yield_now();
    }
}
