//! Storage of the tests' own: one call of it fails, or each read gives another byte.

ghost use Rattle.std.specs.Prelude.{◌≡◌, true, false, OnOk};

use far_file::{Storage, StorageFault};
use std::cell::Cell;

/// Storage of which the k-th call fails, counted from 1, and the inner storage isn't asked.
#[derive(Drop)]
pub(crate) struct Breaking<F: Storage + Drop> {
    inner: F,
    left: Cell<u64>,
    why: StorageFault,
}

impl<F: Storage + Drop> Breaking<F> {
    pub(crate) fn new(inner: F, k: u64, why: StorageFault) -> Breaking<F> {
        Breaking {
            inner,
            left: Cell::new(k),
            why,
        }
    }

    fn breaks(&self) -> bool {
        let left = self.left.get();
        self.left.set(left.saturating_sub(1));
        left == 1
    }
}

impl<F: Storage + Drop> Storage for Breaking<F> {
    ghost seen = { λ s. F.Storage.seen s.inner };

    ghost honest = { λ s. F.Storage.honest s.inner };

    ghost puts = { λ _ _ _ _ _. Unit {0} };

    ghost gets = { λ _ _ _ _. Unit {0} };

    fn put(&mut self, at: u64, bytes: &[u8]) -> Result<(), StorageFault> {
        if self.breaks() {
            return Err(self.why);
        }
        self.inner.put(at, bytes)
    }

    fn get(&self, at: u64, buffer: &mut [u8]) -> Result<(), StorageFault> {
        if self.breaks() {
            return Err(self.why);
        }
        self.inner.get(at, buffer)
    }
}

/// Storage that inverts a byte of each read, counted from 0.
#[derive(Drop)]
pub(crate) struct Crooked<F: Storage + Drop> {
    pub(crate) inner: F,
    pub(crate) at: usize,
}

impl<F: Storage + Drop> Storage for Crooked<F> {
    ghost seen = { λ s. F.Storage.seen s.inner };

    ghost honest = { λ _. false };

    ghost puts = { λ _ _ _ _ _. Unit {0} };

    ghost gets = { λ _ _ _ _. Unit {0} };

    fn put(&mut self, at: u64, bytes: &[u8]) -> Result<(), StorageFault> {
        self.inner.put(at, bytes)
    }

    fn get(&self, at: u64, buffer: &mut [u8]) -> Result<(), StorageFault> {
        let answer = self.inner.get(at, buffer);
        if let Some(byte) = buffer.get_mut(self.at) {
            *byte = !*byte;
        }
        answer
    }
}
