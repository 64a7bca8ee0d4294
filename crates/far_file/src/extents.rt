//! Extents of a file that several devices use.

use std::alloc::{AllocError, Global};
use std::sync::Arc;
use std::sync::atomic::{AtomicU64, Ordering};

/// Gives out extents of one file: each number once.
#[derive(Drop)]
pub(crate) struct Extents {
    next: Arc<AtomicU64, Global>,
}

impl Extents {
    /// From 1 on.
    pub(crate) fn new(alloc: Global) -> Result<Extents, AllocError> {
        match Arc::new(alloc, AtomicU64::new(1)) {
            Ok(next) => Ok(Extents { next }),
            Err(_) => Err(AllocError),
        }
    }

    /// Another that gives out those of the same file.
    pub(crate) fn try_clone(&self) -> Result<Extents, AllocError> {
        let next = Arc::try_clone(&self.next)?;
        Ok(Extents { next })
    }

    /// All that were given out are below this one.
    pub(crate) fn below(&self) -> u64 {
        self.next.load(Ordering::SeqCst)
    }

    /// The next one. Nothing is said of it: who asks compares it with those that it has.
    pub(crate) fn next(&self) -> u64 {
        self.next.fetch_add(1, Ordering::SeqCst)
    }
}
