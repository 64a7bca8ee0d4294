//! Storage in memory.

ghost use Rattle.std.specs.Prelude.{◌≡◌, ◌+◌, ◌<◌, ◌≤◌, ℕ, max, true, length, slice_index, IsFalse, IsTrue, OnOk};
ghost use Rattle.std.specs.Vec.{vec_capacity, vec_len};
ghost use Rattle.far_file.specs.Mem.{PutIsRefusedSo, PutIsThere};

use crate::fault::StorageFault;
use crate::storage::Storage;
use std::alloc::Global;

/// Storage in memory. It is honest. It has bytes up to the highest position at which a `put` ended; those of them that were never put are zeros.
#[derive(Debug, Drop)]
pub struct MemStorage {
    pub(crate) bytes: Vec<u8>,
}

impl MemStorage {
    /// Storage without a byte. What it holds later is of this allocator.
    pub fn new(alloc: Global) -> MemStorage
        ensures { vec_len result.bytes ≡ 0 }
    {
        MemStorage {
            bytes: Vec::new(alloc),
        }
    }
}

impl Storage for MemStorage {
    ghost use Rattle.far_file.specs.Mem.{MemGets, MemPuts};

    ghost seen = { λ m. slice_index m.bytes.items };

    ghost honest = { λ _. true };

    ghost puts = { MemPuts };

    ghost gets = { MemGets };

    /// Refused [`StorageFault::Full`] exactly if the position behind the last byte is 2^64 or more, else [`StorageFault::Memory`], only if there was no room up to
    /// there. Then all is as it was.
    fn put(&mut self, at: u64, bytes: &[u8]) -> Result<(), StorageFault> {
        let start = at as usize;
        let Some(end) = start.checked_add(bytes.len()) else {
            return Err(StorageFault::Full);
        };
        if !lengthen(&mut self.bytes, end) {
            return Err(StorageFault::Memory);
        }
        self.bytes[start..end].copy_from_slice(bytes);
        Ok(())
    }

    /// Refused [`StorageFault::Short`] exactly if it has too few bytes.
    fn get(&self, at: u64, buffer: &mut [u8]) -> Result<(), StorageFault> {
        let start = at as usize;
        let end = start.saturating_add(buffer.len());
        if end > self.bytes.len() {
            return Err(StorageFault::Short);
        }
        buffer.copy_from_slice(&self.bytes[start..end]);
        Ok(())
    }
}

/// What is put is there: a `get` of as many bytes from the same position gives those, and no fault.
pub fn what_is_put_is_there()
    ensures { PutIsThere }
{}

/// A `put` is refused [`StorageFault::Full`] where the position behind its bytes is 2^64 or more, and [`StorageFault::Memory`] where it is less.
pub fn puts_are_refused_so()
    ensures { PutIsRefusedSo }
{}

// Makes bytes reach a position, by zeros. After `false`, where memory was refused, they are as before.
fn lengthen(bytes: &mut Vec<u8>, end: usize) -> bool
    ensures long { IsTrue result → vec_len bytes.new ≡ max (vec_len bytes.old) end }
    ensures same { (k : ℕ) → slice_index bytes.new.items k ≡ slice_index bytes.old.items k }
    ensures refused { IsFalse result → (vec_capacity bytes.old < end) × (bytes.new.items ≡ bytes.old.items) }
{
    if end <= bytes.len() {
        return true;
    }
    bytes.resize(end, 0).is_ok()
}
