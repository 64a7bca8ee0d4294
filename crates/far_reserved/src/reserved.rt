//! Storage of so many bytes.

ghost use Rattle.std.specs.Prelude.{◌≡◌, ◌≤◌, ℕ, max, true, length, slice_index, IfOk};
ghost use Rattle.std.specs.Vec.{vec_capacity, vec_len};

use far_file::{Storage, StorageFault};
use std::alloc::{AllocError, Global};

/// Storage in memory of so many bytes, all of which are taken by one call of the allocator when it is opened. It is honest. It has bytes up to the highest position at which a `put` ended; those
/// of them that were never put are zeros.
#[derive(Drop)]
pub struct Reserved {
    pub(crate) bytes: Vec<u8>,
    pub(crate) room: usize,
    ghost within: { vec_len bytes ≤ room },
    ghost taken: { room ≤ vec_capacity bytes },
}

impl Reserved {
    /// Storage without a byte that has room for so many.
    pub fn new(alloc: Global, room: usize) -> Result<Reserved, AllocError>
        ensures room { IfOk result (λ storage. storage.room ≡ room) }
        ensures empty { IfOk result (λ storage. vec_len storage.bytes ≡ 0) }
        ensures taken { IfOk result (λ storage. vec_capacity storage.bytes ≡ room) }
    {
        match Vec::with_capacity(alloc, room) {
            Ok(bytes) => Ok(Reserved { bytes, room }),
            Err(why) => Err(why),
        }
    }
}

impl Storage for Reserved {
    ghost use Rattle.far_reserved.specs.Reserved.{ReservedGets, ReservedPuts};

    ghost seen = { λ r. slice_index r.bytes.items };

    ghost honest = { λ _. true };

    ghost puts = { ReservedPuts };

    ghost gets = { ReservedGets };

    /// Refused [`StorageFault::Full`] exactly if the bytes pass the end of what is taken, and else not at all. Then all is as it was.
    fn put(&mut self, at: u64, bytes: &[u8]) -> Result<(), StorageFault> {
        let start = at as usize;
        let Some(end) = start.checked_add(bytes.len()) else {
            return Err(StorageFault::Full);
        };
        if end > self.room {
            return Err(StorageFault::Full);
        }
        lengthen(&mut self.bytes, end);
        self.bytes[start..end].copy_from_slice(bytes);
        Ok(())
    }

    /// Refused [`StorageFault::Short`] exactly if it has too few bytes.
    fn get(&self, at: u64, buffer: &mut [u8]) -> Result<(), StorageFault> {
        let start = at as usize;
        let end = start.saturating_add(buffer.len());
        if end > self.bytes.len() {
            return Err(StorageFault::Short);
        }
        buffer.copy_from_slice(&self.bytes[start..end]);
        Ok(())
    }
}

// Makes bytes reach a position, by zeros, for which there is room.
fn lengthen(bytes: &mut Vec<u8>, end: usize)
    requires { end ≤ vec_capacity bytes.old }
    ensures long { vec_len bytes.new ≡ max (vec_len bytes.old) end }
    ensures same { (k : ℕ) → slice_index bytes.new.items k ≡ slice_index bytes.old.items k }
    ensures room { vec_capacity bytes.old ≤ vec_capacity bytes.new }
{
    if end > bytes.len() {
        let _ = bytes.resize(end, 0);
    }
}
