//! What may be counted on of positioned storage.

ghost use Rattle.std.specs.Prelude.{◌≡◌, ◌<◌, ℕ, Bool, true, List, Result, length, OnOk};
ghost use Rattle.far_file.specs.Gave.{gave};
ghost use Rattle.far_file.specs.Positions.{HoldsAt, KeepsOutside};
ghost use Rattle.far_file.specs.declared.fault.StorageFault.{StorageFault as fault};

use crate::fault::StorageFault;

/// Bytes at positions, as a file has them. No clause says that a call succeeds. What is said of bytes is said of storage that is honest.
pub trait Storage {
    /// The byte at each position.
    ghost seen: { Self → ℕ → ℕ };

    /// Whether what is read is what is stored. No call changes it.
    ghost honest: { Self → Bool };

    /// One call of `put`: the storage before, a position, the bytes, the answer, and the storage after. A caller who says so of two states has made that call,
    /// and no other between them.
    ghost puts: { Self → ℕ → List ℕ → Result (Unit {0}) fault → Self → Type 0 };

    /// One call of `get`: the storage, a position, how many bytes were asked for, and those that it gave or its fault.
    ghost gets: { Self → ℕ → ℕ → Result (List ℕ) fault → Type 0 };

    /// Puts bytes from a position on. After an error anything may stand there; elsewhere all is as before.
    fn put(&mut self, at: u64, bytes: &[u8]) -> Result<(), StorageFault>
        ensures called { puts self.old at bytes.now result self.new }
        ensures honest { honest self.new ≡ honest self.old }
        ensures put { honest self.old ≡ true → OnOk result (HoldsAt (seen self.new) at bytes.now) }
        ensures others { honest self.old ≡ true → KeepsOutside (seen self.old) (seen self.new) at (length bytes.now) };

    /// Fills a buffer with the bytes from a position on.
    fn get(&self, at: u64, buffer: &mut [u8]) -> Result<(), StorageFault>
        ensures called { gets self.now at (length buffer.old) (gave result buffer.new) }
        ensures got { honest self.now ≡ true → OnOk result (HoldsAt (seen self.now) at buffer.new) };
}
