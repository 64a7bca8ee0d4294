//! A device of the tests' own: what is in it is what one in memory has, something may be wrong with it, and it is looked at.

ghost use Rattle.std.specs.Prelude.{◌≡◌, ◌+◌, ◌%◌, ◌^◌, ℕ, Some, IsSome, false, true, IfOk};
ghost use Rattle.far_device.specs.Calls.{given};
ghost use Rattle.far_device.specs.Faults.{is_fault};
ghost use Rattle.far_device.specs.Following.{Follows, any_key, other_than};
ghost use Rattle.far_device.specs.Mem.{bytes_at, faults_of};
ghost use Rattle.far_device.specs.Wrapping.{wrapped_below};

use far_device::{Device, DeviceFault, MemDevice, hand_over};
use std::cell::Cell;

/// What is wrong with a device.
#[derive(Clone, Copy)]
pub(super) enum Flaw {
    Nothing,
    /// It has no memory for what it is given.
    Starved,
    /// It fails unless it is given so many counted bytes.
    Picky(u16),
    /// Its next read fails so.
    Stumbling(DeviceFault),
    /// Its next read gives as many bytes, whatever it holds.
    Lying(usize),
}

/// What is seen of a device: whether anything is under key 0, and the least room that it was lent for a read.
#[derive(Drop)]
pub(super) struct Sight {
    pub(super) holds: Cell<bool>,
    pub(super) least: Cell<usize>,
}

impl Sight {
    pub(super) fn new() -> Sight {
        Sight {
            holds: Cell::new(false),
            least: Cell::new(usize::MAX),
        }
    }
}

/// A device with a flaw. It isn't honest where it lies, before and after.
#[derive(Drop)]
pub(super) struct Flawed<'s> {
    pub(super) inner: MemDevice,
    pub(super) flaw: Flaw,
    pub(super) honest: bool,
    pub(super) faults: u64,
    pub(super) sight: &'s Sight,
}

/// Word i of an object of so many counted bytes: bytes 1 to 8, as a number i more.
pub(super) fn counted_word(len: u16, i: u16) -> u64 {
    let word = 0x0807_0605_0403_0201 + i as u64;
    let left = len.saturating_sub(i.saturating_mul(8));
    if left >= 8 {
        word
    } else {
        word % (1 << (8 * left))
    }
}

// Whether these are so many counted bytes.
fn are_counted(bytes: &[u8], len: u16) -> bool {
    for k in 0..len {
        let word = counted_word(len, k / 8).to_le_bytes();
        if bytes.get(k as usize).copied() != Some(word[(k % 8) as usize]) {
            return false;
        }
    }
    bytes.len() == len as usize
}

// One read of what is in memory, with its answer taken apart.
fn read_inner(inner: &mut MemDevice, id: u32) -> Result<Vec<u8>, DeviceFault>
    ensures follows { Follows bytes_at (λ _. true) faults_of (λ _ _. IsSome (bytes_at inner.old id) × ⊥) any_key (is_fault (given result)) inner.old inner.new }
    ensures given { IfOk result (λ bytes. bytes_at inner.old id ≡ Some bytes.items) }
    ensures kept { bytes_at inner.new ≡ bytes_at inner.old }
{
    match inner.read(id) {
        Ok(bytes) => Ok(bytes),
        Err(DeviceFault::Memory) => Err(DeviceFault::Memory),
        Err(DeviceFault::Device) => Err(DeviceFault::Device),
    }
}

impl<'s> Flawed<'s> {
    // Why it doesn't take these bytes.
    fn refusal(&self, bytes: &[u8]) -> Option<DeviceFault> {
        match self.flaw {
            Flaw::Starved => Some(DeviceFault::Memory),
            Flaw::Picky(len) if !are_counted(bytes, len) => Some(DeviceFault::Device),
            _ => None,
        }
    }
}

impl<'s> Device for Flawed<'s> {
    ghost contents = { λ s. bytes_at s.inner };

    ghost honest = { λ s. s.honest };

    ghost faults = { λ s. (faults_of s.inner + s.faults) % 2 ^ 64 };

    ghost forgets = { Unit {0} };

    ghost reads_in_place = { ⊥ };

    ghost fails_at_most = { λ _ _. ⊥ };

    ghost wraps = { λ s. wrapped_below (faults_of s.inner + s.faults) };

    ghost writes = { λ old id _ answer new. Follows (λ s. bytes_at s.inner) (λ s. s.honest) (λ s. (faults_of s.inner + s.faults) % 2 ^ 64) (λ _ _. ⊥) (other_than id) (is_fault answer) old new };

    ghost reads = { λ old id answer new. Follows (λ s. bytes_at s.inner) (λ s. s.honest) (λ s. (faults_of s.inner + s.faults) % 2 ^ 64) (λ _ _. IsSome (bytes_at old.inner id) × ⊥) any_key (is_fault answer) old new };

    ghost lets_go = { λ old id new. Follows (λ s. bytes_at s.inner) (λ s. s.honest) (λ s. (faults_of s.inner + s.faults) % 2 ^ 64) (λ _ _. ⊥) (other_than id) false old new };

    ghost write_follows = { λ _ _ _ _ _ h. h };

    ghost read_follows = { λ _ _ _ _ h. h };

    ghost forget_follows = { λ _ _ _ h. h };

    fn write(&mut self, id: u32, bytes: &[u8]) -> Result<(), DeviceFault> {
        if let Some(fault) = self.refusal(bytes) {
            if fault == DeviceFault::Device {
                self.faults = self.faults.wrapping_add(1);
            }
            return Err(fault);
        }
        self.inner.write(id, bytes)?;
        if id == 0 {
            self.sight.holds.set(true);
        }
        Ok(())
    }

    fn read(&mut self, id: u32) -> Result<Vec<u8>, DeviceFault> {
        match self.flaw {
            Flaw::Stumbling(fault) => {
                self.flaw = Flaw::Nothing;
                if fault == DeviceFault::Device {
                    self.faults = self.faults.wrapping_add(1);
                }
                Err(fault)
            }
            Flaw::Lying(len) if !self.honest => {
                self.flaw = Flaw::Nothing;
                let mut bytes = read_inner(&mut self.inner, id)?;
                let Ok(()) = bytes.resize(len, 0xee) else {
                    return Err(DeviceFault::Memory);
                };
                Ok(bytes)
            }
            _ => read_inner(&mut self.inner, id),
        }
    }

    fn read_into(&mut self, id: u32, buffer: &mut Vec<u8>) -> Result<(), DeviceFault> {
        let least = self.sight.least.get().min(buffer.capacity());
        self.sight.least.set(least);
        hand_over(self.read(id)?, buffer);
        Ok(())
    }

    fn forget(&mut self, id: u32) {
        self.inner.forget(id);
        if id == 0 {
            self.sight.holds.set(false);
        }
    }

    fn faults(&self) -> u64 {
        self.inner.faults().wrapping_add(self.faults)
    }
}
