//! A device that fails again and again.

ghost use Rattle.std.specs.Prelude.{◌≡◌, ◌+◌, ◌%◌, ◌^◌, true, false, Some, IsSome, IfOk};
ghost use Rattle.far_device.specs.Calls.{given};
ghost use Rattle.far_device.specs.Contents.{KeepsOthers};
ghost use Rattle.far_device.specs.Faults.{is_fault};
ghost use Rattle.far_device.specs.Following.{Follows, any_key, other_than};
ghost use Rattle.far_device.specs.Mem.{bytes_at, faults_of};
ghost use Rattle.far_device.specs.Wrapping.{wrapped_below};

use far_device::{Device, DeviceFault, MemDevice, hand_over};
use std::alloc::Global;

// One read of what is in memory, with its answer taken apart.
fn read_inner(inner: &mut MemDevice, id: u32) -> Result<Vec<u8>, DeviceFault>
    ensures follows { Follows bytes_at (λ _. true) faults_of (λ _ _. IsSome (bytes_at inner.old id) × ⊥) any_key (is_fault (given result)) inner.old inner.new }
    ensures given { IfOk result (λ bytes. bytes_at inner.old id ≡ Some bytes.items) }
    ensures kept { bytes_at inner.new ≡ bytes_at inner.old }
{
    match inner.read(id) {
        Ok(bytes) => Ok(bytes),
        Err(DeviceFault::Memory) => Err(DeviceFault::Memory),
        Err(DeviceFault::Device) => Err(DeviceFault::Device),
    }
}

/// A device in memory of which every so many calls one fails, a write or a read. A write that fails leaves half of its bytes under the key. It is honest.
#[derive(Drop)]
pub struct Failing {
    inner: MemDevice,
    // How many calls come between two that fail, and how many before the next one.
    between: u64,
    before: u64,
    // How many failed here.
    faults: u64,
}

impl Failing {
    /// One of which every n-th call fails, n by the seed: 2 to 33.
    pub fn by_seed(alloc: Global, seed: u64) -> Failing {
        let between = 1 + seed % 32;
        Failing {
            inner: MemDevice::new(alloc),
            between,
            before: between,
            faults: 0,
        }
    }

    // Counts a write or a read: whether it fails.
    fn fails(&mut self) -> bool
        ensures inner { self.new.inner ≡ self.old.inner }
        ensures faults { self.new.faults ≡ self.old.faults }
    {
        if self.before > 0 {
            self.before -= 1;
            return false;
        }
        self.before = self.between;
        true
    }

    // Puts half of these bytes under a key.
    fn spoil(&mut self, id: u32, bytes: &[u8])
        ensures others { KeepsOthers (bytes_at self.old.inner) (bytes_at self.new.inner) id }
        ensures inner { faults_of self.new.inner ≡ faults_of self.old.inner }
        ensures faults { self.new.faults ≡ self.old.faults }
    {
        let many = bytes.len() / 2;
        let half = &bytes[..many];
        let _ = self.inner.write(id, half);
    }
}

impl Device for Failing {
    ghost contents = { λ s. bytes_at s.inner };

    ghost honest = { λ _. true };

    ghost faults = { λ s. (faults_of s.inner + s.faults) % 2 ^ 64 };

    ghost forgets = { Unit {0} };

    ghost reads_in_place = { ⊥ };

    ghost fails_at_most = { λ _ _. ⊥ };

    ghost wraps = { λ s. wrapped_below (faults_of s.inner + s.faults) };

    ghost writes = { λ old id _ answer new. Follows (λ s. bytes_at s.inner) (λ _. true) (λ s. (faults_of s.inner + s.faults) % 2 ^ 64) (λ _ _. ⊥) (other_than id) (is_fault answer) old new };

    ghost reads = { λ old id answer new. Follows (λ s. bytes_at s.inner) (λ _. true) (λ s. (faults_of s.inner + s.faults) % 2 ^ 64) (λ _ _. IsSome (bytes_at old.inner id) × ⊥) any_key (is_fault answer) old new };

    ghost lets_go = { λ old id new. Follows (λ s. bytes_at s.inner) (λ _. true) (λ s. (faults_of s.inner + s.faults) % 2 ^ 64) (λ _ _. ⊥) (other_than id) false old new };

    ghost write_follows = { λ _ _ _ _ _ h. h };

    ghost read_follows = { λ _ _ _ _ h. h };

    ghost forget_follows = { λ _ _ _ h. h };

    fn write(&mut self, id: u32, bytes: &[u8]) -> Result<(), DeviceFault> {
        if self.fails() {
            self.spoil(id, bytes);
            self.faults = self.faults.wrapping_add(1);
            return Err(DeviceFault::Device);
        }
        self.inner.write(id, bytes)
    }

    fn read(&mut self, id: u32) -> Result<Vec<u8>, DeviceFault> {
        if self.fails() {
            self.faults = self.faults.wrapping_add(1);
            return Err(DeviceFault::Device);
        }
        read_inner(&mut self.inner, id)
    }

    fn read_into(&mut self, id: u32, buffer: &mut Vec<u8>) -> Result<(), DeviceFault> {
        hand_over(self.read(id)?, buffer);
        Ok(())
    }

    fn forget(&mut self, id: u32) {
        self.inner.forget(id);
    }

    fn faults(&self) -> u64 {
        self.inner.faults().wrapping_add(self.faults)
    }
}
