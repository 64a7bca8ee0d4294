//! A device in memory with a flaw.

ghost use Rattle.std.specs.Prelude.{◌≡◌, ◌+◌, ◌%◌, ◌^◌, true, false, IsSome, IfOk};
ghost use Rattle.far_device.specs.Calls.{given};
ghost use Rattle.far_device.specs.Faults.{is_fault};
ghost use Rattle.far_device.specs.Following.{Follows, any_key, other_than};
ghost use Rattle.far_device.specs.Mem.{bytes_at, faults_of};
ghost use Rattle.far_device.specs.Wrapping.{wrapped_below};

use far_device::{Device, DeviceFault, MemDevice, hand_over};
use std::alloc::Global;

/// What is wrong with a device: always, or in one of its calls, a write or a read, counted from 1.
#[derive(Clone, Copy, PartialEq, Eq)]
pub(super) enum Flaw {
    Nothing,
    /// It takes no object.
    Refuses,
    /// It has no memory for any.
    Starves,
    /// It takes no object of so many bytes.
    Dislikes,
    /// The call fails.
    Fails,
    /// There is no memory for it.
    Lacks,
    /// If it is a read it gives a byte less.
    Shortens,
    /// A byte more.
    Lengthens,
    /// Each byte inverted.
    Inverts,
}

/// A device in memory with a flaw.
#[derive(Drop)]
pub(super) struct Flawed {
    inner: MemDevice,
    flaw: Flaw,
    at: u64,
    calls: u64,
    faults: u64,
}

// One read of what is in memory, with its answer taken apart.
fn read_inner(inner: &mut MemDevice, id: u32) -> Result<Vec<u8>, DeviceFault>
    ensures follows { Follows bytes_at (λ _. true) faults_of (λ _ _. IsSome (bytes_at inner.old id) × ⊥) any_key (is_fault (given result)) inner.old inner.new }
    ensures kept { bytes_at inner.new ≡ bytes_at inner.old }
{
    match inner.read(id) {
        Ok(bytes) => Ok(bytes),
        Err(DeviceFault::Memory) => Err(DeviceFault::Memory),
        Err(DeviceFault::Device) => Err(DeviceFault::Device),
    }
}

// Inverts each byte.
fn invert(bytes: &mut [u8]) {
    for byte in bytes {
        *byte = !*byte;
    }
}

impl Flawed {
    pub(super) fn new(alloc: Global, flaw: Flaw, at: u64) -> Flawed {
        Flawed {
            inner: MemDevice::new(alloc),
            flaw,
            at,
            calls: 0,
            faults: 0,
        }
    }

    // Counts a call.
    fn count(&mut self)
        ensures inner { self.new.inner ≡ self.old.inner }
        ensures faults { self.new.faults ≡ self.old.faults }
    {
        self.calls = self.calls.saturating_add(1);
    }

    // Whether this flaw shows in the last call.
    fn shows(&self, flaw: Flaw) -> bool {
        self.flaw == flaw && self.calls == self.at
    }

    // Whether a write of so many bytes fails.
    fn fails_write(&self, count: usize) -> bool {
        self.flaw == Flaw::Refuses
            || self.shows(Flaw::Fails)
            || self.flaw == Flaw::Dislikes && self.at == count as u64
    }

    // Whether there is no memory for a write.
    fn lacks_write(&self) -> bool {
        self.flaw == Flaw::Starves || self.shows(Flaw::Lacks)
    }

    // Falsifies bytes that were read.
    fn falsify(&self, bytes: &mut Vec<u8>) {
        if self.shows(Flaw::Shortens) {
            let _ = bytes.pop();
        } else if self.shows(Flaw::Lengthens) {
            let _ = bytes.push(7);
        } else if self.shows(Flaw::Inverts) {
            invert(bytes);
        }
    }
}

impl Device for Flawed {
    ghost contents = { λ s. bytes_at s.inner };

    ghost honest = { λ _. false };

    ghost faults = { λ s. (faults_of s.inner + s.faults) % 2 ^ 64 };

    ghost forgets = { Unit {0} };

    ghost reads_in_place = { ⊥ };

    ghost fails_at_most = { λ _ _. ⊥ };

    ghost wraps = { λ s. wrapped_below (faults_of s.inner + s.faults) };

    ghost writes = { λ old id _ answer new. Follows (λ s. bytes_at s.inner) (λ _. false) (λ s. (faults_of s.inner + s.faults) % 2 ^ 64) (λ _ _. ⊥) (other_than id) (is_fault answer) old new };

    ghost reads = { λ old id answer new. Follows (λ s. bytes_at s.inner) (λ _. false) (λ s. (faults_of s.inner + s.faults) % 2 ^ 64) (λ _ _. IsSome (bytes_at old.inner id) × ⊥) any_key (is_fault answer) old new };

    ghost lets_go = { λ old id new. Follows (λ s. bytes_at s.inner) (λ _. false) (λ s. (faults_of s.inner + s.faults) % 2 ^ 64) (λ _ _. ⊥) (other_than id) false old new };

    ghost write_follows = { λ _ _ _ _ _ h. h };

    ghost read_follows = { λ _ _ _ _ h. h };

    ghost forget_follows = { λ _ _ _ h. h };

    fn write(&mut self, id: u32, bytes: &[u8]) -> Result<(), DeviceFault> {
        self.count();
        if self.fails_write(bytes.len()) {
            self.faults = self.faults.wrapping_add(1);
            return Err(DeviceFault::Device);
        }
        if self.lacks_write() {
            return Err(DeviceFault::Memory);
        }
        self.inner.write(id, bytes)
    }

    fn read(&mut self, id: u32) -> Result<Vec<u8>, DeviceFault> {
        self.count();
        if self.shows(Flaw::Fails) {
            self.faults = self.faults.wrapping_add(1);
            return Err(DeviceFault::Device);
        }
        if self.shows(Flaw::Lacks) {
            return Err(DeviceFault::Memory);
        }
        let mut bytes = read_inner(&mut self.inner, id)?;
        self.falsify(&mut bytes);
        Ok(bytes)
    }

    fn read_into(&mut self, id: u32, buffer: &mut Vec<u8>) -> Result<(), DeviceFault> {
        hand_over(self.read(id)?, buffer);
        Ok(())
    }

    fn forget(&mut self, id: u32) {
        self.inner.forget(id);
    }

    fn faults(&self) -> u64 {
        self.inner.faults().wrapping_add(self.faults)
    }
}
