//! Devices that fail again and again, or lie.

ghost use Rattle.std.specs.Prelude.{◌≡◌, ◌+◌, ◌%◌, ◌^◌, true, false, IsSome, IfOk};
ghost use Rattle.far_device.specs.Calls.{given};
ghost use Rattle.far_device.specs.Contents.{KeepsOthers};
ghost use Rattle.far_device.specs.Faults.{is_fault};
ghost use Rattle.far_device.specs.Following.{Follows, any_key, other_than};
ghost use Rattle.far_device.specs.Mem.{bytes_at, faults_of};
ghost use Rattle.far_device.specs.Wrapping.{wrapped_below};

use far_device::{Device, DeviceFault, MemDevice, hand_over};
use std::cell::Cell;

/// What a device does again and again in place of what it is asked.
#[derive(Clone, Copy, PartialEq, Eq)]
pub enum Flaw {
    /// A write or read fails. A write that does so leaves half of its bytes under the key.
    Fails,
    /// A read gives other bytes, or more or fewer.
    Lies,
}

// One read of what is in memory, with its answer taken apart.
fn read_inner(inner: &mut MemDevice, id: u32) -> Result<Vec<u8>, DeviceFault>
    ensures follows { Follows bytes_at (λ _. true) faults_of (λ _ _. IsSome (bytes_at inner.old id) × ⊥) any_key (is_fault (given result)) inner.old inner.new }
    ensures kept { bytes_at inner.new ≡ bytes_at inner.old }
{
    match inner.read(id) {
        Ok(bytes) => Ok(bytes),
        Err(DeviceFault::Memory) => Err(DeviceFault::Memory),
        Err(DeviceFault::Device) => Err(DeviceFault::Device),
    }
}

// Makes a lie of bytes, one of four by its number.
fn falsify(bytes: &mut Vec<u8>, number: u64) {
    match number % 4 {
        0 => {
            let _ = bytes.pop();
        }
        1 => {
            let _ = bytes.push(7);
        }
        2 => bytes.clear(),
        _ => {
            if let Some(byte) = bytes.first_mut() {
                *byte = !*byte;
            }
        }
    }
}

/// A device in memory with a flaw, which shows in every so manieth call. What it has done so is told by a tally.
#[derive(Drop)]
pub struct Flawed<'t> {
    inner: MemDevice,
    flaw: Flaw,
    // How many calls come between two with the flaw, and how many before the next one.
    between: u64,
    before: u64,
    faults: u64,
    tally: &'t Cell<u64>,
}

impl<'t> Flawed<'t> {
    /// One whose flaw shows in every n-th call, n by the seed: 2 to 65.
    pub fn by_seed(inner: MemDevice, flaw: Flaw, seed: u64, tally: &'t Cell<u64>) -> Flawed<'t> {
        let between = 1 + seed % 64;
        Flawed {
            inner,
            flaw,
            between,
            before: between,
            faults: 0,
            tally,
        }
    }

    // Counts a call: whether the flaw shows in it.
    fn shows(&mut self) -> bool
        ensures inner { self.new.inner ≡ self.old.inner }
        ensures faults { self.new.faults ≡ self.old.faults }
    {
        if self.before > 0 {
            self.before -= 1;
            return false;
        }
        self.before = self.between;
        self.tally.set(self.tally.get().saturating_add(1));
        true
    }

    // Puts half of these bytes under a key.
    fn spoil(&mut self, id: u32, bytes: &[u8])
        ensures others { KeepsOthers (bytes_at self.old.inner) (bytes_at self.new.inner) id }
        ensures inner { faults_of self.new.inner ≡ faults_of self.old.inner }
        ensures faults { self.new.faults ≡ self.old.faults }
    {
        let many = bytes.len() / 2;
        let half = &bytes[..many];
        let _ = self.inner.write(id, half);
    }

    // Reads what is under a key, and gives a lie of it.
    fn lie(&mut self, id: u32) -> Result<Vec<u8>, DeviceFault>
        ensures follows { Follows bytes_at (λ _. true) faults_of (λ _ _. IsSome (bytes_at self.old.inner id) × ⊥) any_key (is_fault (given result)) self.old.inner self.new.inner }
        ensures kept { bytes_at self.new.inner ≡ bytes_at self.old.inner }
        ensures faults { self.new.faults ≡ self.old.faults }
    {
        let mut bytes = read_inner(&mut self.inner, id)?;
        falsify(&mut bytes, self.tally.get());
        Ok(bytes)
    }
}

impl<'t> Device for Flawed<'t> {
    ghost contents = { λ s. bytes_at s.inner };

    ghost honest = { λ _. false };

    ghost faults = { λ s. (faults_of s.inner + s.faults) % 2 ^ 64 };

    ghost forgets = { Unit {0} };

    ghost reads_in_place = { ⊥ };

    ghost fails_at_most = { λ _ _. ⊥ };

    ghost wraps = { λ s. wrapped_below (faults_of s.inner + s.faults) };

    ghost writes = { λ old id _ answer new. Follows (λ s. bytes_at s.inner) (λ _. false) (λ s. (faults_of s.inner + s.faults) % 2 ^ 64) (λ _ _. ⊥) (other_than id) (is_fault answer) old new };

    ghost reads = { λ old id answer new. Follows (λ s. bytes_at s.inner) (λ _. false) (λ s. (faults_of s.inner + s.faults) % 2 ^ 64) (λ _ _. IsSome (bytes_at old.inner id) × ⊥) any_key (is_fault answer) old new };

    ghost lets_go = { λ old id new. Follows (λ s. bytes_at s.inner) (λ _. false) (λ s. (faults_of s.inner + s.faults) % 2 ^ 64) (λ _ _. ⊥) (other_than id) false old new };

    ghost write_follows = { λ _ _ _ _ _ h. h };

    ghost read_follows = { λ _ _ _ _ h. h };

    ghost forget_follows = { λ _ _ _ h. h };

    fn write(&mut self, id: u32, bytes: &[u8]) -> Result<(), DeviceFault> {
        if self.flaw == Flaw::Fails && self.shows() {
            self.spoil(id, bytes);
            self.faults = self.faults.wrapping_add(1);
            return Err(DeviceFault::Device);
        }
        self.inner.write(id, bytes)
    }

    fn read(&mut self, id: u32) -> Result<Vec<u8>, DeviceFault> {
        if !self.shows() {
            return read_inner(&mut self.inner, id);
        }
        if self.flaw == Flaw::Lies {
            return self.lie(id);
        }
        self.faults = self.faults.wrapping_add(1);
        Err(DeviceFault::Device)
    }

    fn read_into(&mut self, id: u32, buffer: &mut Vec<u8>) -> Result<(), DeviceFault> {
        hand_over(self.read(id)?, buffer);
        Ok(())
    }

    fn forget(&mut self, id: u32) {
        self.inner.forget(id);
    }

    fn faults(&self) -> u64 {
        self.inner.faults().wrapping_add(self.faults)
    }
}
