//! Devices that fail.

ghost use Rattle.std.specs.Prelude.{◌≡◌, ◌≢◌, ◌%◌, ◌^◌, None, Err, true};
ghost use Rattle.std.proofs.Common.{rules};
ghost use Rattle.far_device.specs.declared.fault.DeviceFault.TheVariants as fault;
ghost use Rattle.far_device.specs.Wrapping.{wrapped_below};

use far_device::{Device, DeviceFault};

/// Each call fails.
#[derive(Drop)]
pub(crate) struct Broken {
    pub(crate) faults: u64,
}

impl Device for Broken {
    ghost contents = { λ _ _. None };

    ghost honest = { λ _. true };

    ghost faults = { λ s. s.faults % 2 ^ 64 };

    ghost forgets = { Unit {0} };

    ghost reads_in_place = { Unit {0} };

    ghost fails_at_most = { λ _ _. ⊥ };

    ghost wraps = { λ s. wrapped_below s.faults };

    ghost writes = { λ old _ _ answer new. (answer ≡ Err fault.Device) × (new.faults % 2 ^ 64 ≢ old.faults % 2 ^ 64) };

    ghost reads = { λ old _ answer new. (answer ≡ Err fault.Device) × (new.faults % 2 ^ 64 ≢ old.faults % 2 ^ 64) };

    ghost lets_go = { λ old _ new. new ≡ old };

    ghost write_follows = { Prim.search rules };

    ghost read_follows = { Prim.search rules };

    ghost forget_follows = { Prim.search rules };

    fn write(&mut self, _id: u32, _bytes: &[u8]) -> Result<(), DeviceFault> {
        self.faults = self.faults.wrapping_add(1);
        Err(DeviceFault::Device)
    }

    fn read(&mut self, _id: u32) -> Result<Vec<u8>, DeviceFault> {
        self.faults = self.faults.wrapping_add(1);
        Err(DeviceFault::Device)
    }

    fn read_into(&mut self, _id: u32, _buffer: &mut Vec<u8>) -> Result<(), DeviceFault> {
        self.faults = self.faults.wrapping_add(1);
        Err(DeviceFault::Device)
    }

    fn forget(&mut self, _id: u32) {}

    fn faults(&self) -> u64 {
        self.faults
    }
}

/// Each call is refused memory.
#[derive(Drop)]
pub(crate) struct Starved {}

impl Device for Starved {
    ghost contents = { λ _ _. None };

    ghost honest = { λ _. true };

    ghost faults = { λ _. 0 };

    ghost forgets = { Unit {0} };

    ghost reads_in_place = { ⊥ };

    ghost fails_at_most = { λ _ _. Unit {0} };

    ghost wraps = { λ _. wrapped_below 0 };

    ghost writes = { λ old _ _ answer new. (answer ≡ Err fault.Memory) × (new ≡ old) };

    ghost reads = { λ old _ answer new. (answer ≡ Err fault.Memory) × (new ≡ old) };

    ghost lets_go = { λ old _ new. new ≡ old };

    ghost write_follows = { Prim.search rules };

    ghost read_follows = { Prim.search rules };

    ghost forget_follows = { Prim.search rules };

    fn write(&mut self, _id: u32, _bytes: &[u8]) -> Result<(), DeviceFault> {
        Err(DeviceFault::Memory)
    }

    fn read(&mut self, _id: u32) -> Result<Vec<u8>, DeviceFault> {
        Err(DeviceFault::Memory)
    }

    fn read_into(&mut self, _id: u32, _buffer: &mut Vec<u8>) -> Result<(), DeviceFault> {
        Err(DeviceFault::Memory)
    }

    fn forget(&mut self, _id: u32) {}

    fn faults(&self) -> u64 {
        0
    }
}
