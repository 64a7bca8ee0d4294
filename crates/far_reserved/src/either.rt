//! A device that is one of two.

use far_device::{Device, DeviceFault};

/// A device of one kind or of another. Each call is its own.
#[derive(Drop)]
pub enum EitherDevice<A: Device + Drop, B: Device + Drop> {
    First(A),
    Second(B),
}

impl<A: Device + Drop, B: Device + Drop> Device for EitherDevice<A, B> {
    ghost use Rattle.far_reserved.specs.Either.{both, each_below, either, forget_leaves, most, read_leaves, write_leaves};

    ghost contents = { either A.contents B.contents };

    ghost honest = { either A.honest B.honest };

    ghost faults = { either A.faults B.faults };

    ghost forgets = { A.forgets × B.forgets };

    ghost reads_in_place = { A.reads_in_place × B.reads_in_place };

    ghost fails_at_most = { most A.fails_at_most B.fails_at_most };

    ghost writes = { λ old id bytes answer new. both (λ s t. A.writes s id bytes answer t) (λ s t. B.writes s id bytes answer t) old new };

    ghost reads = { λ old id answer new. both (λ s t. A.reads s id answer t) (λ s t. B.reads s id answer t) old new };

    ghost lets_go = { λ old id new. both (λ s t. A.lets_go s id t) (λ s t. B.lets_go s id t) old new };

    ghost wraps = { each_below A.faults B.faults A.wraps B.wraps };

    ghost write_follows = { λ s id bytes answer t. write_leaves A.contents A.honest A.faults A.fails_at_most B.contents B.honest B.faults B.fails_at_most id answer
        (λ s t. A.writes s id bytes answer t) (λ s t. B.writes s id bytes answer t) (λ s t. A.write_follows s id bytes answer t) (λ s t. B.write_follows s id bytes answer t) s t };

    ghost read_follows = { λ s id answer t. read_leaves A.contents A.honest A.faults A.fails_at_most B.contents B.honest B.faults B.fails_at_most id answer
        (λ s t. A.reads s id answer t) (λ s t. B.reads s id answer t) (λ s t. A.read_follows s id answer t) (λ s t. B.read_follows s id answer t) s t };

    ghost forget_follows = { λ s id t. forget_leaves A.contents A.honest A.faults A.fails_at_most B.contents B.honest B.faults B.fails_at_most id
        (λ s t. A.lets_go s id t) (λ s t. B.lets_go s id t) (λ s t. A.forget_follows s id t) (λ s t. B.forget_follows s id t) s t };

    #[inline(always)]
    fn write(&mut self, id: u32, bytes: &[u8]) -> Result<(), DeviceFault> {
        match self {
            EitherDevice::First(device) => device.write(id, bytes),
            EitherDevice::Second(device) => device.write(id, bytes),
        }
    }

    fn read(&mut self, id: u32) -> Result<Vec<u8>, DeviceFault> {
        match self {
            EitherDevice::First(device) => device.read(id),
            EitherDevice::Second(device) => device.read(id),
        }
    }

    #[inline(always)]
    fn read_into(&mut self, id: u32, buffer: &mut Vec<u8>) -> Result<(), DeviceFault> {
        match self {
            EitherDevice::First(device) => device.read_into(id, buffer),
            EitherDevice::Second(device) => device.read_into(id, buffer),
        }
    }

    #[inline(always)]
    fn forget(&mut self, id: u32) {
        match self {
            EitherDevice::First(device) => device.forget(id),
            EitherDevice::Second(device) => device.forget(id),
        }
    }

    fn faults(&self) -> u64 {
        match self {
            EitherDevice::First(device) => device.faults(),
            EitherDevice::Second(device) => device.faults(),
        }
    }
}
