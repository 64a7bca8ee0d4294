//! What far objects lie in.

ghost use Rattle.std.specs.Prelude.{◌≡◌, true};
ghost use Rattle.far_word.specs.declared.refused.Refused.TheVariants.{Memory};

use far_device::MemDevice;
use far_file::FileDevice;
use far_pool::MakeDevice;
use far_reserved::{EitherDevice, Reserved};
use far_word::Refused;
use std::alloc::Global;

/// The device of a heap: memory that is taken as objects go far, or bytes that were reserved.
pub type Side = EitherDevice<MemDevice, FileDevice<Reserved>>;

/// Makes the devices of a worker, all of one kind. They are honest.
#[derive(Drop)]
pub(crate) struct Sides {
    alloc: Global,
    // How many bytes each has reserved, if they have.
    room: Option<usize>,
}

impl Sides {
    /// Devices in memory. What they hold later is of this allocator.
    pub(crate) fn in_memory(alloc: Global) -> Sides {
        Sides { alloc, room: None }
    }

    /// Devices that have so many bytes each.
    pub(crate) fn reserved(alloc: Global, room: usize) -> Sides {
        Sides {
            alloc,
            room: Some(room),
        }
    }
}

impl MakeDevice<Side> for Sides {
    ghost honest = { true };

    ghost refuses = { λ why. why ≡ Memory };

    fn make(&mut self, _heap: u32) -> Result<Side, Refused> {
        let Some(room) = self.room else {
            return Ok(EitherDevice::First(MemDevice::new(self.alloc)));
        };
        match Reserved::new(self.alloc, room) {
            Ok(storage) => Ok(EitherDevice::Second(FileDevice::<Reserved>::new(
                self.alloc, storage,
            ))),
            Err(_) => Err(Refused::Memory),
        }
    }
}
