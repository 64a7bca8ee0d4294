//! Devices of a worker's heaps: in memory, or over one file.

ghost use Rattle.std.specs.Prelude.{◌≡◌, true, false};
ghost use Rattle.far_word.specs.declared.refused.Refused.TheVariants.{Memory};

use crate::maker::MakeDevice;
use far_device::MemDevice;
use far_file::{FileDevice, FilePart, NoSeal, SharedFile};
use far_word::Refused;
use std::alloc::Global;
use std::fs::File;
use std::sync::Arc;

/// Makes devices in memory. They are honest.
#[derive(Drop)]
pub struct MemDevices {
    alloc: Global,
}

impl MemDevices {
    /// What the devices hold later is of this allocator.
    pub fn new(alloc: Global) -> MemDevices {
        MemDevices { alloc }
    }
}

impl MakeDevice<MemDevice> for MemDevices {
    ghost honest = { true };

    ghost refuses = { λ why. ⊥ };

    fn make(&mut self, _heap: u32) -> Result<MemDevice, Refused> {
        Ok(MemDevice::new(self.alloc))
    }
}

/// Makes devices over one file, which has an extent of 16 KiB more where one of them needs it. No contract can say what a file gives back, so they aren't called
/// honest. They keep no seal: other bytes that it gives are read as they are.
#[derive(Drop)]
pub struct FileDevices {
    alloc: Global,
    file: Arc<SharedFile, Global>,
}

impl FileDevices {
    /// Over a file that nobody else uses. [`Refused::Memory`].
    pub fn new(alloc: Global, file: File) -> Result<FileDevices, Refused> {
        let Ok(shared) = SharedFile::new(alloc, file) else {
            return Err(Refused::Memory);
        };
        match Arc::new(alloc, shared) {
            Ok(file) => Ok(FileDevices { alloc, file }),
            Err(_) => Err(Refused::Memory),
        }
    }

    /// Others over the same file, for another worker, in this thread or another. [`Refused::Memory`].
    pub fn try_clone(&self) -> Result<FileDevices, Refused> {
        match Arc::try_clone(&self.file) {
            Ok(file) => Ok(FileDevices {
                alloc: self.alloc,
                file,
            }),
            Err(_) => Err(Refused::Memory),
        }
    }
}

impl MakeDevice<FileDevice<FilePart>> for FileDevices {
    ghost honest = { false };

    ghost refuses = { λ why. why ≡ Memory };

    fn make(&mut self, _heap: u32) -> Result<FileDevice<FilePart>, Refused> {
        match self.file.device::<NoSeal>(self.alloc) {
            Ok(device) => Ok(device),
            Err(_) => Err(Refused::Memory),
        }
    }
}
