//! A file that several devices use.

ghost use Rattle.std.specs.Prelude.{false};

use crate::disk::{get_at, put_at};
use crate::extents::Extents;
use crate::fault::StorageFault;
use crate::place::EXTENT;
use crate::seal::Seal;
use crate::sealed::SealedDevice;
use crate::storage::Storage;
use std::alloc::{AllocError, Global};
use std::fs::File;
use std::sync::Arc;

/// A file that several devices use, each in extents of its own, as many as it needs.
#[derive(Drop)]
pub struct SharedFile {
    file: Arc<File, Global>,
    extents: Extents,
}

/// What one of the devices has of the file.
#[derive(Drop)]
pub struct FilePart {
    file: Arc<File, Global>,
}

impl SharedFile {
    /// Nobody else may use the file.
    pub fn new(alloc: Global, file: File) -> Result<SharedFile, AllocError> {
        let extents = Extents::new(alloc)?;
        match Arc::new(alloc, file) {
            Ok(file) => Ok(SharedFile { file, extents }),
            Err(_) => Err(AllocError),
        }
    }

    /// A device more over the file. It holds nothing.
    pub fn device<L: Seal>(&self, alloc: Global) -> Result<SealedDevice<FilePart, L>, AllocError> {
        let file = Arc::try_clone(&self.file)?;
        let extents = self.extents.try_clone()?;
        Ok(SealedDevice::<FilePart, L>::over(alloc, FilePart { file }, Some(extents)))
    }

    /// The file is no longer than so many bytes.
    pub fn end(&self) -> u64 {
        self.extents.below().saturating_mul(EXTENT)
    }
}

/// As that of a [`File`].
impl Storage for FilePart {
    ghost seen = { λ _ _. 0 };

    ghost honest = { λ _. false };

    ghost puts = { λ _ _ _ _ _. Unit {0} };

    ghost gets = { λ _ _ _ _. Unit {0} };

    fn put(&mut self, at: u64, bytes: &[u8]) -> Result<(), StorageFault> {
        put_at(&self.file, at, bytes)
    }

    fn get(&self, at: u64, buffer: &mut [u8]) -> Result<(), StorageFault> {
        get_at(&self.file, at, buffer)
    }
}
