//! What a device has of its storage.

use crate::place::CLASSES;

/// What a device has of its storage.
#[derive(Clone, Copy, Debug, PartialEq, Eq)]
pub struct FileStatistics {
    /// So many keys have bytes.
    pub keys: u64,
    /// So many bytes they have.
    pub bytes: u64,
    /// Of the slots of 64 bytes, of those of 128, and so on to 4,096.
    pub classes: [ClassStatistics; CLASSES],
    /// Behind the device's last extent, in bytes: where nobody else has the storage, it is no longer.
    pub end: u64,
}

/// What a device has of the slots of one size.
#[derive(Clone, Copy, Debug, PartialEq, Eq)]
pub struct ClassStatistics {
    /// So many keys have such a slot.
    pub slots: u64,
    /// So many extents of 16,384 bytes are there for them.
    pub extents: u64,
}
