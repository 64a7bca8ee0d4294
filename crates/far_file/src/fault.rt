//! Why storage failed, and a device over it.

use thiserror::Error;

/// Why a call of storage failed.
#[derive(Clone, Copy, Debug, PartialEq, Eq, Error)]
pub enum StorageFault {
    #[error("a growth was refused")]
    Memory,
    #[error("there were fewer bytes than were asked for")]
    Short,
    #[error("there was no room for the bytes")]
    Full,
    #[error("the medium failed, or the server that has it")]
    Medium,
    #[error("calls of the system were interrupted again and again")]
    Interrupted,
    #[error("the system failed")]
    Failed,
}

/// Why a call of a device over storage answered that the device failed.
#[derive(Clone, Copy, Debug, PartialEq, Eq, Error)]
pub enum FileFault {
    #[error("the key has no slot, no slot has room for so many bytes, or none is left")]
    NoSlot,
    #[error("nothing is under the key")]
    Nothing,
    #[error("other bytes came back than were written")]
    Misfit,
    #[error("the storage failed: {0}")]
    Storage(StorageFault),
}
