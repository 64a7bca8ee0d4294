//! Why a call of a device failed.

use thiserror::Error;

/// Why a call of a device failed.
#[derive(Clone, Copy, Debug, PartialEq, Eq, Error)]
pub enum DeviceFault {
    #[error("a growth was refused")]
    Memory,
    #[error("the device failed")]
    Device,
}
