//! The far side: where the bytes of an object are kept while it isn't in memory.
//!
//! [`Device`] is what may be counted on, of a device that fails or lies too; [`MemDevice`] is one in memory. Over any device,
//! [`FailAt`] fails in one call, and [`Liar`] lies in one read.
#![tactic(auto)]

mod device;
mod fail_at;
mod fault;
mod laws;
mod liar;
mod mem;
mod slot;

pub use device::Device;
pub use fail_at::FailAt;
pub use fault::DeviceFault;
pub use laws::{the_kth_call_fails, the_kth_read_lies};
pub use liar::Liar;
pub use mem::MemDevice;
pub use slot::hand_over;
