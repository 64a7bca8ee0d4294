//! A pool: many private heaps of one thread's own behind one front, whose objects are named by handles that a stale copy can't misuse.
#![tactic(auto)]

mod counted;
mod devices;
mod handle;
mod laws;
mod maker;
mod plan;
mod statistics;
mod worker;

pub use devices::{FileDevices, MemDevices};
pub use handle::Handle;
pub use laws::{dropped_stays_refused, others_stay, reads_give_last_writes, takers_have_room};
pub use maker::MakeDevice;
pub use plan::{Layout, Plan, Unplanned};
pub use statistics::WorkerStatistics;
pub use worker::{Handles, Worker};
