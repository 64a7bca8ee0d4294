//! A far side over positioned storage, a file for instance: each key that has bytes has a slot of the smallest size with room for them.
//!
//! [`Storage`] is what may be counted on of storage; [`MemStorage`] is one in memory, and std's `File` is one too, which [`NewFile`]
//! makes; by [`SharedFile`] many devices have one. [`FileDevice`] is the device over any; [`SealedDevice`] keeps a [`Seal`] of each slot in memory besides, and never gives bytes
//! that don't fit theirs. A [`LastFault`], which `last_fault` hands out, tells why a device failed, also if something else
//! owns it by now, as a heap does.
#![tactic(auto)]

mod class;
mod code;
mod disk;
mod extents;
mod fault;
mod held;
mod last_fault;
mod memory;
mod new_file;
mod place;
mod room;
mod row;
mod seal;
mod sealed;
mod shared_file;
mod statistics;
mod storage;

pub use disk::want_of_room_is_full;
pub use fault::{FileFault, StorageFault};
pub use last_fault::{KeyFault, LastFault, words_tell_one_fault};
pub use memory::{MemStorage, puts_are_refused_so, what_is_put_is_there};
pub use new_file::NewFile;
pub use seal::{Digest, NoSeal, Seal, WholeCopy};
pub use sealed::{FileDevice, SealedDevice, slots_are};
pub use shared_file::{FilePart, SharedFile};
pub use statistics::{ClassStatistics, FileStatistics};
pub use storage::Storage;
