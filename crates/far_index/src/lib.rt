//! A near index by open addressing: 10 bytes a slot, for a tag of 48 bits and a number of 32. The search for a key begins at its home and goes up to the
//! first empty slot, past the last home too.
#![tactic(auto)]

mod grow;
mod index;
mod slot;
mod tag;

pub use grow::{find_place, grown, slots_for};
pub use index::Index;
pub use slot::{Met, Slot};
pub use tag::{home_of, seeded, tag_of_key};
