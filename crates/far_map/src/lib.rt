//! A map from bytes to bytes over far objects: near an index of tags, far the entries.
#![tactic(auto)]

mod buffer;
mod each;
mod entry;
mod fold;
mod grow;
mod laws;
mod lookup;
mod map;
mod near;
mod parts;
mod puts;
mod steps;
mod walk;
mod whole;

pub use laws::{entries_are_told, what_was_put_last};
pub use map::Map;
pub use walk::Walk;
pub use whole::Statistics;
