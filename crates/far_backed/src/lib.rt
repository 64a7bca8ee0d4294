//! A worker and a map over memory, types without parameters. Objects are named by numbers of 64 bits.
#![tactic(auto)]

mod backed;
mod map;
mod named;
mod sides;

pub use backed::Backed;
pub use map::BackedMap;
pub use sides::Side;
