//! Several short values, one after the other, in one far object.
#![tactic(auto)]

mod near;
mod packed;
mod parts;
mod steps;

pub use packed::Packed;
