//! Far objects by number: what a map, an array or large values stand on, whoever keeps them.
#![tactic(auto)]

mod objects;

pub use objects::{MOST, Objects};
