//! Values of more bytes than one far object has.
#![tactic(auto)]

mod large;
mod laws;
mod steps;

pub use large::Large;
pub use laws::values_stay;
