//! A map from bytes to bytes of any length over far objects.
#![tactic(auto)]

mod dict;
mod each;
mod lending;
mod long;
mod near;
mod reading;
mod steps;
mod tour;
mod walk;
mod whole;

pub use dict::Dict;
pub use tour::Tour;
pub use walk::Walk;
pub use whole::Statistics;
