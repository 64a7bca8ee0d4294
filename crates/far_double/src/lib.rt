//! Far objects in memory, for tests: honest or lying, with so much room, and each n-th call refused.
#![tactic(auto)]

mod double;
mod objects;

pub use double::Double;
