//! The tests of far_table, by its public calls alone. They stand apart, so that far_table is proved once.
#![tactic(auto)]

mod known;
#[cfg(test)]
mod tests;

pub use known::Known;
