//! The tests of far_core, by its public calls alone. They stand apart, so that far_core is proved once.
#![tactic(auto)]

#[cfg(test)]
mod tests;
