//! The tests of far_array, by its public calls. They stand apart, so that far_array is proved once.
#![tactic(auto)]

#[cfg(test)]
mod tests;
