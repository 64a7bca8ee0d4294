//! The tests of far_large, by its public calls. They stand apart, so that far_large is proved once.
#![tactic(auto)]

#[cfg(test)]
mod tests;
