//! The tests of far_private, by its public calls. They stand apart, so that far_private is proved once.
#![tactic(auto)]

#[cfg(test)]
mod tests;
