//! The tests of far_packed, by its public calls. They stand apart, so that far_packed is proved once.
#![tactic(auto)]

#[cfg(test)]
mod tests;
