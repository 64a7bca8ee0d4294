//! The tests of far_split, by its public calls alone.
#![tactic(auto)]

#[cfg(test)]
mod tests;
