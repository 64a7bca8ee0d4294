//! The tests of far_map, by its public calls. They stand apart, so that far_map is proved once.
#![tactic(auto)]

#[cfg(test)]
mod tests;
