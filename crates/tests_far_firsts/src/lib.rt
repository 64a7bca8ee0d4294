//! The tests of far_firsts and far_seen, by their public calls. They stand apart, so that these are proved once.
#![tactic(auto)]

#[cfg(test)]
mod tests;
