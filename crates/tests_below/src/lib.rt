//! The tests of the crates that stand on none but one another, below the core and beside it: far_word, far_log, far_policy, far_device
//! and far_text. By their public calls alone, and apart, so that each of those is proved once.
#![tactic(auto)]

#[cfg(test)]
mod tests;
