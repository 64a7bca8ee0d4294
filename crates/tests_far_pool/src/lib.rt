//! The tests of far_pool, by its public calls. They stand apart, so that far_pool is proved once.
#![tactic(auto)]

#[cfg(test)]
mod tests;
