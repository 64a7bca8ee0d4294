//! The tests of far_heap, by its public calls alone.
#![tactic(auto)]

#[cfg(test)]
mod tests;
