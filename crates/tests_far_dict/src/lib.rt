//! The tests of far_dict, by its public calls. They stand apart, so that far_dict is proved once.
#![tactic(auto)]

#[cfg(test)]
mod tests;
