//! The tests of far_evac, by its public calls, and a worked caller. They stand apart, so that far_evac is proved once.
#![tactic(auto)]

#[cfg(test)]
mod caller;
#[cfg(test)]
mod tests;
