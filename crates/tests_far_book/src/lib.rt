//! The tests of far_book, by its public calls and its hands. They stand apart, so that far_book is proved once.
#![tactic(auto)]

#[cfg(test)]
mod tests;
