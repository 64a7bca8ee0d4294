//! The tests of book and evacuator over the book's seat, with owners beside them on the same shared words. They stand apart, so that far_table
//! is proved once.
#![tactic(auto)]

#[cfg(test)]
mod tests;
