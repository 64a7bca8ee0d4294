//! Calls of a private heap as rows of its laws over lists of calls: each function makes one call, and its clauses are what `Calls` of far_private
//! says of it. So a row that says something else than the call's own contract isn't proved.
#![tactic(auto)]

mod rows;

pub use rows::{drops, makes, makes_with, reads, rounds, updates, writes};
