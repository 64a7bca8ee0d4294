//! A split trace is run: each mutator's lines in a thread of its own on one running heap, rounds and inquiries beside them in the book's.
//!
//! [`run_split`] does it. What each thread was answered is in [`SplitOut`], which [`SplitOut::print`] writes. A [`Gate`] is asked before each line.
#![tactic(auto)]

mod access;
mod books;
mod gate;
mod inquiries;
mod laws;
mod mutators;
mod replies;
mod rounds;
mod run;
mod slot;
mod split_out;
mod told;

pub use gate::{Gate, NoGate, THE_BOOK};
pub use laws::{book_is_told_so, faults_are_in_order, mutators_are_alone, mutators_are_told_so};
pub use replies::Replies;
pub use run::{SplitFault, run_split};
pub use split_out::SplitOut;
pub use told::{LogLines, Told};
