//! Owners, copiers and the book on shared words.
//!
//! The words of a heap lie in one shared table. A seat is a token with a view, what its holder knows; a call of a seat makes one
//! atomic step on one word, or several, one after the other. A rule about all words and all views holds between any two steps: together they are a state of
//! [`far_events`] under its law, and each view is right about the words.
#![tactic(auto)]

mod book;
mod book_hand;
mod book_rows;
mod copy_seat;
mod job_word;
mod layout;
mod rule;
mod seat;
mod seat_rows;
mod start;
mod view;

pub use book::BookSeat;
pub use copy_seat::{CopySeat, Job};
pub use layout::layout_is;
pub use rule::{FarRule, FarTable, Plan};
pub use seat::MutSeat;
pub use start::share;
pub use view::View;
