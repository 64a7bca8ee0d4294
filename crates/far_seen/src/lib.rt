//! A set of lines, whose bytes are far objects: it tells which line is the first of its kind; and a tally, which tells how often each came.
#![tactic(auto)]

mod enter;
mod near;
mod parts;
mod place;
mod read;
mod roll;
mod seen;
mod steps;
mod tally;

pub use seen::Seen;
pub use tally::Tally;
