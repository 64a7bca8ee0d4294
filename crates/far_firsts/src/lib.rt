//! Prints the first line of each kind, at once and in order; or at the end, with how often it came.
#![tactic(auto)]

mod bytes;
mod count;
mod counts;
mod end;
mod ending;
mod laws;
mod line;
mod midst;
mod run;
mod show;
mod write;

pub use counts::count_lines;
pub use end::{End, Why};
pub use ending::{Counted, Ending};
pub use laws::{
    counts_are_of_each, each_stamp_is_counted, firsts_are_one_of_each, lines_are_between_ends,
    the_first_of_each_stamp_is_printed, what_is_printed_is_a_prefix,
};
pub use run::uniq;
