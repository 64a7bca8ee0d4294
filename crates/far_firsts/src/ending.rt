//! How a count ends.

use far_word::Refused;
use std::io;

/// How it ended.
#[derive(Debug, Drop)]
pub enum Ending {
    /// Each line is printed.
    Done,
    /// The line of the input with this number, counted from 0, was refused, and nothing is printed; [`Refused::Length`]: it is longer than a
    /// line may be.
    Refused(Refused),
    /// The input can't be read, and nothing is printed.
    Input(io::Error),
    /// 2^64 - 1 lines came, or as many pieces were read; nothing is printed.
    TooMany,
    /// So many lines are printed with their counts, and the next one wasn't read back.
    Lost(u64, Refused),
    /// The output can't be written. It may have a part of what was to be written.
    Output(io::Error),
}

/// How many lines came and were counted, and how it ended.
#[derive(Debug, Drop)]
pub struct Counted {
    pub lines: u64,
    pub ending: Ending,
}
