//! How a run ends.

use far_word::Refused;
use std::io;

/// Why a run ended.
#[derive(Debug, Drop)]
pub enum Why {
    /// The input did.
    Done,
    /// The line with this number, counted from 0, was refused; [`Refused::Length`]: it is longer than a line may be.
    Refused(Refused),
    /// The input can't be read.
    Input(io::Error),
    /// The output can't be written. It may have a part of what was to be written.
    Output(io::Error),
    /// 2^64 - 1 lines came, or as many pieces were read.
    TooMany,
}

/// How many lines came and were done, and why no more.
#[derive(Debug, Drop)]
pub struct End {
    pub lines: u64,
    pub why: Why,
}
