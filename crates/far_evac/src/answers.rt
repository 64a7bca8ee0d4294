//! What the evacuator's calls answer.

ghost use Rattle.std.specs.Prelude.{◌≡◌, false};
ghost use Rattle.far_evac.specs.Moment.{nothing, progress_of};

use crate::phase::Phase;
use far_word::Refused;
use std::fmt;
use thiserror::Error;

/// What was marked.
#[derive(Clone, Copy, Debug, PartialEq, Eq)]
pub struct Marked {
    /// How many objects got EVAC in this call.
    pub count: u64,
    /// The epoch that was reached, where no live object of the chosen logs lacks EVAC any more.
    pub waiting: Option<u64>,
}

/// What a look at the owners' scopes found.
#[derive(Clone, Copy, Debug, PartialEq, Eq)]
pub enum Polled {
    /// Every owner was seen clear in this round.
    Clear,
    /// This owner was seen open, at this epoch, which is older than the round.
    StillOpen(u8, u64),
}

/// What was done with objects and logs.
#[derive(Clone, Copy, Debug, PartialEq, Eq)]
pub struct Progress {
    /// How many objects went to another log.
    pub moved: u64,
    /// How many went far.
    pub far: u64,
    /// How many had been dropped by their owners, and were retired.
    pub dropped: u64,
    /// How many logs were given back.
    pub freed: u64,
    /// Whether each chosen log was given back, so that the round is over.
    pub done: bool,
}

impl Progress {
    /// Nothing was done, and the round isn't over.
    pub fn nothing() -> Progress
        ensures { result ≡ progress_of nothing false }
    {
        Progress {
            moved: 0,
            far: 0,
            dropped: 0,
            freed: 0,
            done: false,
        }
    }
}

impl fmt::Display for Progress {
    fn fmt<W: fmt::Write>(&self, f: &mut fmt::Formatter<W>) -> fmt::Result {
        write!(
            f,
            "moved {} far {} dropped {} freed {}",
            self.moved, self.far, self.dropped, self.freed
        )
    }
}

/// A refusal, and what the call had done before. If it came at an object, that is as before.
#[derive(Clone, Copy, Debug, PartialEq, Eq, Error)]
#[error("{why}; done before: {so_far}")]
pub struct EvacFault {
    /// What had been done in this call.
    pub so_far: Progress,
    pub why: Refused,
}

/// How a round ends.
#[derive(Clone, Copy, Debug, PartialEq, Eq)]
pub enum RoundEnd {
    /// Each chosen log was given back.
    Done(Progress),
    /// No log was chosen.
    Nothing,
    /// The round isn't over: all turns were made, or, in `run_round_alone`, a scope keeps it waiting. It stands in this phase.
    Limit(Phase),
}
