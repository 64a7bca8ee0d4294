//! A hand beside which owners and copiers are at work.

ghost use Rattle.std.specs.Prelude.{◌≡◌, ◌*◌};
ghost use Rattle.std.specs.Vec.{vec_len};
ghost use Rattle.far_word.specs.declared.sizes.TheConstants.{CELLS, LOG_WORDS};
ghost use Rattle.far_core.specs.state.CoreState.{core_state};
ghost use Rattle.far_hand.specs.Masked.{AllFind, AllFindJobs, CountsOnRest, word_at, is_counted};

mod hand;
mod laws;
mod opening;
pub(crate) mod rows;
mod turning;

use far_core::{Core, Event};
use far_word::JOBS;

/// A core as the hand of a book beside which owners and copiers are at work: before each call of the book they make the
/// next event of a list. Its view has only what a seat at shared words could know.
#[derive(Drop)]
pub struct Beset {
    pub core: Core,
    /// Each cell's word as the book last found or left it, by pointer.
    pub found: Vec<u64>,
    /// Each job's word as the book last found or left it, by the job's number.
    pub jobs: [u64; JOBS as usize],
    /// Whether the book may count on a word of the logs, beside headers, by address: 512 times the log's number, and the word's number in the log.
    pub counted: Vec<bool>,
    /// A list of events. Each has its turn in order: an owner's or a copier's is made then, if it is legal.
    pub events: Vec<Event>,
    /// How many of these events had their turn.
    pub made: usize,
    ghost found_sized: { vec_len found ≡ CELLS * (core_state core).mutators },
    ghost counted_sized: { vec_len counted ≡ LOG_WORDS * (core_state core).logs },
    ghost finds: { AllFind (word_at found.items) (core_state core).cell },
    ghost finds_jobs: { AllFindJobs (word_at jobs) (core_state core).copying.word },
    ghost counts: { CountsOnRest (core_state core) (word_at found.items) (is_counted counted.items) },
}
