//! The jobs and the copiers, as rows.

ghost use Rattle.std.specs.Prelude.{◌≡◌, ◌≤◌, ◌*◌, ℕ, false, true, None, length, slice_index, slice_index_or};
ghost use Rattle.std.specs.Vec.{vec_capacity, vec_len};
ghost use Rattle.far_word.specs.declared.sizes.TheConstants.{JOBS, LOG_WORDS, MOST_COPIERS};
ghost use Rattle.far_events.specs.state.CopierRows.{EmptyBehind};

mod rows;

use crate::event::Task;
use far_word::{JOBS, LOG_WORDS, MOST_COPIERS};

// The words of all copiers: a row of a log's length for each.
const COPIED: usize = LOG_WORDS as usize * MOST_COPIERS as usize;

/// The words of the jobs, what the book knows of them, and what each copier knows.
#[derive(Drop)]
pub(crate) struct Jobs {
    // Whether copiers may have jobs, for good. Where none may, no room is taken for what they would read and write.
    pub(crate) has_copiers: bool,
    pub(crate) words: [u64; JOBS as usize],
    // The epoch of the round in which each was offered, and whether its pointer was named to its target.
    pub(crate) since: [u64; JOBS as usize],
    pub(crate) named: [bool; JOBS as usize],
    // A copier's job, and the length that it has read.
    pub(crate) tasks: [Option<Task>; MOST_COPIERS as usize],
    pub(crate) lengths: [Option<u16>; MOST_COPIERS as usize],
    // A row for each copier, as far as one has had a job: the words that it has read, and those that it has written. The room for all
    // rows is taken where copiers may have jobs, and nothing is written to it.
    pub(crate) read: Vec<Option<u64>>,
    pub(crate) written: Vec<bool>,
    // How many words of each copier's rows, the first, may have something: so many are emptied for its next job.
    pub(crate) touched: [u16; MOST_COPIERS as usize],
    ghost words_sized: { length words ≡ JOBS },
    ghost since_sized: { length since ≡ JOBS },
    ghost named_sized: { length named ≡ JOBS },
    ghost tasks_sized: { length tasks ≡ MOST_COPIERS },
    ghost lengths_sized: { length lengths ≡ MOST_COPIERS },
    ghost read_within: { vec_len read ≤ LOG_WORDS * MOST_COPIERS },
    ghost tasked: { has_copiers ≡ false → (k : ℕ) → slice_index_or tasks k None ≡ None },
    ghost read_room: { has_copiers ≡ true → LOG_WORDS * MOST_COPIERS ≤ vec_capacity read },
    ghost written_within: { vec_len written ≤ LOG_WORDS * MOST_COPIERS },
    ghost written_room: { has_copiers ≡ true → LOG_WORDS * MOST_COPIERS ≤ vec_capacity written },
    ghost touched_sized: { length touched ≡ MOST_COPIERS },
    ghost touched_within: { (k : ℕ) → slice_index touched k ≤ LOG_WORDS },
    ghost read_behind: { EmptyBehind None touched read.items },
    ghost written_behind: { EmptyBehind false touched written.items },
}
