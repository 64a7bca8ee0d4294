//! The words of a core and what each seat knows of them, as plain data.

ghost use Rattle.std.specs.Prelude.{◌≡◌, ◌*◌, ◌<◌, ◌≤◌};
ghost use Rattle.std.specs.Vec.{vec_len};
ghost use Rattle.far_events.specs.state.Stored.{StoredEnds};
ghost use Rattle.far_word.specs.declared.sizes.TheConstants.{CELLS, LOG_WORDS, MOST_LOGS, MOST_MUTATORS};

mod accesses;
pub(crate) mod bits;
mod book;
mod copies;
mod copying;
pub(crate) mod jobs;
mod offering;
mod opening;
mod owner;
mod placing;
mod quiet;
mod ranges;
pub(crate) mod reading;
mod round;
pub(crate) mod steps;
pub(crate) mod stored;
pub(crate) mod stored_rows;
pub(crate) mod words;
mod writing;

use crate::event::Kind;
use crate::memory::bits::Bits;
use crate::memory::jobs::Jobs;
use crate::memory::stored::Stored;
use crate::memory::words::Words;
pub use book::names_place;
pub use reading::in_use;

/// The words and views. All its memory is taken when it is made.
#[derive(Drop)]
pub struct Memory {
    pub(crate) honest: bool,
    // The shared words.
    pub(crate) epoch: u64,
    pub(crate) scopes: Vec<u64>,
    pub(crate) cells: Vec<u64>,
    pub(crate) words: Words,
    // The owners' views.
    pub(crate) remembered: Vec<Option<u64>>,
    pub(crate) used: Vec<bool>,
    // Which pointers are held, and at which words of the logs.
    pub(crate) held: Bits,
    pub(crate) places: Vec<u16>,
    pub(crate) soiled: Bits,
    // The book's view.
    pub(crate) kinds: Vec<Kind>,
    pub(crate) tails: Vec<u16>,
    pub(crate) current: u8,
    pub(crate) starts: Bits,
    pub(crate) round: Vec<bool>,
    pub(crate) round_epoch: u64,
    pub(crate) clear: Vec<bool>,
    // The words of objects that are far, or near without DIRTY, as they were stored: for clauses alone.
    pub(crate) stored: Stored,
    // The jobs and the copiers.
    pub(crate) jobs: Jobs,
    ghost remembered_sized: { vec_len remembered ≡ vec_len scopes },
    ghost kinds_sized: { vec_len kinds ≡ vec_len tails },
    ghost current_within: { current < vec_len tails },
    ghost few_logs: { vec_len tails ≤ MOST_LOGS },
    ghost few_mutators: { vec_len scopes ≤ MOST_MUTATORS },
    ghost cells_sized: { vec_len cells ≡ CELLS * vec_len scopes },
    ghost words_sized: { vec_len words.bytes ≡ 8 * (LOG_WORDS * vec_len tails) },
    ghost starts_sized: { 64 * vec_len starts.words ≡ LOG_WORDS * vec_len tails },
    ghost used_sized: { vec_len used ≡ CELLS * vec_len scopes },
    ghost held_sized: { 64 * vec_len held.words ≡ CELLS * vec_len scopes },
    ghost places_sized: { vec_len places ≡ CELLS * vec_len scopes },
    ghost soiled_sized: { 64 * vec_len soiled.words ≡ CELLS * vec_len scopes },
    ghost round_sized: { vec_len round ≡ vec_len tails },
    ghost clear_sized: { vec_len clear ≡ vec_len scopes },
    ghost stored_ends: { StoredEnds (CELLS * vec_len scopes) stored.items },
}
