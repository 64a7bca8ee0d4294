//! The words of a far memory heap: a pointer cell, an object's header, a mutator's scope, a job of copying.
//!
//! This crate alone knows where a bit stands, but for job words (far_table). It takes no memory.
#![tactic(auto)]

mod bytes;
mod field;
mod header;
mod job;
mod laws;
mod mark;
mod pointer;
mod refused;
mod scope;
mod sizes;
mod version;

pub use bytes::{last_word, pack_bytes, unpack_bytes};
pub use header::{HeadWord, HeadWordV1};
pub use job::{Job, JobWord};
pub use laws::{
    header_is, header_words, job_words, packed_bytes, pointer_marks, pointer_words,
    refusal_numbers, scope_words, sizes_are, words_are,
};
pub use mark::{Mark, Marks};
pub use pointer::{
    Place, PtrWord, object_counts, pointer_len, resting_place, rests_view, without_owner_marks,
};
pub use refused::Refused;
pub use scope::ScopeWord;
pub use sizes::{
    CELLS, EPOCH_END, JOBS, LAST_AT, LEAST_LOGS, LEAST_MUTATORS, LOG_BYTES, LOG_WORDS, LONGEST,
    MOST_COPIERS, MOST_LOGS, MOST_MUTATORS, POINTERS, size_of, words_for,
};
pub use version::Version;
