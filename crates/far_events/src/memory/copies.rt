//! Whether the words of an object stand at a new span.

ghost use Rattle.std.specs.Prelude.{◌≡◌, ◌*◌, ◌+◌, ◌<◌, ◌≤◌, ℕ, IsSome};
ghost use Rattle.far_events.specs.events.Copied.{copied_job, has_copied, is_place, says_copied};
ghost use Rattle.far_events.specs.events.Copies.{alike, data_at, ends_padded};
ghost use Rattle.far_events.specs.events.NewSpans.{is_new_span};
ghost use Rattle.far_events.specs.events.Naming.{no_marks, naming_row};
ghost use Rattle.far_events.specs.events.namings.Fetches.{is_stored_at, words_stored};
ghost use Rattle.far_events.specs.events.namings.Moves.{may_move};
ghost use Rattle.far_events.specs.declared.naming.Naming.{Naming};
ghost use Rattle.far_events.specs.state.Law.{Law};
ghost use Rattle.far_events.specs.state.Memory.{state_of};
ghost use Rattle.far_events.specs.state.State.{State};
ghost use Rattle.far_events.specs.state.StoredRows.{stored_in};
ghost use Rattle.far_word.specs.Job.{job_of};
ghost use Rattle.far_word.specs.Pointer.{IsPtr, read_of};
ghost use Rattle.far_word.specs.Sizes.{words_for};
ghost use Rattle.far_word.specs.declared.sizes.TheConstants.{CELLS, LOG_WORDS};

use crate::memory::Memory;
use crate::memory::book::names_place;
use crate::memory::owner::keeps_padding;
use crate::memory::reading::first_word;
use crate::memory::stored_rows::StoredRows;
use far_word::{JOBS, JobWord, Place, PtrWord, words_for};

impl Memory {
    /// Whether a near object may move.
    pub(crate) fn may_move(&self, pointer: u16, len: u16, ds: u8, from: Place, to: Place) -> bool
        requires from { IsPtr (PtrWord.Near len ds from no_marks) }
        requires to { IsPtr (PtrWord.Near len ds to no_marks) }
        requires pointer { pointer < CELLS * (state_of self.now).mutators }
        requires law { Law (state_of self.now) }
        ensures { (new : ℕ) → result ≡ (naming_row (state_of self.now) pointer new (Naming.Moves len ds from to)).test }
    {
        self.may_take(pointer, len, ds, from, to) || self.copied_job(pointer, from, to).is_some()
    }

    /// Whether a near object may move to a new span.
    fn may_take(&self, pointer: u16, len: u16, ds: u8, from: Place, to: Place) -> bool
        requires from { IsPtr (PtrWord.Near len ds from no_marks) }
        requires to { IsPtr (PtrWord.Near len ds to no_marks) }
        requires pointer { pointer < CELLS * (state_of self.now).mutators }
        requires law { Law (state_of self.now) }
        ensures { result ≡ may_move (state_of self.now) pointer len ds from to }
    {
        self.is_new_span(pointer, len, ds, to)
            && self.ends_padded(len, to)
            && self.is_quiet(pointer)
            && self.has_log(from.log)
            && self.has_copy(first_word(to) + 1, first_word(from) + 1, words_for(len))
    }

    /// The job that has copied an object from where it lies still to a place, and isn't void.
    pub(crate) fn copied_job(&self, pointer: u16, from: Place, to: Place) -> Option<u8>
        requires pointer { pointer < CELLS * (state_of self.now).mutators }
        requires law { Law (state_of self.now) }
        ensures { result ≡ copied_job (state_of self.now) pointer from to }
    {
        if !names_place(self.cell(pointer), from.log, from.at) {
            return None;
        }
        let mut found = None;
        for job in 0..JOBS {
            if self.has_copied(pointer, from, to, job) {
                found = Some(job);
            }
        }
        found
    }

    /// Whether a job has copied an object from a place to another, in the round that lasts, and the first one's log is in it.
    fn has_copied(&self, pointer: u16, from: Place, to: Place, job: u8) -> bool
        ensures { result ≡ has_copied (state_of self.now) pointer from to job }
    {
        says_copied(pointer, from, to, self.job(job))
            && self.job_since(job) == self.round_epoch()
            && self.is_in_round(from.log)
    }

    #[tactic(auto, unfolding(crate::specs::state::Memory::state_of))]
    fn job_since(&self, job: u8) -> u64
        ensures { result ≡ (state_of self.now).copying.since job }
    {
        self.jobs.since(job)
    }

    /// Whether a far object may come near.
    pub(crate) fn may_fetch(
        &self,
        rows: &StoredRows,
        pointer: u16,
        len: u16,
        ds: u8,
        place: Place,
    ) -> bool
        requires rows { stored_in rows.now ≡ (state_of self.now).stored }
        requires layout { IsPtr (PtrWord.Near len ds place no_marks) }
        requires pointer { pointer < CELLS * (state_of self.now).mutators }
        requires law { Law (state_of self.now) }
        ensures { (new : ℕ) → result ≡ (naming_row (state_of self.now) pointer new (Naming.Fetches len ds place)).test }
    {
        self.is_new_span(pointer, len, ds, place)
            && self.ends_padded(len, place)
            && (!self.is_honest() || self.is_stored_at(rows, pointer, len, place))
    }

    /// Whether the last data word at a place has zeros after the last byte.
    fn ends_padded(&self, len: u16, place: Place) -> bool
        requires some { 0 < len }
        requires inside { place.at + words_for len < LOG_WORDS }
        requires log { place.log < (state_of self.now).logs }
        ensures { result ≡ ends_padded (state_of self.now).word len place }
    {
        let last = words_for(len) - 1;
        keeps_padding(len, last, self.word(first_word(place) + 1 + last as usize))
    }

    /// Whether as many words are stored of a pointer, and they stand at a place.
    fn is_stored_at(&self, rows: &StoredRows, pointer: u16, len: u16, place: Place) -> bool
        requires rows { stored_in rows.now ≡ (state_of self.now).stored }
        requires law { Law (state_of self.now) }
        requires inside { place.at + words_for len < LOG_WORDS }
        requires log { place.log < (state_of self.now).logs }
        ensures { result ≡ is_stored_at (state_of self.now) pointer len place }
    {
        words_stored(self.cell(pointer)) == words_for(len)
            && self.has_stored(rows, pointer, first_word(place) + 1, words_for(len))
    }

    /// Whether `count` words from `at` on are those from `from` on.
    #[tactic(auto, unfolding(crate::specs::state::Memory::state_of))]
    fn has_copy(&self, at: usize, from: usize, count: u16) -> bool
        requires at { at + count ≤ LOG_WORDS * (state_of self.now).logs }
        requires from { from + count ≤ LOG_WORDS * (state_of self.now).logs }
        ensures { result ≡ alike (λ i. (state_of self.now).word (at + i)) (λ i. (state_of self.now).word (from + i)) count }
    {
        for k in 0..count {
            if self.word(at + k as usize) != self.word(from + k as usize) {
                return false;
            }
        }
        true
    }

    /// Whether `count` words from `at` on are those stored of a pointer.
    #[tactic(auto, unfolding(crate::specs::state::Memory::state_of))]
    fn has_stored(&self, rows: &StoredRows, pointer: u16, at: usize, count: u16) -> bool
        requires rows { stored_in rows.now ≡ (state_of self.now).stored }
        requires at { at + count ≤ LOG_WORDS * (state_of self.now).logs }
        requires count { count ≤ LOG_WORDS }
        ensures { result ≡ alike (λ i. (state_of self.now).word (at + i)) ((state_of self.now).stored pointer) count }
    {
        for k in 0..count {
            let stored = rows.word(pointer, k);
            if self.word(at + k as usize) != stored {
                return false;
            }
        }
        true
    }
}

/// Whether a job's word says that an object was copied from a place to another.
fn says_copied(pointer: u16, from: Place, to: Place, word: u64) -> bool
    ensures { result ≡ says_copied pointer from to (job_of word) }
{
    match JobWord::read(word) {
        Some(JobWord::Finished { job, .. }) => {
            job.pointer == pointer && is_place(job.from, from) && is_place(job.to, to)
        }
        None | Some(JobWord::Empty | JobWord::Offered { .. } | JobWord::Taken { .. }) => false,
    }
}

/// Whether two places are one.
fn is_place(one: Place, other: Place) -> bool
    ensures { result ≡ is_place one other }
{
    one.log == other.log && one.at == other.at
}

/// How many words are stored of what a cell names: those of a far object.
fn words_stored(cell: u64) -> u16
    requires { IsSome (read_of cell) }
    ensures { result ≡ words_stored (read_of cell) }
{
    match PtrWord::known(cell) {
        PtrWord::Far { len, .. } => words_for(len),
        PtrWord::Free | PtrWord::Near { .. } => 0,
    }
}
