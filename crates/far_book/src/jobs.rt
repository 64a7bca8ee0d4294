//! What the book has written down of the jobs that it offers to copiers.

ghost use Rattle.std.specs.Prelude.{◌≡◌, ◌<◌, ◌==◌, ℕ, true, false, Some, None, IsSome, length, MatchOption};
ghost use Rattle.far_word.specs.declared.sizes.TheConstants.{JOBS};
ghost use Rattle.far_word.specs.Pointer.{read_of};
ghost use Rattle.far_book.specs.book.Jobs.{EndsJobs, WritesJob, copies_at, copies_from, lies_in, noted_at};
ghost use Rattle.far_book.specs.book.NumberSet.{has};

use crate::number_set::NumberSet;
use far_word::{JOBS, Job, Place, PtrWord};

/// What is written down of a job that isn't empty.
#[derive(Clone, Copy)]
pub(crate) struct Noted {
    /// Whose object is copied, from where to where.
    pub(crate) job: Job,
    /// Whether the round of the offer lasts, and the source's log is in it still.
    pub(crate) good: bool,
}

/// What is written down of all jobs.
#[derive(Drop)]
pub(crate) struct Jobs {
    pub(crate) noted: [Option<Noted>; JOBS as usize],
    /// The jobs that aren't empty.
    pub(crate) waiting: NumberSet,
}

impl Jobs {
    /// All jobs are empty.
    pub(crate) fn new() -> Jobs
        ensures sized { length result.noted ≡ JOBS }
        ensures noted { (j : ℕ) → noted_at result j ≡ None }
        ensures waiting { (j : ℕ) → j < 64 → has result.waiting j ≡ false }
    {
        Jobs {
            noted: [None; JOBS as usize],
            waiting: NumberSet::below(0),
        }
    }

    /// What is written down of a job; `None` where it is empty.
    pub(crate) fn noted(&self, job: u8) -> Option<Noted>
        requires range { job < JOBS }
        requires sized { length self.now.noted ≡ JOBS }
        ensures { result ≡ noted_at self.now job }
    {
        self.noted[job as usize]
    }

    /// The lowest empty job.
    pub(crate) fn lowest_empty(&self) -> Option<u8>
        ensures { MatchOption result ((j : ℕ) → j < JOBS → has self.now.waiting j ≡ true) (λ job. (job < JOBS) × (has self.now.waiting job ≡ false) × ((j : ℕ) → j < job → has self.now.waiting j ≡ true)) }
    {
        for job in 0..JOBS {
            if !self.waiting.has(job) {
                return Some(job);
            }
        }
        None
    }

    /// A job is offered, in the round that lasts.
    pub(crate) fn offer(&mut self, job: u8, offered: Job)
        requires range { job < JOBS }
        requires sized { length self.old.noted ≡ JOBS }
        ensures { WritesJob self.old self.new job (Some record { job = offered; good = true }) }
    {
        self.noted[job as usize] = Some(Noted {
            job: offered,
            good: true,
        });
        self.waiting.insert(job);
    }

    /// A job is empty.
    pub(crate) fn empty(&mut self, job: u8)
        requires range { job < JOBS }
        requires sized { length self.old.noted ≡ JOBS }
        ensures { WritesJob self.old self.new job None }
    {
        self.noted[job as usize] = None;
        self.waiting.remove(job);
    }

    /// Whether a job that isn't empty copies from a log or to it.
    pub(crate) fn copies_at(&self, log: u8) -> bool
        requires sized { length self.now.noted ≡ JOBS }
        requires waiting { (j : ℕ) → j < JOBS → has self.now.waiting j ≡ false → noted_at self.now j ≡ None }
        ensures some { result ≡ true → (j : ℕ) × (j < JOBS) × (copies_at log (noted_at self.now j) ≡ true) }
        ensures none { result ≡ false → (j : ℕ) → j < JOBS → copies_at log (noted_at self.now j) ≡ false }
    {
        if self.waiting.is_empty() {
            return false;
        }
        for job in 0..JOBS {
            if let Some(noted) = self.noted(job) {
                if noted.job.from.log == log || noted.job.to.log == log {
                    return true;
                }
            }
        }
        false
    }

    /// Whether a good job copies a pointer's object from a place.
    pub(crate) fn copies_from(&self, pointer: u16, at: Place) -> bool
        requires sized { length self.now.noted ≡ JOBS }
        requires waiting { (j : ℕ) → j < JOBS → has self.now.waiting j ≡ false → noted_at self.now j ≡ None }
        ensures some { result ≡ true → (j : ℕ) × (j < JOBS) × (copies_from pointer at (noted_at self.now j) ≡ true) }
        ensures none { result ≡ false → (j : ℕ) → j < JOBS → copies_from pointer at (noted_at self.now j) ≡ false }
    {
        if self.waiting.is_empty() {
            return false;
        }
        for job in 0..JOBS {
            if let Some(noted) = self.noted(job) {
                if noted.copies_from(pointer, at) {
                    return true;
                }
            }
        }
        false
    }

    /// The log that a cell's object lies in leaves the round: the jobs that copy from it aren't good from then on.
    #[inline]
    pub(crate) fn leave_round(&mut self, cell: u64)
        requires cell { IsSome (read_of cell) }
        requires sized { length self.old.noted ≡ JOBS }
        requires waiting { (j : ℕ) → j < JOBS → has self.old.waiting j ≡ false → noted_at self.old j ≡ None }
        ensures { EndsJobs (lies_in (read_of cell)) self.old self.new }
    {
        if self.waiting.is_empty() {
            return;
        }
        if let PtrWord::Near { place, .. } = PtrWord::known(cell) {
            self.end_from(place.log);
        }
    }

    // No job that copies from this log is good from then on.
    fn end_from(&mut self, log: u8)
        requires sized { length self.old.noted ≡ JOBS }
        ensures { EndsJobs (λ job. job.from.log == log) self.old self.new }
    {
        for job in 0..JOBS {
            if let Some(noted) = self.noted(job) {
                if noted.job.from.log == log {
                    self.noted[job as usize] = Some(Noted {
                        good: false,
                        ..noted
                    });
                }
            }
        }
    }

    /// Another round begins: no job is good from then on.
    #[inline]
    pub(crate) fn end_round(&mut self)
        requires sized { length self.old.noted ≡ JOBS }
        requires waiting { (j : ℕ) → j < JOBS → has self.old.waiting j ≡ false → noted_at self.old j ≡ None }
        ensures { EndsJobs (λ _. true) self.old self.new }
    {
        if self.waiting.is_empty() {
            return;
        }
        for job in 0..JOBS {
            if let Some(noted) = self.noted(job) {
                self.noted[job as usize] = Some(Noted {
                    good: false,
                    ..noted
                });
            }
        }
    }
}

impl Noted {
    /// Whether it is a good job that copies a pointer's object from a place.
    fn copies_from(self, pointer: u16, at: Place) -> bool
        ensures { result ≡ copies_from pointer at (Some self) }
    {
        let from = self.job.from;
        self.good && self.job.pointer == pointer && from.log == at.log && from.at == at.at
    }
}
