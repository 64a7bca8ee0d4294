//! One place of the jobs' rows read or written.

ghost use Rattle.std.specs.Prelude.{◌≡◌, ◌+◌, ◌*◌, ◌<◌, ◌≤◌, true, false, Some, None, IfOk, IfSome, is_some, slice_index};
ghost use Rattle.std.specs.Vec.{vec_len};
ghost use Rattle.far_events.specs.state.Memory.{copying_of};
ghost use Rattle.far_events.specs.state.Opening.{no_copying};
ghost use Rattle.far_events.specs.state.State.{Copying, put};
ghost use Rattle.far_word.specs.declared.sizes.TheConstants.{JOBS, LOG_WORDS, MOST_COPIERS};

use crate::event::Task;
use crate::memory::jobs::{COPIED, Jobs};
use far_word::{JOBS, LOG_WORDS, MOST_COPIERS};
use std::alloc::{AllocError, Global};

#[tactic(auto, unfolding(crate::specs::state::Memory::copying_of))]
impl Jobs {
    /// No job, and no copier has one. Where none may, no memory is taken.
    pub(crate) fn new(alloc: Global, has_copiers: bool) -> Result<Jobs, AllocError>
        ensures { IfOk result (λ jobs. copying_of jobs ≡ record no_copying { has_copiers = has_copiers }) }
    {
        let room = if has_copiers { COPIED } else { 0 };
        Ok(Jobs {
            has_copiers,
            words: [0; JOBS as usize],
            since: [0; JOBS as usize],
            named: [false; JOBS as usize],
            tasks: [None; MOST_COPIERS as usize],
            lengths: [None; MOST_COPIERS as usize],
            read: Vec::with_capacity(alloc, room)?,
            written: Vec::with_capacity(alloc, room)?,
            touched: [0; MOST_COPIERS as usize],
        })
    }

    /// Whether copiers may have jobs.
    pub(crate) fn has_copiers(&self) -> bool
        ensures { result ≡ (copying_of self.now).has_copiers }
    {
        self.has_copiers
    }

    pub(crate) fn word(&self, job: u8) -> u64
        ensures { result ≡ (copying_of self.now).word job }
    {
        self.words.get(job as usize).copied().unwrap_or(0)
    }

    pub(crate) fn set_word(&mut self, job: u8, word: u64)
        requires { job < JOBS }
        ensures { copying_of self.new ≡ record (copying_of self.old) { word = put (copying_of self.old).word job word } }
    {
        self.words[job as usize] = word;
    }

    /// The epoch of the round in which the job was offered.
    pub(crate) fn since(&self, job: u8) -> u64
        ensures { result ≡ (copying_of self.now).since job }
    {
        self.since.get(job as usize).copied().unwrap_or(0)
    }

    pub(crate) fn set_since(&mut self, job: u8, epoch: u64)
        requires { job < JOBS }
        ensures { copying_of self.new ≡ record (copying_of self.old) { since = put (copying_of self.old).since job epoch } }
    {
        self.since[job as usize] = epoch;
    }

    /// Whether the job's pointer is named to its target.
    pub(crate) fn set_named(&mut self, job: u8, named: bool)
        requires { job < JOBS }
        ensures { copying_of self.new ≡ record (copying_of self.old) { named = put (copying_of self.old).named job named } }
    {
        self.named[job as usize] = named;
    }

    pub(crate) fn has_task(&self, copier: u8) -> bool
        requires { copier < MOST_COPIERS }
        ensures { result ≡ is_some ((copying_of self.now).task copier) }
    {
        self.tasks[copier as usize].is_some()
    }

    pub(crate) fn task(&self, copier: u8) -> Option<Task>
        ensures is { result ≡ (copying_of self.now).task copier }
        ensures has { IfSome result (λ _. (copying_of self.now).has_copiers ≡ true) }
    {
        self.tasks.get(copier as usize).copied().flatten()
    }

    pub(crate) fn has_written(&self, copier: u8, index: u16) -> bool
        ensures { result ≡ (copying_of self.now).written copier index }
    {
        index < LOG_WORDS
            && self
                .written
                .get(copier as usize * LOG_WORDS as usize + index as usize)
                .copied()
                .unwrap_or(false)
    }

    pub(crate) fn read_word(&self, copier: u8, index: u16) -> Option<u64>
        ensures { result ≡ (copying_of self.now).read copier index }
    {
        if index >= LOG_WORDS {
            return None;
        }
        self.read
            .get(copier as usize * LOG_WORDS as usize + index as usize)
            .copied()
            .flatten()
    }

    /// The rows of words reach as far as a copier's, where nothing was written yet.
    pub(crate) fn reach(&mut self, copier: u8)
        requires copier { copier < MOST_COPIERS }
        requires has { (copying_of self.old).has_copiers ≡ true }
        ensures state { copying_of self.new ≡ copying_of self.old }
        ensures read { copier * LOG_WORDS + LOG_WORDS ≤ vec_len self.new.read }
        ensures written { copier * LOG_WORDS + LOG_WORDS ≤ vec_len self.new.written }
    {
        self.reach_read(copier);
        self.reach_written(copier);
    }

    fn reach_read(&mut self, copier: u8)
        requires copier { copier < MOST_COPIERS }
        requires has { (copying_of self.old).has_copiers ≡ true }
        ensures state { copying_of self.new ≡ copying_of self.old }
        ensures read { copier * LOG_WORDS + LOG_WORDS ≤ vec_len self.new.read }
    {
        let end = copier as usize * LOG_WORDS as usize + LOG_WORDS as usize;
        if self.read.len() < end {
            self.read.resize(end, None).unwrap();
        }
    }

    fn reach_written(&mut self, copier: u8)
        requires copier { copier < MOST_COPIERS }
        requires has { (copying_of self.old).has_copiers ≡ true }
        ensures state { copying_of self.new ≡ copying_of self.old }
        ensures written { copier * LOG_WORDS + LOG_WORDS ≤ vec_len self.new.written }
        ensures read { vec_len self.new.read ≡ vec_len self.old.read }
    {
        let end = copier as usize * LOG_WORDS as usize + LOG_WORDS as usize;
        if self.written.len() < end {
            self.written.resize(end, false).unwrap();
        }
    }

    /// How many words of a copier's rows, the first, may have something.
    fn touched_by(&self, copier: u8) -> u16
        requires { copier < MOST_COPIERS }
        ensures { result ≡ slice_index self.now.touched copier }
    {
        self.touched[copier as usize]
    }

    /// A copier's rows may have something up to a word.
    fn touch(&mut self, copier: u8, index: u16)
        requires copier { copier < MOST_COPIERS }
        requires index { index < LOG_WORDS }
        ensures state { copying_of self.new ≡ copying_of self.old }
        ensures touched { index < slice_index self.new.touched copier }
        ensures read { vec_len self.new.read ≡ vec_len self.old.read }
        ensures written { vec_len self.new.written ≡ vec_len self.old.written }
    {
        if self.touched_by(copier) <= index {
            self.touched[copier as usize] = index + 1;
        }
    }

    pub(crate) fn set_read(&mut self, copier: u8, index: u16, word: Option<u64>)
        requires copier { copier < MOST_COPIERS }
        requires reached { copier * LOG_WORDS + LOG_WORDS ≤ vec_len self.old.read }
        requires index { index < LOG_WORDS }
        ensures { copying_of self.new ≡ record (copying_of self.old) { read = put (copying_of self.old).read copier (put ((copying_of self.old).read copier) index word) } }
    {
        self.touch(copier, index);
        self.read[copier as usize * LOG_WORDS as usize + index as usize] = word;
    }

    pub(crate) fn set_written(&mut self, copier: u8, index: u16)
        requires copier { copier < MOST_COPIERS }
        requires reached { copier * LOG_WORDS + LOG_WORDS ≤ vec_len self.old.written }
        requires index { index < LOG_WORDS }
        ensures { copying_of self.new ≡ record (copying_of self.old) { written = put (copying_of self.old).written copier (put ((copying_of self.old).written copier) index true) } }
    {
        self.touch(copier, index);
        self.written[copier as usize * LOG_WORDS as usize + index as usize] = true;
    }

    pub(crate) fn set_task(&mut self, copier: u8, task: Option<Task>)
        requires copier { copier < MOST_COPIERS }
        requires has { IfSome task (λ _. (copying_of self.old).has_copiers ≡ true) }
        ensures { copying_of self.new ≡ record (copying_of self.old) { task = put (copying_of self.old).task copier task } }
    {
        self.tasks[copier as usize] = task;
    }

    pub(crate) fn set_length(&mut self, copier: u8, length: Option<u16>)
        requires { copier < MOST_COPIERS }
        ensures { copying_of self.new ≡ record (copying_of self.old) { length = put (copying_of self.old).length copier length } }
    {
        self.lengths[copier as usize] = length;
    }

    /// A copier has read and written nothing.
    pub(crate) fn forget_words(&mut self, copier: u8)
        requires copier { copier < MOST_COPIERS }
        requires read { copier * LOG_WORDS + LOG_WORDS ≤ vec_len self.old.read }
        requires written { copier * LOG_WORDS + LOG_WORDS ≤ vec_len self.old.written }
        ensures { copying_of self.new ≡ record (copying_of self.old) { read = put (copying_of self.old).read copier (λ _. None); written = put (copying_of self.old).written copier (λ _. false) } }
    {
        let from = copier as usize * LOG_WORDS as usize;
        let end = from + self.touched_by(copier) as usize;
        self.read[from..end].fill(None);
        self.written[from..end].fill(false);
        self.touched[copier as usize] = 0;
    }
}
