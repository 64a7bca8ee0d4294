//! The events of copiers, and of the book about their jobs.

ghost use Rattle.std.specs.Prelude.{◌≡◌, ◌<◌, ◌*◌, ◌+◌, ◌/◌, ◌==◌, cond, true, false, Some, None, IfErr, IfOk, IfSome, IsSome, is_some};
ghost use Rattle.far_events.specs.declared.event.Event.{Event};
ghost use Rattle.far_events.specs.declared.event.Reply.{Reply};
ghost use Rattle.far_events.specs.events.Claim.{offered_in};
ghost use Rattle.far_events.specs.events.Collect.{is_loose};
ghost use Rattle.far_events.specs.events.Next.{next_state};
ghost use Rattle.far_events.specs.events.Tasks.{all_written};
ghost use Rattle.far_events.specs.state.Jobs.{job_words};
ghost use Rattle.far_word.specs.Header.{head_of};
ghost use Rattle.far_events.specs.events.Step.{answer, is_legal};
ghost use Rattle.far_events.specs.state.Law.{Law};
ghost use Rattle.far_events.specs.state.Memory.{state_of};
ghost use Rattle.far_events.specs.state.State.{State, addr, put};
ghost use Rattle.far_word.specs.Job.{IsJobWord, job_of, job_word};
ghost use Rattle.far_word.specs.declared.sizes.TheConstants.{JOBS, LOG_WORDS, MOST_COPIERS};

use crate::event::Task;
use crate::memory::Memory;
use crate::memory::reading::first_word;
use far_word::{HeadWord, JOBS, Job, JobWord, MOST_COPIERS, words_for};

#[tactic(auto, unfolding(crate::specs::events::Next::next_state))]
impl Memory {
    pub(crate) fn may_claim(&self, copier: u8, job: u8, old: u64) -> bool
        ensures { result ≡ is_legal (state_of self.now) (Event.Claim copier job old) }
    {
        copier < MOST_COPIERS
            && job < JOBS
            && !self.has_task(copier)
            && offered_in(old).is_some()
            && self.has_copiers()
    }

    /// A copier takes an offered job, where its word is `old`; else `Err` with the word.
    pub fn claim(&mut self, copier: u8, job: u8, old: u64) -> Result<(), u64>
        requires { is_legal (state_of self.old) (Event.Claim copier job old) ≡ true }
        ensures state { state_of self.new ≡ next_state (state_of self.old) (Event.Claim copier job old) }
        ensures won { IfOk result (λ _. answer (state_of self.old) (Event.Claim copier job old) ≡ Reply.Done) }
        ensures found { IfErr result (λ word. answer (state_of self.old) (Event.Claim copier job old) ≡ Reply.Word word) }
    {
        let word = self.job(job);
        if word != old {
            return Err(word);
        }
        let Some(JobWord::Offered { job: offered }) = JobWord::read(old) else {
            unreachable!()
        };
        let taken = JobWord::Taken {
            job: offered,
            copier,
        };
        self.set_job(job, taken.pack());
        let task = Task {
            number: job,
            job: offered,
        };
        self.begin_task(copier, task);
        Ok(())
    }

    pub(crate) fn may_read_length(&self, copier: u8) -> bool
        ensures { result ≡ is_legal (state_of self.now) (Event.ReadLength copier) }
    {
        self.task(copier).is_some()
    }

    pub fn read_length(&mut self, copier: u8) -> u64
        requires law { Law (state_of self.old) }
        requires legal { is_legal (state_of self.old) (Event.ReadLength copier) ≡ true }
        ensures state { state_of self.new ≡ next_state (state_of self.old) (Event.ReadLength copier) }
        ensures word { answer (state_of self.old) (Event.ReadLength copier) ≡ Reply.Word result }
    {
        let Some(task) = self.task(copier) else {
            unreachable!()
        };
        let header = self.source_header(copier, task);
        self.learn_length(copier, HeadWord::known(header).len);
        header
    }

    /// The header of a copier's source.
    fn source_header(&self, copier: u8, task: Task) -> u64
        requires law { Law (state_of self.now) }
        requires has { (state_of self.now).copying.task copier ≡ Some task }
        ensures word { result ≡ (state_of self.now).word (addr task.job.from) }
        ensures reads { IsSome (head_of result) }
    {
        self.word(first_word(task.job.from))
    }

    pub(crate) fn may_read(&self, copier: u8, index: u16) -> bool
        requires { Law (state_of self.now) }
        ensures { result ≡ is_legal (state_of self.now) (Event.Read copier index) }
    {
        match self.task(copier) {
            Some(task) => index < self.source_words(copier, task),
            None => false,
        }
    }

    pub(crate) fn read(&mut self, copier: u8, index: u16) -> u64
        requires law { Law (state_of self.old) }
        requires legal { is_legal (state_of self.old) (Event.Read copier index) ≡ true }
        ensures state { state_of self.new ≡ next_state (state_of self.old) (Event.Read copier index) }
        ensures word { answer (state_of self.old) (Event.Read copier index) ≡ Reply.Word result }
    {
        let Some(task) = self.task(copier) else {
            unreachable!()
        };
        let word = self.word(first_word(task.job.from) + 1 + index as usize);
        self.learn_word(copier, index, word);
        word
    }

    pub(crate) fn may_write(&self, copier: u8, index: u16) -> bool
        ensures { result ≡ is_legal (state_of self.now) (Event.Write copier index) }
    {
        self.task(copier).is_some() && self.read_word(copier, index).is_some()
    }

    pub(crate) fn write(&mut self, copier: u8, index: u16)
        requires law { Law (state_of self.old) }
        requires legal { is_legal (state_of self.old) (Event.Write copier index) ≡ true }
        ensures { state_of self.new ≡ next_state (state_of self.old) (Event.Write copier index) }
    {
        let Some(task) = self.task(copier) else {
            unreachable!()
        };
        let Some(word) = self.read_word(copier, index) else {
            unreachable!()
        };
        self.set_word(first_word(task.job.to) + 1 + index as usize, word);
        self.note_written(copier, index);
    }

    /// How many data words a copier's job has.
    fn source_words(&self, copier: u8, task: Task) -> u16
        requires law { Law (state_of self.now) }
        requires has { (state_of self.now).copying.task copier ≡ Some task }
        ensures { result ≡ job_words (state_of self.now).word task.job }
    {
        words_for(HeadWord::known(self.source_header(copier, task)).len)
    }

    pub(crate) fn may_finish(&self, copier: u8) -> bool
        requires { Law (state_of self.now) }
        ensures { result ≡ is_legal (state_of self.now) (Event.Finish copier) }
    {
        match self.task(copier) {
            Some(task) => self.all_written(copier, self.source_words(copier, task)),
            None => false,
        }
    }

    /// Whether the first words of a copier's job are written.
    fn all_written(&self, copier: u8, words: u16) -> bool
        ensures { result ≡ all_written ((state_of self.now).copying.written copier) words }
    {
        for index in 0..words {
            if !self.has_written(copier, index) {
                return false;
            }
        }
        true
    }

    pub fn finish(&mut self, copier: u8)
        requires law { Law (state_of self.old) }
        requires legal { is_legal (state_of self.old) (Event.Finish copier) ≡ true }
        ensures { state_of self.new ≡ next_state (state_of self.old) (Event.Finish copier) }
    {
        let Some(task) = self.task(copier) else {
            unreachable!()
        };
        let finished = JobWord::Finished {
            job: task.job,
            copier,
        };
        self.set_job(task.number, finished.pack());
        self.end_task(copier);
    }

    pub(crate) fn may_collect(&self, job: u8, old: u64) -> bool
        ensures { result ≡ is_legal (state_of self.now) (Event.Collect job old) }
    {
        job < JOBS && is_loose(old)
    }

    /// A finished or offered job is empty from then on, where its word is `old`; else `Err` with the word.
    pub fn collect(&mut self, job: u8, old: u64) -> Result<(), u64>
        requires { is_legal (state_of self.old) (Event.Collect job old) ≡ true }
        ensures state { state_of self.new ≡ next_state (state_of self.old) (Event.Collect job old) }
        ensures won { IfOk result (λ _. answer (state_of self.old) (Event.Collect job old) ≡ Reply.Done) }
        ensures found { IfErr result (λ word. answer (state_of self.old) (Event.Collect job old) ≡ Reply.Word word) }
    {
        let word = self.job(job);
        if word != old {
            return Err(word);
        }
        self.set_job(job, 0);
        Ok(())
    }
}

#[tactic(auto, unfolding(crate::specs::state::Memory::state_of))]
impl Memory {
    pub fn has_copiers(&self) -> bool
        ensures { result ≡ (state_of self.now).copying.has_copiers }
    {
        self.jobs.has_copiers()
    }

    fn has_task(&self, copier: u8) -> bool
        requires { copier < MOST_COPIERS }
        ensures { result ≡ is_some ((state_of self.now).copying.task copier) }
    {
        self.jobs.has_task(copier)
    }

    fn task(&self, copier: u8) -> Option<Task>
        ensures is { result ≡ (state_of self.now).copying.task copier }
        ensures has { IfSome result (λ _. (state_of self.now).copying.has_copiers ≡ true) }
    {
        self.jobs.task(copier)
    }

    fn has_written(&self, copier: u8, index: u16) -> bool
        ensures { result ≡ (state_of self.now).copying.written copier index }
    {
        self.jobs.has_written(copier, index)
    }

    fn read_word(&self, copier: u8, index: u16) -> Option<u64>
        ensures { result ≡ (state_of self.now).copying.read copier index }
    {
        self.jobs.read_word(copier, index)
    }

    fn learn_word(&mut self, copier: u8, index: u16, word: u64)
        requires copier { copier < MOST_COPIERS }
        requires index { index < LOG_WORDS }
        requires has { (state_of self.old).copying.has_copiers ≡ true }
        ensures { state_of self.new ≡ record (state_of self.old) { copying = record (state_of self.old).copying { read = put (state_of self.old).copying.read copier (put ((state_of self.old).copying.read copier) index (Some word)) } } }
    {
        self.jobs.reach(copier);
        self.jobs.set_read(copier, index, Some(word));
    }

    fn note_written(&mut self, copier: u8, index: u16)
        requires copier { copier < MOST_COPIERS }
        requires index { index < LOG_WORDS }
        requires has { (state_of self.old).copying.has_copiers ≡ true }
        ensures { state_of self.new ≡ record (state_of self.old) { copying = record (state_of self.old).copying { written = put (state_of self.old).copying.written copier (put ((state_of self.old).copying.written copier) index true) } } }
    {
        self.jobs.reach(copier);
        self.jobs.set_written(copier, index);
    }

    fn learn_length(&mut self, copier: u8, length: u16)
        requires { copier < MOST_COPIERS }
        ensures { state_of self.new ≡ record (state_of self.old) { copying = record (state_of self.old).copying { length = put (state_of self.old).copying.length copier (Some length) } } }
    {
        self.jobs.set_length(copier, Some(length));
    }

    fn end_task(&mut self, copier: u8)
        requires { copier < MOST_COPIERS }
        ensures { state_of self.new ≡ record (state_of self.old) { copying = record (state_of self.old).copying { task = put (state_of self.old).copying.task copier None } } }
    {
        self.jobs.set_task(copier, None);
    }

    fn set_job(&mut self, job: u8, word: u64)
        requires { job < JOBS }
        ensures { state_of self.new ≡ record (state_of self.old) { copying = record (state_of self.old).copying { word = put (state_of self.old).copying.word job word } } }
    {
        self.jobs.set_word(job, word);
    }

    /// A copier has a job, of which it has read and written nothing.
    fn begin_task(&mut self, copier: u8, task: Task)
        requires copier { copier < MOST_COPIERS }
        requires has { (state_of self.old).copying.has_copiers ≡ true }
        ensures { state_of self.new ≡ record (state_of self.old) {
          copying = record (state_of self.old).copying {
            task = put (state_of self.old).copying.task copier (Some task);
            length = put (state_of self.old).copying.length copier None;
            read = put (state_of self.old).copying.read copier (λ _. None);
            written = put (state_of self.old).copying.written copier (λ _. false);
          };
        } }
    {
        self.jobs.set_task(copier, Some(task));
        self.jobs.set_length(copier, None);
        self.jobs.reach(copier);
        self.jobs.forget_words(copier);
    }
}

/// The job that a word offers.
fn offered_in(word: u64) -> Option<Job>
    ensures { result ≡ offered_in (job_of word) }
{
    match JobWord::read(word) {
        Some(JobWord::Offered { job }) => Some(job),
        None | Some(JobWord::Empty | JobWord::Taken { .. } | JobWord::Finished { .. }) => None,
    }
}

/// Whether a word is of a job that no copier has.
fn is_loose(word: u64) -> bool
    ensures { result ≡ is_loose (job_of word) }
{
    match JobWord::read(word) {
        Some(JobWord::Offered { .. } | JobWord::Finished { .. }) => true,
        None | Some(JobWord::Empty | JobWord::Taken { .. }) => false,
    }
}
