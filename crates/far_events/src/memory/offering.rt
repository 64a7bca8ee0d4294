//! The event by which the book offers a copy.

ghost use Rattle.std.specs.Prelude.{◌≡◌, ◌+◌, ◌*◌, ◌<◌, ◌≤◌, true, false};
ghost use Rattle.far_events.specs.declared.event.Event.{Event};
ghost use Rattle.far_events.specs.events.Next.{next_state};
ghost use Rattle.far_events.specs.events.Offer.{ends_blank, is_clear_near, is_within, may_offer, takes_copy, with_job};
ghost use Rattle.far_events.specs.events.Step.{is_legal};
ghost use Rattle.far_events.specs.state.Law.{Law};
ghost use Rattle.far_events.specs.state.Memory.{state_of};
ghost use Rattle.far_events.specs.state.State.{State, put};
ghost use Rattle.far_word.specs.Job.{IsJob};
ghost use Rattle.far_word.specs.Pointer.{read_of};
ghost use Rattle.far_word.specs.Sizes.{size_of, words_for};
ghost use Rattle.far_word.specs.declared.sizes.TheConstants.{CELLS, JOBS, LOG_WORDS, LONGEST};

use crate::memory::Memory;
use crate::memory::reading::first_word;
use far_word::{CELLS, JOBS, Job, JobWord, LOG_WORDS, Marks, Place, PtrWord, size_of, words_for};

#[tactic(auto, unfolding(crate::specs::events::Next::next_state))]
impl Memory {
    pub fn may_offer(&self, job: u8, pointer: u16, to: Place) -> bool
        requires { Law (state_of self.now) }
        ensures { result ≡ is_legal (state_of self.now) (Event.Offer job pointer to) }
    {
        job < JOBS && self.has_pointer(pointer) && self.job(job) == 0 && self.may_copy(pointer, to)
    }

    /// Whether an object may be copied to a place: it is quiet by the round, and a span for its copy may be taken there.
    fn may_copy(&self, pointer: u16, to: Place) -> bool
        requires pointer { pointer < CELLS * (state_of self.now).mutators }
        requires law { Law (state_of self.now) }
        ensures { result ≡ may_offer (state_of self.now) pointer to (read_of ((state_of self.now).cell pointer)) }
    {
        match PtrWord::known(self.cell(pointer)) {
            PtrWord::Near {
                len,
                ds,
                place,
                marks,
            } => {
                self.is_clear_near(pointer, place, marks) && self.takes_copy(pointer, len, ds, to)
            }
            PtrWord::Free | PtrWord::Far { .. } => false,
        }
    }

    /// Whether a near object has EVAC, its log is in the round, and its owner was seen clear in it.
    fn is_clear_near(&self, pointer: u16, place: Place, marks: Marks) -> bool
        ensures { result ≡ is_clear_near (state_of self.now) pointer place marks }
    {
        marks.evac && self.is_in_round(place.log) && self.is_clear(pointer / CELLS)
    }

    /// Whether a span for the copy of an object may be taken at a place: a header for its pointer is written there, and a last
    /// data word of 0.
    fn takes_copy(&self, pointer: u16, len: u16, ds: u8, to: Place) -> bool
        requires pointer { pointer < CELLS * (state_of self.now).mutators }
        requires some { 0 < len }
        requires most { len ≤ LONGEST }
        requires law { Law (state_of self.now) }
        ensures { result ≡ takes_copy (state_of self.now) pointer len ds to }
    {
        self.is_within(len, to)
            && self.is_new_span(pointer, len, ds, to)
            && self.ends_blank(len, to)
    }

    /// Whether a span for so many bytes ends within a log of the heap.
    fn is_within(&self, len: u16, to: Place) -> bool
        requires { size_of len ≤ LOG_WORDS }
        ensures { result ≡ is_within (state_of self.now) len to }
    {
        self.has_log(to.log) && to.at <= LOG_WORDS - size_of(len)
    }

    /// Whether the last data word at a place is 0.
    fn ends_blank(&self, len: u16, to: Place) -> bool
        requires some { 0 < len }
        requires inside { to.at + words_for len < LOG_WORDS }
        requires log { to.log < (state_of self.now).logs }
        ensures { result ≡ ends_blank (state_of self.now) len to }
    {
        let last = words_for(len) - 1;
        self.word(first_word(to) + 1 + last as usize) == 0
    }

    /// Offers the copy of an object: its span is taken, and the job's word says it.
    pub fn offer(&mut self, job: u8, pointer: u16, to: Place)
        requires law { Law (state_of self.old) }
        requires legal { is_legal (state_of self.old) (Event.Offer job pointer to) ≡ true }
        ensures { state_of self.new ≡ next_state (state_of self.old) (Event.Offer job pointer to) }
    {
        let PtrWord::Near { len, place, .. } = PtrWord::known(self.cell(pointer)) else {
            unreachable!()
        };
        self.begin(len, to);
        self.set_offer(
            job,
            Job {
                pointer,
                from: place,
                to,
            },
        );
    }

    /// The job is offered, in the round that runs.
    fn set_offer(&mut self, job: u8, offer: Job)
        requires job { job < JOBS }
        requires layout { IsJob offer }
        ensures { state_of self.new ≡ record (state_of self.old) { copying = with_job (state_of self.old).copying job (state_of self.old).round_epoch offer } }
    {
        let word = JobWord::Offered { job: offer }.pack();
        self.set_job_word(job, word);
        self.set_job_since(job, self.round_epoch());
        self.set_job_named(job, false);
    }

    #[tactic(auto, unfolding(crate::specs::state::Memory::state_of))]
    fn set_job_word(&mut self, job: u8, word: u64)
        requires { job < JOBS }
        ensures { state_of self.new ≡ record (state_of self.old) { copying = record (state_of self.old).copying { word = put (state_of self.old).copying.word job word } } }
    {
        self.jobs.set_word(job, word);
    }

    #[tactic(auto, unfolding(crate::specs::state::Memory::state_of))]
    fn set_job_since(&mut self, job: u8, epoch: u64)
        requires { job < JOBS }
        ensures { state_of self.new ≡ record (state_of self.old) { copying = record (state_of self.old).copying { since = put (state_of self.old).copying.since job epoch } } }
    {
        self.jobs.set_since(job, epoch);
    }

    #[tactic(auto, unfolding(crate::specs::state::Memory::state_of))]
    pub(crate) fn set_job_named(&mut self, job: u8, named: bool)
        requires { job < JOBS }
        ensures { state_of self.new ≡ record (state_of self.old) { copying = record (state_of self.old).copying { named = put (state_of self.old).copying.named job named } } }
    {
        self.jobs.set_named(job, named);
    }
}
