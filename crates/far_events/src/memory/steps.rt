//! An event that is given as data: whether it is legal, and made.

ghost use Rattle.std.specs.Prelude.{◌≡◌, false, true, IfOk, IfErr};
ghost use Rattle.far_events.specs.events.Name.{is_naming};
ghost use Rattle.far_events.specs.events.Next.{next_state};
ghost use Rattle.far_events.specs.events.Step.{step_of, is_legal, answer, Fits};
ghost use Rattle.far_events.specs.state.Law.{Law};
ghost use Rattle.far_events.specs.state.Memory.{state_of};

use crate::event::{Event, Reply};
use crate::memory::Memory;
use far_word::{JOBS, MOST_COPIERS};

#[tactic(auto, using(crate::proofs::Calls::next_is_after))]
impl Memory {
    /// Makes an event, if it is legal. A naming is the core's to make: it may store words.
    #[inline(always)]
    pub fn apply(&mut self, event: Event) -> Reply
        requires law { Law (state_of self.old) }
        requires other { is_naming event ≡ false }
        ensures step { (state_of self.new, result) ≡ step_of (state_of self.old) event }
        ensures fits { Fits event }
    {
        if self.allows(event) {
            self.make(event)
        } else {
            Reply::Refused
        }
    }

    /// Whether an event is legal that names nothing. A row an event: its test.
    #[inline(always)]
    #[rattlefmt::skip]
    fn allows(&self, event: Event) -> bool
        requires law { Law (state_of self.now) }
        requires other { is_naming event ≡ false }
        ensures legal { result ≡ is_legal (state_of self.now) event }
        ensures fits { Fits event }
    {
        match event {
            Event::ReadEpoch { owner } => self.is_closed(owner),
            Event::Open { owner } => self.may_open(owner),
            Event::Pin { owner, pointer } => self.may_pin(owner, pointer),
            Event::Load { owner, pointer, index } => self.may_load(owner, pointer, index),
            Event::Store { owner, pointer, index, word } => self.may_store(owner, pointer, index, word),
            Event::Soil { owner, pointer } => self.holds(owner, pointer),
            Event::Close { owner } => self.is_opened(owner),
            Event::Adopt { owner, pointer } => self.may_adopt(owner, pointer),
            Event::Ask { owner, pointer, mark } => self.may_ask(owner, pointer, mark),
            Event::Get { log, at, free } => self.may_get(log, at, free),
            Event::Put { log, at, word } => self.may_put(log, at, word),
            Event::Name { .. } => unreachable!(),
            Event::See { pointer } => self.has_pointer(pointer),
            Event::Mark { pointer } => self.may_mark(pointer),
            Event::Clear { pointer } => self.may_clear(pointer),
            Event::Advance { logs } => self.may_advance(logs),
            Event::Look { owner } => self.has_owner(owner),
            Event::Offer { job, pointer, to } => self.may_offer(job, pointer, to),
            Event::PeekJob { copier, job } => copier < MOST_COPIERS && job < JOBS,
            Event::SeeJob { job } => job < JOBS,
            Event::Claim { copier, job, old } => self.may_claim(copier, job, old),
            Event::ReadLength { copier } => self.may_read_length(copier),
            Event::Read { copier, index } => self.may_read(copier, index),
            Event::Write { copier, index } => self.may_write(copier, index),
            Event::Finish { copier } => self.may_finish(copier),
            Event::Collect { job, old } => self.may_collect(job, old),
        }
    }

    /// Makes a legal event that names nothing. A row an event: its call and the reply.
    #[inline(always)]
    #[rattlefmt::skip]
    fn make(&mut self, event: Event) -> Reply
        requires law { Law (state_of self.old) }
        requires legal { is_legal (state_of self.old) event ≡ true }
        requires other { is_naming event ≡ false }
        ensures state { state_of self.new ≡ next_state (state_of self.old) event }
        ensures reply { result ≡ answer (state_of self.old) event }
    {
        match event {
            Event::ReadEpoch { owner } => Reply::Epoch(self.read_epoch(owner)),
            Event::Open { owner } => { self.open(owner); Reply::Done }
            Event::Pin { owner, pointer } => self.pin(owner, pointer).map_or_else(Reply::Word, Reply::Held),
            Event::Load { pointer, index, .. } => Reply::Word(self.load(pointer, index)),
            Event::Store { owner, pointer, index, word } => { self.store(owner, pointer, index, word); Reply::Done }
            Event::Soil { owner, pointer } => Reply::Word(self.soil(owner, pointer)),
            Event::Close { owner } => { self.close(owner); Reply::Done }
            Event::Adopt { owner, pointer } => Reply::Word(self.adopt(owner, pointer)),
            Event::Ask { owner, pointer, mark } => Reply::Word(self.ask(owner, pointer, mark)),
            Event::Get { log, at, free } => Reply::Word(self.get(log, at, free)),
            Event::Put { log, at, word } => { self.put(log, at, word); Reply::Done }
            Event::Name { .. } => unreachable!(),
            Event::See { pointer } => Reply::Word(self.cell_at(pointer)),
            Event::Mark { pointer } => Reply::Word(self.mark(pointer)),
            Event::Clear { pointer } => Reply::Word(self.clear(pointer)),
            Event::Advance { logs } => Reply::Epoch(self.advance(logs)),
            Event::Look { owner } => Reply::Word(self.look(owner)),
            Event::Offer { job, pointer, to } => { self.offer(job, pointer, to); Reply::Done }
            Event::PeekJob { job, .. } => Reply::Word(self.job(job)),
            Event::SeeJob { job } => Reply::Word(self.job(job)),
            Event::Claim { copier, job, old } => done_or_word(self.claim(copier, job, old)),
            Event::ReadLength { copier } => Reply::Word(self.read_length(copier)),
            Event::Read { copier, index } => Reply::Word(self.read(copier, index)),
            Event::Write { copier, index } => { self.write(copier, index); Reply::Done }
            Event::Finish { copier } => { self.finish(copier); Reply::Done }
            Event::Collect { job, old } => done_or_word(self.collect(job, old)),
        }
    }
}

/// Whether an event names.
#[inline(always)]
pub fn is_naming(event: Event) -> bool
    ensures { result ≡ is_naming event }
{
    matches!(event, Event::Name { .. })
}

/// What an exchange answers: that it is done, or the word that was found.
pub fn done_or_word(exchanged: Result<(), u64>) -> Reply
    ensures done { IfOk exchanged (λ _. result ≡ Reply.Done) }
    ensures word { IfErr exchanged (λ word. result ≡ Reply.Word word) }
{
    match exchanged {
        Ok(()) => Reply::Done,
        Err(word) => Reply::Word(word),
    }
}
