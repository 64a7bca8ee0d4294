//! Events made: one by one, each by a call of its own or as data, and lists of them.

ghost use Rattle.std.specs.Prelude.{◌≡◌, ◌≢◌, ◌↔◌, ◌-◌, ◌*◌, ◌/◌, ◌^◌, ◌<◌, false, true, List, map, IsTrue, IsSome, IfOk, IfErr, IfSome, IfNone, Option, is_some};
ghost use Rattle.far_word.specs.declared.sizes.TheConstants.{CELLS};
ghost use Rattle.far_word.specs.Sizes.{words_for};
ghost use Rattle.far_events.specs.events.Legal.{Legal};
ghost use Rattle.far_events.specs.events.Step.{step_of, after, answer, data_len, Fits};
ghost use Rattle.far_core.specs.state.Agrees.{Agrees};
ghost use Rattle.far_core.specs.state.CoreState.{core_state};
ghost use Rattle.far_events.specs.events.Name.{is_naming};
ghost use Rattle.far_core.specs.state.Kept.{keeps_stored, tells, tells_all};
ghost use Rattle.far_events.specs.state.Law.{Law};
ghost use Rattle.far_events.specs.state.Memory.{state_of};
ghost use Rattle.far_events.specs.state.State.{State};
ghost use Rattle.far_core.specs.world.Happens.{Happens};
ghost use Rattle.far_core.specs.world.Runs.{Leads, Passes, Runs};
ghost use Rattle.far_core.specs.world.WorldOf.{world_of};

use crate::machine::Core;
use far_events::{Event, Reply, done_or_word, is_naming};
use far_word::{Mark, Place, Refused};
use std::alloc::Global;

/// One event by each call, whose guard is the condition. Owners, pointers, logs and words are numbered as in [`Event`]. No call
/// here takes memory.
#[tactic(auto, using(far_events::proofs::Calls::next_is_after, crate::proofs::Calls::next_keeps_law))]
impl Core {
    /// A closed owner remembers the epoch: this one, below 2^62.
    #[inline]
    pub fn read_epoch(&mut self, owner: u8) -> u64
        requires legal { Legal (core_state self.old) (Event.ReadEpoch owner) }
        ensures state { core_state self.new ≡ after (core_state self.old) (Event.ReadEpoch owner) }
        ensures epoch { answer (core_state self.old) (Event.ReadEpoch owner) ≡ Reply.Epoch result }
        ensures kept { keeps_stored self.new ≡ keeps_stored self.old }
    {
        self.memory.read_epoch(owner)
    }

    /// A closed owner opens its scope at the epoch that it remembers.
    #[inline]
    pub fn open(&mut self, owner: u8)
        requires legal { Legal (core_state self.old) (Event.Open owner) }
        ensures state { core_state self.new ≡ after (core_state self.old) (Event.Open owner) }
        ensures kept { keeps_stored self.new ≡ keeps_stored self.old }
    {
        self.memory.open(owner);
    }

    /// An open owner sets HOT on a pointer that it uses and doesn't hold. `Ok` with the object's place, which it holds
    /// from then on; `Err` with the old word, if that isn't near or has EVAC, MOVE or DROP.
    #[inline]
    pub fn pin(&mut self, owner: u8, pointer: u16) -> Result<Place, u64>
        requires legal { Legal (core_state self.old) (Event.Pin owner pointer) }
        ensures state { core_state self.new ≡ after (core_state self.old) (Event.Pin owner pointer) }
        ensures held { IfOk result (λ place. answer (core_state self.old) (Event.Pin owner pointer) ≡ Reply.Held place) }
        ensures word { IfErr result (λ word. answer (core_state self.old) (Event.Pin owner pointer) ≡ Reply.Word word) }
        ensures kept { keeps_stored self.new ≡ keeps_stored self.old }
    {
        self.memory.pin(owner, pointer)
    }

    /// Data word `index` of an object that its owner holds: bytes `8 * index` to `8 * index + 7`, little end first, zeros
    /// past the object's end.
    #[inline]
    pub fn load(&self, owner: u8, pointer: u16, index: u16) -> u64
        // the guard, in what its owner knows
        requires own { pointer / CELLS ≡ owner }
        requires held { IsSome ((core_state self.now).held pointer) }
        requires inside { index < words_for (data_len (core_state self.now) pointer) }
        ensures word { answer (core_state self.now) (Event.Load owner pointer index) ≡ Reply.Word result }
    {
        self.memory.load(pointer, index)
    }

    /// Data word `index` of an object that its owner has soiled becomes `word`, whose bytes past the object's end are 0.
    #[inline]
    #[tactic(auto, using(far_events::proofs::Calls::next_is_after, crate::proofs::Calls::store_keeps_law, far_events::proofs::Calls::soiled_held))]
    pub fn store(&mut self, owner: u8, pointer: u16, index: u16, word: u64)
        // the guard, in what its owner knows
        requires own { pointer / CELLS ≡ owner }
        requires soiled { (core_state self.old).soiled pointer ≡ true }
        requires inside { index < words_for (data_len (core_state self.old) pointer) }
        requires padding { word < 2 ^ (8 * (data_len (core_state self.old) pointer - 8 * index)) }
        ensures state { core_state self.new ≡ after (core_state self.old) (Event.Store owner pointer index word) }
        ensures kept { keeps_stored self.new ≡ keeps_stored self.old }
    {
        self.memory.store(owner, pointer, index, word);
    }

    /// An owner sets DIRTY on a pointer that it holds, and remembers until it closes that it has soiled it: the pointer's word
    /// before.
    #[inline]
    pub fn soil(&mut self, owner: u8, pointer: u16) -> u64
        requires legal { Legal (core_state self.old) (Event.Soil owner pointer) }
        ensures state { core_state self.new ≡ after (core_state self.old) (Event.Soil owner pointer) }
        ensures word { answer (core_state self.old) (Event.Soil owner pointer) ≡ Reply.Word result }
        ensures kept { keeps_stored self.new ≡ keeps_stored self.old }
    {
        self.memory.soil(owner, pointer)
    }

    /// An open owner closes its scope, and holds, has soiled and remembers nothing from then on.
    #[inline]
    pub fn close(&mut self, owner: u8)
        requires legal { Legal (core_state self.old) (Event.Close owner) }
        ensures state { core_state self.new ≡ after (core_state self.old) (Event.Close owner) }
        ensures kept { keeps_stored self.new ≡ keeps_stored self.old }
    {
        self.memory.close(owner);
    }

    /// An owner uses a pointer of its own that it doesn't use yet: `Some` with the pointer's word. The word's part of the
    /// guard, which no owner knows, is tested: `None`, and nothing has changed, where the word is free or has DROP.
    #[inline]
    pub fn adopt(&mut self, owner: u8, pointer: u16) -> Option<u64>
        requires owner { owner < (core_state self.old).mutators }
        requires own { pointer / CELLS ≡ owner }
        requires unused { (core_state self.old).used pointer ≡ false }
        ensures legal { IsSome result ↔ Legal (core_state self.old) (Event.Adopt owner pointer) }
        ensures state { IfSome result (λ _. core_state self.new ≡ after (core_state self.old) (Event.Adopt owner pointer)) }
        ensures word { IfSome result (λ word. answer (core_state self.old) (Event.Adopt owner pointer) ≡ Reply.Word word) }
        ensures refused { IfNone result (core_state self.new ≡ core_state self.old) }
        ensures kept { keeps_stored self.new ≡ keeps_stored self.old }
    {
        if !self.memory.is_in_use(pointer) {
            return None;
        }
        Some(self.memory.adopt(owner, pointer))
    }

    /// An owner sets MOVE or DROP on a pointer that it uses and doesn't hold, and uses no longer what it drops: the pointer's
    /// word before.
    #[inline]
    pub fn ask(&mut self, owner: u8, pointer: u16, mark: Mark) -> u64
        requires legal { Legal (core_state self.old) (Event.Ask owner pointer mark) }
        ensures state { core_state self.new ≡ after (core_state self.old) (Event.Ask owner pointer mark) }
        ensures word { answer (core_state self.old) (Event.Ask owner pointer mark) ≡ Reply.Word result }
        ensures kept { keeps_stored self.new ≡ keeps_stored self.old }
    {
        self.memory.ask(owner, pointer, mark)
    }

    /// The word `at` of a log that is open or free, at or past its tail, becomes `word`.
    #[inline]
    pub fn put(&mut self, log: u8, at: u16, word: u64)
        requires legal { Legal (core_state self.old) (Event.Put log at word) }
        ensures state { core_state self.new ≡ after (core_state self.old) (Event.Put log at word) }
        ensures kept { keeps_stored self.new ≡ keeps_stored self.old }
    {
        self.memory.put(log, at, word);
    }

    /// The cell of a pointer goes from `old` to `new`, where it is `old`; else `Err` with the cell that was found, and
    /// nothing has changed.
    #[inline(always)]
    pub fn name(&mut self, pointer: u16, old: u64, new: u64) -> Result<(), u64>
        requires legal { Legal (core_state self.old) (Event.Name pointer old new) }
        ensures state { core_state self.new ≡ after (core_state self.old) (Event.Name pointer old new) }
        ensures won { IfOk result (λ _. answer (core_state self.old) (Event.Name pointer old new) ≡ Reply.Done) }
        ensures found { IfErr result (λ cell. answer (core_state self.old) (Event.Name pointer old new) ≡ Reply.Word cell) }
        ensures kept { keeps_stored self.new ≡ keeps_stored self.old }
    {
        self.memory.store_named(&mut self.rows, pointer, old, new);
        self.memory.name(pointer, old, new)
    }

    /// Word `at` of a log. With `free` the log, which is sealed and has no live span, and which no job reads or writes, is given
    /// back too: its spans, at most 256, are forgotten.
    #[inline]
    pub fn get(&mut self, log: u8, at: u16, free: bool) -> u64
        requires legal { Legal (core_state self.old) (Event.Get log at free) }
        ensures state { core_state self.new ≡ after (core_state self.old) (Event.Get log at free) }
        ensures word { answer (core_state self.old) (Event.Get log at free) ≡ Reply.Word result }
        ensures kept { keeps_stored self.new ≡ keeps_stored self.old }
    {
        self.memory.get(log, at, free)
    }

    /// The cell of a pointer.
    #[inline]
    pub fn see(&self, pointer: u16) -> u64
        requires legal { Legal (core_state self.now) (Event.See pointer) }
        ensures word { answer (core_state self.now) (Event.See pointer) ≡ Reply.Word result }
    {
        self.memory.cell_at(pointer)
    }

    /// The word of a job, as the book reads it.
    #[inline]
    pub fn see_job(&self, job: u8) -> u64
        requires legal { Legal (core_state self.now) (Event.SeeJob job) }
        ensures word { answer (core_state self.now) (Event.SeeJob job) ≡ Reply.Word result }
    {
        self.memory.job(job)
    }

    /// The word of a job, as a copier reads it.
    #[inline]
    pub fn peek_job(&self, copier: u8, job: u8) -> u64
        requires legal { Legal (core_state self.now) (Event.PeekJob copier job) }
        ensures word { answer (core_state self.now) (Event.PeekJob copier job) ≡ Reply.Word result }
    {
        self.memory.job(job)
    }

    /// A near pointer loses EVAC, and its log leaves the round: its word before.
    #[inline]
    pub fn clear(&mut self, pointer: u16) -> u64
        requires legal { Legal (core_state self.old) (Event.Clear pointer) }
        ensures state { core_state self.new ≡ after (core_state self.old) (Event.Clear pointer) }
        ensures word { answer (core_state self.old) (Event.Clear pointer) ≡ Reply.Word result }
        ensures kept { keeps_stored self.new ≡ keeps_stored self.old }
    {
        self.memory.clear(pointer)
    }

    /// A round begins, of the sealed logs whose bit is 1 in `logs`; whatever lies near there has EVAC. Answers the new epoch, one
    /// more than the last.
    #[inline]
    pub fn advance(&mut self, logs: u64) -> u64
        requires legal { Legal (core_state self.old) (Event.Advance logs) }
        ensures state { core_state self.new ≡ after (core_state self.old) (Event.Advance logs) }
        ensures epoch { answer (core_state self.old) (Event.Advance logs) ≡ Reply.Epoch result }
        ensures kept { keeps_stored self.new ≡ keeps_stored self.old }
    {
        self.memory.advance(logs)
    }

    /// The scope word of an owner. The owner is seen clear in the round from then on where the word says closed, or open at the
    /// round's epoch or later.
    #[inline]
    pub fn look(&mut self, owner: u8) -> u64
        requires legal { Legal (core_state self.old) (Event.Look owner) }
        ensures state { core_state self.new ≡ after (core_state self.old) (Event.Look owner) }
        ensures word { answer (core_state self.old) (Event.Look owner) ≡ Reply.Word result }
        ensures kept { keeps_stored self.new ≡ keeps_stored self.old }
    {
        self.memory.look(owner)
    }

    /// The book offers an object's copy at `to`, as a job that is empty so far.
    #[inline]
    pub fn offer(&mut self, job: u8, pointer: u16, to: Place)
        requires legal { Legal (core_state self.old) (Event.Offer job pointer to) }
        ensures state { core_state self.new ≡ after (core_state self.old) (Event.Offer job pointer to) }
        ensures kept { keeps_stored self.new ≡ keeps_stored self.old }
    {
        self.memory.offer(job, pointer, to);
    }

    /// A copier without a job takes an offered one, where its word is `old`; else `Err` with the word that was found, and nothing
    /// has changed. Only in a core where copiers may have jobs: [`Core::has_copiers`].
    #[inline]
    pub fn claim(&mut self, copier: u8, job: u8, old: u64) -> Result<(), u64>
        requires legal { Legal (core_state self.old) (Event.Claim copier job old) }
        ensures state { core_state self.new ≡ after (core_state self.old) (Event.Claim copier job old) }
        ensures won { IfOk result (λ _. answer (core_state self.old) (Event.Claim copier job old) ≡ Reply.Done) }
        ensures found { IfErr result (λ word. answer (core_state self.old) (Event.Claim copier job old) ≡ Reply.Word word) }
        ensures kept { keeps_stored self.new ≡ keeps_stored self.old }
    {
        self.memory.claim(copier, job, old)
    }

    /// The header at the source of a copier's job, whose length the copier remembers.
    #[inline]
    pub fn read_length(&mut self, copier: u8) -> u64
        requires legal { Legal (core_state self.old) (Event.ReadLength copier) }
        ensures state { core_state self.new ≡ after (core_state self.old) (Event.ReadLength copier) }
        ensures word { answer (core_state self.old) (Event.ReadLength copier) ≡ Reply.Word result }
        ensures kept { keeps_stored self.new ≡ keeps_stored self.old }
    {
        self.memory.read_length(copier)
    }

    /// A copier that has written all words of its job says so, and has no job from then on.
    #[inline]
    pub fn finish(&mut self, copier: u8)
        requires legal { Legal (core_state self.old) (Event.Finish copier) }
        ensures state { core_state self.new ≡ after (core_state self.old) (Event.Finish copier) }
        ensures kept { keeps_stored self.new ≡ keeps_stored self.old }
    {
        self.memory.finish(copier);
    }

    /// A finished or offered job is empty from then on, where its word is `old`; else `Err` with the word that was found, and
    /// nothing has changed.
    #[inline]
    pub fn collect(&mut self, job: u8, old: u64) -> Result<(), u64>
        requires legal { Legal (core_state self.old) (Event.Collect job old) }
        ensures state { core_state self.new ≡ after (core_state self.old) (Event.Collect job old) }
        ensures won { IfOk result (λ _. answer (core_state self.old) (Event.Collect job old) ≡ Reply.Done) }
        ensures found { IfErr result (λ word. answer (core_state self.old) (Event.Collect job old) ≡ Reply.Word word) }
        ensures kept { keeps_stored self.new ≡ keeps_stored self.old }
    {
        self.memory.collect(job, old)
    }

    /// A near pointer whose place lies in a sealed log gets EVAC: its word before.
    #[inline]
    pub fn mark(&mut self, pointer: u16) -> u64
        requires legal { Legal (core_state self.old) (Event.Mark pointer) }
        ensures state { core_state self.new ≡ after (core_state self.old) (Event.Mark pointer) }
        ensures word { answer (core_state self.old) (Event.Mark pointer) ≡ Reply.Word result }
        ensures kept { keeps_stored self.new ≡ keeps_stored self.old }
    {
        self.memory.mark(pointer)
    }
}

/// Guards of the book's, which look at more than a caller can know by one word.
impl Core {
    /// Whether this core keeps the words that are stored. By them it tells of any naming whether it is legal.
    #[inline]
    pub fn keeps_stored(&self) -> bool
        ensures { result ≡ keeps_stored self.now }
    {
        self.rows.is_some()
    }

    /// Whether stored words are kept and a naming is legal: both words are on the layout and make a form that may be made of the
    /// pointer now.
    #[inline]
    pub fn may_name(&self, pointer: u16, old: u64, new: u64) -> bool
        ensures { IsTrue result ↔ ((keeps_stored self.now ≡ true) × Legal (core_state self.now) (Event.Name pointer old new)) }
    {
        match &self.rows {
            Some(rows) => self.memory.may_name(rows, pointer, old, new),
            None => false,
        }
    }

    /// Whether word `at` of a log may be read, and with `free` the log given back. With `free` this looks at the log's
    /// 512 words.
    #[inline]
    pub fn may_get(&self, log: u8, at: u16, free: bool) -> bool
        ensures { IsTrue result ↔ Legal (core_state self.now) (Event.Get log at free) }
    {
        self.memory.may_get(log, at, free)
    }

    /// Whether an object's copy may be offered at a place, as a job that is empty so far.
    #[inline]
    pub fn may_offer(&self, job: u8, pointer: u16, to: Place) -> bool
        ensures { IsTrue result ↔ Legal (core_state self.now) (Event.Offer job pointer to) }
    {
        self.memory.may_offer(job, pointer, to)
    }

    /// Whether a round of these logs may begin: the epoch may rise, each log is sealed, and whatever lies near there has EVAC. This
    /// looks at all cells.
    #[inline]
    pub fn may_advance(&self, logs: u64) -> bool
        ensures { IsTrue result ↔ Legal (core_state self.now) (Event.Advance logs) }
    {
        self.memory.may_advance(logs)
    }
}

impl Core {
    /// Makes one event. One that isn't legal is answered [`Reply::Refused`] and changes nothing at all. Takes no memory.
    ///
    /// Where no stored words are kept, each [`Event::Name`] is answered so: [`Core::name`] makes it.
    #[inline(always)]
    pub fn step(&mut self, event: Event) -> Reply
        ensures step { tells self.old event ≡ true → (core_state self.new, result) ≡ step_of (core_state self.old) event }
        ensures legal { tells self.old event ≡ true → Legal (core_state self.old) event → (core_state self.new ≡ after (core_state self.old) event) × (result ≡ answer (core_state self.old) event) }
        ensures refused { tells self.old event ≡ true → ¬ (Legal (core_state self.old) event) → (core_state self.new ≡ core_state self.old) × (result ≡ Reply.Refused) }
        ensures refused_only { tells self.old event ≡ true → result ≡ Reply.Refused → ¬ (Legal (core_state self.old) event) }
        ensures untold { tells self.old event ≡ false → (core_state self.new ≡ core_state self.old) × (result ≡ Reply.Refused) }
        ensures law { Law (core_state self.new) }
        ensures agrees { Agrees (core_state self.new) }
        ensures world { Happens (world_of (core_state self.old)) event result (world_of (core_state self.new)) }
        ensures kept { keeps_stored self.new ≡ keeps_stored self.old }
    {
        if is_naming(event) {
            self.step_naming(event)
        } else {
            self.memory.apply(event)
        }
    }

    /// The same of a naming.
    fn step_naming(&mut self, event: Event) -> Reply
        requires naming { is_naming event ≡ true }
        ensures step { tells self.old event ≡ true → (core_state self.new, result) ≡ step_of (core_state self.old) event }
        ensures fits { Fits event }
        ensures untold { tells self.old event ≡ false → (core_state self.new ≡ core_state self.old) × (result ≡ Reply.Refused) }
        ensures kept { keeps_stored self.new ≡ keeps_stored self.old }
    {
        let Event::Name { pointer, old, new } = event else {
            unreachable!()
        };
        if !self.may_name(pointer, old, new) {
            return Reply::Refused;
        }
        done_or_word(self.name(pointer, old, new))
    }

    /// Makes events in order, and answers the reply to each. Memory for all replies is taken first: refused
    /// [`Refused::Memory`], no event was made. Refused so alone.
    ///
    /// Where no stored words are kept and the list has a naming, it does of each event what [`Core::step`] does.
    pub fn run(&mut self, alloc: Global, events: &[Event]) -> Result<Vec<Reply>, Refused>
        ensures runs { IfOk result (λ replies. tells_all self.old events.now ≡ true → (states : List State) × Leads (core_state self.old) events.now replies.items states (core_state self.new)
            × Runs (world_of (core_state self.old)) events.now replies.items (map world_of states)) }
        ensures refused { IfErr result (λ why. (why ≡ Refused.Memory) × (core_state self.new ≡ core_state self.old)) }
    {
        let Ok(mut replies) = Vec::with_capacity(alloc, events.len()) else {
            return Err(Refused::Memory);
        };
        for event in events {
            let reply = self.step(*event);
            replies.push_reserved(reply);
        }
        Ok(replies)
    }
}
