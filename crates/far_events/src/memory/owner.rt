//! The events of an owner.

ghost use Rattle.std.specs.Prelude.{◌≡◌, ◌*◌, ◌/◌, ◌<◌, IfOk, IfErr, IsSome};
ghost use Rattle.far_events.specs.declared.event.Event.{Event};
ghost use Rattle.far_events.specs.declared.event.Reply.{Reply};
ghost use Rattle.far_events.specs.events.Next.{next_state};
ghost use Rattle.far_events.specs.events.Step.{answer, data_len, data_word, is_legal, keeps_padding};
ghost use Rattle.far_events.specs.events.Ask.{is_request};
ghost use Rattle.far_events.specs.state.Law.{Law, in_use};
ghost use Rattle.far_events.specs.state.Memory.{state_of};
ghost use Rattle.far_events.specs.state.State.{State};
ghost use Rattle.far_word.specs.Pointer.{read_of};
ghost use Rattle.far_word.specs.Sizes.{words_for};
ghost use Rattle.far_word.specs.declared.sizes.TheConstants.{LOG_WORDS};

use crate::memory::Memory;
use crate::memory::reading::{first_word, in_use, near_len, place_to_view};
use far_word::{CELLS, Mark, Place, ScopeWord, words_for};

#[tactic(auto, unfolding(crate::specs::events::Next::next_state))]
impl Memory {
    pub fn read_epoch(&mut self, owner: u8) -> u64
        requires { owner < (state_of self.old).mutators }
        ensures state { state_of self.new ≡ next_state (state_of self.old) (Event.ReadEpoch owner) }
        ensures epoch { answer (state_of self.old) (Event.ReadEpoch owner) ≡ Reply.Epoch result }
    {
        let epoch = self.epoch();
        self.remember(owner, Some(epoch));
        epoch
    }

    pub(crate) fn may_open(&self, owner: u8) -> bool
        ensures { result ≡ is_legal (state_of self.now) (Event.Open owner) }
    {
        self.is_closed(owner) && self.remembered(owner).is_some()
    }

    pub fn open(&mut self, owner: u8)
        requires law { Law (state_of self.old) }
        requires owner { owner < (state_of self.old).mutators }
        requires remembered { IsSome ((state_of self.old).remembered owner) }
        ensures { state_of self.new ≡ next_state (state_of self.old) (Event.Open owner) }
    {
        let epoch = self.remembered_epoch(owner);
        self.set_scope(owner, ScopeWord::Open { epoch }.pack());
    }

    pub(crate) fn may_pin(&self, owner: u8, pointer: u16) -> bool
        ensures { result ≡ is_legal (state_of self.now) (Event.Pin owner pointer) }
    {
        self.is_opened(owner)
            && pointer / CELLS == owner as u16
            && self.uses(pointer)
            && !self.is_held(pointer)
    }

    pub fn pin(&mut self, owner: u8, pointer: u16) -> Result<Place, u64>
        requires law { Law (state_of self.old) }
        requires pointer { pointer < CELLS * (state_of self.old).mutators }
        ensures state { state_of self.new ≡ next_state (state_of self.old) (Event.Pin owner pointer) }
        ensures held { IfOk result (λ place. answer (state_of self.old) (Event.Pin owner pointer) ≡ Reply.Held place) }
        ensures word { IfErr result (λ word. answer (state_of self.old) (Event.Pin owner pointer) ≡ Reply.Word word) }
    {
        let old = self.cell_at(pointer);
        self.set_cell(pointer, old | Mark::Hot.mask());
        match place_to_view(old) {
            Some(place) => {
                self.hold(pointer, place);
                Ok(place)
            }
            None => Err(old),
        }
    }

    pub(crate) fn may_load(&self, owner: u8, pointer: u16, index: u16) -> bool
        requires { Law (state_of self.now) }
        ensures { result ≡ is_legal (state_of self.now) (Event.Load owner pointer index) }
    {
        self.holds(owner, pointer) && index < words_for(near_len(self.cell(pointer)))
    }

    pub fn load(&self, pointer: u16, index: u16) -> u64
        requires law { Law (state_of self.now) }
        requires held { IsSome ((state_of self.now).held pointer) }
        requires index { index < words_for (data_len (state_of self.now) pointer) }
        ensures { result ≡ (state_of self.now).word (data_word (state_of self.now) pointer index) }
    {
        self.word(self.data_word(pointer, index))
    }

    pub(crate) fn may_store(&self, owner: u8, pointer: u16, index: u16, word: u64) -> bool
        requires { Law (state_of self.now) }
        ensures { result ≡ is_legal (state_of self.now) (Event.Store owner pointer index word) }
    {
        if !self.holds(owner, pointer) {
            return false;
        }
        let len = near_len(self.cell(pointer));
        index < words_for(len) && keeps_padding(len, index, word) && self.is_soiled(pointer)
    }

    #[tactic(auto, unfolding(crate::specs::events::Next::next_state), using(crate::proofs::Calls::held_range))]
    pub fn soil(&mut self, owner: u8, pointer: u16) -> u64
        requires law { Law (state_of self.old) }
        requires held { IsSome ((state_of self.old).held pointer) }
        ensures state { state_of self.new ≡ next_state (state_of self.old) (Event.Soil owner pointer) }
        ensures word { answer (state_of self.old) (Event.Soil owner pointer) ≡ Reply.Word result }
    {
        let old = self.cell_at(pointer);
        self.set_cell(pointer, old | Mark::Dirty.mask());
        self.soil_cell(pointer);
        old
    }

    pub fn store(&mut self, owner: u8, pointer: u16, index: u16, word: u64)
        requires law { Law (state_of self.old) }
        requires held { IsSome ((state_of self.old).held pointer) }
        requires index { index < words_for (data_len (state_of self.old) pointer) }
        ensures { state_of self.new ≡ next_state (state_of self.old) (Event.Store owner pointer index word) }
    {
        self.set_word(self.data_word(pointer, index), word);
    }

    /// Where a data word of an object that is held stands.
    fn data_word(&self, pointer: u16, index: u16) -> usize
        requires law { Law (state_of self.now) }
        requires held { IsSome ((state_of self.now).held pointer) }
        requires index { index < words_for (data_len (state_of self.now) pointer) }
        ensures is { result ≡ data_word (state_of self.now) pointer index }
        ensures within { result < LOG_WORDS * (state_of self.now).logs }
    {
        first_word(self.held_place(pointer)) + 1 + index as usize
    }

    pub fn close(&mut self, owner: u8)
        requires { owner < (state_of self.old).mutators }
        ensures { state_of self.new ≡ next_state (state_of self.old) (Event.Close owner) }
    {
        self.set_scope(owner, ScopeWord::Closed.pack());
        self.remember(owner, None);
        self.let_go(owner);
        self.forget_soiled(owner);
    }

    pub(crate) fn may_ask(&self, owner: u8, pointer: u16, mark: Mark) -> bool
        ensures { result ≡ is_legal (state_of self.now) (Event.Ask owner pointer mark) }
    {
        is_request(mark)
            && self.has_owner(owner)
            && pointer / CELLS == owner as u16
            && self.uses(pointer)
            && !self.is_held(pointer)
    }

    pub fn ask(&mut self, owner: u8, pointer: u16, mark: Mark) -> u64
        requires { pointer < CELLS * (state_of self.old).mutators }
        ensures state { state_of self.new ≡ next_state (state_of self.old) (Event.Ask owner pointer mark) }
        ensures word { answer (state_of self.old) (Event.Ask owner pointer mark) ≡ Reply.Word result }
    {
        let old = self.cell_at(pointer);
        self.set_cell(pointer, old | mark.mask());
        if let Mark::Dropped = mark {
            self.stop_using_cell(pointer);
        }
        old
    }

    pub(crate) fn may_adopt(&self, owner: u8, pointer: u16) -> bool
        requires { Law (state_of self.now) }
        ensures { result ≡ is_legal (state_of self.now) (Event.Adopt owner pointer) }
    {
        if !self.has_owner(owner) || pointer / CELLS != owner as u16 {
            return false;
        }
        !self.uses(pointer) && self.is_in_use(pointer)
    }

    /// Whether a pointer's word is used and not dropped.
    pub fn is_in_use(&self, pointer: u16) -> bool
        requires law { Law (state_of self.now) }
        requires pointer { pointer < CELLS * (state_of self.now).mutators }
        ensures { result ≡ in_use (read_of ((state_of self.now).cell pointer)) }
    {
        in_use(self.cell_at(pointer))
    }

    pub fn adopt(&mut self, owner: u8, pointer: u16) -> u64
        requires { pointer < CELLS * (state_of self.old).mutators }
        ensures state { state_of self.new ≡ next_state (state_of self.old) (Event.Adopt owner pointer) }
        ensures word { answer (state_of self.old) (Event.Adopt owner pointer) ≡ Reply.Word result }
    {
        self.use_cell(pointer);
        self.cell_at(pointer)
    }
}

/// Whether an owner asks by the mark.
fn is_request(mark: Mark) -> bool
    ensures { result ≡ is_request mark }
{
    matches!(mark, Mark::Moved | Mark::Dropped)
}

/// Whether a word leaves the bytes after an object's end 0.
pub(crate) fn keeps_padding(len: u16, index: u16, word: u64) -> bool
    requires { 8 * index < len }
    ensures { result ≡ keeps_padding len index word }
{
    let left = len - 8 * index;
    left >= 8 || word >> (8 * left) == 0
}
