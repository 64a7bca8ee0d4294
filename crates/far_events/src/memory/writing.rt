//! One place of the memory written.

ghost use Rattle.std.specs.Prelude.{◌≡◌, ◌+◌, ◌*◌, ◌<◌, ◌≤◌, ◌/◌, ◌==◌, cond, Some, None, true, false};
ghost use Rattle.far_word.specs.declared.sizes.TheConstants.{MOST_LOGS};
ghost use Rattle.far_events.specs.events.namings.Evicts.{with_kept};
ghost use Rattle.far_events.specs.state.State.{State, put};
ghost use Rattle.far_events.specs.state.Memory.{state_of};

use crate::event::Kind;
use crate::memory::Memory;
use far_word::{CELLS, LOG_WORDS, Place};

impl Memory {
    #[tactic(auto, unfolding(crate::specs::state::Memory::state_of))]
    pub(crate) fn set_scope(&mut self, owner: u8, word: u64)
        requires { owner < (state_of self.old).mutators }
        ensures { state_of self.new ≡ record (state_of self.old) { scope = put (state_of self.old).scope owner word } }
    {
        self.scopes[owner as usize] = word;
    }

    #[tactic(auto, unfolding(crate::specs::state::Memory::state_of))]
    pub(crate) fn remember(&mut self, owner: u8, epoch: Option<u64>)
        requires { owner < (state_of self.old).mutators }
        ensures { state_of self.new ≡ record (state_of self.old) { remembered = put (state_of self.old).remembered owner epoch } }
    {
        self.remembered[owner as usize] = epoch;
    }

    #[tactic(auto, unfolding(crate::specs::state::Memory::state_of))]
    pub(crate) fn set_cell(&mut self, pointer: u16, word: u64)
        requires { pointer < CELLS * (state_of self.old).mutators }
        ensures { state_of self.new ≡ record (state_of self.old) { cell = put (state_of self.old).cell pointer word } }
    {
        self.cells[pointer as usize] = word;
    }

    #[tactic(auto, unfolding(crate::specs::state::Memory::state_of))]
    pub(crate) fn use_cell(&mut self, pointer: u16)
        requires { pointer < CELLS * (state_of self.old).mutators }
        ensures { state_of self.new ≡ record (state_of self.old) { used = put (state_of self.old).used pointer true } }
    {
        self.used[pointer as usize] = true;
    }

    #[tactic(auto, unfolding(crate::specs::state::Memory::state_of))]
    pub(crate) fn stop_using_cell(&mut self, pointer: u16)
        requires { pointer < CELLS * (state_of self.old).mutators }
        ensures { state_of self.new ≡ record (state_of self.old) { used = put (state_of self.old).used pointer false } }
    {
        self.used[pointer as usize] = false;
    }

    #[tactic(auto, unfolding(crate::specs::state::Memory::state_of))]
    pub(crate) fn hold(&mut self, pointer: u16, place: Place)
        requires pointer { pointer < CELLS * (state_of self.old).mutators }
        requires log { place.log < MOST_LOGS }
        requires inside { place.at < LOG_WORDS }
        ensures { state_of self.new ≡ record (state_of self.old) { held = put (state_of self.old).held pointer (Some place) } }
    {
        self.held.set(pointer as usize);
        self.places[pointer as usize] = place.log as u16 * LOG_WORDS + place.at;
    }

    #[tactic(auto, unfolding(crate::specs::state::Memory::state_of))]
    pub(crate) fn soil_cell(&mut self, pointer: u16)
        requires { pointer < CELLS * (state_of self.old).mutators }
        ensures { state_of self.new ≡ record (state_of self.old) { soiled = put (state_of self.old).soiled pointer true } }
    {
        self.soiled.set(pointer as usize);
    }

    #[tactic(auto, unfolding(crate::specs::state::Memory::state_of))]
    pub(crate) fn set_word(&mut self, at: usize, word: u64)
        requires { at < LOG_WORDS * (state_of self.old).logs }
        ensures { state_of self.new ≡ record (state_of self.old) { word = put (state_of self.old).word at word } }
    {
        self.words.set(at, word);
    }

    #[tactic(auto, unfolding(crate::specs::state::Memory::state_of))]
    pub(crate) fn begin_span(&mut self, at: usize)
        requires { at < LOG_WORDS * (state_of self.old).logs }
        ensures { state_of self.new ≡ record (state_of self.old) { starts = put (state_of self.old).starts at true } }
    {
        self.starts.set(at);
    }

    #[tactic(auto, unfolding(crate::specs::state::Memory::state_of))]
    pub fn set_kind(&mut self, log: u8, kind: Kind)
        requires { log < (state_of self.old).logs }
        ensures { state_of self.new ≡ record (state_of self.old) { kind = put (state_of self.old).kind log kind } }
    {
        self.kinds[log as usize] = kind;
    }

    #[tactic(auto, unfolding(crate::specs::state::Memory::state_of))]
    pub(crate) fn set_current(&mut self, log: u8)
        requires { log < (state_of self.old).logs }
        ensures { state_of self.new ≡ record (state_of self.old) { current = log } }
    {
        self.current = log;
    }

    /// No span begins in the log from now on.
    #[tactic(auto, unfolding(crate::specs::state::Memory::state_of))]
    pub(crate) fn empty_log(&mut self, log: u8)
        requires { log < (state_of self.old).logs }
        ensures { state_of self.new ≡ record (state_of self.old) { starts = λ a. cond (a / LOG_WORDS == log) false ((state_of self.old).starts a) } }
    {
        self.starts
            .clear_part(log as usize, LOG_WORDS as usize / 64);
    }

    #[tactic(auto, unfolding(crate::specs::state::Memory::state_of))]
    pub(crate) fn set_tail(&mut self, log: u8, tail: u16)
        requires { log < (state_of self.old).logs }
        ensures { state_of self.new ≡ record (state_of self.old) { tail = put (state_of self.old).tail log tail } }
    {
        self.tails[log as usize] = tail;
    }

    /// The epoch, and the round's own.
    #[tactic(auto, unfolding(crate::specs::state::Memory::state_of))]
    pub(crate) fn set_epoch(&mut self, epoch: u64)
        ensures { state_of self.new ≡ record (state_of self.old) { epoch = epoch; round_epoch = epoch } }
    {
        self.epoch = epoch;
        self.round_epoch = epoch;
    }

    #[tactic(auto, unfolding(crate::specs::state::Memory::state_of))]
    pub(crate) fn set_in_round(&mut self, log: u8, inside: bool)
        requires { log < (state_of self.old).logs }
        ensures { state_of self.new ≡ record (state_of self.old) { round = put (state_of self.old).round log inside } }
    {
        self.round[log as usize] = inside;
    }

    #[tactic(auto, unfolding(crate::specs::state::Memory::state_of))]
    pub(crate) fn set_clear(&mut self, owner: u8, clear: bool)
        requires { owner < (state_of self.old).mutators }
        ensures { state_of self.new ≡ record (state_of self.old) { clear = put (state_of self.old).clear owner clear } }
    {
        self.clear[owner as usize] = clear;
    }

    /// Nobody was seen clear.
    #[tactic(auto, unfolding(crate::specs::state::Memory::state_of))]
    pub(crate) fn forget_clear(&mut self)
        ensures { state_of self.new ≡ record (state_of self.old) { clear = λ _. false } }
    {
        self.clear.fill(false);
    }

    #[tactic(auto, unfolding(crate::specs::state::Memory::state_of))]
    pub(crate) fn leave_round(&mut self, log: u8)
        requires { log < (state_of self.old).logs }
        ensures { state_of self.new ≡ record (state_of self.old) { round = put (state_of self.old).round log false } }
    {
        self.round[log as usize] = false;
    }

    /// The words from one on are stored for a pointer, as many as they are; its other stored words stay.
    #[tactic(auto, unfolding(crate::specs::state::Memory::state_of))]
    pub(crate) fn store_away(&mut self, pointer: u16, from: usize, count: u16)
        requires pointer { pointer < CELLS * (state_of self.old).mutators }
        requires row { count ≤ LOG_WORDS }
        requires inside { from + count ≤ LOG_WORDS * (state_of self.old).logs }
        ensures { state_of self.new ≡ record (state_of self.old) { stored = put (state_of self.old).stored pointer (with_kept (state_of self.old).word (state_of self.old).stored pointer from count) } }
    {
        let whose = [pointer];
        let bytes = &self.words.bytes[8 * from..8 * (from + count as usize)];
        self.stored.note(&whose, bytes);
    }

    /// The owner holds nothing from now on.
    #[tactic(auto, unfolding(crate::specs::state::Memory::state_of))]
    pub(crate) fn let_go(&mut self, owner: u8)
        requires { owner < (state_of self.old).mutators }
        ensures { state_of self.new ≡ record (state_of self.old) { held = λ p. cond (p / CELLS == owner) None ((state_of self.old).held p) } }
    {
        self.held.clear_part(owner as usize, CELLS as usize / 64);
    }

    /// The owner has soiled nothing from now on.
    #[tactic(auto, unfolding(crate::specs::state::Memory::state_of))]
    pub(crate) fn forget_soiled(&mut self, owner: u8)
        requires { owner < (state_of self.old).mutators }
        ensures { state_of self.new ≡ record (state_of self.old) { soiled = λ p. cond (p / CELLS == owner) false ((state_of self.old).soiled p) } }
    {
        self.soiled.clear_part(owner as usize, CELLS as usize / 64);
    }
}
