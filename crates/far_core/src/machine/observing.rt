//! What a core shows: shape, words and views, one at a time.

ghost use Rattle.std.specs.Prelude.{◌≡◌, ◌+◌, ◌*◌, ◌<◌, not, ◌==◌, is_some, ℕ, length, slice_index};
ghost use Rattle.far_word.specs.declared.sizes.TheConstants.{CELLS, EPOCH_END, LOG_WORDS};
ghost use Rattle.far_core.specs.state.CoreState.{core_state};
ghost use Rattle.far_events.specs.state.Memory.{state_of};
ghost use Rattle.far_events.specs.events.Step.{is_opened};

use crate::machine::Core;
use far_events::{Kind, first_word};
use far_word::Place;

impl Core {
    /// The logs of the heap, 2 to 64.
    pub fn logs(&self) -> u8
        ensures { result ≡ (core_state self.now).logs }
    {
        self.memory.logs()
    }

    /// The mutators of the heap, 1 to 8.
    pub fn mutators(&self) -> u8
        ensures { result ≡ (core_state self.now).mutators }
    {
        self.memory.mutators()
    }

    /// Whether the far side gives back what it was given, for good. No event changes it.
    pub fn is_honest(&self) -> bool
        ensures { result ≡ (core_state self.now).honest }
    {
        self.memory.is_honest()
    }

    /// Whether copiers may have jobs, for good. No event changes it: without copiers each claim is refused.
    pub fn has_copiers(&self) -> bool
        ensures { result ≡ (core_state self.now).copying.has_copiers }
    {
        self.memory.has_copiers()
    }

    /// The epoch, below 2^62.
    pub fn epoch(&self) -> u64
        ensures is { result ≡ (core_state self.now).epoch }
        ensures below { result < EPOCH_END }
    {
        self.memory.epoch()
    }

    /// Whether a log is in the round; false for a number that is no log's.
    pub fn is_in_round(&self, log: u8) -> bool
        ensures { result ≡ (core_state self.now).round log }
    {
        self.memory.is_in_round(log)
    }

    /// Whether an owner was seen clear in the round; false for a number that is no owner's.
    pub fn is_clear(&self, owner: u8) -> bool
        ensures { result ≡ (core_state self.now).clear owner }
    {
        self.memory.is_clear(owner as u16)
    }

    /// What a log is.
    pub fn kind(&self, log: u8) -> Kind
        requires { log < (core_state self.now).logs }
        ensures { result ≡ (core_state self.now).kind log }
    {
        self.memory.kind(log)
    }

    /// Where the spans of a log end, in words, 0 to 512.
    pub fn tail(&self, log: u8) -> u16
        requires { log < (core_state self.now).logs }
        ensures { result ≡ (core_state self.now).tail log }
    {
        self.memory.tail(log)
    }

    /// The open log.
    pub fn open_log(&self) -> u8
        ensures is { result ≡ (core_state self.now).current }
        ensures within { result < (core_state self.now).logs }
    {
        self.memory.current()
    }

    /// The word `at` of a log, 0 to 511.
    pub fn word(&self, log: u8, at: u16) -> u64
        requires log { log < (core_state self.now).logs }
        requires at { at < LOG_WORDS }
        ensures { result ≡ (core_state self.now).word (log * LOG_WORDS + at) }
    {
        self.memory.word(first_word(Place { log, at }))
    }

    /// Whether a span begins at the word `at` of a log, 0 to 511: a header stands there.
    pub fn starts(&self, log: u8, at: u16) -> bool
        requires log { log < (core_state self.now).logs }
        requires at { at < LOG_WORDS }
        ensures { result ≡ (core_state self.now).starts (log * LOG_WORDS + at) }
    {
        self.memory.starts(first_word(Place { log, at }))
    }

    /// The scope word of an owner: 0 where it is closed, `2 * e + 1` where it is open at epoch `e`; 0 for a number that is
    /// no owner's.
    pub fn scope(&self, owner: u8) -> u64
        ensures { result ≡ (core_state self.now).scope owner }
    {
        self.memory.scope(owner)
    }

    /// Whether an owner's scope is open; false for a number that is no owner's.
    pub fn is_open(&self, owner: u8) -> bool
        ensures { result ≡ is_opened (core_state self.now) owner }
    {
        self.memory.is_opened(owner)
    }

    /// The epoch that an owner has read since its last close, the latest; `None` for a number that is no owner's.
    pub fn remembered(&self, owner: u8) -> Option<u64>
        ensures { result ≡ (core_state self.now).remembered owner }
    {
        self.memory.remembered(owner)
    }

    /// Whether an owner has read an epoch since its last close.
    pub fn has_epoch(&self, owner: u8) -> bool
        ensures { result ≡ is_some ((core_state self.now).remembered owner) }
    {
        self.remembered(owner).is_some()
    }

    /// Whether its owner uses a pointer; false for a number that is no pointer's.
    pub fn is_used(&self, pointer: u16) -> bool
        ensures { result ≡ (core_state self.now).used pointer }
    {
        self.memory.uses(pointer)
    }

    /// Where a pointer's object lies, if its owner holds it; `None` for a number that is no pointer's.
    pub fn held(&self, pointer: u16) -> Option<Place>
        ensures { result ≡ (core_state self.now).held pointer }
    {
        self.memory.held(pointer)
    }

    /// Whether its owner has soiled a pointer's object since it opened; false for a number that is no pointer's.
    pub fn is_soiled(&self, pointer: u16) -> bool
        ensures { result ≡ (core_state self.now).soiled pointer }
    {
        self.memory.is_soiled(pointer)
    }

    /// Whether its owner holds a pointer's object; false for a number that is no pointer's.
    pub fn is_held(&self, pointer: u16) -> bool
        ensures { result ≡ is_some ((core_state self.now).held pointer) }
    {
        self.memory.is_held(pointer)
    }

    /// The cell of a pointer; 0 for a number that is no pointer's.
    pub fn cell(&self, pointer: u16) -> u64
        ensures { result ≡ (core_state self.now).cell pointer }
    {
        self.memory.cell(pointer)
    }

    /// The cells of all pointers, by number.
    #[inline]
    pub fn cells(&self) -> &[u64]
        ensures sized { length result.now ≡ CELLS * (core_state self.now).mutators }
        ensures each { (p : ℕ) → slice_index result.now p ≡ (core_state self.now).cell p }
    {
        self.memory.cells()
    }
}
