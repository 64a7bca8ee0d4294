//! What an access leaves whose owner is closed before and after it.

ghost use Rattle.std.specs.Prelude.{◌≡◌, ◌+◌, ◌*◌, ◌<◌, ◌≤◌, length, IsSome};
ghost use Rattle.far_word.specs.declared.sizes.TheConstants.{CELLS, LOG_WORDS};
ghost use Rattle.far_word.specs.Pointer.{IsPtr, read_of, word_of, without_owner_marks as cold};
ghost use Rattle.far_word.specs.Sizes.{words_for};
ghost use Rattle.far_word.specs.declared.pointer.PtrWord.{PtrWord};
ghost use Rattle.far_events.specs.events.Accesses.{hot_word, overwritten, with_cell, written_word};
ghost use Rattle.far_events.specs.events.Step.{data_len, near_data, place_to_view};
ghost use Rattle.far_events.specs.state.Law.{Law};
ghost use Rattle.far_events.specs.state.Memory.{state_of};

use crate::memory::Memory;
use crate::memory::reading::{first_word, place_to_view};
use far_word::{Mark, without_owner_marks};

impl Memory {
    /// Sets HOT.
    pub fn heat(&mut self, pointer: u16)
        requires { pointer < CELLS * (state_of self.old).mutators }
        ensures { state_of self.new ≡ with_cell (state_of self.old) pointer (hot_word ((state_of self.old).cell pointer)) }
    {
        let old = self.cell_at(pointer);
        self.set_cell(pointer, old | Mark::Hot.mask());
    }

    /// Sets HOT and DIRTY.
    fn mark_written(&mut self, pointer: u16)
        requires { pointer < CELLS * (state_of self.old).mutators }
        ensures { state_of self.new ≡ with_cell (state_of self.old) pointer (written_word ((state_of self.old).cell pointer)) }
    {
        let old = self.cell_at(pointer);
        self.set_cell(pointer, old | Mark::Hot.mask() | Mark::Dirty.mask());
    }

    /// Where the data words of an object begin on which a view may rest.
    fn data_at_rest(&self, pointer: u16) -> usize
        requires law { Law (state_of self.now) }
        requires pointer { pointer < CELLS * (state_of self.now).mutators }
        requires rests { IsSome (place_to_view (read_of ((state_of self.now).cell pointer))) }
        ensures is { result ≡ near_data (read_of ((state_of self.now).cell pointer)) }
        ensures within { result + words_for (data_len (state_of self.now) pointer) ≤ LOG_WORDS * (state_of self.now).logs }
    {
        match place_to_view(self.cell_at(pointer)) {
            Some(place) => first_word(place) + 1,
            None => unreachable!(),
        }
    }

    /// Writes bytes over an object's, and sets HOT and DIRTY.
    pub fn write_over(&mut self, pointer: u16, from: u16, bytes: &[u8])
        requires law { Law (state_of self.old) }
        requires pointer { pointer < CELLS * (state_of self.old).mutators }
        requires rests { IsSome (place_to_view (read_of ((state_of self.old).cell pointer))) }
        requires inside { from + length bytes.now ≤ data_len (state_of self.old) pointer }
        ensures { state_of self.new ≡ overwritten (state_of self.old) pointer from bytes.now }
    {
        let first = self.data_at_rest(pointer);
        self.mark_written(pointer);
        self.write_bytes(first, from as usize, bytes);
    }

    /// Takes HOT away, and MOVE and DROP.
    pub fn cool(&mut self, pointer: u16)
        requires { pointer < CELLS * (state_of self.old).mutators }
        ensures { (v : PtrWord) → IsPtr v → word_of v ≡ (state_of self.old).cell pointer → state_of self.new ≡ with_cell (state_of self.old) pointer (word_of (cold v)) }
    {
        let old = self.cell_at(pointer);
        self.set_cell(pointer, without_owner_marks(old));
    }
}
