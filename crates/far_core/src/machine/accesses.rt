//! An access of a closed owner made at once: as if it opened its scope, made the access and closed the scope.

ghost use Rattle.std.specs.Prelude.{◌≡◌, ◌+◌, ◌≤◌, Some, length, IsSome};
ghost use Rattle.far_word.specs.Bytes.{bytes_of};
ghost use Rattle.far_word.specs.Pointer.{read_of, word_of, without_owner_marks as cold};
ghost use Rattle.far_word.specs.declared.pointer.PtrWord.{PtrWord};
ghost use Rattle.far_events.specs.events.Accesses.{IsAtRest, cools, heats, hot_word, moved_word, overwrites_in, overwritten, with_cell};
ghost use Rattle.far_events.specs.events.Ranges.{AllLegal, after_events};
ghost use Rattle.far_events.specs.events.Step.{data_len, data_word, place_to_view};
ghost use Rattle.far_events.specs.events.Written.{spliced};
ghost use Rattle.far_core.specs.state.CoreState.{core_state};
ghost use Rattle.far_core.specs.state.Kept.{keeps_stored};

use crate::machine::Core;

/// Of an owner that is closed and remembers no epoch. No call here takes memory.
impl Core {
    /// Sets HOT on a pointer that its owner uses: what a scope leaves in which it is pinned.
    #[inline]
    pub fn heat(&mut self, owner: u8, pointer: u16)
        requires rest { IsAtRest (core_state self.old) owner pointer }
        ensures state { core_state self.new ≡ with_cell (core_state self.old) pointer (hot_word ((core_state self.old).cell pointer)) }
        ensures events { core_state self.new ≡ after_events (core_state self.old) (heats owner pointer) }
        ensures legal { AllLegal (core_state self.old) (heats owner pointer) }
        ensures kept { keeps_stored self.new ≡ keeps_stored self.old }
    {
        let _ = owner;
        self.memory.heat(pointer);
    }

    /// Bytes of a near object on which a view may rest, from its byte `from` on, become `bytes`; its pointer gets HOT and DIRTY: what a
    /// scope leaves in which it is pinned, soiled and stored into.
    #[inline]
    pub fn write_over(&mut self, owner: u8, pointer: u16, from: u16, bytes: &[u8])
        requires rest { IsAtRest (core_state self.old) owner pointer }
        requires rests { IsSome (place_to_view (read_of ((core_state self.old).cell pointer))) }
        requires inside { from + length bytes.now ≤ data_len (core_state self.old) pointer }
        ensures state { core_state self.new ≡ overwritten (core_state self.old) pointer from bytes.now }
        ensures events { core_state self.new ≡ after_events (core_state self.old) (overwrites_in (core_state self.old) owner pointer from bytes.now) }
        ensures rests { IsSome (place_to_view (read_of ((core_state self.new).cell pointer))) }
        ensures legal { AllLegal (core_state self.old) (overwrites_in (core_state self.old) owner pointer from bytes.now) }
        // the same by bytes: these are the object's now from `from` on
        ensures bytes { bytes_of (λ i. (core_state self.new).word (data_word (core_state self.old) pointer i)) (data_len (core_state self.old) pointer)
            ≡ spliced (bytes_of (λ i. (core_state self.old).word (data_word (core_state self.old) pointer i)) (data_len (core_state self.old) pointer)) from bytes.now }
        ensures kept { keeps_stored self.new ≡ keeps_stored self.old }
    {
        let _ = owner;
        self.memory.write_over(pointer, from, bytes);
    }

    /// Takes HOT from a near object that its owner uses, and that the book doesn't want: what is left where the owner asks for it
    /// to be moved, and it stays where it lies.
    #[inline]
    pub fn cool(&mut self, owner: u8, pointer: u16)
        requires rest { IsAtRest (core_state self.old) owner pointer }
        requires rests { IsSome (place_to_view (read_of ((core_state self.old).cell pointer))) }
        ensures state { (v : PtrWord) → read_of ((core_state self.old).cell pointer) ≡ Some v → core_state self.new ≡ with_cell (core_state self.old) pointer (word_of (cold v)) }
        ensures events { core_state self.new ≡ after_events (core_state self.old) (cools owner pointer (moved_word ((core_state self.old).cell pointer)) ((core_state self.new).cell pointer)) }
        ensures legal { AllLegal (core_state self.old) (cools owner pointer (moved_word ((core_state self.old).cell pointer)) ((core_state self.new).cell pointer)) }
        ensures kept { keeps_stored self.new ≡ keeps_stored self.old }
    {
        let _ = owner;
        self.memory.cool(pointer);
    }
}
