//! A new object whose first bytes are given, made at once: as if the book placed zeros, and their owner took them over and wrote over them.

ghost use Rattle.std.specs.Prelude.{◌≡◌, ◌+◌, ◌/◌, ◌≤◌, None, length};
ghost use Rattle.far_word.specs.Header.{IsHead};
ghost use Rattle.far_word.specs.Sizes.{size_of};
ghost use Rattle.far_word.specs.declared.sizes.TheConstants.{CELLS, LOG_WORDS};
ghost use Rattle.far_events.specs.events.Legal.{IsClosed, IsNext};
ghost use Rattle.far_events.specs.events.NewObjects.{made_with, places_with};
ghost use Rattle.far_events.specs.events.Ranges.{AllLegal, after_events};
ghost use Rattle.far_core.specs.state.CoreState.{core_state};
ghost use Rattle.far_core.specs.state.Kept.{keeps_stored};

use crate::machine::Core;
use far_word::{HeadWord, Place};

impl Core {
    /// Makes an object of 1 to 4,088 bytes for a pointer whose cell is free, at a place where the next span of a log may stand: the pointer,
    /// the length and the data structure are the header's, and the object's first bytes are `bytes`, the others 0. Its owner, which is closed
    /// and remembers no epoch, uses the pointer from then on, which has DIRTY alone. That is what is left where the book places zeros there,
    /// and the owner adopts the pointer, writes the bytes within a scope, asks for the object to be moved, and it stays. Takes no memory.
    #[inline(always)]
    pub fn place_with(&mut self, owner: u8, head: HeadWord, place: Place, bytes: &[u8])
        // the owner is closed and remembers no epoch, the header is on the layout, and its pointer is the owner's, with a free cell
        requires head { IsHead head }
        requires closed { IsClosed (core_state self.old) owner }
        requires fresh { (core_state self.old).remembered owner ≡ None }
        requires own { head.pointer / CELLS ≡ owner }
        requires free { (core_state self.old).cell head.pointer ≡ 0 }

        // the next span may stand at the place, where it ends within the log, and the bytes are no more than the object has
        requires next { IsNext (core_state self.old) place }
        requires inside { place.at + size_of head.len ≤ LOG_WORDS }
        requires front { length bytes.now ≤ head.len }

        // the object lies there, and events led there, each legal; whether stored words are kept stays
        ensures state { core_state self.new ≡ made_with (core_state self.old) head.pointer head.len head.ds place bytes.now }
        ensures events { core_state self.new ≡ after_events (core_state self.old) (places_with owner head.pointer head.len head.ds place bytes.now) }
        ensures legal { AllLegal (core_state self.old) (places_with owner head.pointer head.len head.ds place bytes.now) }
        ensures kept { keeps_stored self.new ≡ keeps_stored self.old }
    {
        let _ = owner;
        self.memory.place_with(head, place, bytes);
    }
}
