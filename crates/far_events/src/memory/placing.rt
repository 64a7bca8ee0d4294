//! A new object whose first bytes are given, made at once.

ghost use Rattle.std.specs.Prelude.{◌≡◌, ◌+◌, ◌*◌, ◌^◌, ◌<◌, ◌≤◌, ℕ, length};
ghost use Rattle.far_word.specs.Header.{IsHead, head_word};
ghost use Rattle.far_word.specs.Pointer.{IsPtr};
ghost use Rattle.far_word.specs.Sizes.{size_of, words_for};
ghost use Rattle.far_word.specs.declared.pointer.PtrWord.TheVariants.{Near as near_at};
ghost use Rattle.far_word.specs.declared.sizes.TheConstants.{CELLS, LOG_WORDS};
ghost use Rattle.far_events.specs.declared.event.Kind.{Kind};
ghost use Rattle.far_events.specs.events.Naming.{no_marks};
ghost use Rattle.far_events.specs.events.NewObjects.{made_with, made_word, words_with};
ghost use Rattle.far_events.specs.events.Ranges.{with_row};
ghost use Rattle.far_events.specs.state.Memory.{state_of};
ghost use Rattle.far_events.specs.state.State.{State, addr, put};

use crate::memory::Memory;
use crate::memory::reading::first_word;
use far_word::{HeadWord, Marks, Place, PtrWord, words_for};

impl Memory {
    /// Words from one on become 0, if there are any.
    #[inline(always)]
    fn blank(&mut self, from: usize, count: usize)
        requires { from + count ≤ LOG_WORDS * (state_of self.old).logs }
        ensures { state_of self.new ≡ record (state_of self.old) { word = with_row (state_of self.old).word from count (λ _. 0) } }
    {
        if count != 0 {
            self.write_zeros(from, count);
        }
    }

    /// Writes a header at a place, and behind it the words of an object whose first bytes are these, and the others 0.
    #[inline(always)]
    fn write_object(&mut self, head: HeadWord, place: Place, bytes: &[u8])
        requires head { IsHead head }
        requires log { place.log < (state_of self.old).logs }
        requires inside { place.at + size_of head.len ≤ LOG_WORDS }
        requires front { length bytes.now ≤ head.len }
        requires wide { (a : ℕ) → (state_of self.old).word a < 2 ^ 64 }
        ensures { state_of self.new ≡ record (state_of self.old) { word = with_row (put (state_of self.old).word (addr place) (head_word head.pointer head.len head.ds)) (addr place + 1) (words_for head.len) (words_with bytes.now) } }
    {
        let first = first_word(place);
        let whole = bytes.len() / 8;
        self.set_word(first, head.pack());
        self.blank(first + 1 + whole, words_for(head.len) as usize - whole);
        self.write_bytes(first + 1, 0, bytes);
    }

    /// Makes an object at a new place, named by a pointer that its owner uses.
    #[inline(always)]
    pub fn place_with(&mut self, head: HeadWord, place: Place, bytes: &[u8])
        requires head { IsHead head }
        requires layout { IsPtr (near_at head.len head.ds place no_marks) }
        requires pointer { head.pointer < CELLS * (state_of self.old).mutators }
        requires log { place.log < (state_of self.old).logs }
        requires open { (state_of self.old).kind (state_of self.old).current ≡ Kind.Open }
        requires front { length bytes.now ≤ head.len }
        requires wide { (a : ℕ) → (state_of self.old).word a < 2 ^ 64 }
        ensures { state_of self.new ≡ made_with (state_of self.old) head.pointer head.len head.ds place bytes.now }
    {
        self.write_object(head, place, bytes);
        let word = made_word(head.len, head.ds, place);
        self.take(head.pointer, word, head.len, place);
        self.use_cell(head.pointer);
    }
}

/// The cell of an object that lies near, without marks but DIRTY.
#[inline(always)]
fn made_word(len: u16, ds: u8, place: Place) -> u64
    requires { IsPtr (near_at len ds place no_marks) }
    ensures { result ≡ made_word len ds place }
{
    let marks = Marks {
        hot: false,
        evac: false,
        moved: false,
        dropped: false,
        dirty: true,
    };
    let word = PtrWord::Near {
        len,
        ds,
        place,
        marks,
    };
    word.pack()
}
