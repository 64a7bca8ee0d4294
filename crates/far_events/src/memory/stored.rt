//! What is stored of each pointer, for clauses alone.

ghost use Rattle.std.specs.Prelude.{◌≡◌, ℕ, List, [], ◌∷◌, slice_index};
ghost use Rattle.std.specs.Borrow.{ftrue};
ghost use Rattle.far_word.specs.Bytes.{words_of};

use std::marker::{Model, PhantomData};

/// The objects that were stored, the last one first: of each its pointer and its words. It has no bytes, and its calls do nothing
/// when they run.
#[derive(Drop)]
pub(crate) struct Stored {
    marker: PhantomData<u8>,
    pub(crate) ghost items: { List (ℕ × List ℕ) },
}

impl Model for Stored {
    ghost also_owns = { λ _. ftrue };
}

impl Stored {
    pub(crate) fn new() -> Stored
        ensures { result.items ≡ [] }
    {
        Stored {
            marker: PhantomData,
        }
    }

    /// The words of these bytes were stored of the pointer, which stands alone in a row.
    #[inline(always)]
    pub(crate) fn note(&mut self, _pointer: &[u16], _bytes: &[u8])
        ensures { self.new.items ≡ (slice_index _pointer.now 0, words_of _bytes.now) ∷ self.old.items }
    {}
}
