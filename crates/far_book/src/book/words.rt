//! The words of cells whose objects have no marks but DIRTY.

ghost use Rattle.std.specs.Prelude.{◌≡◌};
ghost use Rattle.far_word.specs.declared.pointer.PtrWord.TheVariants.{Near as near_at, Far as far_at};
ghost use Rattle.far_word.specs.Pointer.{IsPtr};
ghost use Rattle.far_events.specs.events.Naming.{no_marks};
ghost use Rattle.far_book.specs.book.Effects.{near_word, far_word};

use far_word::{Marks, Place, PtrWord};

const NO_MARKS: Marks = Marks {
    hot: false,
    evac: false,
    moved: false,
    dropped: false,
    dirty: false,
};

/// The cell of an object that lies near, without marks but DIRTY, and that as said.
pub(crate) fn near_word(dirty: bool, len: u16, ds: u8, place: Place) -> u64
    requires { IsPtr (near_at len ds place no_marks) }
    ensures { result ≡ near_word dirty len ds place }
{
    let word = PtrWord::Near {
        len,
        ds,
        place,
        marks: Marks { dirty, ..NO_MARKS },
    };
    word.pack()
}

/// The cell of an object that is far, without marks.
pub(crate) fn far_word(len: u16, ds: u8) -> u64
    requires { IsPtr (far_at len ds no_marks) }
    ensures { result ≡ far_word len ds }
{
    let word = PtrWord::Far {
        len,
        ds,
        marks: NO_MARKS,
    };
    word.pack()
}
