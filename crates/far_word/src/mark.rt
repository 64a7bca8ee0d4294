//! The marks of a pointer word.

ghost use Rattle.std.specs.Prelude.{◌≡◌, ◌*◌, ◌^◌};
ghost use Rattle.far_word.specs.Mark.{position, marks_of, marks_number};

use crate::field::is_set;

pub(crate) const DIRTY: u32 = 57;

const DROP: u32 = 59;

const MOVE: u32 = 60;

const EVAC: u32 = 61;

const HOT: u32 = 62;

/// A mark of a pointer word.
#[derive(Clone, Copy, Debug, PartialEq, Eq)]
pub enum Mark {
    /// HOT: the object was dereferenced since it was last placed.
    Hot,
    /// EVAC: the object's log was chosen to be emptied.
    Evac,
    /// MOVE: the owner asks for the object to be moved.
    Moved,
    /// DROP: the owner dropped the object.
    Dropped,
    /// DIRTY: the owner may have written the object since it was fetched, or the object was never far.
    Dirty,
}

impl Mark {
    /// The mark's bit in a pointer word.
    pub fn mask(self) -> u64
        ensures { result ≡ 2 ^ position self }
    {
        match self {
            Mark::Hot => 1 << HOT,
            Mark::Evac => 1 << EVAC,
            Mark::Moved => 1 << MOVE,
            Mark::Dropped => 1 << DROP,
            Mark::Dirty => 1 << DIRTY,
        }
    }
}

/// The marks that a pointer word has.
#[derive(Clone, Copy, Debug, PartialEq, Eq)]
pub struct Marks {
    /// Whether it has [`Mark::Hot`].
    pub hot: bool,
    /// Whether it has [`Mark::Evac`].
    pub evac: bool,
    /// Whether it has [`Mark::Moved`].
    pub moved: bool,
    /// Whether it has [`Mark::Dropped`].
    pub dropped: bool,
    /// Whether it has [`Mark::Dirty`].
    pub dirty: bool,
}

impl Marks {
    /// The marks of a word.
    pub(crate) fn read(word: u64) -> Marks
        ensures { result ≡ marks_of word }
    {
        Marks {
            hot: is_set(word, HOT),
            evac: is_set(word, EVAC),
            moved: is_set(word, MOVE),
            dropped: is_set(word, DROP),
            dirty: is_set(word, DIRTY),
        }
    }

    /// The marks but DIRTY where they stand in a word, all other bits zero.
    pub(crate) fn pack(self) -> u64
        ensures { result ≡ marks_number self * 2 ^ 59 }
    {
        let mut word = 0;
        if self.dropped {
            word |= 1 << DROP;
        }
        if self.moved {
            word |= 1 << MOVE;
        }
        if self.evac {
            word |= 1 << EVAC;
        }
        if self.hot {
            word |= 1 << HOT;
        }
        word
    }
}
