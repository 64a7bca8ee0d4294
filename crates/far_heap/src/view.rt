// Views, and what a dereference answers.
ghost use Rattle.std.specs.Prelude.{◌≡◌, Some};
ghost use Rattle.far_heap.specs.Mine.{IsUnbrought, refusal_of};

use far_word::Refused;

/// An object that a scope views: its pointer, and its length when it was viewed. It is plain data: the scope knows what it views.
#[derive(Clone, Copy, Debug, PartialEq, Eq)]
pub struct View {
    pub(crate) pointer: u16,
    pub(crate) len: u16,
}

impl View {
    /// The pointer of the object.
    pub fn pointer(self) -> u16
        ensures { result ≡ self.pointer }
    {
        self.pointer
    }

    /// How many bytes the object had when it was viewed.
    pub fn len(self) -> u16
        ensures { result ≡ self.len }
    {
        self.len
    }
}

/// What a dereference without the lock answers: a view, or the word that was found, on which no view may rest; `Scope::view` then has the object brought.
#[derive(Clone, Copy, Debug, PartialEq, Eq)]
pub enum Tried {
    View(View),
    Slow(u64),
}

// What came of a dereference under the lock: the object is viewed, or why it isn't. It is one byte, which a call answers in a register: a whole [`Refused`]
// would have its place in memory zeroed by each view, also of what is viewed already.
#[derive(Clone, Copy)]
pub(crate) enum Brought {
    Viewed,
    NoRoom,
    Memory,
    Device,
    Damaged,
}

impl Brought {
    // The object isn't viewed, for this reason.
    #[inline(always)]
    pub(crate) fn of(why: Refused) -> Brought
        requires { IsUnbrought why }
        ensures { refusal_of result ≡ Some why }
    {
        match why {
            Refused::NoRoom => Brought::NoRoom,
            Refused::Memory => Brought::Memory,
            Refused::Device => Brought::Device,
            _ => Brought::Damaged,
        }
    }

    // Why the object isn't viewed.
    #[inline(always)]
    pub(crate) fn refusal(self) -> Option<Refused>
        ensures { result ≡ refusal_of self }
    {
        match self {
            Brought::Viewed => None,
            Brought::NoRoom => Some(Refused::NoRoom),
            Brought::Memory => Some(Refused::Memory),
            Brought::Device => Some(Refused::Device),
            Brought::Damaged => Some(Refused::Damaged),
        }
    }
}
