//! A span, and what it takes.

ghost use Rattle.std.specs.Prelude.{◌≡◌};
ghost use Rattle.far_word.specs.Sizes.{size_of};

/// The words of one object in a log: its header, and the data words behind it.
#[derive(Clone, Copy, Debug, PartialEq, Eq)]
pub struct Span {
    /// Where the header stands in its log, in words.
    pub at: u16,
    /// The number of the pointer that the header names, below [`far_word::POINTERS`].
    pub p: u16,
    /// The data bytes, 1 to [`far_word::LONGEST`].
    pub len: u16,
    /// The data structure, any number.
    pub ds: u8,
}

/// The words that an object of `len` data bytes takes in its log, its header included. Any length has a size, also one
/// that no object may have.
pub fn size_of(len: u16) -> usize
    ensures { result ≡ size_of len }
{
    far_word::size_of(len) as usize
}
