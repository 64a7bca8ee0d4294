//! The bits of a word, as numbers.

ghost use Rattle.std.specs.Prelude.{◌≡◌, ◌+◌, ◌<◌};
ghost use Rattle.far_word.specs.Mark.{field, is_set};

/// The `bits` bits of a word from bit `low` on.
pub(crate) fn field(word: u64, low: u32, bits: u32) -> u64
    requires { low + bits < 64 }
    ensures { result ≡ field word low bits }
{
    (word >> low) & ((1 << bits) - 1)
}

/// Whether one bit of a word is set.
pub(crate) fn is_set(word: u64, bit: u32) -> bool
    requires { bit < 64 }
    ensures { result ≡ is_set word bit }
{
    (word >> bit) & 1 == 1
}
