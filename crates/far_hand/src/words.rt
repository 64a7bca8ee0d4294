//! Words as bytes.

ghost use Rattle.std.specs.Prelude.{◌≡◌, ◌+◌, ◌*◌, ◌≤◌, ◌++◌, length, take, drop};
ghost use Rattle.far_word.specs.Bytes.{bytes_of, packed_word};

use far_word::{pack_bytes, unpack_bytes};

/// The word of the eight bytes from 8i on.
#[inline(always)]
pub fn packed_whole(bytes: &[u8], i: usize) -> u64
    requires { 8 * i + 8 ≤ length bytes.now }
    ensures { result ≡ packed_word bytes.now i }
{
    let mut word = [0];
    pack_bytes(&bytes[8 * i..8 * i + 8], &mut word);
    word[0]
}

/// Writes the bytes of a word over the eight from 8i on; the others stay.
#[inline(always)]
pub fn unpack_word(bytes: &mut [u8], i: usize, word: u64)
    requires { 8 * i + 8 ≤ length bytes.old }
    ensures front { take (8 * i + 8) bytes.new ≡ take (8 * i) bytes.old ++ bytes_of (λ _. word) 8 }
    ensures behind { drop (8 * i + 8) bytes.new ≡ drop (8 * i + 8) bytes.old }
    ensures length { length bytes.new ≡ length bytes.old }
{
    unpack_bytes(&[word], &mut bytes[8 * i..8 * i + 8]);
}
