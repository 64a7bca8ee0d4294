//! Bytes in words: eight to a word, little end first, zeros after the last byte.

ghost use Rattle.std.specs.Prelude.{◌≡◌, ◌*◌, ◌<◌, length, slice_index, ◌+◌};
ghost use Rattle.far_word.specs.Sizes.{words_for};
ghost use Rattle.far_word.specs.Bytes.{bytes_of, words_of, packed_word, with_word};

use byteorder::{ByteOrder, LittleEndian};

/// Packs bytes into the words that hold them, eight to a word, the first byte lowest. The spare bytes of the last word
/// are zero. No bytes take no words.
pub fn pack_bytes(bytes: &[u8], words: &mut [u64])
    requires { length words.old ≡ words_for (length bytes.now) }
    ensures { words.new ≡ words_of bytes.now }
{
    let whole = bytes.len() / 8;
    for i in 0..whole {
        words[i] = LittleEndian::read_u64(&bytes[8 * i..]);
    }
    if whole < words.len() {
        words[whole] = last_word(bytes, whole);
    }
}

/// Unpacks as many bytes as there is room for, from the words that hold them: what [`pack_bytes`] packed.
pub fn unpack_bytes(words: &[u64], bytes: &mut [u8])
    requires { length words.now ≡ words_for (length bytes.old) }
    ensures { bytes.new ≡ bytes_of (λ i. slice_index words.now i) (length bytes.old) }
{
    let whole = bytes.len() / 8;
    for i in 0..whole {
        LittleEndian::write_u64(&mut bytes[8 * i..], words[i]);
    }
    if whole < words.len() {
        overwrite_last(bytes, whole, words[whole]);
    }
}

/// The word of the bytes from 8i on, of which fewer than eight are left, with zeros after them: the last that
/// [`pack_bytes`] packs.
#[inline]
pub fn last_word(bytes: &[u8], i: usize) -> u64
    requires some { 8 * i < length bytes.now }
    requires few { length bytes.now < 8 * i + 8 }
    ensures { result ≡ packed_word bytes.now i }
{
    let len = bytes.len();
    if len >= 8 {
        return LittleEndian::read_u64(&bytes[len - 8..]) >> (8 * (8 * i + 8 - len));
    }
    let mut last = [0; 8];
    last[..len].copy_from_slice(bytes);
    LittleEndian::read_u64(&last)
}

// Writes the first bytes of a word over those from 8i on, of which fewer than eight are left.
fn overwrite_last(bytes: &mut [u8], i: usize, word: u64)
    requires some { 8 * i < length bytes.old }
    requires few { length bytes.old < 8 * i + 8 }
    ensures { bytes.new ≡ with_word bytes.old i word }
{
    let rest = &mut bytes[8 * i..];
    let mut last = [0; 8];
    LittleEndian::write_u64(&mut last, word);
    rest.copy_from_slice(&last[..rest.len()]);
}
