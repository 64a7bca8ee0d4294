//! Words in hex, and the bytes that they spell.

ghost use Rattle.std.specs.Prelude.{◌≡◌, ◌≤◌, ◌<◌, ◌+◌, ◌*◌, ◌%◌, ◌^◌, ◌==◌, ◌&&◌, nat_lt, nat_le, length, take, cond, Some, None, IfOk, IfErr};
ghost use Rattle.far_text.specs.Grammar.{bytes_in};
ghost use Rattle.far_text.specs.declared.hex_word.TheConstants.{LONGEST_LINE, LONGEST_BYTES};

use std::alloc::{AllocError, Global};
use std::marker::Model;

/// The most bytes that a line has, its newline not counted.
pub const LONGEST_LINE: usize = 16_384;

/// The most bytes that a word in hex spells.
pub const LONGEST_BYTES: usize = LONGEST_LINE / 2;

// How large a buffer is taken at first, which is not moved then: as much as the words of the longest text spell.
const CAPACITY: usize = 524_288;

// How many bytes more are filled than a word needs.
const STEP: usize = 1_536;

// The buffer stays shorter, so that 32 bits say where the bytes of a word begin. No text spells as many.
const END: usize = 4_294_967_296;

fn is_hex_len(len: usize) -> bool
    ensures { result ≡ (nat_lt 0 len && nat_le len LONGEST_LINE && (len % 2 == 0)) }
{
    len > 0 && len <= LONGEST_LINE && len % 2 == 0
}

// Fills the buffer with the bytes that a word spells. Whether it is a word in hex. Apart from its caller it has registers
// enough.
#[inline(never)]
fn decode(word: &[u8], buffer: &mut [u8]) -> bool
    requires some { 0 < length buffer.old }
    requires short { length word.now ≤ LONGEST_LINE }
    requires twice { length word.now ≡ 2 * length buffer.old }
    ensures { bytes_in word.now ≡ cond result (Some buffer.new) None }
{
    hex::decode_to_slice(word, buffer).is_ok()
}

// Enlarges the buffer if it is too small, and fills as much as is asked for and some more: below 2,048 bytes libc's
// `memset` uses no `rep stosb`. It stands apart from its caller, which seldom needs it.
#[inline(never)]
fn fill(buffer: &mut Vec<u8>, to: usize) -> Result<(), AllocError>
    requires more { length buffer.old.items < to }
    requires near { to ≤ length buffer.old.items + LONGEST_BYTES }
    ensures enough { IfOk result (λ _. to ≤ length buffer.new.items) }
    ensures few { IfOk result (λ _. length buffer.new.items < 2 ^ 32) }
    ensures kept { take (length buffer.old.items) buffer.new.items ≡ buffer.old.items }
    ensures fault { IfErr result (λ _. buffer.new.items ≡ buffer.old.items) }
{
    if to + STEP >= END {
        return Err(AllocError);
    }
    buffer.reserve(CAPACITY.saturating_sub(buffer.len()))?;
    buffer.resize(to + STEP, 0)
}

// Makes room for the bytes of one word more.
fn make_room(buffer: &mut Vec<u8>, to: usize) -> Result<(), AllocError>
    requires near { to ≤ length buffer.old.items + LONGEST_BYTES }
    requires few { length buffer.old.items < 2 ^ 32 }
    ensures enough { IfOk result (λ _. to ≤ length buffer.new.items) }
    ensures few { IfOk result (λ _. length buffer.new.items < 2 ^ 32) }
    ensures kept { take (length buffer.old.items) buffer.new.items ≡ buffer.old.items }
    ensures fault { IfErr result (λ _. buffer.new.items ≡ buffer.old.items) }
{
    if to > buffer.len() {
        fill(buffer, to)?;
    }
    Ok(())
}

/// The bytes that words in hex spell, and other bytes, those of one word behind those of another.
#[derive(Drop)]
pub struct HexBytes {
    buffer: Vec<u8>,
    len: usize,
}

impl Model for HexBytes {
    ghost use Rattle.std.specs.Prelude.{ℕ, ◌≤◌, ◌<◌, ◌^◌, List, length, take};
    ghost use Rattle.hex.specs.Hex.{IsBytes};

    ghost Value = { List ℕ };

    ghost view = { λ b. take b.len b.buffer.items };

    ghost invariant = { λ b. (b.len ≤ length b.buffer.items) × IsBytes (take b.len b.buffer.items) × (length b.buffer.items < 2 ^ 32) };
}

impl HexBytes {
    ghost use Rattle.std.specs.Prelude.{◌≡◌, ◌≢◌, ◌≤◌, ◌<◌, ◌^◌, ◌++◌, ◌∷◌, [], length, take, drop, true, cond, Ok, Some, None, IfOk, IfErr};
    ghost use Rattle.hex.specs.Hex.{IsBytes};
    ghost use Rattle.far_text.specs.Grammar.{bytes_in};

    /// No bytes yet.
    pub fn new(alloc: Global) -> HexBytes
        ensures { result ≡ [] }
    {
        HexBytes {
            buffer: Vec::new(alloc),
            len: 0,
        }
    }

    /// How many they are.
    pub fn len(&self) -> usize
        ensures value { result ≡ length self.now }
        ensures few { result < 2 ^ 32 }
    {
        self.len
    }

    /// The bytes.
    pub fn as_slice(&self) -> &[u8]
        ensures value { result.now ≡ self.now }
        ensures bytes { IsBytes result.now }
    {
        &self.buffer[..self.len]
    }

    /// Takes all bytes away but the first `len`.
    pub fn truncate(&mut self, len: usize)
        requires { len ≤ length self.old }
        ensures { self.new ≡ take len self.old }
    {
        self.len = len;
    }

    /// Adds a byte.
    pub fn push(&mut self, byte: u8) -> Result<(), AllocError>
        ensures value { IfOk result (λ _. self.new ≡ self.old ++ byte ∷ []) }
        ensures fault { IfErr result (λ _. self.new ≡ self.old) }
    {
        let len = self.len + 1;
        let Ok(()) = make_room(&mut self.buffer, len) else {
            return Err(AllocError);
        };
        self.buffer[self.len] = byte;
        self.len = len;
        Ok(())
    }

    /// Adds the bytes that a word spells, if it is a word in hex. Whether it is.
    #[inline(always)]
    pub fn add(&mut self, word: &[u8]) -> Result<bool, AllocError>
        ensures value { IfOk result (λ known. bytes_in word.now ≡ cond known (Some (drop (length self.old) self.new)) None) }
        ensures kept { take (length self.old) self.new ≡ self.old }
        ensures same { result ≢ Ok true → self.new ≡ self.old }
    {
        if !is_hex_len(word.len()) {
            return Ok(false);
        }
        let end = self.len + word.len() / 2;
        let Ok(()) = make_room(&mut self.buffer, end) else {
            return Err(AllocError);
        };
        if !decode(word, &mut self.buffer[self.len..end]) {
            return Ok(false);
        }
        self.len = end;
        Ok(true)
    }
}
