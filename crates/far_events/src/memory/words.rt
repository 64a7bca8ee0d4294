//! The words of the logs, as bytes.

ghost use Rattle.std.specs.Prelude.{◌≡◌, ◌+◌, ◌*◌, ◌<◌, ◌≤◌, ℕ, length, slice_index, take, drop, IfOk, replicate};
ghost use Rattle.std.specs.Vec.{vec_len};
ghost use Rattle.far_word.specs.Bytes.{byte_at, bytes_of, packed_word};
ghost use Rattle.far_word.specs.declared.sizes.TheConstants.{LOG_WORDS, MOST_LOGS};
ghost use Rattle.far_events.specs.events.Ranges.{with_copy, with_row};
ghost use Rattle.far_events.specs.state.State.{put};
ghost use Rattle.far_events.specs.state.Words.{word_in, with_bytes};

use byteorder::{ByteOrder, LittleEndian};
use far_word::{pack_bytes, unpack_bytes};
use std::alloc::{AllocError, Global};

// Fewer words are copied one by one: for them a copy in one piece costs more.
const FEW: usize = 33;

// How many bytes are filled at once.
const STEP: usize = 1920;

// So many zeros. They are filled a few at a time: where little is filled no instruction is repeated for each byte.
fn zero_bytes(alloc: Global, len: usize) -> Result<Vec<u8>, AllocError>
    ensures items { IfOk result (λ bytes. bytes.items ≡ replicate len 0) }
    ensures len { IfOk result (λ bytes. vec_len bytes ≡ len) }
{
    let mut bytes = Vec::with_capacity(alloc, len)?;
    while bytes.len() < len {
        let filled = bytes.len() + STEP.min(len - bytes.len());
        bytes.resize(filled, 0).unwrap();
    }
    Ok(bytes)
}

/// A row of words, eight bytes each, the low byte first: so a range of them is copied to bytes and from bytes in one piece.
#[derive(Drop)]
pub(crate) struct Words {
    pub(crate) bytes: Vec<u8>,
}

impl Words {
    /// So many words of 0.
    pub(crate) fn new(alloc: Global, count: usize) -> Result<Words, AllocError>
        requires { count ≤ LOG_WORDS * MOST_LOGS }
        ensures sized { IfOk result (λ words. vec_len words.bytes ≡ 8 * count) }
        ensures zeros { IfOk result (λ words. word_in words ≡ (λ _. 0)) }
    {
        Ok(Words {
            bytes: zero_bytes(alloc, 8 * count)?,
        })
    }

    /// One word.
    #[inline]
    pub(crate) fn word(&self, at: usize) -> u64
        requires { 8 * at + 8 ≤ vec_len self.now.bytes }
        ensures { result ≡ word_in self.now at }
    {
        LittleEndian::read_u64(&self.bytes[8 * at..])
    }

    /// One word becomes another.
    #[inline]
    pub(crate) fn set(&mut self, at: usize, word: u64)
        requires { 8 * at + 8 ≤ vec_len self.old.bytes }
        ensures sized { vec_len self.new.bytes ≡ vec_len self.old.bytes }
        ensures word { word_in self.new ≡ put (word_in self.old) at word }
    {
        LittleEndian::write_u64(&mut self.bytes[8 * at..], word);
    }

    /// The bytes from one on, as many as there is room for.
    #[inline]
    pub(crate) fn read(&self, from: usize, bytes: &mut [u8])
        requires { from + length bytes.old ≤ vec_len self.now.bytes }
        ensures bytes { (k : ℕ) → k < length bytes.old → slice_index bytes.new k ≡ byte_at (word_in self.now) (from + k) }
        ensures length { length bytes.new ≡ length bytes.old }
    {
        each_fits(&self.bytes);
        bytes.copy_from_slice(&self.bytes[from..from + bytes.len()]);
    }

    /// Bytes are written over those from one on.
    #[inline]
    pub(crate) fn write(&mut self, from: usize, bytes: &[u8])
        requires { from + length bytes.now ≤ vec_len self.old.bytes }
        ensures sized { vec_len self.new.bytes ≡ vec_len self.old.bytes }
        ensures words { word_in self.new ≡ with_bytes (word_in self.old) from bytes.now }
    {
        each_fits(&self.bytes);
        self.bytes[from..from + bytes.len()].copy_from_slice(bytes);
    }

    /// Words become those that bytes make, eight each.
    #[inline]
    pub(crate) fn put(&mut self, from: usize, count: usize, bytes: &[u8])
        requires inside { 8 * (from + count) ≤ vec_len self.old.bytes }
        requires bytes { length bytes.now ≡ 8 * count }
        ensures sized { vec_len self.new.bytes ≡ vec_len self.old.bytes }
        ensures words { word_in self.new ≡ with_row (word_in self.old) from count (packed_word bytes.now) }
    {
        self.bytes[8 * from..8 * (from + count)].copy_from_slice(bytes);
    }

    /// Words from one on, as many as there is room for.
    pub(crate) fn load(&self, from: usize, words: &mut [u64])
        requires { 8 * (from + length words.old) ≤ vec_len self.now.bytes }
        ensures { (k : ℕ) → k < length words.old → slice_index words.new k ≡ word_in self.now (from + k) }
    {
        pack_bytes(&self.bytes[8 * from..8 * (from + words.len())], words);
    }

    /// Words are written over those from one on.
    pub(crate) fn store(&mut self, from: usize, words: &[u64])
        requires { 8 * (from + length words.now) ≤ vec_len self.old.bytes }
        ensures sized { vec_len self.new.bytes ≡ vec_len self.old.bytes }
        ensures words { word_in self.new ≡ with_row (word_in self.old) from (length words.now) (λ k. slice_index words.now k) }
    {
        unpack_bytes(words, &mut self.bytes[8 * from..8 * (from + words.len())]);
    }

    /// Words become 0.
    #[inline]
    pub(crate) fn zero(&mut self, from: usize, count: usize)
        requires { 8 * (from + count) ≤ vec_len self.old.bytes }
        ensures sized { vec_len self.new.bytes ≡ vec_len self.old.bytes }
        ensures words { word_in self.new ≡ with_row (word_in self.old) from count (λ _. 0) }
    {
        self.bytes[8 * from..8 * (from + count)].fill(0);
    }

    /// Words become those from another on, one after the other.
    #[inline(always)]
    pub(crate) fn carry(&mut self, source: usize, target: usize, count: usize)
        requires source { 8 * (source + count) ≤ vec_len self.old.bytes }
        requires target { 8 * (target + count) ≤ vec_len self.old.bytes }
        ensures sized { vec_len self.new.bytes ≡ vec_len self.old.bytes }
        ensures words { word_in self.new ≡ with_copy (word_in self.old) source target count }
    {
        if count < FEW {
            copy_each(&mut self.bytes, source, target, count);
        } else {
            self.carry_many(source, target, count);
        }
    }

    /// The same; where the two ranges are apart, in one piece. It stands apart, so that callers who copy few save nothing for it.
    #[inline(never)]
    fn carry_many(&mut self, source: usize, target: usize, count: usize)
        requires source { 8 * (source + count) ≤ vec_len self.old.bytes }
        requires target { 8 * (target + count) ≤ vec_len self.old.bytes }
        ensures sized { vec_len self.new.bytes ≡ vec_len self.old.bytes }
        ensures words { word_in self.new ≡ with_copy (word_in self.old) source target count }
    {
        if source + count <= target {
            copy_behind(&mut self.bytes, 8 * source, 8 * target, 8 * count);
        } else if target + count <= source {
            copy_before(&mut self.bytes, 8 * source, 8 * target, 8 * count);
        } else {
            copy_each(&mut self.bytes, source, target, count);
        }
    }
}

/// One word of bytes.
#[inline]
fn read_word(bytes: &[u8], at: usize) -> u64
    requires { 8 * at + 8 ≤ length bytes.now }
    ensures { result ≡ packed_word bytes.now at }
{
    LittleEndian::read_u64(&bytes[8 * at..])
}

/// One word of bytes becomes another.
#[inline]
fn write_word(bytes: &mut [u8], at: usize, word: u64)
    requires { 8 * at + 8 ≤ length bytes.old }
    ensures length { length bytes.new ≡ length bytes.old }
    ensures word { packed_word bytes.new ≡ put (packed_word bytes.old) at word }
{
    LittleEndian::write_u64(&mut bytes[8 * at..], word);
}

/// Words of bytes become those from another on, one by one. Over a slice no word loads the row's pointer anew.
#[inline]
fn copy_each(bytes: &mut [u8], source: usize, target: usize, count: usize)
    requires source { 8 * (source + count) ≤ length bytes.old }
    requires target { 8 * (target + count) ≤ length bytes.old }
    ensures length { length bytes.new ≡ length bytes.old }
    ensures words { packed_word bytes.new ≡ with_copy (packed_word bytes.old) source target count }
{
    for i in 0..count {
        let word = read_word(bytes, source + i);
        write_word(bytes, target + i, word);
    }
}

/// Bytes become those from an earlier one on.
#[inline]
fn copy_behind(bytes: &mut [u8], source: usize, target: usize, size: usize)
    requires apart { source + size ≤ target }
    requires inside { target + size ≤ length bytes.old }
    ensures length { length bytes.new ≡ length bytes.old }
    ensures bytes { (λ (q : ℕ). slice_index bytes.new q) ≡ with_row (λ q. slice_index bytes.old q) target size (λ k. slice_index bytes.old (source + k)) }
{
    let (front, behind) = bytes.split_at_mut(target);
    behind[..size].copy_from_slice(&front[source..source + size]);
}

/// Bytes become those from a later one on.
#[inline]
fn copy_before(bytes: &mut [u8], source: usize, target: usize, size: usize)
    requires apart { target + size ≤ source }
    requires inside { source + size ≤ length bytes.old }
    ensures length { length bytes.new ≡ length bytes.old }
    ensures bytes { (λ (q : ℕ). slice_index bytes.new q) ≡ with_row (λ q. slice_index bytes.old q) target size (λ k. slice_index bytes.old (source + k)) }
{
    let (front, behind) = bytes.split_at_mut(source);
    front[target..target + size].copy_from_slice(&behind[..size]);
}

/// What the type of bytes says, for clauses alone.
#[inline(always)]
fn each_fits(_bytes: &[u8])
    ensures { (k : ℕ) → slice_index _bytes.now k < 256 }
{}
