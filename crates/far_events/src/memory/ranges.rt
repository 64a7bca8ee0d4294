//! Several words of the memory at once.

ghost use Rattle.std.specs.Prelude.{◌≡◌, ◌*◌, ◌/◌, ◌^◌, ◌+◌, ◌<◌, ◌≤◌, ℕ, length, slice_index, slice_range, take, drop, IsSome};
ghost use Rattle.far_word.specs.Bytes.{bytes_of, packed_word};
ghost use Rattle.far_word.specs.Pointer.{read_of};
ghost use Rattle.far_word.specs.Sizes.{words_for};
ghost use Rattle.far_word.specs.declared.sizes.TheConstants.{LOG_WORDS};
ghost use Rattle.far_events.specs.events.Ranges.{with_copy, with_row};
ghost use Rattle.far_events.specs.events.Step.{data_len, data_word, near_data};
ghost use Rattle.far_events.specs.state.Law.{Law};
ghost use Rattle.far_events.specs.state.Memory.{state_of};
ghost use Rattle.far_events.specs.state.State.{State, addr};
ghost use Rattle.far_events.specs.events.Written.{written_words};

use crate::memory::Memory;
use crate::memory::reading::first_word;
use far_word::Place;

#[tactic(auto, unfolding(crate::specs::state::Memory::state_of))]
impl Memory {
    /// Reads the words from one on, as many as there is room for.
    fn read_words(&self, from: usize, words: &mut [u64])
        requires { from + length words.old ≤ LOG_WORDS * (state_of self.now).logs }
        ensures { (k : ℕ) → k < length words.old → slice_index words.new k ≡ (state_of self.now).word (from + k) }
    {
        self.words.load(from, words);
    }

    /// Reads the bytes of the words from one on, from the byte `from` of them on, as many as there is room for.
    fn read_bytes(&self, first: usize, from: usize, bytes: &mut [u8])
        requires { 8 * first + from + length bytes.old ≤ 8 * (LOG_WORDS * (state_of self.now).logs) }
        ensures bytes { (len : ℕ) → from + length bytes.old ≤ len → bytes.new ≡ slice_range (bytes_of (λ i. (state_of self.now).word (first + i)) len) from (from + length bytes.old) }
        ensures length { length bytes.new ≡ length bytes.old }
    {
        self.words.read(8 * first + from, bytes);
    }

    /// Writes bytes over those of the words from one on, from the byte `from` of them on.
    pub(crate) fn write_bytes(&mut self, first: usize, from: usize, bytes: &[u8])
        requires inside { 8 * first + from + length bytes.now ≤ 8 * (LOG_WORDS * (state_of self.old).logs) }
        requires wide { (a : ℕ) → (state_of self.old).word a < 2 ^ 64 }
        ensures { state_of self.new ≡ record (state_of self.old) { word = with_row (state_of self.old).word (first + from / 8) (length (written_words (λ i. (state_of self.old).word (first + i)) from bytes.now)) (λ k. slice_index (written_words (λ i. (state_of self.old).word (first + i)) from bytes.now) k) } }
    {
        self.words.write(8 * first + from, bytes);
    }

    /// Writes words over those from one on.
    fn write_words(&mut self, from: usize, words: &[u64])
        requires { from + length words.now ≤ LOG_WORDS * (state_of self.old).logs }
        ensures { state_of self.new ≡ record (state_of self.old) { word = with_row (state_of self.old).word from (length words.now) (λ k. slice_index words.now k) } }
    {
        self.words.store(from, words);
    }

    /// Writes zeros over the words from one on.
    pub(crate) fn write_zeros(&mut self, from: usize, count: usize)
        requires { from + count ≤ LOG_WORDS * (state_of self.old).logs }
        ensures { state_of self.new ≡ record (state_of self.old) { word = with_row (state_of self.old).word from count (λ _. 0) } }
    {
        self.words.zero(from, count);
    }

    /// Reads the bytes of the words from one on over the first of a row.
    fn unpack_words(&self, from: usize, count: usize, row: &mut [u8])
        requires words { from + count ≤ LOG_WORDS * (state_of self.now).logs }
        requires room { 8 * count ≤ length row.old }
        ensures front { take (8 * count) row.new ≡ bytes_of (λ k. (state_of self.now).word (from + k)) (8 * count) }
        ensures behind { drop (8 * count) row.new ≡ drop (8 * count) row.old }
        ensures length { length row.new ≡ length row.old }
    {
        self.words.read(8 * from, &mut row[..8 * count]);
    }

    /// Writes the first bytes of a row over the words from one on.
    fn pack_words(&mut self, from: usize, count: usize, bytes: &[u8])
        requires words { from + count ≤ LOG_WORDS * (state_of self.old).logs }
        requires bytes { 8 * count ≤ length bytes.now }
        ensures { state_of self.new ≡ record (state_of self.old) { word = with_row (state_of self.old).word from count (packed_word bytes.now) } }
    {
        self.words.put(from, count, &bytes[..8 * count]);
    }

    /// Copies the words from one on over those from another on.
    fn carry_words(&mut self, source: usize, target: usize, count: usize)
        requires source { source + count ≤ LOG_WORDS * (state_of self.old).logs }
        requires target { target + count ≤ LOG_WORDS * (state_of self.old).logs }
        ensures { state_of self.new ≡ record (state_of self.old) { word = with_copy (state_of self.old).word source target count } }
    {
        self.words.carry(source, target, count);
    }
}

impl Memory {
    /// Where the data words of an object that is held begin.
    fn first_data(&self, pointer: u16) -> usize
        requires law { Law (state_of self.now) }
        requires held { IsSome ((state_of self.now).held pointer) }
        ensures is { result ≡ near_data (read_of ((state_of self.now).cell pointer)) }
        ensures within { result + words_for (data_len (state_of self.now) pointer) ≤ LOG_WORDS * (state_of self.now).logs }
    {
        first_word(self.held_place(pointer)) + 1
    }

    pub fn load_all(&self, pointer: u16, first: u16, words: &mut [u64])
        requires law { Law (state_of self.now) }
        requires held { IsSome ((state_of self.now).held pointer) }
        requires inside { first + length words.old ≤ words_for (data_len (state_of self.now) pointer) }
        ensures { (k : ℕ) → k < length words.old → slice_index words.new k ≡ (state_of self.now).word (data_word (state_of self.now) pointer (first + k)) }
    {
        self.read_words(self.first_data(pointer) + first as usize, words);
    }

    pub fn store_all(&mut self, pointer: u16, first: u16, words: &[u64])
        requires law { Law (state_of self.old) }
        requires held { IsSome ((state_of self.old).held pointer) }
        requires inside { first + length words.now ≤ words_for (data_len (state_of self.old) pointer) }
        ensures { state_of self.new ≡ record (state_of self.old) { word = with_row (state_of self.old).word (data_word (state_of self.old) pointer first) (length words.now) (λ k. slice_index words.now k) } }
    {
        self.write_words(self.first_data(pointer) + first as usize, words);
    }

    pub fn load_bytes(&self, pointer: u16, from: u16, bytes: &mut [u8])
        requires law { Law (state_of self.now) }
        requires held { IsSome ((state_of self.now).held pointer) }
        requires inside { from + length bytes.old ≤ data_len (state_of self.now) pointer }
        ensures bytes { bytes.new ≡ slice_range (bytes_of (λ i. (state_of self.now).word (data_word (state_of self.now) pointer i)) (data_len (state_of self.now) pointer)) from (from + length bytes.old) }
        ensures length { length bytes.new ≡ length bytes.old }
    {
        self.read_bytes(self.first_data(pointer), from as usize, bytes);
    }

    pub fn store_bytes(&mut self, pointer: u16, from: u16, bytes: &[u8])
        requires law { Law (state_of self.old) }
        requires held { IsSome ((state_of self.old).held pointer) }
        requires inside { from + length bytes.now ≤ data_len (state_of self.old) pointer }
        ensures { state_of self.new ≡ record (state_of self.old) { word = with_row (state_of self.old).word (data_word (state_of self.old) pointer (from / 8)) (length (written_words (λ i. (state_of self.old).word (data_word (state_of self.old) pointer i)) from bytes.now)) (λ k. slice_index (written_words (λ i. (state_of self.old).word (data_word (state_of self.old) pointer i)) from bytes.now) k) } }
    {
        self.write_bytes(self.first_data(pointer), from as usize, bytes);
    }

    pub fn get_bytes(&self, place: Place, from: u16, bytes: &mut [u8])
        requires log { place.log < (state_of self.now).logs }
        requires inside { 8 * place.at + from + length bytes.old ≤ 8 * LOG_WORDS }
        ensures bytes { (len : ℕ) → from + length bytes.old ≤ len → bytes.new ≡ slice_range (bytes_of (λ i. (state_of self.now).word (addr place + i)) len) from (from + length bytes.old) }
        ensures length { length bytes.new ≡ length bytes.old }
    {
        self.read_bytes(first_word(place), from as usize, bytes);
    }

    pub fn put_zeros(&mut self, place: Place, count: u16)
        requires log { place.log < (state_of self.old).logs }
        requires inside { place.at + count ≤ LOG_WORDS }
        ensures { state_of self.new ≡ record (state_of self.old) { word = with_row (state_of self.old).word (place.log * LOG_WORDS + place.at) count (λ _. 0) } }
    {
        self.write_zeros(first_word(place), count as usize);
    }

    pub fn get_words(&self, place: Place, count: u16, row: &mut [u8])
        requires log { place.log < (state_of self.now).logs }
        requires inside { place.at + count ≤ LOG_WORDS }
        requires room { 8 * count ≤ length row.old }
        ensures front { take (8 * count) row.new ≡ bytes_of (λ k. (state_of self.now).word (place.log * LOG_WORDS + place.at + k)) (8 * count) }
        ensures behind { drop (8 * count) row.new ≡ drop (8 * count) row.old }
        ensures length { length row.new ≡ length row.old }
    {
        self.unpack_words(first_word(place), count as usize, row);
    }

    pub fn put_words(&mut self, place: Place, bytes: &[u8], count: u16)
        requires log { place.log < (state_of self.old).logs }
        requires inside { place.at + count ≤ LOG_WORDS }
        requires bytes { 8 * count ≤ length bytes.now }
        ensures { state_of self.new ≡ record (state_of self.old) { word = with_row (state_of self.old).word (place.log * LOG_WORDS + place.at) count (packed_word bytes.now) } }
    {
        self.pack_words(first_word(place), count as usize, bytes);
    }

    pub fn copy_words(&mut self, from: Place, to: Place, count: u16)
        requires source { from.log < (state_of self.old).logs }
        requires within { from.at + count ≤ LOG_WORDS }
        requires target { to.log < (state_of self.old).logs }
        requires inside { to.at + count ≤ LOG_WORDS }
        ensures { state_of self.new ≡ record (state_of self.old) { word = with_copy (state_of self.old).word (from.log * LOG_WORDS + from.at) (to.log * LOG_WORDS + to.at) count } }
    {
        self.carry_words(first_word(from), first_word(to), count as usize);
    }
}
