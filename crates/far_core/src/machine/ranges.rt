//! Several events of one kind made at once, as one after the other.

ghost use Rattle.std.specs.Prelude.{◌≡◌, ◌≢◌, ◌⊎◌, ◌+◌, ◌-◌, ◌*◌, ◌/◌, ◌^◌, ◌<◌, ◌≤◌, ℕ, true, false, length, slice_index, slice_range, take, drop, Some, IsSome};
ghost use Rattle.far_word.specs.declared.sizes.TheConstants.{CELLS, LOG_WORDS};
ghost use Rattle.far_word.specs.Bytes.{bytes_of, packed_word};
ghost use Rattle.far_word.specs.Sizes.{words_for};
ghost use Rattle.far_word.specs.declared.pointer.Place.{Place};
ghost use Rattle.far_events.specs.events.Ranges.{AllLegal, after_events, copies, puts, stores};
ghost use Rattle.far_events.specs.events.Legal.{Legal};
ghost use Rattle.far_events.specs.events.Step.{answer, data_len, data_word};
ghost use Rattle.far_core.specs.state.CoreState.{core_state};
ghost use Rattle.far_core.specs.state.Kept.{keeps_stored};
ghost use Rattle.far_events.specs.state.Law.{Law};
ghost use Rattle.far_events.specs.state.Memory.{state_of};
ghost use Rattle.far_events.specs.state.State.{State, addr};
ghost use Rattle.far_events.specs.events.Written.{spliced, written_words};
ghost use Rattle.far_events.specs.declared.event.Event.{Event};
ghost use Rattle.far_events.specs.declared.event.Kind.{Kind};
ghost use Rattle.far_events.specs.declared.event.Reply.{Reply};

use crate::machine::Core;
use far_events::{Event, Kind, Reply};
use far_word::Place;

/// As many events as there are words, with their guards as the condition. No call here takes memory.
impl Core {
    /// Data words of an object that its owner holds, from its word `first` on, as many as there is room for: a load each.
    #[inline]
    pub fn load_all(&self, owner: u8, pointer: u16, first: u16, words: &mut [u64])
        // the guards, in what its owner knows
        requires own { pointer / CELLS ≡ owner }
        requires held { IsSome ((core_state self.now).held pointer) }
        requires inside { first + length words.old ≤ words_for (data_len (core_state self.now) pointer) }
        ensures words { (k : ℕ) → k < length words.old → answer (core_state self.now) (Event.Load owner pointer (first + k)) ≡ Reply.Word (slice_index words.new k) }
        ensures legal { (k : ℕ) → k < length words.old → Legal (core_state self.now) (Event.Load owner pointer (first + k)) }
    {
        self.memory.load_all(pointer, first, words);
    }

    /// Data words of an object that its owner has soiled, from its word `first` on, become `words`, whose bytes past the object's
    /// end are 0: a store each.
    #[inline]
    #[tactic(auto, using(far_events::proofs::Calls::soiled_held))]
    pub fn store_all(&mut self, owner: u8, pointer: u16, first: u16, words: &[u64])
        // the guards, in what its owner knows
        requires own { pointer / CELLS ≡ owner }
        requires soiled { (core_state self.old).soiled pointer ≡ true }
        requires inside { first + length words.now ≤ words_for (data_len (core_state self.old) pointer) }
        requires padding { (k : ℕ) → k < length words.now → slice_index words.now k < 2 ^ (8 * (data_len (core_state self.old) pointer - 8 * (first + k))) }
        ensures state { core_state self.new ≡ after_events (core_state self.old) (stores owner pointer first words.now) }
        ensures legal { AllLegal (core_state self.old) (stores owner pointer first words.now) }
        // the same by addresses: these words are the object's now, each at its own place, and all others stay
        ensures words { (place : Place) → (core_state self.old).held pointer ≡ Some place → (k : ℕ) → k < length words.now → (core_state self.new).word (addr place + 1 + (first + k)) ≡ slice_index words.now k }
        ensures others { (place : Place) → (core_state self.old).held pointer ≡ Some place → (a : ℕ) → (a < addr place + 1 + first) ⊎ (addr place + 1 + first + length words.now ≤ a)
            → (core_state self.new).word a ≡ (core_state self.old).word a }
        ensures kept { keeps_stored self.new ≡ keeps_stored self.old }
    {
        self.memory.store_all(pointer, first, words);
    }

    /// Bytes of an object that its owner holds, from its byte `from` on, as many as there is room for: a load of each word that has
    /// one.
    #[inline]
    pub fn load_bytes(&self, owner: u8, pointer: u16, from: u16, bytes: &mut [u8])
        // the guards, in what its owner knows
        requires own { pointer / CELLS ≡ owner }
        requires held { IsSome ((core_state self.now).held pointer) }
        requires inside { from + length bytes.old ≤ data_len (core_state self.now) pointer }
        ensures bytes { bytes.new ≡ slice_range (bytes_of (λ i. (core_state self.now).word (data_word (core_state self.now) pointer i)) (data_len (core_state self.now) pointer)) from (from + length bytes.old) }
        ensures told { (k : ℕ) → answer (core_state self.now) (Event.Load owner pointer k) ≡ Reply.Word ((core_state self.now).word (data_word (core_state self.now) pointer k)) }
        ensures legal { (k : ℕ) → 8 * k < from + length bytes.old → Legal (core_state self.now) (Event.Load owner pointer k) }
    {
        self.memory.load_bytes(pointer, from, bytes);
    }

    /// Bytes of an object that its owner has soiled, from its byte `from` on, become `bytes`: a store of each word that has one.
    #[inline]
    #[tactic(auto, using(far_events::proofs::Calls::soiled_held))]
    pub fn store_bytes(&mut self, owner: u8, pointer: u16, from: u16, bytes: &[u8])
        // the guards, in what its owner knows
        requires own { pointer / CELLS ≡ owner }
        requires soiled { (core_state self.old).soiled pointer ≡ true }
        requires inside { from + length bytes.now ≤ data_len (core_state self.old) pointer }
        ensures state { core_state self.new ≡ after_events (core_state self.old) (stores owner pointer (from / 8) (written_words (λ i. (core_state self.old).word (data_word (core_state self.old) pointer i)) from bytes.now)) }
        ensures legal { AllLegal (core_state self.old) (stores owner pointer (from / 8) (written_words (λ i. (core_state self.old).word (data_word (core_state self.old) pointer i)) from bytes.now)) }
        // the same by bytes: these are the object's now from `from` on, and its others and all other words stay
        ensures bytes { bytes_of (λ i. (core_state self.new).word (data_word (core_state self.old) pointer i)) (data_len (core_state self.old) pointer)
            ≡ spliced (bytes_of (λ i. (core_state self.old).word (data_word (core_state self.old) pointer i)) (data_len (core_state self.old) pointer)) from bytes.now }
        ensures others { (place : Place) → (core_state self.old).held pointer ≡ Some place → (a : ℕ) → (a < addr place + 1 + from / 8) ⊎ (addr place + 1 + words_for (from + length bytes.now) ≤ a)
            → (core_state self.new).word a ≡ (core_state self.old).word a }
        ensures kept { keeps_stored self.new ≡ keeps_stored self.old }
    {
        self.memory.store_bytes(pointer, from, bytes);
    }

    /// Bytes of the words from a place on, from their byte `from` on, as many as there is room for: a get of each word that has one.
    #[inline]
    pub fn get_bytes(&self, place: Place, from: u16, bytes: &mut [u8])
        requires log { place.log < (core_state self.now).logs }
        requires inside { 8 * place.at + from + length bytes.old ≤ 8 * LOG_WORDS }
        ensures bytes { (len : ℕ) → from + length bytes.old ≤ len → bytes.new ≡ slice_range (bytes_of (λ i. (core_state self.now).word (addr place + i)) len) from (from + length bytes.old) }
        ensures told { (k : ℕ) → answer (core_state self.now) (Event.Get place.log (place.at + k) false) ≡ Reply.Word ((core_state self.now).word (place.log * LOG_WORDS + (place.at + k))) }
        ensures legal { (k : ℕ) → 8 * k < from + length bytes.old → Legal (core_state self.now) (Event.Get place.log (place.at + k) false) }
    {
        self.memory.get_bytes(place, from, bytes);
    }

    /// The `count` words from a place on, of a log that is open or free, at or past its tail, become 0: a put each.
    #[inline]
    pub fn put_zeros(&mut self, place: Place, count: u16)
        requires log { place.log < (core_state self.old).logs }
        requires unsealed { (core_state self.old).kind place.log ≢ Kind.Sealed }
        requires past { (core_state self.old).tail place.log ≤ place.at }
        requires inside { place.at + count ≤ LOG_WORDS }
        ensures state { core_state self.new ≡ after_events (core_state self.old) (puts place.log place.at count (λ _. 0)) }
        ensures legal { AllLegal (core_state self.old) (puts place.log place.at count (λ _. 0)) }
        ensures kept { keeps_stored self.new ≡ keeps_stored self.old }
    {
        self.memory.put_zeros(place, count);
    }
    /// The bytes of the `count` words from a place on stand in front of a row, the low byte of each first: a get each. The rest of
    /// the row stays.
    #[inline]
    pub fn get_words(&self, place: Place, count: u16, row: &mut [u8])
        requires log { place.log < (core_state self.now).logs }
        requires inside { place.at + count ≤ LOG_WORDS }
        requires room { 8 * count ≤ length row.old }
        ensures words { take (8 * count) row.new ≡ bytes_of (λ k. (core_state self.now).word (place.log * LOG_WORDS + (place.at + k))) (8 * count) }
        ensures legal { (k : ℕ) → k < count → Legal (core_state self.now) (Event.Get place.log (place.at + k) false) }
        ensures told { (k : ℕ) → answer (core_state self.now) (Event.Get place.log (place.at + k) false) ≡ Reply.Word ((core_state self.now).word (place.log * LOG_WORDS + (place.at + k))) }
        ensures behind { drop (8 * count) row.new ≡ drop (8 * count) row.old }
        ensures length { length row.new ≡ length row.old }
    {
        self.memory.get_words(place, count, row);
    }

    /// The `count` words from a place on, of a log that is open or free, at or past its tail, become those of the first bytes of a
    /// row, the low byte of each first: a put each.
    #[inline]
    pub fn put_words(&mut self, place: Place, bytes: &[u8], count: u16)
        requires log { place.log < (core_state self.old).logs }
        requires unsealed { (core_state self.old).kind place.log ≢ Kind.Sealed }
        requires past { (core_state self.old).tail place.log ≤ place.at }
        requires inside { place.at + count ≤ LOG_WORDS }
        requires bytes { 8 * count ≤ length bytes.now }
        ensures state { core_state self.new ≡ after_events (core_state self.old) (puts place.log place.at count (packed_word bytes.now)) }
        ensures legal { AllLegal (core_state self.old) (puts place.log place.at count (packed_word bytes.now)) }
        ensures kept { keeps_stored self.new ≡ keeps_stored self.old }
    {
        self.memory.put_words(place, bytes, count);
    }

    /// The `count` words from a place on, of a log that is open or free, at or past its tail, become those from another place on, one
    /// after the other: a get and a put each. Where they overlap, what was put is got.
    #[inline]
    pub fn copy_words(&mut self, from: Place, to: Place, count: u16)
        requires source { from.log < (core_state self.old).logs }
        requires within { from.at + count ≤ LOG_WORDS }
        requires target { to.log < (core_state self.old).logs }
        requires unsealed { (core_state self.old).kind to.log ≢ Kind.Sealed }
        requires past { (core_state self.old).tail to.log ≤ to.at }
        requires inside { to.at + count ≤ LOG_WORDS }
        ensures state { core_state self.new ≡ after_events (core_state self.old) (copies (core_state self.old) from.log from.at to.log to.at count) }
        ensures legal { AllLegal (core_state self.old) (copies (core_state self.old) from.log from.at to.log to.at count) }
        ensures kept { keeps_stored self.new ≡ keeps_stored self.old }
    {
        self.memory.copy_words(from, to, count);
    }
}
