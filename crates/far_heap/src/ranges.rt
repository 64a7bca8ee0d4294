// Ranges of bytes of an object that an owner's seat holds: parts of a word by load and store, whole words by one call for all.
ghost use Rattle.std.specs.Prelude.{◌≡◌, ◌+◌, ◌-◌, ◌*◌, ◌/◌, ◌%◌, ◌^◌, ◌<◌, ◌≤◌, ℕ, true, length, slice_index, IsSome};
ghost use Rattle.far_table.specs.Views.{held_at, len_of, object_at, soiled_at, word_in_view};
ghost use Rattle.far_word.specs.Bytes.{byte_at};
ghost use Rattle.far_table.specs.Ranges.{HasBytes, Wrote};
ghost use Rattle.far_word.specs.declared.sizes.TheConstants.{LONGEST};

use byteorder::{ByteOrder, LittleEndian};
use far_device::Device;
use far_table::MutSeat;

// How many bytes of a range of so many come before the next word begins.
fn before_word(from: u16, count: usize) -> usize
    ensures few { result ≤ count }
    ensures one { from % 8 + result ≤ 8 }
    ensures whole { result < count → (from + result) % 8 ≡ 0 }
{
    let over = (from % 8) as usize;
    if over == 0 { 0 } else { count.min(8 - over) }
}

// Loads bytes that lie in one word.
fn load_part<D: Device>(seat: &mut MutSeat<D>, p: u16, from: u16, out: &mut [u8])
    requires held { IsSome (held_at seat.old.view p) }
    requires inside { from + length out.old ≤ len_of (object_at seat.old.view p) }
    requires one { from % 8 + length out.old ≤ 8 }
    ensures same { seat.new ≡ seat.old }
    ensures bytes { seat.old.view.honest ≡ true → HasBytes (word_in_view (object_at seat.old.view p)) from out.new }
{
    if out.is_empty() {
        return;
    }
    let word = seat.load(p, from / 8);
    let mut bytes = [0; 8];
    LittleEndian::write_u64(&mut bytes, word);
    let at = (from % 8) as usize;
    out.copy_from_slice(&bytes[at..at + out.len()]);
}

// Loads a range of bytes, of which the first and the last may lie within a word.
#[inline(never)]
fn load_pieces<D: Device>(seat: &mut MutSeat<D>, p: u16, from: u16, out: &mut [u8])
    requires held { IsSome (held_at seat.old.view p) }
    requires short { len_of (object_at seat.old.view p) ≤ LONGEST }
    requires inside { from + length out.old ≤ len_of (object_at seat.old.view p) }
    ensures same { seat.new ≡ seat.old }
    ensures bytes { seat.old.view.honest ≡ true → HasBytes (word_in_view (object_at seat.old.view p)) from out.new }
{
    let count = out.len();
    let head = before_word(from, count);
    let whole = head + (count - head) / 8 * 8;
    load_part(seat, p, from, &mut out[..head]);
    if head == count {
        return;
    }
    seat.load_words(p, (from + head as u16) / 8, &mut out[head..whole]);
    load_part(seat, p, from + whole as u16, &mut out[whole..]);
}

// Loads a range of bytes.
#[inline(always)]
pub(crate) fn load_range<D: Device>(seat: &mut MutSeat<D>, p: u16, from: u16, out: &mut [u8])
    requires held { IsSome (held_at seat.old.view p) }
    requires short { len_of (object_at seat.old.view p) ≤ LONGEST }
    requires inside { from + length out.old ≤ len_of (object_at seat.old.view p) }
    ensures same { seat.new ≡ seat.old }
    ensures bytes { seat.old.view.honest ≡ true → HasBytes (word_in_view (object_at seat.old.view p)) from out.new }
{
    if from % 8 == 0 && out.len() % 8 == 0 {
        seat.load_words(p, from / 8, out);
    } else {
        load_pieces(seat, p, from, out);
    }
}

// A word with some of its bytes replaced, and zeros past so many.
fn spliced(word: u64, at: usize, bytes: &[u8], room: usize) -> u64
    requires fits { at + length bytes.now ≤ room }
    requires room { room ≤ 8 }
    requires some { 0 < room }
    ensures padding { result < 2 ^ (8 * room) }
    ensures inside { HasBytes (λ _. result) at bytes.now }
    ensures before { (k : ℕ) → k < at → byte_at (λ _. result) k ≡ byte_at (λ _. word) k }
    ensures after { (k : ℕ) → at + length bytes.now ≤ k → k < room → byte_at (λ _. result) k ≡ byte_at (λ _. word) k }
{
    let past = 64 - 8 * room as u32;
    let mut new = [0; 8];
    LittleEndian::write_u64(&mut new, word << past >> past);
    new[at..at + bytes.len()].copy_from_slice(bytes);
    LittleEndian::read_u64(&new)
}

// Stores bytes that lie in one word, whose others are loaded first. Those past the object's end stay 0.
fn store_part<D: Device>(seat: &mut MutSeat<D>, p: u16, len: u16, from: u16, bytes: &[u8])
    requires held { IsSome (held_at seat.old.view p) }
    requires soiled { soiled_at seat.old.view p ≡ true }
    requires len { len_of (object_at seat.old.view p) ≡ len }
    requires inside { from + length bytes.now ≤ len }
    requires one { from % 8 + length bytes.now ≤ 8 }
    ensures table { seat.new.table ≡ seat.old.table }
    ensures wrote { Wrote p from bytes.now seat.old.view seat.new.view }
{
    if bytes.is_empty() {
        return;
    }
    let i = from / 8;
    let room = (len - 8 * i).min(8);
    let found = seat.load(p, i);
    let word = spliced(found, (from % 8) as usize, bytes, room as usize);
    seat.store(p, i, word);
}

// Stores a range of bytes of an object of this length, of which the first and the last may lie within a word.
#[inline(never)]
fn store_pieces<D: Device>(seat: &mut MutSeat<D>, p: u16, len: u16, from: u16, bytes: &[u8])
    requires held { IsSome (held_at seat.old.view p) }
    requires soiled { soiled_at seat.old.view p ≡ true }
    requires len { len_of (object_at seat.old.view p) ≡ len }
    requires short { len ≤ LONGEST }
    requires inside { from + length bytes.now ≤ len }
    ensures table { seat.new.table ≡ seat.old.table }
    ensures wrote { Wrote p from bytes.now seat.old.view seat.new.view }
{
    let count = bytes.len();
    let head = before_word(from, count);
    let whole = head + (count - head) / 8 * 8;
    store_part(seat, p, len, from, &bytes[..head]);
    if head == count {
        return;
    }
    seat.store_words(p, (from + head as u16) / 8, &bytes[head..whole]);
    store_part(seat, p, len, from + whole as u16, &bytes[whole..]);
}

// Stores a range of bytes of an object of this length.
#[inline(always)]
pub(crate) fn store_range<D: Device>(
    seat: &mut MutSeat<D>,
    p: u16,
    len: u16,
    from: u16,
    bytes: &[u8],
)
    requires held { IsSome (held_at seat.old.view p) }
    requires soiled { soiled_at seat.old.view p ≡ true }
    requires len { len_of (object_at seat.old.view p) ≡ len }
    requires short { len ≤ LONGEST }
    requires inside { from + length bytes.now ≤ len }
    ensures table { seat.new.table ≡ seat.old.table }
    ensures wrote { Wrote p from bytes.now seat.old.view seat.new.view }
{
    if from % 8 == 0 && bytes.len() % 8 == 0 {
        seat.store_words(p, from / 8, bytes);
    } else {
        store_pieces(seat, p, len, from, bytes);
    }
}
