//! The stored words of objects that are far, or near without DIRTY.

ghost use Rattle.std.specs.Prelude.{◌≡◌, ◌+◌, ◌*◌, ◌<◌, ◌≤◌, ℕ, length, slice_index};
ghost use Rattle.std.specs.List.{sum_by};
ghost use Rattle.std.specs.Vec.{vec_capacity, vec_len};
ghost use Rattle.far_word.specs.Bytes.{words_of};
ghost use Rattle.far_word.specs.declared.sizes.TheConstants.{LOG_WORDS, POINTERS};
ghost use Rattle.far_events.specs.state.Rows.{HalfOrAll, RowsAreApart, RowsFit, RowsSized, room_in};

use far_word::{LOG_WORDS, pack_bytes};
use std::alloc::{AllocError, Global};

/// The words of one pointer: the first of them, and for how many there is room.
#[derive(Clone, Copy)]
pub(crate) struct Row {
    pub(crate) start: u32,
    pub(crate) room: u16,
}

/// A row of words for each pointer that ever went far, as long as its object was, or longer. One that has no room for an object
/// is left for another of at least twice its room, so all rows of a pointer have at most two logs' words. The room for that is
/// taken when this is made, and nothing is written to it.
#[derive(Drop)]
pub struct StoredRows {
    // Each pointer's row.
    pub(crate) row_of: Vec<Row>,
    pub(crate) words: Vec<u64>,
    ghost few: { vec_len row_of ≤ POINTERS },
    ghost room: { 2 * LOG_WORDS * vec_len row_of ≤ vec_capacity words },
    ghost used: { vec_len words ≤ 2 * sum_by room_in row_of.items },
    ghost sized: { RowsSized row_of.items },
    ghost fit: { RowsFit (vec_len words) row_of.items },
    ghost apart: { RowsAreApart row_of.items },
}

impl StoredRows {
    ghost use Rattle.std.specs.Prelude.{IfOk};
    ghost use Rattle.far_events.specs.state.Rows.{row_at, with_first};
    ghost use Rattle.far_events.specs.state.State.{put};
    ghost use Rattle.far_events.specs.state.StoredRows.{stored_in};

    /// Nothing is stored of so many pointers.
    pub fn new(alloc: Global, pointers: usize) -> Result<StoredRows, AllocError>
        requires { pointers ≤ POINTERS }
        ensures sized { IfOk result (λ rows. vec_len rows.row_of ≡ pointers) }
        ensures blank { IfOk result (λ rows. (p i : ℕ) → stored_in rows p i ≡ 0) }
    {
        let mut row_of = Vec::new(alloc);
        row_of.resize(pointers, Row { start: 0, room: 0 })?;
        Ok(StoredRows {
            row_of,
            words: Vec::with_capacity(alloc, 2 * LOG_WORDS as usize * pointers)?,
        })
    }

    /// Word `index` of those that are stored of a pointer; 0 if no word was stored there.
    pub(crate) fn word(&self, pointer: u16, index: u16) -> u64
        ensures { result ≡ stored_in self.now pointer index }
    {
        let row = self.row(pointer);
        if index >= row.room {
            return 0;
        }
        self.words[row.start as usize + index as usize]
    }

    /// The words of these bytes become the first that are stored of a pointer; its other stored words stay.
    pub(crate) fn store_bytes(&mut self, pointer: u16, count: u16, bytes: &[u8])
        requires pointer { pointer < vec_len self.old.row_of }
        requires short { count ≤ LOG_WORDS }
        requires bytes { length bytes.now ≡ 8 * count }
        ensures sized { vec_len self.new.row_of ≡ vec_len self.old.row_of }
        ensures stored { stored_in self.new ≡ put (stored_in self.old) pointer (with_first (length (words_of bytes.now)) (λ i. slice_index (words_of bytes.now) i) (stored_in self.old pointer)) }
    {
        if count <= self.row(pointer).room {
            self.write_row(pointer, count, bytes);
        } else {
            self.append_row(pointer, count, bytes);
        }
    }

    /// A pointer's row; one of no words, where it never went far.
    fn row(&self, pointer: u16) -> Row
        ensures { result ≡ row_at self.now.row_of.items pointer }
    {
        self.row_of
            .get(pointer as usize)
            .copied()
            .unwrap_or(Row { start: 0, room: 0 })
    }

    /// A pointer whose row has no room for the words of these bytes gets the next row, which begins with them.
    fn append_row(&mut self, pointer: u16, count: u16, bytes: &[u8])
        requires pointer { pointer < vec_len self.old.row_of }
        requires longer { room_in (row_at self.old.row_of.items pointer) < count }
        requires short { count ≤ LOG_WORDS }
        requires bytes { length bytes.now ≡ 8 * count }
        ensures sized { vec_len self.new.row_of ≡ vec_len self.old.row_of }
        ensures stored { stored_in self.new ≡ put (stored_in self.old) pointer (with_first (length (words_of bytes.now)) (λ i. slice_index (words_of bytes.now) i) (stored_in self.old pointer)) }
    {
        let start = self.words.len() as u32;
        let room = next_room(count, self.row(pointer).room);
        add_row(&mut self.words, count, bytes, room);
        self.row_of[pointer as usize] = Row { start, room };
    }

    /// The words of these bytes become the first of a pointer's row.
    fn write_row(&mut self, pointer: u16, count: u16, bytes: &[u8])
        requires pointer { pointer < vec_len self.old.row_of }
        requires short { count ≤ room_in (row_at self.old.row_of.items pointer) }
        requires bytes { length bytes.now ≡ 8 * count }
        ensures sized { vec_len self.new.row_of ≡ vec_len self.old.row_of }
        ensures stored { stored_in self.new ≡ put (stored_in self.old) pointer (with_first (length (words_of bytes.now)) (λ i. slice_index (words_of bytes.now) i) (stored_in self.old pointer)) }
    {
        let start = self.row(pointer).start as usize;
        pack_bytes(bytes, &mut self.words[start..start + count as usize]);
    }
}

/// For how many words a row has room that takes so many, after one that had room for fewer: twice those at least, and a whole
/// log's if half wouldn't do.
fn next_room(count: u16, had: u16) -> u16
    requires fewer { had < count }
    requires short { count ≤ LOG_WORDS }
    requires sized { HalfOrAll had }
    ensures long { count ≤ result }
    ensures twice { 2 * had ≤ result }
    ensures sized { HalfOrAll result }
{
    let wanted = count.max(2 * had);
    if wanted > LOG_WORDS / 2 {
        LOG_WORDS
    } else {
        wanted
    }
}

/// A row of so many words follows, which begins with those of these bytes; the others are zeros.
fn add_row(words: &mut Vec<u64>, count: u16, bytes: &[u8], room: u16)
    requires long { count ≤ room }
    requires bytes { length bytes.now ≡ 8 * count }
    requires room { vec_len words.old + room ≤ vec_capacity words.old }
    ensures len { vec_len words.new ≡ vec_len words.old + room }
    ensures room { vec_capacity words.old ≤ vec_capacity words.new }
    ensures before { (k : ℕ) → k < vec_len words.old → slice_index words.new.items k ≡ slice_index words.old.items k }
    ensures row { (i : ℕ) → i < count → slice_index words.new.items (vec_len words.old + i) ≡ slice_index (words_of bytes.now) i }
    ensures zeros { (k : ℕ) → vec_len words.old + count ≤ k → slice_index words.new.items k ≡ 0 }
{
    let start = words.len();
    words.resize(start + room as usize, 0).unwrap();
    pack_bytes(bytes, &mut words[start..start + count as usize]);
}
