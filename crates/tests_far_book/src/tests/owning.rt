//! What the first owner does beside a book that nobody else steps, and what the core shows.

use crate::tests::calls::row_of;
use crate::tests::devices::counted_word;
use far_book::{Book, Plain};
use far_core::{Event, Kind, Reply};
use far_device::Device;
use far_word::{CELLS, Mark, PtrWord, Refused, words_for};

/// Whether none of these events is refused.
pub(super) fn makes_all<D: Device + Drop>(book: &mut Book<Plain, D>, events: &[Event]) -> bool {
    for event in events {
        if book.owner(*event) == Reply::Refused {
            return false;
        }
    }
    true
}

/// Whether a pointer gets a mark, of which it is told nothing before.
pub(super) fn asks<D: Device + Drop>(book: &mut Book<Plain, D>, pointer: u16, mark: Mark) -> bool {
    let owner = 0;
    book.owner(Event::Adopt { owner, pointer });
    let ask = Event::Ask {
        owner,
        pointer,
        mark,
    };
    book.owner(ask) != Reply::Refused
}

// Opens a scope, and pins an object.
fn views<D: Device + Drop>(book: &mut Book<Plain, D>, pointer: u16) {
    let owner = 0;
    book.owner(Event::ReadEpoch { owner });
    book.owner(Event::Open { owner });
    book.owner(Event::Adopt { owner, pointer });
    book.owner(Event::Pin { owner, pointer });
}

/// Whether counted bytes are stored into an object, of which there are so many.
pub(super) fn stores<D: Device + Drop>(book: &mut Book<Plain, D>, pointer: u16, len: u16) -> bool {
    let owner = 0;
    views(book, pointer);
    book.owner(Event::Soil { owner, pointer });
    for index in 0..words_for(len) {
        let word = counted_word(len, index);
        let store = Event::Store {
            owner,
            pointer,
            index,
            word,
        };
        if book.owner(store) != Reply::Done {
            return false;
        }
    }
    book.owner(Event::Close { owner }) == Reply::Done
}

/// Whether they are loaded.
pub(super) fn loads<D: Device + Drop>(book: &mut Book<Plain, D>, pointer: u16, len: u16) -> bool {
    let owner = 0;
    views(book, pointer);
    for index in 0..words_for(len) {
        let load = Event::Load {
            owner,
            pointer,
            index,
        };
        if book.owner(load) != Reply::Word(counted_word(len, index)) {
            return false;
        }
    }
    book.owner(Event::Close { owner }) == Reply::Done
}

/// Stores a word into an object of two words, if the first owner has soiled it, and says whether it did.
pub(super) fn store_word<D: Device + Drop>(
    book: &mut Book<Plain, D>,
    pointer: u16,
    index: u16,
    word: u64,
) -> bool {
    let core = book.core();
    if pointer >= CELLS || index >= 2 || !core.is_soiled(pointer) {
        return false;
    }
    let Some(PtrWord::Near { len: 16, .. }) = PtrWord::read(core.cell(pointer)) else {
        return false;
    };
    book.store_all(0, pointer, index, &[word]);
    true
}

/// The words of an object of two words, if the first owner holds it.
pub(super) fn words_of<D: Device + Drop>(book: &Book<Plain, D>, pointer: u16) -> Option<[u64; 2]> {
    let core = book.core();
    if pointer >= CELLS || !core.is_held(pointer) {
        return None;
    }
    let Some(PtrWord::Near { len: 16, .. }) = PtrWord::read(core.cell(pointer)) else {
        return None;
    };
    let mut words = [0; 2];
    book.load_all(0, pointer, 0, &mut words);
    Some(words)
}

/// Whether a round of these logs begins so; `None` where they can't be its logs.
pub(super) fn begins<D: Device + Drop>(
    book: &mut Book<Plain, D>,
    logs: u64,
) -> Option<Result<u64, Refused>> {
    if !book.core().may_advance(logs) {
        return None;
    }
    Some(book.advance(logs))
}

/// Whether the first log, which a heap always has, is this, and has so many live, dead and unused bytes.
pub(super) fn is_first<D: Device + Drop>(
    book: &Book<Plain, D>,
    kind: Kind,
    bytes: [u16; 3],
) -> bool {
    book.core_keeps_law();
    book.log(0) == (kind, row_of(0, bytes))
}
