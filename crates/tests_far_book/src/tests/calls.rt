//! The calls of a book, each where it may be made, and what a book shows.

use crate::tests::acts::Placed;
use far_book::{Book, Home, Near, live_spans_follow};
use far_core::Kind;
use far_device::Device;
use far_log::{LogRow, Span};
use far_word::{CELLS, LONGEST, Place, PtrWord, Refused, ScopeWord, size_of};

/// A new object of the first mutator, in its lowest free cell.
pub(super) fn place_next<N: Near + Drop, D: Device + Drop>(
    book: &mut Book<N, D>,
    len: u16,
    ds: u8,
) -> Result<(u16, Place), Refused> {
    if len == 0 || len > LONGEST {
        return Err(Refused::Length);
    }
    book.keeps_law();
    let Some(pointer) = book.free_cell(0) else {
        return Err(Refused::NoPointer);
    };
    let place = book.place(pointer, len, ds)?;
    Ok((pointer, place))
}

/// Whether so many are made.
pub(super) fn places_many<N: Near + Drop, D: Device + Drop>(
    book: &mut Book<N, D>,
    objects: u16,
    len: u16,
    ds: u8,
) -> bool {
    for _ in 0..objects {
        if place_next(book, len, ds).is_err() {
            return false;
        }
    }
    true
}

/// Where a pointer's object is; `None` also for a number that is no pointer's.
pub(super) fn home<N: Near + Drop, D: Device + Drop>(
    book: &mut Book<N, D>,
    pointer: u16,
) -> Option<Home> {
    if (pointer as u64) < CELLS as u64 * book.shape().mutators {
        book.locate(pointer)
    } else {
        None
    }
}

/// Retires a near object whose cell shows DROP, and says whether it did.
#[tactic(auto, using(crate::proofs::Uses::dropped_home))]
pub(super) fn retires<N: Near + Drop, D: Device + Drop>(
    book: &mut Book<N, D>,
    pointer: u16,
) -> bool {
    if pointer as u64 >= CELLS as u64 * book.shape().mutators {
        return false;
    }
    let Some(Home::Near { marks, .. }) = book.locate(pointer) else {
        return false;
    };
    if !marks.dropped {
        return false;
    }
    book.retire(pointer);
    true
}

/// Moves a near object whose cell shows MOVE; `None` where the pointer names none.
#[tactic(auto, using(crate::proofs::Uses::quiet_home))]
pub(super) fn moves<N: Near + Drop, D: Device + Drop>(
    book: &mut Book<N, D>,
    pointer: u16,
) -> Placed {
    if pointer as u64 >= CELLS as u64 * book.shape().mutators {
        return None;
    }
    let Some(Home::Near { marks, .. }) = book.locate(pointer) else {
        return None;
    };
    if !marks.moved {
        return None;
    }
    Some(book.move_now(pointer))
}

/// Evicts an object that is seen to have EVAC and MOVE; `None` where the pointer names none.
#[tactic(auto, using(crate::proofs::Uses::quiet_home, crate::proofs::Uses::evac_home))]
pub(super) fn evicts<N: Near + Drop, D: Device + Drop>(
    book: &mut Book<N, D>,
    pointer: u16,
) -> Option<Result<bool, Refused>> {
    if pointer as u64 >= CELLS as u64 * book.shape().mutators {
        return None;
    }
    let Some(Home::Near { marks, .. }) = book.locate(pointer) else {
        return None;
    };
    if !marks.evac || !marks.moved {
        return None;
    }
    Some(book.evict(pointer))
}

/// Fetches an object that is seen to be far; `None` where the pointer names none.
#[tactic(auto, using(crate::proofs::Uses::far_home))]
pub(super) fn fetches<N: Near + Drop, D: Device + Drop>(
    book: &mut Book<N, D>,
    pointer: u16,
) -> Placed {
    if pointer as u64 >= CELLS as u64 * book.shape().mutators {
        return None;
    }
    let Some(Home::Far { .. }) = book.locate(pointer) else {
        return None;
    };
    Some(book.fetch(pointer))
}

/// Sets EVAC on a near object of a sealed log, and answers its word before; `None` where the pointer names none.
pub(super) fn marks<N: Near + Drop, D: Device + Drop>(
    book: &mut Book<N, D>,
    pointer: u16,
) -> Option<u64> {
    if pointer as u64 >= CELLS as u64 * book.shape().mutators {
        return None;
    }
    let cell = book.see(pointer);
    let Some(PtrWord::Near { place, .. }) = PtrWord::read(cell) else {
        return None;
    };
    if place.log as u64 >= book.shape().logs || book.log(place.log).0 != Kind::Sealed {
        return None;
    }
    Some(book.mark(pointer))
}

/// Takes EVAC from a near object, and answers its word before; `None` where the pointer names none.
pub(super) fn clears<N: Near + Drop, D: Device + Drop>(
    book: &mut Book<N, D>,
    pointer: u16,
) -> Option<u64> {
    if pointer as u64 >= CELLS as u64 * book.shape().mutators {
        return None;
    }
    let Some(PtrWord::Near { .. }) = PtrWord::read(book.see(pointer)) else {
        return None;
    };
    Some(book.clear(pointer))
}

/// Gives a log back, where no object lies there; `None` where the number is no sealed log's.
pub(super) fn releases<N: Near + Drop, D: Device + Drop>(
    book: &mut Book<N, D>,
    log: u8,
) -> Option<bool> {
    if log as u64 >= book.shape().logs || book.log(log).0 != Kind::Sealed {
        return None;
    }
    Some(book.release(log))
}

/// A round of no logs begins.
#[tactic(auto, using(crate::proofs::Uses::none_chosen))]
pub(super) fn begins_none<N: Near + Drop, D: Device + Drop>(
    book: &mut Book<N, D>,
) -> Result<u64, Refused> {
    book.advance(0)
}

/// What an owner's scope says; `None` where the number is no owner's.
pub(super) fn looks<N: Near + Drop, D: Device + Drop>(
    book: &mut Book<N, D>,
    owner: u8,
) -> Option<ScopeWord> {
    if owner as u64 >= book.shape().mutators {
        return None;
    }
    ScopeWord::read(book.look(owner))
}

/// Whether the live spans of a log, one after the other, are these.
pub(super) fn has_live<N: Near + Drop, D: Device + Drop>(
    book: &mut Book<N, D>,
    log: u8,
    wanted: &[Span],
) -> bool {
    if log as u64 >= book.shape().logs {
        return false;
    }
    book.keeps_law();
    live_spans_follow();
    let mut at = 0;
    for span in wanted {
        let Some(found) = book.next_live(log, at) else {
            return false;
        };
        if found != *span {
            return false;
        }
        at = found.at + size_of(found.len);
    }
    book.next_live(log, at).is_none()
}

/// Whether the first live span from the one on that has this number in the list of log 0 is this; `None` where the list has none.
pub(super) fn finds_from<N: Near + Drop, D: Device + Drop>(
    book: &mut Book<N, D>,
    number: usize,
    wanted: Option<Option<Span>>,
) -> bool {
    if book.shape().logs == 0 {
        return false;
    }
    book.keeps_law();
    live_spans_follow();
    let Ok(spans) = book.spans(0) else {
        return false;
    };
    if number >= spans.len() {
        return wanted.is_none();
    }
    Some(book.next_live(0, spans[number].at)) == wanted
}

/// Whether log 0 has these spans.
pub(super) fn has_spans<N: Near + Drop, D: Device + Drop>(
    book: &mut Book<N, D>,
    wanted: &[Span],
) -> bool {
    if book.shape().logs == 0 {
        return false;
    }
    match book.spans(0) {
        Ok(found) => found.as_slice() == wanted,
        Err(_) => false,
    }
}

/// Whether the sealed logs are these.
pub(super) fn has_rows<N: Near + Drop, D: Device + Drop>(
    book: &Book<N, D>,
    wanted: &[LogRow],
) -> bool {
    match book.rows() {
        Ok(found) => found.as_slice() == wanted,
        Err(_) => false,
    }
}

/// A log's row with so many live, dead and unused bytes.
pub(super) fn row_of(log: u8, bytes: [u16; 3]) -> LogRow {
    let [live, dead, unused] = bytes;
    LogRow {
        log,
        live,
        dead,
        unused,
    }
}

/// Whether a log is this, and has so many live, dead and unused bytes.
pub(super) fn is_log<N: Near + Drop, D: Device + Drop>(
    book: &Book<N, D>,
    log: u8,
    kind: Kind,
    bytes: [u16; 3],
) -> bool {
    (log as u64) < book.shape().logs && book.log(log) == (kind, row_of(log, bytes))
}
