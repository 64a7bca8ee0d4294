//! Blank heaps, and looks at the book of one.

use crate::tests::acts::Act;
use far_book::Home;
use far_core::Shape;
use far_device::{Device, MemDevice};
use far_evac::{Census, LogKind, LogState};
use far_heap::{Blank, Evacuator, HeapName};
use far_log::LogRow;
use far_word::{CELLS, Marks, Place, Refused};
use std::alloc::Global;
use std::process::Abort;

pub(super) const NO_MARKS: Marks = Marks {
    hot: false,
    evac: false,
    moved: false,
    dropped: false,
    dirty: false,
};

const WRITTEN: Marks = Marks {
    dirty: true,
    ..NO_MARKS
};

/// So many logs and mutators, from the first epoch on.
pub(super) fn sized(logs: u64, mutators: u64) -> Shape {
    Shape {
        logs,
        mutators,
        epoch: 0,
    }
}

/// The parts of a heap of a shape, over a device in memory.
pub(super) fn blank(rt: &HostRuntime, shape: Shape) -> Result<Blank<MemDevice>, Refused> {
    Blank::new(rt.alloc(), shape, MemDevice::new(rt.alloc()))
}

/// The same where the shape is in range. A test ends where memory is refused.
pub(super) fn new_blank(rt: &impl Abort, alloc: Global, shape: Shape) -> Blank<MemDevice> {
    match Blank::new(alloc, shape, MemDevice::new(alloc)) {
        Ok(blank) => blank,
        Err(_) => panic!(rt; "no heap is made"),
    }
}

// Where a pointer's object is; `None` for a number that is no pointer's.
fn home<K: HeapName, D: Device + Drop>(book: &mut Evacuator<K, D>, pointer: u16) -> Option<Home> {
    if (pointer as u64) < CELLS as u64 * book.shape().mutators {
        book.locate(pointer)
    } else {
        None
    }
}

// Whether an object lies at a word of a log, with these marks.
fn is_near<K: HeapName, D: Device + Drop>(
    book: &mut Evacuator<K, D>,
    pointer: u16,
    place: (u8, u16),
    marks: Marks,
) -> bool {
    let (log, at) = place;
    let place = Place { log, at };
    home(book, pointer) == Some(Home::Near { place, marks })
}

// Whether an object is far, with no marks but HOT perhaps.
fn is_far<K: HeapName, D: Device + Drop>(
    book: &mut Evacuator<K, D>,
    pointer: u16,
    hot: bool,
) -> bool {
    let marks = Marks { hot, ..NO_MARKS };
    home(book, pointer) == Some(Home::Far { marks })
}

/// Whether an object was found near and dropped.
pub(super) fn is_dropped<K: HeapName, D: Device + Drop>(
    book: &mut Evacuator<K, D>,
    pointer: u16,
) -> bool {
    match home(book, pointer) {
        Some(Home::Near { marks, .. }) => marks.dropped,
        _ => false,
    }
}

/// Whether an object was found near and marked for a round.
pub(super) fn is_marked<K: HeapName, D: Device + Drop>(
    book: &mut Evacuator<K, D>,
    pointer: u16,
) -> bool {
    match home(book, pointer) {
        Some(Home::Near { marks, .. }) => marks.evac,
        _ => false,
    }
}

/// Whether an object was found near and not dereferenced since it came there.
pub(super) fn is_unpinned<K: HeapName, D: Device + Drop>(
    book: &mut Evacuator<K, D>,
    pointer: u16,
) -> bool {
    match home(book, pointer) {
        Some(Home::Near { marks, .. }) => !marks.hot,
        _ => false,
    }
}

/// Whether a log is so, and has so many live, dead and unused bytes.
pub(super) fn is_log<K: HeapName, D: Device + Drop>(
    book: &mut Evacuator<K, D>,
    log: u8,
    kind: LogKind,
    bytes: [u16; 3],
) -> bool {
    if log as u64 >= book.shape().logs {
        return false;
    }
    let [live, dead, unused] = bytes;
    let row = LogRow {
        log,
        live,
        dead,
        unused,
    };
    book.log(log) == LogState { kind, row }
}

// Whether so many logs are sealed, and a log has so many spans.
fn lists<K: HeapName, D: Device + Drop>(
    book: &mut Evacuator<K, D>,
    sealed: usize,
    log: u8,
    spans: usize,
) -> bool {
    let Ok(rows) = book.rows() else {
        return false;
    };
    if rows.len() != sealed || log as u64 >= book.shape().logs {
        return false;
    }
    match book.spans(log) {
        Ok(found) => found.len() == spans,
        Err(_) => false,
    }
}

/// What a census counts.
#[derive(Clone, Copy, PartialEq)]
pub(super) struct Counted {
    pub near: u64,
    pub far: u64,
    /// The bytes that live in all logs.
    pub live: u64,
    /// Whether each log's bytes make its size.
    pub whole: bool,
}

// How many objects are near, and how many far.
fn objects(census: &Census) -> (u64, u64) {
    let (mut near, mut far) = (0u64, 0u64);
    for housed in &census.homes {
        match housed.home {
            Home::Near { .. } => near = near.saturating_add(1),
            Home::Far { .. } => far = far.saturating_add(1),
        }
    }
    (near, far)
}

// How many bytes live in all logs, and whether each log's bytes make its size.
fn bytes(census: &Census) -> (u64, bool) {
    let (mut live, mut whole) = (0u64, true);
    for state in &census.logs {
        let row = state.row;
        let placed = row.live.saturating_add(row.dead);
        live = live.saturating_add(row.live as u64);
        whole = whole && placed.saturating_add(row.unused) == 4096;
    }
    (live, whole)
}

/// What a census counts.
pub(super) fn count_of(census: &Census) -> Counted {
    let (near, far) = objects(census);
    let (live, whole) = bytes(census);
    Counted {
        near,
        far,
        live,
        whole,
    }
}

// What the census of a book counts; `None` where memory was refused.
fn census_of<K: HeapName, D: Device + Drop>(book: &mut Evacuator<K, D>) -> Option<Counted> {
    match book.audit() {
        Ok(census) => Some(count_of(&census)),
        Err(_) => None,
    }
}

/// Whether the census has so many near and far objects and live bytes, and each log's bytes make its size.
pub(super) fn counts<K: HeapName, D: Device + Drop>(
    book: &mut Evacuator<K, D>,
    near: u64,
    far: u64,
    live: u64,
) -> bool {
    let whole = true;
    census_of(book)
        == Some(Counted {
            near,
            far,
            live,
            whole,
        })
}

/// Whether the census has so many objects, near or far, and each log's bytes make its size.
pub(super) fn has_objects<K: HeapName, D: Device + Drop>(
    book: &mut Evacuator<K, D>,
    objects: u64,
) -> bool {
    match census_of(book) {
        Some(found) => found.whole && found.near.saturating_add(found.far) == objects,
        None => false,
    }
}

/// Whether a look at the book shows what it should.
pub(super) fn shows<K: HeapName, D: Device + Drop>(book: &mut Evacuator<K, D>, act: Act) -> bool {
    match act {
        Act::In(phase) => book.phase() == phase,
        Act::Epoch(epoch) => book.shape().epoch == epoch,
        Act::Near(pointer, place, hot) => is_near(book, pointer, place, Marks { hot, ..WRITTEN }),
        Act::Clean(pointer, place, hot) => is_near(book, pointer, place, Marks { hot, ..NO_MARKS }),
        Act::Far(pointer, hot) => is_far(book, pointer, hot),
        Act::Gone(pointer) => home(book, pointer).is_none(),
        Act::Log(log, kind, bytes) => is_log(book, log, kind, bytes),
        Act::Free(log) => is_log(book, log, LogKind::Free, [0, 0, 4096]),
        Act::Lists(sealed, log, spans) => lists(book, sealed, log, spans),
        Act::Counts(near, far, live) => counts(book, near, far, live),
        Act::Has(objects) => has_objects(book, objects),
        _ => false,
    }
}
