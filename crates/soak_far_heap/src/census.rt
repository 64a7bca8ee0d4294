//! What a census of the heap must say.

use crate::calls;
use crate::counts::{Count, Counts};
use far_book::Home;
use far_device::Device;
use far_evac::Census;
use far_heap::{Evacuator, HeapName};
use far_word::LOG_BYTES;

// How many bytes live in all logs, if each log's bytes make its size.
fn live(census: &Census) -> Option<u64> {
    let mut live = 0u64;
    for log in &census.logs {
        let row = log.row;
        if row.live.saturating_add(row.dead).saturating_add(row.unused) != LOG_BYTES {
            return None;
        }
        live = live.saturating_add(row.live as u64);
    }
    Some(live)
}

// How many objects are near.
fn near(census: &Census) -> u64 {
    let mut near = 0u64;
    for housed in &census.homes {
        if let Home::Near { .. } = housed.home {
            near = near.saturating_add(1);
        }
    }
    near
}

// Whether it is right as far as it can be told beside mutators: each log's bytes make its size, and there are bytes for each near object;
// and whether it has so many objects, if that is known.
fn is_right(census: &Census, objects: Option<usize>) -> bool {
    let Some(live) = live(census) else {
        return false;
    };
    near(census).saturating_mul(16) <= live
        && objects.unwrap_or(census.homes.len()) == census.homes.len()
}

/// Whether a heap's census is right, and has so many objects, if that is known. `None` where memory was refused.
pub fn audits<K: HeapName, D: Device + Drop>(
    book: &mut Evacuator<K, D>,
    objects: Option<usize>,
) -> Option<bool> {
    match calls::audit(book) {
        Ok(census) => Some(is_right(&census, objects)),
        Err(_) => None,
    }
}

/// Counts an audit beside mutators.
pub fn audit<K: HeapName, D: Device + Drop>(book: &mut Evacuator<K, D>, counts: &mut Counts) {
    let Some(right) = audits(book, None) else {
        counts.one(Count::Faults);
        return;
    };
    counts.one(Count::Audits);
    if !right {
        counts.one(Count::WrongAudits);
    }
}
