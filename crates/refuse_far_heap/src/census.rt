//! What a census of the heap must say.

use far_book::Home;
use far_evac::{Census, Housed, LogState};
use far_reply::Counts;
use far_word::{LOG_BYTES, LONGEST, size_of};

/// The lengths of the objects, by pointer.
pub(crate) const LENGTHS: [u16; 3] = [8, 8, LONGEST];

// The bytes of an object with its header; 0 if there is no such object.
fn bytes_of(pointer: u16) -> u64 {
    match LENGTHS.get(usize::from(pointer)) {
        Some(len) => u64::from(size_of(*len)) * 8,
        None => 0,
    }
}

// The bytes that the objects take which lie in a log.
fn bytes_in(homes: &[Housed], log: u8) -> u64 {
    let mut bytes = 0u64;
    for housed in homes {
        if let Home::Near { place, .. } = housed.home {
            if place.log == log {
                bytes = bytes.saturating_add(bytes_of(housed.pointer));
            }
        }
    }
    bytes
}

// Whether a log's bytes make its size, and those in use are those of the objects that lie there.
fn is_log_lawful(homes: &[Housed], log: &LogState) -> bool {
    let row = log.row;
    row.live.saturating_add(row.dead).saturating_add(row.unused) == LOG_BYTES
        && u64::from(row.live) == bytes_in(homes, row.log)
}

fn are_logs_lawful(census: &Census) -> bool {
    for log in &census.logs {
        if !is_log_lawful(&census.homes, log) {
            return false;
        }
    }
    true
}

/// Whether each object is there, and in each log exactly the bytes of the objects that lie in it are in use.
pub(crate) fn is_lawful(census: &Census) -> bool {
    census.homes.len() == LENGTHS.len() && are_logs_lawful(census)
}

// How many objects are near, and how many far.
fn objects(homes: &[Housed]) -> (u16, u16) {
    let (mut near, mut far) = (0u16, 0u16);
    for housed in homes {
        match housed.home {
            Home::Near { .. } => near = near.saturating_add(1),
            Home::Far { .. } => far = far.saturating_add(1),
        }
    }
    (near, far)
}

// The bytes in use in all logs.
fn live(logs: &[LogState]) -> u64 {
    let mut live = 0u64;
    for log in logs {
        live = live.saturating_add(u64::from(log.row.live));
    }
    live
}

/// What a census counts.
pub(crate) fn counts_of(census: &Census) -> Counts {
    let (near, far) = objects(&census.homes);
    let live = live(&census.logs);
    Counts { near, far, live }
}
