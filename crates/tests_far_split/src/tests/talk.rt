//! Runs of texts, and what they print.

use far_reply::Output;
use far_split::{Gate, SplitFault, run_split};
use std::alloc::Global;
use std::sync::Wait;
use std::thread::Threads;

/// What a run of the text prints. `None` where it doesn't come to its end.
pub(super) fn printed<R: Threads + Wait + Sync, G: Gate>(
    rt: &R,
    alloc: Global,
    text: &str,
    gate: &G,
) -> Option<Vec<u8>> {
    let Ok(mut buffer) = Output::new(alloc) else {
        return None;
    };
    let Ok(told) = run_split(alloc, rt, text.as_bytes(), gate) else {
        return None;
    };
    let mut written = Vec::new(alloc);
    match told.print(&mut buffer, &mut written) {
        Ok(()) => Some(written),
        Err(_) => None,
    }
}

/// Whether a run of the text prints this.
pub(super) fn prints<R: Threads + Wait + Sync, G: Gate>(
    rt: &R,
    alloc: Global,
    text: &str,
    gate: &G,
    wanted: &str,
) -> bool {
    match printed(rt, alloc, text, gate) {
        Some(written) => written.as_slice() == wanted.as_bytes(),
        None => false,
    }
}

/// Whether a run of the text ends since the gate said no to a thread, and names that one.
pub(super) fn is_stopped<R: Threads + Wait + Sync, G: Gate>(
    rt: &R,
    alloc: Global,
    text: &str,
    gate: &G,
    thread: u8,
) -> bool {
    matches!(run_split(alloc, rt, text.as_bytes(), gate), Err(SplitFault::Gate(who)) if who == thread)
}
