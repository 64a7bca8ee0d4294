//! The calls of a heap, each with what it answers as a number: 0, or that of the refusal.

use crate::tests::rows::add;
use far_device::Device;
use far_policy::Oldest;
use far_private::{PrivateHeap, Statistics};
use far_word::Refused;
use std::alloc::Global;

/// A range of an object, from one byte on.
#[derive(Clone, Copy)]
pub(super) struct Part {
    pub(super) pointer: u16,
    pub(super) from: usize,
    /// By how much an update makes each byte greater.
    pub(super) more: u8,
}

// What a call says.
fn said(answer: Result<(), Refused>) -> u8 {
    match answer {
        Ok(()) => 0,
        Err(why) => why.number(),
    }
}

// What a call says that makes an object, and its pointer.
fn made(answer: Result<u16, Refused>) -> (u8, u16) {
    match answer {
        Ok(pointer) => (0, pointer),
        Err(why) => (why.number(), u16::MAX),
    }
}

/// Makes an object of zeros.
pub(super) fn alloc<D: Device + Drop>(
    heap: &mut PrivateHeap<D>,
    len: u16,
    structure: u8,
) -> (u8, u16) {
    made(heap.alloc(len, structure))
}

/// Makes an object of bytes.
pub(super) fn alloc_with<D: Device + Drop>(
    heap: &mut PrivateHeap<D>,
    bytes: &[u8],
    structure: u8,
) -> (u8, u16) {
    made(heap.alloc_with(bytes, structure))
}

/// Reads, writes or updates a range, by the first letter of the act.
pub(super) fn ask<D: Device + Drop>(
    heap: &mut PrivateHeap<D>,
    verb: u8,
    part: Part,
    bytes: &mut [u8],
) -> u8 {
    match verb {
        b'h' => said(heap.read(part.pointer, part.from, bytes)),
        b'f' => said(heap.write(part.pointer, part.from, bytes)),
        _ => update(heap, part, bytes),
    }
}

fn update<D: Device + Drop>(heap: &mut PrivateHeap<D>, part: Part, bytes: &mut [u8]) -> u8 {
    said(heap.update(part.pointer, part.from, bytes, |bytes: &mut [u8]| {
        add(bytes, part.more)
    }))
}

/// Drops an object.
pub(super) fn drop_object<D: Device + Drop>(heap: &mut PrivateHeap<D>, pointer: u16) -> u8 {
    said(heap.drop_object(pointer))
}

/// What a cell tells: the length and the data structure of its object; 0 where it has none.
pub(super) fn look<D: Device + Drop>(heap: &PrivateHeap<D>, pointer: u16) -> (u16, u8) {
    match (heap.len_of(pointer), heap.structure_of(pointer)) {
        (Some(len), Some(structure)) if heap.holds(pointer) => (len, structure),
        (None, None) if !heap.holds(pointer) => (0, 0),
        _ => (u16::MAX, 0),
    }
}

/// Makes a round: how many logs it gave back; `usize::MAX` where it was refused.
pub(super) fn round<D: Device + Drop>(heap: &mut PrivateHeap<D>, most: usize) -> usize {
    match heap.make_room(&mut Oldest, most) {
        Ok(freed) => freed,
        Err(_) => usize::MAX,
    }
}

/// What the heap tells of itself.
pub(super) fn tell<D: Device + Drop>(heap: &PrivateHeap<D>) -> Statistics {
    heap.statistics()
}

/// Whether a heap of so many logs begins.
pub(super) fn begins<D: Device + Drop>(alloc: Global, logs: u64, device: D) -> u8 {
    match PrivateHeap::new(alloc, logs, false, device) {
        Ok(_) => 0,
        Err(why) => why.number(),
    }
}
