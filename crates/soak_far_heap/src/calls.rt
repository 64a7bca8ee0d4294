//! The calls of a heap, without what their contracts say: no caller here rests on that.

use far_device::Device;
use far_evac::{Census, EvacFault, Marked, Polled, Progress, RoundEnd};
use far_heap::{Evacuator, Heap, HeapName, Mutator, Scope, Tried, View};
use far_policy::Policy;
use far_word::Refused;
use std::sync::Wait;

/// A new object.
pub fn alloc<K: HeapName, D: Device + Drop, R: Wait>(
    rt: &R,
    mutator: &mut Mutator<K, D>,
    len: u16,
) -> Result<u16, Refused> {
    mutator.alloc(rt, len, 1)
}

/// The same in a scope.
pub fn alloc_in<K: HeapName, D: Device + Drop, R: Wait>(
    rt: &R,
    scope: &mut Scope<K, D>,
    len: u16,
) -> Result<u16, Refused> {
    scope.alloc(rt, len, 1)
}

/// An object is dropped.
pub fn drop_object<K: HeapName, D: Device + Drop, R: Wait>(
    rt: &R,
    mutator: &mut Mutator<K, D>,
    pointer: u16,
) -> Result<(), Refused> {
    mutator.drop_object(rt, pointer)
}

/// The same in a scope.
pub fn drop_in<K: HeapName, D: Device + Drop, R: Wait>(
    rt: &R,
    scope: &mut Scope<K, D>,
    pointer: u16,
) -> Result<(), Refused> {
    scope.drop_object(rt, pointer)
}

/// An object is viewed.
pub fn view<K: HeapName, D: Device + Drop, R: Wait>(
    rt: &R,
    scope: &mut Scope<K, D>,
    pointer: u16,
) -> Result<View, Refused> {
    scope.view(rt, pointer)
}

/// The same without the lock.
pub fn try_view<K: HeapName, D: Device + Drop>(
    scope: &mut Scope<K, D>,
    pointer: u16,
) -> Result<Tried, Refused> {
    scope.try_view(pointer)
}

/// Bytes are read.
pub fn read<K: HeapName, D: Device + Drop>(
    scope: &mut Scope<K, D>,
    view: &View,
    from: u16,
    out: &mut [u8],
) -> Result<(), Refused> {
    scope.read(view, from, out)
}

/// Bytes are written.
pub fn write<K: HeapName, D: Device + Drop>(
    scope: &mut Scope<K, D>,
    view: &View,
    from: u16,
    bytes: &[u8],
) -> Result<(), Refused> {
    scope.write(view, from, bytes)
}

/// A round.
pub fn run_round<K: HeapName, D: Device + Drop, R: Wait, P: Policy>(
    rt: &R,
    heap: &Heap<K, D>,
    policy: &mut P,
    most: usize,
    turns: u64,
) -> Result<RoundEnd, EvacFault> {
    heap.run_round(rt, policy, most, turns)
}

/// The steps of a round by hand.
pub fn mark_some<K: HeapName, D: Device + Drop>(
    book: &mut Evacuator<K, D>,
    n: u64,
) -> Result<Marked, Refused> {
    book.mark_some(n)
}

pub fn poll_wait<K: HeapName, D: Device + Drop>(
    book: &mut Evacuator<K, D>,
) -> Result<Polled, Refused> {
    book.poll_wait()
}

pub fn evacuate_some<K: HeapName, D: Device + Drop>(
    book: &mut Evacuator<K, D>,
    n: u64,
) -> Result<Progress, EvacFault> {
    book.evacuate_some(n)
}

pub fn abort<K: HeapName, D: Device + Drop>(book: &mut Evacuator<K, D>) -> Result<(), Refused> {
    book.abort()
}

pub fn audit<K: HeapName, D: Device + Drop>(book: &mut Evacuator<K, D>) -> Result<Census, Refused> {
    book.audit()
}
