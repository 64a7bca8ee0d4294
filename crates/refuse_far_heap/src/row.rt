//! The calls, in their order. Those that follow a refused one are made all the same.

use crate::census::LENGTHS;
use crate::told::Told;
use far_book::Home;
use far_device::MemDevice;
use far_evac::LogState;
use far_heap::{Copier, Evacuator, Heap, HeapName, Mutator, Scope};
use far_policy::Oldest;
use far_word::{CELLS, Refused};
use std::sync::Wait;

const BYTES: [u8; 8] = [1, 2, 3, 4, 5, 6, 7, 8];

fn write<K: HeapName, R: Wait>(
    rt: &R,
    scope: &mut Scope<K, MemDevice>,
    pointer: u16,
) -> Result<(), Refused> {
    let view = scope.view(rt, pointer)?;
    scope.write(&view, 0, &BYTES)
}

fn read<K: HeapName, R: Wait>(
    rt: &R,
    scope: &mut Scope<K, MemDevice>,
    pointer: u16,
) -> Result<[u8; 8], Refused> {
    let view = scope.view(rt, pointer)?;
    let mut bytes = [0; 8];
    scope.read(&view, 0, &mut bytes)?;
    Ok(bytes)
}

// Where an object is; `None` also for a number that is no pointer's.
fn home<K: HeapName>(book: &mut Evacuator<K, MemDevice>, pointer: u16) -> Option<Home> {
    if u64::from(pointer) < u64::from(CELLS) * book.shape().mutators {
        book.locate(pointer)
    } else {
        None
    }
}

// What a log has, if the heap has it.
fn state<K: HeapName>(book: &Evacuator<K, MemDevice>, log: u8) -> Option<LogState> {
    if u64::from(log) < book.shape().logs {
        Some(book.log(log))
    } else {
        None
    }
}

// Two objects lie in a log, of which the first is written, and a third fills the next.
fn make<K: HeapName, R: Wait>(
    rt: &R,
    mut mutator: Mutator<K, MemDevice>,
    told: &mut Told,
) -> Mutator<K, MemDevice> {
    let [first, second, third] = LENGTHS;
    told.made(mutator.alloc(rt, first, 1));
    told.made(mutator.alloc(rt, second, 1));
    let mut scope = mutator.open();
    told.done(Ok(()));
    told.done(write(rt, &mut scope, 0));
    let mut mutator = scope.close();
    told.done(Ok(()));
    told.made(mutator.alloc(rt, third, 1));
    mutator
}

// The round goes on, if it stands.
fn go_on<K: HeapName, R: Wait>(rt: &R, heap: &Heap<K, MemDevice>, told: &mut Told) {
    let made = heap.book(rt).evacuate_some(16);
    told.evacuated(made);
}

// The copier makes the copy that the round offered, and the round goes on.
fn copy<K: HeapName, R: Wait>(
    rt: &R,
    heap: &Heap<K, MemDevice>,
    copier: Copier<K, MemDevice>,
    told: &mut Told,
) {
    if let Ok(copying) = copier.claim() {
        let _copier = copying.finish();
        told.done(Ok(()));
    }
    go_on(rt, heap, told);
}

fn audit<K: HeapName, R: Wait>(rt: &R, heap: &Heap<K, MemDevice>, told: &mut Told) {
    let census = heap.book(rt).audit();
    told.audited(census);
}

// What so many logs have, and an audit.
fn look<K: HeapName, R: Wait>(rt: &R, heap: &Heap<K, MemDevice>, logs: u8, told: &mut Told) {
    for log in 0..logs {
        let state = state(&*heap.book(rt), log);
        if let Some(state) = state {
            told.log(log, state);
        }
    }
    audit(rt, heap, told);
}

// Where an object is.
fn locate<K: HeapName, R: Wait>(rt: &R, heap: &Heap<K, MemDevice>, pointer: u16, told: &mut Told) {
    let home = home(&mut *heap.book(rt), pointer);
    told.located(home);
}

// The first two objects are read, of which the second may have gone far.
fn read_both<K: HeapName, R: Wait>(
    rt: &R,
    heap: &Heap<K, MemDevice>,
    mutator: Mutator<K, MemDevice>,
    told: &mut Told,
) {
    let mut scope = mutator.open();
    told.done(Ok(()));
    told.read(read(rt, &mut scope, 0));
    told.read(read(rt, &mut scope, 1));
    locate(rt, heap, 1, told);
    let _mutator = scope.close();
    told.done(Ok(()));
}

/// All calls of a round, by one of these mutators, and by a copier, if there is one; what each answers is told.
pub(crate) fn play<K: HeapName, R: Wait>(
    rt: &R,
    heap: &Heap<K, MemDevice>,
    mut mutators: Vec<Mutator<K, MemDevice>>,
    copier: Option<Copier<K, MemDevice>>,
    mut told: Told,
) -> Told {
    let Some(mutator) = mutators.pop() else {
        return told;
    };
    told.done(Ok(()));
    let mutator = make(rt, mutator, &mut told);
    told.ended(heap.run_round(rt, &mut Oldest, 1, 9));
    if let Some(copier) = copier {
        copy(rt, heap, copier, &mut told);
    }
    locate(rt, heap, 0, &mut told);
    locate(rt, heap, 1, &mut told);
    look(rt, heap, 3, &mut told);
    read_both(rt, heap, mutator, &mut told);
    go_on(rt, heap, &mut told);
    look(rt, heap, 4, &mut told);
    audit(rt, heap, &mut told);
    told
}
