//! A mutator at work.

use crate::by_hand::gives_up;
use crate::counts::{Count, Counts};
use crate::desk::Desk;
use crate::gate::Gate;
use crate::rounds::take_fault;
use crate::{Asked, calls};
use far_device::Device;
use far_heap::{Heap, HeapName, Mutator};
use far_policy::Oldest;
use std::alloc::Global;
use std::sync::Wait;

/// How often an object that isn't brought near is tried again, after a round.
const TRIES: u64 = 16;

/// The same over a device that fails at times.
const TRIES_AT_FAULTS: u64 = 10_000;

/// A mutator with its desk.
#[derive(Drop)]
pub struct Writer<K: HeapName, D: Device + Drop> {
    mutator: Mutator<K, D>,
    desk: Desk,
}

/// Takes all turns, or fewer if something is wrong.
pub fn write<K: HeapName, D: Device + Drop, R: Wait>(
    rt: &R,
    alloc: Global,
    gate: &Gate,
    asked: Asked,
    mut mutator: Mutator<K, D>,
) -> Writer<K, D> {
    let seed = asked.seed_of(gate.enter());
    let mut desk = Desk::new(alloc, seed, asked.fails());
    for _ in 0..asked.turns {
        mutator = desk.turn(rt, mutator);
        if !gate.goes_on(desk.counts.wrong()) {
            break;
        }
        if desk.takes_short() {
            gate.wait_for_round();
        }
    }
    Writer { mutator, desk }
}

// How often an object that isn't brought near is tried again.
fn tries(counts: &Counts) -> u64 {
    if counts.fails() {
        TRIES_AT_FAULTS
    } else {
        TRIES
    }
}

// Makes a round, which is given up where it doesn't end.
fn make_room<K: HeapName, D: Device + Drop, R: Wait>(rt: &R, heap: &Heap<K, D>, desk: &mut Desk) {
    let end = calls::run_round(rt, heap, &mut Oldest, 4, 100_000);
    if let Err(fault) = end {
        take_fault(&mut desk.counts, fault);
    }
    gives_up(&mut *heap.book(rt), &mut desk.counts);
}

// Reads an object whole, with rounds before it if it isn't brought near.
fn read_again<K: HeapName, D: Device + Drop, R: Wait>(
    rt: &R,
    heap: &Heap<K, D>,
    mut mutator: Mutator<K, D>,
    desk: &mut Desk,
    at: usize,
) -> Mutator<K, D> {
    for _ in 0..tries(&desk.counts) {
        let mut scope = mutator.open();
        let seen = desk.read_whole(rt, &mut scope, at);
        mutator = scope.close();
        if seen {
            return mutator;
        }
        make_room(rt, heap, desk);
    }
    desk.counts.one(Count::WrongAnswers);
    mutator
}

/// Reads all objects once more.
pub fn read_all<K: HeapName, D: Device + Drop, R: Wait>(
    rt: &R,
    heap: &Heap<K, D>,
    writer: Writer<K, D>,
) -> Desk {
    let Writer {
        mut mutator,
        mut desk,
    } = writer;
    for at in 0..desk.objects() {
        mutator = read_again(rt, heap, mutator, &mut desk, at);
    }
    desk
}
