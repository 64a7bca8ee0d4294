//! Rounds of small steps, with the lock let go between two.

use crate::calls;
use crate::counts::{Count, Counts};
use crate::gate::Gate;
use crate::random::Random;
use crate::rounds::{take, take_fault, take_refusal};
use far_device::Device;
use far_evac::{EvacFault, Marked, Phase, Polled, Progress};
use far_heap::{Evacuator, Heap, HeapName};
use far_word::Refused;
use std::sync::Wait;
use std::thread;

/// How many steps a round has.
const PATIENCE: u64 = 100_000;

/// Gives up a round that is running.
pub fn gives_up<K: HeapName, D: Device + Drop>(book: &mut Evacuator<K, D>, counts: &mut Counts) {
    if book.phase() == Phase::Idle {
        return;
    }
    let right = calls::abort(book).is_ok() && book.phase() == Phase::Idle;
    counts.one(if right {
        Count::Aborts
    } else {
        Count::WrongAnswers
    });
}

// The phase that must come once at most so many objects were marked.
fn marked(counts: &mut Counts, answer: Result<Marked, Refused>, most: u64) -> Option<Phase> {
    match answer {
        Ok(marked) => {
            counts.expect(marked.count <= most);
            match marked.waiting {
                Some(_) => Some(Phase::Waiting),
                None => Some(Phase::Marking),
            }
        }
        Err(why) => take_refusal(counts, why),
    }
}

// The same once scopes were looked at.
fn polled(counts: &mut Counts, answer: Result<Polled, Refused>) -> Option<Phase> {
    match answer {
        Ok(Polled::Clear) => Some(Phase::Evacuating),
        Ok(Polled::StillOpen(_, _)) => Some(Phase::Waiting),
        Err(why) => take_refusal(counts, why),
    }
}

// The same once some objects were dealt with.
fn evacuated(counts: &mut Counts, answer: Result<Progress, EvacFault>) -> Option<Phase> {
    match answer {
        Ok(progress) => {
            take(counts, progress);
            if !progress.done {
                return Some(Phase::Evacuating);
            }
            counts.one(Count::Rounds);
            counts.one(Count::ByHand);
            Some(Phase::Idle)
        }
        Err(fault) => take_fault(counts, fault),
    }
}

// A step by the phase: the phase that must come then, if that is known.
fn step<K: HeapName, D: Device + Drop>(
    book: &mut Evacuator<K, D>,
    n: u64,
    counts: &mut Counts,
) -> Option<Phase> {
    match book.phase() {
        Phase::Idle => Some(Phase::Idle),
        Phase::Marking => marked(counts, calls::mark_some(book, n), n),
        Phase::Waiting => polled(counts, calls::poll_wait(book)),
        Phase::Evacuating => evacuated(counts, calls::evacuate_some(book, n)),
    }
}

// A step: whether a round is running after it.
fn goes_on<K: HeapName, D: Device + Drop>(
    book: &mut Evacuator<K, D>,
    n: u64,
    counts: &mut Counts,
) -> bool {
    let then = step(book, n, counts);
    let after = book.phase();
    counts.expect(then.unwrap_or(after) == after);
    after != Phase::Idle
}

/// Makes small steps until the round is over, or all are made.
pub fn goes_on_by_hand<K: HeapName, D: Device + Drop, R: Wait>(
    rt: &R,
    heap: &Heap<K, D>,
    gate: &Gate,
    random: &mut Random,
    counts: &mut Counts,
) {
    for _ in 0..PATIENCE {
        let n = 1 + random.below(3);
        if !goes_on(&mut *heap.book(rt), n, counts) {
            return;
        }
        gate.pause();
        thread::yield_now();
    }
}
