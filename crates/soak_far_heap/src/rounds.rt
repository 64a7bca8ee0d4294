//! Whole rounds, one after the other, beside mutators.

use crate::by_hand::{gives_up, goes_on_by_hand};
use crate::census::audit;
use crate::counts::{Count, Counts};
use crate::gate::Gate;
use crate::random::Random;
use crate::{Asked, calls};
use far_device::Device;
use far_evac::{EvacFault, Phase, Progress, RoundEnd};
use far_heap::{Evacuator, Heap, HeapName};
use far_policy::{LeastLive, Oldest, Policy, Scripted};
use far_word::Refused;
use std::sync::Wait;

/// How many turns a round has, unless it has few.
const PATIENCE: u64 = 100_000;

/// What comes after a round's turns.
enum Then {
    Over,
    GivesUp,
    GoesOn,
}

/// Adds what a part of a round did.
pub fn take(counts: &mut Counts, progress: Progress) {
    counts.add(Count::RoundMoved, progress.moved);
    counts.add(Count::RoundFar, progress.far);
    counts.add(Count::RoundDropped, progress.dropped);
    counts.add(Count::RoundFreed, progress.freed);
}

/// Counts a call that was refused, which only want of memory excuses. It doesn't say in which phase the round is then.
pub fn take_refusal(counts: &mut Counts, why: Refused) -> Option<Phase> {
    counts.one(match why {
        Refused::Memory => Count::Faults,
        _ => Count::WrongAnswers,
    });
    None
}

/// Takes a part of a round that was refused, as [`take_refusal`] does; a device that fails excuses that too.
pub fn take_fault(counts: &mut Counts, fault: EvacFault) -> Option<Phase> {
    take(counts, fault.so_far);
    if fault.why == Refused::Device {
        counts.failed();
        return None;
    }
    take_refusal(counts, fault.why)
}

// A round that stands is given up, or goes on by hand.
fn stands(random: &mut Random) -> Then {
    if random.once_in(2) {
        Then::GoesOn
    } else {
        Then::GivesUp
    }
}

// A round of so many turns: it is over, or given up, or it may go on by hand.
fn ended(counts: &mut Counts, random: &mut Random, end: Result<RoundEnd, EvacFault>) -> Then {
    match end {
        Ok(RoundEnd::Nothing) => {
            counts.one(Count::Nothing);
            Then::Over
        }
        Ok(RoundEnd::Done(progress)) => {
            take(counts, progress);
            counts.one(Count::Rounds);
            Then::Over
        }
        Ok(RoundEnd::Limit(phase)) => {
            counts.one(Count::Limits);
            counts.expect(phase != Phase::Idle);
            stands(random)
        }
        Err(fault) => {
            take_fault(counts, fault);
            stands(random)
        }
    }
}

// A whole round of a policy, or one that is cut short.
fn make_with<K: HeapName, D: Device + Drop, R: Wait, P: Policy>(
    rt: &R,
    heap: &Heap<K, D>,
    random: &mut Random,
    counts: &mut Counts,
    policy: &mut P,
) -> Then {
    let most = (1 + random.below(4)).min(4) as usize;
    let turns = if random.once_in(4) {
        random.below(12)
    } else {
        PATIENCE
    };
    let end = calls::run_round(rt, heap, policy, most, turns);
    ended(counts, random, end)
}

// The youngest sealed log. That the logs are refused is wrong.
fn youngest<K: HeapName, D: Device + Drop>(
    book: &mut Evacuator<K, D>,
    counts: &mut Counts,
) -> Option<u8> {
    let Ok(mut rows) = book.rows() else {
        counts.one(Count::WrongAnswers);
        return None;
    };
    match rows.pop() {
        Some(row) => Some(row.log),
        None => None,
    }
}

// Begins a round by hand, with the two oldest logs.
fn select<K: HeapName, D: Device + Drop>(book: &mut Evacuator<K, D>, counts: &mut Counts) -> Then {
    if let Err(why) = book.select(&mut Oldest, 2) {
        take_refusal(counts, why);
    }
    Then::GoesOn
}

// A round of the youngest log.
fn make_youngest<K: HeapName, D: Device + Drop, R: Wait>(
    rt: &R,
    heap: &Heap<K, D>,
    random: &mut Random,
    counts: &mut Counts,
) -> Then {
    let found = youngest(&mut *heap.book(rt), counts);
    match found {
        Some(log) => make_with(rt, heap, random, counts, &mut Scripted { logs: &[log] }),
        None => Then::Over,
    }
}

// A round of each policy in its turn, or one by hand, as far as its turns go.
fn begin_round<K: HeapName, D: Device + Drop, R: Wait>(
    rt: &R,
    heap: &Heap<K, D>,
    random: &mut Random,
    counts: &mut Counts,
) -> Then {
    match random.below(8) {
        0 | 1 => make_with(rt, heap, random, counts, &mut Oldest),
        2 | 3 => make_with(rt, heap, random, counts, &mut LeastLive),
        4 | 5 => make_youngest(rt, heap, random, counts),
        _ => select(&mut *heap.book(rt), counts),
    }
}

// A whole round.
fn make_round<K: HeapName, D: Device + Drop, R: Wait>(
    rt: &R,
    heap: &Heap<K, D>,
    gate: &Gate,
    random: &mut Random,
    counts: &mut Counts,
) {
    match begin_round(rt, heap, random, counts) {
        Then::Over => return,
        Then::GoesOn => goes_on_by_hand(rt, heap, gate, random, counts),
        Then::GivesUp => {}
    }
    gives_up(&mut *heap.book(rt), counts);
}

/// Makes rounds until all mutators have ended, and audits now and then.
pub fn make_rounds<K: HeapName, D: Device + Drop, R: Wait>(
    rt: &R,
    heap: &Heap<K, D>,
    gate: &Gate,
    asked: Asked,
) -> Counts {
    let mut counts = Counts::new(asked.fails());
    let mut random = Random::new(asked.seed);
    for _ in 0..u64::MAX {
        make_round(rt, heap, gate, &mut random, &mut counts);
        gate.end_round();
        if random.once_in(16) {
            audit(&mut *heap.book(rt), &mut counts);
        }
        if !gate.goes_on(counts.wrong()) {
            break;
        }
        gate.pause();
        if !gate.has_mutators() {
            break;
        }
    }
    counts
}
