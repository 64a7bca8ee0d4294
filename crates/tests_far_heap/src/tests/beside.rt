//! Rounds beside four mutators at work, each in a thread of its own.

use crate::tests::acts::Act::*;
use crate::tests::acts::Choice::Eldest;
use crate::tests::flag::Tally;
use crate::tests::play::Scene::Beside;
use crate::tests::play::{ONE, Play, holds};
use crate::tests::stage::Stage;
use crate::tests::writers::Writer;
use far_device::Device;
use far_evac::RoundEnd;
use far_heap::{HeapName, Mutator};
use std::sync::Wait;
use std::thread::{Threads, join};
use std::{mem, thread};

/// How many mutators there are.
const WRITERS: u64 = 4;

/// How long a writer writes: until it has written a hundred times in each of `most` parts, or less, once it has in `least`, and so many rounds were
/// done while all wrote.
#[derive(Clone, Copy)]
struct Work {
    least: u64,
    most: u64,
    rounds: u64,
}

/// What all threads do.
#[derive(Clone, Copy)]
pub(super) struct Plan {
    work: Work,
    /// How many rounds are made, and how many turns each has.
    rounds: u64,
    turns: u64,
    /// Whether no more are made once the writers have ended.
    stops: bool,
    /// How many rounds at least should be done while all write.
    least: u64,
}

/// How far all are: how many writers have begun and ended, and how many rounds were done while all wrote.
#[derive(Drop)]
struct Gate {
    begun: Tally,
    ended: Tally,
    rounds: Tally,
}

// Writes as long as the writer is told to; `false` where something was wrong.
fn keeps_writing<K: HeapName, D: Device + Drop, R: Wait>(
    rt: &R,
    writer: &mut Writer<K, D>,
    gate: &Gate,
    work: Work,
) -> bool {
    for part in 0..work.most {
        if part >= work.least && gate.rounds.count() >= work.rounds {
            break;
        }
        if !writer.works(rt) {
            return false;
        }
    }
    true
}

// What a mutator does in a thread of its own: it makes objects, writes, and ends; `None` where something was wrong.
fn writes<K: HeapName, D: Device + Drop, R: Wait>(
    rt: &R,
    mutator: Mutator<K, D>,
    gate: &Gate,
    work: Work,
) -> Option<Writer<K, D>> {
    let mut writer = Writer::new(mutator);
    let made = writer.makes_objects(rt);
    gate.begun.raise();
    let written = keeps_writing(rt, &mut writer, gate, work);
    gate.ended.raise();
    if made && written { Some(writer) } else { None }
}

// Makes a round, which is given up where its turns are over: whether it was done; `None` where something was wrong.
fn makes_round<K: HeapName, D: Device + Drop, R: Wait>(
    rt: &R,
    stage: &mut Stage<'_, K, D>,
    turns: u64,
) -> Option<bool> {
    match stage.round(rt, Eldest, 2, turns) {
        Ok(RoundEnd::Done(_)) => Some(true),
        Ok(RoundEnd::Nothing) => Some(false),
        Ok(RoundEnd::Limit(_)) => stage.does(rt, GivesUp(Ok(()))).then_some(false),
        Err(_) => None,
    }
}

// Makes rounds from when all write; `false` where something was wrong.
fn rounds<K: HeapName, D: Device + Drop, R: Wait>(
    rt: &R,
    stage: &mut Stage<'_, K, D>,
    gate: &Gate,
    plan: Plan,
) -> bool {
    gate.begun.wait_for(WRITERS);
    for _ in 0..plan.rounds {
        if plan.stops && gate.ended.count() == WRITERS {
            break;
        }
        let Some(done) = makes_round(rt, stage, plan.turns) else {
            return false;
        };
        if done && gate.ended.count() == 0 {
            gate.rounds.raise();
        }
        thread::yield_now();
    }
    true
}

// Each mutator writes in a thread of its own; `None` where memory was refused.
fn all_write<K: HeapName + Send + Sync, D: Device + Drop + Send + Sync, R: Threads + Wait + Sync>(
    rt: &R,
    mutators: Vec<Mutator<K, D>>,
    gate: &Gate,
    work: Work,
) -> Option<Vec<Option<Writer<K, D>>>> {
    thread::map_vec(rt, mutators, &|mutator| writes(rt, mutator, gate, work)).ok()
}

// Whether nothing was wrong, and each object has what it was filled with last.
fn is_right<K: HeapName, D: Device + Drop, R: Wait>(rt: &R, written: Option<Writer<K, D>>) -> bool {
    match written {
        Some(mut writer) => writer.has_all(rt),
        None => false,
    }
}

// The same of each.
fn are_right<K: HeapName, D: Device + Drop, R: Wait>(
    rt: &R,
    written: Vec<Option<Writer<K, D>>>,
) -> bool {
    for one in written {
        if !is_right(rt, one) {
            return false;
        }
    }
    true
}

// Whether one more round is done, or finds nothing to do, and all objects are there.
fn stands<K: HeapName, D: Device + Drop, R: Wait>(rt: &R, stage: &mut Stage<'_, K, D>) -> bool {
    let end = stage.round(rt, Eldest, 2, 100_000);
    matches!(end, Ok(RoundEnd::Done(_) | RoundEnd::Nothing)) && stage.does(rt, Has(64))
}

/// Whether nothing was wrong, and enough rounds were done while all wrote.
pub(super) fn plays<
    K: HeapName + Send + Sync,
    D: Device + Drop + Send + Sync,
    R: Threads + Wait + Sync,
>(rt: &R, stage: &mut Stage<'_, K, D>, plan: &Plan) -> bool {
    let gate = Gate {
        begun: Tally::new(),
        ended: Tally::new(),
        rounds: Tally::new(),
    };
    let mutators = mem::replace(&mut stage.mutators, Vec::new(stage.alloc));
    let (beside, at_rounds) = (&gate, &mut *stage);
    let (written, came) = join(
        rt,
        move || all_write(rt, mutators, beside, plan.work),
        move || rounds(rt, at_rounds, beside, *plan),
    );
    let stood = stands(rt, stage);
    let right = match written {
        Some(written) => are_right(rt, written),
        None => false,
    };
    came && stood && right && gate.rounds.count() >= plan.least
}

const FIFTY: Plan = Plan {
    work: Work {
        least: 10,
        most: 10,
        rounds: 0,
    },
    rounds: 50,
    turns: 100,
    stops: false,
    least: 0,
};

const FOUR: Play = Play {
    logs: 16,
    mutators: WRITERS,
    scene: Beside(&FIFTY),
    ..ONE
};

const BESIDE_WRITERS: &[Play] = &[FOUR];

#[test]
fn rounds_beside_writers(rt: HostRuntime) {
    holds(&rt, rt.alloc(), BESIDE_WRITERS);
}

// The writers go on until enough rounds were done, however fast the machine is.
const TWENTY: Plan = Plan {
    work: Work {
        least: 20,
        most: 100_000,
        rounds: 20,
    },
    rounds: 1_000_000_000,
    turns: 100_000,
    stops: true,
    least: 20,
};

const WHILE_WRITING: &[Play] = &[Play {
    scene: Beside(&TWENTY),
    ..FOUR
}];

#[test]
fn rounds_while_writing(rt: HostRuntime) {
    holds(&rt, rt.alloc(), WHILE_WRITING);
}
