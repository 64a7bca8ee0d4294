//! Memory that is refused. `rt try --test --fail-alloc N` refuses growth N.

use crate::tests::play::Scene::Begins;
use crate::tests::play::{ONE, Play, holds};
use far_word::Refused;

// A heap with its mutators is begun, or memory was refused: both endings are lawful.
const BEGUN: Play = Play {
    logs: 2,
    mutators: 2,
    scene: Begins(2, 0),
    refused: Some(Refused::Memory),
    ..ONE
};

const HEAPS: &[Play] = &[BEGUN];

#[test]
fn a_heap_is_made_or_memory_is_refused(rt: HostRuntime) {
    holds(&rt, rt.alloc(), HEAPS);
}

// The same with copiers.
const BEGUN_WITH_COPIERS: Play = Play {
    copiers: Some(8),
    scene: Begins(2, 8),
    ..BEGUN
};

const HEAPS_WITH_COPIERS: &[Play] = &[BEGUN_WITH_COPIERS];

#[test]
fn a_heap_with_copiers_is_made_or_memory_is_refused(rt: HostRuntime) {
    holds(&rt, rt.alloc(), HEAPS_WITH_COPIERS);
}
