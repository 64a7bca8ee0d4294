//! The parts of a tally.

use crate::near::Near;
use crate::parts::Store;
use far_objects::Objects;

/// What stands for lines; its numbers, in the order in which the lines came first; how often each came; and an index, whose slots have
/// places in that order.
#[derive(Drop)]
pub struct Roll<O: Objects + Drop> {
    pub store: Store<O>,
    pub numbers: Vec<u32>,
    pub counts: Vec<u64>,
    pub near: Near,
}
