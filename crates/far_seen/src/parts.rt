//! The parts of a set.

use crate::near::Near;
use far_large::Large;
use far_objects::Objects;
use std::alloc::Global;

/// What stands for lines: the worker that has their objects; the long ones, of several objects each; for how many lines more there is room;
/// and where an object is read to.
#[derive(Drop)]
pub struct Store<O: Objects + Drop> {
    pub worker: O,
    pub longs: Vec<Large>,
    pub room: usize,
    pub buffer: Vec<u8>,
    pub alloc: Global,
}

/// What stands for lines, and the index.
#[derive(Drop)]
pub struct Parts<O: Objects + Drop> {
    pub store: Store<O>,
    pub near: Near,
}
