//! The parts of a map.

use crate::buffer::Buffer;
use crate::near::Near;
use far_objects::Objects;
use std::alloc::Global;

/// The worker that has the entries' objects; what is near; and where an object is read to.
#[derive(Drop)]
pub struct Parts<O: Objects + Drop> {
    pub worker: O,
    pub near: Near,
    pub buffer: Buffer,
    pub alloc: Global,
}
