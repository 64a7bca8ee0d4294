//! The parts of packed objects.

use crate::near::Near;
use far_objects::Objects;

/// The worker that has the blocks, and what lies near.
#[derive(Drop)]
pub struct Parts<O: Objects + Drop> {
    pub worker: O,
    pub near: Near,
}
