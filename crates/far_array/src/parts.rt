//! The parts of an array.

use far_objects::Objects;

/// How many blocks an array may have: one for each number of an object.
pub const MOST_BLOCKS: usize = 4_294_967_296;

/// The worker that has the objects; the objects, the array's blocks; how many bytes a record has; how many records a block; and how many
/// there are.
#[derive(Drop)]
pub struct Parts<O: Objects + Drop> {
    pub worker: O,
    pub blocks: Vec<u32>,
    pub size: usize,
    pub per: usize,
    pub len: usize,
}
