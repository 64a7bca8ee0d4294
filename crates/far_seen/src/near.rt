//! What of a set is near.

use far_index::Index;
use std::hash::DefaultHasher;

/// The index; where the homes of tags end; how many lines there are; and what lines are hashed with.
#[derive(Drop)]
pub struct Near {
    pub slots: Index,
    pub buckets: usize,
    pub count: usize,
    pub seed: DefaultHasher,
}
