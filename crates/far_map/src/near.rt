//! What of a map is near.

use far_index::Index;
use std::hash::DefaultHasher;

/// The index; where the homes of tags end; how many entries there are; how many slots aren't empty, of which no contract speaks; and what
/// keys are hashed with.
#[derive(Drop)]
pub struct Near {
    pub slots: Index,
    pub buckets: usize,
    pub count: usize,
    pub used: usize,
    pub seed: DefaultHasher,
}
