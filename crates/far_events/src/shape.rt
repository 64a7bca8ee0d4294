//! How large a heap is, and where its epochs begin.

ghost use Rattle.std.specs.Prelude.{◌≡◌, ◌↔◌, ◌≤◌, ◌<◌, ◌^◌, IsTrue};
ghost use Rattle.far_events.specs.state.Shape.{is_shape};

use far_word::{EPOCH_END, LEAST_LOGS, LEAST_MUTATORS, MOST_LOGS, MOST_MUTATORS};

/// How large a heap is: 2 to 64 logs of 4,096 bytes, 1 to 8 mutators of 256 pointer cells each, and the first epoch,
/// below 2^62. A shape out of these ranges may be written, and is refused where a heap is made of it.
#[derive(Clone, Copy, Debug, PartialEq, Eq)]
pub struct Shape {
    pub logs: u64,
    pub mutators: u64,
    pub epoch: u64,
}

impl Shape {
    /// Whether a heap can be made of the shape.
    pub fn is_in_range(self) -> bool
        ensures is { result ≡ is_shape self }
        ensures numbers { IsTrue result ↔ ((2 ≤ self.logs) × (self.logs ≤ 64) × (1 ≤ self.mutators) × (self.mutators ≤ 8) × (self.epoch < 2 ^ 62)) }
    {
        LEAST_LOGS as u64 <= self.logs
            && self.logs <= MOST_LOGS as u64
            && LEAST_MUTATORS as u64 <= self.mutators
            && self.mutators <= MOST_MUTATORS as u64
            && self.epoch < EPOCH_END
    }
}
