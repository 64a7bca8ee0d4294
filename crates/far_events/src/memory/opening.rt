//! A memory at the start.

ghost use Rattle.std.specs.Prelude.{◌≡◌, true, IfOk};
ghost use Rattle.far_events.specs.state.Memory.{state_of};
ghost use Rattle.far_events.specs.state.Opening.{for_copiers, unopened};
ghost use Rattle.far_events.specs.state.Shape.{is_shape};

use crate::event::Kind;
use crate::memory::Memory;
use crate::memory::bits::Bits;
use crate::memory::jobs::Jobs;
use crate::memory::stored::Stored;
use crate::memory::words::Words;
use crate::shape::Shape;
use far_word::{CELLS, LOG_WORDS};
use std::alloc::{AllocError, Global};

impl Memory {
    /// All words but the epoch are 0 and all logs are free.
    #[tactic(auto, unfolding(crate::specs::state::Memory::state_of))]
    pub fn unopened(
        alloc: Global,
        shape: Shape,
        honest: bool,
        has_copiers: bool,
    ) -> Result<Memory, AllocError>
        requires { is_shape shape ≡ true }
        ensures { IfOk result (λ memory. state_of memory ≡ for_copiers has_copiers (unopened shape honest)) }
    {
        let logs = shape.logs as usize;
        let mutators = shape.mutators as usize;
        let cells = CELLS as usize * mutators;
        let words = LOG_WORDS as usize * logs;
        Ok(Memory {
            honest,
            epoch: shape.epoch,
            scopes: vec![in alloc; 0; mutators]?,
            cells: vec![in alloc; 0; cells]?,
            words: Words::new(alloc, words)?,
            remembered: vec![in alloc; None; mutators]?,
            used: vec![in alloc; false; cells]?,
            held: Bits::new(alloc, cells / 64)?,
            places: vec![in alloc; 0; cells]?,
            soiled: Bits::new(alloc, cells / 64)?,
            kinds: vec![in alloc; Kind::Free; logs]?,
            tails: vec![in alloc; 0; logs]?,
            current: 0,
            starts: Bits::new(alloc, words / 64)?,
            round: vec![in alloc; false; logs]?,
            round_epoch: shape.epoch,
            clear: vec![in alloc; false; mutators]?,
            stored: Stored::new(),
            jobs: Jobs::new(alloc, has_copiers)?,
        })
    }
}
