//! Which objects are quiet.

ghost use Rattle.std.specs.Prelude.{◌≡◌};
ghost use Rattle.far_events.specs.state.Memory.{state_of};
ghost use Rattle.far_events.specs.events.Quiet.{is_quiet_cell};
ghost use Rattle.far_events.specs.state.Law.{Law};
ghost use Rattle.far_events.specs.state.State.{State};
ghost use Rattle.far_word.specs.Pointer.{read_of};

use crate::memory::Memory;
use far_word::{CELLS, PtrWord};

impl Memory {
    #[tactic(auto, unfolding(crate::specs::state::Memory::state_of))]
    pub fn is_in_round(&self, log: u8) -> bool
        ensures { result ≡ (state_of self.now).round log }
    {
        self.round.get(log as usize).copied().unwrap_or(false)
    }

    #[tactic(auto, unfolding(crate::specs::state::Memory::state_of))]
    pub fn is_clear(&self, owner: u16) -> bool
        ensures { result ≡ (state_of self.now).clear owner }
    {
        self.clear.get(owner as usize).copied().unwrap_or(false)
    }

    /// Whether the bytes of a pointer's object stay: it has MOVE; or it is near with EVAC, its log is in the round and its
    /// owner was seen clear in it.
    pub(crate) fn is_quiet(&self, pointer: u16) -> bool
        requires { Law (state_of self.now) }
        ensures { result ≡ is_quiet_cell (state_of self.now) pointer (read_of ((state_of self.now).cell pointer)) }
    {
        match PtrWord::known(self.cell(pointer)) {
            PtrWord::Near { place, marks, .. } => {
                marks.moved
                    || (marks.evac && self.is_in_round(place.log) && self.is_clear(pointer / CELLS))
            }
            PtrWord::Far { marks, .. } => marks.moved,
            PtrWord::Free => false,
        }
    }
}
