//! A beset hand at the start.

ghost use Rattle.std.specs.Prelude.{◌≡◌, ℕ, false, IfOk, IfErr};
ghost use Rattle.far_core.specs.state.CoreState.{core_state};
ghost use Rattle.far_hand.specs.BesetView.{beset_view};
ghost use Rattle.far_hand.specs.Masked.{masked};

use crate::beset::Beset;
use crate::beset::rows::{cells_of, jobs_of, none_counted};
use far_core::{Core, Event};
use far_word::{LOG_WORDS, Refused};
use std::alloc::Global;

impl Beset {
    /// A core whose owners and copiers make these events, in order, the next one before each call of the book; one that is
    /// the book's, or isn't legal then, is passed over. The book has found each cell and each job as it is, and counts on no
    /// word but headers. Refused [`Refused::Memory`] alone.
    pub fn new(alloc: Global, core: Core, events: Vec<Event>) -> Result<Beset, Refused>
        ensures view { IfOk result (λ hand. beset_view hand ≡ masked (core_state core) (core_state core).cell (λ _. false) (core_state core).copying.word) }
        ensures core { IfOk result (λ hand. core_state hand.core ≡ core_state core) }
        ensures events { IfOk result (λ hand. (hand.events ≡ events) × (hand.made ≡ 0)) }
        ensures refused { IfErr result (λ why. why ≡ Refused.Memory) }
    {
        let words = LOG_WORDS as usize * core.logs() as usize;
        let Ok(found) = cells_of(alloc, &core) else {
            return Err(Refused::Memory);
        };
        let Ok(counted) = none_counted(alloc, words) else {
            return Err(Refused::Memory);
        };
        let jobs = jobs_of(&core);
        Ok(Beset {
            core,
            found,
            jobs,
            counted,
            events,
            made: 0,
        })
    }
}
