//! How a round begins.

ghost use Rattle.far_evac.specs.Calls.{SelectsLogs};

use crate::evac::Evac;
use crate::phase::Phase;
use crate::round::Round;
use far_book::Near;
use far_device::Device;
use far_policy::{Chosen, Policy};
use far_word::{EPOCH_END, Refused};

impl<N: Near + Drop, D: Device + Drop> Evac<N, D> {
    /// Asks a policy for logs, at most so many, and begins a round of them; where it names none, no round begins. The policy is
    /// handed what each sealed log has, oldest first.
    ///
    /// Refused, in this order, [`Refused::Phase`] where a round is running; [`Refused::EpochsSpent`] where there is no later epoch;
    /// and what the policy refuses, which is [`Refused::BadChoice`]. Nothing has changed then but the policy. Takes no memory.
    pub fn select<P: Policy>(&mut self, policy: &mut P, most: usize) -> Result<Chosen, Refused>
        ensures { SelectsLogs N.still N.view N.makes P.gives self.old self.new policy.old policy.new most result }
    {
        if self.round.phase != Phase::Idle {
            return Err(Refused::Phase);
        }
        if self.book.shape().epoch + 1 == EPOCH_END {
            return Err(Refused::EpochsSpent);
        }
        self.book.keeps_law();
        let rows = self.book.log_rows();
        let mut chosen = Chosen::new();
        policy.choose(rows.as_slice(), most, &mut chosen)?;
        if !chosen.is_empty() {
            self.round = Round {
                phase: Phase::Marking,
                chosen,
                index: 0,
                at: 0,
                seen: 0,
            };
        }
        Ok(chosen)
    }
}
