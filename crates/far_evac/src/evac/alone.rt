//! Whole rounds over a core of its own, where nobody else acts.

ghost use Rattle.std.specs.Prelude.{◌≡◌, ◌⊎◌, ℕ, List, Some, None, Ok, Err, false, true, IfOk, IfErr, map};
ghost use Rattle.far_book.specs.book.Rows.{row_of};
ghost use Rattle.far_core.specs.state.CoreState.{core_state};
ghost use Rattle.far_device.specs.Following.{Follows};
ghost use Rattle.far_policy.specs.Choice.{IsBadChoice, IsChoice};
ghost use Rattle.far_word.specs.declared.refused.Refused.{Refused as why_refused};
ghost use Rattle.far_word.specs.declared.refused.Refused.TheVariants.{Device as Failed, Memory};
ghost use Rattle.far_evac.specs.Choosing.{after_selecting};
ghost use Rattle.far_evac.specs.EvacOf.{moment_alone};
ghost use Rattle.far_evac.specs.Failing.{fails, no_key};
ghost use Rattle.far_evac.specs.Moment.{nothing, progress_of};
ghost use Rattle.far_evac.specs.Refusals.{unselectable};
ghost use Rattle.far_evac.specs.RoundAsked.{RoundAsking, StopsAsking};
ghost use Rattle.far_evac.specs.Turns.{HaltsTurns, IsRound};

use crate::answers::{EvacFault, Progress, RoundEnd};
use crate::evac::Evac;
use far_book::Plain;
use far_device::Device;
use far_policy::Policy;

impl<D: Device + Drop> Evac<Plain, D> {
    /// Makes a round as [`Evac::run_round`] does, where nobody else acts: a poll that leaves the round waiting is its last turn, since no other would
    /// change anything. So it answers [`RoundEnd::Limit`] at once where a scope is open from before the round, however many turns it may make.
    pub fn run_round_alone<P: Policy>(
        &mut self,
        policy: &mut P,
        most: usize,
        turns: u64,
    ) -> Result<RoundEnd, EvacFault>
        ensures runs { IfOk result (λ end. (logs : List ℕ) × P.gives policy.old (map (row_of (core_state self.old.book.near.core)) self.old.book.order) most (Ok logs) policy.new
            × IsRound (moment_alone self.old) logs turns end (moment_alone self.new) × IsChoice (map (row_of (core_state self.old.book.near.core)) self.old.book.order) most logs) }
        ensures barred { (why : why_refused) → unselectable (moment_alone self.old) ≡ Some why →
            (result ≡ Err record { so_far = progress_of nothing false; why = why }) × (self.new ≡ self.old) × (policy.new ≡ policy.old) }
        ensures refused { unselectable (moment_alone self.old) ≡ None → IfErr result (λ fault.
            ((fault.so_far ≡ progress_of nothing false) × (self.new ≡ self.old)
            × IsBadChoice fault.why × P.gives policy.old (map (row_of (core_state self.old.book.near.core)) self.old.book.order) most (Err fault.why) policy.new)
            ⊎ ((logs : List ℕ) × P.gives policy.old (map (row_of (core_state self.old.book.near.core)) self.old.book.order) most (Ok logs) policy.new
            × ((fault.why ≡ Memory) ⊎ (fault.why ≡ Failed)) × HaltsTurns (after_selecting (moment_alone self.old) logs) turns fault.so_far (moment_alone self.new)
            × StopsAsking (Unit {0}) D D.writes D.lets_go D.contents (after_selecting (moment_alone self.old) logs) turns fault.so_far fault.why (moment_alone self.new) self.old.book.device self.new.book.device)) }
        ensures asked { IfOk result (λ end. (logs : List ℕ) × P.gives policy.old (map (row_of (core_state self.old.book.near.core)) self.old.book.order) most (Ok logs) policy.new × IsRound (moment_alone self.old) logs turns end (moment_alone self.new)
            × RoundAsking (Unit {0}) D D.writes D.lets_go D.contents (moment_alone self.old) logs turns true end (moment_alone self.new) self.old.book.device self.new.book.device) }
        ensures follows { Follows D.contents D.honest D.faults D.fails_at_most no_key (fails result) self.old.book.device self.new.book.device }
    {
        self.keeps_law();
        let logs = match self.select(policy, most) {
            Ok(logs) => logs,
            Err(why) => {
                return Err(EvacFault {
                    so_far: Progress::nothing(),
                    why,
                });
            }
        };
        if logs.is_empty() {
            return Ok(RoundEnd::Nothing);
        }
        self.make_turns(turns, true)
    }
}
