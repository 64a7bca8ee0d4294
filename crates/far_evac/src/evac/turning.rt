//! Whole rounds, turn after turn.

ghost use Rattle.std.specs.Prelude.{◌≡◌, ◌⊎◌, ◌+◌, ◌<◌, ℕ, List, Some, None, Ok, Err, true, false, IfOk, IfErr, map};
ghost use Rattle.far_book.specs.book.Rows.{row_of};
ghost use Rattle.far_device.specs.Following.{Follows};
ghost use Rattle.far_policy.specs.Choice.{IsBadChoice, IsChoice};
ghost use Rattle.far_word.specs.declared.refused.Refused.{Refused as why_refused};
ghost use Rattle.far_word.specs.declared.refused.Refused.TheVariants.{Device as Failed, Memory};
ghost use Rattle.far_hand.specs.Came.{Came};
ghost use Rattle.far_evac.specs.AnyTurns.{AsksInTurn, TurnsTo};
ghost use Rattle.far_evac.specs.Asked.{KeepsKeys, first_live};
ghost use Rattle.far_evac.specs.ByCopying.{RefusesBy, StopsBy};
ghost use Rattle.far_evac.specs.Calls.{MakesTurn};
ghost use Rattle.far_evac.specs.Choosing.{after_selecting};
ghost use Rattle.far_evac.specs.EvacOf.{moment};
ghost use Rattle.far_evac.specs.Failing.{fails, no_key};
ghost use Rattle.far_evac.specs.Moment.{Tally, nothing, objects_in, plus, progress_of, tally_of};
ghost use Rattle.far_evac.specs.MomentLaw.{IsLawful, is_idle, is_waiting};
ghost use Rattle.far_evac.specs.Refusals.{unselectable};
ghost use Rattle.far_evac.specs.RoundAsked.{EndsAsking, RoundAsking, StopsAsking};
ghost use Rattle.far_evac.specs.Turning.{GoesOn, IsCountedIn, IsSmall, IsWithin, most_turns, turned_at};
ghost use Rattle.far_evac.specs.Turns.{Halts, HaltsTurns, IsRound, round_end, turn_size, turned, turns_made};
ghost use Rattle.far_evac.specs.declared.phase.Phase.TheVariants as phase;

use crate::answers::{EvacFault, Progress, RoundEnd};
use crate::evac::Evac;
use crate::phase::Phase;
use far_book::Near;
use far_device::Device;
use far_policy::Policy;
use far_word::Refused;

impl<N: Near + Drop, D: Device + Drop> Evac<N, D> {
    /// Makes one turn: a marking of 16 objects, a look at the owners, or a dealing with 16 objects, by the phase. Marking and waiting
    /// count nothing.
    ///
    /// Refused [`Refused::Phase`] exactly where no round is running, and as [`Evac::evacuate_some`] is.
    ///
    /// [`Refused::Phase`]: far_word::Refused::Phase
    pub fn turn(&mut self) -> Result<Progress, EvacFault>
        ensures { MakesTurn N.still N.view N.makes D.contents D.honest D.faults D.fails_at_most D.writes D.lets_go self.old self.new result }
    {
        match self.phase() {
            Phase::Idle => Err(EvacFault {
                so_far: Progress::nothing(),
                why: Refused::Phase,
            }),
            Phase::Marking => {
                let Ok(_) = self.mark_some(turn_objects()) else {
                    unreachable!()
                };
                Ok(Progress::nothing())
            }
            Phase::Waiting => {
                let Ok(_) = self.poll_wait() else {
                    unreachable!()
                };
                Ok(Progress::nothing())
            }
            Phase::Evacuating => self.evacuate_some(turn_objects()),
        }
    }

    /// Makes a round: asks a policy for logs as [`Evac::select`] does, and makes so many turns, or fewer if the round is over before.
    /// [`RoundEnd::Nothing`] exactly where no log was chosen, [`RoundEnd::Done`] exactly where each was given back, and else
    /// [`RoundEnd::Limit`], with the phase in which the round stands. What the turns did is summed.
    ///
    /// Where copies may be offered, `turns` is below 2^48.
    ///
    /// Refused as `select` is, where nothing has changed but the policy, and as `turn` is, where the round stands where it is; `so_far` is
    /// then the sum of what was done.
    pub fn run_round<P: Policy>(
        &mut self,
        policy: &mut P,
        most: usize,
        turns: u64,
    ) -> Result<RoundEnd, EvacFault>
        requires few { self.old.copying ≡ true → turns < most_turns }
        ensures came { Came N.makes self.old.book.near self.new.book.near }
        ensures runs { IfOk result (λ end. (logs : List ℕ) × P.gives policy.old (map (row_of (N.view self.old.book.near)) self.old.book.order) most (Ok logs) policy.new
            × IsChoice (map (row_of (N.view self.old.book.near)) self.old.book.order) most logs × (N.still → IsRound (moment N.view self.old) logs turns end (moment N.view self.new))
            × RoundAsking N.still D D.writes D.lets_go D.contents (moment N.view self.old) logs turns false end (moment N.view self.new) self.old.book.device self.new.book.device) }
        ensures barred { (why : why_refused) → unselectable (moment N.view self.old) ≡ Some why →
            (result ≡ Err record { so_far = progress_of nothing false; why = why }) × (self.new ≡ self.old) × (policy.new ≡ policy.old) }
        ensures refused { unselectable (moment N.view self.old) ≡ None → IfErr result (λ fault.
            ((fault.so_far ≡ progress_of nothing false) × (self.new ≡ self.old)
            × IsBadChoice fault.why × P.gives policy.old (map (row_of (N.view self.old.book.near)) self.old.book.order) most (Err fault.why) policy.new)
            ⊎ ((logs : List ℕ) × P.gives policy.old (map (row_of (N.view self.old.book.near)) self.old.book.order) most (Ok logs) policy.new
            × ((fault.why ≡ Memory) ⊎ (fault.why ≡ Failed)) × (N.still → HaltsTurns (after_selecting (moment N.view self.old) logs) turns fault.so_far (moment N.view self.new))
            × StopsAsking N.still D D.writes D.lets_go D.contents (after_selecting (moment N.view self.old) logs) turns fault.so_far fault.why (moment N.view self.new) self.old.book.device self.new.book.device)) }
        ensures follows { Follows D.contents D.honest D.faults D.fails_at_most no_key (fails result) self.old.book.device self.new.book.device }
    {
        let logs = match self.select(policy, most) {
            Ok(logs) => logs,
            Err(why) => {
                return Err(EvacFault {
                    so_far: Progress::nothing(),
                    why,
                });
            }
        };
        if logs.is_empty() {
            return Ok(RoundEnd::Nothing);
        }
        self.make_turns(turns, false)
    }

    // Makes so many turns of a running round, or fewer if it is over before. Where nobody else acts, a turn that leaves the round waiting is the
    // last: no other would change anything.
    pub(super) fn make_turns(&mut self, turns: u64, alone: bool) -> Result<RoundEnd, EvacFault>
        requires running { is_idle self.old.phase ≡ false }
        requires few { self.old.copying ≡ true → turns < most_turns }
        ensures came { Came N.makes self.old.book.near self.new.book.near }
        ensures exact { N.still → IfOk result (λ end. (end ≡ round_end (turns_made (moment N.view self.old) turns)) × (moment N.view self.new ≡ (turns_made (moment N.view self.old) turns).moment)) }
        ensures halts { N.still → IfErr result (λ fault. HaltsTurns (moment N.view self.old) turns fault.so_far (moment N.view self.new)) }
        ensures why { IfErr result (λ fault. (fault.why ≡ Memory) ⊎ (fault.why ≡ Failed)) }
        ensures asked { IfOk result (λ end. EndsAsking N.still D D.writes D.lets_go D.contents (moment N.view self.old) turns alone end (moment N.view self.new) self.old.book.device self.new.book.device) }
        ensures refused { IfErr result (λ fault. StopsAsking N.still D D.writes D.lets_go D.contents (moment N.view self.old) turns fault.so_far fault.why (moment N.view self.new) self.old.book.device self.new.book.device) }
        ensures follows { Follows D.contents D.honest D.faults D.fails_at_most no_key (fails result) self.old.book.device self.new.book.device }
    {
        self.keeps_law();
        let mut total = Progress::nothing();
        for _ in 0..turns {
            let waited = self.is_waiting();
            match self.turn_more(total) {
                Ok(sum) => total = sum,
                Err(fault) => return Err(fault),
            }
            if total.done {
                return Ok(RoundEnd::Done(total));
            }
            if alone && waited && self.is_waiting() {
                return Ok(RoundEnd::Limit(Phase::Waiting));
            }
        }
        Ok(RoundEnd::Limit(self.phase()))
    }

    // Whether the round waits for owners.
    fn is_waiting(&self) -> bool
        ensures { result ≡ is_waiting self.now.phase }
    {
        matches!(self.round.phase, Phase::Waiting)
    }

    // Makes one turn of a running round, and adds what it did to what was done before.
    fn turn_more(&mut self, before: Progress) -> Result<Progress, EvacFault>
        // a round is running, and what was counted before leaves room for a turn's
        requires running { is_idle self.old.phase ≡ false }
        requires within { self.old.copying ≡ false → IsWithin (moment N.view self.old) (tally_of before) }
        requires few { self.old.copying ≡ true → (turns : ℕ) × (turns < most_turns) × IsCountedIn turns (tally_of before) }

        // only calls of the hand led there
        ensures came { Came N.makes self.old.book.near self.new.book.near }

        // done: one turn was made, by the round's phase, and counted on top, and the device was asked for just what it took; over a hand that is still exactly so
        ensures turns { IfOk result (λ total. (tally : Tally) × TurnsTo (moment N.view self.old) self.old.phase tally total.done (moment N.view self.new) × (tally_of total ≡ plus (tally_of before) tally)
            × AsksInTurn N.still D D.writes D.lets_go D.contents (moment N.view self.old) self.old.phase (moment N.view self.new) tally self.old.book.device self.new.book.device
            × (self.old.copying ≡ false → KeepsKeys (first_live (moment N.view self.old) (objects_in tally)) (D.contents self.old.book.device) (D.contents self.new.book.device))) }
        ensures exact { N.still → IfOk result (λ total. turned (turned_at (moment N.view self.old) (tally_of before) false) self.old.phase ≡ turned_at (moment N.view self.new) (tally_of total) total.done) }

        // the round was as its law says, and copies may be offered where they might before
        ensures lawful { IsLawful (moment N.view self.old) }
        ensures copying { self.new.copying ≡ self.old.copying }

        // what is counted leaves room for a turn more, and the round is over just where that is told
        ensures goes_on { self.old.copying ≡ false → IfOk result (λ total. GoesOn (moment N.view self.new) (tally_of total) total.done) }
        ensures counted { self.old.copying ≡ true → (turns : ℕ) → IsCountedIn turns (tally_of before) → IfOk result (λ total. IsCountedIn (turns + 1) (tally_of total)) }
        ensures over { IfOk result (λ total. is_idle self.new.phase ≡ total.done) }

        // refused only while objects leave, at one of them: those before it were dealt with, and are counted on top
        ensures leaving { IfErr result (λ _. self.old.phase ≡ phase.Evacuating) }
        ensures stops { IfErr result (λ fault. (tally : Tally) × StopsBy (moment N.view self.old) turn_size (moment N.view self.new) tally × (fault.so_far ≡ progress_of (plus (tally_of before) tally) false)
            × RefusesBy N.still D D.writes D.lets_go D.contents (moment N.view self.old) turn_size (moment N.view self.new) tally fault.why self.old.book.device self.new.book.device
            × (self.old.copying ≡ false → KeepsKeys (first_live (moment N.view self.old) (objects_in tally + 1)) (D.contents self.old.book.device) (D.contents self.new.book.device))) }
        ensures halts { N.still → IfErr result (λ fault. (tally : Tally) × Halts (moment N.view self.old) turn_size (moment N.view self.new) tally × (fault.so_far ≡ progress_of (plus (tally_of before) tally) false)) }

        // refused for want of memory, or as the device failed
        ensures why { IfErr result (λ fault. (fault.why ≡ Memory) ⊎ (fault.why ≡ Failed)) }
        ensures follows { Follows D.contents D.honest D.faults D.fails_at_most no_key (fails result) self.old.book.device self.new.book.device }
    {
        self.keeps_law();
        match self.turn() {
            Ok(made) => {
                self.keeps_law();
                Ok(sum(before, made, made.done))
            }
            Err(fault) => Err(EvacFault {
                so_far: sum(before, fault.so_far, false),
                why: fault.why,
            }),
        }
    }
}

// How many objects a turn marks or deals with at most.
#[tactic(auto, unfolding(crate::specs::Turns::turn_size))]
fn turn_objects() -> u64
    ensures { result ≡ turn_size }
{
    16
}

// What was done in two parts.
fn sum(a: Progress, b: Progress, done: bool) -> Progress
    requires small { IsSmall (plus (tally_of a) (tally_of b)) }
    ensures { result ≡ progress_of (plus (tally_of a) (tally_of b)) done }
{
    Progress {
        moved: a.moved + b.moved,
        far: a.far + b.far,
        dropped: a.dropped + b.dropped,
        freed: a.freed + b.freed,
        done,
    }
}
