//! The steps of a round.

ghost use Rattle.std.specs.Prelude.{◌≡◌, ◌+◌, ℕ, true};
ghost use Rattle.far_events.specs.state.State.{State};
ghost use Rattle.far_hand.specs.MayBe.{NoneViews, ViewsNone};
ghost use Rattle.far_table.specs.BookSeats.{seat_makes, seat_may_be, seat_view};
ghost use Rattle.far_evac.specs.Calls.{DealsWithObjects, GivesRoundUp, MakesTurn, MarksObjects, PollsOwners, SelectsLogs};
ghost use Rattle.far_evac.specs.MomentLaw.{has_risen};
ghost use Rattle.far_evac.specs.RoundSteps.{among};
ghost use Rattle.far_evac.specs.declared.phase.Phase.TheVariants as phase;

use crate::evacuator::Evacuator;
use crate::name::HeapName;
use far_device::Device;
use far_evac::{EvacFault, Marked, Polled, Progress};
use far_policy::{Chosen, Policy};
use far_word::Refused;

impl<K: HeapName, D: Device + Drop> Evacuator<K, D> {
    /// Asks a policy for logs, at most so many, and begins a round of them; where it names none, no round begins. The policy is handed what each
    /// sealed log has, oldest first.
    ///
    /// Refused, in this order, [`Refused::Phase`] where a round is running; [`Refused::EpochsSpent`] where there is no later epoch;
    /// and what the policy refuses, which is [`Refused::BadChoice`]. Nothing has changed then but the policy. Takes no memory.
    pub fn select<P: Policy>(&mut self, policy: &mut P, most: usize) -> Result<Chosen, Refused>
        ensures { SelectsLogs ⊥ seat_view seat_makes P.gives self.old self.new policy.old policy.new most result }
    {
        self.evac.select(policy, most)
    }

    /// Sets EVAC on the first n live objects of the chosen logs that lack it, or on all, and counts them. Where none is left, the epoch rises, and the
    /// round waits for the owners. Refused [`Refused::Phase`] exactly where the round isn't marking; nothing has changed then.
    pub fn mark_some(&mut self, n: u64) -> Result<Marked, Refused>
        ensures { MarksObjects ⊥ seat_view seat_makes self.old self.new n result }
    {
        self.evac.mark_some(n)
    }

    /// Looks at the scopes of the owners that weren't seen clear in this round. [`Polled::Clear`] where all are closed, or open at the
    /// new epoch: nobody views anything in the chosen logs then. Else the first other, with the epoch at which its scope was seen open.
    /// Refused [`Refused::Phase`] exactly where the round isn't waiting; nothing has changed then.
    pub fn poll_wait(&mut self) -> Result<Polled, Refused>
        ensures { PollsOwners ⊥ seat_view seat_makes seat_may_be self.old self.new result }
    {
        self.evac.poll_wait()
    }

    /// Once a poll has answered that all owners are clear, nobody views anything in the collection set, in whatever state the words may be. While owners are waited
    /// for, none does who was seen clear. The call does nothing.
    pub fn nobody_views(&self)
        ensures leaving { self.now.phase ≡ phase.Evacuating → (x : State) → seat_may_be self.now.book.near x → NoneViews (among self.now.collection) x }
        ensures waiting { has_risen self.now.phase ≡ true → (x : State) → seat_may_be self.now.book.near x → (m : ℕ) → (seat_view self.now.book.near).clear m ≡ true → ViewsNone (among self.now.collection) m x }
    {
        self.stands();
    }

    /// Deals with the first n live objects of the collection set, or with all, in order: one that its owner has dropped is retired; a
    /// hot one goes to another log, or far where no room is; any other goes far. A log in front without live objects is given back at once; after the
    /// last the round is over, and the answer says `done`.
    ///
    /// With copiers the finished jobs are collected first; those whose pointers are named to their copies count as moved. Then the logs left are walked
    /// over, as far as n objects go: one whose copy is under way is passed over, uncounted; a hot one is offered where a job is empty and there is room. That
    /// is one of n, and told once it has moved. At its end a log is given back if nothing lies there and no job reads or writes it.
    ///
    /// Refused [`Refused::Phase`] exactly where objects don't leave now, and nothing has changed; or [`Refused::Memory`] or [`Refused::Device`] as the
    /// device is, at an object that is as before. What was done before it stays, and is counted in `so_far`.
    pub fn evacuate_some(&mut self, n: u64) -> Result<Progress, EvacFault>
        ensures { DealsWithObjects ⊥ seat_view seat_makes D.contents D.honest D.faults D.fails_at_most D.writes D.lets_go self.old self.new n result }
    {
        self.evac.evacuate_some(n)
    }

    /// Makes one step of the running round, by its phase, with 16 objects at most: marks, looks at scopes, or deals with objects. Refused
    /// [`Refused::Phase`] exactly where no round is running; else as [`Evacuator::evacuate_some`] is.
    pub fn turn(&mut self) -> Result<Progress, EvacFault>
        ensures { MakesTurn ⊥ seat_view seat_makes D.contents D.honest D.faults D.fails_at_most D.writes D.lets_go self.old self.new result }
    {
        self.evac.turn()
    }

    /// Gives the round up: the live objects of the collection set lose EVAC, no object has moved, and no round is running. Those logs stand
    /// where they stood in the order of sealing. With copiers the jobs that nobody has claimed are taken back, and no other copy is taken any more: a copier may
    /// finish its own, which comes to nothing. Refused [`Refused::Phase`] exactly where no round is running; nothing has changed then.
    pub fn abort(&mut self) -> Result<(), Refused>
        ensures { GivesRoundUp ⊥ seat_view seat_makes self.old self.new result }
    {
        self.evac.abort()
    }
}
