//! How the objects of the chosen logs leave, and the logs are given back.

ghost use Rattle.std.specs.Prelude.{◌≡◌, ◌⊎◌, ◌<◌, ◌+◌, ◌*◌, ◌^◌, ◌∷◌, ℕ, List, [], false, true, cond, length, Err, IfOk, IfErr, IfSome, IfNone, IsSome};
ghost use Rattle.far_device.specs.Following.{Follows, none_of, other_than};
ghost use Rattle.far_word.specs.declared.refused.Refused.TheVariants.{Device as Failed, Memory};
ghost use Rattle.far_word.specs.declared.sizes.TheConstants.{CELLS};
ghost use Rattle.far_word.specs.Pointer.{read_of};
ghost use Rattle.far_events.specs.events.Naming.{is_dropped};
ghost use Rattle.far_events.specs.state.Law.{is_dirty};
ghost use Rattle.far_hand.specs.Came.{Came};
ghost use Rattle.far_hand.specs.Finds.{Finds};
ghost use Rattle.far_book.specs.book.Asking.{AsksToEvict};
ghost use Rattle.far_book.specs.book.Dealing.{has_evac, is_failure};
ghost use Rattle.far_hand.specs.Quiet.{IsQuietNear};
ghost use Rattle.far_book.specs.book.Effects.{evicted};
ghost use Rattle.far_book.specs.book.Releasing.{order_without, released};
ghost use Rattle.far_evac.specs.AnyHand.{Knows, KnowsMoment, KnowsWalked, StopsAt, Walks};
ghost use Rattle.far_evac.specs.Asked.{AsksSo, IsRefusedWrite, IsToBeWritten, SparesClean, WalksAsking, asked_by, first_live};
ghost use Rattle.far_evac.specs.ByCopying.{AsksBy, EvacuatesBy, RefusesBy, StopsBy, asked_live};
ghost use Rattle.far_evac.specs.Calls.{DealsWithObjects};
ghost use Rattle.far_evac.specs.Cursor.{IsNextLeaving};
ghost use Rattle.far_evac.specs.EvacOf.{SameRound, moment};
ghost use Rattle.far_evac.specs.Leaving.{AsksAs, GoesAway, LeavesAs, LeavesBy, counted_as, goes_near, near_fate, standing};
ghost use Rattle.far_evac.specs.Live.{is_empty, live_in};
ghost use Rattle.far_evac.specs.Moment.{nothing, objects_in, progress_of, tally_of};
ghost use Rattle.far_evac.specs.MomentLaw.{is_idle};
ghost use Rattle.far_evac.specs.Turning.{IsBounded, IsBoundedBy};
ghost use Rattle.far_evac.specs.Walk.{Goes, dealt_as, ended, is_done, left, settled, walked, way_of};
ghost use Rattle.far_evac.specs.declared.evac.evacuating.Fate.TheVariants as fates;
ghost use Rattle.far_evac.specs.declared.phase.Phase.TheVariants as phase;

use crate::answers::{EvacFault, Progress};
use crate::evac::Evac;
use crate::phase::Phase;
use far_book::{Book, LiveSpan, Near};
use far_device::Device;
use far_log::Span;
use far_word::{Place, PtrWord, Refused, size_of};

// What became of an object that was to leave its log.
#[derive(Clone, Copy)]
pub(super) enum Fate {
    Moved,
    Far,
    Dropped,
}

impl<N: Near + Drop, D: Device + Drop> Evac<N, D> {
    /// Deals with the first n live objects of the collection set, or with all, in order: one that its owner has
    /// dropped is retired; a hot one goes to another log, or far where no room is; any other goes far. A log in front without live
    /// objects is given back at once; after the last the round is over, and the answer says `done`.
    ///
    /// Where copies may be offered the jobs are collected first, and the objects that were copied are counted as moved. Then it deals with the first n
    /// that have no job but void ones, or with all: the copy of a hot one is offered, if a job is empty and there is room. An offer is one of the n, and isn't counted in
    /// the answer. At the end of each log that it comes to, the log is given back if nothing lies in it then, and no job reads or writes it.
    ///
    /// Refused [`Refused::Phase`] exactly where objects don't leave now, and nothing has changed; or [`Refused::Memory`] or
    /// [`Refused::Device`] as a write was, at an object that is as before; if no copy may be offered, it was to go far, and has DIRTY. What was done before it
    /// stays, and is counted in `so_far`.
    ///
    /// [`Refused::Phase`]: far_word::Refused::Phase
    /// [`Refused::Memory`]: far_word::Refused::Memory
    /// [`Refused::Device`]: far_word::Refused::Device
    #[inline(always)]
    pub fn evacuate_some(&mut self, n: u64) -> Result<Progress, EvacFault>
        ensures { DealsWithObjects N.still N.view N.makes D.contents D.honest D.faults D.fails_at_most D.writes D.lets_go self.old self.new n result }
    {
        let mut progress = Progress {
            moved: 0,
            far: 0,
            dropped: 0,
            freed: 0,
            done: false,
        };
        if self.round.phase != Phase::Evacuating {
            return Err(EvacFault {
                so_far: progress,
                why: Refused::Phase,
            });
        }
        match self.evacuate(n, &mut progress) {
            Ok(done) => {
                progress.done = done;
                Ok(progress)
            }
            Err(why) => Err(EvacFault {
                so_far: progress,
                why,
            }),
        }
    }

    // Deals with n objects, or all, and counts them, by whether copies may be offered; whether the collection set is empty then.
    fn evacuate(&mut self, n: u64, progress: &mut Progress) -> Result<bool, Refused>
        // objects are leaving, and nothing is counted yet
        requires phase { self.old.phase ≡ phase.Evacuating }
        requires begun { progress.old ≡ progress_of nothing false }

        // only calls of the hand led there, and copies may be offered where they might before
        ensures came { Came N.makes self.old.book.near self.new.book.near }
        ensures copying { self.new.copying ≡ self.old.copying }

        // done: n objects were dealt with, or all, and counted; the answer is whether each log came back; over a hand that is still exactly so
        ensures walks { IfOk result (λ done. EvacuatesBy (moment N.view self.old) n (moment N.view self.new) (tally_of progress.new) done) }
        ensures exact { N.still → IfOk result (λ done. (moment N.view self.new ≡ ended (walked (moment N.view self.old) n)) × (tally_of progress.new ≡ (walked (moment N.view self.old) n).tally) × (done ≡ is_done (walked (moment N.view self.old) n))) }

        // refused at an object, for want of memory or as the device failed: those before it, fewer than n, were dealt with; over a hand that is still
        // exactly so
        ensures stops { IfErr result (λ _. StopsBy (moment N.view self.old) n (moment N.view self.new) (tally_of progress.new)) }
        ensures stops_exact { N.still → IfErr result (λ _. (k : ℕ) × (k < n)
            × (moment N.view self.new ≡ (walked (moment N.view self.old) k).moment) × (tally_of progress.new ≡ (walked (moment N.view self.old) k).tally)) }
        ensures why { IfErr result (λ why. (why ≡ Memory) ⊎ (why ≡ Failed)) }

        // the round is over just where the answer says so, and where it was refused goes on; no more is counted than a heap may have
        ensures done { progress.new.done ≡ false }
        ensures goes_on { IfOk result (λ done. is_idle self.new.phase ≡ done) }
        ensures stays { IfErr result (λ _. self.new.phase ≡ self.old.phase) }
        ensures bounded { IsBoundedBy self.old.copying (tally_of progress.new) }

        // the device was asked for what these objects take, and nothing else; where it refused, for one write more; other keys keep what they had
        ensures asked { IfOk result (λ _. AsksBy N.still D D.writes D.lets_go D.contents (moment N.view self.old) n (moment N.view self.new) (tally_of progress.new) self.old.book.device self.new.book.device) }
        ensures refused { IfErr result (λ why. RefusesBy N.still D D.writes D.lets_go D.contents (moment N.view self.old) n (moment N.view self.new) (tally_of progress.new) why self.old.book.device self.new.book.device) }
        ensures follows { Follows D.contents D.honest D.faults D.fails_at_most (none_of (asked_live (moment N.view self.old) (asked_by (tally_of progress.new) result))) (is_failure result) self.old.book.device self.new.book.device }
    {
        self.keeps_law();
        if self.copying {
            return self.evacuate_beside(n, progress);
        }
        self.evacuate_up_to(n, progress)
    }

    // The same where no copy may be offered.
    fn evacuate_up_to(&mut self, n: u64, progress: &mut Progress) -> Result<bool, Refused>
        // objects are leaving, no copies are offered, and nothing is counted yet
        requires phase { self.old.phase ≡ phase.Evacuating }
        requires alone { self.old.copying ≡ false }
        requires begun { progress.old ≡ progress_of nothing false }

        // only calls of the hand led there, and no copies are offered
        ensures came { Came N.makes self.old.book.near self.new.book.near }
        ensures copying { self.new.copying ≡ false }

        // done: n objects were dealt with, or all, and counted; the answer is whether each log came back; over a hand that is still exactly so
        ensures walks { IfOk result (λ _. (k : ℕ) × Walks (moment N.view self.old) n k (standing N.view self.new progress.new)) }
        ensures exact { N.still → IfOk result (λ _. standing N.view self.new progress.new ≡ walked (moment N.view self.old) n) }
        ensures ends { IfOk result (λ done. (moment N.view self.new ≡ ended (standing N.view self.new progress.new)) × (done ≡ is_done (standing N.view self.new progress.new))) }

        // refused at an object, for want of memory or as the device failed: those before it, fewer than n, were dealt with; over a hand that is still
        // exactly so
        ensures stops { IfErr result (λ _. StopsAt (moment N.view self.old) n (moment N.view self.new) (tally_of progress.new)) }
        ensures stops_exact { N.still → IfErr result (λ _. (k : ℕ) × (k < n)
            × (moment N.view self.new ≡ (walked (moment N.view self.old) k).moment) × (tally_of progress.new ≡ (walked (moment N.view self.old) k).tally)) }
        ensures why { IfErr result (λ why. (why ≡ Memory) ⊎ (why ≡ Failed)) }

        // the round is over just where the answer says so, and where it was refused goes on; no more is counted than a heap may have
        ensures done { progress.new.done ≡ false }
        ensures goes_on { IfOk result (λ done. is_idle self.new.phase ≡ done) }
        ensures stays { IfErr result (λ _. self.new.phase ≡ self.old.phase) }
        ensures bounded { IsBounded (tally_of progress.new) }

        // the device was asked for what these objects take, and nothing else; where it refused, for one write more; other keys keep what they had
        ensures asked { IfOk result (λ _. WalksAsking N.still D D.writes D.lets_go (moment N.view self.old) (objects_in (tally_of progress.new)) (standing N.view self.new progress.new) self.old.book.device self.new.book.device) }
        ensures refused { IfErr result (λ why. IsRefusedWrite N.still D D.writes D.lets_go (moment N.view self.old) (moment N.view self.new) (tally_of progress.new) why self.old.book.device self.new.book.device) }
        ensures follows { Follows D.contents D.honest D.faults D.fails_at_most (none_of (first_live (moment N.view self.old) (asked_by (tally_of progress.new) result))) (is_failure result) self.old.book.device self.new.book.device }
    {
        self.keeps_law();
        let _collection = self.collection().len();
        for _ in 0..n {
            let Some(first) = self.settle(progress) else {
                return Ok(true);
            };
            if let Err(why) = self.deal(first.span, first.cell, progress) {
                return Err(why);
            }
        }
        Ok(self.settle(progress).is_none())
    }

    // Gives back the logs in front without live objects, and counts them; the span of the first live object that is left, or none, and
    // then the round is over.
    #[inline(always)]
    fn settle(&mut self, progress: &mut Progress) -> Option<LiveSpan>
        // objects are leaving, no copies are offered, and there is room to count the logs
        requires phase { self.old.phase ≡ phase.Evacuating }
        requires alone { self.old.copying ≡ false }
        requires room { progress.old.freed + length self.old.collection < 2 ^ 64 }

        // only calls of the hand led there
        ensures came { Came N.makes self.old.book.near self.new.book.near }

        // logs in front in which nothing lies came back, up to the first in which an object does; exactly these over a hand that is still
        ensures known { KnowsWalked (settled (standing N.view self.old progress.old)) (standing N.view self.new progress.new) }
        ensures exact { N.still → standing N.view self.new progress.new ≡ settled (standing N.view self.old progress.old) }

        // the round is over exactly where no log is left
        ensures ends { self.new.phase ≡ cond (is_empty self.new.collection) phase.Idle phase.Evacuating }

        // the object that leaves next: the first of the log in front, its span, and its cell as it was found; `None` where no log is left
        ensures first { IfSome result (λ first. (rest : List ℕ) × (left (standing N.view self.new progress.new) ≡ first.span.p ∷ rest)) }
        ensures next { IfSome result (λ first. IsNextLeaving (N.view self.new.book.near) self.new.collection first.span) }
        ensures cell { IfSome result (λ first. first.cell ≡ (N.view self.new.book.near).cell first.span.p) }
        ensures none { IfNone result (self.new.collection ≡ []) }

        // each log that came back is counted; copying, whether the round was counted as done, and the device stay
        ensures copying { self.new.copying ≡ self.old.copying }
        ensures freed { progress.new.freed + length self.new.collection ≡ progress.old.freed + length self.old.collection }
        ensures done { progress.new.done ≡ progress.old.done }
        ensures device { self.new.book.device ≡ self.old.book.device }
    {
        self.keeps_law();
        while let Some(log) = self.front() {
            if let Some(first) = self.first_in(log) {
                return Some(first);
            }
            self.give_back(log);
            progress.freed += 1;
        }
        None
    }

    /// The collection set: the chosen logs that were not given back in this round, in the order in which they were chosen. None where no round is running.
    pub fn collection(&self) -> &[u8]
        ensures { result.now ≡ self.now.collection }
    {
        let chosen = self.round.chosen.as_slice();
        match self.round.phase {
            Phase::Idle => &chosen[..0],
            Phase::Marking | Phase::Waiting => chosen,
            Phase::Evacuating => &chosen[self.round.index..],
        }
    }

    // The first of them, while objects leave.
    fn front(&self) -> Option<u8>
        requires phase { self.now.phase ≡ cond (is_empty self.now.collection) phase.Idle phase.Evacuating }
        ensures some { IfSome result (λ log. (logs : List ℕ) × (self.now.collection ≡ log ∷ logs)) }
        ensures none { IfNone result (self.now.collection ≡ []) }
    {
        self.keeps_law();
        match self.round.phase {
            Phase::Evacuating => Some(self.round.chosen.as_slice()[self.round.index]),
            _ => None,
        }
    }

    // The span of the first live object of the log in front, where the evacuation stands then; none, where no object lives there.
    fn first_in(&mut self, log: u8) -> Option<LiveSpan>
        // objects are leaving, and the log is the one in front
        requires phase { self.old.phase ≡ phase.Evacuating }
        requires front { (logs : List ℕ) × (self.old.collection ≡ log ∷ logs) }

        // only calls of the hand led there; nothing has changed but what is known, over a hand that is still nothing at all
        ensures came { Came N.makes self.old.book.near self.new.book.near }
        ensures known { KnowsMoment (moment N.view self.old) (moment N.view self.new) }
        ensures exact { N.still → moment N.view self.new ≡ moment N.view self.old }

        // the log's first live object, its span, and its cell as it was found; `None` where nothing lies there
        ensures first { IfSome result (λ first. (rest : List ℕ) × (live_in (N.view self.old.book.near) log ≡ first.span.p ∷ rest)) }
        ensures next { IfSome result (λ first. IsNextLeaving (N.view self.new.book.near) self.new.collection first.span) }
        ensures cell { IfSome result (λ first. first.cell ≡ (N.view self.new.book.near).cell first.span.p) }
        ensures none { IfNone result (live_in (N.view self.old.book.near) log ≡ []) }

        // the device stays
        ensures device { self.new.book.device ≡ self.old.book.device }
    {
        self.book.keeps_law();
        let Some(first) = self.book.next_found(log, self.round.at) else {
            return None;
        };
        self.round.at = first.span.at;
        Some(first)
    }

    // Gives the log in front back, where no object lives; after the last the round is over.
    fn give_back(&mut self, log: u8)
        // objects are leaving, nothing lies in the log in front, and no copies are offered
        requires phase { self.old.phase ≡ phase.Evacuating }
        requires front { (logs : List ℕ) × (self.old.collection ≡ log ∷ logs) }
        requires none { live_in (N.view self.old.book.near) log ≡ [] }
        requires alone { self.old.copying ≡ false }

        // only calls of the hand led there
        ensures came { Came N.makes self.old.book.near self.new.book.near }

        // the log is free, and out of the order and the collection set; nothing else has changed but what is known, over a hand that is still nothing
        ensures core { Knows (released (N.view self.old.book.near) log) (N.view self.new.book.near) }
        ensures exact { N.still → N.view self.new.book.near ≡ released (N.view self.old.book.near) log }
        ensures order { self.new.book.order ≡ order_without log self.old.book.order }
        ensures collection { self.old.collection ≡ log ∷ self.new.collection }
        ensures copying { self.new.copying ≡ false }

        // the round is over exactly where no log is left; the device stays
        ensures ends { self.new.phase ≡ cond (is_empty self.new.collection) phase.Idle phase.Evacuating }
        ensures device { self.new.book.device ≡ self.old.book.device }
    {
        self.book.keeps_law();
        self.book.release(log);
        self.book.keeps_law();
        self.round.index += 1;
        self.round.at = 0;
        if self.round.index == self.round.chosen.len() {
            self.round.phase = Phase::Idle;
        }
    }

    // Deals with the first live object that is left, and counts it: the evacuation stands behind its span then. At a refusal it lies as before.
    fn deal(&mut self, span: Span, cell: u64, progress: &mut Progress) -> Result<(), Refused>
        // objects are leaving, this one comes next, as its cell was found, and there is room to count it
        requires phase { self.old.phase ≡ phase.Evacuating }
        requires first { (rest : List ℕ) × (left (standing N.view self.old progress.old) ≡ span.p ∷ rest) }
        requires next { IsNextLeaving (N.view self.old.book.near) self.old.collection span }
        requires cell { cell ≡ (N.view self.old.book.near).cell span.p }
        requires room { objects_in (tally_of progress.old) + 1 < 2 ^ 64 }

        // only calls of the hand led there
        ensures came { Came N.makes self.old.book.near self.new.book.near }

        // done: it was dealt with as a word says that was found in its cell, over a hand that is still the one that was known, and the device was asked for
        // just that
        ensures dealt { IfOk result (λ _. (word : ℕ) × Finds ((N.view self.old.book.near).cell span.p) word
            × KnowsWalked (dealt_as (standing N.view self.old progress.old) span.p (read_of word)) (standing N.view self.new progress.new)
            × AsksSo D D.writes D.lets_go (N.view self.old.book.near) span.p (way_of (N.view self.old.book.near) (read_of word)) self.old.book.device self.new.book.device) }
        ensures exact { N.still → IfOk result (λ _. standing N.view self.new progress.new
            ≡ dealt_as (standing N.view self.old progress.old) span.p (read_of ((N.view self.old.book.near).cell span.p))) }

        // refused: nothing has changed but what is known, over a hand that is still nothing at all, and nothing was counted
        ensures kept { IfErr result (λ _. KnowsMoment (moment N.view self.old) (moment N.view self.new)) }
        ensures same { N.still → IfErr result (λ _. moment N.view self.new ≡ moment N.view self.old) }
        ensures uncounted { IfErr result (λ _. progress.new ≡ progress.old) }

        // the round stands where it stood, and neither logs that came back nor that it is over was counted
        ensures round { SameRound self.old self.new }
        ensures rest { (progress.new.freed ≡ progress.old.freed) × (progress.new.done ≡ progress.old.done) }

        // over a hand that is still the device wasn't asked for an object that goes far without DIRTY
        ensures unasked { N.still → IfOk result (λ _. way_of (N.view self.old.book.near) (read_of ((N.view self.old.book.near).cell span.p)) ≡ Goes
            → SparesClean D (N.view self.old.book.near) span.p self.old.book.device self.new.book.device) }

        // refused by one write, of an object that was to be written, for want of memory or as the device failed; other keys keep what they had
        ensures refused { IfErr result (λ why. AsksToEvict D D.writes D.lets_go (N.view self.old.book.near) span.p (Err why) self.old.book.device self.new.book.device) }
        ensures owed { IfErr result (λ _. IsToBeWritten N.still (N.view self.old.book.near) (N.view self.new.book.near) span.p) }
        ensures follows { Follows D.contents D.honest D.faults D.fails_at_most (other_than span.p) (is_failure result) self.old.book.device self.new.book.device }
        ensures why { IfErr result (λ why. (why ≡ Memory) ⊎ (why ≡ Failed)) }
    {
        self.keeps_law();
        match send_off(&mut self.book, span.p, Some(cell)) {
            Ok(fate) => {
                self.book.keeps_law();
                self.round.at = span.at + size_of(span.len);
                count(progress, fate);
                Ok(())
            }
            Err(why) => Err(why),
        }
    }
}

// Counts an object.
pub(super) fn count(progress: &mut Progress, fate: Fate)
    requires room { objects_in (tally_of progress.old) + 1 < 2 ^ 64 }
    ensures { progress.new ≡ progress_of (counted_as (tally_of progress.old) fate) progress.old.done }
{
    match fate {
        Fate::Moved => progress.moved += 1,
        Fate::Far => progress.far += 1,
        Fate::Dropped => progress.dropped += 1,
    }
}

// An object leaves its log as its cell says: one that its owner has dropped is retired; a hot one goes to another log, or far where no room
// is; any other goes far. At a refusal it lies as before. Its cell may be known.
#[inline(always)]
pub(super) fn send_off<N: Near + Drop, D: Device + Drop>(
    book: &mut Book<N, D>,
    pointer: u16,
    cell: Option<u64>,
) -> Result<Fate, Refused>
    // the object is near and quiet, and has EVAC; its cell's word, where that is known
    requires pointer { pointer < CELLS * (N.view book.old.near).mutators }
    requires cell { IfSome cell (λ word. word ≡ (N.view book.old.near).cell pointer) }
    requires quiet { IsQuietNear (N.view book.old.near) pointer }
    requires evac { has_evac (read_of ((N.view book.old.near).cell pointer)) ≡ true }

    // only calls of the hand led there
    ensures came { Came N.makes book.old.near book.new.near }

    // done: it has left its log as a word says that was found in its cell, over a hand that is still the one that was known
    ensures leaves { IfOk result (λ fate. LeavesBy (N.view book.old.near) book.old.order (N.view book.new.near) book.new.order pointer fate) }
    ensures exact { N.still → IfOk result (λ fate. LeavesAs (N.view book.old.near) book.old.order (N.view book.new.near) book.new.order pointer ((N.view book.old.near).cell pointer) fate) }

    // refused: nothing has changed but what is known, over a hand that is still nothing at all, and the order stays
    ensures kept { IfErr result (λ _. Knows (N.view book.old.near) (N.view book.new.near)) }
    ensures same { N.still → IfErr result (λ _. N.view book.new.near ≡ N.view book.old.near) }
    ensures order { IfErr result (λ _. book.new.order ≡ book.old.order) }

    // the device was asked for just that; and over a hand that is still not for an object that went far without DIRTY
    ensures asked { IfOk result (λ fate. AsksAs D D.writes D.lets_go (N.view book.old.near) pointer fate book.old.device book.new.device) }
    ensures unasked { N.still → IfOk result (λ fate. fate ≡ fates.Far → SparesClean D (N.view book.old.near) pointer book.old.device book.new.device) }

    // refused by one write, of an object that was to be written, for want of memory or as the device failed; other keys keep what they had
    ensures refused { IfErr result (λ why. AsksToEvict D D.writes D.lets_go (N.view book.old.near) pointer (Err why) book.old.device book.new.device) }
    ensures owed { IfErr result (λ _. IsToBeWritten N.still (N.view book.old.near) (N.view book.new.near) pointer) }
    ensures follows { Follows D.contents D.honest D.faults D.fails_at_most (other_than pointer) (is_failure result) book.old.device book.new.device }
    ensures why { IfErr result (λ why. (why ≡ Memory) ⊎ (why ≡ Failed)) }
{
    book.keeps_law();
    let found = book.cell_of(pointer, cell);
    if !goes_near(found) {
        return send_far(book, pointer, Some(found));
    }
    let answer = book.move_by(pointer, Some(found));
    book.keeps_law();
    match answer {
        Ok(place) => Ok(near_fate(place)),
        Err(_) => send_far(book, pointer, None),
    }
}

// What became of an object that was to move: it lies elsewhere, or was found dropped.
fn near_fate(place: Option<Place>) -> Fate
    ensures { result ≡ near_fate place }
{
    match place {
        Some(_) => Fate::Moved,
        None => Fate::Dropped,
    }
}

// An object that isn't known to be dropped goes far, unless it is found to be. Its cell may be known.
#[inline(always)]
pub(super) fn send_far<N: Near + Drop, D: Device + Drop>(
    book: &mut Book<N, D>,
    pointer: u16,
    cell: Option<u64>,
) -> Result<Fate, Refused>
    // the object is near and quiet, and has EVAC and no DROP; its cell's word, where that is known
    requires pointer { pointer < CELLS * (N.view book.old.near).mutators }
    requires cell { IfSome cell (λ word. word ≡ (N.view book.old.near).cell pointer) }
    requires quiet { IsQuietNear (N.view book.old.near) pointer }
    requires evac { has_evac (read_of ((N.view book.old.near).cell pointer)) ≡ true }
    requires alive { is_dropped (read_of ((N.view book.old.near).cell pointer)) ≡ false }

    // only calls of the hand led there
    ensures came { Came N.makes book.old.near book.new.near }

    // done: it is far, or was retired, as its owner has dropped it meanwhile; over a hand that is still it is far
    ensures goes { IfOk result (λ fate. GoesAway (N.view book.old.near) (N.view book.new.near) pointer fate) }
    ensures exact { N.still → IfOk result (λ fate. (fate ≡ fates.Far) × (N.view book.new.near ≡ evicted (N.view book.old.near) pointer)) }

    // refused: nothing has changed but what is known, over a hand that is still nothing at all; the order stays in any case
    ensures kept { IfErr result (λ _. Knows (N.view book.old.near) (N.view book.new.near)) }
    ensures same { N.still → IfErr result (λ _. N.view book.new.near ≡ N.view book.old.near) }
    ensures order { book.new.order ≡ book.old.order }

    // the device was asked for just that; and over a hand that is still not for an object that went far without DIRTY
    ensures asked { IfOk result (λ fate. AsksAs D D.writes D.lets_go (N.view book.old.near) pointer fate book.old.device book.new.device) }
    ensures unasked { N.still → IfOk result (λ fate. fate ≡ fates.Far → SparesClean D (N.view book.old.near) pointer book.old.device book.new.device) }

    // refused by one write, of an object that has DIRTY, for want of memory or as the device failed; other keys keep what they had
    ensures refused { IfErr result (λ why. AsksToEvict D D.writes D.lets_go (N.view book.old.near) pointer (Err why) book.old.device book.new.device) }
    ensures owed { IfErr result (λ _. is_dirty (read_of ((N.view book.new.near).cell pointer)) ≡ true) }
    ensures follows { Follows D.contents D.honest D.faults D.fails_at_most (other_than pointer) (is_failure result) book.old.device book.new.device }
    ensures why { IfErr result (λ why. (why ≡ Memory) ⊎ (why ≡ Failed)) }
{
    book.keeps_law();
    let answer = book.evict_by(pointer, cell);
    book.keeps_law();
    match answer {
        Ok(true) => Ok(Fate::Far),
        Ok(false) => Ok(Fate::Dropped),
        Err(why) => Err(why),
    }
}

// Whether a cell says that its object doesn't go far at once: it is hot, or dropped.
fn goes_near(cell: u64) -> bool
    requires layout { IsSome (read_of cell) }
    ensures { result ≡ goes_near (read_of cell) }
{
    match PtrWord::known(cell) {
        PtrWord::Near { marks, .. } => marks.dropped || marks.hot,
        _ => false,
    }
}
