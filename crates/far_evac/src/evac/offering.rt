//! How a round's logs are walked over where copies may be offered.

ghost use Rattle.std.specs.Prelude.{◌≡◌, ◌⊎◌, ◌+◌, ◌*◌, ◌^◌, ◌<◌, ◌≤◌, ◌++◌, ◌∷◌, [], ℕ, List, true, false, cond, eqb, length, IfOk, IfErr};
ghost use Rattle.std.specs.List.{IsDistinct};
ghost use Rattle.far_device.specs.Following.{Follows, none_of};
ghost use Rattle.far_word.specs.declared.refused.Refused.TheVariants.{Device as Failed, Memory};
ghost use Rattle.far_word.specs.declared.sizes.TheConstants.{LOG_WORDS};
ghost use Rattle.far_policy.specs.declared.chosen.TheConstants.{MOST_CHOSEN};
ghost use Rattle.far_hand.specs.Came.{Came};
ghost use Rattle.far_book.specs.book.Dealing.{is_failure};
ghost use Rattle.far_evac.specs.AnyHand.{KnowsWalked};
ghost use Rattle.far_evac.specs.Beside.{AsksOnly, At, OverLogs, RefusedOnly, freed_if, may_free};
ghost use Rattle.far_evac.specs.ByCopying.{EvacuatesAsking, StopsRefused};
ghost use Rattle.far_evac.specs.BookStands.{IsChosen, end_of, is_failed, stands};
ghost use Rattle.far_evac.specs.EvacOf.{moment};
ghost use Rattle.far_evac.specs.Live.{is_empty, live_among};
ghost use Rattle.far_evac.specs.Moment.{nothing, objects_in, progress_of, tally_of};
ghost use Rattle.far_evac.specs.MomentLaw.{is_idle};
ghost use Rattle.far_evac.specs.RoundSteps.{among};
ghost use Rattle.far_evac.specs.Turning.{IsBoundedBy};
ghost use Rattle.far_evac.specs.WalkedLogs.{KeepsRound, round_of};
ghost use Rattle.far_evac.specs.declared.phase.Phase.TheVariants as phase;

use crate::answers::Progress;
use crate::evac::Evac;
use crate::evac::beside::{Passage, walk_log};
use crate::phase::Phase;
use crate::round::Round;
use far_book::{Book, Near};
use far_device::Device;
use far_policy::Chosen;
use far_word::Refused;

impl<N: Near + Drop, D: Device + Drop> Evac<N, D> {
    // Collects the jobs first, and counts those that are named as moved; then walks over all chosen logs that are left, from their
    // starts. Whether each was given back.
    #[inline(never)]
    pub(super) fn evacuate_beside(
        &mut self,
        n: u64,
        progress: &mut Progress,
    ) -> Result<bool, Refused>
        // objects are leaving, copies may be offered, and nothing is counted yet
        requires phase { self.old.phase ≡ phase.Evacuating }
        requires copying { self.old.copying ≡ true }
        requires begun { progress.old ≡ progress_of nothing false }

        // only calls of the hand led there
        ensures came { Came N.makes self.old.book.near self.new.book.near }

        // done: the jobs were collected, n objects were dealt with, or all, as it is counted, and the device was asked for just that
        ensures asked { IfOk result (λ _. EvacuatesAsking D D.writes D.lets_go D.contents (moment N.view self.old) n (moment N.view self.new) (tally_of progress.new) self.old.book.device self.new.book.device) }

        // refused at an object: those before it were dealt with and counted, and the one write of this one was refused
        ensures refused { IfErr result (λ why. StopsRefused D D.writes D.lets_go D.contents (moment N.view self.old) n (moment N.view self.new) (tally_of progress.new) why self.old.book.device self.new.book.device) }

        // the round is over just where the answer says so, as no log is left, and where it was refused goes on; that was for want of memory, or as the
        // device failed
        ensures over { IfOk result (λ done. (done ≡ is_empty self.new.collection) × (is_idle self.new.phase ≡ done)) }
        ensures stays { IfErr result (λ _. self.new.phase ≡ self.old.phase) }
        ensures why { IfErr result (λ why. (why ≡ Memory) ⊎ (why ≡ Failed)) }

        // no more is counted than a heap may have, and copies may be offered still
        ensures done { progress.new.done ≡ false }
        ensures copying { self.new.copying ≡ true }
        ensures bounded { IsBoundedBy true (tally_of progress.new) }

        // keys of objects that lie elsewhere keep what they had
        ensures follows { Follows D.contents D.honest D.faults D.fails_at_most (none_of (live_among (N.view self.old.book.near) self.old.collection)) (is_failure result) self.old.book.device self.new.book.device }
    {
        self.book.keeps_law();
        progress.moved += u64::from(self.book.collect());
        self.book.keeps_law();
        let chosen = self.round.chosen;
        let mut kept = Chosen::new();
        let end = walk_logs(
            &mut self.book,
            &chosen.as_slice()[self.round.index..],
            n,
            progress,
            &mut kept,
        );
        self.book.keeps_law();
        self.round = round_of(&kept);
        if let Passage::Fails(_, why) = end {
            return Err(why);
        }
        Ok(kept.is_empty())
    }
}

// Walks over logs in turn: deals with n objects that have no job but void ones, or with all, and counts them. A log where nothing lies
// then, and which no job reads or writes, is given back; the others are kept.
fn walk_logs<N: Near + Drop, D: Device + Drop>(
    book: &mut Book<N, D>,
    logs: &[u8],
    n: u64,
    progress: &mut Progress,
    kept: &mut Chosen,
) -> Passage
    // nothing is kept yet, the logs are of the round and each is named once, and there is room to count them and what lies there
    requires none { kept.old ≡ [] }
    requires chosen { (l : ℕ) → among logs.now l ≡ true → IsChosen (N.view book.old.near) l }
    requires once { IsDistinct eqb logs.now }
    requires most { length logs.now ≤ MOST_CHOSEN }
    requires room { objects_in (tally_of progress.old) + length logs.now * LOG_WORDS < 2 ^ 64 }
    requires freed { progress.old.freed + length logs.now < 2 ^ 64 }

    // only calls of the hand led there
    ensures came { Came N.makes book.old.near book.new.near }

    // the logs were walked over in turn until n objects were dealt with, or one was refused, and each in which nothing is left came back
    ensures over { (held : List ℕ) → OverLogs D (AsksOnly D D.writes D.lets_go D.contents) (RefusedOnly D D.writes D.lets_go D.contents) logs.now n (stands (N.view) book.old progress.old held) (stands (N.view) book.new progress.new held)
        kept.new (end_of result) book.old.device book.new.device }

    // those that are kept may be walked over again, each other one has left the round, and none has come into it
    ensures keeps { KeepsRound (N.view book.old.near) logs.now kept.new (N.view book.new.near) }

    // no more is counted than lies in these logs; whether the round is over is told as before
    ensures counted { objects_in (tally_of progress.new) ≤ objects_in (tally_of progress.old) + length logs.now * LOG_WORDS }
    ensures freed { progress.new.freed ≤ progress.old.freed + length logs.now }
    ensures done { progress.new.done ≡ progress.old.done }

    // refused for want of memory, or as the device failed; keys of objects that lie elsewhere keep what they had
    ensures why { (p : ℕ) (why : Refused) → end_of result ≡ At p why → (why ≡ Memory) ⊎ (why ≡ Failed) }
    ensures follows { Follows D.contents D.honest D.faults D.fails_at_most (none_of (live_among (N.view book.old.near) logs.now)) (is_failed (end_of result)) book.old.device book.new.device }
{
    let mut left = n;
    let mut index = 0;
    while index < logs.len() {
        let log = logs[index];
        let (more, end) = walk_log(book, log, left, progress);
        let Passage::On = end else {
            keep_all(&logs[index..], kept);
            return end;
        };
        free_or_keep(book, log, progress, kept);
        left = more;
        index += 1;
    }
    Passage::On
}

// Gives a log back where nothing lies, and which no job reads or writes, and counts it; keeps it else.
fn free_or_keep<N: Near + Drop, D: Device + Drop>(
    book: &mut Book<N, D>,
    log: u8,
    progress: &mut Progress,
    kept: &mut Chosen,
)
    requires chosen { IsChosen (N.view book.old.near) log }
    requires room { length kept.old < MOST_CHOSEN }
    requires freed { progress.old.freed + 1 < 2 ^ 64 }
    ensures came { Came N.makes book.old.near book.new.near }
    ensures known { (held : List ℕ) → KnowsWalked (freed_if (stands (N.view) book.old progress.old held) log) (stands (N.view) book.new progress.new held) }
    ensures kept { kept.new ≡ cond (may_free (N.view book.old.near) log) kept.old (kept.old ++ log ∷ []) }
    ensures done { progress.new.done ≡ progress.old.done }
    ensures device { book.new.device ≡ book.old.device }
{
    book.keeps_law();
    if book.release(log) {
        book.keeps_law();
        progress.freed += 1;
    } else {
        kept.push(log);
    }
}

// Keeps these logs too.
fn keep_all(logs: &[u8], kept: &mut Chosen)
    requires room { length kept.old + length logs.now ≤ MOST_CHOSEN }
    ensures { kept.new ≡ kept.old ++ logs.now }
{
    for log in logs {
        kept.push(*log);
    }
}

// The record of a round once its logs were walked over: it is over where none is kept.
fn round_of(kept: &Chosen) -> Round
    ensures { result ≡ round_of kept.now }
{
    let phase = if kept.is_empty() {
        Phase::Idle
    } else {
        Phase::Evacuating
    };
    Round {
        phase,
        chosen: *kept,
        index: 0,
        at: 0,
        seen: 0,
    }
}
