//! How the objects of the chosen logs get EVAC, and lose it where a round is given up.

ghost use Rattle.std.specs.Prelude.{◌≡◌, ◌+◌, ◌<◌, ◌≤◌, ℕ, true, false, not, fold, [], length, drop, IfSome, IfNone};
ghost use Rattle.far_word.specs.declared.sizes.TheConstants.{JOBS, MOST_LOGS};
ghost use Rattle.far_events.specs.events.Advance.{is_among};
ghost use Rattle.far_hand.specs.Came.{Came};
ghost use Rattle.far_book.specs.book.Collecting.{TakesBack};
ghost use Rattle.far_book.specs.book.NextLive.{IsBoundary};
ghost use Rattle.far_evac.specs.AnyHand.{Knows, KnowsMoment};
ghost use Rattle.far_evac.specs.Calls.{GivesRoundUp, MarksObjects};
ghost use Rattle.far_evac.specs.Cursor.{IsNextLacking, StandsAt, first_marked, standing_at};
ghost use Rattle.far_evac.specs.EvacOf.{SameRound, moment};
ghost use Rattle.far_evac.specs.Live.{is_empty, lacking, live_among, live_in};
ghost use Rattle.far_evac.specs.Marking.{marked_core, newly_marked};
ghost use Rattle.far_evac.specs.RoundSteps.{advanced, among, unmarked};
ghost use Rattle.far_evac.specs.Standing.{InRound, MarkedBefore, collection_in};
ghost use Rattle.far_evac.specs.Ready.{AllMarked};
ghost use Rattle.far_evac.specs.declared.phase.Phase.TheVariants as phase;

use crate::answers::Marked;
use crate::evac::Evac;
use crate::phase::Phase;
use crate::round::{Cursor, Round};
use far_book::{Book, Near, has_evac};
use far_device::Device;
use far_log::Span;
use far_policy::Chosen;
use far_word::{Refused, size_of};

impl<N: Near + Drop, D: Device + Drop> Evac<N, D> {
    /// Sets EVAC on the first n live objects of the chosen logs that lack it, or on all, and counts them. Where none is left, the
    /// epoch rises, and the round waits for the owners.
    ///
    /// Refused [`Refused::Phase`] exactly where the round isn't marking; nothing has changed then. Each object, and each span that is
    /// passed over, is looked at once in a round, beside the one at which a call stops.
    pub fn mark_some(&mut self, n: u64) -> Result<Marked, Refused>
        ensures { MarksObjects N.still N.view N.makes self.old self.new n result }
    {
        if self.round.phase != Phase::Marking {
            return Err(Refused::Phase);
        }
        self.keeps_law();
        let count = self.mark_up_to(n);
        if self.lacks_some() {
            return Ok(Marked {
                count,
                waiting: None,
            });
        }
        let epoch = self.wait();
        Ok(Marked {
            count,
            waiting: Some(epoch),
        })
    }

    // Sets EVAC on the first n objects that lack it, or on all, and counts them.
    fn mark_up_to(&mut self, n: u64) -> u64
        requires marking { self.old.phase ≡ phase.Marking }
        ensures came { Came N.makes self.old.book.near self.new.book.near }
        ensures known { KnowsMoment (record (moment N.view self.old) { core = marked_core (moment N.view self.old) n }) (moment N.view self.new) }
        ensures exact { N.still → moment N.view self.new ≡ record (moment N.view self.old) { core = marked_core (moment N.view self.old) n } }
        ensures device { self.new.book.device ≡ self.old.book.device }
        ensures count { result ≡ length (newly_marked (moment N.view self.old) n) }
    {
        self.keeps_law();
        for i in 0..n {
            self.keeps_law();
            if !self.mark_next() {
                return i;
            }
        }
        n
    }

    // Sets EVAC on the first object that lacks it; answers whether there is one.
    fn mark_next(&mut self) -> bool
        requires marking { self.old.phase ≡ phase.Marking }
        ensures came { Came N.makes self.old.book.near self.new.book.near }
        ensures known { KnowsMoment (record (moment N.view self.old) { core = first_marked (N.view self.old.book.near) (lacking (N.view self.old.book.near) self.old.collection) }) (moment N.view self.new) }
        ensures exact { N.still → moment N.view self.new ≡ record (moment N.view self.old) { core = first_marked (N.view self.old.book.near) (lacking (N.view self.old.book.near) self.old.collection) } }
        ensures device { self.new.book.device ≡ self.old.book.device }
        ensures found { result ≡ not (is_empty (lacking (N.view self.old.book.near) self.old.collection)) }
    {
        self.book.keeps_law();
        let (cursor, next) = seek(&mut self.book, &self.round);
        self.round.index = cursor.index;
        self.round.at = cursor.at;
        let Some(span) = next else {
            return false;
        };
        self.book.keeps_law();
        self.book.mark(span.p);
        self.round.at = span.at + size_of(span.len);
        true
    }

    // Whether an object lacks EVAC.
    fn lacks_some(&mut self) -> bool
        requires marking { self.old.phase ≡ phase.Marking }
        ensures came { Came N.makes self.old.book.near self.new.book.near }
        ensures known { KnowsMoment (moment N.view self.old) (moment N.view self.new) }
        ensures exact { N.still → moment N.view self.new ≡ moment N.view self.old }
        ensures device { self.new.book.device ≡ self.old.book.device }
        ensures found { result ≡ not (is_empty (lacking (N.view self.old.book.near) self.old.collection)) }
    {
        self.book.keeps_law();
        let (cursor, next) = seek(&mut self.book, &self.round);
        self.round.index = cursor.index;
        self.round.at = cursor.at;
        self.book.keeps_law();
        next.is_some()
    }

    // The epoch rises for a round of the chosen logs, in which each object has EVAC: the new epoch.
    fn wait(&mut self) -> u64
        requires marking { self.old.phase ≡ phase.Marking }
        requires none { lacking (N.view self.old.book.near) self.old.collection ≡ [] }
        ensures came { Came N.makes self.old.book.near self.new.book.near }
        ensures known { KnowsMoment (record (moment N.view self.old) { core = advanced (N.view self.old.book.near) self.old.collection; phase = phase.Waiting }) (moment N.view self.new) }
        ensures exact { N.still → moment N.view self.new ≡ record (moment N.view self.old) { core = advanced (N.view self.old.book.near) self.old.collection; phase = phase.Waiting } }
        ensures device { self.new.book.device ≡ self.old.book.device }
        ensures epoch { result ≡ (N.view self.old.book.near).epoch + 1 }
    {
        self.book.keeps_law();
        let Ok(epoch) = self.book.advance(set_of(&self.round.chosen)) else {
            unreachable!()
        };
        self.round.phase = Phase::Waiting;
        self.round.index = 0;
        self.round.at = 0;
        self.round.seen = 0;
        self.book.keeps_law();
        epoch
    }

    /// Gives the round up: the live objects of the collection set lose EVAC, no object has moved, and no round is running.
    /// Those logs stand where they stood in the order of sealing. A job that is found offered is taken back first; one that a copier has taken or
    /// finished is void from then on. The spans of all these copies are dead; the last free log may be among those that they took.
    ///
    /// Refused [`Refused::Phase`] exactly where no round is running; nothing has changed then.
    pub fn abort(&mut self) -> Result<(), Refused>
        ensures { GivesRoundUp N.still N.view N.makes self.old self.new result }
    {
        if self.round.phase == Phase::Idle {
            return Err(Refused::Phase);
        }
        self.recall();
        self.book.keeps_law();
        let first = first_of_collection(&self.round);
        unmark_logs(&mut self.book, &self.round.chosen, first);
        self.round = Round {
            phase: Phase::Idle,
            chosen: Chosen::new(),
            index: 0,
            at: 0,
            seen: 0,
        };
        Ok(())
    }

    // Takes back the jobs that are found offered, where copies may be offered.
    fn recall(&mut self)
        ensures came { Came N.makes self.old.book.near self.new.book.near }
        ensures alone { self.old.copying ≡ false → self.new ≡ self.old }
        ensures beside { self.old.copying ≡ true → TakesBack (N.view self.old.book.near) JOBS (N.view self.new.book.near) }
        ensures round { SameRound self.old self.new }
        ensures order { self.new.book.order ≡ self.old.book.order }
        ensures device { self.new.book.device ≡ self.old.book.device }
    {
        if self.copying {
            self.book.take_back();
        }
    }
}

// The next span whose live object lacks EVAC, and where the round stands then; behind all logs, where there is none.
#[inline(always)]
fn seek<N: Near + Drop, D: Device + Drop>(
    book: &mut Book<N, D>,
    round: &Round,
) -> (Cursor, Option<Span>)
    // the round is marking, and agrees with what the book knows
    requires stands { InRound (N.view book.old.near) round.now }
    requires marking { round.now.phase ≡ phase.Marking }

    // only calls of the hand led there
    ensures came { Came N.makes book.old.near book.new.near }

    // from where the round stands to the next object that lacks EVAC, where it stands then; `None` only behind all its logs
    ensures stands { InRound (N.view book.new.near) (standing_at round.now result.0) }
    ensures next { IfSome result.1 (λ span. StandsAt (N.view book.new.near) (standing_at round.now result.0) span) }
    ensures none { IfNone result.1 (result.0.index ≡ length round.now.chosen) }

    // nothing has changed but what is known, over a hand that is still nothing at all; the order of logs and the device stay
    ensures known { Knows (N.view book.old.near) (N.view book.new.near) }
    ensures exact { N.still → N.view book.new.near ≡ N.view book.old.near }
    ensures order { book.new.order ≡ book.old.order }
    ensures device { book.new.device ≡ book.old.device }
{
    let mut index = round.index;
    let mut at = round.at;
    while index < round.chosen.len() {
        book.keeps_law();
        let log = round.chosen.as_slice()[index];
        if let Some(span) = next_unmarked(book, log, at) {
            at = span.at;
            return (Cursor { index, at }, Some(span));
        }
        index += 1;
        at = 0;
    }
    (Cursor { index, at }, None)
}

// The first span of a log, at a word or behind it, whose live object lacks EVAC.
#[inline(always)]
fn next_unmarked<N: Near + Drop, D: Device + Drop>(
    book: &mut Book<N, D>,
    log: u8,
    at: u16,
) -> Option<Span>
    // a span begins at `at`, or the log's spans end there, and each object that lies before has EVAC
    requires log { log < (N.view book.old.near).logs }
    requires begins { IsBoundary (N.view book.old.near) log at }
    requires before { MarkedBefore (N.view book.old.near) log at }

    // only calls of the hand led there
    ensures came { Came N.makes book.old.near book.new.near }

    // the log's first object that lacks EVAC; `None` only where each has it
    ensures next { IfSome result (λ span. IsNextLacking (N.view book.new.near) log span) }
    ensures none { IfNone result (AllMarked (N.view book.new.near) log) }

    // nothing has changed but what is known, over a hand that is still nothing at all; the order of logs and the device stay
    ensures known { Knows (N.view book.old.near) (N.view book.new.near) }
    ensures exact { N.still → N.view book.new.near ≡ N.view book.old.near }
    ensures order { book.new.order ≡ book.old.order }
    ensures device { book.new.device ≡ book.old.device }
{
    let mut from = at;
    while let Some(found) = book.next_found(log, from) {
        book.keeps_law();
        if !has_evac(found.cell) {
            return Some(found.span);
        }
        from = found.span.at + size_of(found.span.len);
    }
    book.keeps_law();
    None
}

// Which of the chosen logs is the first of the collection set; how many they are, where none is.
fn first_of_collection(round: &Round) -> usize
    requires index { round.now.index ≤ length round.now.chosen }
    ensures within { result ≤ length round.now.chosen }
    ensures collection { drop result round.now.chosen ≡ collection_in round.now }
{
    match round.phase {
        Phase::Idle => round.chosen.len(),
        Phase::Marking | Phase::Waiting => 0,
        Phase::Evacuating => round.index,
    }
}

// Takes EVAC from the live objects of the logs from one of them on.
fn unmark_logs<N: Near + Drop, D: Device + Drop>(
    book: &mut Book<N, D>,
    chosen: &Chosen,
    first: usize,
)
    requires first { first ≤ length chosen.now }
    requires logs { (l : ℕ) → among (drop first chosen.now) l ≡ true → l < (N.view book.old.near).logs }
    ensures came { Came N.makes book.old.near book.new.near }
    ensures known { Knows (fold unmarked (N.view book.old.near) (live_among (N.view book.old.near) (drop first chosen.now))) (N.view book.new.near) }
    ensures exact { N.still → N.view book.new.near ≡ fold unmarked (N.view book.old.near) (live_among (N.view book.old.near) (drop first chosen.now)) }
    ensures order { book.new.order ≡ book.old.order }
    ensures device { book.new.device ≡ book.old.device }
{
    book.keeps_law();
    for log in &chosen.as_slice()[first..] {
        book.keeps_law();
        unmark_log(book, *log);
    }
}

// Takes EVAC from the live objects of a log.
fn unmark_log<N: Near + Drop, D: Device + Drop>(book: &mut Book<N, D>, log: u8)
    requires log { log < (N.view book.old.near).logs }
    ensures came { Came N.makes book.old.near book.new.near }
    ensures known { Knows (fold unmarked (N.view book.old.near) (live_in (N.view book.old.near) log)) (N.view book.new.near) }
    ensures exact { N.still → N.view book.new.near ≡ fold unmarked (N.view book.old.near) (live_in (N.view book.old.near) log) }
    ensures order { book.new.order ≡ book.old.order }
    ensures device { book.new.device ≡ book.old.device }
{
    book.keeps_law();
    let mut from = 0;
    while let Some(span) = book.next_live(log, from) {
        book.keeps_law();
        book.clear(span.p);
        book.keeps_law();
        from = span.at + size_of(span.len);
    }
}

// The logs as bits of a number.
fn set_of(chosen: &Chosen) -> u64
    requires range { (l : ℕ) → among chosen.now l ≡ true → l < MOST_LOGS }
    ensures { (l : ℕ) → is_among result l ≡ among chosen.now l }
{
    let mut logs = 0;
    for log in chosen.as_slice() {
        logs |= 1 << *log;
    }
    logs
}
