//! How objects leave where copies may be offered: hot ones wait for copiers.

ghost use Rattle.std.specs.Prelude.{◌≡◌, ◌⊎◌, ◌+◌, ◌*◌, ◌^◌, ◌<◌, ◌≤◌, ℕ, List, Err, IfOk, IfErr, IsSome};
ghost use Rattle.far_device.specs.Following.{Follows, none_of, other_than};
ghost use Rattle.far_word.specs.declared.refused.Refused.TheVariants.{Device as Failed, Memory};
ghost use Rattle.far_word.specs.declared.sizes.TheConstants.{CELLS, LOG_WORDS};
ghost use Rattle.far_events.specs.events.Quiet.{IsClearNear};
ghost use Rattle.far_hand.specs.Came.{Came};
ghost use Rattle.far_book.specs.book.Asking.{AsksToEvict};
ghost use Rattle.far_book.specs.book.Dealing.{is_failure};
ghost use Rattle.far_evac.specs.AnyHand.{Knows, KnowsWalked};
ghost use Rattle.far_evac.specs.Beside.{AsksOnly, At, DealsBeside, OverObjects, RefusedOnly};
ghost use Rattle.far_word.specs.Pointer.{read_of};
ghost use Rattle.far_evac.specs.BookStands.{GoesBeside, IsChosen, KeepsChosen, end_of, is_failed, known, stands, warmth_of};
ghost use Rattle.far_evac.specs.Live.{live_in};
ghost use Rattle.far_evac.specs.Moment.{objects_in, tally_of};
ghost use Rattle.far_evac.specs.Walk.{Walked};

use crate::answers::Progress;
use crate::evac::evacuating::{Fate, count, send_far, send_off};
use far_book::{Book, Near};
use far_device::Device;
use far_word::{Place, PtrWord, Refused, size_of};

// How a walk over objects has ended.
#[derive(Clone, Copy)]
pub(super) enum Passage {
    // Behind them all.
    On,
    // Before one, since as many as were asked for were dealt with.
    Stops,
    // At this one, which was refused.
    Fails(u16, Refused),
}

// What a cell says of its object.
#[derive(Clone, Copy)]
enum Warmth {
    Cold,
    Hot,
    Dropped,
}

// Deals with n objects of a log that have no job but void ones, or with all, and counts them: how many may be dealt with yet.
pub(super) fn walk_log<N: Near + Drop, D: Device + Drop>(
    book: &mut Book<N, D>,
    log: u8,
    n: u64,
    progress: &mut Progress,
) -> (u64, Passage)
    requires chosen { IsChosen (N.view book.old.near) log }
    requires room { objects_in (tally_of progress.old) + LOG_WORDS < 2 ^ 64 }
    ensures came { Came N.makes book.old.near book.new.near }
    ensures over { (held : List ℕ) → (v : Walked) × KnowsWalked (stands (N.view) book.old progress.old held) v
        × OverObjects D (AsksOnly D D.writes D.lets_go D.contents) (RefusedOnly D D.writes D.lets_go D.contents) (live_in v.moment.core log) n v (stands (N.view) book.new progress.new held) result.0 (end_of result.1) book.old.device book.new.device }
    ensures keeps { KeepsChosen (N.view book.old.near) log (N.view book.new.near) }
    ensures counted { objects_in (tally_of progress.new) ≤ objects_in (tally_of progress.old) + LOG_WORDS }
    ensures rest { (progress.new.freed ≡ progress.old.freed) × (progress.new.done ≡ progress.old.done) }
    ensures why { (p : ℕ) (why : Refused) → end_of result.1 ≡ At p why → (why ≡ Memory) ⊎ (why ≡ Failed) }
    ensures follows { Follows D.contents D.honest D.faults D.fails_at_most (none_of (live_in (N.view book.old.near) log)) (is_failed (end_of result.1)) book.old.device book.new.device }
{
    book.keeps_law();
    let mut left = n;
    let mut at = 0;
    while let Some(found) = book.next_found(log, at) {
        let span = found.span;
        book.keeps_law();
        if !book.has_job(span.p, Place { log, at: span.at }) {
            if left == 0 {
                return (0, Passage::Stops);
            }
            if let Err(why) = deal_beside(book, span.p, found.cell, progress) {
                return (left, Passage::Fails(span.p, why));
            }
            left -= 1;
        }
        book.keeps_law();
        at = span.at + size_of(span.len);
    }
    (left, Passage::On)
}

// Deals with an object by its cell, and counts it, unless its copy is offered. At a refusal it lies as before.
fn deal_beside<N: Near + Drop, D: Device + Drop>(
    book: &mut Book<N, D>,
    pointer: u16,
    cell: u64,
    progress: &mut Progress,
) -> Result<(), Refused>
    // the object is near with EVAC, in a log of the round, its owner was seen clear, and there is room to count it
    requires pointer { pointer < CELLS * (N.view book.old.near).mutators }
    requires cell { cell ≡ (N.view book.old.near).cell pointer }
    requires clear { IsClearNear (N.view book.old.near) pointer }
    requires room { objects_in (tally_of progress.old) + 1 < 2 ^ 64 }

    // only calls of the hand led there
    ensures came { Came N.makes book.old.near book.new.near }

    // done: the object was dealt with as the word says that was found in its cell, at most one was counted, and the device was asked for just
    // that
    ensures dealt { IfOk result (λ _. (held : List ℕ) → DealsBeside D (AsksOnly D D.writes D.lets_go D.contents) (stands (N.view) book.old progress.old held) pointer (stands (N.view) book.new progress.new held)
        book.old.device book.new.device) }
    ensures counted { IfOk result (λ _. objects_in (tally_of progress.new) ≤ objects_in (tally_of progress.old) + 1) }

    // refused: nothing has changed but what is known, and nothing was counted
    ensures kept { IfErr result (λ _. Knows (N.view book.old.near) (N.view book.new.near)) }
    ensures uncounted { IfErr result (λ _. (progress.new ≡ progress.old) × (book.new.order ≡ book.old.order)) }

    // logs that came back, and whether the round is over, are counted as before
    ensures rest { (progress.new.freed ≡ progress.old.freed) × (progress.new.done ≡ progress.old.done) }

    // refused by the one write that was asked for, for want of memory or as the device failed; other keys keep what they had
    ensures refused { IfErr result (λ why. AsksToEvict D D.writes D.lets_go (N.view book.old.near) pointer (Err why) book.old.device book.new.device) }
    ensures follows { Follows D.contents D.honest D.faults D.fails_at_most (other_than pointer) (is_failure result) book.old.device book.new.device }
    ensures why { IfErr result (λ why. (why ≡ Memory) ⊎ (why ≡ Failed)) }
{
    match offer_or_leave(book, pointer, cell) {
        Ok(Some(fate)) => {
            count(progress, fate);
            Ok(())
        }
        Ok(None) => Ok(()),
        Err(why) => Err(why),
    }
}

// The copy of an object that its cell says is hot is offered, if a job is empty and there is room: `None`. Any other leaves its log, as its cell says. At a refusal
// it lies as before.
fn offer_or_leave<N: Near + Drop, D: Device + Drop>(
    book: &mut Book<N, D>,
    pointer: u16,
    cell: u64,
) -> Result<Option<Fate>, Refused>
    // the object is near with EVAC, in a log of the round, and its owner was seen clear
    requires pointer { pointer < CELLS * (N.view book.old.near).mutators }
    requires cell { cell ≡ (N.view book.old.near).cell pointer }
    requires clear { IsClearNear (N.view book.old.near) pointer }

    // only calls of the hand led there
    ensures came { Came N.makes book.old.near book.new.near }

    // done: its copy is offered, or it has left, as the word says that was found in its cell, and the device was asked for just that
    ensures dealt { IfOk result (λ fate. GoesBeside D D.writes D.lets_go (N.view book.old.near) book.old.order (N.view book.new.near) book.new.order pointer fate book.old.device book.new.device) }

    // refused: nothing has changed but what is known, and the order stays
    ensures kept { IfErr result (λ _. Knows (N.view book.old.near) (N.view book.new.near)) }
    ensures order { IfErr result (λ _. book.new.order ≡ book.old.order) }

    // refused by the one write that was asked for, for want of memory or as the device failed; other keys keep what they had
    ensures refused { IfErr result (λ why. AsksToEvict D D.writes D.lets_go (N.view book.old.near) pointer (Err why) book.old.device book.new.device) }
    ensures follows { Follows D.contents D.honest D.faults D.fails_at_most (other_than pointer) (is_failure result) book.old.device book.new.device }
    ensures why { IfErr result (λ why. (why ≡ Memory) ⊎ (why ≡ Failed)) }
{
    book.keeps_law();
    match warmth_in(cell) {
        Warmth::Cold => known(send_far(book, pointer, Some(cell))),
        Warmth::Dropped => known(send_off(book, pointer, Some(cell))),
        Warmth::Hot => {
            if book.offer(pointer) {
                book.keeps_law();
                return Ok(None);
            }
            book.keeps_law();
            known(send_off(book, pointer, None))
        }
    }
}

// What became of an object that wasn't offered.
fn known(answer: Result<Fate, Refused>) -> Result<Option<Fate>, Refused>
    ensures { result ≡ known answer }
{
    match answer {
        Ok(fate) => Ok(Some(fate)),
        Err(why) => Err(why),
    }
}

// Whether the object of a cell is hot, or dropped.
fn warmth_in(cell: u64) -> Warmth
    requires layout { IsSome (read_of cell) }
    ensures { result ≡ warmth_of (read_of cell) }
{
    match PtrWord::known(cell) {
        PtrWord::Near { marks, .. } => {
            if marks.dropped {
                Warmth::Dropped
            } else if marks.hot {
                Warmth::Hot
            } else {
                Warmth::Cold
            }
        }
        _ => Warmth::Dropped,
    }
}
