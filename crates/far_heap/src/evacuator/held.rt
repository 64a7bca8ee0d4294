//! What an evacuator does by several calls, over any hand of a book. A call at the seat of a table costs its proof some ten seconds, one here none.

ghost use Rattle.std.specs.Prelude.{◌≡◌, ◌⊎◌, ◌/◌, ◌<◌, ◌≤◌, ◌*◌, ℕ, [], Some, Ok, Err, false, true, IsSome, IfOk, IfErr};
ghost use Rattle.far_word.specs.Sizes.{size_of};
ghost use Rattle.far_word.specs.declared.pointer.Place.{Place};
ghost use Rattle.far_word.specs.declared.refused.Refused.TheVariants.{NoPointer, NoRoom};
ghost use Rattle.far_word.specs.declared.sizes.TheConstants.{CELLS, LONGEST};
ghost use Rattle.far_events.specs.state.Law.{Law};
ghost use Rattle.far_core.specs.state.Room.{room};
ghost use Rattle.far_events.specs.state.Shape.{is_shape};
ghost use Rattle.far_events.specs.state.State.{State};
ghost use Rattle.far_hand.specs.Came.{Came};
ghost use Rattle.far_hand.specs.MayBe.{NoneViews, ViewsNone};
ghost use Rattle.far_hand.specs.ShapeOf.{shape_of};
ghost use Rattle.far_book.specs.book.Calls.{FetchesObject, PlacesObject};
ghost use Rattle.far_book.specs.book.FarSide.{HoldsFar};
ghost use Rattle.far_book.specs.book.Fetching.{IsFar};
ghost use Rattle.far_book.specs.book.Ledger.{IsLowestFree};
ghost use Rattle.far_book.specs.book.Own.{HasNoJob, own_part};
ghost use Rattle.far_evac.specs.EvacOf.{SameRound, moment};
ghost use Rattle.far_evac.specs.MomentLaw.{MomentLaw, has_risen};
ghost use Rattle.far_evac.specs.RoundSteps.{among};
ghost use Rattle.far_evac.specs.declared.phase.Phase.TheVariants.{Evacuating, Idle};
ghost use Rattle.far_heap.specs.BookHad.{LacksRoom, NoneFree};
ghost use Rattle.far_heap.specs.Rounds.{is_round_of};

use crate::evacuator::turns::has_each;
use far_book::{Book, Near};
use far_core::Shape;
use far_device::Device;
use far_evac::Evac;
use far_policy::Chosen;
use far_word::{Place, Refused};

// An evacuator over a book without jobs, in no round, by whether its hot objects are offered to copiers.
pub(crate) fn over<N: Near + Drop, D: Device + Drop>(book: Book<N, D>, copying: bool) -> Evac<N, D>
    requires exact { N.still → copying ≡ false }
    requires alone { HasNoJob (N.view book.near) }
    ensures book { result.book ≡ book }
    ensures idle { result.phase ≡ Idle }
    ensures none { result.collection ≡ [] }
    ensures copying { result.copying ≡ copying }
{
    if copying {
        Evac::copying(book)
    } else {
        Evac::new(book)
    }
}

// What its book knows keeps its part of the law of the core, and the round agrees with it. The device holds bytes of each far object, and of each near one
// without DIRTY, and is honest where the words say that the far side is. And in which logs no owner views anything, by `nobody_views`.
pub(crate) fn keeps_law<N: Near + Drop, D: Device + Drop>(evac: &Evac<N, D>)
    ensures law { Law (own_part (N.view evac.now.book.near)) }
    ensures moment { MomentLaw (moment N.view evac.now) }
    ensures far { HoldsFar (N.view evac.now.book.near) (D.contents evac.now.book.device) }
    ensures honest { (N.view evac.now.book.near).honest ≡ true → D.honest evac.now.book.device ≡ true }
    ensures leaving { evac.now.phase ≡ Evacuating → (x : State) → N.may_be evac.now.book.near x → NoneViews (among evac.now.collection) x }
    ensures waiting { has_risen evac.now.phase ≡ true → (x : State) → N.may_be evac.now.book.near x → (m : ℕ) → (N.view evac.now.book.near).clear m ≡ true → ViewsNone (among evac.now.collection) m x }
{
    evac.nobody_views();
    evac.keeps_law();
    evac.book().keeps_law();
}

// How large the heap is, and its epoch now.
pub(crate) fn shape<N: Near + Drop, D: Device + Drop>(evac: &Evac<N, D>) -> Shape
    ensures is { result ≡ shape_of (N.view evac.now.book.near) }
    ensures range { is_shape result ≡ true }
{
    evac.book().shape()
}

// Places a new object of zeros for a mutator's lowest free cell: its pointer. Refused NoPointer exactly where no cell is free, then NoRoom exactly where there
// is no room; nothing has changed then.
pub(crate) fn place_new<N: Near + Drop, D: Device + Drop>(
    evac: &mut Evac<N, D>,
    owner: u8,
    len: u16,
    ds: u8,
) -> Result<u16, Refused>
    // one of the heap's owners, and a length that an object may have
    requires owner { owner < (N.view evac.old.book.near).mutators }
    requires some { 0 < len }
    requires most { len ≤ LONGEST }

    // only calls of the hand led there
    ensures came { Came N.makes evac.old.book.near evac.new.book.near }

    // done: the owner's lowest free pointer has a new object of zeros, where there was room for it
    ensures own { IfOk result (λ p. p / CELLS ≡ owner) }
    ensures lowest { IfOk result (λ p. IsLowestFree (N.view evac.old.book.near) owner (Some p)) }
    ensures room { IfOk result (λ p. IsSome (room (N.view evac.old.book.near) (size_of len) true)) }
    ensures placed { IfOk result (λ p. (place : Place) × PlacesObject N.still N.view N.makes evac.old.book evac.new.book p len ds (Ok place)) }

    // refused exactly as none of its pointers is free, or as there is no room, and nothing has changed
    ensures refused { IfErr result (λ why. (why ≡ NoPointer) ⊎ (why ≡ NoRoom)) }
    ensures none { result ≡ Err NoPointer → NoneFree owner (N.view evac.old.book.near) }
    ensures full { result ≡ Err NoRoom → LacksRoom owner len (N.view evac.old.book.near) }
    ensures unchanged { IfErr result (λ _. evac.new ≡ evac.old) }

    // the round stands where it stood
    ensures round { SameRound evac.old evac.new }
{
    evac.keeps_law();
    let Some(pointer) = evac.book().free_cell(owner) else {
        return Err(Refused::NoPointer);
    };
    match evac.place(pointer, len, ds) {
        Ok(_) => Ok(pointer),
        Err(why) => Err(why),
    }
}

// Fetches a far object, over a device that is honest where the words say that the far side is.
pub(crate) fn fetch<N: Near + Drop, D: Device + Drop>(
    evac: &mut Evac<N, D>,
    pointer: u16,
) -> Result<Option<Place>, Refused>
    requires pointer { pointer < CELLS * (N.view evac.old.book.near).mutators }
    requires far { IsFar (N.view evac.old.book.near) pointer }
    ensures honest { (N.view evac.old.book.near).honest ≡ true → D.honest evac.old.book.device ≡ true }
    ensures fetched { FetchesObject N.still N.view N.makes D.contents D.honest D.faults D.fails_at_most D.lets_go D.forgets D.reads D.reads_in_place evac.old.book evac.new.book pointer result }
    ensures round { SameRound evac.old evac.new }
{
    keeps_law(evac);
    evac.fetch(pointer)
}

// Whether a round of these logs is running: the round's logs that aren't given back are the last of these logs, or, in a heap with copiers, any of these.
pub(crate) fn is_round_of<N: Near + Drop, D: Device + Drop>(
    evac: &Evac<N, D>,
    chosen: &Chosen,
) -> bool
    ensures { result ≡ is_round_of evac.now.copying chosen.now evac.now.collection }
{
    let left = evac.collection();
    if left.is_empty() {
        return false;
    }
    if evac.is_copying() {
        return has_each(chosen, left);
    }
    chosen.as_slice().ends_with(left)
}
