//! What the book does for an owner that has the lock.

ghost use Rattle.std.specs.Prelude.{◌≡◌, ◌≢◌, ◌⊎◌, ◌/◌, ◌<◌, ◌≤◌, ◌*◌, None, Some, Err, true, false, Option, IsSome, IfOk, IfErr, IfSome, IfNone, MatchOption};
ghost use Rattle.far_word.specs.Sizes.{size_of};
ghost use Rattle.far_word.specs.declared.pointer.PtrWord.{PtrWord};
ghost use Rattle.far_word.specs.declared.refused.Refused.TheVariants.{Memory, NoPointer, NoRoom};
ghost use Rattle.far_word.specs.declared.sizes.TheConstants.{CELLS, LONGEST};
ghost use Rattle.far_events.specs.events.Naming.{is_dropped};
ghost use Rattle.far_core.specs.state.Room.{room};
ghost use Rattle.far_hand.specs.Came.{Came};
ghost use Rattle.far_table.specs.BookSeats.{seat_makes, seat_view};
ghost use Rattle.far_table.specs.declared.book.BookSeat.{BookSeat as seat_of};
ghost use Rattle.far_book.specs.book.Home.{home_of};
ghost use Rattle.far_book.specs.book.Ledger.{IsLowestFree};
ghost use Rattle.far_evac.specs.EvacOf.{EvacOf, SameRound};
ghost use Rattle.far_heap.specs.Helping.{FetchesIt, Looks, LooksAndRetires, MovesIt, PlacesNew, asks_move, cell_in, says_far};
ghost use Rattle.far_heap.specs.Mine.{IsUnbrought};
ghost use Rattle.far_heap.specs.BookHad.{BookDid, BookHad, IsFreed, LacksRoom, NoneFree, Unbrought};

use crate::evacuator::{Evacuator, held};
use crate::name::HeapName;
use crate::own::{DropAsked, MoveAsked};
use far_book::Home;
use far_device::Device;
use far_word::{Place, Refused};

// Whether an object was found far.
fn is_far(home: Option<Home>) -> bool
    ensures { (o : Option PtrWord) → home ≡ home_of o → result ≡ says_far o }
{
    match home {
        Some(Home::Far { .. }) => true,
        _ => false,
    }
}

// Whether an object was found near with MOVE.
fn has_move(home: Option<Home>) -> bool
    ensures { (o : Option PtrWord) → home ≡ home_of o → result ≡ asks_move o }
{
    match home {
        Some(Home::Near { marks, .. }) => marks.moved,
        _ => false,
    }
}

// Whether an object was found dropped.
fn has_drop(home: Option<Home>) -> bool
    ensures { (o : Option PtrWord) → home ≡ home_of o → result ≡ is_dropped o }
{
    match home {
        Some(Home::Near { marks, .. }) | Some(Home::Far { marks }) => marks.dropped,
        None => false,
    }
}

impl<K: HeapName, D: Device + Drop> Evacuator<K, D> {
    // Places a new object of zeros for an owner's lowest free cell: its pointer. Refused NoPointer exactly where no cell is free, then NoRoom exactly where
    // there is no room; nothing has changed then.
    pub(crate) fn place_new(&mut self, owner: u8, len: u16, ds: u8) -> Result<u16, Refused>
        // one of the heap's owners, and a length that an object may have
        requires one { owner < K.heap.mutators }
        requires some { 0 < len }
        requires most { len ≤ LONGEST }

        // only calls of the hand led there
        ensures came { Came seat_makes self.old.book.near self.new.book.near }

        // done: the owner's lowest free pointer has a new object of zeros, where there was room for it
        ensures own { IfOk result (λ p. p / CELLS ≡ owner) }
        ensures lowest { IfOk result (λ p. IsLowestFree (seat_view self.old.book.near) owner (Some p)) }
        ensures room { IfOk result (λ p. IsSome (room (seat_view self.old.book.near) (size_of len) true)) }
        ensures placed { IfOk result (λ p. PlacesNew self.old self.new p len ds) }

        // refused exactly as none of its pointers is free, or as there is no room, and nothing has changed
        ensures refused { IfErr result (λ why. (why ≡ NoPointer) ⊎ (why ≡ NoRoom)) }
        ensures none { result ≡ Err NoPointer → NoneFree owner (seat_view self.old.book.near) }
        ensures full { result ≡ Err NoRoom → LacksRoom owner len (seat_view self.old.book.near) }
        ensures unchanged { IfErr result (λ _. self.new ≡ self.old) }
    {
        held::place_new(&mut self.evac, owner, len, ds)
    }

    // Fetches a far object, by one look at its cell: what the fetch answers. `None` where it isn't far; nothing else is done then.
    pub(crate) fn fetch_far(&mut self, pointer: u16) -> Option<Result<Option<Place>, Refused>>
        requires pointer { pointer < CELLS * K.heap.mutators }
        ensures round { SameRound self.old self.new }
        ensures refused { IfSome result (λ answer. IfErr answer IsUnbrought) }
        ensures cause { IfSome result (λ answer. IfErr answer (λ why. BookHad D K.heap (Unbrought pointer why))) }
        ensures in_place { D.reads_in_place → result ≢ Some (Err Memory) }
        ensures fetched { (found : EvacOf (seat_of D) D) × Looks self.old found pointer
            × MatchOption result ((says_far (cell_in found pointer) ≡ false) × (self.new ≡ found))
            (λ answer. (says_far (cell_in found pointer) ≡ true) × FetchesIt D.contents D.honest D.faults D.fails_at_most D.lets_go D.forgets D.reads D.reads_in_place found self.new pointer answer) }
    {
        self.keeps_law();
        if !is_far(self.locate(pointer)) {
            return None;
        }
        Some(held::fetch(&mut self.evac, pointer))
    }

    // Moves a near object that its owner has asked for, by one look at its cell, where the round wants its log; else it stays, without MOVE: what the move
    // answers. `None` where it isn't near with MOVE; nothing else is done then.
    pub(crate) fn move_asked(&mut self, asked: MoveAsked) -> Option<Result<Option<Place>, Refused>>
        requires pointer { asked.pointer < CELLS * K.heap.mutators }
        ensures round { SameRound self.old self.new }
        ensures refused { IfSome result (λ answer. IfErr answer (λ why. why ≡ NoRoom)) }
        ensures cause { IfSome result (λ answer. IfErr answer (λ why. BookHad D K.heap (Unbrought asked.pointer why))) }
        ensures moved { (found : EvacOf (seat_of D) D) × Looks self.old found asked.pointer
            × MatchOption result ((asks_move (cell_in found asked.pointer) ≡ false) × (self.new ≡ found))
            (λ answer. (asks_move (cell_in found asked.pointer) ≡ true) × MovesIt D.contents D.honest D.faults D.fails_at_most D.lets_go D.forgets found self.new asked.pointer answer) }
    {
        let pointer = asked.pointer;
        asked.end();
        self.keeps_law();
        if !has_move(self.locate(pointer)) {
            return None;
        }
        Some(self.evac.move_now(pointer))
    }

    // Frees the cell of an object that its owner dropped, by one look at it, unless a round has done so. The request is used up where the cell is free then,
    // and answered again where the look found the object without DROP.
    pub(crate) fn retire_dropped(&mut self, asked: DropAsked) -> Option<DropAsked>
        requires pointer { asked.pointer < CELLS * K.heap.mutators }
        ensures round { SameRound self.old self.new }
        ensures retired { LooksAndRetires D.contents D.honest D.faults D.fails_at_most D.lets_go D.forgets asked.pointer self.old self.new }
        ensures did { BookDid D K.heap (LooksAndRetires D.contents D.honest D.faults D.fails_at_most D.lets_go D.forgets asked.pointer) }
        ensures freed { IfNone result (BookHad D K.heap (IsFreed asked.pointer)) }
        ensures again { IfSome result (λ again. again.pointer ≡ asked.pointer) }
    {
        let pointer = asked.pointer;
        self.keeps_law();
        let found = self.locate(pointer);
        if has_drop(found) {
            self.evac.retire(pointer);
            asked.end();
            return None;
        }
        if found.is_some() {
            return Some(asked);
        }
        asked.end();
        None
    }
}
