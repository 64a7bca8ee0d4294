// What a mutator does with the lock.
ghost use Rattle.std.specs.Prelude.{◌≡◌, ◌≢◌, ◌⊎◌, ◌/◌, ◌<◌, ◌≤◌, true, false, Ok, Err, Some, None, IfOk, IfErr, IfSome, IfNone};
ghost use Rattle.far_heap.specs.Mine.{Asks, AsksToView, IsUnbrought, drop_refusal, dropping, refusal_of, uses, viewing, views};
ghost use Rattle.far_evac.specs.EvacOf.{SameRound};
ghost use Rattle.far_heap.specs.Helping.{BringsSo, IsBrought, LooksAndRetires};
ghost use Rattle.far_heap.specs.BookHad.{Allocates, BookDid, BookHad, HasRoom, IsAnswered, IsFreed, LacksRoom, LeavesIt, NoneFree, Places, Unbrought};
ghost use Rattle.far_word.specs.declared.refused.Refused.{Refused as any_refusal};
ghost use Rattle.far_word.specs.declared.refused.Refused.TheVariants.{Memory, NoPointer, NoRoom};
ghost use Rattle.far_word.specs.declared.sizes.TheConstants.{CELLS, LONGEST};

use crate::evacuator::Evacuator;
use crate::heap::Lock;
use crate::name::HeapName;
use crate::own::Own;
use crate::view::{Brought, Tried};
use far_device::Device;
use far_word::{LONGEST, Refused};
use std::sync::Wait;

// Places a new object of zeros for a mutator's lowest free cell: its pointer. Nothing else is done, and where it is refused nothing at all.
#[inline(always)]
fn place<K: HeapName, D: Device + Drop>(
    book: &mut Evacuator<K, D>,
    owner: u8,
    len: u16,
    ds: u8,
) -> Result<u16, Refused>
    // one of the heap's mutators, and a length that an object may have
    requires one { owner < K.heap.mutators }
    requires some { 0 < len }
    requires most { len ≤ LONGEST }

    // the pointer is the mutator's; refused for want of a pointer or of room
    ensures own { IfOk result (λ p. p / CELLS ≡ owner) }
    ensures refused { IfErr result (λ why. (why ≡ NoPointer) ⊎ (why ≡ NoRoom)) }

    // as the lock was held that was the lowest free one, and there was room; else just that was lacking for which it's refused
    ensures had { IfOk result (λ p. BookHad D K.heap (HasRoom owner len p)) }
    ensures none { result ≡ Err NoPointer → BookHad D K.heap (NoneFree owner) }
    ensures full { result ≡ Err NoRoom → BookHad D K.heap (LacksRoom owner len) }

    // the object was placed, and nothing more; refused, book and round are as before
    ensures does { Places owner len ds result book.old book.new }
    ensures did { BookDid D K.heap (Places owner len ds result) }
{
    book.keeps_law();
    book.place_new(owner, len, ds)
}

// Makes a new object of zeros, and uses it from then on: its pointer. Where the book answers otherwise than by what the mutator knows of its pointers it is
// asked anew.
#[inline(always)]
pub(crate) fn alloc<K: HeapName, D: Device + Drop, R: Wait>(
    rt: &R,
    lock: &Lock<K, D>,
    own: &mut Own<K, D>,
    len: u16,
    ds: u8,
) -> Result<u16, Refused>
    requires one { own.old.number < K.heap.mutators }
    ensures { Allocates D K.heap own.old own.new len ds result }
{
    if len == 0 || len > LONGEST {
        return Err(Refused::Length);
    }
    for _ in rt.forever() {
        let placed = place(&mut *lock.lock(rt), own.number(), len, ds);
        match placed {
            Ok(p) => {
                if own.adopt_new(p, len, ds) {
                    return Ok(p);
                }
            }
            Err(why) => {
                if own.bears_out(why) {
                    return Err(why);
                }
            }
        }
    }
    unreachable!()
}

// Drops an object, which the mutator uses no longer: the book looks at its cell until that is free. The first look finds DROP there, or that a round freed
// the cell.
#[inline(always)]
pub(crate) fn drop_object<K: HeapName, D: Device + Drop, R: Wait>(
    rt: &R,
    lock: &Lock<K, D>,
    own: &mut Own<K, D>,
    p: u16,
) -> Result<(), Refused>
    requires one { own.old.number < K.heap.mutators }
    ensures refused { IfErr result (λ why. (drop_refusal own.old p ≡ Some why) × (own.new ≡ own.old)) }
    ensures dropped { IfOk result (λ _. (drop_refusal own.old p ≡ None) × (own.new ≡ dropping p own.old)) }
    ensures freed { IfOk result (λ _. BookHad D K.heap (IsFreed p)) }
    ensures did { IfOk result (λ _. BookDid D K.heap (LooksAndRetires D.contents D.honest D.faults D.fails_at_most D.lets_go D.forgets p)) }
{
    if !own.has(p) {
        return Err(Refused::NotHeld);
    }
    if own.is_viewing(p) {
        return Err(Refused::Held);
    }
    let mut asked = own.ask_drop(p);
    for _ in rt.forever() {
        let looked = lock.lock(rt).retire_dropped(asked);
        match looked {
            None => return Ok(()),
            Some(again) => asked = again,
        }
    }
    unreachable!()
}

// Has an object that isn't viewed brought where it can be, and views it. A refusal for want of room apart, none is answered after the owner asked for the
// object to be moved: it is tried anew then.
#[inline(never)]
pub(crate) fn view<K: HeapName, D: Device + Drop, R: Wait>(
    rt: &R,
    lock: &Lock<K, D>,
    own: &mut Own<K, D>,
    p: u16,
) -> Brought
    // the mutator's scope is open, it uses the pointer, and doesn't view its object
    requires one { own.old.number < K.heap.mutators }
    requires opened { own.old.opened ≡ true }
    requires used { uses own.old p ≡ true }
    requires unviewed { views own.old p ≡ false }

    // refused: the book had no room, or so the device answered one read; `Memory` never where it reads in place
    ensures refused { IfSome (refusal_of result) (λ why. IsUnbrought why × Asks p own.old own.new) }
    ensures cause { IfSome (refusal_of result) (λ why. BookHad D K.heap (Unbrought p why)) }
    ensures answered { IfSome (refusal_of result) (IsAnswered D K.heap D.reads p) }
    ensures in_place { D.reads_in_place → refusal_of result ≢ Some Memory }

    // MOVE was set anew only where there was no room
    ensures unasked { IfSome (refusal_of result) (λ why. (why ≡ NoRoom) ⊎ (own.new ≡ own.old)) }

    // done: the mutator views it, and the last that the book did was to fetch it, or to look at it again and move it
    ensures viewed { IfNone (refusal_of result) (AsksToView p own.old own.new) }
    ensures brought { IfNone (refusal_of result) (BookDid D K.heap (BringsSo D.contents D.honest D.faults D.fails_at_most D.lets_go D.forgets D.reads D.reads_in_place p true)) }
{
    let mut first = true;
    for _ in rt.forever() {
        let brought = bring(&mut *lock.lock(rt), own, p);
        match brought {
            Ok(true) => return Brought::Viewed,
            Ok(false) => {}
            Err(why) => {
                if first || why == Refused::NoRoom {
                    return Brought::of(why);
                }
            }
        }
        first = false;
    }
    unreachable!()
}

// Brings an object that isn't viewed where it can be, and pins it there while the lock is held: whether it is viewed then. If that is refused all is left as
// it was, and what was far is far; but MOVE may stay in the object's cell, after NoRoom alone.
fn bring<K: HeapName, D: Device + Drop>(
    book: &mut Evacuator<K, D>,
    own: &mut Own<K, D>,
    p: u16,
) -> Result<bool, Refused>
    // the mutator's scope is open, it uses the pointer, and doesn't view its object
    requires one { own.old.number < K.heap.mutators }
    requires opened { own.old.opened ≡ true }
    requires used { uses own.old p ≡ true }
    requires unviewed { views own.old p ≡ false }

    // refused: the book has no room, or so the device answered one read, `Memory` never where it reads in place; all is left but marks that were found, and
    // MOVE was set anew only where there was no room
    ensures refused { IfErr result (λ why. IsUnbrought why × Asks p own.old own.new × ((why ≡ NoRoom) ⊎ (own.new ≡ own.old))) }
    ensures cause { IfErr result (λ why. BookHad D K.heap (Unbrought p why)) }
    ensures left { IfErr result (λ why. LeavesIt D.reads p why book.old book.new) }
    ensures answered { IfErr result (IsAnswered D K.heap D.reads p) }
    ensures in_place { D.reads_in_place → result ≢ Err Memory }

    // true: the book has fetched it, or looked at it again and moved it, and the mutator views it; false: it doesn't view it, brought or not
    ensures viewed { result ≡ Ok true → AsksToView p own.old own.new }
    ensures slow { result ≡ Ok false → Asks p own.old own.new }
    ensures did { IfOk result (λ viewed. BringsSo D.contents D.honest D.faults D.fails_at_most D.lets_go D.forgets D.reads D.reads_in_place p true book.old book.new ⊎ ((viewed ≡ false) × BringsSo D.contents D.honest D.faults D.fails_at_most D.lets_go D.forgets D.reads D.reads_in_place p false book.old book.new)) }
    ensures brought { result ≡ Ok true → BookDid D K.heap (BringsSo D.contents D.honest D.faults D.fails_at_most D.lets_go D.forgets D.reads D.reads_in_place p true) }

    // the round stands where it stood
    ensures round { SameRound book.old book.new }
{
    book.keeps_law();
    match fetch_or_move(book, own, p) {
        Ok(true) => Ok(pin_brought(book, own, p)),
        Ok(false) => Ok(false),
        Err(why) => Err(why),
    }
}

// Pins an object that the book has just brought, and that it therefore still keeps from rounds: whether it is viewed then.
fn pin_brought<K: HeapName, D: Device + Drop>(
    _book: &Evacuator<K, D>,
    own: &mut Own<K, D>,
    p: u16,
) -> bool
    requires brought { IsBrought D.contents D.honest D.faults D.fails_at_most D.lets_go D.forgets D.reads D.reads_in_place _book.now p }
    requires opened { own.old.opened ≡ true }
    requires used { uses own.old p ≡ true }
    requires unviewed { views own.old p ≡ false }
    ensures viewed { result ≡ true → own.new ≡ viewing p own.old }
    ensures slow { result ≡ false → own.new ≡ own.old }
{
    match own.try_view(p) {
        Ok(Tried::View(_)) => true,
        _ => false,
    }
}

// Has an object that isn't viewed brought where it can be: a far one is fetched; of a near one the owner sets MOVE, and the book moves it, or takes MOVE
// away. Whether the book did so. If that is refused all is left as it was; but MOVE may stay in the object's cell, after NoRoom alone.
fn fetch_or_move<K: HeapName, D: Device + Drop>(
    book: &mut Evacuator<K, D>,
    own: &mut Own<K, D>,
    p: u16,
) -> Result<bool, Refused>
    // the mutator uses the pointer, and doesn't view its object
    requires one { own.old.number < K.heap.mutators }
    requires used { uses own.old p ≡ true }
    requires unviewed { views own.old p ≡ false }

    // refused: the book has no room, or the device failed one read, with `Memory` never where it reads in place; all is left but marks that were found
    ensures refused { IfErr result (λ why. IsUnbrought why × ((why ≡ NoRoom) ⊎ (own.new ≡ own.old))) }
    ensures cause { IfErr result (λ why. BookHad D K.heap (Unbrought p why)) }
    ensures left { IfErr result (λ why. LeavesIt D.reads p why book.old book.new) }
    ensures in_place { D.reads_in_place → result ≢ Err Memory }

    // true: the last that the book did was to bring the object; MOVE may have been set anew, if it's refused only for want of room
    ensures brought { result ≡ Ok true → IsBrought D.contents D.honest D.faults D.fails_at_most D.lets_go D.forgets D.reads D.reads_in_place book.new p }
    ensures asks { Asks p own.old own.new }

    // done: the object was fetched, or looked at again and moved, or looked at twice, as the answer says
    ensures did { IfOk result (λ so. BringsSo D.contents D.honest D.faults D.fails_at_most D.lets_go D.forgets D.reads D.reads_in_place p so book.old book.new) }

    // the round stands where it stood
    ensures round { SameRound book.old book.new }
{
    if let Some(fetched) = book.fetch_far(p) {
        return match fetched {
            Ok(place) => Ok(place.is_some()),
            Err(why) => Err(why),
        };
    }
    let asked = own.ask_move(p);
    match book.move_asked(asked) {
        Some(Ok(place)) => Ok(place.is_some()),
        Some(Err(why)) => Err(why),
        None => Ok(false),
    }
}
