//! A round of log 0 in which copies are offered, and what becomes of their jobs.

ghost use Rattle.std.specs.Prelude.{◌≡◌, ◌≢◌, ◌*◌, ◌<◌, ℕ, true};
ghost use Rattle.far_word.specs.declared.sizes.TheConstants.{CELLS};
ghost use Rattle.far_word.specs.Pointer.{read_of};
ghost use Rattle.far_events.specs.events.Advance.{is_among};
ghost use Rattle.far_events.specs.state.Law.{HasEvac};
ghost use Rattle.far_hand.specs.Rounds.{MayChoose};

use crate::tests::calls::marks;
use far_book::{Book, Home, Near};
use far_core::Kind;
use far_device::Device;
use far_word::{CELLS, PtrWord, ScopeWord};

/// Whether so many pointers from 0 on get EVAC.
pub(super) fn marks_many<N: Near + Drop, D: Device + Drop>(
    book: &mut Book<N, D>,
    pointers: u8,
) -> bool {
    for pointer in 0..pointers {
        if marks(book, pointer as u16).is_none() {
            return false;
        }
    }
    true
}

// Whether a cell says that an object has EVAC, if it lies in log 0.
fn is_wanted(cell: u64) -> bool
    ensures { result ≡ true → HasEvac (is_among 1) (read_of cell) }
{
    match PtrWord::read(cell) {
        Some(PtrWord::Near { place, marks, .. }) => place.log != 0 || marks.evac,
        _ => true,
    }
}

// Whether a pointer's object has EVAC, if it lies in log 0.
fn has_evac<N: Near + Drop, D: Device + Drop>(book: &mut Book<N, D>, pointer: u16) -> bool
    requires { pointer < CELLS * (N.view book.old.near).mutators }
    ensures marked { result ≡ true → HasEvac (is_among 1) (read_of ((N.view book.new.near).cell pointer)) }
    ensures kept { N.view book.new.near ≡ record (N.view book.old.near) { cell = (N.view book.new.near).cell } }
    ensures others { (p : ℕ) → p ≢ pointer → (N.view book.new.near).cell p ≡ (N.view book.old.near).cell p }
{
    is_wanted(book.see(pointer))
}

// Whether each object in log 0, which is sealed, has EVAC.
fn all_have_evac<N: Near + Drop, D: Device + Drop>(book: &mut Book<N, D>) -> bool
    requires sealed { (N.view book.old.near).kind 0 ≡ Kind.Sealed }
    requires log { 0 < (N.view book.old.near).logs }
    requires one { (N.view book.old.near).mutators ≡ 1 }
    ensures chosen { result ≡ true → MayChoose (N.view book.new.near) 1 }
    ensures kept { N.view book.new.near ≡ record (N.view book.old.near) { cell = (N.view book.new.near).cell } }
{
    for pointer in 0..CELLS {
        if !has_evac(book, pointer) {
            return false;
        }
    }
    book.keeps_law();
    true
}

// Whether a round of log 0 begins, in which the one owner is seen clear, since its scope is closed.
fn begins_first<N: Near + Drop, D: Device + Drop>(book: &mut Book<N, D>) -> bool
    ensures mutators { result ≡ true → 0 < (N.view book.new.near).mutators }
    ensures round { result ≡ true → (N.view book.new.near).round 0 ≡ true }
    ensures clear { result ≡ true → (N.view book.new.near).clear 0 ≡ true }
{
    let shape = book.shape();
    if shape.mutators != 1 || shape.logs == 0 || book.log(0).0 != Kind::Sealed {
        return false;
    }
    if !all_have_evac(book) || book.advance(1).is_err() {
        return false;
    }
    ScopeWord::read(book.look(0)) == Some(ScopeWord::Closed)
}

// Whether the copy of an object is offered, which is seen in log 0 with EVAC; `None` where the pointer names none.
fn offers<N: Near + Drop, D: Device + Drop>(book: &mut Book<N, D>, pointer: u16) -> Option<bool>
    requires mutators { 0 < (N.view book.old.near).mutators }
    requires round { (N.view book.old.near).round 0 ≡ true }
    requires clear { (N.view book.old.near).clear 0 ≡ true }
    ensures mutators { (N.view book.new.near).mutators ≡ (N.view book.old.near).mutators }
    ensures round { (N.view book.new.near).round ≡ (N.view book.old.near).round }
    ensures clear { (N.view book.new.near).clear ≡ (N.view book.old.near).clear }
{
    if pointer >= CELLS {
        return None;
    }
    let Some(PtrWord::Near { place, marks, .. }) = PtrWord::read(book.see(pointer)) else {
        return None;
    };
    if place.log != 0 || !marks.evac {
        return None;
    }
    Some(book.offer(pointer))
}

// Whether copies are offered, or aren't, as they should be.
fn offers_all<N: Near + Drop, D: Device + Drop>(
    book: &mut Book<N, D>,
    wanted: &[(u16, bool)],
) -> bool
    requires mutators { 0 < (N.view book.old.near).mutators }
    requires round { (N.view book.old.near).round 0 ≡ true }
    requires clear { (N.view book.old.near).clear 0 ≡ true }
{
    for (pointer, offered) in wanted {
        if offers(book, *pointer) != Some(*offered) {
            return false;
        }
    }
    true
}

/// Whether a round of log 0 begins, and copies of its objects are offered then, or aren't, as they should be.
pub(super) fn offers_in_round<N: Near + Drop, D: Device + Drop>(
    book: &mut Book<N, D>,
    wanted: &[(u16, bool)],
) -> bool {
    begins_first(book) && offers_all(book, wanted)
}

/// Whether jobs were taken back.
pub(super) fn takes_back<N: Near + Drop, D: Device + Drop>(book: &mut Book<N, D>) -> bool {
    book.take_back();
    true
}

/// Whether a job that isn't void copies a near object; `None` where the pointer names none.
#[tactic(auto, using(crate::proofs::Offers::near_home))]
pub(super) fn has_job<N: Near + Drop, D: Device + Drop>(
    book: &mut Book<N, D>,
    pointer: u16,
) -> Option<bool> {
    if pointer as u64 >= CELLS as u64 * book.shape().mutators {
        return None;
    }
    let Some(Home::Near { place, .. }) = book.locate(pointer) else {
        return None;
    };
    Some(book.has_job(pointer, place))
}

/// Whether so many turns of others pass, while the book looks at the first owner's scope.
pub(super) fn waits<N: Near + Drop, D: Device + Drop>(book: &mut Book<N, D>, turns: u8) -> bool {
    for _ in 0..turns {
        if book.shape().mutators == 0 {
            return false;
        }
        book.look(0);
    }
    true
}
