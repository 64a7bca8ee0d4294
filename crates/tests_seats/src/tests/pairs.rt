//! A book on shared words beside one owner, and its acts.

ghost use Rattle.std.specs.Prelude.{◌≡◌, ℕ, true, IfOk};
ghost use Rattle.far_word.specs.Pointer.{read_of};
ghost use Rattle.far_book.specs.book.Own.{HasNoJob};
ghost use Rattle.far_table.specs.BookSeats.{seat_view};
ghost use Rattle.tests_seats.specs.Marked.{evac_in};

use crate::tests::acts::Act;
use crate::tests::owners::owner_does;
use far_book::{Book, Home, Near};
use far_core::{Kind, Shape, sets_of_logs};
use far_device::{Device, MemDevice};
use far_table::BookSeat;
use far_word::{CELLS, LONGEST, Marks, PtrWord, Refused};
use tests_owner::{Owner, shared};

pub(super) const SMALL: Shape = Shape {
    logs: 4,
    mutators: 1,
    epoch: 0,
};

pub(super) const NO_MARKS: Marks = Marks {
    hot: false,
    evac: false,
    moved: false,
    dropped: false,
    dirty: false,
};

pub(super) const WRITTEN: Marks = Marks {
    dirty: true,
    ..NO_MARKS
};

/// A book over some hand, and the one owner beside it.
#[derive(Drop)]
pub(super) struct Pair<N: Near + Drop> {
    pub book: Book<N, MemDevice>,
    pub owner: Owner<MemDevice>,
}

/// A new book over its seat, with no job, beside one owner.
pub(super) fn pair_of(rt: &HostRuntime, shape: Shape) -> Result<Pair<BookSeat<MemDevice>>, Refused>
    ensures { IfOk result (λ pair. HasNoJob (seat_view pair.book.near)) }
{
    let (book, mut owners) = shared(rt.alloc(), shape)?;
    let Some(owner) = owners.pop() else {
        return Err(Refused::Shape);
    };
    Ok(Pair { book, owner })
}

// A new object of the first mutator, in its lowest free cell.
fn place_next<N: Near + Drop, D: Device + Drop>(
    book: &mut Book<N, D>,
    len: u16,
) -> Result<u16, Refused> {
    if len == 0 || len > LONGEST {
        return Err(Refused::Length);
    }
    book.keeps_law();
    let Some(pointer) = book.free_cell(0) else {
        return Err(Refused::NoPointer);
    };
    book.place(pointer, len, 1)?;
    Ok(pointer)
}

// Sets EVAC on a near object of a sealed log, and answers its word before; `None` where the pointer names none.
fn marks_sealed<N: Near + Drop, D: Device + Drop>(
    book: &mut Book<N, D>,
    pointer: u16,
) -> Option<u64> {
    if pointer as u64 >= CELLS as u64 * book.shape().mutators {
        return None;
    }
    let cell = book.see(pointer);
    let Some(PtrWord::Near { place, .. }) = PtrWord::read(cell) else {
        return None;
    };
    if place.log as u64 >= book.shape().logs || book.log(place.log).0 != Kind::Sealed {
        return None;
    }
    Some(book.mark(pointer))
}

// Whether an object that a cell names has EVAC, if it lies in log 0.
fn is_marked(cell: u64) -> bool
    ensures { result ≡ evac_in (read_of cell) }
{
    match PtrWord::read(cell) {
        Some(PtrWord::Near { place, marks, .. }) => place.log != 0 || marks.evac,
        Some(PtrWord::Free | PtrWord::Far { .. }) | None => true,
    }
}

// Whether all objects in log 0 have EVAC.
fn are_marked<N: Near + Drop, D: Device + Drop>(book: &mut Book<N, D>) -> bool
    ensures kind { (N.view book.new.near).kind ≡ (N.view book.old.near).kind }
    ensures logs { (N.view book.new.near).logs ≡ (N.view book.old.near).logs }
    ensures marked { result ≡ true → (p : ℕ) → evac_in (read_of ((N.view book.new.near).cell p)) ≡ true }
{
    book.keeps_law();
    let pointers = CELLS * book.shape().mutators as u16;
    for pointer in 0..pointers {
        if !is_marked(book.see(pointer)) {
            return false;
        }
    }
    book.keeps_law();
    true
}

// Begins a round of log 0, if it is sealed and all its objects have EVAC.
fn advance_by_first<N: Near + Drop, D: Device + Drop>(
    book: &mut Book<N, D>,
) -> Option<Result<u64, Refused>> {
    if book.shape().logs == 0 || book.log(0).0 != Kind::Sealed || !are_marked(book) {
        return None;
    }
    sets_of_logs();
    Some(book.advance(1))
}

// An owner's scope word; `None` where the number is no owner's.
fn look_at<N: Near + Drop, D: Device + Drop>(book: &mut Book<N, D>, owner: u8) -> Option<u64> {
    if owner as u64 >= book.shape().mutators {
        return None;
    }
    Some(book.look(owner))
}

// Whether an object that its owner asks for is moved.
#[tactic(auto, using(crate::proofs::Uses::quiet_home))]
fn moves<N: Near + Drop, D: Device + Drop>(book: &mut Book<N, D>, pointer: u16) -> bool {
    if pointer as u64 >= CELLS as u64 * book.shape().mutators {
        return false;
    }
    let Some(Home::Near { marks, .. }) = book.locate(pointer) else {
        return false;
    };
    if !marks.moved {
        return false;
    }
    matches!(book.move_now(pointer), Ok(Some(_)))
}

// Whether an object that is seen to have EVAC and MOVE goes far.
#[tactic(auto, using(crate::proofs::Uses::quiet_home, crate::proofs::Uses::evac_home))]
fn evicts<N: Near + Drop, D: Device + Drop>(book: &mut Book<N, D>, pointer: u16) -> bool {
    if pointer as u64 >= CELLS as u64 * book.shape().mutators {
        return false;
    }
    let Some(Home::Near { marks, .. }) = book.locate(pointer) else {
        return false;
    };
    if !marks.evac || !marks.moved {
        return false;
    }
    book.evict(pointer) == Ok(true)
}

// Whether a far object comes near.
#[tactic(auto, using(crate::proofs::Uses::far_home))]
fn fetches<N: Near + Drop, D: Device + Drop>(book: &mut Book<N, D>, pointer: u16) -> bool {
    if pointer as u64 >= CELLS as u64 * book.shape().mutators {
        return false;
    }
    let Some(Home::Far { .. }) = book.locate(pointer) else {
        return false;
    };
    matches!(book.fetch(pointer), Ok(Some(_)))
}

// Whether a cell is this.
fn sees<N: Near + Drop, D: Device + Drop>(book: &mut Book<N, D>, pointer: u16, cell: u64) -> bool {
    (pointer as u64) < CELLS as u64 * book.shape().mutators && book.see(pointer) == cell
}

// Whether an act of a book comes out as it should.
fn book_does<N: Near + Drop, D: Device + Drop>(book: &mut Book<N, D>, act: Act) -> bool {
    match act {
        Act::Marked(pointer, word) => marks_sealed(book, pointer) == Some(word),
        Act::Advances(epoch) => advance_by_first(book) == Some(Ok(epoch)),
        Act::Looks(word) => look_at(book, 0) == Some(word),
        Act::Sees(pointer, cell) => sees(book, pointer, cell),
        Act::Evicts(pointer) => evicts(book, pointer),
        Act::Fetches(pointer) => fetches(book, pointer),
        Act::Moves(pointer) => moves(book, pointer),
        _ => false,
    }
}

// Whether an act comes out as it should.
fn does<N: Near + Drop>(pair: &mut Pair<N>, act: Act) -> bool {
    match act {
        Act::Makes(len, pointer) => {
            place_next(&mut pair.book, len) == Ok(pointer) && pair.owner.adopt(pointer).is_some()
        }
        _ => match owner_does(&mut pair.owner, act) {
            Some(done) => done,
            None => book_does(&mut pair.book, act),
        },
    }
}

// Whether each act comes out as it should.
fn does_all<N: Near + Drop>(pair: &mut Pair<N>, acts: &[Act]) -> bool {
    for act in acts {
        if !does(pair, *act) {
            return false;
        }
    }
    true
}

/// Whether each act comes out as it should on a new book of a small heap.
pub(super) fn pair_plays(rt: &HostRuntime, acts: &[Act]) -> bool {
    match pair_of(rt, SMALL) {
        Ok(mut pair) => does_all(&mut pair, acts),
        Err(_) => false,
    }
}
