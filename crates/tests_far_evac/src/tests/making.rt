//! Evacuators for the tests, and what the first owner does with one: it makes objects, writes, reads and drops them.

ghost use Rattle.std.specs.Prelude.{◌≡◌, true};

use crate::tests::acts::{Act, Moved};
use far_book::{Book, Home, Near, Plain};
use far_core::{Core, Event, Reply, Shape};
use far_device::{Device, MemDevice};
use far_evac::Evac;
use far_word::{CELLS, LONGEST, Mark, Refused};
use std::alloc::Global;

pub(super) const SMALL: Shape = Shape {
    logs: 4,
    mutators: 1,
    epoch: 0,
};

pub(super) fn evacuator(alloc: Global, shape: Shape) -> Result<Evac<Plain, MemDevice>, Refused> {
    evacuator_over(alloc, shape, MemDevice::new(alloc))
}

// The same over another device.
#[tactic(auto, using(crate::proofs::Uses::at_start, crate::proofs::Uses::at_start_alone))]
pub(super) fn evacuator_over<D: Device + Drop>(
    alloc: Global,
    shape: Shape,
    device: D,
) -> Result<Evac<Plain, D>, Refused>
    requires { D.honest device ≡ true }
{
    let core = Core::new(alloc, shape, true)?;
    let book = Book::new(alloc, Plain { core }, device)?;
    Ok(Evac::new(book))
}

// A new object of the first owner, in its lowest free cell.
fn place_next<N: Near + Drop, D: Device + Drop>(
    evac: &mut Evac<N, D>,
    len: u16,
) -> Result<u16, Refused> {
    if len == 0 || len > LONGEST {
        return Err(Refused::Length);
    }
    evac.keeps_law();
    let Some(pointer) = evac.book().free_cell(0) else {
        return Err(Refused::NoPointer);
    };
    evac.place(pointer, len, 1)?;
    Ok(pointer)
}

// The same, and the owner uses it from then on.
fn make<D: Device + Drop>(evac: &mut Evac<Plain, D>, len: u16) -> Result<u16, Refused> {
    let pointer = place_next(evac, len)?;
    evac.owner(Event::Adopt { owner: 0, pointer });
    Ok(pointer)
}

// Whether so many objects of this length are made.
fn makes_many<D: Device + Drop>(evac: &mut Evac<Plain, D>, objects: u8, len: u16) -> bool {
    for _ in 0..objects {
        if make(evac, len).is_err() {
            return false;
        }
    }
    true
}

/// Brings a far object near; false where it isn't far, or doesn't come.
#[tactic(auto, using(crate::proofs::Uses::far_home))]
pub(super) fn fetches<N: Near + Drop, D: Device + Drop>(
    evac: &mut Evac<N, D>,
    pointer: u16,
) -> bool {
    if pointer as u64 >= CELLS as u64 * evac.book().shape().mutators {
        return false;
    }
    let Some(Home::Far { .. }) = evac.locate(pointer) else {
        return false;
    };
    matches!(evac.fetch(pointer), Ok(Some(_)))
}

// What a move answers that an owner has asked for.
#[tactic(auto, using(crate::proofs::Uses::quiet_home))]
fn moved<N: Near + Drop, D: Device + Drop>(evac: &mut Evac<N, D>, pointer: u16) -> Moved {
    if pointer as u64 >= CELLS as u64 * evac.book().shape().mutators {
        return Moved::NotAsked;
    }
    let Some(Home::Near { marks, .. }) = evac.locate(pointer) else {
        return Moved::NotAsked;
    };
    if !marks.moved {
        return Moved::NotAsked;
    }
    match evac.move_now(pointer) {
        Ok(Some(_)) => Moved::ToAnotherLog,
        Ok(None) => Moved::Retired,
        Err(why) => Moved::Refused(why),
    }
}

/// Retires a near object that is dropped; false where it is none.
#[tactic(auto, using(crate::proofs::Uses::dropped_home))]
pub(super) fn retires<N: Near + Drop, D: Device + Drop>(
    evac: &mut Evac<N, D>,
    pointer: u16,
) -> bool {
    if pointer as u64 >= CELLS as u64 * evac.book().shape().mutators {
        return false;
    }
    let Some(Home::Near { marks, .. }) = evac.locate(pointer) else {
        return false;
    };
    if !marks.dropped {
        return false;
    }
    evac.retire(pointer);
    true
}

// The first owner sets a mark.
fn asks<D: Device + Drop>(evac: &mut Evac<Plain, D>, pointer: u16, mark: Mark) -> Reply {
    let owner = 0;
    evac.owner(Event::Ask {
        owner,
        pointer,
        mark,
    })
}

// It pins an object.
fn pin<D: Device + Drop>(evac: &mut Evac<Plain, D>, pointer: u16) -> Reply {
    evac.owner(Event::Pin { owner: 0, pointer })
}

// Whether it reads the epoch, and its scope opens.
fn opens<D: Device + Drop>(evac: &mut Evac<Plain, D>) -> bool {
    evac.owner(Event::ReadEpoch { owner: 0 });
    evac.owner(Event::Open { owner: 0 }) == Reply::Done
}

fn closes<D: Device + Drop>(evac: &mut Evac<Plain, D>) -> bool {
    evac.owner(Event::Close { owner: 0 }) == Reply::Done
}

// Whether it views an object in its scope: where it can't be pinned, it is fetched or moved before.
fn views<D: Device + Drop>(evac: &mut Evac<Plain, D>, pointer: u16) -> bool {
    if matches!(pin(evac, pointer), Reply::Held(_)) {
        return true;
    }
    if !fetches(evac, pointer) {
        asks(evac, pointer, Mark::Moved);
        if moved(evac, pointer) != Moved::ToAnotherLog {
            return false;
        }
    }
    matches!(pin(evac, pointer), Reply::Held(_))
}

// Whether a viewed object, which is soiled before, has this word from now on; or has it.
fn stores<D: Device + Drop>(evac: &mut Evac<Plain, D>, pointer: u16, word: u64) -> bool {
    let (owner, index) = (0, 0);
    evac.owner(Event::Soil { owner, pointer });
    let store = Event::Store {
        owner,
        pointer,
        index,
        word,
    };
    evac.owner(store) == Reply::Done
}

fn loads<D: Device + Drop>(evac: &mut Evac<Plain, D>, pointer: u16, word: u64) -> bool {
    let (owner, index) = (0, 0);
    let load = Event::Load {
        owner,
        pointer,
        index,
    };
    evac.owner(load) == Reply::Word(word)
}

/// Whether an act of the first owner comes out as it should; `None` if it is none.
pub(super) fn owner_does<D: Device + Drop>(evac: &mut Evac<Plain, D>, act: Act) -> Option<bool> {
    match act {
        Act::Makes(len, pointer) => Some(make(evac, len) == Ok(pointer)),
        Act::MakesMany(objects, len) => Some(makes_many(evac, objects, len)),
        Act::MakesNone(len) => Some(make(evac, len) == Err(Refused::NoRoom)),
        Act::Drops(pointer) => {
            asks(evac, pointer, Mark::Dropped);
            Some(retires(evac, pointer))
        }
        Act::Asks(pointer, mark) => {
            asks(evac, pointer, mark);
            Some(true)
        }
        Act::Fetches(pointer) => Some(fetches(evac, pointer)),
        Act::Moves(pointer, wanted) => Some(moved(evac, pointer) == wanted),
        _ => does_in_scope(evac, act),
    }
}

// The same of what belongs to a scope.
fn does_in_scope<D: Device + Drop>(evac: &mut Evac<Plain, D>, act: Act) -> Option<bool> {
    let owner = 0;
    match act {
        Act::ReadsEpoch(epoch) => {
            Some(evac.owner(Event::ReadEpoch { owner }) == Reply::Epoch(epoch))
        }
        Act::OpensLate => Some(evac.owner(Event::Open { owner }) == Reply::Done),
        Act::Opens => Some(opens(evac)),
        Act::Closes => Some(closes(evac)),
        Act::Pins(pointer) => Some(matches!(pin(evac, pointer), Reply::Held(_))),
        Act::Finds(pointer, word) => Some(pin(evac, pointer) == Reply::Word(word)),
        _ => does_with_words(evac, act),
    }
}

// The same of what views an object.
fn does_with_words<D: Device + Drop>(evac: &mut Evac<Plain, D>, act: Act) -> Option<bool> {
    match act {
        Act::Views(pointer) => Some(views(evac, pointer)),
        Act::Stores(pointer, word) => Some(stores(evac, pointer, word)),
        Act::Loads(pointer, word) => Some(loads(evac, pointer, word)),
        Act::Writes(pointer, word) => Some(
            opens(evac) && views(evac, pointer) && stores(evac, pointer, word) && closes(evac),
        ),
        Act::Reads(pointer, word) => {
            Some(opens(evac) && views(evac, pointer) && loads(evac, pointer, word) && closes(evac))
        }
        _ => None,
    }
}
