//! A copier claims the offered job before the k-th call of the book's hand, for each k in a run of its own.

ghost use Rattle.std.specs.Prelude.{◌≡◌};

use crate::tests::acts::Choice;
use crate::tests::steps::{WRITTEN, home, progress, selects};
use far_book::{Beset, Book, Home};
use far_core::{Core, Event, Shape};
use far_device::MemDevice;
use far_evac::{Evac, Marked, Polled};
use far_word::{LONGEST, Mark, Marks, Place, Refused};
use std::alloc::Global;

const SHAPE: Shape = Shape {
    logs: 4,
    mutators: 1,
    epoch: 0,
};

/// The owner takes the first object over once it is placed, views it, and closes its scope.
pub(super) const VIEWS: [Event; 5] = [
    Event::Adopt {
        owner: 0,
        pointer: 0,
    },
    Event::ReadEpoch { owner: 0 },
    Event::Open { owner: 0 },
    Event::Pin {
        owner: 0,
        pointer: 0,
    },
    Event::Close { owner: 0 },
];

/// A copier takes the copy of the first object from log 0 to log 2, if that is offered as job 0.
pub(super) const CLAIMS: Event = Event::Claim {
    copier: 0,
    job: 0,
    old: 0x4000_2000_0000_0000,
};

/// The owner drops the object.
pub(super) const DROPS: Event = Event::Ask {
    owner: 0,
    pointer: 0,
    mark: Mark::Dropped,
};

/// Nobody does anything.
pub(super) const NOTHING: Event = Event::Close { owner: 9 };

/// How many calls of the hand come after the object was viewed, at most, before it is dropped.
const CALLS: usize = 100;

// The owner's events, with the copier's before a call: whether there is memory for them.
fn fills(events: &mut Vec<Event>, call: usize) -> bool {
    for _ in 0..112u8 {
        if events.extend_from_slice(&VIEWS).is_err() {
            return false;
        }
    }
    let viewed = events.len();
    events.resize(viewed.saturating_add(call), NOTHING).is_ok()
        && events.push(CLAIMS).is_ok()
        && events.resize(viewed.saturating_add(CALLS), NOTHING).is_ok()
        && events.push(DROPS).is_ok()
}

/// An evacuator that offers copies, beside whose hand these events are made.
#[tactic(auto, using(crate::proofs::Uses::beset_start, crate::proofs::Uses::beset_alone))]
pub(super) fn beset(
    rt: &HostRuntime,
    events: Vec<Event>,
) -> Result<Evac<Beset, MemDevice>, Refused> {
    let core = Core::new(rt.alloc(), SHAPE, true)?;
    let hand = Beset::new(rt.alloc(), core, events)?;
    let book = Book::new(rt.alloc(), hand, MemDevice::new(rt.alloc()))?;
    Ok(Evac::copying(book))
}

/// Whether a new object gets the owner's lowest free cell.
pub(super) fn places(evac: &mut Evac<Beset, MemDevice>, len: u16) -> bool {
    if evac.book().shape().mutators == 0 || len == 0 || len > LONGEST {
        return false;
    }
    evac.keeps_law();
    match evac.book().free_cell(0) {
        Some(pointer) => evac.place(pointer, len, 1).is_ok(),
        None => false,
    }
}

/// Looks at the first object so often, by a call of the hand each time; whether it is there.
pub(super) fn looks(evac: &mut Evac<Beset, MemDevice>, times: usize) -> bool {
    for _ in 0..times {
        if home(evac, 0).is_none() {
            return false;
        }
    }
    true
}

// Whether the objects are placed, the second by a call for each of its words, and the owner has viewed the first.
fn begins(evac: &mut Evac<Beset, MemDevice>) -> bool {
    places(evac, 8) && places(evac, LONGEST) && looks(evac, 50)
}

// Whether a round of the first object's log comes to where that leaves.
fn comes_to_leave(evac: &mut Evac<Beset, MemDevice>, epoch: u64) -> bool {
    let marked = Marked {
        count: 1,
        waiting: Some(epoch),
    };
    selects(evac, &mut Choice::Eldest, 1, Ok(&[0]))
        && evac.mark_some(9) == Ok(marked)
        && evac.poll_wait() == Ok(Polled::Clear)
}

// Whether the first object lies where it was placed.
fn stays(evac: &mut Evac<Beset, MemDevice>) -> bool {
    let place = Place { log: 0, at: 0 };
    let marks = Marks {
        hot: true,
        ..WRITTEN
    };
    home(evac, 0) == Some(Home::Near { place, marks })
}

// Whether the copy is offered, the round given up then, and the object stays; and the next round comes to where the object leaves, which is dropped.
fn is_given_up(evac: &mut Evac<Beset, MemDevice>) -> bool {
    begins(evac)
        && comes_to_leave(evac, 1)
        && evac.evacuate_some(9) == Ok(progress([0, 0, 0, 0], false))
        && evac.abort() == Ok(())
        && stays(evac)
        && looks(evac, CALLS)
        && comes_to_leave(evac, 2)
}

// Whether the log of the object is given back once that is retired, or the copier still has the job; `None` if something is wrong.
fn is_freed(evac: &mut Evac<Beset, MemDevice>) -> Option<bool> {
    let retired = evac.evacuate_some(9);
    if retired == Ok(progress([0, 0, 1, 1], true)) {
        return Some(true);
    }
    if retired == Ok(progress([0, 0, 1, 0], false)) {
        return Some(false);
    }
    None
}

// The same of a whole test.
fn freed(evac: &mut Evac<Beset, MemDevice>) -> Option<bool> {
    if is_given_up(evac) {
        is_freed(evac)
    } else {
        None
    }
}

// The events of a test in which the copier claims the job before this call; `None` if there is no memory for them.
fn events_of(alloc: Global, call: usize) -> Option<Vec<Event>> {
    let mut events = Vec::new(alloc);
    if fills(&mut events, call) {
        Some(events)
    } else {
        None
    }
}

// What comes of that test.
fn freed_beside(rt: &HostRuntime, call: usize) -> Option<bool> {
    let Some(events) = events_of(rt.alloc(), call) else {
        return None;
    };
    match beset(rt, events) {
        Ok(mut evac) => freed(&mut evac),
        Err(_) => None,
    }
}

// In how many of these calls the copier got the job; `None` if something was wrong.
fn claimed(rt: &HostRuntime) -> Option<usize> {
    let mut claimed = 0usize;
    for call in 0..CALLS {
        if !freed_beside(rt, call)? {
            claimed = claimed.saturating_add(1);
        }
    }
    Some(claimed)
}

// The offer stands for two calls of the hand, by which it is taken back: a look at the job's word, and the exchange, which is lost if the copier comes
// between both. Before all others there is nothing to claim.
#[test]
fn an_exchange_is_lost(rt: HostRuntime) {
    assert!(rt; claimed(&rt) == Some(2));
}
