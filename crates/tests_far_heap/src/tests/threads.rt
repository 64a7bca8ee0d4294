//! What a thread does while another has the lock, or has taken a scope over, or ends its round.

use crate::tests::acts::Act::*;
use crate::tests::acts::Choice::Eldest;
use crate::tests::acts::{Act, EIGHT, End, ZEROS};
use crate::tests::looks::is_dropped;
use crate::tests::play::Scene::Moves;
use crate::tests::play::{ONE, Play, Scene, holds};
use crate::tests::scopes::{has, reads, viewed, writes};
use crate::tests::stage::{Signals, Stage};
use crate::tests::steps::steps;
use far_device::Device;
use far_evac::{Phase, Polled};
use far_heap::{Evacuator, Heap, HeapName, Mutator, Scope, View};
use far_word::Refused;
use std::sync::Wait;
use std::thread;
use std::thread::{Threads, join};

/// What another thread does.
#[derive(Clone, Copy)]
enum Beside {
    /// It has the book until its hold is ended.
    Holds,
    /// It has the book until the first object is dropped, and does this before its owner gets the lock.
    HoldsTillDropped(&'static [Act]),
    /// It gives up the round as soon as that waits.
    GivesUpWaiting,
}

/// What two threads do, and before and after that one of them.
#[derive(Clone, Copy)]
pub(super) struct Duet {
    before: &'static [Act],
    beside: Beside,
    acts: &'static [Act],
    after: &'static [Act],
}

// Has the book until the hold is ended: whether that came.
fn keeps_book<K: HeapName, D: Device + Drop, R: Wait>(
    rt: &R,
    heap: &Heap<K, D>,
    signals: &Signals,
) -> bool {
    let book = heap.book(rt);
    signals.held.raise();
    signals.ended.wait_for(1) && book.shape().logs == 4
}

// Whether each act of the book comes out as it should, under one hold of the lock.
fn does_all<K: HeapName, D: Device + Drop>(book: &mut Evacuator<K, D>, acts: &[Act]) -> bool {
    for act in acts {
        if !steps(book, *act) {
            return false;
        }
    }
    true
}

// Has the book until the first object is dropped, and goes on before its owner gets the lock.
fn holds_till_dropped<K: HeapName, D: Device + Drop, R: Wait>(
    rt: &R,
    heap: &Heap<K, D>,
    signals: &Signals,
    acts: &[Act],
) -> bool {
    let mut guard = heap.book(rt);
    let book = &mut *guard;
    signals.held.raise();
    for _ in 0..1_000_000_000u64 {
        if is_dropped(book, 0) {
            return does_all(book, acts);
        }
        thread::yield_now();
    }
    false
}

// Gives up a round that waits; whether one did.
fn ends_waiting<K: HeapName, D: Device + Drop>(book: &mut Evacuator<K, D>) -> bool {
    book.phase() == Phase::Waiting && book.abort() == Ok(())
}

// Gives up the round of another thread as soon as it waits.
fn gives_up_waiting<K: HeapName, D: Device + Drop, R: Wait>(rt: &R, heap: &Heap<K, D>) -> bool {
    for _ in 0..1_000_000_000u64 {
        if ends_waiting(&mut *heap.book(rt)) {
            return true;
        }
        thread::yield_now();
    }
    false
}

// What the other thread does.
fn plays_beside<K: HeapName, D: Device + Drop, R: Wait>(
    rt: &R,
    heap: &Heap<K, D>,
    signals: &Signals,
    beside: Beside,
) -> bool {
    match beside {
        Beside::Holds => keeps_book(rt, heap, signals),
        Beside::HoldsTillDropped(acts) => holds_till_dropped(rt, heap, signals, acts),
        Beside::GivesUpWaiting => gives_up_waiting(rt, heap),
    }
}

/// Whether a duet comes out as it should.
pub(super) fn plays<
    K: HeapName + Send + Sync,
    D: Device + Drop + Send + Sync,
    R: Threads + Wait + Sync,
>(rt: &R, stage: &mut Stage<'_, K, D>, duet: &Duet) -> bool {
    stage.sets_out();
    if !stage.does_all(rt, duet.before) {
        return false;
    }
    let (heap, signals, here) = (stage.heap, stage.signals, &mut *stage);
    let (there, came) = join(
        rt,
        move || plays_beside(rt, heap, signals, duet.beside),
        move || here.does_all(rt, duet.acts),
    );
    there && came && stage.does_all(rt, duet.after)
}

// An object is viewed, written and read while another thread has the book.
const HELD_BOOK: Duet = Duet {
    before: &[Makes(8, Ok(0))],
    beside: Beside::Holds,
    acts: &[
        AwaitsHold,
        Opens,
        KeepsSlowly(0),
        KeepsSlowly(0),
        WritesAt(0, &EIGHT),
        ReadsAt(0, &EIGHT),
        Closes,
        EndsHold,
    ],
    after: &[],
};

const UNDER_HELD_BOOK: &[Play] = &[Play {
    scene: Scene::Duet(&HELD_BOOK),
    ..ONE
}];

#[test]
fn read_under_held_book(rt: HostRuntime) {
    holds(&rt, rt.alloc(), UNDER_HELD_BOOK);
}

// A round may retire an object between its owner's mark and the lock; another is made at its pointer then.
const DROPPED_BESIDE: Duet = Duet {
    before: &[Makes(8, Ok(0)), Makes(4088, Ok(1))],
    beside: Beside::HoldsTillDropped(&[
        Selects(Eldest, 1, Ok(&[0])),
        Marks(9, Ok((1, Some(1)))),
        Polls(Ok(Polled::Clear)),
        Deals(9, Ok([0, 0, 1, 1])),
    ]),
    acts: &[AwaitsHold, Drops(0, Ok(()))],
    after: &[Has(1), Makes(8, Ok(0))],
};

const RETIRED_BESIDE: &[Play] = &[Play {
    scene: Scene::Duet(&DROPPED_BESIDE),
    ..ONE
}];

#[test]
fn a_round_may_retire_what_is_dropped(rt: HostRuntime) {
    holds(&rt, rt.alloc(), RETIRED_BESIDE);
}

// A round that waits for a scope, which stays open, is refused once another thread has ended it.
const ENDED_ROUND: Duet = Duet {
    before: &[Makes(8, Ok(0)), Makes(4088, Ok(1)), Opens],
    beside: Beside::GivesUpWaiting,
    acts: &[Runs(Eldest, 1, 1_000_000_000, End::Refused(Refused::Phase))],
    after: &[Reads(0, ZEROS)],
};

const ENDED_BESIDE: &[Play] = &[Play {
    scene: Scene::Duet(&ENDED_ROUND),
    ..ONE
}];

#[test]
fn a_round_may_be_ended_by_another(rt: HostRuntime) {
    holds(&rt, rt.alloc(), ENDED_BESIDE);
}

// Reads by a view that another thread made, and closes the scope.
fn ends_scope<K: HeapName, D: Device + Drop>(
    mut scope: Scope<K, D>,
    view: View,
) -> Option<Mutator<K, D>> {
    if has(&mut scope, &view, EIGHT) && reads(&mut scope, 0, EIGHT) {
        Some(scope.close())
    } else {
        None
    }
}

// A view of a new object that is written.
fn written<K: HeapName, D: Device + Drop, R: Wait>(
    rt: &R,
    scope: &mut Scope<K, D>,
) -> Option<View> {
    if scope.alloc(rt, 8, 1) == Ok(0) && writes(scope, 0, EIGHT) {
        viewed(scope, 0)
    } else {
        None
    }
}

// Whether a mutator came back, and reads.
fn reads_back<K: HeapName, D: Device + Drop>(back: Option<Mutator<K, D>>) -> bool {
    match back {
        Some(back) => reads(&mut back.open(), 0, EIGHT),
        None => false,
    }
}

// A scope with a view goes to another thread, and its mutator comes back and reads.
fn moves_there<
    K: HeapName + Send + Sync + 'static,
    D: Device + Drop + Send + Sync + 'static,
    R: Threads + Wait,
>(rt: &R, scope: Scope<K, D>, view: View) -> bool {
    match thread::spawn(rt, move || ends_scope(scope, view)) {
        Ok(there) => reads_back(there.join(rt)),
        Err(_) => false,
    }
}

/// Whether that comes out as it should with the first mutator.
pub(super) fn moves<
    K: HeapName + Send + Sync + 'static,
    D: Device + Drop + Send + Sync + 'static,
    R: Threads + Wait,
>(rt: &R, stage: &mut Stage<'_, K, D>) -> bool {
    let Some(mutator) = stage.mutators.pop() else {
        return false;
    };
    let mut scope = mutator.open();
    match written(rt, &mut scope) {
        Some(view) => moves_there(rt, scope, view),
        None => false,
    }
}

const MOVED: &[Play] = &[Play {
    scene: Moves,
    ..ONE
}];

#[test]
fn moves_between_threads(rt: HostRuntime) {
    holds(&rt, rt.alloc(), MOVED);
}
