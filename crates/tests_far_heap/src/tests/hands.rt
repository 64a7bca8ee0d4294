//! A mutator or its scope, and the acts of each.

use crate::tests::acts::Act;
use crate::tests::scopes::{has_numbers, is_slow, numbers, reads, reads_slowly, viewed, writes};
use far_device::Device;
use far_heap::{HeapName, Mutator, Scope, Tried, View};
use far_word::Refused;
use std::mem;
use std::sync::Wait;

/// A mutator whose scope is closed, or an open scope.
#[derive(Drop)]
pub(super) enum Hand<K: HeapName, D: Device + Drop> {
    Closed(Mutator<K, D>),
    Open(Scope<K, D>),
    Gone,
}

impl<K: HeapName, D: Device + Drop> Hand<K, D> {
    /// The first of these mutators, if there is one.
    pub(super) fn first_of(mutators: &mut Vec<Mutator<K, D>>) -> Hand<K, D> {
        if mutators.is_empty() {
            Hand::Gone
        } else {
            Hand::Closed(mutators.remove(0))
        }
    }

    // Opens the scope; whether it was closed.
    fn opens(&mut self) -> bool {
        match mem::replace(self, Hand::Gone) {
            Hand::Closed(mutator) => {
                *self = Hand::Open(mutator.open());
                true
            }
            _ => false,
        }
    }

    // Closes the scope; whether it was open.
    fn closes(&mut self) -> bool {
        match mem::replace(self, Hand::Gone) {
            Hand::Open(scope) => {
                *self = Hand::Closed(scope.close());
                true
            }
            _ => false,
        }
    }

    // Drops the scope unclosed; whether it was open.
    fn leaves_open(&mut self) -> bool {
        matches!(mem::replace(self, Hand::Gone), Hand::Open(_))
    }

    /// A new object.
    pub(super) fn makes<R: Wait>(&mut self, rt: &R, len: u16, ds: u8) -> Result<u16, Refused> {
        match self {
            Hand::Closed(mutator) => mutator.alloc(rt, len, ds),
            Hand::Open(scope) => scope.alloc(rt, len, ds),
            Hand::Gone => Err(Refused::Closed),
        }
    }

    // Whether so many new objects of this length have the pointers from 0 on.
    fn fills<R: Wait>(&mut self, rt: &R, objects: u16, len: u16) -> bool {
        for pointer in 0..objects {
            if self.makes(rt, len, 1) != Ok(pointer) {
                return false;
            }
        }
        true
    }

    // Drops an object.
    fn drops<R: Wait>(&mut self, rt: &R, pointer: u16) -> Result<(), Refused> {
        match self {
            Hand::Closed(mutator) => mutator.drop_object(rt, pointer),
            Hand::Open(scope) => scope.drop_object(rt, pointer),
            Hand::Gone => Err(Refused::Closed),
        }
    }

    // What is told of a pointer.
    fn told(&self, pointer: u16) -> (Option<u16>, Option<u8>) {
        match self {
            Hand::Closed(mutator) => (mutator.len_of(pointer), mutator.structure_of(pointer)),
            Hand::Open(scope) => (scope.len_of(pointer), scope.structure_of(pointer)),
            Hand::Gone => (None, None),
        }
    }

    /// A view of an object, by one step, or whatever it takes; `None` also where no scope is open.
    pub(super) fn views<R: Wait>(&mut self, rt: &R, pointer: u16, slowly: bool) -> Option<View> {
        match self {
            Hand::Open(scope) => {
                if slowly {
                    scope.view(rt, pointer).ok()
                } else {
                    viewed(scope, pointer)
                }
            }
            _ => None,
        }
    }

    /// Whether an act comes out as it should, by this view where it needs one; `None` if it is none of a mutator or a scope.
    pub(super) fn does<R: Wait>(&mut self, rt: &R, view: Option<View>, act: Act) -> Option<bool> {
        match act {
            Act::Opens => Some(self.opens()),
            Act::Closes => Some(self.closes()),
            Act::LeavesOpen => Some(self.leaves_open()),
            Act::Makes(len, made) => Some(self.makes(rt, len, 1) == made),
            Act::MakesOf(len, ds, pointer) => Some(self.makes(rt, len, ds) == Ok(pointer)),
            Act::Fills(objects, len) => Some(self.fills(rt, objects, len)),
            Act::Drops(pointer, dropped) => Some(self.drops(rt, pointer) == dropped),
            Act::Tells(pointer, len, ds) => Some(self.told(pointer) == (len, ds)),
            _ => self.does_in_scope(rt, view, act),
        }
    }

    // The same of an open scope.
    fn does_in_scope<R: Wait>(&mut self, rt: &R, view: Option<View>, act: Act) -> Option<bool> {
        match self {
            Hand::Open(scope) => match view {
                Some(view) => does_by_view(rt, scope, &view, act),
                None => does_in(rt, scope, act),
            },
            _ => None,
        }
    }
}

// Whether an act comes out as it should in this scope.
fn does_in<K: HeapName, D: Device + Drop, R: Wait>(
    rt: &R,
    scope: &mut Scope<K, D>,
    act: Act,
) -> Option<bool> {
    match act {
        Act::Numbers(objects) => Some(numbers(scope, objects)),
        Act::HasNumbers(objects) => Some(has_numbers(rt, scope, objects)),
        Act::Reads(pointer, bytes) => Some(reads(scope, pointer, bytes)),
        Act::Brings(pointer, bytes) => Some(reads_slowly(rt, scope, pointer, bytes)),
        Act::Writes(pointer, bytes) => Some(writes(scope, pointer, bytes)),
        Act::IsSlow(pointer) => Some(is_slow(scope, pointer)),
        Act::Finds(pointer, word) => Some(scope.try_view(pointer) == Ok(Tried::Slow(word))),
        Act::ViewsNone(pointer, why) => Some(scope.view(rt, pointer) == Err(why)),
        Act::Lacks(pointer) => Some(lacks(rt, scope, pointer)),
        _ => None,
    }
}

// Whether a pointer isn't held: no length is told, and no view is given.
fn lacks<K: HeapName, D: Device + Drop, R: Wait>(
    rt: &R,
    scope: &mut Scope<K, D>,
    pointer: u16,
) -> bool {
    scope.len_of(pointer).is_none()
        && scope.try_view(pointer) == Err(Refused::NotHeld)
        && scope.view(rt, pointer) == Err(Refused::NotHeld)
}

// Whether an act comes out as it should in this scope, where it may be by this view.
fn does_by_view<K: HeapName, D: Device + Drop, R: Wait>(
    rt: &R,
    scope: &mut Scope<K, D>,
    view: &View,
    act: Act,
) -> Option<bool> {
    match act {
        Act::Kept(pointer, len) => Some(view.pointer() == pointer && view.len() == len),
        Act::ReadsAt(from, bytes) => Some(reads_at(scope, view, from, bytes)),
        Act::WritesAt(from, bytes) => Some(scope.write(view, from, bytes) == Ok(())),
        Act::Bars(from, count, why) => Some(bars(scope, view, (from, count), why)),
        _ => does_in(rt, scope, act),
    }
}

// Whether these bytes are read, 20 at most.
fn reads_at<K: HeapName, D: Device + Drop>(
    scope: &mut Scope<K, D>,
    view: &View,
    from: u16,
    bytes: &[u8],
) -> bool {
    let mut out = [7; 20];
    let count = bytes.len();
    if count > 20 {
        return false;
    }
    scope.read(view, from, &mut out[..count]) == Ok(()) && &out[..count] == bytes
}

// Whether a read of so many bytes, 20 at most, is refused for this reason, and gives none.
fn reads_none<K: HeapName, D: Device + Drop>(
    scope: &mut Scope<K, D>,
    view: &View,
    from: u16,
    count: usize,
    why: Refused,
) -> bool {
    let mut out = [7; 20];
    if count > 20 {
        return false;
    }
    scope.read(view, from, &mut out[..count]) == Err(why) && out == [7; 20]
}

// Whether a write of so many bytes, 20 at most, is refused for this reason.
fn writes_none<K: HeapName, D: Device + Drop>(
    scope: &mut Scope<K, D>,
    view: &View,
    from: u16,
    count: usize,
    why: Refused,
) -> bool {
    let bytes = [9; 20];
    if count > 20 {
        return false;
    }
    scope.write(view, from, &bytes[..count]) == Err(why)
}

// Whether both are refused so.
fn bars<K: HeapName, D: Device + Drop>(
    scope: &mut Scope<K, D>,
    view: &View,
    range: (u16, usize),
    why: Refused,
) -> bool {
    let (from, count) = range;
    reads_none(scope, view, from, count, why) && writes_none(scope, view, from, count, why)
}
