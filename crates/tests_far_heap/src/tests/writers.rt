//! A mutator at work: it fills its objects with bytes, and reads them back.

use crate::tests::acts::Act;
use crate::tests::hands::Hand;
use far_device::Device;
use far_heap::{HeapName, Mutator, Scope, View};
use far_word::Refused;
use std::sync::Wait;
use std::thread;

/// How often a call is tried for which there is no room.
const TRIES: u16 = 1000;

/// How many objects a writer has, and how long they are.
const OBJECTS: usize = 16;

const BYTES: u16 = 64;

/// An object, and the byte that it was filled with last.
#[derive(Clone, Copy)]
struct Filled {
    pointer: u16,
    byte: u8,
}

// A view of an object, as soon as there is room for it.
fn viewed<K: HeapName, D: Device + Drop, R: Wait>(
    rt: &R,
    scope: &mut Scope<K, D>,
    pointer: u16,
) -> Option<View> {
    for _ in 0..TRIES {
        match scope.view(rt, pointer) {
            Ok(view) => return Some(view),
            Err(Refused::NoRoom) => thread::yield_now(),
            Err(_) => return None,
        }
    }
    None
}

// Whether each byte of an object is this.
fn is_filled<K: HeapName, D: Device + Drop>(
    scope: &mut Scope<K, D>,
    view: &View,
    byte: u8,
) -> bool {
    let mut found = [0; BYTES as usize];
    scope.read(view, 0, &mut found).is_ok() && found == [byte; BYTES as usize]
}

// Whether an object has what it was filled with last, and, if there is another byte, is filled with that, and has that.
fn fills<K: HeapName, D: Device + Drop, R: Wait>(
    rt: &R,
    scope: &mut Scope<K, D>,
    object: Filled,
    byte: Option<u8>,
) -> bool {
    let Some(view) = viewed(rt, scope, object.pointer) else {
        return false;
    };
    let had = is_filled(scope, &view, object.byte);
    match byte {
        Some(byte) => {
            had && scope.write(&view, 0, &[byte; BYTES as usize]).is_ok()
                && is_filled(scope, &view, byte)
        }
        None => had,
    }
}

/// A mutator with objects of its own.
#[derive(Drop)]
pub(super) struct Writer<K: HeapName, D: Device + Drop> {
    hand: Hand<K, D>,
    objects: [Filled; OBJECTS],
    // How many scopes it has opened.
    scopes: u64,
}

impl<K: HeapName, D: Device + Drop> Writer<K, D> {
    /// One that has no object yet.
    pub(super) fn new(mutator: Mutator<K, D>) -> Writer<K, D> {
        let none = Filled {
            pointer: 0,
            byte: 0,
        };
        Writer {
            hand: Hand::Closed(mutator),
            objects: [none; OBJECTS],
            scopes: 0,
        }
    }

    // A new object, as soon as there is room.
    fn made<R: Wait>(&mut self, rt: &R) -> Option<u16> {
        for _ in 0..TRIES {
            match self.hand.makes(rt, BYTES, 1) {
                Ok(pointer) => return Some(pointer),
                Err(Refused::NoRoom) => thread::yield_now(),
                Err(_) => return None,
            }
        }
        None
    }

    /// Makes its objects; `false` where one is refused.
    pub(super) fn makes_objects<R: Wait>(&mut self, rt: &R) -> bool {
        for i in 0..OBJECTS {
            let Some(pointer) = self.made(rt) else {
                return false;
            };
            self.objects[i] = Filled { pointer, byte: 0 };
        }
        true
    }

    // Whether an object has what it was filled with last, and is filled with another byte, if there is one.
    fn fills<R: Wait>(&mut self, rt: &R, object: Filled, byte: Option<u8>) -> bool {
        match &mut self.hand {
            Hand::Open(scope) => fills(rt, scope, object, byte),
            _ => false,
        }
    }

    // Ten writes, each to the next object.
    fn writes_ten<R: Wait>(&mut self, rt: &R) -> bool {
        for i in 0..10u64 {
            let count = self.scopes.wrapping_mul(10).wrapping_add(i);
            let (at, byte) = ((count % 16) as usize, (count % 251) as u8);
            let object = self.objects[at];
            if !self.fills(rt, object, Some(byte)) {
                return false;
            }
            let pointer = object.pointer;
            self.objects[at] = Filled { pointer, byte };
        }
        self.scopes = self.scopes.wrapping_add(1);
        true
    }

    // Whether an act of the mutator comes out as it should.
    fn does<R: Wait>(&mut self, rt: &R, act: Act) -> bool {
        self.hand.does(rt, None, act) == Some(true)
    }

    /// Writes ten times in each of ten scopes, and reads back; `false` where something was wrong.
    pub(super) fn works<R: Wait>(&mut self, rt: &R) -> bool {
        for _ in 0..10u8 {
            if !self.does(rt, Act::Opens) || !self.writes_ten(rt) || !self.does(rt, Act::Closes) {
                return false;
            }
        }
        true
    }

    /// Whether all its objects have what they were filled with last.
    pub(super) fn has_all<R: Wait>(&mut self, rt: &R) -> bool {
        if !self.does(rt, Act::Opens) {
            return false;
        }
        for i in 0..OBJECTS {
            let object = self.objects[i];
            if !self.fills(rt, object, None) {
                return false;
            }
        }
        true
    }
}
