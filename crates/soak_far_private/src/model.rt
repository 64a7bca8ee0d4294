//! What the heap should have, kept apart from it.

use far_word::POINTERS;
use std::alloc::{AllocError, Global};
use std::collections::BTreeMap;

/// The room for an object's bytes.
pub const ROOM: usize = 4096;

/// An object of the model.
#[derive(Clone, Copy)]
pub struct Object {
    /// How many bytes; 0 where the pointer is free.
    pub len: usize,
    pub structure: u8,
    // Where it stands among the used.
    at: usize,
}

const NONE: Object = Object {
    len: 0,
    structure: 0,
    at: 0,
};

/// A pointer's object with its bytes.
#[derive(Drop)]
struct Held {
    object: Object,
    // ROOM bytes, of which the object's are the first.
    bytes: Vec<u8>,
}

/// The objects of all pointers. Once it is made it takes no memory.
#[derive(Drop)]
pub struct Model {
    objects: BTreeMap<u16, Held>,
    // The pointers that have an object, in any order.
    used: Vec<u16>,
}

// A pointer without an object.
fn free(alloc: Global) -> Result<Held, AllocError> {
    let mut bytes = Vec::new(alloc);
    bytes.resize(ROOM, 0)?;
    Ok(Held {
        object: NONE,
        bytes,
    })
}

impl Model {
    /// One without an object.
    pub fn new(alloc: Global) -> Result<Model, AllocError> {
        let mut model = Model {
            objects: BTreeMap::new(alloc),
            used: Vec::new(alloc),
        };
        model.used.try_reserve(POINTERS as usize)?;
        for pointer in 0..POINTERS {
            if model.objects.insert(pointer, free(alloc)?).is_err() {
                return Err(AllocError);
            }
        }
        Ok(model)
    }

    /// How many objects there are.
    #[inline(always)]
    pub fn count(&self) -> u64 {
        self.used.len() as u64
    }

    /// The pointer of one of them, by its place.
    #[inline(always)]
    pub fn used(&self, at: u64) -> Option<u16> {
        self.used.get(at as usize).copied()
    }

    /// The object of a pointer; `None` where it is free.
    #[inline(always)]
    pub fn object(&self, pointer: u16) -> Option<Object> {
        let object = self.objects.get(&pointer)?.object;
        if object.len == 0 { None } else { Some(object) }
    }

    /// A range of its bytes.
    #[inline(always)]
    pub fn bytes(&self, pointer: u16, from: usize, count: usize) -> Option<&[u8]> {
        let held = self.objects.get(&pointer)?;
        held.bytes.get(from..from.saturating_add(count))
    }

    // The same, to be changed.
    #[inline(always)]
    fn bytes_mut(&mut self, pointer: u16, from: usize, count: usize) -> Option<&mut [u8]> {
        let held = self.objects.get_mut(&pointer)?;
        held.bytes
            .as_mut_slice()
            .get_mut(from..from.saturating_add(count))
    }

    /// Has these bytes there.
    #[inline(always)]
    pub fn write(&mut self, pointer: u16, from: usize, bytes: &[u8]) {
        if let Some(place) = self.bytes_mut(pointer, from, bytes.len()) {
            if place.len() == bytes.len() {
                place.copy_from_slice(bytes);
            }
        }
    }

    /// Has a number added to each of these bytes.
    pub fn add(&mut self, pointer: u16, from: usize, count: usize, number: u8) {
        if let Some(place) = self.bytes_mut(pointer, from, count) {
            for byte in place {
                *byte = byte.wrapping_add(number);
            }
        }
    }

    // Has this object there: which one there was.
    fn set(&mut self, pointer: u16, object: Object) -> Option<Object> {
        let held = self.objects.get_mut(&pointer)?;
        let before = held.object;
        held.object = object;
        Some(before)
    }

    /// Has an object at a pointer that has none: whether that is so.
    pub fn make(&mut self, pointer: u16, structure: u8, bytes: &[u8]) -> bool {
        let object = Object {
            len: bytes.len(),
            structure,
            at: self.used.len(),
        };
        match self.set(pointer, object) {
            Some(before) if before.len == 0 => {
                self.write(pointer, 0, bytes);
                self.used.push(pointer).is_ok()
            }
            _ => false,
        }
    }

    /// Has none there.
    pub fn drop_object(&mut self, pointer: u16) {
        let Some(object) = self.set(pointer, NONE) else {
            return;
        };
        if object.len != 0 {
            self.move_last(object.at);
        }
    }

    // Has the last of the used stand at a place.
    fn move_last(&mut self, at: usize) {
        let Some(last) = self.used.pop() else {
            return;
        };
        if let Some(place) = self.used.get_mut(at) {
            *place = last;
            if let Some(held) = self.objects.get_mut(&last) {
                held.object.at = at;
            }
        }
    }
}
