//! What a mutator wrote, by its own record.

use far_heap::View;

/// The room for an object's bytes.
pub const ROOM: usize = 1024;

/// An object, as its mutator wrote it, with the last view of it and the count of the scope that made that.
#[derive(Drop)]
pub struct Record {
    pub pointer: u16,
    pub len: u16,
    pub bytes: [u8; ROOM],
    pub view: Option<View>,
    pub scope: u64,
}

/// What is to be done with an object: its place among the records, and what its record tells.
#[derive(Clone, Copy)]
pub struct Pick {
    pub at: usize,
    pub pointer: u16,
    pub len: u16,
    /// The last view, and whether the open scope made it.
    pub view: Option<View>,
    pub viewed: bool,
}

/// A part of the bytes of an object that is viewed.
#[derive(Clone, Copy)]
pub struct Part {
    pub at: usize,
    pub view: View,
    pub from: u16,
    pub count: u16,
}

impl Record {
    /// Of a new object, whose bytes are zeros.
    pub fn new(pointer: u16, len: u16) -> Record {
        Record {
            pointer,
            len,
            bytes: [0; ROOM],
            view: None,
            scope: 0,
        }
    }

    /// Whether the bytes from one on are these.
    pub fn has(&self, from: usize, found: &[u8]) -> bool {
        match self.bytes.get(from..from.saturating_add(found.len())) {
            Some(kept) => kept == found,
            None => false,
        }
    }
}
