//! What stands under a key of the row.

ghost use Rattle.std.specs.Prelude.{◌≡◌, ◌<◌, ◌≤◌, length, cond, false, Some, None, IfSome, IfNone, IsTrue};
ghost use Rattle.far_device.specs.declared.slot.TheConstants.{LONG};
ghost use Rattle.std.specs.Vec.{vec_capacity};

use std::alloc::Global;

/// A buffer with room for so many bytes, or more, isn't kept once nothing is under its key.
const LONG: usize = 128;

/// Bytes, or nothing, and then a buffer, no long one, into which bytes may be put.
#[derive(Debug, Drop)]
pub(crate) struct Slot {
    pub(crate) held: bool,
    pub(crate) buffer: Vec<u8>,
    ghost short: { held ≡ false → vec_capacity buffer < LONG },
}

impl Slot {
    ghost use Rattle.far_device.specs.Row.{bytes_of};

    /// Nothing, and no buffer. Takes no memory.
    pub(crate) fn new(alloc: Global) -> Slot
        ensures { bytes_of result ≡ None }
    {
        Slot {
            held: false,
            buffer: Vec::new(alloc),
        }
    }

    /// What is held.
    #[inline(always)]
    pub(crate) fn bytes(&self) -> Option<&[u8]>
        ensures some { IfSome result (λ bytes. bytes_of self.now ≡ Some bytes.now) }
        ensures none { IfNone result (bytes_of self.now ≡ None) }
    {
        if self.held {
            Some(self.buffer.as_slice())
        } else {
            None
        }
    }

    /// Holds these bytes in place of what is held, in the same buffer where it has room for them. After `false`, where memory was
    /// refused, what was held is held. What is no longer than that takes none.
    #[inline(always)]
    pub(crate) fn put(&mut self, alloc: Global, bytes: &[u8]) -> bool
        ensures held { bytes_of self.new ≡ cond result (Some bytes.now) (bytes_of self.old) }
        ensures in_place { IfSome (bytes_of self.old) (λ stored. length bytes.now ≤ length stored → IsTrue result) }
    {
        if bytes.len() > self.buffer.capacity() {
            return self.put_in_new(alloc, bytes);
        }
        self.held = true;
        refill(&mut self.buffer, bytes)
    }

    // The same, in a new buffer.
    #[inline(never)]
    fn put_in_new(&mut self, alloc: Global, bytes: &[u8]) -> bool
        ensures { bytes_of self.new ≡ cond result (Some bytes.now) (bytes_of self.old) }
    {
        let Ok(buffer) = Vec::from_slice(alloc, bytes) else {
            return false;
        };
        self.buffer = buffer;
        self.held = true;
        true
    }

    /// Holds nothing, and keeps the buffer, if it isn't a long one. Takes no memory.
    #[inline(always)]
    pub(crate) fn empty(&mut self, alloc: Global)
        ensures { bytes_of self.new ≡ None }
    {
        if self.buffer.capacity() >= LONG {
            self.drop_buffer(alloc);
        }
        self.held = false;
    }

    #[inline(never)]
    fn drop_buffer(&mut self, alloc: Global)
        ensures { vec_capacity self.new.buffer < LONG }
    {
        self.buffer = Vec::new(alloc);
    }
}

/// Puts these bytes in place of what is held, into the same buffer where it has room for them. After `false`, where memory was refused,
/// what was held is held.
pub(crate) fn replace(held: &mut Vec<u8>, alloc: Global, bytes: &[u8]) -> bool
    ensures { held.new.items ≡ cond result bytes.now held.old.items }
{
    if bytes.len() <= held.capacity() {
        return refill(held, bytes);
    }
    let Ok(buffer) = Vec::from_slice(alloc, bytes) else {
        return false;
    };
    *held = buffer;
    true
}

/// Empties the buffer and copies these bytes into it. `false` where they had no room and memory was refused.
#[inline(always)]
pub(crate) fn refill(buffer: &mut Vec<u8>, bytes: &[u8]) -> bool
    ensures filled { IsTrue result → buffer.new.items ≡ bytes.now }
    ensures room { length bytes.now ≤ vec_capacity buffer.old → IsTrue result }
    ensures kept { vec_capacity buffer.old ≤ vec_capacity buffer.new }
{
    buffer.clear();
    buffer.extend_from_slice(bytes).is_ok()
}

/// Puts bytes into a buffer in place of what it has; it never has less room then. Takes no memory.
pub fn hand_over(bytes: Vec<u8>, buffer: &mut Vec<u8>)
    ensures filled { buffer.new.items ≡ bytes.items }
    ensures kept { vec_capacity buffer.old ≤ vec_capacity buffer.new }
{
    if bytes.capacity() >= buffer.capacity() {
        *buffer = bytes;
        return;
    }
    // It has room for what a shorter one has.
    let _ = refill(buffer, bytes.as_slice());
}
