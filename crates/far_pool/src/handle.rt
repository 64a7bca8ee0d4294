//! Names of objects.

ghost use Rattle.std.specs.Prelude.{◌≡◌};
ghost use Rattle.far_pool.specs.declared.handle.Handle.{Handle as AnyHandle};
ghost use Rattle.far_pool.specs.Bits.{IsHandle, bits_of};

/// An object of a worker: which of its heaps has it, by which pointer, and how many objects that pointer had before, up to 65,535 and then from 0 on.
#[derive(Clone, Copy, Debug, PartialEq, Eq, Hash)]
pub struct Handle {
    pub(crate) heap: u32,
    pub(crate) pointer: u16,
    pub(crate) generation: u16,
}

impl Handle {
    /// The handle as a number, from which [`Handle::from_bits`] makes it again.
    pub fn to_bits(self) -> u64
        ensures { result ≡ bits_of self }
    {
        self.heap as u64 * 4_294_967_296 + self.pointer as u64 * 65_536 + self.generation as u64
    }

    /// The one handle of a number. A number that no handle gave makes one that is refused like one whose object was dropped, unless an object happens to have it.
    pub fn from_bits(bits: u64) -> Handle
        ensures same { bits_of result ≡ bits }
        ensures only { (h : AnyHandle) → IsHandle h → bits_of h ≡ bits → h ≡ result }
    {
        Handle {
            heap: (bits / 4_294_967_296) as u32,
            pointer: (bits / 65_536 % 65_536) as u16,
            generation: (bits % 65_536) as u16,
        }
    }
}
