//! A worker's objects by number: pointer p of heap k has the number 2,048 k + p. Who holds numbers keeps them itself: one whose object was
//! dropped names the next object of its pointer.

ghost use Rattle.std.specs.Prelude.{◌≡◌, ◌<◌, ◌+◌, ◌*◌, ℕ, None, Some, Err, IfErr, IfSome, OnErr, OnOk, length, slice_range};
ghost use Rattle.far_word.specs.declared.refused.Refused.{Refused as Refusal};
ghost use Rattle.far_word.specs.declared.sizes.TheConstants.{POINTERS};
ghost use Rattle.far_private.specs.Heap.{IsWell, IsWhyNoAccess, size_of};
ghost use Rattle.far_private.specs.Objects.{bytes_of};
ghost use Rattle.far_pool.specs.Numbers.{IsOfHeaps, handle_at, held};
ghost use Rattle.far_pool.specs.Pool.{place_of, refusal_of};
ghost use Rattle.far_pool.specs.declared.worker.TheConstants.{MOST_HEAPS};

use crate::handle::Handle;
use crate::maker::MakeDevice;
use crate::worker::Worker;
use far_device::Device;
use far_objects::Objects;
use far_word::{POINTERS, Refused};

// The number of a handle.
fn number_of(handle: Handle) -> u32
    requires { IsOfHeaps MOST_HEAPS handle }
    ensures { result ≡ place_of handle }
{
    handle.heap * POINTERS as u32 + handle.pointer as u32
}

impl<D: Device + Drop, M: MakeDevice<D> + Drop> Worker<D, M> {
    // The object of a number is as the law has it. The call does nothing.
    #[inline(always)]
    fn keeps_law_at(&self, number: u32)
        ensures { IsWell self.now.honest (held self.now number) }
    {
        let at = (number / POINTERS as u32) as usize;
        if at < self.parts.shelves.len() {
            self.parts.shelves[at].keeps_law();
        }
    }

    // The one handle of a number that may have an object now.
    fn handle_at(&self, number: u32) -> Handle
        ensures { result ≡ handle_at self.now number }
    {
        let heap = number / POINTERS as u32;
        let pointer = (number % POINTERS as u32) as u16;
        let at = heap as usize;
        let generation = if at < self.parts.shelves.len() {
            self.parts.shelves[at].generation_of(pointer)
        } else {
            0
        };
        Handle {
            heap,
            pointer,
            generation,
        }
    }

    #[inline(always)]
    fn held_len(&self, number: u32) -> Option<u16>
        ensures { result ≡ size_of (held self.now number) }
    {
        let at = (number / POINTERS as u32) as usize;
        if at >= self.parts.shelves.len() {
            return None;
        }
        self.parts.shelves[at].len_now((number % POINTERS as u32) as u16)
    }

    #[inline(always)]
    fn read_held(&mut self, number: u32, from: usize, out: &mut [u8]) -> Result<(), Refused>
        ensures same { self.new ≡ self.old }
        ensures long { length out.new ≡ length out.old }
        ensures read { OnOk result (IfSome (bytes_of (held self.old number)) (λ bytes. out.new ≡ slice_range bytes from (from + length out.old))) }
        ensures done { OnOk result (refusal_of (held self.old number) from (length out.old) ≡ None) }
        ensures barred { (why : Refusal) → refusal_of (held self.old number) from (length out.old) ≡ Some why → result ≡ Err why }
        ensures why { IfErr result (λ why. IsWhyNoAccess self.old.honest (refusal_of (held self.old number) from (length out.old)) why) }
        ensures kept { OnErr result (out.new ≡ out.old) }
    {
        self.parts.accesses = self.parts.accesses.wrapping_add(1);
        let at = (number / POINTERS as u32) as usize;
        if at >= self.parts.shelves.len() {
            return Err(Refused::NotHeld);
        }
        self.parts.shelves[at].read_now((number % POINTERS as u32) as u16, from, out)
    }
}

impl<D: Device + Drop, M: MakeDevice<D> + Drop> Objects for Worker<D, M> {
    ghost use Rattle.far_private.specs.Heap.{IsOutside};
    ghost use Rattle.far_private.specs.Numbered.{IsNoPlace};
    ghost use Rattle.far_pool.specs.Numbers.{far_of, known_of};

    ghost far = { λ s. far_of s };

    ghost unmade = { IsNoPlace };

    ghost unreached = { IsOutside };

    ghost known = { λ s. known_of s };

    fn alloc(&mut self, bytes: &[u8]) -> Result<u32, Refused> {
        match Worker::alloc(self, bytes, 0) {
            Ok(handle) => {
                let number = number_of(handle);
                self.keeps_law_at(number);
                Ok(number)
            }
            Err(why) => Err(why),
        }
    }

    fn alloc_zeros(&mut self, len: usize) -> Result<u32, Refused> {
        let Ok(short) = u16::try_from(len) else {
            return Err(Refused::Length);
        };
        match Worker::alloc_zeros(self, short, 0) {
            Ok(handle) => {
                let number = number_of(handle);
                self.keeps_law_at(number);
                Ok(number)
            }
            Err(why) => Err(why),
        }
    }

    fn len_of(&self, number: u32) -> Option<usize> {
        self.keeps_law_at(number);
        match self.held_len(number) {
            Some(len) => Some(len as usize),
            None => None,
        }
    }

    fn read(&mut self, number: u32, from: usize, out: &mut [u8]) -> Result<(), Refused> {
        self.keeps_law_at(number);
        self.read_held(number, from, out)
    }

    fn write(&mut self, number: u32, from: usize, bytes: &[u8]) -> Result<(), Refused> {
        self.keeps_law_at(number);
        let handle = self.handle_at(number);
        match Worker::write(self, handle, from, bytes) {
            Ok(()) => {
                self.keeps_law_at(number);
                Ok(())
            }
            Err(why) => Err(why),
        }
    }

    fn drop_object(&mut self, number: u32) -> Result<(), Refused> {
        self.keeps_law_at(number);
        let handle = self.handle_at(number);
        Worker::drop_object(self, handle)
    }
}
