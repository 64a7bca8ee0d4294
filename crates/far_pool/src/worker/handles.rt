//! The handles of a worker's objects, each once.

ghost use Rattle.std.specs.Prelude.{◌≡◌, ◌+◌, ◌*◌, ◌-◌, ◌<◌, ◌≤◌, true, None, IfNone, IfSome, length};
ghost use Rattle.std.specs.Iterator.{at_most};
ghost use Rattle.far_word.specs.declared.sizes.TheConstants.{POINTERS};
ghost use Rattle.far_pool.specs.Pool.{IsFirst, at, has, place_of};
ghost use Rattle.far_pool.specs.declared.handle.Handle.{Handle as AnyHandle};

use crate::handle::Handle;
use crate::maker::MakeDevice;
use crate::worker::Worker;
use far_device::Device;
use far_word::POINTERS;

/// The handles of a worker's objects: each once, by heap and pointer.
#[derive(Drop)]
pub struct Handles<'a, D: Device + Drop, M: MakeDevice<D> + Drop> {
    worker: &'a Worker<D, M>,
    // The pointers of all heaps in a row: the first of them that was not told.
    place: u64,
}

impl<D: Device + Drop, M: MakeDevice<D> + Drop> Worker<D, M> {
    /// The handle of each object, once, by heap and pointer. Nothing is fetched.
    pub fn handles(&self) -> Handles<'_, D, M>
        ensures all { result.worker.now ≡ self.now }
        ensures first { result.place ≡ 0 }
    {
        Handles {
            worker: self,
            place: 0,
        }
    }
}

impl<D: Device + Drop, M: MakeDevice<D> + Drop> Worker<D, M> {
    // The first handle of a heap from a pointer on.
    fn first_on(&self, heap: u32, from: u16) -> Option<Handle>
        requires { heap < length self.now.shelves }
        ensures found { IfSome result (λ h. (h.heap ≡ heap) × (from ≤ h.pointer) × (h.pointer < POINTERS) × (has self.now h ≡ true) × ((k : AnyHandle) → k.heap ≡ heap → from ≤ k.pointer → k.pointer < h.pointer → at self.now k ≡ None)) }
        ensures none { IfNone result ((k : AnyHandle) → k.heap ≡ heap → from ≤ k.pointer → k.pointer < POINTERS → at self.now k ≡ None) }
    {
        let shelf = &self.parts.shelves[heap as usize];
        match shelf.next_from(from) {
            Some(pointer) => {
                let generation = shelf.generation_of(pointer);
                Some(Handle {
                    heap,
                    pointer,
                    generation,
                })
            }
            None => None,
        }
    }

    // The first handle from a place on.
    fn first_from(&self, place: u64) -> Option<Handle>
        ensures first { IsFirst self.now place result }
        ensures inside { IfSome result (λ h. (h.heap < length self.now.shelves) × (h.pointer < POINTERS)) }
    {
        let mut from = (place % POINTERS as u64) as u16;
        for heap in place / POINTERS as u64..self.heaps() as u64 {
            if let Some(handle) = self.first_on(heap as u32, from) {
                return Some(handle);
            }
            from = 0;
        }
        None
    }
}

impl<'a, D: Device + Drop, M: MakeDevice<D> + Drop> Iterator for Handles<'a, D, M> {
    type Item = Handle;

    ghost next_gives = { λ s h t. IsFirst s.worker.now s.place h × (t.worker.now ≡ s.worker.now) × IfSome h (λ x. t.place ≡ place_of x + 1) };

    ghost remaining = { λ s. at_most (length s.worker.now.shelves * POINTERS - s.place) };

    fn next(&mut self) -> Option<Handle> {
        match self.worker.first_from(self.place) {
            Some(handle) => {
                self.place = handle.heap as u64 * POINTERS as u64 + handle.pointer as u64 + 1;
                Some(handle)
            }
            None => None,
        }
    }
}
