//! Heaps that one thread wholly owns, by handles.

ghost use Rattle.std.specs.Prelude.{◌≡◌, ◌<◌, ◌+◌, ◌≤◌, ◌⊎◌, ℕ, List, true, false, None, Some, Err, length, slice_range, IfOk, IfErr, IfSome, OnErr, OnOk, vec_len, []};
ghost use Rattle.std.specs.Fn.{FnOnceReturnsAtMut, FnOnceTakesAtMut};
ghost use Rattle.std.specs.Vec.{vec_capacity};
ghost use Rattle.far_word.specs.declared.refused.Refused.{Refused as Refusal};
ghost use Rattle.far_word.specs.declared.refused.Refused.TheVariants.{Length, Memory, NoPointer, NoRoom, NotHeld, Shape};
ghost use Rattle.far_private.specs.Causes.{IsFault, IsNotGiven};
ghost use Rattle.far_private.specs.Heap.{IsWell, IsWhyNoAccess, is_length, is_logs, new_object, object_with, size_of, structure_of};
ghost use Rattle.far_pool.specs.declared.handle.Handle.{Handle as AnyHandle};
ghost use Rattle.far_pool.specs.Pool.{Changes, IsWhyNoHeap, IsWhyNoWorker, IsWhyNone, IsWhyNotWhole, Makes, NextGeneration, Same, Updates, Writes, at, bytes_at, generation_in, generation_on, has, len_at, object_on, refusal_of};
ghost use Rattle.far_pool.specs.Rooms.{IsNotTaken, IsStuck};
ghost use Rattle.far_pool.specs.Numbers.{IsOfHeaps};
ghost use Rattle.far_pool.specs.declared.worker.TheConstants.{MOST_HEAPS};

mod handles;
mod objects;
mod telling;

use crate::counted::Counted;
use crate::handle::Handle;
use crate::maker::MakeDevice;
use crate::plan::Layout;
use far_device::Device;
use far_private::PrivateHeap;
use far_word::{LONGEST, Refused};
pub use handles::Handles;
use std::alloc::Global;
use std::collections::VecDeque;
use std::marker::{Model, PhantomData};

// What a worker has.
#[derive(Drop)]
struct Parts<D: Device + Drop, M: MakeDevice<D> + Drop> {
    alloc: Global,
    maker: M,
    logs: u64,
    honest: bool,
    shelves: Vec<Counted<D>>,
    // The heaps that may have a free pointer, each once, the next first. Nothing that is promised rests on it.
    open: VecDeque<u32>,
    // How often an object was to be read, written or updated, by handle or by number, whether or not it was.
    accesses: u64,
}

/// The most heaps of a worker.
const MOST_HEAPS: u32 = 2_097_152;

/// Heaps that one thread wholly owns. To a contract it is its objects, by handle.
#[derive(Drop)]
pub struct Worker<D: Device + Drop, M: MakeDevice<D> + Drop> {
    parts: Parts<D, M>,
}

impl<D: Device + Drop, M: MakeDevice<D> + Drop> Model for Worker<D, M> {
    ghost use Rattle.std.specs.Prelude.{◌≡◌, ◌≤◌, length, true};
    ghost use Rattle.far_pool.specs.declared.worker.TheConstants.{MOST_HEAPS};
    ghost use Rattle.far_private.specs.Heap.{is_logs};
    ghost use Rattle.far_pool.specs.Pool.{AreAlike, Pool};

    ghost Value = { Pool };

    ghost view = { λ w. record { honest = w.parts.honest; logs = w.parts.logs; shelves = w.parts.shelves.items } };

    ghost invariant = { λ w. AreAlike w.parts.honest w.parts.logs w.parts.shelves.items × (w.parts.honest ≡ true → M.honest ≡ true) × (length w.parts.shelves.items ≤ MOST_HEAPS) × (is_logs w.parts.logs ≡ true) };
}

impl<D: Device + Drop, M: MakeDevice<D> + Drop> Worker<D, M> {
    /// A worker of the heaps of a layout, each over a device that `maker` makes. `honest` says that these give back what they were given, and may
    /// be true only of a maker that is proved so; else nothing is promised of bytes.
    ///
    /// Refused, in this order: [`Refused::NoPointer`] where there would be more than 2,097,152 heaps, [`Refused::Shape`] where they would have less than 2 logs or more
    /// than 64, and then, in the midst of making them, as `maker` refuses, and [`Refused::Memory`].
    pub fn new(
        alloc: Global,
        maker: M,
        layout: Layout,
        honest: bool,
    ) -> Result<Worker<D, M>, Refused>
        requires honest { honest ≡ true → M.honest ≡ true }
        ensures empty { IfOk result (λ worker. (h : AnyHandle) → at worker h ≡ None) }
        ensures zero { IfOk result (λ worker. (h : AnyHandle) → generation_in worker h ≡ 0) }
        ensures honest { IfOk result (λ worker. worker.honest ≡ honest) }
        ensures logs { IfOk result (λ worker. worker.logs ≡ layout.logs) }
        ensures heaps { IfOk result (λ worker. length worker.shelves ≡ layout.heaps) }
        ensures many { MOST_HEAPS < layout.heaps → result ≡ Err NoPointer }
        ensures shape { layout.heaps ≤ MOST_HEAPS → is_logs layout.logs ≡ false → result ≡ Err Shape }
        ensures why { IfErr result (IsWhyNoWorker M.refuses layout) }
    {
        if layout.heaps > MOST_HEAPS {
            return Err(Refused::NoPointer);
        }
        if layout.logs < 2 || layout.logs > 64 {
            return Err(Refused::Shape);
        }
        let mut worker = Worker::without_heaps(alloc, maker, layout.logs, honest);
        for number in 0..layout.heaps {
            match worker.add_heap() {
                Ok(_) => {}
                Err(why) => return Err(why),
            }
        }
        Ok(worker)
    }

    // A worker that has no heap.
    fn without_heaps(alloc: Global, maker: M, logs: u64, honest: bool) -> Worker<D, M>
        requires honest { honest ≡ true → M.honest ≡ true }
        requires shape { is_logs logs ≡ true }
        ensures empty { (h : AnyHandle) → at result h ≡ None }
        ensures zero { (h : AnyHandle) → generation_in result h ≡ 0 }
        ensures honest { result.honest ≡ honest }
        ensures logs { result.logs ≡ logs }
        ensures none { length result.shelves ≡ 0 }
    {
        Worker {
            parts: Parts {
                alloc,
                maker,
                logs,
                honest,
                shelves: Vec::new(alloc),
                open: VecDeque::new(alloc),
                accesses: 0,
            },
        }
    }

    /// Adds a heap behind those that there are, and answers its number. No object changes.
    ///
    /// Refused, in this order: [`Refused::NoPointer`] where there are 2,097,152 heaps; as the maker of devices refuses; [`Refused::Memory`].
    pub fn add_heap(&mut self) -> Result<u32, Refused>
        ensures same { Same self.old self.new }
        ensures more { IfOk result (λ heap. (heap ≡ length self.old.shelves) × (length self.new.shelves ≡ length self.old.shelves + 1)) }
        ensures refused { OnErr result (self.new ≡ self.old) }
        ensures full { length self.old.shelves ≡ MOST_HEAPS → result ≡ Err NoPointer }
        ensures why { IfErr result (IsWhyNoHeap M.refuses (length self.old.shelves)) }
    {
        let Ok(number) = u32::try_from(self.parts.shelves.len()) else {
            return Err(Refused::NoPointer);
        };
        if number >= MOST_HEAPS {
            return Err(Refused::NoPointer);
        }
        match self.new_shelf(number) {
            Ok(shelf) => self.add_shelf(number, shelf),
            Err(why) => Err(why),
        }
    }

    // A heap of a number, without an object.
    fn new_shelf(&mut self, number: u32) -> Result<Counted<D>, Refused>
        ensures same { self.new ≡ self.old }
        ensures empty { IfOk result (λ c. (p : ℕ) → object_on c p ≡ None) }
        ensures zero { IfOk result (λ c. (p : ℕ) → generation_on c p ≡ 0) }
        ensures honest { IfOk result (λ c. c.honest ≡ self.old.honest) }
        ensures logs { IfOk result (λ c. c.logs ≡ self.old.logs) }
        ensures why { IfErr result (λ why. (why ≡ Memory) ⊎ M.refuses why) }
    {
        let device = match self.parts.maker.make(number) {
            Ok(device) => device,
            Err(why) => return Err(why),
        };
        let heap = match PrivateHeap::new(
            self.parts.alloc,
            self.parts.logs,
            self.parts.honest,
            device,
        ) {
            Ok(heap) => heap,
            Err(why) => return Err(why),
        };
        Counted::new(self.parts.alloc, heap)
    }

    // Puts a new heap behind the others.
    fn add_shelf(&mut self, number: u32, shelf: Counted<D>) -> Result<u32, Refused>
        requires few { length self.old.shelves < MOST_HEAPS }
        requires number { number ≡ length self.old.shelves }
        requires empty { (p : ℕ) → object_on shelf p ≡ None }
        requires zero { (p : ℕ) → generation_on shelf p ≡ 0 }
        requires honest { shelf.honest ≡ self.old.honest }
        requires logs { shelf.logs ≡ self.old.logs }
        ensures same { Same self.old self.new }
        ensures more { IfOk result (λ heap. (heap ≡ length self.old.shelves) × (length self.new.shelves ≡ length self.old.shelves + 1)) }
        ensures refused { OnErr result (self.new ≡ self.old) }
        ensures why { IfErr result (λ why. why ≡ Memory) }
    {
        // There is room for all heaps then, so that none is left out where a drop puts it back.
        let Ok(()) = self.parts.open.reserve(number as usize + 1) else {
            return Err(Refused::Memory);
        };
        let Ok(()) = self.parts.open.push_back(number) else {
            return Err(Refused::Memory);
        };
        let Ok(()) = self.parts.shelves.push(shelf) else {
            let _ = self.parts.open.pop_back();
            return Err(Refused::Memory);
        };
        Ok(number)
    }

    // The heap whose turn it is.
    fn next_heap(&mut self) -> Option<u32>
        ensures same { self.new ≡ self.old }
        ensures there { IfSome result (λ heap. heap < length self.new.shelves) }
    {
        let Some(heap) = self.parts.open.pop_front() else {
            return None;
        };
        let _ = self.parts.open.push_back(heap);
        if heap as usize >= self.parts.shelves.len() {
            return None;
        }
        Some(heap)
    }

    // Makes an object of zeros in a heap, which leaves the turn if that was its last pointer.
    fn alloc_zeros_in(&mut self, heap: u32, len: u16, structure: u8) -> Result<Handle, Refused>
        requires { heap < length self.old.shelves }
        ensures made { IfOk result (λ handle. Makes handle (new_object self.old.honest len structure) self.old self.new) }
        ensures inside { IfOk result (λ handle. IsOfHeaps MOST_HEAPS handle) }
        ensures done { OnOk result (is_length len ≡ true) }
        ensures refused { OnErr result (self.new ≡ self.old) }
        ensures why { IfErr result (λ why. IsWhyNone len why) }
        ensures room { result ≡ Err NoRoom → 3 ≤ self.old.logs → IsNotTaken D D.writes self.old heap }
    {
        let at = heap as usize;
        match self.parts.shelves[at].alloc_zeros(len, structure) {
            Ok(slot) => {
                if self.parts.shelves[at].is_full() {
                    let _ = self.parts.open.pop_back();
                }
                Ok(Handle {
                    heap,
                    pointer: slot.0,
                    generation: slot.1,
                })
            }
            Err(why) => Err(why),
        }
    }

    // The same of an object of these bytes.
    fn alloc_in(&mut self, heap: u32, bytes: &[u8], structure: u8) -> Result<Handle, Refused>
        requires { heap < length self.old.shelves }
        ensures made { IfOk result (λ handle. Makes handle (object_with self.old.honest structure bytes.now) self.old self.new) }
        ensures inside { IfOk result (λ handle. IsOfHeaps MOST_HEAPS handle) }
        ensures done { OnOk result (is_length (length bytes.now) ≡ true) }
        ensures refused { OnErr result (self.new ≡ self.old) }
        ensures why { IfErr result (λ why. IsWhyNone (length bytes.now) why) }
        ensures room { result ≡ Err NoRoom → 3 ≤ self.old.logs → IsNotTaken D D.writes self.old heap }
    {
        let at = heap as usize;
        match self.parts.shelves[at].alloc(bytes, structure) {
            Ok(slot) => {
                if self.parts.shelves[at].is_full() {
                    let _ = self.parts.open.pop_back();
                }
                Ok(Handle {
                    heap,
                    pointer: slot.0,
                    generation: slot.1,
                })
            }
            Err(why) => Err(why),
        }
    }

    /// Makes a new object of `len` zero bytes, 1 to 4,088, for a data structure, a number of the program's own choice. Its handle had no object.
    ///
    /// Refused, in this order: [`Refused::Length`] exactly where the length is out of range; [`Refused::NoPointer`] where each heap has 2,048 objects, and then `add_heap`
    /// makes room for more; [`Refused::NoRoom`] where the heap whose turn it is has none: of three logs a heap or more only where a device refused to
    /// take an object of some heap; [`Refused::EpochsSpent`] once 2^62 rounds were made. The next call is another heap's.
    pub fn alloc_zeros(&mut self, len: u16, structure: u8) -> Result<Handle, Refused>
        ensures made { IfOk result (λ handle. Makes handle (new_object self.old.honest len structure) self.old self.new) }
        ensures inside { IfOk result (λ handle. IsOfHeaps MOST_HEAPS handle) }
        ensures done { OnOk result (is_length len ≡ true) }
        ensures refused { OnErr result (self.new ≡ self.old) }
        ensures long { is_length len ≡ false → result ≡ Err Length }
        ensures why { IfErr result (λ why. IsWhyNone len why) }
        ensures room { result ≡ Err NoRoom → 3 ≤ self.old.logs → IsStuck D D.writes self.old }
    {
        if len == 0 || len > LONGEST {
            return Err(Refused::Length);
        }
        let Some(heap) = self.next_heap() else {
            return Err(Refused::NoPointer);
        };
        self.alloc_zeros_in(heap, len, structure)
    }

    /// Makes a new object of these bytes, as [`Worker::alloc_zeros`] does.
    pub fn alloc(&mut self, bytes: &[u8], structure: u8) -> Result<Handle, Refused>
        ensures made { IfOk result (λ handle. Makes handle (object_with self.old.honest structure bytes.now) self.old self.new) }
        ensures inside { IfOk result (λ handle. IsOfHeaps MOST_HEAPS handle) }
        ensures done { OnOk result (is_length (length bytes.now) ≡ true) }
        ensures refused { OnErr result (self.new ≡ self.old) }
        ensures long { is_length (length bytes.now) ≡ false → result ≡ Err Length }
        ensures why { IfErr result (λ why. IsWhyNone (length bytes.now) why) }
        ensures room { result ≡ Err NoRoom → 3 ≤ self.old.logs → IsStuck D D.writes self.old }
    {
        if bytes.len() == 0 || bytes.len() > LONGEST as usize {
            return Err(Refused::Length);
        }
        let Some(heap) = self.next_heap() else {
            return Err(Refused::NoPointer);
        };
        self.alloc_in(heap, bytes, structure)
    }

    /// Reads bytes of an object, from one on, as many as `out` has: as they were written last, if the devices are honest. A far one is read where it lies, and comes near
    /// once it is read again of late and room can be made for it.
    ///
    /// Refused, in this order: [`Refused::NotHeld`] exactly where the worker hasn't got the object, as of a handle whose object was dropped; [`Refused::Range`] exactly
    /// where `out` has no byte or they pass the object's end; and then only [`Refused::Memory`] or [`Refused::Device`] where the device, asked for this object, failed so,
    /// and [`Refused::Damaged`] where it gave more or fewer bytes, which no honest one does. `out` is as it was then.
    #[inline(always)]
    pub fn read(&mut self, handle: Handle, from: usize, out: &mut [u8]) -> Result<(), Refused>
        ensures same { self.new ≡ self.old }
        ensures long { length out.new ≡ length out.old }
        ensures read { OnOk result (IfSome (bytes_at self.old handle) (λ bytes. out.new ≡ slice_range bytes from (from + length out.old))) }
        ensures done { OnOk result (refusal_of (at self.old handle) from (length out.old) ≡ None) }
        ensures barred { (why : Refusal) → refusal_of (at self.old handle) from (length out.old) ≡ Some why → result ≡ Err why }
        ensures why { IfErr result (λ why. IsWhyNoAccess self.old.honest (refusal_of (at self.old handle) from (length out.old)) why) }
        ensures fault { refusal_of (at self.old handle) from (length out.old) ≡ None → IfErr result (λ why. IsFault why) }
        ensures given { IfErr result (λ why. IsNotGiven D D.reads handle.pointer (len_at self.old handle) why) }
        ensures kept { OnErr result (out.new ≡ out.old) }
    {
        self.parts.accesses = self.parts.accesses.wrapping_add(1);
        let at = handle.heap as usize;
        if at >= self.parts.shelves.len() {
            return Err(Refused::NotHeld);
        }
        self.parts.shelves[at].read(handle.pointer, handle.generation, from, out)
    }

    /// Writes bytes over those of an object, from one on, which comes near for it. Refused as [`Worker::read`] is, and [`Refused::NoRoom`] or [`Refused::EpochsSpent`] as
    /// `alloc`, of the handle's heap; then nothing has changed.
    #[inline(always)]
    pub fn write(&mut self, handle: Handle, from: usize, bytes: &[u8]) -> Result<(), Refused>
        ensures written { OnOk result (Writes handle from bytes.now self.old self.new) }
        ensures done { OnOk result (refusal_of (at self.old handle) from (length bytes.now) ≡ None) }
        ensures refused { OnErr result (self.new ≡ self.old) }
        ensures barred { (why : Refusal) → refusal_of (at self.old handle) from (length bytes.now) ≡ Some why → result ≡ Err why }
        ensures why { IfErr result (λ why. IsWhyNoAccess self.old.honest (refusal_of (at self.old handle) from (length bytes.now)) why) }
        ensures room { result ≡ Err NoRoom → 3 ≤ self.old.logs → IsNotTaken D D.writes self.old handle.heap }
        ensures given { IfErr result (λ why. IsNotGiven D D.reads handle.pointer (len_at self.old handle) why) }
    {
        self.parts.accesses = self.parts.accesses.wrapping_add(1);
        let at = handle.heap as usize;
        if at >= self.parts.shelves.len() {
            return Err(Refused::NotHeld);
        }
        self.parts.shelves[at].write(handle.pointer, handle.generation, from, bytes)
    }

    /// Reads bytes of an object, from one on, as many as there is room for, has them changed by one call of `change`, and writes them back: one access, where
    /// [`Worker::read`] and [`Worker::write`] are two. `bytes` has what was written then. Refused as [`Worker::write`] is; then nothing has changed, and `change` wasn't
    /// called.
    pub fn update<F: FnOnce(&mut [u8])>(
        &mut self,
        handle: Handle,
        from: usize,
        bytes: &mut [u8],
        change: F,
    ) -> Result<(), Refused>
        requires takes { (read : List ℕ) → length read ≡ length bytes.old → FnOnceTakesAtMut F.FnOnce change read }
        ensures changed { OnOk result (Updates (FnOnceReturnsAtMut F.FnOnce change) handle from (length bytes.old) bytes.new self.old self.new) }
        ensures done { OnOk result (refusal_of (at self.old handle) from (length bytes.old) ≡ None) }
        ensures refused { OnErr result (self.new ≡ self.old) }
        ensures kept { OnErr result (bytes.new ≡ bytes.old) }
        ensures barred { (why : Refusal) → refusal_of (at self.old handle) from (length bytes.old) ≡ Some why → result ≡ Err why }
        ensures why { IfErr result (λ why. IsWhyNoAccess self.old.honest (refusal_of (at self.old handle) from (length bytes.old)) why) }
        ensures room { result ≡ Err NoRoom → 3 ≤ self.old.logs → IsNotTaken D D.writes self.old handle.heap }
        ensures given { IfErr result (λ why. IsNotGiven D D.reads handle.pointer (len_at self.old handle) why) }
    {
        self.parts.accesses = self.parts.accesses.wrapping_add(1);
        let at = handle.heap as usize;
        if at >= self.parts.shelves.len() {
            return Err(Refused::NotHeld);
        }
        self.parts.shelves[at].update(handle.pointer, handle.generation, from, bytes, change)
    }

    /// Reads an object whole into `out`, in place of the bytes that `out` had: one buffer serves many reads, and grows to the longest. It is one access.
    ///
    /// Refused, in this order: [`Refused::NotHeld`] exactly where the worker hasn't got the object; [`Refused::Memory`] where `out` has too little room and can't
    /// grow; and then as [`Worker::read`]. `out` is empty then.
    pub fn read_into(&mut self, handle: Handle, out: &mut Vec<u8>) -> Result<(), Refused>
        ensures same { self.new ≡ self.old }
        ensures read { OnOk result (IfSome (bytes_at self.old handle) (λ bytes. out.new.items ≡ bytes)) }
        ensures len { OnOk result (size_of (at self.old handle) ≡ Some (vec_len out.new)) }
        ensures refused { OnErr result (out.new.items ≡ []) }
        ensures barred { at self.old handle ≡ None → result ≡ Err NotHeld }
        ensures why { IfErr result (λ why. IsWhyNotWhole self.old.honest (at self.old handle) why) }
        ensures fault { has self.old handle ≡ true → IfErr result (λ why. IsFault why) }
        ensures given { IfErr result (λ why. (why ≡ Memory → len_at self.old handle ≤ vec_capacity out.old) → IsNotGiven D D.reads handle.pointer (len_at self.old handle) why) }
        ensures room { vec_capacity out.old ≤ vec_capacity out.new }
    {
        self.parts.accesses = self.parts.accesses.wrapping_add(1);
        let at = handle.heap as usize;
        if at >= self.parts.shelves.len() {
            out.clear();
            return Err(Refused::NotHeld);
        }
        self.parts.shelves[at].read_into(handle.pointer, handle.generation, out)
    }

    /// Drops an object. From then on its handle is refused, until its pointer was given 65,536 times more. Refused [`Refused::NotHeld`] alone, exactly where the worker
    /// hasn't got the object; nothing has changed then.
    pub fn drop_object(&mut self, handle: Handle) -> Result<(), Refused>
        ensures dropped { OnOk result ((has self.old handle ≡ true) × Changes handle None self.old self.new × NextGeneration handle self.old self.new) }
        ensures refused { IfErr result (λ why. (why ≡ NotHeld) × (at self.old handle ≡ None) × (self.new ≡ self.old)) }
    {
        let at = handle.heap as usize;
        if at >= self.parts.shelves.len() {
            return Err(Refused::NotHeld);
        }
        let was_full = self.parts.shelves[at].is_full();
        match self.parts.shelves[at].drop_object(handle.pointer, handle.generation) {
            Ok(()) => {
                if was_full {
                    let _ = self.parts.open.push_back(handle.heap);
                }
                Ok(())
            }
            Err(why) => Err(why),
        }
    }

    /// How many bytes an object has, 1 to 4,088; `None` exactly where the worker hasn't got it. Nothing is fetched.
    #[inline(always)]
    pub fn len_of(&self, handle: Handle) -> Option<u16>
        ensures { result ≡ size_of (at self.now handle) }
    {
        let at = handle.heap as usize;
        if at >= self.parts.shelves.len() {
            return None;
        }
        self.parts.shelves[at].len_of(handle.pointer, handle.generation)
    }

    /// Of which data structure an object is; `None` exactly where the worker hasn't got it. Nothing is fetched.
    pub fn structure_of(&self, handle: Handle) -> Option<u8>
        ensures { result ≡ structure_of (at self.now handle) }
    {
        let at = handle.heap as usize;
        if at >= self.parts.shelves.len() {
            return None;
        }
        self.parts.shelves[at].structure_of(handle.pointer, handle.generation)
    }

    /// Whether the worker has an object. Nothing is fetched.
    pub fn holds(&self, handle: Handle) -> bool
        ensures { result ≡ has self.now handle }
    {
        let at = handle.heap as usize;
        if at >= self.parts.shelves.len() {
            return false;
        }
        self.parts.shelves[at].holds(handle.pointer, handle.generation)
    }

    /// An object has 1 to 4,088 bytes, which are known where the devices are honest. The call does nothing.
    #[inline(always)]
    pub fn keeps_law(&self, handle: Handle)
        ensures well { IsWell self.now.honest (at self.now handle) }
    {
        let at = handle.heap as usize;
        if at < self.parts.shelves.len() {
            self.parts.shelves[at].keeps_law();
        }
    }
}
