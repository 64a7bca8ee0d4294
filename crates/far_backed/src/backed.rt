//! The worker.

ghost use Rattle.std.specs.Prelude.{◌≡◌, ◌≢◌, ◌<◌, ◌+◌, ℕ, true, false, Option, None, Some, Err, length, slice_range, IfOk, IfErr, IfSome, OnErr, OnOk, is_some, ◌≤◌};
ghost use Rattle.far_word.specs.declared.refused.Refused.{Refused as Refusal};
ghost use Rattle.far_word.specs.declared.refused.Refused.TheVariants.{Length, Memory, NoPointer, NoRoom, NotHeld, Shape};
ghost use Rattle.far_private.specs.Heap.{IsWhyNoAccess, is_length, is_logs, new_object, object_with, size_of};
ghost use Rattle.far_pool.specs.Pool.{Changes, IsWhyNoHeap, IsWhyNoWorker, IsWhyNone, Makes, NextGeneration, Same, Writes, count_in, refusal_of};
ghost use Rattle.far_private.specs.Causes.{IsFault};
ghost use Rattle.far_private.specs.Objects.{Object};
ghost use Rattle.far_backed.specs.Sides.{IsNotTakenBy, IsStuckBy};
ghost use Rattle.far_backed.specs.Named.{bytes_of, handle_of, most_heaps, object_of};

use crate::named::{named, number_of};
use crate::sides::{Side, Sides};
use far_device::Device;
use far_pool::{Handle, Layout, Worker, WorkerStatistics};
use far_word::Refused;
use std::alloc::Global;
use std::marker::Model;

/// A worker over memory, which is taken as objects go far, or reserved when it is opened. To a contract it is its objects, by number.
#[derive(Drop)]
pub struct Backed {
    worker: Worker<Side, Sides>,
}

impl Model for Backed {
    ghost use Rattle.std.specs.Prelude.{◌≡◌, true};
    ghost use Rattle.far_pool.specs.Pool.{Pool};

    ghost Value = { Pool };

    ghost view = { λ b. b.worker };

    ghost invariant = { λ b. b.worker.honest ≡ true };
}

// What bars an access of an object that is so long, if there is one.
fn bar(len: Option<u16>, from: usize, count: usize) -> Option<Refused>
    ensures bars { (o : Option Object) → size_of o ≡ len → result ≡ refusal_of o from count }
    ensures roomy { result ≢ Some NoRoom }
{
    let Some(len) = len else {
        return Some(Refused::NotHeld);
    };
    let all = len as usize;
    if count == 0 || count > all || from > all - count {
        return Some(Refused::Range);
    }
    None
}

impl Backed {
    /// A worker of the heaps of a layout, whose far objects lie in memory. Refused as [`Worker::new`] is.
    pub fn in_memory(alloc: Global, layout: Layout) -> Result<Backed, Refused>
        ensures empty { IfOk result (λ worker. (n : ℕ) → object_of worker n ≡ None) }
        ensures honest { IfOk result (λ worker. worker.honest ≡ true) }
        ensures logs { IfOk result (λ worker. worker.logs ≡ layout.logs) }
        ensures heaps { IfOk result (λ worker. length worker.shelves ≡ layout.heaps) }
        ensures many { most_heaps < layout.heaps → result ≡ Err NoPointer }
        ensures shape { layout.heaps ≤ most_heaps → is_logs layout.logs ≡ false → result ≡ Err Shape }
        ensures why { IfErr result (IsWhyNoWorker (λ why. why ≡ Memory) layout) }
    {
        match Worker::new(alloc, Sides::in_memory(alloc), layout, true) {
            Ok(worker) => Ok(Backed { worker }),
            Err(why) => Err(why),
        }
    }

    /// The same, whose far objects lie in bytes that are reserved when a heap is made: so many of each, by one call of the allocator, and never more.
    pub fn reserved(alloc: Global, layout: Layout, room: usize) -> Result<Backed, Refused>
        ensures empty { IfOk result (λ worker. (n : ℕ) → object_of worker n ≡ None) }
        ensures honest { IfOk result (λ worker. worker.honest ≡ true) }
        ensures logs { IfOk result (λ worker. worker.logs ≡ layout.logs) }
        ensures heaps { IfOk result (λ worker. length worker.shelves ≡ layout.heaps) }
        ensures many { most_heaps < layout.heaps → result ≡ Err NoPointer }
        ensures shape { layout.heaps ≤ most_heaps → is_logs layout.logs ≡ false → result ≡ Err Shape }
        ensures why { IfErr result (IsWhyNoWorker (λ why. why ≡ Memory) layout) }
    {
        match Worker::new(alloc, Sides::reserved(alloc, room), layout, true) {
            Ok(worker) => Ok(Backed { worker }),
            Err(why) => Err(why),
        }
    }

    /// Adds a heap, and answers its number: how many there were. As [`Worker::add_heap`].
    pub fn add_heap(&mut self) -> Result<u32, Refused>
        ensures same { Same self.old self.new }
        ensures more { IfOk result (λ heap. (heap ≡ length self.old.shelves) × (length self.new.shelves ≡ length self.old.shelves + 1)) }
        ensures refused { OnErr result (self.new ≡ self.old) }
        ensures full { length self.old.shelves ≡ most_heaps → result ≡ Err NoPointer }
        ensures why { IfErr result (IsWhyNoHeap (λ why. why ≡ Memory) (length self.old.shelves)) }
    {
        self.worker.add_heap()
    }

    // Makes an object of these bytes.
    fn make(&mut self, bytes: &[u8], structure: u8) -> Result<Handle, Refused>
        ensures made { IfOk result (λ handle. Makes handle (object_with self.old.honest structure bytes.now) self.old self.new) }
        ensures done { OnOk result (is_length (length bytes.now) ≡ true) }
        ensures refused { OnErr result (self.new ≡ self.old) }
        ensures long { is_length (length bytes.now) ≡ false → result ≡ Err Length }
        ensures why { IfErr result (λ why. IsWhyNone (length bytes.now) why) }
        ensures room { result ≡ Err NoRoom → 3 ≤ self.old.logs → IsStuckBy ⟦<Side as Device>⟧.writes self.old }
    {
        self.worker.alloc(bytes, structure)
    }

    // The same of so many zeros.
    fn make_zeros(&mut self, len: u16, structure: u8) -> Result<Handle, Refused>
        ensures made { IfOk result (λ handle. Makes handle (new_object self.old.honest len structure) self.old self.new) }
        ensures done { OnOk result (is_length len ≡ true) }
        ensures refused { OnErr result (self.new ≡ self.old) }
        ensures long { is_length len ≡ false → result ≡ Err Length }
        ensures why { IfErr result (λ why. IsWhyNone len why) }
        ensures room { result ≡ Err NoRoom → 3 ≤ self.old.logs → IsStuckBy ⟦<Side as Device>⟧.writes self.old }
    {
        self.worker.alloc_zeros(len, structure)
    }

    /// Makes an object of these bytes, and answers its number, which named none. As [`Worker::alloc`].
    pub fn alloc(&mut self, bytes: &[u8], structure: u8) -> Result<u64, Refused>
        ensures made { IfOk result (λ n. Makes (handle_of n) (object_with self.old.honest structure bytes.now) self.old self.new) }
        ensures done { OnOk result (is_length (length bytes.now) ≡ true) }
        ensures refused { OnErr result (self.new ≡ self.old) }
        ensures long { is_length (length bytes.now) ≡ false → result ≡ Err Length }
        ensures why { IfErr result (λ why. IsWhyNone (length bytes.now) why) }
        ensures room { result ≡ Err NoRoom → 3 ≤ self.old.logs → IsStuckBy ⟦<Side as Device>⟧.writes self.old }
    {
        match self.make(bytes, structure) {
            Ok(handle) => Ok(number_of(handle)),
            Err(why) => Err(why),
        }
    }

    /// The same of so many zeros. As [`Worker::alloc_zeros`].
    pub fn alloc_zeros(&mut self, len: u16, structure: u8) -> Result<u64, Refused>
        ensures made { IfOk result (λ n. Makes (handle_of n) (new_object self.old.honest len structure) self.old self.new) }
        ensures done { OnOk result (is_length len ≡ true) }
        ensures refused { OnErr result (self.new ≡ self.old) }
        ensures long { is_length len ≡ false → result ≡ Err Length }
        ensures why { IfErr result (λ why. IsWhyNone len why) }
        ensures room { result ≡ Err NoRoom → 3 ≤ self.old.logs → IsStuckBy ⟦<Side as Device>⟧.writes self.old }
    {
        match self.make_zeros(len, structure) {
            Ok(handle) => Ok(number_of(handle)),
            Err(why) => Err(why),
        }
    }

    /// Reads bytes of an object, from one on, as many as `out` has. As [`Worker::read`].
    pub fn read(&mut self, number: u64, from: usize, out: &mut [u8]) -> Result<(), Refused>
        ensures same { self.new ≡ self.old }
        ensures long { length out.new ≡ length out.old }
        ensures read { OnOk result (IfSome (bytes_of self.old number) (λ bytes. out.new ≡ slice_range bytes from (from + length out.old))) }
        ensures done { OnOk result (refusal_of (object_of self.old number) from (length out.old) ≡ None) }
        ensures barred { (why : Refusal) → refusal_of (object_of self.old number) from (length out.old) ≡ Some why → result ≡ Err why }
        ensures why { IfErr result (λ why. IsWhyNoAccess self.old.honest (refusal_of (object_of self.old number) from (length out.old)) why) }
        ensures fault { refusal_of (object_of self.old number) from (length out.old) ≡ None → IfErr result (λ why. IsFault why) }
        ensures kept { OnErr result (out.new ≡ out.old) }
    {
        let handle = named(number);
        self.worker.read(handle, from, out)
    }

    /// Writes bytes over those of an object, from one on. Refused as [`Backed::read`] is.
    pub fn write(&mut self, number: u64, from: usize, bytes: &[u8]) -> Result<(), Refused>
        ensures written { OnOk result (Writes (handle_of number) from bytes.now self.old self.new) }
        ensures done { OnOk result (refusal_of (object_of self.old number) from (length bytes.now) ≡ None) }
        ensures refused { OnErr result (self.new ≡ self.old) }
        ensures barred { (why : Refusal) → refusal_of (object_of self.old number) from (length bytes.now) ≡ Some why → result ≡ Err why }
        ensures why { IfErr result (λ why. IsWhyNoAccess self.old.honest (refusal_of (object_of self.old number) from (length bytes.now)) why) }
        ensures room { result ≡ Err NoRoom → 3 ≤ self.old.logs → IsNotTakenBy ⟦<Side as Device>⟧.writes self.old (handle_of number).heap }
    {
        let handle = named(number);
        self.worker.write(handle, from, bytes)
    }

    /// Writes bytes over those of an object, from one on, and gives back in their place those that it had there: a read and a write. Refused as these are, and [`Refused::Memory`] where there is none
    /// for as many bytes again; then `bytes` is as it was.
    pub fn exchange(
        &mut self,
        alloc: Global,
        number: u64,
        from: usize,
        bytes: &mut [u8],
    ) -> Result<(), Refused>
        ensures written { OnOk result (Writes (handle_of number) from bytes.old self.old self.new) }
        ensures given { OnOk result (IfSome (bytes_of self.old number) (λ all. bytes.new ≡ slice_range all from (from + length bytes.old))) }
        ensures done { OnOk result (refusal_of (object_of self.old number) from (length bytes.old) ≡ None) }
        ensures refused { OnErr result (self.new ≡ self.old) }
        ensures kept { OnErr result (bytes.new ≡ bytes.old) }
        ensures barred { (why : Refusal) → refusal_of (object_of self.old number) from (length bytes.old) ≡ Some why → result ≡ Err why }
        ensures why { IfErr result (λ why. IsWhyNoAccess self.old.honest (refusal_of (object_of self.old number) from (length bytes.old)) why) }
        ensures room { result ≡ Err NoRoom → 3 ≤ self.old.logs → IsNotTakenBy ⟦<Side as Device>⟧.writes self.old (handle_of number).heap }
    {
        if let Some(why) = bar(self.len_of(number), from, bytes.len()) {
            return Err(why);
        }
        let Ok(mut other) = Vec::from_slice(alloc, bytes) else {
            return Err(Refused::Memory);
        };
        if let Err(why) = self.read(number, from, other.as_mut_slice()) {
            return Err(why);
        }
        if let Err(why) = self.write(number, from, bytes) {
            return Err(why);
        }
        bytes.copy_from_slice(other.as_slice());
        Ok(())
    }

    /// Drops an object. Refused [`Refused::NotHeld`] alone, exactly where there is none.
    pub fn drop_object(&mut self, number: u64) -> Result<(), Refused>
        ensures dropped { OnOk result ((is_some (object_of self.old number) ≡ true) × Changes (handle_of number) None self.old self.new × NextGeneration (handle_of number) self.old self.new) }
        ensures refused { IfErr result (λ why. (why ≡ NotHeld) × (object_of self.old number ≡ None) × (self.new ≡ self.old)) }
    {
        let handle = named(number);
        self.worker.drop_object(handle)
    }

    /// How many bytes an object has, 1 to 4,088; `None` exactly where there is none. Nothing is fetched.
    pub fn len_of(&self, number: u64) -> Option<u16>
        ensures { result ≡ size_of (object_of self.now number) }
    {
        let handle = named(number);
        self.worker.len_of(handle)
    }

    /// Whether there is an object. Nothing is fetched.
    pub fn holds(&self, number: u64) -> bool
        ensures { result ≡ is_some (object_of self.now number) }
    {
        let handle = named(number);
        self.worker.holds(handle)
    }

    /// What the worker has, and what it has done. It looks at each heap.
    pub fn statistics(&self) -> WorkerStatistics
        ensures objects { result.near + result.far ≡ count_in self.now }
        ensures heaps { result.heaps ≡ length self.now.shelves }
    {
        self.worker.statistics()
    }
}
