//! The heap as its thread holds it.

ghost use Rattle.std.specs.Prelude.{◌≡◌, ◌<◌, ◌≤◌, ◌+◌, ℕ, true, false, cond, None, Some, Err, IsSome, IfOk, IfErr, IfSome, OnErr, OnOk, length, slice_range};
ghost use Rattle.far_word.specs.declared.refused.Refused.{Refused as Refusal};
ghost use Rattle.far_word.specs.declared.refused.Refused.TheVariants.{Length, NoPointer, NoRoom, NotHeld};
ghost use Rattle.far_word.specs.declared.sizes.TheConstants.{POINTERS};
ghost use Rattle.std.specs.Option.{option_map};
ghost use Rattle.far_private.specs.Causes.{IsFault, IsNotGiven, IsNotTaken};
ghost use Rattle.far_private.specs.Objects.{rewritten};
ghost use Rattle.far_private.specs.Heap.{HeapLaw, IsFull, IsWhyNoAccess, IsWhyNoObject, access_refusal, bytes_in, is_length, len_in, object, with_new, with_written, without, new_object, is_logs};

mod calls;

use crate::cells::core_of;
use crate::free_pointers::FreePointers;
use crate::glances::Glances;
use crate::places::{drop_used, free_pointer, place_new};
use crate::ranges::{read_range, write_range};
use far_book::{Book, Plain};
use far_core::{Core, Shape};
use far_device::Device;
use far_evac::Evac;
use far_word::{LONGEST, Refused};
use std::alloc::Global;
use std::marker::Model;

/// A heap of 2,048 pointers that one thread wholly owns.
#[derive(Drop)]
pub struct PrivateHeap<D: Device + Drop> {
    evac: Evac<Plain, D>,
    // The pointers that have no object. The lowest is given to the next one.
    free: FreePointers,
    // Which far objects were read of late where they lie: one that is read again comes near.
    glances: Glances,
}

impl<D: Device + Drop> Model for PrivateHeap<D> {
    ghost use Rattle.far_private.specs.Heap.{Heap};
    ghost use Rattle.far_private.specs.HeapOf.{heap_in};
    ghost use Rattle.far_private.specs.Objects.{Settled, state_in};
    ghost use Rattle.far_hand.specs.declared.plain.Plain.{Plain};
    ghost use Rattle.far_evac.specs.EvacOf.{EvacOf};
    ghost use Rattle.far_evac.specs.declared.phase.Phase.TheVariants.{Idle};
    ghost use Rattle.std.specs.Prelude.{◌≡◌};
    ghost use Rattle.far_private.specs.FreePointers.{IsKept};

    ghost Value = { Heap };

    ghost view = { λ h. heap_in h.evac };

    // No round stands between two calls.
    ghost invariant = { λ h. IsKept (state_in h.evac) h.free × (h.evac.phase ≡ Idle) };
}

impl<D: Device + Drop> PrivateHeap<D> {
    /// A heap of so many logs, 2 to 64, without an object, over a device. `honest` says that the device gives back what it was given, and may be
    /// true only of one that is proved so; else nothing is promised of bytes.
    ///
    /// Refused, in this order: [`Refused::Shape`] exactly where `logs` is out of range, [`Refused::Memory`].
    pub fn new(alloc: Global, logs: u64, honest: bool, device: D) -> Result<PrivateHeap<D>, Refused>
        requires honest { honest ≡ true → D.honest device ≡ true }
        ensures empty { IfOk result (λ heap. (p : ℕ) → object heap p ≡ None) }
        ensures honest { IfOk result (λ heap. heap.honest ≡ honest) }
        ensures logs { IfOk result (λ heap. heap.logs ≡ logs) }
        ensures shape { IfOk result (λ _. is_logs logs ≡ true) }
        ensures refused { IfErr result (λ why. why ≡ cond (is_logs logs) Refused.Memory Refused.Shape) }
    {
        if !is_logs(logs) {
            return Err(Refused::Shape);
        }
        let shape = Shape {
            logs,
            mutators: 8,
            epoch: 0,
        };
        let Ok(core) = Core::alone(alloc, shape, honest) else {
            return Err(Refused::Memory);
        };
        let Ok(book) = Book::new(alloc, Plain { core }, device) else {
            return Err(Refused::Memory);
        };
        Ok(PrivateHeap {
            evac: Evac::new(book),
            free: FreePointers::all(),
            glances: Glances::none(),
        })
    }

    /// What holds between any two calls. The call does nothing.
    pub fn keeps_law(&self)
        ensures law { HeapLaw self.now }
    {
        self.evac.keeps_law();
    }

    /// Makes an object of `len` zeros, and answers its pointer, which had none.
    ///
    /// Refused, in this order: [`Refused::Length`] unless an object has 1 to 4,088 bytes, [`Refused::NoPointer`] where each of the
    /// 2,048 pointers has an object, and [`Refused::NoRoom`] where no log has room after so many rounds: of three logs or more only where the
    /// device refused to take an object. [`Refused::EpochsSpent`] in its place where 2^62 rounds were made. Nothing has changed then.
    // As a call of its own it takes 61 instructions more.
    #[inline(always)]
    pub fn alloc(&mut self, len: u16, structure: u8) -> Result<u16, Refused>
        ensures made { IfOk result (λ p. (p < POINTERS) × (object self.old p ≡ None) × (self.new ≡ with_new p len structure self.old)) }
        ensures object { IfOk result (λ p. object self.new p ≡ Some (new_object self.old.honest len structure)) }
        ensures done { OnOk result (is_length len ≡ true) }
        ensures refused { OnErr result (self.new ≡ self.old) }
        ensures long { is_length len ≡ false → result ≡ Err Length }
        ensures full { is_length len ≡ true → IsFull self.old → result ≡ Err NoPointer }
        ensures why { IfErr result (λ why. IsWhyNoObject self.old len why) }
        ensures room { result ≡ Err NoRoom → 3 ≤ self.old.logs → IsNotTaken D D.writes (object self.old) }
    {
        if len == 0 {
            return Err(Refused::Length);
        }
        if len > LONGEST {
            return Err(Refused::Length);
        }
        let Some(pointer) = free_pointer(&self.evac, &self.free) else {
            return Err(Refused::NoPointer);
        };
        match place_new(&mut self.evac, pointer, len, structure) {
            Ok(()) => {
                self.free.remove(pointer);
                Ok(pointer)
            }
            Err(why) => Err(why),
        }
    }

    /// Reads bytes of an object, from one on, as many as there is room for. A far one is read where it lies, and comes near once it is read again of late
    /// and room can be made for it.
    ///
    /// Refused, in this order: [`Refused::NotHeld`] where the pointer has no object, [`Refused::Range`] where no byte is asked for
    /// or one past the object's end, and then only [`Refused::Memory`] or [`Refused::Device`] where the device, asked for this object, failed so, and
    /// [`Refused::Damaged`] where it gave more or fewer bytes, which no honest one does. `out` is as it was then.
    pub fn read(&mut self, pointer: u16, from: usize, out: &mut [u8]) -> Result<(), Refused>
        ensures same { self.new ≡ self.old }
        ensures long { length out.new ≡ length out.old }
        ensures read { OnOk result (IfSome (bytes_in self.old pointer) (λ bytes. out.new ≡ slice_range bytes from (from + length out.old))) }
        ensures done { OnOk result (access_refusal self.old pointer from (length out.old) ≡ None) }
        ensures barred { (why : Refusal) → access_refusal self.old pointer from (length out.old) ≡ Some why → result ≡ Err why }
        ensures why { IfErr result (λ why. IsWhyNoAccess self.old.honest (access_refusal self.old pointer from (length out.old)) why) }
        ensures fault { access_refusal self.old pointer from (length out.old) ≡ None → IfErr result (λ why. IsFault why) }
        ensures given { IfErr result (λ why. IsNotGiven D D.reads pointer (len_in self.old pointer) why) }
        ensures kept { OnErr result (out.new ≡ out.old) }
    {
        read_range(&mut self.evac, &mut self.glances, pointer, from, out)
    }

    /// Writes bytes over those of an object, from one on, which comes near for it. Refused as `read`, and [`Refused::NoRoom`] or [`Refused::EpochsSpent`] as `alloc`;
    /// nothing has changed then.
    pub fn write(&mut self, pointer: u16, from: usize, bytes: &[u8]) -> Result<(), Refused>
        ensures written { OnOk result (self.new ≡ with_written pointer from bytes.now self.old) }
        ensures object { OnOk result (object self.new pointer ≡ option_map (rewritten from bytes.now) (object self.old pointer)) }
        ensures done { OnOk result (access_refusal self.old pointer from (length bytes.now) ≡ None) }
        ensures refused { OnErr result (self.new ≡ self.old) }
        ensures barred { (why : Refusal) → access_refusal self.old pointer from (length bytes.now) ≡ Some why → result ≡ Err why }
        ensures why { IfErr result (λ why. IsWhyNoAccess self.old.honest (access_refusal self.old pointer from (length bytes.now)) why) }
        ensures room { result ≡ Err NoRoom → 3 ≤ self.old.logs → IsNotTaken D D.writes (object self.old) }
        ensures given { IfErr result (λ why. IsNotGiven D D.reads pointer (len_in self.old pointer) why) }
    {
        write_range(&mut self.evac, pointer, from, bytes)
    }

    /// Drops an object: its pointer has none then. [`Refused::NotHeld`] where it had none.
    pub fn drop_object(&mut self, pointer: u16) -> Result<(), Refused>
        ensures dropped { OnOk result (IsSome (object self.old pointer) × (self.new ≡ without pointer self.old)) }
        ensures refused { IfErr result (λ why. (why ≡ NotHeld) × (object self.old pointer ≡ None) × (self.new ≡ self.old)) }
    {
        if !core_of(&self.evac).is_used(pointer) {
            return Err(Refused::NotHeld);
        }
        drop_used(&mut self.evac, pointer);
        self.free.insert(pointer);
        Ok(())
    }
}

// Whether a heap may be of so many logs.
fn is_logs(logs: u64) -> bool
    ensures { result ≡ is_logs logs }
{
    2 <= logs && logs <= 64
}
