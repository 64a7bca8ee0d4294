//! A heap, with how often each of its pointers was given up.

ghost use Rattle.std.specs.Prelude.{◌≡◌, ◌<◌, ◌≤◌, ◌+◌, ℕ, List, true, false, None, Some, Err, is_some, filter, IfNone, IfOk, IfErr, IfSome, OnErr, OnOk, length, slice_range, vec_len, []};
ghost use Rattle.std.specs.Fn.{FnOnceReturnsAtMut, FnOnceTakesAtMut};
ghost use Rattle.std.specs.Option.{option_map};
ghost use Rattle.std.specs.Vec.{vec_capacity};
ghost use Rattle.far_word.specs.declared.refused.Refused.{Refused as Refusal};
ghost use Rattle.far_word.specs.declared.refused.Refused.TheVariants.{Memory, NoRoom, NotHeld};
ghost use Rattle.far_word.specs.declared.sizes.TheConstants.{POINTERS};
ghost use Rattle.far_private.specs.Causes.{IsFault, IsNotGiven, IsNotTaken};
ghost use Rattle.far_private.specs.Heap.{IsWell, IsWhyNoAccess, is_length, new_object, object, object_with, size_of, structure_of};
ghost use Rattle.far_private.specs.Objects.{bytes_of, len_of, rewritten};
ghost use Rattle.far_pool.specs.Pool.{IsWhyNone, IsWhyNotWhole, UpdatesOn, dropping, found, generation_on, object_on, putting, refusal_of};

use far_device::Device;
use far_private::{PrivateHeap, Statistics};
use far_word::{POINTERS, Refused};
use std::alloc::Global;
use std::marker::Model;

/// A heap; of each pointer, how often an object of it was dropped; and how many objects there are, which is a hint alone.
#[derive(Drop)]
pub(crate) struct Counted<D: Device + Drop> {
    heap: PrivateHeap<D>,
    generations: Vec<u16>,
    used: u16,
}

impl<D: Device + Drop> Model for Counted<D> {
    ghost use Rattle.std.specs.Prelude.{◌≡◌, length};
    ghost use Rattle.far_word.specs.declared.sizes.TheConstants.{POINTERS};
    ghost use Rattle.far_pool.specs.Pool.{Shelf};

    ghost Value = { Shelf };

    ghost view = { λ c. record { honest = c.heap.honest; logs = c.heap.logs; objects = c.heap.objects; generations = c.generations.items } };

    ghost invariant = { λ c. length c.generations.items ≡ POINTERS };
}

impl<D: Device + Drop> Counted<D> {
    // A heap that has no object.
    pub(crate) fn new(alloc: Global, heap: PrivateHeap<D>) -> Result<Counted<D>, Refused>
        requires { (p : ℕ) → object heap p ≡ None }
        ensures empty { IfOk result (λ c. (p : ℕ) → object_on c p ≡ None) }
        ensures zero { IfOk result (λ c. (p : ℕ) → generation_on c p ≡ 0) }
        ensures honest { IfOk result (λ c. c.honest ≡ heap.honest) }
        ensures logs { IfOk result (λ c. c.logs ≡ heap.logs) }
        ensures why { IfErr result (λ why. why ≡ Memory) }
    {
        let Ok(generations) = vec![in alloc; 0u16; POINTERS as usize] else {
            return Err(Refused::Memory);
        };
        Ok(Counted {
            heap,
            generations,
            used: 0,
        })
    }

    // What holds between any two calls.
    pub(crate) fn keeps_law(&self)
        ensures many { length self.now.objects ≡ POINTERS }
        ensures counts { length self.now.generations ≡ POINTERS }
        ensures well { (p : ℕ) → IsWell self.now.honest (object_on self.now p) }
    {
        self.heap.keeps_law();
    }

    pub(crate) fn is_full(&self) -> bool {
        self.used >= POINTERS
    }

    pub(crate) fn generation_of(&self, pointer: u16) -> u16
        requires { pointer < POINTERS }
        ensures { result ≡ generation_on self.now pointer }
    {
        self.generations[pointer as usize]
    }

    // Whether a pointer was given up just so often.
    #[inline(always)]
    fn knows(&self, pointer: u16, generation: u16) -> bool
        ensures known { result ≡ true → (generation_on self.now pointer ≡ generation) × (pointer < length self.now.objects) × (pointer < length self.now.generations) }
        ensures none { result ≡ false → found self.now pointer generation ≡ None }
    {
        self.heap.keeps_law();
        if pointer >= POINTERS {
            return false;
        }
        self.generations[pointer as usize] == generation
    }

    // The pointer of a new object of zeros, and its generation.
    pub(crate) fn alloc_zeros(&mut self, len: u16, structure: u8) -> Result<(u16, u16), Refused>
        ensures made { IfOk result (λ p. (p.0 < POINTERS) × (p.0 < length self.old.objects) × (generation_on self.old p.0 ≡ p.1) × (object_on self.old p.0 ≡ None) × (self.new ≡ putting p.0 (Some (new_object self.old.honest len structure)) self.old)) }
        ensures done { OnOk result (is_length len ≡ true) }
        ensures refused { OnErr result (self.new ≡ self.old) }
        ensures why { IfErr result (λ why. IsWhyNone len why) }
        ensures room { result ≡ Err NoRoom → 3 ≤ self.old.logs → IsNotTaken D D.writes (object_on self.old) }
    {
        self.heap.keeps_law();
        match self.heap.alloc(len, structure) {
            Ok(pointer) => {
                self.used = self.used.saturating_add(1);
                let generation = self.generations[pointer as usize];
                Ok((pointer, generation))
            }
            Err(why) => Err(why),
        }
    }

    // The same of one of these bytes.
    pub(crate) fn alloc(&mut self, bytes: &[u8], structure: u8) -> Result<(u16, u16), Refused>
        ensures made { IfOk result (λ p. (p.0 < POINTERS) × (p.0 < length self.old.objects) × (generation_on self.old p.0 ≡ p.1) × (object_on self.old p.0 ≡ None) × (self.new ≡ putting p.0 (Some (object_with self.old.honest structure bytes.now)) self.old)) }
        ensures done { OnOk result (is_length (length bytes.now) ≡ true) }
        ensures refused { OnErr result (self.new ≡ self.old) }
        ensures why { IfErr result (λ why. IsWhyNone (length bytes.now) why) }
        ensures room { result ≡ Err NoRoom → 3 ≤ self.old.logs → IsNotTaken D D.writes (object_on self.old) }
    {
        self.heap.keeps_law();
        match self.heap.alloc_with(bytes, structure) {
            Ok(pointer) => {
                self.used = self.used.saturating_add(1);
                let generation = self.generations[pointer as usize];
                Ok((pointer, generation))
            }
            Err(why) => Err(why),
        }
    }

    // How many bytes the object of a pointer has, whatever its generation.
    #[inline(always)]
    pub(crate) fn len_now(&self, pointer: u16) -> Option<u16>
        ensures { result ≡ size_of (object_on self.now pointer) }
    {
        self.heap.len_of(pointer)
    }

    // Reads of the object of a pointer, whatever its generation.
    #[inline(always)]
    pub(crate) fn read_now(
        &mut self,
        pointer: u16,
        from: usize,
        out: &mut [u8],
    ) -> Result<(), Refused>
        ensures same { self.new ≡ self.old }
        ensures long { length out.new ≡ length out.old }
        ensures read { OnOk result (IfSome (bytes_of (object_on self.old pointer)) (λ bytes. out.new ≡ slice_range bytes from (from + length out.old))) }
        ensures done { OnOk result (refusal_of (object_on self.old pointer) from (length out.old) ≡ None) }
        ensures barred { (why : Refusal) → refusal_of (object_on self.old pointer) from (length out.old) ≡ Some why → result ≡ Err why }
        ensures why { IfErr result (λ why. IsWhyNoAccess self.old.honest (refusal_of (object_on self.old pointer) from (length out.old)) why) }
        ensures fault { refusal_of (object_on self.old pointer) from (length out.old) ≡ None → IfErr result (λ why. IsFault why) }
        ensures given { IfErr result (λ why. IsNotGiven D D.reads pointer (len_of (object_on self.old pointer)) why) }
        ensures kept { OnErr result (out.new ≡ out.old) }
    {
        self.heap.read(pointer, from, out)
    }

    #[inline(always)]
    pub(crate) fn len_of(&self, pointer: u16, generation: u16) -> Option<u16>
        ensures { result ≡ size_of (found self.now pointer generation) }
    {
        if !self.knows(pointer, generation) {
            return None;
        }
        self.len_now(pointer)
    }

    pub(crate) fn structure_of(&self, pointer: u16, generation: u16) -> Option<u8>
        ensures { result ≡ structure_of (found self.now pointer generation) }
    {
        if !self.knows(pointer, generation) {
            return None;
        }
        self.heap.structure_of(pointer)
    }

    pub(crate) fn holds(&self, pointer: u16, generation: u16) -> bool
        ensures { result ≡ is_some (found self.now pointer generation) }
    {
        if !self.knows(pointer, generation) {
            return false;
        }
        self.heap.holds(pointer)
    }

    #[inline(always)]
    pub(crate) fn read(
        &mut self,
        pointer: u16,
        generation: u16,
        from: usize,
        out: &mut [u8],
    ) -> Result<(), Refused>
        ensures same { self.new ≡ self.old }
        ensures long { length out.new ≡ length out.old }
        ensures read { OnOk result (IfSome (bytes_of (found self.old pointer generation)) (λ bytes. out.new ≡ slice_range bytes from (from + length out.old))) }
        ensures done { OnOk result (refusal_of (found self.old pointer generation) from (length out.old) ≡ None) }
        ensures barred { (why : Refusal) → refusal_of (found self.old pointer generation) from (length out.old) ≡ Some why → result ≡ Err why }
        ensures why { IfErr result (λ why. IsWhyNoAccess self.old.honest (refusal_of (found self.old pointer generation) from (length out.old)) why) }
        ensures fault { refusal_of (found self.old pointer generation) from (length out.old) ≡ None → IfErr result (λ why. IsFault why) }
        ensures given { IfErr result (λ why. IsNotGiven D D.reads pointer (len_of (found self.old pointer generation)) why) }
        ensures kept { OnErr result (out.new ≡ out.old) }
    {
        if !self.knows(pointer, generation) {
            return Err(Refused::NotHeld);
        }
        self.read_now(pointer, from, out)
    }

    // Reads an object whole into a vector, in place of what that has.
    pub(crate) fn read_into(
        &mut self,
        pointer: u16,
        generation: u16,
        out: &mut Vec<u8>,
    ) -> Result<(), Refused>
        ensures same { self.new ≡ self.old }
        ensures read { OnOk result (IfSome (bytes_of (found self.old pointer generation)) (λ bytes. out.new.items ≡ bytes)) }
        ensures len { OnOk result (size_of (found self.old pointer generation) ≡ Some (vec_len out.new)) }
        ensures refused { OnErr result (out.new.items ≡ []) }
        ensures barred { found self.old pointer generation ≡ None → result ≡ Err NotHeld }
        ensures why { IfErr result (λ why. IsWhyNotWhole self.old.honest (found self.old pointer generation) why) }
        ensures fault { is_some (found self.old pointer generation) ≡ true → IfErr result (λ why. IsFault why) }
        ensures given { IfErr result (λ why. (why ≡ Memory → len_of (found self.old pointer generation) ≤ vec_capacity out.old) → IsNotGiven D D.reads pointer (len_of (found self.old pointer generation)) why) }
        ensures room { vec_capacity out.old ≤ vec_capacity out.new }
    {
        self.keeps_law();
        let Some(len) = self.len_of(pointer, generation) else {
            out.clear();
            return Err(Refused::NotHeld);
        };
        let Ok(()) = out.resize(len as usize, 0) else {
            out.clear();
            return Err(Refused::Memory);
        };
        match self.read(pointer, generation, 0, out.as_mut_slice()) {
            Ok(()) => Ok(()),
            Err(why) => {
                out.clear();
                Err(why)
            }
        }
    }

    #[inline(always)]
    pub(crate) fn write(
        &mut self,
        pointer: u16,
        generation: u16,
        from: usize,
        bytes: &[u8],
    ) -> Result<(), Refused>
        ensures written { OnOk result (self.new ≡ putting pointer (option_map (rewritten from bytes.now) (found self.old pointer generation)) self.old) }
        ensures known { OnOk result ((generation_on self.old pointer ≡ generation) × (pointer < length self.old.objects) × (pointer < length self.old.generations)) }
        ensures refused { OnErr result (self.new ≡ self.old) }
        ensures done { OnOk result (refusal_of (found self.old pointer generation) from (length bytes.now) ≡ None) }
        ensures barred { (why : Refusal) → refusal_of (found self.old pointer generation) from (length bytes.now) ≡ Some why → result ≡ Err why }
        ensures why { IfErr result (λ why. IsWhyNoAccess self.old.honest (refusal_of (found self.old pointer generation) from (length bytes.now)) why) }
        ensures room { result ≡ Err NoRoom → 3 ≤ self.old.logs → IsNotTaken D D.writes (object_on self.old) }
        ensures given { IfErr result (λ why. IsNotGiven D D.reads pointer (len_of (found self.old pointer generation)) why) }
    {
        if !self.knows(pointer, generation) {
            return Err(Refused::NotHeld);
        }
        self.heap.write(pointer, from, bytes)
    }

    pub(crate) fn update<F: FnOnce(&mut [u8])>(
        &mut self,
        pointer: u16,
        generation: u16,
        from: usize,
        bytes: &mut [u8],
        change: F,
    ) -> Result<(), Refused>
        // `change` may be called on whatever is read
        requires takes { (read : List ℕ) → length read ≡ length bytes.old → FnOnceTakesAtMut F.FnOnce change read }

        // done: `change` was called once, on what was read, and this object's range has what it made of that; nothing else has changed
        ensures changed { OnOk result (UpdatesOn (FnOnceReturnsAtMut F.FnOnce change) pointer generation from (length bytes.old) bytes.new self.old self.new) }
        ensures known { OnOk result ((generation_on self.old pointer ≡ generation) × (pointer < length self.old.objects) × (pointer < length self.old.generations)) }

        // refused: nothing has changed, nor have the bytes
        ensures refused { OnErr result (self.new ≡ self.old) }
        ensures kept { OnErr result (bytes.new ≡ bytes.old) }

        // a pointer without this object and a wrong range are refused as such
        ensures done { OnOk result (refusal_of (found self.old pointer generation) from (length bytes.old) ≡ None) }
        ensures barred { (why : Refusal) → refusal_of (found self.old pointer generation) from (length bytes.old) ≡ Some why → result ≡ Err why }

        // else it's `EpochsSpent`, or no room, in three logs or more only as the device refused an object, or as the device didn't give this one
        ensures why { IfErr result (λ why. IsWhyNoAccess self.old.honest (refusal_of (found self.old pointer generation) from (length bytes.old)) why) }
        ensures room { result ≡ Err NoRoom → 3 ≤ self.old.logs → IsNotTaken D D.writes (object_on self.old) }
        ensures given { IfErr result (λ why. IsNotGiven D D.reads pointer (len_of (found self.old pointer generation)) why) }
    {
        if !self.knows(pointer, generation) {
            return Err(Refused::NotHeld);
        }
        self.heap.update(pointer, from, bytes, change)
    }

    pub(crate) fn drop_object(&mut self, pointer: u16, generation: u16) -> Result<(), Refused>
        ensures dropped { OnOk result ((is_some (found self.old pointer generation) ≡ true) × (self.new ≡ dropping pointer generation self.old)) }
        ensures known { OnOk result ((generation_on self.old pointer ≡ generation) × (pointer < length self.old.objects) × (pointer < length self.old.generations)) }
        ensures refused { IfErr result (λ why. (why ≡ NotHeld) × (found self.old pointer generation ≡ None) × (self.new ≡ self.old)) }
    {
        if !self.knows(pointer, generation) {
            return Err(Refused::NotHeld);
        }
        match self.heap.drop_object(pointer) {
            Ok(()) => {
                self.generations[pointer as usize] = generation.wrapping_add(1);
                self.used = self.used.saturating_sub(1);
                Ok(())
            }
            Err(_) => Err(Refused::NotHeld),
        }
    }

    // The first pointer from one on that has an object.
    pub(crate) fn next_from(&self, from: u16) -> Option<u16>
        ensures found { IfSome result (λ p. (from ≤ p) × (p < POINTERS) × (is_some (object_on self.now p) ≡ true) × ((q : ℕ) → from ≤ q → q < p → object_on self.now q ≡ None)) }
        ensures none { IfNone result ((q : ℕ) → from ≤ q → q < POINTERS → object_on self.now q ≡ None) }
    {
        for pointer in from..POINTERS {
            if self.heap.holds(pointer) {
                return Some(pointer);
            }
        }
        None
    }

    // What the heap has, and what it has done.
    pub(crate) fn statistics(&self) -> Statistics
        ensures count { result.near + result.far ≡ length (filter is_some self.now.objects) }
        ensures few { result.near + result.far ≤ POINTERS }
    {
        self.heap.keeps_law();
        self.heap.statistics()
    }
}
