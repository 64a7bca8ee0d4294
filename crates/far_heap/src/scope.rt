// A mutator whose scope is open.
ghost use Rattle.std.specs.Prelude.{◌≡◌, ◌≢◌, ◌⊎◌, ◌+◌, ◌<◌, ◌≤◌, ℕ, true, false, length, slice_range, None, Some, Ok, Err, IfOk, IfErr, IfSome};
ghost use Rattle.far_heap.specs.Made.{IsFoundSlow, Pinned};
ghost use Rattle.far_heap.specs.declared.view.Tried.{Tried as any_tried};
ghost use Rattle.far_heap.specs.MineLaw.{MineLaw};
ghost use Rattle.far_heap.specs.LogsStay.{LogsStay};
ghost use Rattle.far_heap.specs.SoiledIsDirty.{SoiledIsDirty};
ghost use Rattle.far_heap.specs.Mine.{Asks, AsksToView, IsNoView, IsOf, SoilsOne, TriedSo, access_refusal, bytes_in, closing, drop_refusal, dropping, ds_in, len_in, soils, uses, view_of, viewing, views, writing};
ghost use Rattle.far_heap.specs.BookHad.{Allocates, BookDid, BookHad, IsAnswered, IsFreed, Unbrought};
ghost use Rattle.far_heap.specs.Helping.{BringsSo, LooksAndRetires};
ghost use Rattle.far_word.specs.declared.refused.Refused.{Refused as any_refusal};
ghost use Rattle.far_word.specs.declared.refused.Refused.TheVariants.{Damaged, Memory, NoRoom};
ghost use Rattle.far_word.specs.declared.sizes.TheConstants.{LONGEST};

use crate::heap::Lock;
use crate::lending::Closing;
use crate::mutator::Mutator;
use crate::name::HeapName;
use crate::own::Own;
use crate::under_lock;
use crate::view::{Tried, View};
use far_device::Device;
use far_word::Refused;
use std::marker::Model;
use std::sync::Wait;

/// A mutator whose scope is open. An object that the scope views isn't moved before the scope is closed. A `Scope` that is dropped unclosed leaves its
/// scope word open for ever: no round ends that waits for this mutator.
#[derive(Drop)]
pub struct Scope<K: HeapName, D: Device + Drop> {
    own: Own<K, D>,
    lock: Lock<K, D>,
}

impl<K: HeapName, D: Device + Drop> Model for Scope<K, D> {
    ghost use Rattle.std.specs.Prelude.{◌≡◌, true};
    ghost use Rattle.far_heap.specs.Mine.{IsOf, Mine};

    ghost Value = { Mine };

    ghost view = { λ s. s.own };

    ghost invariant = { λ s. (s.own.opened ≡ true) × IsOf K.heap s.own };
}

impl<K: HeapName, D: Device + Drop> Scope<K, D> {
    #[inline(always)]
    pub(crate) fn of(own: Own<K, D>, lock: Lock<K, D>) -> Scope<K, D>
        requires opened { own.opened ≡ true }
        requires of { IsOf K.heap own }
        ensures { result ≡ own }
    {
        Scope { own, lock }
    }

    /// What holds of an open scope between any two calls: the scope views what it has soiled, its mutator uses what the scope views, and each object that the
    /// mutator uses has 1 to 4,088 bytes, which the mutator knows if the far side is honest. The call does nothing.
    pub fn keeps_law(&self)
        ensures law { MineLaw self.now }
        ensures opened { self.now.opened ≡ true }
        ensures of { IsOf K.heap self.now }
    {
        self.own.keeps_law();
    }

    /// No log is given back, nor taken anew, in which an object lies that the scope views, whatever others do: each is held at its place by the seat of the
    /// scope's mutator, and in each state that the words and all views may be in beside that seat its log stays. How often the mutator set MOVE anew is as its seat
    /// counted. The call does nothing.
    pub fn no_log_is_given_out_under_a_view(&self)
        ensures { LogsStay K.heap self.now }
    {
        self.own.no_log_is_given_out_under_a_view();
    }

    /// What the scope has soiled has DIRTY in its cell, whatever others do: in each state that the words and all views may be in beside the seat of the
    /// scope's mutator. The call does nothing.
    pub fn what_it_soiled_is_dirty(&self)
        ensures { SoiledIsDirty K.heap self.now }
    {
        self.own.what_it_soiled_is_dirty();
    }

    /// Makes a new object, as [`Mutator::alloc`] does. The scope doesn't view it yet.
    pub fn alloc<R: Wait>(&mut self, rt: &R, len: u16, ds: u8) -> Result<u16, Refused>
        ensures { Allocates D K.heap self.old self.new len ds result }
    {
        under_lock::alloc(rt, &self.lock, &mut self.own, len, ds)
    }

    /// How many bytes the object of a pointer has, 1 to 4,088; `None` exactly where this mutator doesn't use the pointer. No step, and no lock: the mutator
    /// knows it.
    #[inline(always)]
    pub fn len_of(&self, p: u16) -> Option<u16>
        ensures used { IfSome result (λ len. (uses self.now p ≡ true) × (len ≡ len_in self.now p)) }
        ensures range { IfSome result (λ len. (0 < len) × (len ≤ LONGEST)) }
        ensures unused { result ≡ None → uses self.now p ≡ false }
    {
        self.own.keeps_law();
        self.own.used_len(p)
    }

    /// Of which data structure the object of a pointer is, 0 to 255, the number that it was made with; `None` exactly where this mutator doesn't use the
    /// pointer. No step, and no lock: the mutator knows it.
    #[inline(always)]
    pub fn structure_of(&self, p: u16) -> Option<u8>
        ensures used { IfSome result (λ ds. (uses self.now p ≡ true) × (ds ≡ ds_in self.now p)) }
        ensures unused { result ≡ None → uses self.now p ≡ false }
    {
        self.own.used_structure(p)
    }

    /// Drops an object, as [`Mutator::drop_object`] does. Refused, in this order: [`Refused::NotHeld`]; [`Refused::Held`] exactly where the scope views
    /// the object.
    pub fn drop_object<R: Wait>(&mut self, rt: &R, p: u16) -> Result<(), Refused>
        ensures refused { IfErr result (λ why. (drop_refusal self.old p ≡ Some why) × (self.new ≡ self.old)) }
        ensures dropped { IfOk result (λ _. (drop_refusal self.old p ≡ None) × (self.new ≡ dropping p self.old)) }
        ensures freed { IfOk result (λ _. BookHad D K.heap (IsFreed p)) }
        ensures did { IfOk result (λ _. BookDid D K.heap (LooksAndRetires D.contents D.honest D.faults D.fails_at_most D.lets_go D.forgets p)) }
    {
        under_lock::drop_object(rt, &self.lock, &mut self.own, p)
    }

    /// Dereferences a pointer. As [`Scope::try_view`] where that views it; else it takes the lock, and has the object brought where it can be viewed: a far
    /// one is fetched, and one that a round wants is moved to another log.
    ///
    /// Where one pin didn't view it, the last hold of the lock fetched this object, or looked at it again and moved it, and did nothing else.
    ///
    /// Refused [`Refused::NotHeld`] exactly where this mutator doesn't use the pointer; and, never where the scope views it already, [`Refused::NoRoom`]
    /// only where, as the lock was held, there was no room for it where it was to come; where there was, and it was far, [`Refused::Memory`] or
    /// [`Refused::Device`] as the one read of the device was answered, `Memory` never by a device that reads in place, and [`Refused::Damaged`] only where the
    /// far side isn't honest. All else was left as it was then, but that marks may have been found in the object's cell: what was far is far. The scope views
    /// what it did. MOVE may have been set anew in the cell of an object that isn't viewed yet, by no other call, and only where one pin, before all else,
    /// found a word on which no view may rest.
    #[inline(always)]
    pub fn view<R: Wait>(&mut self, rt: &R, p: u16) -> Result<View, Refused>
        // refused: a pointer that isn't used, or an object that couldn't be brought; MOVE may have been set anew, only where there was no room
        ensures refused { IfErr result (λ why. IsNoView self.old p why × Asks p self.old self.new) }
        ensures unasked { IfErr result (λ why. (why ≡ NoRoom) ⊎ (self.new ≡ self.old)) }

        // done: the mutator uses the pointer, and views the object
        ensures viewed { IfOk result (λ view. (uses self.old p ≡ true) × (view ≡ view_of p self.old) × AsksToView p self.old self.new) }

        // why it wasn't brought: the book had no room, or so the device answered one read; `Memory` never where it reads in place, `Damaged` only where the far side
        // isn't honest
        ensures cause { uses self.old p ≡ true → IfErr result (λ why. BookHad D K.heap (Unbrought p why)) }
        ensures answered { uses self.old p ≡ true → IfErr result (IsAnswered D K.heap D.reads p) }
        ensures in_place { D.reads_in_place → result ≢ Err Memory }
        ensures damaged { result ≡ Err Damaged → self.old.honest ≡ false }

        // what is viewed already is the answer at once; else one pin viewed it, or found a word on which no view may rest, as always before a refusal
        ensures again { views self.old p ≡ true → (result ≡ Ok (view_of p self.old)) × (self.new ≡ self.old) }
        ensures quick { views self.old p ≡ false → IfOk result (λ _. (self.new ≡ viewing p self.old) ⊎ IsFoundSlow p self.old) }
        ensures slow { uses self.old p ≡ true → IfErr result (λ _. IsFoundSlow p self.old) }

        // what a pin didn't view the book brought last: it fetched this object, or looked at it again and moved it
        ensures brought { views self.old p ≡ false → IfOk result (λ _. Pinned p self.old (Tried.View (view_of p self.old)) self.new ⊎ BookDid D K.heap (BringsSo D.contents D.honest D.faults D.fails_at_most D.lets_go D.forgets D.reads D.reads_in_place p true)) }
    {
        let tried = match self.own.try_view(p) {
            Ok(tried) => tried,
            Err(why) => return Err(why),
        };
        if let Tried::Slow(_) = tried {
            let brought = under_lock::view(rt, &self.lock, &mut self.own, p);
            if let Some(why) = brought.refusal() {
                return Err(why);
            }
        }
        Ok(self.own.view_of(p))
    }

    /// Dereferences a pointer without the lock. Refused [`Refused::NotHeld`] exactly where this mutator doesn't use the pointer. An object that
    /// the scope views already is viewed again, whatever marks have come since, without a step. Else one step sets HOT and finds a word: the object is viewed if
    /// that word is near with none of EVAC, MOVE and DROP; else the answer is that word, and the scope views what it did.
    #[inline(always)]
    pub fn try_view(&mut self, p: u16) -> Result<Tried, Refused>
        ensures refused { IfErr result (λ why. (why ≡ Refused.NotHeld) × (uses self.old p ≡ false) × (self.new ≡ self.old)) }
        ensures tried { IfOk result (λ tried. (uses self.old p ≡ true) × TriedSo p self.old tried self.new) }
        ensures again { views self.old p ≡ true → (result ≡ Ok (Tried.View (view_of p self.old))) × (self.new ≡ self.old) }
        ensures pinned { views self.old p ≡ false → IfOk result (λ tried. Pinned p self.old tried self.new) }
    {
        self.own.try_view(p)
    }

    /// Reads bytes of an object to `out`, from byte `from` on, as many as `out` has: as the mutator wrote them last, 0 before, if the far side is
    /// honest. Refused first [`Refused::NotHeld`] exactly where this scope doesn't view the pointer, then
    /// [`Refused::Range`] exactly where `out` has none, or they pass the object's end; `out` is as before then.
    #[inline(always)]
    pub fn read(&mut self, view: &View, from: u16, out: &mut [u8]) -> Result<(), Refused>
        ensures same { self.new ≡ self.old }
        ensures refused { IfErr result (λ why. (access_refusal self.old view.now.pointer from (length out.old) ≡ Some why) × (out.new ≡ out.old)) }
        ensures done { IfOk result (λ _. access_refusal self.old view.now.pointer from (length out.old) ≡ None) }
        ensures bytes { IfOk result (λ _. IfSome (bytes_in self.old view.now.pointer) (λ bytes. out.new ≡ slice_range bytes from (from + length out.old))) }
    {
        self.own.read(*view, from, out)
    }

    /// Writes bytes over those of an object, from byte `from` on. All others stay. The scope's first write of an object sets DIRTY in its cell before, by one step
    /// more; no other call soils an object. It is tested that an object which was fetched and lacks DIRTY goes far without a write to the device.
    /// Refused as [`Scope::read`] is; then nothing changes.
    #[inline(always)]
    pub fn write(&mut self, view: &View, from: u16, bytes: &[u8]) -> Result<(), Refused>
        ensures refused { IfErr result (λ why. (access_refusal self.old view.now.pointer from (length bytes.now) ≡ Some why) × (self.new ≡ self.old)) }
        ensures done { IfOk result (λ _. (access_refusal self.old view.now.pointer from (length bytes.now) ≡ None) × (self.new ≡ writing view.now.pointer from bytes.now self.old)) }
        ensures soiled { IfOk result (λ _. SoilsOne view.now.pointer self.old self.new) }
    {
        self.own.write(*view, from, bytes)
    }

    /// Closes the scope, which views nothing from then on, and has soiled nothing. Always.
    #[inline(always)]
    pub fn close(self) -> Mutator<K, D>
        ensures closed { result ≡ closing self }
        ensures clean { (p : ℕ) → soils result p ≡ false }
    {
        let Scope { mut own, lock } = self;
        own.close();
        Mutator::of(own, lock)
    }
}

impl<K: HeapName, D: Device + Drop> Closing for Scope<K, D> {
    type Closed = Mutator<K, D>;

    ghost closes = { λ scope mutator. mutator ≡ closing scope };

    #[inline(always)]
    fn end(self) -> Mutator<K, D> {
        self.close()
    }
}
