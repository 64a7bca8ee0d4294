// A mutator whose scope is closed.
ghost use Rattle.std.specs.Prelude.{◌≡◌, ◌<◌, ◌≤◌, true, false, None, IfOk, IfErr, IfSome};
ghost use Rattle.far_heap.specs.Mine.{IsNew, IsOf, dropping, ds_in, len_in, newcomer, opening, uses};
ghost use Rattle.far_heap.specs.MineLaw.{MineLaw};
ghost use Rattle.far_heap.specs.BookHad.{Allocates, BookDid, BookHad, IsFreed};
ghost use Rattle.far_heap.specs.Helping.{LooksAndRetires};
ghost use Rattle.far_word.specs.declared.refused.Refused.{Refused as any_refusal};
ghost use Rattle.far_word.specs.declared.sizes.TheConstants.{LONGEST, MOST_MUTATORS};

use crate::heap::Lock;
use crate::name::HeapName;
use crate::own::Own;
use crate::scope::Scope;
use crate::under_lock;
use far_device::Device;
use far_table::MutSeat;
use far_word::Refused;
use std::alloc::{AllocError, Global};
use std::marker::Model;
use std::sync::Wait;

/// A mutator of the heap of a name, whose scope is closed. It may be moved to another thread.
#[derive(Drop)]
pub struct Mutator<K: HeapName, D: Device + Drop> {
    own: Own<K, D>,
    lock: Lock<K, D>,
}

impl<K: HeapName, D: Device + Drop> Model for Mutator<K, D> {
    ghost use Rattle.std.specs.Prelude.{◌≡◌, false};
    ghost use Rattle.far_heap.specs.Mine.{IsOf, Mine};

    ghost Value = { Mine };

    ghost view = { λ m. m.own };

    ghost invariant = { λ m. (m.own.opened ≡ false) × IsOf K.heap m.own };
}

impl<K: HeapName, D: Device + Drop> Mutator<K, D> {
    // The mutator of a seat of a new heap. All room that it ever needs is taken here.
    pub(crate) fn new(
        alloc: Global,
        lock: Lock<K, D>,
        seat: MutSeat<D>,
        number: u8,
    ) -> Result<Mutator<K, D>, AllocError>
        requires table { seat.table ≡ K.heap.table }
        requires honest { seat.view.honest ≡ K.heap.honest }
        requires new { IsNew number seat.view }
        requires few { number < MOST_MUTATORS }
        requires one { number < K.heap.mutators }
        ensures { IfOk result (λ m. m ≡ newcomer K.heap.table number K.heap.honest) }
    {
        let own = Own::new(alloc, seat, number)?;
        Ok(Mutator { own, lock })
    }

    #[inline(always)]
    pub(crate) fn of(own: Own<K, D>, lock: Lock<K, D>) -> Mutator<K, D>
        requires closed { own.opened ≡ false }
        requires of { IsOf K.heap own }
        ensures { result ≡ own }
    {
        Mutator { own, lock }
    }

    /// What holds of a mutator between any two calls: each object that it uses has 1 to 4,088 bytes, which it knows where the far side is honest; its
    /// scope is closed, it views nothing, and has soiled nothing. The call does nothing.
    pub fn keeps_law(&self)
        ensures law { MineLaw self.now }
        ensures closed { self.now.opened ≡ false }
        ensures of { IsOf K.heap self.now }
    {
        self.own.keeps_law();
    }

    /// Makes a new object of `len` zero bytes, 1 to 4,088, of data structure `ds`, a number of the program's own choice: its pointer, which the mutator didn't use. It
    /// takes the lock.
    ///
    /// Refused, in this order: [`Refused::Length`] exactly where the length is out of range; [`Refused::NoPointer`] exactly where the mutator uses all of its
    /// 256 pointers; [`Refused::NoRoom`] only where it has one left, but, as the lock was held, there was no room in the open log, and at most one log was free.
    /// Nothing has changed then.
    #[inline(always)]
    pub fn alloc<R: Wait>(&mut self, rt: &R, len: u16, ds: u8) -> Result<u16, Refused>
        ensures { Allocates D K.heap self.old self.new len ds result }
    {
        under_lock::alloc(rt, &self.lock, &mut self.own, len, ds)
    }

    /// How many bytes the object of a pointer has, as [`Scope::len_of`].
    #[inline(always)]
    pub fn len_of(&self, p: u16) -> Option<u16>
        ensures used { IfSome result (λ len. (uses self.now p ≡ true) × (len ≡ len_in self.now p)) }
        ensures range { IfSome result (λ len. (0 < len) × (len ≤ LONGEST)) }
        ensures unused { result ≡ None → uses self.now p ≡ false }
    {
        self.own.keeps_law();
        self.own.used_len(p)
    }

    /// Of which data structure the object of a pointer is, as [`Scope::structure_of`].
    #[inline(always)]
    pub fn structure_of(&self, p: u16) -> Option<u8>
        ensures used { IfSome result (λ ds. (uses self.now p ≡ true) × (ds ≡ ds_in self.now p)) }
        ensures unused { result ≡ None → uses self.now p ≡ false }
    {
        self.own.used_structure(p)
    }

    /// Drops an object, which the mutator uses no longer. It takes the lock, and in the last hold retires the object if its cell is found with DROP, and does nothing
    /// else. Refused [`Refused::NotHeld`] alone, exactly where the mutator doesn't use the pointer; nothing has changed then.
    #[tactic(auto, using(crate::proofs::MineLaws::drop_unheld, crate::proofs::MineLaws::drop_used))]
    #[inline(always)]
    pub fn drop_object<R: Wait>(&mut self, rt: &R, p: u16) -> Result<(), Refused>
        ensures refused { IfErr result (λ why. (why ≡ Refused.NotHeld) × (uses self.old p ≡ false) × (self.new ≡ self.old)) }
        ensures dropped { IfOk result (λ _. (uses self.old p ≡ true) × (self.new ≡ dropping p self.old)) }
        ensures freed { IfOk result (λ _. BookHad D K.heap (IsFreed p)) }
        ensures did { IfOk result (λ _. BookDid D K.heap (LooksAndRetires D.contents D.honest D.faults D.fails_at_most D.lets_go D.forgets p)) }
    {
        self.keeps_law();
        under_lock::drop_object(rt, &self.lock, &mut self.own, p)
    }

    /// Opens the mutator's scope. Always; it takes neither lock nor memory.
    #[inline(always)]
    pub fn open(self) -> Scope<K, D>
        ensures { result ≡ opening self }
    {
        let Mutator { mut own, lock } = self;
        own.open();
        Scope::of(own, lock)
    }
}
