//! Copiers: they copy objects while the lock is free.

ghost use Rattle.std.specs.Prelude.{◌≡◌, true, false, None, IfOk, IfErr};
ghost use Rattle.far_word.specs.declared.sizes.TheConstants.{JOBS};
ghost use Rattle.far_events.specs.state.State.{State};
ghost use Rattle.far_table.specs.CopySeats.{Claimed, CopiedNext, IsCopied, IsTakenBy, MissedFirst, OnlyLooked, copied_on};
ghost use Rattle.far_table.specs.Tells.{CopierMayBe, CopierStands};
ghost use Rattle.far_heap.specs.Copiers.{Finishes, IsAtWork, IsFree};

use crate::name::HeapName;
use far_device::Device;
use far_table::{CopySeat, Job};
use std::marker::{Model, PhantomData};

/// A copier of the heap of a name, which has no job. It may be moved to another thread. None of its calls takes the lock, the runtime or memory.
#[derive(Drop)]
pub struct Copier<K: HeapName, D: Device + Drop> {
    seat: CopySeat<D>,
    of: PhantomData<K>,
}

impl<K: HeapName, D: Device + Drop> Model for Copier<K, D> {
    ghost use Rattle.far_table.specs.Seats.{CopierSeated};
    ghost use Rattle.far_heap.specs.Copiers.{IsFree};

    ghost Value = { CopierSeated };

    ghost view = { λ c. c.seat };

    ghost invariant = { λ c. IsFree K.heap c.seat };
}

/// A copier that has a job: the copy of one object, word by word. It is finished when it is dropped; one that is never dropped, as by `mem::forget` or in
/// a thread that stops, has the job for ever, and with it two logs.
pub struct Copying<K: HeapName, D: Device + Drop> {
    seat: CopySeat<D>,
    job: Job,
    of: PhantomData<K>,
}

impl<K: HeapName, D: Device + Drop> Drop for Copying<K, D> {
    fn drop(self) {
        let _copier = self.finish();
    }
}

impl<K: HeapName, D: Device + Drop> Model for Copying<K, D> {
    ghost use Rattle.far_heap.specs.Copiers.{CopyingOf, IsAtWork};

    ghost Value = { CopyingOf };

    ghost view = { λ c. record { seat = c.seat; job = c.job } };

    ghost invariant = { λ c. IsAtWork K.heap (record { seat = c.seat; job = c.job }) };
}

impl<K: HeapName, D: Device + Drop> Copier<K, D> {
    // The copier of a seat that has no job.
    pub(crate) fn new(seat: CopySeat<D>) -> Copier<K, D>
        requires { IsFree K.heap seat }
        ensures { result ≡ seat }
    {
        Copier {
            seat,
            of: PhantomData,
        }
    }

    /// What holds of a copier between any two calls: it is one of the heap that the name names, and has no job. The call does nothing.
    pub fn keeps_law(&self)
        ensures { IsFree K.heap self.now }
    {
        let _of = self.of;
    }

    /// Takes a job that is offered: it looks at each of the 16 jobs, in their order, and tries once to take one that it finds offered, until it has one. Where
    /// no look gets one the copier is as before, but for what it notes of these looks.
    pub fn claim(self) -> Result<Copying<K, D>, Copier<K, D>>
        ensures table { IfOk result (λ copying. copying.seat.table ≡ self.table) }
        ensures claimed { IfOk result (λ copying. Claimed copying.job self.view copying.seat.view) }
        ensures none { IfErr result (λ copier. MissedFirst JOBS self.view copier.view) }
        ensures left { IfErr result (λ copier. (copier.table ≡ self.table) × OnlyLooked self.view copier.view) }
    {
        let Copier { mut seat, of } = self;
        match seat.claim() {
            Some(job) => Ok(Copying { seat, job, of }),
            None => Err(Copier { seat, of }),
        }
    }
}

impl<K: HeapName, D: Device + Drop> Copying<K, D> {
    /// What holds of a copier at work between any two calls: it is one of the heap that the name names, and the job is its own. The call does nothing.
    pub fn keeps_law(&self)
        ensures { IsAtWork K.heap self.now }
    {
        let _of = self.of;
    }

    /// What this copier has claimed nobody else has, whatever others do: in each state that the words and all views may be in beside its seat the job's word
    /// says that this copier has taken it, no other copier has it, and the object has as many words as the job says. And there is such a state. The call
    /// does nothing.
    pub fn what_it_claimed_is_its_own(&self)
        ensures taken { (x : State) → CopierMayBe self.now.seat.view x → IsTakenBy self.now.seat.view.number self.now.job x }
        ensures there { CopierStands self.now.seat.view }
    {
        self.seat.what_it_claimed_is_its_own(&self.job);
    }

    /// Copies the next word from the object's place to the copy's: no other word changes. False where none is left; then nothing changes.
    pub fn copy_word(&mut self) -> bool
        ensures table { self.new.seat.table ≡ self.old.seat.table }
        ensures copied { result ≡ true → (self.new.job ≡ copied_on self.old.job) × CopiedNext self.old.job self.old.seat.view self.new.seat.view }
        ensures ended { result ≡ false → IsCopied self.old.job × (self.new ≡ self.old) }
    {
        self.seat.copy_word(&mut self.job)
    }

    /// Copies the words that are left, and says that the job is done. The copier has none from then on.
    pub fn finish(self) -> Copier<K, D>
        ensures { Finishes self result }
    {
        let Copying {
            mut seat,
            mut job,
            of,
        } = self;
        while seat.copy_word(&mut job) {}
        seat.finish(job);
        Copier { seat, of }
    }
}
