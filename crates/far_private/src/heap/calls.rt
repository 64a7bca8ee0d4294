//! Calls of a heap beside those that make, read, write and drop an object: objects of given bytes, changes in one go, what is told without a
//! fetch, rounds that are asked for, statistics.

ghost use Rattle.std.specs.Prelude.{◌≡◌, ◌+◌, ◌*◌, ◌^◌, ◌<◌, ◌≤◌, ℕ, List, true, false, None, Some, Ok, Err, IfOk, IfErr, OnErr, OnOk, is_some, length, filter};
ghost use Rattle.std.specs.Fn.{FnOnceReturnsAtMut, FnOnceTakesAtMut};
ghost use Rattle.far_word.specs.declared.refused.Refused.{Refused as Refusal};
ghost use Rattle.far_word.specs.declared.refused.Refused.TheVariants.{Length, NoPointer, NoRoom};
ghost use Rattle.far_word.specs.declared.sizes.TheConstants.{POINTERS};
ghost use Rattle.far_log.specs.declared.row.LogRow.{LogRow};
ghost use Rattle.far_private.specs.Causes.{IsNotGiven, IsNotTaken};
ghost use Rattle.far_private.specs.Changes.{Updates};
ghost use Rattle.far_private.specs.FarBytes.{AreFar};
ghost use Rattle.far_private.specs.NoRound.{IsNoRound};
ghost use Rattle.far_private.specs.Heap.{IsFull, IsWhyNoAccess, IsWhyNoObject, access_refusal, has, is_length, len_in, object, size_of, structure_of, with_made, object_with};

use crate::changing::change_range;
use crate::counting::{Statistics, tell};
use crate::freeing::free_logs;
use crate::heap::PrivateHeap;
use crate::looking;
use crate::making::place_with;
use crate::places::free_pointer;
use far_device::Device;
use far_policy::Policy;
use far_word::{LONGEST, Refused};

impl<D: Device + Drop> PrivateHeap<D> {
    /// Makes an object of these bytes, and answers its pointer, which had none.
    ///
    /// Refused as [`PrivateHeap::alloc`] is. Nothing has changed then.
    #[inline(always)]
    pub fn alloc_with(&mut self, bytes: &[u8], structure: u8) -> Result<u16, Refused>
        ensures made { IfOk result (λ p. (p < POINTERS) × (object self.old p ≡ None) × (self.new ≡ with_made p structure bytes.now self.old)) }
        ensures object { IfOk result (λ p. object self.new p ≡ Some (object_with self.old.honest structure bytes.now)) }
        ensures done { OnOk result (is_length (length bytes.now) ≡ true) }
        ensures refused { OnErr result (self.new ≡ self.old) }
        ensures long { is_length (length bytes.now) ≡ false → result ≡ Err Length }
        ensures full { is_length (length bytes.now) ≡ true → IsFull self.old → result ≡ Err NoPointer }
        ensures why { IfErr result (λ why. IsWhyNoObject self.old (length bytes.now) why) }
        ensures room { result ≡ Err NoRoom → 3 ≤ self.old.logs → IsNotTaken D D.writes (object self.old) }
    {
        if !is_object(bytes) {
            return Err(Refused::Length);
        }
        let Some(pointer) = free_pointer(&self.evac, &self.free) else {
            return Err(Refused::NoPointer);
        };
        match place_with(&mut self.evac, pointer, bytes, structure) {
            Ok(()) => {
                self.free.remove(pointer);
                Ok(pointer)
            }
            Err(why) => Err(why),
        }
    }

    /// Reads bytes of an object, from one on, as many as there is room for, has them changed by one call of `change`, and writes them back: one
    /// access, where [`PrivateHeap::read`] and [`PrivateHeap::write`] are two. `bytes` has what was written then.
    ///
    /// Refused as `write`. Nothing has changed then, and `change` wasn't called.
    pub fn update<F: FnOnce(&mut [u8])>(
        &mut self,
        pointer: u16,
        from: usize,
        bytes: &mut [u8],
        change: F,
    ) -> Result<(), Refused>
        requires takes { (read : List ℕ) → length read ≡ length bytes.old → FnOnceTakesAtMut F.FnOnce change read }
        ensures changed { OnOk result (Updates (FnOnceReturnsAtMut F.FnOnce change) pointer from (length bytes.old) bytes.new self.old self.new) }
        ensures done { OnOk result (access_refusal self.old pointer from (length bytes.old) ≡ None) }
        ensures refused { OnErr result (self.new ≡ self.old) }
        ensures kept { OnErr result (bytes.new ≡ bytes.old) }
        ensures barred { (why : Refusal) → access_refusal self.old pointer from (length bytes.old) ≡ Some why → result ≡ Err why }
        ensures why { IfErr result (λ why. IsWhyNoAccess self.old.honest (access_refusal self.old pointer from (length bytes.old)) why) }
        ensures room { result ≡ Err NoRoom → 3 ≤ self.old.logs → IsNotTaken D D.writes (object self.old) }
        ensures given { IfErr result (λ why. IsNotGiven D D.reads pointer (len_in self.old pointer) why) }
    {
        change_range(&mut self.evac, pointer, from, bytes, change)
    }

    /// How many bytes the object of a pointer has, 1 to 4,088; `None` where it has none. Nothing is fetched.
    pub fn len_of(&self, pointer: u16) -> Option<u16>
        ensures { result ≡ size_of (object self.now pointer) }
    {
        looking::len_of(&self.evac, pointer)
    }

    /// Of which data structure the object of a pointer is; `None` where it has none. Nothing is fetched.
    pub fn structure_of(&self, pointer: u16) -> Option<u8>
        ensures { result ≡ structure_of (object self.now pointer) }
    {
        looking::structure_of(&self.evac, pointer)
    }

    /// Whether a pointer has an object. Nothing is fetched.
    pub fn holds(&self, pointer: u16) -> bool
        ensures { result ≡ has self.now pointer }
    {
        looking::holds(&self.evac, pointer)
    }

    /// Makes a round of logs that a policy names, at most `most`, and answers how many of them it gave back: fewer than were named where objects
    /// in them don't leave, as the device fails. No object changes.
    ///
    /// Refused where no round begins, in this order: [`Refused::EpochsSpent`] where 2^62 rounds were made, and then the policy isn't asked; and
    /// [`Refused::BadChoice`] as the policy refuses.
    pub fn make_room<P: Policy>(&mut self, policy: &mut P, most: usize) -> Result<usize, Refused>
        ensures same { self.new ≡ self.old }
        ensures few { IfOk result (λ freed. freed ≤ most) }
        ensures named { IfOk result (λ freed. (rows : List LogRow) × (logs : List ℕ) × P.gives policy.old rows most (Ok logs) policy.new × (freed ≤ length logs)) }
        ensures refused { IfErr result (λ why. IsNoRound P.gives policy.old policy.new most why) }
    {
        free_logs(&mut self.evac, policy, most)
    }

    /// What the heap has, and what it has done since it was made. Nothing changes.
    pub fn statistics(&self) -> Statistics
        ensures objects { result.near + result.far ≡ length (filter is_some self.now.objects) }
        ensures far { AreFar self.now result.far result.far_bytes result.live }
        ensures bytes { result.live + result.dead + result.unused ≡ 4096 * self.now.logs }
        ensures spared { result.writes_spared ≤ result.evictions }
        ensures rounds { result.rounds < 2 ^ 62 }
    {
        tell(&self.evac, self.glances.looks())
    }
}

// Whether bytes are as many as an object may have.
fn is_object(bytes: &[u8]) -> bool
    ensures { result ≡ is_length (length bytes.now) }
{
    bytes.len() != 0 && bytes.len() <= LONGEST as usize
}
