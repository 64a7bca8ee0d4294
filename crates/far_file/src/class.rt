//! The slots of one size.

ghost use Rattle.std.specs.Prelude.{ℕ, ◌≡◌, ◌<◌, ◌≤◌, [], true, false, Some, IfOk, IfErr, IfSome, IfNone, OnErr, length};
ghost use Rattle.std.specs.List.{slice_get};
ghost use Rattle.std.specs.Vec.{vec_len};
ghost use Rattle.far_file.specs.Free.{IsFree, IsOwned};
ghost use Rattle.far_file.specs.declared.place.TheConstants.{KEYS, SLOTS};

use crate::place::{KEYS, SLOTS, STEP};
use std::alloc::Global;

/// Why no slot could be had: for want of memory, since keys have all slots, or since there is no extent for it.
#[derive(Clone, Copy, Debug, PartialEq, Eq)]
pub(crate) enum Want {
    Memory,
    Slot,
    Extent,
}

/// The slots of one size, each with the key that has it.
#[derive(Debug, Drop)]
pub(crate) struct Class {
    // Of each slot its key, or if it's free, a number above the keys that says where to look next.
    pub(crate) owners: Vec<u16>,
    // Where to look first for a free one. It may be wrong: no slot is taken that has a key.
    pub(crate) next: u16,
    ghost few: { vec_len owners ≤ SLOTS },
}

impl Class {
    ghost use Rattle.far_file.specs.Free.{AreOwned, KeepsSlots, KeepsSlotsBut};
    ghost use Rattle.far_file.specs.Out.{IsOut};

    /// No slots yet.
    pub(crate) fn new(alloc: Global) -> Class
        ensures { result.owners.items ≡ [] }
    {
        Class {
            owners: Vec::new(alloc),
            next: SLOTS as u16,
        }
    }

    /// Gives a free slot to a key.
    pub(crate) fn take(&mut self, key: u16) -> Result<u16, Want>
        requires { key < KEYS }
        ensures others { KeepsSlots (slice_get self.old.owners.items) (slice_get self.new.owners.items) }
        ensures free { IfOk result (λ slot. IsFree (slice_get self.old.owners.items slot)) }
        ensures own { IfOk result (λ slot. slice_get self.new.owners.items slot ≡ Some key) }
        ensures low { IfOk result (λ slot. slot < SLOTS) }
        ensures rest { IfOk result (KeepsSlotsBut (slice_get self.old.owners.items) (slice_get self.new.owners.items)) }
        ensures refused { OnErr result (self.new.owners.items ≡ self.old.owners.items) }
        ensures out { IfErr result (IsOut (AreOwned (slice_get self.new.owners.items)) ⊥) }
    {
        let slot = self.next;
        let Some(owner) = self.owners.get_mut(slot as usize) else {
            return self.make(key);
        };
        if (*owner as u32) < KEYS {
            return self.make(key);
        }
        self.next = *owner - KEYS as u16;
        *owner = key;
        Ok(slot)
    }

    // Gives a new slot to a key.
    fn make(&mut self, key: u16) -> Result<u16, Want>
        requires { key < KEYS }
        ensures others { KeepsSlots (slice_get self.old.owners.items) (slice_get self.new.owners.items) }
        ensures free { IfOk result (λ slot. IsFree (slice_get self.old.owners.items slot)) }
        ensures own { IfOk result (λ slot. slice_get self.new.owners.items slot ≡ Some key) }
        ensures low { IfOk result (λ slot. slot < SLOTS) }
        ensures rest { IfOk result (KeepsSlotsBut (slice_get self.old.owners.items) (slice_get self.new.owners.items)) }
        ensures refused { OnErr result (self.new.owners.items ≡ self.old.owners.items) }
        ensures out { IfErr result (IsOut (AreOwned (slice_get self.new.owners.items)) ⊥) }
    {
        let slot = self.owners.len();
        if slot >= SLOTS as usize {
            return self.find(key);
        }
        if !has_room(&mut self.owners) {
            return Err(Want::Memory);
        }
        match self.owners.push(key) {
            Ok(()) => Ok(slot as u16),
            Err(_) => Err(Want::Memory),
        }
    }

    // Gives a key any free slot, where the class may have no more. While the list of free slots says the truth, this isn't called: there are more slots than keys.
    fn find(&mut self, key: u16) -> Result<u16, Want>
        requires key { key < KEYS }
        requires full { SLOTS ≤ vec_len self.old.owners }
        ensures others { KeepsSlots (slice_get self.old.owners.items) (slice_get self.new.owners.items) }
        ensures free { IfOk result (λ slot. IsFree (slice_get self.old.owners.items slot)) }
        ensures own { IfOk result (λ slot. slice_get self.new.owners.items slot ≡ Some key) }
        ensures low { IfOk result (λ slot. slot < SLOTS) }
        ensures rest { IfOk result (KeepsSlotsBut (slice_get self.old.owners.items) (slice_get self.new.owners.items)) }
        ensures refused { OnErr result (self.new.owners.items ≡ self.old.owners.items) }
        ensures out { IfErr result (IsOut (AreOwned (slice_get self.new.owners.items)) ⊥) }
    {
        let Some(slot) = first_free(self.owners.as_slice()) else {
            return Err(Want::Slot);
        };
        self.owners[slot] = key;
        Ok(slot as u16)
    }

    /// How many slots keys have.
    pub(crate) fn owned(&self) -> u64 {
        let mut owned: u64 = 0;
        for owner in self.owners.as_slice() {
            let key = *owner as u32;
            if key < KEYS {
                owned = owned.saturating_add(1);
            }
        }
        owned
    }

    /// Takes a slot from the key that has it.
    pub(crate) fn free(&mut self, slot: u16)
        ensures others { KeepsSlotsBut (slice_get self.old.owners.items) (slice_get self.new.owners.items) slot }
        ensures freed { IsFree (slice_get self.new.owners.items slot) }
    {
        if let Some(owner) = self.owners.get_mut(slot as usize) {
            *owner = self.next.saturating_add(KEYS as u16);
            self.next = slot;
        }
    }
}

// The first slot that no key has.
#[tactic(auto, using(crate::proofs::Owned::one_more))]
fn first_free(owners: &[u16]) -> Option<usize>
    ensures some { IfSome result (λ slot. (slot < length owners.now) × IsFree (slice_get owners.now slot)) }
    ensures none { IfNone result ((slot : ℕ) → slot < length owners.now → IsOwned (slice_get owners.now slot)) }
{
    for slot in 0..owners.len() {
        if !is_owned(owners, slot) {
            return Some(slot);
        }
    }
    None
}

// Whether a key has a slot.
fn is_owned(owners: &[u16], slot: usize) -> bool
    ensures yes { result ≡ true → IsOwned (slice_get owners.now slot) }
    ensures no { result ≡ false → IsFree (slice_get owners.now slot) }
{
    match owners.get(slot) {
        Some(owner) => (*owner as u32) < KEYS,
        None => false,
    }
}

// Takes memory for a slot more, and some besides: not for as many as there are, most of which are never used.
fn has_room(owners: &mut Vec<u16>) -> bool
    ensures { owners.new.items ≡ owners.old.items }
{
    owners.len() < owners.capacity() || owners.reserve_exact(STEP).is_ok()
}
