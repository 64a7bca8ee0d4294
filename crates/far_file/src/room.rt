//! The slots of a device, and the extents on which they are.

ghost use Rattle.std.specs.Prelude.{ℕ, ◌≡◌, ◌<◌, ◌≤◌, ◌+◌, ◌^◌, true, false, slice_index, Some, IfOk, IfErr, IfSome, IfNone, IsTrue, OnErr, OnOk};
ghost use Rattle.std.specs.Vec.{vec_len};
ghost use Rattle.far_file.specs.Free.{AreOwned, IsFree, KeepsOwned, KeepsOwnedBut};
ghost use Rattle.far_file.specs.Where.{AreApart, HasExtent, KeepsExtents, page_in, slot_at};
ghost use Rattle.far_file.specs.declared.place.TheConstants.{CLASSES, KEYS, SLOTS};

use crate::class::{Class, Want};
use crate::extents::Extents;
use crate::place::{CLASSES, EXTENT, STEP, page_of, place_on_page};
use crate::statistics::ClassStatistics;
use std::alloc::Global;

/// The slots of a device, and the extents on which they are.
#[derive(Drop)]
pub(crate) struct Room {
    pub(crate) classes: [Class; 7],
    // The extent of each page, as far as one was needed; 0 is none.
    pub(crate) extents: Vec<u32>,
    // All of them are below this one.
    pub(crate) below: u32,
    // Who gives out extents, if others use the storage too.
    pub(crate) shared: Option<Extents>,
    ghost apart: { AreApart extents.items below },
}

impl Room {
    ghost use Rattle.far_file.specs.Owning.{owner_in};
    ghost use Rattle.far_file.specs.Out.{HasNoMore, IsOut};

    /// No slots, and no extents.
    pub(crate) fn new(alloc: Global, shared: Option<Extents>) -> Room {
        Room {
            classes: [
                Class::new(alloc),
                Class::new(alloc),
                Class::new(alloc),
                Class::new(alloc),
                Class::new(alloc),
                Class::new(alloc),
                Class::new(alloc),
            ],
            extents: Vec::new(alloc),
            below: 1,
            shared,
        }
    }

    /// Gives a free slot to a key, on a page that has an extent.
    #[tactic(auto, using(crate::proofs::Lost::taken_back, crate::proofs::Lost::as_before))]
    pub(crate) fn take(&mut self, class: usize, key: u16) -> Result<u16, Want>
        // a size of slots, and a key
        requires class { class < CLASSES }
        requires key { key < KEYS }

        // no other slot goes to another key, and pages keep their extents
        ensures owned { KeepsOwned (owner_in self.old.classes) (owner_in self.new.classes) }
        ensures rest { IfOk result (KeepsOwnedBut (owner_in self.old.classes) (owner_in self.new.classes) class) }
        ensures extents { KeepsExtents self.old.extents.items self.new.extents.items }

        // done: a slot that nobody had is the key's, on a page that has an extent
        ensures free { IfOk result (λ slot. IsFree (owner_in self.old.classes class slot)) }
        ensures own { IfOk result (λ slot. owner_in self.new.classes class slot ≡ Some key) }
        ensures low { IfOk result (λ slot. slot < SLOTS) }
        ensures there { IfOk result (λ slot. HasExtent self.new.extents.items (page_in class slot)) }

        // refused: no key has a slot more; for want of memory, or as all slots are taken, or as the storage has no more extents
        ensures left { OnErr result (KeepsOwned (owner_in self.new.classes) (owner_in self.old.classes)) }
        ensures out { IfErr result (IsOut (AreOwned (owner_in self.new.classes class)) (HasNoMore self.new.below self.new.shared)) }
    {
        let slot = match self.pick(class, key) {
            Ok(slot) => slot,
            Err(want) => return Err(want),
        };
        match self.reach(page_of(class, slot) as usize) {
            Ok(()) => Ok(slot),
            Err(want) => {
                self.free(class, slot);
                Err(want)
            }
        }
    }

    // Gives a free slot to a key.
    fn pick(&mut self, class: usize, key: u16) -> Result<u16, Want>
        // a size of slots, and a key
        requires class { class < CLASSES }
        requires key { key < KEYS }

        // no other slot goes to another key, and extents stay
        ensures owned { KeepsOwned (owner_in self.old.classes) (owner_in self.new.classes) }
        ensures rest { IfOk result (KeepsOwnedBut (owner_in self.old.classes) (owner_in self.new.classes) class) }
        ensures extents { self.new.extents ≡ self.old.extents }

        // done: a slot that nobody had is the key's
        ensures free { IfOk result (λ slot. IsFree (owner_in self.old.classes class slot)) }
        ensures own { IfOk result (λ slot. owner_in self.new.classes class slot ≡ Some key) }
        ensures low { IfOk result (λ slot. slot < SLOTS) }

        // refused: each slot is whose it was; for want of memory, or as all slots are taken
        ensures left { OnErr result ((c s : ℕ) → owner_in self.new.classes c s ≡ owner_in self.old.classes c s) }
        ensures out { IfErr result (IsOut (AreOwned (owner_in self.new.classes class)) ⊥) }
    {
        self.classes[class].take(key)
    }

    /// Takes a slot from the key that has it.
    pub(crate) fn free(&mut self, class: usize, slot: u16)
        requires { class < CLASSES }
        ensures others { KeepsOwnedBut (owner_in self.old.classes) (owner_in self.new.classes) class slot }
        ensures freed { IsFree (owner_in self.new.classes class slot) }
        ensures extents { self.new.extents ≡ self.old.extents }
        ensures below { self.new.below ≡ self.old.below }
        ensures shared { self.new.shared ≡ self.old.shared }
    {
        self.classes[class].free(slot);
    }

    // Sees that a page has an extent.
    fn reach(&mut self, page: usize) -> Result<(), Want>
        requires { page < 2 ^ 32 }
        ensures there { OnOk result (HasExtent self.new.extents.items page) }
        ensures extents { KeepsExtents self.old.extents.items self.new.extents.items }
        ensures classes { self.new.classes ≡ self.old.classes }
        ensures out { IfErr result (IsOut ⊥ (HasNoMore self.new.below self.new.shared)) }
    {
        if self.has(page) {
            return Ok(());
        }
        if !self.grow(page + 1) {
            return Err(Want::Memory);
        }
        self.give(page)
    }

    // Whether a page has an extent.
    fn has(&self, page: usize) -> bool
        ensures yes { result ≡ true → HasExtent self.now.extents.items page }
        ensures no { result ≡ false → slice_index self.now.extents.items page ≡ 0 }
    {
        match self.extents.get(page) {
            Some(extent) => *extent > 0,
            None => false,
        }
    }

    // Makes room for the extents of so many pages.
    fn grow(&mut self, pages: usize) -> bool
        ensures long { IsTrue result → pages ≤ vec_len self.new.extents }
        ensures same { (p : ℕ) → slice_index self.new.extents.items p ≡ slice_index self.old.extents.items p }
        ensures classes { self.new.classes ≡ self.old.classes }
    {
        lengthen(&mut self.extents, pages)
    }

    // Gives a page that has none an extent.
    fn give(&mut self, page: usize) -> Result<(), Want>
        requires within { page < vec_len self.old.extents }
        requires none { slice_index self.old.extents.items page ≡ 0 }
        ensures there { OnOk result (HasExtent self.new.extents.items page) }
        ensures extents { KeepsExtents self.old.extents.items self.new.extents.items }
        ensures classes { self.new.classes ≡ self.old.classes }
        ensures out { IfErr result (IsOut ⊥ (HasNoMore self.new.below self.new.shared)) }
    {
        let Some(extent) = self.next() else {
            return Err(Want::Extent);
        };
        self.extents[page] = extent;
        self.below = extent + 1;
        Ok(())
    }

    // An extent that no page of the device has. Whoever gave the number, one that isn't above all that it had isn't taken.
    #[tactic(auto, using(crate::proofs::Outs::none_left))]
    fn next(&self) -> Option<u32>
        ensures some { IfSome result (λ extent. (self.now.below ≤ extent) × (extent + 1 < 2 ^ 32)) }
        ensures none { IfNone result (HasNoMore self.now.below self.now.shared) }
    {
        let number = self.number();
        if number < self.below as u64 || number >= u32::MAX as u64 {
            return None;
        }
        Some(number as u32)
    }

    // The number of the next extent: if others use the storage too, one that none of them is given.
    fn number(&self) -> u64
        ensures { IfNone self.now.shared (result ≡ self.now.below) }
    {
        match &self.shared {
            Some(extents) => extents.next(),
            None => self.below as u64,
        }
    }

    /// What keys have of each class.
    pub(crate) fn statistics(&self) -> [ClassStatistics; CLASSES] {
        let mut all = [ClassStatistics {
            slots: 0,
            extents: 0,
        }; CLASSES];
        for class in 0..CLASSES {
            all[class] = ClassStatistics {
                slots: self.classes[class].owned(),
                extents: self.extents_of(class),
            };
        }
        all
    }

    // How many extents the slots of a class have.
    fn extents_of(&self, class: usize) -> u64
        requires { class < CLASSES }
    {
        let first = page_of(class, 0) as usize;
        let mut extents: u64 = 0;
        for page in first..2 * first {
            extents = extents.saturating_add(self.has(page) as u64);
        }
        extents
    }

    /// Where the last extent ends.
    pub(crate) fn end(&self) -> u64 {
        self.below as u64 * EXTENT
    }

    /// Where a slot is in the storage.
    pub(crate) fn at(&self, class: usize, slot: u16) -> u64
        requires class { class < CLASSES }
        requires slot { slot < SLOTS }
        ensures { result ≡ slot_at self.now.extents.items class slot }
    {
        let extent = match self.extents.get(page_of(class, slot) as usize) {
            Some(extent) => *extent,
            None => 0,
        };
        extent as u64 * EXTENT + place_on_page(class, slot)
    }
}

// Makes room for the extents of so many pages. After `false`, where memory was refused, they are as before.
fn lengthen(extents: &mut Vec<u32>, pages: usize) -> bool
    ensures long { IsTrue result → pages ≤ vec_len extents.new }
    ensures same { (k : ℕ) → slice_index extents.new.items k ≡ slice_index extents.old.items k }
{
    if pages > extents.capacity() && !has_room(extents, pages) {
        return false;
    }
    fill_up(extents, pages)
}

// Takes memory for so many pages, and some more.
fn has_room(extents: &mut Vec<u32>, pages: usize) -> bool
    ensures { extents.new.items ≡ extents.old.items }
{
    let wanted = pages.saturating_sub(extents.len());
    extents.reserve_exact(wanted.saturating_add(STEP)).is_ok()
}

// Adds pages without an extent.
fn fill_up(extents: &mut Vec<u32>, pages: usize) -> bool
    ensures long { IsTrue result → pages ≤ vec_len extents.new }
    ensures same { (k : ℕ) → slice_index extents.new.items k ≡ slice_index extents.old.items k }
{
    if pages <= extents.len() {
        return true;
    }
    extents.resize(pages, 0).is_ok()
}
