//! An entry more, and more homes: the index is made anew from its own tags.

ghost use Rattle.std.specs.Prelude.{◌≡◌, ◌≢◌, ℕ, ◌+◌, ◌<◌, ◌≤◌, IfOk, OnOk, OnErr, length};
ghost use Rattle.far_index.specs.Slots.{slot_at, home, IsTag};
ghost use Rattle.far_index.specs.Grown.{Placed, Grown};

use crate::index::{Index, free_place, make_place};
use crate::slot::Slot;
use crate::tag::home_of;
use std::alloc::{AllocError, Global};

/// A place for an entry: a slot without one, at its home or later.
pub fn find_place(slots: &mut Index, buckets: usize, tag: u64) -> Result<usize, AllocError>
    requires tag { IsTag tag }
    requires some { 0 < buckets }
    requires fits { buckets ≤ length slots.old }
    ensures same { (j : ℕ) → slot_at slots.new j ≡ slot_at slots.old j }
    ensures longer { length slots.old ≤ length slots.new }
    ensures there { IfOk result (λ place. place < length slots.new) }
    ensures free { IfOk result (λ place. (t h : ℕ) → slot_at slots.old place ≢ Slot.Full t h) }
    ensures low { IfOk result (λ place. home buckets tag ≤ place) }
    ensures full { IfOk result (λ place. (i : ℕ) → home buckets tag ≤ i → i < place → slot_at slots.old i ≢ Slot.Empty) }
{
    let place = free_place(slots, home_of(buckets, tag));
    match make_place(slots, place) {
        Ok(()) => Ok(place),
        Err(why) => Err(why),
    }
}

/// Writes an entry's slot into an index that doesn't have it.
fn move_in(slots: &mut Index, buckets: usize, tag: u64, number: u32) -> Result<(), AllocError>
    requires tag { IsTag tag }
    requires some { 0 < buckets }
    requires fits { buckets ≤ length slots.old }
    ensures { OnOk result (Placed buckets tag number slots.old slots.new) }
{
    let place = match find_place(slots, buckets, tag) {
        Ok(place) => place,
        Err(why) => return Err(why),
    };
    slots.set(place, Slot::Full(tag, number));
    Ok(())
}

/// How many slots an index begins with: its homes, and some past the last one.
pub fn slots_for(buckets: usize) -> usize
    ensures { buckets ≤ result }
{
    buckets
        .saturating_add((buckets / 8).min(4_096))
        .saturating_add(16)
}

/// The index of the same entries with so many homes.
pub fn grown(alloc: Global, old: &Index, buckets: usize) -> Result<Index, AllocError>
    requires { 0 < buckets }
    ensures { IfOk result (λ new. Grown buckets (length old.now) old.now new) }
{
    let mut slots = match Index::new(alloc, slots_for(buckets)) {
        Ok(slots) => slots,
        Err(why) => return Err(why),
    };
    for i in 0..old.len() {
        if let Slot::Full(tag, number) = old.at(i) {
            match move_in(&mut slots, buckets, tag, number) {
                Ok(()) => {}
                Err(why) => return Err(why),
            }
        }
    }
    Ok(slots)
}
