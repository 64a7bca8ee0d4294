//! Steps on the parts of a tally.

ghost use Rattle.std.specs.Prelude.{◌≡◌, ◌<◌, ◌+◌, ◌++◌, ◌∷◌, [], ℕ, List, true, Some, IfOk, IfErr, IfSome, MatchOption, OnOk, OnErr, ◌⊎◌, length, slice_index, slice_set};
ghost use Rattle.std.specs.Bool.{Decides};
ghost use Rattle.far_index.specs.declared.slot.Slot.TheVariants.{Full};
ghost use Rattle.far_index.specs.Slots.{IsTag, Reached, slot_at};
ghost use Rattle.far_index.specs.Tags.{tag_of};
ghost use Rattle.far_large.specs.Parts.{AsBefore};
ghost use Rattle.far_seen.specs.Causes.{IsWhyUnread};
ghost use Rattle.far_seen.specs.Lines.{stamp_of};
ghost use Rattle.far_seen.specs.Listed.{Listed, all_of, stamp_for};
ghost use Rattle.far_seen.specs.Parts.{Has, Sound, plain};
ghost use Rattle.far_seen.specs.Stored.{Stored};

use crate::near::Near;
use crate::parts::Store;
use crate::place::put_line;
use crate::read::holds;
use crate::roll::Roll;
use far_index::{Met, Slot, find_place, home_of};
use far_objects::Objects;
use far_word::Refused;
use std::hash::DefaultHasher;

/// Whether a place's line is this one. `tag` is the line's, and of what was put for the place.
fn is_at<O: Objects + Drop>(
    store: &mut Store<O>,
    numbers: &[u32],
    place: u32,
    seed: &DefaultHasher,
    tag: u64,
    line: &[u8],
) -> Result<bool, Refused>
    requires stored { Stored (O.far store.old.worker) store.old.longs.items }
    requires held { (n : ℕ) × ((all_of (O.far store.old.worker) store.old.longs.items numbers.now).sizes place ≡ Some n) }
    requires tagged { (xs : List ℕ) → (O.far store.old.worker).honest ≡ true → (all_of (O.far store.old.worker) store.old.longs.items numbers.now).bytes place ≡ Some xs → tag ≡ tag_of seed.now xs }
    ensures far { O.far store.new.worker ≡ O.far store.old.worker }
    ensures longs { store.new.longs ≡ store.old.longs }
    ensures holds { (O.far store.old.worker).honest ≡ true → IfOk result (λ there. Decides there ((all_of (O.far store.old.worker) store.old.longs.items numbers.now).bytes place ≡ Some line.now)) }
    ensures long { IfOk result (λ there. there ≡ true → (all_of (O.far store.old.worker) store.old.longs.items numbers.now).sizes place ≡ Some (length line.now)) }
    ensures why { IfErr result (IsWhyUnread O.unreached (O.far store.old.worker).honest) }
{
    match numbers.get(place as usize) {
        Some(number) => holds(store, *number, seed, tag, line),
        None => Ok(false),
    }
}

/// The place of a line, if it came. A slot with another tag, and an object of another length, cost no read.
pub fn find_line<O: Objects + Drop>(
    store: &mut Store<O>,
    numbers: &[u32],
    near: &Near,
    tag: u64,
    line: &[u8],
) -> Result<Option<u32>, Refused>
    requires some { IsTag tag }
    requires tag { tag ≡ tag_of near.now.seed line.now }
    requires stored { Stored (O.far store.old.worker) store.old.longs.items }
    requires sound { Sound (plain (all_of (O.far store.old.worker) store.old.longs.items numbers.now) near.now) }
    ensures far { O.far store.new.worker ≡ O.far store.old.worker }
    ensures longs { store.new.longs ≡ store.old.longs }
    ensures there { (O.far store.old.worker).honest ≡ true → IfOk result (λ found. MatchOption found (Has (all_of (O.far store.old.worker) store.old.longs.items numbers.now).bytes near.now.slots line.now → ⊥) (λ place. (all_of (O.far store.old.worker) store.old.longs.items numbers.now).bytes place ≡ Some line.now)) }
    ensures within { IfOk result (λ found. IfSome found (λ place. place < length numbers.now)) }
    ensures known { IfOk result (λ found. IfSome found (λ place. stamp_for (all_of (O.far store.old.worker) store.old.longs.items numbers.now).sizes near.now.slots place ≡ Some (stamp_of near.now.seed line.now))) }
    ensures why { IfErr result (IsWhyUnread O.unreached (O.far store.old.worker).honest) }
{
    let home = home_of(near.buckets, tag);
    for at in home..near.slots.len() {
        match near.slots.meet(at, tag) {
            Met::End => return Ok(None),
            Met::Other => {}
            Met::Tag(place) => match is_at(store, numbers, place, &near.seed, tag, line) {
                Ok(true) => return Ok(Some(place)),
                Ok(false) => {}
                Err(why) => return Err(why),
            },
        }
    }
    Ok(None)
}

/// Counts a line once more.
pub fn count_again(counts: &mut Vec<u64>, place: usize) -> Result<(), Refused>
    requires { place < length counts.old.items }
    ensures more { OnOk result (counts.new.items ≡ slice_set counts.old.items place (slice_index counts.old.items place + 1)) }
    ensures refused { OnErr result (counts.new.items ≡ counts.old.items) }
    ensures why { IfErr result (λ why. why ≡ Refused.Memory) }
{
    let count = counts[place];
    if count == u64::MAX {
        return Err(Refused::Memory);
    }
    counts[place] = count + 1;
    Ok(())
}

/// Puts a line that didn't come before.
pub fn enter<O: Objects + Drop>(roll: &mut Roll<O>, tag: u64, line: &[u8]) -> Result<(), Refused>
    // the line isn't empty, the tag is its own, the roll is as it should be, and doesn't have it if the worker is honest
    requires some { IsTag tag }
    requires tag { tag ≡ tag_of roll.old.near.seed line.now }
    requires more { 0 < length line.now }
    requires stored { Stored (O.far roll.old.store.worker) roll.old.store.longs.items }
    requires sound { Sound (plain (all_of (O.far roll.old.store.worker) roll.old.store.longs.items roll.old.numbers.items) roll.old.near) }
    requires listed { Listed roll.old.near.slots roll.old.numbers.items roll.old.counts.items }
    requires absent { (O.far roll.old.store.worker).honest ≡ true → Has (all_of (O.far roll.old.store.worker) roll.old.store.longs.items roll.old.numbers.items).bytes roll.old.near.slots line.now → ⊥ }

    // the roll is as it should be, and the worker as honest as it was
    ensures stored { Stored (O.far roll.new.store.worker) roll.new.store.longs.items }
    ensures sound { Sound (plain (all_of (O.far roll.new.store.worker) roll.new.store.longs.items roll.new.numbers.items) roll.new.near) }
    ensures listed { Listed roll.new.near.slots roll.new.numbers.items roll.new.counts.items }
    ensures honest { (O.far roll.new.store.worker).honest ≡ (O.far roll.old.store.worker).honest }

    // done: a line stands behind the others, which came once, and is this one if the worker is honest; in any case no other has changed
    ensures counts { OnOk result (roll.new.counts.items ≡ roll.old.counts.items ++ 1 ∷ []) }
    ensures before { (k : ℕ) → k < length roll.old.numbers.items → (all_of (O.far roll.new.store.worker) roll.new.store.longs.items roll.new.numbers.items).bytes k ≡ (all_of (O.far roll.old.store.worker) roll.old.store.longs.items roll.old.numbers.items).bytes k }
    ensures last { (O.far roll.old.store.worker).honest ≡ true → OnOk result ((all_of (O.far roll.new.store.worker) roll.new.store.longs.items roll.new.numbers.items).bytes (length roll.old.numbers.items) ≡ Some line.now) }

    // of any worker: the seed stays, and so do the stamps of the others; done, the last one has the line's
    ensures seed { roll.new.near.seed ≡ roll.old.near.seed }
    ensures stamps { (k : ℕ) → k < length roll.old.numbers.items → stamp_for (all_of (O.far roll.new.store.worker) roll.new.store.longs.items roll.new.numbers.items).sizes roll.new.near.slots k ≡ stamp_for (all_of (O.far roll.old.store.worker) roll.old.store.longs.items roll.old.numbers.items).sizes roll.old.near.slots k }
    ensures stamp { OnOk result (stamp_for (all_of (O.far roll.new.store.worker) roll.new.store.longs.items roll.new.numbers.items).sizes roll.new.near.slots (length roll.old.numbers.items) ≡ Some (stamp_of roll.old.near.seed line.now)) }

    // refused for want of memory, or as no object was made: the counts are as they were, and so are all objects
    ensures err { OnErr result (roll.new.counts.items ≡ roll.old.counts.items) }
    ensures left { OnErr result (AsBefore (O.far roll.old.store.worker) (O.far roll.new.store.worker)) }
    ensures why { IfErr result (λ why. (why ≡ Refused.Memory) ⊎ O.unmade why) }
{
    let place = roll.numbers.len();
    if roll.near.count == usize::MAX || place >= u32::MAX as usize {
        return Err(Refused::Memory);
    }
    let Ok(()) = roll.numbers.reserve(1) else {
        return Err(Refused::Memory);
    };
    let Ok(()) = roll.counts.reserve(1) else {
        return Err(Refused::Memory);
    };
    let Ok(slot) = find_place(&mut roll.near.slots, roll.near.buckets, tag) else {
        return Err(Refused::Memory);
    };
    let number = match put_line(&mut roll.store, line) {
        Ok(number) => number,
        Err(why) => return Err(why),
    };
    roll.near.slots.set(slot, Slot::Full(tag, place as u32));
    roll.near.count += 1;
    roll.numbers.push_reserved(number);
    roll.counts.push_reserved(1);
    Ok(())
}

/// Whether a slot has this tag and this place.
pub fn has_slot(near: &Near, tag: u64, place: usize) -> bool
    requires tag { IsTag tag }
    requires some { 0 < near.now.buckets }
    requires reached { Reached near.now.buckets near.now.slots }
    ensures finds { (j : ℕ) → slot_at near.now.slots j ≡ Full tag place → result ≡ true }
    ensures found { result ≡ true → (j : ℕ) × (slot_at near.now.slots j ≡ Full tag place) }
{
    let home = home_of(near.buckets, tag);
    for at in home..near.slots.len() {
        match near.slots.meet(at, tag) {
            Met::End => return false,
            Met::Other => {}
            Met::Tag(other) => {
                if other as usize == place {
                    return true;
                }
            }
        }
    }
    false
}
