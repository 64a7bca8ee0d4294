//! Steps on the parts of a set.

ghost use Rattle.std.specs.Prelude.{◌≡◌, ◌<◌, ◌+◌, ◌/◌, ℕ, true, Some, IfOk, IfErr, OnOk, OnErr, ◌⊎◌, length};
ghost use Rattle.std.specs.Bool.{Decides};
ghost use Rattle.std.specs.FinSet as set;
ghost use Rattle.far_objects.specs.Far.{Far};
ghost use Rattle.far_index.specs.Slots.{IsTag, slot_at};
ghost use Rattle.far_index.specs.Tags.{tag_of};
ghost use Rattle.far_large.specs.Parts.{AsBefore};
ghost use Rattle.far_seen.specs.Causes.{IsWhyUnread};
ghost use Rattle.far_seen.specs.Lines.{stamp_of};
ghost use Rattle.far_seen.specs.Parts.{Has, HasStamp, Sound, lines_of, plain};
ghost use Rattle.far_seen.specs.Stored.{Stored, with_longs};

use crate::near::Near;
use crate::parts::Parts;
use crate::place::put_line;
use crate::read::holds;
use far_index::{Met, Slot, find_place, grown, home_of};
use far_objects::Objects;
use far_word::Refused;
use std::alloc::Global;

/// Whether a line is in the set. A slot with another tag, and an object of another length, cost no read.
pub fn find<O: Objects + Drop>(parts: &mut Parts<O>, tag: u64, line: &[u8]) -> Result<bool, Refused>
    // the tag is the line's, and the set is as it should be
    requires some { IsTag tag }
    requires tag { tag ≡ tag_of parts.old.near.seed line.now }
    requires stored { Stored (O.far parts.old.store.worker) parts.old.store.longs.items }
    requires sound { Sound (plain (with_longs (O.far parts.old.store.worker) parts.old.store.longs.items) parts.old.near) }

    // set and worker are as they were
    ensures far { O.far parts.new.store.worker ≡ O.far parts.old.store.worker }
    ensures longs { parts.new.store.longs ≡ parts.old.store.longs }
    ensures near { parts.new.near ≡ parts.old.near }

    // done: whether the line is there, if the worker is honest; of any worker it is only where its hash and length are
    ensures there { (O.far parts.old.store.worker).honest ≡ true → IfOk result (λ there. Decides there (Has (with_longs (O.far parts.old.store.worker) parts.old.store.longs.items).bytes parts.old.near.slots line.now)) }
    ensures known { IfOk result (λ there. there ≡ true → HasStamp (with_longs (O.far parts.old.store.worker) parts.old.store.longs.items).sizes parts.old.near.slots (stamp_of parts.old.near.seed line.now)) }

    // refused only as a line wasn't read
    ensures why { IfErr result (IsWhyUnread O.unreached (O.far parts.old.store.worker).honest) }
{
    let home = home_of(parts.near.buckets, tag);
    for place in home..parts.near.slots.len() {
        match parts.near.slots.meet(place, tag) {
            Met::End => return Ok(false),
            Met::Other => {}
            Met::Tag(number) => {
                match holds(&mut parts.store, number, &parts.near.seed, tag, line) {
                    Ok(true) => return Ok(true),
                    Ok(false) => {}
                    Err(why) => return Err(why),
                }
            }
        }
    }
    Ok(false)
}

/// Puts a line that isn't in the set.
pub fn add<O: Objects + Drop>(parts: &mut Parts<O>, tag: u64, line: &[u8]) -> Result<(), Refused>
    // the line isn't empty, the tag is its own, and the set is as it should be, and doesn't have it if the worker is honest
    requires some { IsTag tag }
    requires tag { tag ≡ tag_of parts.old.near.seed line.now }
    requires more { 0 < length line.now }
    requires stored { Stored (O.far parts.old.store.worker) parts.old.store.longs.items }
    requires sound { Sound (plain (with_longs (O.far parts.old.store.worker) parts.old.store.longs.items) parts.old.near) }
    requires absent { (O.far parts.old.store.worker).honest ≡ true → Has (with_longs (O.far parts.old.store.worker) parts.old.store.longs.items).bytes parts.old.near.slots line.now → ⊥ }

    // the set is as it should be, and the worker as honest as it was
    ensures stored { Stored (O.far parts.new.store.worker) parts.new.store.longs.items }
    ensures sound { Sound (plain (with_longs (O.far parts.new.store.worker) parts.new.store.longs.items) parts.new.near) }
    ensures honest { (O.far parts.new.store.worker).honest ≡ (O.far parts.old.store.worker).honest }

    // done, if the worker is honest: the set has the line beside those that it had
    ensures ok { (O.far parts.old.store.worker).honest ≡ true → OnOk result ((lines_of (plain (with_longs (O.far parts.new.store.worker) parts.new.store.longs.items) parts.new.near)).lines ≡ set.insert (lines_of (plain (with_longs (O.far parts.old.store.worker) parts.old.store.longs.items) parts.old.near)).lines line.now) }

    // of any worker: the seed stays; done, the line's hash and length are there beside the others
    ensures seed { parts.new.near.seed ≡ parts.old.near.seed }
    ensures stamps { OnOk result ((lines_of (plain (with_longs (O.far parts.new.store.worker) parts.new.store.longs.items) parts.new.near)).stamps ≡ set.insert (lines_of (plain (with_longs (O.far parts.old.store.worker) parts.old.store.longs.items) parts.old.near)).stamps (stamp_of parts.old.near.seed line.now)) }

    // refused for want of memory, or as no object was made: the lines are as they were, and so are all objects
    ensures err { OnErr result (lines_of (plain (with_longs (O.far parts.new.store.worker) parts.new.store.longs.items) parts.new.near) ≡ lines_of (plain (with_longs (O.far parts.old.store.worker) parts.old.store.longs.items) parts.old.near)) }
    ensures left { OnErr result (AsBefore (O.far parts.old.store.worker) (O.far parts.new.store.worker)) }
    ensures why { IfErr result (λ why. (why ≡ Refused.Memory) ⊎ O.unmade why) }
{
    if parts.near.count == usize::MAX {
        return Err(Refused::Memory);
    }
    let place = match find_place(&mut parts.near.slots, parts.near.buckets, tag) {
        Ok(place) => place,
        Err(_) => return Err(Refused::Memory),
    };
    let number = match put_line(&mut parts.store, line) {
        Ok(number) => number,
        Err(why) => return Err(why),
    };
    parts.near.slots.set(place, Slot::Full(tag, number));
    parts.near.count += 1;
    Ok(())
}

fn twice(buckets: usize) -> usize
    requires { 0 < buckets }
    ensures { 0 < result }
{
    buckets.saturating_mul(2)
}

/// Makes the index anew where seven eighths of its homes are taken: twice as large. If there is no memory for it, the old one goes on.
#[inline(always)]
pub fn make_roomy(alloc: Global, near: &mut Near)
    ensures few { near.old.count + near.old.buckets / 8 < near.old.buckets → near.new ≡ near.old }
    ensures sound { (f : Far) → Sound (plain f near.old) → Sound (plain f near.new) }
    ensures same { (f : Far) → Sound (plain f near.old) → lines_of (plain f near.new) ≡ lines_of (plain f near.old) }
    ensures kept { (j t h : ℕ) → slot_at near.old.slots j ≡ Slot.Full t h → (i : ℕ) × (slot_at near.new.slots i ≡ Slot.Full t h) }
{
    let buckets = near.buckets;
    if buckets == 0 || near.count < buckets - buckets / 8 {
        return;
    }
    make_anew(alloc, near);
}

/// The same, where they are. Seldom called, and so apart from what is called for each line.
#[cold]
#[inline(never)]
fn make_anew(alloc: Global, near: &mut Near)
    requires { 0 < near.old.buckets }
    ensures sound { (f : Far) → Sound (plain f near.old) → Sound (plain f near.new) }
    ensures same { (f : Far) → Sound (plain f near.old) → lines_of (plain f near.new) ≡ lines_of (plain f near.old) }
    ensures kept { (j t h : ℕ) → slot_at near.old.slots j ≡ Slot.Full t h → (i : ℕ) × (slot_at near.new.slots i ≡ Slot.Full t h) }
{
    let buckets = near.buckets;
    let more = twice(buckets);
    let Ok(slots) = grown(alloc, &near.slots, more) else {
        return;
    };
    near.slots = slots;
    near.buckets = more;
}
