//! Steps that change the parts of a map.

ghost use Rattle.std.specs.Prelude.{◌≡◌, ◌≢◌, ℕ, ◌+◌, ◌<◌, ◌⊎◌, true, Some, IfOk, IfErr, OnErr, OnOk, length};
ghost use Rattle.std.specs.FinMap as map;
ghost use Rattle.far_objects.specs.Far.{Drops, is_length};
ghost use Rattle.far_index.specs.Slots.{slot_at};
ghost use Rattle.far_index.specs.Slots.{IsTag};
ghost use Rattle.far_index.specs.Tags.{tag_of};
ghost use Rattle.far_map.specs.Entries.{encoded, key_in};
ghost use Rattle.far_map.specs.Finding.{Stands};
ghost use Rattle.far_map.specs.Slots.{Left, key_at};
ghost use Rattle.far_map.specs.Plain.{Sound, plain, table_of};

use crate::lookup::Found;
use crate::parts::Parts;
use far_index::{Slot, find_place};
use far_objects::Objects;
use far_word::Refused;

/// Drops an object that is there: that is never refused.
fn let_go<O: Objects + Drop>(worker: &mut O, number: u32)
    requires { (n : ℕ) × ((O.far worker.old).sizes number ≡ Some n) }
    ensures { Drops number (O.far worker.old) (O.far worker.new) }
{
    let _ = worker.drop_object(number);
}

/// A new entry, whose key is in no slot.
pub fn add<O: Objects + Drop>(
    parts: &mut Parts<O>,
    tag: u64,
    bytes: &[u8],
    key: &[u8],
    value: &[u8],
) -> Result<(), Refused>
    // the bytes are the entry of key and value, and no more than an object has; the tag is the key's, the table is as it should be, and if the worker is honest no slot has
    // the key
    requires some { IsTag tag }
    requires tag { tag ≡ tag_of parts.old.near.seed key.now }
    requires bytes { bytes.now ≡ encoded key.now value.now }
    requires fits { is_length (length bytes.now) ≡ true }
    requires sound { Sound (plain (O.far parts.old.worker) parts.old.near) }
    requires absent { (O.far parts.old.worker).honest ≡ true → (i : ℕ) → key_at (O.far parts.old.worker).bytes parts.old.near.slots i ≢ Some key.now }

    // the table is as it should be, and the worker as honest as it was
    ensures sound { Sound (plain (O.far parts.new.worker) parts.new.near) }
    ensures honest { (O.far parts.new.worker).honest ≡ (O.far parts.old.worker).honest }

    // done, if the worker is honest: the key has this value, and no other entry has changed
    ensures ok { (O.far parts.old.worker).honest ≡ true → OnOk result ((table_of (plain (O.far parts.new.worker) parts.new.near)).entries ≡ map.insert (table_of (plain (O.far parts.old.worker) parts.old.near)).entries key.now value.now) }

    // refused for want of memory, or as no object was made: the entries are as they were
    ensures err { OnErr result (table_of (plain (O.far parts.new.worker) parts.new.near) ≡ table_of (plain (O.far parts.old.worker) parts.old.near)) }
    ensures why { IfErr result (λ why. (why ≡ Refused.Memory) ⊎ O.unmade why) }
{
    if parts.near.count == usize::MAX {
        return Err(Refused::Memory);
    }
    let place = match find_place(&mut parts.near.slots, parts.near.buckets, tag) {
        Ok(place) => place,
        Err(_) => return Err(Refused::Memory),
    };
    let was_left = !parts.near.slots.is_empty_at(place);
    let number = match parts.worker.alloc(bytes) {
        Ok(number) => number,
        Err(why) => return Err(why),
    };
    parts.near.slots.set(place, Slot::Full(tag, number));
    parts.near.count += 1;
    parts.near.used = used_after(parts.near.used, was_left);
    Ok(())
}

fn used_after(used: usize, was_left: bool) -> usize {
    if was_left {
        used
    } else {
        used.saturating_add(1)
    }
}

/// Another value for an entry that stands at a place: a new object first, then the old one goes.
pub fn replace<O: Objects + Drop>(
    parts: &mut Parts<O>,
    at: Found,
    tag: u64,
    bytes: &[u8],
    key: &[u8],
    value: &[u8],
) -> Result<(), Refused>
    // the bytes are the entry of key and value, and no more than an object has; the tag is the key's, the table is as it should be, and at the
    // place stands a slot with the tag, the key's if the worker is honest
    requires some { IsTag tag }
    requires tag { tag ≡ tag_of parts.old.near.seed key.now }
    requires bytes { bytes.now ≡ encoded key.now value.now }
    requires fits { is_length (length bytes.now) ≡ true }
    requires sound { Sound (plain (O.far parts.old.worker) parts.old.near) }
    requires stands { Stands tag parts.old.near.slots at }
    requires has { (O.far parts.old.worker).honest ≡ true → key_in ((O.far parts.old.worker).bytes at.number) ≡ Some key.now }

    // the table is as it should be, and the worker as honest as it was
    ensures sound { Sound (plain (O.far parts.new.worker) parts.new.near) }
    ensures honest { (O.far parts.new.worker).honest ≡ (O.far parts.old.worker).honest }

    // done, if the worker is honest: the key has this value, and no other entry has changed
    ensures ok { (O.far parts.old.worker).honest ≡ true → OnOk result ((table_of (plain (O.far parts.new.worker) parts.new.near)).entries ≡ map.insert (table_of (plain (O.far parts.old.worker) parts.old.near)).entries key.now value.now) }

    // refused only as no object was made: the entries are as they were
    ensures err { OnErr result (table_of (plain (O.far parts.new.worker) parts.new.near) ≡ table_of (plain (O.far parts.old.worker) parts.old.near)) }
    ensures why { IfErr result O.unmade }
{
    let number = match parts.worker.alloc(bytes) {
        Ok(number) => number,
        Err(why) => return Err(why),
    };
    parts.near.slots.set(at.place, Slot::Full(tag, number));
    let_go(&mut parts.worker, at.number);
    Ok(())
}

/// Takes the entry at a place out.
pub fn take_out<O: Objects + Drop>(parts: &mut Parts<O>, at: Found, tag: u64, key: &[u8])
    requires sound { Sound (plain (O.far parts.old.worker) parts.old.near) }
    requires stands { Stands tag parts.old.near.slots at }
    requires has { (O.far parts.old.worker).honest ≡ true → key_in ((O.far parts.old.worker).bytes at.number) ≡ Some key.now }
    ensures sound { Sound (plain (O.far parts.new.worker) parts.new.near) }
    ensures honest { (O.far parts.new.worker).honest ≡ (O.far parts.old.worker).honest }
    ensures made { (O.far parts.old.worker).honest ≡ true → (table_of (plain (O.far parts.new.worker) parts.new.near)).entries ≡ map.remove (table_of (plain (O.far parts.old.worker) parts.old.near)).entries key.now }
{
    let_go(&mut parts.worker, at.number);
    parts.near.slots.set(at.place, Slot::Gone);
    parts.near.count = parts.near.count.saturating_sub(1);
}

/// Drops all objects: no slot has an entry then.
pub fn drop_all<O: Objects + Drop>(parts: &mut Parts<O>)
    requires { Sound (plain (O.far parts.old.worker) parts.old.near) }
    ensures sound { Sound (plain (O.far parts.new.worker) parts.new.near) }
    ensures honest { (O.far parts.new.worker).honest ≡ (O.far parts.old.worker).honest }
    ensures empty { (table_of (plain (O.far parts.new.worker) parts.new.near)).entries ≡ map.empty }
{
    for place in 0..parts.near.slots.len() {
        empty_one(parts, place);
    }
    parts.near.count = 0;
    parts.near.used = 0;
}

/// Drops the object of one slot, if it has an entry, and leaves the slot empty.
fn empty_one<O: Objects + Drop>(parts: &mut Parts<O>, place: usize)
    requires left { Left place (O.far parts.old.worker) parts.old.near.slots }
    requires within { place < length parts.old.near.slots }
    ensures left { Left (place + 1) (O.far parts.new.worker) parts.new.near.slots }
    ensures honest { (O.far parts.new.worker).honest ≡ (O.far parts.old.worker).honest }
    ensures long { length parts.new.near.slots ≡ length parts.old.near.slots }
    ensures buckets { parts.new.near.buckets ≡ parts.old.near.buckets }
{
    match parts.near.slots.at(place) {
        Slot::Full(_, number) => {
            let_go(&mut parts.worker, number);
            parts.near.slots.set(place, Slot::Empty);
        }
        _ => parts.near.slots.set(place, Slot::Empty),
    }
}
