//! Entries are put.

ghost use Rattle.std.specs.Prelude.{◌≡◌, ◌≢◌, ℕ, ◌+◌, ◌<◌, ◌⊎◌, true, Some, IfErr, OnErr, OnOk, length};
ghost use Rattle.std.specs.FinMap as map;
ghost use Rattle.far_index.specs.Slots.{IsTag};
ghost use Rattle.far_index.specs.Tags.{tag_of};
ghost use Rattle.far_map.specs.Causes.{is_entry};
ghost use Rattle.far_map.specs.Entries.{key_in};
ghost use Rattle.far_map.specs.Finding.{Stands};
ghost use Rattle.far_map.specs.Slots.{key_at};
ghost use Rattle.far_map.specs.Plain.{Sound, plain, table_of};

use crate::entry::join_entry;
use crate::lookup::Found;
use crate::parts::Parts;
use crate::steps::{add, replace};
use far_objects::Objects;
use far_word::Refused;

/// A new entry, whose key is in no slot.
pub fn put_new<O: Objects + Drop>(
    parts: &mut Parts<O>,
    tag: u64,
    key: &[u8],
    value: &[u8],
) -> Result<(), Refused>
    // key and value make an entry, the tag is the key's, the table is as it should be, and if the worker is honest no slot has the key
    requires entry { is_entry key.now value.now ≡ true }
    requires some { IsTag tag }
    requires tag { tag ≡ tag_of parts.old.near.seed key.now }
    requires sound { Sound (plain (O.far parts.old.worker) parts.old.near) }
    requires absent { (O.far parts.old.worker).honest ≡ true → (i : ℕ) → key_at (O.far parts.old.worker).bytes parts.old.near.slots i ≢ Some key.now }

    // the table is as it should be, and the worker as honest as it was
    ensures sound { Sound (plain (O.far parts.new.worker) parts.new.near) }
    ensures honest { (O.far parts.new.worker).honest ≡ (O.far parts.old.worker).honest }

    // done, if the worker is honest: the key has this value, and no other entry has changed
    ensures ok { (O.far parts.old.worker).honest ≡ true → OnOk result ((table_of (plain (O.far parts.new.worker) parts.new.near)).entries ≡ map.insert (table_of (plain (O.far parts.old.worker) parts.old.near)).entries key.now value.now) }

    // refused for want of memory, or as no object was made: the entries are as they were
    ensures err { OnErr result (table_of (plain (O.far parts.new.worker) parts.new.near) ≡ table_of (plain (O.far parts.old.worker) parts.old.near)) }
    ensures why { IfErr result (λ why. (why ≡ Refused.Memory) ⊎ O.unmade why) }
{
    let Ok(bytes) = join_entry(parts.alloc, key, value) else {
        return Err(Refused::Memory);
    };
    add(parts, tag, bytes.as_slice(), key, value)
}

/// Another value for an entry that stands at a place: over the old one where that is as long, else in a new object.
pub fn put_again<O: Objects + Drop>(
    parts: &mut Parts<O>,
    at: Found,
    tag: u64,
    key: &[u8],
    value: &[u8],
) -> Result<(), Refused>
    // key and value make an entry, the tag is the key's, the table is as it should be, and at the place stands a slot with the tag, the key's if the worker is honest
    requires entry { is_entry key.now value.now ≡ true }
    requires some { IsTag tag }
    requires tag { tag ≡ tag_of parts.old.near.seed key.now }
    requires sound { Sound (plain (O.far parts.old.worker) parts.old.near) }
    requires stands { Stands tag parts.old.near.slots at }
    requires has { (O.far parts.old.worker).honest ≡ true → key_in ((O.far parts.old.worker).bytes at.number) ≡ Some key.now }

    // the table is as it should be, and the worker as honest as it was
    ensures sound { Sound (plain (O.far parts.new.worker) parts.new.near) }
    ensures honest { (O.far parts.new.worker).honest ≡ (O.far parts.old.worker).honest }

    // done, if the worker is honest: the key has this value, and no other entry has changed
    ensures ok { (O.far parts.old.worker).honest ≡ true → OnOk result ((table_of (plain (O.far parts.new.worker) parts.new.near)).entries ≡ map.insert (table_of (plain (O.far parts.old.worker) parts.old.near)).entries key.now value.now) }

    // refused for want of memory, or as no object was made or an object wasn't reached: the entries are as they were
    ensures err { OnErr result (table_of (plain (O.far parts.new.worker) parts.new.near) ≡ table_of (plain (O.far parts.old.worker) parts.old.near)) }
    ensures why { IfErr result (λ why. (why ≡ Refused.Memory) ⊎ (O.unmade why ⊎ O.unreached (O.far parts.old.worker).honest why)) }
{
    if is_as_long(parts, at.number, key, value) {
        return rewrite(parts, at, tag, key, value);
    }
    renew(parts, at, tag, key, value)
}

/// Whether an object is an entry of this key whose value is as long, and has a byte.
fn is_as_long<O: Objects + Drop>(parts: &Parts<O>, number: u32, key: &[u8], value: &[u8]) -> bool
    requires { is_entry key.now value.now ≡ true }
    ensures some { result ≡ true → 0 < length value.now }
    ensures long { result ≡ true → (O.far parts.now.worker).sizes number ≡ Some (2 + length key.now + length value.now) }
{
    match parts.worker.len_of(number) {
        Some(len) => !value.is_empty() && len == 2 + key.len() + value.len(),
        None => false,
    }
}

/// The value is written over the one that there is.
fn rewrite<O: Objects + Drop>(
    parts: &mut Parts<O>,
    at: Found,
    tag: u64,
    key: &[u8],
    value: &[u8],
) -> Result<(), Refused>
    // key and value make an entry, of which the value isn't empty, as long as the object at the place, which has this key if the worker is honest; the table is as it should be
    requires entry { is_entry key.now value.now ≡ true }
    requires more { 0 < length value.now }
    requires long { (O.far parts.old.worker).sizes at.number ≡ Some (2 + length key.now + length value.now) }
    requires sound { Sound (plain (O.far parts.old.worker) parts.old.near) }
    requires stands { Stands tag parts.old.near.slots at }
    requires has { (O.far parts.old.worker).honest ≡ true → key_in ((O.far parts.old.worker).bytes at.number) ≡ Some key.now }

    // the table is as it should be, and the worker as honest as it was
    ensures sound { Sound (plain (O.far parts.new.worker) parts.new.near) }
    ensures honest { (O.far parts.new.worker).honest ≡ (O.far parts.old.worker).honest }

    // done, if the worker is honest: the key has this value, and no other entry has changed
    ensures ok { (O.far parts.old.worker).honest ≡ true → OnOk result ((table_of (plain (O.far parts.new.worker) parts.new.near)).entries ≡ map.insert (table_of (plain (O.far parts.old.worker) parts.old.near)).entries key.now value.now) }

    // refused only as the object wasn't reached: the entries are as they were
    ensures err { OnErr result (table_of (plain (O.far parts.new.worker) parts.new.near) ≡ table_of (plain (O.far parts.old.worker) parts.old.near)) }
    ensures why { IfErr result (O.unreached (O.far parts.old.worker).honest) }
{
    let _ = tag;
    parts.worker.write(at.number, 2 + key.len(), value)
}

/// The same in a new object.
fn renew<O: Objects + Drop>(
    parts: &mut Parts<O>,
    at: Found,
    tag: u64,
    key: &[u8],
    value: &[u8],
) -> Result<(), Refused>
    // key and value make an entry, the tag is the key's, the table is as it should be, and at the place stands a slot with the tag, the key's if the worker is honest
    requires entry { is_entry key.now value.now ≡ true }
    requires some { IsTag tag }
    requires tag { tag ≡ tag_of parts.old.near.seed key.now }
    requires sound { Sound (plain (O.far parts.old.worker) parts.old.near) }
    requires stands { Stands tag parts.old.near.slots at }
    requires has { (O.far parts.old.worker).honest ≡ true → key_in ((O.far parts.old.worker).bytes at.number) ≡ Some key.now }

    // the table is as it should be, and the worker as honest as it was
    ensures sound { Sound (plain (O.far parts.new.worker) parts.new.near) }
    ensures honest { (O.far parts.new.worker).honest ≡ (O.far parts.old.worker).honest }

    // done, if the worker is honest: the key has this value, and no other entry has changed
    ensures ok { (O.far parts.old.worker).honest ≡ true → OnOk result ((table_of (plain (O.far parts.new.worker) parts.new.near)).entries ≡ map.insert (table_of (plain (O.far parts.old.worker) parts.old.near)).entries key.now value.now) }

    // refused for want of memory, or as no object was made: the entries are as they were
    ensures err { OnErr result (table_of (plain (O.far parts.new.worker) parts.new.near) ≡ table_of (plain (O.far parts.old.worker) parts.old.near)) }
    ensures why { IfErr result (λ why. (why ≡ Refused.Memory) ⊎ O.unmade why) }
{
    let Ok(bytes) = join_entry(parts.alloc, key, value) else {
        return Err(Refused::Memory);
    };
    replace(parts, at, tag, bytes.as_slice(), key, value)
}
