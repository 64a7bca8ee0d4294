//! A look-up: near slots with the key's tag, and one far read at each.

ghost use Rattle.std.specs.Prelude.{◌≡◌, ◌≢◌, ℕ, ◌≤◌, true, Some, IfOk, IfErr, IfSome, IfNone, take};
ghost use Rattle.std.specs.Bool.{Decides};
ghost use Rattle.far_objects.specs.declared.objects.TheConstants.{MOST as most};
ghost use Rattle.far_index.specs.Slots.{IsTag};
ghost use Rattle.far_index.specs.Tags.{tag_of};
ghost use Rattle.far_map.specs.Entries.{key_in};
ghost use Rattle.far_map.specs.Finding.{Stands};
ghost use Rattle.far_map.specs.Slots.{key_at};
ghost use Rattle.far_map.specs.Plain.{Sound, plain};

use crate::entry::split_entry;
use crate::parts::Parts;
use far_index::{Met, home_of};
use far_objects::Objects;
use far_word::Refused;

/// Where an entry stands, the number of its object, and how long that is.
#[derive(Clone, Copy)]
pub struct Found {
    pub place: usize,
    pub number: u32,
    pub len: usize,
}

/// Whether bytes are an entry with this key.
pub fn is_key_of(bytes: &[u8], key: &[u8]) -> bool
    ensures { Decides result (key_in (Some bytes.now) ≡ Some key.now) }
{
    let Some((own, _)) = split_entry(bytes) else {
        return false;
    };
    own == key
}

/// Reads an object, and says how long it is if it has this key.
fn read_is<O: Objects + Drop>(
    parts: &mut Parts<O>,
    number: u32,
    key: &[u8],
) -> Result<Option<usize>, Refused>
    requires held { (n : ℕ) × ((O.far parts.old.worker).sizes number ≡ Some n) }
    ensures far { O.far parts.new.worker ≡ O.far parts.old.worker }
    ensures near { parts.new.near ≡ parts.old.near }
    ensures within { IfOk result (λ r. IfSome r (λ len. len ≤ most)) }
    ensures isnt { (O.far parts.old.worker).honest ≡ true → IfOk result (λ r. IfNone r (key_in ((O.far parts.old.worker).bytes number) ≢ Some key.now)) }
    ensures read { (O.far parts.old.worker).honest ≡ true → IfOk result (λ r. IfSome r (λ len. (O.far parts.old.worker).bytes number ≡ Some (take len parts.new.buffer))) }
    ensures is { (O.far parts.old.worker).honest ≡ true → IfOk result (λ r. IfSome r (λ len. key_in ((O.far parts.old.worker).bytes number) ≡ Some key.now)) }
    ensures why { IfErr result (O.unreached (O.far parts.old.worker).honest) }
{
    let Some(len) = parts.worker.len_of(number) else {
        return Ok(None);
    };
    if let Err(why) = parts.buffer.fill(&mut parts.worker, number, len) {
        return Err(why);
    }
    if is_key_of(parts.buffer.part(len), key) {
        return Ok(Some(len));
    }
    Ok(None)
}

/// Where a key's entry stands; then the buffer begins with the object's bytes.
pub fn find<O: Objects + Drop>(
    parts: &mut Parts<O>,
    tag: u64,
    key: &[u8],
) -> Result<Option<Found>, Refused>
    // the tag is the key's, and the table is as it should be
    requires some { IsTag tag }
    requires tag { tag ≡ tag_of parts.old.near.seed key.now }
    requires sound { Sound (plain (O.far parts.old.worker) parts.old.near) }

    // table and worker are as they were
    ensures far { O.far parts.new.worker ≡ O.far parts.old.worker }
    ensures near { parts.new.near ≡ parts.old.near }

    // done: a slot with the tag; if the worker is honest its object has the key, the buffer begins with its bytes, and none is found only as no slot has it
    ensures stands { IfOk result (λ r. IfSome r (Stands tag parts.old.near.slots)) }
    ensures none { (O.far parts.old.worker).honest ≡ true → IfOk result (λ r. IfNone r ((i : ℕ) → key_at (O.far parts.old.worker).bytes parts.old.near.slots i ≢ Some key.now)) }
    ensures read { (O.far parts.old.worker).honest ≡ true → IfOk result (λ r. IfSome r (λ p. (O.far parts.old.worker).bytes p.number ≡ Some (take p.len parts.new.buffer))) }
    ensures is { (O.far parts.old.worker).honest ≡ true → IfOk result (λ r. IfSome r (λ p. key_in ((O.far parts.old.worker).bytes p.number) ≡ Some key.now)) }

    // refused only as an object wasn't reached
    ensures why { IfErr result (O.unreached (O.far parts.old.worker).honest) }
{
    let home = home_of(parts.near.buckets, tag);
    for place in home..parts.near.slots.len() {
        match parts.near.slots.meet(place, tag) {
            Met::End => return Ok(None),
            Met::Other => {}
            Met::Tag(number) => match read_is(parts, number, key) {
                Ok(Some(len)) => return Ok(Some(Found { place, number, len })),
                Ok(None) => {}
                Err(why) => return Err(why),
            },
        }
    }
    Ok(None)
}
