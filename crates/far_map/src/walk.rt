//! Entries told one by one, to who can lend no closure.

ghost use Rattle.std.specs.Prelude.{◌≡◌, ◌+◌, ◌<◌, ◌≤◌, true, false, None, Some, [], ◌∷◌, IfOk, IfErr, IfSome, MatchOption, OnErr, length, take, drop};
ghost use Rattle.std.specs.FinMap as map;
ghost use Rattle.far_objects.specs.declared.objects.TheConstants.{MOST as most};
ghost use Rattle.far_index.specs.Slots.{slot_at};
ghost use Rattle.far_map.specs.Causes.{IsWhyRead};
ghost use Rattle.far_map.specs.Entries.{Entry, decoded};
ghost use Rattle.far_map.specs.Listed.{AreAllOf};
ghost use Rattle.far_map.specs.Slots.{Held, entries_in, entry_in};
ghost use Rattle.far_map.specs.Walks.{TellsNext};

use crate::each::read_slot;
use crate::entry::{split_entry, value_to};
use crate::lookup::find;
use crate::map::Map;
use crate::parts::Parts;
use far_index::tag_of_key;
use far_objects::Objects;
use far_word::Refused;
use std::marker::Model;

/// A map while its entries are told one by one: to a contract also those that weren't told yet, as a list.
#[derive(Drop)]
pub struct Walk<O: Objects + Drop> {
    parts: Parts<O>,
    place: usize,
}

impl<O: Objects + Drop> Model for Walk<O> {
    ghost use Rattle.far_map.specs.Walks.{Walked, walked, walked_code};
    ghost use Rattle.far_map.specs.Plain.{Sound, plain};

    ghost Value = { Walked };

    ghost coded = { walked_code };

    ghost view = { λ w. walked (plain (O.far w.parts.worker) w.parts.near) w.place };

    ghost invariant = { λ w. Sound (plain (O.far w.parts.worker) w.parts.near) };
}

/// The place behind an entry, and how many bytes it has.
#[derive(Clone, Copy)]
struct Next {
    after: usize,
    len: usize,
}

/// Reads the entry of a slot to the front of the buffer. How many bytes it has; none where the slot has no entry.
fn read_entry<O: Objects + Drop>(
    parts: &mut Parts<O>,
    place: usize,
) -> Result<Option<usize>, Refused>
    requires within { place < length parts.old.near.slots }
    requires held { Held (O.far parts.old.worker) parts.old.near.slots }
    ensures far { O.far parts.new.worker ≡ O.far parts.old.worker }
    ensures near { parts.new.near ≡ parts.old.near }
    ensures within { IfOk result (λ r. IfSome r (λ len. len ≤ most)) }
    ensures read { (O.far parts.old.worker).honest ≡ true → IfOk result (λ r. MatchOption r (entry_in (O.far parts.old.worker).bytes (slot_at parts.old.near.slots place) ≡ None) (λ len. (e : Entry) × (entry_in (O.far parts.old.worker).bytes (slot_at parts.old.near.slots place) ≡ Some e) × (decoded (take len parts.new.buffer) ≡ Some e))) }
    ensures why { IfErr result (O.unreached (O.far parts.old.worker).honest) }
{
    let len = match read_slot(parts, place) {
        Ok(Some(len)) => len,
        Ok(None) => return Ok(None),
        Err(why) => return Err(why),
    };
    match split_entry(parts.buffer.part(len)) {
        Some(_) => Ok(Some(len)),
        None => Ok(None),
    }
}

/// The first entry from a place on: then the buffer begins with its bytes.
fn next_entry<O: Objects + Drop>(parts: &mut Parts<O>, from: usize) -> Result<Option<Next>, Refused>
    requires held { Held (O.far parts.old.worker) parts.old.near.slots }
    ensures far { O.far parts.new.worker ≡ O.far parts.old.worker }
    ensures near { parts.new.near ≡ parts.old.near }
    ensures within { IfOk result (λ r. IfSome r (λ n. n.len ≤ most)) }
    ensures found { (O.far parts.old.worker).honest ≡ true → IfOk result (λ r. MatchOption r (entries_in (O.far parts.old.worker).bytes (drop from parts.old.near.slots) ≡ []) (λ n. (e : Entry) × (entries_in (O.far parts.old.worker).bytes (drop from parts.old.near.slots) ≡ e ∷ entries_in (O.far parts.old.worker).bytes (drop n.after parts.old.near.slots)) × (decoded (take n.len parts.new.buffer) ≡ Some e))) }
    ensures why { IfErr result (O.unreached (O.far parts.old.worker).honest) }
{
    for place in from..parts.near.slots.len() {
        match read_entry(parts, place) {
            Ok(Some(len)) => {
                return Ok(Some(Next {
                    after: place + 1,
                    len,
                }));
            }
            Ok(None) => {}
            Err(why) => return Err(why),
        }
    }
    Ok(None)
}

/// Copies a key and a value.
fn copy_to(bytes: &[u8], key: &mut Vec<u8>, value: &mut Vec<u8>) -> bool
    ensures { result ≡ true → (e : Entry) → decoded bytes.now ≡ Some e → (key.new.items ≡ e.0) × (value.new.items ≡ e.1) }
{
    let Some((own, told)) = split_entry(bytes) else {
        return false;
    };
    key.clear();
    value.clear();
    key.extend_from_slice(own).is_ok() && value.extend_from_slice(told).is_ok()
}

impl<O: Objects + Drop> Map<O> {
    /// Begins to tell the entries, in no order that is told.
    pub fn into_walk(self) -> Walk<O>
        ensures honest { result.honest ≡ self.honest }
        ensures entries { result.entries ≡ self.entries }
        ensures all { self.honest ≡ true → AreAllOf result.rest self.entries }
    {
        let Map { parts } = self;
        Walk { parts, place: 0 }
    }
}

impl<O: Objects + Drop> Walk<O> {
    /// Tells an entry that wasn't told yet: `key` and `value` have its bytes then. Whether there was one. It counts as told only where it has at most so many
    /// bytes of each, and the next call tells it again otherwise.
    ///
    /// Refused as the worker's reads are, and [`Refused::Memory`] where `key` or `value` can't grow; then nothing was told.
    pub fn next(
        &mut self,
        most_key: usize,
        most_value: usize,
        key: &mut Vec<u8>,
        value: &mut Vec<u8>,
    ) -> Result<bool, Refused>
        ensures honest { self.new.honest ≡ self.old.honest }
        ensures entries { self.new.entries ≡ self.old.entries }
        ensures told { self.old.honest ≡ true → IfOk result (λ there. TellsNext most_key most_value self.old.rest there key.new.items value.new.items self.new.rest) }
        ensures ended { IfOk result (λ there. there ≡ false → self.new ≡ self.old) }
        ensures refused { OnErr result (self.new ≡ self.old) }
        ensures why { IfErr result (IsWhyRead O.unreached self.old.honest) }
    {
        let found = match next_entry(&mut self.parts, self.place) {
            Ok(Some(found)) => found,
            Ok(None) => return Ok(false),
            Err(why) => return Err(why),
        };
        if !copy_to(self.parts.buffer.part(found.len), key, value) {
            return Err(Refused::Memory);
        }
        if key.len() <= most_key && value.len() <= most_value {
            self.place = found.after;
        }
        Ok(true)
    }

    /// Begins anew: no entry counts as told.
    pub fn begin(&mut self)
        ensures honest { self.new.honest ≡ self.old.honest }
        ensures entries { self.new.entries ≡ self.old.entries }
        ensures all { self.old.honest ≡ true → AreAllOf self.new.rest self.old.entries }
    {
        self.place = 0;
    }

    /// How many entries the map has.
    pub fn len(&self) -> usize
        ensures { self.now.honest ≡ true → result ≡ map.len self.now.entries }
    {
        self.parts.near.count
    }

    /// The worker.
    pub fn worker(&self) -> &O
        ensures { (O.far result.now).honest ≡ self.now.honest }
    {
        &self.parts.worker
    }

    /// As [`Map::get`].
    pub fn get(&mut self, key: &[u8], out: &mut Vec<u8>) -> Result<bool, Refused>
        ensures same { self.new ≡ self.old }
        ensures got { self.old.honest ≡ true → IfOk result (λ there. MatchOption (map.get self.old.entries key.now) (there ≡ false) (λ value. (there ≡ true) × (out.new.items ≡ value))) }
        ensures why { IfErr result (IsWhyRead O.unreached self.old.honest) }
    {
        let tag = tag_of_key(&self.parts.near.seed, key);
        let found = match find(&mut self.parts, tag, key) {
            Ok(found) => found,
            Err(why) => return Err(why),
        };
        let Some(at) = found else {
            return Ok(false);
        };
        let Ok(()) = value_to(self.parts.buffer.part(at.len), out) else {
            return Err(Refused::Memory);
        };
        Ok(true)
    }

    /// As [`Map::contains_key`].
    pub fn contains_key(&mut self, key: &[u8]) -> Result<bool, Refused>
        ensures same { self.new ≡ self.old }
        ensures there { self.old.honest ≡ true → IfOk result (λ there. there ≡ map.contains_key self.old.entries key.now) }
        ensures why { IfErr result (O.unreached self.old.honest) }
    {
        let tag = tag_of_key(&self.parts.near.seed, key);
        let found = match find(&mut self.parts, tag, key) {
            Ok(found) => found,
            Err(why) => return Err(why),
        };
        let Some(_at) = found else {
            return Ok(false);
        };
        Ok(true)
    }

    /// The map again.
    pub fn into_map(self) -> Map<O>
        ensures honest { result.honest ≡ self.honest }
        ensures entries { result.entries ≡ self.entries }
    {
        let Walk { parts, place: _ } = self;
        Map { parts }
    }
}
