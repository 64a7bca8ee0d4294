//! The map.

ghost use Rattle.std.specs.Prelude.{◌≡◌, ℕ, ◌<◌, true, false, not, Some, None, Err, IfOk, IfErr, OnOk, OnErr, MatchOption};
ghost use Rattle.std.specs.FinMap as map;
ghost use Rattle.std.specs.Fn.{FnOnceReturnsAt};
ghost use Rattle.far_word.specs.declared.refused.Refused.TheVariants.{Length, Memory};
ghost use Rattle.far_map.specs.Causes.{IsWhyPut, IsWhyRead, is_entry};
ghost use Rattle.far_map.specs.Finding.{AreEntries};

use crate::buffer::Buffer;
use crate::entry::{fits, value_of, value_to};
use crate::grow::make_roomy;
use crate::lookup::find;
use crate::near::Near;
use crate::parts::Parts;
use crate::puts::{put_again, put_new};
use crate::steps::take_out;
use far_index::{Index, seeded, slots_for, tag_of_key};
use far_objects::Objects;
use far_word::Refused;
use std::alloc::Global;
use std::marker::Model;

/// A map from bytes to bytes, whose entries are objects of its worker. What calls tell of keys and values holds where the worker is honest.
#[derive(Drop)]
pub struct Map<O: Objects + Drop> {
    pub(crate) parts: Parts<O>,
}

impl<O: Objects + Drop> Model for Map<O> {
    ghost use Rattle.far_map.specs.Table.{Table, table_code};
    ghost use Rattle.far_map.specs.Plain.{Sound, plain, table_of};

    ghost Value = { Table };

    ghost coded = { table_code };

    ghost view = { λ m. table_of (plain (O.far m.parts.worker) m.parts.near) };

    ghost invariant = { λ m. Sound (plain (O.far m.parts.worker) m.parts.near) };
}

/// How many homes an index begins with.
const HOMES: usize = 64;

impl<O: Objects + Drop> Map<O> {
    /// An empty map over a worker that has no objects. The seed is for the hash of the keys: who chooses keys mustn't know it.
    ///
    /// Refused [`Refused::Memory`] alone.
    pub fn new(alloc: Global, worker: O, seed: [u8; 16]) -> Result<Map<O>, Refused>
        requires none { (h : ℕ) → (O.far worker).sizes h ≡ None }
        ensures honest { IfOk result (λ m. m.honest ≡ (O.far worker).honest) }
        ensures empty { IfOk result (λ m. m.entries ≡ map.empty) }
        ensures why { IfErr result (λ why. why ≡ Memory) }
    {
        let Ok(slots) = Index::new(alloc, slots_for(HOMES)) else {
            return Err(Refused::Memory);
        };
        let Ok(buffer) = Buffer::new(alloc) else {
            return Err(Refused::Memory);
        };
        let near = Near {
            slots,
            buckets: HOMES,
            count: 0,
            used: 0,
            seed: seeded(seed),
        };
        Ok(Map {
            parts: Parts {
                worker,
                near,
                buffer,
                alloc,
            },
        })
    }

    /// How many entries it has.
    pub fn len(&self) -> usize
        ensures { self.now.honest ≡ true → result ≡ map.len self.now.entries }
    {
        self.parts.near.count
    }

    /// The worker. Each of its objects is an entry, and no two are of one key.
    pub fn worker(&self) -> &O
        ensures honest { (O.far result.now).honest ≡ self.now.honest }
        ensures entries { self.now.honest ≡ true → AreEntries (O.far result.now) self.now.entries }
    {
        &self.parts.worker
    }

    /// Whether it has a key; then `out` has its value.
    ///
    /// Refused as the worker's reads are, and [`Refused::Memory`] where `out` can't grow. Where the key isn't told to be there `out` may have any bytes.
    pub fn get(&mut self, key: &[u8], out: &mut Vec<u8>) -> Result<bool, Refused>
        ensures same { self.new ≡ self.old }
        ensures got { self.old.honest ≡ true → IfOk result (λ there. MatchOption (map.get self.old.entries key.now) (there ≡ false) (λ value. (there ≡ true) × (out.new.items ≡ value))) }
        ensures why { IfErr result (IsWhyRead O.unreached self.old.honest) }
    {
        let tag = tag_of_key(&self.parts.near.seed, key);
        let found = match find(&mut self.parts, tag, key) {
            Ok(found) => found,
            Err(why) => return Err(why),
        };
        let Some(at) = found else {
            return Ok(false);
        };
        let Ok(()) = value_to(self.parts.buffer.part(at.len), out) else {
            return Err(Refused::Memory);
        };
        Ok(true)
    }

    /// Calls `look` at a key's value, in the buffer that the entry was read to. What it answers; none if the key isn't there.
    ///
    /// Refused as the worker's reads are; then `look` wasn't called.
    pub fn get_with<T, F: FnOnce(&[u8]) -> T>(
        &mut self,
        key: &[u8],
        look: F,
    ) -> Result<Option<T>, Refused>
        requires { F.IsAlwaysCallable look }
        ensures same { self.new ≡ self.old }
        ensures got { self.old.honest ≡ true → IfOk result (λ r. MatchOption (map.get self.old.entries key.now) (r ≡ None) (λ value. (x : _) × (r ≡ Some x) × FnOnceReturnsAt F.FnOnce look value x)) }
        ensures why { IfErr result (O.unreached self.old.honest) }
    {
        let tag = tag_of_key(&self.parts.near.seed, key);
        let found = match find(&mut self.parts, tag, key) {
            Ok(found) => found,
            Err(why) => return Err(why),
        };
        let Some(at) = found else {
            return Ok(None);
        };
        Ok(Some(look(value_of(self.parts.buffer.part(at.len)))))
    }

    /// Gives a key a value. Whether the key is new. A value as long as the key's old one is written over it.
    ///
    /// Refused: [`Refused::Length`] exactly where key and value are longer than 4,086 bytes together; [`Refused::Memory`] where the index
    /// can't grow; or as the worker refuses to read, to write or to make an object. Then the map is as it was.
    pub fn insert(&mut self, key: &[u8], value: &[u8]) -> Result<bool, Refused>
        ensures honest { self.new.honest ≡ self.old.honest }
        ensures made { self.old.honest ≡ true → OnOk result (self.new.entries ≡ map.insert self.old.entries key.now value.now) }
        ensures new { self.old.honest ≡ true → IfOk result (λ new. new ≡ not (map.contains_key self.old.entries key.now)) }
        ensures refused { OnErr result (self.new ≡ self.old) }
        ensures long { is_entry key.now value.now ≡ false → result ≡ Err Length }
        ensures why { IfErr result (IsWhyPut O.unmade O.unreached self.old.honest (is_entry key.now value.now)) }
    {
        if !fits(key, value) {
            return Err(Refused::Length);
        }
        let tag = tag_of_key(&self.parts.near.seed, key);
        let found = match find(&mut self.parts, tag, key) {
            Ok(found) => found,
            Err(why) => return Err(why),
        };
        match found {
            None => match put_new(&mut self.parts, tag, key, value) {
                Ok(()) => {
                    make_roomy(self.parts.alloc, &mut self.parts.near);
                    Ok(true)
                }
                Err(why) => Err(why),
            },
            Some(at) => match put_again(&mut self.parts, at, tag, key, value) {
                Ok(()) => Ok(false),
                Err(why) => Err(why),
            },
        }
    }

    /// Takes a key and its value out. Whether it was there. Refused as the worker's reads are; then the map is as it was.
    pub fn remove(&mut self, key: &[u8]) -> Result<bool, Refused>
        ensures honest { self.new.honest ≡ self.old.honest }
        ensures made { self.old.honest ≡ true → OnOk result (self.new.entries ≡ map.remove self.old.entries key.now) }
        ensures there { self.old.honest ≡ true → IfOk result (λ there. there ≡ map.contains_key self.old.entries key.now) }
        ensures refused { OnErr result (self.new ≡ self.old) }
        ensures why { IfErr result (O.unreached self.old.honest) }
    {
        let tag = tag_of_key(&self.parts.near.seed, key);
        let found = match find(&mut self.parts, tag, key) {
            Ok(found) => found,
            Err(why) => return Err(why),
        };
        match found {
            None => Ok(false),
            Some(at) => {
                take_out(&mut self.parts, at, tag, key);
                Ok(true)
            }
        }
    }
}
