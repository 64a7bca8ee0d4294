//! Which values are long: near, by their keys.

ghost use Rattle.std.specs.Prelude.{◌≡◌, List, ℕ, true, IfOk, IfErr, IfSome, IfNone, OnOk, OnErr, Some, map as each};
ghost use Rattle.std.specs.FinMap as map;
ghost use Rattle.std.specs.Fn.{CalledAtTwo};
ghost use Rattle.std.specs.Option.{option_copied};
ghost use Rattle.far_large.specs.Parts.{Parts};
ghost use Rattle.far_map.specs.Causes.{IsWhyRead};
ghost use Rattle.far_map.specs.Listed.{FoldsUntil, GivesAt, StepsAtEach};
ghost use Rattle.far_dict.specs.Longs.{IsWhole, valued};
ghost use Rattle.far_dict.specs.Names.{names_in};

use crate::reading::{fold_rows, visit_rows};
use far_large::Large;
use far_objects::Objects;
use far_word::Refused;
use std::alloc::{AllocError, Global};
use std::collections::BTreeMap;
use std::marker::Model;

/// Long values by their keys.
#[derive(Drop)]
pub struct Near {
    table: BTreeMap<Vec<u8>, Large>,
}

impl Model for Near {
    ghost use Rattle.far_dict.specs.Names.{Names, names_code, names_in};

    ghost Value = { Names };

    ghost coded = { names_code };

    ghost view = { λ n. names_in (λ k. k.items) n.table.entries };
}

/// The value of an entry, whose key goes.
fn value_of(entry: (Vec<u8>, Large)) -> Large
    ensures { result ≡ entry.1 }
{
    let (_key, large) = entry;
    large
}

/// The keys of a table, in order.
fn names_of(table: &BTreeMap<Vec<u8>, Large>, alloc: Global) -> Result<Vec<Vec<u8>>, AllocError>
    ensures { IfOk result (λ v. each (λ k. k.items) v.items ≡ map.keys (names_in (λ k. k.items) table.now.entries)) }
{
    let mut names = Vec::new(alloc);
    for (key, _large) in table {
        let name = match Vec::from_slice(alloc, key.as_slice()) {
            Ok(name) => name,
            Err(why) => return Err(why),
        };
        let Ok(()) = names.push(name) else {
            return Err(AllocError);
        };
    }
    Ok(names)
}

impl Near {
    pub fn new(alloc: Global) -> Near
        ensures { result ≡ map.empty }
    {
        Near {
            table: BTreeMap::new(alloc),
        }
    }

    pub fn len(&self) -> usize
        ensures { result ≡ map.len self.now }
    {
        self.table.len()
    }

    pub fn has(&self, key: &[u8]) -> bool
        ensures { result ≡ map.contains_key self.now key.now }
    {
        self.table.contains_key(key)
    }

    pub fn get(&self, key: &[u8]) -> Option<&Large>
        ensures { option_copied result ≡ map.get self.now key.now }
    {
        self.table.get(key)
    }

    /// Gives a key a value. What it had; or the value again, where there is no memory.
    pub fn insert(&mut self, key: Vec<u8>, large: Large) -> Result<Option<Large>, Large>
        ensures was { IfOk result (λ was. was ≡ map.get self.old key.items) }
        ensures made { OnOk result (self.new ≡ map.insert self.old key.items large) }
        ensures back { IfErr result (λ back. back ≡ large) }
        ensures refused { OnErr result (self.new ≡ self.old) }
    {
        let failed = match self.table.insert(key, large) {
            Ok(was) => return Ok(was),
            Err(failed) => failed,
        };
        Err(value_of(failed.value))
    }

    pub fn remove(&mut self, key: &[u8]) -> Option<Large>
        ensures was { result ≡ map.get self.old key.now }
        ensures made { self.new ≡ map.remove self.old key.now }
    {
        self.table.remove(key)
    }

    /// Takes out the value of the first key.
    pub fn take_first(&mut self) -> Option<Large>
        ensures some { IfSome result (λ l. (key : List ℕ) × (map.get self.old key ≡ Some l) × (self.new ≡ map.remove self.old key)) }
        ensures none { IfNone result (self.new ≡ map.empty) }
        ensures same { IfNone result (self.new ≡ self.old) }
    {
        let Some(entry) = self.table.pop_first() else {
            return None;
        };
        Some(value_of(entry))
    }

    /// The keys, in order.
    pub fn names(&self, alloc: Global) -> Result<Vec<Vec<u8>>, AllocError>
        ensures { IfOk result (λ v. each (λ k. k.items) v.items ≡ map.keys self.now) }
    {
        names_of(&self.table, alloc)
    }

    /// Calls `visit` with each key and the bytes of its value, in the order of the keys.
    pub fn visit<O: Objects + Drop, F: FnMut(&[u8], &[u8])>(
        &self,
        worker: &mut O,
        out: &mut Vec<u8>,
        visit: &mut F,
    ) -> Result<(), Refused>
        requires whole { (key : List ℕ) (large : Parts) → map.get self.now key ≡ Some large → IsWhole (O.far worker.old) large }
        requires callable { F.IsAlwaysCallable visit.old }
        ensures callable { F.IsAlwaysCallable visit.new }
        ensures same { O.far worker.new ≡ O.far worker.old }
        ensures called { (O.far worker.old).honest ≡ true → OnOk result (StepsAtEach (λ p k v q. CalledAtTwo F.FnMut p k v tt q) visit.old (valued (O.far worker.old) (map.entries self.now)) visit.new) }
        ensures why { IfErr result (IsWhyRead O.unreached (O.far worker.old).honest) }
    {
        visit_rows(&self.table, worker, out, visit)
    }

    /// Makes the steps of the keys and their values, in the order of the keys, until one is refused.
    pub fn fold<O: Objects + Drop, A: Drop, E, F: Fn(A, &[u8], &[u8]) -> Result<A, E>>(
        &self,
        worker: &mut O,
        out: &mut Vec<u8>,
        first: A,
        f: &F,
    ) -> Result<Result<A, E>, Refused>
        requires whole { (key : List ℕ) (large : Parts) → map.get self.now key ≡ Some large → IsWhole (O.far worker.old) large }
        requires callable { F.IsAlwaysCallable f.now }
        ensures same { O.far worker.new ≡ O.far worker.old }
        ensures folded { (O.far worker.old).honest ≡ true → IfOk result (FoldsUntil (GivesAt (F.post f.now)) first (valued (O.far worker.old) (map.entries self.now))) }
        ensures why { IfErr result (IsWhyRead O.unreached (O.far worker.old).honest) }
    {
        fold_rows(&self.table, worker, out, first, f)
    }
}
