//! Long values over far objects.

ghost use Rattle.std.specs.Prelude.{◌≡◌, ◌⊎◌, ℕ, ◌<◌, true, false, not, Some, None, IfOk, IfErr, OnErr, OnOk, MatchOption, length, map as each};
ghost use Rattle.std.specs.FinMap as map;
ghost use Rattle.std.specs.Fn.{CalledAtTwo, FnOnceReturnsAt};
ghost use Rattle.far_word.specs.declared.refused.Refused.TheVariants.{Memory};
ghost use Rattle.far_map.specs.Causes.{IsWhyRead};
ghost use Rattle.far_map.specs.Listed.{AreAllOf, FoldsUntil, GivesAt, StepsAtEach};
ghost use Rattle.far_dict.specs.Longs.{Gets};

use crate::each::{fold_long, visit_long};
use crate::lending::look_at;
use crate::near::Near;
use crate::steps::{Parts, drop_all, put, read_long, take_out};
use far_objects::Objects;
use far_word::Refused;
use std::alloc::{AllocError, Global};
use std::marker::Model;

/// Values of one byte or more by keys that are near.
#[derive(Drop)]
pub struct Long<O: Objects + Drop> {
    parts: Parts<O>,
}

impl<O: Objects + Drop> Model for Long<O> {
    ghost use Rattle.far_map.specs.Table.{Table, table_code};
    ghost use Rattle.far_dict.specs.Longs.{Sound, table_of};

    ghost Value = { Table };

    ghost coded = { table_code };

    ghost view = { λ l. table_of (O.far l.parts.worker) l.parts.near };

    ghost invariant = { λ l. Sound (O.far l.parts.worker) l.parts.near };
}

impl<O: Objects + Drop> Long<O> {
    /// No values, over a worker that has no objects.
    pub fn new(alloc: Global, worker: O) -> Long<O>
        requires none { (h : ℕ) → (O.far worker).sizes h ≡ None }
        ensures honest { result.honest ≡ (O.far worker).honest }
        ensures empty { result.entries ≡ map.empty }
    {
        Long {
            parts: Parts {
                worker,
                near: Near::new(alloc),
                alloc,
            },
        }
    }

    pub fn worker(&self) -> &O
        ensures { (O.far result.now).honest ≡ self.now.honest }
    {
        &self.parts.worker
    }

    pub fn len(&self) -> usize
        ensures { result ≡ map.len self.now.entries }
    {
        self.parts.near.len()
    }

    pub fn has(&self, key: &[u8]) -> bool
        ensures { result ≡ map.contains_key self.now.entries key.now }
    {
        self.parts.near.has(key)
    }

    /// The keys, in order.
    pub fn names(&self) -> Result<Vec<Vec<u8>>, AllocError>
        ensures { IfOk result (λ v. each (λ k. k.items) v.items ≡ map.keys self.now.entries) }
    {
        self.parts.near.names(self.parts.alloc)
    }

    /// Whether a key has a value; then `out` has it.
    pub fn read(&mut self, key: &[u8], out: &mut Vec<u8>) -> Result<bool, Refused>
        ensures same { self.new ≡ self.old }
        ensures got { self.old.honest ≡ true → IfOk result (λ there. MatchOption (map.get self.old.entries key.now) (there ≡ false) (λ value. (there ≡ true) × (out.new.items ≡ value))) }
        ensures why { IfErr result (IsWhyRead O.unreached self.old.honest) }
    {
        read_long(&mut self.parts, key, out)
    }

    /// Calls `look` at a key's value. What it answers; none if the key has none.
    pub fn look_at<T, F: FnOnce(&[u8]) -> T>(
        &mut self,
        key: &[u8],
        look: F,
    ) -> Result<Option<T>, Refused>
        requires { F.IsAlwaysCallable look }
        ensures same { self.new ≡ self.old }
        ensures got { self.old.honest ≡ true → IfOk result (λ r. MatchOption (map.get self.old.entries key.now) (r ≡ None) (λ value. (x : _) × (r ≡ Some x) × FnOnceReturnsAt F.FnOnce look value x)) }
        ensures why { IfErr result (IsWhyRead O.unreached self.old.honest) }
    {
        look_at(&mut self.parts, key, look)
    }

    /// Calls `visit` with each key and its value once.
    pub fn visit<F: FnMut(&[u8], &[u8])>(&mut self, visit: &mut F) -> Result<(), Refused>
        requires { F.IsAlwaysCallable visit.old }
        ensures callable { F.IsAlwaysCallable visit.new }
        ensures same { self.new ≡ self.old }
        ensures called { self.old.honest ≡ true → OnOk result ((told : _) × AreAllOf told self.old.entries × StepsAtEach (λ p k v q. CalledAtTwo F.FnMut p k v tt q) visit.old told visit.new) }
        ensures why { IfErr result (IsWhyRead O.unreached self.old.honest) }
    {
        visit_long(&mut self.parts, visit)
    }

    /// Folds the values with their keys, until a step is refused.
    pub fn fold<A: Drop, E, F: Fn(A, &[u8], &[u8]) -> Result<A, E>>(
        &mut self,
        first: A,
        f: &F,
    ) -> Result<Result<A, E>, Refused>
        requires { F.IsAlwaysCallable f.now }
        ensures same { self.new ≡ self.old }
        ensures folded { self.old.honest ≡ true → IfOk result (λ r. (told : _) × AreAllOf told self.old.entries × FoldsUntil (GivesAt (F.post f.now)) first told r) }
        ensures why { IfErr result (IsWhyRead O.unreached self.old.honest) }
    {
        fold_long(&mut self.parts, first, f)
    }

    /// Gives a key a value. Whether the key is new. Where the worker isn't honest it has some value then, and the other keys have theirs.
    pub fn put(&mut self, key: &[u8], value: &[u8]) -> Result<bool, Refused>
        requires { 0 < length value.now }
        ensures honest { self.new.honest ≡ self.old.honest }
        ensures made { OnOk result (Gets self.old.honest self.old.entries key.now value.now self.new.entries) }
        ensures new { IfOk result (λ new. new ≡ not (map.contains_key self.old.entries key.now)) }
        ensures refused { OnErr result (self.new ≡ self.old) }
        ensures why { IfErr result (λ why. (why ≡ Memory) ⊎ O.unmade why) }
    {
        put(&mut self.parts, key, value)
    }

    /// Takes a key's value out. Whether it had one.
    pub fn take_out(&mut self, key: &[u8]) -> bool
        ensures honest { self.new.honest ≡ self.old.honest }
        ensures made { self.new.entries ≡ map.remove self.old.entries key.now }
        ensures there { result ≡ map.contains_key self.old.entries key.now }
    {
        take_out(&mut self.parts, key)
    }

    pub fn clear(&mut self)
        ensures honest { self.new.honest ≡ self.old.honest }
        ensures empty { self.new.entries ≡ map.empty }
    {
        drop_all(&mut self.parts);
    }
}
