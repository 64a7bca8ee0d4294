//! Calls that go over the whole map, or are made of others.

ghost use Rattle.std.specs.Prelude.{◌≡◌, ◌⊎◌, ℕ, true, false, Some, None, IfOk, IfErr, OnErr, MatchOption, ◌==◌};
ghost use Rattle.std.specs.FinMap as map;
ghost use Rattle.std.specs.Fn.{FnOnceReturnsAtMut};
ghost use Rattle.far_word.specs.declared.refused.Refused.TheVariants.{Length, Memory};
ghost use Rattle.far_map.specs.Causes.{IsWhyPut, is_entry};

use crate::grow::rebuild;
use crate::lookup::find;
use crate::map::Map;
use crate::steps::drop_all;
use far_index::tag_of_key;
use far_objects::Objects;
use far_word::Refused;
use std::fmt;

/// What of a map is near. As one line `entries 3 homes 16 taken 4 bytes 230`.
#[derive(Clone, Copy, Debug, PartialEq, Eq)]
pub struct Statistics {
    /// How many entries it has.
    pub entries: usize,
    /// How many homes the index has: it is made anew, mostly half as large again, where seven eighths are taken.
    pub homes: usize,
    /// How many slots have an entry or had one since the index was made.
    pub taken: usize,
    /// The index's bytes: 10 a slot.
    pub bytes: usize,
}

impl fmt::Display for Statistics {
    fn fmt<W: fmt::Write>(&self, f: &mut fmt::Formatter<W>) -> fmt::Result {
        write!(
            f,
            "entries {} homes {} taken {} bytes {}",
            self.entries, self.homes, self.taken, self.bytes
        )
    }
}

impl<O: Objects + Drop> Map<O> {
    /// Whether it has no entry.
    pub fn is_empty(&self) -> bool
        ensures { self.now.honest ≡ true → result ≡ (map.len self.now.entries == 0) }
    {
        self.len() == 0
    }

    /// Whether it has a key. Refused as the worker's reads are.
    pub fn contains_key(&mut self, key: &[u8]) -> Result<bool, Refused>
        ensures same { self.new ≡ self.old }
        ensures there { self.old.honest ≡ true → IfOk result (λ there. there ≡ map.contains_key self.old.entries key.now) }
        ensures why { IfErr result (O.unreached self.old.honest) }
    {
        let tag = tag_of_key(&self.parts.near.seed, key);
        let found = match find(&mut self.parts, tag, key) {
            Ok(found) => found,
            Err(why) => return Err(why),
        };
        let Some(_at) = found else {
            return Ok(false);
        };
        Ok(true)
    }

    /// Makes the index large enough for so many entries more: none of them makes it anew. Refused [`Refused::Memory`] alone.
    pub fn reserve(&mut self, additional: usize) -> Result<(), Refused>
        ensures same { self.old.honest ≡ true → self.new ≡ self.old }
        ensures honest { self.new.honest ≡ self.old.honest }
        ensures refused { OnErr result (self.new ≡ self.old) }
        ensures why { IfErr result (λ why. why ≡ Memory) }
    {
        let wanted = self.parts.near.count.saturating_add(additional);
        let homes = wanted.saturating_add(wanted / 3).saturating_add(64);
        let buckets = self.parts.near.buckets;
        let taken = self.parts.near.used.saturating_add(additional);
        if homes <= buckets && taken < buckets - buckets / 8 {
            return Ok(());
        }
        match rebuild(self.parts.alloc, &mut self.parts.near, homes.max(buckets)) {
            Ok(()) => Ok(()),
            Err(_) => Err(Refused::Memory),
        }
    }

    /// Drops all entries. The index keeps its size.
    pub fn clear(&mut self)
        ensures honest { self.new.honest ≡ self.old.honest }
        ensures empty { self.new.entries ≡ map.empty }
    {
        drop_all(&mut self.parts);
    }

    /// What of the map is near.
    pub fn statistics(&self) -> Statistics
        ensures { self.now.honest ≡ true → result.entries ≡ map.len self.now.entries }
    {
        Statistics {
            entries: self.parts.near.count,
            homes: self.parts.near.buckets,
            taken: self.parts.near.used,
            bytes: self.parts.near.slots.len().saturating_mul(10),
        }
    }

    /// Changes the value of a key that is there: reads it to `value`, lets `change` change that, and puts it. Whether the key is there.
    ///
    /// Refused as [`Map::get`] and [`Map::insert`] are; then the map is as it was, but `change` may have been called.
    pub fn update<F: FnOnce(&mut Vec<u8>)>(
        &mut self,
        key: &[u8],
        value: &mut Vec<u8>,
        change: F,
    ) -> Result<bool, Refused>
        requires { F.IsAlwaysCallable change }
        ensures honest { self.new.honest ≡ self.old.honest }
        ensures changed { self.old.honest ≡ true → IfOk result (λ there. MatchOption (map.get self.old.entries key.now) ((there ≡ false) × (self.new.entries ≡ self.old.entries)) (λ was. (there ≡ true) × (read : _) × (read.items ≡ was) × FnOnceReturnsAtMut F.FnOnce change read tt value.new × (self.new.entries ≡ map.insert self.old.entries key.now value.new.items))) }
        ensures refused { OnErr result (self.new ≡ self.old) }
        ensures why { IfErr result (λ why. ((why ≡ Length) × (is_entry key.now value.new.items ≡ false)) ⊎ IsWhyPut O.unmade O.unreached self.old.honest true why) }
    {
        match self.get(key, value) {
            Ok(true) => {}
            Ok(false) => return Ok(false),
            Err(why) => return Err(why),
        }
        change(value);
        match self.insert(key, value.as_slice()) {
            Ok(_) => Ok(true),
            Err(why) => Err(why),
        }
    }
}
