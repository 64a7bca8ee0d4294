//! Entries told one by one, to who can lend no closure: the short ones first.

ghost use Rattle.std.specs.Prelude.{◌≡◌, ◌-◌, ◌^◌, ◌&&◌, nat_le, min, true, false, IfErr, IfOk, MatchOption, OnErr};
ghost use Rattle.std.specs.FinMap as map;
ghost use Rattle.far_map.specs.Listed.{AreAllOf};
ghost use Rattle.far_map.specs.Walks.{TellsNext};
ghost use Rattle.far_dict.specs.Causes.{IsWhyRead};
ghost use Rattle.far_dict.specs.Dictionaries.{IsHonest as IsHonestDict};
ghost use Rattle.far_dict.specs.Walks.{IsHonest, dictionary_in};

use crate::dict::Dict;
use crate::long::Long;
use far_map::Walk as ShortWalk;
use far_objects::Objects;
use far_word::Refused;
use std::marker::Model;

/// A dictionary while its entries are told one by one: to a contract also those that weren't told yet, as a list.
#[derive(Drop)]
pub struct Walk<O: Objects + Drop> {
    short: ShortWalk<O>,
    long: Long<O>,
    names: Vec<Vec<u8>>,
    told: usize,
}

impl<O: Objects + Drop> Model for Walk<O> {
    ghost use Rattle.std.specs.Prelude.{map as each};
    ghost use Rattle.far_dict.specs.Dictionaries.{AreApart};
    ghost use Rattle.far_dict.specs.Walks.{AreNames, Walked, short_table, walked, walked_code};

    ghost Value = { Walked };

    ghost coded = { walked_code };

    ghost view = { λ w. walked w.short w.long w.told };

    ghost invariant = { λ w. AreApart (short_table w.short) w.long × AreNames (each (λ k. k.items) w.names.items) w.long };
}

/// Whether there is room for as many bytes of each.
fn has_room(most_key: usize, most_value: usize, key: usize, value: usize) -> bool
    ensures { result ≡ (nat_le key most_key && nat_le value most_value) }
{
    key <= most_key && value <= most_value
}

impl<O: Objects + Drop> Dict<O> {
    /// Begins to tell the entries, in no order that is told. Keys of long values take memory twice meanwhile; without that the dictionary comes back.
    pub fn into_walk(self) -> Result<Walk<O>, Dict<O>>
        ensures same { IfOk result (λ w. dictionary_in w ≡ self) }
        ensures all { IsHonestDict self → IfOk result (λ w. AreAllOf w.rest self.entries) }
        ensures back { IfErr result (λ d. d ≡ self) }
    {
        let Ok(names) = self.long.names() else {
            return Err(self);
        };
        let Dict { short, long } = self;
        Ok(Walk {
            short: short.into_walk(),
            long,
            names,
            told: 0,
        })
    }
}

impl<O: Objects + Drop> Walk<O> {
    /// Tells an entry that wasn't told yet: `key` and `value` have its bytes then. Whether there was one. It counts as told only where it has at most so many
    /// bytes of each, and the next call tells it again otherwise.
    ///
    /// Refused as the workers' reads are, and `Memory` where `key` or `value` can't grow; then nothing was told.
    pub fn next(
        &mut self,
        most_key: usize,
        most_value: usize,
        key: &mut Vec<u8>,
        value: &mut Vec<u8>,
    ) -> Result<bool, Refused>
        ensures same { dictionary_in self.new ≡ dictionary_in self.old }
        ensures told { IsHonest self.old → IfOk result (λ there. TellsNext most_key most_value self.old.rest there key.new.items value.new.items self.new.rest) }
        ensures refused { OnErr result (self.new ≡ self.old) }
        ensures why { IfErr result (IsWhyRead O.unreached (dictionary_in self.old)) }
    {
        match self.short.next(most_key, most_value, key, value) {
            Ok(true) => return Ok(true),
            Ok(false) => {}
            Err(why) => return Err(why),
        }
        if self.told >= self.names.len() {
            return Ok(false);
        }
        key.clear();
        let Ok(()) = key.extend_from_slice(self.names[self.told].as_slice()) else {
            return Err(Refused::Memory);
        };
        match self.long.read(key.as_slice(), value) {
            Ok(true) => {
                if has_room(most_key, most_value, key.len(), value.len()) {
                    self.told += 1;
                }
                Ok(true)
            }
            Ok(false) => Ok(false),
            Err(why) => Err(why),
        }
    }

    /// Begins anew: no entry counts as told.
    pub fn begin(&mut self)
        ensures same { dictionary_in self.new ≡ dictionary_in self.old }
        ensures all { IsHonest self.old → AreAllOf self.new.rest self.old.entries }
    {
        self.short.begin();
        self.told = 0;
    }

    /// As [`Dict::get`].
    pub fn get(&mut self, key: &[u8], out: &mut Vec<u8>) -> Result<bool, Refused>
        ensures same { self.new ≡ self.old }
        ensures got { IsHonest self.old → IfOk result (λ there. MatchOption (map.get self.old.entries key.now) (there ≡ false) (λ value. (there ≡ true) × (out.new.items ≡ value))) }
        ensures why { IfErr result (IsWhyRead O.unreached (dictionary_in self.old)) }
    {
        match self.short.get(key, out) {
            Ok(true) => Ok(true),
            Ok(false) => self.long.read(key, out),
            Err(why) => Err(why),
        }
    }

    /// As [`Dict::contains_key`].
    pub fn contains_key(&mut self, key: &[u8]) -> Result<bool, Refused>
        ensures same { self.new ≡ self.old }
        ensures there { IsHonest self.old → IfOk result (λ there. there ≡ map.contains_key self.old.entries key.now) }
        ensures why { IfErr result (O.unreached self.old.honest) }
    {
        if self.long.has(key) {
            return Ok(true);
        }
        self.short.contains_key(key)
    }

    /// As [`Dict::len`].
    pub fn len(&self) -> usize
        ensures { self.now.honest ≡ true → result ≡ min (map.len self.now.entries) (2 ^ 64 - 1) }
    {
        self.short.len().saturating_add(self.long.len())
    }

    /// The worker of the short entries.
    pub fn worker(&self) -> &O
        ensures { (O.far result.now).honest ≡ self.now.honest }
    {
        self.short.worker()
    }

    /// The worker of the long values.
    pub fn long_worker(&self) -> &O
        ensures { (O.far result.now).honest ≡ self.now.honest_long }
    {
        self.long.worker()
    }

    /// The dictionary again.
    pub fn into_dict(self) -> Dict<O>
        ensures { result ≡ dictionary_in self }
    {
        let Walk {
            short,
            long,
            names: _,
            told: _,
        } = self;
        Dict {
            short: short.into_map(),
            long,
        }
    }
}
