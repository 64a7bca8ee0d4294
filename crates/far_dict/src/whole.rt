//! Calls that go over the whole map, or change nothing.

ghost use Rattle.std.specs.Prelude.{◌≡◌, ◌-◌, ◌^◌, ◌==◌, ◌⊎◌, min, true, IfOk, IfErr, OnErr};
ghost use Rattle.std.specs.FinMap as map;
ghost use Rattle.far_objects.specs.Far.{Far};
ghost use Rattle.far_word.specs.declared.refused.Refused.TheVariants.{Memory};
ghost use Rattle.far_dict.specs.Dictionaries.{IsHonest};

use crate::dict::Dict;
use far_objects::Objects;
use far_word::Refused;
use std::fmt;

/// What of the map is near. As one line that of the short entries, and ` long 2`.
#[derive(Clone, Copy, Debug, PartialEq, Eq)]
pub struct Statistics {
    /// The entries that an object has room for.
    pub short: far_map::Statistics,
    /// How many entries are longer.
    pub long: usize,
}

impl fmt::Display for Statistics {
    fn fmt<W: fmt::Write>(&self, f: &mut fmt::Formatter<W>) -> fmt::Result {
        write!(f, "{} long {}", self.short, self.long)
    }
}

impl<O: Objects + Drop> Dict<O> {
    /// How many entries it has. Never more than the largest `usize` is told.
    pub fn len(&self) -> usize
        ensures { self.now.honest ≡ true → result ≡ min (map.len self.now.entries) (2 ^ 64 - 1) }
    {
        self.short.len().saturating_add(self.long.len())
    }

    /// Whether it has no entry.
    pub fn is_empty(&self) -> bool
        ensures { self.now.honest ≡ true → result ≡ (map.len self.now.entries == 0) }
    {
        self.len() == 0
    }

    /// Whether it has a key. Refused as a worker's reads are.
    pub fn contains_key(&mut self, key: &[u8]) -> Result<bool, Refused>
        ensures same { self.new ≡ self.old }
        ensures there { IsHonest self.old → IfOk result (λ there. there ≡ map.contains_key self.old.entries key.now) }
        ensures why { IfErr result (O.unreached self.old.honest) }
    {
        if self.long.has(key) {
            return Ok(true);
        }
        self.short.contains_key(key)
    }

    /// Drops all entries.
    pub fn clear(&mut self)
        ensures honest { self.new.honest ≡ self.old.honest }
        ensures honest_long { self.new.honest_long ≡ self.old.honest_long }
        ensures empty { self.new.entries ≡ map.empty }
    {
        self.short.clear();
        self.long.clear();
    }

    /// Makes the index large enough for so many entries more that an object has room for. Refused [`Refused::Memory`] alone.
    pub fn reserve(&mut self, additional: usize) -> Result<(), Refused>
        ensures same { self.old.honest ≡ true → self.new ≡ self.old }
        ensures honest { self.new.honest ≡ self.old.honest }
        ensures honest_long { self.new.honest_long ≡ self.old.honest_long }
        ensures refused { OnErr result (self.new ≡ self.old) }
        ensures why { IfErr result (λ why. why ≡ Memory) }
    {
        self.short.reserve(additional)
    }

    /// The worker that the short entries were put into. No clause names its objects here; within they are a [`Map`](far_map::Map)'s.
    pub fn worker(&self) -> &O
        ensures { (O.far result.now).honest ≡ self.now.honest }
    {
        self.short.worker()
    }

    /// The worker that the long values were put into. No clause names its objects here; within each is part of one of them.
    pub fn long_worker(&self) -> &O
        ensures { (O.far result.now).honest ≡ self.now.honest_long }
    {
        self.long.worker()
    }

    /// What of the map is near.
    pub fn statistics(&self) -> Statistics {
        Statistics {
            short: self.short.statistics(),
            long: self.long.len(),
        }
    }
}
