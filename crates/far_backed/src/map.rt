//! The map.

ghost use Rattle.std.specs.Prelude.{◌≡◌, ◌≤◌, ◌<◌, ◌⊎◌, ◌-◌, ◌^◌, [], true, false, not, min, None, Some, Ok, Err, length, take, drop, IfOk, IfErr, IfSome, MatchOption, OnErr, OnOk, IsSome};
ghost use Rattle.std.specs.FinMap as map;
ghost use Rattle.far_word.specs.declared.refused.Refused.TheVariants.{Length, Memory, NoPointer, Shape};
ghost use Rattle.far_private.specs.Heap.{IsOutside, is_logs};
ghost use Rattle.far_private.specs.Numbered.{IsNoPlace};
ghost use Rattle.far_pool.specs.Pool.{IsWhyNoWorker};
ghost use Rattle.far_map.specs.Listed.{AreAllOf};
ghost use Rattle.far_dict.specs.Causes.{IsWhyPut, is_key};
ghost use Rattle.far_dict.specs.Tours.{Tells};
ghost use Rattle.far_backed.specs.Named.{most_heaps};

use crate::sides::{Side, Sides};
use far_dict::{Dict, Tour};
use far_pool::{Layout, Worker, WorkerStatistics};
use far_word::Refused;
use std::alloc::Global;
use std::marker::Model;

/// A map from bytes to bytes over two workers over memory, as [`Backed`](crate::Backed) has it, which tells its entries one by one. To a contract it is its entries, and those that are still to be told.
#[derive(Drop)]
pub struct BackedMap {
    tour: Tour<Worker<Side, Sides>>,
}

impl Model for BackedMap {
    ghost use Rattle.std.specs.Prelude.{◌≡◌, true};
    ghost use Rattle.far_backed.specs.Kept.{Kept, kept, kept_code};

    ghost Value = { Kept };

    ghost coded = { kept_code };

    ghost view = { λ m. kept m.tour };

    ghost invariant = { λ m. (m.tour.honest ≡ true) × (m.tour.honest_long ≡ true) };
}

impl BackedMap {
    /// An empty map, whose entries that an object has room for have the heaps of a layout, and the values of longer ones those of another. The seed is for
    /// the hash of keys: who chooses keys mustn't know it. Refused as [`Worker::new`] and [`Dict::new`] are.
    pub fn in_memory(
        alloc: Global,
        layout: Layout,
        long_layout: Layout,
        seed: [u8; 16],
    ) -> Result<BackedMap, Refused>
        ensures empty { IfOk result (λ m. m.entries ≡ map.empty) }
        ensures ended { IfOk result (λ m. m.rest ≡ []) }
        ensures many { most_heaps < layout.heaps → result ≡ Err NoPointer }
        ensures shape { layout.heaps ≤ most_heaps → is_logs layout.logs ≡ false → result ≡ Err Shape }
        ensures why { IfErr result (λ why. IsWhyNoWorker (λ w. w ≡ Memory) layout why ⊎ IsWhyNoWorker (λ w. w ≡ Memory) long_layout why) }
    {
        let (short, long) = (Sides::in_memory(alloc), Sides::in_memory(alloc));
        BackedMap::over(alloc, short, long, layout, long_layout, seed)
    }

    /// The same, whose far entries lie in bytes that are reserved when a heap is made: so many of each heap of short ones, and so many of each of the others, and never more.
    pub fn reserved(
        alloc: Global,
        layout: Layout,
        long_layout: Layout,
        seed: [u8; 16],
        room: usize,
        long_room: usize,
    ) -> Result<BackedMap, Refused>
        ensures empty { IfOk result (λ m. m.entries ≡ map.empty) }
        ensures ended { IfOk result (λ m. m.rest ≡ []) }
        ensures many { most_heaps < layout.heaps → result ≡ Err NoPointer }
        ensures shape { layout.heaps ≤ most_heaps → is_logs layout.logs ≡ false → result ≡ Err Shape }
        ensures why { IfErr result (λ why. IsWhyNoWorker (λ w. w ≡ Memory) layout why ⊎ IsWhyNoWorker (λ w. w ≡ Memory) long_layout why) }
    {
        let (short, long) = (
            Sides::reserved(alloc, room),
            Sides::reserved(alloc, long_room),
        );
        BackedMap::over(alloc, short, long, layout, long_layout, seed)
    }

    // The same over the devices of two makers.
    fn over(
        alloc: Global,
        sides: Sides,
        long_sides: Sides,
        layout: Layout,
        long_layout: Layout,
        seed: [u8; 16],
    ) -> Result<BackedMap, Refused>
        ensures empty { IfOk result (λ m. m.entries ≡ map.empty) }
        ensures ended { IfOk result (λ m. m.rest ≡ []) }
        ensures many { most_heaps < layout.heaps → result ≡ Err NoPointer }
        ensures shape { layout.heaps ≤ most_heaps → is_logs layout.logs ≡ false → result ≡ Err Shape }
        ensures why { IfErr result (λ why. IsWhyNoWorker (λ w. w ≡ Memory) layout why ⊎ IsWhyNoWorker (λ w. w ≡ Memory) long_layout why) }
    {
        let short = match Worker::new(alloc, sides, layout, true) {
            Ok(worker) => worker,
            Err(why) => return Err(why),
        };
        let long = match Worker::new(alloc, long_sides, long_layout, true) {
            Ok(worker) => worker,
            Err(why) => return Err(why),
        };
        match Dict::new(alloc, short, long, seed) {
            Ok(dict) => Ok(BackedMap {
                tour: Tour::new(alloc, dict),
            }),
            Err(why) => Err(why),
        }
    }

    /// Gives a key a value. Whether the key is new. Refused as [`Dict::insert`] is. No entry is left to be told then.
    pub fn put(&mut self, key: &[u8], value: &[u8]) -> Result<bool, Refused>
        ensures put { OnOk result (self.new.entries ≡ map.insert self.old.entries key.now value.now) }
        ensures new { IfOk result (λ new. new ≡ not (map.contains_key self.old.entries key.now)) }
        ensures ended { self.new.rest ≡ [] }
        ensures refused { OnErr result (self.new.entries ≡ self.old.entries) }
        ensures long { is_key key.now ≡ false → result ≡ Err Length }
        ensures why { IfErr result (IsWhyPut IsNoPlace IsOutside true (is_key key.now)) }
    {
        self.tour.insert(key, value)
    }

    /// How many bytes a key's value has, if it has one; `out` begins with them, where it has room for all, and is as it was behind them. Refused as [`Dict::get`] is.
    /// Then, and where there isn't room for all, `out` is as it was.
    pub fn get(&mut self, key: &[u8], out: &mut [u8]) -> Result<Option<usize>, Refused>
        ensures same { self.new ≡ self.old }
        ensures long { length out.new ≡ length out.old }
        ensures got { IfOk result (λ r. MatchOption (map.get self.old.entries key.now) (r ≡ None) (λ value. r ≡ Some (length value))) }
        ensures told { OnOk result (IfSome (map.get self.old.entries key.now) (λ value. length value ≤ length out.old → take (length value) out.new ≡ value)) }
        ensures left { OnOk result (IfSome (map.get self.old.entries key.now) (λ value. length out.old < length value → out.new ≡ out.old)) }
        ensures behind { IfOk result (λ r. MatchOption r (out.new ≡ out.old) (λ n. drop n out.new ≡ drop n out.old)) }
        ensures kept { OnErr result (out.new ≡ out.old) }
        ensures why { IfErr result (IsOutside true) }
    {
        self.tour.get_to(key, out)
    }

    /// Takes a key and its value out. Whether it was there. Refused as [`Dict::remove`] is. No entry is left to be told then.
    #[tactic(auto, using(far_map::proofs::Told::remove_absent))]
    pub fn remove(&mut self, key: &[u8]) -> Result<bool, Refused>
        ensures removed { OnOk result (self.new.entries ≡ map.remove self.old.entries key.now) }
        ensures there { IfOk result (λ there. there ≡ map.contains_key self.old.entries key.now) }
        ensures ended { self.new.rest ≡ [] }
        ensures left { result ≡ Ok false → self.new.entries ≡ self.old.entries }
        ensures refused { OnErr result (self.new.entries ≡ self.old.entries) }
        ensures why { IfErr result (IsOutside true) }
    {
        self.tour.remove(key)
    }

    /// Whether it has a key. Refused as [`Dict::contains_key`] is.
    pub fn contains_key(&mut self, key: &[u8]) -> Result<bool, Refused>
        ensures same { self.new ≡ self.old }
        ensures there { IfOk result (λ there. there ≡ map.contains_key self.old.entries key.now) }
        ensures why { IfErr result (IsOutside true) }
    {
        self.tour.contains_key(key)
    }

    /// How many entries it has. Never more than the largest `usize` is told.
    pub fn len(&self) -> usize
        ensures { result ≡ min (map.len self.now.entries) (2 ^ 64 - 1) }
    {
        self.tour.len()
    }

    /// Drops all entries.
    pub fn clear(&mut self)
        ensures empty { self.new.entries ≡ map.empty }
        ensures ended { self.new.rest ≡ [] }
    {
        self.tour.clear();
    }

    /// From now on all entries are to be told. Refused [`Refused::Memory`] alone.
    pub fn begin(&mut self) -> Result<(), Refused>
        ensures same { self.new.entries ≡ self.old.entries }
        ensures all { OnOk result (AreAllOf self.new.rest self.old.entries) }
        ensures refused { OnErr result (self.new ≡ self.old) }
        ensures why { IfErr result (λ why. why ≡ Memory) }
    {
        self.tour.begin()
    }

    /// Tells an entry that wasn't told yet: how many bytes its key and its value have, if there was one. It counts as told where there is room for both, and `key`
    /// and `value` begin with them then; behind them they are as they were. Refused as the workers' reads are, and [`Refused::Memory`]; then nothing was told.
    pub fn next(
        &mut self,
        key: &mut [u8],
        value: &mut [u8],
    ) -> Result<Option<(usize, usize)>, Refused>
        ensures same { self.new.entries ≡ self.old.entries }
        ensures told { IfOk result (λ r. Tells self.old.rest r key.new value.new self.new.rest) }
        ensures long_key { length key.new ≡ length key.old }
        ensures long_value { length value.new ≡ length value.old }
        ensures behind { IfOk result (λ r. MatchOption r ((key.new ≡ key.old) × (value.new ≡ value.old)) (λ n. (drop n.0 key.new ≡ drop n.0 key.old) × (drop n.1 value.new ≡ drop n.1 value.old))) }
        ensures kept { OnErr result ((key.new ≡ key.old) × (value.new ≡ value.old)) }
        ensures refused { OnErr result (self.new ≡ self.old) }
        ensures why { IfErr result (IsOutside true) }
    {
        self.tour.next_to(key, value)
    }

    /// What the worker of the entries that an object has room for has, and what it has done.
    pub fn statistics(&self) -> Option<WorkerStatistics>
        ensures { IsSome result }
    {
        match self.tour.worker() {
            Some(worker) => Some(worker.statistics()),
            None => None,
        }
    }

    /// The same of the worker of the others' values.
    pub fn long_statistics(&self) -> Option<WorkerStatistics>
        ensures { IsSome result }
    {
        match self.tour.long_worker() {
            Some(worker) => Some(worker.statistics()),
            None => None,
        }
    }
}
