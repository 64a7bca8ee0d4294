//! A dictionary whose entries may be told one by one, for who can hold no borrow of it: the place up to which they were told is in itself.

ghost use Rattle.std.specs.Prelude.{◌≡◌, ◌-◌, ◌^◌, ◌<◌, ◌≤◌, length, take, drop, [], not, min, true, false, None, Some, Err, IsSome, IfErr, IfOk, IfSome, MatchOption, OnErr, OnOk};
ghost use Rattle.std.specs.FinMap as map;
ghost use Rattle.far_word.specs.declared.refused.Refused.TheVariants.{Length, Memory};
ghost use Rattle.far_map.specs.Listed.{AreAllOf};
ghost use Rattle.far_map.specs.Walks.{TellsNext};
ghost use Rattle.far_dict.specs.Causes.{IsWhyPut, IsWhyRead, is_key};
ghost use Rattle.far_dict.specs.Tours.{IsThere, Tells, toured};
ghost use Rattle.far_dict.specs.Walks.{IsHonest, dictionary_in, resting};

use crate::dict::Dict;
use crate::walk::Walk;
use far_objects::Objects;
use far_word::Refused;
use std::alloc::Global;
use std::marker::Model;
use std::mem::replace;

/// The dictionary at rest, or while its entries are told; between the two neither is there.
#[derive(Drop)]
pub enum State<O: Objects + Drop> {
    Still(Dict<O>),
    Walking(Walk<O>),
    Gone,
}

/// A dictionary that tells its entries one by one: to a contract also those that weren't told yet, as a list. Each change ends that.
#[derive(Drop)]
pub struct Tour<O: Objects + Drop> {
    state: State<O>,
    // Where keys and values are read to: one buffer serves all, and grows to the longest.
    key: Vec<u8>,
    value: Vec<u8>,
    alloc: Global,
}

impl<O: Objects + Drop> Model for Tour<O> {
    ghost use Rattle.far_dict.specs.Walks.{Walked, walked_code};
    ghost use Rattle.far_dict.specs.Tours.{IsThere, toured};

    ghost Value = { Walked };

    ghost coded = { walked_code };

    ghost view = { λ t. toured t.state };

    ghost invariant = { λ t. IsThere t.state };
}

/// Copies bytes to the front of a buffer, if it has room for them.
fn copy_front(bytes: &[u8], out: &mut [u8])
    ensures long { length out.new ≡ length out.old }
    ensures copied { length bytes.now ≤ length out.old → take (length bytes.now) out.new ≡ bytes.now }
    ensures left { length out.old < length bytes.now → out.new ≡ out.old }
    ensures behind { drop (length bytes.now) out.new ≡ drop (length bytes.now) out.old }
{
    if bytes.len() > out.len() {
        return;
    }
    let (front, _) = out.split_at_mut(bytes.len());
    front.copy_from_slice(bytes);
}

/// The dictionary at rest.
fn at_rest<O: Objects + Drop>(state: State<O>) -> Option<Dict<O>>
    requires { IsThere state }
    ensures there { IsSome result }
    ensures same { IfSome result (λ d. d ≡ dictionary_in (toured state)) }
{
    match state {
        State::Still(dict) => Some(dict),
        State::Walking(walk) => Some(walk.into_dict()),
        State::Gone => None,
    }
}

/// The state in which all entries are to be told; or the same again, where there is no memory for that.
fn begun<O: Objects + Drop>(state: State<O>) -> Result<State<O>, State<O>>
    requires { IsThere state }
    ensures there { IfOk result IsThere }
    ensures same { IfOk result (λ s. dictionary_in (toured s) ≡ dictionary_in (toured state)) }
    ensures all { IsHonest (toured state) → IfOk result (λ s. AreAllOf (toured s).rest (toured state).entries) }
    ensures back { IfErr result (λ s. s ≡ state) }
{
    match state {
        State::Still(dict) => match dict.into_walk() {
            Ok(walk) => Ok(State::Walking(walk)),
            Err(dict) => Err(State::Still(dict)),
        },
        State::Walking(mut walk) => {
            walk.begin();
            Ok(State::Walking(walk))
        }
        State::Gone => Err(State::Gone),
    }
}

impl<O: Objects + Drop> Tour<O> {
    /// What the buffers for keys and values take later is of this allocator.
    pub fn new(alloc: Global, dict: Dict<O>) -> Tour<O>
        ensures { result ≡ resting dict }
    {
        Tour {
            state: State::Still(dict),
            key: Vec::new(alloc),
            value: Vec::new(alloc),
            alloc,
        }
    }

    /// Gives a key a value, as [`Dict::insert`] does; no entry is left to be told then.
    pub fn insert(&mut self, key: &[u8], value: &[u8]) -> Result<bool, Refused>
        ensures honest { self.new.honest ≡ self.old.honest }
        ensures honest_long { self.new.honest_long ≡ self.old.honest_long }
        ensures made { IsHonest self.old → OnOk result (self.new.entries ≡ map.insert self.old.entries key.now value.now) }
        ensures new { IsHonest self.old → IfOk result (λ new. new ≡ not (map.contains_key self.old.entries key.now)) }
        ensures ended { self.new.rest ≡ [] }
        ensures refused { OnErr result (self.new.entries ≡ self.old.entries) }
        ensures long { is_key key.now ≡ false → result ≡ Err Length }
        ensures why { IfErr result (IsWhyPut O.unmade O.unreached self.old.honest (is_key key.now)) }
    {
        let Some(mut dict) = at_rest(replace(&mut self.state, State::Gone)) else {
            return Err(Refused::Memory);
        };
        let done = dict.insert(key, value);
        self.state = State::Still(dict);
        done
    }

    /// Takes a key and its value out, as [`Dict::remove`] does; no entry is left to be told then.
    pub fn remove(&mut self, key: &[u8]) -> Result<bool, Refused>
        ensures honest { self.new.honest ≡ self.old.honest }
        ensures honest_long { self.new.honest_long ≡ self.old.honest_long }
        ensures made { IsHonest self.old → OnOk result (self.new.entries ≡ map.remove self.old.entries key.now) }
        ensures there { IsHonest self.old → IfOk result (λ there. there ≡ map.contains_key self.old.entries key.now) }
        ensures ended { self.new.rest ≡ [] }
        ensures refused { OnErr result (self.new.entries ≡ self.old.entries) }
        ensures why { IfErr result (O.unreached self.old.honest) }
    {
        let Some(mut dict) = at_rest(replace(&mut self.state, State::Gone)) else {
            return Ok(false);
        };
        let done = dict.remove(key);
        self.state = State::Still(dict);
        done
    }

    /// Drops all entries.
    pub fn clear(&mut self)
        ensures honest { self.new.honest ≡ self.old.honest }
        ensures honest_long { self.new.honest_long ≡ self.old.honest_long }
        ensures empty { self.new.entries ≡ map.empty }
        ensures ended { self.new.rest ≡ [] }
    {
        let Some(mut dict) = at_rest(replace(&mut self.state, State::Gone)) else {
            return;
        };
        dict.clear();
        self.state = State::Still(dict);
    }

    /// As [`Dict::get`].
    pub fn get(&mut self, key: &[u8], out: &mut Vec<u8>) -> Result<bool, Refused>
        ensures same { self.new ≡ self.old }
        ensures got { IsHonest self.old → IfOk result (λ there. MatchOption (map.get self.old.entries key.now) (there ≡ false) (λ value. (there ≡ true) × (out.new.items ≡ value))) }
        ensures why { IfErr result (IsWhyRead O.unreached (dictionary_in self.old)) }
    {
        match &mut self.state {
            State::Still(dict) => dict.get(key, out),
            State::Walking(walk) => walk.get(key, out),
            State::Gone => Ok(false),
        }
    }

    /// How many bytes a key's value has, if it has one; `out` begins with them, where it has room for all, and is as it was behind them. Refused as [`Dict::get`] is.
    /// Then, and where there isn't room for all, `out` is as it was.
    pub fn get_to(&mut self, key: &[u8], out: &mut [u8]) -> Result<Option<usize>, Refused>
        ensures same { self.new ≡ self.old }
        ensures long { length out.new ≡ length out.old }
        ensures got { IsHonest self.old → IfOk result (λ r. MatchOption (map.get self.old.entries key.now) (r ≡ None) (λ value. r ≡ Some (length value))) }
        ensures told { IsHonest self.old → OnOk result (IfSome (map.get self.old.entries key.now) (λ value. length value ≤ length out.old → take (length value) out.new ≡ value)) }
        ensures left { IsHonest self.old → OnOk result (IfSome (map.get self.old.entries key.now) (λ value. length out.old < length value → out.new ≡ out.old)) }
        ensures behind { IfOk result (λ r. MatchOption r (out.new ≡ out.old) (λ n. drop n out.new ≡ drop n out.old)) }
        ensures kept { OnErr result (out.new ≡ out.old) }
        ensures why { IfErr result (IsWhyRead O.unreached (dictionary_in self.old)) }
    {
        let mut value = replace(&mut self.value, Vec::new(self.alloc));
        let told = match self.get(key, &mut value) {
            Ok(true) => {
                copy_front(value.as_slice(), out);
                Ok(Some(value.len()))
            }
            Ok(false) => Ok(None),
            Err(why) => Err(why),
        };
        self.value = value;
        told
    }

    /// As [`Dict::contains_key`].
    pub fn contains_key(&mut self, key: &[u8]) -> Result<bool, Refused>
        ensures same { self.new ≡ self.old }
        ensures there { IsHonest self.old → IfOk result (λ there. there ≡ map.contains_key self.old.entries key.now) }
        ensures why { IfErr result (O.unreached self.old.honest) }
    {
        match &mut self.state {
            State::Still(dict) => dict.contains_key(key),
            State::Walking(walk) => walk.contains_key(key),
            State::Gone => Ok(false),
        }
    }

    /// As [`Dict::len`].
    pub fn len(&self) -> usize
        ensures { self.now.honest ≡ true → result ≡ min (map.len self.now.entries) (2 ^ 64 - 1) }
    {
        match &self.state {
            State::Still(dict) => dict.len(),
            State::Walking(walk) => walk.len(),
            State::Gone => 0,
        }
    }

    /// From now on all entries are to be told. Refused [`Refused::Memory`] alone; then all is as it was.
    pub fn begin(&mut self) -> Result<(), Refused>
        ensures same { OnOk result (dictionary_in self.new ≡ dictionary_in self.old) }
        ensures all { IsHonest self.old → OnOk result (AreAllOf self.new.rest self.old.entries) }
        ensures refused { OnErr result (self.new ≡ self.old) }
        ensures why { IfErr result (λ why. why ≡ Memory) }
    {
        match begun(replace(&mut self.state, State::Gone)) {
            Ok(state) => {
                self.state = state;
                Ok(())
            }
            Err(state) => {
                self.state = state;
                Err(Refused::Memory)
            }
        }
    }

    /// Tells an entry that wasn't told yet: `key` and `value` have its bytes then. Whether there was one. It counts as told only where it has at most so many
    /// bytes of each, and the next call tells it again otherwise.
    ///
    /// Refused as the workers' reads are, and [`Refused::Memory`] where `key` or `value` can't grow; then nothing was told.
    pub fn next(
        &mut self,
        most_key: usize,
        most_value: usize,
        key: &mut Vec<u8>,
        value: &mut Vec<u8>,
    ) -> Result<bool, Refused>
        ensures same { dictionary_in self.new ≡ dictionary_in self.old }
        ensures told { IsHonest self.old → IfOk result (λ there. TellsNext most_key most_value self.old.rest there key.new.items value.new.items self.new.rest) }
        ensures refused { OnErr result (self.new ≡ self.old) }
        ensures why { IfErr result (IsWhyRead O.unreached (dictionary_in self.old)) }
    {
        match &mut self.state {
            State::Still(_) => Ok(false),
            State::Walking(walk) => walk.next(most_key, most_value, key, value),
            State::Gone => Ok(false),
        }
    }

    /// The same, into buffers: how many bytes the key and the value have, if there was an entry. It counts as told where there is room for both, and `key` and
    /// `value` begin with them then; behind them they are as they were.
    pub fn next_to(
        &mut self,
        key: &mut [u8],
        value: &mut [u8],
    ) -> Result<Option<(usize, usize)>, Refused>
        ensures same { dictionary_in self.new ≡ dictionary_in self.old }
        ensures told { IsHonest self.old → IfOk result (λ r. Tells self.old.rest r key.new value.new self.new.rest) }
        ensures long_key { length key.new ≡ length key.old }
        ensures long_value { length value.new ≡ length value.old }
        ensures behind { IfOk result (λ r. MatchOption r ((key.new ≡ key.old) × (value.new ≡ value.old)) (λ n. (drop n.0 key.new ≡ drop n.0 key.old) × (drop n.1 value.new ≡ drop n.1 value.old))) }
        ensures kept { OnErr result ((key.new ≡ key.old) × (value.new ≡ value.old)) }
        ensures refused { OnErr result (self.new ≡ self.old) }
        ensures why { IfErr result (IsWhyRead O.unreached (dictionary_in self.old)) }
    {
        let mut own = replace(&mut self.key, Vec::new(self.alloc));
        let mut its = replace(&mut self.value, Vec::new(self.alloc));
        let told = match self.next(key.len(), value.len(), &mut own, &mut its) {
            Ok(true) => {
                copy_front(own.as_slice(), key);
                copy_front(its.as_slice(), value);
                Ok(Some((own.len(), its.len())))
            }
            Ok(false) => Ok(None),
            Err(why) => Err(why),
        };
        self.key = own;
        self.value = its;
        told
    }

    /// The worker of the entries that an object has room for.
    pub fn worker(&self) -> Option<&O>
        ensures there { IsSome result }
        ensures whose { IfSome result (λ w. (O.far w.now).honest ≡ self.now.honest) }
    {
        match &self.state {
            State::Still(dict) => Some(dict.worker()),
            State::Walking(walk) => Some(walk.worker()),
            State::Gone => None,
        }
    }

    /// The worker of the others' values.
    pub fn long_worker(&self) -> Option<&O>
        ensures there { IsSome result }
        ensures whose { IfSome result (λ w. (O.far w.now).honest ≡ self.now.honest_long) }
    {
        match &self.state {
            State::Still(dict) => Some(dict.long_worker()),
            State::Walking(walk) => Some(walk.long_worker()),
            State::Gone => None,
        }
    }
}
