//! The map.

ghost use Rattle.std.specs.Prelude.{◌≡◌, ◌⊎◌, ℕ, ◌<◌, ◌&&◌, true, false, not, Some, None, Err, IfOk, IfErr, OnOk, OnErr, MatchOption, length};
ghost use Rattle.std.specs.FinMap as map;
ghost use Rattle.far_word.specs.declared.refused.Refused.TheVariants.{Length, Memory};
ghost use Rattle.far_map.specs.Causes.{is_entry};
ghost use Rattle.far_dict.specs.Causes.{IsWhyPut, IsWhyRead, is_key};
ghost use Rattle.far_dict.specs.Dictionaries.{IsHonest};

use crate::long::Long;
use far_map::Map;
use far_objects::{MOST, Objects};
use far_word::Refused;
use std::alloc::Global;
use std::marker::Model;

/// A map from bytes to bytes. An entry that an object has room for is an object of one worker; the value of another is cut into objects of a
/// second one, and its key is near. What calls tell of keys and values holds where both are honest.
#[derive(Drop)]
pub struct Dict<O: Objects + Drop> {
    pub(crate) short: Map<O>,
    pub(crate) long: Long<O>,
}

impl<O: Objects + Drop> Model for Dict<O> {
    ghost use Rattle.far_dict.specs.Dictionaries.{AreApart, Dictionary, dictionary_code, dictionary_of};

    ghost Value = { Dictionary };

    ghost coded = { dictionary_code };

    ghost view = { λ d. dictionary_of d.short d.long };

    ghost invariant = { λ d. AreApart d.short d.long };
}

/// How long a key may be.
const LONGEST_KEY: usize = MOST - 2;

/// Whether an object has room for the entry.
fn fits(key: &[u8], value: &[u8]) -> bool
    ensures { result ≡ is_entry key.now value.now }
{
    key.len() <= MOST && value.len() <= MOST && 2 + key.len() + value.len() <= MOST
}

/// Whether a key that is new to the map had no long value either.
fn is_first(new: bool, had: bool) -> bool
    ensures { result ≡ (new && not had) }
{
    new && !had
}

impl<O: Objects + Drop> Dict<O> {
    /// An empty map over two workers that have no objects. The seed is for the hash of the keys: who chooses keys mustn't know it.
    ///
    /// Refused [`Refused::Memory`] alone.
    pub fn new(alloc: Global, worker: O, long_worker: O, seed: [u8; 16]) -> Result<Dict<O>, Refused>
        requires none { (h : ℕ) → (O.far worker).sizes h ≡ None }
        requires none_long { (h : ℕ) → (O.far long_worker).sizes h ≡ None }
        ensures honest { IfOk result (λ d. d.honest ≡ (O.far worker).honest) }
        ensures honest_long { IfOk result (λ d. d.honest_long ≡ (O.far long_worker).honest) }
        ensures empty { IfOk result (λ d. d.entries ≡ map.empty) }
        ensures why { IfErr result (λ why. why ≡ Memory) }
    {
        match Map::new(alloc, worker, seed) {
            Ok(short) => Ok(Dict {
                short,
                long: Long::new(alloc, long_worker),
            }),
            Err(why) => Err(why),
        }
    }

    /// Whether it has a key; then `out` has its value, as many bytes as that has.
    ///
    /// Refused as a worker's reads are, and [`Refused::Memory`] where `out` can't grow. `out` may have any bytes then.
    pub fn get(&mut self, key: &[u8], out: &mut Vec<u8>) -> Result<bool, Refused>
        ensures same { self.new ≡ self.old }
        ensures got { IsHonest self.old → IfOk result (λ there. MatchOption (map.get self.old.entries key.now) (there ≡ false) (λ value. (there ≡ true) × (out.new.items ≡ value))) }
        ensures why { IfErr result (IsWhyRead O.unreached self.old) }
    {
        match self.short.get(key, out) {
            Ok(true) => Ok(true),
            Ok(false) => self.long.read(key, out),
            Err(why) => Err(why),
        }
    }

    /// Gives a key a value. Whether the key is new.
    ///
    /// Refused: [`Refused::Length`] exactly where the key is longer than 4,086 bytes; [`Refused::Memory`]; or as a worker refuses to read or to
    /// make an object. Then the map is as it was.
    pub fn insert(&mut self, key: &[u8], value: &[u8]) -> Result<bool, Refused>
        ensures honest { self.new.honest ≡ self.old.honest }
        ensures honest_long { self.new.honest_long ≡ self.old.honest_long }
        ensures made { IsHonest self.old → OnOk result (self.new.entries ≡ map.insert self.old.entries key.now value.now) }
        ensures new { IsHonest self.old → IfOk result (λ new. new ≡ not (map.contains_key self.old.entries key.now)) }
        ensures refused { OnErr result (self.new ≡ self.old) }
        ensures long { is_key key.now ≡ false → result ≡ Err Length }
        ensures why { IfErr result (IsWhyPut O.unmade O.unreached self.old.honest (is_key key.now)) }
    {
        if key.len() > LONGEST_KEY {
            return Err(Refused::Length);
        }
        if fits(key, value) {
            self.insert_short(key, value)
        } else {
            self.insert_long(key, value)
        }
    }

    /// The entry comes to the map, and then what the key had among the long ones goes.
    fn insert_short(&mut self, key: &[u8], value: &[u8]) -> Result<bool, Refused>
        requires { is_entry key.now value.now ≡ true }
        ensures honest { self.new.honest ≡ self.old.honest }
        ensures honest_long { self.new.honest_long ≡ self.old.honest_long }
        ensures made { IsHonest self.old → OnOk result (self.new.entries ≡ map.insert self.old.entries key.now value.now) }
        ensures new { IsHonest self.old → IfOk result (λ new. new ≡ not (map.contains_key self.old.entries key.now)) }
        ensures refused { OnErr result (self.new ≡ self.old) }
        ensures why { IfErr result (IsWhyPut O.unmade O.unreached self.old.honest true) }
    {
        match self.short.insert(key, value) {
            Ok(new) => {
                let had = self.long.take_out(key);
                Ok(is_first(new, had))
            }
            Err(why) => Err(why),
        }
    }

    /// The value comes to the long ones, and then what the key had in the map goes. Where that is refused, the new value goes again.
    fn insert_long(&mut self, key: &[u8], value: &[u8]) -> Result<bool, Refused>
        requires { 0 < length value.now }
        ensures honest { self.new.honest ≡ self.old.honest }
        ensures honest_long { self.new.honest_long ≡ self.old.honest_long }
        ensures made { IsHonest self.old → OnOk result (self.new.entries ≡ map.insert self.old.entries key.now value.now) }
        ensures new { IsHonest self.old → IfOk result (λ new. new ≡ not (map.contains_key self.old.entries key.now)) }
        ensures refused { OnErr result (self.new ≡ self.old) }
        ensures why { IfErr result (IsWhyPut O.unmade O.unreached self.old.honest true) }
    {
        match self.long.put(key, value) {
            Ok(true) => {}
            Ok(false) => return Ok(false),
            Err(why) => return Err(why),
        }
        match self.short.remove(key) {
            Ok(there) => Ok(!there),
            Err(why) => {
                let _ = self.long.take_out(key);
                Err(why)
            }
        }
    }

    /// Takes a key and its value out. Whether it was there. Refused as a worker's reads are; then the map is as it was.
    pub fn remove(&mut self, key: &[u8]) -> Result<bool, Refused>
        ensures honest { self.new.honest ≡ self.old.honest }
        ensures honest_long { self.new.honest_long ≡ self.old.honest_long }
        ensures made { IsHonest self.old → OnOk result (self.new.entries ≡ map.remove self.old.entries key.now) }
        ensures there { IsHonest self.old → IfOk result (λ there. there ≡ map.contains_key self.old.entries key.now) }
        ensures refused { OnErr result (self.new ≡ self.old) }
        ensures why { IfErr result (O.unreached self.old.honest) }
    {
        if self.long.take_out(key) {
            return Ok(true);
        }
        self.short.remove(key)
    }
}
