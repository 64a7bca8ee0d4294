//! Calls that lend a key's value to a closure.

ghost use Rattle.std.specs.Prelude.{◌≡◌, ◌⊎◌, true, false, Some, None, IfOk, IfErr, OnErr, MatchOption};
ghost use Rattle.std.specs.FinMap as map;
ghost use Rattle.std.specs.Fn.{FnOnceReturnsAt, FnOnceReturnsAtMut};
ghost use Rattle.far_map.specs.Causes.{IsWhyRead as IsWhyLong};
ghost use Rattle.far_dict.specs.Causes.{IsWhyPut, IsWhyRead, is_key};
ghost use Rattle.far_dict.specs.Dictionaries.{IsHonest};
ghost use Rattle.far_dict.specs.Longs.{Sound, table_of};

use crate::dict::Dict;
use crate::steps::{Parts, read_long};
use far_objects::Objects;
use far_word::Refused;

/// Calls `look` at a key's long value. What it answers; none if the key has none.
pub fn look_at<O: Objects + Drop, T, F: FnOnce(&[u8]) -> T>(
    parts: &mut Parts<O>,
    key: &[u8],
    look: F,
) -> Result<Option<T>, Refused>
    requires sound { Sound (O.far parts.old.worker) parts.old.near }
    requires callable { F.IsAlwaysCallable look }
    ensures far { O.far parts.new.worker ≡ O.far parts.old.worker }
    ensures near { parts.new.near ≡ parts.old.near }
    ensures got { (O.far parts.old.worker).honest ≡ true → IfOk result (λ r. MatchOption (map.get (table_of (O.far parts.old.worker) parts.old.near).entries key.now) (r ≡ None) (λ value. (x : _) × (r ≡ Some x) × FnOnceReturnsAt F.FnOnce look value x)) }
    ensures why { IfErr result (IsWhyLong O.unreached (O.far parts.old.worker).honest) }
{
    let mut value = Vec::new(parts.alloc);
    match read_long(parts, key, &mut value) {
        Ok(true) => Ok(Some(look(value.as_slice()))),
        Ok(false) => Ok(None),
        Err(why) => Err(why),
    }
}

impl<O: Objects + Drop> Dict<O> {
    /// Calls `look` at a key's value: where it lies near, if an object has room for the entry; else at a copy. What it answers; none if the key isn't there.
    ///
    /// Refused as a worker's reads are, and [`Refused::Memory`] where there is none for a copy; then `look` wasn't called.
    pub fn get_with<T, F: FnOnce(&[u8]) -> T>(
        &mut self,
        key: &[u8],
        look: F,
    ) -> Result<Option<T>, Refused>
        requires { F.IsAlwaysCallable look }
        ensures same { self.new ≡ self.old }
        ensures got { IsHonest self.old → IfOk result (λ r. MatchOption (map.get self.old.entries key.now) (r ≡ None) (λ value. (x : _) × (r ≡ Some x) × FnOnceReturnsAt F.FnOnce look value x)) }
        ensures why { IfErr result (IsWhyRead O.unreached self.old) }
    {
        if self.long.has(key) {
            return self.long.look_at(key, look);
        }
        self.short.get_with(key, look)
    }

    /// Changes the value of a key that is there: reads it to `value`, lets `change` change that, and puts it. Whether the key is there.
    ///
    /// Refused as [`Dict::get`] and [`Dict::insert`] are; then the map is as it was, but `change` may have been called.
    pub fn update<F: FnOnce(&mut Vec<u8>)>(
        &mut self,
        key: &[u8],
        value: &mut Vec<u8>,
        change: F,
    ) -> Result<bool, Refused>
        requires { F.IsAlwaysCallable change }
        ensures honest { self.new.honest ≡ self.old.honest }
        ensures honest_long { self.new.honest_long ≡ self.old.honest_long }
        ensures changed { IsHonest self.old → IfOk result (λ there. MatchOption (map.get self.old.entries key.now) ((there ≡ false) × (self.new.entries ≡ self.old.entries)) (λ was. (there ≡ true) × (read : _) × (read.items ≡ was) × FnOnceReturnsAtMut F.FnOnce change read tt value.new × (self.new.entries ≡ map.insert self.old.entries key.now value.new.items))) }
        ensures refused { OnErr result (self.new ≡ self.old) }
        ensures why { IfErr result (λ why. IsWhyRead O.unreached self.old why ⊎ IsWhyPut O.unmade O.unreached self.old.honest (is_key key.now) why) }
    {
        match self.get(key, value) {
            Ok(true) => {}
            Ok(false) => return Ok(false),
            Err(why) => return Err(why),
        }
        change(value);
        match self.insert(key, value.as_slice()) {
            Ok(_) => Ok(true),
            Err(why) => Err(why),
        }
    }
}
