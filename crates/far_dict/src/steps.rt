//! Steps that change what there is of long values.

ghost use Rattle.std.specs.Prelude.{◌≡◌, ◌⊎◌, ℕ, ◌<◌, Bool, true, false, not, Some, None, IfOk, IfErr, OnErr, OnOk, IfSome, IfNone, MatchOption, length};
ghost use Rattle.std.specs.FinMap as map;
ghost use Rattle.far_word.specs.declared.refused.Refused.TheVariants.{Memory};
ghost use Rattle.far_large.specs.Parts.{Stands, Takes};
ghost use Rattle.far_map.specs.Causes.{IsWhyRead};
ghost use Rattle.far_dict.specs.Longs.{Gets, Sound, table_of};

use crate::near::Near;
use crate::reading::read_whole;
use far_large::Large;
use far_objects::Objects;
use far_word::Refused;
use std::alloc::Global;

/// The worker that has the values' objects, and which values there are.
#[derive(Drop)]
pub struct Parts<O: Objects + Drop> {
    pub worker: O,
    pub near: Near,
    pub alloc: Global,
}

/// Drops a value that is there: that is never refused.
fn let_go<O: Objects + Drop>(worker: &mut O, large: Large)
    requires { Stands (O.far worker.old) large }
    ensures { Takes large (O.far worker.old) (O.far worker.new) }
{
    let _ = large.drop_large(worker);
}

/// Gives a key a value: its objects are made before those of the one that it had go. Whether the key is new.
pub fn put<O: Objects + Drop>(
    parts: &mut Parts<O>,
    key: &[u8],
    value: &[u8],
) -> Result<bool, Refused>
    requires some { 0 < length value.now }
    requires sound { Sound (O.far parts.old.worker) parts.old.near }
    ensures sound { Sound (O.far parts.new.worker) parts.new.near }
    ensures honest { (O.far parts.new.worker).honest ≡ (O.far parts.old.worker).honest }
    ensures made { OnOk result (Gets (O.far parts.old.worker).honest (table_of (O.far parts.old.worker) parts.old.near).entries key.now value.now (table_of (O.far parts.new.worker) parts.new.near).entries) }
    ensures new { IfOk result (λ new. new ≡ not (map.contains_key parts.old.near key.now)) }
    ensures refused { OnErr result (table_of (O.far parts.new.worker) parts.new.near ≡ table_of (O.far parts.old.worker) parts.old.near) }
    ensures why { IfErr result (λ why. (why ≡ Memory) ⊎ O.unmade why) }
{
    let Ok(name) = Vec::from_slice(parts.alloc, key) else {
        return Err(Refused::Memory);
    };
    let large = match Large::put(parts.alloc, &mut parts.worker, value) {
        Ok(large) => large,
        Err(why) => return Err(why),
    };
    match parts.near.insert(name, large) {
        Ok(None) => Ok(true),
        Ok(Some(was)) => {
            let_go(&mut parts.worker, was);
            Ok(false)
        }
        Err(back) => {
            let_go(&mut parts.worker, back);
            Err(Refused::Memory)
        }
    }
}

/// Takes a key's value out. Whether it had one.
pub fn take_out<O: Objects + Drop>(parts: &mut Parts<O>, key: &[u8]) -> bool
    requires sound { Sound (O.far parts.old.worker) parts.old.near }
    ensures sound { Sound (O.far parts.new.worker) parts.new.near }
    ensures honest { (O.far parts.new.worker).honest ≡ (O.far parts.old.worker).honest }
    ensures made { (table_of (O.far parts.new.worker) parts.new.near).entries ≡ map.remove (table_of (O.far parts.old.worker) parts.old.near).entries key.now }
    ensures there { result ≡ map.contains_key parts.old.near key.now }
{
    match parts.near.remove(key) {
        Some(large) => {
            let_go(&mut parts.worker, large);
            true
        }
        None => false,
    }
}

/// Takes out some key's value. Whether there was one.
fn take_first<O: Objects + Drop>(parts: &mut Parts<O>) -> bool
    requires sound { Sound (O.far parts.old.worker) parts.old.near }
    ensures sound { Sound (O.far parts.new.worker) parts.new.near }
    ensures honest { (O.far parts.new.worker).honest ≡ (O.far parts.old.worker).honest }
    ensures fewer { result ≡ true → map.len parts.new.near < map.len parts.old.near }
    ensures none { result ≡ false → (table_of (O.far parts.new.worker) parts.new.near).entries ≡ map.empty }
{
    match parts.near.take_first() {
        Some(large) => {
            let_go(&mut parts.worker, large);
            true
        }
        None => false,
    }
}

/// Takes all values out.
pub fn drop_all<O: Objects + Drop>(parts: &mut Parts<O>)
    requires sound { Sound (O.far parts.old.worker) parts.old.near }
    ensures sound { Sound (O.far parts.new.worker) parts.new.near }
    ensures honest { (O.far parts.new.worker).honest ≡ (O.far parts.old.worker).honest }
    ensures empty { (table_of (O.far parts.new.worker) parts.new.near).entries ≡ map.empty }
{
    while take_first(parts) {}
}

/// Reads a key's value, if it has one. Whether it has.
pub fn read_long<O: Objects + Drop>(
    parts: &mut Parts<O>,
    key: &[u8],
    out: &mut Vec<u8>,
) -> Result<bool, Refused>
    requires sound { Sound (O.far parts.old.worker) parts.old.near }
    ensures far { O.far parts.new.worker ≡ O.far parts.old.worker }
    ensures near { parts.new.near ≡ parts.old.near }
    ensures got { (O.far parts.old.worker).honest ≡ true → IfOk result (λ there. MatchOption (map.get (table_of (O.far parts.old.worker) parts.old.near).entries key.now) (there ≡ false) (λ value. (there ≡ true) × (out.new.items ≡ value))) }
    ensures why { IfErr result (IsWhyRead O.unreached (O.far parts.old.worker).honest) }
{
    let Some(large) = parts.near.get(key) else {
        return Ok(false);
    };
    match read_whole(&mut parts.worker, large, out) {
        Ok(()) => Ok(true),
        Err(why) => Err(why),
    }
}
