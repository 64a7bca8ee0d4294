//! Long values read, one or all.

ghost use Rattle.std.specs.Prelude.{◌≡◌, ℕ, List, true, Some, Ok, IfOk, IfErr, OnOk};
ghost use Rattle.std.specs.FinMap as map;
ghost use Rattle.std.specs.Fn.{CalledAtTwo};
ghost use Rattle.far_large.specs.Parts.{Parts};
ghost use Rattle.far_map.specs.Causes.{IsWhyRead};
ghost use Rattle.far_map.specs.Listed.{FoldsUntil, GivesAt, StepsAtEach};
ghost use Rattle.far_dict.specs.Longs.{IsWhole, value_of, valued};
ghost use Rattle.far_dict.specs.Names.{names_in};

use far_large::Large;
use far_objects::Objects;
use far_word::Refused;
use std::collections::BTreeMap;

/// Reads a value that stands.
pub fn read_whole<O: Objects + Drop>(
    worker: &mut O,
    large: &Large,
    out: &mut Vec<u8>,
) -> Result<(), Refused>
    requires whole { IsWhole (O.far worker.old) large.now }
    ensures same { O.far worker.new ≡ O.far worker.old }
    ensures read { (O.far worker.old).honest ≡ true → OnOk result (out.new.items ≡ value_of (O.far worker.old) large.now) }
    ensures why { IfErr result (IsWhyRead O.unreached (O.far worker.old).honest) }
{
    let Ok(()) = out.resize(large.len(), 0) else {
        return Err(Refused::Memory);
    };
    match large.read(worker, 0, out.as_mut_slice()) {
        Ok(()) => Ok(()),
        Err(why) => Err(why),
    }
}

/// Calls `visit` with a key and the bytes of its value, which are read to `out`.
fn visit_one<O: Objects + Drop, F: FnMut(&[u8], &[u8])>(
    worker: &mut O,
    key: &[u8],
    large: &Large,
    out: &mut Vec<u8>,
    visit: &mut F,
) -> Result<(), Refused>
    requires whole { IsWhole (O.far worker.old) large.now }
    requires callable { F.IsAlwaysCallable visit.old }
    ensures callable { F.IsAlwaysCallable visit.new }
    ensures same { O.far worker.new ≡ O.far worker.old }
    ensures called { (O.far worker.old).honest ≡ true → OnOk result (CalledAtTwo F.FnMut visit.old key.now (value_of (O.far worker.old) large.now) tt visit.new) }
    ensures why { IfErr result (IsWhyRead O.unreached (O.far worker.old).honest) }
{
    match read_whole(worker, large, out) {
        Ok(()) => {}
        Err(why) => return Err(why),
    }
    visit(key, out.as_slice());
    Ok(())
}

/// Calls `visit` with each key of a table and the bytes of its value, in the order of the keys.
pub fn visit_rows<O: Objects + Drop, F: FnMut(&[u8], &[u8])>(
    table: &BTreeMap<Vec<u8>, Large>,
    worker: &mut O,
    out: &mut Vec<u8>,
    visit: &mut F,
) -> Result<(), Refused>
    requires whole { (key : List ℕ) (large : Parts) → map.get (names_in (λ k. k.items) table.now.entries) key ≡ Some large → IsWhole (O.far worker.old) large }
    requires callable { F.IsAlwaysCallable visit.old }
    ensures callable { F.IsAlwaysCallable visit.new }
    ensures same { O.far worker.new ≡ O.far worker.old }
    ensures called { (O.far worker.old).honest ≡ true → OnOk result (StepsAtEach (λ p k v q. CalledAtTwo F.FnMut p k v tt q) visit.old (valued (O.far worker.old) (map.entries (names_in (λ k. k.items) table.now.entries))) visit.new) }
    ensures why { IfErr result (IsWhyRead O.unreached (O.far worker.old).honest) }
{
    for (key, large) in table {
        match visit_one(worker, key.as_slice(), large, out, visit) {
            Ok(()) => {}
            Err(why) => return Err(why),
        }
    }
    Ok(())
}

/// Makes the step of a key and the bytes of its value, which are read to `out`.
fn fold_one<O: Objects + Drop, A: Drop, E, F: Fn(A, &[u8], &[u8]) -> Result<A, E>>(
    worker: &mut O,
    key: &[u8],
    large: &Large,
    out: &mut Vec<u8>,
    folded: A,
    f: &F,
) -> Result<Result<A, E>, Refused>
    requires whole { IsWhole (O.far worker.old) large.now }
    requires callable { F.IsAlwaysCallable f.now }
    ensures same { O.far worker.new ≡ O.far worker.old }
    ensures stepped { (O.far worker.old).honest ≡ true → IfOk result (GivesAt (F.post f.now) folded key.now (value_of (O.far worker.old) large.now)) }
    ensures why { IfErr result (IsWhyRead O.unreached (O.far worker.old).honest) }
{
    match read_whole(worker, large, out) {
        Ok(()) => Ok(f(folded, key, out.as_slice())),
        Err(why) => Err(why),
    }
}

/// Makes the steps of a table's keys and their values, in the order of the keys, until one is refused.
pub fn fold_rows<O: Objects + Drop, A: Drop, E, F: Fn(A, &[u8], &[u8]) -> Result<A, E>>(
    table: &BTreeMap<Vec<u8>, Large>,
    worker: &mut O,
    out: &mut Vec<u8>,
    first: A,
    f: &F,
) -> Result<Result<A, E>, Refused>
    requires whole { (key : List ℕ) (large : Parts) → map.get (names_in (λ k. k.items) table.now.entries) key ≡ Some large → IsWhole (O.far worker.old) large }
    requires callable { F.IsAlwaysCallable f.now }
    ensures same { O.far worker.new ≡ O.far worker.old }
    ensures folded { (O.far worker.old).honest ≡ true → IfOk result (FoldsUntil (GivesAt (F.post f.now)) first (valued (O.far worker.old) (map.entries (names_in (λ k. k.items) table.now.entries)))) }
    ensures why { IfErr result (IsWhyRead O.unreached (O.far worker.old).honest) }
{
    let mut folded = first;
    for (key, large) in table {
        match fold_one(worker, key.as_slice(), large, out, folded, f) {
            Ok(Ok(next)) => folded = next,
            Ok(Err(stop)) => return Ok(Err(stop)),
            Err(why) => return Err(why),
        }
    }
    Ok(Ok(folded))
}
