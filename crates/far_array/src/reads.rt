//! Values read at once, all of an object.

ghost use Rattle.std.specs.Prelude.{◌≡◌, ◌≤◌, ◌*◌, ◌+◌, true, None, [], length, map, take, drop, IfErr, OnErr, OnOk};
ghost use Rattle.std.specs.Vec.{vec_capacity, vec_len};
ghost use Rattle.far_array.specs.Listed.{many_from, values_in};
ghost use Rattle.far_array.specs.Reasons.{IsWhy, IsWhyNotGiven};
ghost use Rattle.far_array.specs.Listed.{beyond};

use crate::array::Array;
use crate::record::Record;
use far_objects::{MOST, Objects};
use far_word::Refused;

// Puts the first n values that stand in `bytes`, one after the other, to `out`, which is empty and has room for them.
fn push_values<T: Record + Drop>(bytes: &[u8], n: usize, out: &mut Vec<T>)
    requires long { n * T.SIZE ≤ length bytes.now }
    requires empty { out.old.items ≡ [] }
    requires room { vec_len out.old + n ≤ vec_capacity out.old }
    ensures { out.new.items ≡ values_in T.decoded T.SIZE n bytes.now }
{
    let size = T::SIZE;
    for k in 0..n {
        let from = k * size;
        out.push_reserved(T::decode(&bytes[from..from + size]));
    }
}

/// Reads the values from value i on to the end of their object.
pub fn read_values<T: Record + Drop, O: Objects + Drop>(
    rows: &mut Array<O>,
    i: usize,
    out: &mut Vec<T>,
) -> Result<(), Refused>
    requires sized { rows.old.size ≡ T.SIZE }
    ensures same { rows.new ≡ rows.old }
    ensures many { OnOk result (length out.new.items ≡ many_from T.SIZE (length rows.old.items) i) }
    ensures got { rows.old.honest ≡ true → OnOk result (out.new.items ≡ take (many_from T.SIZE (length rows.old.items) i) (drop i (map T.decoded rows.old.items))) }
    ensures done { OnOk result (beyond i (length rows.old.items) ≡ None) }
    ensures empty { OnErr result (out.new.items ≡ []) }
    ensures why { IfErr result (IsWhy (beyond i (length rows.old.items)) (IsWhyNotGiven (O.unreached rows.old.honest))) }
{
    out.clear();
    let _size = rows.size();
    let mut block = [0u8; MOST];
    let n = match rows.get_many(i, &mut block) {
        Ok(n) => n,
        Err(why) => return Err(why),
    };
    let Ok(()) = out.reserve(n) else {
        return Err(Refused::Memory);
    };
    push_values(&block, n, out);
    Ok(())
}
