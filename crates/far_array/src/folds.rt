//! Values folded in their order.

ghost use Rattle.std.specs.Prelude.{◌≡◌, ◌≤◌, ◌*◌, ℕ, true, length, map, IfOk, IfErr};
ghost use Rattle.std.specs.List.{FoldsTo};
ghost use Rattle.far_array.specs.Listed.{values_in};
ghost use Rattle.far_array.specs.Reasons.{IsWhyMissed};

use crate::array::Array;
use crate::record::Record;
use far_objects::{MOST, Objects};
use far_word::Refused;

/// Folds the first n values that stand in `bytes`, one after the other.
pub fn fold_bytes<T: Record, A, F: Fn(A, T) -> A>(bytes: &[u8], n: usize, first: A, f: &F) -> A
    requires callable { F.IsAlwaysCallable f.now }
    requires long { n * T.SIZE ≤ length bytes.now }
    ensures { FoldsTo (λ a x b. F.post f.now a x b) first (values_in T.decoded T.SIZE n bytes.now) result }
{
    let size = T::SIZE;
    let mut folded = first;
    for k in 0..n {
        let from = k * size;
        let value = T::decode(&bytes[from..from + size]);
        folded = f(folded, value);
    }
    folded
}

/// Folds all values, one read a block.
pub fn fold_values<T: Record, O: Objects + Drop, A: Drop, F: Fn(A, T) -> A>(
    rows: &mut Array<O>,
    first: A,
    f: &F,
) -> Result<A, Refused>
    requires sized { rows.old.size ≡ T.SIZE }
    requires callable { F.IsAlwaysCallable f.now }
    ensures same { rows.new ≡ rows.old }
    ensures folded { rows.old.honest ≡ true → IfOk result (λ r. FoldsTo (λ a x b. F.post f.now a x b) first (map T.decoded rows.old.items) r) }
    ensures why { IfErr result (IsWhyMissed (O.unreached rows.old.honest)) }
{
    let len = rows.len();
    let _size = rows.size();
    let mut block = [0u8; MOST];
    let mut folded = first;
    let mut i = 0;
    while i < len {
        let n = match rows.get_many(i, &mut block) {
            Ok(n) => n,
            Err(why) => return Err(why),
        };
        folded = fold_bytes(&block, n, folded, f);
        i += n;
    }
    Ok(folded)
}
