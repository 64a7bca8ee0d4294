//! Records put after the last, and taken away.

ghost use Rattle.std.specs.Prelude.{◌≡◌, ◌<◌, ◌≤◌, ◌*◌, ◌+◌, ◌++◌, ◌∷◌, [], true, nat_lt, IfErr, OnOk, OnErr, length, take, if◌then◌else◌};
ghost use Rattle.far_array.specs.Places.{Placed, Sound};
ghost use Rattle.far_array.specs.Reasons.{IsWhyMissed, IsWhyUnplaced, IsWhyUnput};
ghost use Rattle.far_array.specs.Rows.{rows, rows_of};

use crate::blocks::{push_block, shrink};
use crate::parts::Parts;
use crate::rows::write_row;
use far_objects::Objects;
use far_word::Refused;

// Puts a record into the last block.
fn put_below<O: Objects + Drop>(parts: &mut Parts<O>, bytes: &[u8]) -> Result<(), Refused>
    // the array is as it should be, its blocks have room for one record more, and the bytes are one
    requires sound { Sound (O.far parts.old.worker) parts.old.blocks.items parts.old.per parts.old.size parts.old.len }
    requires room { parts.old.len < parts.old.per * length parts.old.blocks.items }
    requires long { length bytes.now ≡ parts.old.size }

    // the records' size, how many a block has, and the worker's honesty stay
    ensures per { parts.new.per ≡ parts.old.per }
    ensures size { parts.new.size ≡ parts.old.size }
    ensures honest { (O.far parts.new.worker).honest ≡ (O.far parts.old.worker).honest }

    // the array is as it should be; done: one record more behind the others, in as many blocks; if the worker is honest it has the bytes, and the others what they had
    ensures blocks { OnOk result (length parts.new.blocks.items ≡ length parts.old.blocks.items) }
    ensures len { OnOk result (parts.new.len ≡ parts.old.len + 1) }
    ensures sound { Sound (O.far parts.new.worker) parts.new.blocks.items parts.new.per parts.new.size parts.new.len }
    ensures made { (O.far parts.old.worker).honest ≡ true → OnOk result (rows (O.far parts.new.worker) parts.new.blocks.items parts.new.per parts.new.size parts.new.len ≡ rows (O.far parts.old.worker) parts.old.blocks.items parts.old.per parts.old.size parts.old.len ++ bytes.now ∷ []) }

    // refused only as the block's object wasn't reached: the array has what it had
    ensures refused { OnErr result (rows_of (O.far parts.new.worker) parts.new.blocks.items parts.new.per parts.new.size parts.new.len ≡ rows_of (O.far parts.old.worker) parts.old.blocks.items parts.old.per parts.old.size parts.old.len) }
    ensures why { IfErr result (IsWhyMissed (O.unreached (O.far parts.old.worker).honest)) }
{
    let len = parts.len;
    match write_row(parts, len, bytes) {
        Ok(()) => {
            parts.len = len + 1;
            Ok(())
        }
        Err(why) => Err(why),
    }
}

// Puts a record into a new block.
fn put_above<O: Objects + Drop>(parts: &mut Parts<O>, bytes: &[u8]) -> Result<(), Refused>
    // the array is as it should be, its blocks are full, and the bytes are one record's
    requires sound { Sound (O.far parts.old.worker) parts.old.blocks.items parts.old.per parts.old.size parts.old.len }
    requires full { parts.old.len ≡ parts.old.per * length parts.old.blocks.items }
    requires long { length bytes.now ≡ parts.old.size }

    // the records' size, how many a block has, and the worker's honesty stay
    ensures per { parts.new.per ≡ parts.old.per }
    ensures size { parts.new.size ≡ parts.old.size }
    ensures honest { (O.far parts.new.worker).honest ≡ (O.far parts.old.worker).honest }

    // the array is as it should be; done: one record more behind the others, in one block more; if the worker is honest it has the bytes, and the others what they had
    ensures blocks { OnOk result (length parts.new.blocks.items ≡ length parts.old.blocks.items + 1) }
    ensures len { OnOk result (parts.new.len ≡ parts.old.len + 1) }
    ensures sound { Sound (O.far parts.new.worker) parts.new.blocks.items parts.new.per parts.new.size parts.new.len }
    ensures made { (O.far parts.old.worker).honest ≡ true → OnOk result (rows (O.far parts.new.worker) parts.new.blocks.items parts.new.per parts.new.size parts.new.len ≡ rows (O.far parts.old.worker) parts.old.blocks.items parts.old.per parts.old.size parts.old.len ++ bytes.now ∷ []) }

    // refused only as there is no memory for the list, or no object was made: the array has what it had
    ensures refused { OnErr result (rows_of (O.far parts.new.worker) parts.new.blocks.items parts.new.per parts.new.size parts.new.len ≡ rows_of (O.far parts.old.worker) parts.old.blocks.items parts.old.per parts.old.size parts.old.len) }
    ensures why { IfErr result (IsWhyUnplaced O.unmade) }
{
    match push_block(parts, bytes) {
        Ok(()) => {
            parts.len += 1;
            Ok(())
        }
        Err(why) => Err(why),
    }
}

/// Puts a record after the last.
pub fn put_row<O: Objects + Drop>(parts: &mut Parts<O>, bytes: &[u8]) -> Result<(), Refused>
    // the array is as it should be, and the bytes are one record's
    requires sound { Sound (O.far parts.old.worker) parts.old.blocks.items parts.old.per parts.old.size parts.old.len }
    requires long { length bytes.now ≡ parts.old.size }

    // the records' size, how many a block has, and the worker's honesty stay
    ensures per { parts.new.per ≡ parts.old.per }
    ensures size { parts.new.size ≡ parts.old.size }
    ensures honest { (O.far parts.new.worker).honest ≡ (O.far parts.old.worker).honest }

    // the array is as it should be; done: one record more behind the others, in one block more if all were full; if the worker is honest it has the bytes, and the others what they had
    ensures blocks { OnOk result (length parts.new.blocks.items ≡ (if nat_lt parts.old.len (parts.old.per * length parts.old.blocks.items) then length parts.old.blocks.items else length parts.old.blocks.items + 1)) }
    ensures len { OnOk result (parts.new.len ≡ parts.old.len + 1) }
    ensures sound { Sound (O.far parts.new.worker) parts.new.blocks.items parts.new.per parts.new.size parts.new.len }
    ensures made { (O.far parts.old.worker).honest ≡ true → OnOk result (rows (O.far parts.new.worker) parts.new.blocks.items parts.new.per parts.new.size parts.new.len ≡ rows (O.far parts.old.worker) parts.old.blocks.items parts.old.per parts.old.size parts.old.len ++ bytes.now ∷ []) }

    // refused only as the block's object wasn't reached, or, where all were full, as no block was made: the array has what it had
    ensures refused { OnErr result (rows_of (O.far parts.new.worker) parts.new.blocks.items parts.new.per parts.new.size parts.new.len ≡ rows_of (O.far parts.old.worker) parts.old.blocks.items parts.old.per parts.old.size parts.old.len) }
    ensures why { IfErr result (IsWhyUnput (nat_lt parts.old.len (parts.old.per * length parts.old.blocks.items)) (O.unreached (O.far parts.old.worker).honest) O.unmade) }
{
    if parts.len < parts.per * parts.blocks.len() {
        put_below(parts, bytes)
    } else {
        put_above(parts, bytes)
    }
}

// How many blocks n records fill, the last maybe in part.
fn filled(n: usize, per: usize) -> usize
    requires { 0 < per }
    ensures room { n ≤ per * result }
    ensures few { per * result < n + per }
{
    let whole = n / per;
    if n % per == 0 { whole } else { whole + 1 }
}

/// Takes all records away but the first n, and lets the blocks go that are empty then, all but `spare`.
pub fn cut<O: Objects + Drop>(parts: &mut Parts<O>, n: usize, spare: usize)
    // the array is as it should be, and has n records or more
    requires sound { Sound (O.far parts.old.worker) parts.old.blocks.items parts.old.per parts.old.size parts.old.len }
    requires fewer { n ≤ parts.old.len }
    requires few { spare ≤ 1 }

    // the records' size, how many a block has, and the worker's honesty stay
    ensures per { parts.new.per ≡ parts.old.per }
    ensures size { parts.new.size ≡ parts.old.size }
    ensures honest { (O.far parts.new.worker).honest ≡ (O.far parts.old.worker).honest }

    // it has n records then, in as few blocks as hold them and at most `spare` more: its first n, as they were
    ensures len { parts.new.len ≡ n }
    ensures sound { Sound (O.far parts.new.worker) parts.new.blocks.items parts.new.per parts.new.size parts.new.len }
    ensures less { length parts.new.blocks.items ≤ length parts.old.blocks.items }
    ensures tight { parts.old.per * length parts.new.blocks.items < n + parts.old.per + parts.old.per * spare }
    ensures made { rows (O.far parts.new.worker) parts.new.blocks.items parts.new.per parts.new.size n ≡ take n (rows (O.far parts.old.worker) parts.old.blocks.items parts.old.per parts.old.size parts.old.len) }
{
    let kept = filled(n, parts.per) + spare;
    shrink(parts, kept);
    parts.len = n;
}
