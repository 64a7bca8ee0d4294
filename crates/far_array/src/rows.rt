//! Records, read and written.

ghost use Rattle.std.specs.Prelude.{◌≡◌, ◌<◌, ◌≤◌, ◌*◌, ◌/◌, ◌+◌, ◌-◌, ◌%◌, ℕ, true, IfErr, OnOk, OnErr, length, min, take, drop};
ghost use Rattle.far_array.specs.Places.{Placed, Wrote};
ghost use Rattle.far_array.specs.Reasons.{IsWhyMissed};
ghost use Rattle.far_array.specs.Rows.{row};

use crate::parts::Parts;
use far_objects::Objects;
use far_word::Refused;

/// Reads n records of one block, from record i on.
pub fn read_rows<O: Objects + Drop>(
    parts: &mut Parts<O>,
    i: usize,
    n: usize,
    out: &mut [u8],
) -> Result<(), Refused>
    // so many records, one or more, have their places in one block, and the buffer is just as long
    requires placed { Placed (O.far parts.old.worker) parts.old.blocks.items parts.old.per parts.old.size }
    requires within { i < parts.old.per * length parts.old.blocks.items }
    requires one { i % parts.old.per + n ≤ parts.old.per }
    requires some { 0 < n }
    requires long { length out.old ≡ n * parts.old.size }

    // array and worker are as they were
    ensures blocks { parts.new.blocks ≡ parts.old.blocks }
    ensures per { parts.new.per ≡ parts.old.per }
    ensures size { parts.new.size ≡ parts.old.size }
    ensures len { parts.new.len ≡ parts.old.len }
    ensures same { O.far parts.new.worker ≡ O.far parts.old.worker }

    // done: the buffer has the records one behind the other, if the worker is honest; refused only as the block's object wasn't reached
    ensures long { length out.new ≡ length out.old }
    ensures read { (O.far parts.old.worker).honest ≡ true → OnOk result ((k : ℕ) → k < n → take parts.old.size (drop (k * parts.old.size) out.new) ≡ row (O.far parts.old.worker) parts.old.blocks.items parts.old.per parts.old.size (i + k)) }
    ensures why { IfErr result (IsWhyMissed (O.unreached (O.far parts.old.worker).honest)) }
{
    let block = i / parts.per;
    let from = i % parts.per * parts.size;
    let number = parts.blocks[block];
    parts.worker.read(number, from, out)
}

/// Reads record i.
pub fn read_row<O: Objects + Drop>(
    parts: &mut Parts<O>,
    i: usize,
    out: &mut [u8],
) -> Result<(), Refused>
    // the record has its place in the blocks, and the buffer is just as long
    requires placed { Placed (O.far parts.old.worker) parts.old.blocks.items parts.old.per parts.old.size }
    requires within { i < parts.old.per * length parts.old.blocks.items }
    requires long { length out.old ≡ parts.old.size }

    // array and worker are as they were
    ensures blocks { parts.new.blocks ≡ parts.old.blocks }
    ensures per { parts.new.per ≡ parts.old.per }
    ensures size { parts.new.size ≡ parts.old.size }
    ensures len { parts.new.len ≡ parts.old.len }
    ensures same { O.far parts.new.worker ≡ O.far parts.old.worker }

    // done: the buffer has the record, if the worker is honest; refused only as its block's object wasn't reached
    ensures read { (O.far parts.old.worker).honest ≡ true → OnOk result (out.new ≡ row (O.far parts.old.worker) parts.old.blocks.items parts.old.per parts.old.size i) }
    ensures why { IfErr result (IsWhyMissed (O.unreached (O.far parts.old.worker).honest)) }
{
    read_rows(parts, i, 1, out)
}

/// Reads n records of one block, from record i on, to the front of `out`.
pub fn read_front<O: Objects + Drop>(
    parts: &mut Parts<O>,
    i: usize,
    n: usize,
    out: &mut [u8],
) -> Result<(), Refused>
    // so many records, one or more, have their places in one block, and the buffer is no shorter
    requires placed { Placed (O.far parts.old.worker) parts.old.blocks.items parts.old.per parts.old.size }
    requires within { i < parts.old.per * length parts.old.blocks.items }
    requires one { i % parts.old.per + n ≤ parts.old.per }
    requires some { 0 < n }
    requires room { n * parts.old.size ≤ length out.old }

    // array and worker are as they were
    ensures blocks { parts.new.blocks ≡ parts.old.blocks }
    ensures per { parts.new.per ≡ parts.old.per }
    ensures size { parts.new.size ≡ parts.old.size }
    ensures len { parts.new.len ≡ parts.old.len }
    ensures same { O.far parts.new.worker ≡ O.far parts.old.worker }

    // done: the buffer begins with the records one behind the other, if the worker is honest; refused only as the block's object wasn't reached
    ensures read { (O.far parts.old.worker).honest ≡ true → OnOk result ((k : ℕ) → k < n → take parts.old.size (drop (k * parts.old.size) out.new) ≡ row (O.far parts.old.worker) parts.old.blocks.items parts.old.per parts.old.size (i + k)) }
    ensures why { IfErr result (IsWhyMissed (O.unreached (O.far parts.old.worker).honest)) }
{
    let long = n * parts.size;
    read_rows(parts, i, n, &mut out[..long])
}

/// How many records are read at once, from record i on, into so many bytes.
pub fn many_rows<O: Objects + Drop>(parts: &Parts<O>, i: usize, room: usize) -> usize
    requires sized { 0 < parts.now.size }
    requires per { 0 < parts.now.per }
    requires low { i < parts.now.len }
    requires fits { parts.now.size ≤ room }
    ensures many { result ≡ min (min (room / parts.now.size) (parts.now.len - i)) (parts.now.per - i % parts.now.per) }
    ensures some { 0 < result }
    ensures low { i + result ≤ parts.now.len }
    ensures one { i % parts.now.per + result ≤ parts.now.per }
    ensures room { result * parts.now.size ≤ room }
{
    let fits = (room / parts.size).min(parts.len - i);
    fits.min(parts.per - i % parts.per)
}

/// Writes record i, which may be past the last.
pub fn write_row<O: Objects + Drop>(
    parts: &mut Parts<O>,
    i: usize,
    bytes: &[u8],
) -> Result<(), Refused>
    // the record has its place in the blocks, and the bytes are as long
    requires placed { Placed (O.far parts.old.worker) parts.old.blocks.items parts.old.per parts.old.size }
    requires within { i < parts.old.per * length parts.old.blocks.items }
    requires long { length bytes.now ≡ parts.old.size }

    // the array's list of blocks, its sizes and its length stay
    ensures blocks { parts.new.blocks ≡ parts.old.blocks }
    ensures per { parts.new.per ≡ parts.old.per }
    ensures size { parts.new.size ≡ parts.old.size }
    ensures len { parts.new.len ≡ parts.old.len }

    // done: the record has the bytes, and no other has changed, if the worker is honest
    ensures wrote { OnOk result (Wrote i bytes.now (O.far parts.old.worker) (O.far parts.new.worker) parts.old.blocks.items parts.new.blocks.items parts.old.per parts.old.size) }

    // refused only as its block's object wasn't reached: nothing has changed
    ensures refused { OnErr result (O.far parts.new.worker ≡ O.far parts.old.worker) }
    ensures why { IfErr result (IsWhyMissed (O.unreached (O.far parts.old.worker).honest)) }
{
    let block = i / parts.per;
    let from = i % parts.per * parts.size;
    let number = parts.blocks[block];
    parts.worker.write(number, from, bytes)
}
