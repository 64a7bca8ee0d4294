//! Two records that change places.

ghost use Rattle.std.specs.Prelude.{◌≡◌, ◌<◌, ◌≤◌, ◌*◌, ◌/◌, ◌%◌, ◌+◌, true, IfOk, IfErr, OnOk, OnErr, length, slice_index, slice_set};
ghost use Rattle.std.specs.List.{swap};
ghost use Rattle.far_objects.specs.Far.{Others, with_range};
ghost use Rattle.far_objects.specs.declared.objects.TheConstants.{MOST as MOST_BYTES};
ghost use Rattle.far_array.specs.Places.{IsMadeAnew, IsPieced, Placed, Remade, Sound};
ghost use Rattle.far_array.specs.Reasons.{IsWhyMissed, IsWhyNotMade, IsWhyUnswapped};
ghost use Rattle.far_array.specs.Rows.{rows, rows_of};

use crate::blocks::let_go;
use crate::parts::Parts;
use crate::rows::{read_front, write_row};
use far_objects::{MOST, Objects};
use far_word::Refused;

/// Writes bytes over others, from one on.
fn put_at(all: &mut [u8], at: usize, bytes: &[u8])
    requires { at + length bytes.now ≤ length all.old }
    ensures { all.new ≡ with_range all.old at bytes.now }
{
    all[at..at + bytes.len()].copy_from_slice(bytes);
}

// Reads the block of record i, with other bytes in the record's place. Answers its number.
fn read_with<O: Objects + Drop>(
    parts: &mut Parts<O>,
    i: usize,
    bytes: &[u8],
    all: &mut [u8],
) -> Result<u32, Refused>
    // the record has its place in the blocks, the bytes are as long, and the buffer is as long as a block
    requires placed { Placed (O.far parts.old.worker) parts.old.blocks.items parts.old.per parts.old.size }
    requires within { i < parts.old.per * length parts.old.blocks.items }
    requires long { length bytes.now ≡ parts.old.size }
    requires whole { length all.old ≡ parts.old.per * parts.old.size }

    // array and worker are as they were, and the buffer as long
    ensures blocks { parts.new.blocks ≡ parts.old.blocks }
    ensures per { parts.new.per ≡ parts.old.per }
    ensures size { parts.new.size ≡ parts.old.size }
    ensures len { parts.new.len ≡ parts.old.len }
    ensures same { O.far parts.new.worker ≡ O.far parts.old.worker }
    ensures whole { length all.new ≡ parts.old.per * parts.old.size }

    // done: the answer is the number of the record's block, whose bytes the buffer has, but in the record's place the other ones, if the worker is honest
    ensures named { IfOk result (λ was. was ≡ slice_index parts.old.blocks.items (i / parts.old.per)) }
    ensures pieced { (O.far parts.old.worker).honest ≡ true → IfOk result (λ was. IsPieced (O.far parts.old.worker) was ((i % parts.old.per) * parts.old.size) bytes.now all.new (parts.old.per * parts.old.size)) }

    // refused only as the block's object wasn't reached
    ensures why { IfErr result (IsWhyMissed (O.unreached (O.far parts.old.worker).honest)) }
{
    let block = i / parts.per;
    let from = i % parts.per * parts.size;
    let number = parts.blocks[block];
    match parts.worker.read(number, 0, all) {
        Ok(()) => {}
        Err(why) => return Err(why),
    }
    put_at(all, from, bytes);
    Ok(number)
}

// Makes a block anew, of these bytes. The object that it was stays.
fn make_anew<O: Objects + Drop>(
    parts: &mut Parts<O>,
    block: usize,
    all: &[u8],
) -> Result<(), Refused>
    // there is such a block, and the bytes are as many as an object may have
    requires low { block < length parts.old.blocks.items }
    requires some { 0 < length all.now }
    requires fits { length all.now ≤ MOST_BYTES }

    // the records' size, how many a block has, and the array's length stay
    ensures per { parts.new.per ≡ parts.old.per }
    ensures size { parts.new.size ≡ parts.old.size }
    ensures len { parts.new.len ≡ parts.old.len }

    // done: a new object with these bytes is the block
    ensures made { OnOk result (IsMadeAnew block all.now (O.far parts.old.worker) (O.far parts.new.worker) parts.old.blocks.items parts.new.blocks.items) }

    // refused only as no object was made: nothing has changed
    ensures blocks { OnErr result (parts.new.blocks ≡ parts.old.blocks) }
    ensures refused { OnErr result (O.far parts.new.worker ≡ O.far parts.old.worker) }
    ensures why { IfErr result (IsWhyNotMade O.unmade) }
{
    match parts.worker.alloc(all) {
        Ok(number) => {
            parts.blocks[block] = number;
            Ok(())
        }
        Err(why) => Err(why),
    }
}

// Makes the block of record i anew, with other bytes for the record. Answers the number of the object that it was, which stays.
fn remake<O: Objects + Drop>(parts: &mut Parts<O>, i: usize, bytes: &[u8]) -> Result<u32, Refused>
    // the record has its place in the blocks, and the bytes are as long
    requires placed { Placed (O.far parts.old.worker) parts.old.blocks.items parts.old.per parts.old.size }
    requires within { i < parts.old.per * length parts.old.blocks.items }
    requires long { length bytes.now ≡ parts.old.size }

    // the records' size, how many a block has, and the array's length stay
    ensures per { parts.new.per ≡ parts.old.per }
    ensures size { parts.new.size ≡ parts.old.size }
    ensures len { parts.new.len ≡ parts.old.len }

    // done: the record's block is a new object, where the record has the bytes and no other has changed, if the worker is honest; the answer is
    // the old one, which is there still
    ensures remade { IfOk result (λ was. Remade i was bytes.now (O.far parts.old.worker) (O.far parts.new.worker) parts.old.blocks.items parts.new.blocks.items parts.old.per parts.old.size) }

    // refused only as the block's object wasn't reached, or the new one wasn't made: nothing has changed
    ensures blocks { OnErr result (parts.new.blocks ≡ parts.old.blocks) }
    ensures refused { OnErr result (O.far parts.new.worker ≡ O.far parts.old.worker) }
    ensures why { IfErr result (IsWhyUnswapped (O.unreached (O.far parts.old.worker).honest) O.unmade) }
{
    let block = i / parts.per;
    let mut room = [0u8; MOST];
    let all = &mut room[..parts.per * parts.size];
    let was = match read_with(parts, i, bytes, all) {
        Ok(was) => was,
        Err(why) => return Err(why),
    };
    match make_anew(parts, block, all) {
        Ok(()) => Ok(was),
        Err(why) => Err(why),
    }
}

// Gives a block the object back that it was, and lets the new one go.
fn take_back<O: Objects + Drop>(parts: &mut Parts<O>, block: usize, was: u32)
    requires low { block < length parts.old.blocks.items }
    ensures per { parts.new.per ≡ parts.old.per }
    ensures size { parts.new.size ≡ parts.old.size }
    ensures len { parts.new.len ≡ parts.old.len }
    ensures blocks { parts.new.blocks.items ≡ slice_set parts.old.blocks.items block was }
    ensures others { Others (slice_index parts.old.blocks.items block) (O.far parts.old.worker) (O.far parts.new.worker) }
{
    let number = parts.blocks[block];
    parts.blocks[block] = was;
    let_go(&mut parts.worker, number);
}

// Gives record i these bytes, and record j those; or neither.
fn put_both<O: Objects + Drop>(
    parts: &mut Parts<O>,
    i: usize,
    one: &[u8],
    j: usize,
    two: &[u8],
) -> Result<(), Refused>
    // the array is as it should be and has both records, and the bytes are as long as these
    requires sound { Sound (O.far parts.old.worker) parts.old.blocks.items parts.old.per parts.old.size parts.old.len }
    requires low { i < parts.old.len }
    requires also { j < parts.old.len }
    requires long { length one.now ≡ parts.old.size }
    requires so_long { length two.now ≡ parts.old.size }

    // the records' size, how many a block has, the array's length, the worker's honesty and the number of blocks stay
    ensures per { parts.new.per ≡ parts.old.per }
    ensures size { parts.new.size ≡ parts.old.size }
    ensures len { parts.new.len ≡ parts.old.len }
    ensures honest { (O.far parts.new.worker).honest ≡ (O.far parts.old.worker).honest }
    ensures blocks { length parts.new.blocks.items ≡ length parts.old.blocks.items }

    // the array is as it should be; done, if the worker is honest: record i has the one bytes, and then record j the other, and no other has changed
    ensures sound { Sound (O.far parts.new.worker) parts.new.blocks.items parts.new.per parts.new.size parts.new.len }
    ensures made { (O.far parts.old.worker).honest ≡ true → OnOk result (rows (O.far parts.new.worker) parts.new.blocks.items parts.new.per parts.new.size parts.new.len ≡ slice_set (slice_set (rows (O.far parts.old.worker) parts.old.blocks.items parts.old.per parts.old.size parts.old.len) i one.now) j two.now) }

    // refused only as a block's object wasn't reached, or a new one wasn't made: the array has what it had
    ensures refused { OnErr result (rows_of (O.far parts.new.worker) parts.new.blocks.items parts.new.per parts.new.size parts.new.len ≡ rows_of (O.far parts.old.worker) parts.old.blocks.items parts.old.per parts.old.size parts.old.len) }
    ensures why { IfErr result (IsWhyUnswapped (O.unreached (O.far parts.old.worker).honest) O.unmade) }
{
    let block = i / parts.per;
    let was = match remake(parts, i, one) {
        Ok(was) => was,
        Err(why) => return Err(why),
    };
    match write_row(parts, j, two) {
        Ok(()) => {
            let_go(&mut parts.worker, was);
            Ok(())
        }
        Err(why) => {
            take_back(parts, block, was);
            Err(why)
        }
    }
}

/// Records i and j change places.
pub fn swap_rows<O: Objects + Drop>(parts: &mut Parts<O>, i: usize, j: usize) -> Result<(), Refused>
    // the array is as it should be and has both records
    requires sound { Sound (O.far parts.old.worker) parts.old.blocks.items parts.old.per parts.old.size parts.old.len }
    requires low { i < parts.old.len }
    requires also { j < parts.old.len }

    // the records' size, how many a block has, the array's length, the worker's honesty and the number of blocks stay
    ensures per { parts.new.per ≡ parts.old.per }
    ensures size { parts.new.size ≡ parts.old.size }
    ensures len { parts.new.len ≡ parts.old.len }
    ensures honest { (O.far parts.new.worker).honest ≡ (O.far parts.old.worker).honest }
    ensures blocks { length parts.new.blocks.items ≡ length parts.old.blocks.items }

    // the array is as it should be; done, if the worker is honest: the two have changed places, and no other has
    ensures sound { Sound (O.far parts.new.worker) parts.new.blocks.items parts.new.per parts.new.size parts.new.len }
    ensures made { (O.far parts.old.worker).honest ≡ true → OnOk result (rows (O.far parts.new.worker) parts.new.blocks.items parts.new.per parts.new.size parts.new.len ≡ swap (rows (O.far parts.old.worker) parts.old.blocks.items parts.old.per parts.old.size parts.old.len) i j) }

    // refused only as a block's object wasn't reached, or a new one wasn't made: the array has what it had
    ensures refused { OnErr result (rows_of (O.far parts.new.worker) parts.new.blocks.items parts.new.per parts.new.size parts.new.len ≡ rows_of (O.far parts.old.worker) parts.old.blocks.items parts.old.per parts.old.size parts.old.len) }
    ensures why { IfErr result (IsWhyUnswapped (O.unreached (O.far parts.old.worker).honest) O.unmade) }
{
    let size = parts.size;
    let mut one = [0u8; MOST];
    match read_front(parts, i, 1, &mut one) {
        Ok(()) => {}
        Err(why) => return Err(why),
    }
    let mut two = [0u8; MOST];
    match read_front(parts, j, 1, &mut two) {
        Ok(()) => {}
        Err(why) => return Err(why),
    }
    put_both(parts, i, &two[..size], j, &one[..size])
}
