//! Blocks made and let go.

ghost use Rattle.std.specs.Prelude.{◌≡◌, ◌<◌, ◌≤◌, ◌*◌, ◌+◌, ◌-◌, ◌++◌, ℕ, [], true, Some, None, IfOk, IfErr, OnOk, OnErr, length, take, drop, slice_index};
ghost use Rattle.far_objects.specs.declared.objects.TheConstants.{MOST as MOST_BYTES};
ghost use Rattle.far_array.specs.declared.parts.TheConstants.{MOST_BLOCKS as MOST_NUMBERS};
ghost use Rattle.far_array.specs.Places.{Kept, MakesBlock, Placed, Wrote};
ghost use Rattle.far_objects.specs.Far.{Others};
ghost use Rattle.far_array.specs.Reasons.{IsWhyUnplaced};

use crate::parts::{MOST_BLOCKS, Parts};
use far_objects::{MOST, Objects};
use far_word::Refused;

/// Writes bytes to the front of others.
fn put_front(block: &mut [u8], bytes: &[u8])
    requires { length bytes.now ≤ length block.old }
    ensures { block.new ≡ bytes.now ++ drop (length bytes.now) block.old }
{
    block[..bytes.len()].copy_from_slice(bytes);
}

/// Makes an object of n bytes, which begins with these.
fn make_block<O: Objects>(worker: &mut O, n: usize, bytes: &[u8]) -> Result<u32, Refused>
    requires some { 0 < n }
    requires fits { n ≤ MOST_BYTES }
    requires long { length bytes.now ≤ n }
    ensures made { IfOk result (λ h. MakesBlock h n bytes.now (O.far worker.old) (O.far worker.new)) }
    ensures refused { OnErr result (O.far worker.new ≡ O.far worker.old) }
    ensures why { IfErr result (IsWhyUnplaced O.unmade) }
{
    let mut block = [0u8; MOST];
    put_front(&mut block, bytes);
    worker.alloc(&block[..n])
}

/// Lets an object go.
pub fn let_go<O: Objects>(worker: &mut O, number: u32)
    ensures others { Others number (O.far worker.old) (O.far worker.new) }
    ensures gone { (O.far worker.new).sizes number ≡ None }
{
    let _ = worker.drop_object(number);
}

/// One block more, whose first record is `bytes`. If it can't be kept it is let go.
pub fn push_block<O: Objects + Drop>(parts: &mut Parts<O>, bytes: &[u8]) -> Result<(), Refused>
    // the blocks are as they should be, one more may be numbered, and the bytes are one record's
    requires placed { Placed (O.far parts.old.worker) parts.old.blocks.items parts.old.per parts.old.size }
    requires count { length parts.old.blocks.items ≤ MOST_NUMBERS }
    requires long { length bytes.now ≡ parts.old.size }

    // the records' size, how many a block has, and the array's length stay
    ensures per { parts.new.per ≡ parts.old.per }
    ensures size { parts.new.size ≡ parts.old.size }
    ensures len { parts.new.len ≡ parts.old.len }

    // done: there is one block more, which begins with the bytes, and no other record has changed, if the worker is honest
    ensures longer { OnOk result (length parts.new.blocks.items ≡ length parts.old.blocks.items + 1) }
    ensures count { OnOk result (length parts.new.blocks.items ≤ MOST_NUMBERS) }
    ensures wrote { OnOk result (Wrote (parts.old.per * length parts.old.blocks.items) bytes.now (O.far parts.old.worker) (O.far parts.new.worker) parts.old.blocks.items parts.new.blocks.items parts.old.per parts.old.size) }

    // refused only as there is no memory for the list, or no object was made: blocks and records are the same, and no object more is there
    ensures same { OnErr result (parts.new.blocks.items ≡ parts.old.blocks.items) }
    ensures kept { OnErr result (Kept (O.far parts.old.worker) (O.far parts.new.worker) parts.old.blocks.items parts.new.blocks.items parts.old.per parts.old.size) }
    ensures none_more { OnErr result ((k : ℕ) → (O.far parts.new.worker).sizes k ≡ (O.far parts.old.worker).sizes k) }
    ensures why { IfErr result (IsWhyUnplaced O.unmade) }
{
    if parts.blocks.len() >= MOST_BLOCKS {
        return Err(Refused::Memory);
    }
    let number = match make_block(&mut parts.worker, parts.per * parts.size, bytes) {
        Ok(number) => number,
        Err(why) => return Err(why),
    };
    let Ok(()) = parts.blocks.push(number) else {
        let_go(&mut parts.worker, number);
        return Err(Refused::Memory);
    };
    Ok(())
}

/// Lets the last block go.
fn pop_block<O: Objects + Drop>(parts: &mut Parts<O>)
    requires placed { Placed (O.far parts.old.worker) parts.old.blocks.items parts.old.per parts.old.size }
    ensures per { parts.new.per ≡ parts.old.per }
    ensures size { parts.new.size ≡ parts.old.size }
    ensures len { parts.new.len ≡ parts.old.len }
    ensures blocks { parts.new.blocks.items ≡ take (length parts.old.blocks.items - 1) parts.old.blocks.items }
    ensures kept { Kept (O.far parts.old.worker) (O.far parts.new.worker) parts.old.blocks.items parts.new.blocks.items parts.old.per parts.old.size }
    ensures gone { 0 < length parts.old.blocks.items → (O.far parts.new.worker).sizes (slice_index parts.old.blocks.items (length parts.old.blocks.items - 1)) ≡ None }
{
    let Some(number) = parts.blocks.pop() else {
        return;
    };
    let_go(&mut parts.worker, number);
}

/// Lets the last blocks go, all but n.
pub fn shrink<O: Objects + Drop>(parts: &mut Parts<O>, n: usize)
    requires placed { Placed (O.far parts.old.worker) parts.old.blocks.items parts.old.per parts.old.size }
    ensures per { parts.new.per ≡ parts.old.per }
    ensures size { parts.new.size ≡ parts.old.size }
    ensures len { parts.new.len ≡ parts.old.len }
    ensures blocks { parts.new.blocks.items ≡ take n parts.old.blocks.items }
    ensures kept { Kept (O.far parts.old.worker) (O.far parts.new.worker) parts.old.blocks.items parts.new.blocks.items parts.old.per parts.old.size }
{
    while parts.blocks.len() > n {
        pop_block(parts);
    }
}
