//! An array of values.

ghost use Rattle.std.specs.Prelude.{◌≡◌, ◌<◌, ◌≤◌, ◌*◌, ◌-◌, ◌+◌, ◌++◌, ◌∷◌, true, Some, None, IfOk, IfErr, OnOk, OnErr, [], length, map, slice_set, slice_index_or, take, drop, nat_lt, ◌==◌, if◌then◌else◌};
ghost use Rattle.std.specs.List.{FoldsTo, slice_get, swap};
ghost use Rattle.far_word.specs.declared.refused.Refused.TheVariants.{Memory};
ghost use Rattle.far_array.specs.Listed.{beyond, beyond_two, many_from};
ghost use Rattle.far_array.specs.Reasons.{IsWhy, IsWhyMissed, IsWhyNotGiven, IsWhyUnput, IsWhyUnswapped, barred_at, wrong_size};
ghost use Rattle.far_array.specs.Rows.{has_room, per_block};

use crate::array::Array;
use crate::folds::fold_values;
use crate::reads::read_values;
use crate::record::Record;
use far_objects::Objects;
use far_word::Refused;
use std::alloc::Global;
use std::marker::{Model, PhantomData};

// The records, and one's bytes.
#[derive(Drop)]
struct Held<T: Record + Drop, O: Objects + Drop> {
    rows: Array<O>,
    row: Vec<u8>,
    of: PhantomData<T>,
}

/// Values of one type in far objects of a worker, which it owns. To a contract a list. Which values they are is said where the worker is honest.
#[derive(Drop)]
pub struct ArrayOf<T: Record + Drop, O: Objects + Drop> {
    held: Held<T, O>,
}

impl<T: Record + Drop, O: Objects + Drop> Model for ArrayOf<T, O> {
    ghost use Rattle.std.specs.Prelude.{◌≡◌, length};
    ghost use Rattle.far_array.specs.Listed.{Listed, listed};

    ghost Value = { Listed T };

    ghost view = { λ a. listed T.decoded a.held.rows };

    ghost invariant = { λ a. (a.held.rows.size ≡ T.SIZE) × (length a.held.row.items ≡ T.SIZE) };
}

// Reads value i.
fn get_value<T: Record + Drop, O: Objects + Drop>(
    held: &mut Held<T, O>,
    i: usize,
) -> Result<T, Refused>
    requires sized { held.old.rows.size ≡ T.SIZE }
    requires long { length held.old.row.items ≡ T.SIZE }
    ensures rows { held.new.rows ≡ held.old.rows }
    ensures long { length held.new.row.items ≡ T.SIZE }
    ensures got { held.old.rows.honest ≡ true → IfOk result (λ x. x ≡ T.decoded (slice_index_or held.old.rows.items i [])) }
    ensures done { OnOk result (barred_at held.old.rows i T.SIZE ≡ None) }
    ensures why { IfErr result (IsWhy (barred_at held.old.rows i T.SIZE) (IsWhyMissed (O.unreached held.old.rows.honest))) }
{
    match held.rows.get(i, held.row.as_mut_slice()) {
        Ok(()) => Ok(T::decode(held.row.as_slice())),
        Err(why) => Err(why),
    }
}

// Writes a value's bytes to a row.
fn encode_to<T: Record>(value: &T, row: &mut Vec<u8>)
    requires { length row.old.items ≡ T.SIZE }
    ensures encoded { T.decoded row.new.items ≡ value.now }
    ensures long { length row.new.items ≡ T.SIZE }
{
    value.encode(row.as_mut_slice());
}

// Writes value i.
fn set_value<T: Record + Drop, O: Objects + Drop>(
    held: &mut Held<T, O>,
    i: usize,
    value: &T,
) -> Result<(), Refused>
    // a record is as long as a value's bytes, and so is the buffer
    requires sized { held.old.rows.size ≡ T.SIZE }
    requires long { length held.old.row.items ≡ T.SIZE }

    // the buffer is as long as it was, and the worker's honesty, the records' size, the number of blocks and the array's length stay
    ensures long { length held.new.row.items ≡ T.SIZE }
    ensures honest { held.new.rows.honest ≡ held.old.rows.honest }
    ensures size { held.new.rows.size ≡ held.old.rows.size }
    ensures blocks { held.new.rows.blocks ≡ held.old.rows.blocks }
    ensures len { length held.new.rows.items ≡ length held.old.rows.items }

    // done, if the worker is honest: value i is this one, and no other has changed
    ensures made { held.old.rows.honest ≡ true → OnOk result (map T.decoded held.new.rows.items ≡ slice_set (map T.decoded held.old.rows.items) i value.now) }

    // refused: the array has what it had; an index past the end is refused as such, and else only an object that wasn't reached
    ensures refused { OnErr result (held.new.rows ≡ held.old.rows) }
    ensures done { OnOk result (barred_at held.old.rows i T.SIZE ≡ None) }
    ensures why { IfErr result (IsWhy (barred_at held.old.rows i T.SIZE) (IsWhyMissed (O.unreached held.old.rows.honest))) }
{
    encode_to(value, &mut held.row);
    held.rows.set(i, held.row.as_slice())
}

// Puts a value after the last.
fn push_value<T: Record + Drop, O: Objects + Drop>(
    held: &mut Held<T, O>,
    value: &T,
) -> Result<(), Refused>
    // a record is as long as a value's bytes, and so is the buffer
    requires sized { held.old.rows.size ≡ T.SIZE }
    requires long { length held.old.row.items ≡ T.SIZE }

    // the buffer is as long as it was, and the worker's honesty and the records' size stay
    ensures long { length held.new.row.items ≡ T.SIZE }
    ensures honest { held.new.rows.honest ≡ held.old.rows.honest }
    ensures size { held.new.rows.size ≡ held.old.rows.size }

    // done: one value more behind the others, in one block more if all were full; if the worker is honest it's this one, and the others are what they were
    ensures blocks { OnOk result (held.new.rows.blocks ≡ (if has_room held.old.rows then held.old.rows.blocks else held.old.rows.blocks + 1)) }
    ensures len { OnOk result (length held.new.rows.items ≡ length held.old.rows.items + 1) }
    ensures made { held.old.rows.honest ≡ true → OnOk result (map T.decoded held.new.rows.items ≡ map T.decoded held.old.rows.items ++ value.now ∷ []) }

    // refused: the array has what it had; only as the block's object wasn't reached, or, where all were full, as no block was made
    ensures refused { OnErr result (held.new.rows ≡ held.old.rows) }
    ensures why { IfErr result (IsWhyUnput (has_room held.old.rows) (O.unreached held.old.rows.honest) O.unmade) }
{
    value.encode(held.row.as_mut_slice());
    held.rows.push(held.row.as_slice())
}

// Takes the last value away.
fn pop_value<T: Record + Drop, O: Objects + Drop>(held: &mut Held<T, O>) -> Result<T, Refused>
    // a record is as long as a value's bytes, and so is the buffer
    requires sized { held.old.rows.size ≡ T.SIZE }
    requires long { length held.old.row.items ≡ T.SIZE }

    // the buffer is as long as it was, the worker's honesty and the records' size stay, and there are no more blocks
    ensures long { length held.new.row.items ≡ T.SIZE }
    ensures honest { held.new.rows.honest ≡ held.old.rows.honest }
    ensures size { held.new.rows.size ≡ held.old.rows.size }
    ensures blocks { held.new.rows.blocks ≤ held.old.rows.blocks }

    // done: the last record is out of the array, and the answer is its value, if the worker is honest
    ensures got { held.old.rows.honest ≡ true → IfOk result (λ x. x ≡ T.decoded (slice_index_or held.old.rows.items (length held.old.rows.items - 1) [])) }
    ensures made { OnOk result (held.new.rows.items ≡ take (length held.old.rows.items - 1) held.old.rows.items) }

    // refused: the array has what it had; an empty array is refused as such, and else only an object that wasn't reached
    ensures refused { OnErr result (held.new.rows ≡ held.old.rows) }
    ensures done { OnOk result (barred_at held.old.rows (length held.old.rows.items - 1) T.SIZE ≡ None) }
    ensures why { IfErr result (IsWhy (barred_at held.old.rows (length held.old.rows.items - 1) T.SIZE) (IsWhyMissed (O.unreached held.old.rows.honest))) }
{
    match held.rows.pop(held.row.as_mut_slice()) {
        Ok(()) => Ok(T::decode(held.row.as_slice())),
        Err(why) => Err(why),
    }
}

impl<T: Record + Drop, O: Objects + Drop> ArrayOf<T, O> {
    /// No values. No object is made yet.
    ///
    /// Refused, in this order: [`Refused::Length`] exactly where a value's bytes aren't 1 to 4,088; [`Refused::Memory`] if there is none for
    /// one value's bytes. The worker is dropped then.
    pub fn new(alloc: Global, worker: O) -> Result<ArrayOf<T, O>, Refused>
        ensures made { IfOk result (λ a. a ≡ record { honest = (O.far worker).honest; blocks = 0; items = [] }) }
        ensures done { OnOk result (wrong_size T.SIZE ≡ None) }
        ensures why { IfErr result (IsWhy (wrong_size T.SIZE) (λ why. why ≡ Memory)) }
    {
        let rows = match Array::new(alloc, worker, T::SIZE) {
            Ok(rows) => rows,
            Err(why) => return Err(why),
        };
        let Ok(row) = vec![in alloc; 0u8; T::SIZE] else {
            return Err(Refused::Memory);
        };
        Ok(ArrayOf {
            held: Held {
                rows,
                row,
                of: PhantomData,
            },
        })
    }

    /// How many values there are.
    pub fn len(&self) -> usize
        ensures { result ≡ length self.now.items }
    {
        self.held.rows.len()
    }

    /// Whether there are none.
    pub fn is_empty(&self) -> bool
        ensures { result ≡ (length self.now.items == 0) }
    {
        self.held.rows.is_empty()
    }

    /// How many far objects they take.
    pub fn blocks(&self) -> usize
        ensures { result ≡ self.now.blocks }
    {
        self.held.rows.blocks()
    }

    /// Value i.
    ///
    /// Refused, in this order: [`Refused::Range`] exactly where there is none; then as the worker says of an object that it didn't reach.
    pub fn get(&mut self, i: usize) -> Result<T, Refused>
        ensures same { self.new ≡ self.old }
        ensures got { self.old.honest ≡ true → IfOk result (λ x. slice_get self.old.items i ≡ Some x) }
        ensures done { OnOk result (beyond i (length self.old.items) ≡ None) }
        ensures why { IfErr result (IsWhy (beyond i (length self.old.items)) (IsWhyMissed (O.unreached self.old.honest))) }
    {
        get_value(&mut self.held, i)
    }

    /// Reads values to `out`, which is emptied first, from value i on, in one read: all to the end of their object. So a loop that goes on by
    /// `out.len()` sees each value once, by one read an object.
    ///
    /// Refused, in this order: [`Refused::Range`] exactly where there is no value i; as the worker says of an object that it didn't reach;
    /// [`Refused::Memory`] where `out` has no room and can't grow. `out` is empty then.
    pub fn get_many(&mut self, i: usize, out: &mut Vec<T>) -> Result<(), Refused>
        ensures same { self.new ≡ self.old }
        ensures many { OnOk result (length out.new.items ≡ many_from T.SIZE (length self.old.items) i) }
        ensures got { self.old.honest ≡ true → OnOk result (out.new.items ≡ take (many_from T.SIZE (length self.old.items) i) (drop i self.old.items)) }
        ensures done { OnOk result (beyond i (length self.old.items) ≡ None) }
        ensures empty { OnErr result (out.new.items ≡ []) }
        ensures why { IfErr result (IsWhy (beyond i (length self.old.items)) (IsWhyNotGiven (O.unreached self.old.honest))) }
    {
        read_values(&mut self.held.rows, i, out)
    }

    /// Folds the values in their order, one read a block.
    ///
    /// Refused as the worker says of an object that it didn't reach.
    pub fn fold<A: Drop, F: Fn(A, T) -> A + Drop>(&mut self, first: A, f: F) -> Result<A, Refused>
        requires { F.IsAlwaysCallable f }
        ensures same { self.new ≡ self.old }
        ensures folded { self.old.honest ≡ true → IfOk result (λ r. FoldsTo (λ a x b. F.post f a x b) first self.old.items r) }
        ensures why { IfErr result (IsWhyMissed (O.unreached self.old.honest)) }
    {
        fold_values(&mut self.held.rows, first, &f)
    }

    /// Another value in the place of value i. Refused as [`ArrayOf::get`] is; then all values are as they were.
    pub fn set(&mut self, i: usize, value: &T) -> Result<(), Refused>
        ensures honest { self.new.honest ≡ self.old.honest }
        ensures blocks { self.new.blocks ≡ self.old.blocks }
        ensures len { length self.new.items ≡ length self.old.items }
        ensures made { self.old.honest ≡ true → OnOk result (self.new.items ≡ slice_set self.old.items i value.now) }
        ensures refused { OnErr result (self.new ≡ self.old) }
        ensures done { OnOk result (beyond i (length self.old.items) ≡ None) }
        ensures why { IfErr result (IsWhy (beyond i (length self.old.items)) (IsWhyMissed (O.unreached self.old.honest))) }
    {
        set_value(&mut self.held, i, value)
    }

    /// Values i and j change places. Refused as [`Array::swap`] is; then all values are as they were.
    pub fn swap(&mut self, i: usize, j: usize) -> Result<(), Refused>
        ensures honest { self.new.honest ≡ self.old.honest }
        ensures blocks { self.new.blocks ≡ self.old.blocks }
        ensures len { length self.new.items ≡ length self.old.items }
        ensures made { self.old.honest ≡ true → OnOk result (self.new.items ≡ swap self.old.items i j) }
        ensures refused { OnErr result (self.new ≡ self.old) }
        ensures done { OnOk result (beyond_two i j (length self.old.items) ≡ None) }
        ensures why { IfErr result (IsWhy (beyond_two i j (length self.old.items)) (IsWhyUnswapped (O.unreached self.old.honest) O.unmade)) }
    {
        self.held.rows.swap(i, j)
    }

    /// One value more, the last one.
    ///
    /// Refused as [`Array::push`] is, but for the length. Then all values are as they were.
    pub fn push(&mut self, value: &T) -> Result<(), Refused>
        ensures honest { self.new.honest ≡ self.old.honest }
        ensures blocks { OnOk result (self.new.blocks ≡ (if nat_lt (length self.old.items) (per_block T.SIZE * self.old.blocks) then self.old.blocks else self.old.blocks + 1)) }
        ensures len { OnOk result (length self.new.items ≡ length self.old.items + 1) }
        ensures made { self.old.honest ≡ true → OnOk result (self.new.items ≡ self.old.items ++ value.now ∷ []) }
        ensures refused { OnErr result (self.new ≡ self.old) }
        ensures why { IfErr result (IsWhyUnput (nat_lt (length self.old.items) (per_block T.SIZE * self.old.blocks)) (O.unreached self.old.honest) O.unmade) }
    {
        push_value(&mut self.held, value)
    }

    /// Takes the last value away. Refused as [`ArrayOf::get`] is, so [`Refused::Range`] where there is none.
    pub fn pop(&mut self) -> Result<T, Refused>
        ensures honest { self.new.honest ≡ self.old.honest }
        ensures blocks { self.new.blocks ≤ self.old.blocks }
        ensures got { self.old.honest ≡ true → IfOk result (λ x. slice_get self.old.items (length self.old.items - 1) ≡ Some x) }
        ensures made { OnOk result (self.new.items ≡ take (length self.old.items - 1) self.old.items) }
        ensures refused { OnErr result (self.new ≡ self.old) }
        ensures done { OnOk result (beyond 0 (length self.old.items) ≡ None) }
        ensures why { IfErr result (IsWhy (beyond 0 (length self.old.items)) (IsWhyMissed (O.unreached self.old.honest))) }
    {
        pop_value(&mut self.held)
    }

    /// Takes all values away but the first n, and lets the blocks go that it leaves empty.
    pub fn truncate(&mut self, n: usize)
        ensures honest { self.new.honest ≡ self.old.honest }
        ensures made { self.new.items ≡ take n self.old.items }
        ensures blocks { per_block T.SIZE * self.new.blocks < length self.new.items + per_block T.SIZE }
    {
        self.held.rows.truncate(n);
    }

    /// Takes all values away, and lets all blocks go.
    pub fn clear(&mut self)
        ensures { self.new ≡ record self.old { blocks = 0; items = [] } }
    {
        self.held.rows.clear();
    }
}
