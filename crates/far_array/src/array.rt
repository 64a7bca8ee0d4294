//! The array.

ghost use Rattle.std.specs.Prelude.{◌≡◌, ◌<◌, ◌≤◌, ◌*◌, ◌-◌, ◌+◌, ◌++◌, ◌∷◌, true, Some, None, IfOk, IfErr, OnOk, OnErr, [], length, slice_set, slice_index_or, take, drop, ℕ, ◌==◌, if◌then◌else◌};
ghost use Rattle.far_objects.specs.declared.objects.TheConstants.{MOST as MOST_BYTES};
ghost use Rattle.std.specs.List.{swap};
ghost use Rattle.far_array.specs.Reasons.{IsWhy, IsWhyMissed, IsWhyUnput, IsWhyUnswapped, barred_at, barred_many, barred_two, wrong_length, wrong_size};
ghost use Rattle.far_array.specs.Rows.{has_room, many_at, per_block};

use crate::parts::Parts;
use crate::rows::{many_rows, read_front, read_row, write_row};
use crate::steps::{cut, put_row};
use crate::swap::swap_rows;
use far_objects::{MOST, Objects};
use far_word::Refused;
use std::alloc::Global;
use std::marker::Model;

/// Records of one size in far objects of a worker, which it owns. To a contract a list. Which bytes records have is said where the worker is honest.
#[derive(Drop)]
pub struct Array<O: Objects + Drop> {
    parts: Parts<O>,
}

impl<O: Objects + Drop> Model for Array<O> {
    ghost use Rattle.far_array.specs.Places.{Sound};
    ghost use Rattle.far_array.specs.Rows.{Rows, rows_of};

    ghost Value = { Rows };

    ghost view = { λ a. rows_of (O.far a.parts.worker) a.parts.blocks.items a.parts.per a.parts.size a.parts.len };

    ghost invariant = { λ a. Sound (O.far a.parts.worker) a.parts.blocks.items a.parts.per a.parts.size a.parts.len };
}

impl<O: Objects + Drop> Array<O> {
    /// An array with no records, of `size` bytes each. No object is made yet.
    ///
    /// Refused [`Refused::Length`] alone, exactly where `size` isn't 1 to 4,088; the worker is dropped then.
    pub fn new(alloc: Global, worker: O, size: usize) -> Result<Array<O>, Refused>
        ensures made { IfOk result (λ a. a ≡ record { honest = (O.far worker).honest; size = size; blocks = 0; items = [] }) }
        ensures done { OnOk result (wrong_size size ≡ None) }
        ensures why { IfErr result (λ why. wrong_size size ≡ Some why) }
    {
        if size == 0 || size > MOST {
            return Err(Refused::Length);
        }
        Ok(Array {
            parts: Parts {
                worker,
                blocks: Vec::new(alloc),
                size,
                per: MOST / size,
                len: 0,
            },
        })
    }

    /// How many records there are.
    pub fn len(&self) -> usize
        ensures { result ≡ length self.now.items }
    {
        self.parts.len
    }

    /// Whether there are none.
    pub fn is_empty(&self) -> bool
        ensures { result ≡ (length self.now.items == 0) }
    {
        self.parts.len == 0
    }

    /// How many bytes a record has: 1 to 4,088.
    pub fn size(&self) -> usize
        ensures size { result ≡ self.now.size }
        ensures some { 0 < self.now.size }
        ensures fits { self.now.size ≤ MOST_BYTES }
    {
        self.parts.size
    }

    /// How many far objects it has: as many as its records fill, and one more at most.
    pub fn blocks(&self) -> usize
        ensures blocks { result ≡ self.now.blocks }
        ensures room { length self.now.items ≤ per_block self.now.size * self.now.blocks }
        ensures few { per_block self.now.size * self.now.blocks < length self.now.items + per_block self.now.size + per_block self.now.size }
    {
        self.parts.blocks.len()
    }

    /// Writes record i to `out`.
    ///
    /// Refused, in this order: [`Refused::Range`] exactly where there is no record i; [`Refused::Length`] where `out` hasn't a record's
    /// length; then as the worker says of an object that it didn't reach. `out` may have any bytes then.
    pub fn get(&mut self, i: usize, out: &mut [u8]) -> Result<(), Refused>
        ensures same { self.new ≡ self.old }
        ensures got { self.old.honest ≡ true → OnOk result (out.new ≡ slice_index_or self.old.items i []) }
        ensures done { OnOk result (barred_at self.old i (length out.old) ≡ None) }
        ensures why { IfErr result (IsWhy (barred_at self.old i (length out.old)) (IsWhyMissed (O.unreached self.old.honest))) }
    {
        if i >= self.parts.len {
            return Err(Refused::Range);
        }
        if out.len() != self.parts.size {
            return Err(Refused::Length);
        }
        read_row(&mut self.parts, i, out)
    }

    /// Writes records to `out`, from record i on, in one read: as many as it has room for, none past the end of their block. How many.
    ///
    /// Refused, in this order: [`Refused::Range`] exactly where there is no record i; [`Refused::Length`] where `out` has no room for one;
    /// then as the worker says of an object that it didn't reach. `out` may have any bytes then, and behind what was read in any case.
    pub fn get_many(&mut self, i: usize, out: &mut [u8]) -> Result<usize, Refused>
        ensures same { self.new ≡ self.old }
        ensures many { IfOk result (λ n. n ≡ many_at self.old i (length out.old)) }
        ensures got { self.old.honest ≡ true → IfOk result (λ n. (k : ℕ) → k < n → take self.old.size (drop (k * self.old.size) out.new) ≡ slice_index_or self.old.items (i + k) []) }
        ensures done { OnOk result (barred_many self.old i (length out.old) ≡ None) }
        ensures why { IfErr result (IsWhy (barred_many self.old i (length out.old)) (IsWhyMissed (O.unreached self.old.honest))) }
    {
        if i >= self.parts.len {
            return Err(Refused::Range);
        }
        if out.len() < self.parts.size {
            return Err(Refused::Length);
        }
        let n = many_rows(&self.parts, i, out.len());
        match read_front(&mut self.parts, i, n, out) {
            Ok(()) => {}
            Err(why) => return Err(why),
        }
        Ok(n)
    }

    /// Gives record i other bytes. Refused as [`Array::get`] is; then all records are as they were.
    pub fn set(&mut self, i: usize, bytes: &[u8]) -> Result<(), Refused>
        ensures honest { self.new.honest ≡ self.old.honest }
        ensures size { self.new.size ≡ self.old.size }
        ensures blocks { self.new.blocks ≡ self.old.blocks }
        ensures len { length self.new.items ≡ length self.old.items }
        ensures made { self.old.honest ≡ true → OnOk result (self.new.items ≡ slice_set self.old.items i bytes.now) }
        ensures refused { OnErr result (self.new ≡ self.old) }
        ensures done { OnOk result (barred_at self.old i (length bytes.now) ≡ None) }
        ensures why { IfErr result (IsWhy (barred_at self.old i (length bytes.now)) (IsWhyMissed (O.unreached self.old.honest))) }
    {
        if i >= self.parts.len {
            return Err(Refused::Range);
        }
        if bytes.len() != self.parts.size {
            return Err(Refused::Length);
        }
        write_row(&mut self.parts, i, bytes)
    }

    /// Records i and j change places.
    ///
    /// Record i's block is made anew, as a new object, and the old one is let go: so nothing is done by halves.
    ///
    /// Refused, in this order: [`Refused::Range`] exactly where there is no record i or no record j; then as the worker says of an object
    /// that it didn't reach, or of one that it didn't make. Then all records are as they were.
    pub fn swap(&mut self, i: usize, j: usize) -> Result<(), Refused>
        ensures honest { self.new.honest ≡ self.old.honest }
        ensures size { self.new.size ≡ self.old.size }
        ensures blocks { self.new.blocks ≡ self.old.blocks }
        ensures len { length self.new.items ≡ length self.old.items }
        ensures made { self.old.honest ≡ true → OnOk result (self.new.items ≡ swap self.old.items i j) }
        ensures refused { OnErr result (self.new ≡ self.old) }
        ensures done { OnOk result (barred_two self.old i j ≡ None) }
        ensures why { IfErr result (IsWhy (barred_two self.old i j) (IsWhyUnswapped (O.unreached self.old.honest) O.unmade)) }
    {
        if i >= self.parts.len {
            return Err(Refused::Range);
        }
        if j >= self.parts.len {
            return Err(Refused::Range);
        }
        swap_rows(&mut self.parts, i, j)
    }

    /// One record more, the last one.
    ///
    /// Refused, in this order: [`Refused::Length`] where `bytes` hasn't a record's length; where the last block has room, as the worker
    /// says of an object that it didn't reach; where it hasn't, [`Refused::Memory`] if the list of blocks can't grow, or as the worker
    /// says of an object that it didn't make. Then the array is as it was.
    pub fn push(&mut self, bytes: &[u8]) -> Result<(), Refused>
        ensures honest { self.new.honest ≡ self.old.honest }
        ensures size { self.new.size ≡ self.old.size }
        ensures blocks { OnOk result (self.new.blocks ≡ (if has_room self.old then self.old.blocks else self.old.blocks + 1)) }
        ensures len { OnOk result (length self.new.items ≡ length self.old.items + 1) }
        ensures made { self.old.honest ≡ true → OnOk result (self.new.items ≡ self.old.items ++ bytes.now ∷ []) }
        ensures refused { OnErr result (self.new ≡ self.old) }
        ensures done { OnOk result (wrong_length self.old.size (length bytes.now) ≡ None) }
        ensures why { IfErr result (IsWhy (wrong_length self.old.size (length bytes.now)) (IsWhyUnput (has_room self.old) (O.unreached self.old.honest) O.unmade)) }
    {
        if bytes.len() != self.parts.size {
            return Err(Refused::Length);
        }
        put_row(&mut self.parts, bytes)
    }

    /// Takes the last record away, and writes it to `out`. A block that it leaves empty is let go at the next one that is.
    ///
    /// Refused as [`Array::get`] is, so [`Refused::Range`] where there are no records.
    pub fn pop(&mut self, out: &mut [u8]) -> Result<(), Refused>
        ensures honest { self.new.honest ≡ self.old.honest }
        ensures size { self.new.size ≡ self.old.size }
        ensures blocks { self.new.blocks ≤ self.old.blocks }
        ensures got { self.old.honest ≡ true → OnOk result (out.new ≡ slice_index_or self.old.items (length self.old.items - 1) []) }
        ensures made { OnOk result (self.new.items ≡ take (length self.old.items - 1) self.old.items) }
        ensures refused { OnErr result (self.new ≡ self.old) }
        ensures done { OnOk result (barred_at self.old (length self.old.items - 1) (length out.old) ≡ None) }
        ensures why { IfErr result (IsWhy (barred_at self.old (length self.old.items - 1) (length out.old)) (IsWhyMissed (O.unreached self.old.honest))) }
    {
        if self.parts.len == 0 {
            return Err(Refused::Range);
        }
        if out.len() != self.parts.size {
            return Err(Refused::Length);
        }
        let last = self.parts.len - 1;
        match read_row(&mut self.parts, last, out) {
            Ok(()) => {}
            Err(why) => return Err(why),
        }
        cut(&mut self.parts, last, 1);
        Ok(())
    }

    /// Takes all records away but the first n, and lets the blocks go that it leaves empty.
    pub fn truncate(&mut self, n: usize)
        ensures honest { self.new.honest ≡ self.old.honest }
        ensures size { self.new.size ≡ self.old.size }
        ensures made { self.new.items ≡ take n self.old.items }
        ensures blocks { per_block self.old.size * self.new.blocks < length self.new.items + per_block self.old.size }
    {
        let n = if n < self.parts.len {
            n
        } else {
            self.parts.len
        };
        cut(&mut self.parts, n, 0);
    }

    /// Takes all records away, and lets all blocks go.
    pub fn clear(&mut self)
        ensures { self.new ≡ record self.old { blocks = 0; items = [] } }
    {
        self.truncate(0);
    }
}
