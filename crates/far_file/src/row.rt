//! What is known of each key.

ghost use Rattle.std.specs.Prelude.{ℕ, ◌≡◌, ◌<◌, ◌≤◌, ◌≢◌, IsTrue, IfSome, IfNone, None};
ghost use Rattle.std.specs.Vec.{vec_len};
ghost use Rattle.far_file.specs.Row.{entry_in, known, ChangesAt, KeepsEntries};
ghost use Rattle.far_file.specs.declared.place.TheConstants.{KEYS, SLOT};

use crate::code::Code;
use crate::held::Held;
use crate::place::{SLOT, STEP};
use crate::seal::Seal;
use std::alloc::Global;
use std::mem::replace;
use std::snapshot::Snapshot;

/// A length that no bytes have.
const NOTHING: u16 = 4097;

/// What is known of a key without bytes.
pub(crate) fn nothing<L: Seal>(alloc: Global) -> Held<L>
    ensures { known result ≡ None }
{
    Held {
        code: Code::new(NOTHING, 0),
        seal: L::blank(alloc),
        was: Snapshot::of(&Vec::new(alloc)),
    }
}

/// What is known of a key that has bytes.
pub(crate) fn entry<L: Seal>(row: &Vec<Held<L>>, id: u32) -> Option<&Held<L>>
    ensures some { IfSome result (λ held. entry_in row.now.items id ≡ Some held.now) }
    ensures none { IfNone result (entry_in row.now.items id ≡ None) }
{
    let held = row.get(id as usize)?;
    if held.code.len() as u64 > SLOT {
        return None;
    }
    Some(held)
}

/// How many keys have bytes, and how many bytes they have.
pub(crate) fn count_held<L: Seal>(row: &[Held<L>]) -> (u64, u64) {
    let mut keys: u64 = 0;
    let mut bytes: u64 = 0;
    for held in row {
        let len = held.code.len() as u64;
        if len <= SLOT {
            keys = keys.saturating_add(1);
            bytes = bytes.saturating_add(len);
        }
    }
    (keys, bytes)
}

/// Sets what is known of a key, and gives what was.
pub(crate) fn set_entry<L: Seal>(row: &mut Vec<Held<L>>, id: u32, held: Held<L>) -> Held<L>
    requires { id < vec_len row.old }
    ensures was { known result ≡ entry_in row.old.items id }
    ensures changes { ChangesAt (entry_in row.old.items) (entry_in row.new.items) id (known held) }
    ensures len { vec_len row.new ≡ vec_len row.old }
{
    replace(&mut row[id as usize], held)
}

/// Makes a row longer than a number. After `false`, where memory was refused, it may not be.
#[inline(never)]
pub(crate) fn lengthen<L: Seal>(alloc: Global, row: &mut Vec<Held<L>>, id: usize) -> bool
    requires { id < KEYS }
    ensures long { IsTrue result → id < vec_len row.new }
    ensures same { KeepsEntries row.old.items row.new.items }
{
    if id >= row.capacity() && !has_room(row, id + 1) {
        return false;
    }
    fill_up(alloc, row, id)
}

// Takes memory for so many entries and some more.
fn has_room<L: Seal>(row: &mut Vec<Held<L>>, entries: usize) -> bool
    requires { entries ≤ KEYS }
    ensures { row.new.items ≡ row.old.items }
{
    let len = row.len();
    let wanted = entries.saturating_sub(len);
    row.reserve_exact(wanted + STEP).is_ok()
}

// Makes a row longer than a number by entries of keys without bytes.
#[tactic(auto, using(crate::proofs::Rows::longer))]
fn fill_up<L: Seal>(alloc: Global, row: &mut Vec<Held<L>>, id: usize) -> bool
    requires { id < KEYS }
    ensures long { IsTrue result → id < vec_len row.new }
    ensures same { KeepsEntries row.old.items row.new.items }
{
    for _ in row.len()..id + 1 {
        let Ok(()) = row.push(nothing(alloc)) else {
            return false;
        };
    }
    true
}
