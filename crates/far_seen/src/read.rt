//! Whether what a number stands for is a line.

ghost use Rattle.std.specs.Prelude.{◌≡◌, ◌<◌, ◌≤◌, ◌+◌, ◌⊎◌, ℕ, List, true, Some, IfOk, IfErr, OnOk, length, take, drop};
ghost use Rattle.std.specs.Bool.{Decides};
ghost use Rattle.far_large.specs.Parts.{Holds, Stands};
ghost use Rattle.far_index.specs.Tags.{tag_of};
ghost use Rattle.far_seen.specs.Causes.{IsWhyUnread};
ghost use Rattle.far_seen.specs.Stored.{Stored, with_longs};

use crate::parts::Store;
use far_index::tag_of_key;
use far_large::Large;
use far_objects::{MOST, Objects};
use far_word::Refused;
use std::hash::DefaultHasher;

/// Numbers from here on are of long lines; objects have those below.
pub const LONG: u32 = 2_147_483_648;

/// Whether what was read is a line. If not it is another one of its tag, or not what was put: [`Refused::Damaged`].
fn is_line(read: &[u8], seed: &DefaultHasher, tag: u64, line: &[u8]) -> Result<bool, Refused>
    ensures is { IfOk result (λ there. Decides there (read.now ≡ line.now)) }
    ensures damaged { IfErr result (λ why. (why ≡ Refused.Damaged) × (tag ≡ tag_of seed.now read.now → ⊥)) }
{
    let there = read == line;
    if !there && tag_of_key(seed, read) != tag {
        return Err(Refused::Damaged);
    }
    Ok(there)
}

/// Makes `out` an object's bytes. After an error it may have any.
fn read_whole<O: Objects + Drop>(
    worker: &mut O,
    number: u32,
    len: usize,
    out: &mut Vec<u8>,
) -> Result<(), Refused>
    requires { (O.far worker.old).sizes number ≡ Some len }
    ensures far { O.far worker.new ≡ O.far worker.old }
    ensures read { (O.far worker.old).honest ≡ true → OnOk result ((O.far worker.old).bytes number ≡ Some out.new.items) }
    ensures long { OnOk result (length out.new.items ≡ len) }
    ensures why { IfErr result (λ why. (why ≡ Refused.Memory) ⊎ O.unreached (O.far worker.old).honest why) }
{
    out.clear();
    let Ok(()) = out.resize(len, 0) else {
        return Err(Refused::Memory);
    };
    match worker.read(number, 0, out.as_mut_slice()) {
        Ok(()) => Ok(()),
        Err(why) => Err(why),
    }
}

/// Whether an object has just these bytes. One of another length isn't read.
fn holds_short<O: Objects + Drop>(
    worker: &mut O,
    buffer: &mut Vec<u8>,
    number: u32,
    seed: &DefaultHasher,
    tag: u64,
    line: &[u8],
) -> Result<bool, Refused>
    requires held { (n : ℕ) × ((O.far worker.old).sizes number ≡ Some n) }
    requires tagged { (xs : List ℕ) → (O.far worker.old).honest ≡ true → (O.far worker.old).bytes number ≡ Some xs → tag ≡ tag_of seed.now xs }
    ensures far { O.far worker.new ≡ O.far worker.old }
    ensures holds { (O.far worker.old).honest ≡ true → IfOk result (λ there. Decides there ((O.far worker.old).bytes number ≡ Some line.now)) }
    ensures long { IfOk result (λ there. there ≡ true → (O.far worker.old).sizes number ≡ Some (length line.now)) }
    ensures why { IfErr result (IsWhyUnread O.unreached (O.far worker.old).honest) }
{
    let Some(len) = worker.len_of(number) else {
        return Ok(false);
    };
    if len != line.len() {
        return Ok(false);
    }
    match read_whole(worker, number, len, buffer) {
        Ok(()) => is_line(buffer.as_slice(), seed, tag, line),
        Err(why) => Err(why),
    }
}

/// Makes `out` so many bytes of a value, from one on. After an error it may have any.
fn read_at<O: Objects + Drop>(
    worker: &mut O,
    large: &Large,
    from: usize,
    count: usize,
    out: &mut Vec<u8>,
) -> Result<(), Refused>
    requires stands { Stands (O.far worker.old) large.now }
    requires some { 0 < count }
    requires within { from + count ≤ large.now.len }
    ensures far { O.far worker.new ≡ O.far worker.old }
    ensures read { (xs : List ℕ) → (O.far worker.old).honest ≡ true → Holds (O.far worker.old) large.now xs → OnOk result (out.new.items ≡ take count (drop from xs)) }
    ensures long { OnOk result (length out.new.items ≡ count) }
    ensures why { IfErr result (λ why. (why ≡ Refused.Memory) ⊎ O.unreached (O.far worker.old).honest why) }
{
    out.clear();
    let Ok(()) = out.resize(count, 0) else {
        return Err(Refused::Memory);
    };
    match large.read(worker, from, out.as_mut_slice()) {
        Ok(()) => Ok(()),
        Err(why) => Err(why),
    }
}

/// Whether a value that wasn't a line when it was read is it, read once more and whole.
fn is_line_now<O: Objects + Drop>(
    worker: &mut O,
    buffer: &mut Vec<u8>,
    large: &Large,
    seed: &DefaultHasher,
    tag: u64,
    line: &[u8],
) -> Result<bool, Refused>
    requires stands { Stands (O.far worker.old) large.now }
    requires some { 0 < large.now.len }
    requires tagged { (O.far worker.old).honest ≡ true → (xs : List ℕ) × Holds (O.far worker.old) large.now xs × (tag ≡ tag_of seed.now xs) }
    ensures far { O.far worker.new ≡ O.far worker.old }
    ensures holds { (xs : List ℕ) → (O.far worker.old).honest ≡ true → Holds (O.far worker.old) large.now xs → IfOk result (λ there. Decides there (xs ≡ line.now)) }
    ensures why { IfErr result (IsWhyUnread O.unreached (O.far worker.old).honest) }
{
    match read_at(worker, large, 0, large.len(), buffer) {
        Ok(()) => is_line(buffer.as_slice(), seed, tag, line),
        Err(why) => Err(why),
    }
}

/// Whether a value has just these bytes. One of another length isn't read, and none past the first part that differs, unless that is asked
/// whether it is what was put.
fn holds_long<O: Objects + Drop>(
    worker: &mut O,
    buffer: &mut Vec<u8>,
    large: &Large,
    seed: &DefaultHasher,
    tag: u64,
    line: &[u8],
) -> Result<bool, Refused>
    requires stands { Stands (O.far worker.old) large.now }
    requires tagged { (O.far worker.old).honest ≡ true → (xs : List ℕ) × Holds (O.far worker.old) large.now xs × (tag ≡ tag_of seed.now xs) }
    ensures far { O.far worker.new ≡ O.far worker.old }
    ensures holds { (xs : List ℕ) → (O.far worker.old).honest ≡ true → Holds (O.far worker.old) large.now xs → IfOk result (λ there. Decides there (xs ≡ line.now)) }
    ensures long { IfOk result (λ there. there ≡ true → large.now.len ≡ length line.now) }
    ensures why { IfErr result (IsWhyUnread O.unreached (O.far worker.old).honest) }
{
    if large.len() != line.len() {
        return Ok(false);
    }
    let mut done = 0;
    while done < line.len() {
        let count = MOST.min(line.len() - done);
        match read_at(worker, large, done, count, buffer) {
            Ok(()) => {}
            Err(why) => return Err(why),
        }
        if buffer.as_slice() != &line[done..done + count] {
            return is_line_now(worker, buffer, large, seed, tag, line);
        }
        done += count;
    }
    Ok(true)
}

/// Whether a number stands for a line. `tag` is the line's, and of what was put under the number.
pub fn holds<O: Objects + Drop>(
    store: &mut Store<O>,
    number: u32,
    seed: &DefaultHasher,
    tag: u64,
    line: &[u8],
) -> Result<bool, Refused>
    requires stored { Stored (O.far store.old.worker) store.old.longs.items }
    requires held { (n : ℕ) × ((with_longs (O.far store.old.worker) store.old.longs.items).sizes number ≡ Some n) }
    requires tagged { (xs : List ℕ) → (O.far store.old.worker).honest ≡ true → (with_longs (O.far store.old.worker) store.old.longs.items).bytes number ≡ Some xs → tag ≡ tag_of seed.now xs }
    ensures far { O.far store.new.worker ≡ O.far store.old.worker }
    ensures longs { store.new.longs ≡ store.old.longs }
    ensures holds { (O.far store.old.worker).honest ≡ true → IfOk result (λ there. Decides there ((with_longs (O.far store.old.worker) store.old.longs.items).bytes number ≡ Some line.now)) }
    ensures long { IfOk result (λ there. there ≡ true → (with_longs (O.far store.old.worker) store.old.longs.items).sizes number ≡ Some (length line.now)) }
    ensures why { IfErr result (IsWhyUnread O.unreached (O.far store.old.worker).honest) }
{
    if number < LONG {
        return holds_short(
            &mut store.worker,
            &mut store.buffer,
            number,
            seed,
            tag,
            line,
        );
    }
    match store.longs.get((number - LONG) as usize) {
        Some(large) => holds_long(&mut store.worker, &mut store.buffer, large, seed, tag, line),
        None => Ok(false),
    }
}

/// Makes `out` a value's bytes. After an error it may have any.
fn read_all<O: Objects + Drop>(
    worker: &mut O,
    large: &Large,
    out: &mut Vec<u8>,
) -> Result<(), Refused>
    requires stands { Stands (O.far worker.old) large.now }
    ensures far { O.far worker.new ≡ O.far worker.old }
    ensures read { (xs : List ℕ) → (O.far worker.old).honest ≡ true → Holds (O.far worker.old) large.now xs → OnOk result (out.new.items ≡ xs) }
    ensures long { OnOk result (length out.new.items ≡ large.now.len) }
    ensures why { IfErr result (λ why. (why ≡ Refused.Memory) ⊎ O.unreached (O.far worker.old).honest why) }
{
    if large.len() == 0 {
        out.clear();
        return Ok(());
    }
    read_at(worker, large, 0, large.len(), out)
}

/// Makes `out` the line that a number stands for. After an error it may have any bytes.
pub fn read_line<O: Objects + Drop>(
    store: &mut Store<O>,
    number: u32,
    out: &mut Vec<u8>,
) -> Result<(), Refused>
    requires stored { Stored (O.far store.old.worker) store.old.longs.items }
    requires held { (n : ℕ) × ((with_longs (O.far store.old.worker) store.old.longs.items).sizes number ≡ Some n) }
    ensures far { O.far store.new.worker ≡ O.far store.old.worker }
    ensures longs { store.new.longs ≡ store.old.longs }
    ensures read { (O.far store.old.worker).honest ≡ true → OnOk result ((with_longs (O.far store.old.worker) store.old.longs.items).bytes number ≡ Some out.new.items) }
    ensures long { OnOk result ((with_longs (O.far store.old.worker) store.old.longs.items).sizes number ≡ Some (length out.new.items)) }
    ensures why { IfErr result (λ why. (why ≡ Refused.Memory) ⊎ O.unreached (O.far store.old.worker).honest why) }
{
    if number < LONG {
        return match store.worker.len_of(number) {
            Some(len) => read_whole(&mut store.worker, number, len, out),
            None => Err(Refused::Memory),
        };
    }
    match store.longs.get((number - LONG) as usize) {
        Some(large) => read_all(&mut store.worker, large, out),
        None => Err(Refused::Memory),
    }
}
