//! Parts of a value, by their numbers.

ghost use Rattle.std.specs.Prelude.{◌≡◌, ◌<◌, ◌≤◌, ◌+◌, ◌*◌, ℕ, List, true, None, Some, IfErr, IfSome, MatchBool, OnOk, OnErr, length, take, drop};
ghost use Rattle.far_objects.specs.declared.objects.TheConstants.{MOST};
ghost use Rattle.far_objects.specs.Far.{barred};
ghost use Rattle.far_large.specs.Parts.{AreApart, AsBefore, Dropped, HasParts, IsCount, IsWhyMissed, IsWhyNotPut, IsWhyNotRead, Placed, Stands, number_of, part_len, part_of};

use far_objects::{MOST, Objects};
use far_word::Refused;

// The bytes of a part.
pub(crate) fn part(bytes: &[u8], i: usize) -> &[u8]
    requires { i * MOST < length bytes.now }
    ensures value { result.now ≡ part_of bytes.now i }
    ensures some { 0 < length result.now }
    ensures most { length result.now ≤ MOST }
{
    let from = i * MOST;
    if bytes.len() - from > MOST {
        &bytes[from..from + MOST]
    } else {
        &bytes[from..]
    }
}

// Drops the objects of the first so many numbers.
pub(crate) fn drop_first<O: Objects>(worker: &mut O, numbers: &[u32], count: usize)
    requires few { count ≤ length numbers.now }
    requires apart { AreApart numbers.now count }
    requires there { (i : ℕ) → i < count → (n : ℕ) × ((O.far worker.old).sizes (number_of numbers.now i) ≡ Some n) }
    ensures { Dropped numbers.now count (O.far worker.old) (O.far worker.new) }
{
    for i in 0..count {
        let _ = worker.drop_object(numbers[i]);
    }
}

// Makes the parts of a value, and notes their numbers; or none.
pub(crate) fn place_all<O: Objects>(
    worker: &mut O,
    bytes: &[u8],
    numbers: &mut [u32],
) -> Result<(), Refused>
    requires { IsCount (length bytes.now) (length numbers.old) }
    ensures placed { OnOk result (Placed numbers.new (length numbers.old) bytes.now (O.far worker.old) (O.far worker.new)) }
    ensures refused { OnErr result (AsBefore (O.far worker.old) (O.far worker.new)) }
    ensures why { IfErr result (λ why. IsWhyNotPut O.unmade (length bytes.now) why) }
{
    for i in 0..numbers.len() {
        match worker.alloc(part(bytes, i)) {
            Ok(number) => numbers[i] = number,
            Err(why) => {
                drop_first(worker, numbers, i);
                return Err(why);
            }
        }
    }
    Ok(())
}

// Whether each part is there, as long as it has to be.
pub(crate) fn are_there<O: Objects>(worker: &O, numbers: &[u32], len: usize) -> bool
    requires { IsCount len (length numbers.now) }
    ensures { MatchBool result (Stands (O.far worker.now) record { len = len; numbers = numbers.now }) (Stands (O.far worker.now) record { len = len; numbers = numbers.now } → ⊥) }
{
    for i in 0..numbers.len() {
        match worker.len_of(numbers[i]) {
            Some(n) => {
                let wanted = MOST.min(len - i * MOST);
                if n != wanted {
                    return false;
                }
            }
            None => return false,
        }
    }
    true
}

// Reads bytes of a part. One that isn't there with all these bytes isn't held.
fn read_part<O: Objects>(
    worker: &mut O,
    number: u32,
    from: usize,
    out: &mut [u8],
) -> Result<(), Refused>
    ensures same { O.far worker.new ≡ O.far worker.old }
    ensures long { length out.new ≡ length out.old }
    ensures read { OnOk result (IfSome ((O.far worker.old).bytes number) (λ bytes. out.new ≡ take (length out.old) (drop from bytes))) }
    ensures why { IfErr result (λ why. IsWhyMissed O.unreached (O.far worker.old).honest (barred ((O.far worker.old).sizes number) from (length out.old)) why) }
{
    match worker.read(number, from, out) {
        Ok(()) => Ok(()),
        Err(Refused::Range) => Err(Refused::NotHeld),
        Err(why) => Err(why),
    }
}

// Reads bytes of a value of `len`, from one on, as many as `out` has.
pub(crate) fn read_parts<O: Objects>(
    worker: &mut O,
    numbers: &[u32],
    len: usize,
    from: usize,
    out: &mut [u8],
) -> Result<(), Refused>
    requires within { from + length out.old ≤ len }
    requires enough { len ≤ MOST * length numbers.now }
    ensures same { O.far worker.new ≡ O.far worker.old }
    ensures long { length out.new ≡ length out.old }
    ensures read { (bytes : List ℕ) → (O.far worker.old).honest ≡ true → HasParts (O.far worker.old) numbers.now bytes → OnOk result (out.new ≡ take (length out.old) (drop from bytes)) }
    ensures why { IfErr result (λ why. IsWhyNotRead O.unreached (O.far worker.old) record { len = len; numbers = numbers.now } None why) }
{
    let mut done = 0;
    while done < out.len() {
        let at = from + done;
        let count = (MOST - at % MOST).min(out.len() - done);
        match read_part(
            worker,
            numbers[at / MOST],
            at % MOST,
            &mut out[done..done + count],
        ) {
            Ok(()) => done += count,
            Err(why) => return Err(why),
        }
    }
    Ok(())
}
