//! A range of an object is read, changed and written in one go.

ghost use Rattle.std.specs.Prelude.{◌≡◌, ◌<◌, ◌+◌, ◌≤◌, ℕ, List, true, length, IsSome, None, Some, Err, IfErr, OnErr, OnOk};
ghost use Rattle.std.specs.Fn.{FnOnceReturnsAtMut, FnOnceTakesAtMut};
ghost use Rattle.far_word.specs.declared.refused.Refused.{Refused as Refusal};
ghost use Rattle.far_word.specs.declared.sizes.TheConstants.{LONGEST};
ghost use Rattle.far_word.specs.Pointer.{read_of};
ghost use Rattle.far_events.specs.events.Pin.{place_to_view};
ghost use Rattle.far_evac.specs.declared.phase.Phase.TheVariants.{Idle};
ghost use Rattle.far_private.specs.Causes.{IsStuck, StaysAway};
ghost use Rattle.far_private.specs.Changes.{Changes};
ghost use Rattle.far_private.specs.Heap.{IsOutside};
ghost use Rattle.far_private.specs.Objects.{IsRead, Settled, access_refusal, len_in, objects_of, state_in, with_written};
ghost use Rattle.far_private.specs.Steps.{Keeps};

use crate::access::{overwrite, overwrite_cold};
use crate::bringing::bring_to_rest;
use crate::cells::{core_of, rests};
use crate::nearby::copy_near;
use crate::ranges::reach;
use far_book::Plain;
use far_device::Device;
use far_evac::Evac;
use far_word::Refused;

/// Reads a range into bytes, has them changed by one call, and writes them back. Nothing has changed where it is refused.
pub(crate) fn change_range<D: Device + Drop, F: FnOnce(&mut [u8])>(
    evac: &mut Evac<Plain, D>,
    pointer: u16,
    from: usize,
    bytes: &mut [u8],
    change: F,
) -> Result<(), Refused>
    // a settled heap; `change` may be called on whatever is read
    requires settled { Settled (state_in evac.old) }
    requires takes { (read : List ℕ) → length read ≡ length bytes.old → FnOnceTakesAtMut F.FnOnce change read }

    // it is settled again; done: `change` was called once, on what was read, and the range has what it made of that; callers see no other change
    ensures settled { Settled (state_in evac.new) }
    ensures changed { OnOk result (Changes (FnOnceReturnsAtMut F.FnOnce change) pointer from (length bytes.old) bytes.new (objects_of (state_in evac.old)) (objects_of (state_in evac.new))) }

    // refused: no object has changed, nor have `bytes`
    ensures refused { OnErr result (objects_of (state_in evac.new) ≡ objects_of (state_in evac.old)) }
    ensures kept { OnErr result (bytes.new ≡ bytes.old) }

    // a pointer without an object and a wrong range are refused as such
    ensures barred { (why : Refusal) → access_refusal (objects_of (state_in evac.old)) pointer from (length bytes.old) ≡ Some why → result ≡ Err why }

    // else refused only as the object can't come to where it may be held; no room, in three logs or more, only as the device refused an object
    ensures outside { access_refusal (objects_of (state_in evac.old)) pointer from (length bytes.old) ≡ None → IfErr result (λ why. IsOutside (state_in evac.old).honest why) }
    ensures away { access_refusal (objects_of (state_in evac.old)) pointer from (length bytes.old) ≡ None → IfErr result (λ why. StaysAway D D.reads (state_in evac.new) pointer evac.new.book.device why) }
    ensures stuck { IfErr result (λ why. IsStuck D D.writes (state_in evac.old) why) }

    // no round stands where none stood
    ensures idle { evac.old.phase ≡ Idle → evac.new.phase ≡ Idle }
{
    match reach(evac, pointer, from, bytes.len()) {
        Ok(()) => {}
        Err(why) => return Err(why),
    }
    change_reached(evac, pointer, from as u16, bytes, change)
}

// The same of a range that lies in the object.
fn change_reached<D: Device + Drop, F: FnOnce(&mut [u8])>(
    evac: &mut Evac<Plain, D>,
    pointer: u16,
    from: u16,
    bytes: &mut [u8],
    change: F,
) -> Result<(), Refused>
    // a settled heap; the object is in use, the range, one byte or more, lies within it, and `change` may be called on whatever is read
    requires settled { Settled (state_in evac.old) }
    requires used { (state_in evac.old).used pointer ≡ true }
    requires some { 0 < length bytes.old }
    requires inside { from + length bytes.old ≤ len_in (objects_of (state_in evac.old)) pointer }
    requires most { from + length bytes.old ≤ LONGEST }
    requires takes { (read : List ℕ) → length read ≡ length bytes.old → FnOnceTakesAtMut F.FnOnce change read }

    // it is settled again; done: `change` was called once, on what was read, and the range has what it made of that; callers see no other change
    ensures settled { Settled (state_in evac.new) }
    ensures changed { OnOk result (Changes (FnOnceReturnsAtMut F.FnOnce change) pointer from (length bytes.old) bytes.new (objects_of (state_in evac.old)) (objects_of (state_in evac.new))) }

    // refused: no object has changed, nor have `bytes`
    ensures refused { OnErr result (objects_of (state_in evac.new) ≡ objects_of (state_in evac.old)) }
    ensures kept { OnErr result (bytes.new ≡ bytes.old) }

    // refused only as the object can't come to where it may be held; no room, in three logs or more, only as the device refused an object
    ensures outside { IfErr result (λ why. IsOutside (state_in evac.old).honest why) }
    ensures away { IfErr result (λ why. StaysAway D D.reads (state_in evac.new) pointer evac.new.book.device why) }
    ensures stuck { IfErr result (λ why. IsStuck D D.writes (state_in evac.old) why) }

    // no round stands where none stood
    ensures idle { evac.old.phase ≡ Idle → evac.new.phase ≡ Idle }
{
    core_of(evac).keeps_law();
    let rested = rests(core_of(evac).cell(pointer));
    match take(evac, pointer, from, bytes) {
        Ok(()) => {
            call_once(change, bytes);
            write_back(evac, pointer, from, bytes, rested);
            Ok(())
        }
        Err(why) => Err(why),
    }
}

// Calls a function of bytes.
#[inline(always)]
fn call_once<F: FnOnce(&mut [u8])>(change: F, bytes: &mut [u8])
    requires { FnOnceTakesAtMut F.FnOnce change bytes.old }
    ensures { FnOnceReturnsAtMut F.FnOnce change bytes.old tt bytes.new }
{
    change(bytes);
}

// Writes over a range of an object that was read. One that was brought for it is cold then, as one that a read or a write brings.
#[inline(always)]
fn write_back<D: Device + Drop>(
    evac: &mut Evac<Plain, D>,
    pointer: u16,
    from: u16,
    bytes: &[u8],
    rested: bool,
)
    requires settled { Settled (state_in evac.old) }
    requires used { (state_in evac.old).used pointer ≡ true }
    requires rests { IsSome (place_to_view (read_of ((state_in evac.old).cell pointer))) }
    requires some { 0 < length bytes.now }
    requires inside { from + length bytes.now ≤ len_in (objects_of (state_in evac.old)) pointer }
    requires most { from + length bytes.now ≤ LONGEST }
    ensures settled { Settled (state_in evac.new) }
    ensures written { objects_of (state_in evac.new) ≡ with_written pointer from bytes.now (objects_of (state_in evac.old)) }
    ensures idle { evac.old.phase ≡ Idle → evac.new.phase ≡ Idle }
{
    if rested {
        overwrite(evac, pointer, from, bytes);
    } else {
        overwrite_cold(evac, pointer, from, bytes);
    }
}

// Copies a range of an object, and has the object where the range may be written.
fn take<D: Device + Drop>(
    evac: &mut Evac<Plain, D>,
    pointer: u16,
    from: u16,
    out: &mut [u8],
) -> Result<(), Refused>
    // a settled heap; the object is in use, and the range lies within it
    requires settled { Settled (state_in evac.old) }
    requires used { (state_in evac.old).used pointer ≡ true }
    requires inside { from + length out.old ≤ len_in (objects_of (state_in evac.old)) pointer }

    // callers see no change; done: `out` has the range's bytes, if the far side is honest, and the object lies where a view may rest
    ensures keeps { Keeps (state_in evac.old) (state_in evac.new) }
    ensures rests { OnOk result (IsSome (place_to_view (read_of ((state_in evac.new).cell pointer)))) }
    ensures read { OnOk result (IsRead (objects_of (state_in evac.old)) pointer from (length out.old) out.new) }

    // refused: `out` is as it was, and the object can't come to where it may be held
    ensures kept { OnErr result (out.new ≡ out.old) }
    ensures outside { IfErr result (λ why. IsOutside (state_in evac.old).honest why) }
    ensures away { IfErr result (λ why. StaysAway D D.reads (state_in evac.new) pointer evac.new.book.device why) }

    // in three logs or more there is no room only as the device refused an object
    ensures stuck { IfErr result (λ why. IsStuck D D.writes (state_in evac.old) why) }

    // no round stands where none stood
    ensures idle { evac.old.phase ≡ Idle → evac.new.phase ≡ Idle }
{
    match bring_to_rest(evac, pointer) {
        Ok(()) => {
            copy_near(evac, pointer, from, out);
            Ok(())
        }
        Err(why) => Err(why),
    }
}
