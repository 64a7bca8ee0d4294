//! Ranges of objects, wherever they are.

ghost use Rattle.std.specs.Prelude.{◌≡◌, ◌≢◌, ◌<◌, ◌+◌, ◌≤◌, ◌&&◌, nat_lt, nat_le, true, false, length, slice_range, None, Some, Ok, Err, IfErr, IfSome, OnErr, OnOk};
ghost use Rattle.far_word.specs.declared.refused.Refused.{Refused as Refusal};
ghost use Rattle.far_word.specs.declared.refused.Refused.TheVariants.{NoRoom as no_room};
ghost use Rattle.far_word.specs.declared.sizes.TheConstants.{LONGEST};
ghost use Rattle.far_word.specs.Pointer.{read_of};
ghost use Rattle.far_core.specs.state.Room.{free_logs};
ghost use Rattle.far_alone.specs.Dereference.{says_near};
ghost use Rattle.far_evac.specs.declared.phase.Phase.TheVariants.{Idle};
ghost use Rattle.far_private.specs.Causes.{IsFault, IsStuck, StaysAway, StaysFar};
ghost use Rattle.far_private.specs.Heap.{IsOutside};
ghost use Rattle.far_private.specs.Objects.{IsRead, Settled, access_refusal, bytes_in, len_in, objects_of, state_in, with_written};
ghost use Rattle.far_private.specs.Steps.{Keeps};

use crate::access::{overwrite, overwrite_cold, warm};
use crate::bringing::{bring_anew, fetch_far};
use crate::budget::Rounds;
use crate::cells::{core_of, is_near, rests};
use crate::glances::Glances;
use crate::last::{last_round, told};
use crate::nearby::copy_near;
use far_book::Plain;
use far_device::Device;
use far_evac::Evac;
use far_word::{Refused, pointer_len};

/// Whether a range lies in the object of a pointer, or why it may not be reached.
pub(crate) fn reach<D: Device + Drop>(
    evac: &Evac<Plain, D>,
    pointer: u16,
    from: usize,
    count: usize,
) -> Result<(), Refused>
    requires settled { Settled (state_in evac.now) }
    ensures used { OnOk result ((state_in evac.now).used pointer ≡ true) }
    ensures some { OnOk result (0 < count) }
    ensures inside { OnOk result (from + count ≤ len_in (objects_of (state_in evac.now)) pointer) }
    ensures most { OnOk result (from + count ≤ LONGEST) }
    ensures allowed { OnOk result (access_refusal (objects_of (state_in evac.now)) pointer from count ≡ None) }
    ensures refused { IfErr result (λ why. access_refusal (objects_of (state_in evac.now)) pointer from count ≡ Some why) }
{
    if !core_of(evac).is_used(pointer) {
        return Err(Refused::NotHeld);
    }
    if !lies_in(used_len(evac, pointer) as usize, from, count) {
        return Err(Refused::Range);
    }
    Ok(())
}

// Whether a range isn't empty and lies in so many bytes.
#[inline(always)]
fn lies_in(len: usize, from: usize, count: usize) -> bool
    ensures { result ≡ (nat_lt 0 count && nat_le (from + count) len) }
{
    count != 0 && from <= len && count <= len - from
}

/// How many bytes a pointer's object has.
pub(crate) fn used_len<D: Device + Drop>(evac: &Evac<Plain, D>, pointer: u16) -> u16
    requires used { (state_in evac.now).used pointer ≡ true }
    ensures len { result ≡ len_in (objects_of (state_in evac.now)) pointer }
    ensures most { result ≤ LONGEST }
{
    pointer_len(core_of(evac).cell(pointer))
}

/// Reads a range of an object.
pub(crate) fn read_range<D: Device + Drop>(
    evac: &mut Evac<Plain, D>,
    glances: &mut Glances,
    pointer: u16,
    from: usize,
    out: &mut [u8],
) -> Result<(), Refused>
    // a settled heap
    requires settled { Settled (state_in evac.old) }

    // callers see no change, and no round stands where none stood
    ensures keeps { Keeps (state_in evac.old) (state_in evac.new) }
    ensures idle { evac.old.phase ≡ Idle → evac.new.phase ≡ Idle }

    // barred: the pointer has no object, or the range has no byte or doesn't lie in it
    ensures barred { (why : Refusal) → access_refusal (objects_of (state_in evac.old)) pointer from (length out.old) ≡ Some why → result ≡ Err why }

    // done: the range as it was written last, if the far side is honest; a read of a near object is always done
    ensures read { OnOk result (IfSome (bytes_in (objects_of (state_in evac.old)) pointer) (λ bytes. out.new ≡ slice_range bytes from (from + length out.old))) }
    ensures near { access_refusal (objects_of (state_in evac.old)) pointer from (length out.old) ≡ None → says_near (read_of ((state_in evac.old).cell pointer)) ≡ true → result ≡ Ok tt }

    // refused: `out` is as it was, and the object stays far by a fault of the device, asked for it
    ensures kept { OnErr result (out.new ≡ out.old) }
    ensures far { access_refusal (objects_of (state_in evac.old)) pointer from (length out.old) ≡ None → IfErr result (λ why. StaysFar D D.reads (state_in evac.new) pointer evac.new.book.device why) }
    ensures fault { access_refusal (objects_of (state_in evac.old)) pointer from (length out.old) ≡ None → IfErr result (λ why. IsFault why) }
    ensures outside { access_refusal (objects_of (state_in evac.old)) pointer from (length out.old) ≡ None → IfErr result (λ why. IsOutside (state_in evac.old).honest why) }
{
    match reach(evac, pointer, from, out.len()) {
        Ok(()) => {}
        Err(why) => return Err(why),
    }
    read_reached(evac, glances, pointer, from as u16, out)
}

// Reads a range that lies in an object.
#[inline(always)]
fn read_reached<D: Device + Drop>(
    evac: &mut Evac<Plain, D>,
    glances: &mut Glances,
    pointer: u16,
    from: u16,
    out: &mut [u8],
) -> Result<(), Refused>
    // a settled heap; the pointer has an object, in which the range lies, and a byte is asked for
    requires settled { Settled (state_in evac.old) }
    requires used { (state_in evac.old).used pointer ≡ true }
    requires some { 0 < length out.old }
    requires inside { from + length out.old ≤ len_in (objects_of (state_in evac.old)) pointer }
    requires most { from + length out.old ≤ LONGEST }

    // callers see no change, and no round stands where none stood
    ensures keeps { Keeps (state_in evac.old) (state_in evac.new) }
    ensures idle { evac.old.phase ≡ Idle → evac.new.phase ≡ Idle }

    // done: the range as it was written last, if the far side is honest; a read of a near object is always done
    ensures read { OnOk result (IsRead (objects_of (state_in evac.old)) pointer from (length out.old) out.new) }
    ensures near { says_near (read_of ((state_in evac.old).cell pointer)) ≡ true → result ≡ Ok tt }

    // refused: `out` is as it was, and the object stays far by a fault of the device, asked for it
    ensures kept { OnErr result (out.new ≡ out.old) }
    ensures far { IfErr result (λ why. StaysFar D D.reads (state_in evac.new) pointer evac.new.book.device why) }
    ensures given { IfErr result (λ why. IsFault why) }
{
    core_of(evac).keeps_law();
    if is_near(core_of(evac).cell(pointer)) {
        read_near(evac, pointer, from, out);
        return Ok(());
    }
    read_away(evac, glances, pointer, from, out)
}

// The same of a far one. One that was looked at of late comes near, if room can be made; else it is read where it is.
#[inline(never)]
fn read_away<D: Device + Drop>(
    evac: &mut Evac<Plain, D>,
    glances: &mut Glances,
    pointer: u16,
    from: u16,
    out: &mut [u8],
) -> Result<(), Refused>
    // a settled heap; the pointer has an object, which is far, in which the range lies, and a byte is asked for
    requires settled { Settled (state_in evac.old) }
    requires used { (state_in evac.old).used pointer ≡ true }
    requires far { says_near (read_of ((state_in evac.old).cell pointer)) ≡ false }
    requires some { 0 < length out.old }
    requires inside { from + length out.old ≤ len_in (objects_of (state_in evac.old)) pointer }
    requires most { from + length out.old ≤ LONGEST }

    // callers see no change, and no round stands where none stood
    ensures keeps { Keeps (state_in evac.old) (state_in evac.new) }
    ensures idle { evac.old.phase ≡ Idle → evac.new.phase ≡ Idle }

    // done: the range as it was written last, if the far side is honest
    ensures read { OnOk result (IsRead (objects_of (state_in evac.old)) pointer from (length out.old) out.new) }

    // refused: `out` is as it was, and the object stays far by a fault of the device, asked for it
    ensures kept { OnErr result (out.new ≡ out.old) }
    ensures far { IfErr result (λ why. StaysFar D D.reads (state_in evac.new) pointer evac.new.book.device why) }
    ensures given { IfErr result (λ why. IsFault why) }
{
    if !glances.again(pointer) {
        return read_there(evac, glances, pointer, from, out);
    }
    read_coming(evac, glances, pointer, from, out)
}

// The same; it comes near, if room can be made.
fn read_coming<D: Device + Drop>(
    evac: &mut Evac<Plain, D>,
    glances: &mut Glances,
    pointer: u16,
    from: u16,
    out: &mut [u8],
) -> Result<(), Refused>
    // a settled heap; the pointer has an object, which is far, in which the range lies, and a byte is asked for
    requires settled { Settled (state_in evac.old) }
    requires used { (state_in evac.old).used pointer ≡ true }
    requires far { says_near (read_of ((state_in evac.old).cell pointer)) ≡ false }
    requires some { 0 < length out.old }
    requires inside { from + length out.old ≤ len_in (objects_of (state_in evac.old)) pointer }
    requires most { from + length out.old ≤ LONGEST }

    // callers see no change, and no round stands where none stood
    ensures keeps { Keeps (state_in evac.old) (state_in evac.new) }
    ensures idle { evac.old.phase ≡ Idle → evac.new.phase ≡ Idle }

    // done: the range as it was written last, if the far side is honest
    ensures read { OnOk result (IsRead (objects_of (state_in evac.old)) pointer from (length out.old) out.new) }

    // refused: `out` is as it was, and the object stays far by a fault of the device, asked for it
    ensures kept { OnErr result (out.new ≡ out.old) }
    ensures far { IfErr result (λ why. StaysFar D D.reads (state_in evac.new) pointer evac.new.book.device why) }
    ensures given { IfErr result (λ why. IsFault why) }
{
    match read_brought(evac, pointer, from, out) {
        Err(Refused::NoRoom) => read_there(evac, glances, pointer, from, out),
        Err(Refused::EpochsSpent) => read_there(evac, glances, pointer, from, out),
        answer => answer,
    }
}

// The same where it is, and it stays there.
fn read_there<D: Device + Drop>(
    evac: &mut Evac<Plain, D>,
    glances: &mut Glances,
    pointer: u16,
    from: u16,
    out: &mut [u8],
) -> Result<(), Refused>
    requires used { (state_in evac.old).used pointer ≡ true }
    requires far { says_near (read_of ((state_in evac.old).cell pointer)) ≡ false }
    requires inside { from + length out.old ≤ len_in (objects_of (state_in evac.old)) pointer }
    ensures keeps { Keeps (state_in evac.old) (state_in evac.new) }
    ensures read { OnOk result (IsRead (objects_of (state_in evac.old)) pointer from (length out.old) out.new) }
    ensures far { IfErr result (λ why. StaysFar D D.reads (state_in evac.new) pointer evac.new.book.device why) }
    ensures given { IfErr result (λ why. IsFault why) }
    ensures kept { OnErr result (out.new ≡ out.old) }
    ensures idle { evac.old.phase ≡ Idle → evac.new.phase ≡ Idle }
{
    glances.count_look();
    evac.glance(pointer, from, out)
}

// The same, and it comes near.
fn read_brought<D: Device + Drop>(
    evac: &mut Evac<Plain, D>,
    pointer: u16,
    from: u16,
    out: &mut [u8],
) -> Result<(), Refused>
    // a settled heap; the pointer has an object, in which the range lies, and a byte is asked for
    requires settled { Settled (state_in evac.old) }
    requires used { (state_in evac.old).used pointer ≡ true }
    requires some { 0 < length out.old }
    requires inside { from + length out.old ≤ len_in (objects_of (state_in evac.old)) pointer }
    requires most { from + length out.old ≤ LONGEST }

    // callers see no change, and no round stands where none stood
    ensures keeps { Keeps (state_in evac.old) (state_in evac.new) }
    ensures idle { evac.old.phase ≡ Idle → evac.new.phase ≡ Idle }

    // done: the range as it was written last, if the far side is honest; a read of a near object is always done
    ensures read { OnOk result (IsRead (objects_of (state_in evac.old)) pointer from (length out.old) out.new) }
    ensures near { says_near (read_of ((state_in evac.old).cell pointer)) ≡ true → result ≡ Ok tt }

    // refused: `out` is as it was, and the object stays far, as no log has room for it or by a fault of the device, asked for it; no room, in three logs or more, only as the device refused an object
    ensures kept { OnErr result (out.new ≡ out.old) }
    ensures far { IfErr result (λ why. StaysFar D D.reads (state_in evac.new) pointer evac.new.book.device why) }
    ensures stuck { IfErr result (λ why. IsStuck D D.writes (state_in evac.old) why) }
{
    match read_once(evac, pointer, from, out) {
        Ok(()) => Ok(()),
        Err(Refused::NoRoom) => read_again(evac, pointer, from, out),
        Err(why) => Err(why),
    }
}

// The same once there was no room for the object.
#[inline(never)]
fn read_again<D: Device + Drop>(
    evac: &mut Evac<Plain, D>,
    pointer: u16,
    from: u16,
    out: &mut [u8],
) -> Result<(), Refused>
    // a settled heap; the pointer has an object, in which the range lies, and a byte is asked for
    requires settled { Settled (state_in evac.old) }
    requires used { (state_in evac.old).used pointer ≡ true }
    requires some { 0 < length out.old }
    requires inside { from + length out.old ≤ len_in (objects_of (state_in evac.old)) pointer }
    requires most { from + length out.old ≤ LONGEST }

    // it was asked for, and no log had room
    requires far { StaysFar D D.reads (state_in evac.old) pointer evac.old.book.device no_room }

    // callers see no change, and no round stands where none stood
    ensures keeps { Keeps (state_in evac.old) (state_in evac.new) }
    ensures idle { evac.old.phase ≡ Idle → evac.new.phase ≡ Idle }

    // done: the range as it was written last, if the far side is honest
    ensures read { OnOk result (IsRead (objects_of (state_in evac.old)) pointer from (length out.old) out.new) }

    // refused: `out` is as it was, and the object stays far, as no log has room for it or by a fault of the device, asked for it; no room, in three logs or more, only as the device refused an object
    ensures kept { OnErr result (out.new ≡ out.old) }
    ensures far { IfErr result (λ why. StaysFar D D.reads (state_in evac.new) pointer evac.new.book.device why) }
    ensures stuck { IfErr result (λ why. IsStuck D D.writes (state_in evac.old) why) }
{
    let mut rounds = Rounds::new(evac);
    while rounds.make(evac) {
        match read_once(evac, pointer, from, out) {
            Ok(()) => return Ok(()),
            Err(Refused::NoRoom) => {}
            Err(why) => return Err(why),
        }
    }
    read_last(evac, pointer, from, out)
}

// The same after one more round, the last.
fn read_last<D: Device + Drop>(
    evac: &mut Evac<Plain, D>,
    pointer: u16,
    from: u16,
    out: &mut [u8],
) -> Result<(), Refused>
    // a settled heap; the pointer has an object, in which the range lies, and a byte is asked for
    requires settled { Settled (state_in evac.old) }
    requires used { (state_in evac.old).used pointer ≡ true }
    requires some { 0 < length out.old }
    requires inside { from + length out.old ≤ len_in (objects_of (state_in evac.old)) pointer }
    requires most { from + length out.old ≤ LONGEST }

    // callers see no change, and no round stands where none stood
    ensures keeps { Keeps (state_in evac.old) (state_in evac.new) }
    ensures idle { evac.old.phase ≡ Idle → evac.new.phase ≡ Idle }

    // done: the range as it was written last, if the far side is honest
    ensures read { OnOk result (IsRead (objects_of (state_in evac.old)) pointer from (length out.old) out.new) }

    // refused: `out` is as it was, and the object stays far, as no log has room for it or by a fault of the device, asked for it; no room, in three logs or more, only as the device refused an object
    ensures kept { OnErr result (out.new ≡ out.old) }
    ensures far { IfErr result (λ why. StaysFar D D.reads (state_in evac.new) pointer evac.new.book.device why) }
    ensures stuck { IfErr result (λ why. IsStuck D D.writes (state_in evac.old) why) }
{
    let made = last_round(evac);
    match read_once(evac, pointer, from, out) {
        Ok(()) => Ok(()),
        Err(why) => Err(told(why, made)),
    }
}

// The same, without a round. A near object has HOT then; a far one is fetched, and stays cold.
#[inline(always)]
fn read_once<D: Device + Drop>(
    evac: &mut Evac<Plain, D>,
    pointer: u16,
    from: u16,
    out: &mut [u8],
) -> Result<(), Refused>
    // a settled heap; the pointer has an object, in which the range lies, and a byte is asked for
    requires settled { Settled (state_in evac.old) }
    requires used { (state_in evac.old).used pointer ≡ true }
    requires some { 0 < length out.old }
    requires inside { from + length out.old ≤ len_in (objects_of (state_in evac.old)) pointer }
    requires most { from + length out.old ≤ LONGEST }

    // callers see no change, and no round stands where none stood
    ensures keeps { Keeps (state_in evac.old) (state_in evac.new) }
    ensures idle { evac.old.phase ≡ Idle → evac.new.phase ≡ Idle }

    // done: the range as it was written last, if the far side is honest; a read of a near object is always done
    ensures read { OnOk result (IsRead (objects_of (state_in evac.old)) pointer from (length out.old) out.new) }
    ensures near { says_near (read_of ((state_in evac.old).cell pointer)) ≡ true → result ≡ Ok tt }

    // refused: `out` is as it was, and the object stays far, as no log has room for it or by a fault of the device, asked for it, but never for want of room where two logs are free
    ensures kept { OnErr result (out.new ≡ out.old) }
    ensures far { IfErr result (λ why. StaysFar D D.reads (state_in evac.new) pointer evac.new.book.device why) }
    ensures roomy { 2 ≤ length (free_logs (state_in evac.old)) → IfErr result (λ why. why ≢ no_room) }
{
    core_of(evac).keeps_law();
    if is_near(core_of(evac).cell(pointer)) {
        read_near(evac, pointer, from, out);
        Ok(())
    } else {
        read_far(evac, pointer, from, out)
    }
}

// The same of a near object.
#[inline(always)]
fn read_near<D: Device + Drop>(evac: &mut Evac<Plain, D>, pointer: u16, from: u16, out: &mut [u8])
    requires settled { Settled (state_in evac.old) }
    requires used { (state_in evac.old).used pointer ≡ true }
    requires near { says_near (read_of ((state_in evac.old).cell pointer)) ≡ true }
    requires some { 0 < length out.old }
    requires inside { from + length out.old ≤ len_in (objects_of (state_in evac.old)) pointer }
    requires most { from + length out.old ≤ LONGEST }
    ensures keeps { Keeps (state_in evac.old) (state_in evac.new) }
    ensures read { IsRead (objects_of (state_in evac.old)) pointer from (length out.old) out.new }
    ensures idle { evac.old.phase ≡ Idle → evac.new.phase ≡ Idle }
{
    copy_near(evac, pointer, from, out);
    warm(evac, pointer);
}

// The same of a far one.
#[inline(never)]
fn read_far<D: Device + Drop>(
    evac: &mut Evac<Plain, D>,
    pointer: u16,
    from: u16,
    out: &mut [u8],
) -> Result<(), Refused>
    // a settled heap; the pointer has an object, which is far, in which the range lies, and a byte is asked for
    requires settled { Settled (state_in evac.old) }
    requires used { (state_in evac.old).used pointer ≡ true }
    requires far { says_near (read_of ((state_in evac.old).cell pointer)) ≡ false }
    requires some { 0 < length out.old }
    requires inside { from + length out.old ≤ len_in (objects_of (state_in evac.old)) pointer }
    requires most { from + length out.old ≤ LONGEST }

    // callers see no change, and no round stands where none stood
    ensures keeps { Keeps (state_in evac.old) (state_in evac.new) }
    ensures idle { evac.old.phase ≡ Idle → evac.new.phase ≡ Idle }

    // done: the range as it was written last, if the far side is honest
    ensures read { OnOk result (IsRead (objects_of (state_in evac.old)) pointer from (length out.old) out.new) }

    // refused: `out` is as it was, and the object stays far, as no log has room for it or by a fault of the device, asked for it, but never for want of room where two logs are free
    ensures kept { OnErr result (out.new ≡ out.old) }
    ensures far { IfErr result (λ why. StaysFar D D.reads (state_in evac.new) pointer evac.new.book.device why) }
    ensures roomy { 2 ≤ length (free_logs (state_in evac.old)) → IfErr result (λ why. why ≢ no_room) }
{
    match fetch_far(evac, pointer) {
        Ok(()) => {
            copy_near(evac, pointer, from, out);
            Ok(())
        }
        Err(why) => Err(why),
    }
}

/// Writes bytes over a range of an object.
pub(crate) fn write_range<D: Device + Drop>(
    evac: &mut Evac<Plain, D>,
    pointer: u16,
    from: usize,
    bytes: &[u8],
) -> Result<(), Refused>
    requires settled { Settled (state_in evac.old) }
    ensures settled { Settled (state_in evac.new) }
    ensures written { OnOk result (objects_of (state_in evac.new) ≡ with_written pointer from bytes.now (objects_of (state_in evac.old))) }
    ensures refused { OnErr result (objects_of (state_in evac.new) ≡ objects_of (state_in evac.old)) }
    ensures barred { (why : Refusal) → access_refusal (objects_of (state_in evac.old)) pointer from (length bytes.now) ≡ Some why → result ≡ Err why }
    ensures outside { access_refusal (objects_of (state_in evac.old)) pointer from (length bytes.now) ≡ None → IfErr result (λ why. IsOutside (state_in evac.old).honest why) }
    ensures away { access_refusal (objects_of (state_in evac.old)) pointer from (length bytes.now) ≡ None → IfErr result (λ why. StaysAway D D.reads (state_in evac.new) pointer evac.new.book.device why) }
    ensures stuck { IfErr result (λ why. IsStuck D D.writes (state_in evac.old) why) }
    ensures idle { evac.old.phase ≡ Idle → evac.new.phase ≡ Idle }
{
    match reach(evac, pointer, from, bytes.len()) {
        Ok(()) => {}
        Err(why) => return Err(why),
    }
    write_reached(evac, pointer, from as u16, bytes)
}

// Writes over a range that lies in an object.
fn write_reached<D: Device + Drop>(
    evac: &mut Evac<Plain, D>,
    pointer: u16,
    from: u16,
    bytes: &[u8],
) -> Result<(), Refused>
    // a settled heap; the pointer has an object, in which the range lies, and a byte is given
    requires settled { Settled (state_in evac.old) }
    requires used { (state_in evac.old).used pointer ≡ true }
    requires some { 0 < length bytes.now }
    requires inside { from + length bytes.now ≤ len_in (objects_of (state_in evac.old)) pointer }
    requires most { from + length bytes.now ≤ LONGEST }

    // it is settled again, and no round stands where none stood
    ensures settled { Settled (state_in evac.new) }
    ensures idle { evac.old.phase ≡ Idle → evac.new.phase ≡ Idle }

    // done: the range has these bytes, and nothing else has changed
    ensures written { OnOk result (objects_of (state_in evac.new) ≡ with_written pointer from bytes.now (objects_of (state_in evac.old))) }

    // refused: nothing has changed; the object can't be brought to where it may be written; no room, in three logs or more, only as the device refused an object
    ensures refused { OnErr result (objects_of (state_in evac.new) ≡ objects_of (state_in evac.old)) }
    ensures away { IfErr result (λ why. StaysAway D D.reads (state_in evac.new) pointer evac.new.book.device why) }
    ensures stuck { IfErr result (λ why. IsStuck D D.writes (state_in evac.old) why) }
{
    core_of(evac).keeps_law();
    if rests(core_of(evac).cell(pointer)) {
        overwrite(evac, pointer, from, bytes);
        return Ok(());
    }
    write_brought(evac, pointer, from, bytes)
}

// The same of an object on which no view may rest where it is. It is cold then, as one that a read brought is.
#[inline(never)]
fn write_brought<D: Device + Drop>(
    evac: &mut Evac<Plain, D>,
    pointer: u16,
    from: u16,
    bytes: &[u8],
) -> Result<(), Refused>
    // a settled heap; the pointer has an object, in which the range lies, and a byte is given
    requires settled { Settled (state_in evac.old) }
    requires used { (state_in evac.old).used pointer ≡ true }
    requires some { 0 < length bytes.now }
    requires inside { from + length bytes.now ≤ len_in (objects_of (state_in evac.old)) pointer }
    requires most { from + length bytes.now ≤ LONGEST }

    // it is settled again, and no round stands where none stood
    ensures settled { Settled (state_in evac.new) }
    ensures idle { evac.old.phase ≡ Idle → evac.new.phase ≡ Idle }

    // done: the range has these bytes, and nothing else has changed
    ensures written { OnOk result (objects_of (state_in evac.new) ≡ with_written pointer from bytes.now (objects_of (state_in evac.old))) }

    // refused: nothing has changed; the object can't be brought to where it may be written; no room, in three logs or more, only as the device refused an object
    ensures refused { OnErr result (objects_of (state_in evac.new) ≡ objects_of (state_in evac.old)) }
    ensures away { IfErr result (λ why. StaysAway D D.reads (state_in evac.new) pointer evac.new.book.device why) }
    ensures stuck { IfErr result (λ why. IsStuck D D.writes (state_in evac.old) why) }
{
    match bring_anew(evac, pointer) {
        Ok(()) => {
            overwrite_cold(evac, pointer, from, bytes);
            Ok(())
        }
        Err(why) => Err(why),
    }
}
