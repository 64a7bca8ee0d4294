//! What owners do to objects: each access is a scope of its own, which is closed again.

ghost use Rattle.std.specs.Prelude.{◌≡◌, ◌+◌, ◌<◌, ◌≤◌, true, length, IsSome};
ghost use Rattle.far_word.specs.declared.sizes.TheConstants.{LONGEST};
ghost use Rattle.far_word.specs.Pointer.{read_of};
ghost use Rattle.far_events.specs.events.Pin.{place_to_view};
ghost use Rattle.far_evac.specs.declared.phase.Phase.TheVariants.{Idle};
ghost use Rattle.far_private.specs.Objects.{Settled, len_in, objects_of, state_in, with_written};
ghost use Rattle.far_private.specs.Steps.{Keeps};

use crate::cells::{core_of, is_cold};
use far_book::Plain;
use far_device::Device;
use far_evac::Evac;
use far_word::CELLS;

/// Has a pointer's object HOT, unless it is so.
#[inline(always)]
pub(crate) fn warm<D: Device + Drop>(evac: &mut Evac<Plain, D>, pointer: u16)
    requires settled { Settled (state_in evac.old) }
    requires used { (state_in evac.old).used pointer ≡ true }
    ensures keeps { Keeps (state_in evac.old) (state_in evac.new) }
    ensures idle { evac.old.phase ≡ Idle → evac.new.phase ≡ Idle }
{
    core_of(evac).keeps_law();
    if is_cold(core_of(evac).cell(pointer)) {
        heat(evac, pointer);
    }
}

/// Sets HOT.
pub(crate) fn heat<D: Device + Drop>(evac: &mut Evac<Plain, D>, pointer: u16)
    requires settled { Settled (state_in evac.old) }
    requires used { (state_in evac.old).used pointer ≡ true }
    ensures keeps { Keeps (state_in evac.old) (state_in evac.new) }
    ensures idle { evac.old.phase ≡ Idle → evac.new.phase ≡ Idle }
{
    evac.heat((pointer / CELLS) as u8, pointer);
}

/// Takes HOT from an object on which a view may rest.
pub(crate) fn cool<D: Device + Drop>(evac: &mut Evac<Plain, D>, pointer: u16)
    requires settled { Settled (state_in evac.old) }
    requires used { (state_in evac.old).used pointer ≡ true }
    requires rests { IsSome (place_to_view (read_of ((state_in evac.old).cell pointer))) }
    ensures keeps { Keeps (state_in evac.old) (state_in evac.new) }
    ensures idle { evac.old.phase ≡ Idle → evac.new.phase ≡ Idle }
{
    evac.cool((pointer / CELLS) as u8, pointer);
}

/// Writes bytes over a range of an object on which a view may rest. It has HOT then.
#[inline(always)]
pub(crate) fn overwrite<D: Device + Drop>(
    evac: &mut Evac<Plain, D>,
    pointer: u16,
    from: u16,
    bytes: &[u8],
)
    // a settled heap; the object is in use and lies where a view may rest, and the range, one byte or more, lies within it
    requires settled { Settled (state_in evac.old) }
    requires used { (state_in evac.old).used pointer ≡ true }
    requires rests { IsSome (place_to_view (read_of ((state_in evac.old).cell pointer))) }
    requires some { 0 < length bytes.now }
    requires inside { from + length bytes.now ≤ len_in (objects_of (state_in evac.old)) pointer }
    requires most { from + length bytes.now ≤ LONGEST }

    // it is settled again; the range has these bytes, and callers see no other change; the object is in use and lies where a view may rest, as before
    ensures settled { Settled (state_in evac.new) }
    ensures written { objects_of (state_in evac.new) ≡ with_written pointer from bytes.now (objects_of (state_in evac.old)) }
    ensures used { (state_in evac.new).used pointer ≡ true }
    ensures rests { IsSome (place_to_view (read_of ((state_in evac.new).cell pointer))) }

    // no round stands where none stood
    ensures idle { evac.old.phase ≡ Idle → evac.new.phase ≡ Idle }
{
    evac.write_over((pointer / CELLS) as u8, pointer, from, bytes);
}

/// The same, and it has no HOT then.
pub(crate) fn overwrite_cold<D: Device + Drop>(
    evac: &mut Evac<Plain, D>,
    pointer: u16,
    from: u16,
    bytes: &[u8],
)
    requires settled { Settled (state_in evac.old) }
    requires used { (state_in evac.old).used pointer ≡ true }
    requires rests { IsSome (place_to_view (read_of ((state_in evac.old).cell pointer))) }
    requires some { 0 < length bytes.now }
    requires inside { from + length bytes.now ≤ len_in (objects_of (state_in evac.old)) pointer }
    requires most { from + length bytes.now ≤ LONGEST }
    ensures settled { Settled (state_in evac.new) }
    ensures written { objects_of (state_in evac.new) ≡ with_written pointer from bytes.now (objects_of (state_in evac.old)) }
    ensures idle { evac.old.phase ≡ Idle → evac.new.phase ≡ Idle }
{
    overwrite(evac, pointer, from, bytes);
    cool(evac, pointer);
}
