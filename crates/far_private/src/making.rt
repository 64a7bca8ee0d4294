//! New objects of bytes that are given.

ghost use Rattle.std.specs.Prelude.{◌≡◌, ◌≤◌, ◌<◌, length, IfOk, IfErr, OnErr};
ghost use Rattle.far_word.specs.declared.sizes.TheConstants.{LONGEST};
ghost use Rattle.far_evac.specs.declared.phase.Phase.TheVariants.{Idle};
ghost use Rattle.far_private.specs.Causes.{IsStuck, IsWant};
ghost use Rattle.far_private.specs.Looks.{with_made};
ghost use Rattle.far_private.specs.Objects.{Settled, objects_of, state_in};

use crate::places::place_filled;
use far_book::Plain;
use far_device::Device;
use far_evac::Evac;
use far_word::Refused;

/// Places a new object of these bytes, making rounds where there is no room for it. Nothing has changed where it is refused.
#[inline(always)]
pub(crate) fn place_with<D: Device + Drop>(
    evac: &mut Evac<Plain, D>,
    pointer: u16,
    bytes: &[u8],
    structure: u8,
) -> Result<(), Refused>
    // a settled heap; the pointer's cell is free, and the bytes are as many as an object may have
    requires settled { Settled (state_in evac.old) }
    requires free { (state_in evac.old).cell pointer ≡ 0 }
    requires pointer { pointer < 2048 }
    requires some { 0 < length bytes.now }
    requires most { length bytes.now ≤ LONGEST }

    // it is settled again; done: the pointer has a new object of these bytes and this data structure, and no other has changed
    ensures settled { Settled (state_in evac.new) }
    ensures made { IfOk result (λ _. objects_of (state_in evac.new) ≡ with_made pointer structure bytes.now (objects_of (state_in evac.old))) }

    // refused: no object has changed; there is no room, in three logs or more only as the device refused an object, or it is `EpochsSpent`
    ensures refused { OnErr result (objects_of (state_in evac.new) ≡ objects_of (state_in evac.old)) }
    ensures why { IfErr result (λ why. IsWant why) }
    ensures stuck { IfErr result (λ why. IsStuck D D.writes (state_in evac.old) why) }

    // no round stands where none stood
    ensures idle { evac.old.phase ≡ Idle → evac.new.phase ≡ Idle }
{
    place_filled(evac, pointer, bytes.len() as u16, bytes, structure)
}
