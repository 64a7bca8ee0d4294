//! The bytes of an object that is near, by its place: no view is held.

ghost use Rattle.std.specs.Prelude.{◌≡◌, ◌+◌, ◌≤◌, true, length, slice_range};
ghost use Rattle.far_word.specs.Pointer.{read_of};
ghost use Rattle.far_events.specs.events.Step.{data_len};
ghost use Rattle.far_alone.specs.Dereference.{says_near};
ghost use Rattle.far_alone.specs.Objects.{data_of};
ghost use Rattle.far_private.specs.Objects.{state_in};
ghost use Rattle.far_private.specs.Steps.{SaysAt};

use crate::cells::core_of;
use far_book::Plain;
use far_device::Device;
use far_evac::Evac;
use far_word::{Place, PtrWord};

// Where a cell that says near says that its object lies.
#[inline(always)]
fn place_of(word: u64) -> Place
    requires { says_near (read_of word) ≡ true }
    ensures { SaysAt (read_of word) result }
{
    match PtrWord::known(word) {
        PtrWord::Near { place, .. } => place,
        _ => unreachable!(),
    }
}

/// Copies a range of an object that is near.
#[inline(always)]
pub(crate) fn copy_near<D: Device + Drop>(
    evac: &Evac<Plain, D>,
    pointer: u16,
    from: u16,
    out: &mut [u8],
)
    requires near { says_near (read_of ((state_in evac.now).cell pointer)) ≡ true }
    requires inside { from + length out.old ≤ data_len (state_in evac.now) pointer }
    ensures { out.new ≡ slice_range (data_of (state_in evac.now) pointer) from (from + length out.old) }
{
    let core = core_of(evac);
    let place = place_of(core.cell(pointer));
    core.get_bytes(
        Place {
            log: place.log,
            at: place.at + 1,
        },
        from,
        out,
    );
}
