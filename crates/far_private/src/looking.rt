//! What is told of an object by its cell: nothing is fetched, and nothing changes.

ghost use Rattle.std.specs.Prelude.{◌≡◌, true, IsSome, is_some};
ghost use Rattle.far_word.specs.Pointer.{read_of};
ghost use Rattle.far_events.specs.state.Law.{in_use};
ghost use Rattle.far_private.specs.Heap.{size_of, structure_of};
ghost use Rattle.far_private.specs.Looks.{named_structure};
ghost use Rattle.far_private.specs.Objects.{Settled, objects_of, state_in};

use crate::cells::core_of;
use crate::ranges::used_len;
use far_book::Plain;
use far_device::Device;
use far_evac::Evac;
use far_word::PtrWord;

/// Whether a pointer has an object.
pub(crate) fn holds<D: Device + Drop>(evac: &Evac<Plain, D>, pointer: u16) -> bool
    requires settled { Settled (state_in evac.now) }
    ensures { result ≡ is_some ((objects_of (state_in evac.now)).object pointer) }
{
    core_of(evac).is_used(pointer)
}

/// How many bytes the object of a pointer has, 1 to 4,088; `None` where it has none.
pub(crate) fn len_of<D: Device + Drop>(evac: &Evac<Plain, D>, pointer: u16) -> Option<u16>
    requires settled { Settled (state_in evac.now) }
    ensures { result ≡ size_of ((objects_of (state_in evac.now)).object pointer) }
{
    if !core_of(evac).is_used(pointer) {
        return None;
    }
    Some(used_len(evac, pointer))
}

/// Of which data structure the object of a pointer is; `None` where it has none.
pub(crate) fn structure_of<D: Device + Drop>(evac: &Evac<Plain, D>, pointer: u16) -> Option<u8>
    requires settled { Settled (state_in evac.now) }
    ensures { result ≡ structure_of ((objects_of (state_in evac.now)).object pointer) }
{
    if !core_of(evac).is_used(pointer) {
        return None;
    }
    Some(structure_said(core_of(evac).cell(pointer)))
}

// The data structure that the cell of a used pointer names.
fn structure_said(word: u64) -> u8
    requires some { IsSome (read_of word) }
    requires used { in_use (read_of word) ≡ true }
    ensures { result ≡ named_structure (read_of word) }
{
    match PtrWord::known(word) {
        PtrWord::Near { ds, .. } => ds,
        PtrWord::Far { ds, .. } => ds,
        PtrWord::Free => unreachable!(),
    }
}
