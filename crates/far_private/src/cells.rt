//! What the cells of a private heap say.

ghost use Rattle.std.specs.Prelude.{◌≡◌, is_some, IsSome};
ghost use Rattle.far_word.specs.Pointer.{read_of};
ghost use Rattle.far_events.specs.events.Pin.{place_to_view};
ghost use Rattle.far_alone.specs.Dereference.{says_near};

use far_book::Plain;
use far_core::Core;
use far_device::Device;
use far_evac::Evac;
use far_word::{PtrWord, resting_place};

/// The core of the heap.
#[inline(always)]
pub(crate) fn core_of<D: Device + Drop>(evac: &Evac<Plain, D>) -> &Core
    ensures { result.now ≡ evac.now.book.near.core }
{
    evac.book().core()
}

/// Whether a cell says near.
#[inline(always)]
pub(crate) fn is_near(word: u64) -> bool
    requires { IsSome (read_of word) }
    ensures { result ≡ says_near (read_of word) }
{
    match PtrWord::known(word) {
        PtrWord::Near { .. } => true,
        _ => false,
    }
}

/// Whether a cell says near, and a view may rest there: its object is neither to leave its log nor dropped.
#[inline(always)]
pub(crate) fn rests(word: u64) -> bool
    requires { IsSome (read_of word) }
    ensures { result ≡ is_some (place_to_view (read_of word)) }
{
    resting_place(word).is_some()
}

/// Whether a cell lacks HOT.
#[inline(always)]
pub(crate) fn is_cold(word: u64) -> bool
    requires { IsSome (read_of word) }
{
    match PtrWord::known(word) {
        PtrWord::Near { marks, .. } => !marks.hot,
        _ => true,
    }
}
