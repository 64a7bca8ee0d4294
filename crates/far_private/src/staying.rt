//! Objects that the device refused in a round. Each stays near, and moves to another log as a hot one does, so that its log
//! is given back.

ghost use Rattle.std.specs.Prelude.{◌≡◌, ◌<◌, true, IfSome};
ghost use Rattle.far_word.specs.Pointer.{read_of};
ghost use Rattle.far_core.specs.state.CoreState.{core_state};
ghost use Rattle.far_word.specs.declared.sizes.TheConstants.{LOG_WORDS};
ghost use Rattle.far_private.specs.Objects.{Settled, state_in};
ghost use Rattle.far_private.specs.Staying.{leaves_from};
ghost use Rattle.far_private.specs.Steps.{Keeps};

use crate::access::heat;
use crate::cells::core_of;
use far_book::Plain;
use far_core::Core;
use far_device::Device;
use far_evac::Evac;
use far_policy::Chosen;
use far_word::{HeadWord, LOG_WORDS, Place, PtrWord, size_of};

/// An object that a round is to deal with next, and where it lies.
#[derive(Clone, Copy)]
struct Next {
    pointer: u16,
    place: Place,
}

/// Has the object that a round deals with next, at a place or behind it, moved instead of sent far: it gets HOT. Answers its
/// place; `None` where it had HOT, since no log has room for it then.
#[inline(never)]
pub(crate) fn keep_near<D: Device + Drop>(
    evac: &mut Evac<Plain, D>,
    chosen: &Chosen,
    from: Place,
) -> Option<Place>
    requires { Settled (state_in evac.old) }
    ensures { Keeps (state_in evac.old) (state_in evac.new) }
{
    let next = next_in(core_of(evac), chosen.as_slice(), from)?;
    if keep(evac, next.pointer) {
        Some(next.place)
    } else {
        None
    }
}

// Sets HOT, unless it is set.
fn keep<D: Device + Drop>(evac: &mut Evac<Plain, D>, pointer: u16) -> bool
    requires { Settled (state_in evac.old) }
    ensures { Keeps (state_in evac.old) (state_in evac.new) }
{
    if !core_of(evac).is_used(pointer) || is_hot(core_of(evac).cell(pointer)) {
        return false;
    }
    heat(evac, pointer);
    true
}

// The first object that is to leave a round's logs, at a place or behind it.
fn next_in(core: &Core, logs: &[u8], from: Place) -> Option<Next>
    ensures { IfSome result (λ next. leaves_from next.place (read_of ((core_state core.now).cell next.pointer)) ≡ true) }
{
    let mut at = from.at;
    let mut passed = false;
    for log in logs {
        passed = passed || *log == from.log;
        if passed {
            match first_in(core, *log, at) {
                Some(next) => return Some(next),
                None => at = 0,
            }
        }
    }
    None
}

// The first object that is to leave a log, at a word where a span begins, or behind it.
fn first_in(core: &Core, log: u8, from: u16) -> Option<Next>
    ensures { IfSome result (λ next. leaves_from next.place (read_of ((core_state core.now).cell next.pointer)) ≡ true) }
{
    if log >= core.logs() {
        return None;
    }
    let mut at = from;
    for _ in 0..LOG_WORDS {
        if at >= LOG_WORDS {
            return None;
        }
        let head = HeadWord::read(core.word(log, at))?;
        let place = Place { log, at };
        if leaves(core.cell(head.pointer), place) {
            return Some(Next {
                pointer: head.pointer,
                place,
            });
        }
        at += size_of(head.len);
    }
    None
}

// Whether a cell says near at a place, with EVAC.
fn leaves(word: u64, from: Place) -> bool
    ensures { result ≡ leaves_from from (read_of word) }
{
    match PtrWord::read(word) {
        Some(PtrWord::Near { place, marks, .. }) => {
            marks.evac && place.log == from.log && place.at == from.at
        }
        _ => false,
    }
}

// Whether a cell has HOT.
fn is_hot(word: u64) -> bool {
    match PtrWord::read(word) {
        Some(PtrWord::Near { marks, .. }) => marks.hot,
        _ => false,
    }
}
