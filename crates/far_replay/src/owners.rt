//! What the interpreter asks of the heap: owners, pointers, the core; and an owner's event.

ghost use Rattle.std.specs.Prelude.{◌≡◌, ◌<◌, ◌≤◌, ◌/◌, true, false, IfSome, IfNone};
ghost use Rattle.far_word.specs.declared.sizes.TheConstants.{CELLS};
ghost use Rattle.far_book.specs.book.Ledger.{IsLowestFree};
ghost use Rattle.far_events.specs.events.Legal.{Legal};
ghost use Rattle.far_events.specs.events.Step.{after, answer, step_of};
ghost use Rattle.far_hand.specs.Makers.{is_owners};
ghost use Rattle.far_evac.specs.MomentLaw.{MomentLaw};
ghost use Rattle.far_replay.specs.Moment.{KeepsRound, moment_in, state_in};
ghost use Rattle.far_alone.specs.Objects.{uses};

use far_book::Plain;
use far_core::{Core, Event, Reply};
use far_device::{FailAt, Liar, MemDevice};
use far_evac::Evac;
use far_word::CELLS;

/// The far side of the heap: one call of it may fail, and one read may be a lie.
pub type FarSide = Liar<FailAt<MemDevice>>;

/// The core of the heap.
#[inline(always)]
pub fn core_of(evac: &Evac<Plain, FarSide>) -> &Core
    ensures { result.now ≡ evac.now.book.near.core }
{
    evac.book().core()
}

/// The law of the round holds, and nothing is copied beside. Called in place of `Evac`'s own, as is `make_event`: each function that
/// calls what is generic in its far side is dear to prove.
#[inline(always)]
pub fn keeps_law(evac: &Evac<Plain, FarSide>)
    ensures moment { MomentLaw (moment_in evac.now) }
    ensures exact { evac.now.copying ≡ false }
{
    evac.keeps_law();
}

/// Makes an owner's event.
#[inline(always)]
pub fn make_event(evac: &mut Evac<Plain, FarSide>, event: Event) -> Reply
    ensures made { is_owners event ≡ true → (state_in evac.new, result) ≡ step_of (state_in evac.old) event }
    ensures legal { is_owners event ≡ true → Legal (state_in evac.old) event →
        (state_in evac.new ≡ after (state_in evac.old) event) × (result ≡ answer (state_in evac.old) event) }
    ensures order { evac.new.book.order ≡ evac.old.book.order }
    ensures device { evac.new.book.device ≡ evac.old.book.device }
    ensures round { KeepsRound evac.old evac.new }
{
    evac.owner(event)
}

/// The lowest free cell of an owner; `None` where it uses all of them.
pub fn free_cell(evac: &Evac<Plain, FarSide>, owner: u8) -> Option<u16>
    requires owner { owner < (state_in evac.now).mutators }
    ensures { IsLowestFree (state_in evac.now) owner result }
{
    evac.book().free_cell(owner)
}

/// The owner that a line's number of a mutator is, if the heap has it.
pub fn owner_of(evac: &Evac<Plain, FarSide>, mutator: u64) -> Option<u8>
    ensures owner { IfSome result (λ owner. (owner ≡ mutator) × (mutator < (state_in evac.now).mutators)) }
    ensures unknown { IfNone result ((state_in evac.now).mutators ≤ mutator) }
{
    if mutator < u64::from(core_of(evac).mutators()) {
        return Some(mutator as u8);
    }
    None
}

/// The pointer that a number is, if the owner uses it.
pub fn own_pointer(evac: &Evac<Plain, FarSide>, owner: u8, pointer: u64) -> Option<u16>
    requires owner { owner < (state_in evac.now).mutators }
    ensures own { IfSome result (λ p. (p ≡ pointer) × (pointer / CELLS ≡ owner) × ((state_in evac.now).used pointer ≡ true)) }
    ensures other { IfNone result (uses (state_in evac.now) owner pointer ≡ false) }
{
    if pointer / u64::from(CELLS) != u64::from(owner) || !core_of(evac).is_used(pointer as u16) {
        return None;
    }
    Some(pointer as u16)
}
