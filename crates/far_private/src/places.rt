//! Objects come and go.

ghost use Rattle.std.specs.Prelude.{◌≡◌, ◌≢◌, ◌≤◌, ◌<◌, ◌/◌, ℕ, true, false, length, None, IfOk, IfErr, OnErr, MatchOption};
ghost use Rattle.far_word.specs.declared.sizes.TheConstants.{CELLS, LONGEST};
ghost use Rattle.far_word.specs.Sizes.{size_of};
ghost use Rattle.far_core.specs.state.Room.{room};
ghost use Rattle.far_evac.specs.declared.phase.Phase.TheVariants.{Idle};
ghost use Rattle.far_private.specs.Causes.{IsStuck, IsWant};
ghost use Rattle.far_private.specs.Objects.{IsFree, IsFull, Settled, objects_of, state_in, with_filled, with_new, without};
ghost use Rattle.far_private.specs.FreePointers.{IsKept};

use crate::budget::Rounds;
use crate::free_pointers::FreePointers;
use crate::last::{last_round, told};
use far_book::Plain;
use far_device::Device;
use far_evac::Evac;
use far_word::{CELLS, Mark, Refused};

/// The lowest pointer that is free; `None` only where none is.
#[inline(always)]
pub(crate) fn free_pointer<D: Device + Drop>(
    evac: &Evac<Plain, D>,
    free: &FreePointers,
) -> Option<u16>
    requires kept { IsKept (state_in evac.now) free.now }
    ensures { MatchOption result (IsFull (state_in evac.now)) (λ p. IsFree (state_in evac.now) p) }
{
    let _ = evac;
    free.lowest()
}

/// Places a new object of zeros, making rounds where there is no room for it.
#[inline(always)]
pub(crate) fn place_new<D: Device + Drop>(
    evac: &mut Evac<Plain, D>,
    pointer: u16,
    len: u16,
    structure: u8,
) -> Result<(), Refused>
    // a settled heap; the pointer's cell is free, and the length is one that an object may have
    requires settled { Settled (state_in evac.old) }
    requires free { (state_in evac.old).cell pointer ≡ 0 }
    requires pointer { pointer < 2048 }
    requires some { 0 < len }
    requires most { len ≤ LONGEST }

    // it is settled again; done: the pointer has a new object of so many zeros and of this data structure, and no other has changed
    ensures settled { Settled (state_in evac.new) }
    ensures made { IfOk result (λ _. objects_of (state_in evac.new) ≡ with_new pointer len structure (objects_of (state_in evac.old))) }

    // refused: no object has changed; there is no room, in three logs or more only as the device refused an object, or it is `EpochsSpent`
    ensures refused { OnErr result (objects_of (state_in evac.new) ≡ objects_of (state_in evac.old)) }
    ensures why { IfErr result (λ why. IsWant why) }
    ensures stuck { IfErr result (λ why. IsStuck D D.writes (state_in evac.old) why) }

    // no round stands where none stood
    ensures idle { evac.old.phase ≡ Idle → evac.new.phase ≡ Idle }
{
    place_filled(evac, pointer, len, &[], structure)
}

/// Places a new object whose first bytes are given, and the others 0, making rounds where there is no room for it.
#[inline(always)]
pub(crate) fn place_filled<D: Device + Drop>(
    evac: &mut Evac<Plain, D>,
    pointer: u16,
    len: u16,
    bytes: &[u8],
    structure: u8,
) -> Result<(), Refused>
    // a settled heap; the pointer's cell is free, the length is one that an object may have, and the bytes are no more than that
    requires settled { Settled (state_in evac.old) }
    requires free { (state_in evac.old).cell pointer ≡ 0 }
    requires pointer { pointer < 2048 }
    requires some { 0 < len }
    requires most { len ≤ LONGEST }
    requires front { length bytes.now ≤ len }

    // it is settled again; done: the pointer has a new object of this length and data structure, with these bytes and 0 behind them, and no other has changed
    ensures settled { Settled (state_in evac.new) }
    ensures made { IfOk result (λ _. objects_of (state_in evac.new) ≡ with_filled pointer len structure bytes.now (objects_of (state_in evac.old))) }

    // refused: no object has changed; there is no room, in three logs or more only as the device refused an object, or it is `EpochsSpent`
    ensures refused { OnErr result (objects_of (state_in evac.new) ≡ objects_of (state_in evac.old)) }
    ensures why { IfErr result (λ why. IsWant why) }
    ensures stuck { IfErr result (λ why. IsStuck D D.writes (state_in evac.old) why) }

    // no round stands where none stood
    ensures idle { evac.old.phase ≡ Idle → evac.new.phase ≡ Idle }
{
    if place_now(evac, pointer, len, bytes, structure) {
        return Ok(());
    }
    place_by_rounds(evac, pointer, len, bytes, structure)
}

// The same, where there may be no room yet.
#[inline(never)]
fn place_by_rounds<D: Device + Drop>(
    evac: &mut Evac<Plain, D>,
    pointer: u16,
    len: u16,
    bytes: &[u8],
    structure: u8,
) -> Result<(), Refused>
    // a settled heap; the pointer's cell is free, the length is one that an object may have, and the bytes are no more than that
    requires settled { Settled (state_in evac.old) }
    requires free { (state_in evac.old).cell pointer ≡ 0 }
    requires pointer { pointer < 2048 }
    requires some { 0 < len }
    requires most { len ≤ LONGEST }
    requires front { length bytes.now ≤ len }

    // it is settled again; done: the pointer has a new object of this length and data structure, with these bytes and 0 behind them, and no other has changed
    ensures settled { Settled (state_in evac.new) }
    ensures made { IfOk result (λ _. objects_of (state_in evac.new) ≡ with_filled pointer len structure bytes.now (objects_of (state_in evac.old))) }

    // refused: no object has changed; there is no room, in three logs or more only as the device refused an object, or it is `EpochsSpent`
    ensures refused { OnErr result (objects_of (state_in evac.new) ≡ objects_of (state_in evac.old)) }
    ensures why { IfErr result (λ why. IsWant why) }
    ensures stuck { IfErr result (λ why. IsStuck D D.writes (state_in evac.old) why) }

    // no round stands where none stood
    ensures idle { evac.old.phase ≡ Idle → evac.new.phase ≡ Idle }
{
    let mut rounds = Rounds::new(evac);
    while !place_now(evac, pointer, len, bytes, structure) {
        if !rounds.make(evac) {
            return place_last(evac, pointer, len, bytes, structure);
        }
    }
    Ok(())
}

// The same after one more round, the last.
fn place_last<D: Device + Drop>(
    evac: &mut Evac<Plain, D>,
    pointer: u16,
    len: u16,
    bytes: &[u8],
    structure: u8,
) -> Result<(), Refused>
    // a settled heap; the pointer's cell is free, the length is one that an object may have, and the bytes are no more than that
    requires settled { Settled (state_in evac.old) }
    requires free { (state_in evac.old).cell pointer ≡ 0 }
    requires pointer { pointer < 2048 }
    requires some { 0 < len }
    requires most { len ≤ LONGEST }
    requires front { length bytes.now ≤ len }

    // it is settled again; done: the pointer has a new object of this length and data structure, with these bytes and 0 behind them, and no other has changed
    ensures settled { Settled (state_in evac.new) }
    ensures made { IfOk result (λ _. objects_of (state_in evac.new) ≡ with_filled pointer len structure bytes.now (objects_of (state_in evac.old))) }

    // refused: no object has changed; there is no room, in three logs or more only as the device refused an object, or it is `EpochsSpent`
    ensures refused { OnErr result (objects_of (state_in evac.new) ≡ objects_of (state_in evac.old)) }
    ensures why { IfErr result (λ why. IsWant why) }
    ensures stuck { IfErr result (λ why. IsStuck D D.writes (state_in evac.old) why) }

    // no round stands where none stood
    ensures idle { evac.old.phase ≡ Idle → evac.new.phase ≡ Idle }
{
    let made = last_round(evac);
    if place_now(evac, pointer, len, bytes, structure) {
        return Ok(());
    }
    Err(told(Refused::NoRoom, made))
}

// Places a new object whose first bytes are given, if there is room.
#[inline(always)]
fn place_now<D: Device + Drop>(
    evac: &mut Evac<Plain, D>,
    pointer: u16,
    len: u16,
    bytes: &[u8],
    structure: u8,
) -> bool
    // a settled heap; the pointer's cell is free, the length is one that an object may have, and the bytes are no more than that
    requires settled { Settled (state_in evac.old) }
    requires free { (state_in evac.old).cell pointer ≡ 0 }
    requires pointer { pointer < 2048 }
    requires some { 0 < len }
    requires most { len ≤ LONGEST }
    requires front { length bytes.now ≤ len }

    // true: the pointer has a new object of this length and data structure, with these bytes and 0 behind them, and no other has changed
    ensures settled { result ≡ true → Settled (state_in evac.new) }
    ensures made { result ≡ true → objects_of (state_in evac.new) ≡ with_filled pointer len structure bytes.now (objects_of (state_in evac.old)) }

    // false: nothing at all has changed, and there is no room for the object
    ensures refused { result ≡ false → state_in evac.new ≡ state_in evac.old }
    ensures none { result ≡ false → room (state_in evac.new) (size_of len) true ≡ None }

    // no round stands where none stood
    ensures idle { evac.old.phase ≡ Idle → evac.new.phase ≡ Idle }
{
    let owner = (pointer / CELLS) as u8;
    match evac.place_with(owner, pointer, len, structure, bytes) {
        Ok(_) => true,
        Err(_) => false,
    }
}

/// Drops an object.
pub(crate) fn drop_used<D: Device + Drop>(evac: &mut Evac<Plain, D>, pointer: u16)
    requires settled { Settled (state_in evac.old) }
    requires used { (state_in evac.old).used pointer ≡ true }
    ensures settled { Settled (state_in evac.new) }
    ensures dropped { objects_of (state_in evac.new) ≡ without pointer (objects_of (state_in evac.old)) }
    ensures idle { evac.old.phase ≡ Idle → evac.new.phase ≡ Idle }
{
    let owner = (pointer / CELLS) as u8;
    evac.ask(owner, pointer, Mark::Dropped);
    evac.retire(pointer);
}
