//! How an object comes to where it may be read and written.

ghost use Rattle.std.specs.Prelude.{◌≡◌, ◌≢◌, ◌≤◌, true, false, length, IsSome, IfErr, OnOk};
ghost use Rattle.far_word.specs.declared.refused.Refused.TheVariants.{NoRoom as no_room};
ghost use Rattle.far_word.specs.Pointer.{read_of};
ghost use Rattle.far_events.specs.events.Pin.{place_to_view};
ghost use Rattle.far_core.specs.state.Room.{free_logs};
ghost use Rattle.far_alone.specs.Dereference.{says_near};
ghost use Rattle.far_evac.specs.declared.phase.Phase.TheVariants.{Idle};
ghost use Rattle.far_private.specs.Causes.{IsCrowded, IsStuck, StaysAway, StaysFar};
ghost use Rattle.far_private.specs.Objects.{Settled, state_in};
ghost use Rattle.far_private.specs.Steps.{Keeps};

use crate::budget::Rounds;
use crate::cells::{core_of, is_near, rests};
use crate::last::{last_round, told};
use far_book::Plain;
use far_device::Device;
use far_evac::Evac;
use far_word::{CELLS, Mark, Refused};

/// Has an object where a view may rest, making rounds where there is no room for it.
#[inline(always)]
pub(crate) fn bring_to_rest<D: Device + Drop>(
    evac: &mut Evac<Plain, D>,
    pointer: u16,
) -> Result<(), Refused>
    requires settled { Settled (state_in evac.old) }
    requires used { (state_in evac.old).used pointer ≡ true }
    ensures keeps { Keeps (state_in evac.old) (state_in evac.new) }
    ensures rests { OnOk result (IsSome (place_to_view (read_of ((state_in evac.new).cell pointer)))) }
    ensures away { IfErr result (λ why. StaysAway D D.reads (state_in evac.new) pointer evac.new.book.device why) }
    ensures stuck { IfErr result (λ why. IsStuck D D.writes (state_in evac.old) why) }
    ensures idle { evac.old.phase ≡ Idle → evac.new.phase ≡ Idle }
{
    core_of(evac).keeps_law();
    if rests(core_of(evac).cell(pointer)) {
        return Ok(());
    }
    bring_anew(evac, pointer)
}

/// The same of one on which none may rest where it is.
#[inline(never)]
pub(crate) fn bring_anew<D: Device + Drop>(
    evac: &mut Evac<Plain, D>,
    pointer: u16,
) -> Result<(), Refused>
    requires settled { Settled (state_in evac.old) }
    requires used { (state_in evac.old).used pointer ≡ true }
    ensures keeps { Keeps (state_in evac.old) (state_in evac.new) }
    ensures rests { OnOk result (IsSome (place_to_view (read_of ((state_in evac.new).cell pointer)))) }
    ensures away { IfErr result (λ why. StaysAway D D.reads (state_in evac.new) pointer evac.new.book.device why) }
    ensures stuck { IfErr result (λ why. IsStuck D D.writes (state_in evac.old) why) }
    ensures idle { evac.old.phase ≡ Idle → evac.new.phase ≡ Idle }
{
    match bring(evac, pointer) {
        Err(Refused::NoRoom) => bring_again(evac, pointer),
        answer => answer,
    }
}

// The same once it was refused.
#[inline(never)]
fn bring_again<D: Device + Drop>(evac: &mut Evac<Plain, D>, pointer: u16) -> Result<(), Refused>
    requires settled { Settled (state_in evac.old) }
    requires used { (state_in evac.old).used pointer ≡ true }
    requires away { StaysAway D D.reads (state_in evac.old) pointer evac.old.book.device no_room }
    ensures keeps { Keeps (state_in evac.old) (state_in evac.new) }
    ensures rests { OnOk result (IsSome (place_to_view (read_of ((state_in evac.new).cell pointer)))) }
    ensures away { IfErr result (λ why. StaysAway D D.reads (state_in evac.new) pointer evac.new.book.device why) }
    ensures stuck { IfErr result (λ why. IsStuck D D.writes (state_in evac.old) why) }
    ensures idle { evac.old.phase ≡ Idle → evac.new.phase ≡ Idle }
{
    let mut rounds = Rounds::new(evac);
    while rounds.make(evac) {
        match bring(evac, pointer) {
            Err(Refused::NoRoom) => {}
            answer => return answer,
        }
    }
    bring_last(evac, pointer)
}

// The same after one more round, the last.
fn bring_last<D: Device + Drop>(evac: &mut Evac<Plain, D>, pointer: u16) -> Result<(), Refused>
    requires settled { Settled (state_in evac.old) }
    requires used { (state_in evac.old).used pointer ≡ true }
    ensures keeps { Keeps (state_in evac.old) (state_in evac.new) }
    ensures rests { OnOk result (IsSome (place_to_view (read_of ((state_in evac.new).cell pointer)))) }
    ensures away { IfErr result (λ why. StaysAway D D.reads (state_in evac.new) pointer evac.new.book.device why) }
    ensures stuck { IfErr result (λ why. IsStuck D D.writes (state_in evac.old) why) }
    ensures idle { evac.old.phase ≡ Idle → evac.new.phase ≡ Idle }
{
    let made = last_round(evac);
    match bring(evac, pointer) {
        Ok(()) => Ok(()),
        Err(why) => Err(told(why, made)),
    }
}

// Brings an object to where a view may rest, without a round.
fn bring<D: Device + Drop>(evac: &mut Evac<Plain, D>, pointer: u16) -> Result<(), Refused>
    requires settled { Settled (state_in evac.old) }
    requires used { (state_in evac.old).used pointer ≡ true }
    ensures keeps { Keeps (state_in evac.old) (state_in evac.new) }
    ensures rests { OnOk result (IsSome (place_to_view (read_of ((state_in evac.new).cell pointer)))) }
    ensures away { IfErr result (λ why. StaysAway D D.reads (state_in evac.new) pointer evac.new.book.device why) }
    ensures roomy { 2 ≤ length (free_logs (state_in evac.old)) → IfErr result (λ why. why ≢ no_room) }
    ensures idle { evac.old.phase ≡ Idle → evac.new.phase ≡ Idle }
{
    let core = core_of(evac);
    core.keeps_law();
    if is_near(core.cell(pointer)) {
        move_near(evac, pointer)
    } else {
        fetch_far(evac, pointer)
    }
}

// Has a near object moved, or its marks taken where it lies.
fn move_near<D: Device + Drop>(evac: &mut Evac<Plain, D>, pointer: u16) -> Result<(), Refused>
    requires settled { Settled (state_in evac.old) }
    requires used { (state_in evac.old).used pointer ≡ true }
    requires near { says_near (read_of ((state_in evac.old).cell pointer)) ≡ true }
    ensures keeps { Keeps (state_in evac.old) (state_in evac.new) }
    ensures rests { OnOk result (IsSome (place_to_view (read_of ((state_in evac.new).cell pointer)))) }
    ensures crowded { IfErr result (λ why. IsCrowded (state_in evac.new) pointer why) }
    ensures roomy { 2 ≤ length (free_logs (state_in evac.old)) → IfErr result (λ why. why ≢ no_room) }
    ensures idle { evac.old.phase ≡ Idle → evac.new.phase ≡ Idle }
{
    evac.ask((pointer / CELLS) as u8, pointer, Mark::Moved);
    match evac.move_now(pointer) {
        Ok(Some(_)) => Ok(()),
        Ok(None) => unreachable!(),
        Err(why) => Err(why),
    }
}

/// Has a far object fetched.
pub(crate) fn fetch_far<D: Device + Drop>(
    evac: &mut Evac<Plain, D>,
    pointer: u16,
) -> Result<(), Refused>
    requires used { (state_in evac.old).used pointer ≡ true }
    requires far { says_near (read_of ((state_in evac.old).cell pointer)) ≡ false }
    ensures keeps { Keeps (state_in evac.old) (state_in evac.new) }
    ensures rests { OnOk result (IsSome (place_to_view (read_of ((state_in evac.new).cell pointer)))) }
    ensures near { OnOk result (says_near (read_of ((state_in evac.new).cell pointer)) ≡ true) }
    ensures far { IfErr result (λ why. StaysFar D D.reads (state_in evac.new) pointer evac.new.book.device why) }
    ensures roomy { 2 ≤ length (free_logs (state_in evac.old)) → IfErr result (λ why. why ≢ no_room) }
    ensures idle { evac.old.phase ≡ Idle → evac.new.phase ≡ Idle }
{
    evac.book().keeps_law();
    match evac.fetch(pointer) {
        Ok(Some(_)) => Ok(()),
        Ok(None) => unreachable!(),
        Err(why) => Err(why),
    }
}
