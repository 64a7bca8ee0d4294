//! The last round of a call that found no room: nothing is hot in it, and it ends where the device refuses a write.

ghost use Rattle.std.specs.Prelude.{◌≡◌, ◌≢◌, ◌≤◌, ◌<◌, ℕ, true, false, length, take, IfErr, OnOk, Contains};
ghost use Rattle.far_word.specs.Pointer.{read_of};
ghost use Rattle.far_word.specs.declared.refused.Refused.TheVariants.{EpochsSpent};
ghost use Rattle.far_core.specs.state.Room.{free_logs};
ghost use Rattle.far_evac.specs.declared.phase.Phase.TheVariants.{Evacuating, Idle, Marking, Waiting};
ghost use Rattle.far_private.specs.Causes.{IsStuck, IsWant, told};
ghost use Rattle.far_private.specs.LastRound.{AreEmptied, IsBare, IsCold, IsCooled, SameLogs, may_cool};
ghost use Rattle.far_private.specs.Objects.{Settled, state_in};
ghost use Rattle.far_private.specs.Steps.{Keeps};

use crate::cells::core_of;
use crate::freeing::end_round;
use far_book::Plain;
use far_device::Device;
use far_evac::Evac;
use far_policy::Oldest;
use far_word::{CELLS, Mark, POINTERS, PtrWord, Refused};

/// So many logs the last round empties.
const LOGS: usize = 2;

/// Of fewer logs none is ever given back.
const FEWEST: u8 = 3;

/// More objects than a heap's logs have.
const ALL: u64 = 65_536;

/// Makes the last round of a call: the two oldest logs, of which nothing moves. They are free then, unless the device refuses a write, or
/// there is no later epoch.
#[inline(never)]
pub(crate) fn last_round<D: Device + Drop>(evac: &mut Evac<Plain, D>) -> Result<(), Refused>
    requires settled { Settled (state_in evac.old) }
    ensures keeps { Keeps (state_in evac.old) (state_in evac.new) }
    ensures room { OnOk result (2 ≤ length (free_logs (state_in evac.new))) }
    ensures want { IfErr result (λ why. IsWant why) }
    ensures stuck { IfErr result (λ why. IsStuck D D.writes (state_in evac.old) why) }
    ensures idle { evac.old.phase ≡ Idle → evac.new.phase ≡ Idle }
{
    if has_few(evac) {
        return Err(Refused::NoRoom);
    }
    end_round(evac);
    match unmark_oldest(evac) {
        Ok(()) => {
            cool_all(evac);
            send_off(evac)
        }
        Err(why) => Err(why),
    }
}

// Whether a heap has so few logs that none is ever given back.
fn has_few<D: Device + Drop>(evac: &Evac<Plain, D>) -> bool
    ensures few { result ≡ true → (state_in evac.now).logs < 3 }
    ensures many { result ≡ false → 3 ≤ (state_in evac.now).logs }
{
    core_of(evac).logs() < FEWEST
}

/// What a call that was refused answers, by what its last round came to.
pub(crate) fn told(found: Refused, made: Result<(), Refused>) -> Refused
    ensures { result ≡ told found made }
{
    match (found, made) {
        (Refused::NoRoom, Err(last)) => last,
        _ => found,
    }
}

// Takes EVAC from what lies in the two oldest logs.
fn unmark_oldest<D: Device + Drop>(evac: &mut Evac<Plain, D>) -> Result<(), Refused>
    requires idle { evac.old.phase ≡ Idle }
    ensures keeps { Keeps (state_in evac.old) (state_in evac.new) }
    ensures idle { evac.new.phase ≡ Idle }
    ensures order { evac.new.book.order ≡ evac.old.book.order }
    ensures logs { SameLogs (state_in evac.old) (state_in evac.new) }
    ensures bare { OnOk result (IsBare (state_in evac.new) (take 2 evac.new.book.order)) }
    ensures spent { IfErr result (λ why. why ≡ EpochsSpent) }
{
    evac.keeps_law();
    match evac.select(&mut Oldest, LOGS) {
        Ok(_) => {
            evac.keeps_law();
            let _ = evac.abort();
            Ok(())
        }
        Err(why) => Err(why),
    }
}

// Takes HOT from all that lies in the two oldest logs.
fn cool_all<D: Device + Drop>(evac: &mut Evac<Plain, D>)
    requires settled { Settled (state_in evac.old) }
    requires bare { IsBare (state_in evac.old) (take 2 evac.old.book.order) }
    ensures keeps { Keeps (state_in evac.old) (state_in evac.new) }
    ensures phase { evac.new.phase ≡ evac.old.phase }
    ensures order { evac.new.book.order ≡ evac.old.book.order }
    ensures logs { SameLogs (state_in evac.old) (state_in evac.new) }
    ensures cold { IsCold (state_in evac.new) (take 2 evac.new.book.order) }
{
    for pointer in 0..POINTERS {
        cool_one(evac, pointer);
    }
}

// Takes HOT from an object that lies near, if it has no EVAC.
fn cool_one<D: Device + Drop>(evac: &mut Evac<Plain, D>, pointer: u16)
    requires settled { Settled (state_in evac.old) }
    ensures keeps { Keeps (state_in evac.old) (state_in evac.new) }
    ensures phase { evac.new.phase ≡ evac.old.phase }
    ensures order { evac.new.book.order ≡ evac.old.book.order }
    ensures cooled { IsCooled (state_in evac.old) pointer (state_in evac.new) }
{
    if is_hot(evac, pointer) {
        calm(evac, pointer);
    }
}

// Whether a pointer is used, and its cell has HOT and no EVAC.
fn is_hot<D: Device + Drop>(evac: &Evac<Plain, D>, pointer: u16) -> bool
    ensures used { result ≡ true → (state_in evac.now).used pointer ≡ true }
    ensures hot { result ≡ true → may_cool (read_of ((state_in evac.now).cell pointer)) ≡ true }
    ensures cold { result ≡ false → (state_in evac.now).used pointer ≡ true → may_cool (read_of ((state_in evac.now).cell pointer)) ≡ false }
{
    let core = core_of(evac);
    if !core.is_used(pointer) {
        return false;
    }
    may_cool(core.cell(pointer))
}

// Whether a cell says near, with HOT and without EVAC.
fn may_cool(word: u64) -> bool
    ensures { result ≡ may_cool (read_of word) }
{
    match PtrWord::read(word) {
        Some(PtrWord::Near { marks, .. }) => marks.hot && !marks.evac,
        _ => false,
    }
}

// Takes the marks but DIRTY from a near object that has no EVAC.
fn calm<D: Device + Drop>(evac: &mut Evac<Plain, D>, pointer: u16)
    requires settled { Settled (state_in evac.old) }
    requires used { (state_in evac.old).used pointer ≡ true }
    requires hot { may_cool (read_of ((state_in evac.old).cell pointer)) ≡ true }
    ensures keeps { Keeps (state_in evac.old) (state_in evac.new) }
    ensures phase { evac.new.phase ≡ evac.old.phase }
    ensures order { evac.new.book.order ≡ evac.old.book.order }
    ensures cooled { IsCooled (state_in evac.old) pointer (state_in evac.new) }
{
    evac.ask((pointer / CELLS) as u8, pointer, Mark::Moved);
    match evac.move_now(pointer) {
        Ok(Some(_)) => {}
        Ok(None) => unreachable!(),
        Err(_) => unreachable!(),
    }
}

// Makes a round of the two oldest logs, in which nothing is hot.
fn send_off<D: Device + Drop>(evac: &mut Evac<Plain, D>) -> Result<(), Refused>
    requires settled { Settled (state_in evac.old) }
    requires idle { evac.old.phase ≡ Idle }
    requires cold { IsCold (state_in evac.old) (take 2 evac.old.book.order) }
    requires many { 3 ≤ (state_in evac.old).logs }
    ensures keeps { Keeps (state_in evac.old) (state_in evac.new) }
    ensures room { OnOk result (2 ≤ length (free_logs (state_in evac.new))) }
    ensures want { IfErr result (λ why. IsWant why) }
    ensures stuck { IfErr result (λ why. IsStuck D D.writes (state_in evac.old) why) }
    ensures idle { evac.new.phase ≡ Idle }
{
    evac.keeps_law();
    match evac.select(&mut Oldest, LOGS) {
        Ok(chosen) => {
            if chosen.is_empty() {
                return Ok(());
            }
            mark_all(evac);
            poll_all(evac);
            leave(evac)
        }
        Err(why) => Err(why),
    }
}

// Sets EVAC on all that lies in a round's logs.
fn mark_all<D: Device + Drop>(evac: &mut Evac<Plain, D>)
    requires marking { evac.old.phase ≡ Marking }
    ensures keeps { Keeps (state_in evac.old) (state_in evac.new) }
    ensures phase { evac.new.phase ≡ Waiting }
    ensures collection { evac.new.collection ≡ evac.old.collection }
    ensures logs { SameLogs (state_in evac.old) (state_in evac.new) }
    ensures cold { IsCold (state_in evac.old) evac.old.collection → IsCold (state_in evac.new) evac.old.collection }
{
    evac.keeps_law();
    let _ = evac.mark_some(ALL);
}

// Looks at all owners, none of which has a scope.
fn poll_all<D: Device + Drop>(evac: &mut Evac<Plain, D>)
    requires settled { Settled (state_in evac.old) }
    requires waiting { evac.old.phase ≡ Waiting }
    ensures keeps { Keeps (state_in evac.old) (state_in evac.new) }
    ensures phase { evac.new.phase ≡ Evacuating }
    ensures collection { evac.new.collection ≡ evac.old.collection }
    ensures logs { SameLogs (state_in evac.old) (state_in evac.new) }
    ensures cells { (state_in evac.new).cell ≡ (state_in evac.old).cell }
{
    let _ = evac.poll_wait();
}

// Has all that lies in a round's logs leave them.
fn leave<D: Device + Drop>(evac: &mut Evac<Plain, D>) -> Result<(), Refused>
    requires evacuating { evac.old.phase ≡ Evacuating }
    requires cold { IsCold (state_in evac.old) evac.old.collection }
    ensures keeps { Keeps (state_in evac.old) (state_in evac.new) }
    ensures emptied { OnOk result (AreEmptied (state_in evac.old) evac.old.collection (state_in evac.new)) }
    ensures want { IfErr result (λ why. IsWant why) }
    ensures stuck { IfErr result (λ why. IsStuck D D.writes (state_in evac.old) why) }
    ensures idle { evac.new.phase ≡ Idle }
{
    evac.keeps_law();
    match evac.evacuate_some(ALL) {
        Ok(_) => Ok(()),
        Err(_) => {
            end_round(evac);
            Err(Refused::NoRoom)
        }
    }
}
