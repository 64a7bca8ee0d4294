//! Objects are viewed, or tried: pinned, and not asked for.

ghost use Rattle.std.specs.Prelude.{◌≡◌, ◌<◌};
ghost use Rattle.far_replay.specs.Spent.{Makes};
ghost use Rattle.far_replay.specs.declared.outcome.Scratch.{Scratch};
ghost use Rattle.far_text.specs.Command.{Mutator, Try, On, Views};
ghost use Rattle.far_replay.specs.Interpreter.{StandsFor};
ghost use Rattle.far_replay.specs.Moment.{moment_in, state_in};
ghost use Rattle.far_replay.specs.Outcome.{reply_by, IsInScratch};
ghost use Rattle.far_replay.specs.Turn.{effect, reply_to};

use crate::dereferencing::{dereference, try_view};
use crate::outcome::Outcome;
use crate::owners::{FarSide, core_of, own_pointer};
use far_book::Plain;
use far_evac::Evac;
use far_word::Refused;

/// Views an owner's object where one pin does, and else answers the cell that the pin found.
pub fn try_object(evac: &mut Evac<Plain, FarSide>, owner: u8, pointer: u64) -> Outcome
    requires known { owner < (state_in evac.old).mutators }
    ensures moment { moment_in evac.new ≡ effect (moment_in evac.old) (Mutator owner (Try pointer)) }
    ensures reply { StandsFor result (reply_to (moment_in evac.old) (Mutator owner (Try pointer))) }
    ensures fits { IsInScratch result }
    ensures device { evac.new.book.device ≡ evac.old.book.device }
{
    if !core_of(evac).is_open(owner) {
        return Outcome::Refused(Refused::Closed);
    }
    let Some(pointer) = own_pointer(evac, owner, pointer) else {
        return Outcome::Refused(Refused::NotHeld);
    };
    match try_view(evac, owner, pointer) {
        Ok(()) => Outcome::Done,
        Err(word) => Outcome::Refused(Refused::Marked(word)),
    }
}

/// Views an owner's object, whatever marks it has.
pub fn view_object(evac: &mut Evac<Plain, FarSide>, owner: u8, pointer: u64) -> Outcome
    requires known { owner < (state_in evac.old).mutators }
    ensures made { (scratch : Scratch) → Makes evac.old (Mutator owner (On pointer Views)) (reply_by scratch result) evac.new }
    ensures fits { IsInScratch result }
{
    if !core_of(evac).is_open(owner) {
        return Outcome::Refused(Refused::Closed);
    }
    let Some(pointer) = own_pointer(evac, owner, pointer) else {
        return Outcome::Refused(Refused::NotHeld);
    };
    match dereference(evac, owner, pointer) {
        Ok(()) => Outcome::Done,
        Err(why) => Outcome::Refused(why),
    }
}
