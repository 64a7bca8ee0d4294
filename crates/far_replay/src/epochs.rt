//! An owner reads the epoch, at which its scope opens next.

ghost use Rattle.std.specs.Prelude.{◌≡◌, ◌<◌};
ghost use Rattle.far_text.specs.Command.{Mutator, Epoch};
ghost use Rattle.far_replay.specs.Events.{events_for};
ghost use Rattle.far_events.specs.events.Ranges.{after_events};
ghost use Rattle.far_replay.specs.Interpreter.{StandsFor};
ghost use Rattle.far_replay.specs.Moment.{KeepsRound, moment_in, state_in};
ghost use Rattle.far_replay.specs.Outcome.{IsInScratch};
ghost use Rattle.far_replay.specs.Turn.{reply_to};

use crate::outcome::Outcome;
use crate::owners::{FarSide, core_of, make_event};
use far_book::Plain;
use far_core::Event;
use far_evac::Evac;
use far_word::Refused;

/// Reads the epoch for an owner whose scope is closed, and tells it.
pub fn read_epoch(evac: &mut Evac<Plain, FarSide>, owner: u8) -> Outcome
    requires known { owner < (state_in evac.old).mutators }
    ensures state { state_in evac.new ≡ after_events (state_in evac.old) (events_for (moment_in evac.old) (Mutator owner Epoch)) }
    ensures reply { StandsFor result (reply_to (moment_in evac.old) (Mutator owner Epoch)) }
    ensures fits { IsInScratch result }
    ensures order { evac.new.book.order ≡ evac.old.book.order }
    ensures round { KeepsRound evac.old evac.new }
    ensures device { evac.new.book.device ≡ evac.old.book.device }
{
    if core_of(evac).is_open(owner) {
        return Outcome::Refused(Refused::AlreadyOpen);
    }
    make_event(evac, Event::ReadEpoch { owner });
    Outcome::EpochRead(core_of(evac).epoch())
}
