//! Objects are dropped.

ghost use Rattle.std.specs.Prelude.{◌≡◌, ◌<◌, ℕ, false, Some};
ghost use Rattle.far_book.specs.book.FarSide.{kept_len};
ghost use Rattle.far_events.specs.state.Law.{Law};
ghost use Rattle.far_word.specs.Pointer.{read_of};
ghost use Rattle.far_text.specs.Command.{Mutator, Drop};
ghost use Rattle.far_replay.specs.Events.{events_for};
ghost use Rattle.far_events.specs.events.Ranges.{after_events};
ghost use Rattle.far_replay.specs.Far.{far_in};
ghost use Rattle.far_replay.specs.Interpreter.{StandsFor};
ghost use Rattle.far_replay.specs.Moment.{KeepsRound, moment_in, state_in};
ghost use Rattle.far_replay.specs.Commanded.{Serves};
ghost use Rattle.far_replay.specs.Spent.{SpentBy};
ghost use Rattle.far_replay.specs.Outcome.{IsInScratch};
ghost use Rattle.far_replay.specs.Turn.{reply_to};

use crate::outcome::Outcome;
use crate::owners::{FarSide, core_of, make_event, own_pointer};
use far_book::Plain;
use far_core::Event;
use far_evac::Evac;
use far_word::{Mark, Refused};

/// Drops an owner's object: its owner asks, and the book retires it. Refused [`Refused::NotHeld`] if the owner doesn't use the
/// pointer, [`Refused::Held`] if it views the object.
pub fn drop_object(evac: &mut Evac<Plain, FarSide>, owner: u8, pointer: u64) -> Outcome
    requires known { owner < (state_in evac.old).mutators }
    requires law { Law (state_in evac.old) }
    ensures state { state_in evac.new ≡ after_events (state_in evac.old) (events_for (moment_in evac.old) (Mutator owner (Drop pointer))) }
    ensures reply { StandsFor result (reply_to (moment_in evac.old) (Mutator owner (Drop pointer))) }
    ensures fits { IsInScratch result }
    ensures order { evac.new.book.order ≡ evac.old.book.order }
    ensures round { KeepsRound evac.old evac.new }
    ensures spent { SpentBy Serves evac.old evac.new }
    ensures holds { (q len : ℕ) → kept_len (read_of ((state_in evac.new).cell q)) ≡ Some len → far_in evac.new q ≡ far_in evac.old q }
{
    let Some(pointer) = own_pointer(evac, owner, pointer) else {
        return Outcome::Refused(Refused::NotHeld);
    };
    if core_of(evac).is_held(pointer) {
        return Outcome::Refused(Refused::Held);
    }
    make_event(
        evac,
        Event::Ask {
            owner,
            pointer,
            mark: Mark::Dropped,
        },
    );
    evac.retire(pointer);
    Outcome::Done
}
