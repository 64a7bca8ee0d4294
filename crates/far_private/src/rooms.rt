//! A round that a call makes where there is no room.

ghost use Rattle.std.specs.Prelude.{◌≡◌};
ghost use Rattle.far_evac.specs.declared.phase.Phase.TheVariants.{Idle};
ghost use Rattle.far_private.specs.Objects.{Settled, state_in};
ghost use Rattle.far_private.specs.Steps.{Keeps};

use crate::cells::core_of;
use crate::staying::keep_near;
use far_book::Plain;
use far_device::Device;
use far_evac::{Evac, Phase, Progress};
use far_policy::{Chosen, Oldest};
use far_word::Place;

/// So many logs a round empties, or more.
const LOGS: usize = 2;

/// A round empties one in so many of the heap's logs, where that is more.
const PART: usize = 8;

/// So many turns a round makes at most. It needs fewer, whatever logs it takes: a heap has 2,048 objects, of which a turn marks
/// 16, a later one has 16 leave, and each ends one turn more if the device refuses it.
const TURNS: u64 = 2500;

/// What a round came to.
#[derive(Clone, Copy)]
pub(crate) enum Outcome {
    /// No log is sealed.
    Nothing,
    /// The device refused each object that it was asked to take, and no other left its log.
    Vain,
    /// Another went far, or lost HOT.
    Gives,
}

// What a turn of a round came to.
#[derive(Clone, Copy)]
struct TurnEnd {
    // Whether the round is over.
    over: bool,
    // Whether an object left its log that the device hadn't refused.
    gives: bool,
    // Whether the device refused one.
    refused: bool,
}

/// Makes a round, and gives up what it leaves open.
#[inline(never)]
pub(crate) fn make_room<D: Device + Drop>(evac: &mut Evac<Plain, D>) -> Outcome
    requires { Settled (state_in evac.old) }
    ensures keeps { Keeps (state_in evac.old) (state_in evac.new) }
    ensures idle { evac.new.phase ≡ Idle }
{
    let made = round(evac);
    give_up(evac);
    made
}

// Makes a round, as far as it goes.
fn round<D: Device + Drop>(evac: &mut Evac<Plain, D>) -> Outcome
    requires { Settled (state_in evac.old) }
    ensures { Keeps (state_in evac.old) (state_in evac.new) }
{
    let chosen = begin(evac);
    let Some(first) = chosen.as_slice().first() else {
        return Outcome::Nothing;
    };
    if make_turns(evac, &chosen, *first) {
        Outcome::Gives
    } else {
        Outcome::Vain
    }
}

// Begins a round of the oldest logs: these, or none where none is sealed.
fn begin<D: Device + Drop>(evac: &mut Evac<Plain, D>) -> Chosen
    ensures { Keeps (state_in evac.old) (state_in evac.new) }
{
    let most = share(core_of(evac).logs());
    match evac.select(&mut Oldest, most) {
        Ok(chosen) => chosen,
        Err(_) => Chosen::new(),
    }
}

// How many of so many logs a round empties.
fn share(logs: u8) -> usize {
    LOGS.max(logs as usize / PART)
}

// Makes the turns of a round, in which what the device refuses stays near: whether another object left its log.
fn make_turns<D: Device + Drop>(evac: &mut Evac<Plain, D>, chosen: &Chosen, first: u8) -> bool
    requires { Settled (state_in evac.old) }
    ensures { Keeps (state_in evac.old) (state_in evac.new) }
{
    let mut gives = false;
    let mut refused = false;
    let mut next = Place { log: first, at: 0 };
    for _ in 0..TURNS {
        let made = turn(evac, refused);
        gives = gives || made.gives;
        refused = made.refused;
        if made.over {
            return gives;
        }
        if refused {
            match keep_near(evac, chosen, next) {
                Some(place) => next = place,
                None => return gives,
            }
        }
    }
    gives
}

// Makes a turn of a round, whose next object the device may have refused.
fn turn<D: Device + Drop>(evac: &mut Evac<Plain, D>, refused: bool) -> TurnEnd
    ensures { Keeps (state_in evac.old) (state_in evac.new) }
{
    evac.keeps_law();
    match evac.turn() {
        Ok(progress) => TurnEnd {
            over: progress.done,
            gives: gives(progress, refused),
            refused: false,
        },
        Err(fault) => TurnEnd {
            over: false,
            gives: gives(fault.so_far, refused),
            refused: true,
        },
    }
}

// Whether others left than one that the device had refused.
fn gives(progress: Progress, refused: bool) -> bool {
    progress.far != 0 || progress.dropped != 0 || progress.moved > u64::from(refused)
}

// Gives up a round that stands.
fn give_up<D: Device + Drop>(evac: &mut Evac<Plain, D>)
    ensures keeps { Keeps (state_in evac.old) (state_in evac.new) }
    ensures idle { evac.new.phase ≡ Idle }
{
    evac.keeps_law();
    if evac.phase() != Phase::Idle {
        let _ = evac.abort();
    }
}
