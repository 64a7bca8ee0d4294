//! How many rounds a call makes where there is no room.

ghost use Rattle.std.specs.Prelude.{◌≡◌, ◌<◌, ◌+◌, true, false};
ghost use Rattle.far_evac.specs.declared.phase.Phase.TheVariants.{Idle};
ghost use Rattle.far_private.specs.Objects.{Settled, state_in};
ghost use Rattle.far_private.specs.declared.rooms.Outcome.TheVariants.{Gives, Nothing, Vain};
ghost use Rattle.far_private.specs.Steps.{Keeps};

use crate::cells::core_of;
use crate::rooms::{Outcome, make_room};
use far_book::Plain;
use far_device::Device;
use far_evac::Evac;

/// The rounds that a call may make yet.
///
/// Where a call finds no room, one log at most is free, and a round takes the two oldest of the sealed ones, or an eighth of all
/// logs if that is more (of three logs one alone is sealed then). It gives each back: what is hot there moves to another log and lacks HOT from then on, what
/// isn't goes far, and what the device refuses moves too. A log that is opened meanwhile is the youngest. So `logs / 2 + 1`
/// rounds, a *pass*, take each log that had an object when they began, the open one too, unless two logs are free before,
/// which is room for any object. After a pass no object that is near is hot, and the next round frees its logs whole, as far
/// as the device takes what has to be written. After a second pass each that is near was refused by the device since the
/// call began, and they lie packed.
///
/// So a call makes two passes at most. It ends before where a pass brought nothing: in each of its rounds every object was
/// refused; and where no log is sealed.
#[derive(Clone, Copy)]
pub(crate) struct Rounds {
    // How many more.
    left: u8,
    // How many more that bring nothing.
    vain: u8,
    // How many a pass has.
    pass: u8,
}

impl Rounds {
    /// Those of a call that found no room.
    #[inline]
    pub(crate) fn new<D: Device + Drop>(evac: &Evac<Plain, D>) -> Rounds {
        let pass = core_of(evac).logs() / 2 + 1;
        Rounds {
            left: pass.saturating_mul(2),
            vain: pass,
            pass,
        }
    }

    /// Makes one more, if it may bring room.
    pub(crate) fn make<D: Device + Drop>(&mut self, evac: &mut Evac<Plain, D>) -> bool
        requires settled { Settled (state_in evac.old) }
        ensures fewer { result ≡ true → self.new.left < self.old.left }
        ensures keeps { Keeps (state_in evac.old) (state_in evac.new) }
        ensures none { result ≡ false → evac.new ≡ evac.old }
        ensures idle { evac.old.phase ≡ Idle → evac.new.phase ≡ Idle }
    {
        if self.left == 0 || self.vain == 0 {
            return false;
        }
        let made = make_room(evac);
        self.note(made);
        true
    }

    // Notes what a round came to. One that gave sets back how many may bring nothing.
    fn note(&mut self, made: Outcome)
        requires left { 0 < self.old.left }
        requires vain { 0 < self.old.vain }
        ensures nothing { made ≡ Nothing → self.new.left ≡ 0 }
        ensures vain { made ≡ Vain → (self.new.left + 1 ≡ self.old.left) × (self.new.vain + 1 ≡ self.old.vain) }
        ensures gives { made ≡ Gives → (self.new.left + 1 ≡ self.old.left) × (self.new.vain ≡ self.old.pass) }
        ensures pass { self.new.pass ≡ self.old.pass }
        ensures fewer { self.new.left < self.old.left }
    {
        match made {
            Outcome::Nothing => self.left = 0,
            Outcome::Vain => {
                self.left -= 1;
                self.vain -= 1;
            }
            Outcome::Gives => {
                self.left -= 1;
                self.vain = self.pass;
            }
        }
    }
}
