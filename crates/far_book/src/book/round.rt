//! The book's calls of a round: each is one of its hand's.

ghost use Rattle.std.specs.Prelude.{◌≡◌, ◌+◌, ◌<◌, ◌↔◌, true, false};
ghost use Rattle.far_events.specs.declared.event.Event.{Event};
ghost use Rattle.far_events.specs.declared.event.Kind.TheVariants.{Sealed};
ghost use Rattle.far_events.specs.events.Get.{IsUncopied, IsVacant};
ghost use Rattle.far_events.specs.events.Legal.{Legal};
ghost use Rattle.far_hand.specs.Came.{Came, only};
ghost use Rattle.far_hand.specs.Known.{Forgets};
ghost use Rattle.far_hand.specs.Rounds.{MayChoose};
ghost use Rattle.far_book.specs.book.Actions.{Does, Steps};
ghost use Rattle.far_book.specs.book.HandedOn.{ClearsCell, LooksAtScope, RaisesEpoch};
ghost use Rattle.far_book.specs.book.Releasing.{order_without, released};

use crate::book::Book;
use far_device::Device;
use far_hand::Near;
use far_word::Refused;

impl<N: Near + Drop, D: Device + Drop> Book<N, D> {
    /// Takes EVAC from a near pointer, whose log leaves the round, and answers its word before, as it was found. Words may be
    /// forgotten then.
    pub fn clear(&mut self, pointer: u16) -> u64
        requires legal { Legal (N.view self.old.near) (Event.Clear pointer) }
        ensures { ClearsCell N.still N.view N.makes self.old self.new pointer result }
    {
        let found = self.near.clear(pointer);
        self.ledger.jobs.leave_round(found);
        found
    }

    /// The epoch rises by 1, and a round begins of each log l for which bit l of `logs` is 1. Answers the new epoch. Words may be forgotten then.
    /// A refusal is [`Refused::EpochsSpent`], where there is no later epoch: nothing has changed then.
    pub fn advance(&mut self, logs: u64) -> Result<u64, Refused>
        requires chosen { MayChoose (N.view self.old.near) logs }
        ensures { RaisesEpoch N.still N.view N.makes self.old self.new logs result }
    {
        match self.near.advance(logs) {
            Ok(epoch) => {
                self.ledger.jobs.end_round();
                Ok(epoch)
            }
            Err(why) => Err(why),
        }
    }

    /// Gives a sealed log back, and answers true, if no object lies there, dropped or not, and no job reads or writes it, void or
    /// not; else nothing has changed. Words may be forgotten then.
    pub fn release(&mut self, log: u8) -> bool
        // the log is sealed
        requires log { log < (N.view self.old.near).logs }
        requires sealed { (N.view self.old.near).kind log ≡ Sealed }

        // true exactly where no object lies there, and no job reads or writes it
        ensures vacant { (result ≡ true) ↔ IsVacant (N.view self.old.near) log × IsUncopied (N.view self.old.near).copying log }

        // true: the log is free; words may have been forgotten, but over a hand that is still
        ensures kept { result ≡ true → N.view self.new.near ≡ record (released (N.view self.old.near) log) { word = (N.view self.new.near).word } }
        ensures forgot { result ≡ true → Forgets (N.view self.old.near) (N.view self.new.near) }
        ensures exact { N.still → result ≡ true → N.view self.new.near ≡ released (N.view self.old.near) log }

        // no call was made but the one that gives this log back
        ensures gives { Came (only (λ e. e ≡ Event.Get log 0 true) N.makes) self.old.near self.new.near }
        ensures came { Came N.makes self.old.near self.new.near }
        ensures ran { N.still → result ≡ true → Does (N.view self.old.near) (Steps (Event.Get log 0 true)) (N.view self.new.near) }

        // the order loses the log then, and the device stays; false: nothing has changed
        ensures order { result ≡ true → self.new.order ≡ order_without log self.old.order }
        ensures device { self.new.device ≡ self.old.device }
        ensures unchanged { result ≡ false → self.new ≡ self.old }
    {
        if !self.ledger.is_vacant(log) {
            return false;
        }
        if self.ledger.jobs.copies_at(log) {
            return false;
        }
        self.near.get(log, 0, true);
        self.ledger.give_back(log);
        true
    }

    /// The scope word of an owner, as it is found. The owner is seen clear in the round from then on where the word says closed,
    /// or open at the round's epoch or later.
    pub fn look(&mut self, owner: u8) -> u64
        requires legal { Legal (N.view self.old.near) (Event.Look owner) }
        ensures { LooksAtScope N.still N.view N.makes N.may_be self.old self.new owner result }
    {
        self.near.look(owner)
    }
}
