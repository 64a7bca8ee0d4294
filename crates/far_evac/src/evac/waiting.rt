//! How a round waits until every older scope is closed.

ghost use Rattle.std.specs.Prelude.{◌≡◌, ◌+◌, ◌*◌, ◌<◌, ◌≤◌, ◌/◌, ℕ, true, false, IfSome, IfNone, IsSome};
ghost use Rattle.far_word.specs.Scope.{scope_of};
ghost use Rattle.far_events.specs.events.Look.{shows_clear};
ghost use Rattle.far_hand.specs.Came.{Came, only};
ghost use Rattle.far_evac.specs.Calls.{PollsOwners};
ghost use Rattle.far_evac.specs.Waiting.{Looked, Looks, SawOpen, polled};
ghost use Rattle.far_evac.specs.declared.answers.Polled.TheVariants.{Clear};
ghost use Rattle.far_evac.specs.declared.phase.Phase.TheVariants as phase;

use crate::answers::Polled;
use crate::evac::Evac;
use crate::phase::Phase;
use far_book::{Book, Near};
use far_device::Device;
use far_word::{Refused, ScopeWord};

impl<N: Near + Drop, D: Device + Drop> Evac<N, D> {
    /// Looks at the scopes of the owners that weren't seen clear in this round, in order: one that is closed, or open at the new
    /// epoch, is clear from then on. [`Polled::Clear`] where all are: nobody views anything in the chosen logs then, in whatever state the words may be beside the
    /// hand, and the objects may leave. Else the first other, with the epoch at which its scope was seen open.
    ///
    /// Refused [`Refused::Phase`] exactly where the round isn't waiting; nothing has changed then. It never blocks.
    pub fn poll_wait(&mut self) -> Result<Polled, Refused>
        ensures { PollsOwners N.still N.view N.makes N.may_be self.old self.new result }
    {
        if self.round.phase != Phase::Waiting {
            return Err(Refused::Phase);
        }
        let answer = look_from(&mut self.book, self.round.seen);
        match answer {
            Polled::StillOpen(owner, _) => self.round.seen = owner,
            Polled::Clear => {
                self.book.keeps_law();
                self.round.phase = Phase::Evacuating;
                self.round.index = 0;
                self.round.at = 0;
                self.nobody_views();
            }
        }
        Ok(answer)
    }
}

// Looks at the owners from one on, which weren't seen clear, up to the first whose scope is open from before the round.
fn look_from<N: Near + Drop, D: Device + Drop>(book: &mut Book<N, D>, from: u8) -> Polled
    requires seen { (k : ℕ) → k < from → (N.view book.old.near).clear k ≡ true }
    requires unseen { (k : ℕ) → from ≤ k → (N.view book.old.near).clear k ≡ false }
    ensures came { Came N.makes book.old.near book.new.near }
    ensures looks { Came (only Looks N.makes) book.old.near book.new.near }
    ensures looked { Looked (N.view book.old.near) result (N.view book.new.near) }
    ensures exact { N.still → result ≡ polled (N.view book.old.near) }
    ensures saw { SawOpen (N.may_be book.new.near) result }
    ensures order { book.new.order ≡ book.old.order }
    ensures device { book.new.device ≡ book.old.device }
{
    book.keeps_law();
    let shape = book.shape();
    for owner in from..shape.mutators as u8 {
        let word = book.look(owner);
        if let Some(epoch) = open_before(word, shape.epoch) {
            return Polled::StillOpen(owner, epoch);
        }
    }
    Polled::Clear
}

// The epoch at which a scope is open, if it is older than the round.
fn open_before(word: u64, round: u64) -> Option<u64>
    requires layout { IsSome (scope_of word) }
    ensures open { IfSome result (λ epoch. (epoch ≡ word / 2) × (epoch < round) × (shows_clear round (scope_of word) ≡ false)) }
    ensures odd { IfSome result (λ epoch. word ≡ 2 * epoch + 1) }
    ensures clear { IfNone result (shows_clear round (scope_of word) ≡ true) }
{
    match ScopeWord::read(word)? {
        ScopeWord::Open { epoch } if epoch < round => Some(epoch),
        _ => None,
    }
}
