//! How a near object moves: to another place, if it has EVAC; else it stays where it lies.

ghost use Rattle.std.specs.Prelude.{◌≡◌, ◌+◌, ◌*◌, ◌<◌, true, false, Some, None, Ok, IsSome, IfOk, IfErr, IfSome, IfNone, MatchOption};
ghost use Rattle.far_word.specs.declared.refused.Refused.TheVariants.{NoRoom};
ghost use Rattle.far_word.specs.declared.sizes.TheConstants.{CELLS};
ghost use Rattle.far_word.specs.Pointer.{read_of};
ghost use Rattle.far_events.specs.events.Copies.{data_at};
ghost use Rattle.far_events.specs.events.Naming.{is_dropped};
ghost use Rattle.far_book.specs.book.Dealing.{FindsDrop, IsSeen, MovedBy, goal, has_evac, moved_now, order_moved};
ghost use Rattle.far_hand.specs.Quiet.{IsQuietNear};
ghost use Rattle.far_hand.specs.Came.{Came, only};
ghost use Rattle.far_book.specs.book.Calls.{MovesObject};
ghost use Rattle.far_book.specs.book.Effects.{moved, order_after, stayed, with_written_span};
ghost use Rattle.far_book.specs.book.Moving.{Copied, MayCopy, MayStay};
ghost use Rattle.far_book.specs.book.Only.{NamesNear};

use crate::book::Book;
use crate::book::renaming::{is_dropped, rename_near};
use far_device::Device;
use far_hand::Near;
use far_word::{HeadWord, Place, PtrWord, Refused, size_of, words_for};

impl<N: Near + Drop, D: Device + Drop> Book<N, D> {
    /// Moves a near object that nobody stores into, and answers where it lies then, without marks but DIRTY. If the object has
    /// EVAC, it goes to a place where room is, in the last free log too; else it stays where it lies.
    ///
    /// `None` if its owner has dropped it: it is retired then. A refusal is [`Refused::NoRoom`]: the object lies as before.
    #[inline(always)]
    pub fn move_now(&mut self, pointer: u16) -> Result<Option<Place>, Refused>
        requires pointer { pointer < CELLS * (N.view self.old.near).mutators }
        requires quiet { IsQuietNear (N.view self.old.near) pointer }
        ensures { MovesObject N.still N.view N.makes D.contents D.honest D.faults D.fails_at_most D.lets_go D.forgets self.old self.new pointer result }
    {
        self.move_by(pointer, None)
    }

    /// As [`Book::move_now`], by the word that its cell is known to have, if one is given, or else by the one that is found there.
    #[inline(always)]
    pub fn move_by(&mut self, pointer: u16, known: Option<u64>) -> Result<Option<Place>, Refused>
        requires pointer { pointer < CELLS * (N.view self.old.near).mutators }
        requires quiet { IsQuietNear (N.view self.old.near) pointer }
        requires known { IfSome known (λ word. word ≡ (N.view self.old.near).cell pointer) }
        ensures { MovesObject N.still N.view N.makes D.contents D.honest D.faults D.fails_at_most D.lets_go D.forgets self.old self.new pointer result }
    {
        match self.settle(pointer, known) {
            Ok(Some(place)) => Ok(Some(place)),
            Ok(None) => {
                self.retire(pointer);
                Ok(None)
            }
            Err(why) => Err(why),
        }
    }

    // As `move_by`, but that an object that its owner has dropped isn't retired yet.
    fn settle(&mut self, pointer: u16, known: Option<u64>) -> Result<Option<Place>, Refused>
        // the object is near and quiet; its cell's word, where that is known
        requires pointer { pointer < CELLS * (N.view self.old.near).mutators }
        requires quiet { IsQuietNear (N.view self.old.near) pointer }
        requires known { IfSome known (λ word. word ≡ (N.view self.old.near).cell pointer) }

        // done: with EVAC it has moved to where room was, else it stays where it lies; the order has the log that a move has sealed, and the
        // device stays
        ensures place { IfOk result (λ o. IfSome o (λ place. goal (N.view self.old.near) pointer ≡ Some place)) }
        ensures moved { IfOk result (λ o. IfSome o (λ place. MovedBy (N.view self.old.near) (N.view self.new.near) pointer place)) }
        ensures order { IfOk result (λ o. MatchOption o (self.new.order ≡ self.old.order) (λ place. self.new.order ≡ order_moved (N.view self.old.near) pointer self.old.order place)) }
        ensures device { self.new.device ≡ self.old.device }

        // no place, as always where that was known: its owner has dropped it
        ensures asked { is_dropped (read_of ((N.view self.old.near).cell pointer)) ≡ true → result ≡ Ok None }
        ensures found { IfOk result (λ o. IfNone o (FindsDrop (N.view self.old.near) (N.view self.new.near) pointer)) }

        // refused for want of room alone: nothing has changed but what is known of the object's cell
        ensures refused { IfErr result (λ why. why ≡ NoRoom) }
        ensures none { IfErr result (λ _. goal (N.view self.old.near) pointer ≡ None) }
        ensures seen { IfErr result (λ _. IsSeen (N.view self.old.near) (N.view self.new.near) pointer) }
        ensures words { IfErr result (λ _. (N.view self.new.near).word ≡ (N.view self.old.near).word) }
        ensures kept { IfErr result (λ _. self.new.order ≡ self.old.order) }

        // over a hand that is still it's exactly so, there is no place only where DROP was known, and no refusal changes anything
        ensures exact { N.still → IfOk result (λ o. MatchOption o (N.view self.new.near ≡ N.view self.old.near) (λ place. N.view self.new.near ≡ moved_now (N.view self.old.near) pointer place)) }
        ensures dropped { N.still → IfOk result (λ o. IfNone o (is_dropped (read_of ((N.view self.old.near).cell pointer)) ≡ true)) }
        ensures unchanged { N.still → IfErr result (λ _. N.view self.new.near ≡ N.view self.old.near) }

        // only calls of the hand led there
        ensures came { Came N.makes self.old.near self.new.near }
    {
        let found = self.cell_of(pointer, known);
        if is_dropped(found) {
            return Ok(None);
        }
        if has_evac(found) {
            return self.carry(pointer, found);
        }
        Ok(self.stay(pointer, found))
    }

    // Moves an object to a place where room is, the last free log too. `None` where its owner has dropped it meanwhile, as its cell
    // says then. Refused [`Refused::NoRoom`] alone.
    fn carry(&mut self, pointer: u16, found: u64) -> Result<Option<Place>, Refused>
        // the object is near and quiet, with EVAC and without DROP, as its cell was found
        requires pointer { pointer < CELLS * (N.view self.old.near).mutators }
        requires found { found ≡ (N.view self.old.near).cell pointer }
        requires quiet { IsQuietNear (N.view self.old.near) pointer }
        requires wanted { has_evac (read_of found) ≡ true }
        requires alive { is_dropped (read_of found) ≡ false }

        // done: it has moved to where room was; the order has the log that this has sealed
        ensures place { IfOk result (λ o. IfSome o (λ place. goal (N.view self.old.near) pointer ≡ Some place)) }
        ensures moved { IfOk result (λ o. IfSome o (λ place. MovedBy (N.view self.old.near) (N.view self.new.near) pointer place)) }
        ensures order { IfOk result (λ o. MatchOption o (self.new.order ≡ self.old.order) (λ place. self.new.order ≡ order_after (N.view self.old.near) self.old.order place)) }

        // no place: its owner has dropped it meanwhile, which never is over a hand that is still
        ensures dropped { IfOk result (λ o. IfNone o (FindsDrop (N.view self.old.near) (N.view self.new.near) pointer)) }
        ensures exact { N.still → IfOk result (λ o. MatchOption o ⊥ (λ place. N.view self.new.near ≡ moved (N.view self.old.near) pointer place)) }

        // only calls of the hand led there; the device stays
        ensures came { Came N.makes self.old.near self.new.near }
        ensures device { self.new.device ≡ self.old.device }

        // refused for want of room alone: nothing has changed
        ensures refused { IfErr result (λ why. why ≡ NoRoom) }
        ensures none { IfErr result (λ _. goal (N.view self.old.near) pointer ≡ None) }
        ensures unchanged { IfErr result (λ _. self.new ≡ self.old) }
    {
        let PtrWord::Near { len, ds, place, .. } = PtrWord::known(found) else {
            unreachable!()
        };
        let size = size_of(len);
        let Some(to) = self.ledger.room(size, false) else {
            return Err(Refused::NoRoom);
        };
        if !move_object(&mut self.near, pointer, found, len, ds, place, to) {
            return Ok(None);
        }
        self.ledger.lose(place.log, size);
        self.ledger.take_again(size, to);
        self.counts.carry();
        Ok(Some(to))
    }

    // Takes the marks but DIRTY of an object, which stays where it lies. `None` where its owner has dropped it meanwhile, as its cell says
    // then.
    fn stay(&mut self, pointer: u16, found: u64) -> Option<Place>
        // the object is near and quiet, without EVAC and DROP, as its cell was found
        requires pointer { pointer < CELLS * (N.view self.old.near).mutators }
        requires found { found ≡ (N.view self.old.near).cell pointer }
        requires quiet { IsQuietNear (N.view self.old.near) pointer }
        requires unwanted { has_evac (read_of found) ≡ false }
        requires alive { is_dropped (read_of found) ≡ false }

        // done: it stays where it lies, its cell without marks but DIRTY
        ensures place { IfSome result (λ place. goal (N.view self.old.near) pointer ≡ Some place) }
        ensures stayed { IfSome result (λ place. MovedBy (N.view self.old.near) (N.view self.new.near) pointer place) }

        // no place: its owner has dropped it meanwhile, which never is over a hand that is still
        ensures dropped { IfNone result (FindsDrop (N.view self.old.near) (N.view self.new.near) pointer) }
        ensures exact { N.still → MatchOption result ⊥ (λ _. N.view self.new.near ≡ stayed (N.view self.old.near) pointer) }

        // only calls of the hand led there; the order of logs and the device stay
        ensures came { Came N.makes self.old.near self.new.near }
        ensures order { self.new.order ≡ self.old.order }
        ensures device { self.new.device ≡ self.old.device }
    {
        let PtrWord::Near { len, ds, place, .. } = PtrWord::known(found) else {
            unreachable!()
        };
        if unmark_object(&mut self.near, pointer, found, len, ds, place) {
            Some(place)
        } else {
            None
        }
    }
}

// Copies an object, header and data words, to a place where the next span of a log may stand.
#[inline(always)]
fn copy_object<N: Near>(near: &mut N, pointer: u16, len: u16, ds: u8, from: Place, to: Place)
    requires { MayCopy (N.view near.old) pointer len ds from to }
    ensures copied { Copied (N.view near.old) (N.view near.new) pointer len ds from to }
    ensures exact { N.still → N.view near.new ≡ with_written_span (N.view near.old) pointer len ds to (data_at (N.view near.old).word from) }
    ensures came { Came N.makes near.old near.new }
{
    let header = HeadWord { pointer, len, ds };
    near.put(to.log, to.at, header.pack());
    near.copy_words(from, to, words_for(len));
}

// Copies an object to a place, which its cell names from then on. `false` where its owner has dropped it meanwhile, as its
// cell says then.
#[inline(always)]
fn move_object<N: Near>(
    near: &mut N,
    pointer: u16,
    found: u64,
    len: u16,
    ds: u8,
    from: Place,
    to: Place,
) -> bool
    requires may { MayCopy (N.view near.old) pointer len ds from to }
    requires found { found ≡ (N.view near.old).cell pointer }
    requires wanted { has_evac (read_of found) ≡ true }
    requires alive { is_dropped (read_of found) ≡ false }
    ensures moved { result ≡ true → MovedBy (N.view near.old) (N.view near.new) pointer to }
    ensures dropped { result ≡ false → FindsDrop (N.view near.old) (N.view near.new) pointer }
    ensures won { N.still → result ≡ true }
    ensures exact { N.still → N.view near.new ≡ moved (N.view near.old) pointer to }
    ensures came { Came N.makes near.old near.new }
{
    copy_object(near, pointer, len, ds, from, to);
    match rename_near(near, pointer, found, len, ds, to) {
        Ok(()) => true,
        Err(_) => false,
    }
}

// Takes the marks but DIRTY of an object that stays where it lies. `false` where its owner has dropped it meanwhile, as its cell says
// then.
fn unmark_object<N: Near>(
    near: &mut N,
    pointer: u16,
    found: u64,
    len: u16,
    ds: u8,
    place: Place,
) -> bool
    requires may { MayStay (N.view near.old) pointer len ds place }
    requires found { found ≡ (N.view near.old).cell pointer }
    requires alive { is_dropped (read_of found) ≡ false }
    ensures stayed { result ≡ true → MovedBy (N.view near.old) (N.view near.new) pointer place }
    ensures dropped { result ≡ false → FindsDrop (N.view near.old) (N.view near.new) pointer }
    ensures won { N.still → result ≡ true }
    ensures exact { N.still → N.view near.new ≡ stayed (N.view near.old) pointer }
    ensures names { Came (only (NamesNear pointer len ds place) N.makes) near.old near.new }
{
    match rename_near(near, pointer, found, len, ds, place) {
        Ok(()) => true,
        Err(_) => false,
    }
}

/// Whether the book wants the log that a near object lies in.
pub fn has_evac(word: u64) -> bool
    requires { IsSome (read_of word) }
    ensures { result ≡ has_evac (read_of word) }
{
    match PtrWord::known(word) {
        PtrWord::Near { marks, .. } => marks.evac,
        _ => false,
    }
}
