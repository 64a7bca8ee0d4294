//! How the copy of an object is offered to copiers, and what of that is written down.

ghost use Rattle.std.specs.Prelude.{◌≡◌, ◌↔◌, ◌+◌, ◌*◌, ◌<◌, ◌≤◌, true, Some};
ghost use Rattle.far_word.specs.declared.pointer.PtrWord.TheVariants.{Near as near_at};
ghost use Rattle.far_word.specs.declared.sizes.TheConstants.{CELLS, JOBS, LOG_WORDS};
ghost use Rattle.far_word.specs.Header.{IsHead};
ghost use Rattle.far_word.specs.Pointer.{IsPtr, read_of};
ghost use Rattle.far_word.specs.Sizes.{size_of};
ghost use Rattle.far_events.specs.declared.event.Event.{Event};
ghost use Rattle.far_events.specs.events.Legal.{IsNext};
ghost use Rattle.far_events.specs.events.Quiet.{IsClearNear};
ghost use Rattle.far_events.specs.events.Step.{after};
ghost use Rattle.far_events.specs.state.Jobs.{near_place};
ghost use Rattle.far_hand.specs.Came.{Came};
ghost use Rattle.far_hand.specs.Known.{Forgets};
ghost use Rattle.far_book.specs.book.Copies.{OffersObject};
ghost use Rattle.far_book.specs.book.Jobs.{HasJob, has_job};
ghost use Rattle.far_book.specs.book.Offering.{IsCopyable, with_ends};

use crate::book::Book;
use far_device::Device;
use far_hand::Near;
use far_word::{HeadWord, Job, Place, PtrWord, size_of, words_for};

impl<N: Near + Drop, D: Device + Drop> Book<N, D> {
    /// Offers to copiers to copy a near object with EVAC, whose log is in the round, and whose owner was seen clear in it, dropped
    /// or not: by the lowest empty job, to the place where it would move. That span is taken, and no cell names it yet.
    ///
    /// `false` exactly if no job is empty, or there is no room: then no log was sealed.
    pub fn offer(&mut self, pointer: u16) -> bool
        requires pointer { pointer < CELLS * (N.view self.old.near).mutators }
        requires clear { IsClearNear (N.view self.old.near) pointer }
        ensures { OffersObject N.still N.view N.makes self.old self.new pointer result }
    {
        let Some(job) = self.ledger.jobs.lowest_empty() else {
            return false;
        };
        let found = self.see(pointer);
        let PtrWord::Near {
            len,
            ds,
            place: from,
            ..
        } = PtrWord::known(found)
        else {
            unreachable!()
        };
        let size = size_of(len);
        let Some(to) = self.ledger.room(size, false) else {
            return false;
        };
        offer_copy(&mut self.near, job, pointer, len, ds, from, to);
        self.ledger.begin(size, to);
        self.ledger.jobs.offer(job, Job { pointer, from, to });
        true
    }

    /// Whether a job that isn't void copies a pointer's object, which lies at a place.
    pub fn has_job(&self, pointer: u16, at: Place) -> bool
        requires lies { near_place (read_of ((N.view self.now.near).cell pointer)) ≡ Some at }
        ensures is { result ≡ has_job (N.view self.now.near) pointer }
        ensures has { (result ≡ true) ↔ HasJob (N.view self.now.near) pointer }
    {
        self.ledger.jobs.copies_from(pointer, at)
    }
}

// Writes the ends of a span for the copy of an object, and offers it.
fn offer_copy<N: Near>(
    near: &mut N,
    job: u8,
    pointer: u16,
    len: u16,
    ds: u8,
    from: Place,
    to: Place,
)
    requires { IsCopyable (N.view near.old) job pointer len ds from to }
    ensures kept { N.view near.new ≡ record (after (with_ends (N.view near.old) pointer len ds to) (Event.Offer job pointer to)) { word = (N.view near.new).word } }
    ensures forgot { Forgets (after (with_ends (N.view near.old) pointer len ds to) (Event.Offer job pointer to)) (N.view near.new) }
    ensures exact { N.still → N.view near.new ≡ after (with_ends (N.view near.old) pointer len ds to) (Event.Offer job pointer to) }
    ensures came { Came N.makes near.old near.new }
{
    let header = HeadWord { pointer, len, ds };
    near.put(to.log, to.at, header.pack());
    near.put(to.log, to.at + words_for(len), 0);
    near.offer(job, pointer, from, to);
}
