//! The evacuator: a book, and the round that empties some of its logs.

ghost use Rattle.std.specs.Prelude.{◌≡◌, ℕ, [], false, true};
ghost use Rattle.far_events.specs.state.Law.{Law};
ghost use Rattle.far_events.specs.state.State.{State};
ghost use Rattle.far_hand.specs.MayBe.{NoneViews, ViewsNone};
ghost use Rattle.far_book.specs.book.Own.{HasNoJob, own_part};
ghost use Rattle.far_evac.specs.declared.phase.Phase.TheVariants.{Evacuating, Idle};
ghost use Rattle.far_evac.specs.EvacOf.{moment};
ghost use Rattle.far_evac.specs.MomentLaw.{MomentLaw, has_risen};
ghost use Rattle.far_evac.specs.RoundSteps.{among};

mod alone;
mod auditing;
mod beside;
mod evacuating;
mod handing;
mod marking;
mod offering;
mod over_plain;
mod selecting;
mod turning;
mod waiting;

use crate::phase::Phase;
use crate::round::Round;
use far_book::{Book, Near};
use far_device::Device;
use far_policy::Chosen;
use std::marker::Model;

/// An evacuator: a region book, and the round that empties some of its logs.
///
/// Calls of the book that leave the round where it stands are handed on. No call blocks.
#[derive(Drop)]
pub struct Evac<N: Near + Drop, D: Device + Drop> {
    book: Book<N, D>,
    round: Round,
    // Whether hot objects are offered to copiers, while they leave.
    copying: bool,
}

impl<N: Near + Drop, D: Device + Drop> Model for Evac<N, D> {
    ghost use Rattle.far_evac.specs.EvacOf.{EvacOf};
    ghost use Rattle.far_evac.specs.Standing.{IsSound, collection_in};

    ghost Value = { EvacOf N D };

    ghost view = { λ e. record { book = e.book; phase = e.round.phase; collection = collection_in e.round; copying = e.copying } };

    ghost invariant = { λ e. IsSound N.still (N.view e.book.near) e.copying e.round };
}

impl<N: Near + Drop, D: Device + Drop> Evac<N, D> {
    /// An evacuator over a book without jobs, in no round. It leaves nothing to copiers.
    pub fn new(book: Book<N, D>) -> Evac<N, D>
        requires alone { HasNoJob (N.view book.near) }
        ensures book { result.book ≡ book }
        ensures phase { result.phase ≡ Idle }
        ensures collection { result.collection ≡ [] }
        ensures copying { result.copying ≡ false }
    {
        Evac::in_no_round(book, false)
    }

    /// An evacuator over a book without jobs, in no round, whose hot objects are offered to copiers while they leave. Its hand isn't still, as copiers act beside it.
    pub fn copying(book: Book<N, D>) -> Evac<N, D>
        requires moves { N.still → ⊥ }
        requires alone { HasNoJob (N.view book.near) }
        ensures book { result.book ≡ book }
        ensures phase { result.phase ≡ Idle }
        ensures collection { result.collection ≡ [] }
        ensures copying { result.copying ≡ true }
    {
        Evac::in_no_round(book, true)
    }

    // The same, by whether copies may be offered.
    fn in_no_round(book: Book<N, D>, copying: bool) -> Evac<N, D>
        requires exact { N.still → copying ≡ false }
        requires alone { HasNoJob (N.view book.near) }
        ensures book { result.book ≡ book }
        ensures phase { result.phase ≡ Idle }
        ensures collection { result.collection ≡ [] }
        ensures copying { result.copying ≡ copying }
    {
        Evac {
            book,
            round: Round {
                phase: Phase::Idle,
                chosen: Chosen::new(),
                index: 0,
                at: 0,
                seen: 0,
            },
            copying,
        }
    }

    /// Whether hot objects are offered to copiers, while they leave.
    pub fn is_copying(&self) -> bool
        ensures { result ≡ self.now.copying }
    {
        self.copying
    }

    /// Where the round stands.
    pub fn phase(&self) -> Phase
        ensures { result ≡ self.now.phase }
    {
        self.round.phase
    }

    /// What the book knows keeps its part of the law of the core, and the round agrees with it.
    pub fn keeps_law(&self)
        ensures law { Law (own_part (N.view self.now.book.near)) }
        ensures moment { MomentLaw (moment N.view self.now) }
        ensures exact { N.still → self.now.copying ≡ false }
    {
        self.book.keeps_law();
    }

    /// Once a poll has answered that all owners are clear, nobody views anything in the collection set, in whatever state the words may be beside the hand.
    /// While owners are waited for, none does who was seen clear.
    pub fn nobody_views(&self)
        ensures leaving { self.now.phase ≡ Evacuating → (x : State) → N.may_be self.now.book.near x → NoneViews (among self.now.collection) x }
        ensures waiting { has_risen self.now.phase ≡ true → (x : State) → N.may_be self.now.book.near x → (m : ℕ) → (N.view self.now.book.near).clear m ≡ true → ViewsNone (among self.now.collection) m x }
    {
        self.keeps_law();
    }
}
