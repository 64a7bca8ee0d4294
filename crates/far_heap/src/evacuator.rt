//! What the lock of a heap keeps: its evacuator, with the book over the one book's seat of the named heap's table.

ghost use Rattle.std.specs.Prelude.{◌≡◌, ◌*◌, ◌<◌, ℕ, [], false, true, IfOk, IfErr, map};
ghost use Rattle.far_word.specs.declared.refused.Refused.TheVariants.{Memory};
ghost use Rattle.far_word.specs.declared.sizes.TheConstants.{CELLS};
ghost use Rattle.far_core.specs.laws.Jobs.{JobsStand};
ghost use Rattle.far_events.specs.state.Law.{Law};
ghost use Rattle.far_events.specs.state.Shape.{is_shape};
ghost use Rattle.far_events.specs.state.State.{State};
ghost use Rattle.far_hand.specs.MayBe.{NoneViews, ViewsNone};
ghost use Rattle.far_hand.specs.ShapeOf.{shape_of};
ghost use Rattle.far_table.specs.BookSeats.{seat_makes, seat_may_be, seat_view};
ghost use Rattle.far_table.specs.Viewed.{NoneIsGivenOut};
ghost use Rattle.far_table.specs.Whole.{IsWhole};
ghost use Rattle.far_book.specs.book.Calls.{FindsHome, ListsSpans};
ghost use Rattle.far_book.specs.book.FarSide.{HoldsFar, HoldsOwn};
ghost use Rattle.far_book.specs.book.Own.{HasNoJob, own_part};
ghost use Rattle.far_book.specs.book.Rows.{row_of};
ghost use Rattle.far_evac.specs.Calls.{TakesCensus};
ghost use Rattle.far_evac.specs.Census.{kind_in};
ghost use Rattle.far_evac.specs.EvacOf.{SameRound, moment};
ghost use Rattle.far_evac.specs.MomentLaw.{MomentLaw, has_risen};
ghost use Rattle.far_evac.specs.RoundSteps.{among};
ghost use Rattle.far_evac.specs.declared.phase.Phase.TheVariants.{Evacuating, Idle};
ghost use Rattle.far_heap.specs.HeapId.{heap_of};

mod held;
mod owners;
mod rounds;
mod turns;

use crate::name::HeapName;
use far_book::{Book, Home};
use far_core::Shape;
use far_device::Device;
use far_evac::{Census, Evac, LogState, Phase};
use far_log::{LogRow, Span};
use far_table::BookSeat;
use far_word::Refused;
use std::marker::{Model, PhantomData};

/// The evacuator of the heap of a name, with the book: what the heap's lock keeps. Its calls are those of [`far_evac::Evac`] that leave owners' objects
/// to the owners; none blocks.
#[derive(Drop)]
pub struct Evacuator<K: HeapName, D: Device + Drop> {
    evac: Evac<BookSeat<D>, D>,
    of: PhantomData<K>,
}

impl<K: HeapName, D: Device + Drop> Model for Evacuator<K, D> {
    ghost use Rattle.std.specs.Prelude.{◌≡◌};
    ghost use Rattle.far_table.specs.declared.book.BookSeat.{BookSeat as seat_of};
    ghost use Rattle.far_evac.specs.EvacOf.{EvacOf};
    ghost use Rattle.far_heap.specs.HeapId.{heap_of};

    ghost Value = { EvacOf (seat_of D) D };

    ghost view = { λ e. e.evac };

    ghost invariant = { λ e. heap_of e.evac.copying e.evac.book.near ≡ K.heap };
}

impl<K: HeapName, D: Device + Drop> Evacuator<K, D> {
    // Over a book of the named heap, in no round, with no job. It leaves nothing to copiers.
    pub(crate) fn new(book: Book<BookSeat<D>, D>) -> Evacuator<K, D>
        requires named { heap_of false book.near ≡ K.heap }
        requires alone { HasNoJob (seat_view book.near) }
        ensures book { result.book ≡ book }
        ensures idle { result.phase ≡ Idle }
        ensures none { result.collection ≡ [] }
    {
        Evacuator::over(book, false)
    }

    // The same, whose hot objects are offered to copiers while they leave.
    pub(crate) fn copying(book: Book<BookSeat<D>, D>) -> Evacuator<K, D>
        requires named { heap_of true book.near ≡ K.heap }
        requires alone { HasNoJob (seat_view book.near) }
        ensures book { result.book ≡ book }
        ensures idle { result.phase ≡ Idle }
        ensures none { result.collection ≡ [] }
    {
        Evacuator::over(book, true)
    }

    // The same, by whether copies may be offered.
    fn over(book: Book<BookSeat<D>, D>, copying: bool) -> Evacuator<K, D>
        requires named { heap_of copying book.near ≡ K.heap }
        requires alone { HasNoJob (seat_view book.near) }
        ensures book { result.book ≡ book }
        ensures idle { result.phase ≡ Idle }
        ensures none { result.collection ≡ [] }
    {
        Evacuator {
            evac: held::over(book, copying),
            of: PhantomData,
        }
    }

    /// What holds whenever the lock is got, whatever any policy chose: the book is of the heap that the name names, with its size and its honesty, and offers copies
    /// exactly if that heap has copiers; what the book knows keeps its part of the law of the core, and the round agrees with it. In every state that the words and all
    /// views may be in objects and logs are whole: each object in use has one place, its pointer and the header there name each other, and a log's live, dead and
    /// unused bytes make its size. No log is given out in which an owner holds a place, and none is free that a job reads or writes; a finished copy, if it isn't void,
    /// has its source's words. The device holds bytes of its length of each far object, and of each near one without DIRTY: if the far side is honest, those that were
    /// stored, and of a near one its own; and the device is honest if the owners are told that the far side is. And there is such a state.
    pub fn keeps_law(&self)
        // the book is of the heap that the name names, and it and its round keep their laws
        ensures named { heap_of self.now.copying self.now.book.near ≡ K.heap }
        ensures law { Law (own_part (seat_view self.now.book.near)) }
        ensures moment { MomentLaw (moment seat_view self.now) }

        // in each state that the words may be in, objects and logs are whole, no log is given out in which an owner holds a place, and none is free that a job needs
        ensures whole { (x : State) → seat_may_be self.now.book.near x → IsWhole x }
        ensures kept { (x : State) → seat_may_be self.now.book.near x → NoneIsGivenOut x }
        ensures jobs { (x : State) → seat_may_be self.now.book.near x → JobsStand x }

        // there the device holds each far object's bytes, and of each near one without DIRTY its own; it is honest where the far side is said to be
        ensures far { (x : State) → seat_may_be self.now.book.near x → HoldsFar x (D.contents self.now.book.device) }
        ensures own { (x : State) → seat_may_be self.now.book.near x → HoldsOwn x (D.contents self.now.book.device) }
        ensures honest { (x : State) → seat_may_be self.now.book.near x → x.honest ≡ true → D.honest self.now.book.device ≡ true }

        // and there is such a state
        ensures there { ∥ ((x : State) × seat_may_be self.now.book.near x) ∥₁ }
    {
        self.stands();
    }

    // What holds by the book and the round alone. Its callers call this, and so pay for one call over the seat of a table.
    fn stands(&self)
        ensures named { heap_of self.now.copying self.now.book.near ≡ K.heap }
        ensures law { Law (own_part (seat_view self.now.book.near)) }
        ensures moment { MomentLaw (moment seat_view self.now) }
        ensures far { HoldsFar (seat_view self.now.book.near) (D.contents self.now.book.device) }
        ensures honest { (seat_view self.now.book.near).honest ≡ true → D.honest self.now.book.device ≡ true }
        ensures leaving { self.now.phase ≡ Evacuating → (x : State) → seat_may_be self.now.book.near x → NoneViews (among self.now.collection) x }
        ensures waiting { has_risen self.now.phase ≡ true → (x : State) → seat_may_be self.now.book.near x → (m : ℕ) → (seat_view self.now.book.near).clear m ≡ true → ViewsNone (among self.now.collection) m x }
    {
        held::keeps_law(&self.evac);
    }

    /// How large the heap is, and its epoch now.
    pub fn shape(&self) -> Shape
        ensures is { result ≡ shape_of (seat_view self.now.book.near) }
        ensures range { is_shape result ≡ true }
    {
        held::shape(&self.evac)
    }

    /// Where the round stands.
    pub fn phase(&self) -> Phase
        ensures { result ≡ self.now.phase }
    {
        self.evac.phase()
    }

    /// What a log is and has, of a number below [`Evacuator::shape`]'s; one that is chosen and not yet given back is named so.
    pub fn log(&self, log: u8) -> LogState
        requires log { log < (seat_view self.now.book.near).logs }
        ensures kind { result.kind ≡ kind_in (moment seat_view self.now) log }
        ensures row { result.row ≡ row_of (seat_view self.now.book.near) log }
    {
        self.evac.log(log)
    }

    /// What each sealed log has, oldest first, a chosen one too. Refused [`Refused::Memory`] alone.
    pub fn rows(&self) -> Result<Vec<LogRow>, Refused>
        ensures rows { IfOk result (λ rows. rows.items ≡ map (row_of (seat_view self.now.book.near)) self.now.book.order) }
        ensures refused { IfErr result (λ why. why ≡ Memory) }
    {
        self.evac.rows()
    }

    /// The spans of a log, dead ones too, in their order. Refused [`Refused::Memory`] alone.
    pub fn spans(&mut self, log: u8) -> Result<Vec<Span>, Refused>
        requires log { log < (seat_view self.old.book.near).logs }
        ensures listed { ListsSpans ⊥ seat_view seat_makes self.old.book self.new.book log result }
        ensures round { SameRound self.old self.new }
    {
        self.evac.spans(log)
    }

    /// Where a pointer's object is, of a number below 256 for each mutator of [`Evacuator::shape`], with the marks that its cell was found with;
    /// `None` exactly where the cell is free. Its owner may add marks at any moment.
    #[inline(always)]
    pub fn locate(&mut self, pointer: u16) -> Option<Home>
        requires pointer { pointer < CELLS * (seat_view self.old.book.near).mutators }
        ensures found { FindsHome ⊥ seat_view seat_makes seat_may_be self.old.book self.new.book pointer result }
        ensures round { SameRound self.old self.new }
    {
        self.evac.locate(pointer)
    }

    /// Where each object is whose cell wasn't found with DROP, once, by rising pointers, and what each log is and has, once, by number. Nothing has
    /// moved. Refused [`Refused::Memory`] alone.
    pub fn audit(&mut self) -> Result<Census, Refused>
        ensures { TakesCensus ⊥ seat_view seat_makes self.old self.new result }
    {
        self.evac.audit()
    }
}
