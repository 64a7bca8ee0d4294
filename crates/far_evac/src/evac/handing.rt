//! What a round lets a caller do with the book: each call is the book's, and leaves the round where it stands.

ghost use Rattle.far_hand.specs.Quiet.{IsQuietNear};
ghost use Rattle.far_book.specs.book.Calls.{FetchesObject, FindsHome, ListsSpans, MovesObject, PlacesObject, RetiresObject};
ghost use Rattle.far_book.specs.book.Fetching.{IsFar};
ghost use Rattle.far_book.specs.book.Rows.{row_of};
ghost use Rattle.far_events.specs.events.Naming.{is_dropped};
ghost use Rattle.far_word.specs.Pointer.{read_of};
ghost use Rattle.far_word.specs.declared.refused.Refused.TheVariants.{Memory};
ghost use Rattle.far_word.specs.declared.sizes.TheConstants.{CELLS, LONGEST};
ghost use Rattle.std.specs.Prelude.{IfErr, IfOk, map, true, ◌*◌, ◌<◌, ◌≡◌, ◌≤◌};
ghost use Rattle.far_evac.specs.EvacOf.{SameRound};

use crate::evac::Evac;
use far_book::{Book, Home, Near};
use far_device::Device;
use far_log::{LogRow, Span};
use far_word::{Place, Refused};

impl<N: Near + Drop, D: Device + Drop> Evac<N, D> {
    /// The book, to be read.
    pub fn book(&self) -> &Book<N, D>
        ensures { result.now ≡ self.now.book }
    {
        &self.book
    }

    /// Places a new object of `len` bytes, all 0, and of data structure `ds`, for a pointer whose cell is free, and answers where.
    /// A refusal is [`Refused::NoRoom`]: the open log has no room for it, and one log at most is free. Nothing has changed then, and no
    /// log was sealed.
    pub fn place(&mut self, pointer: u16, len: u16, ds: u8) -> Result<Place, Refused>
        requires pointer { pointer < CELLS * (N.view self.old.book.near).mutators }
        requires free { (N.view self.old.book.near).cell pointer ≡ 0 }
        requires some { 0 < len }
        requires most { len ≤ LONGEST }
        ensures placed { PlacesObject N.still N.view N.makes self.old.book self.new.book pointer len ds result }
        ensures round { SameRound self.old self.new }
    {
        self.book.keeps_law();
        let answer = self.book.place(pointer, len, ds);
        self.book.keeps_law();
        answer
    }

    /// Moves a near object that nobody stores into, and answers where it lies then, without marks but DIRTY. If the object has
    /// EVAC, it goes to a place where room is, in the last free log too; else it stays where it lies.
    ///
    /// `None` if its owner has dropped it: it is retired then. A refusal is [`Refused::NoRoom`]: the object lies as before.
    pub fn move_now(&mut self, pointer: u16) -> Result<Option<Place>, Refused>
        requires pointer { pointer < CELLS * (N.view self.old.book.near).mutators }
        requires quiet { IsQuietNear (N.view self.old.book.near) pointer }
        ensures moved { MovesObject N.still N.view N.makes D.contents D.honest D.faults D.fails_at_most D.lets_go D.forgets self.old.book self.new.book pointer result }
        ensures round { SameRound self.old self.new }
    {
        self.book.keeps_law();
        let answer = self.book.move_now(pointer);
        self.book.keeps_law();
        answer
    }

    /// Brings a far object near, and answers where it lies. The device keeps the bytes: until the object is written, it can leave
    /// without a write. If its owner has dropped it, it is retired instead, and the answer is `None`.
    ///
    /// Refused, in this order, [`Refused::NoRoom`]; [`Refused::Memory`] or [`Refused::Device`], which are the device's; and
    /// [`Refused::Damaged`], if the device gave more or fewer bytes than the object has. The device holds then what it held, the
    /// hand knows the marks that were found, nothing else of the heap has changed, and no log was sealed.
    pub fn fetch(&mut self, pointer: u16) -> Result<Option<Place>, Refused>
        requires pointer { pointer < CELLS * (N.view self.old.book.near).mutators }
        requires far { IsFar (N.view self.old.book.near) pointer }
        ensures fetched { FetchesObject N.still N.view N.makes D.contents D.honest D.faults D.fails_at_most D.lets_go D.forgets D.reads D.reads_in_place self.old.book self.new.book pointer result }
        ensures round { SameRound self.old self.new }
    {
        self.book.keeps_law();
        let answer = self.book.fetch(pointer);
        self.book.keeps_law();
        answer
    }

    /// Frees the cell of an object that its owner dropped; its span is dead from then on, if it lay near, and the device is
    /// told to forget its bytes.
    pub fn retire(&mut self, pointer: u16)
        requires pointer { pointer < CELLS * (N.view self.old.book.near).mutators }
        requires dropped { is_dropped (read_of ((N.view self.old.book.near).cell pointer)) ≡ true }
        ensures retired { RetiresObject N.still N.view N.makes D.contents D.honest D.faults D.fails_at_most D.lets_go D.forgets self.old.book self.new.book pointer }
        ensures round { SameRound self.old self.new }
    {
        self.book.keeps_law();
        self.book.retire(pointer);
        self.book.keeps_law();
    }

    /// Where a pointer's object is, with the marks that its cell has now; `None` exactly where the cell is free.
    pub fn locate(&mut self, pointer: u16) -> Option<Home>
        requires pointer { pointer < CELLS * (N.view self.old.book.near).mutators }
        ensures found { FindsHome N.still N.view N.makes N.may_be self.old.book self.new.book pointer result }
        ensures round { SameRound self.old self.new }
    {
        let answer = self.book.locate(pointer);
        self.book.keeps_law();
        answer
    }

    /// What each sealed log has, oldest first, a chosen one too. Refused [`Refused::Memory`] alone.
    pub fn rows(&self) -> Result<Vec<LogRow>, Refused>
        ensures rows { IfOk result (λ rows. rows.items ≡ map (row_of (N.view self.now.book.near)) self.now.book.order) }
        ensures refused { IfErr result (λ why. why ≡ Memory) }
    {
        self.book.rows()
    }

    /// The spans of a log, dead ones too, in their order. Refused [`Refused::Memory`] alone.
    pub fn spans(&mut self, log: u8) -> Result<Vec<Span>, Refused>
        requires log { log < (N.view self.old.book.near).logs }
        ensures listed { ListsSpans N.still N.view N.makes self.old.book self.new.book log result }
        ensures round { SameRound self.old self.new }
    {
        let answer = self.book.spans(log);
        self.book.keeps_law();
        answer
    }
}
