//! The book: where each object lies, and what each log has.

ghost use Rattle.std.specs.Prelude.{◌≡◌, ◌+◌, ◌*◌, ◌<◌, ◌≤◌, ◌↔◌, ℕ, true, false, eqb, List, [], map, length, slice_index, Some, None, IsSome, IfOk, IfErr, IfSome};
ghost use Rattle.std.specs.List.{IsDistinct, list_any};
ghost use Rattle.std.specs.Vec.{vec_capacity, vec_len};
ghost use Rattle.far_word.specs.declared.pointer.PtrWord.TheVariants.{Near as near_at};
ghost use Rattle.far_word.specs.declared.refused.Refused.TheVariants.{Memory, NoRoom};
ghost use Rattle.far_word.specs.declared.sizes.TheConstants.{CELLS, LONGEST, LOG_WORDS};
ghost use Rattle.far_word.specs.Header.{IsHead};
ghost use Rattle.far_word.specs.Pointer.{IsPtr, read_of, word_of};
ghost use Rattle.far_word.specs.Sizes.{size_of};
ghost use Rattle.far_log.specs.declared.span.Span.{Span as SpanOf};
ghost use Rattle.far_log.specs.Walk.{IsWalk};
ghost use Rattle.far_events.specs.declared.event.Kind.TheVariants.{Sealed};
ghost use Rattle.far_events.specs.declared.event.Event.{Event};
ghost use Rattle.far_events.specs.events.Legal.{IsNext, Legal};
ghost use Rattle.far_events.specs.events.Naming.{no_marks, is_dropped};
ghost use Rattle.far_events.specs.state.Law.{Law};
ghost use Rattle.far_core.specs.state.Room.{room};
ghost use Rattle.far_events.specs.state.Shape.{is_shape};
ghost use Rattle.far_hand.specs.Finds.{Finds, body_of};
ghost use Rattle.far_hand.specs.Came.{Came, only};
ghost use Rattle.far_hand.specs.Known.{Forgets};
ghost use Rattle.far_book.specs.book.Calls.{FindsHome, ListsSpans, PlacesObject, RetiresObject};
ghost use Rattle.far_book.specs.book.Effects.{with_blank_span, placed, retired};
ghost use Rattle.far_book.specs.book.FarSide.{HoldsFar};
ghost use Rattle.far_book.specs.book.HandedOn.{MarksCell, SeesCell};
ghost use Rattle.far_book.specs.book.Home.{home_of};
ghost use Rattle.far_book.specs.book.Ledger.{IsLowestFree};
ghost use Rattle.far_book.specs.book.Only.{Reads, Writes};
ghost use Rattle.far_book.specs.book.Own.{own_part, IsAtStart};
ghost use Rattle.far_hand.specs.ShapeOf.{shape_of};
ghost use Rattle.far_book.specs.book.Reading.{HeadersKnown, IsReadAt};
ghost use Rattle.far_book.specs.book.Renaming.{seen};
ghost use Rattle.far_book.specs.book.Rows.{row_of};

mod collecting;
mod fetching;
mod glancing;
mod leaving;
mod moving;
mod next;
mod offering;
mod over_beset;
mod over_plain;
mod renaming;
mod round;
mod whole;
mod words;

use crate::book::words::near_word;
use crate::counts::Counts;
use crate::home::Home;
use crate::ledger::Ledger;
use crate::log_rows::LogRows;
use far_core::{Kind, Shape};
use far_device::Device;
use far_hand::Near;
use far_log::{LogRow, Span, WalkFault, walk};
use far_word::{HeadWord, LOG_WORDS, LONGEST, Place, PtrWord, Refused, size_of, words_for};
pub use moving::has_evac;
use std::alloc::Global;
use std::marker::Model;

/// The region book: where each object of a heap lies, and what each of its logs has.
///
/// It touches the shared words through the hand that it was given, and keeps the bytes of far objects in its device. All its room is taken when it is made: later
/// only the calls that answer lists, and those of its device, take memory.
#[derive(Drop)]
pub struct Book<N: Near + Drop, D: Device + Drop> {
    near: N,
    device: D,
    alloc: Global,
    ledger: Ledger,
    // By way of it the bytes of objects go far and come back; it has room for the longest.
    buffer: Vec<u8>,
    counts: Counts,
}

impl<N: Near + Drop, D: Device + Drop> Model for Book<N, D> {
    ghost use Rattle.far_book.specs.book.BookOf.{BookOf};
    ghost use Rattle.std.specs.Prelude.{◌≤◌};
    ghost use Rattle.std.specs.Vec.{vec_capacity};
    ghost use Rattle.far_word.specs.declared.sizes.TheConstants.{LONGEST};
    ghost use Rattle.far_book.specs.book.FarSide.{InOrder};

    ghost Value = { BookOf N D };

    ghost view = { λ b. record { near = b.near; device = b.device; order = b.ledger.order } };

    ghost invariant = { λ b. InOrder (N.view b.near) b.ledger (D.contents b.device) (D.honest b.device) × (LONGEST ≤ vec_capacity b.buffer) };
}

impl<N: Near + Drop, D: Device + Drop> Book<N, D> {
    /// A book over a hand on words of which no cell is used yet and the logs are as at the start, and over a device, which is
    /// honest where the words say that the far side is. Refused [`Refused::Memory`] alone, and hand and device are
    /// dropped then.
    pub fn new(alloc: Global, near: N, device: D) -> Result<Book<N, D>, Refused>
        requires start { IsAtStart (N.view near) }
        requires honest { (N.view near).honest ≡ true → D.honest device ≡ true }
        ensures near { IfOk result (λ book. book.near ≡ near) }
        ensures device { IfOk result (λ book. book.device ≡ device) }
        ensures order { IfOk result (λ book. book.order ≡ []) }
        ensures refused { IfErr result (λ why. why ≡ Memory) }
    {
        let shape = near.shape();
        let Ok(ledger) = Ledger::new(alloc, shape) else {
            return Err(Refused::Memory);
        };
        let Ok(buffer) = Vec::with_capacity(alloc, LONGEST as usize) else {
            return Err(Refused::Memory);
        };
        Ok(Book {
            near,
            device,
            alloc,
            ledger,
            buffer,
            counts: Counts::none(),
        })
    }

    /// How large the heap is, and its epoch now.
    pub fn shape(&self) -> Shape
        ensures is { result ≡ shape_of (N.view self.now.near) }
        ensures range { is_shape result ≡ true }
    {
        self.near.shape()
    }

    /// What the book has done since it was made.
    pub fn counts(&self) -> Counts {
        self.counts
    }

    /// How many calls of the device have answered that it failed, modulo 2^64.
    pub fn faults(&self) -> u64
        ensures { result ≡ D.faults self.now.device }
    {
        self.device.faults()
    }

    /// An empty list with room for `count` elements, from the book's own allocator. Refused [`Refused::Memory`] alone.
    pub fn empty_list<T: Drop>(&self, count: usize) -> Result<Vec<T>, Refused>
        ensures empty { IfOk result (λ list. list.items ≡ []) }
        ensures room { IfOk result (λ list. count ≤ vec_capacity list) }
        ensures refused { IfErr result (λ why. why ≡ Memory) }
    {
        let Ok(list) = Vec::with_capacity(self.alloc, count) else {
            return Err(Refused::Memory);
        };
        Ok(list)
    }

    /// The lowest pointer of a mutator that has a free cell; `None` if none of its 256 cells is free.
    pub fn free_cell(&self, owner: u8) -> Option<u16>
        requires owner { owner < (N.view self.now.near).mutators }
        ensures { IsLowestFree (N.view self.now.near) owner result }
    {
        self.ledger.free_cell(owner)
    }

    /// Places a new object of `len` bytes, all 0, and of data structure `ds`, for a pointer whose cell is free, and answers where.
    /// A refusal is [`Refused::NoRoom`]: the open log has no room for it, and one log at most is free. Nothing has changed then, and no
    /// log was sealed.
    pub fn place(&mut self, pointer: u16, len: u16, ds: u8) -> Result<Place, Refused>
        requires pointer { pointer < CELLS * (N.view self.old.near).mutators }
        requires free { (N.view self.old.near).cell pointer ≡ 0 }
        requires some { 0 < len }
        requires most { len ≤ LONGEST }
        ensures { PlacesObject N.still N.view N.makes self.old self.new pointer len ds result }
    {
        let size = size_of(len);
        let Some(place) = self.ledger.room(size, true) else {
            return Err(Refused::NoRoom);
        };
        name_blank(&mut self.near, pointer, len, ds, place);
        self.ledger.take(pointer, size, place);
        Ok(place)
    }

    /// Frees the cell of an object that its owner dropped; its span is dead from then on, if it lay near, and the device is
    /// told to forget its bytes.
    pub fn retire(&mut self, pointer: u16)
        requires pointer { pointer < CELLS * (N.view self.old.near).mutators }
        requires dropped { is_dropped (read_of ((N.view self.old.near).cell pointer)) ≡ true }
        ensures { RetiresObject N.still N.view N.makes D.contents D.honest D.faults D.fails_at_most D.lets_go D.forgets self.old self.new pointer }
    {
        let was = free_cell(&mut self.near, pointer);
        self.ledger.retire(pointer, was);
        self.device.forget(pointer as u32);
    }

    /// The cell of a pointer, as it is found.
    pub fn see(&mut self, pointer: u16) -> u64
        requires pointer { pointer < CELLS * (N.view self.old.near).mutators }
        ensures { SeesCell N.still N.view N.makes N.may_be self.old self.new pointer result }
    {
        self.near.see(pointer)
    }

    /// The cell of a pointer: as it is known, if its word is given, without a look; or else as it is found.
    #[inline(always)]
    pub fn cell_of(&mut self, pointer: u16, known: Option<u64>) -> u64
        // a pointer of the heap, and its cell's word, where that is known
        requires pointer { pointer < CELLS * (N.view self.old.near).mutators }
        requires known { IfSome known (λ word. word ≡ (N.view self.old.near).cell pointer) }

        // a known word is the answer, and nothing is looked at
        ensures unseen { IfSome known (λ word. (result ≡ word) × (self.new ≡ self.old)) }

        // else the word that was found: the known one, perhaps with marks more; the book knows it then, and nothing else has changed
        ensures found { Finds ((N.view self.old.near).cell pointer) result }
        ensures now { result ≡ (N.view self.new.near).cell pointer }
        ensures kept { N.view self.new.near ≡ seen (N.view self.old.near) pointer result }

        // over a hand that is still it is the word that was known, and nothing has changed
        ensures exact { N.still → result ≡ (N.view self.old.near).cell pointer }
        ensures set { N.still → N.view self.new.near ≡ N.view self.old.near }

        // only calls of the hand led there; the order of logs and the device stay
        ensures came { Came N.makes self.old.near self.new.near }
        ensures order { self.new.order ≡ self.old.order }
        ensures device { self.new.device ≡ self.old.device }
    {
        match known {
            Some(word) => word,
            None => self.see(pointer),
        }
    }

    /// Sets EVAC on a near pointer whose place lies in a sealed log, and answers its word before, as it was found.
    pub fn mark(&mut self, pointer: u16) -> u64
        requires legal { Legal (N.view self.old.near) (Event.Mark pointer) }
        ensures { MarksCell N.still N.view N.makes self.old self.new pointer result }
    {
        self.near.mark(pointer)
    }

    /// Where a pointer's object is, with the marks that its cell has now; `None` exactly where the cell is free.
    pub fn locate(&mut self, pointer: u16) -> Option<Home>
        requires pointer { pointer < CELLS * (N.view self.old.near).mutators }
        ensures { FindsHome N.still N.view N.makes N.may_be self.old self.new pointer result }
    {
        home_in(self.near.see(pointer))
    }

    /// What a log is, and what it has.
    pub fn log(&self, log: u8) -> (Kind, LogRow)
        requires log { log < (N.view self.now.near).logs }
        ensures kind { result.0 ≡ (N.view self.now.near).kind log }
        ensures row { result.1 ≡ row_of (N.view self.now.near) log }
    {
        (self.ledger.kind(log), self.ledger.row(log))
    }

    /// What each sealed log has, oldest first, in one value. Takes no memory.
    pub fn log_rows(&self) -> LogRows
        ensures { result ≡ map (row_of (N.view self.now.near)) self.now.order }
    {
        let mut rows = LogRows::new();
        let (listed, gone) = self.ledger.order.parts();
        for log in listed {
            if gone.has(*log) {
                continue;
            }
            rows.push(self.ledger.row(*log));
        }
        rows
    }

    /// The same as a list, with room for these rows alone. Refused [`Refused::Memory`] alone.
    pub fn rows(&self) -> Result<Vec<LogRow>, Refused>
        ensures rows { IfOk result (λ rows. rows.items ≡ map (row_of (N.view self.now.near)) self.now.order) }
        ensures room { IfOk result (λ rows. vec_capacity rows ≡ vec_len rows) }
        ensures refused { IfErr result (λ why. why ≡ Memory) }
    {
        let rows = self.log_rows();
        let found = rows.as_slice();
        let Ok(mut all) = Vec::with_capacity(self.alloc, found.len()) else {
            return Err(Refused::Memory);
        };
        for row in found {
            all.push_reserved(*row);
        }
        Ok(all)
    }

    /// The spans of a log, dead ones too, in their order. Refused [`Refused::Memory`] alone.
    pub fn spans(&mut self, log: u8) -> Result<Vec<Span>, Refused>
        requires log { log < (N.view self.old.near).logs }
        ensures { ListsSpans N.still N.view N.makes self.old self.new log result }
    {
        let tail = self.ledger.tail(log);
        let words = read_words(&mut self.near, log, tail);
        listed(self.alloc, &words, tail)
    }

    /// What the book knows keeps its part of the law of the core, and its order names each sealed log, once. Of each far object, and of
    /// each near one without DIRTY, the device holds as many bytes as the object has. If the words say that the far side is honest,
    /// these are the bytes that were stored, and the device is honest.
    pub fn keeps_law(&self)
        ensures law { Law (own_part (N.view self.now.near)) }
        ensures sealed { (l : ℕ) → (list_any (eqb l) self.now.order ≡ true) ↔ ((N.view self.now.near).kind l ≡ Sealed) }
        ensures once { IsDistinct eqb self.now.order }
        ensures far { HoldsFar (N.view self.now.near) (D.contents self.now.device) }
        ensures honest { (N.view self.now.near).honest ≡ true → D.honest self.now.device ≡ true }
    {
        let _ = &self.ledger;
    }
}

// Where the object of a cell is.
fn home_in(cell: u64) -> Option<Home>
    requires { IsSome (read_of cell) }
    ensures { result ≡ home_of (read_of cell) }
{
    match PtrWord::known(cell) {
        PtrWord::Free => None,
        PtrWord::Near { place, marks, .. } => Some(Home::Near { place, marks }),
        PtrWord::Far { marks, .. } => Some(Home::Far { marks }),
    }
}

// Writes a header and zeros where a new object goes, and names the place by its free cell.
fn name_blank<N: Near>(near: &mut N, pointer: u16, len: u16, ds: u8, place: Place)
    // the pointer's cell is free, header and cell have words for such an object, and the next span may stand at the place
    requires pointer { pointer < CELLS * (N.view near.old).mutators }
    requires free { (N.view near.old).cell pointer ≡ 0 }
    requires head { IsHead record { pointer = pointer; len = len; ds = ds } }
    requires layout { IsPtr (near_at len ds place no_marks) }
    requires next { IsNext (N.view near.old) place }
    requires tail { (N.view near.old).tail place.log ≡ place.at }

    // the object lies there, by its cell, and only calls of the hand led there; words may have been forgotten, but over a hand that is still
    ensures kept { N.view near.new ≡ record (placed (N.view near.old) pointer len ds place) { word = (N.view near.new).word } }
    ensures forgot { Forgets (placed (N.view near.old) pointer len ds place) (N.view near.new) }
    ensures exact { N.still → N.view near.new ≡ placed (N.view near.old) pointer len ds place }
    ensures came { Came N.makes near.old near.new }
{
    put_blank(near, pointer, len, ds, place);
    let word = near_word(true, len, ds, place);
    // Nobody but the book changes a free cell.
    let Ok(()) = near.name(pointer, 0, word) else {
        unreachable!()
    };
}

// Writes a header and zeros behind it.
fn put_blank<N: Near>(near: &mut N, pointer: u16, len: u16, ds: u8, place: Place)
    requires head { IsHead record { pointer = pointer; len = len; ds = ds } }
    requires layout { IsPtr (near_at len ds place no_marks) }
    requires next { IsNext (N.view near.old) place }
    requires tail { (N.view near.old).tail place.log ≡ place.at }
    ensures set { N.view near.new ≡ with_blank_span (N.view near.old) pointer len ds place }
    ensures puts { Came (only (Writes place.log) N.makes) near.old near.new }
{
    let header = HeadWord { pointer, len, ds };
    near.put(place.log, place.at, header.pack());
    near.put_zeros(place.log, place.at + 1, words_for(len));
}

// Frees the cell of a dropped object, by the word that was last found there, and answers what that word said.
fn free_cell<N: Near>(near: &mut N, pointer: u16) -> PtrWord
    requires pointer { pointer < CELLS * (N.view near.old).mutators }
    requires dropped { is_dropped (read_of ((N.view near.old).cell pointer)) ≡ true }
    ensures was { body_of (Some result) ≡ body_of (read_of ((N.view near.old).cell pointer)) }
    ensures kept { N.view near.new ≡ record (retired (N.view near.old) pointer) { word = (N.view near.new).word } }
    ensures forgot { Forgets (N.view near.old) (N.view near.new) }
    ensures exact { N.still → N.view near.new ≡ retired (N.view near.old) pointer }
    ensures came { Came N.makes near.old near.new }
{
    let mut word = near.see(pointer);
    let mut was = says(word);
    for _ in 0..4u8 {
        match near.name(pointer, word, 0) {
            Ok(()) => return was,
            Err(found) => {
                word = found;
                was = says(found);
            }
        }
    }
    // It has DROP; each try found HOT, MOVE or DIRTY added, and each of them can be added once.
    unreachable!()
}

// What a dropped object's cell says.
fn says(word: u64) -> PtrWord
    requires { is_dropped (read_of word) ≡ true }
    ensures is { read_of word ≡ Some result }
    ensures layout { IsPtr result }
    ensures word { word_of result ≡ word }
{
    PtrWord::known(word)
}

// The first `tail` words of a log, each as it was when it was read.
fn read_words<N: Near>(near: &mut N, log: u8, tail: u16) -> [u64; LOG_WORDS as usize]
    requires log { log < (N.view near.old).logs }
    requires tail { tail ≤ LOG_WORDS }
    requires known { HeadersKnown (N.view near.old) }
    ensures words { (i : ℕ) → i < tail → IsReadAt (N.view near.old) (log * LOG_WORDS + i) (slice_index result i) }
    ensures length { length result ≡ LOG_WORDS }
    ensures kept { N.view near.new ≡ record (N.view near.old) { word = (N.view near.new).word } }
    ensures headers { (a : ℕ) → (N.view near.old).starts a ≡ true → (N.view near.new).word a ≡ (N.view near.old).word a }
    ensures exact { N.still → N.view near.new ≡ N.view near.old }
    ensures reads { Came (only (Reads log) N.makes) near.old near.new }
{
    let mut words = [0; LOG_WORDS as usize];
    for i in 0..tail {
        words[i as usize] = near.get(log, i, false);
    }
    words
}

// The spans of words that have a list of them.
fn listed(alloc: Global, words: &[u64], tail: u16) -> Result<Vec<Span>, Refused>
    requires within { tail ≤ length words.now }
    requires log { length words.now ≤ LOG_WORDS }
    requires walks { (spans : List SpanOf) × IsWalk (λ i. slice_index words.now i) tail spans }
    ensures spans { (spans : List SpanOf) → IsWalk (λ i. slice_index words.now i) tail spans → IfOk result (λ found. found.items ≡ spans) }
    ensures refused { IfErr result (λ why. why ≡ Memory) }
{
    match walk(alloc, words, tail as usize) {
        Ok(spans) => Ok(spans),
        Err(WalkFault::Memory) => Err(Refused::Memory),
        Err(WalkFault::Bad(_)) => unreachable!(),
    }
}
