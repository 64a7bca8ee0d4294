//! What the book has written down of logs, cells and jobs. So no call of the ledger searches more than a mutator's 4 sets of free cells, or 16 jobs, but that
//! sealing a log goes over the list of sealed logs.

ghost use Rattle.std.specs.Prelude.{◌≡◌, ◌≢◌, ℕ, ◌+◌, ◌-◌, ◌*◌, ◌/◌, ◌<◌, ◌≤◌, ◌==◌, true, false, length, Bool, Some, None, List, [], IfOk, MatchOption};
ghost use Rattle.std.specs.Vec.{vec_len};
ghost use Rattle.far_word.specs.declared.sizes.TheConstants.{CELLS, LOG_WORDS, MOST_LOGS};
ghost use Rattle.far_core.specs.laws.Observed.{live_bytes};
ghost use Rattle.far_events.specs.state.Opening.{for_copiers, opening};
ghost use Rattle.far_core.specs.state.Room.{room};
ghost use Rattle.far_events.specs.state.Shape.{is_shape};
ghost use Rattle.far_events.specs.state.State.{State};
ghost use Rattle.far_book.specs.book.Effects.{with_free_cell};
ghost use Rattle.far_book.specs.book.Ledger.{Notes, KnowsLog, filled_of, is_noted_free, MayBegin, MayTakeAgain, MayTake, MayRetire, Begins, TakesAgain, Opens, Passes, Takes, Loses, Frees, IsLowestFree};
ghost use Rattle.far_book.specs.book.NumberSet.{HasNoneLeft, IsLowestLeft, has};
ghost use Rattle.far_book.specs.book.Own.{own_part};
ghost use Rattle.far_book.specs.book.Releasing.{GivesBack};
ghost use Rattle.far_book.specs.book.Rows.{row_of};

use crate::jobs::Jobs;
use crate::number_set::NumberSet;
use crate::order::Order;
use far_core::{Kind, Shape};
use far_log::LogRow;
use far_word::{CELLS, LOG_WORDS, Place, PtrWord, size_of};
use std::alloc::{AllocError, Global};

// Of a mutator's free cells: so many sets, of 64 cells each.
pub(crate) const SETS: usize = CELLS as usize / 64;

/// What one log has.
#[derive(Clone, Copy)]
pub(crate) struct Filled {
    /// Where its spans end, in words.
    pub(crate) tail: u16,
    /// The bytes that its live spans take.
    pub(crate) live: u16,
}

/// What the book has written down of logs, cells and jobs. All its room is taken when it is made.
#[derive(Drop)]
pub(crate) struct Ledger {
    /// The open log.
    pub(crate) current: u8,
    pub(crate) free_logs: NumberSet,
    /// What each log has.
    pub(crate) filled: Vec<Filled>,
    /// The sealed logs, oldest first.
    pub(crate) order: Order,
    /// The free cells, [`SETS`] sets a mutator.
    pub(crate) free_cells: Vec<NumberSet>,
    /// The jobs that are offered to copiers.
    pub(crate) jobs: Jobs,
}

impl Ledger {
    /// The ledger of a heap at the start.
    pub(crate) fn new(alloc: Global, shape: Shape) -> Result<Ledger, AllocError>
        requires { is_shape shape ≡ true }
        ensures notes { IfOk result (λ ledger. (has : Bool) → Notes (own_part (for_copiers has (opening shape false))) ledger) }
        ensures order { IfOk result (λ ledger. ledger.order ≡ []) }
    {
        let logs = shape.logs as usize;
        let sets = SETS * shape.mutators as usize;
        let mut free_logs = NumberSet::below(shape.logs as u8);
        free_logs.remove(0);
        let filled = vec![in alloc; Filled { tail: 0, live: 0 }; logs]?;
        let order = Order::new(alloc)?;
        let free_cells = vec![in alloc; NumberSet::below(64); sets]?;
        Ok(Ledger {
            current: 0,
            free_logs,
            filled,
            order,
            free_cells,
            jobs: Jobs::new(),
        })
    }

    // What is written down of a log.
    fn filled_of(&self, log: u8) -> Filled
        requires { log < vec_len self.now.filled }
        ensures { result ≡ filled_of self.now log }
    {
        self.filled[log as usize]
    }

    /// Where a span goes that takes so many words. With `reserve` the last free log isn't taken: so for a new object, and one that is fetched.
    pub(crate) fn room(&self, size: u16, reserve: bool) -> Option<Place>
        requires size { size ≤ LOG_WORDS }
        requires known { (s : State) × Notes s self.now }
        ensures { (s : State) → Notes s self.now → result ≡ room s size reserve }
    {
        let tail = self.filled_of(self.current).tail;
        if tail + size <= LOG_WORDS {
            return Some(Place {
                log: self.current,
                at: tail,
            });
        }
        match self.lowest_free(reserve) {
            Some(log) => Some(Place { log, at: 0 }),
            None => None,
        }
    }

    // The lowest free log; with `reserve`, if it isn't the only one.
    fn lowest_free(&self, reserve: bool) -> Option<u8>
        ensures { MatchOption result (HasNoneLeft self.now.free_logs reserve) (λ log. IsLowestLeft self.now.free_logs reserve log) }
    {
        if reserve {
            self.free_logs.lowest_of_two()
        } else {
            self.free_logs.lowest()
        }
    }

    /// Where the spans of a log end, in words.
    pub(crate) fn tail(&self, log: u8) -> u16
        requires known { (s : State) × KnowsLog s self.now log }
        ensures is { (s : State) → KnowsLog s self.now log → result ≡ s.tail log }
        ensures short { result ≤ LOG_WORDS }
    {
        self.filled_of(log).tail
    }

    /// What a log is.
    pub(crate) fn kind(&self, log: u8) -> Kind
        requires known { (s : State) × KnowsLog s self.now log }
        ensures { (s : State) → KnowsLog s self.now log → result ≡ s.kind log }
    {
        if self.free_logs.has(log) {
            Kind::Free
        } else if log == self.current {
            Kind::Open
        } else {
            Kind::Sealed
        }
    }

    /// What a log has in bytes.
    pub(crate) fn row(&self, log: u8) -> LogRow
        requires known { (s : State) × KnowsLog s self.now log }
        ensures { (s : State) → KnowsLog s self.now log → result ≡ row_of s log }
    {
        let Filled { tail, live } = self.filled_of(log);
        LogRow {
            log,
            live,
            dead: 8 * tail - live,
            unused: 8 * (LOG_WORDS - tail),
        }
    }

    /// Whether no span of a log is live.
    pub(crate) fn is_vacant(&self, log: u8) -> bool
        requires known { (s : State) × KnowsLog s self.now log }
        ensures { (s : State) → KnowsLog s self.now log → result ≡ (live_bytes s log == 0) }
    {
        self.filled_of(log).live == 0
    }

    /// The lowest free cell of a mutator.
    pub(crate) fn free_cell(&self, owner: u8) -> Option<u16>
        requires known { (s : State) × Notes s self.now × (owner < s.mutators) }
        ensures { (s : State) → Notes s self.now → owner < s.mutators → IsLowestFree s owner result }
    {
        for i in 0..SETS {
            let set = SETS * owner as usize + i;
            if let Some(cell) = self.free_cells[set].lowest() {
                return Some(64 * set as u16 + cell as u16);
            }
        }
        None
    }

    /// A span of so many words is taken at a place, for a pointer that had none: its cell isn't free from then on.
    #[inline(always)]
    pub(crate) fn take(&mut self, pointer: u16, size: u16, place: Place)
        requires { MayTake self.old pointer size place }
        ensures { Takes self.old self.new pointer size place }
    {
        self.take_again(size, place);
        self.free_cells[pointer as usize / 64].remove((pointer % 64) as u8);
    }

    /// As [`Ledger::take`], for a pointer whose cell isn't free.
    #[inline]
    pub(crate) fn take_again(&mut self, size: u16, place: Place)
        requires { MayTakeAgain self.old size place }
        ensures { TakesAgain self.old self.new size place }
    {
        self.open(place.log);
        self.fill(place.log, size);
    }

    /// A dead span of so many words is taken at a place.
    pub(crate) fn begin(&mut self, size: u16, place: Place)
        requires { MayBegin self.old size place }
        ensures { Begins self.old self.new size place }
    {
        self.open(place.log);
        self.filled[place.log as usize].tail += size;
    }

    // A log is the open one; one that was open before is sealed.
    #[inline]
    fn open(&mut self, log: u8)
        requires few { log < 64 }
        requires order { log ≢ self.old.current → length self.old.order < MOST_LOGS }
        requires taken { has self.old.free_logs self.old.current ≡ false }
        ensures { Opens self.old self.new log }
    {
        if log != self.current {
            self.order.push(self.current);
            self.current = log;
            self.free_logs.remove(log);
        }
    }

    // A log has one live span of so many words more.
    fn fill(&mut self, log: u8, size: u16)
        requires log { log < vec_len self.old.filled }
        requires tail { (filled_of self.old log).tail + size ≤ LOG_WORDS }
        requires live { (filled_of self.old log).live ≤ 8 * (filled_of self.old log).tail }
        ensures here { filled_of self.new log ≡ record { tail = (filled_of self.old log).tail + size; live = (filled_of self.old log).live + 8 * size } }
        ensures there { (l : ℕ) → l ≢ log → filled_of self.new l ≡ filled_of self.old l }
        ensures logs { vec_len self.new.filled ≡ vec_len self.old.filled }
        ensures rest { self.new ≡ record self.old { filled = self.new.filled } }
    {
        let filled = &mut self.filled[log as usize];
        filled.tail += size;
        filled.live += 8 * size;
    }

    /// A dropped object is retired, of which this was known: its cell is free, and its span is dead, if it lay near.
    pub(crate) fn retire(&mut self, pointer: u16, was: PtrWord)
        requires known { (s : State) × Notes s self.old × MayRetire s pointer was }
        ensures notes { (s : State) → Notes s self.old → MayRetire s pointer was → Notes (with_free_cell s pointer) self.new }
        ensures order { self.new.order ≡ self.old.order }
    {
        match was {
            PtrWord::Near { len, place, .. } => self.lose(place.log, size_of(len)),
            PtrWord::Far { .. } => {}
            PtrWord::Free => {}
        }
        self.give(pointer);
    }

    /// A live span of so many words is dead.
    pub(crate) fn lose(&mut self, log: u8, size: u16)
        requires log { log < vec_len self.old.filled }
        requires live { 8 * size ≤ (filled_of self.old log).live }
        requires size { size ≤ LOG_WORDS }
        ensures { Loses self.old self.new log size }
    {
        self.filled[log as usize].live -= 8 * size;
    }

    /// An object is live in another log, in a span of as many words.
    pub(crate) fn pass(&mut self, from: u8, to: u8, size: u16)
        requires from { from < vec_len self.old.filled }
        requires to { to < vec_len self.old.filled }
        requires other { from ≢ to }
        requires live { 8 * size ≤ (filled_of self.old from).live }
        requires size { size ≤ LOG_WORDS }
        requires room { (filled_of self.old to).live ≤ 8 * LOG_WORDS }
        ensures { Passes self.old self.new from to size }
    {
        self.lose(from, size);
        self.filled[to as usize].live += 8 * size;
    }

    /// A log is given back: it is free, and has nothing.
    pub(crate) fn give_back(&mut self, log: u8)
        requires few { log < 64 }
        requires log { log < vec_len self.old.filled }
        ensures { GivesBack self.old self.new log }
    {
        self.free_logs.insert(log);
        self.empty(log);
        self.order.leave(log);
    }

    // A log has no span.
    fn empty(&mut self, log: u8)
        requires { log < vec_len self.old.filled }
        ensures here { filled_of self.new log ≡ record { tail = 0; live = 0 } }
        ensures there { (l : ℕ) → l ≢ log → filled_of self.new l ≡ filled_of self.old l }
        ensures logs { vec_len self.new.filled ≡ vec_len self.old.filled }
        ensures rest { self.new ≡ record self.old { filled = self.new.filled } }
    {
        self.filled[log as usize] = Filled { tail: 0, live: 0 };
    }

    // A cell is free.
    fn give(&mut self, pointer: u16)
        requires { pointer / 64 < vec_len self.old.free_cells }
        ensures { Frees self.old self.new pointer }
    {
        self.free_cells[pointer as usize / 64].insert((pointer % 64) as u8);
    }
}
