// The book's seat as a hand: each call but `shape` is one step on one word, or such a row. A row of none is no step: the seat is as it was then.
ghost use Rattle.far_events.specs.declared.event.Event.{Event as any_event};
ghost use Rattle.far_events.specs.declared.event.Reply.{Reply as any_reply};
ghost use Rattle.far_events.specs.events.Legal.{Legal};
ghost use Rattle.far_events.specs.events.Step.{Fits, after};
ghost use Rattle.far_core.specs.laws.Jobs.{JobsStand};
ghost use Rattle.far_hand.specs.Makers.{is_owners};
ghost use Rattle.far_hand.specs.Ranges.{Gets};
ghost use Rattle.std.specs.Prelude.{◌≡◌, true, false};
ghost use Rattle.far_events.specs.state.State.{State};
ghost use Rattle.far_table.specs.BookSeats.{is_copiers, seat_makes, seat_may_be, seat_view};
ghost use Rattle.far_table.specs.Viewed.{NoneIsGivenOut};
ghost use Rattle.far_table.specs.Whole.{IsWhole};

use crate::book::BookSeat;
use crate::book_rows::{copy_all, get_all, put_all, zero_all};
use crate::layout::{CELLS, EPOCH, JOBS_AT, LINE, LOGS, SCOPES};
use crate::rule;
use far_core::{Event, Reply, Shape};
use far_device::Device;
use far_hand::Near;
use far_word::{EPOCH_END, Job, JobWord, LOG_WORDS, Mark, Place, Refused};

impl<D: Device> Near for BookSeat<D> {
    ghost use Rattle.far_table.specs.BookSeats.{seat_alone, seat_lawful, seat_makes, seat_may_be, seat_shown, seat_there, seat_told, seat_view};

    ghost view = { seat_view };

    ghost still = { ⊥ };

    ghost may_be = { seat_may_be };

    ghost makes = { seat_makes };

    ghost lawful = { seat_lawful };

    ghost shown = { seat_shown };

    ghost there = { seat_there };

    ghost alone = { seat_alone };

    ghost told = { seat_told };

    fn see(&mut self, pointer: u16) -> u64 {
        self.table
            .shared
            .load::<rule::See>(&mut self.seat, pointer as usize + CELLS)
    }

    fn mark(&mut self, pointer: u16) -> u64 {
        self.table.shared.fetch_or::<rule::Mark>(
            &mut self.seat,
            pointer as usize + CELLS,
            Mark::Evac.mask(),
        )
    }

    fn clear(&mut self, pointer: u16) -> u64 {
        self.table.shared.fetch_and::<rule::Clear>(
            &mut self.seat,
            pointer as usize + CELLS,
            !Mark::Evac.mask(),
        )
    }

    fn get(&mut self, log: u8, at: u16, free: bool) -> u64 {
        if free {
            self.free(log, at)
        } else {
            self.read(log, at)
        }
    }

    fn put(&mut self, log: u8, at: u16, word: u64) {
        self.table.shared.store::<rule::Put>(
            &mut self.seat,
            log as usize * LOG_WORDS as usize + at as usize + LOGS,
            word,
        );
    }

    fn copy_words(&mut self, from: Place, to: Place, count: u16) {
        if count == 0 {
            return;
        }
        copy_all::<D>(&self.table.shared, &mut self.seat, from, to, count);
    }

    fn get_words(&mut self, log: u8, at: u16, count: u16, row: &mut [u8]) {
        if count == 0 {
            return;
        }
        get_all::<D>(&self.table.shared, &mut self.seat, log, at, count, row);
    }

    fn put_words(&mut self, log: u8, at: u16, bytes: &[u8], count: u16) {
        if count == 0 {
            return;
        }
        put_all::<D>(&self.table.shared, &mut self.seat, log, at, bytes, count);
    }

    fn put_zeros(&mut self, log: u8, at: u16, count: u16) {
        if count == 0 {
            return;
        }
        zero_all::<D>(&self.table.shared, &mut self.seat, log, at, count);
    }

    fn name(&mut self, pointer: u16, old: u64, new: u64) -> Result<(), u64> {
        let found = self
            .table
            .shared
            .compare_exchange::<rule::Name>(&mut self.seat, pointer as usize + CELLS, old, new);
        if found == old { Ok(()) } else { Err(found) }
    }

    fn advance(&mut self, logs: u64) -> Result<u64, Refused> {
        let now = self.epoch;
        let next = now + 1;
        if next == EPOCH_END {
            return Err(Refused::EpochsSpent);
        }
        self.table
            .shared
            .compare_exchange_with::<rule::Advance>(&mut self.seat, EPOCH, now, next, &logs);
        self.epoch = next;
        Ok(next)
    }

    fn look(&mut self, owner: u8) -> u64 {
        self.table
            .shared
            .load::<rule::Look>(&mut self.seat, owner as usize * LINE + SCOPES)
    }

    fn offer(&mut self, job: u8, pointer: u16, from: Place, to: Place) {
        let offered = Job { pointer, from, to };
        self.table.shared.store::<rule::Offer>(
            &mut self.seat,
            job as usize + JOBS_AT,
            JobWord::Offered { job: offered }.pack(),
        );
    }

    fn see_job(&mut self, job: u8) -> u64 {
        self.table
            .shared
            .load::<rule::SeeJob>(&mut self.seat, job as usize + JOBS_AT)
    }

    fn collect(&mut self, job: u8, old: u64) -> Result<(), u64> {
        let found = self
            .table
            .shared
            .compare_exchange::<rule::Collect>(&mut self.seat, job as usize + JOBS_AT, old, 0);
        if old == found { Ok(()) } else { Err(found) }
    }

    fn shape(&self) -> Shape {
        Shape {
            logs: self.logs as u64,
            mutators: self.mutators as u64,
            epoch: self.epoch,
        }
    }
}

impl<D: Device> BookSeat<D> {
    /// Logs and objects are whole. In every state that the words and all views may be in, whatever any policy chose: each object
    /// in use has one place; its pointer and the header there name each other, and no other does; and each log's live, dead and
    /// unused bytes make its size.
    pub fn logs_and_objects_are_whole(&self)
        ensures { (x : State) → seat_may_be self.now x → IsWhole x }
    {
        let _logs = self.logs;
    }

    /// No log is given out under a view. In every state that the words and all views may be in, while an owner holds a place:
    /// its scope is open, the log of that place isn't free, to give it back isn't legal, and after any event, an owner's, a
    /// copier's or the book's, it isn't free either.
    pub fn no_log_is_given_out_under_a_view(&self)
        ensures { (x : State) → seat_may_be self.now x → NoneIsGivenOut x }
    {
        let _logs = self.logs;
    }

    /// What holds of jobs. In every state that the words and all views may be in: no log that a job reads or writes is free, no two jobs write at one place, and no
    /// pointer is named to a job's target before the book has written so down; until then both places of a finished job have the same words, as long as the round of
    /// its offer lasts and the source's log is in it. A job that is taken is of one copier, which has no other.
    pub fn jobs_stand(&self)
        ensures { (x : State) → seat_may_be self.now x → JobsStand x }
    {
        let _logs = self.logs;
    }

    /// Beside this seat owners may do whatever the core allows: from any state that the words and all views may be in, an owner's event that is legal there leads
    /// to another.
    pub fn owners_may_act(&self)
        ensures { (x : State) → seat_may_be self.now x → (e : any_event) → is_owners e ≡ true → Fits e → Legal x e → seat_may_be self.now (after x e) }
    {
        let _logs = self.logs;
    }

    /// Beside this seat copiers may do whatever the core allows: from any state that the words and all views may be in, a copier's event that is legal there leads
    /// to another.
    pub fn copiers_may_act(&self)
        ensures { (x : State) → seat_may_be self.now x → (e : any_event) → is_copiers e ≡ true → Fits e → Legal x e → seat_may_be self.now (after x e) }
    {
        let _logs = self.logs;
    }

    // Word `at` of a log, which is known from then on where the view shows it to be a quiet object's.
    fn read(&mut self, log: u8, at: u16) -> u64
        requires legal { Legal (seat_view self.old) (Event.Get log at false) }
        ensures gets { Gets (seat_view self.old) (seat_view self.new) log at false result }
        ensures made { seat_makes self.old (Event.Get log at false) (Reply.Word result) self.new }
    {
        self.table.shared.load::<rule::Get>(
            &mut self.seat,
            log as usize * LOG_WORDS as usize + at as usize + LOGS,
        )
    }

    // The same of a log that is given back.
    fn free(&mut self, log: u8, at: u16) -> u64
        requires legal { Legal (seat_view self.old) (Event.Get log at true) }
        ensures gets { Gets (seat_view self.old) (seat_view self.new) log at true result }
        ensures made { seat_makes self.old (Event.Get log at true) (Reply.Word result) self.new }
    {
        self.table.shared.load::<rule::Free>(
            &mut self.seat,
            log as usize * LOG_WORDS as usize + at as usize + LOGS,
        )
    }
}
