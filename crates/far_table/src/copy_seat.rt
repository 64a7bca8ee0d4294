// A copier's seat.
ghost use Rattle.std.specs.Prelude.{◌≡◌, ◌+◌, ◌*◌, ◌^◌, ◌<◌, ℕ, true, false, Some, None, IfSome, IsSome};
ghost use Rattle.std.specs.Arc.{arc_value};
ghost use Rattle.far_word.specs.declared.job.JobWord.TheVariants.{Offered};
ghost use Rattle.far_word.specs.declared.sizes.TheConstants.{JOBS, MOST_COPIERS};
ghost use Rattle.far_word.specs.Job.{job_in, job_of};
ghost use Rattle.far_events.specs.declared.event.Event.{Event as any_event};
ghost use Rattle.far_events.specs.declared.event.Reply.{Reply as any_reply};
ghost use Rattle.far_events.specs.state.State.{State};
ghost use Rattle.far_table.specs.CopierViews.{finished_view, peeked_view};
ghost use Rattle.far_table.specs.CopySeats.{Claimed, CopiedNext, IsCopied, IsJobOf, IsTakenBy, Measured, Missed, MissedFirst, OnlyLooked, Took, copied_on, task_of};
ghost use Rattle.far_table.specs.Layout.{table_words};
ghost use Rattle.far_table.specs.Tells.{CopierMade, CopierMayBe, CopierStands, copier_of};
ghost use Rattle.far_table.specs.View.{Copier, CopierView};

use crate::job_word::{COPIER, FINISHES, TAKES, is_offered, source_of, target_of};
use crate::layout::{JOBS_AT, LOGS};
use crate::rule::{self, FarTable};
use crate::view::View;
use atomic_table::Seat;
use far_core::{Event, Reply};
use far_device::Device;
use far_word::{HeadWord, JOBS, words_for};
use std::alloc::Global;
use std::marker::Model;
use std::sync::Arc;

/// A job that a copier has claimed: the copy of one object, word by word. [`CopySeat::claim`] alone makes one.
#[derive(Drop)]
pub struct Job {
    // Where the job's word stands, and the word by which the job was offered.
    at: usize,
    offered: u64,
    // Where the next word of the object's data stands, where its copy comes to stand, and where the object's data ends.
    from: usize,
    to: usize,
    end: usize,
}

impl Model for Job {
    ghost use Rattle.far_table.specs.CopySeats.{CopyJob, IsKept, job_kept};

    ghost Value = { CopyJob };

    ghost view = { λ j. job_kept j.at j.offered j.from j.end };

    ghost invariant = { λ j. IsKept j.at j.offered j.from j.to j.end };
}

/// A copier's seat on the shared words. Each step of a call is one event of [`far_events`], one atomic step; no call takes memory, and
/// each always answers.
///
/// A copier that has no job claims one, copies its words one by one, and finishes the job.
#[derive(Drop)]
pub struct CopySeat<D: Device> {
    table: Arc<FarTable<D>, Global>,
    seat: Seat<u64, View>,
    // What it adds to the word that offers a job, when it takes the job and when it has finished it.
    taking: u64,
    finishing: u64,
}

impl<D: Device> Model for CopySeat<D> {
    ghost use Rattle.std.specs.Prelude.{◌≡◌, ◌+◌, ◌*◌, ◌^◌, ◌<◌};
    ghost use Rattle.std.specs.Arc.{arc_value};
    ghost use Rattle.far_word.specs.declared.sizes.TheConstants.{MOST_COPIERS};
    ghost use Rattle.far_table.specs.Layout.{table_words};
    ghost use Rattle.far_table.specs.Seats.{CopierSeated};
    ghost use Rattle.far_table.specs.Tells.{CopierStands, copier_of};
    ghost use Rattle.far_table.specs.View.{Copier};

    ghost Value = { CopierSeated };

    ghost view = { λ s. record { table = s.seat.table_id; view = copier_of s.seat.me.0 } };

    ghost invariant = { λ s. (s.seat.table_id ≡ (arc_value s.table).shared.table_id) × (s.seat.table_id.words ≡ table_words (copier_of s.seat.me.0).logs) × (s.seat.me.0 ≡ Copier (copier_of s.seat.me.0)) × (s.taking ≡ (copier_of s.seat.me.0).number * 2 ^ 58 + 1 * 2 ^ 62) × (s.finishing ≡ (copier_of s.seat.me.0).number * 2 ^ 58 + 2 * 2 ^ 62) × ((copier_of s.seat.me.0).number < MOST_COPIERS) × CopierStands (copier_of s.seat.me.0) };
}

impl<D: Device> CopySeat<D> {
    // The seat of a copier, whose view is this seat's.
    pub(crate) fn new(
        table: Arc<FarTable<D>, Global>,
        seat: Seat<u64, View>,
        number: u8,
    ) -> CopySeat<D>
        requires table { (seat.table_id ≡ (arc_value table).shared.table_id) × (seat.table_id.words ≡ table_words (copier_of seat.me.0).logs) }
        requires copier { seat.me.0 ≡ Copier (copier_of seat.me.0) }
        requires number { ((copier_of seat.me.0).number ≡ number) × (number < MOST_COPIERS) }
        requires there { CopierStands (copier_of seat.me.0) }
        ensures { result ≡ record { table = seat.table_id; view = copier_of seat.me.0 } }
    {
        let taking = ((number as u64) << COPIER) + TAKES;
        let finishing = ((number as u64) << COPIER) + FINISHES;
        CopySeat {
            table,
            seat,
            taking,
            finishing,
        }
    }

    /// What this copier has claimed nobody else has, whatever state the words and all views are in beside its view: the job's word says that
    /// this copier has taken it, and no other copier has it; the object has as many words as the job says. And there is such a state. The
    /// call does nothing.
    pub fn what_it_claimed_is_its_own(&self, job: &Job)
        requires own { IsJobOf job.now self.now.view }
        ensures taken { (x : State) → CopierMayBe self.now.view x → IsTakenBy self.now.view.number job.now x }
        ensures there { CopierStands self.now.view }
    {
        let _taking = self.taking;
        let _end = job.end;
    }

    /// Takes a job that is offered: the first that is found so and won, of looks at each of the 16 jobs, in their order, and of one attempt to take it
    /// at each. `None` where no look got one; then nothing changes, and the view notes what they found. The copier has no job.
    pub fn claim(&mut self) -> Option<Job>
        requires free { self.old.view.task ≡ None }
        ensures table { self.new.table ≡ self.old.table }
        ensures claimed { IfSome result (λ job. Claimed job self.old.view self.new.view) }
        ensures own { IfSome result (λ job. IsJobOf job self.new.view) }
        ensures none { result ≡ None → MissedFirst JOBS self.old.view self.new.view }
        ensures left { result ≡ None → OnlyLooked self.old.view self.new.view }
        ensures free { result ≡ None → self.new.view.task ≡ None }
    {
        for number in 0..JOBS {
            if let Some(offered) = self.take(number) {
                return Some(self.begin(number, offered));
            }
        }
        None
    }

    // One look at a job: where it is offered, one attempt to take it. The word that offered it.
    fn take(&mut self, number: u8) -> Option<u64>
        requires job { number < JOBS }
        requires free { self.old.view.task ≡ None }
        ensures table { self.new.table ≡ self.old.table }
        ensures took { IfSome result (λ word. Took (task_of number word) self.old.view self.new.view) }
        ensures offers { IfSome result (λ word. job_of word ≡ Some (Offered (job_in word))) }
        ensures missed { result ≡ None → Missed number self.old.view self.new.view }
    {
        let word = self.peek(number);
        if !is_offered(word) {
            return None;
        }
        let found = self.table.shared.compare_exchange::<rule::Claim>(
            &mut self.seat,
            number as usize + JOBS_AT,
            word,
            word + self.taking,
        );
        if found != word {
            return None;
        }
        Some(word)
    }

    // The word of a job.
    fn peek(&mut self, number: u8) -> u64
        requires job { number < JOBS }
        ensures table { self.new.table ≡ self.old.table }
        ensures seen { self.new.view ≡ peeked_view number result self.old.view }
        ensures event { CopierMade (Event.PeekJob self.old.view.number number) self.old.view (Reply.Word result) (peeked_view number result self.old.view) }
        ensures reads { IsSome (job_of result) }
    {
        self.table
            .shared
            .load::<rule::PeekJob>(&mut self.seat, number as usize + JOBS_AT)
    }

    // The job that was taken, with the length of its object, from the header of its source.
    fn begin(&mut self, number: u8, offered: u64) -> Job
        requires own { self.old.view.task ≡ Some (task_of number offered) }
        requires offers { job_of offered ≡ Some (Offered (job_in offered)) }
        ensures table { self.new.table ≡ self.old.table }
        ensures task { result.task ≡ task_of number offered }
        ensures measured { Measured result self.old.view self.new.view }
    {
        let source = source_of(offered) + LOGS;
        let head = self
            .table
            .shared
            .load::<rule::ReadLength>(&mut self.seat, source);
        let from = source + 1;
        Job {
            at: number as usize + JOBS_AT,
            offered,
            from,
            to: target_of(offered) + LOGS + 1,
            end: from + words_for(HeadWord::known(head).len) as usize,
        }
    }

    /// Copies the next word of the copier's job from the object's place to the copy's. False where none is left; then nothing changes.
    pub fn copy_word(&mut self, job: &mut Job) -> bool
        requires own { IsJobOf job.old self.old.view }
        ensures table { self.new.table ≡ self.old.table }
        ensures own { IsJobOf job.new self.new.view }
        ensures copied { result ≡ true → (job.new ≡ copied_on job.old) × CopiedNext job.old self.old.view self.new.view }
        ensures ended { result ≡ false → IsCopied job.old × (job.new ≡ job.old) × (self.new ≡ self.old) }
    {
        if job.from == job.end {
            return false;
        }
        let word = self
            .table
            .shared
            .load::<rule::Read>(&mut self.seat, job.from);
        self.table
            .shared
            .store::<rule::Write>(&mut self.seat, job.to, word);
        job.from += 1;
        job.to += 1;
        true
    }

    /// Says that the copier's job is done, of whose words none is left. It has no job from then on.
    pub fn finish(&mut self, job: Job)
        requires own { IsJobOf job self.old.view }
        requires whole { IsCopied job }
        ensures table { self.new.table ≡ self.old.table }
        ensures view { self.new.view ≡ finished_view self.old.view }
        ensures event { CopierMade (Event.Finish self.old.view.number) self.old.view Reply.Done self.new.view }
    {
        self.table
            .shared
            .store::<rule::Finish>(&mut self.seat, job.at, job.offered + self.finishing);
    }
}
