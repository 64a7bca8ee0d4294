//! What becomes of the jobs that were offered to copiers: they are collected, or taken back.

ghost use Rattle.std.specs.Prelude.{◌≡◌, ◌≢◌, ◌<◌, ◌||◌, ℕ, true, false, not, Some, None, IsSome, IfOk, IfErr};
ghost use Rattle.far_word.specs.declared.job.Job.{Job as any_job};
ghost use Rattle.far_word.specs.declared.job.JobWord.TheVariants.{Finished, Offered};
ghost use Rattle.far_word.specs.declared.sizes.TheConstants.{CELLS, JOBS};
ghost use Rattle.far_word.specs.Job.{job_of};
ghost use Rattle.far_word.specs.Pointer.{read_of};
ghost use Rattle.far_events.specs.events.Collect.{collected, is_loose};
ghost use Rattle.far_events.specs.state.Jobs.{is_finished, job_at};
ghost use Rattle.far_events.specs.state.Spans.{names_place};
ghost use Rattle.far_hand.specs.Came.{Came};
ghost use Rattle.far_hand.specs.FindsJob.{FindsJob, job_found};
ghost use Rattle.far_book.specs.book.Collecting.{BackKnown, CollectsJob, GoesAsFound, IsDropped, IsNamed, MayBeNamed, back_known, goes, goes_known, is_void, named};
ghost use Rattle.far_book.specs.book.Copies.{CollectsJobs, TakesJobsBack};
ghost use Rattle.far_book.specs.book.Jobs.{is_good};

use crate::book::Book;
use crate::book::renaming::{is_dropped, rename_near};
use crate::jobs::Noted;
use far_core::names_place;
use far_device::Device;
use far_hand::Near;
use far_word::{JOBS, Job, JobWord, PtrWord, size_of};

impl<N: Near + Drop, D: Device + Drop> Book<N, D> {
    /// Looks at each job that isn't empty. The pointer of one that is found finished is named to the copy, unless the job is void
    /// or the object dropped; either way the job is emptied. One that is found offered and is void is emptied too. Words may be
    /// forgotten.
    ///
    /// Answers how many were named, 16 at most.
    pub fn collect(&mut self) -> u32
        ensures { CollectsJobs N.still N.view N.makes self.old self.new result }
    {
        let mut count = 0;
        for job in 0..JOBS {
            if self.collect_job(job) {
                count += 1;
            }
        }
        count
    }

    /// Looks at each job that isn't empty, and empties those that are found offered. One that a copier has taken or finished
    /// stays, void or not.
    pub fn take_back(&mut self)
        ensures { TakesJobsBack N.still N.view N.makes self.old self.new }
    {
        for job in 0..JOBS {
            self.take_job_back(job);
        }
    }

    // Collects one job; whether it was named.
    fn collect_job(&mut self, job: u8) -> bool
        requires range { job < JOBS }
        ensures collects { CollectsJob (N.view self.old.near) (N.view self.new.near) job result }
        ensures exact { N.still → goes (N.view self.old.near) job ≡ (N.view self.new.near, result) }
        ensures none { job_at (N.view self.old.near).copying.word job ≡ None → (self.new ≡ self.old) }
        ensures came { Came N.makes self.old.near self.new.near }
        ensures order { self.new.order ≡ self.old.order }
        ensures device { self.new.device ≡ self.old.device }
    {
        let Some(noted) = self.ledger.jobs.noted(job) else {
            return false;
        };
        let word = self.see_job(job);
        let cell = self.see(noted.job.pointer);
        self.end_job(job, noted, word, cell)
    }

    // Ends a job by the words that were found last; whether it was named.
    fn end_job(&mut self, job: u8, noted: Noted, word: u64, cell: u64) -> bool
        // the job is what its word says as the book knows it, and so is the cell of its pointer; it's noted whether its round lasts and still has its log
        requires range { job < JOBS }
        requires seen { word ≡ (N.view self.old.near).copying.word job }
        requires is { job_at (N.view self.old.near).copying.word job ≡ Some noted.job }
        requires good { noted.good ≡ is_good (N.view self.old.near).round_epoch (N.view self.old.near).round (N.view self.old.near).copying.since job noted.job }
        requires found { cell ≡ (N.view self.old.near).cell noted.job.pointer }

        // the job has gone as the words say that were found last, over a hand that is still those that were known; the answer is whether it was named
        ensures goes { GoesAsFound (N.view self.old.near) (N.view self.new.near) job noted.job result }
        ensures exact { N.still → goes_known (N.view self.old.near) job (Some noted.job) ≡ (N.view self.new.near, result) }

        // only calls of the hand led there; the order of logs and the device stay
        ensures came { Came N.makes self.old.near self.new.near }
        ensures order { self.new.order ≡ self.old.order }
        ensures device { self.new.device ≡ self.old.device }
    {
        self.keeps_law();
        let void = noted.is_void(cell);
        if is_finished(word) {
            return self.end_finished(job, noted.job, word, cell, void);
        }
        if void && is_offered(word) {
            self.end_void(job, noted.job, word);
        }
        false
    }

    // Empties a void job that was found offered, or is found finished instead. A copier that has taken it meanwhile keeps it.
    fn end_void(&mut self, job: u8, what: Job, word: u64)
        requires range { job < JOBS }
        requires seen { word ≡ (N.view self.old.near).copying.word job }
        requires offered { job_of word ≡ Some (Offered what) }
        requires void { is_void (N.view self.old.near) job what (read_of ((N.view self.old.near).cell what.pointer)) ≡ true }
        ensures goes { GoesAsFound (N.view self.old.near) (N.view self.new.near) job what false }
        ensures exact { N.still → N.view self.new.near ≡ collected (N.view self.old.near) job }
        ensures came { Came N.makes self.old.near self.new.near }
        ensures order { self.new.order ≡ self.old.order }
        ensures device { self.new.device ≡ self.old.device }
    {
        let Err(found) = self.empty_job(job, word) else {
            return;
        };
        if is_finished(found) {
            self.empty_finished(job, found);
        }
    }

    // Names a finished job's pointer to its target, unless the job is void or the object dropped, and empties the job; whether it
    // was named.
    fn end_finished(&mut self, job: u8, what: Job, word: u64, cell: u64, void: bool) -> bool
        // a copier has finished the job, as the book knows its word and its pointer's cell, and `void` is whether it's to be named no more
        requires range { job < JOBS }
        requires seen { word ≡ (N.view self.old.near).copying.word job }
        requires finished { (c : ℕ) × (job_of word ≡ Some (Finished what c)) }
        requires found { cell ≡ (N.view self.old.near).cell what.pointer }
        requires void { void ≡ is_void (N.view self.old.near) job what (read_of cell) }

        // the job has gone as the words say that were found last, over a hand that is still those that were known; the answer is whether it was named
        ensures goes { GoesAsFound (N.view self.old.near) (N.view self.new.near) job what result }
        ensures exact { N.still → goes_known (N.view self.old.near) job (Some what) ≡ (N.view self.new.near, result) }

        // only calls of the hand led there; the order of logs and the device stay
        ensures came { Came N.makes self.old.near self.new.near }
        ensures order { self.new.order ≡ self.old.order }
        ensures device { self.new.device ≡ self.old.device }
    {
        if void || is_dropped(cell) {
            self.empty_finished(job, word);
            return false;
        }
        let named = self.name_copy(job, what, cell);
        self.empty_finished(job, word);
        named
    }

    // Names a job's pointer to its target. `false` where its owner was found to have dropped the object.
    fn name_copy(&mut self, job: u8, what: Job, cell: u64) -> bool
        requires { MayBeNamed (N.view self.old.near) job what cell }
        ensures named { result ≡ true → IsNamed (N.view self.old.near) (N.view self.new.near) what }
        ensures dropped { result ≡ false → IsDropped (N.view self.old.near) (N.view self.new.near) what }
        ensures exact { N.still → (result ≡ true) × (N.view self.new.near ≡ named (N.view self.old.near) what.pointer what.to) }
        ensures jobs { (N.view self.new.near).copying.word ≡ (N.view self.old.near).copying.word }
        ensures came { Came N.makes self.old.near self.new.near }
        ensures order { self.new.order ≡ self.old.order }
        ensures device { self.new.device ≡ self.old.device }
    {
        let PtrWord::Near { len, ds, .. } = PtrWord::known(cell) else {
            unreachable!()
        };
        let Ok(()) = rename_near(&mut self.near, what.pointer, cell, len, ds, what.to) else {
            return false;
        };
        self.ledger.pass(what.from.log, what.to.log, size_of(len));
        true
    }

    // Looks at one job, and empties it where it is found offered.
    fn take_job_back(&mut self, job: u8)
        requires range { job < JOBS }
        ensures takes { BackKnown (N.view self.old.near) (N.view self.new.near) job (job_at (N.view self.old.near).copying.word job) }
        ensures exact { N.still → N.view self.new.near ≡ back_known (N.view self.old.near) job (job_at (N.view self.old.near).copying.word job) }
        ensures none { job_at (N.view self.old.near).copying.word job ≡ None → self.new ≡ self.old }
        ensures came { Came N.makes self.old.near self.new.near }
        ensures order { self.new.order ≡ self.old.order }
        ensures device { self.new.device ≡ self.old.device }
    {
        if self.ledger.jobs.noted(job).is_none() {
            return;
        }
        let word = self.see_job(job);
        if is_offered(word) {
            // If the exchange fails, a copier has taken the job.
            let _ = self.empty_job(job, word);
        }
    }

    // The word of a job, as it is found.
    fn see_job(&mut self, job: u8) -> u64
        requires range { job < JOBS }
        ensures found { FindsJob ((N.view self.old.near).copying.word job) result }
        ensures kept { N.view self.new.near ≡ job_found (N.view self.old.near) job result }
        ensures exact { N.still → result ≡ (N.view self.old.near).copying.word job }
        ensures set { N.still → N.view self.new.near ≡ N.view self.old.near }
        ensures came { Came N.makes self.old.near self.new.near }
        ensures order { self.new.order ≡ self.old.order }
        ensures device { self.new.device ≡ self.old.device }
    {
        self.near.see_job(job)
    }

    // Empties a job that no copier has, where it still is as it was found last. `Err` with the word that was found instead.
    fn empty_job(&mut self, job: u8, word: u64) -> Result<(), u64>
        // the job is offered or finished, as the book knows its word
        requires range { job < JOBS }
        requires seen { word ≡ (N.view self.old.near).copying.word job }
        requires loose { is_loose (job_of word) ≡ true }

        // done: the job is empty, and nothing else has changed
        ensures done { IfOk result (λ _. N.view self.new.near ≡ collected (N.view self.old.near) job) }

        // else, never over a hand that is still, its word is another, by what copiers made of the job; the book knows it, and nothing else has changed
        ensures other { IfErr result (λ found. found ≢ word) }
        ensures found { IfErr result (λ found. FindsJob word found) }
        ensures kept { IfErr result (λ found. N.view self.new.near ≡ job_found (N.view self.old.near) job found) }
        ensures won { N.still → IfErr result (λ _. ⊥) }

        // only calls of the hand led there; the order of logs and the device stay
        ensures came { Came N.makes self.old.near self.new.near }
        ensures order { self.new.order ≡ self.old.order }
        ensures device { self.new.device ≡ self.old.device }
    {
        match self.near.collect(job, word) {
            Ok(()) => {
                self.ledger.jobs.empty(job);
                Ok(())
            }
            Err(found) => Err(found),
        }
    }

    // Empties a finished job, which stays as it is until then.
    fn empty_finished(&mut self, job: u8, word: u64)
        requires range { job < JOBS }
        requires seen { word ≡ (N.view self.old.near).copying.word job }
        requires finished { is_finished (job_of word) ≡ true }
        ensures done { N.view self.new.near ≡ collected (N.view self.old.near) job }
        ensures came { Came N.makes self.old.near self.new.near }
        ensures order { self.new.order ≡ self.old.order }
        ensures device { self.new.device ≡ self.old.device }
    {
        let Ok(()) = self.empty_job(job, word) else {
            unreachable!()
        };
    }
}

impl Noted {
    // Whether the job is void, where its pointer's cell was found so.
    fn is_void(self, cell: u64) -> bool
        requires { IsSome (read_of cell) }
        ensures { result ≡ not self.good || not (names_place (read_of cell) self.job.from.log self.job.from.at) }
    {
        let from = self.job.from;
        !self.good || !names_place(cell, from.log, from.at)
    }
}

// Whether a job's word says that it is offered.
fn is_offered(word: u64) -> bool
    ensures so { result ≡ true → (job : any_job) × (job_of word ≡ Some (Offered job)) }
    ensures not_so { result ≡ false → (job : any_job) → job_of word ≢ Some (Offered job) }
{
    matches!(JobWord::read(word), Some(JobWord::Offered { .. }))
}

// Whether a job's word says that it is finished.
fn is_finished(word: u64) -> bool
    ensures { result ≡ is_finished (job_of word) }
{
    matches!(JobWord::read(word), Some(JobWord::Finished { .. }))
}
