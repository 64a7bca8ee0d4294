//! The book's calls about jobs of copiers by its hand alone: each is made if what is known allows it.

ghost use Rattle.std.specs.Prelude.{◌≡◌, ◌≢◌, ◌+◌, ◌-◌, ◌*◌, ◌^◌, ◌<◌, ◌≤◌, Some, IfSome};
ghost use Rattle.far_word.specs.Header.{IsHead, head_word};
ghost use Rattle.far_word.specs.Job.{IsJob, job_of};
ghost use Rattle.far_word.specs.Sizes.{size_of, words_for};
ghost use Rattle.far_word.specs.declared.sizes.TheConstants.{CELLS, LOG_WORDS};
ghost use Rattle.far_events.specs.events.Collect.{is_loose};
ghost use Rattle.far_events.specs.events.Copies.{data_at};
ghost use Rattle.far_events.specs.events.Legal.{IsNext};
ghost use Rattle.far_events.specs.state.State.{addr};
ghost use Rattle.far_hand.specs.Quiet.{IsQuietAt};
ghost use Rattle.tests_seats.specs.Offers.{HasRoom, HasRound, IsLeft, IsMarked, IsMoved, IsRoom, KnowsJobs, KnowsRoom};

use crate::tests::pairs::NO_MARKS;
use far_hand::Near;
use far_word::{
    CELLS, HeadWord, JOBS, Job, JobWord, LOG_WORDS, MOST_LOGS, Marks, Place, PtrWord, size_of,
    words_for,
};

/// How many logs are in the round: the first ones.
pub(super) const CHOSEN: u8 = 2;

/// A near object, as its cell says, and that cell.
#[derive(Clone, Copy)]
pub(super) struct Object {
    pub len: u16,
    pub ds: u8,
    pub place: Place,
    pub cell: u64,
}

/// The book's hand on words of which the first logs are in a round, and what is known for its calls about jobs.
#[derive(Drop)]
pub(super) struct JobBook<N: Near + Drop> {
    near: N,
    // Where the next span of the open log begins, if that is known, and a log that is free.
    next: Option<Place>,
    spare: Option<u8>,
    // How many jobs were offered: the first ones.
    offered: u8,
    // The job at hand, and its word as it was last found.
    job: u8,
    word: u64,
    ghost round: { HasRound (N.view near) },
    ghost room: { KnowsRoom (N.view near) next spare },
    ghost jobs: { KnowsJobs (N.view near) offered job word },
}

/// A pointer's object, if it is seen to lie in the round with EVAC.
fn marked<N: Near>(near: &mut N, pointer: u16) -> Option<Object>
    requires { pointer < CELLS * (N.view near.old).mutators }
    ensures kept { N.view near.new ≡ record (N.view near.old) { cell = (N.view near.new).cell } }
    ensures found { IfSome result (λ object. IsMarked (N.view near.new) pointer object.len object.ds object.place) }
    ensures seen { IfSome result (λ object. object.cell ≡ (N.view near.new).cell pointer) }
{
    let cell = near.see(pointer);
    match PtrWord::read(cell) {
        Some(
            PtrWord::Near {
                len,
                ds,
                place,
                marks,
            },
        ) if marks.evac && place.log < CHOSEN => Some(Object {
            len,
            ds,
            place,
            cell,
        }),
        _ => None,
    }
}

/// Where the next span of so many words goes: to the end of the open log, or else to the start of the free one.
fn room(next: Place, spare: Option<u8>, size: u16) -> Option<Place>
    requires low { next.at ≤ LOG_WORDS }
    requires few { size ≤ LOG_WORDS }
    ensures { IfSome result (λ to. IsRoom next spare size to) }
{
    if next.at + size <= LOG_WORDS {
        return Some(next);
    }
    let Some(log) = spare else {
        return None;
    };
    Some(Place { log, at: 0 })
}

/// The free log that is left once a span was taken.
fn left(next: Place, spare: Option<u8>, to: Place) -> Option<u8>
    ensures { IsLeft next spare to result }
{
    if to.log == next.log { spare } else { None }
}

/// Writes what an offer asks for at the place of a new span: a header, and a last data word of 0.
fn blank<N: Near>(near: &mut N, head: HeadWord, to: Place)
    requires head { IsHead head }
    requires next { IsNext (N.view near.old) to }
    requires past { (N.view near.old).tail to.log ≤ to.at }
    requires end { to.at + size_of head.len ≤ LOG_WORDS }
    ensures kept { N.view near.new ≡ record (N.view near.old) { word = (N.view near.new).word } }
    ensures head { (N.view near.new).word (addr to) ≡ head_word head.pointer head.len head.ds }
    ensures last { data_at (N.view near.new).word to (words_for head.len - 1) ≡ 0 }
{
    near.put(to.log, to.at, head.pack());
    near.put(to.log, to.at + words_for(head.len), 0);
}

/// Copies the only data word of a quiet object to the place of a new span in another log, behind a header.
fn copy_one<N: Near>(near: &mut N, head: HeadWord, from: Place, to: Place)
    // the header is on the layout, the object is quiet, and its header and word lie within a log
    requires head { IsHead head }
    requires quiet { IsQuietAt (N.view near.old) (addr from + 1) }
    requires from { (from.log < (N.view near.old).logs) × (from.at + 2 ≤ LOG_WORDS) }

    // the place is where another log's next span may stand, with room for both
    requires next { IsNext (N.view near.old) to }
    requires past { (N.view near.old).tail to.log ≤ to.at }
    requires end { to.at + 2 ≤ LOG_WORDS }
    requires other { to.log ≢ from.log }

    // nothing but words has changed: the place has the header, and behind it the object's word, which is known
    ensures kept { N.view near.new ≡ record (N.view near.old) { word = (N.view near.new).word } }
    ensures head { (N.view near.new).word (addr to) ≡ head_word head.pointer head.len head.ds }
    ensures same { (N.view near.new).word (addr to + 1) ≡ (N.view near.new).word (addr from + 1) }
    ensures fits { (N.view near.new).word (addr to + 1) < 2 ^ 64 }
{
    let word = near.get(from.log, from.at + 1, false);
    near.put(to.log, to.at, head.pack());
    near.put(to.log, to.at + 1, word);
}

/// The word of a cell once its object, which has EVAC and isn't dropped, lies where a job copied it, with DIRTY if it had that; `None` where it doesn't lie where the job
/// copied it from.
fn moved(cell: u64, job: Job) -> Option<u64>
    requires { IsJob job }
    ensures { IfSome result (λ new. IsMoved job cell new) }
{
    let Some(
        PtrWord::Near {
            len,
            ds,
            place,
            marks,
        },
    ) = PtrWord::read(cell)
    else {
        return None;
    };
    if place != job.from || marks.dropped || !marks.evac || job.to.at + size_of(len) > LOG_WORDS {
        return None;
    }
    let copy = PtrWord::Near {
        len,
        ds,
        place: job.to,
        marks: Marks {
            dirty: marks.dirty,
            ..NO_MARKS
        },
    };
    Some(copy.pack())
}

/// Whether nobody has a job, by its word: it is offered, or finished.
fn is_loose(word: u64) -> bool
    ensures { result ≡ is_loose (job_of word) }
{
    matches!(
        JobWord::read(word),
        Some(JobWord::Offered { .. } | JobWord::Finished { .. }),
    )
}

/// Whether at both places the same header stands, and the same data words.
fn are_alike<N: Near>(near: &mut N, from: Place, to: Place) -> bool
    requires from { (from.log < (N.view near.old).logs) × (from.at < LOG_WORDS) }
    requires to { (to.log < (N.view near.old).logs) × (to.at < LOG_WORDS) }
    ensures { N.view near.new ≡ record (N.view near.old) { word = (N.view near.new).word } }
{
    let Some(head) = HeadWord::read(near.get(from.log, from.at, false)) else {
        return false;
    };
    let size = size_of(head.len);
    if from.at + size > LOG_WORDS || to.at + size > LOG_WORDS {
        return false;
    }
    for i in 0..size {
        if near.get(from.log, from.at + i, false) != near.get(to.log, to.at + i, false) {
            return false;
        }
    }
    true
}

impl<N: Near + Drop> JobBook<N> {
    /// A hand, where the next span of the open log begins, and a log that is free.
    pub(super) fn new(mut near: N, next: Place, spare: u8) -> JobBook<N>
        requires round { HasRound (N.view near) }
        requires room { HasRoom (N.view near) next (Some spare) }
    {
        let word = near.see_job(0);
        JobBook {
            near,
            next: Some(next),
            spare: Some(spare),
            offered: 0,
            job: 0,
            word,
        }
    }

    /// The word of a job is at hand from then on, as it is found; whether there is such a job.
    pub(super) fn looks(&mut self, job: u8) -> bool {
        if job >= JOBS {
            return false;
        }
        self.word = self.near.see_job(job);
        self.job = job;
        true
    }

    /// The word of the job at hand, as it was last found.
    pub(super) fn word(&self) -> u64 {
        self.word
    }

    /// Offers the copy of a pointer's object as the next job, which is at hand then; whether it did.
    pub(super) fn offers(&mut self, pointer: u16) -> bool {
        let job = self.offered;
        if pointer >= CELLS || job >= JOBS {
            return false;
        }
        self.word = self.near.see_job(job);
        self.job = job;
        if self.word != 0 {
            return false;
        }
        let Some(object) = marked(&mut self.near, pointer) else {
            return false;
        };
        let Some(next) = self.next else {
            return false;
        };
        let size = size_of(object.len);
        let Some(to) = room(next, self.spare, size) else {
            return false;
        };
        let head = HeadWord {
            pointer,
            len: object.len,
            ds: object.ds,
        };
        blank(&mut self.near, head, to);
        self.near.offer(job, pointer, object.place, to);
        self.spare = left(next, self.spare, to);
        self.next = Some(Place {
            log: to.log,
            at: to.at + size,
        });
        self.offered = job + 1;
        self.word = self.near.see_job(job);
        true
    }

    /// Names the pointer of the job at hand to the copy, if the job is finished and was offered here, and its object lies where it was copied
    /// from; whether it did.
    pub(super) fn names(&mut self) -> bool {
        let Some(JobWord::Finished { job, .. }) = JobWord::read(self.word) else {
            return false;
        };
        if self.job >= self.offered || job.from.log >= CHOSEN || job.pointer >= CELLS {
            return false;
        }
        let cell = self.near.see(job.pointer);
        let Some(new) = moved(cell, job) else {
            return false;
        };
        match self.near.name(job.pointer, cell, new) {
            Ok(()) => true,
            Err(_) => false,
        }
    }

    /// Moves an object of 8 bytes, which lies in the round with EVAC, to where the next span goes; whether it did. Where the next one goes after that
    /// isn't known.
    pub(super) fn moves(&mut self, pointer: u16) -> bool {
        if pointer >= CELLS {
            return false;
        }
        let Some(object) = marked(&mut self.near, pointer) else {
            return false;
        };
        let Some(next) = self.next else {
            return false;
        };
        let Some(to) = room(next, self.spare, 2) else {
            return false;
        };
        let from = object.place;
        let logs = self.near.shape().logs;
        if object.len != 8 || from.log as u64 >= logs {
            return false;
        }
        if to.log == from.log || to.log >= MOST_LOGS {
            return false;
        }
        let Some(new) = moved(object.cell, Job { pointer, from, to }) else {
            return false;
        };
        let head = HeadWord {
            pointer,
            len: 8,
            ds: object.ds,
        };
        self.next = None;
        copy_one(&mut self.near, head, from, to);
        match self.near.name(pointer, object.cell, new) {
            Ok(()) => true,
            Err(_) => false,
        }
    }

    /// Empties the job at hand, if nobody has it; else its word.
    pub(super) fn collects(&mut self) -> Result<(), u64> {
        if !is_loose(self.word) {
            return Err(self.word);
        }
        match self.near.collect(self.job, self.word) {
            Ok(()) => {
                self.word = 0;
                Ok(())
            }
            Err(found) => {
                self.word = found;
                Err(found)
            }
        }
    }

    /// Whether the job at hand is finished.
    pub(super) fn is_finished(&self) -> bool {
        matches!(JobWord::read(self.word), Some(JobWord::Finished { .. }))
    }

    /// Whether the job at hand is finished, and the same words stand at both of its places.
    pub(super) fn is_copied(&mut self) -> bool {
        let Some(JobWord::Finished { job, .. }) = JobWord::read(self.word) else {
            return false;
        };
        let logs = self.near.shape().logs;
        if job.from.log as u64 >= logs || job.to.log as u64 >= logs {
            return false;
        }
        are_alike(&mut self.near, job.from, job.to)
    }
}
