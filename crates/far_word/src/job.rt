//! The job word: which object is copied, from where to where, and whether the copy is offered, taken or finished.

ghost use Rattle.std.specs.Prelude.{◌≡◌, ◌<◌, IfSome, Some};
ghost use Rattle.far_word.specs.declared.job.JobWord.{JobWord};
ghost use Rattle.far_word.specs.declared.sizes.TheConstants.{MOST_COPIERS};
ghost use Rattle.far_word.specs.Job.{IsJob, IsJobWord, fits_job, fits_place, job_in, job_of, job_sum, job_word};

use crate::field::field;
use crate::pointer::Place;
use crate::sizes::{LAST_AT, MOST_COPIERS, MOST_LOGS, POINTERS};

const FROM_AT: u32 = 16;

const FROM_LOG: u32 = 26;

const TO_AT: u32 = 34;

const TO_LOG: u32 = 44;

const GAP: u32 = 52;

const COPIER: u32 = 58;

const STAGE: u32 = 62;

/// An object that is copied: its pointer, the place where it lies, and the place where its copy comes to stand.
#[derive(Clone, Copy, Debug, PartialEq, Eq)]
pub struct Job {
    /// The number of the object's pointer cell, below [`POINTERS`].
    pub pointer: u16,
    pub from: Place,
    pub to: Place,
}

/// What a job word says.
#[derive(Clone, Copy, Debug, PartialEq, Eq)]
pub enum JobWord {
    /// There is no job.
    Empty,
    /// The book offers the job, and no copier has taken it.
    Offered { job: Job },
    /// A copier, below [`MOST_COPIERS`], makes the copy.
    Taken { job: Job, copier: u8 },
    /// The copier has made the copy.
    Finished { job: Job, copier: u8 },
}

impl JobWord {
    /// The one word of a job that lies on the layout.
    pub fn pack(self) -> u64
        requires { IsJobWord self }
        ensures { result ≡ job_word self }
    {
        match self {
            JobWord::Empty => 0,
            JobWord::Offered { job } => pack_job(job, 0, 1),
            JobWord::Taken { job, copier } => pack_job(job, copier, 2),
            JobWord::Finished { job, copier } => pack_job(job, copier, 3),
        }
    }

    /// What a word says. `None` exactly for the words off the layout.
    pub fn read(word: u64) -> Option<JobWord>
        ensures exact { result ≡ job_of word }
        ensures found { IfSome result (λ v. IsJobWord v × (job_word v ≡ word)) }
        ensures only { (v : JobWord) → IsJobWord v → job_word v ≡ word → result ≡ Some v }
    {
        JobWord::decode(word)
    }

    #[tactic(auto, unfolding(crate::specs::Job::job_of))]
    fn decode(word: u64) -> Option<JobWord>
        ensures { result ≡ job_of word }
    {
        if word == 0 {
            return Some(JobWord::Empty);
        }
        let job = job_in(word);
        if !fits_job(job) || field(word, GAP, 6) != 0 {
            return None;
        }
        let copier = field(word, COPIER, 4) as u8;
        let stage = word >> STAGE;
        if stage == 1 {
            if copier != 0 {
                return None;
            }
            return Some(JobWord::Offered { job });
        }
        if copier >= MOST_COPIERS {
            return None;
        }
        if stage == 2 {
            return Some(JobWord::Taken { job, copier });
        }
        if stage == 3 {
            return Some(JobWord::Finished { job, copier });
        }
        None
    }
}

/// A job, its copier and its stage, packed from the lowest field up.
fn pack_job(job: Job, copier: u8, stage: u64) -> u64
    requires job { IsJob job }
    requires copier { copier < MOST_COPIERS }
    requires stage { stage < 4 }
    ensures { result ≡ job_sum job copier stage }
{
    let pointer = job.pointer as u64;
    let from = pointer | (job.from.at as u64) << FROM_AT | (job.from.log as u64) << FROM_LOG;
    let to = from | (job.to.at as u64) << TO_AT | (job.to.log as u64) << TO_LOG;
    to | (copier as u64) << COPIER | stage << STAGE
}

/// The job that a word's fields say.
fn job_in(word: u64) -> Job
    ensures { result ≡ job_in word }
{
    Job {
        pointer: field(word, 0, 16) as u16,
        from: Place {
            log: field(word, FROM_LOG, 8) as u8,
            at: field(word, FROM_AT, 10) as u16,
        },
        to: Place {
            log: field(word, TO_LOG, 8) as u8,
            at: field(word, TO_AT, 10) as u16,
        },
    }
}

/// Whether a job's numbers lie on the layout.
fn fits_job(job: Job) -> bool
    ensures { result ≡ fits_job job }
{
    job.pointer < POINTERS && fits_place(job.from) && fits_place(job.to)
}

/// Whether a header may stand at a place.
fn fits_place(place: Place) -> bool
    ensures { result ≡ fits_place place }
{
    place.log < MOST_LOGS && place.at <= LAST_AT
}
