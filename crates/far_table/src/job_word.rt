// The word of a job as a copier reads it, which knows that the word is one of a job: by shifts and masks alone.
ghost use Rattle.std.specs.Prelude.{◌≡◌, true, false, Some, None, IsSome};
ghost use Rattle.far_word.specs.declared.job.JobWord.TheVariants.{Offered};
ghost use Rattle.far_word.specs.Job.{job_in, job_of};
ghost use Rattle.far_events.specs.events.Claim.{offered_in};
ghost use Rattle.far_events.specs.state.State.{addr};

use far_word::LOG_WORDS;

// The fields of a job's word that are read here: the source's place, the target's, and the stage.
const FROM_AT: u32 = 16;

const FROM_LOG: u32 = 26;

const TO_AT: u32 = 34;

const TO_LOG: u32 = 44;

const STAGE: u32 = 62;

// The bits of a word in a log, and of a log.
const AT: u64 = 0x3ff;

const LOG: u64 = 0xff;

/// What a copier adds to the word that offers a job when it takes the job, but for its own number.
pub(crate) const TAKES: u64 = 1 << STAGE;

/// And when it has finished the job.
pub(crate) const FINISHES: u64 = 2 << STAGE;

/// Where the number of a copier stands.
pub(crate) const COPIER: u32 = 58;

/// Whether the word of a job offers it, by its stage.
#[tactic(auto, unfolding(far_word::specs::Job::job_of))]
pub(crate) fn is_offered(word: u64) -> bool
    requires reads { IsSome (job_of word) }
    ensures offers { result ≡ true → job_of word ≡ Some (Offered (job_in word)) }
    ensures others { result ≡ false → offered_in (job_of word) ≡ None }
{
    word >> STAGE == 1
}

/// Where the header of a job's source stands, counted from word 0 of log 0.
pub(crate) fn source_of(word: u64) -> usize
    ensures { result ≡ addr (job_in word).from }
{
    let log = (word >> FROM_LOG) & LOG;
    let at = (word >> FROM_AT) & AT;
    (log * LOG_WORDS as u64 + at) as usize
}

/// Where the header of its target stands.
pub(crate) fn target_of(word: u64) -> usize
    ensures { result ≡ addr (job_in word).to }
{
    let log = (word >> TO_LOG) & LOG;
    let at = (word >> TO_AT) & AT;
    (log * LOG_WORDS as u64 + at) as usize
}
