//! The rows of a beset hand: words found in cells, and words of the logs that are counted on.

ghost use Rattle.std.specs.Prelude.{◌≡◌, ◌+◌, ◌*◌, ◌<◌, ℕ, false, true, length, IfOk};
ghost use Rattle.std.specs.Vec.{vec_len};
ghost use Rattle.far_word.specs.declared.sizes.TheConstants.{JOBS};
ghost use Rattle.far_core.specs.state.CoreState.{core_state};
ghost use Rattle.far_events.specs.state.State.{put};
ghost use Rattle.far_hand.specs.Masked.{word_at, is_counted, recounted};

use far_core::Core;
use far_word::{CELLS, JOBS, LOG_WORDS};
use std::alloc::{AllocError, Global};

/// The cells of a core.
pub(crate) fn cells_of(alloc: Global, core: &Core) -> Result<Vec<u64>, AllocError>
    ensures len { IfOk result (λ cells. vec_len cells ≡ CELLS * (core_state core.now).mutators) }
    ensures words { IfOk result (λ cells. word_at cells.items ≡ (core_state core.now).cell) }
{
    core.keeps_law();
    let mut cells = Vec::new(alloc);
    for pointer in 0..CELLS * core.mutators() as u16 {
        cells.push(core.cell(pointer))?;
    }
    Ok(cells)
}

/// The words of a core's jobs.
pub(crate) fn jobs_of(core: &Core) -> [u64; JOBS as usize]
    ensures { word_at result ≡ (core_state core.now).copying.word }
{
    core.keeps_law();
    let mut jobs = [0; JOBS as usize];
    for job in 0..JOBS {
        find_job(&mut jobs, job, core.see_job(job));
    }
    jobs
}

/// A row for so many words, of which none is counted on.
pub(crate) fn none_counted(alloc: Global, words: usize) -> Result<Vec<bool>, AllocError>
    ensures len { IfOk result (λ counted. vec_len counted ≡ words) }
    ensures none { IfOk result (λ counted. is_counted counted.items ≡ (λ _. false)) }
{
    Ok(vec![in alloc; false; words]?)
}

/// The word last found or left in a pointer's cell.
pub(crate) fn found_in(found: &Vec<u64>, pointer: usize) -> u64
    requires { pointer < vec_len found.now }
    ensures { result ≡ word_at found.now.items pointer }
{
    found[pointer]
}

/// A word was found in a pointer's cell, or left there.
pub(crate) fn find(found: &mut Vec<u64>, pointer: u16, word: u64)
    requires { pointer < vec_len found.old }
    ensures len { vec_len found.new ≡ vec_len found.old }
    ensures words { word_at found.new.items ≡ put (word_at found.old.items) pointer word }
{
    found[pointer as usize] = word;
}

/// A word was found of a job, or left there.
pub(crate) fn find_job(jobs: &mut [u64; JOBS as usize], job: u8, word: u64)
    requires { job < JOBS }
    ensures { word_at jobs.new ≡ put (word_at jobs.old) job word }
{
    jobs[job as usize] = word;
}

/// A word of a log is counted on from now on.
pub(crate) fn count(counted: &mut Vec<bool>, log: u8, at: u16)
    requires { log * LOG_WORDS + at < vec_len counted.old }
    ensures len { vec_len counted.new ≡ vec_len counted.old }
    ensures words { is_counted counted.new.items ≡ put (is_counted counted.old.items) (log * LOG_WORDS + at) true }
{
    counted[log as usize * LOG_WORDS as usize + at as usize] = true;
}

/// No word is counted on any more.
pub(crate) fn forget(counted: &mut Vec<bool>)
    ensures len { vec_len counted.new ≡ vec_len counted.old }
    ensures none { is_counted counted.new.items ≡ (λ _. false) }
{
    counted.fill(false);
}

/// What is counted on once a word was read: nothing, if its log was given back; the word too, if its object is quiet; else what was counted on before.
pub(crate) fn recount(counted: &mut Vec<bool>, free: bool, quiet: bool, log: u8, at: u16)
    requires { log * LOG_WORDS + at < vec_len counted.old }
    ensures len { vec_len counted.new ≡ vec_len counted.old }
    ensures words { is_counted counted.new.items ≡ recounted (is_counted counted.old.items) free quiet (log * LOG_WORDS + at) }
{
    if free {
        forget(counted);
    } else if quiet {
        count(counted, log, at);
    }
}
