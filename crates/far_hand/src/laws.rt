//! Laws of the words that contracts cite: functions that do nothing.

ghost use Rattle.std.specs.Prelude.{◌↔◌, ℕ};
ghost use Rattle.far_word.specs.Job.{job_of};
ghost use Rattle.far_hand.specs.FindsJob.{FindsJob, GoesOn};

/// What a hand may find of a job, where one word of it is known, is what copiers may have made of it, and nothing else: an offered job is found so still,
/// taken, or finished; one that a copier has taken is found taken or finished by that copier; and no job, or a finished one, as it was known.
pub fn jobs_go_on()
    ensures { (known found : ℕ) → FindsJob known found ↔ GoesOn (job_of known) (job_of found) }
{}
