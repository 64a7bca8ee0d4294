//! The logs that the caller names.

ghost use Rattle.std.specs.Prelude.{◌≡◌, ◌&&◌, [], not, nat_lt, length, IfErr};
ghost use Rattle.far_policy.specs.Choice.{IsChoice, IsBadChoice, outcome};
ghost use Rattle.far_policy.specs.Logs.{AreRows, is_among, logs_of};
ghost use Rattle.far_policy.specs.Scripted.{FollowsScript};

use crate::chosen::Chosen;
use crate::policy::Policy;
use far_log::LogRow;
use far_word::Refused;

/// Takes these logs in their order.
#[derive(Clone, Copy, Debug)]
pub struct Scripted<'a> {
    pub logs: &'a [u8],
}

impl<'a> Policy for Scripted<'a> {
    ghost gives = { λ old rows most outcome new. FollowsScript rows most old.logs.now outcome × (new ≡ old) };

    /// Refuses the first log that is none of the rows, or was named before, or comes after `most` others.
    fn choose(&mut self, rows: &[LogRow], most: usize, out: &mut Chosen) -> Result<(), Refused>
        requires rows { AreRows rows.now }
        requires empty { out.old ≡ [] }
        ensures chosen { IsChoice rows.now most out.new }
        ensures follows { FollowsScript rows.now most self.old.logs.now (outcome result out.new) × (self.new ≡ self.old) }
        ensures refused { IfErr result (λ why. IsBadChoice why × (out.new ≡ [])) }
    {
        let named = self.logs;
        for log in named {
            if !may_follow(rows, most, out, *log) {
                out.clear();
                return Err(Refused::BadChoice(*log));
            }
            out.push(*log);
        }
        Ok(())
    }
}

// Whether a log may be chosen after these.
fn may_follow(rows: &[LogRow], most: usize, chosen: &Chosen, log: u8) -> bool
    ensures { result ≡ (nat_lt (length chosen.now) most && not (is_among chosen.now log) && is_among (logs_of rows.now) log) }
{
    chosen.len() < most && !chosen.contains(log) && has_row(rows, log)
}

// Whether one of the rows is this log's.
fn has_row(rows: &[LogRow], log: u8) -> bool
    ensures { result ≡ is_among (logs_of rows.now) log }
{
    rows.iter().any(|row| log == row.log)
}
