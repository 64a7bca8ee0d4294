//! The oldest logs.

ghost use Rattle.std.specs.Prelude.{◌≡◌, ◌≤◌, [], Ok, length, take};
ghost use Rattle.far_policy.specs.declared.chosen.TheConstants.{MOST_CHOSEN};
ghost use Rattle.far_policy.specs.Choice.{IsChoice};
ghost use Rattle.far_policy.specs.Logs.{AreRows, logs_of};

use crate::chosen::Chosen;
use crate::policy::Policy;
use far_log::LogRow;
use far_word::Refused;

/// Takes the logs of the first rows.
#[derive(Clone, Copy, Debug)]
pub struct Oldest;

impl Policy for Oldest {
    ghost gives = { λ old rows most outcome new. outcome ≡ Ok (take most (logs_of rows)) };

    /// Refuses nothing.
    fn choose(&mut self, rows: &[LogRow], most: usize, out: &mut Chosen) -> Result<(), Refused>
        requires rows { AreRows rows.now }
        requires empty { out.old ≡ [] }
        ensures never { result ≡ Ok tt }
        ensures chosen { IsChoice rows.now most out.new }
        ensures taken { out.new ≡ take most (logs_of rows.now) }
    {
        take_first(rows, most, out);
        Ok(())
    }
}

/// Puts the logs of the first rows into an empty list, at most `most`.
pub(crate) fn take_first(rows: &[LogRow], most: usize, out: &mut Chosen)
    requires few { length rows.now ≤ MOST_CHOSEN }
    requires empty { out.old ≡ [] }
    ensures { out.new ≡ take most (logs_of rows.now) }
{
    for row in &rows[..most.min(rows.len())] {
        out.push(row.log);
    }
}
