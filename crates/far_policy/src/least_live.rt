//! The logs of least live bytes.

ghost use Rattle.std.specs.Prelude.{◌≡◌, [], List, Ok};
ghost use Rattle.far_log.specs.declared.row.LogRow.{LogRow};
ghost use Rattle.far_policy.specs.LeastLive.{TakesLeast};
ghost use Rattle.far_policy.specs.Choice.{IsChoice};
ghost use Rattle.far_policy.specs.Logs.{AreRows, logs_of};

use crate::chosen::{Chosen, MOST_CHOSEN};
use crate::oldest::take_first;
use crate::policy::Policy;
use far_log::LogRow;
use far_word::Refused;

const NO_ROW: LogRow = LogRow {
    log: 0,
    live: 0,
    dead: 0,
    unused: 0,
};

/// Takes the logs of least live bytes, of those that have as many the lower number first.
#[derive(Clone, Copy, Debug)]
pub struct LeastLive;

impl Policy for LeastLive {
    ghost gives = { λ old rows most outcome new. (taken : List LogRow) × TakesLeast rows most taken × (outcome ≡ Ok (logs_of taken)) };

    /// Refuses nothing.
    fn choose(&mut self, rows: &[LogRow], most: usize, out: &mut Chosen) -> Result<(), Refused>
        requires rows { AreRows rows.now }
        requires empty { out.old ≡ [] }
        ensures never { result ≡ Ok tt }
        ensures chosen { IsChoice rows.now most out.new }
        ensures taken { (taken : List LogRow) × TakesLeast rows.now most taken × (out.new ≡ logs_of taken) }
    {
        let mut copied = [NO_ROW; MOST_CHOSEN];
        let ranked = &mut copied[..rows.len()];
        ranked.copy_from_slice(rows);
        ranked.sort_unstable_by_key(|row| (row.live, row.log));
        take_first(ranked, most, out);
        Ok(())
    }
}
