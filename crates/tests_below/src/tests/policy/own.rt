//! Policies of the tests' own, and rows.

ghost use Rattle.std.specs.Prelude.{◌≡◌, true};
ghost use Rattle.far_policy.specs.Logs.{AreRows};

use far_log::LogRow;
use far_policy::{Chosen, Policy};
use far_word::{MOST_LOGS, Refused};

/// Takes the youngest log, and so many times no log, and then refuses.
#[derive(Clone, Copy)]
pub(crate) struct Youngest {
    pub(crate) times: u8,
}

// page
impl Policy for Youngest {
    ghost gives = { λ old rows most outcome new. Unit {0} };

    fn choose(&mut self, rows: &[LogRow], most: usize, out: &mut Chosen) -> Result<(), Refused> {
        if self.times == 0 {
            return Err(Refused::BadChoice(200));
        }
        self.times -= 1;
        if most > 0 && !rows.is_empty() {
            out.push(rows[rows.len() - 1].log);
        }
        Ok(())
    }
}
// end

/// Whether these are rows of different logs, all of which a heap may have.
pub(crate) fn are_rows(rows: &[LogRow]) -> bool
    ensures { result ≡ true → AreRows rows.now }
{
    let mut seen = Chosen::new();
    for row in rows {
        if row.log >= MOST_LOGS {
            return false;
        }
        if seen.contains(row.log) {
            return false;
        }
        seen.push(row.log);
    }
    true
}
