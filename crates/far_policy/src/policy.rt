//! What may be counted on of a choice of logs.

ghost use Rattle.std.specs.Prelude.{◌≡◌, ℕ, List, [], Result, IfErr};
ghost use Rattle.far_word.specs.declared.refused.Refused.{Refused};
ghost use Rattle.far_log.specs.declared.row.LogRow.{LogRow};
ghost use Rattle.far_policy.specs.Choice.{IsChoice, IsBadChoice, outcome};
ghost use Rattle.far_policy.specs.Logs.{AreRows};

use crate::chosen::Chosen;
use far_log::LogRow;
use far_word::Refused;

/// A choice of logs for a round.
pub trait Policy {
    /// What the policy gives for rows and a greatest number, and the policy after that: logs, or a refusal.
    ghost gives: { Self → List LogRow → ℕ → Result (List ℕ) Refused → Self → Type 0 };

    /// Puts logs of the rows into an empty list, at most `most`, each once. The rows are those of the sealed logs, oldest
    /// first. A refusal is [`Refused::BadChoice`], and the list is then empty.
    fn choose(&mut self, rows: &[LogRow], most: usize, out: &mut Chosen) -> Result<(), Refused>
        requires rows { AreRows rows.now }
        requires empty { out.old ≡ [] }
        ensures chosen { IsChoice rows.now most out.new }
        ensures refused { IfErr result (λ why. IsBadChoice why × (out.new ≡ [])) }
        ensures gives { gives self.old rows.now most (outcome result out.new) self.new };
}
