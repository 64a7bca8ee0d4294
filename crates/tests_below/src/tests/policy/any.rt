//! What a caller can say of any policy, by the trait alone.

ghost use Rattle.std.specs.Prelude.{IfErr, IfOk};
ghost use Rattle.far_policy.specs.Choice.{IsBadChoice, IsChoice};
ghost use Rattle.far_policy.specs.Logs.{AreRows};

use far_log::LogRow;
use far_policy::{Chosen, Policy};
use far_word::Refused;

/// The logs that the policy names, or its refusal.
pub(crate) fn chosen_by<P: Policy>(
    policy: &mut P,
    rows: &[LogRow],
    most: usize,
) -> Result<Chosen, Refused>
    requires { AreRows rows.now }
    ensures chosen { IfOk result (IsChoice rows.now most) }
    ensures refused { IfErr result IsBadChoice }
    ensures gives { P.gives policy.old rows.now most result policy.new }
{
    let mut chosen = Chosen::new();
    match policy.choose(rows, most, &mut chosen) {
        Ok(()) => Ok(chosen),
        Err(why) => Err(why),
    }
}
