//! Rounds that a caller asks for.

ghost use Rattle.std.specs.Prelude.{◌≡◌, ◌≤◌, ℕ, List, Ok, IfOk, IfErr, OnErr, length};
ghost use Rattle.far_log.specs.declared.row.LogRow.{LogRow};
ghost use Rattle.far_evac.specs.declared.phase.Phase.TheVariants.{Idle};
ghost use Rattle.far_private.specs.NoRound.{IsNoRound};
ghost use Rattle.far_private.specs.Objects.{state_in};
ghost use Rattle.far_private.specs.Steps.{Keeps};

use far_book::Plain;
use far_device::Device;
use far_evac::Evac;
use far_policy::Policy;
use far_word::Refused;

/// So many turns a round of these makes at most: more than all logs of the largest heap need, where 16 of at most 16,384 objects are
/// marked in a turn, and 16 leave in one.
const TURNS: u64 = 4096;

/// Makes a round of logs that a policy names, at most `most`, and answers how many of them it gave back. No round stands
/// then.
///
/// Refused where none begins, in this order: [`Refused::EpochsSpent`] where there is no later epoch, and then nobody asked the policy; and
/// [`Refused::BadChoice`] as the policy refuses.
pub(crate) fn free_logs<P: Policy, D: Device + Drop>(
    evac: &mut Evac<Plain, D>,
    policy: &mut P,
    most: usize,
) -> Result<usize, Refused>
    ensures keeps { Keeps (state_in evac.old) (state_in evac.new) }
    ensures few { IfOk result (λ freed. freed ≤ most) }
    ensures named { IfOk result (λ freed. (rows : List LogRow) × (logs : List ℕ) × P.gives policy.old rows most (Ok logs) policy.new × (freed ≤ length logs)) }
    ensures refused { IfErr result (λ why. IsNoRound P.gives policy.old policy.new most why) }
    ensures idle { evac.new.phase ≡ Idle }
{
    end_round(evac);
    match begin(evac, policy, most) {
        Ok(chosen) => Ok(turn_all(evac, chosen)),
        Err(why) => Err(why),
    }
}

// Begins a round of the logs that a policy names, if it names one: how many it named.
fn begin<P: Policy, D: Device + Drop>(
    evac: &mut Evac<Plain, D>,
    policy: &mut P,
    most: usize,
) -> Result<usize, Refused>
    requires idle { evac.old.phase ≡ Idle }
    ensures keeps { Keeps (state_in evac.old) (state_in evac.new) }
    ensures few { IfOk result (λ chosen. chosen ≤ most) }
    ensures named { IfOk result (λ chosen. (rows : List LogRow) × (logs : List ℕ) × P.gives policy.old rows most (Ok logs) policy.new × (chosen ≤ length logs)) }
    ensures refused { IfErr result (λ why. IsNoRound P.gives policy.old policy.new most why) }
    ensures idle { OnErr result (evac.new.phase ≡ Idle) }
{
    match evac.select(policy, most) {
        Ok(chosen) => Ok(chosen.len()),
        Err(why) => Err(why),
    }
}

// Makes the turns of a round of so many logs, and gives up what is left of it: how many it gave back.
fn turn_all<D: Device + Drop>(evac: &mut Evac<Plain, D>, chosen: usize) -> usize
    ensures keeps { Keeps (state_in evac.old) (state_in evac.new) }
    ensures few { result ≤ chosen }
    ensures idle { evac.new.phase ≡ Idle }
{
    make_turns(evac);
    let left = evac.collection().len();
    end_round(evac);
    chosen.saturating_sub(left)
}

// Makes the turns of a round, as far as it goes.
fn make_turns<D: Device + Drop>(evac: &mut Evac<Plain, D>)
    ensures { Keeps (state_in evac.old) (state_in evac.new) }
{
    for _ in 0..TURNS {
        if !turn(evac) {
            return;
        }
    }
}

// Makes a turn of a round: whether it isn't over.
fn turn<D: Device + Drop>(evac: &mut Evac<Plain, D>) -> bool
    ensures { Keeps (state_in evac.old) (state_in evac.new) }
{
    evac.keeps_law();
    match evac.turn() {
        Ok(progress) => !progress.done,
        Err(_) => false,
    }
}

/// Gives up a round that stands, if one does.
pub(crate) fn end_round<D: Device + Drop>(evac: &mut Evac<Plain, D>)
    ensures keeps { Keeps (state_in evac.old) (state_in evac.new) }
    ensures idle { evac.new.phase ≡ Idle }
{
    evac.keeps_law();
    let _ = evac.abort();
}
