//! What [`Heap::run_round`] does in one hold of the lock.
//!
//! [`Heap::run_round`]: crate::Heap::run_round

ghost use Rattle.std.specs.Prelude.{◌≡◌, IfOk, IfErr};
ghost use Rattle.std.specs.List.{list_all};
ghost use Rattle.far_policy.specs.Logs.{is_among};
ghost use Rattle.far_evac.specs.Moment.{tally_of};
ghost use Rattle.far_heap.specs.Rounds.{Chooses, ChoosesNone, StopsTurn, Turns, is_round_of};

use crate::evacuator::{Evacuator, held};
use crate::name::HeapName;
use far_device::Device;
use far_evac::{EvacFault, Phase, Progress};
use far_policy::{Chosen, Policy};
use far_word::Refused;

// Whether each of these logs was chosen.
pub(crate) fn has_each(chosen: &Chosen, logs: &[u8]) -> bool
    ensures { result ≡ list_all (is_among chosen.now) logs.now }
{
    logs.iter().all(|log| chosen.contains(*log))
}

impl<K: HeapName, D: Device + Drop> Evacuator<K, D> {
    // Whether a round of these logs is running: the round's logs that aren't given back are the last of these logs, or, in a heap with copiers, any of these.
    fn is_round_of(&self, chosen: &Chosen) -> bool
        ensures { result ≡ is_round_of self.now.copying chosen.now self.now.collection }
    {
        held::is_round_of(&self.evac, chosen)
    }

    // Asks a policy for logs, as `select` does, and says which book it was that was asked of.
    pub(crate) fn choose<P: Policy>(
        &mut self,
        policy: &mut P,
        most: usize,
    ) -> Result<Chosen, Refused>
        ensures chosen { IfOk result (λ chosen. Chooses P.gives K.heap policy.old most policy.new chosen self.old self.new) }
        ensures refused { IfErr result (λ why. ChoosesNone P.gives K.heap policy.old most policy.new why self.old self.new) }
    {
        self.keeps_law();
        self.select(policy, most)
    }

    // Makes one turn of the round of these logs, as `turn` does: with the phase after it. Refused Phase also where another round is running, which stays as
    // it is; else as the device answered a write.
    pub(crate) fn turn_of(&mut self, chosen: &Chosen) -> Result<(Progress, Phase), EvacFault>
        ensures made { IfOk result (λ made. Turns D.writes D.lets_go D.contents K.heap chosen.now (tally_of made.0) made.0.done made.1 self.old self.new) }
        ensures refused { IfErr result (λ fault. StopsTurn D.writes D.lets_go D.contents K.heap chosen.now (tally_of fault.so_far) fault.why self.old self.new) }
    {
        self.keeps_law();
        if !self.is_round_of(chosen) {
            return Err(EvacFault {
                so_far: Progress::nothing(),
                why: Refused::Phase,
            });
        }
        match self.turn() {
            Ok(made) => {
                self.keeps_law();
                Ok((made, self.phase()))
            }
            Err(fault) => Err(fault),
        }
    }
}
