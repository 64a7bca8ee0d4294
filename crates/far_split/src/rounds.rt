//! Rounds that the book's lines ask for, beside the mutators.

ghost use Rattle.std.specs.Prelude.{◌≡◌, ◌⊎◌, ◌↔◌, true, IfErr, IfOk, IsTrue};
ghost use Rattle.far_word.specs.declared.refused.Refused.TheVariants.{Device as Failed, Memory};
ghost use Rattle.far_evac.specs.Moment.{nothing, progress_of};
ghost use Rattle.far_text.specs.Command.{Evacuator, Round, as_policy};
ghost use Rattle.far_reply.specs.Reply.{IsShort};
ghost use Rattle.far_split.specs.BookTold.{EndsRound, StopsRound, TellsLine};
ghost use Rattle.far_split.specs.Told.{TellsFewLogs, as_reply};

use crate::told::Answer;
use far_evac::{EvacFault, Progress, RoundEnd};
use far_heap::{Heap, HeapName};
use far_policy::{LeastLive, Oldest};
use far_replay::FarSide;
use far_text::Policy;
use far_word::Refused;
use std::sync::Wait;

// Makes a round of the logs that a policy chooses.
fn run_by<K: HeapName, R: Wait>(
    rt: &R,
    heap: &Heap<K, FarSide>,
    policy: Policy,
    most: u8,
    turns: u64,
) -> Result<RoundEnd, EvacFault>
    ensures ended { IfOk result (EndsRound K.heap (as_policy policy) most turns) }
    ensures refused { IfErr result (λ fault. StopsRound K.heap (as_policy policy) most turns fault.why fault.so_far) }
{
    let most = usize::from(most);
    match policy {
        Policy::Oldest => heap.run_round(rt, &mut Oldest, most, turns),
        Policy::LeastLive => heap.run_round(rt, &mut LeastLive, most, turns),
    }
}

// Whether a refusal is the device's or for want of memory. A round has such a one in a turn alone, since no device is called and no memory is taken while its logs
// are chosen; the turn leaves the round standing.
fn stands_after(why: Refused) -> bool
    ensures causes { result ≡ true → (why ≡ Memory) ⊎ (why ≡ Failed) }
    ensures device { why ≡ Failed → result ≡ true }
    ensures memory { why ≡ Memory → result ≡ true }
{
    match why {
        Refused::Device | Refused::Memory => true,
        _ => false,
    }
}

// Whether a round did nothing.
fn did_nothing(so_far: &Progress) -> bool
    ensures { IsTrue result ↔ (so_far.now ≡ progress_of nothing so_far.now.done) }
{
    so_far.moved == 0 && so_far.far == 0 && so_far.dropped == 0 && so_far.freed == 0
}

/// Makes a round, turn by turn, each under the heap's lock anew, and tells how it ends. If the device fails in a turn, or memory is refused, what had been done
/// is told, and the round stands then. What had been done, if anything, is told too if another thread ended the round.
pub(crate) fn make_round<K: HeapName, R: Wait>(
    rt: &R,
    heap: &Heap<K, FarSide>,
    policy: Policy,
    most: u8,
    turns: u64,
) -> Answer
    ensures told { TellsLine K.heap (Evacuator (Round (as_policy policy) most turns)) (as_reply result) }
    ensures short { IsShort (as_reply result) }
    ensures few { TellsFewLogs result }
{
    match run_by(rt, heap, policy, most, turns) {
        Ok(end) => Answer::Ended(end),
        Err(EvacFault { so_far, why }) => {
            if did_nothing(&so_far) && !stands_after(why) {
                Answer::Refused(why)
            } else {
                Answer::Halted { why, so_far }
            }
        }
    }
}
