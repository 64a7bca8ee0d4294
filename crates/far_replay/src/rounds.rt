//! What the evacuator is asked: to choose logs, to mark, to wait, to have objects leave, to give up, and a whole round.

ghost use Rattle.std.specs.Prelude.{◌≡◌, ◌≤◌, None, Some, length, take, IfErr, IfOk, OnOk};
ghost use Rattle.far_word.specs.declared.sizes.TheConstants.{MOST_LOGS};
ghost use Rattle.far_replay.specs.Interpreter.{stopper};
ghost use Rattle.far_replay.specs.Spent.{Makes, SpentBy};
ghost use Rattle.far_replay.specs.Commanded.{StopsSo};
ghost use Rattle.far_evac.specs.Choosing.{after_selecting};
ghost use Rattle.far_text.specs.Command.{Abort, Evacuate, Evacuator, Mark, Round, Select, Wait, as_choice, as_policy, as_step};
ghost use Rattle.far_text.specs.Written.{WritesBytes};
ghost use Rattle.far_replay.specs.Far.{HoldsBy, far_in};
ghost use Rattle.far_replay.specs.Moment.{moment_in, state_in};
ghost use Rattle.far_replay.specs.declared.outcome.Scratch.{Scratch};
ghost use Rattle.far_replay.specs.Outcome.{IsOutside, told_by};
ghost use Rattle.far_replay.specs.Rounds.{given_by, logs_given, rows_in, step_effect, step_reply};
ghost use Rattle.far_reply.specs.Reply.{Ended, Halted, Refused as Refusal};
ghost use Rattle.far_replay.specs.Turn.{effect, refusal, reply_to};

use crate::outcome::{Scratch, Stepped};
use crate::owners::{FarSide, keeps_law};
use far_book::Plain;
use far_evac::{Evac, EvacFault, Polled, RoundEnd};
use far_policy::{Chosen, LeastLive, Oldest, Scripted};
use far_text::{Choice, Policy, Step};
use far_word::Refused;

// Begins a round of the logs that a choice gives, at most so many.
fn choose(evac: &mut Evac<Plain, FarSide>, choice: Choice, most: u8) -> Result<Chosen, Refused>
    ensures allowed { IfOk result (λ _. refusal (moment_in evac.old) (Evacuator (Select (as_choice choice.entry) most)) ≡ None) }
    ensures given { IfOk result (λ chosen. logs_given (given_by (as_choice choice.entry) (rows_in (moment_in evac.old)) most) ≡ chosen) }
    ensures few { IfOk result (λ chosen. length chosen ≤ MOST_LOGS) }
    ensures begun { IfOk result (λ chosen. moment_in evac.new ≡ after_selecting (moment_in evac.old) chosen) }
    ensures refused { IfErr result (λ why. refusal (moment_in evac.old) (Evacuator (Select (as_choice choice.entry) most)) ≡ Some why) }
    ensures unchanged { IfErr result (λ _. moment_in evac.new ≡ moment_in evac.old) }
    ensures device { evac.new.book.device ≡ evac.old.book.device }
{
    keeps_law(evac);
    let most = usize::from(most);
    match choice {
        Choice::By(policy) => match policy {
            Policy::Oldest => evac.select(&mut Oldest, most),
            Policy::LeastLive => evac.select(&mut LeastLive, most),
        },
        Choice::Script(logs) => evac.select(&mut Scripted { logs }, most),
    }
}

// Copies the logs that were chosen in front of the buffer of bytes, and counts them.
fn list_chosen(chosen: &Chosen, bytes: &mut [u8]) -> u8
    requires few { length chosen.now ≤ MOST_LOGS }
    requires room { MOST_LOGS ≤ length bytes.old }
    ensures listed { take result bytes.new ≡ chosen.now }
    ensures few { result ≤ MOST_LOGS }
{
    let logs = chosen.as_slice();
    bytes[..logs.len()].copy_from_slice(logs);
    logs.len() as u8
}

// Begins a round of the logs that a choice gives, and tells them.
fn select(
    evac: &mut Evac<Plain, FarSide>,
    scratch: &mut Scratch,
    choice: Choice,
    most: u8,
) -> Stepped
    ensures moment { moment_in evac.new ≡ effect (moment_in evac.old) (Evacuator (Select (as_choice choice.entry) most)) }
    ensures reply { told_by scratch.new result ≡ reply_to (moment_in evac.old) (Evacuator (Select (as_choice choice.entry) most)) }
    ensures device { evac.new.book.device ≡ evac.old.book.device }
{
    match choose(evac, choice, most) {
        Ok(chosen) => {
            let count = list_chosen(&chosen, &mut scratch.bytes);
            Stepped::Selected(count)
        }
        Err(why) => Stepped::Refused(why),
    }
}

// Marks so many objects, or all that are left.
fn mark(evac: &mut Evac<Plain, FarSide>, scratch: &mut Scratch, count: u64) -> Stepped
    ensures moment { moment_in evac.new ≡ effect (moment_in evac.old) (Evacuator (Mark count)) }
    ensures reply { told_by scratch.new result ≡ reply_to (moment_in evac.old) (Evacuator (Mark count)) }
    ensures device { evac.new.book.device ≡ evac.old.book.device }
{
    match evac.mark_some(count) {
        Ok(marked) => {
            scratch.marked = marked;
            Stepped::Marked
        }
        Err(why) => Stepped::Refused(why),
    }
}

// Looks whether each older scope is closed.
fn wait(evac: &mut Evac<Plain, FarSide>) -> Stepped
    ensures moment { moment_in evac.new ≡ effect (moment_in evac.old) (Evacuator Wait) }
    ensures reply { (scratch : Scratch) → told_by scratch result ≡ (reply_to (moment_in evac.old) (Evacuator Wait)) }
    ensures device { evac.new.book.device ≡ evac.old.book.device }
{
    match evac.poll_wait() {
        Ok(Polled::Clear) => Stepped::Clear,
        Ok(Polled::StillOpen(owner, epoch)) => Stepped::Refused(Refused::StillOpen(owner, epoch)),
        Err(why) => Stepped::Refused(why),
    }
}

// What a refusal of the evacuator comes to. Where the device refused, or memory, it was in the midst of the step: what was done
// before is told then.
fn refused_step(scratch: &mut Scratch, fault: EvacFault) -> Stepped
    ensures halted { IsOutside fault.why → told_by scratch.new result ≡ Halted fault.why fault.so_far }
    ensures refused { ¬ IsOutside fault.why → told_by scratch.new result ≡ Refusal fault.why }
{
    scratch.progress = fault.so_far;
    match fault.why {
        Refused::Memory | Refused::Device => Stepped::Halted(fault.why),
        why => Stepped::Refused(why),
    }
}

// Has so many objects leave, or all that are left.
fn evacuate(evac: &mut Evac<Plain, FarSide>, scratch: &mut Scratch, count: u64) -> Stepped
    ensures made { Makes evac.old (Evacuator (Evacuate count)) (told_by scratch.new result) evac.new }
{
    keeps_law(evac);
    match evac.evacuate_some(count) {
        Ok(progress) => {
            scratch.progress = progress;
            Stepped::Evacuated
        }
        Err(fault) => refused_step(scratch, fault),
    }
}

// Gives the round up.
fn abort(evac: &mut Evac<Plain, FarSide>) -> Stepped
    ensures moment { moment_in evac.new ≡ effect (moment_in evac.old) (Evacuator Abort) }
    ensures reply { (scratch : Scratch) → told_by scratch result ≡ (reply_to (moment_in evac.old) (Evacuator Abort)) }
    ensures device { evac.new.book.device ≡ evac.old.book.device }
{
    match evac.abort() {
        Ok(()) => Stepped::Done,
        Err(why) => Stepped::Refused(why),
    }
}

// Makes a round of the logs that a policy chooses.
fn run_by(
    evac: &mut Evac<Plain, FarSide>,
    policy: Policy,
    most: u8,
    turns: u64,
) -> Result<RoundEnd, EvacFault>
    ensures allowed { IfOk result (λ _. refusal (moment_in evac.old) (Evacuator (Round (as_policy policy) most turns)) ≡ None) }
    ensures moment { OnOk result (moment_in evac.new ≡ step_effect (moment_in evac.old) (Round (as_policy policy) most turns)) }
    ensures end { IfOk result (λ end. Ended end ≡ step_reply (moment_in evac.old) (Round (as_policy policy) most turns)) }
    ensures refused { IfErr result (λ fault. ¬ IsOutside fault.why → refusal (moment_in evac.old) (Evacuator (Round (as_policy policy) most turns)) ≡ Some fault.why) }
    ensures unchanged { IfErr result (λ fault. ¬ IsOutside fault.why → moment_in evac.new ≡ moment_in evac.old) }
    ensures stopped { IfErr result (λ fault. IsOutside fault.why → StopsSo fault.why (moment_in evac.old) (Evacuator (Round (as_policy policy) most turns)) (Halted fault.why fault.so_far) (moment_in evac.new)) }
    ensures spent { SpentBy (stopper result) evac.old evac.new }
    ensures holds { HoldsBy (Evacuator (Round (as_policy policy) most turns)) (state_in evac.old) (state_in evac.new) (far_in evac.old) (far_in evac.new) }
{
    keeps_law(evac);
    let most = usize::from(most);
    match policy {
        Policy::Oldest => evac.run_round_alone(&mut Oldest, most, turns),
        Policy::LeastLive => evac.run_round_alone(&mut LeastLive, most, turns),
    }
}

// Makes a round, and tells how it ends.
fn round(
    evac: &mut Evac<Plain, FarSide>,
    scratch: &mut Scratch,
    policy: Policy,
    most: u8,
    turns: u64,
) -> Stepped
    ensures made { Makes evac.old (Evacuator (Round (as_policy policy) most turns)) (told_by scratch.new result) evac.new }
{
    match run_by(evac, policy, most, turns) {
        Ok(end) => {
            scratch.end = end;
            Stepped::Ended
        }
        Err(fault) => refused_step(scratch, fault),
    }
}

// Makes a step of the evacuator, and answers what it comes to.
fn step_made(evac: &mut Evac<Plain, FarSide>, scratch: &mut Scratch, step: Step) -> Stepped
    requires small { WritesBytes (Evacuator (as_step step)) }
    ensures made { Makes evac.old (Evacuator (as_step step.entry)) (told_by scratch.new result) evac.new }
{
    match step {
        Step::Select { choice, most } => select(evac, scratch, choice, most),
        Step::Mark { count } => mark(evac, scratch, count),
        Step::Wait => wait(evac),
        Step::Evacuate { count } => evacuate(evac, scratch, count),
        Step::Abort => abort(evac),
        Step::Round {
            policy,
            most,
            turns,
        } => round(evac, scratch, policy, most, turns),
    }
}

/// Makes a step of the evacuator; what it comes to stands in the buffers then, also where memory is refused, or the device fails, in
/// its midst.
#[inline(never)]
pub fn make_step(evac: &mut Evac<Plain, FarSide>, scratch: &mut Scratch, step: Step)
    requires small { WritesBytes (Evacuator (as_step step)) }
    ensures made { Makes evac.old (Evacuator (as_step step.entry)) (told_by scratch.new scratch.new.stepped) evac.new }
{
    scratch.stepped = step_made(evac, scratch, step);
}
