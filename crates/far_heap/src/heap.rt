// A heap, which its mutators share.
ghost use Rattle.std.specs.Prelude.{◌≡◌, ◌↔◌, ◌≤◌, ℕ, List, Err, cond, false, length, IfOk, IfErr};
ghost use Rattle.far_word.specs.declared.refused.Refused.{Refused as any_refusal};
ghost use Rattle.far_word.specs.declared.refused.Refused.TheVariants.{Memory, Shape};
ghost use Rattle.far_word.specs.declared.sizes.TheConstants.{MOST_COPIERS};
ghost use Rattle.far_evac.specs.Moment.{Tally, plus, progress_of, tally_of};
ghost use Rattle.far_heap.specs.Blanks.{NewSeats, newcomers};
ghost use Rattle.far_heap.specs.Copiers.{AreFree, NewCopiers, is_many};
ghost use Rattle.far_heap.specs.HeapId.{with_copiers};
ghost use Rattle.far_heap.specs.Rounds.{Chose, EndsAfter, EndsTurns, RefusesRound, StopsTurns, TurnMade, TurnRefused, told_of};

use crate::blank::Blank;
use crate::copier::Copier;
use crate::evacuator::Evacuator;
use crate::mutator::Mutator;
use crate::name::HeapName;
use far_device::Device;
use far_evac::{EvacFault, Phase, Progress, RoundEnd};
use far_policy::{Chosen, Policy};
use far_table::{CopySeat, MutSeat};
use far_word::{MOST_COPIERS, Refused};
use std::alloc::{AllocError, Global};
use std::sync::{Arc, Mutex, MutexGuard, Wait};
use std::thread;

/// How often other threads may run at most before the next turn, where turns find nothing to do.
const MOST_PAUSES: u32 = 64;

/// The lock of a heap, with what it keeps.
pub(crate) type Lock<K, D> = Arc<Mutex<Evacuator<K, D>>, Global>;

/// A heap of a name. Threads share it by reference; its mutators have a share of their own in its lock.
#[derive(Drop)]
pub struct Heap<K: HeapName, D: Device + Drop> {
    lock: Lock<K, D>,
}

// The mutators of these seats, by number, each with a share in the lock.
fn mutators_of<K: HeapName, D: Device + Drop>(
    alloc: Global,
    lock: &Lock<K, D>,
    mut seats: Vec<MutSeat<D>>,
) -> Result<Vec<Mutator<K, D>>, AllocError>
    requires { NewSeats K.heap seats.items }
    ensures { IfOk result (λ mutators. mutators.items ≡ newcomers K.heap) }
{
    let many = seats.len();
    let mut mutators = Vec::with_capacity(alloc, many)?;
    for number in 0..many {
        let seat = seats.remove(0);
        let lock = Arc::try_clone(lock)?;
        let mutator = Mutator::new(alloc, lock, seat, number as u8)?;
        mutators.push_reserved(mutator);
    }
    Ok(mutators)
}

// The copiers of the first of these seats, so many.
fn copiers_of<K: HeapName, D: Device + Drop>(
    alloc: Global,
    mut seats: Vec<CopySeat<D>>,
    many: u8,
) -> Result<Vec<Copier<K, D>>, AllocError>
    requires seats { NewCopiers K.heap seats.items }
    requires few { many ≤ MOST_COPIERS }
    ensures many { IfOk result (λ copiers. length copiers.items ≡ many) }
    ensures free { IfOk result (λ copiers. AreFree K.heap.table 0 copiers.items) }
{
    let mut copiers = Vec::with_capacity(alloc, many as usize)?;
    for _number in 0..many {
        let free = seats.remove(0);
        copiers.push_reserved(Copier::new(free));
    }
    Ok(copiers)
}

// What was done in two parts. Other callers' rounds may have come between, so that no bound of one round holds: the sums stop at the greatest number.
fn sum(before: Progress, more: Progress, done: bool) -> Progress
    ensures { result ≡ progress_of (told_of (plus (tally_of before) (tally_of more))) done }
{
    Progress {
        moved: before.moved.saturating_add(more.moved),
        far: before.far.saturating_add(more.far),
        dropped: before.dropped.saturating_add(more.dropped),
        freed: before.freed.saturating_add(more.freed),
        done,
    }
}

// Lets other threads run so many times: how many times before the next turn, if that too finds nothing to do.
fn pause(times: u32) -> u32 {
    for _ in 0..times {
        thread::yield_now();
    }
    if times < MOST_PAUSES {
        times * 2
    } else {
        times
    }
}

impl<K: HeapName, D: Device + Drop> Heap<K, D> {
    /// Begins a heap, with its mutators by number. All room that they ever need is taken here. Refused [`Refused::Memory`] alone; the blank is
    /// dropped then.
    ///
    /// Its caller is a function over the name, called with `Brand`.
    pub fn new(alloc: Global, blank: Blank<D>) -> Result<(Heap<K, D>, Vec<Mutator<K, D>>), Refused>
        requires name { blank.heap ≡ K.heap }
        ensures mutators { IfOk result (λ made. made.1.items ≡ newcomers K.heap) }
        ensures refused { IfErr result (λ why. why ≡ Memory) }
    {
        let Blank {
            book,
            seats,
            copiers: _copiers,
        } = blank;
        let evacuator = Evacuator::new(book);
        let Ok(lock) = Arc::new(alloc, Mutex::new(evacuator)) else {
            return Err(Refused::Memory);
        };
        let Ok(mutators) = mutators_of(alloc, &lock, seats) else {
            return Err(Refused::Memory);
        };
        Ok((Heap { lock }, mutators))
    }

    /// Begins a heap with copiers, so many of eight, by number: while a round empties its logs, an object viewed since it was last placed is offered to
    /// them, to be copied while the lock is free. Else as [`Heap::new`].
    ///
    /// Refused, in this order: [`Refused::Shape`] exactly where there aren't 1 to 8 copiers, [`Refused::Memory`]. The blank is dropped then.
    pub fn with_copiers(
        alloc: Global,
        blank: Blank<D>,
        many: u8,
    ) -> Result<(Heap<K, D>, Vec<Mutator<K, D>>, Vec<Copier<K, D>>), Refused>
        requires name { with_copiers blank.heap ≡ K.heap }
        ensures mutators { IfOk result (λ made. made.1.items ≡ newcomers K.heap) }
        ensures copiers { IfOk result (λ made. (length made.2.items ≡ many) × AreFree K.heap.table 0 made.2.items) }
        ensures shape { (result ≡ Err Shape) ↔ (is_many many ≡ false) }
        ensures refused { IfErr result (λ why. why ≡ cond (is_many many) Memory Shape) }
    {
        if many == 0 || many > MOST_COPIERS {
            return Err(Refused::Shape);
        }
        let Blank {
            book,
            seats,
            copiers,
        } = blank;
        let Ok(lock) = Arc::new(alloc, Mutex::new(Evacuator::copying(book))) else {
            return Err(Refused::Memory);
        };
        let Ok(mutators) = mutators_of(alloc, &lock, seats) else {
            return Err(Refused::Memory);
        };
        let Ok(copiers) = copiers_of(alloc, copiers, many) else {
            return Err(Refused::Memory);
        };
        Ok((Heap { lock }, mutators, copiers))
    }

    /// Takes the lock: the book and the evacuator, until the guard is dropped.
    pub fn book<R: Wait>(&self, rt: &R) -> MutexGuard<'_, Evacuator<K, D>> {
        self.lock.lock(rt)
    }

    /// Makes a round: asks a policy for logs, at most `most`, and makes `turns` turns, or fewer if the round is over before. The lock is taken for the
    /// choice, and anew for each turn; where a turn counted nothing and left the phase as it was, unless it marks, other threads may run before the
    /// next: once, and after each further such turn twice as often, up to 64 times.
    /// [`RoundEnd::Nothing`] exactly where no log was chosen, [`RoundEnd::Done`], with the sum of what the turns did, where a turn gave the last of the round's
    /// logs back, and else [`RoundEnd::Limit`], with the phase after the last turn, or after the choice if `turns` is 0: the round goes on by
    /// [`Evacuator::turn`], or is given up by [`Evacuator::abort`]. A policy is offered sealed logs alone, those in which an object had no room, so that another
    /// was opened.
    ///
    /// Refused as [`Evacuator::select`] and [`Evacuator::turn`] are: [`Refused::Memory`] or [`Refused::Device`] as the device answered one write, of an object that
    /// was to leave. [`Refused::Phase`] also where another caller ended the round meanwhile, or gave it up and began one of other logs, which stays as it is. `so_far`
    /// is then the sum of what was done.
    pub fn run_round<R: Wait, P: Policy>(
        &self,
        rt: &R,
        policy: &mut P,
        most: usize,
        turns: u64,
    ) -> Result<RoundEnd, EvacFault>
        ensures ended { IfOk result (λ end. (logs : List ℕ) × Chose P.gives D K.heap policy.old most policy.new logs × EndsAfter D.writes D.lets_go D.contents K.heap logs turns end) }
        ensures refused { IfErr result (λ fault. RefusesRound D.writes D.lets_go D.contents K.heap P.gives policy.old most policy.new turns fault) }
    {
        let chosen = match self.book(rt).choose(policy, most) {
            Ok(chosen) => chosen,
            Err(why) => {
                return Err(EvacFault {
                    so_far: Progress::nothing(),
                    why,
                });
            }
        };
        if chosen.is_empty() {
            return Ok(RoundEnd::Nothing);
        }
        self.make_turns(rt, &chosen, turns)
    }

    // Makes so many turns of the round of these logs, which was begun, or fewer if it is over before.
    fn make_turns<R: Wait>(
        &self,
        rt: &R,
        chosen: &Chosen,
        turns: u64,
    ) -> Result<RoundEnd, EvacFault>
        ensures ended { IfOk result (EndsTurns D.writes D.lets_go D.contents K.heap chosen.now turns) }
        ensures refused { IfErr result (StopsTurns D.writes D.lets_go D.contents K.heap chosen.now turns) }
    {
        let mut total = Progress::nothing();
        let mut phase = Phase::Marking;
        let mut pauses = 1;
        for _ in 0..turns {
            let stood = phase;
            let counted = total;
            match self.turn_more(rt, chosen, total) {
                Ok((sum, after)) => {
                    total = sum;
                    phase = after;
                }
                Err(fault) => return Err(fault),
            }
            if total.done {
                return Ok(RoundEnd::Done(total));
            }
            pauses = if phase == stood && phase != Phase::Marking && total == counted {
                pause(pauses)
            } else {
                1
            };
        }
        Ok(RoundEnd::Limit(phase))
    }

    // Makes one turn under the lock, of the round of these logs, and adds what it did to what was done before: with the phase after it.
    fn turn_more<R: Wait>(
        &self,
        rt: &R,
        chosen: &Chosen,
        before: Progress,
    ) -> Result<(Progress, Phase), EvacFault>
        ensures made { IfOk result (λ made. (tally : Tally) × TurnMade D.writes D.lets_go D.contents K.heap chosen.now tally made.0.done made.1 × (made.0 ≡ progress_of (told_of (plus (tally_of before) tally)) made.0.done)) }
        ensures refused { IfErr result (λ fault. (tally : Tally) × TurnRefused D.writes D.lets_go D.contents K.heap chosen.now tally fault.why × (fault.so_far ≡ progress_of (told_of (plus (tally_of before) tally)) false)) }
    {
        let turned = self.book(rt).turn_of(chosen);
        match turned {
            Ok((made, after)) => Ok((sum(before, made, made.done), after)),
            Err(fault) => Err(EvacFault {
                so_far: sum(before, fault.so_far, false),
                why: fault.why,
            }),
        }
    }
}
