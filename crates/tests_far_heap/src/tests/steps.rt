//! The steps of a round, each with the answer that is wanted.

use crate::tests::acts::{Act, Choice, End};
use crate::tests::looks::shows;
use far_device::Device;
use far_evac::{EvacFault, Marked, Polled, Progress, RoundEnd};
use far_heap::{Evacuator, HeapName};
use far_log::LogRow;
use far_policy::{Chosen, Oldest, Policy, Scripted};
use far_word::Refused;

/// Chooses so, and counts how often it is asked.
#[derive(Clone, Copy)]
pub(super) struct By {
    choice: Choice,
    times: u64,
}

impl By {
    pub(super) fn new(choice: Choice) -> By {
        By { choice, times: 0 }
    }

    /// How often it was asked.
    pub(super) fn times(&self) -> u64 {
        self.times
    }
}

impl Policy for By {
    ghost gives = { λ old rows most outcome new. Unit {0} };

    fn choose(&mut self, rows: &[LogRow], most: usize, out: &mut Chosen) -> Result<(), Refused> {
        self.times = self.times.saturating_add(1);
        match self.choice {
            Choice::Eldest => Oldest.choose(rows, most, out),
            Choice::Named(logs) => Scripted { logs }.choose(rows, most, out),
        }
    }
}

// So many objects moved, sent far and dropped, and logs given back.
fn progress(counts: [u64; 4], done: bool) -> Progress {
    let [moved, far, dropped, freed] = counts;
    Progress {
        moved,
        far,
        dropped,
        freed,
        done,
    }
}

// Nothing more than this was done, for this reason.
fn stop(counts: [u64; 4], why: Refused) -> EvacFault {
    let so_far = progress(counts, false);
    EvacFault { so_far, why }
}

// Nothing was done, for this reason.
fn refusal(why: Refused) -> EvacFault {
    stop([0, 0, 0, 0], why)
}

// Whether a whole round is done, and moved or sent far so many objects, and gave back so many logs.
fn has_emptied(came: Result<RoundEnd, EvacFault>, left: u64, freed: u64) -> bool {
    match came {
        Ok(RoundEnd::Done(done)) => {
            done.moved.saturating_add(done.far) == left && done.freed == freed
        }
        _ => false,
    }
}

/// Whether a whole round ended so.
pub(super) fn comes_to(came: Result<RoundEnd, EvacFault>, end: End) -> bool {
    match end {
        End::Done(counts) => came == Ok(RoundEnd::Done(progress(counts, true))),
        End::Over => matches!(came, Ok(RoundEnd::Done(_))),
        End::Emptied(left, freed) => has_emptied(came, left, freed),
        End::FarAbove(least) => matches!(came, Ok(RoundEnd::Done(done)) if done.far > least),
        End::Nothing => came == Ok(RoundEnd::Nothing),
        End::Limit(phase) => came == Ok(RoundEnd::Limit(phase)),
        End::Refused(why) => came == Err(refusal(why)),
        End::Stopped(counts, why) => came == Err(stop(counts, why)),
    }
}

// Whether a round of these logs begins; or none, for this reason.
fn selects<K: HeapName, D: Device + Drop>(
    book: &mut Evacuator<K, D>,
    choice: Choice,
    most: usize,
    logs: Result<&[u8], Refused>,
) -> bool {
    let mut policy = By::new(choice);
    match (book.select(&mut policy, most), logs) {
        (Ok(chosen), Ok(logs)) => chosen.as_slice() == logs,
        (Err(found), Err(why)) => found == why,
        _ => false,
    }
}

// Whether so many objects are marked, after which the round waits for this epoch, or goes on marking; or none, for this reason.
fn marks<K: HeapName, D: Device + Drop>(
    book: &mut Evacuator<K, D>,
    n: u64,
    marked: Result<(u64, Option<u64>), Refused>,
) -> bool {
    let marked = match marked {
        Ok((count, waiting)) => Ok(Marked { count, waiting }),
        Err(why) => Err(why),
    };
    book.mark_some(n) == marked
}

// Whether objects are dealt with so, the last ones perhaps; or none, for this reason.
fn deals<K: HeapName, D: Device + Drop>(
    book: &mut Evacuator<K, D>,
    n: u64,
    dealt: Result<[u64; 4], Refused>,
    done: bool,
) -> bool {
    let dealt = match dealt {
        Ok(counts) => Ok(progress(counts, done)),
        Err(why) => Err(refusal(why)),
    };
    book.evacuate_some(n) == dealt
}

/// Whether an act of the book comes out as it should.
pub(super) fn steps<K: HeapName, D: Device + Drop>(book: &mut Evacuator<K, D>, act: Act) -> bool {
    match act {
        Act::Selects(choice, most, logs) => selects(book, choice, most, logs),
        Act::Marks(n, marked) => marks(book, n, marked),
        Act::Polls(polled) => book.poll_wait() == polled,
        Act::Deals(n, dealt) => deals(book, n, dealt, true),
        Act::DealsOn(n, dealt) => deals(book, n, Ok(dealt), false),
        Act::TurnsNone(why) => book.turn() == Err(refusal(why)),
        Act::GivesUp(given) => book.abort() == given,
        _ => shows(book, act),
    }
}
