//! The steps of a round, each with the answer that is wanted; and what an evacuator shows.

use crate::tests::acts::{Act, Choice, End};
use far_book::{Home, Near, Plain};
use far_device::Device;
use far_evac::{Census, Evac, EvacFault, LogKind, LogState, Marked, Progress, RoundEnd};
use far_log::LogRow;
use far_policy::{Chosen, LeastLive, Oldest, Policy, Scripted};
use far_word::{CELLS, Marks, Place, Refused};

pub(super) const NO_MARKS: Marks = Marks {
    hot: false,
    evac: false,
    moved: false,
    dropped: false,
    dirty: false,
};

pub(super) const WRITTEN: Marks = Marks {
    dirty: true,
    ..NO_MARKS
};

impl Policy for Choice {
    ghost gives = { λ old rows most outcome new. Unit {0} };

    fn choose(&mut self, rows: &[LogRow], most: usize, out: &mut Chosen) -> Result<(), Refused> {
        match *self {
            Choice::Eldest => Oldest.choose(rows, most, out),
            Choice::Emptiest => LeastLive.choose(rows, most, out),
            Choice::Named(logs) => Scripted { logs }.choose(rows, most, out),
        }
    }
}

// So many objects moved, sent far and dropped, and logs given back.
pub(super) fn progress(counts: [u64; 4], done: bool) -> Progress {
    let [moved, far, dropped, freed] = counts;
    Progress {
        moved,
        far,
        dropped,
        freed,
        done,
    }
}

// So much was done before this refusal.
pub(super) fn stop(counts: [u64; 4], why: Refused) -> EvacFault {
    let so_far = progress(counts, false);
    EvacFault { so_far, why }
}

// Whether a round ended so.
fn comes_to(came: Result<RoundEnd, EvacFault>, end: End) -> bool {
    match end {
        End::Done(counts) => came == Ok(RoundEnd::Done(progress(counts, true))),
        End::Nothing => came == Ok(RoundEnd::Nothing),
        End::Limit(phase) => came == Ok(RoundEnd::Limit(phase)),
        End::Stopped(counts, why) => came == Err(stop(counts, why)),
    }
}

// Whether a round of these logs begins; or none, for this reason.
pub(super) fn selects<N: Near + Drop, D: Device + Drop, P: Policy>(
    evac: &mut Evac<N, D>,
    policy: &mut P,
    most: usize,
    logs: Result<&[u8], Refused>,
) -> bool {
    match (evac.select(policy, most), logs) {
        (Ok(chosen), Ok(logs)) => chosen.as_slice() == logs,
        (Err(found), Err(why)) => found == why,
        _ => false,
    }
}

// Whether so many objects are marked, after which the round waits for this epoch, or goes on marking; or none, for this reason.
fn marks<N: Near + Drop, D: Device + Drop>(
    evac: &mut Evac<N, D>,
    n: u64,
    marked: Result<(u64, Option<u64>), Refused>,
) -> bool {
    let marked = match marked {
        Ok((count, waiting)) => Ok(Marked { count, waiting }),
        Err(why) => Err(why),
    };
    evac.mark_some(n) == marked
}

/// Whether an act of a round comes out as it should; or a look at an evacuator shows what it should.
pub(super) fn round_does<D: Device + Drop>(evac: &mut Evac<Plain, D>, act: Act) -> bool {
    match act {
        Act::Selects(mut choice, most, logs) => selects(evac, &mut choice, most, logs),
        Act::Marks(n, marked) => marks(evac, n, marked),
        Act::Polls(polled) => evac.poll_wait() == polled,
        Act::Deals(n, counts, done) => evac.evacuate_some(n) == Ok(progress(counts, done)),
        Act::DealsUntil(n, counts, why) => evac.evacuate_some(n) == Err(stop(counts, why)),
        _ => runs(evac, act),
    }
}

// The same of a whole round.
fn runs<D: Device + Drop>(evac: &mut Evac<Plain, D>, act: Act) -> bool {
    match act {
        Act::TurnsNone(why) => evac.turn() == Err(stop([0, 0, 0, 0], why)),
        Act::GivesUp(given) => evac.abort() == given,
        Act::Runs(mut choice, most, turns, end) => {
            evac.keeps_law();
            comes_to(evac.run_round(&mut choice, most, turns), end)
        }
        Act::RunsAlone(most, turns, end) => {
            comes_to(evac.run_round_alone(&mut Oldest, most, turns), end)
        }
        _ => shows(evac, act),
    }
}

// The same of a look.
fn shows<N: Near + Drop, D: Device + Drop>(evac: &mut Evac<N, D>, act: Act) -> bool {
    match act {
        Act::In(phase) => evac.phase() == phase,
        Act::Epoch(epoch) => evac.book().shape().epoch == epoch,
        Act::Near(pointer, place, hot) => {
            let marks = Marks { hot, ..WRITTEN };
            home(evac, pointer) == Some(Home::Near { place, marks })
        }
        Act::Clean(pointer, place, hot) => {
            let marks = Marks { hot, ..NO_MARKS };
            home(evac, pointer) == Some(Home::Near { place, marks })
        }
        Act::Leaving(pointer, place) => {
            let marks = Marks {
                evac: true,
                ..WRITTEN
            };
            home(evac, pointer) == Some(Home::Near { place, marks })
        }
        Act::Far(pointer) => home(evac, pointer) == Some(Home::Far { marks: NO_MARKS }),
        Act::Log(log, kind, bytes) => is_log(evac, log, kind, bytes),
        Act::Counts(near, far, live) => counts(evac, near, far, live),
        Act::ListsAsked(pointer, place) => lists_asked(evac, pointer, place),
        Act::Sealed(logs) => are_sealed(evac, logs),
        _ => false,
    }
}

// Where a pointer's object is; `None` for a number that is no pointer's.
pub(super) fn home<N: Near + Drop, D: Device + Drop>(
    evac: &mut Evac<N, D>,
    pointer: u16,
) -> Option<Home> {
    if (pointer as u64) < CELLS as u64 * evac.book().shape().mutators {
        evac.locate(pointer)
    } else {
        None
    }
}

// What a log is and has; `None` for a number that is no log's.
pub(super) fn shown<N: Near + Drop, D: Device + Drop>(
    evac: &Evac<N, D>,
    log: u8,
) -> Option<LogState> {
    if (log as u64) < evac.book().shape().logs {
        Some(evac.log(log))
    } else {
        None
    }
}

// Whether a log is so, and has so many live, dead and unused bytes.
fn is_log<N: Near + Drop, D: Device + Drop>(
    evac: &Evac<N, D>,
    log: u8,
    kind: LogKind,
    bytes: [u16; 3],
) -> bool {
    let [live, dead, unused] = bytes;
    let row = LogRow {
        log,
        live,
        dead,
        unused,
    };
    shown(evac, log) == Some(LogState { kind, row })
}

// Whether an audit lists this object alone, at a place and with MOVE and DIRTY.
fn lists_asked<N: Near + Drop, D: Device + Drop>(
    evac: &mut Evac<N, D>,
    pointer: u16,
    place: Place,
) -> bool {
    match evac.audit() {
        Ok(census) => is_asked(&census, pointer, place),
        Err(_) => false,
    }
}

fn is_asked(census: &Census, pointer: u16, place: Place) -> bool {
    let marks = Marks {
        moved: true,
        ..WRITTEN
    };
    let [housed] = census.homes.as_slice() else {
        return false;
    };
    housed.pointer == pointer && housed.home == Home::Near { place, marks }
}

// Whether these logs are sealed, in this order.
fn are_sealed<N: Near + Drop, D: Device + Drop>(evac: &Evac<N, D>, logs: &[u8]) -> bool {
    match evac.rows() {
        Ok(rows) => are_rows_of(&rows, logs),
        Err(_) => false,
    }
}

fn are_rows_of(rows: &[LogRow], logs: &[u8]) -> bool {
    for (row, log) in rows.iter().zip(logs.iter()) {
        if row.log != *log {
            return false;
        }
    }
    rows.len() == logs.len()
}

// Whether so many objects are near and so many far, and so many bytes are live.
fn counts<N: Near + Drop, D: Device + Drop>(
    evac: &mut Evac<N, D>,
    near: u64,
    far: u64,
    live: u64,
) -> bool {
    match evac.audit() {
        Ok(census) => homes_counted(&census) == (near, far) && live_counted(&census) == live,
        Err(_) => false,
    }
}

fn homes_counted(census: &Census) -> (u64, u64) {
    let mut near = 0u64;
    let mut far = 0u64;
    for housed in &census.homes {
        match housed.home {
            Home::Near { .. } => near = near.saturating_add(1),
            Home::Far { .. } => far = far.saturating_add(1),
        }
    }
    (near, far)
}

fn live_counted(census: &Census) -> u64 {
    let mut live = 0u64;
    for log in &census.logs {
        live = live.saturating_add(log.row.live as u64);
    }
    live
}
