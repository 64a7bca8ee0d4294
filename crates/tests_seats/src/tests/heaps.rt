//! An evacuator on shared words beside one owner, and its acts.

use crate::tests::acts::Act;
use crate::tests::owners::owner_does;
use crate::tests::pairs::{NO_MARKS, Pair, WRITTEN, pair_of};
use far_book::{Home, Near};
use far_core::{Reply, Shape};
use far_device::{Device, MemDevice};
use far_evac::{Census, Evac, LogKind, LogState, Marked, Polled, Progress, RoundEnd};
use far_log::LogRow;
use far_policy::Oldest;
use far_table::BookSeat;
use far_word::{CELLS, LONGEST, Mark, Marks, Refused};
use tests_owner::Owner;

/// An evacuator over some hand, and the one owner beside it.
#[derive(Drop)]
struct Heap<N: Near + Drop> {
    evac: Evac<N, MemDevice>,
    owner: Owner<MemDevice>,
}

// A new evacuator over a book's seat, beside one owner.
fn heap_of(rt: &HostRuntime, shape: Shape) -> Result<Heap<BookSeat<MemDevice>>, Refused> {
    let Pair { book, owner } = pair_of(rt, shape)?;
    let evac = Evac::new(book);
    Ok(Heap { evac, owner })
}

// A new object of the first owner, in its lowest free cell.
fn place_next<N: Near + Drop, D: Device + Drop>(
    evac: &mut Evac<N, D>,
    len: u16,
) -> Result<u16, Refused> {
    if len == 0 || len > LONGEST {
        return Err(Refused::Length);
    }
    evac.keeps_law();
    let Some(pointer) = evac.book().free_cell(0) else {
        return Err(Refused::NoPointer);
    };
    evac.place(pointer, len, 1)?;
    Ok(pointer)
}

// Whether a pointer is one of the heap's; then where its object is, `None` if the cell is free.
fn home<N: Near + Drop, D: Device + Drop>(evac: &mut Evac<N, D>, pointer: u16) -> Option<Home> {
    if (pointer as u64) < CELLS as u64 * evac.book().shape().mutators {
        evac.locate(pointer)
    } else {
        None
    }
}

#[tactic(auto, using(crate::proofs::Uses::far_home))]
fn fetches<N: Near + Drop, D: Device + Drop>(evac: &mut Evac<N, D>, pointer: u16) -> bool {
    if pointer as u64 >= CELLS as u64 * evac.book().shape().mutators {
        return false;
    }
    let Some(Home::Far { .. }) = evac.locate(pointer) else {
        return false;
    };
    matches!(evac.fetch(pointer), Ok(Some(_)))
}

#[tactic(auto, using(crate::proofs::Uses::quiet_home))]
fn moves<N: Near + Drop, D: Device + Drop>(evac: &mut Evac<N, D>, pointer: u16) -> bool {
    if pointer as u64 >= CELLS as u64 * evac.book().shape().mutators {
        return false;
    }
    let Some(Home::Near { marks, .. }) = evac.locate(pointer) else {
        return false;
    };
    if !marks.moved {
        return false;
    }
    matches!(evac.move_now(pointer), Ok(Some(_)))
}

#[tactic(auto, using(crate::proofs::Uses::dropped_home))]
fn retires<N: Near + Drop, D: Device + Drop>(evac: &mut Evac<N, D>, pointer: u16) -> bool {
    if pointer as u64 >= CELLS as u64 * evac.book().shape().mutators {
        return false;
    }
    let Some(Home::Near { marks, .. }) = evac.locate(pointer) else {
        return false;
    };
    if !marks.dropped {
        return false;
    }
    evac.retire(pointer);
    true
}

// Whether the owner views an object in its scope: where it can't be pinned, it is fetched or moved before.
fn views<N: Near + Drop>(heap: &mut Heap<N>, pointer: u16) -> bool {
    if heap.owner.holds(pointer) || matches!(heap.owner.pin(pointer), Reply::Held(_)) {
        return true;
    }
    heap.owner.ask(pointer, Mark::Moved);
    (fetches(&mut heap.evac, pointer) || moves(&mut heap.evac, pointer))
        && matches!(heap.owner.pin(pointer), Reply::Held(_))
}

fn progress(counts: [u64; 4]) -> Progress {
    let [moved, far, dropped, freed] = counts;
    Progress {
        moved,
        far,
        dropped,
        freed,
        done: true,
    }
}

// Whether these are the oldest logs, a round of them begins, and so many objects are marked, so that epoch 1 begins.
fn begins<N: Near + Drop, D: Device + Drop>(
    evac: &mut Evac<N, D>,
    logs: &[u8],
    count: u64,
) -> bool {
    let waiting = Some(1);
    match evac.select(&mut Oldest, logs.len()) {
        Ok(chosen) => {
            chosen.as_slice() == logs && evac.mark_some(9) == Ok(Marked { count, waiting })
        }
        Err(_) => false,
    }
}

// Whether a log is so, and has so many live, dead and unused bytes.
fn is_log<N: Near + Drop, D: Device + Drop>(
    evac: &Evac<N, D>,
    log: u8,
    kind: LogKind,
    bytes: [u16; 3],
) -> bool {
    if log as u64 >= evac.book().shape().logs {
        return false;
    }
    let [live, dead, unused] = bytes;
    let row = LogRow {
        log,
        live,
        dead,
        unused,
    };
    evac.log(log) == LogState { kind, row }
}

// Whether so many bytes live in all logs.
fn has_live(census: &Census, live: u64) -> bool {
    let mut found = 0u64;
    for log in &census.logs {
        found = found.saturating_add(log.row.live as u64);
    }
    found == live
}

// Whether a census has so many near and far objects, and live bytes.
fn has(census: &Census, near: usize, far: usize, live: u64) -> bool {
    let mut found = 0usize;
    for housed in &census.homes {
        if let Home::Near { .. } = housed.home {
            found = found.saturating_add(1);
        }
    }
    found == near && census.homes.len().saturating_sub(found) == far && has_live(census, live)
}

// Whether an evacuator has so many.
fn counts<N: Near + Drop, D: Device + Drop>(
    evac: &mut Evac<N, D>,
    near: usize,
    far: usize,
    live: u64,
) -> bool {
    match evac.audit() {
        Ok(census) => has(&census, near, far, live),
        Err(_) => false,
    }
}

// Whether an act of an evacuator comes out as it should.
fn evac_does<N: Near + Drop, D: Device + Drop>(evac: &mut Evac<N, D>, act: Act) -> bool {
    match act {
        Act::MakesNone(len) => place_next(evac, len) == Err(Refused::NoRoom),
        Act::Begins(logs, count) => begins(evac, logs, count),
        Act::Waits => evac.poll_wait() == Ok(Polled::StillOpen(0, 0)),
        Act::IsClear => evac.poll_wait() == Ok(Polled::Clear),
        Act::Leaves(counts) => evac.evacuate_some(9) == Ok(progress(counts)),
        Act::Runs(counts) => {
            evac.run_round(&mut Oldest, 1, 9) == Ok(RoundEnd::Done(progress(counts)))
        }
        _ => evac_shows(evac, act),
    }
}

// Whether a look at an evacuator shows what it should.
fn evac_shows<N: Near + Drop, D: Device + Drop>(evac: &mut Evac<N, D>, act: Act) -> bool {
    match act {
        Act::Near(pointer, place, hot) => {
            let marks = Marks { hot, ..WRITTEN };
            home(evac, pointer) == Some(Home::Near { place, marks })
        }
        Act::Clean(pointer, place, hot) => {
            let marks = Marks { hot, ..NO_MARKS };
            home(evac, pointer) == Some(Home::Near { place, marks })
        }
        Act::Far(pointer) => home(evac, pointer) == Some(Home::Far { marks: NO_MARKS }),
        Act::Log(log, kind, bytes) => is_log(evac, log, kind, bytes),
        Act::Counts(near, far, live) => counts(evac, near, far, live),
        _ => false,
    }
}

// Whether an act comes out as it should.
fn does<N: Near + Drop>(heap: &mut Heap<N>, act: Act) -> bool {
    match act {
        Act::Makes(len, pointer) => {
            place_next(&mut heap.evac, len) == Ok(pointer) && heap.owner.adopt(pointer).is_some()
        }
        Act::Drops(pointer) => {
            heap.owner.ask(pointer, Mark::Dropped).is_some() && retires(&mut heap.evac, pointer)
        }
        Act::Views(pointer) => views(heap, pointer),
        _ => match owner_does(&mut heap.owner, act) {
            Some(done) => done,
            None => evac_does(&mut heap.evac, act),
        },
    }
}

// Whether each act comes out as it should.
fn does_all<N: Near + Drop>(heap: &mut Heap<N>, acts: &[Act]) -> bool {
    for act in acts {
        if !does(heap, *act) {
            return false;
        }
    }
    true
}

/// Whether each act, part by part, comes out as it should on a new evacuator.
pub(super) fn plays(rt: &HostRuntime, shape: Shape, first: &[Act], then: &[Act]) -> bool {
    match heap_of(rt, shape) {
        Ok(mut heap) => does_all(&mut heap, first) && does_all(&mut heap, then),
        Err(_) => false,
    }
}
