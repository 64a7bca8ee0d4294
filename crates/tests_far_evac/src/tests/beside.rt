//! Rounds beside owners at work: between each two steps of the book an owner does anything that it may, and the census is right after it.

ghost use Rattle.std.specs.Prelude.{◌≡◌};

use crate::tests::steps::home;
use far_book::{Beset, Book, Home};
use far_core::{Core, Event, Shape};
use far_device::MemDevice;
use far_evac::{Census, Evac, LogState, Progress, RoundEnd};
use far_log::{LogRow, Span};
use far_policy::Oldest;
use far_word::{CELLS, LOG_BYTES, LONGEST, Mark, Place, Refused, size_of};

const SHAPE: Shape = Shape {
    logs: 6,
    mutators: 2,
    epoch: 0,
};

// The next of a row of numbers that look chosen at random.
fn next(state: u64) -> u64 {
    let factor = 6_364_136_223_846_793_005;
    state
        .wrapping_mul(factor)
        .wrapping_add(1_442_695_040_888_963_407)
}

// An event of one of two owners at one of its first six pointers.
fn event_of(state: u64) -> Event {
    let owner = (state >> 62) as u8 % 2;
    let pointer = owner as u16 * CELLS + (state >> 50) as u16 % 6;
    let mark = match (state >> 40) % 16 {
        0 => Mark::Dropped,
        _ => Mark::Moved,
    };
    let (index, word) = (0, state % 256);
    match (state >> 30) % 8 {
        0 => Event::ReadEpoch { owner },
        1 => Event::Open { owner },
        2 => Event::Close { owner },
        3 => Event::Ask {
            owner,
            pointer,
            mark,
        },
        4 | 5 => Event::Pin { owner, pointer },
        6 => Event::Soil { owner, pointer },
        _ => Event::Store {
            owner,
            pointer,
            index,
            word,
        },
    }
}

// They take their objects over once these are placed: whether there is memory for that.
fn adopts_all(events: &mut Vec<Event>) -> bool {
    for pointer in 0..4u16 {
        let first = Event::Adopt { owner: 0, pointer };
        let pointer = CELLS + pointer;
        let second = Event::Adopt { owner: 1, pointer };
        if events.push(first).is_err() || events.push(second).is_err() {
            return false;
        }
    }
    true
}

// They do this and that.
fn does_anything(events: &mut Vec<Event>, seed: u64) -> bool {
    let mut state = seed;
    for _ in 0..600u16 {
        state = next(state);
        if events.push(event_of(state)).is_err() {
            return false;
        }
    }
    true
}

// Owners' events: they take their objects over once these are placed, wait while most words of the two that fill logs are written, do this and that, and
// close their scopes at last.
fn fills(events: &mut Vec<Event>, seed: u64) -> bool {
    let nothing = Event::Close { owner: 9 };
    events.resize(24, nothing).is_ok()
        && adopts_all(events)
        && events.resize(800, nothing).is_ok()
        && does_anything(events, seed)
        && events.push(Event::Close { owner: 0 }).is_ok()
        && events.push(Event::Close { owner: 1 }).is_ok()
}

#[tactic(auto, using(crate::proofs::Uses::beset_start, crate::proofs::Uses::beset_alone))]
fn beset(rt: &HostRuntime, events: Vec<Event>) -> Result<Evac<Beset, MemDevice>, Refused> {
    let core = Core::new(rt.alloc(), SHAPE, true)?;
    let hand = Beset::new(rt.alloc(), core, events)?;
    let book = Book::new(rt.alloc(), hand, MemDevice::new(rt.alloc()))?;
    Ok(Evac::new(book))
}

// Whether a new object gets an owner's lowest free cell.
fn places(evac: &mut Evac<Beset, MemDevice>, owner: u8, len: u16) -> bool {
    if owner as u64 >= evac.book().shape().mutators || len == 0 || len > LONGEST {
        return false;
    }
    evac.keeps_law();
    match evac.book().free_cell(owner) {
        Some(pointer) => evac.place(pointer, len, 1).is_ok(),
        None => false,
    }
}

// Whether each owner gets a new object.
fn places_two(evac: &mut Evac<Beset, MemDevice>, len: u16) -> bool {
    places(evac, 0, len) && places(evac, 1, len)
}

// Whether eight objects of 8 bytes lie in log 0, one fills log 1, and one log 2.
fn places_ten(evac: &mut Evac<Beset, MemDevice>) -> bool {
    for _ in 0..4u8 {
        if !places_two(evac, 8) {
            return false;
        }
    }
    places_two(evac, LONGEST)
}

// What a round of logs 0 and 1 has done, if it ended and gave both back.
fn emptied(evac: &mut Evac<Beset, MemDevice>) -> Option<Progress> {
    match evac.run_round(&mut Oldest, 2, 1000) {
        Ok(RoundEnd::Done(progress)) if progress.freed == 2 => Some(progress),
        _ => None,
    }
}

// Whether a span's object lies there.
fn is_live(evac: &mut Evac<Beset, MemDevice>, log: u8, span: Span) -> bool {
    let here = Place { log, at: span.at };
    match home(evac, span.p) {
        Some(Home::Near { place, .. }) => place == here,
        _ => false,
    }
}

// How many bytes of these spans of a log are live, and how many dead.
fn weighed(evac: &mut Evac<Beset, MemDevice>, log: u8, spans: &[Span]) -> (u16, u16) {
    let (mut live, mut dead) = (0u16, 0u16);
    for span in spans {
        let size = size_of(span.len).saturating_mul(8);
        if is_live(evac, log, *span) {
            live = live.saturating_add(size);
        } else {
            dead = dead.saturating_add(size);
        }
    }
    (live, dead)
}

// Whether a log has as many live and dead bytes as its spans have, and 4,096 in all.
fn adds_up(evac: &mut Evac<Beset, MemDevice>, row: LogRow) -> bool {
    if row.log as u64 >= evac.book().shape().logs {
        return false;
    }
    let Ok(spans) = evac.spans(row.log) else {
        return false;
    };
    let (live, dead) = weighed(evac, row.log, &spans);
    let placed = live.saturating_add(dead);
    row.live == live && row.dead == dead && row.unused == LOG_BYTES.saturating_sub(placed)
}

fn has_drop(home: Home) -> bool {
    match home {
        Home::Near { marks, .. } | Home::Far { marks } => marks.dropped,
    }
}

// How many objects aren't dropped.
fn objects(evac: &mut Evac<Beset, MemDevice>) -> usize {
    let mut objects = 0usize;
    for pointer in 0..2 * CELLS {
        if let Some(home) = home(evac, pointer) {
            if !has_drop(home) {
                objects = objects.saturating_add(1);
            }
        }
    }
    objects
}

// Whether each object that a census lists is there, and no other.
fn lists_all(evac: &mut Evac<Beset, MemDevice>, census: &Census) -> bool {
    for housed in &census.homes {
        if home(evac, housed.pointer) != Some(housed.home) {
            return false;
        }
    }
    objects(evac) == census.homes.len()
}

// Whether each of six logs adds up.
fn logs_add_up(evac: &mut Evac<Beset, MemDevice>, logs: &[LogState]) -> bool {
    for state in logs {
        if !adds_up(evac, state.row) {
            return false;
        }
    }
    logs.len() == 6
}

fn census_holds(evac: &mut Evac<Beset, MemDevice>) -> bool {
    // Events that are left are made while the cells are looked at.
    for _ in 0..3u8 {
        objects(evac);
    }
    match evac.audit() {
        Ok(census) => logs_add_up(evac, &census.logs) && lists_all(evac, &census),
        Err(_) => false,
    }
}

/// Whether one of many rounds moved objects, one sent some far, and one retired some.
#[derive(Drop)]
struct Seen {
    moved: bool,
    far: bool,
    dropped: bool,
}

impl Seen {
    fn take(&mut self, progress: Progress) {
        self.moved |= progress.moved > 1;
        self.far |= progress.far > 1;
        self.dropped |= progress.dropped > 1;
    }
}

// Whether a round gives both logs back, and the census is right.
fn ends_well(evac: &mut Evac<Beset, MemDevice>, seen: &mut Seen) -> bool {
    if !places_ten(evac) {
        return false;
    }
    let Some(progress) = emptied(evac) else {
        return false;
    };
    seen.take(progress);
    census_holds(evac)
}

// Whether it is so beside the owners of one seed.
fn ends_beside(rt: &HostRuntime, seed: u64, seen: &mut Seen) -> bool {
    let mut events = Vec::new(rt.alloc());
    if !fills(&mut events, seed) {
        return false;
    }
    match beset(rt, events) {
        Ok(mut evac) => ends_well(&mut evac, seen),
        Err(_) => false,
    }
}

// In each of many rounds; some of them move, some send far, and some retire.
#[test]
fn owners_are_at_work(rt: HostRuntime) {
    let mut seen = Seen {
        moved: false,
        far: false,
        dropped: false,
    };
    for seed in 0..40u64 {
        assert!(rt; ends_beside(&rt, seed, &mut seen), "seed {seed}");
    }
    assert!(rt; seen.moved && seen.far && seen.dropped);
}
