//! Which way objects go beside a copier, by worked values: each group of events comes while the evacuator looks at the first object again and again.

ghost use Rattle.std.specs.Prelude.{◌≡◌};

use crate::tests::acts::Choice;
use crate::tests::copying::{CLAIMS, DROPS, NOTHING, VIEWS, beset, looks, places};
use crate::tests::making::{fetches, retires};
use crate::tests::steps::{NO_MARKS, WRITTEN, home, progress, selects};
use far_book::{Beset, Home};
use far_core::Event;
use far_device::MemDevice;
use far_evac::{Evac, Marked, Polled};
use far_word::{LONGEST, Mark, Marks, Place};
use std::alloc::Global;

/// How many calls of the hand nobody acts before a group, and how many looks pass it.
const APART: usize = 2000;

const PASSED: usize = 2010;

// The events of these groups: whether there is memory for them.
fn fills(events: &mut Vec<Event>, groups: &[&[Event]]) -> bool {
    for group in groups {
        let before = events.len().saturating_add(APART);
        if events.resize(before, NOTHING).is_err() || events.extend_from_slice(group).is_err() {
            return false;
        }
    }
    true
}

// Whether a round of these logs, the oldest, comes to where their objects leave.
fn comes_to_leave(evac: &mut Evac<Beset, MemDevice>, logs: &[u8], count: u64, epoch: u64) -> bool {
    let waiting = Some(epoch);
    selects(evac, &mut Choice::Eldest, logs.len(), Ok(logs))
        && evac.mark_some(9) == Ok(Marked { count, waiting })
        && evac.poll_wait() == Ok(Polled::Clear)
}

// Whether an evacuation of at most n objects does so much.
fn deals(evac: &mut Evac<Beset, MemDevice>, n: u64, counts: [u64; 4], done: bool) -> bool {
    evac.evacuate_some(n) == Ok(progress(counts, done))
}

#[derive(Clone, Copy)]
enum Test {
    Clean,
    Passed,
    Dropped,
}

const BESIDE_CLEAN: &[&[Event]] = &[&VIEWS];

// The first object goes far, comes back, and is viewed and not written: its copy is offered all the same.
fn is_offered_clean(evac: &mut Evac<Beset, MemDevice>) -> bool {
    let place = Place { log: 0, at: 0 };
    let marks = Marks {
        hot: true,
        evac: true,
        ..NO_MARKS
    };
    places(evac, 8)
        && places(evac, LONGEST)
        && comes_to_leave(evac, &[0], 1, 1)
        && deals(evac, 9, [0, 1, 0, 1], true)
        && fetches(evac, 0)
        && looks(evac, PASSED)
        && places(evac, LONGEST)
        && comes_to_leave(evac, &[1, 0], 2, 2)
        && deals(evac, 9, [0, 1, 0, 1], false)
        && deals(evac, 9, [0, 0, 0, 0], false)
        && home(evac, 0) == Some(Home::Near { place, marks })
}

// The owner drops the second object, so its log is empty: it is given back by a walk that may deal with none, as the first has a job. Once the copier has
// finished such a walk names the copy.
const SECOND_IS_DROPPED: &[Event] = &[
    Event::Adopt {
        owner: 0,
        pointer: 1,
    },
    Event::Ask {
        owner: 0,
        pointer: 1,
        mark: Mark::Dropped,
    },
];

const GOES_ON: &[Event] = &[
    Event::ReadLength { copier: 0 },
    Event::Read {
        copier: 0,
        index: 0,
    },
    Event::Write {
        copier: 0,
        index: 0,
    },
    Event::Finish { copier: 0 },
];

// A copier takes the copy of the first object from log 0 to word 2 of log 2.
const CLAIMS_SECOND: &[Event] = &[Event::Claim {
    copier: 0,
    job: 0,
    old: 0x4000_2008_0000_0000,
}];

const BESIDE_PASSED: &[&[Event]] = &[&VIEWS, SECOND_IS_DROPPED, CLAIMS_SECOND, GOES_ON];

fn passes_on(evac: &mut Evac<Beset, MemDevice>) -> bool {
    let place = Place { log: 2, at: 2 };
    let marks = WRITTEN;
    places(evac, 8)
        && places(evac, LONGEST)
        && places(evac, 8)
        && looks(evac, PASSED)
        && comes_to_leave(evac, &[0, 1], 2, 1)
        && deals(evac, 1, [0, 0, 0, 0], false)
        && looks(evac, PASSED)
        && retires(evac, 1)
        && deals(evac, 0, [0, 0, 0, 1], false)
        && looks(evac, PASSED)
        && looks(evac, PASSED)
        && deals(evac, 0, [1, 0, 0, 1], true)
        && home(evac, 0) == Some(Home::Near { place, marks })
}

const BESIDE_DROPPED: &[&[Event]] = &[&VIEWS, &[CLAIMS, DROPS], GOES_ON];

// The owner drops the first object while a copier has the job: it is passed over, and retired once the copier has finished.
fn is_passed_over(evac: &mut Evac<Beset, MemDevice>) -> bool {
    places(evac, 8)
        && places(evac, LONGEST)
        && looks(evac, PASSED)
        && comes_to_leave(evac, &[0], 1, 1)
        && deals(evac, 9, [0, 0, 0, 0], false)
        && looks(evac, PASSED)
        && deals(evac, 9, [0, 0, 0, 0], false)
        && looks(evac, PASSED)
        && deals(evac, 9, [0, 0, 1, 1], true)
        && home(evac, 0).is_none()
}

// The events of these groups; `None` if there is no memory for them.
fn events_of(alloc: Global, groups: &[&[Event]]) -> Option<Vec<Event>> {
    let mut events = Vec::new(alloc);
    if fills(&mut events, groups) {
        Some(events)
    } else {
        None
    }
}

// Whether a test comes out as it should.
fn comes_out(evac: &mut Evac<Beset, MemDevice>, test: Test) -> bool {
    match test {
        Test::Clean => is_offered_clean(evac),
        Test::Passed => passes_on(evac),
        Test::Dropped => is_passed_over(evac),
    }
}

// The same beside these groups of events.
fn plays(rt: &HostRuntime, test: Test, groups: &[&[Event]]) -> bool {
    let Some(events) = events_of(rt.alloc(), groups) else {
        return false;
    };
    match beset(rt, events) {
        Ok(mut evac) => comes_out(&mut evac, test),
        Err(_) => false,
    }
}

#[test]
fn objects_go_beside_a_copier(rt: HostRuntime) {
    assert!(rt; plays(&rt, Test::Clean, BESIDE_CLEAN));
    assert!(rt; plays(&rt, Test::Passed, BESIDE_PASSED));
    assert!(rt; plays(&rt, Test::Dropped, BESIDE_DROPPED));
}
