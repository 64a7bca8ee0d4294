//! Whole lists of events, scopes, bytes, shapes, laws.

ghost use Rattle.std.specs.Prelude.{◌≡◌};
ghost use Rattle.far_core.specs.state.CoreState.{core_state};

use crate::tests::acts::Act::*;
use crate::tests::acts::{Act, Play, SMALL, TWO_OWNERS};
use crate::tests::peopled::{HEADER, NEAR, PEOPLED};
use crate::tests::stage::{does_all, play};
use far_core::Event::*;
use far_core::Reply::*;
use far_core::{
    Core, Event, Kind, Reply, Shape, copies_are_taken, events_leave_others, jobs_stand_by_law,
    opening_is_start, steps_keep_views,
};
use far_word::Mark::Dropped;
use far_word::Place;
use std::alloc::Global;

/// Whether a whole list of events is answered so.
fn runs_so(core: &mut Core, alloc: Global, events: &[Event], replies: &[Reply]) -> bool {
    match core.run(alloc, events) {
        Ok(found) => found.as_slice() == replies,
        Err(_) => false,
    }
}

#[rattlefmt::skip]
const FIRST_READ: [Event; 8] = [
    Put { log: 0, at: 0, word: HEADER },
    Put { log: 0, at: 1, word: 0 },
    Name { pointer: 0, old: 0, new: NEAR },
    Adopt { owner: 0, pointer: 0 },
    ReadEpoch { owner: 0 },
    Open { owner: 0 },
    Pin { owner: 0, pointer: 0 },
    Load { owner: 0, pointer: 0, index: 0 },
];

const READ_SO: [Reply; 8] = [
    Done,
    Done,
    Done,
    Word(NEAR),
    Epoch(0),
    Done,
    Held(Place { log: 0, at: 0 }),
    Word(0),
];

const READ: &[Act] = &[Cell(0, 0xc600_0000_0001_0008), Log(0, Kind::Open, 2)];

fn reads_first(core: &mut Core, alloc: Global) -> bool {
    core.keeps_stored() && runs_so(core, alloc, &FIRST_READ, &READ_SO) && does_all(core, READ)
}

fn is_read(alloc: Global) -> bool {
    match Core::new(alloc, SMALL, true) {
        Ok(mut core) => reads_first(&mut core, alloc),
        Err(_) => false,
    }
}

#[test]
fn first_object_is_read(rt: HostRuntime) {
    assert!(rt; is_read(rt.alloc()));
}

/// In a core without stored words no naming is made that is given as data, and nothing changes by it; all other events are made.
#[rattlefmt::skip]
const UNNAMED: &[Act] = &[
    Does(Put { log: 0, at: 0, word: HEADER }, Done),
    Refuses(&[
        Name { pointer: 0, old: 0, new: NEAR },
        Name { pointer: 0, old: 0, new: 0 },
        Name { pointer: 0, old: NEAR, new: 0 },
        Name { pointer: u16::MAX, old: 0, new: NEAR },
    ]),
    May(Name { pointer: 0, old: 0, new: NEAR }, false),
    Cell(0, 0),
    Starts(Place { log: 0, at: 0 }, false),
    WordAt(Place { log: 0, at: 0 }, HEADER),
    Does(Adopt { owner: 0, pointer: 0 }, Refused),
    Does(ReadEpoch { owner: 0 }, Epoch(0)),
    Does(Open { owner: 0 }, Done),
    Does(Close { owner: 0 }, Done),
];

// Where copiers may have jobs, a claim of an empty job is made and lost. Where none may, it is refused, and all else is as there.
const CLAIMED: Event = Claim {
    copier: 2,
    job: 0,
    old: 0x4000_1008_0000_0000,
};

const LOST: &[Act] = &[Leaves(CLAIMED, Word(0))];

const UNCLAIMED: &[Act] = &[Refuses(&[CLAIMED])];

#[rattlefmt::skip]
const EMPTY_JOBS: &[Act] = &[
    Refuses(&[
        ReadLength { copier: 2 },
        Read { copier: 2, index: 0 },
        Write { copier: 2, index: 0 },
        Finish { copier: 2 },
        Offer { job: 0, pointer: 0, to: Place { log: 0, at: 2 } },
    ]),
    Leaves(PeekJob { copier: 2, job: 0 }, Word(0)),
    Leaves(Collect { job: 0, old: 0x4000_1008_0000_0000 }, Word(0)),
    Does(Advance { logs: 0 }, Epoch(1)),
    Does(Look { owner: 0 }, Word(0)),
    SeenClear(0, true),
];

fn claims(core: &mut Core, claim: &[Act]) -> bool {
    !core.keeps_stored()
        && does_all(core, UNNAMED)
        && does_all(core, claim)
        && does_all(core, EMPTY_JOBS)
        && does_all(core, claim)
}

fn loses_a_claim(alloc: Global) -> bool {
    match Core::without_stored(alloc, SMALL, true) {
        Ok(mut core) => core.has_copiers() && claims(&mut core, LOST),
        Err(_) => false,
    }
}

fn refuses_claims(alloc: Global) -> bool {
    match Core::alone(alloc, SMALL, true) {
        Ok(mut core) => !core.has_copiers() && claims(&mut core, UNCLAIMED),
        Err(_) => false,
    }
}

/// The same of a whole list.
const RUN_UNNAMED: [Event; 5] = [
    Put {
        log: 0,
        at: 1,
        word: 0,
    },
    Name {
        pointer: 0,
        old: 0,
        new: NEAR,
    },
    Adopt {
        owner: 0,
        pointer: 0,
    },
    ReadEpoch { owner: 0 },
    Open { owner: 0 },
];

const SO_UNNAMED: [Reply; 5] = [Done, Refused, Refused, Epoch(0), Done];

/// Once the pointer is named by a call, its object is viewed, stored and loaded as in any core, and given up; to send it far is a
/// naming.
#[rattlefmt::skip]
const NAMED_BY_CALL: &[Act] = &[
    Cell(0, NEAR),
    Starts(Place { log: 0, at: 0 }, true),
    Log(0, Kind::Open, 2),
    Does(Adopt { owner: 0, pointer: 0 }, Word(NEAR)),
    Does(ReadEpoch { owner: 0 }, Epoch(0)),
    Does(Open { owner: 0 }, Done),
    Does(Pin { owner: 0, pointer: 0 }, Held(Place { log: 0, at: 0 })),
    Does(Soil { owner: 0, pointer: 0 }, Word(0xc600_0000_0001_0008)),
    Does(Store { owner: 0, pointer: 0, index: 0, word: 7 }, Done),
    Does(Load { owner: 0, pointer: 0, index: 0 }, Word(7)),
    HasBytes(0, &[7, 0, 0, 0, 0, 0, 0, 0]),
    Does(Close { owner: 0 }, Done),
    Does(Load { owner: 0, pointer: 0, index: 0 }, Refused),
    Does(Ask { owner: 0, pointer: 0, mark: Dropped }, Word(0xc600_0000_0001_0008)),
    Refuses(&[Name { pointer: 0, old: 0xce00_0000_0001_0008, new: 0 }]),
];

/// Whether a core without stored words is named by its call what another one, in the same state, tells may be named.
fn names_by_call(kept: &mut Core, bare: &mut Core) -> bool
    requires { core_state kept.old ≡ core_state bare.old }
{
    if kept.logs() == 0 || kept.kind(0) == Kind::Sealed || kept.tail(0) > 0 {
        return false;
    }
    kept.put(0, 0, HEADER);
    bare.put(0, 0, HEADER);
    kept.may_name(0, 0, NEAR) && bare.name(0, 0, NEAR).is_ok()
}

/// The same of new cores, and what comes of it.
fn is_named_by_call(alloc: Global) -> bool {
    let Ok(mut kept) = Core::new(alloc, SMALL, true) else {
        return false;
    };
    let Ok(mut bare) = Core::without_stored(alloc, SMALL, true) else {
        return false;
    };
    names_by_call(&mut kept, &mut bare)
        && !bare.keeps_stored()
        && does_all(&mut bare, NAMED_BY_CALL)
}

fn is_not_told(alloc: Global) -> bool {
    match Core::without_stored(alloc, SMALL, true) {
        Ok(mut core) => !core.keeps_stored()
            && does_all(&mut core, UNNAMED)
            && runs_so(&mut core, alloc, &RUN_UNNAMED, &SO_UNNAMED)
            && !core.keeps_stored(),
        Err(_) => false,
    }
}

#[test]
fn no_naming_is_told_without_stored_words(rt: HostRuntime) {
    assert!(rt; is_not_told(rt.alloc()) && is_named_by_call(rt.alloc()));
}

#[test]
fn no_claim_is_made_alone(rt: HostRuntime) {
    assert!(rt; loses_a_claim(rt.alloc()) && refuses_claims(rt.alloc()));
}

/// The cells that the people have, and no other that is used at the ends of their rows.
const LISTED: &[Act] = &[
    Cells(512),
    Listed(0, 0xc600_0000_0001_0009),
    Listed(1, 0x8600_0000_0301_0008),
    Listed(2, 0x8600_0000_0701_0008),
    Listed(3, 0),
    Listed(255, 0),
    Listed(256, 0x8600_0000_0501_0008),
    Listed(257, 0),
    Listed(511, 0),
];

#[rattlefmt::skip]
const NOTHING: &[Act] = &[
    Sized(4, 1),
    Begun(0, false),
    OpenLog(0),
    Log(0, Kind::Open, 0),
    Log(1, Kind::Free, 0),
    Log(2, Kind::Free, 0),
    Log(3, Kind::Free, 0),
    Owner(0, false, false),
    Owner(1, false, false),
    Pointer(0, 0, false, false),
    Pointer(1, 0, false, false),
    Pointer(2, 0, false, false),
    Pointer(3, 0, false, false),
    Pointer(256, 0, false, false),
    Refuses(&[
        Load { owner: 0, pointer: 0, index: 0 },
        Load { owner: 0, pointer: 0, index: 1 },
        Load { owner: 0, pointer: 1, index: 0 },
    ]),
];

const TWO_OF_EACH: Shape = Shape {
    logs: 2,
    mutators: 2,
    epoch: 7,
};

const ONE_OPENS: &[Act] = &[
    Does(Open { owner: 0 }, Refused),
    Does(ReadEpoch { owner: 0 }, Epoch(7)),
    Does(Open { owner: 1 }, Refused),
    Does(Open { owner: 0 }, Done),
    Does(Close { owner: 1 }, Refused),
    Does(ReadEpoch { owner: 1 }, Epoch(7)),
    Does(ReadEpoch { owner: 1 }, Epoch(7)),
    Owner(0, true, true),
    Owner(1, false, true),
];

const OTHER_OPENS: &[Act] = &[
    Does(Close { owner: 0 }, Done),
    Does(Open { owner: 0 }, Refused),
    Does(Open { owner: 1 }, Done),
    Owner(0, false, false),
    Owner(1, true, true),
];

#[rattlefmt::skip]
const CLOSED: &[Act] = &[
    Does(Pin { owner: 0, pointer: 2 }, Held(Place { log: 0, at: 7 })),
    Does(Close { owner: 0 }, Done),
    Does(ReadEpoch { owner: 0 }, Epoch(5)),
    Does(Open { owner: 0 }, Done),
    Pointer(0, 0xc600_0000_0001_0009, true, false),
    Pointer(2, 0xc600_0000_0701_0008, true, false),
    Does(Load { owner: 0, pointer: 0, index: 0 }, Refused),
    Does(Pin { owner: 0, pointer: 0 }, Held(Place { log: 0, at: 0 })),
    Does(Load { owner: 0, pointer: 0, index: 0 }, Word(0x0807_0605_0403_0201)),
];

#[rattlefmt::skip]
const PADDED: &[Act] = &[
    Does(Load { owner: 0, pointer: 0, index: 0 }, Word(0x0807_0605_0403_0201)),
    Does(Load { owner: 0, pointer: 0, index: 1 }, Word(9)),
    Does(Soil { owner: 0, pointer: 0 }, Word(0xc600_0000_0001_0009)),
    Does(Store { owner: 0, pointer: 0, index: 0, word: u64::MAX }, Done),
    Does(Store { owner: 0, pointer: 0, index: 1, word: 0x100 }, Refused),
    Does(Load { owner: 0, pointer: 0, index: 1 }, Word(9)),
    Does(Store { owner: 0, pointer: 0, index: 1, word: 0xff }, Done),
    Does(Load { owner: 0, pointer: 0, index: 0 }, Word(u64::MAX)),
    Does(Load { owner: 0, pointer: 0, index: 1 }, Word(0xff)),
    Does(Pin { owner: 0, pointer: 2 }, Held(Place { log: 0, at: 7 })),
    Does(Load { owner: 0, pointer: 2, index: 0 }, Word(0)),
];

/// Logs, mutators and epochs that a core may have.
const SHAPES: &[(u64, u64, u64)] = &[
    (2, 1, 0),
    (64, 8, 0),
    (2, 8, (1 << 62) - 1),
    (64, 1, (1 << 62) - 1),
];

/// And that none has.
const NO_SHAPES: &[(u64, u64, u64)] = &[
    (1, 1, 0),
    (0, 1, 0),
    (65, 1, 0),
    (4, 0, 0),
    (4, 9, 0),
    (4, 1, 1 << 62),
    (u64::MAX, u64::MAX, u64::MAX),
];

// Whether a core has this shape, and begins with it.
fn begins_with(core: &mut Core, shape: Shape) -> bool {
    shape.is_in_range()
        && core.logs() as u64 == shape.logs
        && core.mutators() as u64 == shape.mutators
        && core.step(Event::ReadEpoch { owner: 0 }) == Reply::Epoch(shape.epoch)
}

// Whether a core may have this shape, or may not.
fn is_shape(alloc: Global, row: (u64, u64, u64), may: bool) -> bool {
    let (logs, mutators, epoch) = row;
    let shape = Shape {
        logs,
        mutators,
        epoch,
    };
    match Core::new(alloc, shape, true) {
        Ok(mut core) => may && begins_with(&mut core, shape),
        Err(why) => !may && !shape.is_in_range() && why == far_word::Refused::Shape,
    }
}

// The same of each.
fn are_shapes(alloc: Global, rows: &[(u64, u64, u64)], may: bool) -> bool {
    for row in rows {
        if !is_shape(alloc, *row, may) {
            return false;
        }
    }
    true
}

#[test]
fn shapes_end_where_they_should(rt: HostRuntime) {
    assert!(rt; are_shapes(rt.alloc(), SHAPES, true) && are_shapes(rt.alloc(), NO_SHAPES, false));
}

// The laws of a core, and those of all.
fn calls_laws(core: &Core) {
    core.keeps_law();
    core.spans_fill_logs();
    core.bytes_make_log();
    core.objects_have_one_place();
    core.room_is_right();
    core.replies_report();
    core.jobs_stand();
    opening_is_start(SMALL, true);
    steps_keep_views();
    events_leave_others();
    copies_are_taken();
    jobs_stand_by_law();
}

fn has_laws(alloc: Global) -> bool {
    match Core::new(alloc, SMALL, true) {
        Ok(core) => {
            calls_laws(&core);
            true
        }
        Err(_) => false,
    }
}

#[test]
fn laws_can_be_called(rt: HostRuntime) {
    assert!(rt; has_laws(rt.alloc()));
}

/// The parts that come first.
const FIRSTS: &[&[Act]] = &[PEOPLED];

#[rattlefmt::skip]
const PLAYS: &[Play] = &[
    Play { name: "cells_stand_by_number", shape: TWO_OWNERS, honest: true, after: 1, parts: &[LISTED] },
    Play { name: "start_shows_nothing", shape: SMALL, honest: false, after: 0, parts: &[NOTHING] },
    Play {
        name: "scope_opens_at_epoch_that_was_read", shape: TWO_OF_EACH, honest: true, after: 0,
        parts: &[ONE_OPENS, OTHER_OPENS],
    },
    Play { name: "closed_scope_holds_nothing", shape: TWO_OWNERS, honest: true, after: 1, parts: &[CLOSED] },
    Play { name: "nine_bytes_keep_their_padding", shape: TWO_OWNERS, honest: true, after: 1, parts: &[PADDED] },
];

#[test]
fn cores_show_so(rt: HostRuntime) {
    play(&rt, rt.alloc(), FIRSTS, PLAYS);
}
