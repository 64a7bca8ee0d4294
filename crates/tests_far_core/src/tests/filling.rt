//! Logs filled to their last word.

use crate::tests::acts::Act::*;
use crate::tests::acts::{Act, Play, SMALL, TWO_OWNERS};
use crate::tests::peopled::PEOPLED;
use crate::tests::stage::{does_all, play};
use far_core::Event::*;
use far_core::Reply::*;
use far_core::{Core, Event, Kind};
use std::alloc::Global;

#[rattlefmt::skip]
const LONGEST_FILLS: &[Act] = &[
    Does(Put { log: 0, at: 0, word: 0xa200_0000_0100_0ff8 }, Done),
    Does(Put { log: 0, at: 511, word: 0 }, Done),
    Does(Name { pointer: 0, old: 0, new: 0x8600_0000_0001_0ff8 }, Done),
    Log(0, Kind::Open, 512),
    Does(Put { log: 1, at: 0, word: 0xa200_0001_0100_0001 }, Done),
    Does(Name { pointer: 1, old: 0, new: 0x8600_0004_0001_0001 }, Done),
    Log(0, Kind::Sealed, 512),
    Log(1, Kind::Open, 2),
    OpenLog(1),
    Cell(0, 0x8600_0000_0001_0ff8),
    Cell(1, 0x8600_0004_0001_0001),
];

// Whether a pointer's object of 1 byte takes the next two words of log 0.
fn places_shortest(core: &mut Core, number: u8) -> bool {
    let pointer = number as u16;
    let at = 2 * pointer;
    let word = 0xa200_0000_0100_0001 | (pointer as u64) << 32;
    let new = 0x8600_0000_0001_0001 | (at as u64) << 24;
    let put = Event::Put { log: 0, at, word };
    let name = Event::Name {
        pointer,
        old: 0,
        new,
    };
    let row = [
        Act::Does(put, Done),
        Act::Does(name, Done),
        Act::Log(0, Kind::Open, at + 2),
    ];
    does_all(core, &row)
}

// Whether 256 such objects fill the log.
fn places_all(core: &mut Core) -> bool {
    for number in 0..256u16 {
        if !places_shortest(core, number as u8) {
            return false;
        }
    }
    true
}

#[rattlefmt::skip]
const FULL: &[Act] = &[
    Does(Put { log: 0, at: 511, word: 0 }, Refused),
    Does(Put { log: 3, at: 0, word: 0xa200_0100_0100_0008 }, Done),
    Does(Name { pointer: 256, old: 0, new: 0x8600_000c_0001_0008 }, Done),
    Log(0, Kind::Sealed, 512),
    Log(3, Kind::Open, 2),
    OpenLog(3),
];

fn is_filled(alloc: Global) -> bool {
    match Core::new(alloc, TWO_OWNERS, true) {
        Ok(mut core) => places_all(&mut core) && does_all(&mut core, FULL),
        Err(_) => false,
    }
}

#[test]
fn shortest_objects_fill_a_log(rt: HostRuntime) {
    assert!(rt; is_filled(rt.alloc()));
}

#[rattlefmt::skip]
const NAMED_LATE: &[Act] = &[
    Does(Put { log: 0, at: 9, word: 0xa200_0001_0100_0008 }, Done),
    Does(Put { log: 2, at: 0, word: 0xa200_0001_0100_0008 }, Done),
    Leaves(Name { pointer: 1, old: 0, new: 0x8600_0000_0901_0008 }, Word(0x8600_0000_0301_0008)),
    Leaves(Name { pointer: 1, old: 0, new: 0x8600_0008_0001_0008 }, Word(0x8600_0000_0301_0008)),
];

#[rattlefmt::skip]
const PLAYS: &[Play] = &[
    Play { name: "longest_object_fills_a_log", shape: SMALL, honest: true, after: 0, parts: &[LONGEST_FILLS] },
    // A naming that comes too late answers the cell, and neither takes the span nor opens the log.
    Play { name: "named_cell_is_not_named_again", shape: TWO_OWNERS, honest: true, after: 0, parts: &[PEOPLED, NAMED_LATE] },
];

#[test]
fn logs_are_filled(rt: HostRuntime) {
    play(&rt, rt.alloc(), &[], PLAYS);
}
