//! Objects that move, or stay, by worked values, alone and with marks that come between each two steps.

use crate::tests::acts::Act::*;
use crate::tests::acts::{Act, DROP, HOT, IS_ASKED, NO_MARKS, Placed};
use crate::tests::stage::{Beside, plays, plays_parts, plays_rows};
use far_core::Kind;
use far_word::{LOG_BYTES, Mark, Place, Refused};

/// A move takes the object to the start of log 2, or finds it dropped.
const TO_LOG_2: Placed = Some(Ok(Some(Place { log: 2, at: 0 })));

const NOWHERE: Placed = Some(Ok(None));

// An object without a mark isn't moved, and one of the open log that is asked to is left where it lies.
const STAYS: &[Act] = &[
    MakesMany(1, 9, 2),
    Stores(0, 9),
    Moves(0, None),
    Asks(0, Mark::Moved),
    Moves(0, Some(Ok(Some(Place { log: 0, at: 0 })))),
    Near(0, (0, 0), NO_MARKS),
    Log(0, Kind::Open, [24, 0, 4072]),
    Loads(0, 9),
];

#[test]
fn an_object_stays_where_it_lies(rt: HostRuntime) {
    assert!(rt; plays(&rt, STAYS));
}

// Whether an object of so many bytes moves to log 2 with them, and takes so many bytes there.
fn moves_whole(rt: &HostRuntime, len: u16, size: u16) -> bool {
    let rest = LOG_BYTES.saturating_sub(size);
    let moves = [
        Leaves(len),
        Moves(0, TO_LOG_2),
        Near(0, (2, 0), NO_MARKS),
        Log(0, Kind::Sealed, [0, size, rest]),
        Log(2, Kind::Open, [size, 0, rest]),
        Loads(0, len),
    ];
    plays(rt, &moves)
}

const SIZES: &[(u16, u16)] = &[(1, 16), (7, 16), (8, 16), (9, 24), (4088, 4096)];

fn all_move(rt: &HostRuntime) -> bool {
    for (len, size) in SIZES {
        if !moves_whole(rt, *len, *size) {
            return false;
        }
    }
    true
}

#[test]
fn an_object_moves_to_another_log(rt: HostRuntime) {
    assert!(rt; all_move(&rt));
}

/// Pointers 0 and 1 are objects of sealed logs with EVAC and MOVE, the second with counted bytes; of four logs only the last is free, and the one
/// before it is full.
pub(super) const ASKS_TWO: &[Act] = &[
    Makes(8, 0, (0, 0)),
    Makes(4088, 1, (1, 0)),
    Makes(4088, 2, (2, 0)),
    Stores(1, 4088),
    Marks(0, Some(0x8600_0000_0001_0008)),
    Asks(0, Mark::Moved),
    Marks(1, Some(0xc600_0004_0001_0ff8)),
    Asks(1, Mark::Moved),
];

// A move takes the last free log, and the other object lies as before, since none is left for it.
const TAKES_THE_LAST: &[Act] = &[
    MakesNone(Refused::NoRoom),
    Moves(0, Some(Ok(Some(Place { log: 3, at: 0 })))),
    Near(0, (3, 0), NO_MARKS),
    Moves(1, Some(Err(Refused::NoRoom))),
    Near(1, (1, 0), IS_ASKED),
    Log(1, Kind::Sealed, [4096, 0, 0]),
    Log(3, Kind::Open, [16, 0, 4080]),
];

const LAST_LOG_TAKEN: &[&[Act]] = &[ASKS_TWO, TAKES_THE_LAST];

#[test]
fn a_move_takes_the_last_free_log(rt: HostRuntime) {
    assert!(rt; plays_parts(&rt, LAST_LOG_TAKEN));
}

// An object that was asked to move and dropped is retired instead.
const MOVES_NOWHERE: &[Act] = &[
    MakesMany(1, 8, 1),
    Asks(0, Mark::Moved),
    Asks(0, Mark::Dropped),
    Moves(0, NOWHERE),
    Gone(0),
    Log(0, Kind::Open, [0, 16, 4080]),
];

#[test]
fn a_dropped_object_moves_nowhere(rt: HostRuntime) {
    assert!(rt; plays(&rt, MOVES_NOWHERE));
}

// An object of one word with EVAC and MOVE comes to log 2, or is found dropped.
const MOVED: &[Act] = &[
    Moves(0, TO_LOG_2),
    Log(0, Kind::Sealed, [0, 16, 4080]),
    Log(2, Kind::Open, [16, 0, 4080]),
];

const RETIRED: &[Act] = &[
    Moves(0, NOWHERE),
    Log(0, Kind::Sealed, [0, 16, 4080]),
    Log(2, Kind::Free, [0, 0, 4096]),
];

// A move of one word has five steps: a look at the cell, the header, a word that is read and written, the naming. At the fifth a second try begins.
const HOT_AT_A_STEP: &[Beside] = &[
    (0, &[], MOVED),
    (0, &[HOT], MOVED),
    (1, &[HOT], MOVED),
    (2, &[HOT], MOVED),
    (3, &[HOT], MOVED),
    (4, &[HOT], MOVED),
];

// Alone against a move that tries its naming once. The cell is looked at once before the move.
#[test]
fn a_move_finds_hot_at_any_step(rt: HostRuntime) {
    assert!(rt; plays_rows(&rt, 514, HOT_AT_A_STEP));
}

// Where HOT is found before the DROP, the third try is that of the retiring. The last came too late.
const DROP_AT_A_STEP: &[Beside] = &[
    (0, &[DROP], RETIRED),
    (1, &[DROP], RETIRED),
    (2, &[DROP], RETIRED),
    (3, &[DROP], RETIRED),
    (4, &[DROP], RETIRED),
    (4, &[HOT, DROP], RETIRED),
    (5, &[DROP], MOVED),
];

// Alone against a move that finds a DROP at the naming, and says where the object lies.
#[test]
fn a_move_finds_a_drop_at_any_step(rt: HostRuntime) {
    assert!(rt; plays_rows(&rt, 514, DROP_AT_A_STEP));
}
