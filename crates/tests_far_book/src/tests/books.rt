//! The book by worked values: logs that fill up, objects that are dropped, cells that are used again.

use crate::tests::acts::Act::*;
use crate::tests::acts::{
    ADOPT, Act, CLOSE, DROP, HAS_EVAC, HOT, IDLE, IS_HOT, NO_MARKS, OPEN, READ, SMALL, SOIL,
};
use crate::tests::devices::Flaw;
use crate::tests::stage::{plays, plays_beside, plays_over};
use far_core::{Event, Kind, Reply, Shape};
use far_log::{LogRow, Span};
use far_word::{Mark, Place, Refused};

const FULL: LogRow = LogRow {
    log: 0,
    live: 4096,
    dead: 0,
    unused: 0,
};

const FILLS_A_LOG: &[Act] = &[
    Log(0, Kind::Open, [0, 0, 4096]),
    Makes(4088, 0, (0, 0)),
    Log(0, Kind::Open, [4096, 0, 0]),
    Makes(1, 1, (1, 0)),
    Log(0, Kind::Sealed, [4096, 0, 0]),
    Log(1, Kind::Open, [16, 0, 4080]),
    Log(2, Kind::Free, [0, 0, 4096]),
    Log(3, Kind::Free, [0, 0, 4096]),
    Is(SMALL),
    Rows(&[FULL]),
];

#[test]
fn the_largest_object_fills_a_log(rt: HostRuntime) {
    assert!(rt; plays(&rt, FILLS_A_LOG));
}

const LOAD_SECOND: Event = Event::Load {
    owner: 0,
    pointer: 0,
    index: 1,
};

const STORE_SECOND: Event = Event::Store {
    owner: 0,
    pointer: 0,
    index: 1,
    word: 0xff,
};

const SEE: Event = Event::See { pointer: 0 };

// An object of 9 bytes is made and viewed, and takes a word for the last of them.
const TAKES_WHOLE_WORDS: &[Act] = &[
    Makes(9, 0, (0, 0)),
    Log(0, Kind::Open, [24, 0, 4072]),
    Owns(ADOPT, Reply::Word(0x8600_0000_0001_0009)),
    Owns(READ, Reply::Epoch(0)),
    Owns(OPEN, Reply::Done),
    Owns(HOT, Reply::Held(Place { log: 0, at: 0 })),
    Owns(SOIL, Reply::Word(0xc600_0000_0001_0009)),
    Owns(STORE_SECOND, Reply::Done),
    Owns(LOAD_SECOND, Reply::Word(0xff)),
    Owns(SEE, Reply::Refused),
];

#[test]
fn an_odd_length_takes_whole_words(rt: HostRuntime) {
    assert!(rt; plays(&rt, TAKES_WHOLE_WORDS));
}

// The words of an object that is held are stored and loaded, and aren't reached any more after a close.
const STORES_AND_LOADS: &[Act] = &[
    Makes(16, 0, (0, 0)),
    Does(&[ADOPT, READ, OPEN, HOT, SOIL]),
    Words(Some([0, 0])),
    StoresOne(1, 7, true),
    StoresOne(0, u64::MAX, true),
    Words(Some([u64::MAX, 7])),
    Owns(LOAD_SECOND, Reply::Word(7)),
    FirstLog(Kind::Open, [24, 0, 4072]),
    Owns(CLOSE, Reply::Done),
    Owns(LOAD_SECOND, Reply::Refused),
    StoresOne(1, 8, false),
    Words(None),
];

#[test]
fn words_are_stored_and_loaded(rt: HostRuntime) {
    assert!(rt; plays(&rt, STORES_AND_LOADS));
}

// One of three logs stays free where both others are full.
const KEEPS_THE_LAST: &[Act] = &[
    Makes(4088, 0, (0, 0)),
    Makes(4088, 1, (1, 0)),
    MakesNone(Refused::NoRoom),
    Log(1, Kind::Open, [4096, 0, 0]),
    Log(2, Kind::Free, [0, 0, 4096]),
];

#[test]
fn the_last_free_log_is_kept(rt: HostRuntime) {
    let three = Shape { logs: 3, ..SMALL };
    assert!(rt; plays_over(&rt, three, Flaw::Nothing, &[KEEPS_THE_LAST]));
}

const FIRST: Span = Span {
    at: 0,
    p: 0,
    len: 1352,
    ds: 7,
};

const SECOND: Span = Span {
    at: 170,
    p: 1,
    ..FIRST
};

const THIRD: Span = Span {
    at: 340,
    p: 2,
    ..FIRST
};

const FOURTH: Span = Span {
    at: 510,
    p: 3,
    len: 8,
    ds: 1,
};

// Of three objects of 1,352 bytes and one that fill log 0 the second is dropped and retired, and its span stays.
const MAKES_DEAD: &[Act] = &[
    MakesMany(3, 1352, 7),
    MakesMany(1, 8, 1),
    Retires(1, false),
    Asks(1, Mark::Dropped),
    Log(0, Kind::Open, [4096, 0, 0]),
    Retires(1, true),
    Log(0, Kind::Open, [2736, 1360, 0]),
    Cell(1, 0),
    Spans(&[FIRST, SECOND, THIRD, FOURTH]),
];

#[test]
fn a_dropped_object_is_dead(rt: HostRuntime) {
    assert!(rt; plays(&rt, MAKES_DEAD));
}

// Of 256 objects of 16 bytes with their headers two are dropped, and new ones get their cells, the lowest first.
const TAKES_THE_LOWEST: &[Act] = &[
    MakesMany(256, 1, 1),
    MakesNone(Refused::NoPointer),
    Asks(200, Mark::Dropped),
    Retires(200, true),
    Asks(64, Mark::Dropped),
    Retires(64, true),
    Makes(1, 64, (1, 0)),
    Makes(1, 200, (1, 2)),
    Log(0, Kind::Sealed, [4064, 32, 0]),
];

#[test]
fn the_lowest_free_cell_is_taken(rt: HostRuntime) {
    assert!(rt; plays(&rt, TAKES_THE_LOWEST));
}

// An object is marked once its log is sealed, twice, and no other.
const MARKS_WHEN_SEALED: &[Act] = &[
    Makes(8, 0, (0, 0)),
    Marks(0, None),
    Makes(4088, 1, (1, 0)),
    Marks(0, Some(0x8600_0000_0001_0008)),
    Marks(0, Some(0xa600_0000_0001_0008)),
    Marks(1, None),
    Marks(2, None),
    Near(0, (0, 0), HAS_EVAC),
    Log(0, Kind::Sealed, [16, 0, 4080]),
];

#[test]
fn an_object_of_a_sealed_log_is_marked(rt: HostRuntime) {
    assert!(rt; plays(&rt, MARKS_WHEN_SEALED));
}

// A new object is found as it was placed, then with HOT, then dropped, and is retired.
const FINDS_MARKS: &[Act] = &[
    Makes(8, 0, (0, 0)),
    Near(0, (0, 0), NO_MARKS),
    Near(0, (0, 0), IS_HOT),
    Retires(0, false),
    Retires(0, true),
    Gone(0),
    Log(0, Kind::Open, [0, 16, 4080]),
];

// The first three events are made as the object is placed.
#[test]
fn marks_come_between_calls(rt: HostRuntime) {
    let events = [READ, OPEN, IDLE, ADOPT, HOT, CLOSE, DROP];
    assert!(rt; plays_beside(&rt, &events, FINDS_MARKS));
}
