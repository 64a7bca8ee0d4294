//! The calls of a round by worked values: a log is given back and taken anew, EVAC is taken back, the epoch rises to its end, scopes are
//! looked at, and the live spans of a log come one after the other.

use crate::tests::acts::Act::*;
use crate::tests::acts::{
    ADOPT, Act, CLOSE, DROP, IDLE, IS_DROPPED, NEAR, NO_MARKS, OPEN, READ, SMALL,
};
use crate::tests::devices::Flaw;
use crate::tests::moving::ASKS_TWO;
use crate::tests::stage::{plays_beside, plays_over, plays_parts};
use far_core::{Kind, Reply, Shape};
use far_log::{LogRow, Span};
use far_word::{Mark, Place, Refused, ScopeWord};

/// The cell of pointer 0, an object of 8 bytes of data structure 1 at the start of log 0, with EVAC.
const WANTED: u64 = 0xa600_0000_0001_0008;

/// The last epoch.
const LAST: u64 = (1 << 62) - 1;

// The move of pointer 1 is refused as long as the object of pointer 2, dropped or not, lies in log 2; log 3 is open.
const HAS_NO_ROOM: &[Act] = &[
    Moves(0, Some(Ok(Some(Place { log: 3, at: 0 })))),
    Near(0, (3, 0), NO_MARKS),
    Moves(1, Some(Err(Refused::NoRoom))),
    Releases(2, Some(false)),
    Asks(2, Mark::Dropped),
    Releases(2, Some(false)),
    Moves(1, Some(Err(Refused::NoRoom))),
    Retires(2, true),
    Log(2, Kind::Sealed, [0, 4096, 0]),
    Releases(3, None),
];

// It is made once that log is given back.
const HAS_ROOM: &[Act] = &[
    Releases(2, Some(true)),
    Log(2, Kind::Free, [0, 0, 4096]),
    Releases(2, None),
    Moves(1, Some(Ok(Some(Place { log: 2, at: 0 })))),
    Near(1, (2, 0), NO_MARKS),
    Loads(1, 4088),
    Log(2, Kind::Open, [4096, 0, 0]),
];

const REFUSED_AT_FIRST: &[&[Act]] = &[ASKS_TWO, HAS_NO_ROOM, HAS_ROOM];

#[test]
fn a_refused_move_is_made_once_there_is_room(rt: HostRuntime) {
    assert!(rt; plays_parts(&rt, REFUSED_AT_FIRST));
}

// Two objects lie in log 0, and one fills each of the next two.
const FILLS_THREE: &[Act] = &[
    Makes(8, 0, (0, 0)),
    Makes(9, 1, (0, 2)),
    Makes(4088, 2, (1, 0)),
    Makes(4088, 3, (2, 0)),
];

const DEAD: LogRow = LogRow {
    log: 1,
    live: 0,
    dead: 4096,
    unused: 0,
};

// Log 0 is given back once the last of its objects is retired, and the first of the sealed ones is still log 1.
const GIVES_THE_FIRST_BACK: &[Act] = &[
    Asks(0, Mark::Dropped),
    Retires(0, true),
    Asks(2, Mark::Dropped),
    Retires(2, true),
    Releases(0, Some(false)),
    Log(0, Kind::Sealed, [24, 16, 4056]),
    Asks(1, Mark::Dropped),
    Retires(1, true),
    Releases(0, Some(true)),
    Log(0, Kind::Free, [0, 0, 4096]),
    Rows(&[DEAD]),
    Releases(1, Some(true)),
    Log(1, Kind::Free, [0, 0, 4096]),
];

// It opens anew for an object that fills it, and log 1 is free.
const OPENS_ANEW: &[Act] = &[
    Makes(4088, 0, (0, 0)),
    Log(0, Kind::Open, [4096, 0, 0]),
    Log(1, Kind::Free, [0, 0, 4096]),
];

const GIVEN_BACK_AND_OPENED: &[&[Act]] = &[FILLS_THREE, GIVES_THE_FIRST_BACK, OPENS_ANEW];

#[test]
fn a_log_given_back_opens_anew(rt: HostRuntime) {
    assert!(rt; plays_parts(&rt, GIVEN_BACK_AND_OPENED));
}

// An object lies in log 0, which the next one seals; no round begins before it is marked.
const SEALS_THE_FIRST: &[Act] = &[
    Makes(8, 0, (0, 0)),
    Makes(4088, 1, (1, 0)),
    Begins(1, None),
    Marks(0, Some(NEAR)),
];

// EVAC is taken back, and log 0 left the round with it.
const TAKES_EVAC_BACK: &[Act] = &[
    Begins(1, Some(Ok(1))),
    InRound(0, true),
    Clears(0, Some(WANTED)),
    InRound(0, false),
    Cell(0, NEAR),
    Clears(0, Some(NEAR)),
    Clears(2, None),
];

const EVAC_IN_A_ROUND: &[&[Act]] = &[SEALS_THE_FIRST, TAKES_EVAC_BACK];

#[test]
fn evac_is_taken_back_in_a_round(rt: HostRuntime) {
    assert!(rt; plays_parts(&rt, EVAC_IN_A_ROUND));
}

const AT_LAST: Shape = Shape {
    epoch: LAST,
    ..SMALL
};

// No round begins after the last epoch, and that of log 0 goes on: its owner is still seen clear in it.
const GOES_ON_TO_THE_END: &[Act] = &[
    Begins(1, Some(Ok(LAST))),
    InRound(0, true),
    Looks(0, Some(ScopeWord::Closed)),
    BeginsNone(Err(Refused::EpochsSpent)),
    Is(AT_LAST),
    InRound(0, true),
    IsClear(0, true),
    Cell(0, WANTED),
    Log(0, Kind::Sealed, [16, 0, 4080]),
];

const LAST_EPOCH: &[&[Act]] = &[SEALS_THE_FIRST, GOES_ON_TO_THE_END];

#[test]
fn the_last_epoch_is_the_last(rt: HostRuntime) {
    let shape = Shape {
        epoch: LAST - 1,
        ..SMALL
    };
    assert!(rt; plays_over(&rt, shape, Flaw::Nothing, LAST_EPOCH));
}

// The owner, in a scope from before the round, is seen clear once it is closed and looked at.
const IS_CLEAR_ONCE_CLOSED: &[Act] = &[
    Does(&[READ, OPEN]),
    BeginsNone(Ok(1)),
    Looks(0, Some(ScopeWord::Open { epoch: 0 })),
    IsClear(0, false),
    Owns(CLOSE, Reply::Done),
    IsClear(0, false),
    Looks(0, Some(ScopeWord::Closed)),
    IsClear(0, true),
];

// It is so in the next round, in a scope that it opens in it.
const IS_CLEAR_IN_A_NEW_SCOPE: &[Act] = &[
    BeginsNone(Ok(2)),
    IsClear(0, false),
    Does(&[READ, OPEN]),
    Looks(0, Some(ScopeWord::Open { epoch: 2 })),
    IsClear(0, true),
    Looks(1, None),
];

const CLEAR_IN_ROUNDS: &[&[Act]] = &[IS_CLEAR_ONCE_CLOSED, IS_CLEAR_IN_A_NEW_SCOPE];

#[test]
fn scopes_are_looked_at(rt: HostRuntime) {
    assert!(rt; plays_parts(&rt, CLEAR_IN_ROUNDS));
}

const AT_FIRST: Shape = Shape { epoch: 1, ..SMALL };

// A scope is seen closed, open and closed again, and a round begins meanwhile.
const OPENS_BETWEEN_LOOKS: &[Act] = &[
    Looks(0, Some(ScopeWord::Closed)),
    Looks(0, Some(ScopeWord::Open { epoch: 0 })),
    BeginsNone(Ok(1)),
    Looks(0, Some(ScopeWord::Closed)),
    Is(AT_FIRST),
];

#[test]
fn scopes_open_between_looks(rt: HostRuntime) {
    assert!(rt; plays_beside(&rt, &[READ, OPEN, IDLE, CLOSE], OPENS_BETWEEN_LOOKS));
}

const FIRST: Span = Span {
    at: 0,
    p: 0,
    len: 8,
    ds: 1,
};

const SECOND: Span = Span {
    at: 2,
    p: 1,
    len: 9,
    ds: 1,
};

const THIRD: Span = Span {
    at: 5,
    p: 2,
    len: 16,
    ds: 1,
};

const FOURTH: Span = Span {
    at: 8,
    p: 3,
    len: 1,
    ds: 1,
};

// Four objects are placed, and are all that lives in log 0.
const PLACES_FOUR: &[Act] = &[
    Live(0, &[]),
    Makes(8, 0, (0, 0)),
    Makes(9, 1, (0, 2)),
    Makes(16, 2, (0, 5)),
    Makes(1, 3, (0, 8)),
    Live(0, &[FIRST, SECOND, THIRD, FOURTH]),
];

// The first and the third are passed over once they are retired, and not before.
const PASSES_TWO: &[Act] = &[
    Asks(0, Mark::Dropped),
    Asks(2, Mark::Dropped),
    Live(0, &[FIRST, SECOND, THIRD, FOURTH]),
    Retires(0, true),
    Live(0, &[SECOND, THIRD, FOURTH]),
    Retires(2, true),
    Live(0, &[SECOND, FOURTH]),
];

// What is found from a span on, retired or not, is the next live one.
const FINDS_FROM_EACH: &[Act] = &[
    From(0, Some(Some(SECOND))),
    From(1, Some(Some(SECOND))),
    From(2, Some(Some(FOURTH))),
    From(3, Some(Some(FOURTH))),
    Asks(3, Mark::Dropped),
    Retires(3, true),
    From(2, Some(None)),
    From(3, Some(None)),
    From(4, None),
];

const FULL: Span = Span { len: 4088, ..FIRST };

// They are found so in a log that is full, and none in one that is free.
const FINDS_IN_OTHERS: &[Act] = &[
    Makes(4088, 0, (1, 0)),
    Live(1, &[FULL]),
    Live(3, &[]),
    Log(0, Kind::Sealed, [24, 56, 4016]),
];

const LIVE_SPANS: &[&[Act]] = &[PLACES_FOUR, PASSES_TWO, FINDS_FROM_EACH, FINDS_IN_OTHERS];

#[test]
fn live_spans_come_one_after_the_other(rt: HostRuntime) {
    assert!(rt; plays_parts(&rt, LIVE_SPANS));
}

const EIGHT: Span = Span { len: 8, ..SECOND };

// An object that is dropped while a walk reads its header is still found, and passed over once it is retired.
const FINDS_THE_DROPPED: &[Act] = &[
    Makes(8, 0, (0, 0)),
    Makes(8, 1, (0, 2)),
    Live(0, &[FIRST, EIGHT]),
    Near(0, (0, 0), IS_DROPPED),
    Retires(0, true),
    Live(0, &[EIGHT]),
];

// Two objects are placed in three turns each. Before the first header is read its pointer is taken over, and it is dropped before its cell is seen.
#[test]
fn live_spans_come_while_owners_drop(rt: HostRuntime) {
    let events = [IDLE, IDLE, IDLE, IDLE, IDLE, IDLE, ADOPT, DROP];
    assert!(rt; plays_beside(&rt, &events, FINDS_THE_DROPPED));
}
