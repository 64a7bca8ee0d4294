//! Objects that come back from the far side: with which bytes, when they are refused, and what owners do between two steps.

use crate::tests::acts::Act::*;
use crate::tests::acts::{
    ADOPT, Act, CLOSE, DROP, HOT, IS_DROPPED, IS_HOT, LOAD, MARKED, MOVE, NO_MARKS, OPEN, Placed,
    READ, SMALL, SOIL, STORE, WAS_HOT, WENT,
};
use crate::tests::devices::Flaw;
use crate::tests::stage::{Beside, plays, plays_over, plays_parts, plays_rows};
use far_core::{Kind, Reply};
use far_device::DeviceFault;
use far_word::{LOG_BYTES, Mark, Place, Refused};

/// Where an object comes that is fetched while log 1 is open and full; or it is found dropped.
const COMES: Placed = Some(Ok(Some(Place { log: 2, at: 0 })));

const NOWHERE: Placed = Some(Ok(None));

// An object of 8 bytes that is stored into goes far and comes back, by words of its cell.
const GOES_AND_COMES: &[Act] = &[
    Makes(8, 0, (0, 0)),
    Does(&[ADOPT, READ, OPEN, HOT, SOIL]),
    Owns(STORE, Reply::Done),
    Owns(CLOSE, Reply::Done),
    Makes(4088, 1, (1, 0)),
    Marks(0, Some(WAS_HOT)),
    Owns(MOVE, Reply::Word(MARKED)),
    Evicts(0, WENT),
    Cell(0, 0x0400_0000_0001_0008),
    Fetches(0, COMES),
    Cell(0, 0x8400_0008_0001_0008),
    Does(&[READ, OPEN, HOT]),
    Owns(LOAD, Reply::Word(0xaa)),
];

// The cells are words here, which no other test of a fetch looks at.
#[test]
fn away_and_back(rt: HostRuntime) {
    assert!(rt; plays(&rt, GOES_AND_COMES));
}

// Whether an object of so many bytes goes far, and comes back with them in a span of so many bytes; the device has its bytes then.
fn comes_back(rt: &HostRuntime, len: u16, size: u16) -> bool {
    let unused = LOG_BYTES.saturating_sub(size);
    let comes = [
        Leaves(len),
        Evicts(0, WENT),
        Fetches(0, COMES),
        Log(2, Kind::Open, [size, 0, unused]),
        Loads(0, len),
        Holds(true),
    ];
    plays(rt, &comes)
}

const SIZES: &[(u16, u16)] = &[(1, 16), (7, 16), (8, 16), (9, 24), (4088, 4096)];

fn all_come_back(rt: &HostRuntime) -> bool {
    for (len, size) in SIZES {
        if !comes_back(rt, *len, *size) {
            return false;
        }
    }
    true
}

// Alone against a fetch that copies two words at most, and one that takes a word more where the object fills a log.
#[test]
fn an_object_comes_back_with_its_bytes(rt: HostRuntime) {
    assert!(rt; all_come_back(&rt));
}

const GOES: &[Act] = &[Leaves(9), Evicts(0, WENT)];

// It is far, and the logs are as it left them.
const IS_AWAY: &[Act] = &[
    Cell(0, 0x0400_0000_0001_0009),
    Log(0, Kind::Sealed, [0, 24, 4072]),
    Log(1, Kind::Open, [4096, 0, 0]),
    Log(2, Kind::Free, [0, 0, 4096]),
    Log(3, Kind::Free, [0, 0, 4096]),
];

// Each read was lent room for the longest object.
const COMES_AFTER_ALL: &[Act] = &[Fetches(0, COMES), Loads(0, 9), Lent(4088)];

// Whether an object of 9 bytes goes far, its first fetch is refused so and changes nothing, and the second brings it near with its bytes.
fn is_refused(rt: &HostRuntime, flaw: Flaw, why: Refused) -> bool {
    let refused = [Fetches(0, Some(Err(why)))];
    plays_over(
        rt,
        SMALL,
        flaw,
        &[GOES, IS_AWAY, &refused, IS_AWAY, COMES_AFTER_ALL],
    )
}

const FAILED: &[(Flaw, Refused)] = &[
    (Flaw::Stumbling(DeviceFault::Memory), Refused::Memory),
    (Flaw::Stumbling(DeviceFault::Device), Refused::Device),
];

const DAMAGED: &[(Flaw, Refused)] = &[
    (Flaw::Lying(0), Refused::Damaged),
    (Flaw::Lying(8), Refused::Damaged),
    (Flaw::Lying(10), Refused::Damaged),
];

fn are_refused(rt: &HostRuntime, rows: &[(Flaw, Refused)]) -> bool {
    for (flaw, why) in rows {
        if !is_refused(rt, *flaw, *why) {
            return false;
        }
    }
    true
}

// Alone against a fetch that forgets the key of what failed or was damaged, judges a length by `<`, or takes one fault for the other.
#[test]
fn a_refused_fetch_may_be_made_again(rt: HostRuntime) {
    assert!(rt; are_refused(&rt, FAILED) && are_refused(&rt, DAMAGED));
}

// Alone against a fetch that lets its buffer go where the read is refused: the next one takes memory then.
#[test]
fn a_refused_fetch_keeps_its_buffer(rt: HostRuntime) {
    assert!(rt; are_refused(&rt, FAILED));
}

// Pointer 0 is far and pointer 1 has EVAC and MOVE; of four logs only the last is free, and the one before it is open and full.
const CROWDS: &[Act] = &[
    Makes(8, 0, (0, 0)),
    Stores(0, 8),
    Makes(8, 1, (0, 2)),
    Makes(4088, 2, (1, 0)),
    Makes(4088, 3, (2, 0)),
    Owns(MOVE, Reply::Word(WAS_HOT)),
    Marks(0, Some(0xd600_0000_0001_0008)),
    Evicts(0, WENT),
    Asks(1, Mark::Moved),
    Marks(1, Some(0x9600_0000_0201_0008)),
];

const IS_CROWDED: &[Act] = &[
    Log(0, Kind::Sealed, [16, 16, 4064]),
    Log(1, Kind::Sealed, [4096, 0, 0]),
    Log(2, Kind::Open, [4096, 0, 0]),
    Log(3, Kind::Free, [0, 0, 4096]),
];

// A fetch leaves the last free log, and the device has the bytes until it comes.
const FINDS_NO_ROOM: &[Act] = &[Fetches(0, Some(Err(Refused::NoRoom))), Holds(true)];

// A move takes the last free log, and a fetch has room in it then; the device, asked only now, fails once.
const COMES_AFTER_A_MOVE: &[Act] = &[
    Moves(1, Some(Ok(Some(Place { log: 3, at: 0 })))),
    Near(1, (3, 0), NO_MARKS),
    Fetches(0, Some(Err(Refused::Device))),
    Fetches(0, Some(Ok(Some(Place { log: 3, at: 2 })))),
    Loads(0, 8),
    Log(3, Kind::Open, [32, 0, 4064]),
    Holds(true),
];

const ROOM_FOR_A_MOVE: &[&[Act]] = &[
    CROWDS,
    IS_CROWDED,
    FINDS_NO_ROOM,
    IS_CROWDED,
    COMES_AFTER_A_MOVE,
];

// Alone against a fetch that takes the last free log, asks the device before there is room, or forgets the key where there is none.
#[test]
fn a_fetch_keeps_the_last_free_log(rt: HostRuntime) {
    let flaw = Flaw::Stumbling(DeviceFault::Device);
    assert!(rt; plays_over(&rt, SMALL, flaw, ROOM_FOR_A_MOVE));
}

const DROPS_FAR: &[Act] = &[
    Leaves(8),
    Evicts(0, WENT),
    Owns(DROP, Reply::Word(0x0400_0000_0001_0008)),
];

// One object has left log 0, and another is in log 1.
const HAS_LEFT: &[Act] = &[
    Log(0, Kind::Sealed, [0, 16, 4080]),
    Log(1, Kind::Open, [4096, 0, 0]),
    Log(2, Kind::Free, [0, 0, 4096]),
    Log(3, Kind::Free, [0, 0, 4096]),
];

// A fetch finds an object that went far dropped: its cell is taken by the next object, and the device has no bytes of it.
const FINDS_DROP: &[Act] = &[Fetches(0, NOWHERE)];

const TAKES_ITS_CELL: &[Act] = &[Holds(false), Makes(8, 0, (2, 0))];

const DROPPED_FAR: &[&[Act]] = &[DROPS_FAR, HAS_LEFT, FINDS_DROP, HAS_LEFT, TAKES_ITS_CELL];

// Alone against a ledger in which the cell of a retired object stays taken if that was far.
#[test]
fn a_dropped_far_object_is_retired(rt: HostRuntime) {
    assert!(rt; plays_parts(&rt, DROPPED_FAR));
}

// An object of one word goes far and comes back, with these marks, and the device has its bytes then.
const CAME: &[Act] = &[
    Evicts(0, WENT),
    Fetches(0, COMES),
    Clean(0, (2, 0), NO_MARKS),
    Log(2, Kind::Open, [16, 0, 4080]),
    Holds(true),
];

const CAME_HOT: &[Act] = &[
    Evicts(0, WENT),
    Fetches(0, COMES),
    Clean(0, (2, 0), IS_HOT),
    Log(2, Kind::Open, [16, 0, 4080]),
    Holds(true),
];

const CAME_DROPPED: &[Act] = &[
    Evicts(0, WENT),
    Fetches(0, COMES),
    Clean(0, (2, 0), IS_DROPPED),
    Log(2, Kind::Open, [16, 0, 4080]),
    Holds(true),
];

// It is found dropped.
const RETIRED: &[Act] = &[
    Evicts(0, WENT),
    Fetches(0, NOWHERE),
    Gone(0),
    Log(2, Kind::Free, [0, 0, 4096]),
    Holds(false),
];

// A fetch of one word has four steps: a look at the cell, the header, a word that is written, the naming. At the fourth a second try begins, and after it the
// event came too late.
const HOT_AT_A_STEP: &[Beside] = &[
    (0, &[], CAME),
    (0, &[HOT], CAME),
    (1, &[HOT], CAME),
    (2, &[HOT], CAME),
    (3, &[HOT], CAME),
    (4, &[HOT], CAME_HOT),
];

// Alone against a fetch that takes HOT for DROP. The eviction takes four steps, and the cell is looked at once before the fetch.
#[test]
fn a_fetch_finds_hot_at_any_step(rt: HostRuntime) {
    assert!(rt; plays_rows(&rt, 518, HOT_AT_A_STEP));
}

// The last two come to a third try.
const MOVE_AT_A_STEP: &[Beside] = &[
    (0, &[MOVE], CAME),
    (1, &[MOVE], CAME),
    (2, &[MOVE], CAME),
    (3, &[MOVE], CAME),
    (3, &[HOT, MOVE], CAME),
    (3, &[MOVE, HOT], CAME),
];

// Alone against a fetch that takes MOVE for DROP.
#[test]
fn a_fetch_finds_move_at_any_step(rt: HostRuntime) {
    assert!(rt; plays_rows(&rt, 518, MOVE_AT_A_STEP));
}

// Where HOT and MOVE are found before the DROP, the fourth try is the retiring's. The last came too late.
const DROP_AT_A_STEP: &[Beside] = &[
    (0, &[DROP], RETIRED),
    (1, &[DROP], RETIRED),
    (2, &[DROP], RETIRED),
    (3, &[DROP], RETIRED),
    (3, &[MOVE, DROP], RETIRED),
    (3, &[HOT, MOVE, DROP], RETIRED),
    (4, &[DROP], CAME_DROPPED),
];

// Alone against a fetch that finds a DROP at the naming, says so, and retires nothing.
#[test]
fn a_fetch_finds_a_drop_at_any_step(rt: HostRuntime) {
    assert!(rt; plays_rows(&rt, 518, DROP_AT_A_STEP));
}
