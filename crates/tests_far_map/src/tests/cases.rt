//! Cases of rows, each over a far side that refuses each so many-th call.

use crate::tests::rows::{Row, play_rows};
use far_double::Double;
use far_map::Map;
use far_objects::Objects;
use far_word::Refused;
use std::alloc::Global;

/// How many homes the index has, how many of its slots are taken, and how many bytes all have.
type Near = (usize, usize, usize);

/// Rows; room for how many entries more is asked for then, what that answers, and what is near after it; rows that follow; what is near at last, and how many keys
/// are there, over a far side that has room for so many objects; and how many calls that had, if it refused none.
struct Case {
    name: &'static str,
    room: usize,
    rows: &'static [Row],
    more: usize,
    answer: Result<(), Refused>,
    near: Near,
    then: &'static [Row],
    last: Near,
    len: usize,
    calls: u64,
}

#[rattlefmt::skip]
const CASES: &[Case] = &[
    Case {
        name: "an empty map",
        room: 10,
        rows: &[((0, 1, 0, 0), None, None, false, Ok(false)), ((97, 1, 0, 1), None, Some(3), true, Ok(false))],
        more: usize::MAX, answer: Err(Refused::Memory), near: (64, 0, 880),
        then: &[((97, 1, 0, 4), None, None, false, Ok(false))],
        last: (64, 0, 880), len: 0, calls: 0,
    },
    Case {
        name: "keys that begin with one another",
        room: 10,
        rows: &[
            ((97, 1, 0, 0), None, Some(4), false, Ok(false)),
            ((97, 1, 0, 1), None, Some(0), false, Ok(false)),
            ((97, 1, 0, 2), None, Some(2), false, Ok(false)),
            ((97, 1, 0, 3), None, None, false, Ok(false)),
            ((97, 1, 0, 1), Some(0), None, false, Ok(true)),
        ],
        more: 10, answer: Ok(()), near: (80, 2, 1_060),
        then: &[((97, 1, 0, 0), Some(4), Some(5), true, Ok(true)), ((97, 1, 0, 2), Some(2), Some(1), false, Ok(true)), ((97, 1, 0, 4), None, None, false, Ok(false))],
        last: (80, 2, 1_060), len: 2, calls: 25,
    },
    Case {
        name: "two keys of one tag under this seed",
        room: 10,
        rows: &[
            ((3_015_518, 1, 0, 4), None, Some(1), false, Ok(false)),
            ((32_779_678, 1, 0, 4), None, None, false, Ok(false)),
            ((32_779_678, 1, 0, 4), None, Some(2), false, Ok(false)),
            ((3_015_518, 1, 0, 4), Some(1), None, false, Ok(true)),
            ((32_779_678, 1, 0, 4), Some(2), Some(3), false, Ok(true)),
        ],
        more: 1_000, answer: Ok(()), near: (1_398, 1, 15_880),
        then: &[((3_015_518, 1, 0, 4), None, Some(4), false, Ok(false)), ((32_779_678, 1, 0, 4), Some(3), Some(5), true, Ok(true)), ((3_015_518, 1, 0, 4), Some(4), Some(6), false, Ok(true))],
        last: (1_398, 2, 15_880), len: 2, calls: 53,
    },
    Case {
        name: "the longest entries",
        room: 10,
        rows: &[
            ((0, 1, 0, 4086), None, Some(0), false, Ok(false)),
            ((0, 1, 0, 0), None, Some(4086), false, Ok(false)),
            ((0, 1, 0, 300), None, Some(3785), false, Ok(false)),
            ((0, 1, 0, 4087), None, Some(0), false, Err(Refused::Length)),
            ((0, 1, 0, 0), Some(4086), Some(4087), false, Err(Refused::Length)),
        ],
        more: 0, answer: Ok(()), near: (68, 3, 920),
        then: &[
            ((0, 1, 0, 300), Some(3785), Some(3786), true, Ok(true)),
            ((0, 1, 0, 300), Some(3786), Some(3787), true, Err(Refused::Length)),
            ((0, 1, 0, 4086), Some(0), Some(1), false, Err(Refused::Length)),
        ],
        last: (68, 3, 920), len: 3, calls: 29,
    },
    Case {
        name: "a full far side: an object is made before the old one goes",
        room: 3,
        rows: &[((0, 3, 1, 4), None, Some(9), false, Ok(false)), ((3, 1, 0, 4), None, Some(9), false, Err(Refused::NoRoom)), ((1, 1, 0, 4), Some(9), Some(8), true, Err(Refused::NoRoom)), ((1, 1, 0, 4), Some(9), Some(9), false, Ok(true))],
        more: 0, answer: Ok(()), near: (68, 3, 920),
        then: &[((1, 1, 0, 4), Some(9), None, false, Ok(true)), ((3, 1, 0, 4), None, Some(8), false, Ok(false))],
        last: (68, 4, 920), len: 3, calls: 29,
    },
    Case {
        name: "keys of the last home, whose index gets slots past its end one by one",
        room: 30,
        rows: &[
            ((174, 1, 0, 4), None, Some(1), false, Ok(false)), ((199, 1, 0, 4), None, Some(1), false, Ok(false)), ((310, 1, 0, 4), None, Some(1), false, Ok(false)),
            ((313, 1, 0, 4), None, Some(1), false, Ok(false)), ((367, 1, 0, 4), None, Some(1), false, Ok(false)), ((500, 1, 0, 4), None, Some(1), false, Ok(false)),
            ((588, 1, 0, 4), None, Some(1), false, Ok(false)), ((595, 1, 0, 4), None, Some(1), false, Ok(false)), ((599, 1, 0, 4), None, Some(1), false, Ok(false)),
            ((616, 1, 0, 4), None, Some(1), false, Ok(false)), ((649, 1, 0, 4), None, Some(1), false, Ok(false)), ((757, 1, 0, 4), None, Some(1), false, Ok(false)),
            ((759, 1, 0, 4), None, Some(1), false, Ok(false)), ((765, 1, 0, 4), None, Some(1), false, Ok(false)), ((828, 1, 0, 4), None, Some(1), false, Ok(false)),
            ((899, 1, 0, 4), None, Some(1), false, Ok(false)), ((934, 1, 0, 4), None, Some(1), false, Ok(false)), ((995, 1, 0, 4), None, Some(1), false, Ok(false)),
            ((1_051, 1, 0, 4), None, Some(1), false, Ok(false)), ((1_086, 1, 0, 4), None, Some(1), false, Ok(false)), ((1_090, 1, 0, 4), None, Some(1), false, Ok(false)),
            ((1_127, 1, 0, 4), None, Some(1), false, Ok(false)), ((1_164, 1, 0, 4), None, Some(1), false, Ok(false)), ((1_171, 1, 0, 4), None, Some(1), false, Ok(false)),
            ((1_198, 1, 0, 4), None, Some(1), false, Ok(false)), ((1_243, 1, 0, 4), None, Some(1), false, Ok(false)), ((1_351, 1, 0, 4), None, Some(1), false, Ok(false)), ((1_364, 1, 0, 4), None, Some(1), false, Ok(false)),
            ((174, 1, 0, 4), Some(1), None, false, Ok(true)), ((1_351, 1, 0, 4), Some(1), Some(2), false, Ok(true)), ((1_476, 1, 0, 4), None, None, false, Ok(false)),
        ],
        more: usize::MAX, answer: Err(Refused::Memory), near: (64, 28, 910),
        then: &[((1_351, 1, 0, 4), Some(2), Some(3), false, Ok(true)), ((174, 1, 0, 4), None, Some(4), false, Ok(false)), ((199, 1, 0, 4), Some(1), None, false, Ok(true))],
        last: (64, 28, 910), len: 27, calls: 105,
    },
    Case {
        name: "many keys, so that the index grows, and slots are left and used again",
        room: 501,
        rows: &[((0, 500, 1, 4), None, Some(40), false, Ok(false)), ((0, 167, 3, 4), Some(40), None, false, Ok(true)), ((1, 167, 3, 4), Some(40), Some(300), false, Ok(true))],
        more: 150, answer: Ok(()), near: (729, 333, 8_360),
        then: &[((0, 167, 3, 4), None, Some(7), false, Ok(false)), ((2, 166, 3, 4), Some(40), Some(0), true, Ok(true)), ((1, 167, 3, 4), Some(300), Some(1), false, Ok(true))],
        last: (729, 500, 8_360), len: 500, calls: 5_668,
    },
    Case {
        name: "keys that come and go, so that an index with few entries more is full of slots that were left",
        room: 81,
        rows: &[((0, 10, 1, 4), None, Some(1), false, Ok(false))],
        more: 0, answer: Ok(()), near: (77, 10, 1_020),
        then: &[
            ((10, 50, 1, 4), None, Some(1), false, Ok(false)), ((0, 20, 1, 4), Some(1), None, false, Ok(true)), ((100, 20, 1, 4), None, Some(1), false, Ok(false)),
            ((20, 20, 1, 4), Some(1), None, false, Ok(true)), ((200, 20, 1, 4), None, Some(1), false, Ok(false)), ((100, 20, 1, 4), Some(1), None, false, Ok(true)),
            ((300, 20, 1, 4), None, Some(1), false, Ok(false)), ((200, 20, 1, 4), Some(1), None, false, Ok(true)), ((400, 20, 1, 4), None, Some(1), false, Ok(false)),
        ],
        last: (115, 85, 1_450), len: 60, calls: 660,
    },
];

// Room for more entries, asked for once more where there is no memory.
fn is_answered<O: Objects + Drop>(map: &mut Map<O>, case: &Case) -> bool {
    map.reserve(case.more) == case.answer || map.reserve(case.more) == case.answer
}

fn near_of<O: Objects + Drop>(map: &Map<O>) -> Near {
    let told = map.statistics();
    (told.homes, told.taken, told.bytes)
}

fn play_all<O: Objects + Drop>(
    map: &mut Map<O>,
    case: &Case,
    fill: &[u8],
    out: &mut Vec<u8>,
) -> Result<bool, Refused> {
    Ok(
        play_rows(map, fill, case.rows, out)?
            && is_answered(map, case)
            && near_of(map) == case.near
            && play_rows(map, fill, case.then, out)?
            && near_of(map) == case.last
            && map.len() == case.len,
    )
}

// How many calls the far side had, where all is right.
fn calls_of(alloc: Global, case: &Case, every: u64) -> Result<Option<u64>, Refused> {
    let Ok(fill) = vec![in alloc; 7u8; 5_000] else {
        return Err(Refused::Memory);
    };
    // a change needs no memory then
    let Ok(mut out) = Vec::with_capacity(alloc, 5_000) else {
        return Err(Refused::Memory);
    };
    let mut map = Map::new(alloc, Double::new(alloc, true, case.room, every), [7; 16])?;
    let right = play_all(&mut map, case, fill.as_slice(), &mut out);
    let (calls, objects) = (map.worker().calls(), map.worker().live());
    map.clear();
    let gone = map.worker().live() == 0 && map.statistics().taken == 0;
    let right = right == Ok(true) && objects == case.len && gone && out.capacity() >= 5_000;
    Ok(if right { Some(calls) } else { None })
}

// Whether all is right, and no call more is made than has to be; where one was made again for memory, all is done once more.
fn comes_right(alloc: Global, case: &Case, every: u64) -> bool {
    let first = match calls_of(alloc, case, every) {
        Err(Refused::Memory) => calls_of(alloc, case, every),
        told => told,
    };
    match first {
        Ok(Some(calls)) if every != 0 || calls == case.calls => true,
        Ok(Some(_)) => calls_of(alloc, case, every) == Ok(Some(case.calls)),
        _ => false,
    }
}

#[test]
fn keys_have_what_they_were_given(rt: HostRuntime) {
    // not 5: a change of the second key of a tag is five calls
    for every in [0u64, 6, 7, 8] {
        for case in CASES {
            assert!(rt;
                comes_right(rt.alloc(), case, every),
                "{} {every}",
                case.name
            );
        }
    }
}
