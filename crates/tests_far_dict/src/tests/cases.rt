//! Rows of calls on one map.

use crate::tests::holding::{give_again, has, part, told_bytes};
use far_dict::Dict;
use far_double::Double;
use far_word::Refused;
use std::alloc::Global;

/// How long the key is, and how long a value it has before, and then gets, if any; and what is answered: whether it had one.
type Row = (usize, Option<usize>, Option<usize>, Result<bool, Refused>);

/// Rows, over workers that have room for so many objects; how many keys there are at last, of short entries and of long ones; and how many calls the workers had.
struct Case {
    name: &'static str,
    room: (usize, usize),
    rows: &'static [Row],
    len: (usize, usize),
    calls: (u64, u64),
}

#[rattlefmt::skip]
const CASES: &[Case] = &[
    Case {
        name: "no entry",
        room: (0, 0),
        rows: &[(3, None, None, Ok(false)), (3, None, Some(1), Err(Refused::NoRoom)), (3, None, Some(5_000), Err(Refused::NoRoom))],
        len: (0, 0), calls: (1, 1),
    },
    Case {
        name: "lengths about an object's",
        room: (9, 99),
        rows: &[
            (0, None, Some(4_086), Ok(false)), (1, None, Some(4_086), Ok(false)), (2, None, Some(0), Ok(false)),
            (0, Some(4_086), Some(4_087), Ok(true)), (1, Some(4_086), Some(4_085), Ok(true)), (2, Some(0), Some(65_536), Ok(true)),
            (0, Some(4_087), Some(4_088), Ok(true)), (1, Some(4_085), Some(8_176), Ok(true)), (2, Some(65_536), Some(8_177), Ok(true)),
            (3, None, None, Ok(false)),
        ],
        len: (0, 3), calls: (18, 69),
    },
    Case {
        name: "long keys",
        room: (9, 99),
        rows: &[
            (4_086, None, Some(0), Ok(false)), (4_086, Some(0), Some(1), Ok(true)), (4_086, Some(1), Some(65_000), Ok(true)), (4_086, Some(65_000), Some(0), Ok(true)),
            (4_087, None, Some(0), Err(Refused::Length)), (4_087, None, Some(9), Err(Refused::Length)), (4_087, None, None, Ok(false)),
            (4_085, None, Some(2), Ok(false)), (4_086, Some(0), None, Ok(true)),
        ],
        len: (0, 1), calls: (12, 53),
    },
    Case {
        name: "from short to long and back, again and again",
        room: (2, 34),
        rows: &[
            (4, None, Some(5), Ok(false)), (4, Some(5), Some(65_536), Ok(true)), (4, Some(65_536), Some(7), Ok(true)), (4, Some(7), Some(65_535), Ok(true)),
            (4, Some(65_535), Some(65_534), Ok(true)), (4, Some(65_534), None, Ok(true)), (4, None, Some(4_083), Ok(false)), (4, Some(4_083), None, Ok(true)),
        ],
        len: (0, 0), calls: (12, 156),
    },
    Case {
        name: "full workers: a value is made before the old one goes",
        room: (1, 3),
        rows: &[
            (4, None, Some(9_000), Ok(false)), (4, Some(9_000), Some(4_083), Err(Refused::NoRoom)), (5, None, Some(9_000), Err(Refused::NoRoom)),
            (5, None, Some(8), Ok(false)), (5, Some(8), Some(4_082), Err(Refused::NoRoom)), (4, Some(9_000), Some(8), Err(Refused::NoRoom)),
            (5, Some(8), None, Ok(true)), (4, Some(9_000), Some(8), Ok(true)), (5, None, Some(9_000), Ok(false)),
        ],
        len: (1, 1), calls: (14, 30),
    },
];

fn play_rows(dict: &mut Dict<Double>, rows: &[Row], fill: &[u8], out: &mut Vec<u8>) -> bool {
    for row in rows {
        let key = part(fill, row.0);
        let left = if row.3.is_ok() { row.2 } else { row.1 };
        let right = has(dict, key, row.1, fill, out)
            && give_again(dict, key, row.1, row.2, fill, out) == row.3
            && has(dict, key, left, fill, out);
        if !right {
            return false;
        }
    }
    true
}

// Room for a thousand short entries more, asked for once more where there is no memory; and how many homes there are then.
fn makes_room(dict: &mut Dict<Double>) -> bool {
    let done = dict.reserve(1_000) == Ok(()) || dict.reserve(1_000) == Ok(());
    done && dict.statistics().short.homes > 1_000
}

// How many calls the workers had, where all is right.
fn calls_of(alloc: Global, case: &Case, fill: &[u8]) -> Result<Option<(u64, u64)>, Refused> {
    let mut out = Vec::new(alloc);
    let (short, long) = case.room;
    let worker = Double::new(alloc, true, short, 0);
    let mut dict = Dict::new(alloc, worker, Double::new(alloc, true, long, 0), [7; 16])?;
    let right = play_rows(&mut dict, case.rows, fill, &mut out) && makes_room(&mut dict);
    let calls = (dict.worker().calls(), dict.long_worker().calls());
    let told = dict.statistics();
    let (short, long) = case.len;
    let counted = told.short.entries == short
        && told.long == long
        && dict.len() == short.saturating_add(long);
    let empty = dict.is_empty() == (case.len == (0, 0));
    dict.clear();
    let gone = dict.is_empty() && dict.worker().live() == 0 && dict.long_worker().live() == 0;
    let right = right && counted && empty && gone;
    Ok(if right { Some(calls) } else { None })
}

// Whether all is right, and no call more is made than has to be; where one was made again for memory, all is done once more.
fn comes_right(alloc: Global, case: &Case, fill: &[u8]) -> bool {
    let first = match calls_of(alloc, case, fill) {
        Err(Refused::Memory) => calls_of(alloc, case, fill),
        told => told,
    };
    match first {
        Ok(Some(calls)) if calls == case.calls => true,
        Ok(Some(_)) => calls_of(alloc, case, fill) == Ok(Some(case.calls)),
        _ => false,
    }
}

#[test]
fn keys_have_what_they_were_given(rt: HostRuntime) {
    let alloc = rt.alloc();
    let Ok(fill) = told_bytes(alloc, 65_536) else {
        return;
    };
    for case in CASES {
        assert!(rt; comes_right(alloc, case, fill.as_slice()), "{}", case.name);
    }
}
