//! Rows of calls.

use crate::tests::playing::{Call, Row, Scene, wrong};

const PLAIN: &[Row] = &[
    (Call::Get(0), 8, 0, 0, 0),
    (Call::Pop, 8, 0, 0, 0),
    (Call::Swap(0, 0), 8, 0, 0, 0),
    (Call::Truncate(3), 0, 0, 0, 0),
    (Call::Push(1), 0, 1, 1, 1),
    (Call::Push(2), 0, 2, 2, 1),
    (Call::Push(3), 0, 3, 3, 2),
    (Call::Set(1, 9), 0, 9, 3, 2),
    (Call::Set(2, 8), 0, 8, 3, 2),
    (Call::Set(3, 7), 8, 7, 3, 2),
    (Call::Get(0), 0, 1, 3, 2),
    (Call::Get(1), 0, 9, 3, 2),
    (Call::Get(2), 0, 8, 3, 2),
    (Call::Get(3), 8, 8, 3, 2),
    (Call::Get(usize::MAX), 8, 8, 3, 2),
    (Call::Swap(0, 1), 0, 8, 3, 2),
    (Call::Get(0), 0, 9, 3, 2),
    (Call::Get(1), 0, 1, 3, 2),
    (Call::Swap(0, 2), 0, 1, 3, 2),
    (Call::Get(0), 0, 8, 3, 2),
    (Call::Get(1), 0, 1, 3, 2),
    (Call::Get(2), 0, 9, 3, 2),
    (Call::Swap(2, 2), 0, 9, 3, 2),
    (Call::Get(2), 0, 9, 3, 2),
    (Call::Swap(2, 3), 8, 9, 3, 2),
    (Call::Swap(3, 2), 8, 9, 3, 2),
    (Call::Pop, 0, 9, 2, 2),
    (Call::Pop, 0, 1, 1, 2),
    (Call::Get(1), 8, 1, 1, 2),
    (Call::Push(4), 0, 4, 2, 2),
    (Call::Push(5), 0, 5, 3, 2),
    (Call::Truncate(5), 0, 5, 3, 2),
    (Call::Truncate(2), 0, 5, 2, 1),
    (Call::Get(1), 0, 4, 2, 1),
    (Call::Clear, 0, 4, 0, 0),
    (Call::Push(6), 0, 6, 1, 1),
    (Call::Pop, 0, 6, 0, 1),
    (Call::Pop, 8, 6, 0, 1),
];

// One object, and no room for another.
const FULL: &[Row] = &[
    (Call::Push(1), 0, 1, 1, 1),
    (Call::Push(2), 0, 2, 2, 1),
    (Call::Push(3), 2, 3, 2, 1),
    (Call::Swap(0, 1), 2, 3, 2, 1),
    (Call::Get(0), 0, 1, 2, 1),
    (Call::Get(1), 0, 2, 2, 1),
    (Call::Pop, 0, 2, 1, 1),
    (Call::Push(7), 0, 7, 2, 1),
    (Call::Clear, 0, 7, 0, 0),
    (Call::Push(8), 0, 8, 1, 1),
];

// Each fifth call of the far side is refused. A swap makes five: each of them is refused in turn, and an object that one of them made doesn't stay, or there was no
// room for the next.
const REFUSED: &[Row] = &[
    (Call::Push(1), 0, 1, 1, 1),
    (Call::Push(2), 0, 2, 2, 1),
    (Call::Push(3), 0, 3, 3, 2),
    (Call::Get(2), 0, 3, 3, 2),
    (Call::Get(0), 10, 3, 3, 2),
    (Call::Swap(0, 2), 10, 3, 3, 2),
    (Call::Swap(0, 2), 10, 3, 3, 2),
    (Call::Swap(1, 0), 10, 3, 3, 2),
    (Call::Get(0), 0, 1, 3, 2),
    (Call::Swap(0, 2), 10, 1, 3, 2),
    (Call::Get(0), 0, 1, 3, 2),
    (Call::Get(1), 0, 2, 3, 2),
    (Call::Swap(0, 2), 10, 2, 3, 2),
    (Call::Get(0), 0, 1, 3, 2),
    (Call::Get(1), 0, 2, 3, 2),
    (Call::Get(2), 0, 3, 3, 2),
    (Call::Swap(0, 2), 10, 3, 3, 2),
    (Call::Get(0), 0, 1, 3, 2),
    (Call::Get(1), 0, 2, 3, 2),
    (Call::Get(2), 0, 3, 3, 2),
    (Call::Get(0), 0, 1, 3, 2),
    (Call::Swap(0, 2), 10, 1, 3, 2),
    (Call::Get(0), 0, 1, 3, 2),
    (Call::Set(1, 9), 0, 9, 3, 2),
    (Call::Get(2), 0, 3, 3, 2),
    (Call::Get(1), 0, 9, 3, 2),
    (Call::Set(1, 7), 10, 7, 3, 2),
    (Call::Get(1), 0, 9, 3, 2),
    (Call::Push(4), 0, 4, 4, 2),
    (Call::Push(5), 0, 5, 5, 3),
    (Call::Push(6), 0, 6, 6, 3),
    (Call::Push(7), 10, 7, 6, 3),
    (Call::Push(7), 2, 7, 6, 3),
    (Call::Pop, 0, 6, 5, 3),
    (Call::Pop, 0, 5, 4, 3),
    (Call::Pop, 0, 4, 3, 3),
    (Call::Pop, 10, 4, 3, 3),
    (Call::Pop, 0, 3, 2, 2),
];

// Each sixth call: a swap is done, though the last one was refused.
const DONE_LATER: &[Row] = &[
    (Call::Push(1), 0, 1, 1, 1),
    (Call::Push(2), 0, 2, 2, 1),
    (Call::Push(3), 0, 3, 3, 2),
    (Call::Swap(0, 2), 10, 3, 3, 2),
    (Call::Swap(0, 2), 0, 3, 3, 2),
    (Call::Swap(0, 1), 10, 3, 3, 2),
    (Call::Swap(0, 1), 0, 3, 3, 2),
    (Call::Get(0), 10, 3, 3, 2),
    (Call::Get(0), 0, 2, 3, 2),
    (Call::Get(1), 0, 3, 3, 2),
    (Call::Get(2), 0, 1, 3, 2),
];

// A far side that reads nothing: the number of records is right, and each call as ever.
const LYING: &[Row] = &[
    (Call::Push(1), 0, 1, 1, 1),
    (Call::Push(2), 0, 2, 2, 1),
    (Call::Push(3), 0, 3, 3, 2),
    (Call::Get(0), 0, 3, 3, 2),
    (Call::Set(0, 9), 0, 9, 3, 2),
    (Call::Swap(0, 2), 0, 9, 3, 2),
    (Call::Get(2), 0, 9, 3, 2),
    (Call::Pop, 0, 9, 2, 2),
    (Call::Get(2), 8, 9, 2, 2),
];

#[rattlefmt::skip]
const SCENES: &[Scene] = &[
    Scene { honest: true, room: 4, every: 0, rows: PLAIN },
    Scene { honest: true, room: 1, every: 0, rows: FULL },
    Scene { honest: true, room: 3, every: 5, rows: REFUSED },
    Scene { honest: true, room: 3, every: 6, rows: DONE_LATER },
    Scene { honest: false, room: 4, every: 0, rows: LYING },
];

#[test]
fn calls_are_answered_so(rt: HostRuntime) {
    for k in 0..SCENES.len() {
        let row = wrong(rt.alloc(), &SCENES[k]);
        assert!(rt; row == 0, "scene {k}, row {row}");
    }
}
