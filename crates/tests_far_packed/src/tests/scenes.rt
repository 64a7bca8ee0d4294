//! Rows of calls.

use crate::tests::playing::{Call, NONE, REFUSED, Row, Scene, wrong};

/// Refusals as they are answered.
const MEMORY: usize = REFUSED + 1;

const NO_ROOM: usize = REFUSED + 2;

const LENGTH: usize = REFUSED + 4;

const NOT_HELD: usize = REFUSED + 7;

const RANGE: usize = REFUSED + 8;

const DEVICE: usize = REFUSED + 10;

// Values come, are read and written in the block that is filled and in a sealed one, and go.
#[rattlefmt::skip]
const PLAIN: &[Row] = &[
    (Call::Put(0, 1), LENGTH, 0, 0), (Call::Put(4089, 1), LENGTH, 0, 0), (Call::Zeros(0), LENGTH, 0, 0), (Call::Zeros(4089), LENGTH, 0, 0),
    (Call::Len(0), NONE, 0, 0), (Call::Read(0, 0, 1), NOT_HELD, 99, 0), (Call::Write(0, 0, 1, 1), NOT_HELD, 0, 0), (Call::Drop(0), NOT_HELD, 0, 0),
    (Call::Put(3, 1), 0, 0, 0), (Call::Put(4, 2), 1, 0, 0), (Call::Zeros(2), 2, 0, 0),
    (Call::Len(0), 3, 0, 0), (Call::Len(1), 4, 0, 0), (Call::Len(2), 2, 0, 0), (Call::Len(3), NONE, 0, 0),
    (Call::Read(0, 0, 3), 0, 1, 0), (Call::Read(1, 0, 4), 0, 2, 0), (Call::Read(2, 0, 2), 0, 0, 0), (Call::Read(1, 3, 1), 0, 2, 0),
    (Call::Read(1, 3, 2), RANGE, 99, 0), (Call::Read(1, 4, 1), RANGE, 99, 0), (Call::Read(1, 0, 0), RANGE, 99, 0), (Call::Read(1, usize::MAX, 1), RANGE, 99, 0),
    (Call::Write(1, 1, 3, 7), 0, 0, 0), (Call::Write(1, 2, 3, 8), RANGE, 0, 0), (Call::Write(1, 0, 0, 8), RANGE, 0, 0),
    (Call::Read(1, 0, 1), 0, 2, 0), (Call::Read(1, 1, 3), 0, 7, 0), (Call::Read(0, 0, 3), 0, 1, 0), (Call::Read(2, 0, 2), 0, 0, 0),
    (Call::Put(4079, 4), 3, 0, 0), (Call::Put(1, 5), 8, 0, 1), (Call::Len(4), NONE, 0, 1),
    (Call::Read(3, 0, 4079), 0, 4, 1), (Call::Read(3, 4078, 1), 0, 4, 1), (Call::Read(3, 4078, 2), RANGE, 99, 1), (Call::Read(1, 1, 3), 0, 7, 1), (Call::Read(8, 0, 1), 0, 5, 1),
    (Call::Write(3, 0, 4079, 6), 0, 0, 1), (Call::Read(2, 0, 2), 0, 0, 1), (Call::Write(2, 0, 2, 9), 0, 0, 1), (Call::Write(2, 1, 2, 9), RANGE, 0, 1),
    (Call::Read(1, 1, 3), 0, 7, 1), (Call::Read(2, 0, 2), 0, 9, 1), (Call::Read(3, 0, 4079), 0, 6, 1), (Call::Read(8, 0, 1), 0, 5, 1),
    (Call::Drop(1), 0, 0, 1), (Call::Drop(1), NOT_HELD, 0, 1), (Call::Read(1, 0, 1), NOT_HELD, 99, 1), (Call::Len(1), NONE, 0, 1),
    (Call::Read(0, 0, 3), 0, 1, 1), (Call::Read(2, 0, 2), 0, 9, 1), (Call::Drop(0), 0, 0, 1), (Call::Drop(2), 0, 0, 1), (Call::Read(3, 9, 9), 0, 6, 1),
    (Call::Drop(3), 0, 0, 0), (Call::Read(8, 0, 1), 0, 5, 0), (Call::Drop(8), 0, 0, 0), (Call::Put(4088, 3), 8, 0, 0), (Call::Put(4088, 2), 0, 0, 1),
    (Call::Read(8, 0, 4088), 0, 3, 1), (Call::Read(0, 0, 4088), 0, 2, 1),
];

// Eight values fill a block, and there is room for two blocks.
#[rattlefmt::skip]
const FULL: &[Row] = &[
    (Call::Put(1, 10), 0, 0, 0), (Call::Put(1, 11), 1, 0, 0), (Call::Put(1, 12), 2, 0, 0), (Call::Put(1, 13), 3, 0, 0),
    (Call::Put(1, 14), 4, 0, 0), (Call::Put(1, 15), 5, 0, 0), (Call::Put(1, 16), 6, 0, 0), (Call::Put(1, 17), 7, 0, 0),
    (Call::Put(2, 20), 8, 0, 1), (Call::Put(2, 21), 9, 0, 1), (Call::Put(2, 22), 10, 0, 1), (Call::Put(2, 23), 11, 0, 1),
    (Call::Put(2, 24), 12, 0, 1), (Call::Put(2, 25), 13, 0, 1), (Call::Put(2, 26), 14, 0, 1), (Call::Put(2, 27), 15, 0, 1),
    (Call::Put(1, 30), MEMORY, 0, 1), (Call::Zeros(1), MEMORY, 0, 1), (Call::Read(7, 0, 1), 0, 17, 1), (Call::Read(15, 0, 2), 0, 27, 1), (Call::Len(16), NONE, 0, 1),
    (Call::Drop(0), 0, 0, 1), (Call::Drop(1), 0, 0, 1), (Call::Drop(2), 0, 0, 1), (Call::Drop(3), 0, 0, 1),
    (Call::Drop(4), 0, 0, 1), (Call::Drop(5), 0, 0, 1), (Call::Drop(6), 0, 0, 1), (Call::Put(1, 30), MEMORY, 0, 1), (Call::Drop(7), 0, 0, 0),
    (Call::Put(3, 30), 0, 0, 1), (Call::Len(1), NONE, 0, 1), (Call::Len(7), NONE, 0, 1), (Call::Read(0, 0, 3), 0, 30, 1), (Call::Read(15, 0, 2), 0, 27, 1),
    (Call::Put(3, 31), 1, 0, 1), (Call::Read(1, 0, 3), 0, 31, 1), (Call::Read(0, 0, 3), 0, 30, 1),
];

// No call of the worker is answered but to drop: the block that is filled stays, and begins anew when its last value is gone.
#[rattlefmt::skip]
const ALONE: &[Row] = &[
    (Call::Put(1, 10), 0, 0, 0), (Call::Put(1, 11), 1, 0, 0), (Call::Put(1, 12), 2, 0, 0), (Call::Put(1, 13), 3, 0, 0),
    (Call::Put(1, 14), 4, 0, 0), (Call::Put(1, 15), 5, 0, 0), (Call::Put(1, 16), 6, 0, 0), (Call::Put(1, 17), 7, 0, 0),
    (Call::Put(1, 18), DEVICE, 0, 0), (Call::Zeros(1), DEVICE, 0, 0), (Call::Read(0, 0, 1), 0, 10, 0), (Call::Write(0, 0, 1, 9), 0, 0, 0), (Call::Read(0, 0, 1), 0, 9, 0),
    (Call::Read(7, 0, 1), 0, 17, 0), (Call::Drop(7), 0, 0, 0), (Call::Put(1, 18), DEVICE, 0, 0),
    (Call::Drop(6), 0, 0, 0), (Call::Drop(5), 0, 0, 0), (Call::Drop(4), 0, 0, 0), (Call::Drop(3), 0, 0, 0), (Call::Drop(2), 0, 0, 0), (Call::Drop(1), 0, 0, 0),
    (Call::Drop(0), 0, 0, 0), (Call::Put(4088, 19), 0, 0, 0), (Call::Read(0, 0, 4088), 0, 19, 0), (Call::Len(1), NONE, 0, 0), (Call::Put(1, 20), DEVICE, 0, 0),
];

// Each second call is refused.
#[rattlefmt::skip]
const SECOND: &[Row] = &[
    (Call::Put(4088, 1), 0, 0, 0), (Call::Put(4088, 2), 8, 0, 1), (Call::Read(0, 0, 9), DEVICE, 99, 1), (Call::Read(0, 0, 9), 0, 1, 1),
    (Call::Write(0, 9, 9, 3), DEVICE, 0, 1), (Call::Read(0, 0, 18), 0, 1, 1), (Call::Put(1, 4), DEVICE, 0, 1), (Call::Read(8, 0, 9), 0, 2, 1),
    (Call::Write(0, 9, 9, 3), 0, 0, 1), (Call::Read(0, 9, 9), DEVICE, 99, 1), (Call::Read(0, 9, 9), 0, 3, 1), (Call::Read(0, 18, 9), DEVICE, 99, 1),
    (Call::Put(1, 4), 16, 0, 2), (Call::Drop(0), 0, 0, 1), (Call::Drop(8), 0, 0, 0), (Call::Read(16, 0, 1), 0, 4, 0),
];

// A worker without room.
#[rattlefmt::skip]
const ROOMLESS: &[Row] = &[
    (Call::Put(4088, 1), 0, 0, 0), (Call::Put(1, 2), NO_ROOM, 0, 0), (Call::Read(0, 0, 4088), 0, 1, 0), (Call::Drop(0), 0, 0, 0), (Call::Put(1, 2), 0, 0, 0),
    (Call::Drop(0), 0, 0, 0), (Call::Zeros(4088), 0, 0, 0), (Call::Read(0, 0, 4088), 0, 0, 0), (Call::Len(0), 4088, 0, 0),
];

// A worker that lies: lengths are right, and the block that is filled.
#[rattlefmt::skip]
const LIES: &[Row] = &[
    (Call::Put(4000, 1), 0, 0, 0), (Call::Put(88, 2), 1, 0, 0), (Call::Read(1, 0, 88), 0, 2, 0), (Call::Put(1, 3), 8, 0, 1),
    (Call::Read(1, 0, 88), 0, 99, 1), (Call::Len(1), 88, 0, 1), (Call::Read(1, 1, 88), RANGE, 99, 1), (Call::Read(8, 0, 1), 0, 3, 1),
];

#[rattlefmt::skip]
const SCENES: &[Scene] = &[
    Scene { honest: true, room: 10, every: 0, blocks: 2, rows: PLAIN },
    Scene { honest: true, room: 10, every: 0, blocks: 2, rows: FULL },
    Scene { honest: true, room: 10, every: 1, blocks: 9, rows: ALONE },
    Scene { honest: true, room: 10, every: 2, blocks: 9, rows: SECOND },
    Scene { honest: true, room: 0, every: 0, blocks: 9, rows: ROOMLESS },
    Scene { honest: false, room: 10, every: 0, blocks: 9, rows: LIES },
];

#[test]
fn calls_are_answered_so(rt: HostRuntime) {
    for k in 0..SCENES.len() {
        assert!(rt;
            wrong(rt.alloc(), &SCENES[k]) == 0,
            "scene {k}, row {}",
            wrong(rt.alloc(), &SCENES[k])
        );
    }
}
