//! Ranges of objects of each length: each byte is read where it was written, and no other is touched.

use crate::tests::acts::{FOUR_LOGS, Play};
use crate::tests::stage::play;

// An object of k bytes has zeros, and then what is written, until it is dropped.
const KEPT: &str =
    "new 0 k; has 0 0 k; has 0 k 1 !8; fill 0 0 k k 7; has 0 0 k k 7; has 0 k 1 !8; drop 0; has 0 0 1 !7;";

// Each range is written of one between two others, which stay as they are.
const WRITTEN: &str = "new 0 k; new 1 k; new 2 k; each 1 k; has 0 0 k; has 2 0 k;";

#[rattlefmt::skip]
const LENGTHS: &[Play] = &[
    Play { name: "each_length", logs: 8, turns: 4088, parts: &[KEPT], ..FOUR_LOGS },
];

#[rattlefmt::skip]
const SHORT: &[Play] = &[
    Play { name: "each_range", turns: 26, parts: &[WRITTEN], ..FOUR_LOGS },
];

#[test]
fn objects_of_each_length(rt: HostRuntime) {
    play(&rt, rt.alloc(), LENGTHS);
}

#[test]
fn each_range_of_short_objects(rt: HostRuntime) {
    play(&rt, rt.alloc(), SHORT);
}
