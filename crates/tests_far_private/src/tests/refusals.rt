//! What is refused, in which order, with nothing changed.

use crate::tests::acts::{FOUR_LOGS, Play};
use crate::tests::calls::begins;
use crate::tests::stage::play;
use far_device::MemDevice;

/// Numbers of logs, each with what a heap of so many is refused as.
const LOGS: &[(u64, u8)] = &[(0, 15), (1, 15), (2, 0), (64, 0), (65, 15), (u64::MAX, 15)];

#[test]
fn a_heap_has_2_to_64_logs(rt: HostRuntime) {
    for (logs, said) in LOGS {
        assert!(rt;
            begins(rt.alloc(), *logs, MemDevice::new(rt.alloc())) == *said,
            "{logs}"
        );
    }
}

// No object has such a length, whether a pointer is free or not.
const LENGTHS: &str = "new 7 0 !4; new 7 4089 !4; new 7 65535 !4;";

const SHORTEST_AND_LONGEST: &str =
    "new 0 1; new 1 4088; look 0 1; look 1 4088; has 0 0 1; has 1 0 4088; \
    fill 1 0 4088 9; has 0 0 1; has 1 0 4088 9;";

// All pointers but the last, which is named 0, have objects of a byte.
const ALL_POINTERS: &str = "many 1000 1; pack 1047 1; new 0 1; fill 0 0 1 7;";

const NO_POINTER: &str = "new 7 1 !3; new 7 4088 !3; has 0 0 1 7;";

// The pointer of what was dropped is the next one, and its object has zeros.
const ONE_MORE: &str = "drop 0; has 0 0 1 !7; many 1 1; has 0 0 1; new 7 1 !3;";

// A pointer without an object, or none of the heap's: the number of the turn is 1,000 more.
const FREE: &str = "has k 0 1 !7; has k 0 0 !7; fill k 0 1 !7; fill k 18446744073709551615 0 !7; \
    add k 0 1 !7; drop k !7; look k;";

// The greatest of these.
const LAST: &str =
    "has 66535 0 1 !7; fill 66535 0 1 !7; add 66535 0 1 !7; drop 66535 !7; look 66535;";

// An object of 20 bytes; each range ends at its end at most, and has a byte at least.
const RANGES: &str = "new 0 20; fill 0 0 20 3; \
    has 0 0 0 !8; has 0 19 0 !8; has 0 20 0 !8; has 0 0 21 !8; has 0 1 20 !8; has 0 19 2 !8; has 0 20 1 !8; has 0 65536 1 !8; \
    has 0 18446744073709551615 1 !8; has 0 18446744073709551614 4088 !8; has 0 0 20 3; has 0 19 1 3;";

const WRITTEN_RANGES: &str =
    "fill 0 0 0 !8; fill 0 19 0 !8; fill 0 20 0 !8; fill 0 0 21 !8; fill 0 1 20 !8; fill 0 19 2 !8; \
    fill 0 20 1 !8; fill 0 65536 1 !8; fill 0 18446744073709551615 1 !8; fill 0 18446744073709551614 4088 !8; \
    add 0 0 0 !8; add 0 0 21 !8; add 0 19 2 !8; add 0 65536 1 !8; add 0 18446744073709551615 1 !8; has 0 0 20 3; \
    add 0 3 9 8 0 5; has 0 0 3 3; has 0 3 9 8; has 0 12 8 3;";

// Once it is dropped nothing of it is left.
const DROPPED: &str =
    "new 0 40; fill 0 0 40 170; drop 0; has 0 0 40 !7; has 0 0 0 !7; fill 0 0 40 !7; fill 0 40 1 !7; \
    add 0 0 40 !7; drop 0 !7; look 0; new 1 40; has 1 0 40;";

// The same where it is far: eight objects more fill a log each.
const DROPPED_FAR: &str =
    "new 2 40; fill 2 0 40 170; many 8 4088; drop 2; has 2 0 40 !7; drop 2 !7; new 3 40; has 3 0 40; \
    many 8 4088; has 3 0 40;";

// Objects of bytes that are given, of which each has its own.
const GIVEN: &str =
    "bytes 0 1 9; bytes 1 9 1 1; bytes 2 8 5; look 0 1; look 1 9; look 2 8; has 0 0 1 9; has 1 0 9 1 1; has 1 7 2 8 1; \
    has 2 0 8 5; drop 1; bytes 3 9 7; has 3 0 9 7; has 0 0 1 9;";

#[rattlefmt::skip]
const PLAYS: &[Play] = &[
    Play { name: "no_object_is_so_long", parts: &[LENGTHS, SHORTEST_AND_LONGEST, LENGTHS], ..FOUR_LOGS },
    Play { name: "each_pointer_has_an_object", parts: &[ALL_POINTERS, NO_POINTER, LENGTHS, ONE_MORE], ..FOUR_LOGS },
    Play { name: "a_free_pointer_has_none", turns: 3100, parts: &[FREE, LAST], ..FOUR_LOGS },
    Play { name: "a_range_lies_in_its_object", parts: &[RANGES, WRITTEN_RANGES], ..FOUR_LOGS },
    Play { name: "an_object_begins_with_its_bytes", parts: &[GIVEN], ..FOUR_LOGS },
    Play { name: "what_is_dropped_is_gone", parts: &[DROPPED, DROPPED_FAR], ..FOUR_LOGS },
];

#[test]
fn calls_are_refused(rt: HostRuntime) {
    play(&rt, rt.alloc(), PLAYS);
}
