//! Each call of a device has a fault in turn, once: what is refused for that is done when it is asked again, and all objects keep their bytes. A lie
//! harms the object alone that the device was asked for.

use crate::tests::acts::{FOUR_LOGS, Play};
use crate::tests::devices::Flaw;
use crate::tests::stage::play;

// Objects of some lengths are made, go far, come back to be read, written or updated, and go again.
const THERE: &str =
    "new 0 8; new 1 100; bytes 2 3000 12; fill 0 0 8 10; fill 1 0 100 11; bytes 5 60 30; many 6 4088;";

const BACK: &str =
    "has 0 0 8 10; fill 1 10 80 21; has 2 0 3000 12; add 5 0 60 31 0 1; new 3 500; fill 3 1 499 13; round 2 0; pack 6 4088;";

const AGAIN: &str =
    "has 0 0 8 10; has 1 0 10 11; has 1 10 80 21; has 1 90 10 11; fill 2 2999 1 22; add 1 10 80 24 0 3; \
    has 1 0 10 11; has 1 10 80 24; has 5 0 60 31; drop 3; many 6 2000; has 2 0 2999 12; has 2 2999 1 22; new 3 500; has 3 0 500;";

/// More calls than the device gets. In the first play it has no fault.
const ALL: Play = Play {
    heaps: 80,
    patient: true,
    parts: &[THERE, BACK, AGAIN],
    ..FOUR_LOGS
};

#[rattlefmt::skip]
const FAULTS: &[Play] = &[
    Play { name: "a call fails", flaw: Flaw::Fails, ..ALL },
    Play { name: "a call lacks memory", flaw: Flaw::Lacks, ..ALL },
];

#[rattlefmt::skip]
const LENGTHS: &[Play] = &[
    Play { name: "a read is short", flaw: Flaw::Shortens, ..ALL },
    Play { name: "a read is long", flaw: Flaw::Lengthens, ..ALL },
];

// All are read, go far, and are read again.
const READ_TWICE: &str = "set 24; wrong 24 1; many 8 4088; wrong 24 1;";

const READ_RIGHT: &str = "set 24; wrong 24; many 8 4088; wrong 24;";

#[rattlefmt::skip]
const LIES: &[Play] = &[
    Play { name: "none is told", parts: &[READ_RIGHT], ..FOUR_LOGS },
    Play { name: "one is told", flaw: Flaw::Inverts, heaps: 120, parts: &[READ_TWICE], ..FOUR_LOGS },
];

#[test]
fn each_call_fails(rt: HostRuntime) {
    play(&rt, rt.alloc(), FAULTS);
}

#[test]
fn each_read_has_another_length(rt: HostRuntime) {
    play(&rt, rt.alloc(), LENGTHS);
}

#[test]
fn a_lie_harms_one_object(rt: HostRuntime) {
    play(&rt, rt.alloc(), LIES);
}
