//! Which bytes a scope reads and writes, and by which views.

use crate::tests::acts::Act::*;
use crate::tests::acts::{Act, EIGHT, ZEROS};
use crate::tests::play::Scene::Acts;
use crate::tests::play::{ONE, Play, holds};
use far_word::Refused;

// All twelve bytes of an object, written in three parts across words, are read in two.
const TWELVE: &[Act] = &[
    Makes(12, Ok(0)),
    Opens,
    Keeps(0),
    Kept(0, 12),
    WritesAt(0, &[1, 2, 3]),
    WritesAt(3, &[4, 5, 6, 7, 8, 9, 10]),
    WritesAt(10, &[11, 12]),
    ReadsAt(0, &[1, 2, 3, 4, 5, 6, 7]),
    ReadsAt(7, &[8, 9, 10, 11, 12]),
];

// Ranges that are empty, or pass the end, are refused.
const PAST_TWELVE: &[Act] = &[
    Bars(0, 0, Refused::Range),
    Bars(12, 0, Refused::Range),
    Bars(0, 13, Refused::Range),
    Bars(12, 1, Refused::Range),
    Bars(11, 2, Refused::Range),
    Bars(u16::MAX, 1, Refused::Range),
    ReadsAt(0, &[1, 2, 3, 4, 5, 6, 7, 8]),
];

const RANGES_END_WITH_THE_OBJECT_PLAYS: &[Play] = &[Play {
    scene: Acts(&[TWELVE, PAST_TWELVE]),
    ..ONE
}];

#[test]
fn ranges_end_with_the_object(rt: HostRuntime) {
    holds(&rt, rt.alloc(), RANGES_END_WITH_THE_OBJECT_PLAYS);
}

// The last bytes of the longest object are read and written as the first ones are.
const LAST_BYTES: &[Act] = &[
    Makes(4088, Ok(0)),
    Opens,
    Keeps(0),
    Kept(0, 4088),
    WritesAt(4080, &EIGHT),
    WritesAt(4087, &[9]),
    ReadsAt(4075, &[0, 0, 0, 0, 0, 1, 2, 3, 4, 5, 6, 7, 9]),
    Reads(0, ZEROS),
    Bars(4080, 9, Refused::Range),
    Bars(4088, 1, Refused::Range),
];

const THE_LONGEST_OBJECT_IS_READ_TO_ITS_END_PLAYS: &[Play] = &[Play {
    scene: Acts(&[LAST_BYTES]),
    ..ONE
}];

#[test]
fn the_longest_object_is_read_to_its_end(rt: HostRuntime) {
    holds(&rt, rt.alloc(), THE_LONGEST_OBJECT_IS_READ_TO_ITS_END_PLAYS);
}

// A view of a scope that is closed then.
const EARLIER_VIEW: &[Act] = &[Makes(8, Ok(0)), Opens, Keeps(0), Closes];

const WRITTEN: &[Act] = &[Opens, Writes(0, EIGHT), Closes];

// In a later scope that view is refused, also for a range that is out of the object, until this scope views the pointer too.
const LATER_SCOPE: &[Act] = &[
    Opens,
    Bars(0, 8, Refused::NotHeld),
    Bars(0, 0, Refused::NotHeld),
    Bars(9, 1, Refused::NotHeld),
    Reads(0, EIGHT),
    ReadsAt(0, &[1, 2, 3, 4, 5, 6, 7, 8]),
    WritesAt(4, &[9]),
    Reads(0, [1, 2, 3, 4, 9, 6, 7, 8]),
];

const A_VIEW_ENDS_WITH_ITS_SCOPE_PLAYS: &[Play] = &[Play {
    scene: Acts(&[EARLIER_VIEW, WRITTEN, LATER_SCOPE]),
    ..ONE
}];

#[test]
fn a_view_ends_with_its_scope(rt: HostRuntime) {
    holds(&rt, rt.alloc(), A_VIEW_ENDS_WITH_ITS_SCOPE_PLAYS);
}

// The view of an object that is gone is a view of the pointer's next object, which is longer.
const NEXT_OBJECT: &[Act] = &[
    Drops(0, Ok(())),
    Makes(16, Ok(0)),
    Opens,
    Bars(0, 8, Refused::NotHeld),
    Reads(0, ZEROS),
    ReadsAt(0, &ZEROS),
    WritesAt(15, &[1]),
    Bars(16, 1, Refused::Range),
];

const A_VIEW_IS_OF_A_POINTER_PLAYS: &[Play] = &[Play {
    scene: Acts(&[EARLIER_VIEW, WRITTEN, NEXT_OBJECT]),
    ..ONE
}];

#[test]
fn a_view_is_of_a_pointer(rt: HostRuntime) {
    holds(&rt, rt.alloc(), A_VIEW_IS_OF_A_POINTER_PLAYS);
}
