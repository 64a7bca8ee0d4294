//! Whether values of the public types that differ compare as different. All other tests rest on it.

use far_core::{Kind, Naming, Reply, Shape};
use far_word::Place;

/// Whether a value is equal to that of the same number among these, and to no other.
fn is_alone<T: PartialEq>(values: &[T], index: usize, one: &T) -> bool {
    for (at, other) in values.iter().enumerate() {
        if (one == other) != (at == index) || (one != other) != (at != index) {
            return false;
        }
    }
    true
}

/// Whether no two of these values are equal.
fn all_differ<T: PartialEq>(values: &[T]) -> bool {
    for (index, one) in values.iter().enumerate() {
        if !is_alone(values, index, one) {
            return false;
        }
    }
    true
}

const START: Place = Place { log: 0, at: 0 };

const NEXT_LOG: Place = Place { log: 1, at: 0 };

const NEXT_WORD: Place = Place { log: 0, at: 1 };

const REPLIES: &[Reply] = &[
    Reply::Refused,
    Reply::Done,
    Reply::Epoch(0),
    Reply::Epoch(1),
    Reply::Epoch(1 << 63),
    Reply::Word(0),
    Reply::Word(1),
    Reply::Word(1 << 63),
    Reply::Held(Place { log: 0, at: 0 }),
    Reply::Held(Place { log: 1, at: 0 }),
    Reply::Held(Place { log: 0, at: 1 }),
];

#[test]
fn replies_differ(rt: HostRuntime) {
    assert!(rt; all_differ(REPLIES));
}

#[rattlefmt::skip]
const NAMINGS: &[Naming] = &[
    Naming::Retires,
    Naming::Moves { len: 8, ds: 1, from: START, to: NEXT_LOG },
    Naming::Moves { len: 9, ds: 1, from: START, to: NEXT_LOG },
    Naming::Moves { len: 8, ds: 2, from: START, to: NEXT_LOG },
    Naming::Moves { len: 8, ds: 1, from: Place { log: 2, at: 0 }, to: NEXT_LOG },
    Naming::Moves { len: 8, ds: 1, from: NEXT_WORD, to: NEXT_LOG },
    Naming::Moves { len: 8, ds: 1, from: START, to: Place { log: 2, at: 0 } },
    Naming::Moves { len: 8, ds: 1, from: START, to: Place { log: 1, at: 1 } },
    Naming::Fetches { len: 8, ds: 1, place: START },
    Naming::Fetches { len: 9, ds: 1, place: START },
    Naming::Fetches { len: 8, ds: 2, place: START },
    Naming::Fetches { len: 8, ds: 1, place: NEXT_LOG },
    Naming::Fetches { len: 8, ds: 1, place: NEXT_WORD },
    Naming::Stays,
    Naming::Evicts { len: 8, place: START },
    Naming::Evicts { len: 9, place: START },
    Naming::Evicts { len: 8, place: NEXT_LOG },
    Naming::Evicts { len: 8, place: NEXT_WORD },
    Naming::Places { len: 8, ds: 1, place: START },
    Naming::Places { len: 9, ds: 1, place: START },
    Naming::Places { len: 8, ds: 2, place: START },
    Naming::Places { len: 8, ds: 1, place: NEXT_LOG },
    Naming::Places { len: 8, ds: 1, place: NEXT_WORD },
];

#[test]
fn namings_differ(rt: HostRuntime) {
    assert!(rt; all_differ(NAMINGS));
}

#[test]
fn kinds_differ(rt: HostRuntime) {
    assert!(rt; all_differ(&[Kind::Free, Kind::Open, Kind::Sealed]));
}

#[rattlefmt::skip]
const SHAPES: &[Shape] = &[
    Shape { logs: 0, mutators: 0, epoch: 0 },
    Shape { logs: 1, mutators: 0, epoch: 0 },
    Shape { logs: 0, mutators: 1, epoch: 0 },
    Shape { logs: 0, mutators: 0, epoch: 1 },
];

#[test]
fn shapes_differ(rt: HostRuntime) {
    assert!(rt; all_differ(SHAPES));
}
