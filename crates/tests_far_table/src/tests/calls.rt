//! Each call, by each kind of answer.

use crate::tests::goes_on;
use crate::tests::owner::Act;
use crate::tests::owner::Act::*;
use far_core::{Event, Reply, Shape};
use far_word::Mark::{Dropped, Moved};
use far_word::Place;

const ONE: Shape = Shape {
    logs: 4,
    mutators: 1,
    epoch: 5,
};

/// An object of 9 bytes of pointer 0, which its owner doesn't use.
#[rattlefmt::skip]
const PLACED: &[(Event, Reply)] = &[
    (Event::Put { log: 0, at: 0, word: 0xa200_0000_0100_0009 }, Reply::Done),
    (Event::Name { pointer: 0, old: 0, new: 0x8600_0000_0001_0009 }, Reply::Done),
];

const VIEWED: &[(Act, Reply)] = &[
    (Adopt, Reply::Word(0x8600_0000_0001_0009)),
    (ReadEpoch, Reply::Epoch(5)),
    (Open, Reply::Done),
    (Pin, Reply::Held(Place { log: 0, at: 0 })),
    (Load(0), Reply::Word(0)),
    (Load(1), Reply::Word(0)),
    (Store(0, 1), Reply::Refused),
    (Soil, Reply::Word(0xc600_0000_0001_0009)),
    (Store(0, 0x0807_0605_0403_0201), Reply::Done),
    (Store(1, 9), Reply::Done),
    (Load(0), Reply::Word(0x0807_0605_0403_0201)),
    (Load(1), Reply::Word(9)),
    (Close, Reply::Done),
    (ReadEpoch, Reply::Epoch(5)),
    (ReadEpoch, Reply::Epoch(5)),
    (Open, Reply::Done),
    (Pin, Reply::Held(Place { log: 0, at: 0 })),
    (Load(0), Reply::Word(0x0807_0605_0403_0201)),
    (Load(1), Reply::Word(9)),
];

#[test]
fn an_object_is_viewed(rt: HostRuntime) {
    assert!(rt; goes_on(rt.alloc(), ONE, PLACED, 0, VIEWED));
}

const ASKED_FOR: &[(Act, Reply)] = &[
    (Adopt, Reply::Word(0x8600_0000_0001_0009)),
    (Ask(Moved), Reply::Word(0x8600_0000_0001_0009)),
    (Ask(Moved), Reply::Word(0x9600_0000_0001_0009)),
    (ReadEpoch, Reply::Epoch(5)),
    (Open, Reply::Done),
    (Pin, Reply::Word(0x9600_0000_0001_0009)),
    (Pin, Reply::Word(0xd600_0000_0001_0009)),
    (Ask(Dropped), Reply::Word(0xd600_0000_0001_0009)),
    (Adopt, Reply::Refused),
    (Close, Reply::Done),
    (Adopt, Reply::Refused),
];

#[test]
fn an_object_is_asked_for(rt: HostRuntime) {
    assert!(rt; goes_on(rt.alloc(), ONE, PLACED, 0, ASKED_FOR));
}

// A free cell is no object's.
#[test]
fn a_free_cell_is_not_adopted(rt: HostRuntime) {
    assert!(rt; goes_on(rt.alloc(), ONE, &[], 0, &[(Adopt, Reply::Refused)]));
}
