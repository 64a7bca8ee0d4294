//! A core that is shared in the midst of a round, and owners that go on from there.

use crate::tests::goes_on;
use crate::tests::owner::Act;
use crate::tests::owner::Act::*;
use far_core::{Event, Reply, Shape};
use far_word::Mark::{Dropped, Moved};
use far_word::Place;

const FIVE: Shape = Shape {
    logs: 4,
    mutators: 5,
    epoch: 5,
};

/// Log 0 is in a round that has epoch 6. Owner 0 views its object there, and has stored a word; that of owner 1 is
/// far, with a word; owner 2 has dropped its own; those of owners 3 and 4 are marked, and owner 4 doesn't use it yet.
#[rattlefmt::skip]
const IN_A_ROUND: &[(Event, Reply)] = &[
    (Event::Put { log: 0, at: 0, word: 0xa200_0000_0100_0008 }, Reply::Done),
    (Event::Name { pointer: 0, old: 0, new: 0x8600_0000_0001_0008 }, Reply::Done),
    (Event::Put { log: 0, at: 2, word: 0xa200_0100_0100_0008 }, Reply::Done),
    (Event::Name { pointer: 256, old: 0, new: 0x8600_0000_0201_0008 }, Reply::Done),
    (Event::Put { log: 0, at: 4, word: 0xa200_0200_0100_0008 }, Reply::Done),
    (Event::Name { pointer: 512, old: 0, new: 0x8600_0000_0401_0008 }, Reply::Done),
    (Event::Put { log: 0, at: 6, word: 0xa200_0300_0100_0008 }, Reply::Done),
    (Event::Name { pointer: 768, old: 0, new: 0x8600_0000_0601_0008 }, Reply::Done),
    (Event::Put { log: 0, at: 8, word: 0xa200_0400_0100_0008 }, Reply::Done),
    (Event::Name { pointer: 1024, old: 0, new: 0x8600_0000_0801_0008 }, Reply::Done),
    (Event::Put { log: 1, at: 0, word: 0xa200_0001_0100_0008 }, Reply::Done),
    (Event::Name { pointer: 1, old: 0, new: 0x8600_0004_0001_0008 }, Reply::Done),
    (Event::Adopt { owner: 0, pointer: 0 }, Reply::Word(0x8600_0000_0001_0008)),
    (Event::Adopt { owner: 1, pointer: 256 }, Reply::Word(0x8600_0000_0201_0008)),
    (Event::Adopt { owner: 2, pointer: 512 }, Reply::Word(0x8600_0000_0401_0008)),
    (Event::Adopt { owner: 3, pointer: 768 }, Reply::Word(0x8600_0000_0601_0008)),

    (Event::ReadEpoch { owner: 0 }, Reply::Epoch(5)),
    (Event::Open { owner: 0 }, Reply::Done),
    (Event::Pin { owner: 0, pointer: 0 }, Reply::Held(Place { log: 0, at: 0 })),
    (Event::Soil { owner: 0, pointer: 0 }, Reply::Word(0xc600_0000_0001_0008)),
    (Event::Store { owner: 0, pointer: 0, index: 0, word: 0xaa }, Reply::Done),
    (Event::ReadEpoch { owner: 1 }, Reply::Epoch(5)),
    (Event::Open { owner: 1 }, Reply::Done),
    (Event::Pin { owner: 1, pointer: 256 }, Reply::Held(Place { log: 0, at: 2 })),
    (Event::Soil { owner: 1, pointer: 256 }, Reply::Word(0xc600_0000_0201_0008)),
    (Event::Store { owner: 1, pointer: 256, index: 0, word: 0xbb }, Reply::Done),
    (Event::Close { owner: 1 }, Reply::Done),
    (Event::Ask { owner: 2, pointer: 512, mark: Dropped }, Reply::Word(0x8600_0000_0401_0008)),

    (Event::Mark { pointer: 0 }, Reply::Word(0xc600_0000_0001_0008)),
    (Event::Mark { pointer: 256 }, Reply::Word(0xc600_0000_0201_0008)),
    (Event::Mark { pointer: 512 }, Reply::Word(0x8e00_0000_0401_0008)),
    (Event::Mark { pointer: 768 }, Reply::Word(0x8600_0000_0601_0008)),
    (Event::Mark { pointer: 1024 }, Reply::Word(0x8600_0000_0801_0008)),
    (Event::Advance { logs: 1 }, Reply::Epoch(6)),
    (Event::Look { owner: 1 }, Reply::Word(0)),
    (Event::Name { pointer: 256, old: 0xe600_0000_0201_0008, new: 0x0400_0000_0001_0008 }, Reply::Done),
];

const HELD_ON: &[(Act, Reply)] = &[
    (Load(0), Reply::Word(0xaa)),
    (Store(0, 0xcc), Reply::Done),
    (Load(0), Reply::Word(0xcc)),
    (Close, Reply::Done),
    (ReadEpoch, Reply::Epoch(6)),
    (Open, Reply::Done),
    (Pin, Reply::Word(0xe600_0000_0001_0008)),
    (Ask(Moved), Reply::Word(0xe600_0000_0001_0008)),
    (Pin, Reply::Word(0xf600_0000_0001_0008)),
    (Close, Reply::Done),
];

#[test]
fn a_view_is_held_on(rt: HostRuntime) {
    assert!(rt; goes_on(rt.alloc(), FIVE, IN_A_ROUND, 0, HELD_ON));
}

const FAR: &[(Act, Reply)] = &[
    (Pin, Reply::Refused),
    (ReadEpoch, Reply::Epoch(6)),
    (Open, Reply::Done),
    (Pin, Reply::Word(0x0400_0000_0001_0008)),
    (Pin, Reply::Word(0x4400_0000_0001_0008)),
    (Ask(Moved), Reply::Word(0x4400_0000_0001_0008)),
    (Pin, Reply::Word(0x5400_0000_0001_0008)),
    (Close, Reply::Done),
];

#[test]
fn a_far_object_is_not_held(rt: HostRuntime) {
    assert!(rt; goes_on(rt.alloc(), FIVE, IN_A_ROUND, 1, FAR));
}

const DROPPED: &[(Act, Reply)] = &[
    (Adopt, Reply::Refused),
    (ReadEpoch, Reply::Epoch(6)),
    (Open, Reply::Done),
    (Pin, Reply::Refused),
    (Adopt, Reply::Refused),
    (Close, Reply::Done),
];

#[test]
fn a_dropped_object_is_not_adopted(rt: HostRuntime) {
    assert!(rt; goes_on(rt.alloc(), FIVE, IN_A_ROUND, 2, DROPPED));
}

const MARKED: &[(Act, Reply)] = &[
    (ReadEpoch, Reply::Epoch(6)),
    (Open, Reply::Done),
    (Pin, Reply::Word(0xa600_0000_0601_0008)),
    (Pin, Reply::Word(0xe600_0000_0601_0008)),
    (Ask(Dropped), Reply::Word(0xe600_0000_0601_0008)),
    (Adopt, Reply::Refused),
    (Close, Reply::Done),
];

#[test]
fn a_marked_object_is_not_held(rt: HostRuntime) {
    assert!(rt; goes_on(rt.alloc(), FIVE, IN_A_ROUND, 3, MARKED));
}

const ADOPTED: &[(Act, Reply)] = &[
    (Adopt, Reply::Word(0xa600_0000_0801_0008)),
    (ReadEpoch, Reply::Epoch(6)),
    (Open, Reply::Done),
    (Pin, Reply::Word(0xa600_0000_0801_0008)),
    (Close, Reply::Done),
];

#[test]
fn a_marked_object_is_adopted(rt: HostRuntime) {
    assert!(rt; goes_on(rt.alloc(), FIVE, IN_A_ROUND, 4, ADOPTED));
}
