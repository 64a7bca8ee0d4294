//! A scope that opens at an epoch from before the round, once the book has looked at it.

use crate::tests::acts::Act;
use crate::tests::acts::Act::*;
use crate::tests::pairs::pair_plays;
use far_word::{LONGEST, Mark, Place};

// Two objects are placed, and the owner reads the epoch. A round begins, in which the owner is seen clear. The owner, whose scope opens late,
// finds the mark and has the object moved.
const STALE_EPOCH: &[Act] = &[
    Makes(8, 0),
    Makes(LONGEST, 1),
    ReadsEpoch(0),
    Marked(0, 0x8600_0000_0001_0008),
    Advances(1),
    Looks(0),
    Opens,
    Finds(0, 0xa600_0000_0001_0008),
    Asks(0, Mark::Moved, 0xe600_0000_0001_0008),
    Moves(0),
    PinsAt(0, Place { log: 2, at: 0 }),
];

#[test]
fn stale_epoch_on_seats(rt: HostRuntime) {
    assert!(rt; pair_plays(&rt, STALE_EPOCH));
}
