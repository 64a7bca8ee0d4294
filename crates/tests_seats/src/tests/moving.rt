//! An object goes far and comes back.

use crate::tests::acts::Act;
use crate::tests::acts::Act::*;
use crate::tests::pairs::pair_plays;
use far_word::{LONGEST, Mark};

// An object is written in a scope of its own. It is marked once its log is sealed, and its owner asks for it. It goes far and comes back, and is read.
const AWAY_AND_BACK: &[Act] = &[
    Makes(8, 0),
    ReadsEpoch(0),
    Opens,
    Pins(0),
    Stores(0, 0xaa),
    Closes,
    Makes(LONGEST, 1),
    Marked(0, 0xc600_0000_0001_0008),
    Asks(0, Mark::Moved, 0xe600_0000_0001_0008),
    Evicts(0),
    Sees(0, 0x0400_0000_0001_0008),
    Fetches(0),
    Sees(0, 0x8400_0008_0001_0008),
    ReadsEpoch(0),
    Opens,
    Pins(0),
    Loads(0, 0xaa),
];

#[test]
fn away_and_back(rt: HostRuntime) {
    assert!(rt; pair_plays(&rt, AWAY_AND_BACK));
}
