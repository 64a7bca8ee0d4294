//! How many tests begin.

use crate::tests::acts::Act;
use crate::tests::acts::Act::*;
use far_core::Event::*;
use far_core::Reply::*;
use far_word::Place;

/// On a core of two owners: owner 0 holds an object of 9 bytes, has one that it doesn't hold and one that it doesn't use, and
/// owner 1, closed, uses one. The open log's tail is 9.
#[rattlefmt::skip]
pub(super) const PEOPLED: &[Act] = &[
    Does(Put { log: 0, at: 0, word: 0xa200_0000_0100_0009 }, Done),
    Does(Name { pointer: 0, old: 0, new: 0x8600_0000_0001_0009 }, Done),
    Does(Put { log: 0, at: 3, word: 0xa200_0001_0100_0008 }, Done),
    Does(Name { pointer: 1, old: 0, new: 0x8600_0000_0301_0008 }, Done),
    Does(Put { log: 0, at: 5, word: 0xa200_0100_0100_0008 }, Done),
    Does(Name { pointer: 256, old: 0, new: 0x8600_0000_0501_0008 }, Done),
    Does(Put { log: 0, at: 7, word: 0xa200_0002_0100_0008 }, Done),
    Does(Name { pointer: 2, old: 0, new: 0x8600_0000_0701_0008 }, Done),
    Does(Adopt { owner: 0, pointer: 0 }, Word(0x8600_0000_0001_0009)),
    Does(Adopt { owner: 0, pointer: 2 }, Word(0x8600_0000_0701_0008)),
    Does(Adopt { owner: 1, pointer: 256 }, Word(0x8600_0000_0501_0008)),
    Does(ReadEpoch { owner: 0 }, Epoch(5)),
    Does(Open { owner: 0 }, Done),
    Does(Pin { owner: 0, pointer: 0 }, Held(Place { log: 0, at: 0 })),
    Does(Soil { owner: 0, pointer: 0 }, Word(0xc600_0000_0001_0009)),
    Does(Store { owner: 0, pointer: 0, index: 0, word: 0x0807_0605_0403_0201 }, Done),
    Does(Store { owner: 0, pointer: 0, index: 1, word: 9 }, Done),
];

/// The header of pointer 0's object of 8 bytes, its cell, and the cell of pointer 1's.
pub(super) const HEADER: u64 = 0xa200_0000_0100_0008;

pub(super) const NEAR: u64 = 0x8600_0000_0001_0008;

pub(super) const NEXT: u64 = 0x8600_0004_0001_0008;

/// Log 0, sealed, has pointer 0's object, which its owner uses, and log 1 is open, with pointer 1's.
#[rattlefmt::skip]
pub(super) const SETTLED: &[Act] = &[
    Does(Put { log: 0, at: 0, word: HEADER }, Done),
    Does(Name { pointer: 0, old: 0, new: NEAR }, Done),
    Does(Put { log: 1, at: 0, word: 0xa200_0001_0100_0008 }, Done),
    Does(Name { pointer: 1, old: 0, new: NEXT }, Done),
    Does(Adopt { owner: 0, pointer: 0 }, Word(NEAR)),
];
