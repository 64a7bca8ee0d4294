//! Each event with its guard false, in each way.

use crate::tests::acts::Act::*;
use crate::tests::acts::{Act, Play, TWO_OWNERS};
use crate::tests::peopled::PEOPLED;
use crate::tests::stage::play;
use far_core::Event::*;
use far_core::Kind;
use far_core::Reply::*;

const SCOPES: &[Act] = &[Refuses(&[
    ReadEpoch { owner: 0 },
    ReadEpoch { owner: 2 },
    ReadEpoch { owner: 255 },
    Open { owner: 0 },
    Open { owner: 1 },
    Open { owner: 2 },
    Open { owner: 255 },
    Close { owner: 1 },
    Close { owner: 2 },
    Close { owner: 255 },
])];

#[rattlefmt::skip]
const VIEWS: &[Act] = &[
    Refuses(&[
        Pin { owner: 0, pointer: 0 },
        Pin { owner: 0, pointer: 1 },
        Pin { owner: 0, pointer: 3 },
        Pin { owner: 0, pointer: 256 },
        Pin { owner: 1, pointer: 256 },
        Pin { owner: 1, pointer: 2 },
        Pin { owner: 2, pointer: 512 },
        Pin { owner: 0, pointer: u16::MAX },
        Load { owner: 0, pointer: 0, index: 2 },
        Load { owner: 0, pointer: 0, index: u16::MAX },
        Load { owner: 0, pointer: 1, index: 0 },
        Load { owner: 0, pointer: 2, index: 0 },
        Load { owner: 1, pointer: 0, index: 0 },
        Load { owner: 1, pointer: 256, index: 0 },
        Load { owner: 2, pointer: 512, index: 0 },
        Load { owner: 255, pointer: u16::MAX, index: 0 },
    ]),
];

#[rattlefmt::skip]
const STORES: &[Act] = &[
    Refuses(&[
        Store { owner: 0, pointer: 0, index: 1, word: 0x100 },
        Store { owner: 0, pointer: 0, index: 1, word: u64::MAX },
        Store { owner: 0, pointer: 0, index: 2, word: 0 },
        Store { owner: 0, pointer: 0, index: 2, word: 1 },
        Store { owner: 0, pointer: 0, index: u16::MAX, word: 1 },
        Store { owner: 0, pointer: 2, index: 0, word: 1 },
        Store { owner: 1, pointer: 0, index: 0, word: 1 },
        Store { owner: 1, pointer: 256, index: 0, word: 1 },
        Store { owner: 2, pointer: 512, index: 0, word: 1 },
        Store { owner: 255, pointer: u16::MAX, index: 0, word: 1 },
        Soil { owner: 0, pointer: 2 },
        Soil { owner: 1, pointer: 0 },
        Soil { owner: 1, pointer: 256 },
        Soil { owner: 2, pointer: 512 },
        Soil { owner: 255, pointer: u16::MAX },
    ]),
];

#[rattlefmt::skip]
const ADOPTIONS: &[Act] = &[
    Refuses(&[
        Adopt { owner: 0, pointer: 0 },
        Adopt { owner: 0, pointer: 3 },
        Adopt { owner: 1, pointer: 1 },
        Adopt { owner: 2, pointer: 1 },
        Adopt { owner: 2, pointer: 512 },
        Adopt { owner: 255, pointer: u16::MAX },
    ]),
];

#[rattlefmt::skip]
const PUTS: &[Act] = &[
    Refuses(&[
        Put { log: 0, at: 0, word: 0 },
        Put { log: 0, at: 1, word: 0 },
        Put { log: 0, at: 8, word: 1 },
        Put { log: 0, at: 512, word: 0 },
        Put { log: 3, at: u16::MAX, word: 0 },
        Put { log: 4, at: 0, word: 0 },
        Put { log: 255, at: 511, word: 0 },
    ]),
];

#[rattlefmt::skip]
const NAMES_NOTHING: &[Act] = &[
    Does(Put { log: 0, at: 9, word: 0xa200_0003_0100_0008 }, Done),
    Refuses(&[
        Name { pointer: 3, old: 1, new: 0x8600_0000_0901_0008 },
        Name { pointer: 3, old: 0x8600_0000_0901_0008, new: 0x8600_0000_0901_0008 },
        Name { pointer: 3, old: 0, new: 0 },
        Name { pointer: 3, old: 0, new: 0x0000_0000_0001_0008 },
        Name { pointer: 3, old: 0, new: 0x8600_0000_0001_0000 },
        Name { pointer: 3, old: 0, new: 0x8600_0000_0001_0ff9 },
        Name { pointer: 3, old: 0, new: 0x8600_0001_ff01_0008 },
        Name { pointer: 3, old: 0, new: 0x0400_0000_0001_0008 },
        Name { pointer: 3, old: 0, new: 0x0400_0000_0101_0008 },
        Name { pointer: 3, old: 0, new: 0x2400_0000_0001_0008 },
        Name { pointer: 3, old: 0, new: 0xc600_0000_0901_0008 },
        Name { pointer: 3, old: 0, new: 0xa600_0000_0901_0008 },
        Name { pointer: 3, old: 0, new: 0x9600_0000_0901_0008 },
        Name { pointer: 3, old: 0, new: 0x8e00_0000_0901_0008 },
        Name { pointer: 3, old: 0, new: 0x8600_0000_0901_0007 },
        Name { pointer: 3, old: 0, new: 0x8600_0000_0902_0008 },
        Name { pointer: 4, old: 0, new: 0x8600_0000_0901_0008 },
        Name { pointer: u16::MAX, old: 0, new: 0x8600_0000_0901_0008 },
        Name { pointer: 2, old: 0x8600_0000_0701_0008, new: 0x8600_0000_0901_0008 },
        Name { pointer: 2, old: 0x8600_0000_0701_0008, new: 0 },
    ]),
    Does(Name { pointer: 3, old: 0, new: 0x8600_0000_0901_0008 }, Done),
];

#[rattlefmt::skip]
const NOT_NEXT: &[Act] = &[
    Does(Put { log: 0, at: 11, word: 0xa200_0003_0100_0008 }, Done),
    Does(Put { log: 1, at: 1, word: 0xa200_0003_0100_0008 }, Done),
    Does(Put { log: 0, at: 9, word: 0xa200_0200_0100_0008 }, Done),
    Refuses(&[
        Name { pointer: 3, old: 0, new: 0x8600_0000_0b01_0008 },
        Name { pointer: 3, old: 0, new: 0x8600_0004_0101_0008 },
        Name { pointer: 3, old: 0, new: 0x8600_0004_0001_0008 },
        Name { pointer: 3, old: 0, new: 0x8600_0010_0001_0008 },
        Name { pointer: 512, old: 0, new: 0x8600_0000_0901_0008 },
        Name { pointer: 2, old: 0, new: 0x8600_0000_0701_0008 },
        Name { pointer: 1, old: 0, new: 0x8600_0000_0301_0008 },
    ]),
];

#[rattlefmt::skip]
const NOT_ZERO: &[Act] = &[
    Does(Put { log: 0, at: 9, word: 0xa200_0003_0100_0009 }, Done),
    Does(Put { log: 0, at: 10, word: 1 }, Done),
    Refuses(&[Name { pointer: 3, old: 0, new: 0x8600_0000_0901_0009 }]),
    Does(Put { log: 0, at: 10, word: 0 }, Done),
    Does(Put { log: 0, at: 11, word: 1 << 63 }, Done),
    Refuses(&[Name { pointer: 3, old: 0, new: 0x8600_0000_0901_0009 }]),
    Does(Put { log: 0, at: 11, word: 0 }, Done),
    Does(Put { log: 0, at: 12, word: 1 }, Done),
    Does(Name { pointer: 3, old: 0, new: 0x8600_0000_0901_0009 }, Done),
    Log(0, Kind::Open, 12),
];

#[rattlefmt::skip]
const SEALED: &[Act] = &[
    Does(Put { log: 0, at: 9, word: 0xa200_0004_0100_0008 }, Done),
    Does(Put { log: 2, at: 0, word: 0xa200_0003_0100_0008 }, Done),
    Does(Name { pointer: 3, old: 0, new: 0x8600_0008_0001_0008 }, Done),
    Log(0, Kind::Sealed, 9),
    OpenLog(2),
    Refuses(&[
        Name { pointer: 4, old: 0, new: 0x8600_0000_0901_0008 },
        Put { log: 0, at: 9, word: 0 },
        Put { log: 0, at: 511, word: 0 },
    ]),
];

/// The parts that come first.
const FIRSTS: &[&[Act]] = &[PEOPLED];

#[rattlefmt::skip]
const PLAYS: &[Play] = &[
    Play { name: "scopes_refuse", shape: TWO_OWNERS, honest: true, after: 1, parts: &[SCOPES] },
    Play { name: "views_refuse", shape: TWO_OWNERS, honest: true, after: 1, parts: &[VIEWS] },
    Play { name: "stores_refuse", shape: TWO_OWNERS, honest: true, after: 1, parts: &[STORES] },
    Play { name: "adoptions_refuse", shape: TWO_OWNERS, honest: true, after: 1, parts: &[ADOPTIONS] },
    Play { name: "puts_refuse", shape: TWO_OWNERS, honest: true, after: 1, parts: &[PUTS] },
    Play { name: "words_that_name_nothing_refuse", shape: TWO_OWNERS, honest: true, after: 1, parts: &[NAMES_NOTHING] },
    Play { name: "places_that_are_not_next_refuse", shape: TWO_OWNERS, honest: true, after: 1, parts: &[NOT_NEXT] },
    Play { name: "data_that_is_not_zero_refuses", shape: TWO_OWNERS, honest: true, after: 1, parts: &[NOT_ZERO] },
    Play { name: "sealed_log_refuses", shape: TWO_OWNERS, honest: true, after: 1, parts: &[SEALED] },
];

#[test]
fn events_are_refused(rt: HostRuntime) {
    play(&rt, rt.alloc(), FIRSTS, PLAYS);
}
