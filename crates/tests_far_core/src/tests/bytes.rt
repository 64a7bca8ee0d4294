//! Bytes of an object, from any on.

use crate::tests::acts::Act::*;
use crate::tests::acts::{Act, Play, SMALL, TWO_OWNERS};
use crate::tests::looks::shows;
use crate::tests::stage::play;
use far_core::Core;
use far_core::Event::*;
use far_core::Reply::*;
use far_word::{LOG_WORDS, Place, PtrWord};

/// As many bytes as an object has at most.
const MOST: usize = 4088;

/// Whether owner 0 stores these bytes in the first object, from one on.
fn stores_bytes(core: &mut Core, from: u16, bytes: &[u8]) -> bool {
    if !core.is_soiled(0) {
        return false;
    }
    let Some(PtrWord::Near { len, .. }) = PtrWord::read(core.cell(0)) else {
        return false;
    };
    if from > len || bytes.len() > (len - from) as usize {
        return false;
    }
    core.store_bytes(0, 0, from, bytes);
    true
}

/// Whether it loads these bytes of it, from one on.
fn has_bytes(core: &Core, from: u16, bytes: &[u8]) -> bool {
    if !core.is_held(0) {
        return false;
    }
    let Some(PtrWord::Near { len, .. }) = PtrWord::read(core.cell(0)) else {
        return false;
    };
    let mut row = [0xee; MOST];
    if from > len || bytes.len() > (len - from) as usize || bytes.len() > row.len() {
        return false;
    }
    let found = &mut row[..bytes.len()];
    core.load_bytes(0, 0, from, found);
    &*found == bytes
}

/// Whether the words from a place on have these bytes, from one on.
fn gets_bytes(core: &Core, place: Place, from: u16, bytes: &[u8]) -> bool {
    if place.log >= core.logs() || place.at >= LOG_WORDS || from > 8 * (LOG_WORDS - place.at) {
        return false;
    }
    let mut row = [0xee; MOST];
    if bytes.len() > (8 * (LOG_WORDS - place.at) - from) as usize || bytes.len() > row.len() {
        return false;
    }
    let found = &mut row[..bytes.len()];
    core.get_bytes(place, from, found);
    &*found == bytes
}

/// Bytes that tell their places in an object, from one on: each is its number's remainder by 251, so a shift shows.
fn told_from(from: u16) -> [u8; MOST] {
    let mut row = [0; MOST];
    for i in 0..MOST {
        row[i] = ((from as usize + i) % 251) as u8;
    }
    row
}

/// Whether owner 0 stores so many bytes in the first object, from one on, each of which tells its place.
fn stores_told(core: &mut Core, from: u16, count: u16) -> bool {
    count as usize <= MOST && stores_bytes(core, from, &told_from(from)[..count as usize])
}

/// Whether it loads such bytes.
fn has_told(core: &Core, from: u16, count: u16) -> bool {
    count as usize <= MOST && has_bytes(core, from, &told_from(from)[..count as usize])
}

/// What is done with bytes comes out as it should, or a look does.
pub(super) fn does_bytes(core: &mut Core, act: Act) -> bool {
    match act {
        Act::StoresBytes(from, bytes) => stores_bytes(core, from, bytes),
        Act::HasBytes(from, bytes) => has_bytes(core, from, bytes),
        Act::GetsBytes(place, from, bytes) => gets_bytes(core, place, from, bytes),
        Act::StoresTold(from, count) => stores_told(core, from, count),
        Act::HasTold(from, count) => has_told(core, from, count),
        _ => shows(core, act),
    }
}

const AT: Place = Place { log: 0, at: 2 };

/// Owner 0 holds and has soiled three objects that follow each other: of 8 bytes, of 20, and of 8.
#[rattlefmt::skip]
const THREE_MADE: &[Act] = &[
    Does(Put { log: 0, at: 0, word: 0xa200_0001_0100_0008 }, Done),
    Does(Name { pointer: 1, old: 0, new: 0x8600_0000_0001_0008 }, Done),
    Does(Put { log: 0, at: 2, word: 0xa200_0000_0100_0014 }, Done),
    Does(Name { pointer: 0, old: 0, new: 0x8600_0000_0201_0014 }, Done),
    Does(Put { log: 0, at: 6, word: 0xa200_0002_0100_0008 }, Done),
    Does(Name { pointer: 2, old: 0, new: 0x8600_0000_0601_0008 }, Done),
    Does(Adopt { owner: 0, pointer: 0 }, Word(0x8600_0000_0201_0014)),
    Does(Adopt { owner: 0, pointer: 1 }, Word(0x8600_0000_0001_0008)),
    Does(Adopt { owner: 0, pointer: 2 }, Word(0x8600_0000_0601_0008)),
];

#[rattlefmt::skip]
const THREE_HELD: &[Act] = &[
    Does(ReadEpoch { owner: 0 }, Epoch(5)),
    Does(Open { owner: 0 }, Done),
    Does(Pin { owner: 0, pointer: 0 }, Held(AT)),
    Does(Pin { owner: 0, pointer: 1 }, Held(Place { log: 0, at: 0 })),
    Does(Pin { owner: 0, pointer: 2 }, Held(Place { log: 0, at: 6 })),
    Does(Soil { owner: 0, pointer: 0 }, Word(0xc600_0000_0201_0014)),
    Does(Soil { owner: 0, pointer: 1 }, Word(0xc600_0000_0001_0008)),
    Does(Soil { owner: 0, pointer: 2 }, Word(0xc600_0000_0601_0008)),
    Does(Store { owner: 0, pointer: 1, index: 0, word: 0xaaaa_aaaa_aaaa_aaaa }, Done),
    Does(Store { owner: 0, pointer: 2, index: 0, word: 0xbbbb_bbbb_bbbb_bbbb }, Done),
];

/// What lies beside the object of 20 bytes: its header, and both others.
#[rattlefmt::skip]
const BESIDE: &[Act] = &[
    WordAt(Place { log: 0, at: 0 }, 0xa200_0001_0100_0008),
    WordAt(Place { log: 0, at: 1 }, 0xaaaa_aaaa_aaaa_aaaa),
    WordAt(AT, 0xa200_0000_0100_0014),
    WordAt(Place { log: 0, at: 6 }, 0xa200_0002_0100_0008),
    WordAt(Place { log: 0, at: 7 }, 0xbbbb_bbbb_bbbb_bbbb),
    WordAt(Place { log: 0, at: 8 }, 0),
];

/// All twenty, then ranges that begin or end within a word, at its ends, or over one whole.
#[rattlefmt::skip]
const STORED: &[Act] = &[
    HasBytes(0, &[0; 20]),
    StoresBytes(0, &[1, 2, 3, 4, 5, 6, 7, 8, 9, 10, 11, 12, 13, 14, 15, 16, 17, 18, 19, 20]),
    WordAt(Place { log: 0, at: 3 }, 0x0807_0605_0403_0201),
    WordAt(Place { log: 0, at: 4 }, 0x100f_0e0d_0c0b_0a09),
    WordAt(Place { log: 0, at: 5 }, 0x0000_0000_1413_1211),
    StoresBytes(1, &[0xa1]),
    HasBytes(0, &[1, 0xa1, 3]),
    StoresBytes(6, &[0xb1, 0xb2, 0xb3, 0xb4]),
    HasBytes(5, &[6, 0xb1, 0xb2, 0xb3, 0xb4, 11]),
    StoresBytes(8, &[0xc1, 0xc2, 0xc3, 0xc4, 0xc5, 0xc6, 0xc7, 0xc8]),
    HasBytes(7, &[0xb2, 0xc1, 0xc2, 0xc3, 0xc4, 0xc5, 0xc6, 0xc7, 0xc8, 17]),
    StoresBytes(7, &[0xd1, 0xd2, 0xd3, 0xd4, 0xd5, 0xd6, 0xd7, 0xd8, 0xd9, 0xda]),
    HasBytes(0, &[1, 0xa1, 3, 4, 5, 6, 0xb1, 0xd1, 0xd2, 0xd3, 0xd4, 0xd5, 0xd6, 0xd7, 0xd8, 0xd9, 0xda, 18, 19, 20]),
    StoresBytes(19, &[0xff]),
    HasBytes(18, &[19, 0xff]),
];

/// By an event each the same is loaded. A range of no bytes changes nothing.
#[rattlefmt::skip]
const LOADED: &[Act] = &[
    Does(Load { owner: 0, pointer: 0, index: 0 }, Word(0xd1b1_0605_0403_a101)),
    Does(Load { owner: 0, pointer: 0, index: 1 }, Word(0xd9d8_d7d6_d5d4_d3d2)),
    Does(Load { owner: 0, pointer: 0, index: 2 }, Word(0x0000_0000_ff13_12da)),
    StoresBytes(0, &[]),
    StoresBytes(9, &[]),
    StoresBytes(20, &[]),
    HasBytes(0, &[]),
    HasBytes(9, &[]),
    HasBytes(20, &[]),
    WordAt(Place { log: 0, at: 3 }, 0xd1b1_0605_0403_a101),
    WordAt(Place { log: 0, at: 4 }, 0xd9d8_d7d6_d5d4_d3d2),
    WordAt(Place { log: 0, at: 5 }, 0x0000_0000_ff13_12da),
];

/// Bytes of words are got over headers and objects alike, to a log's end.
#[rattlefmt::skip]
const GOT: &[Act] = &[
    Does(Put { log: 3, at: LOG_WORDS - 1, word: 0x0807_0605_0403_0201 }, Done),
    GetsBytes(AT, 0, &[0x14, 0, 0, 1, 0, 0, 0, 0xa2]),
    GetsBytes(AT, 7, &[0xa2, 1, 0xa1]),
    GetsBytes(Place { log: 0, at: 0 }, 13, &[0xaa, 0xaa, 0xaa, 0x14, 0, 0, 1]),
    GetsBytes(Place { log: 3, at: LOG_WORDS - 1 }, 0, &[1, 2, 3, 4, 5, 6, 7, 8]),
    GetsBytes(Place { log: 3, at: LOG_WORDS - 1 }, 7, &[8]),
    GetsBytes(Place { log: 3, at: LOG_WORDS - 1 }, 8, &[]),
    GetsBytes(Place { log: 3, at: LOG_WORDS - 2 }, 7, &[0, 1, 2]),
    GetsBytes(Place { log: 0, at: 1 }, 3, &[]),
];

/// Owner 0 holds and has soiled an object of one byte, before another.
#[rattlefmt::skip]
const ONE_HELD: &[Act] = &[
    Does(Put { log: 0, at: 0, word: 0xa200_0000_0100_0001 }, Done),
    Does(Name { pointer: 0, old: 0, new: 0x8600_0000_0001_0001 }, Done),
    Does(Put { log: 0, at: 2, word: 0xa200_0001_0100_0008 }, Done),
    Does(Name { pointer: 1, old: 0, new: 0x8600_0000_0201_0008 }, Done),
    Does(Adopt { owner: 0, pointer: 0 }, Word(0x8600_0000_0001_0001)),
    Does(ReadEpoch { owner: 0 }, Epoch(0)),
    Does(Open { owner: 0 }, Done),
    Does(Pin { owner: 0, pointer: 0 }, Held(Place { log: 0, at: 0 })),
    Does(Soil { owner: 0, pointer: 0 }, Word(0xc600_0000_0001_0001)),
];

#[rattlefmt::skip]
const ONE_STORED: &[Act] = &[
    HasBytes(0, &[0]),
    StoresBytes(0, &[0xff]),
    HasBytes(0, &[0xff]),
    WordAt(Place { log: 0, at: 0 }, 0xa200_0000_0100_0001),
    WordAt(Place { log: 0, at: 1 }, 0xff),
    WordAt(Place { log: 0, at: 2 }, 0xa200_0001_0100_0008),
    StoresBytes(1, &[]),
    HasBytes(1, &[]),
    HasBytes(0, &[0xff]),
];

/// Owner 0 holds and has soiled an object that fills its log, and a word stands in the next.
#[rattlefmt::skip]
const WHOLE_HELD: &[Act] = &[
    Does(Put { log: 0, at: 0, word: 0xa200_0000_0100_0ff8 }, Done),
    Does(Name { pointer: 0, old: 0, new: 0x8600_0000_0001_0ff8 }, Done),
    Does(Put { log: 1, at: 0, word: 7 }, Done),
    Does(Adopt { owner: 0, pointer: 0 }, Word(0x8600_0000_0001_0ff8)),
    Does(ReadEpoch { owner: 0 }, Epoch(0)),
    Does(Open { owner: 0 }, Done),
    Does(Pin { owner: 0, pointer: 0 }, Held(Place { log: 0, at: 0 })),
    Does(Soil { owner: 0, pointer: 0 }, Word(0xc600_0000_0001_0ff8)),
];

#[rattlefmt::skip]
const WHOLE_STORED: &[Act] = &[
    StoresTold(0, 4088),
    HasTold(0, 4088),
    HasTold(1, 4087),
    HasTold(4087, 1),
    HasTold(1003, 1016),
    WordAt(Place { log: 0, at: 0 }, 0xa200_0000_0100_0ff8),
    WordAt(Place { log: 0, at: 1 }, 0x0706_0504_0302_0100),
    WordAt(Place { log: 0, at: LOG_WORDS - 1 }, 0x4746_4544_4342_4140),
    WordAt(Place { log: 1, at: 0 }, 7),
    StoresBytes(1001, &[0xff, 0xfe, 0xfd]),
    HasTold(0, 1001),
    HasBytes(1000, &[0xf7, 0xff, 0xfe, 0xfd, 0]),
    HasTold(1004, 3084),
    StoresTold(1001, 3),
    HasTold(0, 4088),
];

#[rattlefmt::skip]
const PLAYS: &[Play] = &[
    Play {
        name: "any_bytes_are_stored_and_loaded", shape: TWO_OWNERS, honest: true, after: 0,
        parts: &[THREE_MADE, THREE_HELD, STORED, LOADED, BESIDE, GOT],
    },
    Play { name: "one_byte_is_stored_and_loaded", shape: SMALL, honest: true, after: 0, parts: &[ONE_HELD, ONE_STORED] },
    Play { name: "a_whole_log_is_stored_and_loaded", shape: SMALL, honest: true, after: 0, parts: &[WHOLE_HELD, WHOLE_STORED] },
];

#[test]
fn bytes_of_an_object(rt: HostRuntime) {
    play(&rt, rt.alloc(), &[], PLAYS);
}
