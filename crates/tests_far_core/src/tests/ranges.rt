//! Several words at once.

use crate::tests::acts::Act::*;
use crate::tests::acts::{Act, Play, TWO_OWNERS};
use crate::tests::stage::play;
use far_core::Event::*;
use far_core::Reply::*;
use far_core::{Core, Kind};
use far_word::{CELLS, LOG_WORDS, Place, PtrWord};

/// Whether owner 0 stores a word at an index of a pointer's object, of two words.
pub(super) fn stores_at(core: &mut Core, pointer: u16, index: u16, word: u64) -> bool {
    if pointer < CELLS && core.is_soiled(pointer) && index < 2 {
        if let Some(PtrWord::Near { len: 16, .. }) = PtrWord::read(core.cell(pointer)) {
            core.store_all(0, pointer, index, &[word]);
            return true;
        }
    }
    false
}

/// Whether owner 0 stores both words of a pointer's object, of two words, at once.
pub(super) fn stores_pair(core: &mut Core, pointer: u16, words: [u64; 2]) -> bool {
    if pointer < CELLS && core.is_soiled(pointer) {
        if let Some(PtrWord::Near { len: 16, .. }) = PtrWord::read(core.cell(pointer)) {
            core.store_all(0, pointer, 0, &words);
            return true;
        }
    }
    false
}

/// Whether pointer 0's object has these two words.
pub(super) fn has_pair(core: &Core, words: [u64; 2]) -> bool {
    if !core.is_held(0) {
        return false;
    }
    let Some(PtrWord::Near { len: 16, .. }) = PtrWord::read(core.cell(0)) else {
        return false;
    };
    let mut found = [0; 2];
    core.load_all(0, 0, 0, &mut found);
    found == words
}

/// Whether so many words of 0 are put at a place.
pub(super) fn puts_zeros(core: &mut Core, place: Place, count: u16) -> bool {
    if place.log >= core.logs() || place.at >= LOG_WORDS || count > LOG_WORDS - place.at {
        return false;
    }
    if core.kind(place.log) == Kind::Sealed || core.tail(place.log) > place.at {
        return false;
    }
    core.put_zeros(place, count);
    true
}

/// Whether so many words of these bytes are put at a place.
pub(super) fn puts_words(core: &mut Core, place: Place, bytes: &[u8], count: u16) -> bool {
    if place.log >= core.logs() || place.at >= LOG_WORDS || count > LOG_WORDS - place.at {
        return false;
    }
    if core.kind(place.log) == Kind::Sealed || core.tail(place.log) > place.at {
        return false;
    }
    if bytes.len() < 8 * count as usize {
        return false;
    }
    core.put_words(place, bytes, count);
    true
}

/// Whether so many words from a place on, got into a row of other bytes, make it these.
pub(super) fn gets_words(core: &Core, place: Place, count: u16, bytes: &[u8]) -> bool {
    if place.log >= core.logs() || place.at >= LOG_WORDS || count > LOG_WORDS - place.at {
        return false;
    }
    let mut row = [0xee; 26];
    if row.len() < 8 * count as usize {
        return false;
    }
    core.get_words(place, count, &mut row);
    row.as_slice() == bytes
}

/// Whether so many words are copied from one place to another.
pub(super) fn copies_words(core: &mut Core, from: Place, to: Place, count: u16) -> bool {
    if from.log >= core.logs() || from.at >= LOG_WORDS || count > LOG_WORDS - from.at {
        return false;
    }
    if to.log >= core.logs() || to.at >= LOG_WORDS || count > LOG_WORDS - to.at {
        return false;
    }
    if core.kind(to.log) == Kind::Sealed || core.tail(to.log) > to.at {
        return false;
    }
    core.copy_words(from, to, count);
    true
}

const PAIR: u64 = 0x8600_0000_0001_0010;

/// Owner 0 holds an object of two words.
#[rattlefmt::skip]
const HOLDING_PAIR: &[Act] = &[
    Does(Put { log: 0, at: 0, word: 0xa200_0000_0100_0010 }, Done),
    Does(Name { pointer: 0, old: 0, new: PAIR }, Done),
    Does(Adopt { owner: 0, pointer: 0 }, Word(PAIR)),
    Does(ReadEpoch { owner: 0 }, Epoch(5)),
    Does(Open { owner: 0 }, Done),
    Does(Pin { owner: 0, pointer: 0 }, Held(Place { log: 0, at: 0 })),
    Does(Soil { owner: 0, pointer: 0 }, Word(PAIR | 1 << 62)),
];

#[rattlefmt::skip]
const STORED_AND_LOADED: &[Act] = &[
    HasPair([0, 0]),
    StoresAt(1, 7),
    HasPair([0, 7]),
    StoresAt(0, u64::MAX),
    HasPair([u64::MAX, 7]),
    Does(Load { owner: 0, pointer: 0, index: 0 }, Word(u64::MAX)),
    Does(Load { owner: 0, pointer: 0, index: 1 }, Word(7)),
    StoresPair([7, 9]),
    HasPair([7, 9]),
    Does(Load { owner: 0, pointer: 0, index: 0 }, Word(7)),
    WordAt(Place { log: 0, at: 0 }, 0xa200_0000_0100_0010),
    WordAt(Place { log: 0, at: 1 }, 7),
    WordAt(Place { log: 0, at: 2 }, 9),
    WordAt(Place { log: 0, at: 3 }, 0),
];

#[rattlefmt::skip]
const ZEROS_PUT: &[Act] = &[
    Does(Put { log: 0, at: 3, word: 3 }, Done),
    Does(Put { log: 0, at: 4, word: 4 }, Done),
    Does(Put { log: 0, at: 5, word: 5 }, Done),
    Does(Put { log: 0, at: 6, word: 6 }, Done),
    PutsZeros(Place { log: 0, at: 4 }, 2),
    WordAt(Place { log: 0, at: 3 }, 3),
    WordAt(Place { log: 0, at: 4 }, 0),
    WordAt(Place { log: 0, at: 5 }, 0),
    WordAt(Place { log: 0, at: 6 }, 6),
];

/// Twenty bytes.
#[rattlefmt::skip]
const BYTES: &[u8] = &[1, 2, 3, 4, 5, 6, 7, 8, 9, 10, 11, 12, 13, 14, 15, 16, 17, 18, 19, 20];

/// The words 3 to 6 of a log are other ones, by an event each.
#[rattlefmt::skip]
const FOUR_PUT: &[Act] = &[
    Does(Put { log: 0, at: 3, word: 3 }, Done),
    Does(Put { log: 0, at: 4, word: 4 }, Done),
    Does(Put { log: 0, at: 5, word: 5 }, Done),
    Does(Put { log: 0, at: 6, word: 0xff00_0000_0000_0006 }, Done),
];

#[rattlefmt::skip]
const WORDS_PUT: &[Act] = &[
    PutsWords(Place { log: 0, at: 4 }, BYTES, 2),
    Does(Get { log: 0, at: 3, free: false }, Word(3)),
    Does(Get { log: 0, at: 4, free: false }, Word(0x0807_0605_0403_0201)),
    Does(Get { log: 0, at: 5, free: false }, Word(0x100f_0e0d_0c0b_0a09)),
    Does(Get { log: 0, at: 6, free: false }, Word(0xff00_0000_0000_0006)),
    PutsWords(Place { log: 0, at: 3 }, BYTES, 0),
    WordAt(Place { log: 0, at: 3 }, 3),
    PutsWords(Place { log: 3, at: LOG_WORDS - 1 }, BYTES, 1),
    Does(Get { log: 3, at: LOG_WORDS - 1, free: false }, Word(0x0807_0605_0403_0201)),
];

#[rattlefmt::skip]
const WORDS_GOT: &[Act] = &[
    GetsWords(Place { log: 0, at: 5 }, 2, &[
        5, 0, 0, 0, 0, 0, 0, 0, 6, 0, 0, 0, 0, 0, 0, 0xff, 0xee, 0xee, 0xee, 0xee, 0xee, 0xee, 0xee, 0xee, 0xee, 0xee,
    ]),
    GetsWords(Place { log: 0, at: 5 }, 0, &[0xee; 26]),
    Does(Get { log: 0, at: 5, free: false }, Word(5)),
];

/// To another log, and over words that are copied themselves: what was put is got.
#[rattlefmt::skip]
const WORDS_COPIED: &[Act] = &[
    CopiesWords(Place { log: 0, at: 4 }, Place { log: 1, at: 7 }, 3),
    Does(Get { log: 1, at: 6, free: false }, Word(0)),
    Does(Get { log: 1, at: 7, free: false }, Word(4)),
    Does(Get { log: 1, at: 8, free: false }, Word(5)),
    Does(Get { log: 1, at: 9, free: false }, Word(0xff00_0000_0000_0006)),
    Does(Get { log: 1, at: 10, free: false }, Word(0)),
    WordAt(Place { log: 0, at: 4 }, 4),
    CopiesWords(Place { log: 1, at: 8 }, Place { log: 1, at: 7 }, 2),
    WordAt(Place { log: 1, at: 7 }, 5),
    WordAt(Place { log: 1, at: 8 }, 0xff00_0000_0000_0006),
    WordAt(Place { log: 1, at: 9 }, 0xff00_0000_0000_0006),
    CopiesWords(Place { log: 0, at: 3 }, Place { log: 0, at: 4 }, 3),
    WordAt(Place { log: 0, at: 4 }, 3),
    WordAt(Place { log: 0, at: 5 }, 3),
    WordAt(Place { log: 0, at: 6 }, 3),
    CopiesWords(Place { log: 0, at: 0 }, Place { log: 0, at: 3 }, 0),
    WordAt(Place { log: 0, at: 3 }, 3),
];

/// The parts that come first.
const FIRSTS: &[&[Act]] = &[HOLDING_PAIR, FOUR_PUT];

#[rattlefmt::skip]
const PLAYS: &[Play] = &[
    Play {
        name: "words_are_stored_and_loaded", shape: TWO_OWNERS, honest: true, after: 1,
        parts: &[STORED_AND_LOADED],
    },
    Play { name: "zeros_are_put", shape: TWO_OWNERS, honest: true, after: 1, parts: &[ZEROS_PUT] },
    Play { name: "words_are_put", shape: TWO_OWNERS, honest: true, after: 2, parts: &[WORDS_PUT] },
    Play { name: "words_are_got", shape: TWO_OWNERS, honest: true, after: 2, parts: &[WORDS_GOT] },
    Play { name: "words_are_copied", shape: TWO_OWNERS, honest: true, after: 2, parts: &[WORDS_COPIED] },
];

#[test]
fn several_words_at_once(rt: HostRuntime) {
    play(&rt, rt.alloc(), FIRSTS, PLAYS);
}
