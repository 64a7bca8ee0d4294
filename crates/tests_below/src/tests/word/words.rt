//! Worked words: each is read as what it says, packed from it, or refused. They come from the layout's own table.

use super::{DIRTY, HOT, HOT_EVAC, NO_MARKS};
use far_word::{
    HeadWord, HeadWordV1, Job, JobWord, Mark, Marks, Place, PtrWord, Refused, ScopeWord, Version,
    object_counts, pack_bytes, pointer_len, resting_place, rests_view, size_of, unpack_bytes,
    without_owner_marks,
};
use std::alloc::{AllocGlobal, Global};
use std::test::*;

fn near(log: u8, at: u16, marks: Marks) -> PtrWord {
    PtrWord::Near {
        len: 8,
        ds: 1,
        place: Place { log, at },
        marks,
    }
}

// Whether a word is read as this, which is packed to the word again.
fn is_pointer(word: u64, pointer: PtrWord) -> bool {
    match PtrWord::read(word) {
        Some(read) => read == pointer && read.pack() == word,
        None => false,
    }
}

// The words of near pointers, each with its place and its marks.
const NEAR: [(u64, u8, u16, Marks); 8] = [
    (0x8400_0000_0001_0008, 0, 0, NO_MARKS),
    (0x8400_0000_0201_0008, 0, 2, NO_MARKS),
    (0x8400_0000_7f01_0008, 0, 127, NO_MARKS),
    (0x8400_0001_fe01_0008, 0, 510, NO_MARKS),
    (0x8400_0004_0001_0008, 1, 0, NO_MARKS),
    (0xc400_0000_0001_0008, 0, 0, HOT),
    (0xe400_0000_0001_0008, 0, 0, HOT_EVAC),
    (0x8600_0000_0001_0008, 0, 0, DIRTY),
];

fn all_are_near(rows: &[(u64, u8, u16, Marks)]) -> bool {
    for (word, log, at, marks) in rows {
        if !is_pointer(*word, near(*log, *at, *marks)) {
            return false;
        }
    }
    true
}

fn is_far(word: u64) -> bool {
    let far = PtrWord::Far {
        len: 8,
        ds: 1,
        marks: NO_MARKS,
    };
    is_pointer(word, far)
}

#[test]
fn pointer_words(rt: HostRuntime) {
    assert!(rt; is_pointer(0, PtrWord::Free));
    assert!(rt; all_are_near(&NEAR) && is_far(0x0400_0000_0001_0008));
}

// Whether a word is read as the header of an object of 8 bytes that this pointer names, and packed again.
fn is_header(word: u64, pointer: u16) -> bool {
    let head = HeadWord {
        pointer,
        len: 8,
        ds: 1,
    };
    match HeadWord::read(word) {
        Some(read) => read == head && read.pack() == word,
        None => false,
    }
}

// The same of a version 1 header.
fn is_header_v1(word: u64, pointer: u16) -> bool {
    let head = HeadWordV1 {
        pointer,
        len: 8,
        ds: 1,
    };
    match HeadWordV1::read(word) {
        Some(read) => read == head && read.pack() == word,
        None => false,
    }
}

#[test]
fn header_words(rt: HostRuntime) {
    assert!(rt;
        is_header(0xa200_0000_0100_0008, 0)
            && is_header(0xa200_0001_0100_0008, 1)
            && is_header(0xa200_07ff_0100_0008, 2047)
    );
    assert!(rt;
        is_header_v1(0xa100_0000_0001_0008, 0)
            && is_header_v1(0xa100_0000_0101_0008, 1)
            && is_header_v1(0xa100_0003_ff01_0008, 1023)
    );
}

// Whether the header that was read is that of an object of 8 bytes, which pointer 1 names.
fn names_pointer_1(read: Option<HeadWord>) -> bool {
    let head = HeadWord {
        pointer: 1,
        len: 8,
        ds: 1,
    };
    match read {
        Some(read) => read == head,
        None => false,
    }
}

// Whether a word says this version, and is a header of pointer 1 in this version alone.
fn is_of(word: u64, version: Version, other: Version) -> bool {
    Version::of(word) == version
        && names_pointer_1(version.header(word))
        && other.header(word).is_none()
}

// Whether a word off both layouts says this version still.
fn says_version(word: u64, version: Version) -> bool {
    Version::of(word) == version
}

fn all_say_versions() -> bool {
    is_of(0xa100_0000_0101_0008, Version::First, Version::Second)
        && is_of(0xa200_0001_0100_0008, Version::Second, Version::First)
        && says_version(0xa1ff_ffff_ffff_ffff, Version::First)
        && says_version(0, Version::Second)
        && says_version(0xa300_0000_0000_0000, Version::Second)
}

#[test]
fn versions(rt: HostRuntime) {
    assert!(rt; all_say_versions());
    assert!(rt; Version::First.log_words() == 128 && Version::Second.log_words() == 512);
}

// Whether a word is read as this job of pointer 2,047, offered from one last place to another, and packed again.
fn is_offered(word: u64, last: Place) -> bool {
    let job = Job {
        pointer: 2047,
        from: last,
        to: last,
    };
    match JobWord::read(word) {
        Some(read) => read == JobWord::Offered { job } && read.pack() == word,
        None => false,
    }
}

fn is_no_job(word: u64) -> bool {
    JobWord::read(word).is_none()
}

#[test]
fn job_words(rt: HostRuntime) {
    assert!(rt; is_offered(0x4003_f7f8_fdfe_07ff, Place { log: 63, at: 510 }));
    assert!(rt;
        is_no_job(0x4000_2000_0000_0800)
            && is_no_job(0x4000_2000_01ff_0000)
            && is_no_job(0x4000_27fc_0000_0000)
    );
}

// Whether a word is read as this scope's, and packed again.
fn is_scope(word: u64, scope: ScopeWord) -> bool {
    match ScopeWord::read(word) {
        Some(read) => read == scope && read.pack() == word,
        None => false,
    }
}

#[test]
fn scope_words(rt: HostRuntime) {
    let last = (1 << 62) - 1;
    assert!(rt;
        is_scope(0, ScopeWord::Closed)
            && is_scope(1, ScopeWord::Open { epoch: 0 })
            && is_scope(0x7fff_ffff_ffff_ffff, ScopeWord::Open { epoch: last })
    );
}

fn is_no_scope(word: u64) -> bool {
    ScopeWord::read(word).is_none()
}

fn none_is_pointer(words: &[u64]) -> bool {
    for word in words {
        if PtrWord::read(*word).is_some() {
            return false;
        }
    }
    true
}

fn none_is_header(words: &[u64]) -> bool {
    for word in words {
        if HeadWord::read(*word).is_some() {
            return false;
        }
    }
    true
}

fn none_is_header_v1(words: &[u64]) -> bool {
    for word in words {
        if HeadWordV1::read(*word).is_some() {
            return false;
        }
    }
    true
}

// Words that are off a layout.
const NO_POINTERS: [u64; 10] = [
    0x0000_0000_0001_0008,
    0x8400_0000_0001_0000,
    0x8400_0000_0001_0ff9,
    0x8400_0001_ff01_0008,
    0x0400_0000_0101_0008,
    0x2400_0000_0001_0008,
    0x8400_0100_0001_0008,
    0x8400_0400_0001_0008,
    0x0600_0000_0001_0008,
    0x8500_0000_0001_0008,
];

const NO_HEADERS: [u64; 8] = [
    0,
    0x8400_0000_0001_0008,
    0xa100_0000_0001_0008,
    0xa300_0000_0100_0008,
    0xa200_0000_0100_0000,
    0xa200_0000_0100_0ff9,
    0xa200_0000_0101_0008,
    0xa200_0800_0100_0008,
];

const NO_HEADERS_V1: [u64; 7] = [
    0,
    0x8400_0000_0001_0008,
    0xa000_0000_0001_0008,
    0xa200_0000_0100_0008,
    0xa100_0000_0001_0000,
    0xa100_0000_0001_03f9,
    0xa100_0004_0001_0008,
];

#[test]
fn words_off_the_layout(rt: HostRuntime) {
    assert!(rt;
        none_is_pointer(&NO_POINTERS)
            && none_is_header(&NO_HEADERS)
            && none_is_header_v1(&NO_HEADERS_V1)
            && is_no_scope(2)
            && is_no_scope(0x8000_0000_0000_0001)
    );
}

const NINE: [u8; 9] = [1, 2, 3, 4, 5, 6, 7, 8, 9];

const NINE_PACKED: [u64; 2] = [0x0807_0605_0403_0201, 9];

// Whether nine bytes are these words, which said something else.
fn are_packed() -> bool {
    let mut words = [u64::MAX; 2];
    pack_bytes(&NINE, &mut words);
    words == NINE_PACKED
}

fn are_unpacked() -> bool {
    let mut back = [255; 9];
    unpack_bytes(&NINE_PACKED, &mut back);
    back == NINE
}

#[test]
fn nine_bytes(rt: HostRuntime) {
    assert!(rt; are_packed() && are_unpacked());
}

fn nothing_is_packed() -> bool {
    let mut words: [u64; 0] = [];
    pack_bytes(&[], &mut words);
    let mut bytes: [u8; 0] = [];
    unpack_bytes(&words, &mut bytes);
    bytes == []
}

#[test]
fn no_bytes(rt: HostRuntime) {
    assert!(rt; nothing_is_packed());
}

// Whether a view may rest on each of these, or on none of them.
fn all_rest(words: &[u64], wanted: bool) -> bool {
    for word in words {
        if rests_view(*word) != wanted {
            return false;
        }
    }
    true
}

fn has_mask(mark: Mark, mask: u64) -> bool {
    mark.mask() == mask
}

// Whether an object takes so many words.
fn takes(len: u16, words: u16) -> bool {
    size_of(len) == words
}

// Words that a view may rest on, and others.
const RESTS: [u64; 2] = [0x8400_0000_0001_0008, 0xc400_0000_0001_0008];

const RESTS_NOT: [u64; 5] = [
    0xe400_0000_0001_0008,
    0x9400_0000_0001_0008,
    0x8c00_0000_0001_0008,
    0x0400_0000_0001_0008,
    0,
];

fn all_have_masks() -> bool {
    has_mask(Mark::Dropped, 0x0800_0000_0000_0000)
        && has_mask(Mark::Moved, 0x1000_0000_0000_0000)
        && has_mask(Mark::Evac, 0x2000_0000_0000_0000)
        && has_mask(Mark::Hot, 0x4000_0000_0000_0000)
}

fn is_place(read: Option<Place>, wanted: Option<Place>) -> bool {
    match (read, wanted) {
        (Some(read), Some(wanted)) => read == wanted,
        (None, None) => true,
        _ => false,
    }
}

fn views_have_places() -> bool {
    let place = Some(Place { log: 3, at: 5 });
    is_place(near(3, 5, HOT).view_place(), place)
        && is_place(near(3, 5, HOT_EVAC).view_place(), None)
        && all_rest(&RESTS, true)
        && all_rest(&RESTS_NOT, false)
}

fn sizes_are_taken() -> bool {
    takes(1, 2) && takes(8, 2) && takes(9, 3) && takes(1016, 128) && takes(4088, 512)
}

#[test]
fn marks_and_masks(rt: HostRuntime) {
    assert!(rt; all_have_masks() && views_have_places() && sizes_are_taken());
    assert!(rt; without_owner_marks(0xfc00_0000_0001_0008) == 0xa400_0000_0001_0008);
}

// Whether these are the length and the resting place that are read from a word alone.
fn has_fields(word: u64, len: u16, place: Option<Place>) -> bool {
    pointer_len(word) == len && is_place(resting_place(word), place)
}

#[test]
fn fields_alone(rt: HostRuntime) {
    let place = Some(Place { log: 3, at: 5 });
    assert!(rt;
        has_fields(0x8400_000c_0501_0008, 8, place)
            && has_fields(0xc400_000c_05ff_0ff8, 4088, place)
    );
    assert!(rt;
        has_fields(0, 0, None)
            && has_fields(0xe400_000c_0501_0008, 8, None)
            && has_fields(0x9400_000c_0501_0001, 1, None)
            && has_fields(0x0400_0000_0001_0009, 9, None)
    );
}

// Whether a word on the layout adds this to the objects that aren't dropped, and to those of them that lie near.
fn adds(word: u64, kept: u64, near: u64) -> bool {
    PtrWord::read(word).is_some() && object_counts(word) == (kept, near)
}

#[test]
fn objects_counted(rt: HostRuntime) {
    assert!(rt;
        adds(0, 0, 0)
            && adds(0x8400_0000_0001_0008, 1, 1)
            && adds(0xf400_000c_05ff_0008, 1, 1)
            && adds(0x0400_0000_0001_0009, 1, 0)
            && adds(0x8c00_0000_0001_0008, 0, 0)
            && adds(0xfc00_000c_05ff_0008, 0, 0)
            && adds(0x0c00_0000_0001_0009, 0, 0)
    );
}

// Each refusal, by its number and text.
const REFUSALS: [(Refused, &str); 18] = [
    (Refused::Memory, "1 out of memory"),
    (Refused::NoRoom, "2 no log has room"),
    (Refused::NoPointer, "3 no pointer is free"),
    (Refused::Length, "4 an object's length is 1 to 4088 bytes"),
    (Refused::Closed, "5 the scope is closed"),
    (Refused::AlreadyOpen, "6 the scope is open"),
    (Refused::NotHeld, "7 the pointer is not held"),
    (Refused::Range, "8 out of range"),
    (Refused::Held, "9 the scope views the object"),
    (Refused::Device, "10 the device failed"),
    (
        Refused::Damaged,
        "11 the device gave bytes of another length",
    ),
    (Refused::Phase, "12 the call does not belong to the phase"),
    (Refused::EpochsSpent, "13 no epoch is left"),
    (
        Refused::Marked(0x0400_0000_0001_0008),
        "14 the pointer word is 0400000000010008",
    ),
    (
        Refused::Shape,
        "15 logs, mutators or first epoch out of range",
    ),
    (Refused::Syntax(7), "16 line 7 is off the grammar"),
    (Refused::BadChoice(3), "17 log 3 may not be chosen"),
    (
        Refused::StillOpen(2, 5),
        "18 mutator 2 has been open since epoch 5",
    ),
];

// Whether this is the number and the text of a refusal.
fn is_told(alloc: Global, refused: Refused, wanted: &str) -> bool {
    match format!(in alloc; "{} {refused}", refused.number()) {
        Ok(told) => told.as_str() == wanted,
        Err(_) => false,
    }
}

fn all_are_told(alloc: Global) -> bool {
    for (refused, wanted) in &REFUSALS {
        if !is_told(alloc, *refused, wanted) {
            return false;
        }
    }
    true
}

#[test]
fn refusals(rt: HostRuntime) {
    assert!(rt; all_are_told(rt.alloc()));
}
