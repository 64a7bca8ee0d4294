//! How to call the crate: the example of README.md.

use far_word::{HeadWord, Mark, Place, PtrWord, pack_bytes, rests_view, size_of, unpack_bytes};
use std::test::*;

// what a cell says: an object of 9 bytes and data structure 2, at word 0 of log 1, without marks
const CELL: u64 = 0x8400_0004_0002_0009;

fn a_cell_is_read() -> bool {
    let Some(pointer) = PtrWord::read(CELL) else {
        return false;
    };
    let Some(place) = pointer.view_place() else {
        return false;
    };
    place == Place { log: 1, at: 0 } && pointer.pack() == CELL
}

// its owner dereferences it, which sets HOT: a new view may rest there still, but not once it has EVAC
fn a_mark_is_set() -> bool {
    let hot = CELL | Mark::Hot.mask();
    rests_view(hot) && !rests_view(hot | Mark::Evac.mask())
}

// the object takes three words: a header, which names pointer 5, and two for its bytes
fn a_header_is_packed() -> bool {
    let header = HeadWord {
        pointer: 5,
        len: 9,
        ds: 2,
    };
    size_of(header.len) == 3 && header.pack() == 0xa200_0005_0200_0009
}

const BYTES: [u8; 9] = *b"far away!";

const WORDS: [u64; 2] = [0x7961_7761_2072_6166, 0x21];

fn bytes_are_packed() -> bool {
    let mut words = [0; 2];
    pack_bytes(&BYTES, &mut words);
    words == WORDS
}

// read again
fn bytes_are_read() -> bool {
    let mut bytes = [0; 9];
    unpack_bytes(&WORDS, &mut bytes);
    bytes == BYTES
}

#[test]
fn an_object_in_words(rt: HostRuntime) {
    assert!(rt; a_cell_is_read() && a_mark_is_set());
    assert!(rt; a_header_is_packed() && bytes_are_packed() && bytes_are_read());
}
