//! Of far_log: whether the clauses say what was meant, by worked images of logs: each header is written out by its layout.

use far_log::{
    BadWord, LogRow, Span, WalkFault, bad_words_are_first, convert, images_are_converted,
    later_words_say_nothing, size_of, spans_hold_bytes, spans_take_all, walk, walks_are_one,
    words_have_one_span,
};
use far_word::HeadWord;
use std::alloc::Global;
use std::test::*;

const FIRST: Span = Span {
    at: 0,
    p: 0,
    len: 8,
    ds: 1,
};

const NINE: Span = Span {
    at: 0,
    p: 5,
    len: 9,
    ds: 2,
};

const ROW: LogRow = LogRow {
    log: 1,
    live: 16,
    dead: 24,
    unused: 4056,
};

// A span of 9 bytes and one of 8, and behind them a word that is no header.
const TWO: [u64; 6] = [
    0xa200_0005_0200_0009,
    u64::MAX,
    0xff,
    0xa200_0000_0100_0008,
    u64::MAX,
    1,
];

// The same in version 1.
const TWO_V1: [u64; 6] = [
    0xa100_0000_0502_0009,
    u64::MAX,
    0xff,
    0xa100_0000_0001_0008,
    u64::MAX,
    1,
];

// Whether a walk through the first `tail` of these words finds no bad one, and the spans that are wanted.
fn walks_to(alloc: Global, words: &[u64], tail: usize, wanted: &[Span]) -> bool {
    if tail > words.len() || words.len() > 512 {
        return false;
    }
    match walk(alloc, words, tail) {
        Ok(spans) => spans.as_slice() == wanted,
        Err(_) => false,
    }
}

// Whether a walk through the first `tail` of these words finds this one bad.
fn is_bad(alloc: Global, words: &[u64], tail: usize, at: u16) -> bool {
    if tail > words.len() || words.len() > 512 || at as usize >= words.len() {
        return false;
    }
    let word = words[at as usize];
    match walk(alloc, words, tail) {
        Ok(_) => false,
        Err(fault) => fault == WalkFault::Bad(BadWord { at, word }),
    }
}

fn takes(len: u16, words: usize) -> bool {
    size_of(len) == words
}

#[test]
fn sizes(rt: HostRuntime) {
    let few = takes(0, 1) && takes(1, 2) && takes(8, 2) && takes(9, 3);
    assert!(rt; few && takes(4088, 512) && takes(4089, 513) && takes(u16::MAX, 8193));
}

#[test]
fn readme(rt: HostRuntime) -> Result<(), Fail> {
    let header = HeadWord {
        pointer: 5,
        len: 9,
        ds: 2,
    };
    let words = [header.pack(), u64::MAX, 0xff, 0];
    let spans = walk(rt.alloc(), &words, 3)?;
    let span = Span {
        at: 0,
        p: 5,
        len: 9,
        ds: 2,
    };
    assert_eq!(rt; spans.as_slice(), [span].as_slice());
    let fault = walk(rt.alloc(), &words, 4).err();
    assert_eq!(rt; fault, Some(WalkFault::Bad(BadWord { at: 3, word: 0 })));
    Ok(())
}

fn walk_to(alloc: Global, rows: &[(&[u64], usize, &[Span])]) -> bool {
    for (words, tail, wanted) in rows {
        if !walks_to(alloc, words, *tail, wanted) {
            return false;
        }
    }
    true
}

#[test]
fn spans(rt: HostRuntime) {
    let both = [NINE, Span { at: 3, ..FIRST }];
    let rows: [(&[u64], usize, &[Span]); 7] = [
        (&[0xa100_0000_0001_0008, 0], 2, &[FIRST]),
        (&[0xa100_0000_0001_0008, 0], 0, &[]),
        (&[], 0, &[]),
        (&[0xa200_0000_0100_0008, 0], 2, &[FIRST]),
        (&TWO, 5, &both),
        (&TWO, 3, &[NINE]),
        (&TWO_V1, 5, &both),
    ];
    assert!(rt; walk_to(rt.alloc(), &rows));
}

#[test]
fn longest_span(rt: HostRuntime) {
    let mut words = [u64::MAX; 512];
    words[0] = 0xa200_07ff_ff00_0ff8;
    let span = Span {
        at: 0,
        p: 2047,
        len: 4088,
        ds: 255,
    };
    assert!(rt; walks_to(rt.alloc(), &words, 512, &[span]) && is_bad(rt.alloc(), &words, 511, 0));
}

#[test]
fn longest_span_of_version_1(rt: HostRuntime) {
    let mut words = [u64::MAX; 512];
    words[0] = 0xa100_0003_ffff_03f8;
    let span = Span {
        at: 0,
        p: 1023,
        len: 1016,
        ds: 255,
    };
    let bad = is_bad(rt.alloc(), &words, 127, 0) && is_bad(rt.alloc(), &words, 129, 128);
    assert!(rt; bad && walks_to(rt.alloc(), &words, 128, &[span]));
}

// A version 1 span ends by word 128, and none begins there.
fn end_by_word_128(alloc: Global) -> bool {
    let mut words = [0; 512];
    words[0] = 0xa100_0000_0001_03e8;
    words[126] = 0xa100_0000_0001_0008;
    words[128] = 0xa100_0000_0001_0008;
    let (long, last) = (Span { len: 1000, ..FIRST }, Span { at: 126, ..FIRST });
    let end = walks_to(alloc, &words, 128, &[long, last]) && is_bad(alloc, &words, 130, 128);
    words[126] = 0xa100_0000_0001_0009;
    end && is_bad(alloc, &words, 130, 126)
}

#[test]
fn logs_of_version_1_end(rt: HostRuntime) {
    assert!(rt; end_by_word_128(rt.alloc()));
}

// Whether these are the spans of so many objects of one byte.
fn are_shortest(spans: &[Span], count: usize) -> bool {
    for (i, span) in spans.iter().enumerate() {
        let wanted = Span {
            at: 2 * (i % 256) as u16,
            p: 0,
            len: 1,
            ds: 1,
        };
        if *span != wanted {
            return false;
        }
    }
    spans.len() == count
}

fn walks_to_shortest(alloc: Global, words: &[u64; 512]) -> bool {
    match walk(alloc, words, 512) {
        Ok(spans) => are_shortest(&spans, 256),
        Err(_) => false,
    }
}

#[test]
fn shortest_spans(rt: HostRuntime) {
    let mut words = [0xff; 512];
    for i in 0..256 {
        words[2 * i] = 0xa200_0000_0100_0001;
    }
    assert!(rt; walks_to_shortest(rt.alloc(), &words));
}

fn are_bad(alloc: Global, rows: &[(&[u64], usize, u16)]) -> bool {
    for (words, tail, at) in rows {
        if !is_bad(alloc, words, *tail, *at) {
            return false;
        }
    }
    true
}

#[test]
fn bad_words(rt: HostRuntime) {
    let rows: [(&[u64], usize, u16); 12] = [
        (&[0xa100_0000_0001_0008, 0], 1, 0),
        (&[0xa100_0000_0001_0001, 0x100], 2, 1),
        (&[0xa100_0000_0101_0008, 0, 0xa100_0000_0201_03f8], 3, 2),
        (&[0, 0], 2, 0),
        (&[0xa000_0000_0001_0008, 0], 2, 0),
        (&[0xa100_0000_0001_03f9, 0], 2, 0),
        (&[0xa100_0004_0001_0008, 0], 2, 0),
        (&[0xa200_0000_0100_0ff9, 0], 2, 0),
        (&[0xa200_0800_0100_0008, 0], 2, 0),
        (&TWO, 6, 5),
        (&TWO, 4, 3),
        (&[0xa200_0005_0200_0009, 0, 0x100, 0, 0], 5, 2),
    ];
    assert!(rt; are_bad(rt.alloc(), &rows));
}

// A header of the other version is bad, whichever comes first.
#[test]
fn versions_are_not_mixed(rt: HostRuntime) {
    let (first, second) = (0xa100_0000_0001_0008, 0xa200_0000_0100_0008);
    let rows: [(&[u64], usize, u16); 2] = [
        (&[first, 0, second, 0], 4, 2),
        (&[second, 0, first, 0], 4, 2),
    ];
    assert!(rt; are_bad(rt.alloc(), &rows));
}

// Whether the first `tail` of these words become these, and the words behind them stay as they were.
fn converts_to(words: &[u64], tail: usize, wanted: &[u64; 6]) -> bool {
    if tail > words.len() || words.len() > 512 || tail > 6 {
        return false;
    }
    let mut out = [7; 6];
    match convert(words, tail, &mut out) {
        Ok(end) => end == tail && out == *wanted,
        Err(_) => false,
    }
}

// Whether this word is bad, and nothing is written.
fn refuses(words: &[u64], tail: usize, at: u16) -> bool {
    if tail > words.len() || words.len() > 512 || tail > 6 || at as usize >= words.len() {
        return false;
    }
    let word = words[at as usize];
    let mut out = [7; 6];
    match convert(words, tail, &mut out) {
        Ok(_) => false,
        Err(bad) => bad == BadWord { at, word } && out == [7; 6],
    }
}

fn convert_to(rows: &[(&[u64], usize, [u64; 6])]) -> bool {
    for (words, tail, wanted) in rows {
        if !converts_to(words, *tail, wanted) {
            return false;
        }
    }
    true
}

fn refuses_bad() -> bool {
    let (first, second) = (0xa100_0000_0001_0008, 0xa200_0000_0100_0008);
    refuses(&[0xa100_0000_0001_0001, 0x100], 2, 1)
        && refuses(&[first, 0, second, 0], 4, 2)
        && refuses(&[first, 0], 1, 0)
}

#[test]
fn converted(rt: HostRuntime) {
    let (first, second) = (0xa100_0000_0001_0008, 0xa200_0000_0100_0008);
    let mut two = TWO;
    two[5] = 7;
    let rows: [(&[u64], usize, [u64; 6]); 7] = [
        (&[first, 0], 2, [second, 0, 7, 7, 7, 7]),
        (&[second, 0], 2, [second, 0, 7, 7, 7, 7]),
        (&[first, 0], 0, [7; 6]),
        (&[], 0, [7; 6]),
        (
            &[0xa100_0000_8001_0008, 9, 0xa100_0003_ff01_0001, 1],
            4,
            [0xa200_0100_0100_0008, 9, 0xa200_077f_0100_0001, 1, 7, 7],
        ),
        (&TWO_V1, 5, two),
        (&TWO, 5, two),
    ];
    assert!(rt; convert_to(&rows) && refuses_bad());
}

// Whether none of some values is this one.
fn lacks<T: PartialEq>(others: &[T], value: &T) -> bool {
    for other in others {
        if !(other != value) {
            return false;
        }
    }
    true
}

fn spans_differ() -> bool {
    let others = [
        Span { at: 1, ..FIRST },
        Span { p: 1, ..FIRST },
        Span { len: 9, ..FIRST },
        Span { ds: 2, ..FIRST },
    ];
    lacks(&others, &FIRST)
}

fn rows_differ() -> bool {
    let others = [
        LogRow { log: 2, ..ROW },
        LogRow { live: 0, ..ROW },
        LogRow { dead: 0, ..ROW },
        LogRow { unused: 0, ..ROW },
    ];
    lacks(&others, &ROW)
}

fn faults_differ() -> bool {
    let bad = BadWord { at: 2, word: 3 };
    let (later, less) = (BadWord { at: 3, ..bad }, BadWord { word: 2, ..bad });
    let faults = [
        WalkFault::Bad(later),
        WalkFault::Bad(less),
        WalkFault::Memory,
    ];
    lacks(&[later, less], &bad) && lacks(&faults, &WalkFault::Bad(bad))
}

#[test]
fn values_differ(rt: HostRuntime) {
    assert!(rt; spans_differ() && rows_differ() && faults_differ());
}

// Whether a fault's text is this.
fn says(alloc: Global, fault: WalkFault, text: &str) -> bool {
    match format!(in alloc; "{fault}") {
        Ok(said) => said.as_str() == text,
        Err(_) => false,
    }
}

#[test]
fn texts(rt: HostRuntime) {
    let bad = BadWord { at: 2, word: 3 };
    let alloc = rt.alloc();
    assert!(rt;
        says(alloc, WalkFault::Memory, "a growth was refused")
            && says(
                alloc,
                WalkFault::Bad(bad),
                "word 2 of the log is 0000000000000003"
            )
    );
}

#[test]
fn laws(_rt: HostRuntime) {
    walks_are_one();
    later_words_say_nothing();
    bad_words_are_first();
    images_are_converted();
    words_have_one_span();
    spans_hold_bytes();
    spans_take_all();
}
