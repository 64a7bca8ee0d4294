//! Texts that are refused, and texts that say nothing.

use super::talk::prints;
use far_split::NoGate;
use std::alloc::{AllocError, Global};
use std::sync::Wait;
use std::thread::Threads;

/// Texts that are made whole, and what is printed.
const SHORT_TEXTS: [(&str, &str); 8] = [
    ("", "book\n"),
    ("\n", "book\n"),
    ("\n\n\n", "book\n"),
    ("#", "book\n"),
    ("# alone\n", "book\n"),
    ("\n# one\n\n#two\n#", "book\n"),
    // A heap alone has its mutators.
    ("heap 2 1", "mutator 0\nbook\n"),
    (
        "# words\n\nheap 64 3 9\n",
        "mutator 0\nmutator 1\nmutator 2\nbook\n",
    ),
];

// Shapes out of range, also where a mutator has lines that the heap would have.
const BAD_SHAPES: [&str; 12] = [
    "heap 1 1",
    "heap 65 1",
    "heap 4 0",
    "heap 4 9",
    "heap 0 0",
    "heap 260 257",
    "heap 4 4294967297",
    "heap 4 18446744073709551615",
    "heap 18446744073709551615 1",
    "heap 4 1 4611686018427387904",
    "heap 4 9\nnew 8 8 1",
    "heap 1 18446744073709551615\nopen 18446744073709551614\nlogs",
];

// Whether each of these shapes is refused.
fn are_refused<R: Threads + Wait + Sync>(rt: &R, alloc: Global) -> bool {
    for text in BAD_SHAPES {
        if !prints(rt, alloc, text, &NoGate, "refused 15\n") {
            return false;
        }
    }
    true
}

#[test]
fn short_texts_are_answered(rt: HostRuntime) {
    for (text, wanted) in SHORT_TEXTS {
        assert!(rt; prints(&rt, rt.alloc(), text, &NoGate, wanted), "at {text}");
    }
    assert!(rt; are_refused(&rt, rt.alloc()));
}

// The number of the first line off the grammar, and the text, with / for a newline: what no thread runs, mutators that the heap hasn't, words
// that say nothing. A shape out of range is beside it in some.
const BAD_TEXTS: &str = "\
4 heap 4 1/new 0 8 1/round oldest 1 9/epoch 0
2 heap 4 1/epoch 0
2 heap 4 1/where 0 0
2 heap 4 1/select oldest 1
2 heap 4 1/select script 1 0
2 heap 4 1/mark 1
2 heap 4 1/wait
2 heap 4 1/evacuate 1
2 heap 4 1/abort
2 heap 4 1/round script 1 0 9
2 heap 4 1/round oldest 65 9
3 heap 4 1/open 0/device flip 1
3 heap 4 1/device short 1/device flip 1
3 heap 4 1/device short 1/epoch 0
2 heap 4 1/open 1
3 heap 4 2/open 1/open 2
2 heap 4 8/new 8 8 1
2 heap 4 1/close 256
2 heap 4 1/drop 18446744073709551615 0
2 heap 4 1/view 1 0
2 heap 4 1/try 1 0
2 heap 4 1/read 1 0 0 1
2 heap 4 1/write 1 0 0 ff
2 heap 4 1/open
2 heap 4 1/write 0 0 0 f
5 heap 4 1//# words/open 0/logs 1/bad
1 open 0/heap 4 1
3 heap 4 1/logs/heap 4 1
2 heap 1 1/x
2 heap 1 1/new 1 8 1
2 heap 4 0/open 0
3 heap 4 9/open 8/open 9
2 heap 4 18446744073709551615/open 18446744073709551615
";

// A row's text, and what is printed.
fn texts_of(alloc: Global, row: &str) -> Result<(String, String), AllocError> {
    let (number, text) = row.split_once(' ').unwrap_or(("", row));
    let text = text.replace(alloc, "/", "\n")?;
    let answer = format!(in alloc; "refused 16 {number}\n")?;
    Ok((text, answer))
}

// Whether a row's text is refused for its line.
fn is_refused<R: Threads + Wait + Sync>(rt: &R, alloc: Global, row: &str) -> bool {
    match texts_of(alloc, row) {
        Ok((text, answer)) => prints(rt, alloc, &text, &NoGate, &answer),
        Err(_) => false,
    }
}

#[test]
fn one_bad_line_refuses_the_whole_text(rt: HostRuntime) {
    for row in BAD_TEXTS.lines() {
        assert!(rt; is_refused(&rt, rt.alloc(), row), "at {row}");
    }
}

// A text of so many empty lines.
fn lines_of(alloc: Global, count: u64) -> Result<String, AllocError> {
    let mut text = String::new(alloc);
    for _ in 0..count {
        text.push('\n')?;
    }
    Ok(text)
}

// Whether it prints this.
fn prints_so<R: Threads + Wait + Sync>(rt: &R, alloc: Global, count: u64, wanted: &str) -> bool {
    match lines_of(alloc, count) {
        Ok(text) => prints(rt, alloc, &text, &NoGate, wanted),
        Err(_) => false,
    }
}

#[test]
fn a_text_has_so_many_bytes_at_most(rt: HostRuntime) {
    assert!(rt; prints_so(&rt, rt.alloc(), 1_048_576, "book\n"));
    assert!(rt; prints_so(&rt, rt.alloc(), 1_048_577, "refused 16 0\n"));
}
