//! A mutator's lines that are refused whatever other threads do, in the order of their causes.

use super::talk::prints;
use far_split::NoGate;
use std::alloc::{AllocError, Global};
use std::sync::Wait;
use std::thread::Threads;

// The text of a talk of the first mutator, after a heap of this shape, and what is printed: its replies, and then what mutators after it
// and the book print.
fn texts_of(
    alloc: Global,
    heap: &str,
    talk: &str,
    rest: &str,
) -> Result<(String, String), AllocError> {
    let mut text = String::new(alloc);
    let mut wanted = String::new(alloc);
    text.push_str(heap)?;
    wanted.push_str("mutator 0\n")?;
    for line in talk.lines() {
        push_line(&mut text, &mut wanted, line)?;
    }
    wanted.push_str(rest)?;
    Ok((text, wanted))
}

// Adds a line of a talk: a command, or its reply, two spaces in.
fn push_line(text: &mut String, wanted: &mut String, line: &str) -> Result<(), AllocError> {
    match line.strip_prefix("  ") {
        Some(reply) => push_with_end(wanted, reply),
        None => push_with_end(text, line),
    }
}

fn push_with_end(text: &mut String, line: &str) -> Result<(), AllocError> {
    text.push_str(line)?;
    text.push('\n')
}

// Whether the talk is answered so.
fn is_answered<R: Threads + Wait + Sync>(
    rt: &R,
    alloc: Global,
    heap: &str,
    talk: &str,
    rest: &str,
) -> bool {
    match texts_of(alloc, heap, talk, rest) {
        Ok((text, wanted)) => prints(rt, alloc, &text, &NoGate, &wanted),
        Err(_) => false,
    }
}

const NEW: &str = "\
new 0 0 256
  refused 8
new 0 8 256
  refused 8
new 0 4089 18446744073709551615
  refused 8
new 0 0 255
  refused 4
new 0 4089 0
  refused 4
new 0 18446744073709551615 1
  refused 4
new 0 65537 1
  refused 4
new 0 4088 1
  pointer 0
new 0 0 256
  refused 8
new 0 0 1
  refused 4
new 0 8 1
  refused 2
new 0 4088 1
  refused 2
drop 0 0
  ok
new 0 8 1
  refused 2
";

// A text that makes 256 objects, and more after some are dropped, and what is printed.
fn many_pointers(alloc: Global) -> Result<(String, String), AllocError> {
    let mut text = String::new(alloc);
    let mut wanted = String::new(alloc);
    text.push_str("heap 2 1\n")?;
    wanted.push_str("mutator 0\n")?;
    for pointer in 0..256u64 {
        text.push_str("new 0 1 1\n")?;
        wanted.push_str(&format!(in alloc; "pointer {pointer}\n")?)?;
    }
    text.push_str("new 0 1 1\nnew 0 0 1\ndrop 0 9\nnew 0 4089 1\nnew 0 1 1\nnew 0 1 1\n")?;
    wanted.push_str("refused 3\nrefused 4\nok\nrefused 4\nrefused 2\nrefused 2\nbook\n")?;
    Ok((text, wanted))
}

#[test]
fn a_mutator_has_so_many_pointers(rt: HostRuntime) {
    let Ok((text, wanted)) = many_pointers(rt.alloc()) else {
        panic!(rt; "no text is made");
    };
    assert!(rt; prints(&rt, rt.alloc(), &text, &NoGate, &wanted));
}

// Another mutator has pointer 256.
const SCOPES: &str = "\
new 1 8 1
new 0 8 1
  pointer 0
close 0
  refused 5
read 0 9 9 0
  refused 5
read 0 0 0 8
  refused 5
write 0 9 9 ff
  refused 5
view 0 9
  refused 5
view 0 0
  refused 5
try 0 9
  refused 5
try 0 0
  refused 5
open 0
  ok
open 0
  refused 6
close 0
  ok
close 0
  refused 5
open 0
  ok
";

const POINTERS: &str = "\
new 1 8 1
new 0 9 1
  pointer 0
open 0
  ok
read 0 1 0 1
  refused 7
read 0 256 9 0
  refused 7
read 0 18446744073709551615 0 1
  refused 7
write 0 65536 9 ff
  refused 7
view 0 1
  refused 7
view 0 256
  refused 7
try 0 255
  refused 7
try 0 2048
  refused 7
drop 0 256
  refused 7
drop 0 1
  refused 7
read 0 0 0 0
  refused 8
read 0 0 0 10
  refused 8
read 0 0 9 1
  refused 8
read 0 0 18446744073709551615 1
  refused 8
read 0 0 1 18446744073709551615
  refused 8
write 0 0 8 ffff
  refused 8
write 0 0 18446744073709551615 ff
  refused 8
drop 0 0
  ok
read 0 0 0 1
  refused 7
drop 0 0
  refused 7
";

const VIEWS: &str = "\
new 1 8 1
new 0 9 1
  pointer 0
new 0 4088 255
  pointer 1
open 0
  ok
try 0 0
  ok
drop 0 0
  refused 9
write 0 0 0 aABbcC
  ok
view 0 0
  ok
read 0 0 0 9
  data aabbcc000000000000
drop 0 1
  ok
new 0 1 1
  pointer 1
write 0 1 0 00
  ok
drop 0 1
  refused 9
close 0
  ok
drop 0 0
  ok
drop 0 1
  ok
new 0 8 1
  pointer 0
open 0
  ok
read 0 0 0 8
  data 0000000000000000
";

/// A heap, a talk of its first mutator, and what mutators after it and the book print.
const TALKS: [(&str, &str, &str); 4] = [
    // There are two logs: the second is kept free for rounds.
    ("heap 2 1\n", NEW, "book\n"),
    ("heap 8 2\n", SCOPES, "mutator 1\npointer 256\nbook\n"),
    ("heap 8 2\n", POINTERS, "mutator 1\npointer 256\nbook\n"),
    ("heap 8 2\n", VIEWS, "mutator 1\npointer 256\nbook\n"),
];

#[test]
fn a_mutators_lines_are_refused_in_order(rt: HostRuntime) {
    for (heap, talk, rest) in TALKS {
        assert!(rt; is_answered(&rt, rt.alloc(), heap, talk, rest), "at {talk}");
    }
}
