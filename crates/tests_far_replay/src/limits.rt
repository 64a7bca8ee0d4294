//! The longest texts, lines and answers; the smallest and largest heaps; all pointers, and the longest objects.

use super::talk::{built, is_made_and_answered, is_made_and_run};
use far_replay::End;
use std::alloc::{AllocError, Global};

// 64 bytes.
const COMMENT: &str = "# one of the many lines of a text that is as long as it may be \n";

// 64 bytes.
const LAST: &str = "# the last comment, and then commands here...\nheap 4 1\nnew 0 8 1";

/// Parts of a text, each so many times; its answer; and how its run ends.
#[derive(Clone, Copy)]
struct Row {
    parts: &'static [(&'static str, u64)],
    answer: &'static str,
    end: End,
}

#[rattlefmt::skip]
const ROWS: &[Row] = &[
    // The longest text has 1,048,576 bytes.
    Row { parts: &[(COMMENT, 16_383), (LAST, 1)], answer: "ok\npointer 0\n", end: End::Ran },
    Row { parts: &[(COMMENT, 16_383), (LAST, 1), ("0", 1)], answer: "refused 16 0\n", end: End::Refused },
    Row { parts: &[(COMMENT, 16_383), (LAST, 1), ("0\nbad\n", 1)], answer: "refused 16 0\n", end: End::Refused },
    Row { parts: &[(COMMENT, 16_383), (LAST, 1), ("0\nbad\n", 1), (COMMENT, 1)], answer: "refused 16 0\n", end: End::Refused },

    // The longest line has 16,384 bytes, with a newline after it or none.
    Row { parts: &[("heap 4 1\n#", 1), ("0", 16_383)], answer: "ok\n", end: End::Ran },
    Row { parts: &[("heap 4 1\n#", 1), ("0", 16_383), ("\n", 1)], answer: "ok\n", end: End::Ran },
    Row { parts: &[("heap 4 1\n#", 1), ("0", 16_384)], answer: "refused 16 2\n", end: End::Refused },
    Row { parts: &[("heap 4 1\n#", 1), ("0", 16_384), ("\n", 1)], answer: "refused 16 2\n", end: End::Refused },
    Row { parts: &[("heap 4 1\nwrite 1 1 1 ", 1), ("0", 16_372)], answer: "ok\nrefused 8\n", end: End::Ran },
    Row { parts: &[("heap 4 1\nwrite 1 1 1 ", 1), ("0", 16_372), ("\n", 1)], answer: "ok\nrefused 8\n", end: End::Ran },
    Row { parts: &[("heap 4 1\nwrite 1 1 11 ", 1), ("0", 16_372)], answer: "refused 16 2\n", end: End::Refused },
    Row { parts: &[("heap 4 1\nwrite 1 1 11 ", 1), ("0", 16_372), ("\n", 1)], answer: "refused 16 2\n", end: End::Refused },
];

// Whether a row's text is answered so.
fn comes_out(alloc: Global, row: &Row) -> bool {
    is_made_and_run(alloc, built(alloc, row.parts), row.answer, row.end)
}

#[test]
fn the_longest_texts_and_lines(rt: HostRuntime) {
    assert!(rt; 16_383 * COMMENT.len() + LAST.len() == 1_048_576);
    for (at, row) in ROWS.iter().enumerate() {
        assert!(rt; comes_out(rt.alloc(), row), "row {at}");
    }
}

// Adds the answer to `logs`, of logs from one on that are free.
fn push_logs(talk: &mut String, alloc: Global, logs: u64) -> Result<(), AllocError> {
    talk.push_str("logs\n  log 0 open live 0 dead 0 unused 4096\n")?;
    for log in 1..logs {
        let line = format!(in alloc; "  log {log} free live 0 dead 0 unused 4096\n")?;
        talk.push_str(&line)?;
    }
    Ok(())
}

// A talk of a heap of this size, whose mutators open their scopes.
fn size_talk(alloc: Global, logs: u64, mutators: u64) -> Result<String, AllocError> {
    let mut talk = format!(in alloc; "heap {logs} {mutators}\n  ok\n")?;
    push_logs(&mut talk, alloc, logs)?;
    for mutator in 0..mutators {
        talk.push_str(&format!(in alloc; "open {mutator}\n  ok\n")?)?;
    }
    talk.push_str(&format!(in alloc; "open {mutators}\n  refused 8\n")?)?;
    Ok(talk)
}

// Whether it is answered so.
fn is_size(alloc: Global, logs: u64, mutators: u64) -> bool {
    is_made_and_answered(alloc, size_talk(alloc, logs, mutators))
}

#[test]
fn smallest_and_largest_heaps(rt: HostRuntime) {
    assert!(rt; is_size(rt.alloc(), 2, 1) && is_size(rt.alloc(), 2, 8));
    assert!(rt; is_size(rt.alloc(), 64, 1) && is_size(rt.alloc(), 64, 8));
}

// Adds 256 objects of a byte, whose pointers are numbered from this one on, and one more that gets no pointer.
fn push_all_pointers(talk: &mut String, alloc: Global, mutator: u64) -> Result<(), AllocError> {
    for i in 0u64..256 {
        let pointer = (mutator % 8) * 256 + i;
        let line = format!(in alloc; "new {mutator} 1 1\n  pointer {pointer}\n")?;
        talk.push_str(&line)?;
    }
    talk.push_str(&format!(in alloc; "new {mutator} 1 1\n  refused 3\n")?)
}

// A talk in which one mutator uses up its pointers, and a log: 256 spans of 16 bytes.
fn all_cells_talk(alloc: Global) -> Result<String, AllocError> {
    let mut talk = String::new(alloc);
    talk.push_str("heap 4 1\n  ok\n")?;
    push_all_pointers(&mut talk, alloc, 0)?;
    talk.push_str("log 0\n  log 0 open live 4096 dead 0 unused 0\n")?;
    Ok(talk)
}

// A talk in which each mutator uses up its pointers.
fn all_pointers_talk(alloc: Global) -> Result<String, AllocError> {
    let mut talk = String::new(alloc);
    talk.push_str("heap 64 8\n  ok\n")?;
    for mutator in [7, 0, 3, 1, 6, 2, 5, 4] {
        push_all_pointers(&mut talk, alloc, mutator)?;
    }
    talk.push_str("new 8 1 1\n  refused 8\nopen 7\n  ok\nread 7 2047 0 1\n  data 00\n")?;
    Ok(talk)
}

// Another mutator fills the second log. With both logs full and all pointers used up, 3 comes before 2.
const USED_UP: &str = "\
new 1 4088 1
  pointer 256
new 0 4088 255
  refused 3
new 0 0 1
  refused 4
new 0 4089 1
  refused 4
new 0 0 256
  refused 8
new 1 1 1
  refused 2
new 1 4088 255
  refused 2
new 1 0 1
  refused 4
new 1 1 256
  refused 8
new 2 1 1
  refused 8
logs
  log 0 sealed live 4096 dead 0 unused 0
  log 1 open live 4096 dead 0 unused 0
  log 2 free live 0 dead 0 unused 4096
";

// A talk in which one mutator uses up its pointers, and two the room.
fn used_up_talk(alloc: Global) -> Result<String, AllocError> {
    let mut talk = String::new(alloc);
    talk.push_str("heap 3 2\n  ok\n")?;
    push_all_pointers(&mut talk, alloc, 0)?;
    talk.push_str(USED_UP)?;
    Ok(talk)
}

// After 63 of the longest objects there is no room, and the last is written and read.
const FULL: &[(&str, u64)] = &[
    (
        "new 0 4088 1\n  refused 2\nnew 0 1 1\n  refused 2\nwrite 0 62 0 ",
        1,
    ),
    ("5a", 4088),
    ("\n  ok\nread 0 62 0 4088\n  data ", 1),
    ("5a", 4088),
    (
        "\nread 0 61 4087 1\n  data 00\nread 0 62 4087 1\n  data 5a\n",
        1,
    ),
];

// The talk that makes them.
fn longest_objects_talk(alloc: Global) -> Result<String, AllocError> {
    let mut talk = String::new(alloc);
    talk.push_str("heap 64 1\n  ok\nopen 0\n  ok\n")?;
    for pointer in 0u64..63 {
        let line = format!(in alloc; "new 0 4088 1\n  pointer {pointer}\n")?;
        talk.push_str(&line)?;
    }
    talk.push_str(&built(alloc, FULL)?)?;
    Ok(talk)
}

#[test]
fn pointers_and_room_are_used_up(rt: HostRuntime) {
    let alloc = rt.alloc();
    assert!(rt; is_made_and_answered(alloc, all_cells_talk(alloc)));
    assert!(rt; is_made_and_answered(alloc, all_pointers_talk(alloc)));
    assert!(rt; is_made_and_answered(alloc, used_up_talk(alloc)));
    assert!(rt; is_made_and_answered(alloc, longest_objects_talk(alloc)));
}
