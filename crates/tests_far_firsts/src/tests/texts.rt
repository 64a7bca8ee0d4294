//! Texts that are printed whole.

use crate::tests::streams::{Ending, FREE, SEED, Side, Slow, Watched, run};
use far_index::{seeded, tag_of_key};
use far_word::Refused;
use std::alloc::Global;

/// A text, what is printed of it, and how many lines it has.
type Row = (&'static [u8], &'static [u8], u64);

#[rattlefmt::skip]
const LINES: &[Row] = &[
    (b"", b"", 0),
    (b"a", b"a\n", 1),
    (b"a\n", b"a\n", 1),
    (b"\n", b"\n", 1),
    (b"\n\n", b"\n", 2),
    (b"a\n\na", b"a\n\n", 3),
    (b"a\nb\n\na\n\nab\nb\nlast\na\nlast", b"a\nb\n\nab\nlast\n", 10),
    (b"a\r\na\na\r\n", b"a\r\na\n", 3),
    (b"\xff\n\xfe\n\0\n\xff\n\0", b"\xff\n\xfe\n\0\n", 5),
    // Two lines of one tag.
    (b"11992950\n19817538\n11992950\n19817538\n", b"11992950\n19817538\n", 4),
];

// Whether a text is printed so, of which each read gives so many bytes, and each write takes so many.
fn prints(alloc: Global, side: Side, few: usize, row: &Row) -> Result<bool, Refused> {
    let mut input = Slow {
        left: row.0,
        step: few,
        fails: 0,
        reads: 0,
    };
    let mut output = Watched::new(alloc, few, 100_000);
    let came = run(alloc, side, &mut input, &mut output)?;
    Ok(came == (row.2, Ending::Done) && output.out.as_slice() == row.1)
}

#[test]
fn lines_are_printed_once(rt: HostRuntime) {
    for row in LINES {
        for few in [1usize, 2, 3, 100_000] {
            assert!(rt;
                prints(rt.alloc(), FREE, few, row) == Ok(true),
                "{few} {}",
                row.2
            );
        }
    }
}

#[test]
fn lines_end_in_nul(rt: HostRuntime) {
    let side = Side {
        end: 0,
        room: 3,
        every: 0,
        longest: 3,
    };
    let row: Row = (b"a\n\0b\0a\n\0\0", b"a\n\0b\0\0", 4);
    assert!(rt; prints(rt.alloc(), side, 100, &row) == Ok(true));
}

#[test]
fn two_lines_have_one_tag(rt: HostRuntime) {
    let hasher = seeded(SEED);
    assert!(rt; tag_of_key(&hasher, b"11992950") == tag_of_key(&hasher, b"19817538"));
    let (Ok(mut one), Ok(mut other)) = (
        long(rt.alloc(), 4_096, b"09190745"),
        long(rt.alloc(), 4_096, b"26097674"),
    ) else {
        return;
    };
    one.pop();
    other.pop();
    assert!(rt; one.len() == 4_096 && one.as_slice() != other.as_slice());
    assert!(rt; tag_of_key(&hasher, one.as_slice()) == tag_of_key(&hasher, other.as_slice()));
}

// A line of so many bytes, of which the last ones are others, and an end.
fn long(alloc: Global, len: usize, last: &[u8]) -> Result<Vec<u8>, Refused> {
    let Ok(mut text) = vec![in alloc; b'x'; len.saturating_sub(last.len())] else {
        return Err(Refused::Memory);
    };
    let (Ok(()), Ok(())) = (text.extend_from_slice(last), text.push(b'\n')) else {
        return Err(Refused::Memory);
    };
    Ok(text)
}

/// How many bytes two lines have, how each ends, and which of the two is printed that come first, second, and once more in that order.
type Long = (usize, &'static [u8], &'static [u8], usize);

#[rattlefmt::skip]
const LONG: &[Long] = &[
    (4_087, b"a", b"a", 1), (4_087, b"a", b"b", 2),
    (4_088, b"a", b"a", 1), (4_088, b"a", b"b", 2),
    (4_089, b"a", b"a", 1), (4_089, b"a", b"b", 2),
    (8_176, b"a", b"a", 1), (8_176, b"a", b"b", 2),
    (8_177, b"a", b"a", 1), (8_177, b"a", b"b", 2),
    (100_000, b"a", b"a", 1), (100_000, b"a", b"b", 2),
    // They differ in their first part, and in their second one.
    (8_177, b"a", &[b'y'; 8_000], 2), (12_264, b"a", &[b'y'; 5_000], 2),
    // Two lines of one tag.
    (4_096, b"09190745", b"26097674", 2),
];

// Whether these lines are printed, the last one with an end or without.
fn takes(alloc: Global, few: usize, closed: bool, row: &Long) -> Result<bool, Refused> {
    let first = long(alloc, row.0, row.1)?;
    let second = long(alloc, row.0, row.2)?;
    let mut text = Vec::new(alloc);
    for line in [
        first.as_slice(),
        second.as_slice(),
        first.as_slice(),
        second.as_slice(),
    ] {
        let Ok(()) = text.extend_from_slice(line) else {
            return Err(Refused::Memory);
        };
    }
    if !closed {
        text.pop();
    }
    let mut input = Slow {
        left: text.as_slice(),
        step: few,
        fails: 0,
        reads: 0,
    };
    let mut output = Watched::new(alloc, 100_000, 400_000);
    let came = run(alloc, FREE, &mut input, &mut output)?;
    let wanted = text.as_slice().get(..first.len().saturating_mul(row.3));
    Ok(came == (4, Ending::Done) && wanted == Some(output.out.as_slice()))
}

#[test]
fn long_lines_are_printed_once(rt: HostRuntime) {
    for row in LONG {
        for few in [1_000usize, 4_088, 100_000] {
            for closed in [true, false] {
                assert!(rt;
                    takes(rt.alloc(), few, closed, row) == Ok(true),
                    "{} {few} {closed}",
                    row.0
                );
            }
        }
    }
}

// So many different lines of five digits.
fn numbers(alloc: Global, count: u32) -> Result<Vec<u8>, Refused> {
    let mut text = Vec::new(alloc);
    for number in 0..count {
        let line = [
            b'0' + (number / 10_000 % 10) as u8,
            b'0' + (number / 1_000 % 10) as u8,
            b'0' + (number / 100 % 10) as u8,
            b'0' + (number / 10 % 10) as u8,
            b'0' + (number % 10) as u8,
            b'\n',
        ];
        let Ok(()) = text.extend_from_slice(&line) else {
            return Err(Refused::Memory);
        };
    }
    Ok(text)
}

// Many lines, each twice: more than an index begins with room for, and than one read gives.
fn prints_many(alloc: Global, count: u32) -> Result<bool, Refused> {
    let text = numbers(alloc, count)?;
    let mut twice = numbers(alloc, count)?;
    let Ok(()) = twice.extend_from_slice(text.as_slice()) else {
        return Err(Refused::Memory);
    };
    let mut input = Slow {
        left: twice.as_slice(),
        step: 100_000,
        fails: 0,
        reads: 0,
    };
    let mut output = Watched::new(alloc, 100_000, 1_000_000);
    let came = run(alloc, FREE, &mut input, &mut output)?;
    Ok(came == (count as u64 * 2, Ending::Done) && output.out.as_slice() == text.as_slice())
}

#[test]
fn many_lines_are_printed_once(rt: HostRuntime) {
    assert!(rt; prints_many(rt.alloc(), 20_000) == Ok(true));
}
