//! Inputs and outputs that are interrupted, that take nothing, or are asked how often.

use crate::tests::streams::{SEED, Slow, Watched};
use far_double::Double;
use far_firsts::{Ending, Why, count_lines, uniq};
use far_index::{seeded, tag_of_key};
use far_seen::{Seen, Tally};
use far_word::Refused;
use std::alloc::Global;
use std::io;
use std::io::{Error, ErrorKind, Read, Write};

/// Each second call is interrupted. What is left to be read, or what was written.
#[derive(Drop)]
struct Restless {
    bytes: Vec<u8>,
    done: usize,
    calls: u64,
}

impl Restless {
    fn new(bytes: Vec<u8>) -> Restless {
        Restless {
            bytes,
            done: 0,
            calls: 0,
        }
    }

    fn is_interrupted(&mut self) -> bool {
        self.calls = self.calls.saturating_add(1);
        self.calls % 2 == 1
    }
}

impl Read for Restless {
    fn read(&mut self, out: &mut [u8]) -> io::Result<usize> {
        if self.is_interrupted() {
            return Err(Error::from(ErrorKind::Interrupted));
        }
        let from = self.done.min(self.bytes.len());
        let left = &self.bytes.as_slice()[from..];
        let count = left.len().min(3).min(out.len());
        out[..count].copy_from_slice(&left[..count]);
        self.done = self.done.saturating_add(count);
        Ok(count)
    }
}

impl Write for Restless {
    fn write(&mut self, bytes: &[u8]) -> io::Result<usize> {
        if self.is_interrupted() {
            return Err(Error::from(ErrorKind::Interrupted));
        }
        let count = bytes.len().min(3);
        match self.bytes.extend_from_slice(&bytes[..count]) {
            Ok(()) => Ok(count),
            Err(_) => Err(Error::from(ErrorKind::OutOfMemory)),
        }
    }

    fn flush(&mut self) -> io::Result<()> {
        Ok(())
    }
}

const TEXT: &[u8] = b"a\nb\na\nc";

// Whether a text is printed whole, and counted, by calls of which each second is interrupted.
fn goes_on(alloc: Global) -> Result<bool, Refused> {
    let (Ok(text), Ok(again)) = (Vec::from_slice(alloc, TEXT), Vec::from_slice(alloc, TEXT)) else {
        return Err(Refused::Memory);
    };
    let (mut input, mut output) = (Restless::new(text), Restless::new(Vec::new(alloc)));
    let mut seen = Seen::new(alloc, Double::new(alloc, true, 9, 0), SEED)?;
    let end = uniq(alloc, &mut seen, b'\n', 9, &mut input, &mut output);
    let printed: &[u8] = b"a\nb\nc\n";
    let right = end.lines == 4
        && matches!(end.why, Why::Done)
        && output.bytes.as_slice() == printed;
    let (mut input, mut output) = (Restless::new(again), Restless::new(Vec::new(alloc)));
    let mut tally = Tally::new(alloc, Double::new(alloc, true, 9, 0), SEED)?;
    let counted = count_lines(alloc, &mut tally, b'\n', 9, &mut input, &mut output);
    let printed: &[u8] = b"      2 a\n      1 b\n      1 c\n";
    Ok(
        right
            && counted.lines == 4
            && matches!(counted.ending, Ending::Done)
            && output.bytes.as_slice() == printed,
    )
}

#[test]
fn calls_that_are_interrupted_are_made_again(rt: HostRuntime) {
    assert!(rt; goes_on(rt.alloc()) == Ok(true));
}

/// Takes nothing a thousand times.
#[derive(Drop)]
struct Idle {
    calls: u64,
}

impl Write for Idle {
    fn write(&mut self, bytes: &[u8]) -> io::Result<usize> {
        self.calls = self.calls.saturating_add(1);
        if self.calls <= 1_000 {
            return Ok(0);
        }
        Ok(bytes.len())
    }

    fn flush(&mut self) -> io::Result<()> {
        Ok(())
    }
}

// Whether an output that takes nothing is told so, at its first call.
fn is_told(alloc: Global) -> Result<bool, Refused> {
    let mut output = Idle { calls: 0 };
    let mut seen = Seen::new(alloc, Double::new(alloc, true, 9, 0), SEED)?;
    let mut input = TEXT;
    let end = uniq(alloc, &mut seen, b'\n', 9, &mut input, &mut output);
    let kind = match &end.why {
        Why::Output(e) => Some(e.kind()),
        _ => None,
    };
    Ok(output.calls == 1 && kind == Some(ErrorKind::WriteZero))
}

#[test]
fn an_output_that_takes_nothing_is_told(rt: HostRuntime) {
    assert!(rt; is_told(rt.alloc()) == Ok(true));
}

/// How long a text of one line is, how many bytes there are at a time, and how often it is read: once more than it gives bytes.
type Reads = (usize, usize, u64);

#[rattlefmt::skip]
const READS: &[Reads] = &[(0, 9, 1), (9, 9, 2), (10, 9, 3), (100_000, 1_000_000, 3)];

fn is_read_so(alloc: Global, row: &Reads) -> Result<bool, Refused> {
    let Ok(text) = vec![in alloc; b'x'; row.0] else {
        return Err(Refused::Memory);
    };
    let mut input = Slow {
        left: text.as_slice(),
        step: row.1,
        fails: 0,
        reads: 0,
    };
    let mut output = Watched::new(alloc, 1_000_000, 1_000_000);
    let mut seen = Seen::new(alloc, Double::new(alloc, true, 99, 0), SEED)?;
    let end = uniq(alloc, &mut seen, b'\n', 100_000, &mut input, &mut output);
    let once = input.reads == row.2 && matches!(end.why, Why::Done);
    input.left = text.as_slice();
    let mut tally = Tally::new(alloc, Double::new(alloc, true, 99, 0), SEED)?;
    let counted = count_lines(alloc, &mut tally, b'\n', 100_000, &mut input, &mut output);
    Ok(once && input.reads == row.2.saturating_mul(2) && matches!(counted.ending, Ending::Done))
}

// What is there is read at once, up to 65,536 bytes, and nothing is read after the end.
#[test]
fn an_input_is_read_so_often(rt: HostRuntime) {
    for row in READS {
        assert!(rt; is_read_so(rt.alloc(), row) == Ok(true), "{}", row.0);
    }
}

// Two lines of one tag whose lengths differ are made, and neither is read: two calls of a set's worker, and of a tally's.
fn are_not_read(alloc: Global) -> Result<bool, Refused> {
    let (short, long): (&[u8], &[u8]) = (b"6764031", b"28007295");
    let hasher = seeded(SEED);
    let mut seen = Seen::new(alloc, Double::new(alloc, true, 9, 0), SEED)?;
    let mut tally = Tally::new(alloc, Double::new(alloc, true, 9, 0), SEED)?;
    let new = seen.first(short) == Ok(true) && seen.first(long) == Ok(true);
    let counted = tally.add(short) == Ok(()) && tally.add(long) == Ok(());
    Ok(
        new && counted
            && tag_of_key(&hasher, short) == tag_of_key(&hasher, long)
            && seen.worker().calls() == 2
            && tally.worker().calls() == 2,
    )
}

#[test]
fn no_line_of_another_length_is_read(rt: HostRuntime) {
    assert!(rt; are_not_read(rt.alloc()) == Ok(true));
}

/// How many lines of nine bytes there are, each once, and how often counts of them are written.
type Writes = (u32, u64);

#[rattlefmt::skip]
const WRITES: &[Writes] = &[(0, 0), (1, 1), (1_000, 1), (10_000, 6)];

fn is_written_so(alloc: Global, row: &Writes) -> Result<bool, Refused> {
    let mut text = Vec::new(alloc);
    for line in 0..row.0 {
        let digits = [
            b'0' + (line / 1_000 % 10) as u8,
            b'0' + (line / 100 % 10) as u8,
            b'0' + (line / 10 % 10) as u8,
            b'0' + (line % 10) as u8,
            b' ',
            b'l',
            b'i',
            b'n',
            b'e',
            b'\n',
        ];
        let Ok(()) = text.extend_from_slice(&digits) else {
            return Err(Refused::Memory);
        };
    }
    let mut output = Watched::new(alloc, 1_000_000, 1_000_000);
    let mut tally = Tally::new(alloc, Double::new(alloc, true, 10_000, 0), SEED)?;
    let mut input = text.as_slice();
    let counted = count_lines(alloc, &mut tally, b'\n', 9, &mut input, &mut output);
    Ok(
        matches!(counted.ending, Ending::Done)
            && output.writes == row.1
            && output.out.len() == row.0 as usize * 18,
    )
}

// Counts are written 32 KiB at a time.
#[test]
fn counts_are_written_so_often(rt: HostRuntime) {
    for row in WRITES {
        assert!(rt; is_written_so(rt.alloc(), row) == Ok(true), "{}", row.0);
    }
}
