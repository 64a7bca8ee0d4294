//! An input that gives few bytes at a time, an output that takes few, and a run of the two.

use far_double::Double;
use far_firsts::{End, Why, uniq};
use far_seen::Seen;
use far_word::Refused;
use std::alloc::Global;
use std::io;
use std::io::{Error, ErrorKind, Read, Write};

/// What lines are hashed with.
pub(crate) const SEED: [u8; 16] = [7; 16];

/// Gives `step` bytes at a time. Read number `fails` fails, counted from 1.
#[derive(Drop)]
pub(crate) struct Slow<'a> {
    pub left: &'a [u8],
    pub step: usize,
    pub fails: u64,
    pub reads: u64,
}

impl Read for Slow<'_> {
    fn read(&mut self, out: &mut [u8]) -> io::Result<usize> {
        self.reads = self.reads.saturating_add(1);
        if self.reads == self.fails {
            return Err(Error::from(ErrorKind::Other));
        }
        let count = self.left.len().min(self.step).min(out.len());
        out[..count].copy_from_slice(&self.left[..count]);
        self.left = &self.left[count..];
        Ok(count)
    }
}

/// Takes `most` bytes at a time, and `room` in all: then its reader is gone.
#[derive(Drop)]
pub(crate) struct Watched {
    pub out: Vec<u8>,
    pub most: usize,
    pub room: usize,
    pub writes: u64,
    pub flushes: u64,
}

impl Watched {
    pub(crate) fn new(alloc: Global, most: usize, room: usize) -> Watched {
        Watched {
            out: Vec::new(alloc),
            most,
            room,
            writes: 0,
            flushes: 0,
        }
    }
}

impl Write for Watched {
    fn write(&mut self, bytes: &[u8]) -> io::Result<usize> {
        self.writes = self.writes.saturating_add(1);
        let count = bytes
            .len()
            .min(self.most)
            .min(self.room.saturating_sub(self.out.len()));
        if count == 0 {
            return Err(Error::from(ErrorKind::BrokenPipe));
        }
        match self.out.extend_from_slice(&bytes[..count]) {
            Ok(()) => Ok(count),
            Err(_) => Err(Error::from(ErrorKind::OutOfMemory)),
        }
    }

    fn flush(&mut self) -> io::Result<()> {
        self.flushes = self.flushes.saturating_add(1);
        Ok(())
    }
}

/// How a run ended.
#[derive(Clone, Copy, Debug, PartialEq, Eq)]
pub(crate) enum Ending {
    Done,
    Long,
    NoRoom,
    Device,
    Input,
    Output,
    Other,
}

fn name_of(why: &Why) -> Ending {
    match why {
        Why::Done => Ending::Done,
        Why::Refused(Refused::Length) => Ending::Long,
        Why::Refused(Refused::NoRoom) => Ending::NoRoom,
        Why::Refused(Refused::Device) => Ending::Device,
        Why::Input(_) => Ending::Input,
        Why::Output(_) => Ending::Output,
        _ => Ending::Other,
    }
}

/// The far side of a run, and what ends its lines.
#[derive(Clone, Copy)]
pub(crate) struct Side {
    pub end: u8,
    /// For how many objects it has room.
    pub room: usize,
    /// Each call of so many is refused; 0: none.
    pub every: u64,
    /// How many bytes a line may have.
    pub longest: usize,
}

/// Lines end in a newline, and nothing is refused.
pub(crate) const FREE: Side = Side {
    end: b'\n',
    room: 100_000,
    every: 0,
    longest: 200_000,
};

/// A run over an empty set: how many lines came, and how it ended.
pub(crate) fn run(
    alloc: Global,
    side: Side,
    input: &mut Slow<'_>,
    output: &mut Watched,
) -> Result<(u64, Ending), Refused> {
    let double = Double::new(alloc, true, side.room, side.every);
    let mut seen = Seen::new(alloc, double, SEED)?;
    let end: End = uniq(alloc, &mut seen, side.end, side.longest, input, output);
    Ok((end.lines, name_of(&end.why)))
}
