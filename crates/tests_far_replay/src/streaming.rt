//! Readers and writers that give or take a few bytes a call, and that fail at one call and at no other.

use super::talk::built;
use far_replay::{End, RunFault, run};
use std::alloc::Global;
use std::io::{ErrorKind, Read, Write};
use std::{io, str};

/// Gives a few bytes a read. The read of one number fails, and those after it do not.
#[derive(Drop)]
struct OnceFailing<'a> {
    rest: &'a [u8],
    most: usize,
    reads: u64,
    fails_at: u64,
    kind: ErrorKind,
}

impl Read for OnceFailing<'_> {
    fn read(&mut self, buf: &mut [u8]) -> io::Result<usize> {
        self.reads = self.reads.saturating_add(1);
        if self.reads == self.fails_at {
            return Err(io::Error::from(self.kind));
        }
        let n = self.rest.len().min(self.most).min(buf.len());
        buf[..n].copy_from_slice(&self.rest[..n]);
        self.rest = &self.rest[n..];
        Ok(n)
    }
}

/// Takes a few bytes a write. The write of one number fails, and those after it do not: it takes nothing, or is an error.
#[derive(Drop)]
struct OnceRefusing {
    taken: Vec<u8>,
    most: usize,
    writes: u64,
    fails_at: u64,
    failure: Option<ErrorKind>,
}

impl Write for OnceRefusing {
    fn write(&mut self, buf: &[u8]) -> io::Result<usize> {
        self.writes = self.writes.saturating_add(1);
        if self.writes == self.fails_at {
            return match self.failure {
                None => Ok(0),
                Some(kind) => Err(io::Error::from(kind)),
            };
        }
        let n = buf.len().min(self.most);
        self.taken.extend_from_slice(&buf[..n])?;
        Ok(n)
    }

    fn flush(&mut self) -> io::Result<()> {
        Ok(())
    }
}

const TEXT: &str = "\
heap 4 1
new 0 8 1
new 0 8 1
open 0
write 0 0 0 0102030405060708
close 0
new 0 4088 1
round oldest 1 9
where 0 0
where 0 1
log 0
log 1
log 2
audit
open 0
read 0 0 0 8
read 0 1 0 8
where 0 1";

const ANSWER: &str = "\
ok
pointer 0
pointer 1
ok
ok
ok
pointer 2
round done moved 1 far 1 dropped 0 freed 1
near 2 0 -
far -
log 0 free live 0 dead 0 unused 4096
log 1 sealed live 4096 dead 0 unused 0
log 2 open live 16 dead 0 unused 4080
audit near 2 far 1 live 4112
ok
data 0102030405060708
data 0000000000000000
near 2 2 h
";

const KINDS: [ErrorKind; 5] = [
    ErrorKind::Interrupted,
    ErrorKind::WouldBlock,
    ErrorKind::UnexpectedEof,
    ErrorKind::OutOfMemory,
    ErrorKind::Other,
];

// Runs a text by a reader of which one read fails: the end, what was written, and how often it was read.
fn run_read(
    alloc: Global,
    text: &str,
    most: usize,
    fails_at: u64,
    kind: ErrorKind,
) -> (Result<End, RunFault>, Vec<u8>, u64) {
    let mut reader = OnceFailing {
        rest: text.as_bytes(),
        most,
        reads: 0,
        fails_at,
        kind,
    };
    let mut written = Vec::new(alloc);
    let ended = run(alloc, &mut reader, &mut written);
    (ended, written, reader.reads)
}

// Runs a text by a writer of which one write fails.
fn run_written(
    alloc: Global,
    text: &str,
    most: usize,
    fails_at: u64,
    failure: Option<ErrorKind>,
) -> (Result<End, RunFault>, OnceRefusing) {
    let mut reader = text.as_bytes();
    let mut writer = OnceRefusing {
        taken: Vec::new(alloc),
        most,
        writes: 0,
        fails_at,
        failure,
    };
    let ended = run(alloc, &mut reader, &mut writer);
    (ended, writer)
}

// Whether a run of the text by a reader whose read of this number fails ends there, writes nothing, and doesn't read again.
fn fails_to_read(alloc: Global, fails_at: u64) -> bool {
    let kind = KINDS[(fails_at % 5) as usize];
    let (ended, written, reads) = run_read(alloc, TEXT, 1, fails_at, kind);
    ended == Err(RunFault::Read) && written.is_empty() && reads == fails_at
}

// Whether it is answered by a reader that gives so many bytes a read, of which none fails.
fn reads_by(alloc: Global, most: usize) -> bool {
    let end = TEXT.len() as u64 + 1;
    let (ended, written, reads) = run_read(alloc, TEXT, most, end + 1, ErrorKind::Other);
    ended == Ok(End::Ran) && written.as_slice() == ANSWER.as_bytes() && reads <= end
}

#[test]
fn cut_each_read(rt: HostRuntime) {
    for fails_at in 1..TEXT.len() as u64 + 2 {
        assert!(rt; fails_to_read(rt.alloc(), fails_at), "at {fails_at}");
    }
    assert!(rt; reads_by(rt.alloc(), 1) && reads_by(rt.alloc(), 2));
    assert!(rt; reads_by(rt.alloc(), 7) && reads_by(rt.alloc(), 4096));
}

// Whether a text that is too long is refused after so many reads, the next of which would fail.
fn is_too_long(alloc: Global, text: &str, most: usize, reads: u64) -> bool {
    let fails_at = reads.saturating_add(1);
    let (ended, written, found) = run_read(alloc, text, most, fails_at, ErrorKind::Other);
    ended == Ok(End::Refused)
        && written.as_slice() == b"refused 16 0\n".as_slice()
        && found == reads
}

#[test]
fn nothing_is_read_after_the_first_byte_too_many(rt: HostRuntime) {
    let Ok(text) = built(rt.alloc(), &[("#", 1_048_577)]) else {
        panic!(rt; "no text is made");
    };
    assert!(rt; is_too_long(rt.alloc(), &text, 65_536, 17));
    assert!(rt; is_too_long(rt.alloc(), &text, 1, 1_048_577));
}

// Whether a run of the text by a writer that fails after so many bytes ends there, with them written, and doesn't write again.
fn fails_to_write(alloc: Global, before: u64, failure: Option<ErrorKind>) -> bool {
    let (ended, writer) = run_written(alloc, TEXT, 1, before.saturating_add(1), failure);
    ended == Err(RunFault::Write)
        && writer.taken.len() as u64 == before
        && writer.writes == before.saturating_add(1)
        && ANSWER.as_bytes().starts_with(&writer.taken)
}

// Whether the answer is written by a writer that takes so many bytes a write, of which none fails.
fn writes_by(alloc: Global, most: usize) -> bool {
    let (ended, writer) = run_written(alloc, TEXT, most, 0, None);
    ended == Ok(End::Ran) && writer.taken.as_slice() == ANSWER.as_bytes()
}

// The same, whether that write takes nothing or is an error.
fn fails_both_ways(alloc: Global, before: u64) -> bool {
    let kind = KINDS[(before % 5) as usize];
    fails_to_write(alloc, before, None) && fails_to_write(alloc, before, Some(kind))
}

#[test]
fn cut_each_write(rt: HostRuntime) {
    for before in 0..ANSWER.len() as u64 {
        assert!(rt; fails_both_ways(rt.alloc(), before), "at {before}");
    }
    assert!(rt; writes_by(rt.alloc(), 1) && writes_by(rt.alloc(), 2));
    assert!(rt; writes_by(rt.alloc(), 7) && writes_by(rt.alloc(), 4096));
}

// Whether nothing is written after the piece of this number, which fails, of what is a part of the whole.
fn ends_at_piece(alloc: Global, text: &str, whole: &[u8], piece: u64) -> bool {
    let (ended, writer) = run_written(alloc, text, usize::MAX, piece, None);
    ended == Err(RunFault::Write)
        && writer.writes == piece
        && whole.starts_with(&writer.taken)
        && writer.taken.len() < whole.len()
}

// The same of each piece of a long answer, of which there are few.
fn ends_at_each(alloc: Global, text: &str) -> bool {
    let (ended, whole) = run_written(alloc, text, usize::MAX, 0, None);
    if ended != Ok(End::Ran) || whole.taken.len() <= 400_000 || whole.writes > 10 {
        return false;
    }
    for piece in 1..whole.writes.saturating_add(1) {
        if !ends_at_piece(alloc, text, &whole.taken, piece) {
            return false;
        }
    }
    true
}

// `logs` of the largest heap, again and again: each time more than 2,500 bytes of answer.
const LONG: &[(&str, u64)] = &[("heap 64 8\n", 1), ("logs\n", 175)];

#[test]
fn long_answers_are_written_in_few_pieces(rt: HostRuntime) {
    let Ok(text) = built(rt.alloc(), LONG) else {
        panic!(rt; "no text is made");
    };
    assert!(rt; ends_at_each(rt.alloc(), &text));
}

// Whether these are the answers to so many of the first lines.
fn are_first_answers(written: &[u8], lines: usize) -> bool {
    let Ok(written) = str::from_utf8(written) else {
        return false;
    };
    ANSWER.starts_with(written)
        && written.lines().count() == lines
        && (lines == 0 || written.ends_with('\n'))
}

// Whether a text is refused for this line.
fn is_refused_at(alloc: Global, written: &[u8], line: usize) -> bool {
    match format!(in alloc; "refused 16 {line}\n") {
        Ok(refused) => written == refused.as_bytes(),
        Err(_) => false,
    }
}

// Whether a part of the text from its begin on runs, each of its lines answered, or its last line is the one that is off the grammar.
fn is_cut_so(alloc: Global, len: usize) -> bool {
    let part = TEXT.get(..len).unwrap_or("");
    let (ended, written, _) = run_read(alloc, part, 4096, 0, ErrorKind::Other);
    match ended {
        Ok(End::Ran) => are_first_answers(&written, part.lines().count()),
        Ok(End::Refused) => is_refused_at(alloc, &written, part.split('\n').count()),
        Err(_) => false,
    }
}

#[test]
fn cut_each(rt: HostRuntime) {
    for len in 0..TEXT.len() {
        assert!(rt; is_cut_so(rt.alloc(), len), "after {len}");
    }
}
