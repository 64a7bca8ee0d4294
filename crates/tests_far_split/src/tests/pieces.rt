//! How often a run calls its writer.

use far_reply::Output;
use far_split::{NoGate, run_split};
use std::alloc::{AllocError, Global};
use std::io;
use std::io::Write;
use std::sync::Wait;
use std::thread::Threads;

/// Takes what it is given, and counts its calls and bytes.
#[derive(Drop)]
struct Counting {
    writes: u64,
    bytes: u64,
}

impl Write for Counting {
    fn write(&mut self, buf: &[u8]) -> io::Result<usize> {
        self.writes = self.writes.saturating_add(1);
        self.bytes = self.bytes.saturating_add(buf.len() as u64);
        Ok(buf.len())
    }

    fn flush(&mut self) -> io::Result<()> {
        Ok(())
    }
}

// `logs` of the largest heap, so many times: each time more than 2,400 bytes of answer.
fn logs_of(alloc: Global, count: u64) -> Result<String, AllocError> {
    let mut text = String::from_str(alloc, "heap 64 8\n")?;
    for _ in 0..count {
        text.push_str("logs\n")?;
    }
    Ok(text)
}

// The writer of a run of such a text. `None` if it doesn't come to its end.
fn counted<R: Threads + Wait + Sync>(rt: &R, alloc: Global, count: u64) -> Option<Counting> {
    let Ok(text) = logs_of(alloc, count) else {
        return None;
    };
    let Ok(mut buffer) = Output::new(alloc) else {
        return None;
    };
    let Ok(told) = run_split(alloc, rt, text.as_bytes(), &NoGate) else {
        return None;
    };
    let mut writer = Counting {
        writes: 0,
        bytes: 0,
    };
    match told.print(&mut buffer, &mut writer) {
        Ok(()) => Some(writer),
        Err(_) => None,
    }
}

// Whether so long an answer is written in so few pieces.
fn is_written_in<R: Threads + Wait + Sync>(rt: &R, alloc: Global, count: u64, most: u64) -> bool {
    match counted(rt, alloc, count) {
        Some(writer) => writer.writes <= most && writer.bytes > count.saturating_mul(2_400),
        None => false,
    }
}

#[test]
fn long_answers_are_written_in_few_pieces(rt: HostRuntime) {
    assert!(rt; is_written_in(&rt, rt.alloc(), 1, 1));
    assert!(rt; is_written_in(&rt, rt.alloc(), 175, 10));
}
