//! The files, one after the other: a file's last line ends where the file does.

ghost use Rattle.std.specs.Prelude.{◌≡◌, ◌≤◌, IfOk, length};

use crate::asked::Asked;
use crate::output::ends_in;
use std::cell::Cell;
use std::fs::File;
use std::io;
use std::io::Read;
use std::time::Instant;

#[derive(Drop)]
pub struct Inputs<'a> {
    rt: &'a HostRuntime,
    files: &'a [String],
    /// How many files were opened.
    opened: usize,
    open: Option<File>,
    end: u8,
    last: u8,
    reads_standard: bool,
    came: Came,
    /// How many lines were printed.
    printed: &'a Cell<u64>,
}

/// How much came, and when that was told.
#[derive(Drop)]
struct Came {
    since: Option<Instant>,
    seconds: u64,
    bytes: u64,
    lines: u64,
}

impl<'a> Inputs<'a> {
    pub fn new(rt: &'a HostRuntime, words: &'a Asked, printed: &'a Cell<u64>) -> Inputs<'a> {
        let since = if words.tells {
            Instant::now(rt).ok()
        } else {
            None
        };
        Inputs {
            rt,
            files: words.files.as_slice(),
            opened: 0,
            open: None,
            end: words.end,
            last: words.end,
            reads_standard: words.files.is_empty(),
            came: Came {
                since,
                seconds: 0,
                bytes: 0,
                lines: 0,
            },
            printed,
        }
    }

    /// The file that is read, if it isn't standard input.
    pub fn name(&self) -> Option<&str> {
        if self.opened == 0 || self.opened > self.files.len() {
            return None;
        }
        let name = self.files[self.opened - 1].as_str();
        if name == "-" { None } else { Some(name) }
    }

    // Bytes of what is open; 0: nothing is, or its end.
    fn read_open(&mut self, out: &mut [u8]) -> io::Result<usize>
        ensures bound { IfOk result (λ count. count ≤ length out.old) }
        ensures long { length out.new ≡ length out.old }
    {
        if self.reads_standard {
            let mut standard = self.rt.stdin();
            return standard.read(out);
        }
        match &mut self.open {
            Some(file) => file.read(out),
            None => Ok(0),
        }
    }

    // Opens the next file, if there is one.
    fn open_next(&mut self) -> io::Result<bool> {
        self.open = None;
        self.reads_standard = false;
        if self.opened >= self.files.len() {
            return Ok(false);
        }
        let name = self.files[self.opened].as_str();
        self.opened += 1;
        if name == "-" {
            self.reads_standard = true;
        } else {
            self.open = Some(File::open(self.rt, name)?);
        }
        Ok(true)
    }

    // Says once a second how much came.
    fn tell(&mut self, read: &[u8]) {
        let Some(since) = &self.came.since else {
            return;
        };
        self.came.bytes = self.came.bytes.saturating_add(read.len() as u64);
        let lines = self.came.lines.saturating_add(ends_in(read, self.end));
        self.came.lines = lines;
        let Ok(elapsed) = since.elapsed(self.rt) else {
            return;
        };
        let seconds = elapsed.as_secs();
        if seconds > self.came.seconds {
            self.came.seconds = seconds;
            let _ = eprintln!(self.rt;
                "far_uniq: {seconds} s: {lines} lines came, {} were printed, {} bytes",
                self.printed.get(),
                self.came.bytes
            );
        }
    }
}

impl Read for Inputs<'_> {
    fn read(&mut self, out: &mut [u8]) -> io::Result<usize> {
        if out.is_empty() {
            return Ok(0);
        }
        for _ in 0..usize::MAX {
            let count = self.read_open(out)?;
            if count > 0 {
                if let Some(last) = out.get(count - 1) {
                    self.last = *last;
                }
                if let Some(read) = out.get(..count) {
                    self.tell(read);
                }
                return Ok(count);
            }
            if self.last != self.end {
                self.last = self.end;
                out[0] = self.end;
                return Ok(1);
            }
            if !self.open_next()? {
                return Ok(0);
            }
        }
        Ok(0)
    }
}
