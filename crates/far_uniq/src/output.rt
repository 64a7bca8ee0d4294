//! Standard output, and how many lines it got.

use std::cell::Cell;
use std::io;
use std::io::Write;

/// Standard output. Its lines are counted where that is to be told.
#[derive(Drop)]
pub struct Output<'a> {
    rt: &'a HostRuntime,
    end: u8,
    lines: Option<&'a Cell<u64>>,
}

impl<'a> Output<'a> {
    pub fn new(rt: &'a HostRuntime, end: u8, lines: Option<&'a Cell<u64>>) -> Output<'a> {
        Output { rt, end, lines }
    }
}

impl Write for Output<'_> {
    fn write(&mut self, bytes: &[u8]) -> io::Result<usize> {
        let mut standard = self.rt.stdout();
        let count = standard.write(bytes)?;
        if let (Some(lines), Some(written)) = (self.lines, bytes.get(..count)) {
            lines.set(lines.get().saturating_add(ends_in(written, self.end)));
        }
        Ok(count)
    }

    fn flush(&mut self) -> io::Result<()> {
        let mut standard = self.rt.stdout();
        standard.flush()
    }
}

/// How many lines end in these bytes.
pub fn ends_in(bytes: &[u8], end: u8) -> u64 {
    let mut count = 0u64;
    for byte in bytes {
        if *byte == end {
            count = count.saturating_add(1);
        }
    }
    count
}
