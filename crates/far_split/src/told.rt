//! What a line answered.

ghost use Rattle.std.specs.Prelude.{◌≡◌, ◌+◌, ◌<◌, ◌≤◌, ◌↔◌, IsTrue, [], length, slice_index_or};
ghost use Rattle.far_reply.specs.declared.reply.LogLine.{LogLine as any_line};
ghost use Rattle.far_split.specs.Kept.{lines_told};

use far_evac::{LogKind, Progress, RoundEnd};
use far_reply::{Counts, LogLine, Reply};
use far_word::{LOG_BYTES, Refused};
use std::marker::Model;

/// What a log has, in words of eight bytes: live ones, of objects that lie there, and dead ones, of objects that were dropped, or have moved or gone far. The
/// others of its 512 words no object takes.
#[derive(Clone, Copy)]
pub(crate) struct LogWords {
    pub(crate) kind: LogKind,
    pub(crate) live: u16,
    pub(crate) dead: u16,
}

impl LogWords {
    ghost use Rattle.std.specs.Prelude.{◌≡◌};
    ghost use Rattle.far_split.specs.Kept.{line_told};

    /// What is told of the log with this number.
    pub(crate) fn line(self, log: u8) -> LogLine
        ensures { result ≡ line_told log self }
    {
        let live = 8 * u64::from(self.live);
        let dead = 8 * u64::from(self.dead);
        LogLine {
            log,
            kind: self.kind,
            live,
            dead,
            unused: u64::from(LOG_BYTES).saturating_sub(live + dead),
        }
    }
}

/// What one line was answered, with all that it tells.
#[derive(Drop)]
pub(crate) enum Answer {
    /// It is done, and tells nothing.
    Done,
    /// The number of a new object's pointer.
    Pointer(u16),
    /// Bytes of an object.
    Data(Vec<u8>),
    /// Logs of the heap, from this one on.
    Logs { first: u8, rows: Vec<LogWords> },
    /// What an audit counts.
    Audited(Counts),
    /// How a round ended.
    Ended(RoundEnd),
    /// It was refused, and why.
    Refused(Refused),
    /// A round was refused after logs had been chosen for it: why, and what its turns had done.
    Halted { why: Refused, so_far: Progress },
}

/// What is told of logs that follow one another.
#[derive(Drop)]
pub struct LogLines<'a> {
    first: u8,
    rows: &'a [LogWords],
}

impl<'a> Model for LogLines<'a> {
    ghost use Rattle.std.specs.Prelude.{◌+◌, ◌≤◌, List, length};
    ghost use Rattle.far_reply.specs.declared.reply.LogLine.{LogLine};
    ghost use Rattle.far_split.specs.Kept.{lines_told};

    ghost Value = { List LogLine };

    ghost view = { λ l. lines_told l.first l.rows.now };

    ghost invariant = { λ l. l.first + length l.rows.now ≤ 256 };
}

// What is told of one of logs that follow one another from one on.
fn line_at(first: u8, rows: &[LogWords], at: usize) -> LogLine
    requires few { first + length rows.now ≤ 256 }
    requires inside { at < length rows.now }
    ensures { (other : any_line) → slice_index_or (lines_told first rows.now) at other ≡ result }
{
    let row = rows[at];
    row.line(first + at as u8)
}

impl<'a> LogLines<'a> {
    pub(crate) fn new(first: u8, rows: &'a [LogWords]) -> LogLines<'a>
        requires { first + length rows.now ≤ 256 }
        ensures { result ≡ lines_told first rows.now }
    {
        LogLines { first, rows }
    }

    /// How many logs they are.
    pub fn len(&self) -> usize
        ensures { result ≡ length self.now }
    {
        self.rows.len()
    }

    /// Whether they are none.
    pub fn is_empty(&self) -> bool
        ensures { IsTrue result ↔ (self.now ≡ []) }
    {
        self.rows.is_empty()
    }

    /// What is told of the log at a place.
    pub fn at(&self, at: usize) -> LogLine
        requires { at < length self.now }
        ensures { (other : any_line) → slice_index_or self.now at other ≡ result }
    {
        line_at(self.first, self.rows, at)
    }
}

/// The reply to a line, with all that it tells.
#[derive(Drop)]
pub enum Told<'a> {
    /// What is told of logs.
    Logs(LogLines<'a>),
    /// Any other reply, as the plain program gives it.
    Reply(Reply<'a>),
}
