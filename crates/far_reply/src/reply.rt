//! Replies, and the lines that they are printed as.

ghost use Rattle.std.specs.Prelude.{◌≡◌, ◌<◌, ◌≤◌, ◌+◌, ◌*◌, ◌++◌, codes, decimal, length};
ghost use Rattle.std.specs.List.{flat_map};
ghost use Rattle.far_word.specs.declared.sizes.TheConstants.{MOST_LOGS};
ghost use Rattle.far_reply.specs.declared.reply.TheConstants.{LONGEST_REPLY};
ghost use Rattle.far_word.specs.Refused.{refusal_number};
ghost use Rattle.far_reply.specs.Reply.{IsShort, chosen_text, counted_text, counts_printed, detail, done_text, end_text, halted_text, home_printed, kind_word, letters_of, log_listed, log_text, mark_letter, phase_word, reply_text, refusal_text, reply_of, waiting_text};

use crate::output::Output;
use far_book::Home;
use far_evac::{LogKind, Marked, Phase, Progress, RoundEnd};
use far_word::{Marks, Refused};

/// Room for any reply, in bytes: none is printed with more.
pub const LONGEST_REPLY: usize = 16_384;

/// What is told of one log: its number, its kind, and its bytes: live ones, of objects that lie there; dead ones, of objects that
/// were dropped, or have moved or gone far; and those that no object takes.
#[derive(Clone, Copy)]
pub struct LogLine {
    pub log: u8,
    pub kind: LogKind,
    pub live: u64,
    pub dead: u64,
    pub unused: u64,
}

/// What an audit counts: the objects that are near, those that are far, and the bytes of all logs that objects in use take.
#[derive(Clone, Copy)]
pub struct Counts {
    pub near: u16,
    pub far: u16,
    pub live: u64,
}

/// What a command answers. Bytes and lists stand elsewhere, and are lent.
#[derive(Clone, Copy)]
pub enum Reply<'a> {
    /// The command is done, and tells nothing.
    Done,
    /// The number of a new object's pointer.
    Pointer(u16),
    /// Bytes of an object, 4,088 at most where it is printed.
    Data(&'a [u8]),
    /// Logs of a heap, 64 at most where they are printed.
    Logs(&'a [LogLine]),
    /// Where an object is.
    Lies(Home),
    /// What an audit counts.
    Audited(Counts),
    /// The epoch that a mutator read.
    EpochRead(u64),
    /// The logs that were chosen for a round, fewer than 256 where they are printed.
    Selected(&'a [u8]),
    /// How many objects were marked for a round, and, once all are marked, the epoch that the round waits for.
    Marked(&'a Marked),
    /// No mutator holds the round up.
    Clear,
    /// What became of a round's objects so far.
    Evacuated(&'a Progress),
    /// How a round ended.
    Ended(&'a RoundEnd),
    /// The command is refused, and why.
    Refused(Refused),
    /// A step was refused in its midst, and why; what became of a round's objects before.
    Halted(Refused, &'a Progress),
}

fn push_kind(kind: LogKind, out: &mut Output)
    requires { length out.old + 10 ≤ Output.CAPACITY }
    ensures grown { out.new ≡ out.old ++ kind_word kind }
    ensures short { length out.new ≤ length out.old + 6 }
{
    match kind {
        LogKind::Free => out.push(b"free"),
        LogKind::Open => out.push(b"open"),
        LogKind::Sealed => out.push(b"sealed"),
        LogKind::Chosen => out.push(b"chosen"),
    }
}

fn push_log(line: &LogLine, out: &mut Output)
    requires { length out.old + 200 ≤ Output.CAPACITY }
    ensures grown { out.new ≡ out.old ++ log_text line.now }
    ensures short { length out.new ≤ length out.old + 200 }
{
    out.push(b"log ");
    out.push_number(u64::from(line.log));
    out.push(b" ");
    push_kind(line.kind, out);
    out.push(b" live ");
    out.push_number(line.live);
    out.push(b" dead ");
    out.push_number(line.dead);
    out.push(b" unused ");
    out.push_number(line.unused);
    out.push(b"\n");
}

fn push_logs(lines: &[LogLine], out: &mut Output)
    requires few { length lines.now ≤ MOST_LOGS }
    requires room { length out.old + LONGEST_REPLY ≤ Output.CAPACITY }
    ensures { out.new ≡ out.old ++ flat_map log_text lines.now }
{
    for line in lines {
        push_log(line, out);
    }
}

// A mark's letter, where the mark is set.
fn push_mark(is_set: bool, letter: &[u8], out: &mut Output)
    requires { length out.old + length letter.now ≤ Output.CAPACITY }
    ensures { out.new ≡ out.old ++ mark_letter is_set letter.now }
{
    if is_set {
        out.push(letter);
    }
}

// The letters of the marks that are set, or a dash where none is.
fn push_marks(marks: Marks, out: &mut Output)
    requires { length out.old + 10 ≤ Output.CAPACITY }
    ensures grown { out.new ≡ out.old ++ letters_of marks }
    ensures short { length out.new ≤ length out.old + 4 }
{
    if !(marks.hot || marks.evac || marks.moved || marks.dropped) {
        out.push(b"-");
        return;
    }
    push_mark(marks.hot, b"h", out);
    push_mark(marks.evac, b"e", out);
    push_mark(marks.moved, b"m", out);
    push_mark(marks.dropped, b"d", out);
}

fn push_home(home: Home, out: &mut Output)
    requires { length out.old + 200 ≤ Output.CAPACITY }
    ensures { out.new ≡ out.old ++ home_printed home }
{
    match home {
        Home::Near { place, marks } => {
            out.push(b"near ");
            out.push_number(u64::from(place.log));
            out.push(b" ");
            out.push_number(u64::from(place.at));
            out.push(b" ");
            push_marks(marks, out);
            out.push(b"\n");
        }
        Home::Far { marks } => {
            out.push(b"far ");
            push_marks(marks, out);
            out.push(b"\n");
        }
    }
}

fn push_counts(counts: Counts, out: &mut Output)
    requires { length out.old + 200 ≤ Output.CAPACITY }
    ensures { out.new ≡ out.old ++ counts_printed counts }
{
    out.push(b"audit near ");
    out.push_number(u64::from(counts.near));
    out.push(b" far ");
    out.push_number(u64::from(counts.far));
    out.push(b" live ");
    out.push_number(counts.live);
    out.push(b"\n");
}

// Logs, each after a space.
fn push_listed(logs: &[u8], out: &mut Output)
    requires few { length logs.now < 256 }
    requires room { length out.old + 13000 ≤ Output.CAPACITY }
    ensures grown { out.new ≡ out.old ++ flat_map log_listed logs.now }
    ensures short { length out.new ≤ length out.old + 50 * length logs.now }
{
    for log in logs {
        out.push(b" ");
        out.push_number(u64::from(*log));
    }
}

fn push_selected(logs: &[u8], out: &mut Output)
    requires few { length logs.now < 256 }
    requires room { length out.old + LONGEST_REPLY ≤ Output.CAPACITY }
    ensures { out.new ≡ out.old ++ codes "selected" ++ chosen_text logs.now ++ codes "\n" }
{
    out.push(b"selected");
    if logs.is_empty() {
        out.push(b" none");
    } else {
        push_listed(logs, out);
    }
    out.push(b"\n");
}

fn push_marked(marked: &Marked, out: &mut Output)
    requires { length out.old + 200 ≤ Output.CAPACITY }
    ensures { out.new ≡ out.old ++ codes "marked " ++ decimal marked.now.count ++ waiting_text marked.now.waiting ++ codes "\n" }
{
    out.push(b"marked ");
    out.push_number(marked.count);
    if let Some(epoch) = marked.waiting {
        out.push(b" waiting ");
        out.push_number(epoch);
    }
    out.push(b"\n");
}

/// Adds what a round counted, ` moved A far B dropped C freed D`: 200 bytes at most.
fn push_counted(progress: &Progress, out: &mut Output)
    requires { length out.old + 200 ≤ Output.CAPACITY }
    ensures grown { out.new ≡ out.old ++ counted_text progress.now }
    ensures short { length out.new ≤ length out.old + 200 }
{
    out.push(b" moved ");
    out.push_number(progress.moved);
    out.push(b" far ");
    out.push_number(progress.far);
    out.push(b" dropped ");
    out.push_number(progress.dropped);
    out.push(b" freed ");
    out.push_number(progress.freed);
}

fn push_halted(why: Refused, progress: &Progress, out: &mut Output)
    requires { length out.old + LONGEST_REPLY ≤ Output.CAPACITY }
    ensures { out.new ≡ out.old ++ halted_text why progress.now }
{
    out.push(b"refused ");
    out.push_number(u64::from(why.number()));
    push_counted(progress, out);
    out.push(b"\n");
}

fn push_evacuated(progress: &Progress, out: &mut Output)
    requires { length out.old + 300 ≤ Output.CAPACITY }
    ensures { out.new ≡ out.old ++ codes "evacuated" ++ counted_text progress.now ++ done_text progress.now.done ++ codes "\n" }
{
    out.push(b"evacuated");
    push_counted(progress, out);
    if progress.done {
        out.push(b" done");
    }
    out.push(b"\n");
}

fn push_phase(phase: Phase, out: &mut Output)
    requires { length out.old + 20 ≤ Output.CAPACITY }
    ensures grown { out.new ≡ out.old ++ phase_word phase }
    ensures short { length out.new ≤ length out.old + 10 }
{
    match phase {
        Phase::Idle => out.push(b"idle"),
        Phase::Marking => out.push(b"marking"),
        Phase::Waiting => out.push(b"waiting"),
        Phase::Evacuating => out.push(b"evacuating"),
    }
}

fn push_ended(end: &RoundEnd, out: &mut Output)
    requires { length out.old + 300 ≤ Output.CAPACITY }
    ensures { out.new ≡ out.old ++ codes "round " ++ end_text end.now ++ codes "\n" }
{
    out.push(b"round ");
    match end {
        RoundEnd::Done(progress) => {
            out.push(b"done");
            push_counted(progress, out);
        }
        RoundEnd::Nothing => out.push(b"none"),
        RoundEnd::Limit(phase) => {
            out.push(b"limit ");
            push_phase(*phase, out);
        }
    }
    out.push(b"\n");
}

fn push_refused(why: Refused, out: &mut Output)
    requires { length out.old + 200 ≤ Output.CAPACITY }
    ensures { out.new ≡ out.old ++ refusal_text why }
{
    out.push(b"refused ");
    out.push_number(u64::from(why.number()));
    match why {
        Refused::Syntax(line) => {
            out.push(b" ");
            out.push_number(line);
        }
        Refused::Marked(word) => {
            out.push(b" ");
            out.push_hex(&word.to_be_bytes());
        }
        Refused::BadChoice(log) => {
            out.push(b" ");
            out.push_number(u64::from(log));
        }
        Refused::StillOpen(mutator, epoch) => {
            out.push(b" ");
            out.push_number(u64::from(mutator));
            out.push(b" ");
            out.push_number(epoch);
        }
        _ => {}
    }
    out.push(b"\n");
}

impl Reply<'_> {
    /// Adds the reply's lines to the output, each with its newline, as the plain program prints them: [`LONGEST_REPLY`] bytes
    /// at most, for which there must be room. A reply may tell 4,088 bytes, lines of 64 logs, or a choice of 255 logs, and no more.
    #[inline(always)]
    pub fn print_to(&self, out: &mut Output)
        requires short { IsShort (reply_of self.now) }
        requires room { length out.old + LONGEST_REPLY ≤ Output.CAPACITY }
        ensures { out.new ≡ out.old ++ reply_text (reply_of self.now) }
    {
        match self {
            Reply::Done => out.push(b"ok\n"),
            Reply::Pointer(pointer) => {
                out.push(b"pointer ");
                out.push_number(u64::from(*pointer));
                out.push(b"\n");
            }
            Reply::Data(bytes) => {
                out.push(b"data ");
                out.push_hex(bytes);
                out.push(b"\n");
            }
            Reply::Logs(lines) => push_logs(lines, out),
            Reply::Lies(home) => push_home(*home, out),
            Reply::Audited(counts) => push_counts(*counts, out),
            Reply::EpochRead(epoch) => {
                out.push(b"epoch ");
                out.push_number(*epoch);
                out.push(b"\n");
            }
            Reply::Selected(logs) => push_selected(logs, out),
            Reply::Marked(marked) => push_marked(marked, out),
            Reply::Clear => out.push(b"clear\n"),
            Reply::Evacuated(progress) => push_evacuated(progress, out),
            Reply::Ended(end) => push_ended(end, out),
            Reply::Refused(why) => push_refused(*why, out),
            Reply::Halted(why, progress) => push_halted(*why, progress, out),
        }
    }
}
