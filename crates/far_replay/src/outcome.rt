//! What a command comes to, and the buffers that its reply is read from.

ghost use Rattle.std.specs.Prelude.{◌≡◌, ◌≢◌};
ghost use Rattle.far_reply.specs.Reply.{reply_of, IsShort};
ghost use Rattle.far_replay.specs.Outcome.{reply_by, told_by, IsInScratch};

use far_book::Home;
use far_evac::{LogKind, Marked, Progress, RoundEnd};
use far_reply::{Counts, LogLine, Reply};
use far_word::{LOG_WORDS, MOST_LOGS, Marks, Refused};

/// What a command comes to. What a reply tells at length stands in the buffers.
#[derive(Clone, Copy)]
pub enum Outcome {
    Done,
    Pointer(u16),
    /// Bytes of the buffer, from one on, so many.
    Data { from: u16, count: u16 },
    /// The first log lines of the buffers, so many.
    Logs(u8),
    /// Where an object is stands in the buffers.
    Lies,
    /// What was counted stands in the buffers.
    Audited,
    /// The epoch that a mutator read.
    EpochRead(u64),
    /// What a step of the evacuator comes to stands in the buffers.
    Stepped,
    Refused(Refused),
}

/// What a step of the evacuator comes to. It stands apart, so that other commands pay nothing for it.
#[derive(Clone, Copy)]
pub enum Stepped {
    Done,
    /// So many logs were chosen, which stand in front of the buffer of bytes.
    Selected(u8),
    /// What was marked stands in the buffers.
    Marked,
    Clear,
    /// What was done stands in the buffers.
    Evacuated,
    /// How the round ended stands in the buffers.
    Ended,
    Refused(Refused),
    /// The step was refused in its midst; what was done before stands in the buffers.
    Halted(Refused),
}

/// Buffers for the bytes of an object, for a line of each log, and for what is told of an object, of all and of a round's step.
#[derive(Clone, Copy)]
pub struct Scratch {
    pub bytes: [u8; 8 * LOG_WORDS as usize],
    pub lines: [LogLine; MOST_LOGS as usize],
    pub marked: Marked,
    pub progress: Progress,
    pub end: RoundEnd,
    pub stepped: Stepped,
    pub home: Home,
    pub counts: Counts,
}

impl Scratch {
    /// All the buffers that commands need; what stands in it at first is nobody's.
    pub fn new() -> Scratch {
        let line = LogLine {
            log: 0,
            kind: LogKind::Free,
            live: 0,
            dead: 0,
            unused: 0,
        };
        Scratch {
            bytes: [0; 8 * LOG_WORDS as usize],
            lines: [line; MOST_LOGS as usize],
            marked: Marked {
                count: 0,
                waiting: None,
            },
            progress: Progress {
                moved: 0,
                far: 0,
                dropped: 0,
                freed: 0,
                done: false,
            },
            end: RoundEnd::Nothing,
            stepped: Stepped::Done,
            home: Home::Far {
                marks: Marks {
                    hot: false,
                    evac: false,
                    moved: false,
                    dropped: false,
                    dirty: false,
                },
            },
            counts: Counts {
                near: 0,
                far: 0,
                live: 0,
            },
        }
    }

    /// The reply to a command, but to a step of the evacuator.
    #[inline(always)]
    pub fn reply(&self, outcome: Outcome) -> Reply<'_>
        requires room { IsInScratch outcome }
        requires apart { outcome ≢ Outcome.Stepped }
        ensures value { reply_of result ≡ reply_by self.now outcome }
        ensures short { IsShort (reply_of result) }
    {
        match outcome {
            Outcome::Done => Reply::Done,
            Outcome::Pointer(pointer) => Reply::Pointer(pointer),
            Outcome::Data { from, count } => {
                let from = usize::from(from);
                Reply::Data(&self.bytes[from..from + usize::from(count)])
            }
            Outcome::Logs(count) => Reply::Logs(&self.lines[..usize::from(count)]),
            Outcome::Lies => Reply::Lies(self.home),
            Outcome::Audited => Reply::Audited(self.counts),
            Outcome::EpochRead(epoch) => Reply::EpochRead(epoch),
            Outcome::Stepped => unreachable!(),
            Outcome::Refused(why) => Reply::Refused(why),
        }
    }

    /// The reply to a step of the evacuator.
    pub fn step_reply(&self) -> Reply<'_>
        ensures value { reply_of result ≡ told_by self.now self.now.stepped }
        ensures short { IsShort (reply_of result) }
    {
        match self.stepped {
            Stepped::Done => Reply::Done,
            Stepped::Selected(count) => Reply::Selected(&self.bytes[..usize::from(count)]),
            Stepped::Marked => Reply::Marked(&self.marked),
            Stepped::Clear => Reply::Clear,
            Stepped::Evacuated => Reply::Evacuated(&self.progress),
            Stepped::Ended => Reply::Ended(&self.end),
            Stepped::Refused(why) => Reply::Refused(why),
            Stepped::Halted(why) => Reply::Halted(why, &self.progress),
        }
    }
}
