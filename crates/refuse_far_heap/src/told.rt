//! What the calls of a heap answered, a line each, as a trace is answered.

ghost use Rattle.far_reply.specs.Reply.{IsShort, reply_of};

use crate::census::{counts_of, is_lawful};
use far_book::Home;
use far_evac::{Census, EvacFault, LogState, Progress, RoundEnd};
use far_reply::{LONGEST_REPLY, LogLine, Output, Reply};
use far_word::Refused;
use std::alloc::{AllocError, Global};

/// The lines, for which room was taken before, and whether each audit was lawful.
#[derive(Drop)]
pub(crate) struct Told {
    lines: Output,
    lawful: bool,
}

impl Told {
    /// No line yet.
    pub(crate) fn new(alloc: Global) -> Result<Told, AllocError> {
        Ok(Told {
            lines: Output::new(alloc)?,
            lawful: true,
        })
    }

    /// All lines.
    pub(crate) fn text(&self) -> &[u8] {
        self.lines.as_slice()
    }

    /// Whether each audit was lawful.
    pub(crate) fn is_lawful(&self) -> bool {
        self.lawful
    }

    // Adds a reply, unless there are so many that no room is left.
    fn tell(&mut self, reply: &Reply<'_>)
        requires { IsShort (reply_of reply.now) }
    {
        if self.lines.len() <= Output::CAPACITY - LONGEST_REPLY {
            reply.print_to(&mut self.lines);
        }
    }

    /// A call was done, or refused.
    pub(crate) fn done(&mut self, done: Result<(), Refused>) {
        match done {
            Ok(()) => self.tell(&Reply::Done),
            Err(why) => self.tell(&Reply::Refused(why)),
        }
    }

    /// An object was made.
    pub(crate) fn made(&mut self, made: Result<u16, Refused>) {
        match made {
            Ok(pointer) => self.tell(&Reply::Pointer(pointer)),
            Err(why) => self.tell(&Reply::Refused(why)),
        }
    }

    /// Bytes were read.
    pub(crate) fn read(&mut self, bytes: Result<[u8; 8], Refused>) {
        match bytes {
            Ok(bytes) => self.tell(&Reply::Data(&bytes)),
            Err(why) => self.tell(&Reply::Refused(why)),
        }
    }

    // A step of a round was refused: with what was done before, if that was in its midst.
    fn stopped(&mut self, fault: EvacFault) {
        match fault.why {
            Refused::Memory => self.tell(&Reply::Halted(fault.why, &fault.so_far)),
            why => self.tell(&Reply::Refused(why)),
        }
    }

    /// A round ended.
    pub(crate) fn ended(&mut self, end: Result<RoundEnd, EvacFault>) {
        match end {
            Ok(end) => self.tell(&Reply::Ended(&end)),
            Err(fault) => self.stopped(fault),
        }
    }

    /// Objects left the logs of a round.
    pub(crate) fn evacuated(&mut self, made: Result<Progress, EvacFault>) {
        match made {
            Ok(progress) => self.tell(&Reply::Evacuated(&progress)),
            Err(fault) => self.stopped(fault),
        }
    }

    /// An object was looked for.
    pub(crate) fn located(&mut self, home: Option<Home>) {
        match home {
            Some(home) => self.tell(&Reply::Lies(home)),
            None => self.tell(&Reply::Refused(Refused::NotHeld)),
        }
    }

    /// What a log has.
    pub(crate) fn log(&mut self, log: u8, state: LogState) {
        let LogState { kind, row } = state;
        let line = LogLine {
            log,
            kind,
            live: u64::from(row.live),
            dead: u64::from(row.dead),
            unused: u64::from(row.unused),
        };
        self.tell(&Reply::Logs(&[line]));
    }

    /// All objects and logs were counted.
    pub(crate) fn audited(&mut self, census: Result<Census, Refused>) {
        match census {
            Ok(census) => {
                self.lawful = self.lawful && is_lawful(&census);
                self.tell(&Reply::Audited(counts_of(&census)));
            }
            Err(why) => self.tell(&Reply::Refused(why)),
        }
    }
}
