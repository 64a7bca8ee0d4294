//! The replies to a thread's lines, one each, in order. What is long in them stands in lists of its own, so that a reply takes 24 bytes, a log's line six more, and
//! a read as many more as it tells.

ghost use Rattle.std.specs.Prelude.{◌≡◌, ◌+◌, ◌<◌, ◌≤◌, length, slice_index_or, slice_range};
ghost use Rattle.far_reply.specs.Reply.{reply_of};
ghost use Rattle.far_split.specs.Kept.{round_reply};

use crate::told::{Answer, LogLines, LogWords, Told};
use far_evac::{Progress, RoundEnd};
use far_reply::{Counts, Reply};
use far_word::Refused;
use std::alloc::{AllocError, Global};
use std::marker::Model;

/// How a reply is kept: its part of the long lists, or all of it.
#[derive(Clone, Copy)]
pub(crate) enum Kept {
    Done,
    Pointer(u16),
    Data { from: usize, count: u16 },
    Logs { first: u8, from: usize, count: u8 },
    Audited(Counts),
    Refused(Refused),
    Round(usize),
}

/// How a round ended, or why it was refused after logs had been chosen for it, and what its turns had done.
#[derive(Clone, Copy)]
pub(crate) enum Round {
    Ended(RoundEnd),
    Halted { why: Refused, so_far: Progress },
}

// Bytes of one reply, among all.
fn bytes_at(bytes: &[u8], from: usize, count: u16) -> &[u8]
    requires { from + count ≤ length bytes.now }
    ensures { result.now ≡ slice_range bytes.now from (from + count) }
{
    &bytes[from..from + usize::from(count)]
}

// The logs' words of one reply, among all.
fn logs_at(logs: &[LogWords], from: usize, count: u8) -> &[LogWords]
    requires { from + count ≤ length logs.now }
    ensures { result.now ≡ slice_range logs.now from (from + count) }
{
    &logs[from..from + usize::from(count)]
}

// The reply to one round, among all.
fn round_at(rounds: &[Round], at: usize) -> Reply<'_>
    requires { at < length rounds.now }
    ensures { reply_of result ≡ round_reply (slice_index_or rounds.now at (Round.Ended RoundEnd.Nothing)) }
{
    match &rounds[at] {
        Round::Ended(end) => Reply::Ended(end),
        Round::Halted { why, so_far } => Reply::Halted(*why, so_far),
    }
}

/// How much room replies take: how many they are; and of all of them, bytes that are read, lines of logs, and rounds.
#[derive(Clone, Copy)]
pub(crate) struct Room {
    pub(crate) replies: usize,
    pub(crate) bytes: usize,
    pub(crate) logs: usize,
    pub(crate) rounds: usize,
}

/// The replies to all lines of a thread, in their order.
#[derive(Drop)]
pub struct Replies {
    kept: Vec<Kept>,
    bytes: Vec<u8>,
    logs: Vec<LogWords>,
    rounds: Vec<Round>,
}

impl Model for Replies {
    ghost use Rattle.std.specs.Prelude.{List, length, map};
    ghost use Rattle.far_reply.specs.Reply.{Reply};

    ghost Value = { List Reply };

    ghost use Rattle.far_split.specs.Kept.{reply_in, AreKept};

    ghost view = { λ r. map (reply_in r.bytes.items r.logs.items r.rounds.items) r.kept.items };

    ghost invariant = { λ r. AreKept (length r.bytes.items) (length r.logs.items) (length r.rounds.items) r.kept.items };
}

impl Replies {
    ghost use Rattle.std.specs.Prelude.{◌≡◌, ◌+◌, ◌<◌, ◌≤◌, ◌++◌, ◌∷◌, ◌↔◌, [], IfOk, IsTrue, length, slice_index_or};
    ghost use Rattle.far_word.specs.declared.sizes.TheConstants.{LONGEST, MOST_LOGS};
    ghost use Rattle.far_reply.specs.Reply.{Data, IsShort, Logs, Reply as any_reply};
    ghost use Rattle.far_split.specs.Kept.{IsWhole, lines_told, reply_in, round_reply};
    ghost use Rattle.far_split.specs.Told.{TellsFewLogs, as_reply, as_told};

    /// None, with no room taken.
    pub(crate) fn new(alloc: Global) -> Replies
        ensures { result ≡ [] }
    {
        Replies {
            kept: Vec::new(alloc),
            bytes: Vec::new(alloc),
            logs: Vec::new(alloc),
            rounds: Vec::new(alloc),
        }
    }

    /// None yet, with this room.
    pub(crate) fn with_room(alloc: Global, room: Room) -> Result<Replies, AllocError>
        ensures { IfOk result (λ replies. replies ≡ []) }
    {
        Ok(Replies {
            kept: Vec::with_capacity(alloc, room.replies)?,
            bytes: Vec::with_capacity(alloc, room.bytes)?,
            logs: Vec::with_capacity(alloc, room.logs)?,
            rounds: Vec::with_capacity(alloc, room.rounds)?,
        })
    }

    /// How many they are.
    pub fn len(&self) -> usize
        ensures { result ≡ length self.now }
    {
        self.kept.len()
    }

    /// Whether they are none.
    pub fn is_empty(&self) -> bool
        ensures { IsTrue result ↔ (self.now ≡ []) }
    {
        self.kept.is_empty()
    }

    /// The reply at a place.
    pub fn at(&self, at: usize) -> Told<'_>
        requires { at < length self.now }
        ensures { (other : any_reply) → slice_index_or self.now at other ≡ as_told result }
    {
        let kept = self.kept[at];
        match kept {
            Kept::Done => Told::Reply(Reply::Done),
            Kept::Pointer(pointer) => Told::Reply(Reply::Pointer(pointer)),
            Kept::Data { from, count } => {
                Told::Reply(Reply::Data(bytes_at(self.bytes.as_slice(), from, count)))
            }
            Kept::Logs { first, from, count } => {
                Told::Logs(LogLines::new(first, logs_at(self.logs.as_slice(), from, count)))
            }
            Kept::Audited(counts) => Told::Reply(Reply::Audited(counts)),
            Kept::Refused(why) => Told::Reply(Reply::Refused(why)),
            Kept::Round(place) => Told::Reply(round_at(self.rounds.as_slice(), place)),
        }
    }

    // Adds one that is kept whole.
    fn push_whole(&mut self, kept: Kept) -> Result<(), AllocError>
        requires { IsWhole kept }
        ensures { IfOk result (λ _. self.new ≡ self.old ++ reply_in [] [] [] kept ∷ []) }
    {
        self.kept.reserve(1)?;
        self.kept.push_reserved(kept);
        Ok(())
    }

    // Adds bytes that were read.
    fn push_bytes(&mut self, bytes: &[u8]) -> Result<(), AllocError>
        requires { length bytes.now ≤ LONGEST }
        ensures { IfOk result (λ _. self.new ≡ self.old ++ Data bytes.now ∷ []) }
    {
        self.kept.reserve(1)?;
        let from = self.bytes.len();
        self.bytes.extend_from_slice(bytes)?;
        let count = bytes.len() as u16;
        self.kept.push_reserved(Kept::Data { from, count });
        Ok(())
    }

    // Adds what is told of logs, from this one on.
    fn push_logs(&mut self, first: u8, rows: &[LogWords]) -> Result<(), AllocError>
        requires { first + length rows.now ≤ MOST_LOGS }
        ensures { IfOk result (λ _. self.new ≡ self.old ++ Logs (lines_told first rows.now) ∷ []) }
    {
        self.kept.reserve(1)?;
        let from = self.logs.len();
        self.logs.extend_from_slice(rows)?;
        let count = rows.len() as u8;
        self.kept.push_reserved(Kept::Logs { first, from, count });
        Ok(())
    }

    // Adds the end of a round.
    fn push_round(&mut self, round: Round) -> Result<(), AllocError>
        ensures { IfOk result (λ _. self.new ≡ self.old ++ round_reply round ∷ []) }
    {
        self.kept.reserve(1)?;
        let at = self.rounds.len();
        self.rounds.reserve(1)?;
        self.rounds.push_reserved(round);
        self.kept.push_reserved(Kept::Round(at));
        Ok(())
    }

    /// Adds one. `Err` where there is no memory for it.
    pub(crate) fn push(&mut self, answer: Answer) -> Result<(), AllocError>
        requires short { IsShort (as_reply answer) }
        requires logs { TellsFewLogs answer }
        ensures { IfOk result (λ _. self.new ≡ self.old ++ as_reply answer ∷ []) }
    {
        match answer {
            Answer::Done => self.push_whole(Kept::Done),
            Answer::Pointer(pointer) => self.push_whole(Kept::Pointer(pointer)),
            Answer::Data(bytes) => self.push_bytes(&bytes),
            Answer::Logs { first, rows } => self.push_logs(first, &rows),
            Answer::Audited(counts) => self.push_whole(Kept::Audited(counts)),
            Answer::Refused(why) => self.push_whole(Kept::Refused(why)),
            Answer::Ended(end) => self.push_round(Round::Ended(end)),
            Answer::Halted { why, so_far } => self.push_round(Round::Halted { why, so_far }),
        }
    }
}
