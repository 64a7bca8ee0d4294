//! Tests as data: what an evacuator and the first owner do, or show, each with what is to come of it. A further test is a row.

use far_core::Shape;
use far_evac::{LogKind, Phase, Polled};
use far_word::{Mark, Place, Refused};

/// Which logs a round takes.
#[derive(Clone, Copy)]
pub(super) enum Choice {
    /// The oldest ones.
    Eldest,
    /// Those with the least live bytes.
    Emptiest,
    /// These, in their order.
    Named(&'static [u8]),
}

/// How a round ends, and what it did: so many objects moved, sent far and retired, and logs given back.
#[derive(Clone, Copy)]
pub(super) enum End {
    Done([u64; 4]),
    Nothing,
    /// It stands in this phase.
    Limit(Phase),
    /// After so much.
    Stopped([u64; 4], Refused),
}

/// What a move that the owner asked for answers.
#[derive(Clone, Copy, PartialEq)]
pub(super) enum Moved {
    ToAnotherLog,
    /// The object was dropped, and is retired.
    Retired,
    Refused(Refused),
    /// The object isn't near, or doesn't ask for a move.
    NotAsked,
}

/// An act. Objects are the first owner's; an object's word is its first.
#[derive(Clone, Copy)]
pub(super) enum Act {
    /// A new object of this length gets this pointer.
    Makes(u16, u16),
    /// So many new objects of this length are made.
    MakesMany(u8, u16),
    /// There is no room for an object of this length.
    MakesNone(u16),
    /// A near object is dropped, and retired.
    Drops(u16),
    /// A mark is set.
    Asks(u16, Mark),
    /// A far object comes near.
    Fetches(u16),
    /// What a move answers.
    Moves(u16, Moved),

    /// The epoch is read, and is this.
    ReadsEpoch(u64),
    /// The scope opens, at the epoch that was read.
    OpensLate,
    /// The epoch is read, and the scope opens.
    Opens,
    Closes,
    /// A pin holds an object; or finds this word.
    Pins(u16),
    Finds(u16, u64),
    /// An object is viewed: where it can't be pinned, it is fetched or moved before.
    Views(u16),
    /// A viewed object has this word from now on; or has it.
    Stores(u16, u64),
    Loads(u16, u64),
    /// The same in a scope of its own.
    Writes(u16, u64),
    Reads(u16, u64),

    /// A round of at most so many logs is begun: its logs, or why there is none.
    Selects(Choice, usize, Result<&'static [u8], Refused>),
    /// At most so many objects are marked: how many, and the epoch that the round waits for then.
    Marks(u64, Result<(u64, Option<u64>), Refused>),
    /// What a look at the scopes finds.
    Polls(Result<Polled, Refused>),
    /// At most so many objects are dealt with: what was done, and whether the round is over.
    Deals(u64, [u64; 4], bool),
    /// The same, refused after so much.
    DealsUntil(u64, [u64; 4], Refused),
    /// A turn is refused, and nothing was done.
    TurnsNone(Refused),
    GivesUp(Result<(), Refused>),
    /// A whole round of at most so many logs, in at most so many turns.
    Runs(Choice, usize, u64, End),
    /// The same of a round of the oldest logs where nobody else acts.
    RunsAlone(usize, u64, End),

    In(Phase),
    Epoch(u64),
    /// An object lies at a place with DIRTY, and no other mark but HOT perhaps.
    Near(u16, Place, bool),
    /// An object lies where it was fetched to, unwritten since, and with no mark but HOT perhaps.
    Clean(u16, Place, bool),
    /// An object lies at a place with EVAC and DIRTY alone.
    Leaving(u16, Place),
    /// An object is far, with no marks.
    Far(u16),
    /// What a log is, and its live, dead and unused bytes.
    Log(u8, LogKind, [u16; 3]),
    /// So many objects are near and so many far, and so many bytes are live.
    Counts(u64, u64, u64),
    /// An audit lists this object alone, which lies at a place with MOVE and DIRTY.
    ListsAsked(u16, Place),
    /// These logs are sealed, in this order.
    Sealed(&'static [u8]),

    /// All that can be seen is noted.
    Notes,
    /// All that can be seen is as it was noted.
    AsNoted,
}

/// A test: its name, the shape of its heap, and its parts.
#[derive(Clone, Copy)]
pub(super) struct Play {
    pub name: &'static str,
    pub shape: Shape,
    pub parts: &'static [&'static [Act]],
}
