//! Tests as data: what is done with a heap and its mutators, or looked at, each with what is to come of it.

use far_evac::{LogKind, Phase, Polled};
use far_word::Refused;

/// Which logs a round takes.
#[derive(Clone, Copy)]
pub(super) enum Choice {
    /// The oldest ones.
    Eldest,
    /// These, in their order.
    Named(&'static [u8]),
}

/// How a whole round ends, and what it did: so many objects moved, sent far and dropped, and logs given back.
#[derive(Clone, Copy)]
pub(super) enum End {
    Done([u64; 4]),
    /// Whatever it did.
    Over,
    /// So many objects were moved or sent far, and so many logs given back.
    Emptied(u64, u64),
    /// More objects than so many were sent far.
    FarAbove(u64),
    Nothing,
    /// It stands in this phase.
    Limit(Phase),
    /// With nothing done.
    Refused(Refused),
    /// After so much.
    Stopped([u64; 4], Refused),
}

/// What a copier has done.
#[derive(Clone, Copy, PartialEq, Eq)]
pub(super) enum Went {
    /// It has no job, and found none that it could claim.
    Nowhere,
    Claimed,
    Copied,
    Finished,
    /// It is no more there.
    Lost,
}

/// An act. The mutator at hand, or its scope if that is open, makes and drops objects; its open scope views them. An object's bytes are its first eight.
#[derive(Clone, Copy)]
pub(super) enum Act {
    /// Waits until the thread beside this one has the book.
    AwaitsHold,
    /// Tells the thread beside this one that it need not have the book any more.
    EndsHold,

    /// The other mutator is at hand from now on.
    Turns,
    Opens,
    Closes,
    /// The scope is dropped unclosed, and its mutator is gone.
    LeavesOpen,

    /// A new object of this length, of data structure 1: its pointer, or why there is none.
    Makes(u16, Result<u16, Refused>),
    /// A new object of this length and data structure has this pointer.
    MakesOf(u16, u8, u16),
    /// So many new objects of this length have the pointers from 0 on.
    Fills(u16, u16),
    Drops(u16, Result<(), Refused>),
    /// What is told of a pointer: length and data structure.
    Tells(u16, Option<u16>, Option<u8>),

    /// Each of so many objects, of the pointers from 0 on, is viewed in one step, and has its pointer in its bytes from now on.
    Numbers(u16),
    /// Each of so many has it, whatever a view takes.
    HasNumbers(u16),
    /// An object is viewed in one step, and has these bytes.
    Reads(u16, [u8; 8]),
    /// An object is viewed, whatever that takes, and has these bytes.
    Brings(u16, [u8; 8]),
    /// An object is viewed in one step, and has these bytes from now on.
    Writes(u16, [u8; 8]),
    /// One step gives no view of an object.
    IsSlow(u16),
    /// One step gives no view of an object, but this word.
    Finds(u16, u64),
    /// A view, whatever it takes, is refused.
    ViewsNone(u16, Refused),
    /// A pointer that isn't held: no length is told, and no view is given.
    Lacks(u16),

    /// A view by one step is kept from now on.
    Keeps(u16),
    /// A view, whatever it takes, is kept from now on.
    KeepsSlowly(u16),
    /// The pointer and length of the kept view.
    Kept(u16, u16),
    /// By the kept view, from this byte on, 20 bytes at most.
    ReadsAt(u16, &'static [u8]),
    WritesAt(u16, &'static [u8]),
    /// By the kept view, from this byte on, so many bytes, 20 at most, can't be read or written.
    Bars(u16, usize, Refused),

    /// A round of at most so many logs is begun: its logs, or why there is none.
    Selects(Choice, usize, Result<&'static [u8], Refused>),
    /// At most so many objects are marked: how many, and the epoch that the round waits for then.
    Marks(u64, Result<(u64, Option<u64>), Refused>),
    /// What a look at the scopes finds.
    Polls(Result<Polled, Refused>),
    /// At most so many objects are dealt with: the round is over, and did what a whole one does; or nothing was done, and why.
    Deals(u64, Result<[u64; 4], Refused>),
    /// The same, and the round isn't over: so many objects moved, sent far and dropped, and logs given back.
    DealsOn(u64, [u64; 4]),
    /// A turn is refused, and nothing was done.
    TurnsNone(Refused),
    GivesUp(Result<(), Refused>),
    /// A whole round of at most so many logs, in at most so many turns.
    Runs(Choice, usize, u64, End),
    /// How often that round asked its policy.
    Asked(u64),

    /// A copier, by its number, goes on by one call: it claims a job, if it has none; else it copies a word of that, or finishes the job once none is left.
    Works(usize, Went),
    /// So many copiers go on so, each by one call.
    AllWork(usize, Went),
    /// A copier finishes its job, whatever is left of it; or it has none.
    Ends(usize, bool),
    /// A copier is dropped, which finishes the job that it has.
    Quits(usize),
    /// A copier is never dropped, nor goes on, as in a thread that stops: the job that it has is never finished.
    Loses(usize),

    /// The phase of the round, and the epoch.
    In(Phase),
    Epoch(u64),
    /// An object lies at a word of a log with DIRTY, and no other mark but HOT perhaps.
    Near(u16, (u8, u16), bool),
    /// An object lies at a word of a log, unwritten since it was fetched, and with no mark but HOT perhaps.
    Clean(u16, (u8, u16), bool),
    /// An object is far, with no marks but HOT perhaps.
    Far(u16, bool),
    /// A pointer's cell is free.
    Gone(u16),
    /// What a log is, and its live, dead and unused bytes.
    Log(u8, LogKind, [u16; 3]),
    /// A log is free.
    Free(u8),
    /// So many logs are sealed, and a log has so many spans.
    Lists(usize, u8, usize),
    /// So many objects are near, so many far, and so many bytes live; each log's bytes make its size.
    Counts(u64, u64, u64),
    /// So many objects are near or far, and each log's bytes make its size.
    Has(u64),

    /// How the book stands is noted.
    Notes,
    /// The book stands as it was noted.
    AsNoted,
    /// Since that was noted one object of so many bytes, with its header, has come near, and no other.
    OneMore(u64),
}

/// Eight bytes, no two of them the same.
pub(super) const EIGHT: [u8; 8] = [1, 2, 3, 4, 5, 6, 7, 8];

pub(super) const ZEROS: [u8; 8] = [0; 8];
