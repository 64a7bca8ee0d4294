//! Tests as data: what a book, an evacuator and the owner beside them do, or show, each with what is to come of it.

use far_evac::LogKind;
use far_word::{Mark, Place};
use tests_owner::Went;

/// An act, of a book or an evacuator, or of the one owner beside it. An object's word is its first.
#[derive(Clone, Copy)]
pub(super) enum Act {
    /// A new object of this length gets this pointer, and its owner takes it over.
    Makes(u16, u16),
    /// There is no room for one of this length.
    MakesNone(u16),
    /// The owner drops an object, which is retired.
    Drops(u16),

    /// The owner reads this epoch for its next scope.
    ReadsEpoch(u64),
    Opens,
    Closes,
    /// A pin holds an object at some place, or at this place; or finds this word, and holds nothing.
    Pins(u16),
    PinsAt(u16, Place),
    Finds(u16, u64),
    /// An object that is held has this word from now on, or has it.
    Stores(u16, u64),
    Loads(u16, u64),
    /// The owner sets a mark, and finds this word.
    Asks(u16, Mark, u64),

    /// An object is viewed: where it can't be pinned, it is fetched or moved before.
    Views(u16),
    /// These are the oldest logs, a round of them begins, and so many objects are marked, so that epoch 1 begins.
    Begins(&'static [u8], u64),
    /// A poll finds owner 0 open at epoch 0, or all owners clear.
    Waits,
    IsClear,
    /// Objects leave: so many are moved, go far, and are found dropped, so many logs are given back, and the round is over.
    Leaves([u64; 4]),
    /// The same of a round of the oldest log, with nine turns at most.
    Runs([u64; 4]),
    /// An object lies at a place with DIRTY, and no other mark but HOT perhaps.
    Near(u16, Place, bool),
    /// An object lies where it was fetched to, unwritten since, and with no mark but HOT perhaps.
    Clean(u16, Place, bool),
    /// An object is far, with no marks.
    Far(u16),
    /// A log is so, and has so many live, dead and unused bytes.
    Log(u8, LogKind, [u16; 3]),
    /// A census has so many near and far objects, and live bytes.
    Counts(usize, usize, u64),

    /// A near object of a sealed log gets EVAC, and had this word.
    Marked(u16, u64),
    /// A round of log 0 begins, whose objects have EVAC, with this epoch.
    Advances(u64),
    /// The scope word of owner 0.
    Looks(u64),
    /// The word of a cell.
    Sees(u16, u64),
    /// An object that has EVAC and MOVE goes far.
    Evicts(u16),
    /// A far object comes near.
    Fetches(u16),
    /// An object that its owner asks for is moved.
    Moves(u16),

    /// The first copier goes on by one call, or the second.
    First(Went),
    Second(Went),
    /// The copy of an object is offered, as the next job, which is at hand then.
    Offers(u16),
    /// A job is at hand, and has this word.
    Job(u8, u64),
    /// The job at hand is finished, and the same words stand at both of its places. Its pointer is named to the copy, or isn't.
    IsCopied,
    Names,
    NamesNothing,
    /// The job at hand is emptied; or it isn't, and this word is found.
    Collects,
    CollectsNothing(u64),
}
