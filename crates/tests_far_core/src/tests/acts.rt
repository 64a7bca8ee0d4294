//! Tests as data: what is done with a core, or looked at, each with what is to come of it. A further test is a row.

use far_core::{Event, Kind, Reply, Shape};
use far_word::Place;

/// A core of four logs and one owner.
pub(super) const SMALL: Shape = Shape {
    logs: 4,
    mutators: 1,
    epoch: 0,
};

/// A core of four logs and two owners.
pub(super) const TWO_OWNERS: Shape = Shape {
    logs: 4,
    mutators: 2,
    epoch: 5,
};

/// An act.
#[derive(Clone, Copy)]
pub(super) enum Act {
    /// An event is answered so.
    Does(Event, Reply),
    /// An event is answered so, and the core shows the same after it.
    Leaves(Event, Reply),
    /// Each of these events is refused, and the core shows the same after it.
    Refuses(&'static [Event]),
    /// An event by its own call, whose guard is tested before: it is answered so. Owner 0 makes those of owners.
    Calls(Event, Reply),
    /// The test of an event's guard, if the core has one, says so.
    May(Event, bool),

    /// Owner 0 stores a word in the first object, of 16 bytes, at this index.
    StoresAt(u16, u64),
    /// It stores both words of that object at once.
    StoresPair([u64; 2]),
    /// The first object has these two words.
    HasPair([u64; 2]),
    /// Owner 0 stores these bytes in the first object, from one on.
    StoresBytes(u16, &'static [u8]),
    /// The first object has these bytes, from one on.
    HasBytes(u16, &'static [u8]),
    /// The words from a place on have these bytes, from one on.
    GetsBytes(Place, u16, &'static [u8]),
    /// Owner 0 stores so many bytes in the first object, from one on, each of which tells its place there.
    StoresTold(u16, u16),
    /// The first object has so many bytes, from one on, that tell their places.
    HasTold(u16, u16),
    /// So many words of 0 are put at a place.
    PutsZeros(Place, u16),
    /// So many words of these bytes are put there.
    PutsWords(Place, &'static [u8], u16),
    /// So many words are got there, into a row of bytes that reads so then.
    GetsWords(Place, u16, &'static [u8]),
    /// So many words are copied from one place to another.
    CopiesWords(Place, Place, u16),

    /// So many logs and owners.
    Sized(u8, u8),
    /// The epoch, and whether the far side is honest.
    Begun(u64, bool),
    /// What a log is, and its tail.
    Log(u8, Kind, u16),
    OpenLog(u8),
    /// Whether a log is in the round.
    InRound(u8, bool),
    /// A word of a log.
    WordAt(Place, u64),
    /// Whether a span begins there.
    Starts(Place, bool),
    /// Whether an owner's scope is open, and whether it has read an epoch since it closed.
    Owner(u8, bool, bool),
    /// An owner's scope word, and the epoch that it has read.
    Scope(u8, u64, Option<u64>),
    /// Whether an owner was seen clear in the round.
    SeenClear(u8, bool),
    /// A pointer's cell.
    Cell(u16, u64),
    /// A pointer's cell, whether it is used, and whether it is held.
    Pointer(u16, u64, bool, bool),
    /// Whether a pointer is used.
    Used(u16, bool),
    /// Where a pointer's object is held.
    HeldAt(u16, Option<Place>),
    /// So many cells are listed.
    Cells(usize),
    /// A cell in that list.
    Listed(usize, u64),
}

/// A test: its name, the shape of the core that it is played on, whether its far side is honest, how many of the parts come first that tests
/// have in common, and its own parts. What is in common is said once, since a constant is proved wherever it is named.
#[derive(Clone, Copy)]
pub(super) struct Play {
    pub name: &'static str,
    pub shape: Shape,
    pub honest: bool,
    pub after: usize,
    pub parts: &'static [&'static [Act]],
}
