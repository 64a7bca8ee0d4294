//! Tests as data: what a book does, or the owners beside it, or what is looked at, each with what is to come of it.

use far_core::{Event, Kind, Reply, Shape};
use far_log::{LogRow, Span};
use far_word::{Mark, Marks, Place, Refused, ScopeWord};

/// What becomes of an object that moves, or comes near: its place, or `None` if it is found dropped and retired; `None` of the whole where its cell
/// shows no such object.
pub(super) type Placed = Option<Result<Option<Place>, Refused>>;

/// An act. A place is a log and a word in it; the bytes of a log are its live, dead and unused ones.
#[derive(Clone, Copy)]
pub(super) enum Act {
    /// A new object of this length, of data structure 1, gets this pointer, and this place.
    Makes(u16, u16, (u8, u16)),
    /// So many new objects of this length and data structure are made.
    MakesMany(u16, u16, u8),
    /// One of 8 bytes isn't, for this reason.
    MakesNone(Refused),
    /// Whether an object is retired: one that is near and whose cell shows DROP.
    Retires(u16, bool),
    /// An object that is near with MOVE moves.
    Moves(u16, Placed),
    /// One with EVAC too goes far, or is found dropped.
    Evicts(u16, Option<Result<bool, Refused>>),
    /// One that is far comes near.
    Fetches(u16, Placed),

    /// A near object of a sealed log gets EVAC, and had this word; or a near one loses it.
    Marks(u16, Option<u64>),
    Clears(u16, Option<u64>),
    /// Whether a sealed log is given back.
    Releases(u8, Option<bool>),
    /// A round begins, with this epoch: of no logs; or of these, bit by bit, if they may be a round's.
    BeginsNone(Result<u64, Refused>),
    Begins(u64, Option<Result<u64, Refused>>),
    /// What an owner's scope says.
    Looks(u8, Option<ScopeWord>),
    /// So many pointers from 0 on get EVAC, as `Marks` does.
    MarksMany(u8),
    /// A round of log 0 begins, each of whose objects has EVAC, and the one owner is seen clear in it; then the copies of these objects are offered, or
    /// aren't.
    Offers(&'static [(u16, bool)]),
    /// So many jobs are named.
    Collects(u32),
    TakesBack,
    /// Whether a job that isn't void copies a near object.
    HasJob(u16, Option<bool>),
    /// So many turns of others pass, while the book looks at the first owner's scope.
    Waits(u8),
    /// The live spans of a log, one after the other.
    Live(u8, &'static [Span]),
    /// The first live span from that one on which has this number in the list of log 0.
    From(usize, Option<Option<Span>>),

    /// An object lies at a place with DIRTY and these marks, or with these alone, or is far with these; a pointer's cell is free.
    Near(u16, (u8, u16), Marks),
    Clean(u16, (u8, u16), Marks),
    Far(u16, Marks),
    Gone(u16),
    /// What a log is, and its bytes.
    Log(u8, Kind, [u16; 3]),
    /// The sealed logs, the oldest first.
    Rows(&'static [LogRow]),
    /// The spans of log 0.
    Spans(&'static [Span]),
    Is(Shape),
    /// Whether the device has anything under key 0, and the least room that it was lent for a read.
    Holds(bool),
    Lent(usize),

    /// An owner's event, with its answer; or some, of which none is refused.
    Owns(Event, Reply),
    Does(&'static [Event]),
    /// Its owner takes a pointer over, if it doesn't use it, and sets a mark.
    Asks(u16, Mark),
    /// Its owner stores counted bytes into an object, of which there are so many, or loads them, in a scope of its own.
    Stores(u16, u16),
    Loads(u16, u16),
    /// Pointer 0 is an object of so many counted bytes in log 0, which is sealed, and has HOT, EVAC and MOVE; none was far before.
    Leaves(u16),
    /// A word is stored into pointer 0, if it is soiled and has two words; or both words of it, if it is held.
    StoresOne(u16, u64, bool),
    Words(Option<[u64; 2]>),

    /// What the first log is, which a heap always has, and its bytes.
    FirstLog(Kind, [u16; 3]),
    /// The core's word of a cell, whether a log is in the round, whether an owner was seen clear.
    Cell(u16, u64),
    InRound(u8, bool),
    IsClear(u8, bool),
}

pub(super) const SMALL: Shape = Shape {
    logs: 4,
    mutators: 1,
    epoch: 0,
};

pub(super) const NO_MARKS: Marks = Marks {
    hot: false,
    evac: false,
    moved: false,
    dropped: false,
    dirty: false,
};

pub(super) const IS_HOT: Marks = Marks {
    hot: true,
    ..NO_MARKS
};

pub(super) const IS_DROPPED: Marks = Marks {
    dropped: true,
    ..NO_MARKS
};

pub(super) const HAS_EVAC: Marks = Marks {
    evac: true,
    ..NO_MARKS
};

pub(super) const IS_ASKED: Marks = Marks {
    hot: true,
    evac: true,
    moved: true,
    ..NO_MARKS
};

/// Events of owner 0, at pointer 0 where they are at one.
pub(super) const READ: Event = Event::ReadEpoch { owner: 0 };

pub(super) const OPEN: Event = Event::Open { owner: 0 };

pub(super) const CLOSE: Event = Event::Close { owner: 0 };

pub(super) const ADOPT: Event = Event::Adopt {
    owner: 0,
    pointer: 0,
};

pub(super) const HOT: Event = Event::Pin {
    owner: 0,
    pointer: 0,
};

pub(super) const MOVE: Event = Event::Ask {
    owner: 0,
    pointer: 0,
    mark: Mark::Moved,
};

pub(super) const DROP: Event = Event::Ask {
    owner: 0,
    pointer: 0,
    mark: Mark::Dropped,
};

/// It says that it is written.
pub(super) const SOIL: Event = Event::Soil {
    owner: 0,
    pointer: 0,
};

/// Its first word becomes 0xaa, or is loaded.
pub(super) const STORE: Event = Event::Store {
    owner: 0,
    pointer: 0,
    index: 0,
    word: 0xaa,
};

pub(super) const LOAD: Event = Event::Load {
    owner: 0,
    pointer: 0,
    index: 0,
};

/// An event that isn't made, for a turn in which owners do nothing.
pub(super) const IDLE: Event = Event::Close { owner: 9 };

/// The cell of pointer 0, an object of 8 bytes of data structure 1 at the start of log 0: as it is named, with HOT, and with HOT and EVAC.
pub(super) const NEAR: u64 = 0x8600_0000_0001_0008;

pub(super) const WAS_HOT: u64 = 0xc600_0000_0001_0008;

pub(super) const MARKED: u64 = 0xe600_0000_0001_0008;

/// What an eviction answers of an object that goes far.
pub(super) const WENT: Option<Result<bool, Refused>> = Some(Ok(true));
