//! The atomic steps and what they answer.

use far_word::{Job, Mark, Place};

/// One atomic step, which changes one shared word at most. An event whose guard is false is refused and changes nothing.
///
/// Owners are numbered below the shape's mutators, pointers below 256 times that (pointer `p` belongs to owner
/// `p / 256`), logs below the shape's logs, the words of a log below 512. Any other number is out of range, and the
/// event is refused.
#[derive(Clone, Copy)]
pub enum Event {
    /// A closed owner remembers the epoch. Answers `Epoch`.
    ReadEpoch {
        owner: u8,
    },
    /// A closed owner that has read an epoch since its last close opens its scope at it. Answers `Done`.
    Open {
        owner: u8,
    },
    /// An open owner sets HOT on a pointer that it uses and doesn't hold. It holds the object's place where the old
    /// word is present with none of EVAC, MOVE and DROP. Answers `Held` then, and `Word` with the old word else.
    Pin {
        owner: u8,
        pointer: u16,
    },
    /// Data word `index` of an object that the owner holds. Answers `Word`.
    Load {
        owner: u8,
        pointer: u16,
        index: u16,
    },
    /// Data word `index` of an object that the owner holds and has soiled becomes `word`, which keeps the padding 0. Answers
    /// `Done`.
    Store {
        owner: u8,
        pointer: u16,
        index: u16,
        word: u64,
    },
    /// An owner sets DIRTY on a pointer that it holds, and remembers until it closes that it has soiled it. Answers `Word` with
    /// the old word.
    Soil {
        owner: u8,
        pointer: u16,
    },
    /// An open owner closes its scope; it holds nothing, has soiled nothing and remembers no epoch from then on. Answers `Done`.
    Close {
        owner: u8,
    },
    /// An owner uses a pointer of its own that it doesn't use yet, whose word is used and not dropped. Answers `Word`.
    Adopt {
        owner: u8,
        pointer: u16,
    },
    /// The word `at` of a log is read. With `free` the log, which is sealed and has no live span, and which no job reads or
    /// writes, is given back too: it is free, its tail is 0, and it leaves the round; its words stay. Answers `Word`.
    Get {
        log: u8,
        at: u16,
        free: bool,
    },
    /// The word `at` of a log that is open or free, at or past its tail, becomes `word`. Answers `Done`.
    Put {
        log: u8,
        at: u16,
        word: u64,
    },
    /// The cell of a pointer goes from `old` to `new`, where it is `old`. Answers `Done` then, and `Word` with the
    /// cell, which stays, else. The two words make one of these forms. A new span stands where the next span may stand,
    /// with a header for the pointer written there and zeros after the last byte. `new` has no mark but DIRTY: always after
    /// Place; after Move and Stay exactly if `old` has DIRTY; never after Fetch and Evict.
    ///
    /// - Place: `old` is 0, and `new` near at a new span, whose data words are 0.
    /// - Retire: `old` has DROP, and `new` is 0.
    /// - Move: `old` is near without DROP, and `new` is of the same length and data structure, near at a new span, whose
    ///   data words are those at the old place. The object is quiet: its cell has MOVE; or it has EVAC, its log is in
    ///   the round and its owner was seen clear. Or a finished job has copied the object to the new place, and
    ///   isn't void: it was offered in this round, which the source's log hasn't left, and the object lies there still.
    /// - Fetch: `old` is far without DROP, and `new` is of the same length and data structure, near at a new span, whose
    ///   data words are those that were stored, if the far side is honest.
    /// - Evict: `old` is near with EVAC and without DROP, and `new` is of the same length and data structure, far and
    ///   without marks. The object is quiet; its data words are stored.
    /// - Stay: `old` is near with MOVE, without EVAC and DROP, and `new` is the same without HOT and MOVE.
    Name {
        pointer: u16,
        old: u64,
        new: u64,
    },
    /// The cell of a pointer is read. Answers `Word`.
    See {
        pointer: u16,
    },
    /// An owner sets MOVE or DROP on a pointer that it uses and doesn't hold; it uses no longer what it drops. Any other
    /// mark is refused. Answers `Word` with the old word.
    Ask {
        owner: u8,
        pointer: u16,
        mark: Mark,
    },
    /// A near pointer whose place lies in a sealed log gets EVAC. Answers `Word` with the old word.
    Mark {
        pointer: u16,
    },
    /// A near pointer, whatever its log is, loses EVAC, if it has it, and its log leaves the round. Answers `Word` with the
    /// old word.
    Clear {
        pointer: u16,
    },
    /// A round begins, of the logs whose bit is 1 in `logs`, bit `l` for log `l`. Each is sealed, and whatever lies near
    /// there has EVAC, with DROP too. The epoch rises by 1, to below 2^62, and nobody was seen clear in the round. Answers
    /// `Epoch` with the new epoch.
    Advance {
        logs: u64,
    },
    /// The scope word of an owner is read. The owner is seen clear in the round from then on where the word says closed, or
    /// open at the round's epoch or later. Answers `Word`.
    Look {
        owner: u8,
    },
    /// The book offers job `job`, which is empty, to the copiers: an object's copy at `to`. The object is near with EVAC, dropped or
    /// not, its log is in the round, and its owner was seen clear. At `to` a new span is taken: a header for the pointer is
    /// written there, and a last data word of 0, and it ends within its log. No pointer names it yet. Answers `Done`.
    Offer {
        job: u8,
        pointer: u16,
        to: Place,
    },
    /// A copier, below 8, reads the word of a job, below 16. Answers `Word`.
    PeekJob {
        copier: u8,
        job: u8,
    },
    /// The book reads the word of a job, below 16. Answers `Word`.
    SeeJob {
        job: u8,
    },
    /// A copier without a job takes an offered one, where its word is `old`, which offers a job. Answers `Done` then, and
    /// `Word` with the job's word, which stays, else. Refused in a core without copiers.
    Claim {
        copier: u8,
        job: u8,
        old: u64,
    },
    /// A copier with a job reads the header of its source, and remembers the length. Answers `Word`.
    ReadLength {
        copier: u8,
    },
    /// A copier with a job reads data word `index` of its source, and remembers it. Answers `Word`.
    Read {
        copier: u8,
        index: u16,
    },
    /// A copier that has read data word `index` of its job's source writes it to the target. Answers `Done`.
    Write {
        copier: u8,
        index: u16,
    },
    /// A copier that has written all words of its job says so, and has no job. Answers `Done`.
    Finish {
        copier: u8,
    },
    /// A finished or offered job is empty from then on, where its word is `old`, a finished or an offered job's. Answers
    /// `Done` then, and `Word` with the job's word, which stays, else.
    Collect {
        job: u8,
        old: u64,
    },
}

/// A job that a copier has: which of the 16 it is, and what it says.
#[derive(Clone, Copy, Debug, PartialEq, Eq)]
pub struct Task {
    pub number: u8,
    pub job: Job,
}

/// What an event answers.
#[derive(Clone, Copy, Debug, PartialEq, Eq)]
pub enum Reply {
    /// The event's guard was false, and nothing has changed.
    Refused,
    Done,
    Epoch(u64),
    Word(u64),
    Held(Place),
}

/// What a log is.
#[derive(Clone, Copy, Debug, PartialEq, Eq)]
pub enum Kind {
    /// It has no span.
    Free,
    /// New spans go to its end. There is always exactly one.
    Open,
    /// It takes no more spans.
    Sealed,
}
