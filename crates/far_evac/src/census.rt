//! What lives where.

use far_book::Home;
use far_log::LogRow;

/// What a log is.
#[derive(Clone, Copy, Debug, PartialEq, Eq)]
pub enum LogKind {
    Free,
    Open,
    Sealed,
    /// Sealed, chosen for the running round, and not given back in it.
    Chosen,
}

/// Where the object of a pointer is.
#[derive(Clone, Copy, Debug, PartialEq, Eq)]
pub struct Housed {
    pub pointer: u16,
    pub home: Home,
}

/// What a log is, and what it has.
#[derive(Clone, Copy, Debug, PartialEq, Eq)]
pub struct LogState {
    pub kind: LogKind,
    pub row: LogRow,
}

/// All objects that aren't dropped, by pointer, and all logs, by number.
#[derive(Debug, Drop)]
pub struct Census {
    pub homes: Vec<Housed>,
    pub logs: Vec<LogState>,
}
