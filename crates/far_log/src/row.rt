//! What a log has.

/// What a log has, in bytes: the three numbers make its 4,096.
#[derive(Clone, Copy, Debug, PartialEq, Eq)]
pub struct LogRow {
    /// The log's number, below [`far_word::MOST_LOGS`].
    pub log: u8,
    /// The bytes that its live spans take, their headers included.
    pub live: u16,
    /// The bytes that all its other spans take, their headers included.
    pub dead: u16,
    /// The bytes that no span takes: those from its tail on.
    pub unused: u16,
}
