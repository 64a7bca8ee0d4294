//! What the logs of a heap have, in one value.

ghost use Rattle.std.specs.Prelude.{◌≡◌, ◌<◌, [], ◌∷◌, ◌++◌, length};

use far_log::LogRow;
use far_word::MOST_LOGS;
use std::marker::Model;

// The most rows of a list: one of each log of the largest heap.
const MOST_ROWS: usize = MOST_LOGS as usize;

const NO_ROW: LogRow = LogRow {
    log: 0,
    live: 0,
    dead: 0,
    unused: 0,
};

/// What some logs have, a row each, [`MOST_LOGS`] at most. It takes no memory but its own.
///
/// [`MOST_LOGS`]: far_word::MOST_LOGS
#[derive(Drop)]
pub struct LogRows {
    rows: [LogRow; MOST_ROWS],
    count: usize,
}

impl Model for LogRows {
    ghost use Rattle.std.specs.Prelude.{◌≤◌, List, take};
    ghost use Rattle.far_log.specs.declared.row.LogRow.{LogRow};
    ghost use Rattle.far_book.specs.declared.log_rows.TheConstants.{MOST_ROWS};

    ghost Value = { List LogRow };

    ghost view = { λ list. take list.count list.rows };

    ghost invariant = { λ list. list.count ≤ MOST_ROWS };
}

impl LogRows {
    /// No row.
    pub(crate) fn new() -> LogRows
        ensures { result ≡ [] }
    {
        LogRows {
            rows: [NO_ROW; MOST_ROWS],
            count: 0,
        }
    }

    /// Puts a row at the end.
    pub(crate) fn push(&mut self, row: LogRow)
        requires room { length self.old < MOST_ROWS }
        ensures { self.new ≡ self.old ++ row ∷ [] }
    {
        self.rows[self.count] = row;
        self.count += 1;
    }

    /// The rows in their order.
    pub fn as_slice(&self) -> &[LogRow]
        ensures { result.now ≡ self.now }
    {
        &self.rows[..self.count]
    }
}
