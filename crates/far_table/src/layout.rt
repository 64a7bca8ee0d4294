// Where each shared word stands: the cells are those of the largest heap, the logs as many as the heap has. Word 0 is for the split of seats, and no word of the heap; the words of
// the copiers' jobs stand between the cells and the logs. The epoch and each scope word have a line of cache, in which no other word is written.
ghost use Rattle.far_table.specs.Layout.{LayoutIs};

use far_word::{JOBS, LOG_WORDS, MOST_LOGS, MOST_MUTATORS, POINTERS};

/// How many words a line of cache has, of 128 bytes.
pub(crate) const LINE: usize = 16;

/// How many words are of logs in the largest heap.
pub(crate) const WORDS_OF_LOGS: usize = MOST_LOGS as usize * LOG_WORDS as usize;

/// The epoch.
pub(crate) const EPOCH: usize = LINE;

/// The scope word of owner 0; each further owner's is a line on.
pub(crate) const SCOPES: usize = 2 * LINE;

/// The cell of pointer 0.
pub(crate) const CELLS: usize = SCOPES + MOST_MUTATORS as usize * LINE;

/// The word of job 0.
pub(crate) const JOBS_AT: usize = CELLS + POINTERS as usize;

/// Word 0 of log 0. The words of the logs are last.
pub(crate) const LOGS: usize = JOBS_AT + JOBS as usize;

/// Where each word stands, and how many there are, in numerals.
#[tactic(auto, using(crate::proofs::Words::layout_is))]
pub fn layout_is()
    ensures { LayoutIs }
{}
