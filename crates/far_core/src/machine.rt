//! The core as its callers hold it.

ghost use Rattle.std.specs.Prelude.{◌*◌};
ghost use Rattle.std.specs.Option.{ForSome};
ghost use Rattle.far_word.specs.declared.sizes.TheConstants.{CELLS};
ghost use Rattle.far_events.specs.state.Law.{Law};
ghost use Rattle.far_events.specs.state.Memory.{state_of};
ghost use Rattle.far_events.specs.state.Stored.{RowsAre};

mod accesses;
mod calls;
pub mod laws;
mod observing;
mod opening;
mod placing;
mod ranges;

use far_events::{Memory, StoredRows};
use std::fmt;

/// A core: shared words and what each owner and the book know of them, as plain data that keeps the law.
#[derive(Drop)]
pub struct Core {
    pub(crate) memory: Memory,
    // The words that are stored, where they are kept to be read: only a naming changes them.
    pub(crate) rows: Option<StoredRows>,
    ghost law: { Law (state_of memory) },
    ghost rows_are: { ForSome rows (λ rows. RowsAre (CELLS * (state_of memory).mutators) (state_of memory).stored rows) },
}

impl fmt::Debug for Core {
    fn fmt<W: fmt::Write>(&self, f: &mut fmt::Formatter<W>) -> fmt::Result {
        f.write_str("Core { .. }")
    }
}
