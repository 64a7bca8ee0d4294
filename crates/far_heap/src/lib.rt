//! The running heap, as threads use it.
//!
//! A [`Heap`] has a lock, which keeps the book and the [`Evacuator`], and [`Mutator`]s, one for each thread. A mutator makes and drops objects, opens its
//! [`Scope`], views objects, and reads and writes their bytes. To open, to view what is near with none of EVAC, MOVE and DROP, to read, to write and to close
//! take neither lock nor runtime nor memory: each is single atomic steps on the shared words, at most two, or to read or write at most two for each word, and one more
//! before a scope's first write of an object.
#![tactic(auto)]

mod blank;
mod copier;
mod evacuator;
mod heap;
mod laws;
mod lending;
mod mutator;
mod name;
mod own;
mod ranges;
mod rows;
mod scope;
mod under_lock;
mod values;
mod view;

pub use blank::Blank;
pub use copier::{Copier, Copying};
pub use evacuator::Evacuator;
pub use heap::Heap;
pub use laws::{reads_give_last_writes, refusals_are_so, values_come_back};
pub use lending::{Closing, lend};
pub use mutator::Mutator;
pub use name::HeapName;
pub use scope::Scope;
pub use values::FixedRecord;
pub use view::{Tried, View};
