//! The heap as plain data, and each event on it: what a state is, when an event is legal and what it leaves, as definitions, and the code
//! that does it on [`Memory`].
//!
//! What each event may do is a definition (`specs/events/`); what a state is, and the law that far_core keeps, stand in `specs/state/`.
#![tactic(auto)]

mod event;
mod memory;
mod naming;
mod shape;

pub use event::{Event, Kind, Reply, Task};
pub use memory::reading::first_word;
pub use memory::steps::{done_or_word, is_naming};
pub use memory::stored_rows::StoredRows;
pub use memory::{Memory, in_use, names_place};
pub use naming::Naming;
pub use shape::Shape;
