//! A heap on shared words, for tests: its book, and its owners and copiers, each of which knows at run time what its seat's view says, so that a
//! call that the view doesn't allow isn't made.
#![tactic(auto)]

mod copier;
mod heap;
mod owner;
mod sharing;

pub use copier::{Copier, Went};
pub use heap::shared;
pub use owner::Owner;
pub use sharing::{Seats, seated};
