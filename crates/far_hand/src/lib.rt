//! The hand on the shared words of a heap: each call but `shape` is one event on at most one word, or a row of such events.
//!
//! [`Near`] is what may be counted on, of a hand beside which owners and copiers act too; [`Plain`] is a core that nobody
//! else steps, [`Beset`] one whose owners and copiers act before each call.
#![tactic(auto)]

mod beset;
mod hand;
mod laws;
mod owners;
mod plain;
mod words;

pub use beset::Beset;
pub use hand::Near;
pub use laws::jobs_go_on;
pub use owners::is_owners;
pub use plain::Plain;
pub use words::{packed_whole, unpack_word};
