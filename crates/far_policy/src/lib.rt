//! Which logs a round is to empty.
//!
//! A [`Policy`] names logs of the rows that it is handed, at most so many. [`Oldest`], [`LeastLive`] and [`Scripted`] are
//! three; what they name goes into a [`Chosen`].
#![tactic(auto)]

mod chosen;
mod laws;
mod least_live;
mod oldest;
mod policy;
mod scripted;

pub use chosen::{Chosen, MOST_CHOSEN};
pub use laws::{choices_are_so, least_is_one, rows_tell_of_logs, script_is_one};
pub use least_live::LeastLive;
pub use oldest::Oldest;
pub use policy::Policy;
pub use scripted::Scripted;
