//! A trace is replayed: a text of commands is read whole and parsed (`far_text`), its commands run on one heap, and the
//! replies (`far_reply`) are written.
//!
//! [`run`] does it, from any reader to any writer. What a text is answered is a definition (`specs/Answers.antt`); what that definition is worth are
//! laws, in the crate `far_replay_laws` above this one.
#![tactic(auto)]

mod dereferencing;
mod dropping;
mod epochs;
mod far_side;
mod inquiries;
mod outcome;
mod owners;
mod rounds;
mod running;
mod turn;
mod viewing;

pub use far_side::far_side_of;
pub use far_text::{grammar_is_said, limits_are};
pub use owners::FarSide;
pub use running::{End, RunFault, read_whole, run};
