//! The core of a far memory heap on plain data: a machine whose every event is one atomic step, which changes
//! one shared word at most.
//!
//! [`Core::step`] makes one event and [`Core::run`] a list of them. What each event may do is a definition of far_events
//! (`specs/events/`), what a program may believe of a list of events is the world (`specs/world/World.antt`), and what is
//! true after every event is the law (far_events `specs/state/Law.antt`).
#![tactic(auto)]

mod machine;

pub use far_events::{Event, Kind, Naming, Reply, Shape, Task, in_use, names_place};
pub use machine::Core;
pub use machine::laws::{
    copies_are_taken, events_leave_others, jobs_stand_by_law, namings_are_plain, opening_is_start,
    refusals_are_said, scopes_show, sets_of_logs, steps_keep_views,
};
