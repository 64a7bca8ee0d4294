//! The evacuator: it chooses logs, marks the objects that live there, waits until every older scope is closed, moves what is
//! hot, sends the rest far, and gives whole logs back.
#![tactic(auto)]

mod answers;
mod census;
mod evac;
mod laws;
mod phase;
mod round;

pub use answers::{EvacFault, Marked, Polled, Progress, RoundEnd};
pub use census::{Census, Housed, LogKind, LogState};
pub use evac::Evac;
pub use laws::{
    callers_keep, callers_keep_order, census_is_exact, clear_is_shown, clear_means_unviewed,
    copied_comes_back, copied_is_allowed, copies_are_so, dealing_is_in_order, exact_is_allowed,
    giving_up_is_right, live_objects_are_in_order, looks_see_clear, marking_is_right, none_strays,
    objects_go_beside_copiers, objects_go_their_way, poll_is_allowed, poll_is_once, risen_is_ready,
    round_is_allowed, round_is_event, rounds_are_so, rounds_keep_objects, rounds_lead,
    rounds_retire_none, turns_have_16, waiting_stays, walk_is_tour, walks_join, walks_take_room,
};
pub use phase::Phase;
