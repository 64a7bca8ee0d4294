//! What outputs of the trace program say, whatever the text: laws over the definitions of `far_replay`, as contracts of
//! functions that do nothing, from [`outputs_are_sound`] on.
#![tactic(auto)]

mod headline;
mod left_beside;
mod left_marks;

pub use headline::{
    drops_end_objects, epochs_are_told, faults_leave, inquiries_tell, logs_are_told,
    moments_are_lawful, mutators_are_alone, new_is_made, outputs_are_sound, refusals_leave_all,
    rounds_stand, steps_are_told, steps_leave, texts_are_answered, views_last,
    writes_change_their_range,
};
pub use left_beside::{lies_change_one_object, others_stay};
pub use left_marks::views_mark;
