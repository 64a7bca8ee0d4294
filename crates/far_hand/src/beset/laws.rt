//! What is true of every beset hand, as a contract. No function here does anything when it runs.

ghost use Rattle.std.specs.Prelude.{◌≡◌, List, drop, length};
ghost use Rattle.far_events.specs.declared.event.Event.{Event as any_event};
ghost use Rattle.far_events.specs.declared.event.Reply.{Reply as any_reply};
ghost use Rattle.far_core.specs.state.CoreState.{core_state};
ghost use Rattle.far_hand.specs.declared.beset.Beset.{Beset as any_hand};
ghost use Rattle.far_hand.specs.BesetView.{TurnThen};
ghost use Rattle.far_hand.specs.Came.{Runs};
ghost use Rattle.far_hand.specs.Listed.{ActOut, events_left};

use crate::beset::Beset;

impl Beset {
    /// Over any calls of the book owners and copiers act out the list in order: before each call the next event has its turn,
    /// in which an owner's event or a copier's that is legal then is made, and nothing else. After n calls the first n events
    /// had theirs, or all, if there are fewer.
    pub fn others_act_out_the_list(&self)
        ensures acted { (calls : List (any_event × any_reply)) (later : any_hand) → Runs TurnThen self.now calls later → ActOut calls (events_left self.now) (core_state self.now.core) (core_state later.core) }
        ensures left { (calls : List (any_event × any_reply)) (later : any_hand) → Runs TurnThen self.now calls later → events_left later ≡ drop (length calls) (events_left self.now) }
    {
        let _made = self.made;
    }
}
