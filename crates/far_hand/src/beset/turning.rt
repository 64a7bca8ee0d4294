//! What owners and copiers do before a call.

ghost use Rattle.std.specs.Prelude.{◌≡◌, true};
ghost use Rattle.far_events.specs.events.Step.{step_of};
ghost use Rattle.far_core.specs.state.CoreState.{core_state};
ghost use Rattle.far_hand.specs.BesetView.{beset_view, next_event, passed, turned};
ghost use Rattle.far_hand.specs.Makers.{is_others};
ghost use Rattle.far_hand.specs.Others.{OthersChange};

use crate::beset::Beset;
use far_core::{Core, Event};

impl Beset {
    /// The next event of the list is made, if it is an owner's or a copier's, and legal. The book doesn't see it.
    pub(crate) fn turn(&mut self)
        ensures view { beset_view self.new ≡ beset_view self.old }
        ensures made { core_state self.new.core ≡ turned self.old }
        ensures events { self.new.events ≡ self.old.events }
        ensures next { self.new.made ≡ passed (next_event self.old) self.old.made }
        ensures change { OthersChange (core_state self.old.core) (core_state self.new.core) }
    {
        let Some(event) = self.next_event() else {
            return;
        };
        self.made += 1;
        if is_others(event) {
            step_other(&mut self.core, event);
        }
    }

    /// The event whose turn is next.
    fn next_event(&self) -> Option<Event>
        ensures { result ≡ next_event self.now }
    {
        self.events.get(self.made).copied()
    }
}

/// An owner or a copier makes an event, if it is legal.
fn step_other(core: &mut Core, event: Event)
    requires { is_others event ≡ true }
    ensures made { core_state core.new ≡ (step_of (core_state core.old) event).0 }
    ensures change { OthersChange (core_state core.old) (core_state core.new) }
{
    core.step(event);
}

/// Whether an event is an owner's or a copier's; all others are the book's.
fn is_others(event: Event) -> bool
    ensures { result ≡ is_others event }
{
    match event {
        Event::ReadEpoch { .. }
        | Event::Open { .. }
        | Event::Pin { .. }
        | Event::Load { .. }
        | Event::Store { .. }
        | Event::Soil { .. }
        | Event::Close { .. }
        | Event::Adopt { .. }
        | Event::Ask { .. }
        | Event::PeekJob { .. }
        | Event::Claim { .. }
        | Event::ReadLength { .. }
        | Event::Read { .. }
        | Event::Write { .. }
        | Event::Finish { .. } => true,
        Event::Put { .. }
        | Event::Name { .. }
        | Event::See { .. }
        | Event::Mark { .. }
        | Event::Get { .. }
        | Event::Clear { .. }
        | Event::Advance { .. }
        | Event::Look { .. }
        | Event::Offer { .. }
        | Event::SeeJob { .. }
        | Event::Collect { .. } => false,
    }
}
