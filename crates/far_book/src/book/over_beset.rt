//! The book over a beset hand: what the core shows.

ghost use Rattle.std.specs.Prelude.{◌≡◌, ◌<◌, ℕ, true};
ghost use Rattle.far_events.specs.declared.event.Event.{Event as event};
ghost use Rattle.far_events.specs.events.Step.{Fits, step_of};
ghost use Rattle.far_core.specs.state.Agrees.{Agrees};
ghost use Rattle.far_core.specs.state.CoreState.{core_state};
ghost use Rattle.far_events.specs.state.Law.{Law};
ghost use Rattle.far_events.specs.state.State.{State};
ghost use Rattle.far_hand.specs.BesetView.{beset_may_be, beset_view};
ghost use Rattle.far_hand.specs.MayBe.{NoneViews, ViewsNone};
ghost use Rattle.far_hand.specs.Makers.{is_owners};

use crate::book::Book;
use far_device::Device;
use far_hand::Beset;

impl<D: Device + Drop> Book<Beset, D> {
    /// The core keeps the whole law, what owners change included. Each place that is held is an open owner's, and its pointer names the
    /// place, with neither MOVE nor DROP. The core's state is one that the words may be in, as far as the hand knows.
    ///
    /// An owner who was seen clear views nothing in the round's logs; if all were, nobody does. An owner's event leads from a state that the words may be in to another such.
    pub fn core_keeps_law(&self)
        ensures law { Law (core_state self.now.near.core) }
        ensures agrees { Agrees (core_state self.now.near.core) }
        ensures may_be { beset_may_be self.now.near (core_state self.now.near.core) }
        ensures clear { (m : ℕ) → (beset_view self.now.near).clear m ≡ true → ViewsNone (beset_view self.now.near).round m (core_state self.now.near.core) }
        ensures unviewed { ((m : ℕ) → m < (beset_view self.now.near).mutators → (beset_view self.now.near).clear m ≡ true) →
            NoneViews (beset_view self.now.near).round (core_state self.now.near.core) }
        ensures acts { (x : State) (e : event) → is_owners e ≡ true → Fits e → beset_may_be self.now.near x → beset_may_be self.now.near (step_of x e).0 }
    {}
}
