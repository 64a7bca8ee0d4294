//! Whose event an event is.

ghost use Rattle.std.specs.Prelude.{◌≡◌};
ghost use Rattle.far_hand.specs.Makers.{is_owners};

use far_core::Event;

/// Whether an event is an owner's; all others are the book's or a copier's.
pub fn is_owners(event: Event) -> bool
    ensures { result ≡ is_owners event }
{
    match event {
        Event::ReadEpoch { .. }
        | Event::Open { .. }
        | Event::Pin { .. }
        | Event::Load { .. }
        | Event::Store { .. }
        | Event::Soil { .. }
        | Event::Close { .. }
        | Event::Adopt { .. }
        | Event::Ask { .. } => true,
        Event::Put { .. }
        | Event::Name { .. }
        | Event::See { .. }
        | Event::Mark { .. }
        | Event::Get { .. }
        | Event::Clear { .. }
        | Event::Advance { .. }
        | Event::Look { .. }
        | Event::Offer { .. }
        | Event::PeekJob { .. }
        | Event::SeeJob { .. }
        | Event::Claim { .. }
        | Event::ReadLength { .. }
        | Event::Read { .. }
        | Event::Write { .. }
        | Event::Finish { .. }
        | Event::Collect { .. } => false,
    }
}
