//! What a worker's calls mean, taken together, as contracts of functions that do nothing.

ghost use Rattle.far_pool.specs.Generations.{DroppedStaysRefused};
ghost use Rattle.far_pool.specs.History.{OthersStay, ReadsGiveLastWrites};
ghost use Rattle.far_pool.specs.Plans.{PlansAreDecided};
ghost use Rattle.far_pool.specs.Rooms.{HasRoom};

use far_device::Device;

/// Where the far sides are honest, each byte of a worker's objects is what its own calls said of it last, by handle, over every list of calls.
pub fn reads_give_last_writes()
    ensures { ReadsGiveLastWrites }
{}

/// A handle whose object was dropped is refused until its pointer was given to a new object 65,536 times, over every list of calls.
pub fn dropped_stays_refused()
    ensures { DroppedStaysRefused }
{}

/// What is under a handle stays, over every list of calls that name others.
pub fn others_stay()
    ensures { OthersStay }
{}

/// Where devices take all that they are given, a worker of three logs a heap or more never answers that it has no room.
pub fn takers_have_room<D: Device + Drop>()
    ensures { HasRoom D D.writes }
{}

/// A plan has one layout, or none and one cause.
pub fn plans_are_decided()
    ensures { PlansAreDecided }
{}
