//! What the calls' contracts come to together.

ghost use Rattle.far_map.specs.Laws.{EntriesAreTold, HasWhatWasPutLast};

/// After any calls that were answered a key has the value that the last of them gave it, and none if that took it out or there was no such
/// call: whatever else was put, in whatever order.
pub fn what_was_put_last()
    ensures { HasWhatWasPutLast }
{}

/// A list that has all entries of a map, as [`Map::for_each`](crate::Map::for_each) goes over one, has each of them at one place, and nothing else.
pub fn entries_are_told()
    ensures { EntriesAreTold }
{}
