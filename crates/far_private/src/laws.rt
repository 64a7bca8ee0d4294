//! What the steps of a private heap's calls come to for its callers, as contracts of functions that do nothing.

ghost use Rattle.far_private.specs.Causes.{NoRoomIsFull};
ghost use Rattle.far_private.specs.HeapLaws.{DroppedIsGone, LastMade, LastWritten, ObjectsApart, ReadsLastWritten, ReadsWereSaid};
ghost use Rattle.far_private.specs.Laws.{CoolKeeps, DropLeaves, FetchKeeps, HeatKeeps, MoveKeeps, PlaceMakes, ReadTells, RoundKeeps, WriteChanges};

/// Marks, moves, fetches and rounds change nothing that callers see.
pub fn steps_keep_objects()
    ensures heated { HeatKeeps }
    ensures cooled { CoolKeeps }
    ensures round { RoundKeeps }
    ensures moved { MoveKeeps }
    ensures fetched { FetchKeeps }
{}

/// A call finds no room where the open log ends before the object does, and one log at most is free.
pub fn no_room_is_full()
    ensures { NoRoomIsFull }
{}

/// A new object is zeros where there was none, and a dropped one is none; the others stay.
pub fn objects_come_and_go()
    ensures made { PlaceMakes }
    ensures dropped { DropLeaves }
{}

/// What is read is the range, and a write replaces the range alone.
pub fn ranges_are_so()
    ensures read { ReadTells }
    ensures written { WriteChanges }
{}

/// Over every list of calls of a heap over an honest far side: each byte of each object is what was written there last, and so is
/// each byte that was read.
pub fn reads_give_last_writes()
    ensures written { LastWritten }
    ensures read { ReadsLastWritten }
    ensures said { ReadsWereSaid }
{}

/// Over every list of calls, whatever the far side: an object has the length and the data structure that it was made with, one that
/// was dropped is none until one is made there, and none is touched by calls that name others.
pub fn objects_stay_apart()
    ensures made { LastMade }
    ensures gone { DroppedIsGone }
    ensures apart { ObjectsApart }
{}
