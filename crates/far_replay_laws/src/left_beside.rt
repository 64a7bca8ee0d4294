//! What commands leave beside their own object or scope, also where the device lies, as contracts of functions that do nothing.

ghost use Rattle.far_replay_laws.specs.LeftBeside.{CommandsLeaveBeside};
ghost use Rattle.far_replay_laws.specs.OtherBytes.{LiesChangeOneObject};

/// Whatever its reply, a read, a write, a view, a try or a drop leaves all that isn't of its pointer: each other cell, with
/// its marks, what else is used and viewed, all scopes, and the epochs that mutators remember. So does `new`, whose object's cell
/// has no mark but DIRTY; where it is refused, nothing changes. `open`, `close` and `epoch` leave all cells, and what other mutators view and
/// remember, and their scopes. `where` and inquiries change nothing.
pub fn others_stay()
    ensures stay { CommandsLeaveBeside }
{}

/// A read, a write or a view that the device gives other bytes than were stored, as many, is answered as if its object had these
/// bytes, which was far: it is viewed then, and has them, with what a write puts in its range. Every other object keeps its bytes, and
/// what is stored stays. So it is only where the device may lie; from a text on (`outputs_are_sound`) of two commands at most, and of none unless its line says `flip`.
pub fn lies_change_one_object()
    ensures changes { LiesChangeOneObject }
{}
