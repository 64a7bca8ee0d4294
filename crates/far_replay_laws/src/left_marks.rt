//! The marks that dereferences leave, as contracts of a function that does nothing.

ghost use Rattle.far_replay_laws.specs.LeftMarks.{CommandsLeaveMarks, TextsLeaveMarks, ViewsAreHot};

/// After a read, a write, a view or a try that isn't refused, its object's cell has HOT: as it was, where the object was
/// viewed already, else with no other mark but DIRTY, if it had that and was near; a write gives DIRTY too. One that is refused 8, 5 or 7, before its pin, changes no cell. After a refusal 2
/// the cell has HOT, and MOVE too where the object is near, which has EVAC then; after a try's refusal 14, which tells the
/// word from before, it has HOT, and so it has after 10 or 11, where the device brings no object; all other marks are as they were, and so are all
/// other cells. No other refusal comes. In each moment what is viewed has HOT. Both are said from a text on too.
pub fn views_mark()
    ensures leave { CommandsLeaveMarks }
    ensures viewed { ViewsAreHot }
    ensures texts { TextsLeaveMarks }
{}
