//! What holds of every choice, as contracts of functions that do nothing.

ghost use Rattle.far_policy.specs.Examples.{OldestRowsHold, LeastLiveRowsHold, ScriptedRowsHold};
ghost use Rattle.far_policy.specs.Laws.{RowsTellOfLogs, LeastIsThere, LeastIsOne, ScriptIsFollowed, ScriptIsOne};

/// Rows that tell of different logs may be chosen from.
pub fn rows_tell_of_logs()
    ensures { RowsTellOfLogs }
{}

/// Rows of different logs have one list of least live bytes.
pub fn least_is_one()
    ensures there { LeastIsThere }
    ensures one { LeastIsOne }
{}

/// A script has one outcome.
pub fn script_is_one()
    ensures followed { ScriptIsFollowed }
    ensures one { ScriptIsOne }
{}

/// Worked choices.
pub fn choices_are_so()
    ensures oldest { OldestRowsHold }
    ensures least_live { LeastLiveRowsHold }
    ensures scripted { ScriptedRowsHold }
{}
