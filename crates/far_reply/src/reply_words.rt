//! The words of replies, as a contract of a function that does nothing.

ghost use Rattle.far_reply.specs.ReplyWords.{DonesRead, PointersRead, DataRead, EpochsRead, HomesRead, LogsRead, AuditsRead, SelectionsRead, MarksRead, ClearsRead, EvacuationsRead, RoundsRead, RefusalsRead, ReasonsRead, HaltsRead};

/// Worked replies of each form, each with another number in every place, and the text that is printed for each. They fix the words of replies and the order of what
/// they tell.
pub fn replies_read()
    // to mutators: that it's done, a pointer, bytes, an epoch, and where an object lies, with its marks
    ensures dones { DonesRead }
    ensures pointers { PointersRead }
    ensures bytes { DataRead }
    ensures epochs { EpochsRead }
    ensures homes { HomesRead }

    // on the logs: what each has, and what all have in sum
    ensures logs { LogsRead }
    ensures audits { AuditsRead }

    // to steps of the evacuator and whole rounds: what was chosen, marked and done
    ensures selections { SelectionsRead }
    ensures marks { MarksRead }
    ensures clears { ClearsRead }
    ensures evacuations { EvacuationsRead }
    ensures rounds { RoundsRead }

    // refusals by their number, those that tell a word, a line, a log or a mutator beside it, and those of a step that had done something
    ensures refusals { RefusalsRead }
    ensures reasons { ReasonsRead }
    ensures halts { HaltsRead }
{}
