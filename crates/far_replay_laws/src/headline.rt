//! What outputs say, over whole texts and whole lists of commands. No function here does anything when it runs.

ghost use Rattle.far_replay_laws.specs.Said.{TextsSayAll};
ghost use Rattle.far_replay_laws.specs.Ends.{EndsAreSaid, EndsAreTold};
ghost use Rattle.far_replay_laws.specs.Faults.{FaultsLeave};
ghost use Rattle.far_replay_laws.specs.Census.{AuditsByCensus};
ghost use Rattle.far_replay_laws.specs.Chosen.{RoundsAreChosen};
ghost use Rattle.far_replay_laws.specs.Epochs.{StepsSpendEpochs};
ghost use Rattle.far_replay_laws.specs.FromOutside.{DeviceRefusesFar, FlawsAreSaid, MemoryIsRefusedThere};
ghost use Rattle.far_replay_laws.specs.Listed.{AuditCountsList};
ghost use Rattle.far_replay_laws.specs.Headline.{OutputsAreSound, OneOutput, OutsideDecides, OutsideDecidesOutput, EachTextIsAnswered, TextsWriteBytes, LinesAreNumbered, MomentsLast, EventsReach, ShapesAre, HeapsBeginLawful, ObjectsStayWhole, ViewedLogsStay, ViewsLast, RefusalsStay, RefusalsChangeNothing, TriesAreAnswered, UnknownMutatorsAreRefused, NearRefusals, MutatorsAreAlone, OwnLinesCount, MutatorsLearn, NewTakesTheLowest, NoneIsLeft, NewIsMade, NewMakesItsObject, CommandsTakeRoom, WritesChangeTheirRange, LogsAreTold, WhereTells, LogTellsItsLine, AuditCounts, DropEndsObject, EpochsAreTold, ScopesOpenAtEpochs, ClosesForget};
ghost use Rattle.far_replay_laws.specs.Ages.{AgesStay};
ghost use Rattle.far_replay_laws.specs.Left.{StepsLeave};
ghost use Rattle.far_replay_laws.specs.Stands.{RoundsStand};
ghost use Rattle.far_replay_laws.specs.Steps.{StepsAreTold};

/// From a text on: its output, where it is read as a heap in range and commands, has a reply, which its lines tell in full,
/// and a moment for each command. Each moment has the law, and in it objects are whole; through them the logs in which
/// views rest stay; each mutator's replies are what its own lines alone say; each step of the evacuator tells what has happened,
/// and leaves objects as `steps_leave` says; and any other command leaves the round, as `rounds_stand` says.
/// The device fails, gives a byte too few, or inverts bytes no more often than it is said to. An object whose bytes came inverted may go far unwritten: then the next command that asks for it is given the true
/// ones again. Any other command is given its object's own. Where other bytes of an object were given, the object has these, as
/// `lies_change_one_object` says. Of the same replies and moments all is so that the laws below say of one command: what it is
/// answered, which views there are then, and which marks, what it leaves beside, what it takes of the logs, what a refusal leaves; and in each moment what is viewed has HOT.
pub fn outputs_are_sound()
    ensures sound { OutputsAreSound }
    ensures each { TextsSayAll }
{}

/// Each text has an output in which no reply says `refused 1`, and one such alone, unless it says a device that is to fail or to lie. Whatever the outside makes of commands,
/// which it may refuse in their midst, of `evacuate` and `round` memory too, or give other bytes, their replies and the output follow from it. The output of a text that ends
/// as refused begins with `refused`; that of one that ran is empty, or begins with `ok`. Off the grammar it is `refused 16` with the line, of a
/// text that says nothing it is nothing, and of a heap out of range it is `refused 15`; else it begins with `ok`, and another `ok` where a device is said, and has a reply for each command then. Its commands that write, write bytes. Among lines that say commands, a
/// mutator's are those that have its number after the name, but for `log`, after which a log's number stands, and for `mark` and
/// `evacuate`, after which a number of objects stands.
pub fn texts_are_answered()
    ensures answered { EachTextIsAnswered }
    ensures once { OneOutput }
    ensures decided { OutsideDecides }
    ensures made { OutsideDecidesOutput }
    ensures bytes { TextsWriteBytes }
    ensures numbered { LinesAreNumbered }
    ensures ends { EndsAreTold }
    ensures said { EndsAreSaid }
{}

/// What a fault of a run leaves on its output: a failed read nothing; a failed write a front of an output of the text, and not all of it; want of memory before the first command nothing, or, of a
/// text that is a heap in range, a front of the line `refused 1`, or all of it. Where it is known what stood there before, it is known what stands there after.
pub fn faults_leave()
    ensures { FaultsLeave }
{}

/// A heap line may say 2 to 64 logs, 1 to 8 mutators and a first epoch below 2^62. The heap begins with them, over a device that may lie or may not, with the law and with nothing in it.
/// After commands each moment has the law, what it names is used, and its objects are whole: each in use has exactly one
/// place, each log's bytes are 4,096 in all, and no two pointers name one place. Each command is carried out by its events,
/// those of a dereference among them, whatever marks its object has and wherever it is: they are legal, none is refused,
/// they keep the law and what views rest on, and end in the moment after it. Where the device gave other bytes, the events are those that the command has where these bytes are
/// stored. Where its object is at hand, a pin among them
/// gives a view, and a naming wins. While a round waits, and while objects leave, the logs of the core's round are the chosen ones; else
/// what a round that was given up has left there has no object in it.
pub fn moments_are_lawful()
    ensures shapes { ShapesAre }
    ensures begin { HeapsBeginLawful }
    ensures last { MomentsLast }
    ensures whole { ObjectsStayWhole }
    ensures reach { EventsReach }
    ensures chosen { RoundsAreChosen }
{}

/// What a command reads, writes, views or tries is viewed until its mutator closes its scope; no other command makes or ends a
/// view. A try makes one exactly where the object is near with none of EVAC, MOVE and DROP, else it is refused 14 with the
/// word of the cell; either way it leaves HOT, unless the object was viewed already. A log in which an object lies that its
/// mutator views isn't given back by the next command, after any of its events.
pub fn views_last()
    ensures last { ViewsLast }
    ensures tried { TriesAreAnswered }
    ensures stay { ViewedLogsStay }
{}

/// A mutator's refused command leaves objects, bytes, places and all else as they were, but for HOT and MOVE in its object's cell,
/// which it may add for want of room, by the device or where a try finds a mark. A `wait` that is refused 18 has seen clear the mutators before the
/// one that it names, and no others. Any other refusal leaves the moment as it is. Not meant is an `evacuate` or a `round` that is refused memory, or that the device stops: it is refused 1 or 10 with
/// counts, and keeps what was done (`steps_are_told`, `steps_leave`). A line of a
/// mutator that the heap hasn't is refused 8. Where the object that it reads, writes, views or tries is near and unmarked, no command after the
/// heap is refused for want of memory, by a device or for a mark, but those two with counts; for want of a pointer or of room a new object alone is
/// refused. As the device failed, or as it gave another number of bytes, a mutator's command is refused only where its object is far, which it stays, and there was room for it. With counts
/// 1 is told of an `evacuate` in its phase alone, and of a `round` that had chosen its logs; after both, objects leave. No other command is refused 1, none without counts. From a text on: no more
/// replies, those with counts among them, say that the device failed, or that it gave another number of bytes, than its line says, one at most; and no more commands are given inverted bytes, after which the next of the same object, unwritten since, is given the true ones again.
pub fn refusals_leave_all()
    ensures stay { RefusalsStay }
    ensures nothing { RefusalsChangeNothing }
    ensures unknown { UnknownMutatorsAreRefused }
    ensures near { NearRefusals }
    ensures far { DeviceRefusesFar }
    ensures memory { MemoryIsRefusedThere }
    ensures few { FlawsAreSaid }
{}

/// The replies to one mutator's lines are what its own lines alone say: its own, and no others, say what it knows. What
/// it knows then, its scope, its objects' bytes and which of them it views, is so in the heap after each command. So `new` in
/// range is refused 3 exactly where all 256 objects of its mutator exist. Where the device tells what was written, a read gives what was written last. Where the device may
/// lie, an object that its mutator
/// doesn't view may have other bytes, as many, when it is read, written or viewed; all else is as before. From a text on (`outputs_are_sound`) that is so under a line `flip` alone.
pub fn mutators_are_alone()
    ensures alone { MutatorsAreAlone }
    ensures own { OwnLinesCount }
    ensures learn { MutatorsLearn }
{}

/// A new object in range is made where a pointer is free and there is room, else it is refused, 3 before 2, and so only
/// where there is none; its pointer is the lowest of its mutator's that is free; it has its owner, its data structure and
/// zeros, in the log that `room` says; all other objects stay. It takes its span of that log. A dereference takes one where
/// its object is far, or has EVAC, in the log that `room` says, and is refused 2 only where there is none. As many unused bytes of that
/// log turn live, and where a near object lay its bytes turn from live to dead; each other log has the bytes that it had. A drop takes no span,
/// and `drops_end_objects` says what becomes of a near object's bytes. Of other commands
/// `evacuate` and `round` alone change bytes of logs, or give logs back: in a log that wasn't chosen dead bytes stay, live ones rise and unused
/// ones fall by the objects that came; in one that still is, what left it is dead; one that was given back has what came since, and is
/// free where nothing came; and all live bytes together fall by the objects that went far or were retired.
pub fn new_is_made()
    ensures answer { NewIsMade }
    ensures none { NoneIsLeft }
    ensures lowest { NewTakesTheLowest }
    ensures object { NewMakesItsObject }
    ensures takes { CommandsTakeRoom }
{}

/// Splicing, by which a write is defined, changes the bytes of its range, and no others.
pub fn writes_change_their_range()
    ensures { WritesChangeTheirRange }
{}

/// `logs` reports each log once, by number: its kind and its bytes, which make 4,096.
pub fn logs_are_told()
    ensures { LogsAreTold }
{}

/// `where` tells the place of an object that its mutator uses, or that it is far, and its marks. `log` tells the line that
/// `logs` has for the log. `audit` counts each object once, those in a log and those on the far side, and the live bytes
/// that `logs` tells; they are the counts of the evacuator's census, which lists each object once, by rising pointers, and each log once, by number.
pub fn inquiries_tell()
    ensures place { WhereTells }
    ensures line { LogTellsItsLine }
    ensures counts { AuditCounts }
    ensures census { AuditsByCensus }
    ensures listed { AuditCountsList }
{}

/// A drop of an object that its mutator uses and doesn't view ends it: it is no object any more, its cell is free, and its
/// bytes are dead in its log; all other objects, words and views stay. Where the mutator views it the drop is refused 9,
/// and of any other pointer 7.
pub fn drops_end_objects()
    ensures { DropEndsObject }
{}

/// What each step of the evacuator tells has happened. `select` tells the logs that its policy or script takes of the sealed
/// ones, in that order. `mark` counts the pointers that gained EVAC, which stand before all that lack it then, and names the epoch that is reached once
/// each object of the chosen logs has it. `wait` is clear exactly where no scope from before the round is open that wasn't seen clear, and refused 18 by the
/// first such one alone. `evacuate` counts the objects that lie in another log then, that went far, that were retired, and the logs given
/// back, from the front on: the first that is still chosen has an object, and what left stood before all that lies there still. It is
/// done where no log is chosen any more. `round` is a `select` and turns, each answered as `mark 16`, `wait` or `evacuate 16`
/// would be, by the phase, and its counts are their sums, and where it is done of what has changed so from its first moment to
/// its last. An `evacuate` or a `round` that is refused memory, or that the device stops, is refused 1 or 10 with counts: of what has changed so before the object at which it stopped. That is the first
/// that lies in a chosen log then; it has DIRTY and isn't dropped, and there is no room for it if it is hot; `steps_leave` says that it is as before. What was done stays, a log is still chosen, and objects go on leaving. The phase follows from commands and replies, and 12 is answered
/// exactly out of phase. Through any command the sealed logs keep their order, but for those that were given back, and those sealed
/// since come last; so of two that were sealed by different commands the first is the older. Two that one command sealed may be in either order. The heap's epoch is the one that a
/// marking tells, and no other step but a round spends one; in the last epoch, idle, a choice of logs is refused 13, whatever is sealed.
///
/// Which objects move and which go far, and which free log is opened for one that moves, isn't said here: that is in the walk by which the outputs are defined, of which
/// `objects_go_their_way` of far_evac tells it.
pub fn steps_are_told()
    ensures told { StepsAreTold }
    ensures ages { AgesStay }
    ensures epochs { StepsSpendEpochs }
{}

/// A command that is no step of the evacuator leaves the round: its phase, its collection set, in its order, the
/// epoch of the core's round and its logs, and who was seen clear, whichever scope opens or closes. Nothing comes to lie in a chosen log, and
/// what lies there has EVAC where it had it; objects may only leave.
pub fn rounds_stand()
    ensures stand { RoundsStand }
{}

/// Through each step of the evacuator each object keeps its owner, data structure and bytes. Through `select`, `mark`, `wait` and
/// `abort`, and through any step that is refused, it stays at its place too: marking adds EVAC, giving up takes it away, and
/// but for that and the round nothing changes. Through `evacuate` and `round` each object stays that lies in none of the logs that were chosen, with
/// its marks, as do those that are far; so they do where it is refused in its midst. So does each that lies then in the log in which it lay, though a round may have given it EVAC; and what
/// mutators use, view and remember stays, with their scopes.
pub fn steps_leave()
    ensures leave { StepsLeave }
{}

/// `epoch` tells a mutator whose scope is closed the epoch of the heap, which it remembers, and nothing else changes; where its
/// scope is open it is refused 6. A scope opens at the epoch that its mutator remembers, or else at the heap's; a close
/// forgets it.
pub fn epochs_are_told()
    ensures told { EpochsAreTold }
    ensures opens { ScopesOpenAtEpochs }
    ensures forgotten { ClosesForget }
{}
