//! What the definitions of a round come to, as contracts of functions that do nothing.

ghost use Rattle.std.specs.Prelude.{◌≡◌};
ghost use Rattle.far_evac.specs.Copied.{CopiedIsAllowed};
ghost use Rattle.far_evac.specs.CopiedBack.{CopiedComesBack};
ghost use Rattle.far_evac.specs.Callers.{CallersSealBehind, CoresJoin, FetchingOrder, FetchingStepsAside, MovingOrder, MovingStepsAside, OwnersStepAside, PlacingOrder, PlacingStepsAside, RetiringOrder, RetiringStepsAside, StepsJoin, StepsKeep, StillOrder, StillStepsAside};
ghost use Rattle.far_evac.specs.Leading.{AbortingLeads, ChoiceIsOfSealed, MarkingLeads, PollingLeads, RoundLeads, SelectingLeads, TurnsLead, WalkingLeads};
ghost use Rattle.far_evac.specs.Owned.{AbortingKeepsObjects, MarkingKeepsObjects, PollingKeepsObjects, RoundKeepsObjects, SelectingKeepsObjects, TurnsKeepObjects, TurnsRetireNone, WalkRetiresNone, WalkingKeepsObjects};
ghost use Rattle.far_evac.specs.Emptied.{LogsComeBackEmpty};
ghost use Rattle.far_evac.specs.Listing.{CensusListsEach};
ghost use Rattle.far_evac.specs.LiveLaws.{LiveIsInOrder};
ghost use Rattle.far_evac.specs.Turns.{turn_size};
ghost use Rattle.far_evac.specs.Strays.{AbortingStraysNone, CallersStrayNone, CallsStrayNone, ComersJoin, EventsBringNone, FoundStrayNone, MarkingStraysNone, NoRoundStraysNone, OwnersBringNone, PollingStraysNone, RisenStraysNone, RoundStraysNone, RoundsStrayNone, RowsStrayNone, SelectingStraysNone, TurnsStrayNone, WalkingStraysNone};
ghost use Rattle.far_evac.specs.TakesRoom.{CallTakesRoom, RoundTakesRoom, RoundTakesSome, TurnsTakeRoom, TurnsTakeSome, WalkTakesRoom};
ghost use Rattle.far_evac.specs.WayLaws.{JobsArePassedOver, ObjectsGoBesideCopiers, ObjectsGoTheirWay};
ghost use Rattle.far_evac.specs.Laws.{CensusIsExact, ClearIsShown, ClearMeansUnviewed, ClearViewsNothing, DealingIsInOrder, ExactIsAllowed, GivingUpIsRight, LooksSeeClear, MarkingIsCounted, MarkingIsRight, PollIsAllowed, PollIsOnce, RisenIsReady, RoundIsAllowed, RoundIsEvent, TurnIsAllowed, WaitIsNamed, WaitingStays, WalkIsTour, WalksJoin};
ghost use Rattle.far_evac.specs.worked.AsCalled.{AsCalled};
ghost use Rattle.far_evac.specs.worked.Copied.{CleanIsOffered, CopierByHand, DroppedIsPassedOver, DroppedIsRetired, DroppedMeanwhile, EachLogComesBack, NoJobIsEmpty, NoRoomForCopies, OffersAreTakenBack, OneAtATime, OtherLogsGoOn, OwnerFirst, PassesOnAtNone};
ghost use Rattle.far_evac.specs.worked.Rows.{EmptiestIsFirst, EpochsAreNamed, FirstLiesFirst, GivenUp, HotWithoutRoom, LastEpoch, NothingToChoose, OldEpoch, OldView, OldestIsFirst, OpenScopeIsWaitedFor, OpenedAnew, OwnerIsFirst, PhasesAreKept, PlainRound, ReserveIsKept, StepByStep, TurnsRunOut};

/// The exact evacuation, over words that nobody else changes, is one of those that are allowed over any hand.
pub fn exact_is_allowed()
    ensures { ExactIsAllowed }
{}

/// So is the exact poll.
pub fn poll_is_allowed()
    ensures { PollIsAllowed }
{}

/// So is an exact turn of a running round. So is a whole round: its turns are a list of such turns, each from a lawful moment, their tallies add up to what it
/// answers, and it ends as that list says.
pub fn round_is_allowed()
    ensures turn { TurnIsAllowed }
    ensures whole { RoundIsAllowed }
{}

/// A turn marks, or deals with, at most 16 objects.
#[tactic(auto, unfolding(crate::specs::Turns::turn_size))]
pub fn turns_have_16()
    ensures { turn_size ≡ 16 }
{}

/// An evacuation of n objects does what stands before the (n + 1)th object in a list of the live objects and the ends of the chosen
/// logs, made before it began.
pub fn walk_is_tour()
    ensures { WalkIsTour }
{}

/// An evacuation of a objects, and then one of b more, leave the moment that one of a + b objects leaves, and count together
/// what it counts.
pub fn walks_join()
    ensures { WalksJoin }
{}

/// Over any hand, whatever is found in the cells: k dealings are with the first k live objects of the chosen logs, in their
/// order, each is counted once, and the logs in front without a live object were given back, also before the first dealing; after the last one each log was. A log
/// that is counted as given back is free then, and has no bytes, live or dead.
pub fn dealing_is_in_order()
    ensures order { DealingIsInOrder }
    ensures emptied { LogsComeBackEmpty }
{}

/// The object that k live ones stand before is dealt with by the marks that it had when the evacuation began, where no word changes but by it: a dropped one is
/// retired, a cold one goes far, and a hot one to where there is room then, or far if there is none. It has no marks after, but DIRTY if it moved with DIRTY.
pub fn objects_go_their_way()
    ensures { ObjectsGoTheirWay }
{}

/// Where copies may be offered, over any hand: an object is dealt with by the marks that its cell was found to have, DROP and HOT, and by nothing else that it says but the
/// length. A dropped one is retired, a cold one goes far, and so does a hot one where there is no room. Else the copy of a hot one is offered by the lowest empty job to
/// where the room is; where no job is empty it moves there. An object that has a job that isn't void is passed over, dropped or not, and however many may be dealt with yet.
pub fn objects_go_beside_copiers()
    ensures ways { ObjectsGoBesideCopiers }
    ensures passed_over { JobsArePassedOver }
{}

/// Over any hand, if no copy may be offered: the room that dealing with objects takes is that of those that moved. In a log outside the collection set dead bytes
/// stay, live ones rise by the objects that came, and unused ones fall by as much; in one that is still in it what left is dead; one that was given back has what came
/// since. Of all logs together live bytes fall by the objects that went far or were retired. So it is with each call of a round, with turns one after the other, and with
/// whole rounds, also with those that stop at an object.
pub fn walks_take_room()
    ensures walking { WalkTakesRoom }
    ensures call { CallTakesRoom }
    ensures row { TurnsTakeSome }
    ensures round { RoundTakesSome }
    ensures turns { TurnsTakeRoom }
    ensures whole { RoundTakesRoom }
{}

/// Marking sets EVAC in the first n live objects that lack it, or in all, and changes nothing else in any cell; where none is left, each
/// live object of the chosen logs has it. What is counted are objects that lacked it, each once; marking goes on exactly while one lacks it, and
/// where none does the epoch that is named has risen for a round of the chosen logs.
pub fn marking_is_right()
    ensures cells { MarkingIsRight }
    ensures counted { MarkingIsCounted }
{}

/// After a round is given up no live object of what was the collection set has EVAC, and these logs are out of the core's round, but for those without
/// a live object. Nothing else has changed.
pub fn giving_up_is_right()
    ensures { GivingUpIsRight }
{}

/// The live objects of some logs are those that lie near there, dropped or not, each once: log after log, and within a log by rising words.
pub fn live_objects_are_in_order()
    ensures { LiveIsInOrder }
{}

/// Once the epoch has risen for a round, the law of the book's part of the core and that of the moment make the evacuation ready.
pub fn risen_is_ready()
    ensures { RisenIsReady }
{}

/// A round of some logs begins by one event of the core.
pub fn round_is_event()
    ensures { RoundIsEvent }
{}

/// An owner's scope is clear as a look at it would show.
pub fn clear_is_shown()
    ensures { ClearIsShown }
{}

/// Looks at the first owners, each of which is clear, see them clear, and change nothing else.
pub fn looks_see_clear()
    ensures { LooksSeeClear }
{}

/// Where a poll answers that all owners are clear, none of them views anything in the chosen logs. Nor does any later in the round, in the heap as it
/// is, whatever a hand knows of it; nor one who was seen clear while others are waited for.
pub fn clear_means_unviewed()
    ensures polled { ClearMeansUnviewed }
    ensures later { ClearViewsNothing }
{}

/// A census lists each pointer whose cell is used and not dropped, with its home, and no other: once, by rising numbers. It tells what each log is and
/// has, from log 0 on, each once.
pub fn census_is_exact()
    ensures exact { CensusIsExact }
    ensures each { CensusListsEach }
{}

/// A poll names the first owner who holds the round up, and the epoch at which its scope is open. As long as nobody closes or opens a scope, a second
/// poll finds the same owner open, and changes nothing.
pub fn poll_is_once()
    ensures once { PollIsOnce }
    ensures named { WaitIsNamed }
{}

/// Where a turn found a round waiting, and left it so, no turn after it changes anything, as long as nobody closes or opens a scope.
pub fn waiting_stays()
    ensures { WaitingStays }
{}

/// Selecting, marking, polling, dealing with objects and giving up lead from a heap to the next by legal events of the core, and keep the law of the
/// core and what is true between two calls. So do turns, one after the other, and whole rounds. What a policy chose of the rows that it was handed may be selected.
pub fn rounds_lead()
    ensures chosen { ChoiceIsOfSealed }
    ensures selecting { SelectingLeads }
    ensures marking { MarkingLeads }
    ensures polling { PollingLeads }
    ensures walking { WalkingLeads }
    ensures aborting { AbortingLeads }
    ensures turns { TurnsLead }
    ensures whole { RoundLeads }
{}

/// The same calls leave what owners have: what they use, hold and remember, their scopes, and each object with its bytes, wherever it is then. A cell that
/// isn't dropped isn't dropped then, and it is free exactly where it was.
pub fn rounds_keep_objects()
    ensures selecting { SelectingKeepsObjects }
    ensures marking { MarkingKeepsObjects }
    ensures polling { PollingKeepsObjects }
    ensures walking { WalkingKeepsObjects }
    ensures aborting { AbortingKeepsObjects }
    ensures turns { TurnsKeepObjects }
    ensures whole { RoundKeepsObjects }
{}

/// Where no object is dropped that isn't retired yet, neither an evacuation nor turns retire any.
pub fn rounds_retire_none()
    ensures walking { WalkRetiresNone }
    ensures turns { TurnsRetireNone }
{}

/// What callers do between two calls of a round leaves it alone, and keeps what is true between two calls: owners' events, and the book's calls that place, move,
/// fetch or retire an object. Two such steps are one, unless both open another log.
pub fn callers_keep()
    ensures keeps { StepsKeep }
    ensures joined { StepsJoin }
    ensures still { StillStepsAside }
    ensures owners { OwnersStepAside }
    ensures placed { PlacingStepsAside }
    ensures moved_now { MovingStepsAside }
    ensures fetched { FetchingStepsAside }
    ensures retired { RetiringStepsAside }
{}

/// After such a step the sealed logs are, oldest first, as the book's call keeps them: what was sealed in it stands behind those that were sealed before.
pub fn callers_keep_order()
    ensures ages { CallersSealBehind }
    ensures joined { CoresJoin }
    ensures still { StillOrder }
    ensures placed { PlacingOrder }
    ensures moved_now { MovingOrder }
    ensures fetched { FetchingOrder }
    ensures retired { RetiringOrder }
{}

/// Each object that lies in a log of the core's round lies in one of the collection set: once the epoch has risen, where no other log is in that round; and in a heap
/// that began without a round also before, when a round that was given up may have left logs there in which nothing lies. So it stays, over any hand, through each
/// call of a round, turns and whole rounds, and through what callers do between two of them.
pub fn none_strays()
    // no object strays where the core has no round, nor once the epoch has risen
    ensures start { NoRoundStraysNone }
    ensures risen { RisenStraysNone }

    // nor through a call of a round, turns or a whole round, of a heap that nobody else steps
    ensures selecting { SelectingStraysNone }
    ensures marking { MarkingStraysNone }
    ensures polling { PollingStraysNone }
    ensures walking { WalkingStraysNone }
    ensures aborting { AbortingStraysNone }
    ensures turns { TurnsStrayNone }
    ensures whole { RoundStraysNone }

    // nor over any hand: through marks that are found, a round's calls, turns, and whole rounds
    ensures found { FoundStrayNone }
    ensures calls { CallsStrayNone }
    ensures rows { RowsStrayNone }
    ensures rounds { RoundsStrayNone }

    // nor between two rounds, whatever brings no object to a log of the round: any row of such changes, all that owners do, and events that
    // leave the epoch
    ensures callers { CallersStrayNone }
    ensures joined { ComersJoin }
    ensures owners { OwnersBringNone }
    ensures events { EventsBringNone }
{}

/// Worked examples: whole lists of calls on a heap that nobody else steps, and what they answer. The calls of these lists begin a round, and are refused, as the
/// contracts of the calls themselves say.
pub fn rounds_are_so()
    // these lists' calls begin a round, and are refused, as the evacuator's own
    ensures as_called { AsCalled }

    // the last free log is kept for moves; in a round a hot object moves and a cold one goes far, and both are read afterwards
    ensures reserve_is_kept { ReserveIsKept }
    ensures plain_round { PlainRound }

    // open scopes are waited for, and view what they viewed, but no marked object anew; an owner may move its objects first, and a hot one goes
    // far where no log is free
    ensures open_scope_is_waited_for { OpenScopeIsWaitedFor }
    ensures old_epoch { OldEpoch }
    ensures old_view { OldView }
    ensures owner_is_first { OwnerIsFirst }
    ensures hot_without_room { HotWithoutRoom }

    // a round's calls belong to their phases; none begins at the last epoch or without a sealed log, a log that was opened anew isn't emptied again, and
    // a round stands where its turns ran out
    ensures phases_are_kept { PhasesAreKept }
    ensures last_epoch { LastEpoch }
    ensures opened_anew { OpenedAnew }
    ensures turns_run_out { TurnsRunOut }
    ensures nothing_to_choose { NothingToChoose }

    // one object at a time, a log comes back once the walk has passed it; what a round has marked that was given up is unmarked
    ensures step_by_step { StepByStep }
    ensures given_up { GivenUp }

    // objects leave in the order in which they lie, logs as the policy chooses, the oldest or the emptiest first; epochs are named as they are
    ensures first_lies_first { FirstLiesFirst }
    ensures oldest_is_first { OldestIsFirst }
    ensures epochs_are_named { EpochsAreNamed }
    ensures emptiest_is_first { EmptiestIsFirst }
{}

/// Where copies may be offered: an evacuation that goes by the words that are there is one of those that are allowed over any hand, and so is giving up.
pub fn copied_is_allowed()
    ensures { CopiedIsAllowed }
{}

/// Where copies may be offered, over any hand: what an evacuation leaves of the collection set are some of its logs, in their order. The others are counted as given
/// back, and each of them is out of the round.
pub fn copied_comes_back()
    ensures { CopiedComesBack }
{}

/// Worked examples where copies may be offered: copiers' events stand in the lists too.
pub fn copies_are_so()
    // a hot object's copy is offered, once, and its object named to it when it's finished, unless its owner was first; without room it goes far
    ensures copier_by_hand { CopierByHand }
    ensures owner_first { OwnerFirst }
    ensures one_at_a_time { OneAtATime }
    ensures no_room { NoRoomForCopies }

    // a log that a job holds doesn't hold up those behind it; clean objects are copied too, and objects that have a job are passed over
    ensures others_go_on { OtherLogsGoOn }
    ensures clean { CleanIsOffered }
    ensures passes_on { PassesOnAtNone }

    // a dropped object is never named to a copy: it is retired, once no copier has its job
    ensures dropped { DroppedIsRetired }
    ensures passed_over { DroppedIsPassedOver }
    ensures dropped_meanwhile { DroppedMeanwhile }

    // a round that is given up takes its offers back; 16 are offered at most; each log in which nothing lies any more comes back
    ensures taken_back { OffersAreTakenBack }
    ensures no_job { NoJobIsEmpty }
    ensures each_log { EachLogComesBack }
{}
