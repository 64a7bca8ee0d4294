//! What the effects of the book's calls are made of, as contracts of functions that do nothing.

ghost use Rattle.std.specs.Prelude.{◌≡◌, ◌*◌, ◌<◌, ◌≤◌, ℕ, true};
ghost use Rattle.far_book.specs.book.Ages.{FetchingSealsBehind, MovingSealsBehind, OfferingSealsBehind, PlacingSealsBehind, WithoutKeepsAges};
ghost use Rattle.far_book.specs.book.Actions.{EventsAreActions, LoadsGiveStored};
ghost use Rattle.far_book.specs.book.Collecting.{EmptiedAreVoid, NamedAreCopies, NoneFinished, NoneOffered};
ghost use Rattle.far_book.specs.book.Laws.{EvictingIsLegal, PlacingIsLegal, RetiringIsLegal, FetchingIsLegal, MovingIsLegal, ReleasingIsLegal, StayingIsLegal};
ghost use Rattle.far_book.specs.book.Offering.{OffersAreJobs};
ghost use Rattle.far_book.specs.book.SealedLogs.{SealedLogsKept};
ghost use Rattle.far_book.specs.book.NextLive.{LivesFromStart, LivesBehind, SpansAreBounded};
ghost use Rattle.far_book.specs.worked.JobRows.{AskedIsNamed, CopyIsOffered, DroppedIsntNamed, DroppedStaysOffered, FinishedIsNamed, FinishedStays, LastLogIsOffered, LeftIsntNamed, LowestIsNext, MovedIsntNamed, NowhereToCopy, OfferedIsTakenBack, OldIsntNamed, SealedTargetIsNamed, TakenStays, VoidIsEmpty};

/// Placing a new object where room is leads from a state to the next by legal events of the core: its header and zeros are
/// put, and its cell is named. So the law of the core is kept, and the world makes one step: the object. Its cell says near at
/// the place, the tail of its log grows by its size, and no other cell, word or tail changes.
pub fn placing_is_legal()
    ensures { PlacingIsLegal }
{}

/// Retiring a dropped object is one legal event of the core; the law of the core is kept, and the world stays. Its cell is free,
/// and no other cell, no word, tail or kind of a log changes.
pub fn retiring_is_legal()
    ensures { RetiringIsLegal }
{}

/// Evicting a quiet near object with EVAC, not dropped, is one legal event of the core. So the law of the core is kept, and
/// the world makes one step: the object goes far. Its cell says far, its words are stored, and no other cell, no other
/// pointer's stored words, no word, tail or kind of a log changes.
pub fn evicting_is_legal()
    ensures { EvictingIsLegal }
{}

/// Fetching a far object where room is leads from a state to the next by legal events of the core: its header and words are put,
/// which are those stored where the far side is honest, and its cell is named. So the law of the core is kept, and the world
/// makes one step: the object comes near. Its cell says near at the place, the tail of its log grows by its size, and no other
/// cell, word or tail changes.
pub fn fetching_is_legal()
    ensures { FetchingIsLegal }
{}

/// Moving a quiet near object with EVAC to where room is, the last free log too, leads from a state to the next by legal events
/// of the core: a header and its data words are put, and its cell is named. So the law of the core is kept, and the world makes one
/// step: the object goes to the group of that log. Its cell says near at the place, its data words there are those of the old
/// place, and no other cell, word or tail changes.
pub fn moving_is_legal()
    ensures { MovingIsLegal }
{}

/// Taking the marks but DIRTY of a near object with MOVE and without EVAC is one legal event of the core; the law of the core is kept, and in the
/// world the object is marked no more. No other cell, no word, tail or kind of a log changes.
pub fn staying_is_legal()
    ensures { StayingIsLegal }
{}

/// Giving back a sealed log in which no object lies is one legal event of the core; the law of the core is kept, and in the world
/// its group is given back. The log is free and empty, and out of the round; all else stays, who was seen clear in the round too.
pub fn releasing_is_legal()
    ensures { ReleasingIsLegal }
{}

/// The book's effects leave the sealed logs as they are, but that objects may have left them: no object comes to lie in one, and none that stays
/// there gets EVAC or loses it.
pub fn sealed_logs_stay()
    ensures { SealedLogsKept }
{}

/// The sealed logs stand by their age: what placing, fetching, moving and offering seal comes behind those that were sealed before, and nothing else does; a log
/// that is given back leaves the others in their order.
pub fn order_is_by_age()
    ensures placed { PlacingSealsBehind }
    ensures fetched { FetchingSealsBehind }
    ensures moved { MovingSealsBehind }
    ensures offered { OfferingSealsBehind }
    ensures released { WithoutKeepsAges }
{}

/// A job that is offered says whose object a copier may copy, from where to where. Once jobs were collected none is known to be
/// finished; one that was named was found finished and wasn't void, and its pointer names its target then. One that was emptied and not
/// named is void, or was found finished, and its object dropped. Once jobs were taken back none is known to be offered.
pub fn jobs_come_and_go()
    ensures offered { OffersAreJobs }
    ensures named { NamedAreCopies }
    ensures emptied { EmptiedAreVoid }
    ensures collected { NoneFinished }
    ensures taken_back { NoneOffered }
{}

/// Worked examples of jobs: lists of calls and of others' events, on a heap that nobody else steps, and what they answer.
pub fn jobs_are_so()
    // a copy is offered with a span of its own, and once a copier has finished it its object is named to it
    ensures copy_is_offered { CopyIsOffered }
    ensures finished_is_named { FinishedIsNamed }

    // not where the object has moved meanwhile; but where it was only to be moved, or the copy's log is sealed by then
    ensures moved_isnt_named { MovedIsntNamed }
    ensures asked_is_named { AskedIsNamed }
    ensures sealed_target_is_named { SealedTargetIsNamed }

    // nor where it is dropped, which leaves an offer as it is, nor where the round is over or the log has left it
    ensures dropped_isnt_named { DroppedIsntNamed }
    ensures dropped_stays_offered { DroppedStaysOffered }
    ensures old_isnt_named { OldIsntNamed }
    ensures left_isnt_named { LeftIsntNamed }

    // void offers are emptied, and offers that are taken back; what a copier has stays, and what it has finished isn't taken back
    ensures void_is_empty { VoidIsEmpty }
    ensures taken_stays { TakenStays }
    ensures offered_is_taken_back { OfferedIsTakenBack }
    ensures finished_stays { FinishedStays }

    // the lowest empty job comes next; without room there is no copy, and the last free log is room for one
    ensures lowest_is_next { LowestIsNext }
    ensures nowhere_to_copy { NowhereToCopy }
    ensures last_log_is_offered { LastLogIsOffered }
{}

/// From the start on, whatever owners and the book do, in whatever order, a load of a word gives the word that was last
/// stored there since its object was placed, and 0 where none was: where the object lies now, and whether it was far
/// meanwhile, makes no difference. So it is of each run of actions with an honest far side, refused ones among them.
///
/// A legal event of an owner with its answer is such an action.
pub fn loads_give_stored()
    ensures stored { LoadsGiveStored }
    ensures events { EventsAreActions }
{}

/// The live spans of a log that are found from word 0 on are all of them. Where a span begins, and where it ends, is a boundary; and a
/// boundary parts the spans of a log: those that are found from it on are the live ones of those behind it.
pub fn live_spans_follow()
    ensures start { LivesFromStart }
    ensures bounded { SpansAreBounded }
    ensures behind { LivesBehind }
{}
