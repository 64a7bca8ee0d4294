//! What is true of every core, as contracts. No function here does anything when it runs.

ghost use Rattle.std.specs.Prelude.{◌≡◌, ◌≢◌, ◌↔◌, ◌+◌, ◌*◌, ◌<◌, ◌≤◌, ◌||◌, ◌==◌, if◌then◌else◌, ℕ, Bool, true, false, Some, None, IsSome, All};
ghost use Rattle.far_word.specs.declared.mark.Marks.{Marks};
ghost use Rattle.far_word.specs.declared.sizes.TheConstants.{LOG_WORDS};
ghost use Rattle.far_word.specs.Pointer.{read_of};
ghost use Rattle.far_log.specs.declared.span.Span.{Span};
ghost use Rattle.far_log.specs.Spans.{HasOneSpan, HasNoSpan};
ghost use Rattle.far_log.specs.Walk.{IsWalk};
ghost use Rattle.far_events.specs.declared.event.Kind.TheVariants.{Free, Open};
ghost use Rattle.far_core.specs.state.Agrees.{Agrees};
ghost use Rattle.far_core.specs.state.CoreState.{core_state};
ghost use Rattle.far_events.specs.state.Law.{Law};
ghost use Rattle.far_core.specs.laws.Leaves.{EventsLeave};
ghost use Rattle.far_events.specs.events.Legal.{Legal};
ghost use Rattle.far_events.specs.state.Ends.{HasNothingPast, IsWhatIsWithin};
ghost use Rattle.far_core.specs.laws.Jobs.{JobsStand};
ghost use Rattle.far_core.specs.laws.Live.{LiveIs, LiveBytesAre};
ghost use Rattle.far_core.specs.laws.Observed.{live_bytes, dead_bytes, unused_bytes, HasOnePlace, NamesOnce, LogsStand, NearHasOneLive, PlacedExactly};
ghost use Rattle.far_events.specs.state.Opening.{opening};
ghost use Rattle.far_events.specs.state.Shape.{is_shape};
ghost use Rattle.far_events.specs.state.Spans.{IsOfHeap, spans_of, word_in};
ghost use Rattle.far_events.specs.state.State.{State};
ghost use Rattle.far_events.specs.events.Step.{is_legal};
ghost use Rattle.far_events.specs.events.Reports.{RepliesReport, RefusalsReportNothing};
ghost use Rattle.far_core.specs.world.World.{start};
ghost use Rattle.far_core.specs.laws.Agreement.{ViewRests, MarksAgree, MarksExist, ObjectAgrees};
ghost use Rattle.far_core.specs.laws.Namings.{NamingsArePlain};
ghost use Rattle.far_core.specs.laws.Refusals.{ScopesAreRefused, PointersAreRefused, WordsAreRefused, LogsAreRefused, RoundsAreRefused, CopyingIsRefused, CopiesAreRefused};
ghost use Rattle.far_core.specs.laws.RefusedNamings.{NamingsAreRefused};
ghost use Rattle.far_core.specs.laws.Rooms.{RoomIsRight};
ghost use Rattle.far_core.specs.laws.Rounds.{RoundStands, ScopesShow, OneLogIsABit, SetsAreJoined, NoLogIsZero, FiveIsTwoLogs};
ghost use Rattle.far_core.specs.laws.Taking.{CopiesAreTaken, TakingIsRefused};
ghost use Rattle.far_core.specs.laws.Worlds.{ObjectsStand, StepsKeep, LoadsRead, StepsAreOne, LyingIsOpen, ChangesKeep, ChangesAreOne, EventsCause};
ghost use Rattle.far_core.specs.world.WorldOf.{world_of};

use crate::machine::Core;
use far_events::{Event, Shape};

impl Core {
    /// Every core keeps the law, and its views rest on words that it says they may.
    pub fn keeps_law(&self)
        ensures law { Law (core_state self.now) }
        ensures agrees { Agrees (core_state self.now) }
    {
        let _memory = &self.memory;
    }

    /// The words of each log below its tail walk to exactly its spans: they follow each other from its first word to its
    /// tail, each with its header and padding, and each header names a pointer of the heap. So each word below the tail is
    /// header or data of exactly one span, and each word past it of none. Free logs have no span, and exactly one log is
    /// open.
    pub fn spans_fill_logs(&self)
        ensures walk { (l : ℕ) → IsWalk (word_in (core_state self.now) l) ((core_state self.now).tail l) (spans_of (core_state self.now) l) }
        ensures pointers { (l : ℕ) → All (IsOfHeap (core_state self.now)) (spans_of (core_state self.now) l) }
        ensures tails { (l : ℕ) → (core_state self.now).tail l ≤ LOG_WORDS }
        ensures placed { (l at : ℕ) → PlacedExactly (core_state self.now) l at }
        ensures below { (l i : ℕ) → i < (core_state self.now).tail l → HasOneSpan (spans_of (core_state self.now) l) i }
        ensures past { (l i : ℕ) → (core_state self.now).tail l ≤ i → HasNoSpan (spans_of (core_state self.now) l) i }
        ensures stand { LogsStand (core_state self.now) }
    {
        let _memory = &self.memory;
    }

    /// Live, dead and unused bytes of each log make its 4,096. A span is live exactly where the cell of the pointer that its
    /// header names says near, at its place; live bytes are what the live spans take, and dead bytes what all others take.
    pub fn bytes_make_log(&self)
        ensures sum { (l : ℕ) → live_bytes (core_state self.now) l + dead_bytes (core_state self.now) l + unused_bytes (core_state self.now) l ≡ 8 * LOG_WORDS }
        ensures live { (l : ℕ) (span : Span) → LiveIs (core_state self.now) l span }
        ensures bytes { (l : ℕ) → LiveBytesAre (core_state self.now) l }
    {
        let _memory = &self.memory;
    }

    /// Each used cell without DROP has one place: exactly one live span, of its length and data structure, or, far,
    /// stored words of its length and no live span. A near cell with DROP has its one live span too, and two cells never
    /// name one place. Each object of the world has a number below 2,048, that number's owner and 1 to 4,088 bytes, and a
    /// near one lies in a held group. A view is of a near object in a held group, under an open scope; an object is marked
    /// exactly where its word has EVAC or MOVE, and nothing else is marked. The objects of the world are those of used cells without
    /// DROP, with the bytes of their words.
    pub fn objects_have_one_place(&self)
        ensures one { (p : ℕ) → HasOnePlace (core_state self.now) p }
        ensures near { (p : ℕ) → NearHasOneLive (core_state self.now) p }
        ensures once { NamesOnce (core_state self.now) }
        ensures stand { ObjectsStand (world_of (core_state self.now)) }
        ensures views { (p : ℕ) → (world_of (core_state self.now)).viewed p ≡ true → ViewRests (world_of (core_state self.now)) p }
        ensures marks { (p : ℕ) → MarksAgree (core_state self.now) p }
        ensures exist { (p : ℕ) → MarksExist (core_state self.now) p }
        ensures agree { (p : ℕ) → ObjectAgrees (core_state self.now) p }
    {
        let _memory = &self.memory;
    }

    /// The logs of the round are held groups, in which each object is marked. An owner that was seen clear views none of them, nor
    /// does one whose scope is open at the epoch or later. A scope word is 0, or says an epoch that isn't above the epoch.
    pub fn round_stands(&self)
        ensures { RoundStands (core_state self.now) }
    {
        let _memory = &self.memory;
    }

    /// What is offered to copiers stands. No log that a job reads or writes is free, and no two jobs write at one place. No pointer is named
    /// to a job's target before the book has written so down of the job; until then both places of a finished job have the same words, as
    /// long as the round of its offer lasts and the source's log is in it. A job that is taken is of one copier, which has no other.
    pub fn jobs_stand(&self)
        ensures { JobsStand (core_state self.now) }
    {
        let _memory = &self.memory;
    }

    /// Room for a span of at most 512 words is the end of the open log where the span fits there, else the start of the
    /// lowest free log, but not of the only one where the reserve is kept; none only where neither may be had.
    pub fn room_is_right(&self)
        ensures { RoomIsRight (core_state self.now) }
    {
        let _memory = &self.memory;
    }

    /// Past the ends of a core there is nothing. Past the last log all words are 0, no span begins, and each log is free, with tail 0, outside the
    /// round; past the last owner each scope is closed, nothing is remembered, and nobody was seen clear; past the last pointer each cell is
    /// 0, not used, not held and not soiled, with zeros stored; past the last job and the last copier there is none. So a core's state is what it says of its
    /// own owners, pointers, logs and words, and of what is copied: no other with nothing past its ends says the same of them.
    pub fn nothing_is_past(&self)
        ensures past { HasNothingPast (core_state self.now) }
        ensures within { IsWhatIsWithin (core_state self.now) }
    {
        let _memory = &self.memory;
    }

    /// An event passes the test of a step exactly where it is legal, and what its reply reports is so: the epoch that was
    /// remembered, the place that is held, the word that keeps a view away, the word that is read or put, the span that a
    /// won naming takes; a lost naming changes nothing. Of a reply that has no row, as a refusal, nothing is reported at all.
    pub fn replies_report(&self)
        ensures test { (event : Event) → Legal (core_state self.now) event ↔ (is_legal (core_state self.now) event ≡ true) }
        ensures report { RepliesReport (core_state self.now) }
        ensures refusals { RefusalsReportNothing }
    {
        let _memory = &self.memory;
    }
}

/// The state at the start means the world at the start, and has what its shape says. Nothing is remembered, no cell is
/// used, all words of the logs are 0, and no log has a span; log 0 is open, all others are free, and there is no round.
pub fn opening_is_start(shape: Shape, honest: bool)
    // the world at the start, and what the shape says
    ensures world { world_of (opening shape honest) ≡ start honest }
    ensures shape { ((opening shape honest).logs ≡ shape.logs) × ((opening shape honest).mutators ≡ shape.mutators) × ((opening shape honest).epoch ≡ shape.epoch) }
    ensures honesty { (opening shape honest).honest ≡ honest }

    // no epoch is remembered, no cell is used, each word is 0
    ensures memory { (m : ℕ) → (opening shape honest).remembered m ≡ None }
    ensures words { (a : ℕ) → (opening shape honest).word a ≡ 0 }
    ensures cells { (p : ℕ) → (opening shape honest).cell p ≡ 0 }

    // no log has a span, log 0 is open, the others are free, and there is no round
    ensures tails { (l : ℕ) → (opening shape honest).tail l ≡ 0 }
    ensures begins { (a : ℕ) → (opening shape honest).starts a ≡ false }
    ensures kinds { (l : ℕ) → (opening shape honest).kind l ≡ (if l == 0 then Open else Free) }
    ensures round { (l : ℕ) → (opening shape honest).round l ≡ false }
    ensures clear { (m : ℕ) → (opening shape honest).clear m ≡ false }
{}

/// No step of a world changes honesty, moves or changes what is viewed but by its owner's store, ends a view but by its
/// owner's close or begins one but by its owner's pin, or gives back a group in which an object lies. In an honest world
/// each object, viewed or not, near or far, keeps its bytes but for its owner's store, until its owner drops it. In any
/// other world so does each object that isn't fetched, and a fetch, of a far object alone, gives back as many bytes. What is
/// loaded is a word of an object that its owner views. An event with its reply makes one step, but for the bytes that a
/// far side gives back that isn't honest. Said of changes, and so of the events that cause them.
pub fn steps_keep_views()
    ensures changes { ChangesKeep }
    ensures one_change { ChangesAreOne }
    ensures causes { EventsCause }
    ensures keep { StepsKeep }
    ensures loads { LoadsRead }
    ensures one { StepsAreOne }
    ensures lying { LyingIsOpen }
{}

/// What an event changes of the words and views is what its rule says that it touches: one shared word at most, and a part
/// of one view at most: that of its own mutator, of its own copier or of the book.
pub fn events_leave_others()
    ensures { EventsLeave }
{}

/// A set of logs is a number of 64 bits: 2 to the power of l is log l alone, the bits of two sets together are both, and 0 is none.
pub fn sets_of_logs()
    ensures one { OneLogIsABit }
    ensures both { SetsAreJoined }
    ensures none { NoLogIsZero }
    ensures five { FiveIsTwoLogs }
{}

/// The scope words that show an owner clear in a round of some epoch: 0, and 2e + 1 for each epoch e that isn't below it.
pub fn scopes_show()
    ensures { ScopesShow }
{}

/// A naming's new word is 0 where the old one has DROP. Else it has no mark but DIRTY, not HOT either, and the length and the data structure of the old
/// one, if that wasn't 0.
pub fn namings_are_plain()
    ensures { NamingsArePlain }
{}

/// A pointer comes to a job's target by a naming alone that takes the copy: its object lies at the source still, the job is finished and not
/// void, and the words at both places are the same. By such a naming alone the book comes to note of a job that its pointer was named to the
/// target, and it does until another job is offered there. Of which round a job is changes by another offer alone.
pub fn copies_are_taken()
    ensures { (s : State) → Law s → CopiesAreTaken s }
{}

/// What stands of jobs in a core stands in each state that keeps the law, as in those in which a step on shared words may be made.
pub fn jobs_stand_by_law()
    ensures { (s : State) → Law s → JobsStand s }
{}

/// Causes for which an event is refused and changes nothing, a row each: of scopes, pointers, an object's words, logs, cells and
/// rounds, copying, namings, offers of copies, and of what a job still needs. A row says what is so in the state; no guard stands in it.
pub fn refusals_are_said()
    ensures scopes { (s : State) → Law s → ScopesAreRefused s }
    ensures pointers { (s : State) → Law s → PointersAreRefused s }
    ensures words { (s : State) → Law s → WordsAreRefused s }
    ensures logs { (s : State) → Law s → LogsAreRefused s }
    ensures rounds { (s : State) → Law s → RoundsAreRefused s }
    ensures copying { (s : State) → Law s → CopyingIsRefused s }
    ensures namings { (s : State) → Law s → NamingsAreRefused s }
    ensures copies { (s : State) → Law s → CopiesAreRefused s }
    ensures taking { (s : State) → Law s → TakingIsRefused s }
{}
