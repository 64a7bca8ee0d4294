//! What is true of a book's logs and objects between any two calls.

ghost use Rattle.std.specs.Prelude.{◌≡◌, ◌+◌, ◌*◌, ℕ, All};
ghost use Rattle.far_word.specs.declared.sizes.TheConstants.{LOG_WORDS};
ghost use Rattle.far_log.specs.declared.span.Span.{Span as SpanOf};
ghost use Rattle.far_log.specs.Walk.{IsWalk};
ghost use Rattle.far_core.specs.laws.Live.{LiveIs, LiveBytesAre};
ghost use Rattle.far_core.specs.laws.Observed.{live_bytes, dead_bytes, unused_bytes, HasOnePlace, NamesOnce, LogsStand, NearHasOneLive, PlacedExactly};
ghost use Rattle.far_core.specs.laws.Rooms.{RoomIsRight};
ghost use Rattle.far_events.specs.state.Spans.{IsOfHeap, spans_of, word_in};
ghost use Rattle.far_book.specs.book.Own.{own_part};

use crate::book::Book;
use far_device::Device;
use far_hand::Near;

impl<N: Near + Drop, D: Device + Drop> Book<N, D> {
    /// What the book's part of the law means, over any hand. Live, dead and unused bytes of each log make its 4,096: live are
    /// those that its live spans take, dead those that its others do. A used cell without DROP has exactly one live span, of its
    /// length and data structure, whose header names it, or, far, stored words of its length and no live span; a near cell
    /// with DROP has its one live span too, and two cells never name one place.
    ///
    /// The headers of each log below its tail walk to exactly its spans, free logs have none, and exactly one log is open. Room
    /// is where the next span may stand, and overlooks none.
    pub fn logs_are_whole(&self)
        // live, dead and unused bytes make a log's 4,096, and live are those of the spans that their pointers' cells name
        ensures sum { (l : ℕ) → live_bytes (N.view self.now.near) l + dead_bytes (N.view self.now.near) l + unused_bytes (N.view self.now.near) l ≡ 8 * LOG_WORDS }
        ensures live { (l : ℕ) (span : SpanOf) → LiveIs (N.view self.now.near) l span }
        ensures bytes { (l : ℕ) → LiveBytesAre (N.view self.now.near) l }

        // an object in use that isn't dropped lies in one live span or is far, a near cell has one live span, and no two cells name one place
        ensures one { (p : ℕ) → HasOnePlace (N.view self.now.near) p }
        ensures near { (p : ℕ) → NearHasOneLive (N.view self.now.near) p }
        ensures once { NamesOnce (N.view self.now.near) }

        // the headers below a log's tail walk to exactly its spans, each of a pointer of the heap
        ensures walk { (l : ℕ) → IsWalk (word_in (own_part (N.view self.now.near)) l) ((N.view self.now.near).tail l) (spans_of (N.view self.now.near) l) }
        ensures pointers { (l : ℕ) → All (IsOfHeap (N.view self.now.near)) (spans_of (N.view self.now.near) l) }

        // the book keeps just these spans; a free log has none, and exactly one log is open
        ensures placed { (l at : ℕ) → PlacedExactly (N.view self.now.near) l at }
        ensures stand { LogsStand (N.view self.now.near) }

        // room is where the next span may stand, and overlooks none
        ensures room { RoomIsRight (N.view self.now.near) }
    {
        self.keeps_law();
    }
}
