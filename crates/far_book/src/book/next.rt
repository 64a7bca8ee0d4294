//! How the live spans of a log are found one after the other, without a list of them.

ghost use Rattle.std.specs.Prelude.{◌≡◌, ◌⊎◌, ◌+◌, ◌*◌, ◌<◌, ◌≤◌, ◌∷◌, ℕ, true, [], IfSome, IfNone};
ghost use Rattle.far_word.specs.declared.sizes.TheConstants.{CELLS, LOG_WORDS};
ghost use Rattle.far_word.specs.Sizes.{size_of};
ghost use Rattle.far_log.specs.Spans.{span_at};
ghost use Rattle.far_events.specs.state.Spans.{names_place, word_in};
ghost use Rattle.far_hand.specs.Finds.{Finds};
ghost use Rattle.far_hand.specs.Came.{Came, only};
ghost use Rattle.far_book.specs.book.NextLive.{IsBoundary, IsHomeOf, IsNamedBetween, live_from, searched_to, span_in};
ghost use Rattle.far_book.specs.book.Only.{Reads};

use crate::book::Book;
use crate::live_span::LiveSpan;
use far_core::names_place;
use far_device::Device;
use far_hand::Near;
use far_log::Span;
use far_word::{HeadWord, size_of};

impl<N: Near + Drop, D: Device + Drop> Book<N, D> {
    /// The first span at word `at` of a log, or behind it, in which an object lives, dropped or not, by its cell as it is found;
    /// `None` where there is none. At `at` a span begins, or the log's spans end: so it is of word 0, and of the word behind the span
    /// that was answered, from which the next call goes on.
    ///
    /// The call reads the header of each span up to the one that it answers, and the cell that the header names, and no other cell. If
    /// no object lives in the log, it reads nothing. It takes no memory.
    pub fn next_live(&mut self, log: u8, at: u16) -> Option<Span>
        // a span begins at `at`, or the log's spans end there
        requires log { log < (N.view self.old.near).logs }
        requires begins { IsBoundary (N.view self.old.near) log at }

        // the first span from there on in which an object lies; `None` exactly where none lies there
        ensures first { IfSome result (λ span. live_from (N.view self.old.near) log at ≡ span ∷ live_from (N.view self.old.near) log (span.at + size_of span.len)) }
        ensures none { IfNone result (live_from (N.view self.old.near) log at ≡ []) }

        // a span begins behind it, or the spans end; it ends within the log, and its object's cell names it
        ensures next { IfSome result (λ span. IsBoundary (N.view self.old.near) log (span.at + size_of span.len)) }
        ensures inside { IfSome result (λ span. span.at + size_of span.len ≤ LOG_WORDS) }
        ensures lies { IfSome result (λ span. IsHomeOf (N.view self.new.near) log span) }

        // cells of pointers that headers on the way name were looked at, and no other; nothing has changed but the marks that were found
        ensures found { (p : ℕ) → Finds ((N.view self.old.near).cell p) ((N.view self.new.near).cell p) }
        ensures others { (p : ℕ) → IsNamedBetween (N.view self.old.near) log at (searched_to (N.view self.old.near) log result) p ⊎ ((N.view self.new.near).cell p ≡ (N.view self.old.near).cell p) }
        ensures kept { N.view self.new.near ≡ record (N.view self.old.near) { cell = (N.view self.new.near).cell } }

        // over a hand that is still nothing has changed
        ensures exact { N.still → N.view self.new.near ≡ N.view self.old.near }

        // only calls of the hand led there; the order of logs and the device stay
        ensures came { Came N.makes self.old.near self.new.near }
        ensures order { self.new.order ≡ self.old.order }
        ensures device { self.new.device ≡ self.old.device }
    {
        match self.next_found(log, at) {
            Some(found) => Some(found.span),
            None => None,
        }
    }

    /// As [`Book::next_live`], with the object's cell, as it was found.
    pub fn next_found(&mut self, log: u8, at: u16) -> Option<LiveSpan>
        // a span begins at `at`, or the log's spans end there
        requires log { log < (N.view self.old.near).logs }
        requires begins { IsBoundary (N.view self.old.near) log at }

        // the first span from there on in which an object lies; `None` exactly where none lies there
        ensures first { IfSome result (λ found. live_from (N.view self.old.near) log at ≡ found.span ∷ live_from (N.view self.old.near) log (found.span.at + size_of found.span.len)) }
        ensures none { IfNone result (live_from (N.view self.old.near) log at ≡ []) }

        // a span begins behind it, or the spans end; it ends within the log, and its object's cell names it, with the word that is answered
        ensures next { IfSome result (λ found. IsBoundary (N.view self.old.near) log (found.span.at + size_of found.span.len)) }
        ensures inside { IfSome result (λ found. found.span.at + size_of found.span.len ≤ LOG_WORDS) }
        ensures lies { IfSome result (λ found. IsHomeOf (N.view self.new.near) log found.span) }
        ensures cell { IfSome result (λ found. found.cell ≡ (N.view self.new.near).cell found.span.p) }

        // cells of pointers that headers on the way name were looked at, and no other; nothing has changed but the marks that were found
        ensures found { (p : ℕ) → Finds ((N.view self.old.near).cell p) ((N.view self.new.near).cell p) }
        ensures others { (p : ℕ) → IsNamedBetween (N.view self.old.near) log at (searched_to (N.view self.old.near) log (span_in result)) p ⊎ ((N.view self.new.near).cell p ≡ (N.view self.old.near).cell p) }
        ensures kept { N.view self.new.near ≡ record (N.view self.old.near) { cell = (N.view self.new.near).cell } }

        // over a hand that is still nothing has changed
        ensures exact { N.still → N.view self.new.near ≡ N.view self.old.near }

        // only calls of the hand led there; the order of logs and the device stay
        ensures came { Came N.makes self.old.near self.new.near }
        ensures order { self.new.order ≡ self.old.order }
        ensures device { self.new.device ≡ self.old.device }
    {
        self.keeps_law();
        if self.none_lives(log) {
            return None;
        }
        let tail = self.tail(log);
        let mut at = at;
        while at < tail {
            let span = self.span_at(log, at);
            let cell = self.see(span.p);
            if names_place(cell, log, at) {
                return Some(LiveSpan { span, cell });
            }
            at += size_of(span.len);
        }
        None
    }

    // Whether no object lives in a log.
    fn none_lives(&self, log: u8) -> bool
        requires log { log < (N.view self.now.near).logs }
        ensures { result ≡ true → (at : ℕ) → live_from (N.view self.now.near) log at ≡ [] }
    {
        self.ledger.is_vacant(log)
    }

    // Where the spans of a log end, in words.
    fn tail(&self, log: u8) -> u16
        requires log { log < (N.view self.now.near).logs }
        ensures is { result ≡ (N.view self.now.near).tail log }
        ensures short { result ≤ LOG_WORDS }
    {
        self.ledger.tail(log)
    }

    // The span whose header is a word of a log.
    fn span_at(&mut self, log: u8, at: u16) -> Span
        // a span of the log begins at `at`
        requires log { log < (N.view self.old.near).logs }
        requires below { at < (N.view self.old.near).tail log }
        requires begins { (N.view self.old.near).starts (log * LOG_WORDS + at) ≡ true }

        // the span that its header says, of a pointer of the heap; it ends within the log, and another begins behind it, or the spans end
        ensures is { result ≡ span_at (word_in (N.view self.old.near) log) at }
        ensures pointer { result.p < CELLS * (N.view self.old.near).mutators }
        ensures short { at + size_of result.len ≤ LOG_WORDS }
        ensures next { IsBoundary (N.view self.old.near) log (at + size_of result.len) }

        // nothing has changed, and only words of this log were read
        ensures same { N.view self.new.near ≡ N.view self.old.near }
        ensures reads { Came (only (Reads log) N.makes) self.old.near self.new.near }
        ensures order { self.new.order ≡ self.old.order }
        ensures device { self.new.device ≡ self.old.device }
    {
        let head = HeadWord::known(self.near.get(log, at, false));
        Span {
            at,
            p: head.pointer,
            len: head.len,
            ds: head.ds,
        }
    }
}
