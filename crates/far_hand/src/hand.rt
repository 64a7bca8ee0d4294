//! The book's hand on the shared words.

ghost use Rattle.std.specs.Prelude.{◌≡◌, ◌≢◌, ◌+◌, ◌*◌, ◌^◌, ◌<◌, ◌≤◌, ℕ, true, false, length, drop, bit_or, Some, IfOk, IfErr};
ghost use Rattle.far_word.specs.declared.mark.Mark.TheVariants.{Evac};
ghost use Rattle.far_word.specs.declared.refused.Refused.TheVariants.{EpochsSpent};
ghost use Rattle.far_word.specs.declared.sizes.TheConstants.{EPOCH_END, LOG_WORDS};
ghost use Rattle.far_word.specs.Bytes.{packed_word};
ghost use Rattle.far_word.specs.Mark.{position};
ghost use Rattle.far_word.specs.Pointer.{read_of};
ghost use Rattle.far_events.specs.declared.event.Event.{Event as any_event};
ghost use Rattle.far_events.specs.declared.event.Reply.{Reply as any_reply};
ghost use Rattle.far_events.specs.events.Legal.{Legal};
ghost use Rattle.far_events.specs.events.Step.{after};
ghost use Rattle.far_events.specs.state.Jobs.{near_place};
ghost use Rattle.far_events.specs.state.Law.{Law};
ghost use Rattle.far_events.specs.state.Shape.{is_shape};
ghost use Rattle.far_events.specs.state.State.{State, put};
ghost use Rattle.far_hand.specs.Cleared.{cleared};
ghost use Rattle.far_hand.specs.Finds.{Finds};
ghost use Rattle.far_hand.specs.FindsJob.{FindsJob, job_found};
ghost use Rattle.far_hand.specs.Known.{IsKnown, Forgets, IsPaddedAt, KnowsLeaving, StoresLeaving};
ghost use Rattle.far_hand.specs.MayBe.{Shows, Tells};
ghost use Rattle.far_hand.specs.Quiet.{IsQuietAt};
ghost use Rattle.far_hand.specs.Ranges.{CopiesRow, HasRead, IsPast, IsWithin, WritesRow};
ghost use Rattle.far_hand.specs.Rounds.{IsScopeAt, MayChoose, looked_at};
ghost use Rattle.far_hand.specs.ShapeOf.{shape_of};

use crate::words::{packed_whole, unpack_word};
use far_core::{Event, Reply, Shape};
use far_word::{Place, Refused};

/// The book's hand on the shared words. Each call but `shape` is one event of [`far_events`] on at most one word, or a row of such events, takes
/// no memory and always answers.
///
/// Between any two events, and before each one, owners may add HOT, MOVE or DROP to a cell, change their scope words, and
/// store into objects that aren't quiet, whose cells may get DIRTY; and copiers may take jobs that are offered, finish those that they took, and
/// write to the targets of jobs that aren't finished.
pub trait Near {
    /// What the book knows of the state. Kinds, tails, spans, the round and the epoch are its own, and exact; of a cell the
    /// object, its place and EVAC are exact, and HOT, MOVE, DROP and DIRTY a floor: they are there at least where the view
    /// has them. Of a job the pointer, the places, the epoch of its offer and whether it was named are exact, and so is that
    /// there is none; how far it has come is a floor. A word of a log is the word itself or unknown. Nothing may be
    /// concluded from the view's scopes, nor from what it says that owners use, hold, have soiled or remember, or that copiers copy,
    /// have read or have written, but where the hand is still.
    ghost view: { Self → State };

    /// No word changes but by the book's calls, and the view is the state itself.
    ghost still: { Type 0 };

    /// Which states the words may be in, until the next call: the one that they are in, and whatever the hand can't tell from it.
    ghost may_be: { Self → State → Type 0 };

    /// From a hand to the hand after a call: the call was this event, with this answer, and beside it nothing but what owners and copiers did.
    ghost makes: { Self → any_event → any_reply → Self → Type 0 };

    /// The cell of a pointer, as it is found. The view has it from then on.
    fn see(&mut self, pointer: u16) -> u64
        requires legal { Legal (view self.old) (Event.See pointer) }
        ensures found { Finds ((view self.old).cell pointer) result }
        ensures kept { view self.new ≡ record (view self.old) { cell = put (view self.old).cell pointer result } }
        ensures exact { still → result ≡ (view self.old).cell pointer }
        ensures set { still → view self.new ≡ after (view self.old) (Event.See pointer) }
        ensures made { makes self.old (Event.See pointer) (Reply.Word result) self.new };

    /// A near pointer whose place lies in a sealed log gets EVAC: its word before, as it was found. The view has that word
    /// with EVAC from then on.
    fn mark(&mut self, pointer: u16) -> u64
        requires legal { Legal (view self.old) (Event.Mark pointer) }
        ensures found { Finds ((view self.old).cell pointer) result }
        ensures kept { view self.new ≡ record (view self.old) { cell = put (view self.old).cell pointer (bit_or result (2 ^ position Evac)) } }
        ensures exact { still → result ≡ (view self.old).cell pointer }
        ensures set { still → view self.new ≡ after (view self.old) (Event.Mark pointer) }
        ensures made { makes self.old (Event.Mark pointer) (Reply.Word result) self.new };

    /// EVAC is taken from a near pointer, and the log that its place lies in leaves the round: its word before, as it was
    /// found. Words may be forgotten then.
    fn clear(&mut self, pointer: u16) -> u64
        requires legal { Legal (view self.old) (Event.Clear pointer) }
        ensures found { Finds ((view self.old).cell pointer) result }
        ensures kept { view self.new ≡ record (cleared (view self.old) pointer result) { word = (view self.new).word } }
        ensures forgot { Forgets (view self.old) (view self.new) }
        ensures exact { still → result ≡ (view self.old).cell pointer }
        ensures set { still → view self.new ≡ after (view self.old) (Event.Clear pointer) }
        ensures made { makes self.old (Event.Clear pointer) (Reply.Word result) self.new };

    /// Word `at` of a log. With `free` the log, which is sealed, has no live span, and is read and written by no job, is given
    /// back too.
    ///
    /// The word is known from then on where it was, or where the view shows it to be a data word of a quiet object, and nowhere else: an
    /// owner may store into it, or a copier write there. As a log is given back, words may be forgotten.
    fn get(&mut self, log: u8, at: u16, free: bool) -> u64
        // the log may be read there, or, with `free`, be given back
        requires legal { Legal (view self.old) (Event.Get log at free) }

        // a known word is answered as it is known, and a data word of a span has zeros behind the object's last byte
        ensures known { IsKnown ((view self.old).word (log * LOG_WORDS + at)) → result ≡ (view self.old).word (log * LOG_WORDS + at) }
        ensures padding { IsPaddedAt (view self.old) (log * LOG_WORDS + at) result }

        // without `free`: the word is known from then on where its object is quiet, or where it was, and nowhere else; all others stay as they are known
        ensures read { free ≡ false → IsQuietAt (view self.old) (log * LOG_WORDS + at) → view self.new ≡ record (view self.old) { word = put (view self.old).word (log * LOG_WORDS + at) result } }
        ensures kept { free ≡ false → IsKnown ((view self.old).word (log * LOG_WORDS + at)) → view self.new ≡ view self.old }
        ensures unread { free ≡ false → ¬ IsQuietAt (view self.old) (log * LOG_WORDS + at) → view self.new ≡ view self.old }
        ensures here { free ≡ false → IsKnown ((view self.new).word (log * LOG_WORDS + at)) → (view self.new).word (log * LOG_WORDS + at) ≡ result }
        ensures others { free ≡ false → (a : ℕ) → a ≢ log * LOG_WORDS + at → (view self.new).word a ≡ (view self.old).word a }

        // with `free` words may be forgotten; besides words all is as by the event
        ensures forgot { free ≡ true → Forgets (view self.old) (view self.new) }
        ensures rest { view self.new ≡ record (after (view self.old) (Event.Get log at free)) { word = (view self.new).word } }

        // over a hand that is still it is the word as it was known, and all is just as by the event
        ensures exact { still → result ≡ (view self.old).word (log * LOG_WORDS + at) }
        ensures set { still → view self.new ≡ after (view self.old) (Event.Get log at free) }

        // the call was this one event, with this reply
        ensures made { makes self.old (Event.Get log at free) (Reply.Word result) self.new };

    /// Word `at` of a log that is open or free, at or past its tail, becomes `word`, and is known from then on.
    fn put(&mut self, log: u8, at: u16, word: u64)
        requires legal { Legal (view self.old) (Event.Put log at word) }
        ensures set { view self.new ≡ after (view self.old) (Event.Put log at word) }
        ensures made { makes self.old (Event.Put log at word) Reply.Done self.new };

    /// The first `count` data words behind one place become those behind another, one after the other: each is read, and then
    /// written, as [`Near::get`] and [`Near::put`] do. If they overlap, what was written is read.
    fn copy_words(&mut self, from: Place, to: Place, count: u16)
        requires from { IsWithin (view self.old) from.log (from.at + 1) count }
        requires to { IsPast (view self.old) to.log (to.at + 1) count }
        ensures { CopiesRow still view makes from to 0 count self.old self.new }
    {
        for i in 0..count {
            let word = self.get(from.log, from.at + 1 + i, false);
            self.put(to.log, to.at + 1 + i, word);
        }
    }

    /// So many words of a log, from word `at` on, are read one after the other as [`Near::get`] does, to the front of a row of
    /// bytes, the low byte of each first. The rest of the row stays.
    fn get_words(&mut self, log: u8, at: u16, count: u16, row: &mut [u8])
        requires within { IsWithin (view self.old) log at count }
        requires room { 8 * count ≤ length row.old }
        ensures words { HasRead still view makes log at self.old self.new count row.new }
        ensures behind { drop (8 * count) row.new ≡ drop (8 * count) row.old }
        ensures length { length row.new ≡ length row.old }
    {
        for i in 0..count {
            let word = self.get(log, at + i, false);
            unpack_word(row, i as usize, word);
        }
    }

    /// So many words of a log, from word `at` on, are written one after the other as [`Near::put`] does: those of the first bytes
    /// of a row, the low byte of each first.
    fn put_words(&mut self, log: u8, at: u16, bytes: &[u8], count: u16)
        requires past { IsPast (view self.old) log at count }
        requires bytes { 8 * count ≤ length bytes.now }
        ensures { WritesRow still view makes log at (packed_word bytes.now) 0 count self.old self.new }
    {
        for i in 0..count {
            self.put(log, at + i, packed_whole(bytes, i as usize));
        }
    }

    /// So many words of a log, from word `at` on, become 0, one after the other as [`Near::put`] does.
    fn put_zeros(&mut self, log: u8, at: u16, count: u16)
        requires past { IsPast (view self.old) log at count }
        ensures { WritesRow still view makes log at (λ _. 0) 0 count self.old self.new }
    {
        for i in 0..count {
            self.put(log, at + i, 0);
        }
    }

    /// The cell of a pointer goes from `old`, the word last found there, to `new`, where it still is `old`; words may be
    /// forgotten then. Else `Err` with the word that was found, and nothing has changed. Of an object with DIRTY that
    /// goes far all data words are known before.
    fn name(&mut self, pointer: u16, old: u64, new: u64) -> Result<(), u64>
        // the view has the cell so, which may get the new word, and knows the words of an object with DIRTY that goes far by it
        requires seen { old ≡ (view self.old).cell pointer }
        requires legal { Legal (view self.old) (Event.Name pointer old new) }
        requires known { KnowsLeaving (view self.old) old new }

        // done: the cell has the new word, and all is as by the event, but that words may be forgotten; an object that goes far has its words stored
        ensures done { IfOk result (λ _. view self.new ≡ record (after (view self.old) (Event.Name pointer old new)) { word = (view self.new).word; stored = (view self.new).stored }) }
        ensures stored { IfOk result (λ _. StoresLeaving (view self.old) (view self.new) pointer old new) }
        ensures forgot { IfOk result (λ _. Forgets (view self.old) (view self.new)) }

        // else another word was found, the known one with marks more; the view knows it, and nothing else has changed
        ensures other { IfErr result (λ found. found ≢ old) }
        ensures found { IfErr result (λ found. Finds old found) }
        ensures kept { IfErr result (λ found. view self.new ≡ record (view self.old) { cell = put (view self.old).cell pointer found }) }

        // over a hand that is still it is always done, and all is just as by the event
        ensures won { still → IfErr result (λ _. ⊥) }
        ensures set { still → view self.new ≡ after (view self.old) (Event.Name pointer old new) }

        // the call was this one event, with this reply
        ensures made { IfOk result (λ _. makes self.old (Event.Name pointer old new) Reply.Done self.new) }
        ensures lost { IfErr result (λ found. makes self.old (Event.Name pointer old new) (Reply.Word found) self.new) };

    /// The epoch rises by 1, and a round begins of the logs whose bit is 1 in `logs`: the new epoch. Words may be forgotten
    /// then. `Err` with [`Refused::EpochsSpent`] where there is no later epoch, and nothing has changed.
    fn advance(&mut self, logs: u64) -> Result<u64, Refused>
        requires chosen { MayChoose (view self.old) logs }
        ensures epoch { IfOk result (λ epoch. (epoch ≡ (view self.old).epoch + 1) × (epoch < EPOCH_END)) }
        ensures kept { IfOk result (λ _. view self.new ≡ record (after (view self.old) (Event.Advance logs)) { word = (view self.new).word }) }
        ensures forgot { IfOk result (λ _. Forgets (view self.old) (view self.new)) }
        ensures refused { IfErr result (λ why. (why ≡ EpochsSpent) × ((view self.old).epoch + 1 ≡ EPOCH_END)) }
        ensures unchanged { IfErr result (λ _. view self.new ≡ view self.old) }
        ensures set { still → IfOk result (λ _. view self.new ≡ after (view self.old) (Event.Advance logs)) }
        ensures made { IfOk result (λ epoch. makes self.old (Event.Advance logs) (Reply.Epoch epoch) self.new) }
        ensures spent { IfErr result (λ _. makes self.old (Event.Advance logs) Reply.Refused self.new) };

    /// The scope word of an owner, as it is found. The owner is seen clear in the round from then on where the word says closed,
    /// or open at the round's epoch or later.
    fn look(&mut self, owner: u8) -> u64
        requires legal { Legal (view self.old) (Event.Look owner) }
        ensures scope { IsScopeAt (view self.old).epoch result }
        ensures kept { view self.new ≡ looked_at (view self.old) owner result }
        ensures exact { still → result ≡ (view self.old).scope owner }
        ensures set { still → view self.new ≡ after (view self.old) (Event.Look owner) }
        ensures made { makes self.old (Event.Look owner) (Reply.Word result) self.new }
        ensures saw { ∥ ((x : State) × may_be self.new x × (x.scope owner ≡ result)) ∥₁ };

    /// An empty job is offered from then on: the copy of an object that is quiet by the round (it has EVAC, its log is in the round, its owner was seen clear), from
    /// `from`, where it lies, to `to`, where a header for it and a last data word of 0 were put. The span at `to` is taken. Words may be forgotten then: copiers write there.
    fn offer(&mut self, job: u8, pointer: u16, from: Place, to: Place)
        requires legal { Legal (view self.old) (Event.Offer job pointer to) }
        requires lies { near_place (read_of ((view self.old).cell pointer)) ≡ Some from }
        ensures kept { view self.new ≡ record (after (view self.old) (Event.Offer job pointer to)) { word = (view self.new).word } }
        ensures forgot { Forgets (view self.old) (view self.new) }
        ensures set { still → view self.new ≡ after (view self.old) (Event.Offer job pointer to) }
        ensures made { makes self.old (Event.Offer job pointer to) Reply.Done self.new };

    /// The word of a job, as it is found. The view has it from then on.
    fn see_job(&mut self, job: u8) -> u64
        requires legal { Legal (view self.old) (Event.SeeJob job) }
        ensures found { FindsJob ((view self.old).copying.word job) result }
        ensures kept { view self.new ≡ job_found (view self.old) job result }
        ensures exact { still → result ≡ (view self.old).copying.word job }
        ensures set { still → view self.new ≡ after (view self.old) (Event.SeeJob job) }
        ensures made { makes self.old (Event.SeeJob job) (Reply.Word result) self.new };

    /// A job goes from `old`, the word last found there, which is offered or finished, to empty, where it still is `old`. Else
    /// `Err` with the word that was found, and nothing has changed: of a finished job that can't be.
    fn collect(&mut self, job: u8, old: u64) -> Result<(), u64>
        // the view has the job so, which is offered or finished
        requires seen { old ≡ (view self.old).copying.word job }
        requires legal { Legal (view self.old) (Event.Collect job old) }

        // done: the job is empty, and nothing else has changed
        ensures done { IfOk result (λ _. view self.new ≡ after (view self.old) (Event.Collect job old)) }

        // else another word was found, by what copiers have made of the job; the view knows it, and nothing else has changed
        ensures other { IfErr result (λ found. found ≢ old) }
        ensures found { IfErr result (λ found. FindsJob old found) }
        ensures kept { IfErr result (λ found. view self.new ≡ job_found (view self.old) job found) }

        // over a hand that is still it is always done
        ensures won { still → IfErr result (λ _. ⊥) }
        ensures set { still → view self.new ≡ after (view self.old) (Event.Collect job old) }

        // the call was this one event, with this reply
        ensures made { IfOk result (λ _. makes self.old (Event.Collect job old) Reply.Done self.new) }
        ensures lost { IfErr result (λ found. makes self.old (Event.Collect job old) (Reply.Word found) self.new) };

    /// How large the heap is, and its epoch now.
    fn shape(&self) -> Shape
        ensures is { result ≡ shape_of (view self.now) }
        ensures range { is_shape result ≡ true };

    /// Each state that the words may be in keeps the whole law of the core, and the view is right about that state: so an owner that was seen clear, as the view
    /// says, views nothing in the logs of the round.
    ghost lawful: { (s : Self) (x : State) → may_be s x → Law x };

    ghost shown: { (s : Self) (x : State) → may_be s x → Shows (view s) x };

    /// There is such a state at every moment; if the hand is still, that state is the view and no other.
    ghost there: { (s : Self) → ∥ ((x : State) × may_be s x) ∥₁ };

    ghost alone: { (s : Self) → still → (x : State) → may_be s x → x ≡ view s };

    /// What a call tells of the words: its event led from a state that they might be in before it to one that they may be in after it.
    ghost told: { (s t : Self) (e : any_event) (r : any_reply) → makes s e r t → ∥ Tells (may_be s) (may_be t) e r ∥₁ };
}
