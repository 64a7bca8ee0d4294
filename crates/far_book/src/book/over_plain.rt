//! The book over a core of its own: what the core shows, and what owners do.

ghost use Rattle.std.specs.Prelude.{◌≡◌, ◌+◌, ◌-◌, ◌*◌, ◌/◌, ◌^◌, ◌<◌, ◌≤◌, ℕ, None, Some, true, false, length, slice_index, IsSome, IfOk, IfErr};
ghost use Rattle.far_word.specs.declared.sizes.TheConstants.{CELLS, LONGEST};
ghost use Rattle.far_word.specs.Sizes.{words_for};
ghost use Rattle.far_word.specs.declared.pointer.PtrWord.{PtrWord};
ghost use Rattle.far_word.specs.Pointer.{read_of, word_of, without_owner_marks as cold};
ghost use Rattle.far_events.specs.events.Accesses.{IsAtRest, heats, hot_word, overwrites_in, overwritten, with_cell};
ghost use Rattle.far_events.specs.events.Legal.{IsClosed, Legal};
ghost use Rattle.far_events.specs.events.Pin.{place_to_view};
ghost use Rattle.far_events.specs.events.Ranges.{AllLegal, after_events, stores};
ghost use Rattle.far_events.specs.events.Step.{after, answer, data_len, data_word, step_of};
ghost use Rattle.far_events.specs.events.Written.{written_words};
ghost use Rattle.far_core.specs.state.Agrees.{Agrees};
ghost use Rattle.far_core.specs.state.CoreState.{core_state};
ghost use Rattle.far_events.specs.state.Law.{Law};
ghost use Rattle.far_core.specs.world.Happens.{Happens};
ghost use Rattle.far_core.specs.world.WorldOf.{world_of};
ghost use Rattle.far_hand.specs.Makers.{is_owners};
ghost use Rattle.far_hand.specs.Others.{OthersChange};
ghost use Rattle.far_book.specs.book.Actions.{Does, Owns};
ghost use Rattle.far_book.specs.book.Placing.{PlacesWith};
ghost use Rattle.far_book.specs.book.SealedLogs.{KeepsSealed};

use crate::book::Book;
use far_core::{Core, Event, Reply};
use far_device::Device;
use far_hand::{Plain, is_owners};
use far_word::{HeadWord, Mark, Place, Refused, size_of};

impl<D: Device + Drop> Book<Plain, D> {
    /// The core, to be read.
    pub fn core(&self) -> &Core
        ensures { result.now ≡ self.now.near.core }
    {
        &self.near.core
    }

    /// The core keeps the whole law, what owners change included. Each place that is held is an open owner's, and its pointer names the
    /// place, with neither MOVE nor DROP.
    pub fn core_keeps_law(&self)
        ensures law { Law (core_state self.now.near.core) }
        ensures agrees { Agrees (core_state self.now.near.core) }
    {}

    /// Makes an owner's event. Any other is answered [`Reply::Refused`], and nothing has changed.
    #[inline(always)]
    pub fn owner(&mut self, event: Event) -> Reply
        ensures made { is_owners event ≡ true → (core_state self.new.near.core, result) ≡ step_of (core_state self.old.near.core) event }
        ensures legal { is_owners event ≡ true → Legal (core_state self.old.near.core) event →
            (core_state self.new.near.core ≡ after (core_state self.old.near.core) event) × (result ≡ answer (core_state self.old.near.core) event) }
        ensures refused { is_owners event ≡ false → (result ≡ Reply.Refused) × (self.new.near ≡ self.old.near) }
        ensures world { Happens (world_of (core_state self.old.near.core)) event result (world_of (core_state self.new.near.core)) }
        ensures ran { is_owners event ≡ true → Does (core_state self.old.near.core) (Owns event result) (core_state self.new.near.core) }
        ensures changes { OthersChange (core_state self.old.near.core) (core_state self.new.near.core) }
        ensures order { self.new.order ≡ self.old.order }
        ensures device { self.new.device ≡ self.old.device }
    {
        if is_owners(event) {
            self.near.core.step(event)
        } else {
            Reply::Refused
        }
    }

    /// An open owner sets HOT on a pointer that it uses and doesn't hold. `Ok` with the object's place, which it holds
    /// from then on; `Err` with the old word, if that isn't near or has EVAC, MOVE or DROP.
    #[inline]
    pub fn pin(&mut self, owner: u8, pointer: u16) -> Result<Place, u64>
        requires legal { Legal (core_state self.old.near.core) (Event.Pin owner pointer) }
        ensures state { core_state self.new.near.core ≡ after (core_state self.old.near.core) (Event.Pin owner pointer) }
        ensures changes { OthersChange (core_state self.old.near.core) (core_state self.new.near.core) }
        ensures held { IfOk result (λ place. answer (core_state self.old.near.core) (Event.Pin owner pointer) ≡ Reply.Held place) }
        ensures word { IfErr result (λ word. answer (core_state self.old.near.core) (Event.Pin owner pointer) ≡ Reply.Word word) }
        ensures order { self.new.order ≡ self.old.order }
        ensures device { self.new.device ≡ self.old.device }
    {
        self.near.core.pin(owner, pointer)
    }

    /// An owner uses a pointer of its own that it doesn't use yet, and whose word is neither free nor has DROP: the word.
    #[inline]
    pub fn adopt(&mut self, owner: u8, pointer: u16) -> u64
        requires legal { Legal (core_state self.old.near.core) (Event.Adopt owner pointer) }
        ensures state { core_state self.new.near.core ≡ after (core_state self.old.near.core) (Event.Adopt owner pointer) }
        ensures changes { OthersChange (core_state self.old.near.core) (core_state self.new.near.core) }
        ensures word { answer (core_state self.old.near.core) (Event.Adopt owner pointer) ≡ Reply.Word result }
        ensures order { self.new.order ≡ self.old.order }
        ensures device { self.new.device ≡ self.old.device }
    {
        let Some(word) = self.near.core.adopt(owner, pointer) else {
            unreachable!()
        };
        word
    }

    /// Makes an object of `len` bytes and of data structure `ds` for a pointer whose cell is free, and answers where. Its first bytes are
    /// `bytes`, the others 0. Its owner, which is closed and remembers no epoch, uses the pointer from then on, which has DIRTY alone: what is
    /// left where [`Book::place`] places zeros, and the owner adopts the pointer, writes the bytes within a scope, asks for the object to be
    /// moved, and it stays.
    ///
    /// A refusal is [`Refused::NoRoom`], as of `place`. Nothing has changed then.
    #[inline(always)]
    pub fn place_with(
        &mut self,
        owner: u8,
        pointer: u16,
        len: u16,
        ds: u8,
        bytes: &[u8],
    ) -> Result<Place, Refused>
        requires closed { IsClosed (core_state self.old.near.core) owner }
        requires fresh { (core_state self.old.near.core).remembered owner ≡ None }
        requires own { pointer / CELLS ≡ owner }
        requires free { (core_state self.old.near.core).cell pointer ≡ 0 }
        requires some { 0 < len }
        requires most { len ≤ LONGEST }
        requires front { length bytes.now ≤ len }
        ensures { PlacesWith self.old self.new owner pointer len ds bytes.now result }
    {
        let size = size_of(len);
        let Some(place) = self.ledger.room(size, true) else {
            return Err(Refused::NoRoom);
        };
        let head = HeadWord { pointer, len, ds };
        self.near.core.place_with(owner, head, place, bytes);
        self.ledger.take(pointer, size, place);
        Ok(place)
    }

    /// An owner sets MOVE or DROP on a pointer that it uses and doesn't hold, and uses no longer what it drops: the word before.
    #[inline]
    pub fn ask(&mut self, owner: u8, pointer: u16, mark: Mark) -> u64
        requires legal { Legal (core_state self.old.near.core) (Event.Ask owner pointer mark) }
        ensures state { core_state self.new.near.core ≡ after (core_state self.old.near.core) (Event.Ask owner pointer mark) }
        ensures changes { OthersChange (core_state self.old.near.core) (core_state self.new.near.core) }
        ensures word { answer (core_state self.old.near.core) (Event.Ask owner pointer mark) ≡ Reply.Word result }
        ensures order { self.new.order ≡ self.old.order }
        ensures device { self.new.device ≡ self.old.device }
    {
        self.near.core.ask(owner, pointer, mark)
    }

    /// Data words of an object that its owner holds, from its word `first` on, as many as there is room for: a load each.
    #[inline]
    pub fn load_all(&self, owner: u8, pointer: u16, first: u16, words: &mut [u64])
        requires own { pointer / CELLS ≡ owner }
        requires held { IsSome ((core_state self.now.near.core).held pointer) }
        requires inside { first + length words.old ≤ words_for (data_len (core_state self.now.near.core) pointer) }
        ensures words { (k : ℕ) → k < length words.old → answer (core_state self.now.near.core) (Event.Load owner pointer (first + k)) ≡ Reply.Word (slice_index words.new k) }
    {
        self.near.core.load_all(owner, pointer, first, words);
    }

    /// An owner sets DIRTY on a pointer that it holds, and has soiled it until it closes: the word before.
    #[inline]
    pub fn soil(&mut self, owner: u8, pointer: u16) -> u64
        requires legal { Legal (core_state self.old.near.core) (Event.Soil owner pointer) }
        ensures state { core_state self.new.near.core ≡ after (core_state self.old.near.core) (Event.Soil owner pointer) }
        ensures changes { OthersChange (core_state self.old.near.core) (core_state self.new.near.core) }
        ensures word { answer (core_state self.old.near.core) (Event.Soil owner pointer) ≡ Reply.Word result }
        ensures order { self.new.order ≡ self.old.order }
        ensures device { self.new.device ≡ self.old.device }
    {
        self.near.core.soil(owner, pointer)
    }

    /// Data words of an object that its owner holds and has soiled, from its word `first` on, become `words`, whose bytes past
    /// the object's end are 0: a store each.
    #[inline]
    pub fn store_all(&mut self, owner: u8, pointer: u16, first: u16, words: &[u64])
        requires own { pointer / CELLS ≡ owner }
        requires soiled { (core_state self.old.near.core).soiled pointer ≡ true }
        requires inside { first + length words.now ≤ words_for (data_len (core_state self.old.near.core) pointer) }
        requires padding { (k : ℕ) → k < length words.now → slice_index words.now k < 2 ^ (8 * (data_len (core_state self.old.near.core) pointer - 8 * (first + k))) }
        ensures state { core_state self.new.near.core ≡ after_events (core_state self.old.near.core) (stores owner pointer first words.now) }
        ensures legal { AllLegal (core_state self.old.near.core) (stores owner pointer first words.now) }
        ensures order { self.new.order ≡ self.old.order }
        ensures device { self.new.device ≡ self.old.device }
    {
        self.near.core.store_all(owner, pointer, first, words);
    }
    /// Bytes of an object that its owner holds and has soiled, from its byte `from` on, become `bytes`, which end where the object
    /// does or before: a store of each word that has one.
    #[inline]
    pub fn store_bytes(&mut self, owner: u8, pointer: u16, from: u16, bytes: &[u8])
        requires own { pointer / CELLS ≡ owner }
        requires soiled { (core_state self.old.near.core).soiled pointer ≡ true }
        requires inside { from + length bytes.now ≤ data_len (core_state self.old.near.core) pointer }
        ensures state { core_state self.new.near.core ≡ after_events (core_state self.old.near.core) (stores owner pointer (from / 8) (written_words (λ i. (core_state self.old.near.core).word (data_word (core_state self.old.near.core) pointer i)) from bytes.now)) }
        ensures legal { AllLegal (core_state self.old.near.core) (stores owner pointer (from / 8) (written_words (λ i. (core_state self.old.near.core).word (data_word (core_state self.old.near.core) pointer i)) from bytes.now)) }
        ensures order { self.new.order ≡ self.old.order }
        ensures device { self.new.device ≡ self.old.device }
    {
        self.near.core.store_bytes(owner, pointer, from, bytes);
    }

    /// Sets HOT on a pointer that its owner uses, which is closed and remembers no epoch: what a scope leaves in which it is pinned.
    #[inline]
    pub fn heat(&mut self, owner: u8, pointer: u16)
        requires rest { IsAtRest (core_state self.old.near.core) owner pointer }
        ensures events { core_state self.new.near.core ≡ after_events (core_state self.old.near.core) (heats owner pointer) }
        ensures state { core_state self.new.near.core ≡ with_cell (core_state self.old.near.core) pointer (hot_word ((core_state self.old.near.core).cell pointer)) }
        ensures order { self.new.order ≡ self.old.order }
        ensures device { self.new.device ≡ self.old.device }
    {
        self.near.core.heat(owner, pointer);
    }

    /// Bytes of a near object on which a view may rest become `bytes`, from one on; its pointer gets HOT and DIRTY: what a scope
    /// leaves in which it is pinned, soiled and stored into.
    #[inline]
    pub fn write_over(&mut self, owner: u8, pointer: u16, from: u16, bytes: &[u8])
        requires rest { IsAtRest (core_state self.old.near.core) owner pointer }
        requires rests { IsSome (place_to_view (read_of ((core_state self.old.near.core).cell pointer))) }
        requires inside { from + length bytes.now ≤ data_len (core_state self.old.near.core) pointer }
        ensures events { core_state self.new.near.core ≡ after_events (core_state self.old.near.core) (overwrites_in (core_state self.old.near.core) owner pointer from bytes.now) }
        ensures rests { IsSome (place_to_view (read_of ((core_state self.new.near.core).cell pointer))) }
        ensures legal { AllLegal (core_state self.old.near.core) (overwrites_in (core_state self.old.near.core) owner pointer from bytes.now) }
        ensures state { core_state self.new.near.core ≡ overwritten (core_state self.old.near.core) pointer from bytes.now }
        ensures order { self.new.order ≡ self.old.order }
        ensures device { self.new.device ≡ self.old.device }
    {
        self.near.core.write_over(owner, pointer, from, bytes);
    }

    /// Takes HOT from a near object that its owner uses, on which a view may rest: what is left where the owner asks for it to be
    /// moved, and it stays where it lies.
    #[inline]
    pub fn cool(&mut self, owner: u8, pointer: u16)
        requires rest { IsAtRest (core_state self.old.near.core) owner pointer }
        requires rests { IsSome (place_to_view (read_of ((core_state self.old.near.core).cell pointer))) }
        ensures state { (v : PtrWord) → read_of ((core_state self.old.near.core).cell pointer) ≡ Some v → core_state self.new.near.core ≡ with_cell (core_state self.old.near.core) pointer (word_of (cold v)) }
        ensures one { core_state self.new.near.core ≡ with_cell (core_state self.old.near.core) pointer ((core_state self.new.near.core).cell pointer) }
        ensures sealed { KeepsSealed (core_state self.old.near.core) (core_state self.new.near.core) }
        ensures order { self.new.order ≡ self.old.order }
        ensures device { self.new.device ≡ self.old.device }
    {
        self.near.core.cool(owner, pointer);
    }
}
