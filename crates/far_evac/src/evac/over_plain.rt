//! The evacuator over a core of its own: what owners do.

ghost use Rattle.std.specs.Prelude.{◌≡◌, ◌+◌, ◌-◌, ◌*◌, ◌/◌, ◌^◌, ◌<◌, ◌≤◌, ℕ, None, Some, true, false, length, slice_index, IsSome, IfOk, IfErr, OnErr};
ghost use Rattle.far_word.specs.declared.sizes.TheConstants.{CELLS, LONGEST};
ghost use Rattle.far_word.specs.Sizes.{words_for};
ghost use Rattle.far_word.specs.declared.pointer.PtrWord.{PtrWord};
ghost use Rattle.far_word.specs.Pointer.{read_of, word_of, without_owner_marks as cold};
ghost use Rattle.far_events.specs.events.Accesses.{IsAtRest, heats, hot_word, overwrites_in, overwritten, with_cell};
ghost use Rattle.far_events.specs.events.Legal.{IsClosed, Legal};
ghost use Rattle.far_events.specs.events.Pin.{place_to_view};
ghost use Rattle.far_events.specs.events.Ranges.{AllLegal, after_events, stores};
ghost use Rattle.far_events.specs.events.Step.{after, answer, data_len, data_word, step_of};
ghost use Rattle.far_events.specs.events.Written.{written_words};
ghost use Rattle.far_core.specs.state.CoreState.{core_state};
ghost use Rattle.far_core.specs.world.Happens.{Happens};
ghost use Rattle.far_core.specs.world.WorldOf.{world_of};
ghost use Rattle.far_hand.specs.Makers.{is_owners};
ghost use Rattle.far_hand.specs.Others.{OthersChange};
ghost use Rattle.far_book.specs.book.Actions.{Does, Owns};
ghost use Rattle.far_book.specs.book.Fetching.{IsFar};
ghost use Rattle.far_book.specs.book.Glancing.{Glances, len_there};
ghost use Rattle.far_book.specs.book.Placing.{PlacesWith, core_in};
ghost use Rattle.far_book.specs.book.SealedLogs.{KeepsSealed};
ghost use Rattle.far_evac.specs.EvacOf.{SameRound};

use crate::evac::Evac;
use far_book::Plain;
use far_core::{Event, Reply};
use far_device::Device;
use far_word::{Mark, Place, Refused};

impl<D: Device + Drop> Evac<Plain, D> {
    /// Makes an owner's event. Any other is answered [`Reply::Refused`], and nothing has changed.
    #[inline(always)]
    pub fn owner(&mut self, event: Event) -> Reply
        ensures made { is_owners event ≡ true → (core_state self.new.book.near.core, result) ≡ step_of (core_state self.old.book.near.core) event }
        ensures legal { is_owners event ≡ true → Legal (core_state self.old.book.near.core) event →
            (core_state self.new.book.near.core ≡ after (core_state self.old.book.near.core) event) × (result ≡ answer (core_state self.old.book.near.core) event) }
        ensures refused { is_owners event ≡ false → (result ≡ Reply.Refused) × (self.new.book.near ≡ self.old.book.near) }
        ensures world { Happens (world_of (core_state self.old.book.near.core)) event result (world_of (core_state self.new.book.near.core)) }
        ensures ran { is_owners event ≡ true → Does (core_state self.old.book.near.core) (Owns event result) (core_state self.new.book.near.core) }
        ensures changes { OthersChange (core_state self.old.book.near.core) (core_state self.new.book.near.core) }
        ensures order { self.new.book.order ≡ self.old.book.order }
        ensures device { self.new.book.device ≡ self.old.book.device }
        ensures round { SameRound self.old self.new }
    {
        self.book.owner(event)
    }

    /// An open owner sets HOT on a pointer that it uses and doesn't hold. `Ok` with the object's place, which it holds
    /// from then on; `Err` with the old word, if that isn't near or has EVAC, MOVE or DROP.
    #[inline]
    pub fn pin(&mut self, owner: u8, pointer: u16) -> Result<Place, u64>
        requires legal { Legal (core_state self.old.book.near.core) (Event.Pin owner pointer) }
        ensures state { core_state self.new.book.near.core ≡ after (core_state self.old.book.near.core) (Event.Pin owner pointer) }
        ensures changes { OthersChange (core_state self.old.book.near.core) (core_state self.new.book.near.core) }
        ensures held { IfOk result (λ place. answer (core_state self.old.book.near.core) (Event.Pin owner pointer) ≡ Reply.Held place) }
        ensures word { IfErr result (λ word. answer (core_state self.old.book.near.core) (Event.Pin owner pointer) ≡ Reply.Word word) }
        ensures order { self.new.book.order ≡ self.old.book.order }
        ensures device { self.new.book.device ≡ self.old.book.device }
        ensures round { SameRound self.old self.new }
    {
        self.book.pin(owner, pointer)
    }

    /// An owner uses a pointer of its own that it doesn't use yet, and whose word is neither free nor has DROP: the word.
    #[inline]
    pub fn adopt(&mut self, owner: u8, pointer: u16) -> u64
        requires legal { Legal (core_state self.old.book.near.core) (Event.Adopt owner pointer) }
        ensures state { core_state self.new.book.near.core ≡ after (core_state self.old.book.near.core) (Event.Adopt owner pointer) }
        ensures changes { OthersChange (core_state self.old.book.near.core) (core_state self.new.book.near.core) }
        ensures word { answer (core_state self.old.book.near.core) (Event.Adopt owner pointer) ≡ Reply.Word result }
        ensures order { self.new.book.order ≡ self.old.book.order }
        ensures device { self.new.book.device ≡ self.old.book.device }
        ensures round { SameRound self.old self.new }
    {
        self.book.adopt(owner, pointer)
    }

    /// Makes an object of `len` bytes and of data structure `ds` for a pointer whose cell is free, and answers where. Its first bytes are
    /// `bytes`, the others 0. Its owner, which is closed and remembers no epoch, uses the pointer from then on, which has DIRTY alone: what is
    /// left where zeros are placed, and the owner adopts the pointer, writes the bytes within a scope, asks for the object to be moved, and it
    /// stays.
    ///
    /// A refusal is [`Refused::NoRoom`]: the open log has no room for it, and one log at most is free. Nothing has changed then.
    #[inline(always)]
    pub fn place_with(
        &mut self,
        owner: u8,
        pointer: u16,
        len: u16,
        ds: u8,
        bytes: &[u8],
    ) -> Result<Place, Refused>
        requires closed { IsClosed (core_state self.old.book.near.core) owner }
        requires fresh { (core_state self.old.book.near.core).remembered owner ≡ None }
        requires own { pointer / CELLS ≡ owner }
        requires free { (core_state self.old.book.near.core).cell pointer ≡ 0 }
        requires some { 0 < len }
        requires most { len ≤ LONGEST }
        requires front { length bytes.now ≤ len }
        ensures placed { PlacesWith self.old.book self.new.book owner pointer len ds bytes.now result }
        ensures round { SameRound self.old self.new }
    {
        self.book.place_with(owner, pointer, len, ds, bytes)
    }

    /// Reads bytes of a far object, from one on, as many as `out` has, and leaves it far: as they were stored last, where the far side is honest.
    ///
    /// Refused [`Refused::Memory`] or [`Refused::Device`], which are the device's, and [`Refused::Damaged`], if the device gave more or fewer bytes than the
    /// object has. Refused or not, no word has changed, and the device holds what it held; refused, `out` is as it was.
    pub fn glance(&mut self, pointer: u16, from: u16, out: &mut [u8]) -> Result<(), Refused>
        requires far { IsFar (core_in self.old.book) pointer }
        requires inside { from + length out.old ≤ len_there (core_in self.old.book) pointer }
        ensures long { length out.new ≡ length out.old }
        ensures glances { Glances D.reads D.contents self.old.book self.new.book pointer from out.new result }
        ensures round { SameRound self.old self.new }
        ensures kept { OnErr result (out.new ≡ out.old) }
    {
        self.book.glance(pointer, from, out)
    }

    /// An owner sets MOVE or DROP on a pointer that it uses and doesn't hold, and uses no longer what it drops: the word before.
    #[inline]
    pub fn ask(&mut self, owner: u8, pointer: u16, mark: Mark) -> u64
        requires legal { Legal (core_state self.old.book.near.core) (Event.Ask owner pointer mark) }
        ensures state { core_state self.new.book.near.core ≡ after (core_state self.old.book.near.core) (Event.Ask owner pointer mark) }
        ensures changes { OthersChange (core_state self.old.book.near.core) (core_state self.new.book.near.core) }
        ensures word { answer (core_state self.old.book.near.core) (Event.Ask owner pointer mark) ≡ Reply.Word result }
        ensures order { self.new.book.order ≡ self.old.book.order }
        ensures device { self.new.book.device ≡ self.old.book.device }
        ensures round { SameRound self.old self.new }
    {
        self.book.ask(owner, pointer, mark)
    }

    /// An owner sets DIRTY on a pointer that it holds, and has soiled it until it closes: the word before.
    #[inline]
    pub fn soil(&mut self, owner: u8, pointer: u16) -> u64
        requires legal { Legal (core_state self.old.book.near.core) (Event.Soil owner pointer) }
        ensures state { core_state self.new.book.near.core ≡ after (core_state self.old.book.near.core) (Event.Soil owner pointer) }
        ensures changes { OthersChange (core_state self.old.book.near.core) (core_state self.new.book.near.core) }
        ensures word { answer (core_state self.old.book.near.core) (Event.Soil owner pointer) ≡ Reply.Word result }
        ensures order { self.new.book.order ≡ self.old.book.order }
        ensures device { self.new.book.device ≡ self.old.book.device }
        ensures round { SameRound self.old self.new }
    {
        self.book.soil(owner, pointer)
    }

    /// Data words of an object that its owner holds and has soiled, from its word `first` on, become `words`, whose bytes past the object's
    /// end are 0: a store each.
    #[inline]
    pub fn store_all(&mut self, owner: u8, pointer: u16, first: u16, words: &[u64])
        requires own { pointer / CELLS ≡ owner }
        requires soiled { (core_state self.old.book.near.core).soiled pointer ≡ true }
        requires inside { first + length words.now ≤ words_for (data_len (core_state self.old.book.near.core) pointer) }
        requires padding { (k : ℕ) → k < length words.now → slice_index words.now k < 2 ^ (8 * (data_len (core_state self.old.book.near.core) pointer - 8 * (first + k))) }
        ensures state { core_state self.new.book.near.core ≡ after_events (core_state self.old.book.near.core) (stores owner pointer first words.now) }
        ensures legal { AllLegal (core_state self.old.book.near.core) (stores owner pointer first words.now) }
        ensures order { self.new.book.order ≡ self.old.book.order }
        ensures device { self.new.book.device ≡ self.old.book.device }
        ensures round { SameRound self.old self.new }
    {
        self.book.store_all(owner, pointer, first, words);
    }
    /// Bytes of an object that its owner holds and has soiled, from its byte `from` on, become `bytes`, which end where the object does or
    /// before: a store of each word that has one.
    #[inline]
    pub fn store_bytes(&mut self, owner: u8, pointer: u16, from: u16, bytes: &[u8])
        requires own { pointer / CELLS ≡ owner }
        requires soiled { (core_state self.old.book.near.core).soiled pointer ≡ true }
        requires inside { from + length bytes.now ≤ data_len (core_state self.old.book.near.core) pointer }
        ensures state { core_state self.new.book.near.core ≡ after_events (core_state self.old.book.near.core) (stores owner pointer (from / 8) (written_words (λ i. (core_state self.old.book.near.core).word (data_word (core_state self.old.book.near.core) pointer i)) from bytes.now)) }
        ensures legal { AllLegal (core_state self.old.book.near.core) (stores owner pointer (from / 8) (written_words (λ i. (core_state self.old.book.near.core).word (data_word (core_state self.old.book.near.core) pointer i)) from bytes.now)) }
        ensures order { self.new.book.order ≡ self.old.book.order }
        ensures device { self.new.book.device ≡ self.old.book.device }
        ensures round { SameRound self.old self.new }
    {
        self.book.store_bytes(owner, pointer, from, bytes);
    }

    /// Sets HOT on a pointer that its owner uses, which is closed and remembers no epoch: what a scope leaves in which it is pinned.
    #[inline]
    pub fn heat(&mut self, owner: u8, pointer: u16)
        requires rest { IsAtRest (core_state self.old.book.near.core) owner pointer }
        ensures events { core_state self.new.book.near.core ≡ after_events (core_state self.old.book.near.core) (heats owner pointer) }
        ensures state { core_state self.new.book.near.core ≡ with_cell (core_state self.old.book.near.core) pointer (hot_word ((core_state self.old.book.near.core).cell pointer)) }
        ensures order { self.new.book.order ≡ self.old.book.order }
        ensures device { self.new.book.device ≡ self.old.book.device }
        ensures round { SameRound self.old self.new }
    {
        self.book.heat(owner, pointer);
    }

    /// Bytes of a near object on which a view may rest become `bytes`, from one on; its pointer gets HOT and DIRTY: what a scope
    /// leaves in which it is pinned, soiled and stored into.
    #[inline]
    pub fn write_over(&mut self, owner: u8, pointer: u16, from: u16, bytes: &[u8])
        // an object whose owner has no scope, on which a view may rest, and a range that lies in it
        requires rest { IsAtRest (core_state self.old.book.near.core) owner pointer }
        requires rests { IsSome (place_to_view (read_of ((core_state self.old.book.near.core).cell pointer))) }
        requires inside { from + length bytes.now ≤ data_len (core_state self.old.book.near.core) pointer }

        // an owner's events led there, each of them lawful: what a scope makes that pins, soils and stores
        ensures events { core_state self.new.book.near.core ≡ after_events (core_state self.old.book.near.core) (overwrites_in (core_state self.old.book.near.core) owner pointer from bytes.now) }
        ensures legal { AllLegal (core_state self.old.book.near.core) (overwrites_in (core_state self.old.book.near.core) owner pointer from bytes.now) }

        // the range has the bytes and the pointer HOT and DIRTY; a view may rest there still
        ensures state { core_state self.new.book.near.core ≡ overwritten (core_state self.old.book.near.core) pointer from bytes.now }
        ensures rests { IsSome (place_to_view (read_of ((core_state self.new.book.near.core).cell pointer))) }

        // the order of logs, the device and the round stay
        ensures order { self.new.book.order ≡ self.old.book.order }
        ensures device { self.new.book.device ≡ self.old.book.device }
        ensures round { SameRound self.old self.new }
    {
        self.book.write_over(owner, pointer, from, bytes);
    }

    /// Takes HOT from a near object that its owner uses, on which a view may rest: what is left where the owner asks for it to be
    /// moved, and it stays where it lies.
    #[inline]
    pub fn cool(&mut self, owner: u8, pointer: u16)
        requires rest { IsAtRest (core_state self.old.book.near.core) owner pointer }
        requires rests { IsSome (place_to_view (read_of ((core_state self.old.book.near.core).cell pointer))) }
        ensures state { (v : PtrWord) → read_of ((core_state self.old.book.near.core).cell pointer) ≡ Some v → core_state self.new.book.near.core ≡ with_cell (core_state self.old.book.near.core) pointer (word_of (cold v)) }
        ensures one { core_state self.new.book.near.core ≡ with_cell (core_state self.old.book.near.core) pointer ((core_state self.new.book.near.core).cell pointer) }
        ensures sealed { KeepsSealed (core_state self.old.book.near.core) (core_state self.new.book.near.core) }
        ensures order { self.new.book.order ≡ self.old.book.order }
        ensures device { self.new.book.device ≡ self.old.book.device }
        ensures round { SameRound self.old self.new }
    {
        self.book.cool(owner, pointer);
    }
}
