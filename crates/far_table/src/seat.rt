// An owner's seat.
ghost use Rattle.std.specs.Prelude.{if◌then◌else◌, ◌≡◌, ◌+◌, ◌-◌, ◌*◌, ◌/◌, ◌%◌, ◌^◌, ◌<◌, ◌≤◌, true, false, ℕ, length, map, Some, None, IsSome, IfOk, IfErr, IfSome};
ghost use Rattle.std.specs.Arc.{arc_value};
ghost use Rattle.far_events.specs.declared.event.Event.{Event as any_event};
ghost use Rattle.far_events.specs.declared.event.Reply.{Reply as any_reply};
ghost use Rattle.far_table.specs.Tells.{Found, HasState, OwnerMade, OwnerMayBe, OwnerRefused, owner_of};
ghost use Rattle.far_table.specs.Viewed.{StaysGiven};
ghost use Rattle.std.specs.List.{range_with_len};
ghost use Rattle.far_word.specs.declared.sizes.TheConstants.{CELLS, LOG_WORDS, LONGEST, MOST_LOGS, MOST_MUTATORS};
ghost use Rattle.far_core.specs.state.CoreState.{core_state};
ghost use Rattle.far_events.specs.state.State.{State, addr};
ghost use Rattle.far_word.specs.declared.pointer.Place.{Place as any_place};
ghost use Rattle.far_table.specs.View.{Owner, OwnerView};
ghost use Rattle.far_table.specs.First.{first_owner};
ghost use Rattle.far_table.specs.Layout.{table_words};
ghost use Rattle.far_word.specs.Pointer.{read_of};
ghost use Rattle.far_events.specs.events.Ask.{is_request};
ghost use Rattle.far_events.specs.state.Law.{in_use, is_dirty};
ghost use Rattle.far_events.specs.events.Pin.{pin_answer, place_to_view};
ghost use Rattle.far_table.specs.Ranges.{HasBytes, Wrote};
ghost use Rattle.far_table.specs.RowTells.{LoadedEach, StoredEach};
ghost use Rattle.far_table.specs.Seats.{data_begin, pin_reply};
ghost use Rattle.far_table.specs.Views.{adopted_view, asked_view, closed_view, dirtied_at, held_at, held_view, hots, len_of, noted_view, object_at, opened_view, pinned_at, read_view, soiled_at, soiled_view, stored_view, uses, warmed_view, word_in_view};
ghost use Rattle.far_word.specs.Bytes.{packed_word};
ghost use Rattle.far_word.specs.Sizes.{words_for};

use crate::layout::{EPOCH, LINE, SCOPES};
use crate::rule::FarTable;
use crate::seat_rows::{load_row, store_row};
use crate::view::View;
use crate::{layout, rule};
use atomic_table::Seat;
use far_core::{Core, Event, Reply, in_use};
use far_device::Device;
use far_word::{CELLS, LOG_WORDS, Mark, Place, resting_place};
use std::alloc::{AllocError, Global};
use std::marker::Model;
use std::sync::Arc;

/// An owner's seat on the shared words. Each call is one event of [`far_events`], one atomic step; [`MutSeat::load_words`] and [`MutSeat::store_words`] make one for each
/// word. No call takes memory, and each always answers.
#[derive(Drop)]
pub struct MutSeat<D: Device> {
    table: Arc<FarTable<D>, Global>,
    seat: Seat<u64, View>,
    number: u64,
    // The epoch that was read for the next scope.
    epoch: u64,
    // Where the data words of each object that is held begin, by its cell's number among the owner's.
    places: Vec<u16>,
}

impl<D: Device> Model for MutSeat<D> {
    ghost use Rattle.std.specs.Prelude.{◌≡◌, ◌<◌, length};
    ghost use Rattle.std.specs.Arc.{arc_value};
    ghost use Rattle.far_word.specs.declared.sizes.TheConstants.{CELLS, MOST_MUTATORS};
    ghost use Rattle.far_table.specs.View.{Owner};
    ghost use Rattle.far_table.specs.Layout.{table_words};
    ghost use Rattle.far_table.specs.Seats.{Seated, Remembers, HasPlaces};
    ghost use Rattle.far_table.specs.Tells.{HasState, owner_of};

    ghost Value = { Seated };

    ghost view = { λ s. record { table = s.seat.table_id; view = owner_of s.seat.me.0 } };

    ghost invariant = { λ s. (s.seat.table_id ≡ (arc_value s.table).shared.table_id) × (s.seat.table_id.words ≡ table_words (owner_of s.seat.me.0).logs) × (s.seat.me.0 ≡ Owner (owner_of s.seat.me.0)) × ((owner_of s.seat.me.0).number ≡ s.number) × (s.number < MOST_MUTATORS) × Remembers (owner_of s.seat.me.0).epoch s.epoch × (length s.places.items ≡ CELLS) × HasPlaces (owner_of s.seat.me.0) s.places.items × HasState (owner_of s.seat.me.0) };
}

// Where the data words of an object begin whose place is held, counted from word 0 of log 0; 0 where none is.
fn data_begin(held: Option<Place>) -> u16
    requires { IfSome held (λ place. addr place + 1 ≤ MOST_LOGS * LOG_WORDS) }
    ensures { result ≡ data_begin held }
{
    match held {
        Some(place) => place.log as u16 * LOG_WORDS + place.at + 1,
        None => 0,
    }
}

// Where the data words of each object begin that an owner of a core holds.
fn places_of(alloc: Global, core: &Core, number: u8) -> Result<Vec<u16>, AllocError>
    requires { number < MOST_MUTATORS }
    ensures { IfOk result (λ places. places.items ≡ map (λ k. data_begin ((core_state core.now).held (CELLS * number + k))) (range_with_len 0 CELLS)) }
{
    let mut places = Vec::with_capacity(alloc, CELLS as usize)?;
    for cell in 0..CELLS {
        core.keeps_law();
        places.push_reserved(data_begin(core.held(CELLS * number as u16 + cell)));
    }
    Ok(places)
}

impl<D: Device> MutSeat<D> {
    // The seat of an owner of a core, whose view is the core's of it.
    pub(crate) fn new(
        alloc: Global,
        table: Arc<FarTable<D>, Global>,
        seat: Seat<u64, View>,
        core: &Core,
        number: u8,
    ) -> Result<MutSeat<D>, AllocError>
        requires table { (seat.table_id ≡ (arc_value table).shared.table_id) × (seat.table_id.words ≡ table_words (core_state core.now).logs) }
        requires owner { seat.me.0 ≡ Owner (first_owner (core_state core.now) (owner_of seat.me.0).honest number) }
        requires some { number < (core_state core.now).mutators }
        requires there { HasState (owner_of seat.me.0) }
        ensures { IfOk result (λ s. s ≡ record { table = seat.table_id; view = owner_of seat.me.0 }) }
    {
        core.keeps_law();
        let places = places_of(alloc, core, number)?;
        let epoch = core.remembered(number).unwrap_or(0);
        Ok(MutSeat {
            table,
            seat,
            number: number as u64,
            epoch,
            places,
        })
    }

    /// No log in which this seat holds a place is given back, nor taken anew, whatever state the words and all views are in beside its view; and there is
    /// such a state. The call does nothing.
    pub fn no_log_is_given_out_under_a_view(&self)
        ensures kept { (x : State) → OwnerMayBe self.now.view x → (p : ℕ) (place : any_place) → held_at self.now.view p ≡ Some place → (x.held p ≡ Some place) × StaysGiven x p place }
        ensures there { HasState self.now.view }
    {
        let _number = self.number;
    }

    /// What this seat holds by a pin has HOT in its cell, whatever state the words and all views are in beside its view. The call does nothing.
    pub fn what_it_pinned_is_hot(&self)
        ensures { (x : State) → OwnerMayBe self.now.view x → (p : ℕ) → p / CELLS ≡ self.now.view.number → pinned_at self.now.view p ≡ true → hots (x.cell p) ≡ 1 }
    {
        let _number = self.number;
    }

    /// What this seat has soiled has DIRTY in its cell, whatever state the words and all views are in beside its view. The call does nothing.
    pub fn what_it_soiled_is_dirty(&self)
        ensures { (x : State) → OwnerMayBe self.now.view x → (p : ℕ) → p / CELLS ≡ self.now.view.number → soiled_at self.now.view p ≡ true → is_dirty (read_of (x.cell p)) ≡ true }
    {
        let _number = self.number;
    }

    /// The epoch, which the owner remembers for its next scope.
    pub fn read_epoch(&mut self) -> u64
        requires closed { self.old.view.open_at ≡ None }
        ensures table { self.new.table ≡ self.old.table }
        ensures view { self.new.view ≡ read_view result self.old.view }
        ensures event { OwnerMade (Event.ReadEpoch self.old.view.number) self.old.view (Reply.Epoch result) self.new.view }
    {
        let found = self
            .table
            .shared
            .load::<rule::ReadEpoch>(&mut self.seat, EPOCH);
        self.epoch = found;
        found
    }

    /// Opens the owner's scope at the epoch that it has read.
    pub fn open(&mut self)
        requires closed { self.old.view.open_at ≡ None }
        requires read { IsSome self.old.view.epoch }
        ensures table { self.new.table ≡ self.old.table }
        ensures view { self.new.view ≡ opened_view self.old.view }
        ensures event { OwnerMade (Event.Open self.old.view.number) self.old.view Reply.Done self.new.view }
    {
        let scope = self.number as usize * LINE + SCOPES;
        let word = 2 * self.epoch + 1;
        self.table
            .shared
            .store::<rule::Open>(&mut self.seat, scope, word);
    }

    /// Closes the owner's scope. It holds nothing from then on, has soiled nothing, and remembers no epoch.
    pub fn close(&mut self)
        requires opened { IsSome self.old.view.open_at }
        ensures table { self.new.table ≡ self.old.table }
        ensures view { self.new.view ≡ closed_view self.old.view }
        ensures event { OwnerMade (Event.Close self.old.view.number) self.old.view Reply.Done self.new.view }
    {
        let scope = self.number as usize * LINE + SCOPES;
        self.table
            .shared
            .store::<rule::Close>(&mut self.seat, scope, 0);
    }

    /// Sets HOT in the cell of a pointer, and holds the place of its object where the word found is near with none of EVAC, MOVE and
    /// DROP; else the word found. The view counts HOT as set anew where the word found hasn't got it, held or not.
    pub fn pin(&mut self, p: u16) -> Result<Place, u64>
        // the pointer is the owner's own, in use and not held, and its scope is open
        requires own { p / CELLS ≡ self.old.view.number }
        requires used { uses self.old.view p ≡ true }
        requires free { held_at self.old.view p ≡ None }
        requires opened { IsSome self.old.view.open_at }

        // the view holds the place where the word that was found is near with none of EVAC, MOVE and DROP; else that is the answer; HOT is counted where it was
        // set anew, and the table is the same
        ensures table { self.new.table ≡ self.old.table }
        ensures held { IfOk result (λ place. (found : ℕ) × (place_to_view (read_of found) ≡ Some place) × (self.new.view ≡ held_view p place (warmed_view p found self.old.view))) }
        ensures kept { IfErr result (λ found. (self.new.view ≡ warmed_view p found self.old.view) × (place_to_view (read_of found) ≡ None)) }
        ensures pinned { IfOk result (λ place. (pinned_at self.new.view p ≡ true) × (held_at self.new.view p ≡ Some place)) }

        // the call was this one event of the core, with this reply
        ensures found { (found : ℕ) × Found p found self.old.view self.new.view × (pin_reply result ≡ pin_answer found (place_to_view (read_of found))) }
        ensures event { OwnerMade (Event.Pin self.old.view.number p) self.old.view (pin_reply result) self.new.view }
    {
        let found = self.table.shared.fetch_or::<rule::Pin>(
            &mut self.seat,
            p as usize + layout::CELLS,
            Mark::Hot.mask(),
        );
        let Some(place) = resting_place(found) else {
            return Err(found);
        };
        self.places[(p % CELLS) as usize] = place.log as u16 * LOG_WORDS + place.at + 1;
        Ok(place)
    }

    /// Data word `i`, counted from 0, of an object that is held: as the view has it, if the far side is honest.
    pub fn load(&mut self, p: u16, i: u16) -> u64
        requires held { IsSome (held_at self.old.view p) }
        requires inside { i < words_for (len_of (object_at self.old.view p)) }
        ensures word { self.old.view.honest ≡ true → result ≡ word_in_view (object_at self.old.view p) i }
        ensures same { self.new ≡ self.old }
        ensures event { OwnerMade (Event.Load self.old.view.number p i) self.old.view (Reply.Word result) self.new.view }
    {
        let word = self.places[(p % CELLS) as usize] as usize + i as usize + layout::LOGS;
        self.table.shared.load::<rule::Load>(&mut self.seat, word)
    }

    /// Sets DIRTY in the cell of an object that is held: the word found. The object is soiled from then on, until the scope is closed. The view counts DIRTY
    /// as set anew exactly where the word found hasn't got it.
    pub fn soil(&mut self, p: u16) -> u64
        requires held { IsSome (held_at self.old.view p) }
        ensures table { self.new.table ≡ self.old.table }
        ensures view { self.new.view ≡ soiled_view p result self.old.view }
        ensures soiled { soiled_at self.new.view p ≡ true }
        ensures anew { is_dirty (read_of result) ≡ false → dirtied_at self.new.view p ≡ dirtied_at self.old.view p + 1 }
        ensures again { is_dirty (read_of result) ≡ true → dirtied_at self.new.view p ≡ dirtied_at self.old.view p }
        ensures found { Found p result self.old.view self.new.view }
        ensures event { OwnerMade (Event.Soil self.old.view.number p) self.old.view (Reply.Word result) self.new.view }
    {
        self.table.shared.fetch_or::<rule::Soil>(
            &mut self.seat,
            p as usize + layout::CELLS,
            Mark::Dirty.mask(),
        )
    }

    /// Data word `i`, counted from 0, of an object that is held and soiled is this word from then on. The bytes of `word` after the object's end have to be 0.
    pub fn store(&mut self, p: u16, i: u16, word: u64)
        requires held { IsSome (held_at self.old.view p) }
        requires soiled { soiled_at self.old.view p ≡ true }
        requires inside { i < words_for (len_of (object_at self.old.view p)) }
        requires padding { word < 2 ^ (8 * (len_of (object_at self.old.view p) - 8 * i)) }
        ensures table { self.new.table ≡ self.old.table }
        ensures view { self.new.view ≡ stored_view p i word self.old.view }
        ensures event { OwnerMade (Event.Store self.old.view.number p i word) self.old.view Reply.Done self.new.view }
    {
        let at = self.places[(p % CELLS) as usize] as usize + i as usize + layout::LOGS;
        self.table
            .shared
            .store::<rule::Store>(&mut self.seat, at, word);
    }

    /// Words of an object that is held, from word `first` on, as bytes, the low byte of each first: `out` has a multiple of 8. Each word is a load of its own.
    pub fn load_words(&mut self, p: u16, first: u16, out: &mut [u8])
        requires held { IsSome (held_at self.old.view p) }
        requires short { len_of (object_at self.old.view p) ≤ LONGEST }
        requires inside { 8 * first + length out.old ≤ len_of (object_at self.old.view p) }
        requires whole { length out.old % 8 ≡ 0 }
        ensures same { self.new ≡ self.old }
        ensures bytes { self.old.view.honest ≡ true → HasBytes (word_in_view (object_at self.old.view p)) (8 * first) out.new }
        ensures events { LoadedEach p first (packed_word out.new) (length out.old / 8) self.old.view }
    {
        let first = first as usize;
        let begin = self.places[(p % CELLS) as usize] as usize + first;
        load_row::<D>(&self.table.shared, &mut self.seat, p, first, begin, out);
    }

    /// Words of an object that is held and soiled, from word `first` on, are these bytes from then on, a multiple of 8, the low byte of each first. Each word
    /// is a store of its own.
    pub fn store_words(&mut self, p: u16, first: u16, bytes: &[u8])
        requires held { IsSome (held_at self.old.view p) }
        requires soiled { soiled_at self.old.view p ≡ true }
        requires short { len_of (object_at self.old.view p) ≤ LONGEST }
        requires inside { 8 * first + length bytes.now ≤ len_of (object_at self.old.view p) }
        requires whole { length bytes.now % 8 ≡ 0 }
        ensures table { self.new.table ≡ self.old.table }
        ensures wrote { Wrote p (8 * first) bytes.now self.old.view self.new.view }
        ensures events { StoredEach p first (packed_word bytes.now) (length bytes.now / 8) self.old.view self.new.view }
    {
        let first = first as usize;
        let begin = self.places[(p % CELLS) as usize] as usize + first;
        store_row::<D>(&self.table.shared, &mut self.seat, p, first, begin, bytes);
    }

    /// Uses a pointer of the owner's own from then on, whose cell is near or far without DROP: the word found. `None` if the word found is free or has DROP; then
    /// nothing changes, and the view notes that word.
    pub fn adopt(&mut self, p: u16) -> Option<u64>
        requires own { p / CELLS ≡ self.old.view.number }
        requires unused { object_at self.old.view p ≡ None }
        ensures table { self.new.table ≡ self.old.table }
        ensures adopted { IfSome result (λ found. (self.new.view ≡ adopted_view p found self.old.view) × OwnerMade (Event.Adopt self.old.view.number p) self.old.view (Reply.Word found) self.new.view) }
        ensures refused { result ≡ None → (found : ℕ) × (self.new.view ≡ noted_view p found self.old.view) × OwnerRefused (Event.Adopt self.old.view.number p) self.old.view }
        ensures found { (found : ℕ) × Found p found self.old.view self.new.view × (result ≡ (if in_use (read_of found) then Some found else None)) }
    {
        let found = self
            .table
            .shared
            .load::<rule::Adopt>(&mut self.seat, p as usize + layout::CELLS);
        if in_use(found) { Some(found) } else { None }
    }

    /// Sets `mark`, which is MOVE or DROP, in the cell of an object that is used and not held: the word found there. After DROP the owner uses the object no longer.
    pub fn ask(&mut self, p: u16, mark: Mark) -> u64
        requires request { is_request mark ≡ true }
        requires own { p / CELLS ≡ self.old.view.number }
        requires used { uses self.old.view p ≡ true }
        requires free { held_at self.old.view p ≡ None }
        ensures table { self.new.table ≡ self.old.table }
        ensures view { self.new.view ≡ asked_view p mark result self.old.view }
        ensures found { Found p result self.old.view self.new.view }
        ensures event { OwnerMade (Event.Ask self.old.view.number p mark) self.old.view (Reply.Word result) self.new.view }
    {
        self.table
            .shared
            .fetch_or::<rule::Ask>(&mut self.seat, p as usize + layout::CELLS, mark.mask())
    }
}
