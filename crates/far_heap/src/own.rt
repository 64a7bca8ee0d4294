// What a mutator has, whether its scope is open or closed.
ghost use Rattle.std.specs.Prelude.{◌≡◌, ◌+◌, ◌<◌, ◌≤◌, ℕ, true, false, length, slice_range, cond, None, Some, IfOk, IfErr, IfSome, IsSome};
ghost use Rattle.far_table.specs.Views.{said_ds, said_len};
ghost use Rattle.far_word.specs.Pointer.{read_of};
ghost use Rattle.far_events.specs.events.Quiet.{has_move};
ghost use Rattle.far_events.specs.declared.event.Event.TheVariants.{Adopt};
ghost use Rattle.far_events.specs.declared.event.Reply.TheVariants.{Word};
ghost use Rattle.far_heap.specs.Made.{FindsOther, MadeBy, Pinned, RefusedBy};
ghost use Rattle.far_heap.specs.MineLaw.{MineLaw};
ghost use Rattle.far_heap.specs.LogsStay.{LogsStay};
ghost use Rattle.far_heap.specs.SoiledIsDirty.{SoiledIsDirty};
ghost use Rattle.far_heap.specs.declared.view.Tried.{Tried as any_tried};
ghost use Rattle.far_heap.specs.Mine.{HasLeft, IsNew, SoilsOne, TriedSo, UsesAll, access_refusal, adopting, asking, bytes_in, closing, dropping, ds_in, len_in, newcomer, opening, owns, uses, view_of, views, viewing, writing};
ghost use Rattle.far_word.specs.declared.refused.Refused.{Refused as any_refusal};
ghost use Rattle.far_word.specs.declared.sizes.TheConstants.{LONGEST, MOST_MUTATORS};

use crate::name::HeapName;
use crate::ranges::{load_range, store_range};
use crate::rows::Rows;
use crate::view::{Tried, View};
use far_device::Device;
use far_table::MutSeat;
use far_word::{CELLS, Mark, PtrWord, Refused};
use std::alloc::{AllocError, Global};
use std::marker::{Model, PhantomData};

// That an owner set MOVE in the cell of its pointer, where a word was found: made by `ask_move` alone, and used up by the book, which looks there after that.
pub(crate) struct MoveAsked {
    pub(crate) pointer: u16,
    found: u64,
}

impl MoveAsked {
    // It is used up.
    pub(crate) fn end(self) {
        let MoveAsked {
            pointer: _pointer,
            found: _found,
        } = self;
    }
}

// That an owner set DROP in the cell of its pointer, where a word was found: made by `ask_drop` alone, and used up by the book.
pub(crate) struct DropAsked {
    pub(crate) pointer: u16,
    found: u64,
}

impl DropAsked {
    // It is used up.
    pub(crate) fn end(self) {
        let DropAsked {
            pointer: _pointer,
            found: _found,
        } = self;
    }
}

// A mutator's seat, and what it knows by itself.
#[derive(Drop)]
pub(crate) struct Own<K: HeapName, D: Device> {
    seat: MutSeat<D>,
    number: u8,
    rows: Rows,
    of: PhantomData<K>,
}

impl<K: HeapName, D: Device> Model for Own<K, D> {
    ghost use Rattle.far_heap.specs.Mine.{Mine, OwnOk, StructuresOk, mine_of};

    ghost Value = { Mine };

    ghost view = { λ o. mine_of o.seat };

    ghost invariant = { λ o. OwnOk o.seat K.heap.table o.number o.rows × StructuresOk o.seat.view o.number o.rows };
}

// The length and the data structure of the object that a word names, 0 where it names none.
fn said(word: u64) -> (u16, u8)
    requires { IsSome (read_of word) }
    ensures len { result.0 ≡ said_len (read_of word) }
    ensures ds { result.1 ≡ said_ds (read_of word) }
{
    match PtrWord::known(word) {
        PtrWord::Near { len, ds, .. } | PtrWord::Far { len, ds, .. } => (len, ds),
        PtrWord::Free => (0, 0),
    }
}

impl<K: HeapName, D: Device> Own<K, D> {
    // A mutator of a seat of a new heap, whose rows are made here.
    pub(crate) fn new(alloc: Global, seat: MutSeat<D>, number: u8) -> Result<Own<K, D>, AllocError>
        requires table { seat.table ≡ K.heap.table }
        requires new { IsNew number seat.view }
        requires few { number < MOST_MUTATORS }
        ensures { IfOk result (λ own. own ≡ newcomer K.heap.table number seat.view.honest) }
    {
        let rows = Rows::new(alloc)?;
        Ok(Own {
            seat,
            number,
            rows,
            of: PhantomData,
        })
    }

    // What holds between any two calls.
    pub(crate) fn keeps_law(&self)
        ensures { MineLaw self.now }
    {
        self.seat.no_log_is_given_out_under_a_view();
    }

    // No log is given out in which an object lies that the scope views.
    pub(crate) fn no_log_is_given_out_under_a_view(&self)
        ensures { LogsStay K.heap self.now }
    {
        self.seat.no_log_is_given_out_under_a_view();
    }

    // What the scope has soiled has DIRTY in its cell.
    pub(crate) fn what_it_soiled_is_dirty(&self)
        ensures { SoiledIsDirty K.heap self.now }
    {
        self.seat.no_log_is_given_out_under_a_view();
        self.seat.what_it_soiled_is_dirty();
    }

    // Opens the scope.
    #[inline(always)]
    pub(crate) fn open(&mut self)
        requires { self.old.opened ≡ false }
        ensures { self.new ≡ opening self.old }
    {
        self.seat.read_epoch();
        self.seat.open();
    }

    // Closes the scope. It views nothing from then on.
    #[inline(always)]
    pub(crate) fn close(&mut self)
        requires { self.old.opened ≡ true }
        ensures { self.new ≡ closing self.old }
    {
        self.seat.close();
        self.rows.end_scope();
    }

    // The length of the object of a pointer that the mutator uses.
    #[inline(always)]
    pub(crate) fn used_len(&self, p: u16) -> Option<u16>
        ensures used { IfSome result (λ len. (uses self.now p ≡ true) × (len ≡ len_in self.now p)) }
        ensures unused { result ≡ None → uses self.now p ≡ false }
    {
        self.rows.used_len(p)
    }

    // The data structure of the object of a pointer that the mutator uses.
    #[inline(always)]
    pub(crate) fn used_structure(&self, p: u16) -> Option<u8>
        ensures used { IfSome result (λ ds. (uses self.now p ≡ true) × (ds ≡ ds_in self.now p)) }
        ensures unused { result ≡ None → uses self.now p ≡ false }
    {
        if self.has(p) {
            Some(self.rows.structure_at(p))
        } else {
            None
        }
    }

    // The length of the object of a pointer that the scope views.
    #[inline(always)]
    fn viewed_len(&self, p: u16) -> Option<u16>
        ensures viewed { IfSome result (λ len. (views self.now p ≡ true) × (len ≡ len_in self.now p) × (len ≤ LONGEST)) }
        ensures other { result ≡ None → views self.now p ≡ false }
    {
        self.rows.viewed_len(p)
    }

    // The mutator's number.
    pub(crate) fn number(&self) -> u8
        ensures { result ≡ self.now.number }
    {
        self.number
    }

    // Whether it uses a pointer.
    pub(crate) fn has(&self, p: u16) -> bool
        ensures { result ≡ uses self.now p }
    {
        self.used_len(p).is_some()
    }

    // Whether it has a pointer that it doesn't use.
    pub(crate) fn has_left(&self) -> bool
        ensures left { result ≡ true → HasLeft self.now }
        ensures all { result ≡ false → UsesAll self.now }
    {
        self.keeps_law();
        let first = self.number as u16 * CELLS;
        for cell in 0..CELLS {
            if !self.has(first + cell) {
                return true;
            }
        }
        false
    }

    // Whether a new object may be refused so by what it knows of its pointers: for want of a pointer if it uses each, for want of room if it has one left.
    #[cold]
    #[inline(never)]
    pub(crate) fn bears_out(&self, why: Refused) -> bool
        ensures all { result ≡ true → why ≡ Refused.NoPointer → UsesAll self.now }
        ensures left { result ≡ true → why ≡ Refused.NoRoom → HasLeft self.now }
    {
        match why {
            Refused::NoRoom => self.has_left(),
            _ => !self.has_left(),
        }
    }

    // Whether its scope views a pointer's object.
    pub(crate) fn is_viewing(&self, p: u16) -> bool
        ensures { result ≡ views self.now p }
    {
        self.viewed_len(p).is_some()
    }

    // A view of an object that the mutator uses.
    #[inline(always)]
    pub(crate) fn view_of(&self, p: u16) -> View
        requires { uses self.now p ≡ true }
        ensures { result ≡ view_of p self.now }
    {
        View {
            pointer: p,
            len: self.rows.len_at(p),
        }
    }

    // A view of a pointer's object, by one pin, unless the scope has it already.
    #[inline(always)]
    pub(crate) fn try_view(&mut self, p: u16) -> Result<Tried, Refused>
        requires { self.old.opened ≡ true }
        ensures refused { IfErr result (λ why. (why ≡ Refused.NotHeld) × (uses self.old p ≡ false) × (self.new ≡ self.old)) }
        ensures tried { IfOk result (λ tried. (uses self.old p ≡ true) × TriedSo p self.old tried self.new) }
        ensures again { views self.old p ≡ true → (result ≡ Ok (Tried.View (view_of p self.old))) × (self.new ≡ self.old) }
        ensures pinned { views self.old p ≡ false → IfOk result (λ tried. Pinned p self.old tried self.new) }
    {
        if let Some(len) = self.viewed_len(p) {
            return Ok(Tried::View(View { pointer: p, len }));
        }
        let Some(len) = self.used_len(p) else {
            return Err(Refused::NotHeld);
        };
        match self.seat.pin(p) {
            Ok(_) => {
                self.rows.note_viewed(p);
                Ok(Tried::View(View { pointer: p, len }))
            }
            Err(word) => Ok(Tried::Slow(word)),
        }
    }

    // Uses a pointer of its own from then on, whose cell is in use: the length and the data structure of its object. `None` where it isn't; then nothing
    // changes.
    pub(crate) fn adopt(&mut self, p: u16) -> Option<(u16, u8)>
        requires own { owns self.old p ≡ true }
        requires unused { uses self.old p ≡ false }
        ensures adopted { IfSome result (λ said. (0 < said.0) × (said.0 ≤ LONGEST) × (self.new ≡ adopting p said.0 said.1 self.old)) }
        ensures kept { result ≡ None → self.new ≡ self.old }
        ensures found { IfSome result (λ said. (word : ℕ) × MadeBy (Adopt self.old.number p) self.old (Word word) self.new × (said.0 ≡ said_len (read_of word)) × (said.1 ≡ said_ds (read_of word))) }
        ensures refused { result ≡ None → RefusedBy (Adopt self.old.number p) self.old }
    {
        let Some(word) = self.seat.adopt(p) else {
            return None;
        };
        let (len, ds) = said(word);
        self.rows.note_used(p, len, ds);
        Some((len, ds))
    }

    // Uses a new object of this length and data structure from then on, if its cell says so. Else the mutator is as before, and an object of another length or
    // data structure that was found there gets DROP.
    pub(crate) fn adopt_new(&mut self, p: u16, len: u16, ds: u8) -> bool
        requires { owns self.old p ≡ true }
        ensures adopted { result ≡ true → (uses self.old p ≡ false) × (self.new ≡ adopting p len ds self.old) }
        ensures kept { result ≡ false → self.new ≡ self.old }
        ensures other { result ≡ false → uses self.old p ≡ false → FindsOther p len ds self.old }
    {
        let _number = self.number;
        if self.has(p) {
            return false;
        }
        match self.adopt(p) {
            Some((found, of)) => {
                if found == len && of == ds {
                    return true;
                }
                self.ask_drop(p).end();
                false
            }
            None => false,
        }
    }

    // Asks for an object to be moved: MOVE is set anew in its cell if the word found there hadn't got it.
    pub(crate) fn ask_move(&mut self, p: u16) -> MoveAsked
        requires used { uses self.old p ≡ true }
        requires free { views self.old p ≡ false }
        ensures pointer { result.pointer ≡ p }
        ensures asked { self.new ≡ asking p (cond (has_move (read_of result.found)) 0 1) self.old }
    {
        MoveAsked {
            pointer: p,
            found: self.seat.ask(p, Mark::Moved),
        }
    }

    // Sets DROP in the cell of an object, which the mutator uses no longer.
    pub(crate) fn ask_drop(&mut self, p: u16) -> DropAsked
        requires used { uses self.old p ≡ true }
        requires free { views self.old p ≡ false }
        ensures pointer { result.pointer ≡ p }
        ensures dropped { self.new ≡ dropping p self.old }
    {
        let found = self.seat.ask(p, Mark::Dropped);
        self.rows.note_unused(p);
        DropAsked { pointer: p, found }
    }

    // The length of the object of a view, of which these bytes are a range.
    #[inline(always)]
    fn access(&self, view: View, from: u16, count: usize) -> Result<u16, Refused>
        ensures refused { IfErr result (λ why. access_refusal self.now view.pointer from count ≡ Some why) }
        ensures done { IfOk result (λ len. (access_refusal self.now view.pointer from count ≡ None) × (views self.now view.pointer ≡ true) × (len ≡ len_in self.now view.pointer) × (len ≤ LONGEST) × (from + count ≤ len) × (0 < count)) }
    {
        let Some(len) = self.viewed_len(view.pointer) else {
            return Err(Refused::NotHeld);
        };
        if count == 0 || from > len || count > (len - from) as usize {
            return Err(Refused::Range);
        }
        Ok(len)
    }

    // Reads bytes of an object that the scope views.
    #[inline(always)]
    pub(crate) fn read(&mut self, view: View, from: u16, out: &mut [u8]) -> Result<(), Refused>
        ensures same { self.new ≡ self.old }
        ensures refused { IfErr result (λ why. (access_refusal self.old view.pointer from (length out.old) ≡ Some why) × (out.new ≡ out.old)) }
        ensures done { IfOk result (λ _. access_refusal self.old view.pointer from (length out.old) ≡ None) }
        ensures bytes { IfOk result (λ _. IfSome (bytes_in self.old view.pointer) (λ bytes. out.new ≡ slice_range bytes from (from + length out.old))) }
    {
        match self.access(view, from, out.len()) {
            Ok(_) => load_range(&mut self.seat, view.pointer, from, out),
            Err(why) => return Err(why),
        }
        Ok(())
    }

    // Writes bytes over those of an object that the scope views. DIRTY is set in the object's cell before the scope's first store.
    #[inline(always)]
    pub(crate) fn write(&mut self, view: View, from: u16, bytes: &[u8]) -> Result<(), Refused>
        ensures refused { IfErr result (λ why. (access_refusal self.old view.pointer from (length bytes.now) ≡ Some why) × (self.new ≡ self.old)) }
        ensures done { IfOk result (λ _. (access_refusal self.old view.pointer from (length bytes.now) ≡ None) × (self.new ≡ writing view.pointer from bytes.now self.old)) }
        ensures soiled { IfOk result (λ _. SoilsOne view.pointer self.old self.new) }
    {
        let len = match self.access(view, from, bytes.len()) {
            Ok(len) => len,
            Err(why) => return Err(why),
        };
        let p = view.pointer;
        if !self.rows.has_soiled(p) {
            self.seat.soil(p);
            self.rows.note_soiled(p);
        }
        store_range(&mut self.seat, p, len, from, bytes);
        Ok(())
    }
}
