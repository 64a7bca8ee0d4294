//! How an object goes far: the device holds its bytes before its cell says so.

ghost use Rattle.std.specs.Prelude.{◌≡◌, ◌⊎◌, ◌+◌, ◌*◌, ◌<◌, ◌≤◌, true, false, take, length, Some, None, IfOk, IfErr, IfSome};
ghost use Rattle.std.specs.Vec.{vec_capacity, vec_len};
ghost use Rattle.far_word.specs.declared.sizes.TheConstants.{CELLS, LONGEST};
ghost use Rattle.far_word.specs.Bytes.{bytes_of};
ghost use Rattle.far_word.specs.Pointer.{read_of};
ghost use Rattle.far_word.specs.Sizes.{words_for};
ghost use Rattle.far_events.specs.events.Copies.{data_at};
ghost use Rattle.far_events.specs.events.Naming.{is_dropped};
ghost use Rattle.far_events.specs.state.Law.{IsStored, is_dirty};
ghost use Rattle.far_hand.specs.Finds.{Finds};
ghost use Rattle.far_hand.specs.Came.{Came, only};
ghost use Rattle.far_hand.specs.Known.{Forgets};
ghost use Rattle.far_book.specs.book.Calls.{EvictsObject};
ghost use Rattle.far_book.specs.book.Dealing.{has_evac};
ghost use Rattle.far_hand.specs.Quiet.{IsQuietNear};
ghost use Rattle.far_book.specs.book.Effects.{evicted, far_word};
ghost use Rattle.far_book.specs.book.Evicting.{IsQuietData, IsQuietIn, Learns};
ghost use Rattle.far_book.specs.book.Only.{Names, Reads};
ghost use Rattle.far_book.specs.book.Renaming.{IsWonBy, Renamed, seen, stops};
ghost use Rattle.far_book.specs.book.Sending.{Sends};

use crate::book::Book;
use crate::book::renaming::{is_dirty, is_dropped, rename};
use crate::book::words::far_word;
use far_device::{Device, DeviceFault};
use far_hand::Near;
use far_word::{Place, PtrWord, Refused, size_of, words_for};
use std::mem;

impl<N: Near + Drop, D: Device + Drop> Book<N, D> {
    /// Sends a quiet near object with EVAC far: the device holds its bytes, its cell says far, without marks, and its span is
    /// dead. If the object's word has no DIRTY as it leaves, the device holds the bytes already, and isn't asked. `false` if the
    /// owner was found to have dropped the object: the object is retired then, and the device is told to forget its bytes.
    /// Refused [`Refused::Memory`] or [`Refused::Device`] as the write was: the object is as before, and has DIRTY.
    #[inline(always)]
    pub fn evict(&mut self, pointer: u16) -> Result<bool, Refused>
        requires pointer { pointer < CELLS * (N.view self.old.near).mutators }
        requires quiet { IsQuietNear (N.view self.old.near) pointer }
        requires evac { has_evac (read_of ((N.view self.old.near).cell pointer)) ≡ true }
        ensures { EvictsObject N.still N.view N.makes D.contents D.honest D.faults D.fails_at_most D.lets_go D.forgets D.writes self.old self.new pointer result }
    {
        self.evict_by(pointer, None)
    }

    /// As [`Book::evict`], by the word that its cell is known to have, if one is given, or else by the one that is found there.
    #[inline(always)]
    pub fn evict_by(&mut self, pointer: u16, known: Option<u64>) -> Result<bool, Refused>
        requires pointer { pointer < CELLS * (N.view self.old.near).mutators }
        requires quiet { IsQuietNear (N.view self.old.near) pointer }
        requires evac { has_evac (read_of ((N.view self.old.near).cell pointer)) ≡ true }
        requires known { IfSome known (λ word. word ≡ (N.view self.old.near).cell pointer) }
        ensures { EvictsObject N.still N.view N.makes D.contents D.honest D.faults D.fails_at_most D.lets_go D.forgets D.writes self.old self.new pointer result }
    {
        let found = self.cell_of(pointer, known);
        let PtrWord::Near {
            len,
            ds,
            place,
            marks,
        } = PtrWord::known(found)
        else {
            unreachable!()
        };
        if marks.dropped {
            self.retire(pointer);
            return Ok(false);
        }
        let Some(word) = self.leave_clean(pointer, found, len, ds, place) else {
            return Ok(true);
        };
        if is_dropped(word) {
            self.retire(pointer);
            return Ok(false);
        }
        if let Err(why) = self.send(pointer, len, ds, place) {
            return Err(why);
        }
        match self.name_far(pointer, word, len, ds, place) {
            Ok(()) => Ok(true),
            Err(_) => {
                self.retire(pointer);
                Ok(false)
            }
        }
    }

    // Names an object far that has no DIRTY: the device holds its bytes. Else the word by which it is to be named: as it was, if it
    // has DIRTY, or as it was found instead, with DROP or DIRTY.
    #[inline(always)]
    fn leave_clean(
        &mut self,
        pointer: u16,
        found: u64,
        len: u16,
        ds: u8,
        place: Place,
    ) -> Option<u64>
        // the object is near and quiet, with EVAC and without DROP, as its cell was found
        requires pointer { pointer < CELLS * (N.view self.old.near).mutators }
        requires found { found ≡ (N.view self.old.near).cell pointer }
        requires near { IsQuietIn (N.view self.old.near) pointer len ds place }
        requires evac { has_evac (read_of found) ≡ true }
        requires alive { is_dropped (read_of found) ≡ false }

        // `None`: it had no DIRTY, and is far: the last call gave its cell the far word
        ensures left { result ≡ None → N.view self.new.near ≡ record (evicted (N.view self.old.near) pointer) { word = (N.view self.new.near).word; stored = (N.view self.new.near).stored } }
        ensures far { result ≡ None → (is_dirty (read_of found) ≡ false) × Renamed (N.view self.old.near) (N.view self.new.near) pointer (far_word len ds) }
        ensures won_by { result ≡ None → IsWonBy N.makes self.new.near pointer found (far_word len ds) }
        ensures away { N.still → result ≡ None → N.view self.new.near ≡ evicted (N.view self.old.near) pointer }

        // else the word that was found, over a hand that is still the one from before, has DROP or DIRTY; the book knows it, and nothing else has changed
        ensures found { IfSome result (λ word. Finds found word) }
        ensures kept { IfSome result (λ word. N.view self.new.near ≡ seen (N.view self.old.near) pointer word) }
        ensures marked { IfSome result (λ word. (is_dropped (read_of word) ≡ true) ⊎ (is_dirty (read_of word) ≡ true)) }
        ensures won { N.still → IfSome result (λ word. word ≡ found) }

        // no call was made but namings of this cell; the order of logs and the device stay
        ensures names { Came (only (Names pointer (far_word len ds)) N.makes) self.old.near self.new.near }
        ensures order { self.new.order ≡ self.old.order }
        ensures device { self.new.device ≡ self.old.device }
    {
        if is_dirty(found) {
            return Some(found);
        }
        match self.name_far(pointer, found, len, ds, place) {
            Ok(()) => None,
            Err(word) => Some(word),
        }
    }

    // Reads the words of a quiet object into the book's buffer, and has the device hold its bytes.
    #[inline(always)]
    fn send(&mut self, pointer: u16, len: u16, ds: u8, place: Place) -> Result<(), Refused>
        requires pointer { pointer < CELLS * (N.view self.old.near).mutators }
        requires near { IsQuietIn (N.view self.old.near) pointer len ds place }
        requires dirty { is_dirty (read_of ((N.view self.old.near).cell pointer)) ≡ true }
        ensures { Sends N.still N.view N.makes D.writes D.contents D.honest D.faults D.fails_at_most self.old self.new pointer len place result }
    {
        let mut row = mem::replace(&mut self.buffer, Vec::new(self.alloc));
        reach(&mut row, len);
        let bytes = row.as_mut_slice();
        read_object(&mut self.near, len, place, bytes);
        let written = self.device.write(pointer as u32, &bytes[..len as usize]);
        self.buffer = row;
        match written {
            Ok(()) => Ok(()),
            Err(DeviceFault::Memory) => Err(Refused::Memory),
            Err(DeviceFault::Device) => Err(Refused::Device),
        }
    }

    // Names an object far whose bytes the device holds. `Err` with the word that was found, if that has DROP, or DIRTY that the
    // word before hadn't.
    #[inline(always)]
    fn name_far(
        &mut self,
        pointer: u16,
        found: u64,
        len: u16,
        ds: u8,
        place: Place,
    ) -> Result<(), u64>
        // the object is near and quiet, with EVAC and without DROP, as its cell was found
        requires pointer { pointer < CELLS * (N.view self.old.near).mutators }
        requires found { found ≡ (N.view self.old.near).cell pointer }
        requires near { IsQuietIn (N.view self.old.near) pointer len ds place }
        requires evac { has_evac (read_of found) ≡ true }
        requires alive { is_dropped (read_of found) ≡ false }

        // where it has DIRTY its words are known, and the device holds them
        requires words { is_dirty (read_of found) ≡ true → IsStored (data_at (N.view self.old.near).word place) len }
        requires held { is_dirty (read_of found) ≡ true → D.contents self.old.device pointer ≡ Some (bytes_of (data_at (N.view self.old.near).word place) len) }

        // done: it is far: the last call gave its cell the far word; words may have been forgotten, but over a hand that is still
        ensures far { IfOk result (λ _. N.view self.new.near ≡ record (evicted (N.view self.old.near) pointer) { word = (N.view self.new.near).word; stored = (N.view self.new.near).stored }) }
        ensures renamed { IfOk result (λ _. Renamed (N.view self.old.near) (N.view self.new.near) pointer (far_word len ds)) }
        ensures won_by { IfOk result (λ _. IsWonBy N.makes self.new.near pointer found (far_word len ds)) }
        ensures forgot { IfOk result (λ _. Forgets (N.view self.old.near) (N.view self.new.near)) }
        ensures set { N.still → IfOk result (λ _. N.view self.new.near ≡ evicted (N.view self.old.near) pointer) }

        // else, never over a hand that is still, the word that was found has DROP, or DIRTY that it hadn't; the book knows it, and nothing else has changed
        ensures won { N.still → IfErr result (λ _. ⊥) }
        ensures found { IfErr result (λ word. Finds found word) }
        ensures stopped { IfErr result (λ word. stops (read_of found) (read_of word) ≡ true) }
        ensures kept { IfErr result (λ word. N.view self.new.near ≡ seen (N.view self.old.near) pointer word) }

        // no call was made but namings of this cell; the order of logs and the device stay
        ensures names { Came (only (Names pointer (far_word len ds)) N.makes) self.old.near self.new.near }
        ensures order { self.new.order ≡ self.old.order }
        ensures device { self.new.device ≡ self.old.device }
    {
        if let Err(word) = rename(&mut self.near, pointer, found, far_word(len, ds)) {
            return Err(word);
        }
        self.ledger.lose(place.log, size_of(len));
        self.counts.leave(found);
        Ok(())
    }
}

// Makes a row that has room for the longest object as long as the words of one; what it has beyond them stays.
#[inline(always)]
fn reach(row: &mut Vec<u8>, len: u16)
    requires most { len ≤ LONGEST }
    requires room { LONGEST ≤ vec_capacity row.old }
    ensures long { 8 * words_for len ≤ vec_len row.new }
    ensures room { LONGEST ≤ vec_capacity row.new }
{
    let long = 8 * words_for(len) as usize;
    if row.len() < long {
        row.resize(long, 0).unwrap();
    }
}

// The bytes of a quiet object, read word by word to the front of a row. Its words are known from then on.
#[inline(always)]
fn read_object<N: Near>(near: &mut N, len: u16, place: Place, row: &mut [u8])
    requires object { IsQuietData (N.view near.old) len place }
    requires room { 8 * words_for len ≤ length row.old }
    ensures kept { N.view near.new ≡ record (N.view near.old) { word = (N.view near.new).word } }
    ensures learned { Learns (N.view near.old) (N.view near.new).word place (words_for len) }
    ensures exact { N.still → N.view near.new ≡ N.view near.old }
    ensures reads { Came (only (Reads place.log) N.makes) near.old near.new }
    ensures bytes { take len row.new ≡ bytes_of (data_at (N.view near.new).word place) len }
    ensures length { length row.new ≡ length row.old }
{
    near.get_words(place.log, place.at + 1, words_for(len), row);
}
