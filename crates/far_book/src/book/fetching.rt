//! How a far object comes near.

ghost use Rattle.std.specs.Prelude.{false, ◌≡◌, ◌+◌, ◌*◌, ◌^◌, ◌<◌, ◌≤◌, ℕ, true, None, Some, length, Ok, Err, IfOk, IfErr};
ghost use Rattle.far_word.specs.declared.pointer.PtrWord.TheVariants.{Near as near_at};
ghost use Rattle.far_word.specs.declared.refused.Refused.TheVariants as refused;
ghost use Rattle.far_word.specs.declared.sizes.TheConstants.{CELLS};
ghost use Rattle.far_word.specs.Bytes.{packed_word};
ghost use Rattle.far_word.specs.Header.{IsHead};
ghost use Rattle.far_word.specs.Pointer.{IsPtr, read_of};
ghost use Rattle.far_word.specs.Sizes.{words_for};
ghost use Rattle.far_events.specs.events.Legal.{IsNext};
ghost use Rattle.far_events.specs.events.Naming.{is_dropped, no_marks};
ghost use Rattle.far_events.specs.state.Law.{IsStored};
ghost use Rattle.far_hand.specs.Finds.{Finds};
ghost use Rattle.far_hand.specs.Came.{Came, only};
ghost use Rattle.far_book.specs.book.Calls.{FetchesObject};
ghost use Rattle.far_book.specs.book.Effects.{fetched, near_word, with_written_span};
ghost use Rattle.far_book.specs.book.Fetching.{IsFar};
ghost use Rattle.far_book.specs.book.Only.{Writes};
ghost use Rattle.far_book.specs.book.Placeable.{IsAbsent};
ghost use Rattle.far_book.specs.book.Renaming.{Renamed, seen};

use crate::book::Book;
use crate::book::renaming::rename;
use crate::book::words::near_word;
use far_device::{Device, DeviceFault};
use far_hand::Near;
use far_word::{HeadWord, Place, PtrWord, Refused, last_word, size_of, words_for};
use std::mem;

impl<N: Near + Drop, D: Device + Drop> Book<N, D> {
    /// Brings a far object near, and answers where it lies. The device keeps the bytes: until the object is written, it can leave
    /// without a write. If its owner has dropped it, it is retired instead, and the answer is `None`.
    ///
    /// Refused, in this order, [`Refused::NoRoom`]; [`Refused::Memory`] or [`Refused::Device`], which are the device's; and
    /// [`Refused::Damaged`], if the device gave more or fewer bytes than the object has. The device holds then what it held, the
    /// hand knows the marks that were found, nothing else of the heap has changed, and no log was sealed.
    pub fn fetch(&mut self, pointer: u16) -> Result<Option<Place>, Refused>
        requires pointer { pointer < CELLS * (N.view self.old.near).mutators }
        requires far { IsFar (N.view self.old.near) pointer }
        ensures { FetchesObject N.still N.view N.makes D.contents D.honest D.faults D.fails_at_most D.lets_go D.forgets D.reads D.reads_in_place self.old self.new pointer result }
    {
        let word = self.see(pointer);
        let PtrWord::Far { len, ds, marks } = PtrWord::known(word) else {
            unreachable!()
        };
        if marks.dropped {
            self.retire(pointer);
            return Ok(None);
        }
        let size = size_of(len);
        let Some(place) = self.ledger.room(size, true) else {
            return Err(Refused::NoRoom);
        };
        let mut bytes = mem::replace(&mut self.buffer, Vec::new(self.alloc));
        match self.device.read_into(pointer as u32, &mut bytes) {
            Ok(()) => {}
            Err(DeviceFault::Memory) => {
                self.buffer = bytes;
                return Err(Refused::Memory);
            }
            Err(DeviceFault::Device) => {
                self.buffer = bytes;
                return Err(Refused::Device);
            }
        }
        if bytes.len() != len as usize {
            self.buffer = bytes;
            return Err(Refused::Damaged);
        }
        let Ok(()) = come_near(
            &mut self.near,
            pointer,
            word,
            len,
            ds,
            place,
            bytes.as_slice(),
        ) else {
            self.buffer = bytes;
            self.retire(pointer);
            return Ok(None);
        };
        self.buffer = bytes;
        self.ledger.take_again(size, place);
        self.counts.fetch();
        Ok(Some(place))
    }
}

// Writes a far object's header and bytes where it comes, and names the place by its cell, by the word that was found there. `Err` with
// the word found last, where its owner has dropped it meanwhile.
fn come_near<N: Near>(
    near: &mut N,
    pointer: u16,
    found: u64,
    len: u16,
    ds: u8,
    place: Place,
    bytes: &[u8],
) -> Result<(), u64>
    // the pointer's object is far and not dropped, as its cell was found, and header and cell have words for it near
    requires pointer { pointer < CELLS * (N.view near.old).mutators }
    requires found { found ≡ (N.view near.old).cell pointer }
    requires absent { IsAbsent (read_of found) len ds }
    requires head { IsHead record { pointer = pointer; len = len; ds = ds } }
    requires layout { IsPtr (near_at len ds place no_marks) }

    // the next span may stand at the place
    requires next { IsNext (N.view near.old) place }
    requires tail { (N.view near.old).tail place.log ≡ place.at }

    // the bytes are as many as the object has, and those that were stored, if the far side is honest
    requires long { length bytes.now ≡ len }
    requires stored { (N.view near.old).honest ≡ true → (i : ℕ) → i < words_for len → packed_word bytes.now i ≡ (N.view near.old).stored pointer i }

    // done: the object lies there with these bytes, and zeros behind them; its cell still was as found, perhaps with marks more
    ensures padded { IsStored (packed_word bytes.now) len }
    ensures done { IfOk result (λ _. Renamed (with_written_span (N.view near.old) pointer len ds place (packed_word bytes.now)) (N.view near.new) pointer (near_word false len ds place)) }
    ensures set { N.still → IfOk result (λ _. N.view near.new ≡ fetched (N.view near.old) pointer place (packed_word bytes.now)) }

    // else, never over a hand that is still, its owner has dropped it: the cell has the word that was found, with DROP, and the span is there, and dead
    ensures won { N.still → IfErr result (λ _. ⊥) }
    ensures fits { IfErr result (λ word. word < 2 ^ 64) }
    ensures found { IfErr result (λ word. Finds found word) }
    ensures dropped { IfErr result (λ word. is_dropped (read_of word) ≡ true) }
    ensures kept { IfErr result (λ word. N.view near.new ≡ seen (with_written_span (N.view near.old) pointer len ds place (packed_word bytes.now)) pointer word) }

    // only calls of the hand led there
    ensures came { Came N.makes near.old near.new }
{
    put_object(near, pointer, len, ds, place, bytes);
    rename(near, pointer, found, near_word(false, len, ds, place))
}

// Writes a header, and an object's bytes behind it.
fn put_object<N: Near>(near: &mut N, pointer: u16, len: u16, ds: u8, place: Place, bytes: &[u8])
    requires head { IsHead record { pointer = pointer; len = len; ds = ds } }
    requires layout { IsPtr (near_at len ds place no_marks) }
    requires next { IsNext (N.view near.old) place }
    requires tail { (N.view near.old).tail place.log ≡ place.at }
    requires long { length bytes.now ≡ len }
    ensures set { N.view near.new ≡ with_written_span (N.view near.old) pointer len ds place (packed_word bytes.now) }
    ensures puts { Came (only (Writes place.log) N.makes) near.old near.new }
{
    let header = HeadWord { pointer, len, ds };
    near.put(place.log, place.at, header.pack());
    let whole = len / 8;
    near.put_words(place.log, place.at + 1, bytes, whole);
    if whole < words_for(len) {
        near.put(
            place.log,
            place.at + 1 + whole,
            last_word(bytes, whole as usize),
        );
    }
}
