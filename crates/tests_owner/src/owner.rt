//! An owner's seat, with what its calls ask of the view.

ghost use Rattle.std.specs.Prelude.{◌≡◌, ◌*◌, ◌/◌, ◌%◌, ◌<◌, true, false, Some, None, IfSome, slice_index_or};
ghost use Rattle.far_word.specs.Pointer.{read_of};
ghost use Rattle.far_word.specs.declared.sizes.TheConstants.{CELLS, MOST_MUTATORS};
ghost use Rattle.far_events.specs.events.Owners.{keeps_padding};
ghost use Rattle.far_table.specs.Views.{said_len};
ghost use Rattle.tests_owner.specs.Fits.{Fits, IsNew};

use far_core::Reply;
use far_device::Device;
use far_table::MutSeat;
use far_word::{CELLS, Mark, PtrWord, words_for};
use std::alloc::{AllocError, Global};

/// An owner's seat, and what is known of it: whether its scope is open, whether an epoch is remembered, the length of the object of each
/// of its pointers, and which of them it holds. Each call is the seat's, if the view allows it.
#[derive(Drop)]
pub struct Owner<D: Device> {
    seat: MutSeat<D>,
    number: u8,
    opened: bool,
    read: bool,
    // By the pointers' numbers among the owner's.
    lens: Vec<Option<u16>>,
    held: Vec<bool>,
    ghost fits: { Fits seat.view number opened read lens.items held.items },
}

impl<D: Device> Owner<D> {
    /// The owner of a seat that has done nothing yet.
    pub(crate) fn new(alloc: Global, seat: MutSeat<D>, number: u8) -> Result<Owner<D>, AllocError>
        requires new { IsNew seat.view number }
        requires few { number < MOST_MUTATORS }
    {
        let lens = vec![in alloc; None; CELLS as usize]?;
        let held = vec![in alloc; false; CELLS as usize]?;
        Ok(Owner {
            seat,
            number,
            opened: false,
            read: false,
            lens,
            held,
        })
    }

    /// The first owner, whose scope is closed and who remembers no epoch, with how long the objects are that it uses, by its pointers. It
    /// holds none of them.
    pub(crate) fn knowing(seat: MutSeat<D>, lens: Vec<Option<u16>>, held: Vec<bool>) -> Owner<D>
        requires { Fits seat.view 0 false false lens.items held.items }
    {
        Owner {
            seat,
            number: 0,
            opened: false,
            read: false,
            lens,
            held,
        }
    }

    /// Its number among the owners.
    pub fn number(&self) -> u8
        ensures { result < MOST_MUTATORS }
    {
        self.number
    }

    /// The first of its pointers.
    pub fn first(&self) -> u16 {
        CELLS * self.number as u16
    }

    /// How long the object of a pointer is that it uses.
    pub fn used(&self, p: u16) -> Option<u16>
        ensures used { IfSome result (λ len. (p / CELLS ≡ self.now.number) × (slice_index_or self.now.lens.items (p % CELLS) None ≡ Some len)) }
    {
        if p / CELLS != self.number as u16 {
            return None;
        }
        self.lens[(p % CELLS) as usize]
    }

    /// Whether it holds the place of a pointer's object.
    pub fn holds(&self, p: u16) -> bool
        ensures held { result ≡ true → slice_index_or self.now.held.items (p % CELLS) false ≡ true }
        ensures free { result ≡ false → p / CELLS ≡ self.now.number → slice_index_or self.now.held.items (p % CELLS) false ≡ false }
    {
        p / CELLS == self.number as u16 && self.held[(p % CELLS) as usize]
    }

    /// Reads the epoch for the next scope. `None` while one is open.
    pub fn read_epoch(&mut self) -> Option<u64> {
        if self.opened {
            return None;
        }
        let epoch = self.seat.read_epoch();
        self.read = true;
        Some(epoch)
    }

    /// Opens the scope at the epoch that was read; whether it did.
    pub fn open(&mut self) -> bool {
        if self.opened || !self.read {
            return false;
        }
        self.seat.open();
        self.opened = true;
        true
    }

    /// Closes the scope; whether it was open.
    pub fn close(&mut self) -> bool {
        if !self.opened {
            return false;
        }
        self.seat.close();
        self.opened = false;
        self.read = false;
        self.held.fill(false);
        true
    }

    /// Pins a pointer's object: where it is held then, or the word that was found; [`Reply::Refused`] where the scope is closed, or the
    /// pointer isn't used, or it is held already.
    pub fn pin(&mut self, p: u16) -> Reply {
        if !self.opened || self.used(p).is_none() || self.holds(p) {
            return Reply::Refused;
        }
        match self.seat.pin(p) {
            Ok(place) => {
                self.held[(p % CELLS) as usize] = true;
                Reply::Held(place)
            }
            Err(word) => Reply::Word(word),
        }
    }

    /// Word `i` of an object that is held.
    pub fn load(&mut self, p: u16, i: u16) -> Option<u64> {
        let len = self.used(p)?;
        if !self.holds(p) || i >= words_for(len) {
            return None;
        }
        Some(self.seat.load(p, i))
    }

    /// Word `i` of an object that is held becomes this word, once it is soiled; whether it did: not where it has a byte past the object's end.
    pub fn store(&mut self, p: u16, i: u16, word: u64) -> bool {
        let Some(len) = self.used(p) else {
            return false;
        };
        if !self.holds(p) || i >= words_for(len) || !keeps_padding(len, i, word) {
            return false;
        }
        self.seat.soil(p);
        self.seat.store(p, i, word);
        true
    }

    /// Uses a pointer whose cell is in use from then on: the word that was found.
    pub fn adopt(&mut self, p: u16) -> Option<u64> {
        if p / CELLS != self.number as u16 || self.lens[(p % CELLS) as usize].is_some() {
            return None;
        }
        let word = self.seat.adopt(p)?;
        self.lens[(p % CELLS) as usize] = Some(len_in(word));
        Some(word)
    }

    /// Asks for an object to be moved, or drops it: the word that was found. `None` where the pointer isn't used, or is held, or for
    /// another mark.
    pub fn ask(&mut self, p: u16, mark: Mark) -> Option<u64> {
        if self.used(p).is_none() || self.holds(p) {
            return None;
        }
        match mark {
            Mark::Hot | Mark::Evac | Mark::Dirty => None,
            Mark::Moved => Some(self.seat.ask(p, Mark::Moved)),
            Mark::Dropped => {
                let word = self.seat.ask(p, Mark::Dropped);
                self.lens[(p % CELLS) as usize] = None;
                Some(word)
            }
        }
    }
}

/// The length that a word says; 0 where it says none.
pub(crate) fn len_in(word: u64) -> u16
    ensures { result ≡ said_len (read_of word) }
{
    match PtrWord::read(word) {
        Some(PtrWord::Near { len, .. } | PtrWord::Far { len, .. }) => len,
        Some(PtrWord::Free) | None => 0,
    }
}

// Whether a word leaves the bytes after an object's end 0.
fn keeps_padding(len: u16, i: u16, word: u64) -> bool
    requires { 8 * i < len }
    ensures { result ≡ keeps_padding len i word }
{
    let left = len - 8 * i;
    left >= 8 || word >> (8 * left) == 0
}
