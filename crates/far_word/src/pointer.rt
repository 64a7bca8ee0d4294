//! The pointer word: what the cell of a remoteable pointer says.

ghost use Rattle.std.specs.Prelude.{◌≡◌, IfSome, IsSome, Some, is_some};
ghost use Rattle.far_word.specs.declared.pointer.PtrWord.{PtrWord};
ghost use Rattle.far_word.specs.Mark.{bit_of};
ghost use Rattle.far_word.specs.Counts.{names_kept, names_near};
ghost use Rattle.far_word.specs.Pointer.{IsPtr, word_of, read_of, pointer_len, view_place, without_owner_marks};

use crate::field::{field, is_set};
use crate::mark::{DIRTY, Marks};
use crate::sizes::{LOG_WORDS, LONGEST, MOST_LOGS, size_of};

const DS: u32 = 16;

const AT: u32 = 24;

const LOG: u32 = 34;

const GAP: u32 = 42;

const USED: u32 = 58;

const PRESENT: u32 = 63;

// PRESENT alone, and PRESENT with the marks that keep a view away: EVAC, MOVE and DROP
const PRESENT_MASK: u64 = 0x8000_0000_0000_0000;

const VIEW_MASK: u64 = 0xb800_0000_0000_0000;

// all bits but those of HOT, MOVE and DROP, the marks that an owner may add
const ALL_BUT_OWNER_MARKS: u64 = 0xa7ff_ffff_ffff_ffff;

/// A log, and the word in it where an object's header stands.
#[derive(Clone, Copy, Debug, PartialEq, Eq)]
pub struct Place {
    /// The log's number, below [`MOST_LOGS`].
    pub log: u8,
    /// The header's word in the log, below [`LOG_WORDS`].
    pub at: u16,
}

/// What a pointer cell says.
#[derive(Clone, Copy, Debug, PartialEq, Eq)]
pub enum PtrWord {
    /// The cell is free.
    Free,
    /// The object lies in local memory. Its length is 1 to [`LONGEST`] bytes, and its span ends within its log.
    Near {
        len: u16,
        ds: u8,
        place: Place,
        marks: Marks,
    },
    /// The object lies on the far side. Its length is 1 to [`LONGEST`] bytes, and it has neither EVAC nor DIRTY.
    Far {
        len: u16,
        ds: u8,
        marks: Marks,
    },
}

impl PtrWord {
    /// The one word of a pointer that lies on the layout.
    pub fn pack(self) -> u64
        requires { IsPtr self }
        ensures { result ≡ word_of self }
    {
        match self {
            PtrWord::Free => 0,
            PtrWord::Near {
                len,
                ds,
                place,
                marks,
            } => {
                let low = len as u64 | (ds as u64) << DS;
                let placed = low | (place.at as u64) << AT | (place.log as u64) << LOG;
                let soiled = placed | (marks.dirty as u64) << DIRTY;
                soiled | 1 << USED | marks.pack() | 1 << PRESENT
            }
            PtrWord::Far { len, ds, marks } => {
                len as u64 | (ds as u64) << DS | 1 << USED | marks.pack()
            }
        }
    }

    /// What a word says. `None` exactly for the words off the layout.
    pub fn read(word: u64) -> Option<PtrWord>
        ensures exact { result ≡ read_of word }
        ensures found { IfSome result (λ v. IsPtr v × (word_of v ≡ word)) }
        ensures only { (v : PtrWord) → IsPtr v → word_of v ≡ word → result ≡ Some v }
    {
        PtrWord::decode(word)
    }

    #[tactic(auto, unfolding(crate::specs::Pointer::read_of))]
    fn decode(word: u64) -> Option<PtrWord>
        ensures { result ≡ read_of word }
    {
        if word == 0 {
            return Some(PtrWord::Free);
        }
        if !is_set(word, USED) || field(word, GAP, 15) != 0 {
            return None;
        }
        let len = field(word, 0, 16) as u16;
        if len == 0 || len > LONGEST {
            return None;
        }
        let ds = field(word, DS, 8) as u8;
        let log = field(word, LOG, 8) as u8;
        let at = field(word, AT, 10) as u16;
        let marks = Marks::read(word);
        if is_set(word, PRESENT) {
            if log < MOST_LOGS && at + size_of(len) <= LOG_WORDS {
                let place = Place { log, at };
                return Some(PtrWord::Near {
                    len,
                    ds,
                    place,
                    marks,
                });
            }
        } else if log == 0 && at == 0 && !marks.evac && !marks.dirty {
            return Some(PtrWord::Far { len, ds, marks });
        }
        None
    }

    /// What a word on the layout says: [`PtrWord::read`] of a word that is known to read, by its fields alone.
    #[inline]
    #[tactic(auto, unfolding(crate::specs::Pointer::read_of))]
    pub fn known(word: u64) -> PtrWord
        requires { IsSome (read_of word) }
        ensures { read_of word ≡ Some result }
    {
        if word == 0 {
            return PtrWord::Free;
        }
        let len = field(word, 0, 16) as u16;
        let ds = field(word, DS, 8) as u8;
        let marks = Marks::read(word);
        if !is_set(word, PRESENT) {
            return PtrWord::Far { len, ds, marks };
        }
        let (log, at) = (field(word, LOG, 8) as u8, field(word, AT, 10) as u16);
        let place = Place { log, at };
        PtrWord::Near {
            len,
            ds,
            place,
            marks,
        }
    }

    /// Where a new view may rest: the place of a near pointer with none of EVAC, MOVE and DROP.
    pub fn view_place(self) -> Option<Place>
        ensures { result ≡ view_place self }
    {
        match self {
            PtrWord::Near { place, marks, .. } if !(marks.evac || marks.moved || marks.dropped) => {
                Some(place)
            }
            _ => None,
        }
    }
}

/// Whether a new view may rest where the pointer of this word says, by one mask.
pub fn rests_view(word: u64) -> bool
    ensures { (v : PtrWord) → IsPtr v → word_of v ≡ word → (result ≡ is_some (view_place v)) }
{
    word & VIEW_MASK == PRESENT_MASK
}

/// Where a new view may rest, of a word on the layout, by one mask and two fields: what [`PtrWord::view_place`] answers of
/// what it reads as.
#[inline]
pub fn resting_place(word: u64) -> Option<Place>
    ensures { (v : PtrWord) → read_of word ≡ Some v → result ≡ view_place v }
{
    if !rests_view(word) {
        return None;
    }
    Some(Place {
        log: field(word, LOG, 8) as u8,
        at: field(word, AT, 10) as u16,
    })
}

/// The length of the object that a word on the layout names, near or far, by one field; 0 where the cell is free.
#[inline]
pub fn pointer_len(word: u64) -> u16
    ensures { (v : PtrWord) → read_of word ≡ Some v → result ≡ pointer_len v }
{
    let len = field(word, 0, 16);
    len as u16
}

/// What a word on the layout adds to the number of objects that aren't dropped, and to the number of those that lie near: 0
/// or 1 each, by one field and one bit.
#[inline]
pub fn object_counts(word: u64) -> (u64, u64)
    ensures kept { (v : PtrWord) → read_of word ≡ Some v → result.0 ≡ bit_of (names_kept v) }
    ensures near { (v : PtrWord) → read_of word ≡ Some v → result.1 ≡ bit_of (names_near v) }
{
    // USED without DROP
    let kept = u64::from(field(word, USED, 2) == 1);
    (kept, kept * (word >> PRESENT))
}

/// A pointer's word without the marks that its owner may add at any moment: HOT, MOVE and DROP.
pub fn without_owner_marks(word: u64) -> u64
    ensures { (v : PtrWord) → IsPtr v → word_of v ≡ word → result ≡ word_of (without_owner_marks v) }
{
    word & ALL_BUT_OWNER_MARKS
}
