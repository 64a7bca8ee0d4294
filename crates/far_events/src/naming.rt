//! The forms of a naming: what its old and its new word say, taken together.

ghost use Rattle.std.specs.Prelude.{◌≡◌, IfSome, Some};
ghost use Rattle.far_word.specs.Pointer.{IsPtr, read_of};
ghost use Rattle.far_events.specs.declared.naming.Naming.{Naming};
ghost use Rattle.far_events.specs.events.Naming.{naming_of, near_form, IsNaming, IsOnLayout, is_kept, is_stay, is_unmarked};

use far_word::{Marks, Place, PtrWord};

/// What a naming does with its pointer, by its old and its new word alone.
#[derive(Clone, Copy, Debug, PartialEq, Eq)]
pub enum Naming {
    /// A free cell gets an object of `len` bytes of a data structure, near at a place, with DIRTY alone.
    Places {
        len: u16,
        ds: u8,
        place: Place,
    },
    /// The cell of a dropped object is free again.
    Retires,
    /// A near object with EVAC, not dropped, goes far: `len` bytes at a place are stored.
    Evicts {
        len: u16,
        place: Place,
    },
    /// A near object with MOVE and without EVAC, not dropped, stays where it lies and loses its marks but
    /// DIRTY.
    Stays,
    /// A near object that isn't dropped goes from one place to another, and has no marks there but DIRTY, if
    /// it had that.
    Moves {
        len: u16,
        ds: u8,
        from: Place,
        to: Place,
    },
    /// A far object that isn't dropped comes to a place, and has no marks there.
    Fetches {
        len: u16,
        ds: u8,
        place: Place,
    },
}

impl Naming {
    /// The form that two words make; `None` where they make none.
    pub fn of(old: u64, new: u64) -> Option<Naming>
        ensures value { result ≡ naming_of (read_of old) (read_of new) }
        ensures says { IfSome result (λ form. IsNaming form (read_of old) (read_of new)) }
        ensures only { (form : Naming) → IsNaming form (read_of old) (read_of new) → result ≡ Some form }
        ensures layout { IfSome result IsOnLayout }
    {
        Naming::decide(old, new)
    }

    fn decide(old: u64, new: u64) -> Option<Naming>
        ensures value { result ≡ naming_of (read_of old) (read_of new) }
        ensures layout { IfSome result IsOnLayout }
    {
        let old = PtrWord::read(old)?;
        match PtrWord::read(new)? {
            PtrWord::Free => to_free(old),
            PtrWord::Near {
                len,
                ds,
                place,
                marks,
            } => to_near(old, len, ds, place, marks),
            PtrWord::Far { len, ds, marks } => to_far(old, len, ds, marks),
        }
    }
}

/// The form in which a cell becomes free.
fn to_free(old: PtrWord) -> Option<Naming>
    ensures value { result ≡ naming_of (Some old) (Some PtrWord.Free) }
    ensures layout { IfSome result IsOnLayout }
{
    match old {
        PtrWord::Near { marks, .. } | PtrWord::Far { marks, .. } => {
            if marks.dropped {
                Some(Naming::Retires)
            } else {
                None
            }
        }
        PtrWord::Free => None,
    }
}

/// The form in which an object comes to a place.
fn to_near(old: PtrWord, len: u16, ds: u8, place: Place, marks: Marks) -> Option<Naming>
    requires old { IsPtr old }
    requires new { IsPtr (PtrWord.Near len ds place marks) }
    ensures value { result ≡ naming_of (Some old) (Some (PtrWord.Near len ds place marks)) }
    ensures layout { IfSome result IsOnLayout }
{
    match old {
        PtrWord::Free => {
            if is_unmarked(true, marks) {
                Some(Naming::Places { len, ds, place })
            } else {
                None
            }
        }
        PtrWord::Near {
            len: n,
            ds: d,
            place: from,
            marks: k,
        } => {
            if is_kept(k.dirty, k, marks, n, len, d, ds) {
                near_form(n, d, from, place, k)
            } else {
                None
            }
        }
        PtrWord::Far {
            len: n,
            ds: d,
            marks: k,
        } => {
            if is_kept(false, k, marks, n, len, d, ds) {
                Some(Naming::Fetches {
                    len: n,
                    ds: d,
                    place,
                })
            } else {
                None
            }
        }
    }
}

/// The form in which an object goes far.
fn to_far(old: PtrWord, len: u16, ds: u8, marks: Marks) -> Option<Naming>
    ensures value { result ≡ naming_of (Some old) (Some (PtrWord.Far len ds marks)) }
    ensures layout { IfSome result IsOnLayout }
{
    match old {
        PtrWord::Near {
            len: n,
            ds: d,
            place,
            marks: k,
        } => {
            if is_kept(false, k, marks, n, len, d, ds) && k.evac {
                Some(Naming::Evicts { len: n, place })
            } else {
                None
            }
        }
        PtrWord::Free | PtrWord::Far { .. } => None,
    }
}

/// The form of two near words of one object.
fn near_form(len: u16, ds: u8, from: Place, to: Place, marks: Marks) -> Option<Naming>
    requires from { IsPtr (PtrWord.Near len ds from marks) }
    requires to { IsPtr (PtrWord.Near len ds to marks) }
    ensures value { result ≡ near_form len ds from to marks }
    ensures layout { IfSome result IsOnLayout }
{
    if is_stay(from, to, marks) {
        Some(Naming::Stays)
    } else {
        Some(Naming::Moves { len, ds, from, to })
    }
}

/// Whether two words are of one object, that isn't dropped, and the new one has no marks but DIRTY, and that as said.
fn is_kept(dirty: bool, old: Marks, new: Marks, len: u16, new_len: u16, ds: u8, new_ds: u8) -> bool
    ensures { result ≡ is_kept dirty old new len new_len ds new_ds }
{
    len == new_len && ds == new_ds && !old.dropped && is_unmarked(dirty, new)
}

/// Whether an object may stay where it lies: its owner has asked for a move, and the book doesn't want its log.
fn is_stay(from: Place, to: Place, marks: Marks) -> bool
    ensures { result ≡ is_stay from to marks }
{
    from.log == to.log && from.at == to.at && marks.moved && !marks.evac
}

/// Whether none of the marks is set but DIRTY, and that as said.
fn is_unmarked(dirty: bool, marks: Marks) -> bool
    ensures { result ≡ is_unmarked dirty marks }
{
    !(marks.hot || marks.evac || marks.moved || marks.dropped)
        && if dirty { marks.dirty } else { !marks.dirty }
}
