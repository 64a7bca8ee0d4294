//! How a cell gets a new word while owners add marks to it.

ghost use Rattle.std.specs.Prelude.{◌≡◌, ◌*◌, ◌^◌, ◌<◌, false, IsSome};
ghost use Rattle.far_word.specs.declared.sizes.TheConstants.{CELLS};
ghost use Rattle.far_word.specs.Pointer.{read_of, IsPtr};
ghost use Rattle.far_events.specs.events.Naming.{is_dropped, no_marks};
ghost use Rattle.far_events.specs.state.Law.{is_dirty};
ghost use Rattle.far_word.specs.declared.pointer.PtrWord.TheVariants.{Near as near_at};
ghost use Rattle.far_book.specs.book.Renaming.{MayRename, MayRenameNear, Renames, RenamesNear, stops};

use crate::book::words::near_word;
use far_hand::Near;
use far_word::{Place, PtrWord};

/// Gives a cell a new word, by the word that was last found there. `Err` with the word that was found, where it has DROP, or
/// DIRTY where the last one had none.
#[inline(always)]
pub(crate) fn rename<N: Near>(near: &mut N, pointer: u16, found: u64, new: u64) -> Result<(), u64>
    requires pointer { pointer < CELLS * (N.view near.old).mutators }
    requires found { found ≡ (N.view near.old).cell pointer }
    requires readable { IsSome (read_of found) }
    requires alive { is_dropped (read_of found) ≡ false }
    requires may { MayRename (N.view near.old) pointer new }
    ensures { Renames N.still N.view N.makes near.old near.new pointer found new result }
{
    match near.name(pointer, found, new) {
        Ok(()) => Ok(()),
        Err(other) => {
            if stops(found, other) {
                return Err(other);
            }
            rename_marked(near, pointer, other, new)
        }
    }
}

/// Gives the cell of an object that stays near a word without marks but DIRTY, which stays as it is: by the word that was last
/// found there, or one that is found with DIRTY more. `Err` with the word that was found, where its owner has dropped the
/// object meanwhile.
#[inline(always)]
pub(crate) fn rename_near<N: Near>(
    near: &mut N,
    pointer: u16,
    found: u64,
    len: u16,
    ds: u8,
    place: Place,
) -> Result<(), u64>
    requires pointer { pointer < CELLS * (N.view near.old).mutators }
    requires found { found ≡ (N.view near.old).cell pointer }
    requires readable { IsSome (read_of found) }
    requires alive { is_dropped (read_of found) ≡ false }
    requires layout { IsPtr (near_at len ds place no_marks) }
    requires may { MayRenameNear (N.view near.old) pointer len ds place }
    ensures { RenamesNear N.still N.view N.makes near.old near.new pointer found len ds place result }
{
    let new = near_word(is_dirty(found), len, ds, place);
    let Err(word) = rename(near, pointer, found, new) else {
        return Ok(());
    };
    if is_dropped(word) {
        return Err(word);
    }
    // Its owner soiled the object before it was quiet, and only now DIRTY is found.
    rename(near, pointer, word, near_word(true, len, ds, place))
}

// As `rename`, if marks were just found added: the exchange is tried again as often as more of them are found.
#[cold]
fn rename_marked<N: Near>(near: &mut N, pointer: u16, found: u64, new: u64) -> Result<(), u64>
    requires pointer { pointer < CELLS * (N.view near.old).mutators }
    requires found { found ≡ (N.view near.old).cell pointer }
    requires readable { IsSome (read_of found) }
    requires alive { is_dropped (read_of found) ≡ false }
    requires may { MayRename (N.view near.old) pointer new }
    ensures { Renames N.still N.view N.makes near.old near.new pointer found new result }
{
    let mut word = found;
    for _ in 0..4u8 {
        match near.name(pointer, word, new) {
            Ok(()) => return Ok(()),
            Err(more) => {
                if stops(word, more) {
                    return Err(more);
                }
                word = more;
            }
        }
    }
    // Each try found HOT or MOVE added, and each of them can be added once; DIRTY is as it was.
    unreachable!()
}

/// Whether a naming by a word ends where another is found: that has DROP, or DIRTY that the first hadn't.
pub(crate) fn stops(known: u64, found: u64) -> bool
    requires known { IsSome (read_of known) }
    requires found { IsSome (read_of found) }
    ensures value { result ≡ stops (read_of known) (read_of found) }
    ensures fits { found < 2 ^ 64 }
{
    is_dropped(found) || (is_dirty(found) && !is_dirty(known))
}

/// Whether a near word has DIRTY.
pub(crate) fn is_dirty(word: u64) -> bool
    requires { IsSome (read_of word) }
    ensures { result ≡ is_dirty (read_of word) }
{
    match PtrWord::known(word) {
        PtrWord::Near { marks, .. } => marks.dirty,
        PtrWord::Free | PtrWord::Far { .. } => false,
    }
}

/// Whether a word says that its object was dropped.
pub(crate) fn is_dropped(word: u64) -> bool
    requires { IsSome (read_of word) }
    ensures value { result ≡ is_dropped (read_of word) }
    ensures fits { word < 2 ^ 64 }
{
    match PtrWord::known(word) {
        PtrWord::Near { marks, .. } | PtrWord::Far { marks, .. } => marks.dropped,
        PtrWord::Free => false,
    }
}
