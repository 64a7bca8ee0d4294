//! All entries folded, until a step is refused.

ghost use Rattle.std.specs.Prelude.{◌≡◌, ◌<◌, true, Ok, IfOk, IfErr, MatchOption, length};
ghost use Rattle.far_index.specs.Slots.{slot_at};
ghost use Rattle.far_map.specs.Slots.{Held, entries_in, entry_in};
ghost use Rattle.far_map.specs.Listed.{AreAllOf, FoldsUntil, GivesAt};

use crate::each::read_slot;
use crate::entry::split_entry;
use crate::map::Map;
use crate::parts::Parts;
use far_objects::Objects;
use far_word::Refused;

/// Makes the step of a slot's entry; none where it has no entry.
fn fold_slot<O: Objects + Drop, A: Drop, E, F: Fn(A, &[u8], &[u8]) -> Result<A, E>>(
    parts: &mut Parts<O>,
    place: usize,
    folded: A,
    f: &F,
) -> Result<Result<A, E>, Refused>
    requires within { place < length parts.old.near.slots }
    requires held { Held (O.far parts.old.worker) parts.old.near.slots }
    requires callable { F.IsAlwaysCallable f.now }
    ensures far { O.far parts.new.worker ≡ O.far parts.old.worker }
    ensures near { parts.new.near ≡ parts.old.near }
    ensures stepped { (O.far parts.old.worker).honest ≡ true → IfOk result (λ r. MatchOption (entry_in (O.far parts.old.worker).bytes (slot_at parts.old.near.slots place)) (r ≡ Ok folded) (λ e. GivesAt (F.post f.now) folded e.0 e.1 r)) }
    ensures why { IfErr result (O.unreached (O.far parts.old.worker).honest) }
{
    let len = match read_slot(parts, place) {
        Ok(Some(len)) => len,
        Ok(None) => return Ok(Ok(folded)),
        Err(why) => return Err(why),
    };
    let Some((key, value)) = split_entry(parts.buffer.part(len)) else {
        return Ok(Ok(folded));
    };
    Ok(f(folded, key, value))
}

/// Makes the steps of all slots' entries, in the order of the slots, until one is refused.
fn fold_slots<O: Objects + Drop, A: Drop, E, F: Fn(A, &[u8], &[u8]) -> Result<A, E>>(
    parts: &mut Parts<O>,
    first: A,
    f: &F,
) -> Result<Result<A, E>, Refused>
    requires held { Held (O.far parts.old.worker) parts.old.near.slots }
    requires callable { F.IsAlwaysCallable f.now }
    ensures far { O.far parts.new.worker ≡ O.far parts.old.worker }
    ensures near { parts.new.near ≡ parts.old.near }
    ensures folded { (O.far parts.old.worker).honest ≡ true → IfOk result (FoldsUntil (GivesAt (F.post f.now)) first (entries_in (O.far parts.old.worker).bytes parts.old.near.slots)) }
    ensures why { IfErr result (O.unreached (O.far parts.old.worker).honest) }
{
    let mut folded = first;
    for place in 0..parts.near.slots.len() {
        match fold_slot(parts, place, folded, f) {
            Ok(Ok(next)) => folded = next,
            Ok(Err(stop)) => return Ok(Err(stop)),
            Err(why) => return Err(why),
        }
    }
    Ok(Ok(folded))
}

impl<O: Objects + Drop> Map<O> {
    /// Folds the entries, each once, in no order that is told: `f` makes of what it made before, a key and its value what it is given next. What it made at
    /// last; or the first `Err` that it answered, after which it isn't called again.
    ///
    /// Refused as the worker's reads are.
    pub fn fold<A: Drop, E, F: Fn(A, &[u8], &[u8]) -> Result<A, E> + Drop>(
        &mut self,
        first: A,
        f: F,
    ) -> Result<Result<A, E>, Refused>
        requires { F.IsAlwaysCallable f }
        ensures same { self.new ≡ self.old }
        ensures folded { self.old.honest ≡ true → IfOk result (λ r. (told : _) × AreAllOf told self.old.entries × FoldsUntil (GivesAt (F.post f)) first told r) }
        ensures why { IfErr result (O.unreached self.old.honest) }
    {
        self.fold_with(first, &f)
    }

    /// The same with a closure that is lent.
    pub fn fold_with<A: Drop, E, F: Fn(A, &[u8], &[u8]) -> Result<A, E>>(
        &mut self,
        first: A,
        f: &F,
    ) -> Result<Result<A, E>, Refused>
        requires { F.IsAlwaysCallable f.now }
        ensures same { self.new ≡ self.old }
        ensures folded { self.old.honest ≡ true → IfOk result (λ r. (told : _) × AreAllOf told self.old.entries × FoldsUntil (GivesAt (F.post f.now)) first told r) }
        ensures why { IfErr result (O.unreached self.old.honest) }
    {
        fold_slots(&mut self.parts, first, f)
    }
}
