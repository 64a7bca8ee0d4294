//! All entries, one after the other.

ghost use Rattle.std.specs.Prelude.{◌≡◌, ◌<◌, ◌≤◌, true, None, Some, IfOk, IfErr, IfSome, OnOk, MatchOption, length, take};
ghost use Rattle.std.specs.Fn.{CalledAtTwo};
ghost use Rattle.far_objects.specs.declared.objects.TheConstants.{MOST as most};
ghost use Rattle.far_index.specs.Slots.{slot_at};
ghost use Rattle.far_map.specs.Entries.{decoded};
ghost use Rattle.far_map.specs.Slots.{Held, entries_in, entry_in};
ghost use Rattle.far_map.specs.Listed.{AreAllOf, StepsAtEach};

use crate::entry::split_entry;
use crate::map::Map;
use crate::parts::Parts;
use far_index::Slot;
use far_objects::Objects;
use far_word::Refused;

/// Reads an object to the front of the buffer. How many bytes it has.
fn read_object<O: Objects + Drop>(
    parts: &mut Parts<O>,
    number: u32,
) -> Result<Option<usize>, Refused>
    requires held { (n : _) × ((O.far parts.old.worker).sizes number ≡ Some n) }
    ensures far { O.far parts.new.worker ≡ O.far parts.old.worker }
    ensures near { parts.new.near ≡ parts.old.near }
    ensures within { IfOk result (λ r. IfSome r (λ len. len ≤ most)) }
    ensures read { (O.far parts.old.worker).honest ≡ true → IfOk result (λ r. MatchOption r ⊥ (λ len. (O.far parts.old.worker).bytes number ≡ Some (take len parts.new.buffer))) }
    ensures why { IfErr result (O.unreached (O.far parts.old.worker).honest) }
{
    let Some(len) = parts.worker.len_of(number) else {
        return Ok(None);
    };
    match parts.buffer.fill(&mut parts.worker, number, len) {
        Ok(()) => Ok(Some(len)),
        Err(why) => Err(why),
    }
}

/// Reads the entry of a slot to the front of the buffer. How many bytes it has; none where the slot has no entry.
pub fn read_slot<O: Objects + Drop>(
    parts: &mut Parts<O>,
    place: usize,
) -> Result<Option<usize>, Refused>
    requires within { place < length parts.old.near.slots }
    requires held { Held (O.far parts.old.worker) parts.old.near.slots }
    ensures far { O.far parts.new.worker ≡ O.far parts.old.worker }
    ensures near { parts.new.near ≡ parts.old.near }
    ensures within { IfOk result (λ r. IfSome r (λ len. len ≤ most)) }
    ensures read { (O.far parts.old.worker).honest ≡ true → IfOk result (λ r. MatchOption r (entry_in (O.far parts.old.worker).bytes (slot_at parts.old.near.slots place) ≡ None) (λ len. entry_in (O.far parts.old.worker).bytes (slot_at parts.old.near.slots place) ≡ decoded (take len parts.new.buffer))) }
    ensures why { IfErr result (O.unreached (O.far parts.old.worker).honest) }
{
    match parts.near.slots.at(place) {
        Slot::Full(_tag, number) => read_object(parts, number),
        _ => Ok(None),
    }
}

/// Calls `visit` at the entry of a slot, if it has one.
fn visit_slot<O: Objects + Drop, F: FnMut(&[u8], &[u8])>(
    parts: &mut Parts<O>,
    place: usize,
    visit: &mut F,
) -> Result<(), Refused>
    requires within { place < length parts.old.near.slots }
    requires held { Held (O.far parts.old.worker) parts.old.near.slots }
    requires callable { F.IsAlwaysCallable visit.old }
    ensures callable { F.IsAlwaysCallable visit.new }
    ensures far { O.far parts.new.worker ≡ O.far parts.old.worker }
    ensures near { parts.new.near ≡ parts.old.near }
    ensures called { (O.far parts.old.worker).honest ≡ true → OnOk result (MatchOption (entry_in (O.far parts.old.worker).bytes (slot_at parts.old.near.slots place)) (visit.new ≡ visit.old) (λ e. CalledAtTwo F.FnMut visit.old e.0 e.1 tt visit.new)) }
    ensures why { IfErr result (O.unreached (O.far parts.old.worker).honest) }
{
    let len = match read_slot(parts, place) {
        Ok(Some(len)) => len,
        Ok(None) => return Ok(()),
        Err(why) => return Err(why),
    };
    let Some((key, value)) = split_entry(parts.buffer.part(len)) else {
        return Ok(());
    };
    visit(key, value);
    Ok(())
}

/// Calls `visit` at the entries of all slots, in the order of the slots.
fn visit_slots<O: Objects + Drop, F: FnMut(&[u8], &[u8])>(
    parts: &mut Parts<O>,
    visit: &mut F,
) -> Result<(), Refused>
    requires held { Held (O.far parts.old.worker) parts.old.near.slots }
    requires callable { F.IsAlwaysCallable visit.old }
    ensures callable { F.IsAlwaysCallable visit.new }
    ensures far { O.far parts.new.worker ≡ O.far parts.old.worker }
    ensures near { parts.new.near ≡ parts.old.near }
    ensures called { (O.far parts.old.worker).honest ≡ true → OnOk result (StepsAtEach (λ p k v q. CalledAtTwo F.FnMut p k v tt q) visit.old (entries_in (O.far parts.old.worker).bytes parts.old.near.slots) visit.new) }
    ensures why { IfErr result (O.unreached (O.far parts.old.worker).honest) }
{
    for place in 0..parts.near.slots.len() {
        match visit_slot(parts, place, visit) {
            Ok(()) => {}
            Err(why) => return Err(why),
        }
    }
    Ok(())
}

impl<O: Objects + Drop> Map<O> {
    /// Calls `visit` with the key and the value of each entry once, in no order that is told.
    ///
    /// Refused as the worker's reads are; then `visit` may have been called at some of them.
    pub fn for_each<F: FnMut(&[u8], &[u8])>(&mut self, mut visit: F) -> Result<(), Refused>
        requires { F.IsAlwaysCallable visit }
        ensures same { self.new ≡ self.old }
        ensures called { self.old.honest ≡ true → OnOk result ((told : _) × AreAllOf told self.old.entries × (last : F) × StepsAtEach (λ p k v q. CalledAtTwo F.FnMut p k v tt q) visit told last) }
        ensures why { IfErr result (O.unreached self.old.honest) }
    {
        self.for_each_with(&mut visit)
    }

    /// The same with a closure that is lent.
    pub fn for_each_with<F: FnMut(&[u8], &[u8])>(&mut self, visit: &mut F) -> Result<(), Refused>
        requires { F.IsAlwaysCallable visit.old }
        ensures callable { F.IsAlwaysCallable visit.new }
        ensures same { self.new ≡ self.old }
        ensures called { self.old.honest ≡ true → OnOk result ((told : _) × AreAllOf told self.old.entries × StepsAtEach (λ p k v q. CalledAtTwo F.FnMut p k v tt q) visit.old told visit.new) }
        ensures why { IfErr result (O.unreached self.old.honest) }
    {
        visit_slots(&mut self.parts, visit)
    }
}
