//! A line is put into far objects.

ghost use Rattle.std.specs.Prelude.{◌≡◌, ◌<◌, ◌⊎◌, true, IfErr, IfOk, OnErr, length};
ghost use Rattle.far_objects.specs.Far.{is_length};
ghost use Rattle.far_large.specs.Parts.{AsBefore};
ghost use Rattle.far_seen.specs.Stored.{Put, Stored, with_longs};

use crate::parts::Store;
use crate::read::LONG;
use far_large::Large;
use far_objects::{MOST, Objects};
use far_word::Refused;

/// For how many short lines there would be room in place of a long one: each of its objects counts as one, and 4 are for its place in the
/// list of long lines and the numbers of its objects.
fn room_of(len: usize) -> usize
    ensures { 0 < result }
{
    len.saturating_sub(1) / MOST + 5
}

/// Puts a line that fits an object into one.
fn place_short<O: Objects + Drop>(store: &mut Store<O>, line: &[u8]) -> Result<u32, Refused>
    requires stored { Stored (O.far store.old.worker) store.old.longs.items }
    requires fits { is_length (length line.now) ≡ true }
    ensures stored { Stored (O.far store.new.worker) store.new.longs.items }
    ensures put { IfOk result (λ h. Put h line.now (with_longs (O.far store.old.worker) store.old.longs.items) (with_longs (O.far store.new.worker) store.new.longs.items)) }
    ensures refused { OnErr result (AsBefore (O.far store.old.worker) (O.far store.new.worker)) }
    ensures longs { OnErr result (store.new.longs.items ≡ store.old.longs.items) }
    ensures why { IfErr result (λ why. (why ≡ Refused.Memory) ⊎ O.unmade why) }
{
    if store.room == 0 {
        return Err(Refused::Memory);
    }
    let number = match store.worker.alloc(line) {
        Ok(number) => number,
        Err(why) => return Err(why),
    };
    if number < LONG {
        store.room -= 1;
        return Ok(number);
    }
    let _ = store.worker.drop_object(number);
    Err(Refused::Memory)
}

/// Puts a line into several objects, whose numbers lie near: room for these is made before.
fn place_long<O: Objects + Drop>(store: &mut Store<O>, line: &[u8]) -> Result<u32, Refused>
    requires stored { Stored (O.far store.old.worker) store.old.longs.items }
    requires some { 0 < length line.now }
    ensures stored { Stored (O.far store.new.worker) store.new.longs.items }
    ensures put { IfOk result (λ h. Put h line.now (with_longs (O.far store.old.worker) store.old.longs.items) (with_longs (O.far store.new.worker) store.new.longs.items)) }
    ensures refused { OnErr result (AsBefore (O.far store.old.worker) (O.far store.new.worker)) }
    ensures longs { OnErr result (store.new.longs.items ≡ store.old.longs.items) }
    ensures why { IfErr result (λ why. (why ≡ Refused.Memory) ⊎ O.unmade why) }
{
    let room = room_of(line.len());
    if room > store.room || store.longs.len() >= LONG as usize {
        return Err(Refused::Memory);
    }
    let Ok(()) = store.longs.reserve(1) else {
        return Err(Refused::Memory);
    };
    match Large::put(store.alloc, &mut store.worker, line) {
        Ok(large) => {
            let number = LONG + store.longs.len() as u32;
            store.room -= room;
            store.longs.push_reserved(large);
            Ok(number)
        }
        Err(why) => Err(why),
    }
}

/// Puts a line, of which there is none, and answers the number that stands for it.
pub fn put_line<O: Objects + Drop>(store: &mut Store<O>, line: &[u8]) -> Result<u32, Refused>
    requires stored { Stored (O.far store.old.worker) store.old.longs.items }
    requires some { 0 < length line.now }
    ensures stored { Stored (O.far store.new.worker) store.new.longs.items }
    ensures put { IfOk result (λ h. Put h line.now (with_longs (O.far store.old.worker) store.old.longs.items) (with_longs (O.far store.new.worker) store.new.longs.items)) }
    ensures refused { OnErr result (AsBefore (O.far store.old.worker) (O.far store.new.worker)) }
    ensures longs { OnErr result (store.new.longs.items ≡ store.old.longs.items) }
    ensures why { IfErr result (λ why. (why ≡ Refused.Memory) ⊎ O.unmade why) }
{
    if line.len() > MOST {
        place_long(store, line)
    } else {
        place_short(store, line)
    }
}
