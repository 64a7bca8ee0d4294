//! Calls of a map that is open.

ghost use Rattle.std.specs.Prelude.{◌≡◌, ◌≢◌, ◌<◌, ◌-◌, ◌^◌, ◌&&◌, nat_le, [], true, false, min, None, Some, IsSome, IfSome, length, take, drop};
ghost use Rattle.std.specs.FinMap as fin;
ghost use Rattle.std.specs.Option.{IsSomeAnd};
ghost use Rattle.far_private.specs.Heap.{IsOutside};
ghost use Rattle.far_private.specs.Numbered.{IsNoPlace};
ghost use Rattle.far_dict.specs.Causes.{IsWhyPut, is_key};
ghost use Rattle.far_map.specs.Listed.{AreAllOf};
ghost use Rattle.far_c.specs.Told.{IsToldBy};
ghost use Rattle.far_c.specs.Telling.{KeepsFirst, SameEntries, TellsFirst};
ghost use Rattle.far_c.specs.declared.status.TheConstants.{FAR_CLOSED, FAR_END, FAR_LENGTH, FAR_MEMORY, FAR_NO_KEY, FAR_OK, FAR_SHORT};

use crate::map_handle::{FarMap, give_map, take_map_out};
use crate::statistics::FarStatistics;
use crate::status::{FAR_CLOSED, FAR_END, FAR_MEMORY, FAR_NO_KEY, FAR_OK, FAR_SHORT, status_of};
use std::alloc::Global;

// Whether there is room for both.
fn has_room(key: usize, key_room: usize, value: usize, value_room: usize) -> bool
    ensures { result ≡ (nat_le key key_room && nat_le value value_room) }
{
    key <= key_room && value <= value_room
}

/// Gives a key a value. No entry is left to be told then.
#[unsafe(no_mangle)]
pub extern "C" fn far_map_put(alloc: Global, map: &mut FarMap, key: &[u8], value: &[u8]) -> i32
    ensures put { result ≡ FAR_OK → IsSomeAnd map.old.held.kept (λ m. map.new.held.kept ≡ Some record { entries = fin.insert m.entries key.now value.now; rest = [] }) }
    ensures left { result ≢ FAR_OK → SameEntries map.old.held.kept map.new.held.kept }
    ensures ended { IfSome map.new.held.kept (λ m. m.rest ≡ []) }
    ensures long { IsSome map.old.held.kept → is_key key.now ≡ false → result ≡ FAR_LENGTH }
    ensures why { result ≢ FAR_OK → IfSome map.old.held.kept (λ m. IsToldBy (IsWhyPut IsNoPlace IsOutside true (is_key key.now)) result) }
    ensures closed { map.old.held.kept ≡ None → result ≡ FAR_CLOSED }
{
    match take_map_out(map, alloc) {
        Some(mut it) => {
            let done = it.put(key, value);
            give_map(map, it);
            match done {
                Ok(_) => FAR_OK,
                Err(why) => status_of(why),
            }
        }
        None => FAR_CLOSED,
    }
}

/// Reads a key's value. What lies in `out` behind it stays.
#[unsafe(no_mangle)]
pub extern "C" fn far_map_get(
    alloc: Global,
    map: &mut FarMap,
    key: &[u8],
    out: &mut [u8],
    len: &mut usize,
) -> i32
    ensures same { map.new.held.kept ≡ map.old.held.kept }
    ensures got { result ≡ FAR_OK → IsSomeAnd map.old.held.kept (λ m. IsSomeAnd (fin.get m.entries key.now) (λ value. (len.new ≡ length value) × (take (length value) out.new ≡ value))) }
    ensures short { result ≡ FAR_SHORT → IsSomeAnd map.old.held.kept (λ m. IsSomeAnd (fin.get m.entries key.now) (λ value. (len.new ≡ length value) × (length out.old < length value) × (out.new ≡ out.old))) }
    ensures none { result ≡ FAR_NO_KEY → IfSome map.old.held.kept (λ m. fin.get m.entries key.now ≡ None) }
    ensures behind { drop len.new out.new ≡ drop len.new out.old }
    ensures left { result ≢ FAR_OK → result ≢ FAR_SHORT → (len.new ≡ len.old) × (out.new ≡ out.old) }
    ensures why { result ≢ FAR_OK → result ≢ FAR_SHORT → result ≢ FAR_NO_KEY → IfSome map.old.held.kept (λ m. IsToldBy (IsOutside true) result) }
    ensures closed { map.old.held.kept ≡ None → result ≡ FAR_CLOSED }
{
    match take_map_out(map, alloc) {
        Some(mut it) => {
            let room = out.len();
            let done = it.get(key, out);
            give_map(map, it);
            match done {
                Ok(Some(all)) => {
                    *len = all;
                    if all > room { FAR_SHORT } else { FAR_OK }
                }
                Ok(None) => FAR_NO_KEY,
                Err(why) => status_of(why),
            }
        }
        None => FAR_CLOSED,
    }
}

/// Takes a key and its value out.
#[unsafe(no_mangle)]
pub extern "C" fn far_map_remove(alloc: Global, map: &mut FarMap, key: &[u8]) -> i32
    ensures removed { result ≡ FAR_OK → IsSomeAnd map.old.held.kept (λ m. (fin.contains_key m.entries key.now ≡ true) × (map.new.held.kept ≡ Some record { entries = fin.remove m.entries key.now; rest = [] })) }
    ensures left { result ≢ FAR_OK → SameEntries map.old.held.kept map.new.held.kept }
    ensures ended { IfSome map.new.held.kept (λ m. m.rest ≡ []) }
    ensures none { result ≡ FAR_NO_KEY → IfSome map.old.held.kept (λ m. fin.contains_key m.entries key.now ≡ false) }
    ensures why { result ≢ FAR_OK → result ≢ FAR_NO_KEY → IfSome map.old.held.kept (λ m. IsToldBy (IsOutside true) result) }
    ensures closed { map.old.held.kept ≡ None → result ≡ FAR_CLOSED }
{
    match take_map_out(map, alloc) {
        Some(mut it) => {
            let done = it.remove(key);
            give_map(map, it);
            match done {
                Ok(true) => FAR_OK,
                Ok(false) => FAR_NO_KEY,
                Err(why) => status_of(why),
            }
        }
        None => FAR_CLOSED,
    }
}

/// Whether there is a key.
#[unsafe(no_mangle)]
pub extern "C" fn far_map_holds(alloc: Global, map: &mut FarMap, key: &[u8]) -> i32
    ensures same { map.new.held.kept ≡ map.old.held.kept }
    ensures there { result ≡ FAR_OK → IsSomeAnd map.old.held.kept (λ m. fin.contains_key m.entries key.now ≡ true) }
    ensures none { result ≡ FAR_NO_KEY → IfSome map.old.held.kept (λ m. fin.contains_key m.entries key.now ≡ false) }
    ensures why { result ≢ FAR_OK → result ≢ FAR_NO_KEY → IfSome map.old.held.kept (λ m. IsToldBy (IsOutside true) result) }
    ensures closed { map.old.held.kept ≡ None → result ≡ FAR_CLOSED }
{
    match take_map_out(map, alloc) {
        Some(mut it) => {
            let done = it.contains_key(key);
            give_map(map, it);
            match done {
                Ok(true) => FAR_OK,
                Ok(false) => FAR_NO_KEY,
                Err(why) => status_of(why),
            }
        }
        None => FAR_CLOSED,
    }
}

/// How many entries there are.
#[unsafe(no_mangle)]
pub extern "C" fn far_map_length(alloc: Global, map: &mut FarMap, len: &mut usize) -> i32
    ensures same { map.new.held.kept ≡ map.old.held.kept }
    ensures told { result ≡ FAR_OK → IsSomeAnd map.old.held.kept (λ m. len.new ≡ min (fin.len m.entries) (2 ^ 64 - 1)) }
    ensures open { IsSome map.old.held.kept → result ≡ FAR_OK }
    ensures closed { map.old.held.kept ≡ None → (result ≡ FAR_CLOSED) × (len.new ≡ len.old) }
{
    match take_map_out(map, alloc) {
        Some(it) => {
            *len = it.len();
            give_map(map, it);
            FAR_OK
        }
        None => FAR_CLOSED,
    }
}

/// Drops all entries.
#[unsafe(no_mangle)]
pub extern "C" fn far_map_clear(alloc: Global, map: &mut FarMap) -> i32
    ensures empty { result ≡ FAR_OK → map.new.held.kept ≡ Some record { entries = fin.empty; rest = [] } }
    ensures left { result ≢ FAR_OK → map.new.held.kept ≡ map.old.held.kept }
    ensures open { IsSome map.old.held.kept → result ≡ FAR_OK }
    ensures closed { map.old.held.kept ≡ None → result ≡ FAR_CLOSED }
{
    match take_map_out(map, alloc) {
        Some(mut it) => {
            it.clear();
            give_map(map, it);
            FAR_OK
        }
        None => FAR_CLOSED,
    }
}

/// From now on all entries are to be told.
#[unsafe(no_mangle)]
pub extern "C" fn far_map_begin(alloc: Global, map: &mut FarMap) -> i32
    ensures begun { result ≡ FAR_OK → IsSomeAnd map.old.held.kept (λ m. IsSomeAnd map.new.held.kept (λ n. (n.entries ≡ m.entries) × AreAllOf n.rest m.entries)) }
    ensures left { result ≢ FAR_OK → map.new.held.kept ≡ map.old.held.kept }
    ensures why { result ≢ FAR_OK → IsSome map.old.held.kept → result ≡ FAR_MEMORY }
    ensures closed { map.old.held.kept ≡ None → result ≡ FAR_CLOSED }
{
    match take_map_out(map, alloc) {
        Some(mut it) => {
            let done = it.begin();
            give_map(map, it);
            match done {
                Ok(()) => FAR_OK,
                Err(_) => FAR_MEMORY,
            }
        }
        None => FAR_CLOSED,
    }
}

/// Tells an entry that wasn't told yet. What lies in the buffers behind it stays.
#[unsafe(no_mangle)]
#[tactic(auto, using(crate::proofs::Telling::told_first, crate::proofs::Telling::told_short, crate::proofs::Telling::told_none))]
pub extern "C" fn far_map_next(
    alloc: Global,
    map: &mut FarMap,
    key: &mut [u8],
    key_len: &mut usize,
    value: &mut [u8],
    value_len: &mut usize,
) -> i32
    ensures same { SameEntries map.old.held.kept map.new.held.kept }
    ensures told { result ≡ FAR_OK → IsSomeAnd map.old.held.kept (λ m. IsSomeAnd map.new.held.kept (λ n. TellsFirst m.rest key_len.new value_len.new key.new value.new n.rest)) }
    ensures short { result ≡ FAR_SHORT → IsSomeAnd map.old.held.kept (λ m. IsSomeAnd map.new.held.kept (λ n. KeepsFirst m.rest key_len.new value_len.new (length key.old) (length value.old) n.rest)) }
    ensures end { result ≡ FAR_END → IfSome map.old.held.kept (λ m. m.rest ≡ []) }
    ensures behind { (drop key_len.new key.new ≡ drop key_len.new key.old) × (drop value_len.new value.new ≡ drop value_len.new value.old) }
    ensures left { result ≢ FAR_OK → result ≢ FAR_SHORT → (map.new.held.kept ≡ map.old.held.kept) × (key_len.new ≡ key_len.old) × (value_len.new ≡ value_len.old) }
    ensures kept { result ≢ FAR_OK → result ≢ FAR_SHORT → (key.new ≡ key.old) × (value.new ≡ value.old) }
    ensures why { result ≢ FAR_OK → result ≢ FAR_SHORT → result ≢ FAR_END → IfSome map.old.held.kept (λ m. IsToldBy (IsOutside true) result) }
    ensures closed { map.old.held.kept ≡ None → result ≡ FAR_CLOSED }
{
    match take_map_out(map, alloc) {
        Some(mut it) => {
            let key_room = key.len();
            let value_room = value.len();
            let done = it.next(key, value);
            give_map(map, it);
            match done {
                Ok(Some((of_key, of_value))) => {
                    *key_len = of_key;
                    *value_len = of_value;
                    if has_room(of_key, key_room, of_value, value_room) {
                        FAR_OK
                    } else {
                        FAR_SHORT
                    }
                }
                Ok(None) => FAR_END,
                Err(why) => status_of(why),
            }
        }
        None => FAR_CLOSED,
    }
}

/// What the map's two workers have, and what they have done.
#[unsafe(no_mangle)]
pub extern "C" fn far_map_statistics(
    alloc: Global,
    map: &mut FarMap,
    short: &mut FarStatistics,
    long: &mut FarStatistics,
) -> i32
    ensures same { map.new.held.kept ≡ map.old.held.kept }
    ensures open { IsSome map.old.held.kept → result ≡ FAR_OK }
    ensures closed { map.old.held.kept ≡ None → result ≡ FAR_CLOSED }
{
    match take_map_out(map, alloc) {
        Some(it) => {
            if let Some(all) = it.statistics() {
                *short = FarStatistics::of(all);
            }
            if let Some(all) = it.long_statistics() {
                *long = FarStatistics::of(all);
            }
            give_map(map, it);
            FAR_OK
        }
        None => FAR_CLOSED,
    }
}
