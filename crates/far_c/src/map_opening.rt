//! To open a map, and to close it.

ghost use Rattle.std.specs.Prelude.{◌≡◌, ◌≢◌, [], None, Some, IsSome, IfErr, IfOk, OnOk};
ghost use Rattle.std.specs.FinMap as fin;
ghost use Rattle.far_c.specs.Told.{IsLayable, IsWhyNoMap, long_plan, short_plan};
ghost use Rattle.far_c.specs.declared.status.TheConstants.{FAR_CLOSED, FAR_MEMORY, FAR_OK, FAR_OPEN};

use crate::map_handle::{FarMap, hold_map, take_map_out};
use crate::opening::laid;
use crate::status::{FAR_CLOSED, FAR_MEMORY, FAR_OK, FAR_OPEN};
use far_backed::BackedMap;
use far_pool::Layout;
use far_word::{LONGEST, Refused};
use std::alloc::Global;

/// What a map is to have: `struct far_map_plan`.
#[repr(C)]
#[derive(Clone, Copy)]
pub struct FarMapPlan {
    pub near: u64,
    pub entries: u64,
    pub long_near: u64,
    pub long_parts: u64,
    pub seed: u64,
    pub more_seed: u64,
    pub typical: u16,
}

// The secret bytes of a plan.
fn seed_of(plan: &FarMapPlan) -> [u8; 16] {
    let mut seed = [0u8; 16];
    let (front, back) = seed.split_at_mut(8);
    front.copy_from_slice(&plan.seed.to_le_bytes());
    back.copy_from_slice(&plan.more_seed.to_le_bytes());
    seed
}

// A map of two layouts, whose heaps have so many bytes reserved, if they have: the short ones' and the others'.
fn over(
    alloc: Global,
    layout: Layout,
    long_layout: Layout,
    seed: [u8; 16],
    rooms: Option<(usize, usize)>,
) -> Result<BackedMap, Refused>
    ensures empty { IfOk result (λ m. m.entries ≡ fin.empty) }
    ensures ended { IfOk result (λ m. m.rest ≡ []) }
{
    match rooms {
        Some((room, long_room)) => {
            BackedMap::reserved(alloc, layout, long_layout, seed, room, long_room)
        }
        None => BackedMap::in_memory(alloc, layout, long_layout, seed),
    }
}

// The map of a plan, or its status.
fn made(alloc: Global, plan: &FarMapPlan, rooms: Option<(usize, usize)>) -> Result<BackedMap, i32>
    ensures empty { IfOk result (λ m. m ≡ record { entries = fin.empty; rest = [] }) }
    ensures laid { OnOk result (IsLayable (short_plan plan.now) × IsLayable (long_plan plan.now)) }
    ensures refused { IfErr result (λ status. status ≢ FAR_OK) }
    ensures why { IfErr result (IsWhyNoMap (short_plan plan.now) (long_plan plan.now)) }
{
    let layout = match laid(plan.near, plan.entries, plan.typical) {
        Ok(layout) => layout,
        Err(status) => return Err(status),
    };
    let long_layout = match laid(plan.long_near, plan.long_parts, LONGEST) {
        Ok(layout) => layout,
        Err(status) => return Err(status),
    };
    match over(alloc, layout, long_layout, seed_of(plan), rooms) {
        Ok(it) => Ok(it),
        Err(_) => Err(FAR_MEMORY),
    }
}

// Opens an empty map.
fn open(alloc: Global, map: &mut FarMap, plan: &FarMapPlan, rooms: Option<(usize, usize)>) -> i32
    ensures opened { result ≡ FAR_OK → map.new.held.kept ≡ Some record { entries = fin.empty; rest = [] } }
    ensures laid { result ≡ FAR_OK → IsLayable (short_plan plan.now) × IsLayable (long_plan plan.now) }
    ensures left { result ≢ FAR_OK → map.new.held.kept ≡ map.old.held.kept }
    ensures open { IsSome map.old.held.kept → result ≡ FAR_OPEN }
    ensures why { map.old.held.kept ≡ None → result ≢ FAR_OK → IsWhyNoMap (short_plan plan.now) (long_plan plan.now) result }
{
    if map.live {
        return FAR_OPEN;
    }
    match made(alloc, plan, rooms) {
        Ok(it) => {
            if hold_map(map, alloc, it) {
                FAR_OK
            } else {
                FAR_MEMORY
            }
        }
        Err(status) => status,
    }
}

/// Opens an empty map, whose far entries lie in memory, and come back as they went.
#[unsafe(no_mangle)]
pub extern "C" fn far_map_open_memory(alloc: Global, map: &mut FarMap, plan: &FarMapPlan) -> i32
    ensures opened { result ≡ FAR_OK → map.new.held.kept ≡ Some record { entries = fin.empty; rest = [] } }
    ensures laid { result ≡ FAR_OK → IsLayable (short_plan plan.now) × IsLayable (long_plan plan.now) }
    ensures left { result ≢ FAR_OK → map.new.held.kept ≡ map.old.held.kept }
    ensures open { IsSome map.old.held.kept → result ≡ FAR_OPEN }
    ensures why { map.old.held.kept ≡ None → result ≢ FAR_OK → IsWhyNoMap (short_plan plan.now) (long_plan plan.now) result }
{
    open(alloc, map, plan, None)
}

/// The same, whose far entries lie in bytes that are reserved now, so many for each heap of those that an object has room for, and so many for each of the others.
#[unsafe(no_mangle)]
pub extern "C" fn far_map_open_reserved(
    alloc: Global,
    map: &mut FarMap,
    plan: &FarMapPlan,
    room: usize,
    long_room: usize,
) -> i32
    ensures opened { result ≡ FAR_OK → map.new.held.kept ≡ Some record { entries = fin.empty; rest = [] } }
    ensures laid { result ≡ FAR_OK → IsLayable (short_plan plan.now) × IsLayable (long_plan plan.now) }
    ensures left { result ≢ FAR_OK → map.new.held.kept ≡ map.old.held.kept }
    ensures open { IsSome map.old.held.kept → result ≡ FAR_OPEN }
    ensures why { map.old.held.kept ≡ None → result ≢ FAR_OK → IsWhyNoMap (short_plan plan.now) (long_plan plan.now) result }
{
    open(alloc, map, plan, Some((room, long_room)))
}

/// Closes a map, and drops its entries.
#[unsafe(no_mangle)]
pub extern "C" fn far_map_close(alloc: Global, map: &mut FarMap) -> i32
    ensures gone { map.new.held.kept ≡ None }
    ensures open { IsSome map.old.held.kept → result ≡ FAR_OK }
    ensures closed { map.old.held.kept ≡ None → result ≡ FAR_CLOSED }
{
    match take_map_out(map, alloc) {
        Some(_) => FAR_OK,
        None => FAR_CLOSED,
    }
}

/// How many bytes C has to set aside for a `struct far_map`.
#[unsafe(no_mangle)]
pub extern "C" fn far_map_size() -> usize {
    std::mem::size_of::<FarMap>()
}
