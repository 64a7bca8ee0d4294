//! To open a worker, and to close it.

ghost use Rattle.std.specs.Prelude.{◌≡◌, ◌≢◌, ◌≤◌, ◌<◌, ◌⊎◌, ℕ, true, false, None, IsSome, IfOk, IfErr, length};
ghost use Rattle.std.specs.Option.{IsSomeAnd};
ghost use Rattle.far_word.specs.declared.sizes.TheConstants.{LONGEST};
ghost use Rattle.far_pool.specs.Plans.{HasLength, IsLaid, least_near};
ghost use Rattle.far_pool.specs.declared.plan.Layout.{Layout as AnyLayout};
ghost use Rattle.far_backed.specs.Named.{object_of};
ghost use Rattle.far_c.specs.Told.{IsUnlaid, IsWhyShut};
ghost use Rattle.far_c.specs.declared.opening.TheConstants.{MOST_OBJECTS};
ghost use Rattle.far_c.specs.declared.status.TheConstants.{FAR_CLOSED, FAR_LENGTH, FAR_MEMORY, FAR_OBJECTS, FAR_OK, FAR_OPEN};

use crate::handle::{FarWorker, hold, take_out};
use crate::status::{FAR_CLOSED, FAR_LENGTH, FAR_MEMORY, FAR_NEAR, FAR_OBJECTS, FAR_OK, FAR_OPEN};
use far_backed::Backed;
use far_pool::{Layout, Plan, Unplanned};
use far_word::{LONGEST, Refused};
use std::alloc::Global;

/// The most objects of a worker.
const MOST_OBJECTS: u64 = 4_294_967_296;

// The layout of a plan, or its status.
pub(crate) fn laid(near: u64, objects: u64, typical: u16) -> Result<Layout, i32>
    ensures laid { IfOk result (IsLaid record { near = near; objects = objects; typical = typical }) }
    ensures refused { IfErr result (λ status. status ≢ FAR_OK) }
    ensures why { IfErr result (IsUnlaid record { near = near; objects = objects; typical = typical }) }
{
    let plan = Plan {
        near,
        objects,
        typical,
    };
    match plan.lay_out() {
        Ok(layout) => Ok(layout),
        Err(Unplanned::Length) => Err(FAR_LENGTH),
        Err(Unplanned::Objects(_)) => Err(FAR_OBJECTS),
        Err(Unplanned::Near(_)) => Err(FAR_NEAR),
    }
}

// A worker of a layout, whose heaps have so many bytes reserved, if they have.
fn made(alloc: Global, layout: Layout, room: Option<usize>) -> Result<Backed, Refused>
    ensures empty { IfOk result (λ worker. (n : ℕ) → object_of worker n ≡ None) }
    ensures honest { IfOk result (λ worker. worker.honest ≡ true) }
    ensures logs { IfOk result (λ worker. worker.logs ≡ layout.logs) }
    ensures heaps { IfOk result (λ worker. length worker.shelves ≡ layout.heaps) }
{
    match room {
        Some(room) => Backed::reserved(alloc, layout, room),
        None => Backed::in_memory(alloc, layout),
    }
}

// Opens a worker without objects.
fn open(
    alloc: Global,
    worker: &mut FarWorker,
    near: u64,
    objects: u64,
    typical: u16,
    room: Option<usize>,
) -> i32
    ensures opened { result ≡ FAR_OK → IsSomeAnd worker.new.held.pool (λ w. ((n : ℕ) → object_of w n ≡ None) × (w.honest ≡ true)) }
    ensures laid { result ≡ FAR_OK → IsSomeAnd worker.new.held.pool (λ w. (l : AnyLayout) × IsLaid record { near = near; objects = objects; typical = typical } l × (w.logs ≡ l.logs) × (length w.shelves ≡ l.heaps)) }
    ensures left { result ≢ FAR_OK → worker.new.held.pool ≡ worker.old.held.pool }
    ensures open { IsSome worker.old.held.pool → result ≡ FAR_OPEN }
    ensures why { worker.old.held.pool ≡ None → result ≢ FAR_OK → IsWhyShut record { near = near; objects = objects; typical = typical } result }
{
    if worker.live {
        return FAR_OPEN;
    }
    let layout = match laid(near, objects, typical) {
        Ok(layout) => layout,
        Err(status) => return status,
    };
    match made(alloc, layout, room) {
        Ok(it) => {
            if hold(worker, alloc, it) {
                FAR_OK
            } else {
                FAR_MEMORY
            }
        }
        Err(_) => FAR_MEMORY,
    }
}

/// Opens a worker without objects, whose far objects lie in memory, and come back as they went.
#[unsafe(no_mangle)]
pub extern "C" fn far_open_memory(
    alloc: Global,
    worker: &mut FarWorker,
    near: u64,
    objects: u64,
    typical: u16,
) -> i32
    ensures opened { result ≡ FAR_OK → IsSomeAnd worker.new.held.pool (λ w. ((n : ℕ) → object_of w n ≡ None) × (w.honest ≡ true)) }
    ensures laid { result ≡ FAR_OK → IsSomeAnd worker.new.held.pool (λ w. (l : AnyLayout) × IsLaid record { near = near; objects = objects; typical = typical } l × (w.logs ≡ l.logs) × (length w.shelves ≡ l.heaps)) }
    ensures left { result ≢ FAR_OK → worker.new.held.pool ≡ worker.old.held.pool }
    ensures open { IsSome worker.old.held.pool → result ≡ FAR_OPEN }
    ensures why { worker.old.held.pool ≡ None → result ≢ FAR_OK → IsWhyShut record { near = near; objects = objects; typical = typical } result }
{
    open(alloc, worker, near, objects, typical, None)
}

/// The same, whose far objects lie in bytes that are reserved now, so many for each heap.
#[unsafe(no_mangle)]
pub extern "C" fn far_open_reserved(
    alloc: Global,
    worker: &mut FarWorker,
    near: u64,
    objects: u64,
    typical: u16,
    room: usize,
) -> i32
    ensures opened { result ≡ FAR_OK → IsSomeAnd worker.new.held.pool (λ w. ((n : ℕ) → object_of w n ≡ None) × (w.honest ≡ true)) }
    ensures laid { result ≡ FAR_OK → IsSomeAnd worker.new.held.pool (λ w. (l : AnyLayout) × IsLaid record { near = near; objects = objects; typical = typical } l × (w.logs ≡ l.logs) × (length w.shelves ≡ l.heaps)) }
    ensures left { result ≢ FAR_OK → worker.new.held.pool ≡ worker.old.held.pool }
    ensures open { IsSome worker.old.held.pool → result ≡ FAR_OPEN }
    ensures why { worker.old.held.pool ≡ None → result ≢ FAR_OK → IsWhyShut record { near = near; objects = objects; typical = typical } result }
{
    open(alloc, worker, near, objects, typical, Some(room))
}

/// How many heaps a worker has that is opened so.
#[unsafe(no_mangle)]
pub extern "C" fn far_heaps(near: u64, objects: u64, typical: u16, heaps: &mut u32) -> i32
    ensures told { result ≡ FAR_OK → (l : AnyLayout) × IsLaid record { near = near; objects = objects; typical = typical } l × (heaps.new ≡ l.heaps) }
    ensures left { result ≢ FAR_OK → heaps.new ≡ heaps.old }
    ensures why { result ≢ FAR_OK → IsUnlaid record { near = near; objects = objects; typical = typical } result }
{
    match laid(near, objects, typical) {
        Ok(layout) => {
            *heaps = layout.heaps;
            FAR_OK
        }
        Err(status) => status,
    }
}

/// Closes a worker, and drops its objects.
#[unsafe(no_mangle)]
pub extern "C" fn far_close(alloc: Global, worker: &mut FarWorker) -> i32
    ensures gone { worker.new.held.pool ≡ None }
    ensures open { IsSome worker.old.held.pool → result ≡ FAR_OK }
    ensures closed { worker.old.held.pool ≡ None → result ≡ FAR_CLOSED }
{
    match take_out(worker, alloc) {
        Some(_) => FAR_OK,
        None => FAR_CLOSED,
    }
}

/// The fewest bytes near with which a worker can be opened for so many objects of such a length.
#[unsafe(no_mangle)]
pub extern "C" fn far_least_near(objects: u64, typical: u16, least: &mut u64) -> i32
    ensures told { result ≡ FAR_OK → least.new ≡ least_near record { near = 0; objects = objects; typical = typical } }
    ensures left { result ≢ FAR_OK → least.new ≡ least.old }
    ensures length { result ≡ FAR_LENGTH → (typical ≡ 0) ⊎ (LONGEST < typical) }
    ensures objects { result ≡ FAR_OBJECTS → MOST_OBJECTS < objects }
    ensures others { result ≢ FAR_OK → (result ≡ FAR_LENGTH) ⊎ (result ≡ FAR_OBJECTS) }
    ensures range { result ≢ FAR_LENGTH → HasLength record { near = 0; objects = objects; typical = typical } }
    ensures most { result ≡ FAR_OK → objects ≤ MOST_OBJECTS }
{
    if typical == 0 || typical > LONGEST {
        return FAR_LENGTH;
    }
    if objects > MOST_OBJECTS {
        return FAR_OBJECTS;
    }
    let plan = Plan {
        near: 0,
        objects,
        typical,
    };
    *least = plan.least_near();
    FAR_OK
}

/// How many bytes C has to set aside for a `struct far_worker`.
#[unsafe(no_mangle)]
pub extern "C" fn far_worker_size() -> usize {
    std::mem::size_of::<FarWorker>()
}
