//! Calls of a worker that is open.

ghost use Rattle.std.specs.Prelude.{◌≡◌, ◌≢◌, ◌≤◌, ◌+◌, ◌⊎◌, false, true, None, Some, IsSome, IfSome, is_some, length, pos, slice_range};
ghost use Rattle.std.specs.Option.{IsSomeAnd};
ghost use Rattle.far_word.specs.declared.refused.Refused.{Refused as Refusal};
ghost use Rattle.far_word.specs.Refused.{refusal_number};
ghost use Rattle.far_private.specs.Causes.{IsFault};
ghost use Rattle.far_private.specs.Heap.{IsWhyNoAccess, is_length, new_object, object_with, size_of};
ghost use Rattle.far_pool.specs.Pool.{Changes, IsWhyNone, Makes, NextGeneration, Same, Writes, count_in, refusal_of};
ghost use Rattle.far_backed.specs.Named.{bytes_of, handle_of, most_heaps, object_of};
ghost use Rattle.far_backed.specs.Sides.{IsNotTakenBy, IsStuckBy};
ghost use Rattle.far_c.specs.Told.{IsToldBy};
ghost use Rattle.far_c.specs.declared.status.TheConstants.{FAR_CLOSED, FAR_LENGTH, FAR_MEMORY, FAR_NOT_HELD, FAR_NO_POINTER, FAR_NO_ROOM, FAR_OK};

use crate::handle::{FarWorker, give, take_out};
use crate::statistics::FarStatistics;
use crate::status::{FAR_CLOSED, FAR_NOT_HELD, FAR_OK, status_of};
use far_backed::Side;
use far_device::Device;
use std::alloc::Global;

/// Makes an object of these bytes.
#[unsafe(no_mangle)]
pub extern "C" fn far_alloc(
    alloc: Global,
    worker: &mut FarWorker,
    bytes: &[u8],
    structure: u8,
    handle: &mut u64,
) -> i32
    ensures made { result ≡ FAR_OK → IsSomeAnd worker.old.held.pool (λ w. IsSomeAnd worker.new.held.pool (λ v. Makes (handle_of handle.new) (object_with w.honest structure bytes.now) w v)) }
    ensures left { result ≢ FAR_OK → (worker.new.held.pool ≡ worker.old.held.pool) × (handle.new ≡ handle.old) }
    ensures long { IsSome worker.old.held.pool → is_length (length bytes.now) ≡ false → result ≡ FAR_LENGTH }
    ensures why { result ≢ FAR_OK → IfSome worker.old.held.pool (λ w. IsToldBy (IsWhyNone (length bytes.now)) result) }
    ensures room { result ≡ FAR_NO_ROOM → IfSome worker.old.held.pool (λ w. 3 ≤ w.logs → IsStuckBy ⟦<Side as Device>⟧.writes w) }
    ensures closed { worker.old.held.pool ≡ None → result ≡ FAR_CLOSED }
{
    match take_out(worker, alloc) {
        Some(mut it) => {
            let done = it.alloc(bytes, structure);
            give(worker, it);
            match done {
                Ok(number) => {
                    *handle = number;
                    FAR_OK
                }
                Err(why) => status_of(why),
            }
        }
        None => FAR_CLOSED,
    }
}

/// Makes an object of so many zeros.
#[unsafe(no_mangle)]
pub extern "C" fn far_alloc_zeros(
    alloc: Global,
    worker: &mut FarWorker,
    len: u16,
    structure: u8,
    handle: &mut u64,
) -> i32
    ensures made { result ≡ FAR_OK → IsSomeAnd worker.old.held.pool (λ w. IsSomeAnd worker.new.held.pool (λ v. Makes (handle_of handle.new) (new_object w.honest len structure) w v)) }
    ensures left { result ≢ FAR_OK → (worker.new.held.pool ≡ worker.old.held.pool) × (handle.new ≡ handle.old) }
    ensures long { IsSome worker.old.held.pool → is_length len ≡ false → result ≡ FAR_LENGTH }
    ensures why { result ≢ FAR_OK → IfSome worker.old.held.pool (λ w. IsToldBy (IsWhyNone len) result) }
    ensures room { result ≡ FAR_NO_ROOM → IfSome worker.old.held.pool (λ w. 3 ≤ w.logs → IsStuckBy ⟦<Side as Device>⟧.writes w) }
    ensures closed { worker.old.held.pool ≡ None → result ≡ FAR_CLOSED }
{
    match take_out(worker, alloc) {
        Some(mut it) => {
            let done = it.alloc_zeros(len, structure);
            give(worker, it);
            match done {
                Ok(number) => {
                    *handle = number;
                    FAR_OK
                }
                Err(why) => status_of(why),
            }
        }
        None => FAR_CLOSED,
    }
}

/// Reads bytes of an object, from one on, as many as `out` has.
#[unsafe(no_mangle)]
pub extern "C" fn far_read(
    alloc: Global,
    worker: &mut FarWorker,
    handle: u64,
    from: usize,
    out: &mut [u8],
) -> i32
    ensures same { worker.new.held.pool ≡ worker.old.held.pool }
    ensures read { result ≡ FAR_OK → IsSomeAnd worker.old.held.pool (λ w. IfSome (bytes_of w handle) (λ bytes. out.new ≡ slice_range bytes from (from + length out.old))) }
    ensures done { result ≡ FAR_OK → IsSomeAnd worker.old.held.pool (λ w. refusal_of (object_of w handle) from (length out.old) ≡ None) }
    ensures barred { IfSome worker.old.held.pool (λ w. (why : Refusal) → refusal_of (object_of w handle) from (length out.old) ≡ Some why → result ≡ pos (refusal_number why)) }
    ensures why { result ≢ FAR_OK → IfSome worker.old.held.pool (λ w. IsToldBy (IsWhyNoAccess w.honest (refusal_of (object_of w handle) from (length out.old))) result) }
    ensures fault { result ≢ FAR_OK → IfSome worker.old.held.pool (λ w. refusal_of (object_of w handle) from (length out.old) ≡ None → IsToldBy IsFault result) }
    ensures kept { result ≢ FAR_OK → out.new ≡ out.old }
    ensures closed { worker.old.held.pool ≡ None → result ≡ FAR_CLOSED }
{
    match take_out(worker, alloc) {
        Some(mut it) => {
            let done = it.read(handle, from, out);
            give(worker, it);
            match done {
                Ok(()) => FAR_OK,
                Err(why) => status_of(why),
            }
        }
        None => FAR_CLOSED,
    }
}

/// Writes bytes over those of an object, from one on.
#[unsafe(no_mangle)]
pub extern "C" fn far_write(
    alloc: Global,
    worker: &mut FarWorker,
    handle: u64,
    from: usize,
    bytes: &[u8],
) -> i32
    ensures written { result ≡ FAR_OK → IsSomeAnd worker.old.held.pool (λ w. IsSomeAnd worker.new.held.pool (λ v. Writes (handle_of handle) from bytes.now w v)) }
    ensures done { result ≡ FAR_OK → IsSomeAnd worker.old.held.pool (λ w. refusal_of (object_of w handle) from (length bytes.now) ≡ None) }
    ensures left { result ≢ FAR_OK → worker.new.held.pool ≡ worker.old.held.pool }
    ensures barred { IfSome worker.old.held.pool (λ w. (why : Refusal) → refusal_of (object_of w handle) from (length bytes.now) ≡ Some why → result ≡ pos (refusal_number why)) }
    ensures why { result ≢ FAR_OK → IfSome worker.old.held.pool (λ w. IsToldBy (IsWhyNoAccess w.honest (refusal_of (object_of w handle) from (length bytes.now))) result) }
    ensures room { result ≡ FAR_NO_ROOM → IfSome worker.old.held.pool (λ w. 3 ≤ w.logs → IsNotTakenBy ⟦<Side as Device>⟧.writes w (handle_of handle).heap) }
    ensures closed { worker.old.held.pool ≡ None → result ≡ FAR_CLOSED }
{
    match take_out(worker, alloc) {
        Some(mut it) => {
            let done = it.write(handle, from, bytes);
            give(worker, it);
            match done {
                Ok(()) => FAR_OK,
                Err(why) => status_of(why),
            }
        }
        None => FAR_CLOSED,
    }
}

/// Writes bytes over those of an object, from one on, and gives back in their place those that it had there.
#[unsafe(no_mangle)]
pub extern "C" fn far_exchange(
    alloc: Global,
    worker: &mut FarWorker,
    handle: u64,
    from: usize,
    bytes: &mut [u8],
) -> i32
    ensures written { result ≡ FAR_OK → IsSomeAnd worker.old.held.pool (λ w. IsSomeAnd worker.new.held.pool (λ v. Writes (handle_of handle) from bytes.old w v)) }
    ensures given { result ≡ FAR_OK → IsSomeAnd worker.old.held.pool (λ w. IfSome (bytes_of w handle) (λ all. bytes.new ≡ slice_range all from (from + length bytes.old))) }
    ensures done { result ≡ FAR_OK → IsSomeAnd worker.old.held.pool (λ w. refusal_of (object_of w handle) from (length bytes.old) ≡ None) }
    ensures left { result ≢ FAR_OK → (worker.new.held.pool ≡ worker.old.held.pool) × (bytes.new ≡ bytes.old) }
    ensures barred { IfSome worker.old.held.pool (λ w. (why : Refusal) → refusal_of (object_of w handle) from (length bytes.old) ≡ Some why → result ≡ pos (refusal_number why)) }
    ensures why { result ≢ FAR_OK → IfSome worker.old.held.pool (λ w. IsToldBy (IsWhyNoAccess w.honest (refusal_of (object_of w handle) from (length bytes.old))) result) }
    ensures room { result ≡ FAR_NO_ROOM → IfSome worker.old.held.pool (λ w. 3 ≤ w.logs → IsNotTakenBy ⟦<Side as Device>⟧.writes w (handle_of handle).heap) }
    ensures closed { worker.old.held.pool ≡ None → result ≡ FAR_CLOSED }
{
    match take_out(worker, alloc) {
        Some(mut it) => {
            let done = it.exchange(alloc, handle, from, bytes);
            give(worker, it);
            match done {
                Ok(()) => FAR_OK,
                Err(why) => status_of(why),
            }
        }
        None => FAR_CLOSED,
    }
}

/// Drops an object.
#[unsafe(no_mangle)]
pub extern "C" fn far_drop(alloc: Global, worker: &mut FarWorker, handle: u64) -> i32
    ensures dropped { result ≡ FAR_OK → IsSomeAnd worker.old.held.pool (λ w. IsSomeAnd worker.new.held.pool (λ v. (is_some (object_of w handle) ≡ true) × Changes (handle_of handle) None w v × NextGeneration (handle_of handle) w v)) }
    ensures left { result ≢ FAR_OK → worker.new.held.pool ≡ worker.old.held.pool }
    ensures why { result ≢ FAR_OK → IfSome worker.old.held.pool (λ w. (result ≡ FAR_NOT_HELD) × (object_of w handle ≡ None)) }
    ensures closed { worker.old.held.pool ≡ None → result ≡ FAR_CLOSED }
{
    match take_out(worker, alloc) {
        Some(mut it) => {
            let done = it.drop_object(handle);
            give(worker, it);
            match done {
                Ok(()) => FAR_OK,
                Err(_) => FAR_NOT_HELD,
            }
        }
        None => FAR_CLOSED,
    }
}

/// How many bytes an object has.
#[unsafe(no_mangle)]
pub extern "C" fn far_length(
    alloc: Global,
    worker: &mut FarWorker,
    handle: u64,
    len: &mut u16,
) -> i32
    ensures same { worker.new.held.pool ≡ worker.old.held.pool }
    ensures told { result ≡ FAR_OK → IsSomeAnd worker.old.held.pool (λ w. size_of (object_of w handle) ≡ Some len.new) }
    ensures left { result ≢ FAR_OK → len.new ≡ len.old }
    ensures why { result ≢ FAR_OK → IfSome worker.old.held.pool (λ w. (result ≡ FAR_NOT_HELD) × (size_of (object_of w handle) ≡ None)) }
    ensures closed { worker.old.held.pool ≡ None → result ≡ FAR_CLOSED }
{
    match take_out(worker, alloc) {
        Some(it) => {
            let found = it.len_of(handle);
            give(worker, it);
            match found {
                Some(bytes) => {
                    *len = bytes;
                    FAR_OK
                }
                None => FAR_NOT_HELD,
            }
        }
        None => FAR_CLOSED,
    }
}

/// Whether there is an object.
#[unsafe(no_mangle)]
pub extern "C" fn far_holds(alloc: Global, worker: &mut FarWorker, handle: u64) -> i32
    ensures same { worker.new.held.pool ≡ worker.old.held.pool }
    ensures there { result ≡ FAR_OK → IsSomeAnd worker.old.held.pool (λ w. is_some (object_of w handle) ≡ true) }
    ensures why { result ≢ FAR_OK → IfSome worker.old.held.pool (λ w. (result ≡ FAR_NOT_HELD) × (is_some (object_of w handle) ≡ false)) }
    ensures closed { worker.old.held.pool ≡ None → result ≡ FAR_CLOSED }
{
    match take_out(worker, alloc) {
        Some(it) => {
            let is_there = it.holds(handle);
            give(worker, it);
            if is_there { FAR_OK } else { FAR_NOT_HELD }
        }
        None => FAR_CLOSED,
    }
}

/// Adds a heap to the worker, for 2,048 objects more.
#[unsafe(no_mangle)]
pub extern "C" fn far_add_heap(alloc: Global, worker: &mut FarWorker) -> i32
    ensures added { result ≡ FAR_OK → IsSomeAnd worker.old.held.pool (λ w. IsSomeAnd worker.new.held.pool (λ v. Same w v × (length v.shelves ≡ length w.shelves + 1))) }
    ensures left { result ≢ FAR_OK → worker.new.held.pool ≡ worker.old.held.pool }
    ensures full { IfSome worker.old.held.pool (λ w. length w.shelves ≡ most_heaps → result ≡ FAR_NO_POINTER) }
    ensures why { result ≢ FAR_OK → IfSome worker.old.held.pool (λ w. ((result ≡ FAR_NO_POINTER) × (length w.shelves ≡ most_heaps)) ⊎ (result ≡ FAR_MEMORY)) }
    ensures closed { worker.old.held.pool ≡ None → result ≡ FAR_CLOSED }
{
    match take_out(worker, alloc) {
        Some(mut it) => {
            let done = it.add_heap();
            give(worker, it);
            match done {
                Ok(_) => FAR_OK,
                Err(why) => status_of(why),
            }
        }
        None => FAR_CLOSED,
    }
}

/// What the worker has, and what it has done.
#[unsafe(no_mangle)]
pub extern "C" fn far_statistics(
    alloc: Global,
    worker: &mut FarWorker,
    statistics: &mut FarStatistics,
) -> i32
    ensures same { worker.new.held.pool ≡ worker.old.held.pool }
    ensures told { result ≡ FAR_OK → IsSomeAnd worker.old.held.pool (λ w. (statistics.new.near + statistics.new.far ≡ count_in w) × (statistics.new.heaps ≡ length w.shelves)) }
    ensures open { IsSome worker.old.held.pool → result ≡ FAR_OK }
    ensures closed { worker.old.held.pool ≡ None → result ≡ FAR_CLOSED }
{
    match take_out(worker, alloc) {
        Some(it) => {
            *statistics = FarStatistics::of(it.statistics());
            give(worker, it);
            FAR_OK
        }
        None => FAR_CLOSED,
    }
}
