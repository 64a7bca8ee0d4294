//! Handles of what was dropped, and such as no call gave.

use far_device::MemDevice;
use far_pool::{Handle, Layout, MemDevices, Worker};
use far_word::Refused;
use std::alloc::Global;

type Pool = Worker<MemDevice, MemDevices>;

const LAYOUT: Layout = Layout { heaps: 2, logs: 4 };

fn pool(alloc: Global) -> Result<Pool, Refused> {
    Worker::new(alloc, MemDevices::new(alloc), LAYOUT, true)
}

// Whether each call refuses a handle.
fn is_refused(pool: &mut Pool, handle: Handle) -> bool {
    let none = Err(Refused::NotHeld);
    pool.read(handle, 0, &mut [0]) == none
        && pool.read(handle, 9, &mut []) == none
        && pool.write(handle, 0, &[1]) == none
        && pool.update(handle, 0, &mut [0], |bytes: &mut [u8]| bytes.fill(1)) == none
        && pool.drop_object(handle) == none
        && is_unknown(pool, handle)
}

fn is_unknown(pool: &Pool, handle: Handle) -> bool {
    pool.len_of(handle).is_none() && pool.structure_of(handle).is_none() && !pool.holds(handle)
}

// The pointer of what was dropped comes again under another handle, 2,100 times, more than a byte counts, or a heap has pointers; no old handle reaches what is there
// then, and both heaps still have room.
fn old_stay_refused(pool: &mut Pool) -> Result<bool, Refused> {
    let first = pool.alloc(&[7; 8], 3)?;
    let mut handle = first;
    for _ in 0..2100u16 {
        pool.drop_object(handle)?;
        if !is_refused(pool, handle) || !is_refused(pool, first) {
            return Ok(false);
        }
        // One in the other heap, and one at the pointer again.
        let beside = pool.alloc(&[1], 4)?;
        handle = pool.alloc(&[8; 8], 3)?;
        pool.drop_object(beside)?;
        if handle.to_bits() >> 32 != first.to_bits() >> 32 {
            return Ok(false);
        }
    }
    for _ in 0..4u8 {
        let _ = pool.alloc(&[1], 4)?;
    }
    let mut out = [0; 8];
    pool.read(handle, 0, &mut out)?;
    Ok(out == [8; 8] && handle.to_bits() == first.to_bits().wrapping_add(2100))
}

#[test]
fn a_dropped_handle_stays_refused(rt: HostRuntime) {
    match pool(rt.alloc()) {
        Ok(mut pool) => assert!(rt; old_stay_refused(&mut pool) == Ok(true)),
        Err(_) => assert!(rt; false),
    }
}

// Numbers of which no call gave the handle: another generation, pointer or heap, and the ends.
const MADE_UP: &[u64] = &[
    1,
    65_535,
    65_536,
    134_217_728,
    4_294_901_760,
    1 << 33,
    2 << 32,
    u64::MAX,
];

fn none_is_held(pool: &mut Pool) -> Result<bool, Refused> {
    let held = pool.alloc(&[5; 5], 1)?;
    for bits in MADE_UP {
        let handle = Handle::from_bits(*bits);
        if handle.to_bits() != *bits || !is_refused(pool, handle) {
            return Ok(false);
        }
    }
    let again = Handle::from_bits(held.to_bits());
    Ok(again == held && pool.len_of(again) == Some(5) && pool.structure_of(again) == Some(1))
}

#[test]
fn a_made_up_handle_is_refused(rt: HostRuntime) {
    match pool(rt.alloc()) {
        Ok(mut pool) => assert!(rt; none_is_held(&mut pool) == Ok(true)),
        Err(_) => assert!(rt; false),
    }
}

// An access inside an object, and such as aren't.
fn ranges_are_kept(pool: &mut Pool) -> Result<bool, Refused> {
    let handle = pool.alloc_zeros(20, 1)?;
    let range = Err(Refused::Range);
    Ok(
        pool.write(handle, 19, &[3]) == Ok(())
            && pool.write(handle, 19, &[3, 3]) == range
            && pool.read(handle, 20, &mut [0]) == range
            && pool.read(handle, 0, &mut []) == range
            && pool.read(handle, usize::MAX, &mut [0]) == range
            && pool.alloc(&[], 1) == Err(Refused::Length)
            && pool.alloc_zeros(4089, 1) == Err(Refused::Length),
    )
}

#[test]
fn a_range_lies_in_its_object(rt: HostRuntime) {
    match pool(rt.alloc()) {
        Ok(mut pool) => assert!(rt; ranges_are_kept(&mut pool) == Ok(true)),
        Err(_) => assert!(rt; false),
    }
}
