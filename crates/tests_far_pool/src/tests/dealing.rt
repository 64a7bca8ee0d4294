//! Which heap has a new object, and what is told of all.

use far_device::MemDevice;
use far_pool::{Handle, Layout, MemDevices, Worker};
use far_word::Refused;
use std::alloc::Global;

type Pool = Worker<MemDevice, MemDevices>;

fn pool(alloc: Global, heaps: u32) -> Result<Pool, Refused> {
    Worker::new(
        alloc,
        MemDevices::new(alloc),
        Layout { heaps, logs: 3 },
        true,
    )
}

fn heap_of(handle: Handle) -> u64 {
    handle.to_bits() >> 32
}

// Objects go to the heaps in turn, of zeros or of bytes; one that has no length takes no turn.
fn goes_round(pool: &mut Pool, count: u64) -> Result<bool, Refused> {
    for number in 0..count {
        let long = pool.alloc(&[], 1) == Err(Refused::Length);
        let handle = if long && number % 2 == 0 {
            pool.alloc(&[1], 1)?
        } else {
            pool.alloc_zeros(1, 1)?
        };
        if heap_of(handle) != number % 3 {
            return Ok(false);
        }
    }
    Ok(true)
}

// Three heaps have 6,144 objects and no more; a dropped one makes place for one, in its heap, and a heap more for 2,048.
fn fills_up(pool: &mut Pool) -> Result<bool, Refused> {
    let all = goes_round(pool, 6144)?;
    let full = pool.alloc(&[1], 1) == Err(Refused::NoPointer);
    let dropped = Handle::from_bits(1 << 32 | 77 << 16);
    pool.drop_object(dropped)?;
    let again = pool.alloc(&[1], 1)?;
    let same = again.to_bits() == dropped.to_bits().wrapping_add(1);
    let full_again = pool.alloc(&[1], 1) == Err(Refused::NoPointer);
    let fourth = pool.add_heap()?;
    let more = pool.alloc(&[1], 1)?;
    Ok(all && full && same && full_again && fourth == 3 && heap_of(more) == 3)
}

#[test]
fn objects_are_dealt_in_turn(rt: HostRuntime) {
    match pool(rt.alloc(), 3) {
        Ok(mut pool) => assert!(rt; fills_up(&mut pool) == Ok(true)),
        Err(_) => assert!(rt; false),
    }
}

#[test]
fn a_worker_may_have_no_heap(rt: HostRuntime) {
    match pool(rt.alloc(), 0) {
        Ok(mut pool) => assert!(rt; pool.alloc(&[1], 1) == Err(Refused::NoPointer)),
        Err(_) => assert!(rt; false),
    }
}

/// Heaps, logs, and why there is no worker of so many.
#[rattlefmt::skip]
const NONE: &[(u32, u64, Refused)] = &[
    (1, 1, Refused::Shape),
    (0, 65, Refused::Shape),
    (2, u64::MAX, Refused::Shape),
    (2_097_153, 64, Refused::NoPointer),
    (u32::MAX, 0, Refused::NoPointer),
];

#[test]
fn a_layout_may_be_refused(rt: HostRuntime) {
    for (heaps, logs, why) in NONE {
        let devices = MemDevices::new(rt.alloc());
        let layout = Layout {
            heaps: *heaps,
            logs: *logs,
        };
        let refused = Worker::new(rt.alloc(), devices, layout, true).err() == Some(*why);
        assert!(rt; refused, "{heaps} {logs}");
    }
}

// Of 100 objects over four heaps each third is dropped: the others are told, each once and in order.
fn tells_each(pool: &mut Pool) -> Result<bool, Refused> {
    for number in 0..100u8 {
        let handle = pool.alloc(&[number], 1)?;
        if number % 3 == 0 {
            pool.drop_object(handle)?;
        }
    }
    let mut sum = 0u64;
    let mut last = None;
    for handle in pool.handles() {
        if last >= Some(handle.to_bits() >> 16) || !pool.holds(handle) {
            return Ok(false);
        }
        last = Some(handle.to_bits() >> 16);
        sum = sum.wrapping_add(1);
    }
    let told = pool.statistics();
    Ok(sum == 66 && told.near.wrapping_add(told.far) == 66 && told.heaps == 4)
}

#[test]
fn handles_are_told_once(rt: HostRuntime) {
    match pool(rt.alloc(), 4) {
        Ok(mut pool) => assert!(rt; tells_each(&mut pool) == Ok(true)),
        Err(_) => assert!(rt; false),
    }
}
