//! Values of many objects over a worker.

use far_device::MemDevice;
use far_large::Large;
use far_objects::Objects;
use far_pool::{Layout, MemDevices, Worker};
use far_word::Refused;
use std::alloc::Global;

type Pool = Worker<MemDevice, MemDevices>;

fn pool(alloc: Global, heaps: u32) -> Result<Pool, Refused> {
    Worker::new(
        alloc,
        MemDevices::new(alloc),
        Layout { heaps, logs: 4 },
        true,
    )
}

// How many objects there are.
fn objects(pool: &Pool) -> u64 {
    let told = pool.statistics();
    told.near.wrapping_add(told.far)
}

// So many bytes, no part of which is like another.
pub(crate) fn pattern(alloc: Global, len: usize) -> Result<Vec<u8>, Refused> {
    let Ok(mut bytes) = vec![in alloc; 0u8; len] else {
        return Err(Refused::Memory);
    };
    for place in 0..bytes.len() {
        bytes[place] = (place % 251) as u8;
    }
    Ok(bytes)
}

/// A length, and the ranges that are read: from where on, and how many bytes.
type Row = (usize, &'static [(usize, usize)]);

#[rattlefmt::skip]
const ROWS: &[Row] = &[
    (1, &[(0, 1)]),
    (4088, &[(0, 4088), (4087, 1)]),
    (4089, &[(0, 4089), (4088, 1), (4087, 2)]),
    (20_000, &[(0, 20_000), (4088, 8176), (12_345, 7000)]),
    (65_536, &[(0, 65_536), (4087, 8178), (65_535, 1), (12_345, 50_000)]),
];

// Whether a range is read as it was put.
fn is_read<O: Objects>(
    alloc: Global,
    worker: &mut O,
    large: &Large,
    all: &[u8],
    range: (usize, usize),
) -> Result<bool, Refused> {
    let mut out = pattern(alloc, range.1)?;
    large.read(worker, range.0, out.as_mut_slice())?;
    Ok(all.get(range.0..range.0.saturating_add(range.1)) == Some(out.as_slice()))
}

// A value is put, read and dropped.
fn comes_back<O: Objects>(alloc: Global, worker: &mut O, row: &Row) -> Result<bool, Refused> {
    let all = pattern(alloc, row.0)?;
    let large = Large::put(alloc, worker, all.as_slice())?;
    let mut right = large.len() == row.0 && large.is_held(worker);
    for range in row.1 {
        right = is_read(alloc, worker, &large, all.as_slice(), *range)? && right;
    }
    large.drop_large(worker)?;
    Ok(right)
}

// Three heaps have 48 KiB near, so that parts of the longest go far. What lies beside stays, and nothing else.
fn all_come_back(alloc: Global) -> Result<bool, Refused> {
    let mut pool = pool(alloc, 3)?;
    let beside = pool.alloc(&[1, 2, 3], 1)?;
    let mut right = true;
    for row in ROWS {
        right = comes_back(alloc, &mut pool, row)? && right;
    }
    let mut out = pattern(alloc, 9)?;
    pool.read_into(beside, &mut out)?;
    let went_far = pool.statistics().evictions > 4;
    Ok(right && went_far && out.as_slice() == [1, 2, 3].as_slice() && objects(&pool) == 1)
}

#[test]
fn a_large_value_comes_back(rt: HostRuntime) {
    assert!(rt; all_come_back(rt.alloc()) == Ok(true));
}

// With so many pointers left a value of three parts is put, or leaves none.
fn fits(alloc: Global, left: u64) -> Result<bool, Refused> {
    let mut pool = pool(alloc, 1)?;
    for _ in left..2048u64 {
        let _ = pool.alloc_zeros(1, 1)?;
    }
    let before = objects(&pool);
    let all = pattern(alloc, 9000)?;
    match Large::put(alloc, &mut pool, all.as_slice()) {
        Ok(_large) => Ok(3 <= left && objects(&pool) == before.wrapping_add(3)),
        Err(why) => Ok(left < 3 && why == Refused::NoPointer && objects(&pool) == before),
    }
}

#[test]
fn no_pointer_for_a_part_is_none_for_a_value(rt: HostRuntime) {
    for left in 0..5u64 {
        assert!(rt; fits(rt.alloc(), left) == Ok(true), "{left}");
    }
}
