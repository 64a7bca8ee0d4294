//! What is put comes back, at each length and over each seam.

use far_double::Double;
use far_large::Large;
use far_word::Refused;
use std::alloc::Global;

// So many bytes, no part of which is like another.
pub(crate) fn pattern(alloc: Global, len: usize) -> Result<Vec<u8>, Refused> {
    let Ok(mut bytes) = vec![in alloc; 0u8; len] else {
        return Err(Refused::Memory);
    };
    for place in 0..bytes.len() {
        bytes[place] = (place % 251) as u8;
    }
    Ok(bytes)
}

/// A length, and the ranges that are read: from where on, and how many bytes.
type Row = (usize, &'static [(usize, usize)]);

#[rattlefmt::skip]
const ROWS: &[Row] = &[
    (1, &[(0, 1)]),
    (4087, &[(0, 4087), (4086, 1)]),
    (4088, &[(0, 4088), (4087, 1), (1, 4087)]),
    (4089, &[(0, 4089), (4088, 1), (4087, 2)]),
    (8176, &[(0, 8176), (4087, 4089), (4088, 4088), (8175, 1)]),
    (8177, &[(0, 8177), (8176, 1), (4000, 4177)]),
    (70_000, &[(0, 70_000), (4088, 8176), (4087, 8178), (69_999, 1), (12_345, 54_321)]),
];

// Whether a range is read as it was put.
fn reads(
    alloc: Global,
    worker: &mut Double,
    large: &Large,
    all: &[u8],
    from: usize,
    count: usize,
) -> Result<bool, Refused> {
    let mut out = pattern(alloc, count)?;
    large.read(worker, from, out.as_mut_slice())?;
    Ok(all.get(from..from.saturating_add(count)) == Some(out.as_slice()))
}

// A value is put, read and dropped, and no object is left.
fn comes_back(alloc: Global, len: usize, ranges: &[(usize, usize)]) -> Result<bool, Refused> {
    let mut worker = Double::new(alloc, true, 100, 0);
    let all = pattern(alloc, len)?;
    let large = Large::put(alloc, &mut worker, all.as_slice())?;
    let mut right = large.len() == len && large.is_held(&worker);
    for &(from, count) in ranges {
        right = reads(alloc, &mut worker, &large, all.as_slice(), from, count)? && right;
    }
    large.drop_large(&mut worker)?;
    Ok(right && worker.live() == 0)
}

#[test]
fn a_value_comes_back(rt: HostRuntime) {
    for &(len, ranges) in ROWS {
        assert!(rt; comes_back(rt.alloc(), len, ranges) == Ok(true), "{len}");
    }
}
