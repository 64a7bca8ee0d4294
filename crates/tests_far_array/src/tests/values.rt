//! Values of each type; folds and reads over the ends of blocks; lengths that aren't a record's.

use far_array::{Array, ArrayOf, Record};
use far_double::Double;
use far_word::Refused;
use std::alloc::Global;

/// Values in far objects of which each n-th call is refused (0: none).
pub(crate) fn empty<T: Record + Drop>(
    alloc: Global,
    every: u64,
) -> Result<ArrayOf<T, Double>, Refused> {
    ArrayOf::new(alloc, Double::new(alloc, true, 100, every))
}

// Whether there are just these values.
fn are<T: Record + PartialEq + Drop>(array: &mut ArrayOf<T, Double>, values: &[T]) -> bool {
    for i in 0..values.len() {
        let Ok(value) = array.get(i) else {
            return false;
        };
        if value != values[i] {
            return false;
        }
    }
    array.len() == values.len()
}

fn come_back<T: Record + PartialEq + Drop>(alloc: Global, values: &[T]) -> Result<bool, Refused> {
    let mut array = empty(alloc, 0)?;
    for value in values {
        array.push(value)?;
    }
    Ok(are(&mut array, values))
}

// All is done once more where memory was refused.
fn do_come_back<T: Record + PartialEq + Drop>(alloc: Global, values: &[T]) -> bool {
    let came = come_back(alloc, values);
    if came == Err(Refused::Memory) {
        return come_back(alloc, values) == Ok(true);
    }
    came == Ok(true)
}

#[test]
fn values_come_back(rt: HostRuntime) {
    assert!(rt; do_come_back(rt.alloc(), &[0u8, 255, 7]));
    assert!(rt; do_come_back(rt.alloc(), &[0u16, 65_535, 258]));
    assert!(rt; do_come_back(rt.alloc(), &[0u32, u32::MAX, 16_909_060]));
    assert!(rt; do_come_back(rt.alloc(), &[0u64, u64::MAX, 72_623_859_790_382_856]));
    assert!(rt; do_come_back(rt.alloc(), &[0i64, i64::MIN, i64::MAX, -1, -258]));
    assert!(rt; do_come_back(rt.alloc(), &[[1u8, 2, 3], [0, 0, 255]]));
}

/// How a list is told from others, in the order of its numbers.
pub(crate) fn step(told: u64, value: u64) -> u64 {
    told.wrapping_mul(31).wrapping_add(value)
}

/// The numbers below `count`, each pushed again where it is refused: by the far side once, and once for memory.
pub(crate) fn numbers(
    alloc: Global,
    every: u64,
    count: u64,
) -> Result<ArrayOf<u64, Double>, Refused> {
    let mut array = empty(alloc, every)?;
    for value in 0..count {
        if array.push(&value).is_err() && array.push(&value).is_err() {
            array.push(&value)?;
        }
    }
    Ok(array)
}

fn told(alloc: Global, count: u64) -> Result<u64, Refused> {
    let mut array = numbers(alloc, 0, count)?;
    array.fold(7u64, step)
}

// The same by reads of whole blocks, until there is none: at most three.
fn told_by_blocks(alloc: Global, count: u64) -> Result<u64, Refused> {
    let mut array = numbers(alloc, 0, count)?;
    let mut values = Vec::new(alloc);
    let mut told = 7u64;
    let mut i = 0usize;
    for _ in 0..4 {
        match array.get_many(i, &mut values) {
            Ok(()) => {}
            Err(Refused::Range) if i == array.len() => return Ok(told),
            Err(why) => return Err(why),
        }
        for value in &values {
            told = step(told, *value);
        }
        i = i.saturating_add(values.len());
    }
    Err(Refused::Range)
}

fn wanted(count: u64) -> u64 {
    let mut told = 7u64;
    for value in 0..count {
        told = step(told, value);
    }
    told
}

#[test]
fn a_fold_takes_all_in_order(rt: HostRuntime) {
    for count in [0u64, 1, 510, 511, 512, 1_022, 1_023] {
        let mut sum = told(rt.alloc(), count);
        if sum == Err(Refused::Memory) {
            sum = told(rt.alloc(), count);
        }
        assert!(rt; sum == Ok(wanted(count)), "{count}");
    }
}

#[test]
fn blocks_have_all_in_order(rt: HostRuntime) {
    for count in [0u64, 1, 510, 511, 512, 1_022, 1_023] {
        let mut sum = told_by_blocks(rt.alloc(), count);
        if sum == Err(Refused::Memory) {
            sum = told_by_blocks(rt.alloc(), count);
        }
        assert!(rt; sum == Ok(wanted(count)), "{count}");
    }
}

/// From which record on, into how many bytes, and how many records come, where there are a thousand of 8 bytes.
type Row = (usize, usize, Result<usize, Refused>);

#[rattlefmt::skip]
const ROWS: &[Row] = &[
    (0, 8, Ok(1)),
    (0, 4_088, Ok(511)),
    (0, 4_096, Ok(511)),
    (500, 4_096, Ok(11)),
    (510, 16, Ok(1)),
    (511, 4_096, Ok(489)),
    (999, 4_096, Ok(1)),
    (1_000, 8, Err(Refused::Range)),
    (0, 7, Err(Refused::Length)),
    (0, 0, Err(Refused::Length)),
];

// Whether so many come, and the last of them is its own number.
fn come(array: &mut Array<Double>, row: &Row) -> bool {
    let mut out = [0u8; 4_096];
    let room = row.1.min(4_096);
    let came = array.get_many(row.0, &mut out[..room]);
    let Ok(n) = came else {
        return came == row.2;
    };
    let last = (row.0.saturating_add(n).saturating_sub(1) as u64).to_le_bytes();
    let end = n.saturating_mul(8);
    came == row.2 && out.get(end.saturating_sub(8)..end) == Some(&last[..])
}

fn thousand(alloc: Global) -> Result<Array<Double>, Refused> {
    let mut array = Array::new(alloc, Double::new(alloc, true, 100, 0), 8)?;
    for value in 0..1_000u64 {
        let bytes = value.to_le_bytes();
        if array.push(&bytes).is_err() {
            array.push(&bytes)?;
        }
    }
    Ok(array)
}

#[test]
fn a_block_is_read_at_once(rt: HostRuntime) {
    let Ok(mut array) = thousand(rt.alloc()) else {
        assert!(rt; false);
        return;
    };
    for row in ROWS {
        assert!(rt; come(&mut array, row), "{} {}", row.0, row.1);
    }
}

fn made(alloc: Global, size: usize) -> Option<Refused> {
    Array::new(alloc, Double::new(alloc, true, 100, 0), size).err()
}

#[test]
fn a_record_has_a_length(rt: HostRuntime) {
    assert!(rt; made(rt.alloc(), 0) == Some(Refused::Length) && made(rt.alloc(), 1).is_none());
    assert!(rt;
        made(rt.alloc(), 4_089) == Some(Refused::Length) && made(rt.alloc(), 4_088).is_none()
    );
    let Ok(mut array) = thousand(rt.alloc()) else {
        assert!(rt; false);
        return;
    };
    let mut out = [0u8; 9];
    for n in [0usize, 7, 9] {
        let out = &mut out[..n];
        assert!(rt; array.get(3, out) == Err(Refused::Length));
        assert!(rt; array.set(3, out) == Err(Refused::Length));
        assert!(rt; array.push(out) == Err(Refused::Length));
        assert!(rt; array.pop(out) == Err(Refused::Length));
    }
    assert!(rt; array.len() == 1_000 && array.size() == 8 && !array.is_empty());
}
