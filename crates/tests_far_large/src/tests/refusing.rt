//! Each call refused in turn, and values that have lost a part.

use crate::tests::coming::pattern;
use far_double::Double;
use far_large::Large;
use far_objects::Objects;
use far_word::Refused;
use std::alloc::Global;

// A value of five parts, of which the n-th is refused, beside an object that stays. Once no call is refused, it is put.
fn leaves_no_part(alloc: Global, nth: u64) -> Result<bool, Refused> {
    let mut worker = Double::new(alloc, true, 100, 0);
    let beside = worker.alloc(&[1, 2, 3])?;
    let all = pattern(alloc, 20_000)?;
    worker.set_every(nth);
    let refused = Large::put(alloc, &mut worker, all.as_slice()).err() == Some(Refused::Device);
    let left = worker.live();
    worker.set_every(0);
    let mut out = [0; 3];
    worker.read(beside, 0, &mut out)?;
    let large = Large::put(alloc, &mut worker, all.as_slice())?;
    Ok(refused && left == 1 && out == [1, 2, 3] && large.is_held(&worker) && worker.live() == 6)
}

#[test]
fn a_refused_put_leaves_no_part(rt: HostRuntime) {
    for nth in 1..=5u64 {
        assert!(rt; leaves_no_part(rt.alloc(), nth) == Ok(true), "{nth}");
    }
}

// With room for so many objects, a value of four parts is put or leaves none.
fn fits(alloc: Global, room: usize) -> Result<bool, Refused> {
    let mut worker = Double::new(alloc, true, room, 0);
    let all = pattern(alloc, 16_000)?;
    let put = Large::put(alloc, &mut worker, all.as_slice());
    match put {
        Ok(_large) => Ok(4 <= room && worker.live() == 4),
        Err(why) => Ok(room < 4 && why == Refused::NoRoom && worker.live() == 0),
    }
}

#[test]
fn no_room_for_a_part_is_none_for_a_value(rt: HostRuntime) {
    for room in 0..6usize {
        assert!(rt; fits(rt.alloc(), room) == Ok(true), "{room}");
    }
}

// A value of three parts is put by three calls, and read by three, of which the n-th is refused; the next isn't.
fn reads_later(alloc: Global, nth: u64) -> Result<bool, Refused> {
    let mut worker = Double::new(alloc, true, 100, 0);
    let all = pattern(alloc, 12_000)?;
    let large = Large::put(alloc, &mut worker, all.as_slice())?;
    worker.set_every(nth);
    let mut out = pattern(alloc, 12_000)?;
    let refused = large.read(&mut worker, 0, out.as_mut_slice()) == Err(Refused::Device);
    worker.set_every(0);
    large.read(&mut worker, 0, out.as_mut_slice())?;
    let calls = worker.calls() == nth.saturating_add(6);
    Ok(refused && calls && out.as_slice() == all.as_slice())
}

#[test]
fn a_refused_read_is_made_again(rt: HostRuntime) {
    for nth in 1..=3u64 {
        assert!(rt; reads_later(rt.alloc(), nth) == Ok(true), "{nth}");
    }
}

/// Where a read begins, how many bytes it asks for, and what a value of 9,000 bytes answers: whole, and without its second part.
type Row = (usize, usize, Result<(), Refused>, Result<(), Refused>);

#[rattlefmt::skip]
const ROWS: &[Row] = &[
    (0, 9000, Ok(()), Err(Refused::NotHeld)),
    (0, 4088, Ok(()), Ok(())),
    (0, 4089, Ok(()), Err(Refused::NotHeld)),
    (4088, 1, Ok(()), Err(Refused::NotHeld)),
    (8175, 2, Ok(()), Err(Refused::NotHeld)),
    (8176, 824, Ok(()), Ok(())),
    (0, 0, Err(Refused::Range), Err(Refused::Range)),
    (8999, 2, Err(Refused::Range), Err(Refused::Range)),
    (9000, 1, Err(Refused::Range), Err(Refused::Range)),
    (0, 9001, Err(Refused::Range), Err(Refused::Range)),
    (usize::MAX, 1, Err(Refused::Range), Err(Refused::Range)),
];

// What a read answers.
fn answer(
    alloc: Global,
    worker: &mut Double,
    large: &Large,
    row: &Row,
) -> Result<Result<(), Refused>, Refused> {
    let mut out = pattern(alloc, row.1)?;
    Ok(large.read(worker, row.0, out.as_mut_slice()))
}

fn answers_so(alloc: Global, row: &Row) -> Result<bool, Refused> {
    let mut worker = Double::new(alloc, true, 100, 0);
    let all = pattern(alloc, 9000)?;
    let large = Large::put(alloc, &mut worker, all.as_slice())?;
    let whole = answer(alloc, &mut worker, &large, row)?;
    worker.drop_object(1)?;
    let part = answer(alloc, &mut worker, &large, row)?;
    let held = large.is_held(&worker);
    let dropped = large.drop_large(&mut worker);
    Ok(
        whole == row.2
            && part == row.3
            && !held
            && dropped == Err(Refused::NotHeld)
            && worker.live() == 2,
    )
}

#[test]
fn a_read_answers_so(rt: HostRuntime) {
    for row in ROWS {
        assert!(rt;
            answers_so(rt.alloc(), row) == Ok(true),
            "{} {}",
            row.0,
            row.1
        );
    }
}

#[test]
fn no_byte_is_no_value(rt: HostRuntime) {
    let mut worker = Double::new(rt.alloc(), true, 100, 0);
    assert!(rt; Large::put(rt.alloc(), &mut worker, &[]).err() == Some(Refused::Length));
    assert!(rt; worker.live() == 0);
}
