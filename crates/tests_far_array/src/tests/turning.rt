//! Each call of the far side refused in turn.

use crate::tests::values::{empty, numbers, step};
use far_array::ArrayOf;
use far_double::Double;
use far_word::Refused;
use std::alloc::Global;

// Two numbers change places, one is set at a block's begin, and the last is taken; each call again where it is refused: by the far side once, and once for memory.
fn change(array: &mut ArrayOf<u64, Double>) -> Result<u64, Refused> {
    if array.swap(3, 1_000).is_err() && array.swap(3, 1_000).is_err() {
        array.swap(3, 1_000)?;
    }
    if array.set(511, &7).is_err() && array.set(511, &7).is_err() {
        array.set(511, &7)?;
    }
    match array.pop() {
        Ok(last) => Ok(last),
        Err(_) => array.pop(),
    }
}

// Number k of what is there then.
fn number_at(k: u64) -> u64 {
    match k {
        3 => 1_000,
        511 => 7,
        1_000 => 3,
        _ => k,
    }
}

fn wanted() -> u64 {
    let mut told = 0u64;
    for k in 0..1_199u64 {
        told = step(told, number_at(k));
    }
    told
}

fn told(alloc: Global, every: u64) -> Result<u64, Refused> {
    let mut array = numbers(alloc, every, 1_200)?;
    if change(&mut array)? != 1_199 || array.len() != 1_199 || array.blocks() != 3 {
        return Err(Refused::Range);
    }
    match array.fold(0u64, step) {
        Ok(told) => Ok(told),
        Err(_) => array.fold(0u64, step),
    }
}

fn is_told(alloc: Global, every: u64) -> bool {
    let mut told_of = told(alloc, every);
    if told_of == Err(Refused::Memory) {
        told_of = told(alloc, every);
    }
    told_of == Ok(wanted())
}

#[test]
fn a_call_that_was_refused_is_made_again(rt: HostRuntime) {
    assert!(rt; is_told(rt.alloc(), 0));
    for every in 6..=16u64 {
        assert!(rt; is_told(rt.alloc(), every), "{every}");
    }
}

// Where every call is refused, nothing is there.
fn stays_empty(alloc: Global) -> Result<bool, Refused> {
    let mut array: ArrayOf<u64, Double> = empty(alloc, 1)?;
    let refused = array.push(&1) == Err(Refused::Device) && array.push(&1) == Err(Refused::Device);
    let folded = array.fold(5u64, step) == Ok(5);
    let none = array.get(0) == Err(Refused::Range) && array.pop() == Err(Refused::Range);
    let still = array.swap(0, 0) == Err(Refused::Range) && array.set(0, &1) == Err(Refused::Range);
    array.truncate(1);
    array.clear();
    Ok(refused && folded && none && still && array.is_empty() && array.blocks() == 0)
}

#[test]
fn a_far_side_that_refuses_all(rt: HostRuntime) {
    let stays = stays_empty(rt.alloc());
    assert!(rt;
        stays == Ok(true) || stays == Err(Refused::Memory) && stays_empty(rt.alloc()) == Ok(true)
    );
}
