//! Values beside those of a list.

use far_double::Double;
use far_objects::Objects;
use far_packed::Packed;
use far_word::Refused;
use std::alloc::Global;

/// A value's number, how many bytes it has, and which.
type Value = (u32, usize, u8);

/// How many values there are at once.
const MOST: usize = 24;

// The next number of a row that looks as if by chance.
fn next(state: u64) -> u64 {
    state
        .wrapping_mul(6_364_136_223_846_793_005)
        .wrapping_add(1_442_695_040_888_963_407)
}

// Whether a value is as the list has it.
fn is_so(packed: &mut Packed<Double>, value: &Value, all: &mut [u8; 1024]) -> bool {
    let len = value.1.min(all.len());
    all.fill(0);
    let read = packed.read(value.0, 0, &mut all[..len]);
    let same = all[..len].iter().all(|b| *b == value.2);
    packed.len_of(value.0) == Some(value.1)
        && (read == Ok(()) && same || read == Err(Refused::Device))
}

// One value more, if it isn't refused.
fn add(
    packed: &mut Packed<Double>,
    values: &mut Vec<Value>,
    len: usize,
    byte: u8,
) -> Result<bool, Refused> {
    let bytes = [byte; 1024];
    let len = len.min(bytes.len());
    match packed.alloc(&bytes[..len]) {
        Ok(number) => {
            let Ok(()) = values.push((number, len, byte)) else {
                return Err(Refused::Memory);
            };
            Ok(true)
        }
        Err(Refused::Device) => Ok(true),
        Err(why) => Err(why),
    }
}

// So many rounds: a value comes or goes, or has other bytes; then one is read. Whether all was as in the list, and the worker had no more objects than
// values.
fn runs(alloc: Global, every: u64, rounds: u64) -> Result<bool, Refused> {
    let mut packed = Packed::new(alloc, Double::new(alloc, true, 1_000, every))?;
    let mut values: Vec<Value> = Vec::new(alloc);
    let mut all = [0u8; 1024];
    let mut state = every;
    let mut right = true;
    for _ in 0..rounds {
        state = next(state);
        let byte = ((state >> 40) % 251) as u8;
        let len = (state >> 20) as usize % 1_000 + 1;
        if values.len() < MOST && state >> 63 == 0 {
            right = add(&mut packed, &mut values, len, byte)? && right;
        } else if let Some((number, len, _)) = values.pop() {
            let bytes = [byte; 1024];
            let len = len.min(bytes.len());
            if state >> 62 == 3 && packed.write(number, 0, &bytes[..len]) == Ok(()) {
                let Ok(()) = values.push((number, len, byte)) else {
                    return Err(Refused::Memory);
                };
            } else {
                right = packed.drop_object(number) == Ok(())
                    && packed.len_of(number) == None
                    && right;
            }
        }
        if let Some(value) = values.get((state >> 8) as usize % MOST) {
            right = is_so(&mut packed, value, &mut all) && right;
        }
        right = packed.worker().live() <= values.len() && right;
    }
    Ok(right)
}

#[test]
fn values_are_those_of_a_list(rt: HostRuntime) {
    for every in 0..4u64 {
        let mut right = runs(rt.alloc(), every * every, 500);
        if right == Err(Refused::Memory) {
            right = runs(rt.alloc(), every * every, 500);
        }
        assert!(rt; right == Ok(true), "{every}");
    }
}

// Twenty values come and go, the oldest first, time and again, in room for four blocks.
fn comes_and_goes(alloc: Global) -> Result<bool, Refused> {
    let mut packed = Packed::with_room(alloc, Double::new(alloc, true, 4, 0), 4)?;
    let mut numbers = [0u32; 20];
    for _ in 0..100u8 {
        for number in &mut numbers {
            *number = packed.alloc(b"a value that comes and goes")?;
        }
        for number in &numbers {
            packed.drop_object(*number)?;
        }
    }
    Ok(packed.worker().live() == 0)
}

#[test]
fn room_comes_back(rt: HostRuntime) {
    let mut right = comes_and_goes(rt.alloc());
    if right == Err(Refused::Memory) {
        right = comes_and_goes(rt.alloc());
    }
    assert!(rt; right == Ok(true));
}
