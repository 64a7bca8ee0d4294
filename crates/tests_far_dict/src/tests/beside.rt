//! Calls in a random order beside std's map, over workers of which some refuse each so many-th call: what is refused leaves all as it was.

use crate::tests::holding::{objects_of, part, read, told_bytes};
use far_dict::Dict;
use far_double::Double;
use far_word::Refused;
use std::alloc::Global;
use std::collections::BTreeMap;

/// How long the keys are.
const KEYS: [usize; 8] = [0, 1, 2, 40, 86, 2_000, 4_085, 4_086];

/// How long the values are.
const VALUES: [usize; 16] = [
    0, 1, 2, 86, 87, 1_000, 2_085, 2_086, 2_087, 4_000, 4_046, 4_047, 4_086, 4_087, 4_088, 10_000,
];

/// How many calls are made.
const CALLS: u64 = 400;

/// A map of entries, and how long the value of each key is by std's map: keys by their places in `KEYS`.
#[derive(Drop)]
struct Both {
    dict: Dict<Double>,
    plain: BTreeMap<usize, usize>,
    out: Vec<u8>,
    may_refuse: bool,
}

// The value of this length that a key has: no two keys have the same bytes.
fn value_of(fill: &[u8], key: usize, len: usize) -> &[u8] {
    if key <= fill.len() {
        part(&fill[key..], len)
    } else {
        fill
    }
}

// Whether an answer is what std's map told; a refusal tells nothing.
fn is_right(both: &Both, answer: Result<bool, Refused>, told: bool) -> bool {
    match answer {
        Ok(answer) => answer == told,
        Err(why) => both.may_refuse && why == Refused::Device,
    }
}

// Gives a key a value.
fn put(both: &mut Both, fill: &[u8], key: usize, len: usize) -> bool {
    let new = !both.plain.contains_key(&key);
    let (name, value) = (part(fill, KEYS[key % 8]), value_of(fill, key, len));
    let mut answer = both.dict.insert(name, value);
    if answer == Err(Refused::Memory) {
        answer = both.dict.insert(name, value);
    }
    if answer.is_ok() && both.plain.insert(key, len).is_err() {
        let _ = both.plain.insert(key, len);
    }
    is_right(both, answer, new)
}

// Takes a key out.
fn take(both: &mut Both, fill: &[u8], key: usize) -> bool {
    let there = both.plain.contains_key(&key);
    let answer = both.dict.remove(part(fill, KEYS[key % 8]));
    if answer.is_ok() {
        let _ = both.plain.remove(&key);
    }
    is_right(both, answer, there)
}

// Whether a key has the same in both.
fn is_same(both: &mut Both, fill: &[u8], key: usize) -> bool {
    let name = part(fill, KEYS[key % 8]);
    let named = both.dict.contains_key(name);
    let read = read(&mut both.dict, name, &mut both.out);
    let same = match both.plain.get(&key) {
        Some(len) => read.is_err() || both.out.as_slice() == value_of(fill, key, *len),
        None => true,
    };
    let there = both.plain.contains_key(&key);
    same && is_right(both, named, there) && is_right(both, read, there)
}

// How many objects there must be of each worker.
fn objects(both: &Both) -> (usize, usize) {
    let mut short = 0usize;
    let mut long = 0usize;
    for (key, len) in &both.plain {
        let (one, parts) = objects_of(KEYS[*key % 8], Some(*len));
        short = short.wrapping_add(one);
        long = long.wrapping_add(parts);
    }
    (short, long)
}

// Whether all is the same in both.
fn all_same(both: &mut Both, fill: &[u8]) -> bool {
    for key in 0..8 {
        if !is_same(both, fill, key) {
            return false;
        }
    }
    let live = (both.dict.worker().live(), both.dict.long_worker().live());
    both.dict.len() == both.plain.len() && live == objects(both)
}

// One call, which a number chooses.
fn call(both: &mut Both, fill: &[u8], number: u64) -> bool {
    let key = (number % 8) as usize;
    let choice = number / 128 % 32;
    if choice == 0 {
        both.dict.clear();
        both.plain.clear();
        return true;
    }
    if choice < 9 {
        return take(both, fill, key);
    }
    put(both, fill, key, VALUES[(number / 8 % 16) as usize])
}

// Whether the maps are the same all along, over workers that refuse each so many-th call.
fn plays_right(alloc: Global, fill: &[u8], every: (u64, u64)) -> Result<bool, Refused> {
    let short = Double::new(alloc, true, 20, every.0);
    let long = Double::new(alloc, true, 40, every.1);
    let mut both = Both {
        dict: Dict::new(alloc, short, long, [5; 16])?,
        plain: BTreeMap::new(alloc),
        out: Vec::new(alloc),
        may_refuse: every != (0, 0),
    };
    let mut state = 1u64;
    for _ in 0..CALLS {
        state = state
            .wrapping_mul(6_364_136_223_846_793_005)
            .wrapping_add(1_442_695_040_888_963_407);
        if !call(&mut both, fill, state >> 33) || !all_same(&mut both, fill) {
            return Ok(false);
        }
    }
    Ok(true)
}

// All is done once more where there was no memory for a map.
fn comes_right(alloc: Global, fill: &[u8], every: (u64, u64)) -> bool {
    match plays_right(alloc, fill, every) {
        Err(Refused::Memory) => plays_right(alloc, fill, every) == Ok(true),
        right => right == Ok(true),
    }
}

#[test]
fn it_is_what_a_map_is(rt: HostRuntime) {
    let alloc = rt.alloc();
    let Ok(fill) = told_bytes(alloc, 10_010) else {
        return;
    };
    for every in [(0u64, 0u64), (7, 0), (0, 7), (5, 3)] {
        assert!(rt; comes_right(alloc, fill.as_slice(), every), "{every:?}");
    }
}
