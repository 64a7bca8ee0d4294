//! One key's value is changed, over workers that refuse each so many-th call: what is refused leaves the old value, and no object more.

use crate::tests::holding::{give_again, has, objects_of, told_bytes};
use far_dict::Dict;
use far_double::Double;
use far_word::Refused;
use std::alloc::Global;

/// How long a value the key has, if any, and then gets.
type Change = (Option<usize>, Option<usize>);

const CHANGES: &[Change] = &[
    (None, Some(0)),
    (None, Some(4_083)),
    (Some(0), Some(4_082)),
    (Some(4_082), Some(4_083)),
    (Some(4_083), Some(4_082)),
    (Some(4_088), Some(4_089)),
    (Some(5), Some(65_536)),
    (Some(65_536), Some(0)),
    (Some(65_536), Some(65_535)),
    (Some(65_536), None),
    (Some(7), None),
    (None, None),
];

// Whether the map has this entry alone, and the workers its objects and no more.
fn stands(
    dict: &mut Dict<Double>,
    key: &[u8],
    value: Option<usize>,
    fill: &[u8],
    out: &mut Vec<u8>,
) -> bool {
    let (short, long) = objects_of(key.len(), value);
    let count = if value.is_some() { 1 } else { 0 };
    has(dict, key, value, fill, out)
        && dict.len() == count
        && dict.worker().live() == short
        && dict.long_worker().live() == long
}

// Whether an answer is right: what there was, or a refusal where there may be one.
fn is_right(answer: Result<bool, Refused>, before: Option<usize>, may_refuse: bool) -> bool {
    match answer {
        Ok(there) => there == before.is_some(),
        Err(why) => may_refuse && why == Refused::Device,
    }
}

fn plays_right(
    alloc: Global,
    fill: &[u8],
    change: Change,
    every: (u64, u64),
) -> Result<bool, Refused> {
    let (before, after) = change;
    let mut out = Vec::new(alloc);
    let short = Double::new(alloc, true, 20, every.0);
    let mut dict = Dict::new(alloc, short, Double::new(alloc, true, 40, every.1), [3; 16])?;
    let may_refuse = every != (0, 0);
    let first = give_again(&mut dict, b"plum", None, before, fill, &mut out);
    let had = if first.is_ok() { before } else { None };
    if !is_right(first, None, may_refuse) || !stands(&mut dict, b"plum", had, fill, &mut out) {
        return Ok(false);
    }
    let answer = give_again(&mut dict, b"plum", had, after, fill, &mut out);
    let left = if answer.is_ok() { after } else { had };
    Ok(is_right(answer, had, may_refuse) && stands(&mut dict, b"plum", left, fill, &mut out))
}

// All is done once more where there was no memory for a map.
fn comes_right(alloc: Global, fill: &[u8], change: Change, every: (u64, u64)) -> bool {
    match plays_right(alloc, fill, change, every) {
        Err(Refused::Memory) => plays_right(alloc, fill, change, every) == Ok(true),
        right => right == Ok(true),
    }
}

#[test]
fn a_refused_change_changes_nothing(rt: HostRuntime) {
    let alloc = rt.alloc();
    let Ok(fill) = told_bytes(alloc, 65_536) else {
        return;
    };
    for change in CHANGES {
        for every in 0u64..40 {
            assert!(rt;
                comes_right(alloc, fill.as_slice(), *change, (every, 0)),
                "{change:?} {every}"
            );
            assert!(rt;
                comes_right(alloc, fill.as_slice(), *change, (0, every)),
                "{change:?} 0 {every}"
            );
        }
    }
}
