//! What a map is asked after each call.

use far_dict::Dict;
use far_double::Double;
use far_objects::MOST;
use far_word::Refused;
use std::alloc::{AllocError, Global};

/// Bytes that tell where they stand.
pub(crate) fn told_bytes(alloc: Global, len: usize) -> Result<Vec<u8>, AllocError> {
    let mut bytes = Vec::with_capacity(alloc, len)?;
    for i in 0..len {
        bytes.push((i / MOST * 7 % 256) as u8 ^ (i % 251) as u8)?;
    }
    Ok(bytes)
}

/// The first bytes, or all.
pub(crate) fn part(bytes: &[u8], len: usize) -> &[u8] {
    if len < bytes.len() {
        &bytes[..len]
    } else {
        bytes
    }
}

/// How many objects an entry takes of each worker.
pub(crate) fn objects_of(key: usize, value: Option<usize>) -> (usize, usize) {
    match value {
        None => (0, 0),
        Some(len) if key <= 4_086 && len <= 4_086 - key => (1, 0),
        Some(len) => (0, len / MOST + if len % MOST == 0 { 0 } else { 1 }),
    }
}

/// Reads a key's value to `out`; once more where there was no memory.
pub(crate) fn read(
    dict: &mut Dict<Double>,
    key: &[u8],
    out: &mut Vec<u8>,
) -> Result<bool, Refused> {
    match dict.get(key, out) {
        Err(Refused::Memory) => dict.get(key, out),
        answer => answer,
    }
}

/// Whether a key has a value of this length, the right one, by both calls that ask; a call that is refused tells nothing.
pub(crate) fn has(
    dict: &mut Dict<Double>,
    key: &[u8],
    len: Option<usize>,
    fill: &[u8],
    out: &mut Vec<u8>,
) -> bool {
    let named = match dict.contains_key(key) {
        Ok(named) => named == len.is_some(),
        Err(why) => why == Refused::Device,
    };
    let read = match (read(dict, key, out), len) {
        (Ok(there), Some(len)) => there && out.as_slice() == part(fill, len),
        (Ok(there), None) => !there,
        (Err(why), _) => why == Refused::Device,
    };
    named && read
}

/// Gives a key a value, or takes it out. Whether it had one before.
pub(crate) fn give(
    dict: &mut Dict<Double>,
    key: &[u8],
    value: Option<usize>,
    fill: &[u8],
) -> Result<bool, Refused> {
    let Some(len) = value else {
        return dict.remove(key);
    };
    match dict.insert(key, part(fill, len)) {
        Ok(new) => Ok(!new),
        Err(why) => Err(why),
    }
}

/// The same, and once more where there was no memory: the key must have what it had before then.
pub(crate) fn give_again(
    dict: &mut Dict<Double>,
    key: &[u8],
    before: Option<usize>,
    value: Option<usize>,
    fill: &[u8],
    out: &mut Vec<u8>,
) -> Result<bool, Refused> {
    match give(dict, key, value, fill) {
        Err(Refused::Memory) if has(dict, key, before, fill, out) => give(dict, key, value, fill),
        answer => answer,
    }
}
