//! Rows are played: keys that have some value are given another.

use far_map::Map;
use far_objects::Objects;
use far_word::Refused;

/// Keys: the first one's number, how many they are, how far apart their numbers lie, and how many bytes a key has: the first of its number's four, or more than
/// four of one kind.
type Keys = (u32, u32, u32, usize);

/// Keys; how long a value each of them has, and then gets, if any; whether that is a change of the one that is there; and what is answered: whether it had one.
pub(crate) type Row = (
    Keys,
    Option<usize>,
    Option<usize>,
    bool,
    Result<bool, Refused>,
);

// The first bytes, or all.
fn part(bytes: &[u8], len: usize) -> &[u8] {
    if len < bytes.len() {
        &bytes[..len]
    } else {
        bytes
    }
}

// Whether a key has a value of this length, by both calls that ask.
fn has<O: Objects + Drop>(
    map: &mut Map<O>,
    key: &[u8],
    len: Option<usize>,
    out: &mut Vec<u8>,
) -> Result<bool, Refused> {
    let there = map.get(key, out)?;
    let named = map.contains_key(key)?;
    match len {
        Some(len) => Ok(there && named && out.len() == len),
        None => Ok(!there && !named),
    }
}

// Whether a call is made again: the far side refuses it twice at most, and memory once.
fn is_refused(answer: Result<bool, Refused>) -> bool {
    answer == Err(Refused::Device) || answer == Err(Refused::Memory)
}

fn has_again<O: Objects + Drop>(
    map: &mut Map<O>,
    key: &[u8],
    len: Option<usize>,
    out: &mut Vec<u8>,
) -> Result<bool, Refused> {
    for _ in 0..3 {
        let answer = has(map, key, len, out);
        if !is_refused(answer) {
            return answer;
        }
    }
    has(map, key, len, out)
}

// Gives a key a value, or only changes the one that it has, or takes it out. Whether it had one before.
fn give<O: Objects + Drop>(
    map: &mut Map<O>,
    key: &[u8],
    value: Option<&[u8]>,
    changes: bool,
    out: &mut Vec<u8>,
) -> Result<bool, Refused> {
    let Some(value) = value else {
        return map.remove(key);
    };
    if changes {
        return map.update(key, out, |old: &mut Vec<u8>| {
            old.clear();
            let _ = old.extend_from_slice(value);
        });
    }
    match map.insert(key, value) {
        Ok(new) => Ok(!new),
        Err(why) => Err(why),
    }
}

// The same again where it is refused; there must be as many entries as before then.
fn give_again<O: Objects + Drop>(
    map: &mut Map<O>,
    key: &[u8],
    value: Option<&[u8]>,
    changes: bool,
    out: &mut Vec<u8>,
) -> Result<bool, Refused> {
    let len = map.len();
    for _ in 0..3 {
        let answer = give(map, key, value, changes, out);
        if !is_refused(answer) || map.len() != len {
            return answer;
        }
    }
    give(map, key, value, changes, out)
}

// One key of a row. What is refused leaves the value, and a change gives none to a key that has none.
fn play_key<O: Objects + Drop>(
    map: &mut Map<O>,
    key: &[u8],
    fill: &[u8],
    row: &Row,
    out: &mut Vec<u8>,
) -> Result<bool, Refused> {
    let (before, after, changes) = (row.1, row.2, row.3);
    if !has_again(map, key, before, out)? {
        return Ok(false);
    }
    let value = match after {
        Some(len) => Some(part(fill, len)),
        None => None,
    };
    let answer = give_again(map, key, value, changes, out);
    let stays = answer.is_err() || changes && before.is_none();
    let left = if stays { before } else { after };
    Ok(answer == row.4 && has_again(map, key, left, out)?)
}

fn play_row<O: Objects + Drop>(
    map: &mut Map<O>,
    fill: &[u8],
    row: &Row,
    out: &mut Vec<u8>,
) -> Result<bool, Refused> {
    let (first, count, step, len) = row.0;
    for index in 0..count {
        let number = first.wrapping_add(index.wrapping_mul(step)).to_le_bytes();
        let key = if len > 4 {
            part(fill, len)
        } else {
            part(&number, len)
        };
        if !play_key(map, key, fill, row, out)? {
            return Ok(false);
        }
    }
    Ok(true)
}

pub(crate) fn play_rows<O: Objects + Drop>(
    map: &mut Map<O>,
    fill: &[u8],
    rows: &[Row],
    out: &mut Vec<u8>,
) -> Result<bool, Refused> {
    for row in rows {
        if !play_row(map, fill, row, out)? {
            return Ok(false);
        }
    }
    Ok(true)
}
