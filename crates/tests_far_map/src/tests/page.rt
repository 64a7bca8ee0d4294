//! The lines of docs/USING.md.

use far_double::Double;
use far_map::Map;
use far_objects::Objects;
use far_word::Refused;
use std::alloc::Global;

fn holds<O: Objects + Drop>(alloc: Global, map: &mut Map<O>) -> Result<bool, Refused> {
    // page
    map.insert(b"apple", b"green")?; // true: it is new
    map.insert(b"apple", b"red")?; // false
    let mut out = Vec::new(alloc);
    let there = map.get(b"apple", &mut out)?; // true; out: red
    map.update(b"apple", &mut out, |value: &mut Vec<u8>| value.truncate(2))?;
    let len = map.get_with(b"apple", |value: &[u8]| value.len())?; // Some(2), not copied
    let mut bytes = 0usize;
    map.for_each(|key: &[u8], _value: &[u8]| bytes = bytes.wrapping_add(key.len()))?;
    map.remove(b"apple")?;
    map.reserve(1_000)?;
    // end
    Ok(there && len == Some(2) && bytes == 5 && map.is_empty())
}

// The lengths of all values, until one is longer than so many: then that one's.
fn lengths<O: Objects + Drop>(
    map: &mut Map<O>,
    most: usize,
) -> Result<Result<usize, usize>, Refused> {
    map.fold(0usize, |sum: usize, _key: &[u8], value: &[u8]| {
        if value.len() > most {
            Err(value.len())
        } else {
            Ok(sum.wrapping_add(value.len()))
        }
    })
}

fn folds<O: Objects + Drop>(map: &mut Map<O>) -> Result<bool, Refused> {
    let none = lengths(map, 9)?;
    map.insert(b"fig", b"green")?;
    map.insert(b"plum", b"")?;
    map.insert(b"pear", b"blue")?;
    Ok(none == Ok(0) && lengths(map, 5)? == Ok(9) && lengths(map, 4)? == Err(5))
}

// A map may go to another thread.
fn goes<T: Send + Drop>(_map: T) {}

fn page(alloc: Global) -> Result<(bool, bool), Refused> {
    let mut map = Map::new(alloc, Double::new(alloc, true, 1_000_000, 0), [9; 16])?;
    let held = holds(alloc, &mut map)?;
    let folded = folds(&mut map)?;
    goes(map);
    Ok((held, folded))
}

#[test]
fn the_page_holds(rt: HostRuntime) {
    let mut read = page(rt.alloc());
    if read == Err(Refused::Memory) {
        read = page(rt.alloc());
    }
    assert!(rt; read == Ok((true, true)));
}
