//! The lines of far_dict's page.

use crate::tests::holding::part;
use far_dict::Dict;
use far_double::Double;
use far_objects::Objects;
use far_word::Refused;
use std::alloc::Global;

fn holds<O: Objects + Drop>(
    alloc: Global,
    dict: &mut Dict<O>,
    picture: &[u8],
) -> Result<bool, Refused> {
    dict.insert(b"name", b"a fig")?;
    dict.insert(b"picture", picture)?;
    let mut out = Vec::new(alloc);
    let there = dict.get(b"picture", &mut out)?;
    let right = there && out.len() == 100_000 && dict.len() == 2;
    dict.update(
        b"picture",
        &mut out,
        |value: &mut Vec<u8>| value.truncate(5_000),
    )?;
    let len = dict.get_with(b"picture", |value: &[u8]| value.len())?;
    let mut bytes = 0usize;
    dict.for_each(|key: &[u8], value: &[u8]| {
        bytes = bytes.wrapping_add(key.len()).wrapping_add(value.len());
    })?;
    dict.insert(b"picture", b"")?;
    dict.remove(b"name")?;
    Ok(right && len == Some(5_000) && bytes == 5_016 && dict.len() == 1)
}

// The lengths of all values, until one is longer than so many: then that one's.
fn lengths<O: Objects + Drop>(
    dict: &mut Dict<O>,
    most: usize,
) -> Result<Result<usize, usize>, Refused> {
    dict.fold(0usize, |sum: usize, _key: &[u8], value: &[u8]| {
        if value.len() > most {
            Err(value.len())
        } else {
            Ok(sum.wrapping_add(value.len()))
        }
    })
}

fn folds<O: Objects + Drop>(dict: &mut Dict<O>, picture: &[u8]) -> Result<bool, Refused> {
    dict.clear();
    dict.insert(b"fig", part(picture, 7))?;
    dict.insert(b"plum", picture)?;
    dict.insert(b"pear", part(picture, 9_000))?;
    Ok(
        lengths(dict, 100_000)? == Ok(109_007)
            && lengths(dict, 99_999)? == Err(100_000)
            && lengths(dict, 8)? == Err(9_000)
            && lengths(dict, 6)? == Err(7),
    )
}

// A map may go to another thread.
fn goes<T: Send + Drop>(_map: T) {}

fn page(alloc: Global) -> Result<(bool, bool), Refused> {
    let Ok(picture) = vec![in alloc; 5u8; 100_000] else {
        return Err(Refused::Memory);
    };
    let worker = Double::new(alloc, true, 1_000_000, 0);
    let long_worker = Double::new(alloc, true, 1_000_000, 0);
    let mut dict = Dict::new(alloc, worker, long_worker, [9; 16])?;
    let held = holds(alloc, &mut dict, picture.as_slice())?;
    let folded = folds(&mut dict, picture.as_slice())?;
    goes(dict);
    Ok((held, folded))
}

#[test]
fn the_page_holds(rt: HostRuntime) {
    let mut read = page(rt.alloc());
    if read == Err(Refused::Memory) {
        read = page(rt.alloc());
    }
    assert!(rt; read == Ok((true, true)));
}
