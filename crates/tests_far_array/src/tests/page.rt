//! The lines of docs/USING.md.

use far_array::ArrayOf;
use far_double::Double;
use far_word::Refused;
use std::alloc::Global;

// What is read by them, and how many values are left.
fn page(alloc: Global) -> Result<(u64, u64, u64, usize), Refused> {
    // page
    let mut array = ArrayOf::<u64, Double>::new(alloc, Double::new(alloc, true, 1_000, 0))?;
    for value in 0..2_000u64 {
        array.push(&value)?; // 511 values an object
    }
    array.set(7, &70)?;
    array.swap(7, 1_000)?;
    let sum = array.fold(0u64, |sum: u64, value: u64| sum.wrapping_add(value))?;
    let (seventy, last) = (array.get(1_000)?, array.pop()?);
    array.truncate(10); // lets the objects go that are empty
    // end
    Ok((sum, seventy, last, array.len()))
}

#[test]
fn a_page_is_true(rt: HostRuntime) {
    let mut read = page(rt.alloc());
    if read == Err(Refused::Memory) {
        read = page(rt.alloc());
    }
    assert!(rt; read == Ok((1_999_063, 70, 1_999, 10)));
}
