//! The lines of docs/USING.md.

use far_double::Double;
use far_objects::Objects;
use far_packed::Packed;
use far_word::Refused;
use std::alloc::Global;

// What is read by them, and how many objects the worker has.
fn page(alloc: Global) -> Result<([u8; 5], usize, usize), Refused> {
    let worker = Double::new(alloc, true, 100, 0);
    // page
    let mut packed = Packed::with_room(alloc, worker, 50)?; // so many blocks at most
    let first = packed.alloc(b"first")?;
    for _ in 0..12u8 {
        packed.alloc(b"another")?; // eight lie in one object of the worker
    }
    let mut bytes = [0; 5];
    packed.read(first, 0, &mut bytes)?;
    packed.drop_object(first)?;
    let live = packed.worker().live();
    // end
    let count = 5 - packed.len_of(first).unwrap_or(5);
    Ok((bytes, live, count))
}

#[test]
fn readme(rt: HostRuntime) {
    let mut read = page(rt.alloc());
    if read == Err(Refused::Memory) {
        read = page(rt.alloc());
    }
    assert!(rt; read == Ok((*b"first", 1, 0)));
}
