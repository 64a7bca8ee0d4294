//! The text of the crate's page, as a test.

use far_pool::{Layout, MemDevices, Plan, Worker};
use far_word::Refused;
use std::alloc::Global;

// Whether each object has its bytes, near or far, and a dropped one none.
fn is_so(alloc: Global, layout: Layout) -> Result<bool, Refused> {
    let mut worker = Worker::new(alloc, MemDevices::new(alloc), layout, true)?;
    let handle = worker.alloc(b"hello", 1)?;
    worker.write(handle, 0, b"J")?;
    let mut last = [0; 1];
    worker.update(handle, 4, &mut last, |bytes: &mut [u8]| bytes.fill(b'y'))?;
    for _ in 0..1000u16 {
        worker.alloc_zeros(1000, 2)?;
    }
    let mut out = [0; 5];
    worker.read(handle, 0, &mut out)?;
    let came_back = out == *b"Jelly" && worker.statistics().far > 700;
    worker.drop_object(handle)?;
    let gone = worker.read(handle, 0, &mut out) == Err(Refused::NotHeld);
    Ok(came_back && gone && worker.handles().count() == 1000)
}

#[test]
fn readme(rt: HostRuntime) {
    let plan = Plan {
        near: 262_144,
        objects: 10_000,
        typical: 64,
    };
    match plan.lay_out() {
        Ok(layout) => assert!(rt; is_so(rt.alloc(), layout) == Ok(true)),
        Err(_) => assert!(rt; false),
    }
}
