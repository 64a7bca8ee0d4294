//! The text of the crate's page, as a test.

ghost use Rattle.std.specs.Prelude.{◌≡◌, true};

use far_device::{Device, MemDevice};
use far_private::PrivateHeap;
use far_word::Refused;
use std::alloc::Global;

// Whether each object has its bytes, near or far.
fn is_so<D: Device + Drop>(heap: &mut PrivateHeap<D>) -> Result<bool, Refused> {
    let pointer = heap.alloc_with(b"hello", 1)?;
    heap.write(pointer, 0, b"J")?;
    for _ in 0..100u8 {
        heap.alloc(4088, 2)?;
    }
    let mut out = [0; 5];
    heap.read(pointer, 0, &mut out)?;
    let came_back = out == *b"Jello" && heap.statistics().looks == 1;
    let mut last = [0; 1];
    heap.update(pointer, 4, &mut last, |bytes: &mut [u8]| bytes.fill(b'y'))?;
    heap.read(pointer, 0, &mut out)?;
    let changed = out == *b"Jelly" && heap.len_of(pointer) == Some(5);
    heap.drop_object(pointer)?;
    let gone = heap.read(pointer, 0, &mut out) == Err(Refused::NotHeld);
    Ok(came_back && changed && gone)
}

// Whether it is so in a heap over an honest device.
fn is_so_over<D: Device + Drop>(alloc: Global, device: D) -> bool
    requires { D.honest device ≡ true }
{
    match PrivateHeap::new(alloc, 16, true, device) {
        Ok(mut heap) => is_so(&mut heap) == Ok(true),
        Err(_) => false,
    }
}

#[test]
fn readme(rt: HostRuntime) {
    assert!(rt; is_so_over(rt.alloc(), MemDevice::new(rt.alloc())));
}
