//! Objects by number.

use far_device::MemDevice;
use far_objects::Objects;
use far_pool::{Layout, MemDevices, Worker};
use far_private::PrivateHeap;
use far_word::Refused;
use std::alloc::Global;

// What there is of two objects, the first of three bytes and the other of five zeros.
fn are_told<O: Objects>(worker: &mut O, number: u32, zeros: u32) -> bool {
    let mut out = [9; 5];
    worker.read(zeros, 0, &mut out) == Ok(())
        && out == [0; 5]
        && worker.read(number, 0, &mut out[..3]) == Ok(())
        && out[..3] == [1, 7, 3]
        && worker.len_of(number) == Some(3)
        && worker.len_of(zeros) == Some(5)
        && number != zeros
}

// What numbers that have no object answer, and lengths that are none.
fn are_refused<O: Objects>(worker: &mut O, number: u32) -> bool {
    let none = Err(Refused::NotHeld);
    let long = Err(Refused::Length);
    worker.read(number, 0, &mut [0]) == none
        && worker.write(number, 0, &[1]) == none
        && worker.drop_object(number) == none
        && worker.len_of(number).is_none()
        && worker.alloc(&[]) == long
        && worker.alloc_zeros(4089) == long
        && worker.alloc_zeros(usize::MAX) == long
}

// Seven accesses, of which four are refused.
fn goes_by_number<O: Objects>(worker: &mut O) -> Result<bool, Refused> {
    let number = worker.alloc(&[1, 2, 3])?;
    let zeros = worker.alloc_zeros(5)?;
    worker.write(number, 1, &[7])?;
    let told = are_told(worker, number, zeros);
    worker.drop_object(number)?;
    let gone = are_refused(worker, number);
    Ok(told && gone && are_refused(worker, u32::MAX) && worker.len_of(zeros) == Some(5))
}

// Each read and write by number is an access, refused or not.
fn of_a_worker(alloc: Global) -> Result<bool, Refused> {
    let layout = Layout { heaps: 2, logs: 3 };
    let mut worker = Worker::new(alloc, MemDevices::new(alloc), layout, true)?;
    let right = goes_by_number(&mut worker)?;
    Ok(right && worker.statistics().accesses == 7)
}

fn of_a_heap(alloc: Global) -> Result<bool, Refused> {
    let mut heap = PrivateHeap::new(alloc, 3, true, MemDevice::new(alloc))?;
    goes_by_number(&mut heap)
}

#[test]
fn objects_go_by_number(rt: HostRuntime) {
    assert!(rt; of_a_worker(rt.alloc()) == Ok(true));
    assert!(rt; of_a_heap(rt.alloc()) == Ok(true));
}
