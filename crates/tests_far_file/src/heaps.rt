//! Heaps over devices that fail: once a heap has the device, its handle tells why a call was refused `Device`.

ghost use Rattle.std.specs.Prelude.{◌≡◌};

use super::own::{Breaking, Crooked};
use far_core::Shape;
use far_device::Device;
use far_file::{
    Digest, FileDevice, FileFault, KeyFault, LastFault, MemStorage, NewFile, Seal, SealedDevice,
    Storage, StorageFault,
};
use far_heap::{Blank, Heap, HeapName, Mutator};
use far_policy::Oldest;
use far_word::Refused;
use std::alloc::Global;
use std::fs::{File, OpenOptions};
use std::marker::Brand;
use std::sync::Wait;

const SHAPE: Shape = Shape {
    logs: 4,
    mutators: 1,
    epoch: 0,
};

// Whether a call was refused `Device`, and what the handle told then: of a round that sends object 0 far, and perhaps 1, and of a view that brings 0.
type Told = (bool, Option<KeyFault>);

// What a fault of object 0 is told as.
fn refused(why: FileFault) -> Told {
    (true, Some(KeyFault { key: 0, why }))
}

const NONE: Told = (false, None);

// Three objects that fill a log each.
fn makes_three<K: HeapName, D: Device + Drop, R: Wait>(
    rt: &R,
    mutator: &mut Mutator<K, D>,
) -> Result<(), Refused> {
    for _ in 0..3u8 {
        mutator.alloc(rt, 4088, 1)?;
    }
    Ok(())
}

// What is told of a round of so many logs, and of a view after it, before which a file is cut.
fn told_of<K: HeapName, D: Device + Drop, R: Wait>(
    rt: &R,
    heap: &Heap<K, D>,
    mutator: Mutator<K, D>,
    last: &LastFault,
    most: usize,
    cut: Option<&File>,
) -> (Told, Told) {
    let round = heap.run_round(rt, &mut Oldest, most, 9);
    let round = matches!(round, Err(fault) if fault.why == Refused::Device);
    let left = (round, last.get());
    if let Some(file) = cut {
        let _ = file.set_len(0);
    }
    let mut scope = mutator.open();
    let view = matches!(scope.view(rt, 0), Err(Refused::Device));
    let _ = scope.close();
    (left, (view, last.get()))
}

// The same if three objects can be made before.
fn told_if_made<K: HeapName, D: Device + Drop, R: Wait>(
    rt: &R,
    heap: &Heap<K, D>,
    mut mutator: Mutator<K, D>,
    last: &LastFault,
    most: usize,
    cut: Option<&File>,
) -> Option<(Told, Told)> {
    if makes_three(rt, &mut mutator).is_ok() {
        Some(told_of(rt, heap, mutator, last, most, cut))
    } else {
        None
    }
}

// The same on a heap of this name.
fn runs<K: HeapName, D: Device + Drop, R: Wait>(
    rt: &R,
    alloc: Global,
    blank: Blank<D>,
    last: &LastFault,
    most: usize,
    cut: Option<&File>,
) -> Option<(Told, Told)>
    requires { blank.heap ≡ K.heap }
{
    match Heap::<K, D>::new(alloc, blank) {
        Ok((heap, mut mutators)) => match mutators.pop() {
            Some(mutator) => told_if_made(rt, &heap, mutator, last, most, cut),
            None => None,
        },
        Err(_) => None,
    }
}

// The same on a heap over a device.
fn runs_over<D: Device + Drop, R: Wait>(
    rt: &R,
    alloc: Global,
    device: D,
    last: &LastFault,
    most: usize,
    cut: Option<&File>,
) -> Option<(Told, Told)> {
    match Blank::new(alloc, SHAPE, device) {
        Ok(blank) => runs::<Brand, D, R>(rt, alloc, blank, last, most, cut),
        Err(_) => None,
    }
}

// Two handles of a device.
fn handles<F: Storage + Drop, L: Seal>(
    device: &mut SealedDevice<F, L>,
) -> Option<(LastFault, LastFault)> {
    match (device.last_fault(), device.last_fault()) {
        (Ok(one), Ok(other)) => Some((one, other)),
        _ => None,
    }
}

// The same, if a second handle tells the same in the end. Refused so: `last_fault` that hands out a handle on another word the second time.
fn asked<F: Storage + Drop, L: Seal, R: Wait>(
    rt: &R,
    alloc: Global,
    mut device: SealedDevice<F, L>,
    most: usize,
    cut: Option<&File>,
) -> Option<(Told, Told)> {
    let Some((last, other)) = handles(&mut device) else {
        return None;
    };
    let told = runs_over(rt, alloc, device, &last, most, cut);
    if other.get() == last.get() {
        told
    } else {
        None
    }
}

// The same of a device over this file.
fn asked_of_file<R: Wait>(
    rt: &R,
    alloc: Global,
    file: File,
    cut: Option<&File>,
) -> Option<(Told, Told)> {
    asked(rt, alloc, FileDevice::<File>::new(alloc, file), 1, cut)
}

#[test]
fn a_full_disk_is_told(rt: HostRuntime) {
    let full = refused(FileFault::Storage(StorageFault::Full));
    let mut options = OpenOptions::new();
    options.read(true);
    options.write(true);
    match options.open(&rt, "/dev/full") {
        Ok(file) => {
            assert!(rt;
                asked_of_file(&rt, rt.alloc(), file, None) == Some((full, (false, full.1)))
            );
        }
        Err(_) => assert!(rt; false),
    }
}

// What is told of a file that another handle cuts.
fn asked_of_cut<R: Wait>(rt: &R, alloc: Global, file: File) -> Option<(Told, Told)> {
    match file.try_clone() {
        Ok(other) => asked_of_file(rt, alloc, file, Some(&other)),
        Err(_) => None,
    }
}

#[test]
fn a_file_that_is_cut_short_is_told(rt: HostRuntime) {
    let short = refused(FileFault::Storage(StorageFault::Short));
    match NewFile::new().replacing().open(&rt, "cut_under_a_heap") {
        Ok(file) => assert!(rt; asked_of_cut(&rt, rt.alloc(), file) == Some((NONE, short))),
        Err(_) => assert!(rt; false),
    }
}

#[test]
fn other_bytes_are_told(rt: HostRuntime) {
    let storage = Crooked {
        inner: MemStorage::new(rt.alloc()),
        at: 0,
    };
    let device = SealedDevice::<Crooked<MemStorage>, Digest>::new(rt.alloc(), storage);
    assert!(rt;
        asked(&rt, rt.alloc(), device, 1, None) == Some((NONE, refused(FileFault::Misfit)))
    );
}

#[test]
fn storage_that_fails_is_told(rt: HostRuntime) {
    let failed = refused(FileFault::Storage(StorageFault::Failed));
    for (k, answer) in [
        (1, (failed, (false, failed.1))),
        (2, (NONE, failed)),
        (3, (NONE, NONE)),
    ] {
        let storage = Breaking::new(MemStorage::new(rt.alloc()), k, StorageFault::Failed);
        let device = FileDevice::<Breaking<MemStorage>>::new(rt.alloc(), storage);
        assert!(rt; asked(&rt, rt.alloc(), device, 1, None) == Some(answer));
    }
}

// Whether a handle tells no fault that was before, and then the last of two, of a key under which nothing is and of one that has no slot.
fn tells_the_last(mut device: FileDevice<MemStorage>) -> bool {
    let before = device.read(7).is_err();
    let Ok(last) = device.last_fault() else {
        return false;
    };
    let none = before && last.get().is_none();
    let fail = device.read(6).is_err() && device.write(2048, &[1]).is_err();
    let why = FileFault::NoSlot;
    none && fail && last.get() == Some(KeyFault { key: 2048, why })
}

#[test]
fn a_handle_tells_the_last_of_two_faults(rt: HostRuntime) {
    let storage = MemStorage::new(rt.alloc());
    assert!(rt; tells_the_last(FileDevice::<MemStorage>::new(rt.alloc(), storage)));
}

#[test]
fn the_key_that_failed_is_told(rt: HostRuntime) {
    let why = FileFault::Storage(StorageFault::Failed);
    let second = Some(KeyFault { key: 1, why });
    let storage = Breaking::new(MemStorage::new(rt.alloc()), 2, StorageFault::Failed);
    let device = FileDevice::<Breaking<MemStorage>>::new(rt.alloc(), storage);
    let told = asked(&rt, rt.alloc(), device, 2, None);
    assert!(rt; told == Some(((true, second), (false, second))));
}
