//! Devices that fail, and makers that do.

ghost use Rattle.std.specs.Prelude.{◌≡◌, false};

use crate::tests::large::pattern;
use far_file::{FileDevice, MemStorage, NewFile, Storage, StorageFault};
use far_large::Large;
use far_pool::{FileDevices, Handle, Layout, MakeDevice, Worker};
use far_word::Refused;
use std::alloc::Global;
use std::fs::File;

/// Storage that takes nothing.
#[derive(Drop)]
struct Closed;

impl Storage for Closed {
    ghost seen = { λ _ _. 0 };

    ghost honest = { λ _. false };

    ghost puts = { λ _ _ _ _ _. Unit {0} };

    ghost gets = { λ _ _ _ _. Unit {0} };

    fn put(&mut self, _at: u64, _bytes: &[u8]) -> Result<(), StorageFault> {
        Err(StorageFault::Failed)
    }

    fn get(&self, _at: u64, _buffer: &mut [u8]) -> Result<(), StorageFault> {
        Err(StorageFault::Failed)
    }
}

/// Makes devices that take nothing, up to a number of them.
#[derive(Drop)]
struct ClosedDevices {
    alloc: Global,
    most: u32,
}

impl MakeDevice<FileDevice<Closed>> for ClosedDevices {
    ghost honest = { false };

    ghost refuses = { λ why. Unit {0} };

    fn make(&mut self, heap: u32) -> Result<FileDevice<Closed>, Refused> {
        if heap >= self.most {
            return Err(Refused::Device);
        }
        Ok(FileDevice::<Closed>::new(self.alloc, Closed))
    }
}

type Pool = Worker<FileDevice<Closed>, ClosedDevices>;

fn pool(alloc: Global, heaps: u32, most: u32) -> Result<Pool, Refused> {
    let layout = Layout { heaps, logs: 4 };
    Worker::new(alloc, ClosedDevices { alloc, most }, layout, false)
}

// How many objects of a log each were made before one was refused, and why that was.
fn fill(pool: &mut Pool, last: &mut Option<Handle>) -> (u64, Option<Refused>) {
    for made in 0..100u64 {
        match pool.alloc(&[9; 4000], 1) {
            Ok(handle) => *last = Some(handle),
            Err(why) => return (made, Some(why)),
        }
    }
    (100, None)
}

// How many objects there are.
fn count(pool: &Pool) -> u64 {
    let mut objects: u64 = 0;
    for _ in pool.handles() {
        objects = objects.saturating_add(1);
    }
    objects
}

// Two heaps of four logs have room for six such objects at least; nothing is lost where there is none, and a drop makes some.
fn keeps_on(pool: &mut Pool) -> Result<bool, Refused> {
    let mut last = None;
    let (made, why) = fill(pool, &mut last);
    let Some(handle) = last else {
        return Ok(false);
    };
    let mut out = [0; 4000];
    pool.read(handle, 0, &mut out)?;
    pool.drop_object(handle)?;
    let again = pool.alloc(&[7; 4000], 1).is_ok() || pool.alloc(&[7; 4000], 1).is_ok();
    let counted = count(pool) == made;
    Ok(
        6 <= made
            && made <= 8
            && why == Some(Refused::NoRoom)
            && out == [9; 4000]
            && again
            && counted,
    )
}

#[test]
fn what_no_device_takes_stays(rt: HostRuntime) {
    match pool(rt.alloc(), 2, 2) {
        Ok(mut pool) => assert!(rt; keeps_on(&mut pool) == Ok(true)),
        Err(_) => assert!(rt; false),
    }
}

// A full heap refuses more objects than it has pointers, and then takes short ones.
fn stays_full(pool: &mut Pool) -> Result<bool, Refused> {
    let mut last = None;
    let (made, _) = fill(pool, &mut last);
    for _ in 0..2100u16 {
        if pool.alloc(&[9; 4000], 1) != Err(Refused::NoRoom) {
            return Ok(false);
        }
    }
    for _ in 0..3u8 {
        let _ = pool.alloc(&[9], 1)?;
    }
    Ok(count(pool) == made.wrapping_add(3))
}

#[test]
fn what_is_refused_takes_no_pointer(rt: HostRuntime) {
    match pool(rt.alloc(), 1, 1) {
        Ok(mut pool) => assert!(rt; stays_full(&mut pool) == Ok(true)),
        Err(_) => assert!(rt; false),
    }
}

// There is no room for all parts of a large value: none stays.
fn leaves_no_part(alloc: Global) -> Result<bool, Refused> {
    let mut pool = pool(alloc, 2, 2)?;
    let all = pattern(alloc, 65_536)?;
    let refused = Large::put(alloc, &mut pool, all.as_slice()).err() == Some(Refused::NoRoom);
    let left = count(&pool);
    let few = pattern(alloc, 20_000)?;
    let put = Large::put(alloc, &mut pool, few.as_slice()).is_ok();
    Ok(refused && left == 0 && put && count(&pool) == 5)
}

#[test]
fn a_value_that_no_device_takes_leaves_no_part(rt: HostRuntime) {
    assert!(rt; leaves_no_part(rt.alloc()) == Ok(true));
}

#[test]
fn a_maker_may_refuse(rt: HostRuntime) {
    assert!(rt; pool(rt.alloc(), 3, 2).err() == Some(Refused::Device));
    match pool(rt.alloc(), 2, 2) {
        Ok(mut pool) => assert!(rt; pool.add_heap() == Err(Refused::Device) && pool.heaps() == 2),
        Err(_) => assert!(rt; false),
    }
}

/// Storage in memory of which one call that puts bytes fails: that of a number.
#[derive(Drop)]
struct Failing {
    bytes: MemStorage,
    after: Option<u64>,
}

impl Storage for Failing {
    ghost seen = { λ _ _. 0 };

    ghost honest = { λ _. false };

    ghost puts = { λ _ _ _ _ _. Unit {0} };

    ghost gets = { λ _ _ _ _. Unit {0} };

    fn put(&mut self, at: u64, bytes: &[u8]) -> Result<(), StorageFault> {
        match self.after {
            Some(0) => {
                self.after = None;
                return Err(StorageFault::Failed);
            }
            Some(calls) => self.after = Some(calls - 1),
            None => {}
        }
        self.bytes.put(at, bytes)
    }

    fn get(&self, at: u64, buffer: &mut [u8]) -> Result<(), StorageFault> {
        self.bytes.get(at, buffer)
    }
}

/// Makes devices over such storage.
#[derive(Drop)]
struct FailingDevices {
    alloc: Global,
    after: u64,
}

impl MakeDevice<FileDevice<Failing>> for FailingDevices {
    ghost honest = { false };

    ghost refuses = { λ why. Unit {0} };

    fn make(&mut self, _heap: u32) -> Result<FileDevice<Failing>, Refused> {
        Ok(FileDevice::<Failing>::new(
            self.alloc,
            Failing {
                bytes: MemStorage::new(self.alloc),
                after: Some(self.after),
            },
        ))
    }
}

// Puts 60 objects of 1,000 bytes into two heaps of four logs, and gets them; a call is made once more where it was refused.
fn comes_back(alloc: Global, after: u64) -> Result<bool, Refused> {
    let layout = Layout { heaps: 2, logs: 4 };
    let mut pool = Worker::new(alloc, FailingDevices { alloc, after }, layout, false)?;
    let mut handles = [Handle::from_bits(0); 60];
    for number in 0..60u8 {
        handles[number as usize] = match pool.alloc(&[number; 1000], 1) {
            Ok(handle) => handle,
            Err(_) => pool.alloc(&[number; 1000], 1)?,
        };
    }
    for number in 0..60u8 {
        let mut out = [0; 1000];
        if pool.read(handles[number as usize], 0, &mut out).is_err() {
            pool.read(handles[number as usize], 0, &mut out)?;
        }
        if out != [number; 1000] {
            return Ok(false);
        }
    }
    Ok(true)
}

#[test]
fn a_call_that_a_device_fails_loses_nothing(rt: HostRuntime) {
    for after in 0..40u64 {
        assert!(rt; comes_back(rt.alloc(), after) == Ok(true), "{after}");
    }
}

// Whether each of two workers over one file has what it was given: 60 objects of a log each, of which most are far.
fn are_apart(alloc: Global, file: File) -> Result<bool, Refused> {
    let layout = Layout { heaps: 2, logs: 4 };
    let devices = FileDevices::new(alloc, file)?;
    let mut one = Worker::new(alloc, devices.try_clone()?, layout, false)?;
    let mut other = Worker::new(alloc, devices, layout, false)?;
    let mut handles = [Handle::from_bits(0); 60];
    for number in 0..60u8 {
        handles[number as usize] = one.alloc(&[number; 4000], 1)?;
        other.alloc(&[!number; 4000], 1)?;
    }
    for number in 0..60u8 {
        let mut out = [0; 4000];
        one.read(handles[number as usize], 0, &mut out)?;
        if out != [number; 4000] {
            return Ok(false);
        }
    }
    Ok(one.statistics().far > 40)
}

#[test]
fn two_workers_use_one_file(rt: HostRuntime) {
    match NewFile::new().replacing().open(&rt, "shared") {
        Ok(file) => assert!(rt; are_apart(rt.alloc(), file) == Ok(true)),
        Err(_) => assert!(rt; false),
    }
}
