//! Devices over a file of the system.

use super::devices::{gives, keeps, moves};
use far_device::Device;
use far_file::{
    Digest, FileDevice, FileFault, FilePart, NewFile, NoSeal, Seal, SealedDevice, SharedFile,
    Storage, StorageFault,
};
use std::alloc::Global;
use std::fs::{File, OpenOptions};
use std::io;
use std::io::ErrorKind;
use std::os::unix::fs::PermissionsExt;
use std::test::*;

// Whether a device over a new file keeps what it is given.
fn new_keeps<L: Seal>(rt: &HostRuntime, name: &str) -> bool {
    match NewFile::new().replacing().open(rt, name) {
        Ok(file) => keeps(
            &mut SealedDevice::<File, L>::new(rt.alloc(), file),
            rt.alloc(),
        ),
        Err(_) => false,
    }
}

#[test]
fn over_a_file(rt: HostRuntime) {
    assert!(rt; new_keeps::<NoSeal>(&rt, "kept"));
    assert!(rt; new_keeps::<Digest>(&rt, "sealed"));
}

// Whether a write fails for this.
fn fails_for(device: &mut FileDevice<File>, why: StorageFault) -> bool {
    device.write(1, &[1, 2, 3]).is_err() && device.why() == Some(FileFault::Storage(why))
}

// Whether a read fails once the file is cut, and the device works again after a write.
fn is_cut(device: &mut FileDevice<File>, alloc: Global, file: &File) -> bool {
    device.write(1, &[1, 2, 3]).is_ok()
        && file.set_len(16386).is_ok()
        && device.read(1).is_err()
        && device.why() == Some(FileFault::Storage(StorageFault::Short))
        && device.write(1, &[4]).is_ok()
        && gives(device, alloc, 1, &[4])
}

// The same of a device over a new file, of which another handle cuts it.
fn is_cut_under(rt: &HostRuntime, file: File) -> bool {
    match file.try_clone() {
        Ok(other) => is_cut(
            &mut FileDevice::<File>::new(rt.alloc(), file),
            rt.alloc(),
            &other,
        ),
        Err(_) => false,
    }
}

#[test]
fn a_file_is_cut_short_under_the_device(rt: HostRuntime) {
    match NewFile::new().replacing().open(&rt, "cut") {
        Ok(file) => assert!(rt; is_cut_under(&rt, file)),
        Err(_) => assert!(rt; false),
    }
}

// Whether a write to a device over this file fails for this.
fn file_fails(alloc: Global, file: io::Result<File>, why: StorageFault) -> bool {
    match file {
        Ok(file) => fails_for(&mut FileDevice::<File>::new(alloc, file), why),
        Err(_) => false,
    }
}

// Whether storage keeps apart what is put at its first byte, and so far up that positions of 22 or 32 bits come round to that.
fn keeps_far_up<F: Storage>(storage: &mut F) -> bool {
    let mut found = [0u8; 1];
    storage.put(0, &[1]).is_ok()
        && storage.put(1 << 22, &[2]).is_ok()
        && storage.put(1 << 32, &[3]).is_ok()
        && storage.put(1 << 33, &[4]).is_ok()
        && storage.get(0, &mut found).is_ok()
        && found == [1]
        && storage.get(1 << 22, &mut found).is_ok()
        && found == [2]
        && storage.get(1 << 32, &mut found).is_ok()
        && found == [3]
        && storage.get(1 << 33, &mut found).is_ok()
        && found == [4]
}

#[test]
fn a_file_keeps_bytes_above_4_gib(rt: HostRuntime) {
    match NewFile::new().replacing().open(&rt, "far_up") {
        Ok(mut file) => assert!(rt; keeps_far_up(&mut file)),
        Err(_) => assert!(rt; false),
    }
    let _ = std::fs::remove_file(&rt, "far_up");
}

// A device of the system that takes no byte: a disk that is full.
fn full(rt: &HostRuntime) -> io::Result<File> {
    let mut options = OpenOptions::new();
    options.read(true);
    options.write(true);
    options.open(rt, "/dev/full")
}

#[test]
fn a_disk_is_full(rt: HostRuntime) {
    let file = full(&rt);
    assert!(rt; file_fails(rt.alloc(), file, StorageFault::Full));
}

#[test]
fn a_file_that_is_not_open_for_writing_fails(rt: HostRuntime) {
    drop(NewFile::new().replacing().open(&rt, "read"));
    assert!(rt; file_fails(rt.alloc(), File::open(&rt, "read"), StorageFault::Failed));
}

#[test]
fn a_file_that_is_there_stays_or_is_emptied(rt: HostRuntime) -> Result<(), Fail> {
    std::fs::write(&rt, "there", &[1, 2, 3])?;
    match NewFile::new().open(&rt, "there") {
        Ok(_) => assert!(rt; false),
        Err(why) => assert!(rt; why.kind() == ErrorKind::AlreadyExists),
    }
    assert!(rt; File::open(&rt, "there")?.metadata()?.len() == 3);
    let file = NewFile::new().replacing().open(&rt, "there")?;
    assert!(rt; file.metadata()?.len() == 0);
    Ok(())
}

// Whether a file is empty, and nobody but its owner may read it.
fn is_new(file: &File) -> bool {
    match file.metadata() {
        Ok(of) => of.len() == 0 && of.permissions().mode() & 0o077 == 0,
        Err(_) => false,
    }
}

// Refused so: options that leave the mode out.
#[test]
fn a_file_is_new_or_its_folder_is_missing(rt: HostRuntime) -> Result<(), Fail> {
    let _ = std::fs::remove_file(&rt, "new");
    let file = NewFile::new().open(&rt, "new")?;
    assert!(rt; is_new(&file));
    match NewFile::new().open(&rt, "no/folder/file") {
        Ok(_) => assert!(rt; false),
        Err(why) => assert!(rt; why.kind() == ErrorKind::NotFound),
    }
    Ok(())
}

// Whether each of two devices gives these bytes back under many keys, beside those of the other.
fn two_keep(
    alloc: Global,
    one: &mut SealedDevice<FilePart, Digest>,
    other: &mut SealedDevice<FilePart, Digest>,
) -> bool {
    moves(one, alloc, 20, 2)
        && moves(other, alloc, 20, 3)
        && one.write(0, &[5; 70]).is_ok()
        && other.write(0, &[6; 70]).is_ok()
        && gives(one, alloc, 0, &[5; 70])
        && gives(other, alloc, 0, &[6; 70])
}

// Whoever calls this may give it to another thread.
fn can_be_sent<T: Send>(_it: &T) -> bool {
    true
}

// Whether a file is as long as its devices have extents, but for the rest of the last one.
fn ends_so(file: &File, end: u64) -> bool {
    match file.metadata() {
        Ok(of) => of.len() <= end && end <= of.len().saturating_add(2 * 16384),
        Err(_) => false,
    }
}

// The same of devices over one file, which may go to other threads. They have more than 4 MiB of it in the end.
fn share(alloc: Global, file: File) -> bool {
    let Ok(own) = file.try_clone() else {
        return false;
    };
    let Ok(shared) = SharedFile::new(alloc, file) else {
        return false;
    };
    match (
        shared.device::<Digest>(alloc),
        shared.device::<Digest>(alloc),
    ) {
        (Ok(mut one), Ok(mut other)) => {
            one.write(0, &[1]).is_ok()
                && other.write(0, &[2]).is_ok()
                && shared.end() == 3 * 16384
                && can_be_sent(&one)
                && two_keep(alloc, &mut one, &mut other)
                && moves(&mut one, alloc, 1000, 1)
                && moves(&mut other, alloc, 1000, 1)
                && shared.end() > 5_000_000
                && ends_so(&own, shared.end())
        }
        _ => false,
    }
}

#[test]
fn two_devices_use_one_file(rt: HostRuntime) {
    match NewFile::new().replacing().open(&rt, "shared") {
        Ok(file) => assert!(rt; share(rt.alloc(), file)),
        Err(_) => assert!(rt; false),
    }
}

// Lets go of so many keys.
fn forget_all(device: &mut FileDevice<File>, keys: u32) {
    for key in 0..keys {
        device.forget(key);
    }
}

// Whether a device takes these bytes again and again, under 100 keys, and lets go of them all between later turns.
fn takes_again(device: &mut FileDevice<File>, bytes: &[u8]) -> bool {
    for key in 0..2000u32 {
        if key >= 1000 && key % 100 == 0 {
            forget_all(device, 100);
        }
        if device.write(key % 100, bytes).is_err() {
            return false;
        }
    }
    true
}

// Short objects take little room, and slots are used again: 101 slots of 64 bytes are in the first extent, behind room for one.
#[test]
fn short_objects_take_little_room(rt: HostRuntime) -> Result<(), Fail> {
    let file = NewFile::new().replacing().open(&rt, "short")?;
    let mut device = FileDevice::<File>::new(rt.alloc(), file);
    assert!(rt; takes_again(&mut device, &[9; 64]));
    assert!(rt; File::open(&rt, "short")?.metadata()?.len() <= 2 * 16384);
    Ok(())
}

// Whether of two devices over a full disk each is refused, and each works where there is room.
fn both_are_full(alloc: Global, file: File) -> bool {
    let Ok(shared) = SharedFile::new(alloc, file) else {
        return false;
    };
    let full = Some(FileFault::Storage(StorageFault::Full));
    match (
        shared.device::<NoSeal>(alloc),
        shared.device::<Digest>(alloc),
    ) {
        (Ok(mut one), Ok(mut other)) => {
            one.write(0, &[1]).is_err()
                && other.write(0, &[2]).is_err()
                && one.why() == full
                && other.why() == full
                && one.read(0).is_err()
                && one.why() == Some(FileFault::Nothing)
        }
        _ => false,
    }
}

#[test]
fn devices_over_a_full_disk_are_each_refused(rt: HostRuntime) -> Result<(), Fail> {
    assert!(rt; both_are_full(rt.alloc(), full(&rt)?));
    Ok(())
}

// Why no file is opened.
fn refused(rt: &HostRuntime, how: NewFile, name: &str) -> Option<ErrorKind> {
    match how.open(rt, name) {
        Ok(_) => None,
        Err(why) => Some(why.kind()),
    }
}

// A pipe is refused as a device is.
#[test]
fn what_is_no_file_is_refused(rt: HostRuntime) {
    let any = NewFile::new().replacing();
    assert!(rt; refused(&rt, any, "/dev/null") == Some(ErrorKind::InvalidInput));
    assert!(rt; refused(&rt, any, "/") == Some(ErrorKind::IsADirectory));
    assert!(rt; refused(&rt, NewFile::new(), "/") == Some(ErrorKind::AlreadyExists));
}
