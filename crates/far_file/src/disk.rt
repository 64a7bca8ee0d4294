//! A file of the system as storage.

ghost use Rattle.std.specs.Prelude.{◌≡◌, ◌≢◌, true, false, pos, Some, OnOk};
ghost use Rattle.std.specs.IoError.{error_kind, raw_os_error};
ghost use Rattle.far_file.specs.declared.fault.StorageFault.TheVariants.{Medium};
ghost use Rattle.far_file.specs.Faults.{IsTold, RoomIsToldFull};

use crate::fault::StorageFault;
use crate::storage::Storage;
use std::fs::File;
use std::io::{Error, ErrorKind};
use std::os::unix::fs::FileExt;

/// No contract can say what a file gives back, so nothing is proved of its bytes: it isn't called honest. Each call is one of the system,
/// unless that takes or gives a part of the bytes, or is interrupted: then it is made again, 10,000 times at most.
impl Storage for File {
    ghost seen = { λ _ _. 0 };

    ghost honest = { λ _. false };

    ghost puts = { λ _ _ _ _ _. Unit {0} };

    ghost gets = { λ _ _ _ _. Unit {0} };

    fn put(&mut self, at: u64, bytes: &[u8]) -> Result<(), StorageFault> {
        put_at(self, at, bytes)
    }

    fn get(&self, at: u64, buffer: &mut [u8]) -> Result<(), StorageFault> {
        get_at(self, at, buffer)
    }
}

/// The number of the system's error by which a medium failed, or the server that has it.
const EIO: i32 = 5;

/// So many calls of the system one of storage makes at most. Each of them does a byte at least, of 4,096 at most, or is interrupted.
const MOST_CALLS: u32 = 10_000;

/// Puts bytes into a file from a position on.
pub(crate) fn put_at(file: &File, at: u64, bytes: &[u8]) -> Result<(), StorageFault> {
    let mut done = 0;
    for _ in 0..MOST_CALLS {
        if done >= bytes.len() {
            return Ok(());
        }
        match file.write_at(&bytes[done..], at.wrapping_add(done as u64)) {
            Ok(0) => return Err(StorageFault::Full),
            Ok(more) => done += more,
            Err(why) if why.kind() == ErrorKind::Interrupted => {}
            Err(why) => return Err(told(&why)),
        }
    }
    Err(StorageFault::Interrupted)
}

/// Fills a buffer with the bytes of a file from a position on.
pub(crate) fn get_at(file: &File, at: u64, buffer: &mut [u8]) -> Result<(), StorageFault> {
    let mut done = 0;
    for _ in 0..MOST_CALLS {
        if done >= buffer.len() {
            return Ok(());
        }
        match file.read_at(&mut buffer[done..], at.wrapping_add(done as u64)) {
            Ok(0) => return Err(StorageFault::Short),
            Ok(more) => done += more,
            Err(why) if why.kind() == ErrorKind::Interrupted => {}
            Err(why) => return Err(told(&why)),
        }
    }
    Err(StorageFault::Interrupted)
}

/// The system has four errors by which there was no room for bytes: its disk is full, or a quota, the file would be too large, or none of the bytes were written. Each is
/// told as [`StorageFault::Full`].
pub fn want_of_room_is_full()
    ensures { RoomIsToldFull }
{}

// What an error of the system is to storage.
fn told(why: &Error) -> StorageFault
    ensures medium { raw_os_error why.now ≡ Some (pos 5) → result ≡ Medium }
    ensures others { raw_os_error why.now ≢ Some (pos 5) → IsTold (error_kind why.now) result }
{
    if why.raw_os_error() == Some(EIO) {
        return StorageFault::Medium;
    }
    told_by(why.kind())
}

fn told_by(kind: ErrorKind) -> StorageFault
    ensures { IsTold kind result }
{
    match kind {
        ErrorKind::UnexpectedEof => StorageFault::Short,
        ErrorKind::StorageFull
        | ErrorKind::QuotaExceeded
        | ErrorKind::FileTooLarge
        | ErrorKind::WriteZero => StorageFault::Full,
        _ => StorageFault::Failed,
    }
}
