//! Devices over memory, over storage that fails, and over storage that lies.

use super::any::{over_memory, over_storage, there_and_back, with_copies};
use super::own::{Breaking, Crooked};
use far_device::{Device, DeviceFault};
use far_file::{
    Digest, FileDevice, FileFault, FileStatistics, MemStorage, Seal, SealedDevice, Storage,
    StorageFault, WholeCopy,
};
use std::alloc::Global;
use std::test::*;

const FIRST: &[u8] = &[1, 2, 3];

const LONGEST: &[u8] = &[9; 4096];

// Whether bytes come back under a key, by each of the two reads.
pub(crate) fn gives<D: Device>(device: &mut D, alloc: Global, id: u32, wanted: &[u8]) -> bool {
    let Ok(bytes) = device.read(id) else {
        return false;
    };
    let mut buffer = Vec::new(alloc);
    device.read_into(id, &mut buffer).is_ok() && bytes.as_slice() == wanted && buffer == bytes
}

// Whether the last call that failed did so for this.
fn blames<F: Storage + Drop, L: Seal>(device: &SealedDevice<F, L>, why: FileFault) -> bool {
    device.why() == Some(why)
}

// Whether a key takes these bytes.
fn takes<D: Device>(device: &mut D, id: u32, bytes: &[u8]) -> bool {
    device.write(id, bytes).is_ok()
}

// Whether three keys keep what they were given, in place of what was there, beside one far above them. Refused so: positions of a file that come round at 4 MiB.
fn keeps_three<D: Device>(device: &mut D, alloc: Global) -> bool {
    takes(device, 5, LONGEST)
        && takes(device, 6, LONGEST)
        && takes(device, 2047, &[])
        && takes(device, 5, FIRST)
        && takes(device, 5 + 1024, LONGEST)
        && gives(device, alloc, 5, FIRST)
        && gives(device, alloc, 6, LONGEST)
}

/// The same, until they are let go of.
pub(crate) fn keeps<F: Storage + Drop, L: Seal>(
    device: &mut SealedDevice<F, L>,
    alloc: Global,
) -> bool {
    let kept = keeps_three(device, alloc);
    device.forget(6);
    kept && gives(device, alloc, 2047, &[])
        && device.read(6).is_err()
        && takes(device, 6, FIRST)
        && gives(device, alloc, 6, FIRST)
        && blames(device, FileFault::Nothing)
        && device.faults() == 1
}

#[test]
fn readme(rt: HostRuntime) -> Result<(), Fail> {
    let mut device = FileDevice::<MemStorage>::new(rt.alloc(), MemStorage::new(rt.alloc()));
    device.write(5, &[1, 2, 3])?;
    let bytes = device.read(5)?;
    assert_eq!(rt; bytes.as_slice(), [1, 2, 3].as_slice());
    assert_eq!(rt; device.read(6).err(), Some(DeviceFault::Device));
    assert_eq!(rt; device.why(), Some(FileFault::Nothing));
    Ok(())
}

// Whether the first bytes came back.
fn are_first(bytes: Result<Vec<u8>, DeviceFault>) -> bool {
    match bytes {
        Ok(bytes) => bytes.as_slice() == FIRST,
        Err(_) => false,
    }
}

// Whether a device over memory keeps what it is given, also as a caller of each kind says.
fn memory_keeps(alloc: Global) -> bool {
    let mut device = FileDevice::<MemStorage>::new(alloc, MemStorage::new(alloc));
    keeps(&mut device, alloc)
        && are_first(over_memory(&mut device, 7, FIRST))
        && are_first(over_storage(&mut device, 8, FIRST))
}

// Whether one with a seal does.
fn sealed_keeps<L: Seal>(alloc: Global) -> bool {
    let mut device = SealedDevice::<MemStorage, L>::new(alloc, MemStorage::new(alloc));
    keeps(&mut device, alloc)
}

#[test]
fn over_storage_in_memory(rt: HostRuntime) {
    assert!(rt; memory_keeps(rt.alloc()));
    assert!(rt; sealed_keeps::<Digest>(rt.alloc()));
    assert!(rt; sealed_keeps::<WholeCopy>(rt.alloc()));
}

#[test]
fn slots_have_room_for_so_much(rt: HostRuntime) {
    let mut device = FileDevice::<MemStorage>::new(rt.alloc(), MemStorage::new(rt.alloc()));
    assert!(rt; device.write(2048, FIRST) == Err(DeviceFault::Device));
    assert!(rt; blames(&device, FileFault::NoSlot));
    assert!(rt; device.write(0, &[7; 4097]) == Err(DeviceFault::Device));
    assert!(rt; device.faults() == 2);
}

// The k-th call of the storage fails for this: why the device says so after a write and after a read, and how many faults it counts.
struct Fall {
    k: u64,
    why: StorageFault,
    written: Option<FileFault>,
    read: Option<FileFault>,
    faults: u64,
}

// A write that failed leaves nothing to read. Memory that the storage wants is a fault of the storage.
const FALLS: [Fall; 6] = [
    Fall {
        k: 1,
        why: StorageFault::Full,
        written: Some(FileFault::Storage(StorageFault::Full)),
        read: Some(FileFault::Nothing),
        faults: 2,
    },
    Fall {
        k: 1,
        why: StorageFault::Memory,
        written: Some(FileFault::Storage(StorageFault::Memory)),
        read: Some(FileFault::Nothing),
        faults: 2,
    },
    Fall {
        k: 2,
        why: StorageFault::Failed,
        written: None,
        read: Some(FileFault::Storage(StorageFault::Failed)),
        faults: 1,
    },
    Fall {
        k: 2,
        why: StorageFault::Memory,
        written: None,
        read: Some(FileFault::Storage(StorageFault::Memory)),
        faults: 1,
    },
    Fall {
        k: 3,
        why: StorageFault::Failed,
        written: None,
        read: None,
        faults: 0,
    },
    Fall {
        k: 0,
        why: StorageFault::Failed,
        written: None,
        read: None,
        faults: 0,
    },
];

// Whether it is so, and the device works again from the fourth call on.
fn falls(alloc: Global, of: &Fall) -> bool {
    let storage = Breaking::new(MemStorage::new(alloc), of.k, of.why);
    let mut device = FileDevice::<Breaking<MemStorage>>::new(alloc, storage);
    let _ = device.write(3, LONGEST);
    let written = device.why() == of.written;
    let _ = device.read(3);
    let read = device.why() == of.read && device.faults() == of.faults;
    let _ = device.write(3, LONGEST);
    written && read && there_and_back(&mut device, 3, FIRST).is_ok()
}

#[test]
fn storage_fails_in_each_call(rt: HostRuntime) {
    for of in &FALLS {
        assert!(rt; falls(rt.alloc(), of));
    }
}

// How many slots keys have.
fn slots_of<F: Storage + Drop>(device: &FileDevice<F>) -> u64 {
    let mut slots: u64 = 0;
    for class in device.statistics().classes {
        slots = slots.saturating_add(class.slots);
    }
    slots
}

// Whether a write that the storage failed leaves what was under the key, in the one slot that there is, also where it would have moved it to a longer or a shorter slot, and so does the next one.
fn stays(alloc: Global, first: &[u8], second: &[u8]) -> bool {
    let storage = Breaking::new(MemStorage::new(alloc), 2, StorageFault::Full);
    let mut device = FileDevice::<Breaking<MemStorage>>::new(alloc, storage);
    takes(&mut device, 3, first)
        && !takes(&mut device, 3, second)
        && blames(&device, FileFault::Storage(StorageFault::Full))
        && slots_of(&device) == 1
        && gives(&mut device, alloc, 3, first)
        && takes(&mut device, 3, second)
        && gives(&mut device, alloc, 3, second)
}

#[test]
fn what_is_there_stays_where_a_write_fails(rt: HostRuntime) {
    assert!(rt; stays(rt.alloc(), FIRST, FIRST));
    assert!(rt; stays(rt.alloc(), FIRST, LONGEST));
    assert!(rt; stays(rt.alloc(), LONGEST, FIRST));
}

// Bytes for a key, others and of another length from turn to turn.
fn bytes_of(all: &[u8; 8192], key: u32, turn: u32) -> &[u8] {
    let key = key as usize % 64;
    let turn = turn as usize % 64;
    let from = key * 29;
    &all[from..from + (key * 61 + turn * 977) % 4097]
}

// Whether so many keys take bytes, and then give them.
fn keep_all<D: Device>(
    device: &mut D,
    alloc: Global,
    keys: u32,
    all: &[u8; 8192],
    turn: u32,
) -> bool {
    for key in 0..keys {
        if !takes(device, key, bytes_of(all, key, turn)) {
            return false;
        }
    }
    for key in 0..keys {
        if !gives(device, alloc, key, bytes_of(all, key, turn)) {
            return false;
        }
    }
    true
}

// Whether so many keys keep their bytes while each is written anew in other lengths, turn by turn.
pub(crate) fn moves<D: Device>(device: &mut D, alloc: Global, keys: u32, turns: u32) -> bool {
    let mut all = [0u8; 8192];
    let mut state: u8 = 1;
    for byte in &mut all {
        state = state.wrapping_mul(5).wrapping_add(7);
        *byte = state;
    }
    for turn in 0..turns {
        if !keep_all(device, alloc, keys, &all, turn) {
            return false;
        }
    }
    true
}

#[test]
fn keys_move_to_slots_of_other_sizes(rt: HostRuntime) {
    let alloc = rt.alloc();
    let mut device = FileDevice::<MemStorage>::new(alloc, MemStorage::new(alloc));
    assert!(rt; moves(&mut device, alloc, 40, 9));
}

// What a device has after writes of these lengths, one of them again under the same key.
fn counts(alloc: Global) -> FileStatistics {
    let mut device = FileDevice::<MemStorage>::new(alloc, MemStorage::new(alloc));
    for (key, len) in [
        (0, 72),
        (1, 200),
        (2, 1000),
        (3, 4088),
        (4, 64),
        (5, 0),
        (5, 65),
    ] {
        let _ = device.write(key, &LONGEST[..len]);
    }
    device.forget(4);
    device.statistics()
}

// Lengths, slots of each size, and the extents that these lie in: one of 64 bytes is left for the next write.
#[test]
fn a_device_counts_what_it_has(rt: HostRuntime) {
    let has = counts(rt.alloc());
    let slots = [0, 2, 1, 0, 1, 0, 1];
    let extents = [1, 1, 1, 0, 1, 0, 1];
    assert!(rt; has.keys == 5 && has.bytes == 72 + 200 + 1000 + 4088 + 65);
    for class in 0..7usize {
        assert!(rt; has.classes[class].slots == slots[class]);
        assert!(rt; has.classes[class].extents == extents[class]);
    }
    assert!(rt; has.end == 6 * 16384);
}

// What a device has that gave each key a slot of 64 bytes.
fn counts_all(alloc: Global) -> FileStatistics {
    let mut device = FileDevice::<MemStorage>::new(alloc, MemStorage::new(alloc));
    for key in 0..2048u32 {
        let _ = device.write(key, &LONGEST[..64]);
    }
    device.statistics()
}

// Slots of a size are for all keys, 256 of 64 bytes on an extent.
#[test]
fn each_key_has_a_slot_of_a_size(rt: HostRuntime) {
    let has = counts_all(rt.alloc());
    assert!(rt; has.keys == 2048 && has.bytes == 2048 * 64 && has.end == 9 * 16384);
    assert!(rt; has.classes[0].slots == 2048 && has.classes[0].extents == 8);
}

// The first byte that a read of these answers over storage that inverts one, and why it answers none.
fn of_crooked<L: Seal>(alloc: Global, bytes: &[u8], at: usize) -> (Option<u8>, Option<FileFault>) {
    let storage = Crooked {
        inner: MemStorage::new(alloc),
        at,
    };
    let mut device = SealedDevice::<Crooked<MemStorage>, L>::new(alloc, storage);
    let first = match there_and_back(&mut device, 3, bytes) {
        Ok(bytes) => bytes.first().copied(),
        Err(_) => None,
    };
    (first, device.why())
}

#[test]
fn a_seal_tells_of_other_bytes(rt: HostRuntime) {
    let alloc = rt.alloc();
    assert!(rt; of_crooked::<far_file::NoSeal>(alloc, FIRST, 0) == (Some(254), None));
    assert!(rt; of_crooked::<Digest>(alloc, FIRST, 0) == (None, Some(FileFault::Misfit)));
    assert!(rt; of_crooked::<WholeCopy>(alloc, FIRST, 0) == (None, Some(FileFault::Misfit)));
    let storage = Crooked {
        inner: MemStorage::new(alloc),
        at: 0,
    };
    let mut copied = SealedDevice::<Crooked<MemStorage>, WholeCopy>::new(alloc, storage);
    assert!(rt; with_copies(&mut copied, 0, FIRST).is_err());
}

// Whether a digest tells of each byte that another came back.
fn tells_of_each(alloc: Global, bytes: &[u8]) -> bool {
    for at in 0..bytes.len() {
        if of_crooked::<Digest>(alloc, bytes, at) != (None, Some(FileFault::Misfit)) {
            return false;
        }
    }
    true
}

// How faults are told in words.
#[rattlefmt::skip]
const TOLD: &[(FileFault, &str)] = &[
    (FileFault::NoSlot, "the key has no slot, no slot has room for so many bytes, or none is left"),
    (FileFault::Nothing, "nothing is under the key"),
    (FileFault::Misfit, "other bytes came back than were written"),
    (FileFault::Storage(StorageFault::Memory), "the storage failed: a growth was refused"),
    (FileFault::Storage(StorageFault::Short), "the storage failed: there were fewer bytes than were asked for"),
    (FileFault::Storage(StorageFault::Full), "the storage failed: there was no room for the bytes"),
    (FileFault::Storage(StorageFault::Medium), "the storage failed: the medium failed, or the server that has it"),
    (FileFault::Storage(StorageFault::Interrupted), "the storage failed: calls of the system were interrupted again and again"),
    (FileFault::Storage(StorageFault::Failed), "the storage failed: the system failed"),
];

#[test]
fn faults_are_told_in_words(rt: HostRuntime) {
    for (fault, told) in TOLD {
        match format!(in rt.alloc(); "{fault}") {
            Ok(text) => assert!(rt; text.as_str() == *told),
            Err(_) => assert!(rt; false),
        }
    }
}

const ZEROS: &[u8] = &[0; 1016];

#[test]
fn a_digest_tells_of_each_byte(rt: HostRuntime) {
    assert!(rt; tells_of_each(rt.alloc(), ZEROS));
}

fn number_of(bytes: &[u8]) -> u64 {
    Digest::of(bytes).number()
}

// What Rust's `DefaultHasher` answers, as rustc 1.95 compiles it, which was given these bytes by one `write`.
#[test]
fn digests_are_those_of_rust(rt: HostRuntime) {
    assert!(rt; number_of(&[]) == 15_130_871_412_783_076_140);
    assert!(rt; number_of(FIRST) == 6_984_003_033_159_075_747);
    assert!(rt; number_of(ZEROS) == 6_170_154_366_017_713_102);
}
