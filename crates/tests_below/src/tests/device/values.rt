//! What devices answer, by worked values.

ghost use Rattle.std.specs.Prelude.{◌≡◌, true, IfNone};
ghost use Rattle.far_device.specs.Mem.{bytes_at};

use super::any::{fails_twice, never_fails, there_and_back};
use super::failing::{Broken, Starved};
use super::lying::Short;
use far_device::{
    Device, DeviceFault, FailAt, Liar, MemDevice, hand_over, the_kth_call_fails, the_kth_read_lies,
};
use std::alloc::Global;
use std::test::*;

// Whether what is read under a key is this, and no fault is counted.
fn gives(device: &mut MemDevice, id: u32, wanted: &[u8]) -> bool {
    let before = device.faults();
    let is_given = match device.read(id) {
        Ok(bytes) => bytes.as_slice() == wanted,
        Err(_) => false,
    };
    is_given && device.faults() == before
}

// Whether these bytes are written under a key, and are read there then.
fn keeps(device: &mut MemDevice, id: u32, bytes: &[u8]) -> bool {
    device.write(id, bytes).is_ok() && gives(device, id, bytes)
}

// Whether nothing is under a key: a read of it is one fault. So it is told where nothing is, after any number of faults: one more than 2^64 - 1 is 0.
fn has_nothing(device: &mut MemDevice, id: u32) -> bool
    ensures { IfNone (bytes_at device.old id) (result ≡ true) }
{
    let before = device.faults();
    let fails = matches!(device.read(id), Err(DeviceFault::Device));
    fails && device.faults() == before.wrapping_add(1)
}

// Whether a read under key 1 fails.
fn read_fails<D: Device + Drop>(device: &mut D) -> bool {
    matches!(device.read(1), Err(DeviceFault::Device))
}

// Whether a write and two reads fail as these say, and all other calls give the byte 7.
fn fails_so<D: Device + Drop>(device: &mut D, write: bool, first: bool, second: bool) -> bool {
    let written = matches!(device.write(1, &[7]), Err(DeviceFault::Device));
    written == write && read_fails(device) == first && read_fails(device) == second
}

// Whether a read under key 1 gives these bytes.
fn reads<D: Device + Drop>(device: &mut D, wanted: &[u8]) -> bool {
    match device.read(1) {
        Ok(bytes) => bytes.as_slice() == wanted,
        Err(_) => false,
    }
}

// Whether nothing is under a key that is let go of.
fn lets_go(device: &mut MemDevice, id: u32) -> bool {
    device.forget(id);
    has_nothing(device, id)
}

#[test]
fn readme(rt: HostRuntime) {
    let mut device = MemDevice::new(rt.alloc());
    assert!(rt;
        keeps(&mut device, 5, &[1, 2, 3]) && lets_go(&mut device, 5) && device.faults() == 1
    );
}

// Whether each of these is kept, and nothing comes under key 2.
fn keeps_all(device: &mut MemDevice, rows: &[(u32, &[u8])]) -> bool {
    for (id, bytes) in rows {
        if !has_nothing(device, 2) || !keeps(device, *id, bytes) {
            return false;
        }
    }
    true
}

fn keeps_keys_apart(device: &mut MemDevice) -> bool {
    keeps_all(
        device,
        &[(0, &[7; 4088]), (u32::MAX, &[255]), (1, &[]), (0, &[8, 9])],
    ) && lets_go(device, 1)
        && lets_go(device, 2)
        && gives(device, 0, &[8, 9])
        && gives(device, u32::MAX, &[255])
}

#[test]
fn keys_are_apart(rt: HostRuntime) {
    let mut device = MemDevice::new(rt.alloc());
    assert!(rt; keeps_keys_apart(&mut device));
}

// Whether each of 2,048 keys is written, with its number as bytes.
fn writes_all(device: &mut MemDevice) -> bool {
    for id in 0..2048u32 {
        if device.write(id, &id.to_le_bytes()).is_err() {
            return false;
        }
    }
    true
}

// Whether nothing is under each even key, once it was forgotten.
fn forgets_even(device: &mut MemDevice) -> bool {
    for id in 0..1024u32 {
        if !lets_go(device, 2 * id) {
            return false;
        }
    }
    true
}

// Whether each odd key has its number still.
fn gives_odd(device: &mut MemDevice) -> bool {
    for id in 0..1024u32 {
        let odd = 2 * id + 1;
        if !gives(device, odd, &odd.to_le_bytes()) {
            return false;
        }
    }
    true
}

#[test]
fn many_keys(rt: HostRuntime) {
    let mut device = MemDevice::new(rt.alloc());
    assert!(rt; writes_all(&mut device) && forgets_even(&mut device) && gives_odd(&mut device));
}

// Whether the row has the last of its keys, and those around it stay apart.
fn ends_its_row(device: &mut MemDevice) -> bool {
    keeps_all(
        device,
        &[(2048, &[4; 100]), (2047, &[3]), (2048, &[4]), (2047, &[])],
    ) && device.room(2047).is_some()
        && device.room(2048).is_none()
        && has_nothing(device, 0)
        && has_nothing(device, 2049)
}

// Whether the last key of the row and the one after it are let go of apart.
fn lets_go_apart(device: &mut MemDevice) -> bool {
    lets_go(device, 2048)
        && gives(device, 2047, &[])
        && device.write(2048, &[5; 8]).is_ok()
        && lets_go(device, 2047)
        && gives(device, 2048, &[5; 8])
}

#[test]
fn the_row_ends_at_2048(rt: HostRuntime) {
    let mut device = MemDevice::new(rt.alloc());
    assert!(rt; ends_its_row(&mut device) && lets_go_apart(&mut device));
}

// Whether the buffer of a key of the row has room for so many bytes, and no more.
fn has_room(device: &MemDevice, id: u32, room: usize) -> bool {
    device.room(id) == Some(room)
}

// Whether bytes are kept under a key, and its buffer has room for so many after that.
fn keeps_room(device: &mut MemDevice, id: u32, bytes: &[u8], room: usize) -> bool {
    let is_kept = keeps(device, id, bytes);
    device.forget(id);
    is_kept && has_room(device, id, room)
}

const ROOMS: [(u32, &[u8], usize); 5] = [
    (1, &[7; 64], 64),
    (1, &[8, 9], 64),
    (2, &[5; 65], 65),
    (1, &[4; 127], 127),
    (1, &[6; 64], 127),
];

fn keeps_rooms(device: &mut MemDevice) -> bool {
    for (id, bytes, room) in &ROOMS {
        if !keeps_room(device, *id, bytes, *room) {
            return false;
        }
    }
    true
}

// Whether a buffer of 128 bytes is freed.
fn frees_128(device: &mut MemDevice) -> bool {
    let is_held = device.write(1, &[3; 128]).is_ok() && has_room(device, 1, 128);
    device.forget(1);
    is_held && has_room(device, 1, 0)
}

#[test]
fn buffers_are_used_again(rt: HostRuntime) {
    let mut device = MemDevice::new(rt.alloc());
    assert!(rt; keeps_rooms(&mut device) && frees_128(&mut device));
}

#[test]
fn faults_wrap(rt: HostRuntime) {
    let mut device = MemDevice::new(rt.alloc());
    assert!(rt; has_nothing(&mut device, 3) && has_nothing(&mut device, 3));
}

// Whether what is read into a buffer under key 1 is this.
fn reads_into<D: Device + Drop>(device: &mut D, buffer: &mut Vec<u8>, wanted: &[u8]) -> bool {
    device.read_into(1, buffer).is_ok() && buffer.as_slice() == wanted
}

// Whether a read into a buffer fails.
fn fails_into<D: Device + Drop>(device: &mut D, id: u32, buffer: &mut Vec<u8>) -> bool {
    matches!(device.read_into(id, buffer), Err(DeviceFault::Device))
}

// Whether bytes of each length from 0 to 4,088 are read into a buffer, whose room stays.
fn reads_each_length(device: &mut MemDevice, buffer: &mut Vec<u8>) -> bool {
    let room = buffer.capacity();
    for len in 0..4089usize {
        let row = [(len % 256) as u8; 4088];
        let is_read = device.write(1, &row[..len]).is_ok()
            && reads_into(device, buffer, &row[..len]);
        if !is_read || buffer.capacity() != room {
            return false;
        }
    }
    true
}

// Whether a buffer keeps its room, whatever is read into it, and where nothing is.
fn reads_in_place(device: &mut MemDevice, buffer: &mut Vec<u8>) -> bool {
    let room = buffer.capacity();
    reads_each_length(device, buffer)
        && fails_into(device, 2, buffer)
        && device.faults() == 1
        && buffer.capacity() == room
}

fn fills_buffers(device: &mut MemDevice, alloc: Global) -> bool {
    match Vec::with_capacity(alloc, 4088) {
        Ok(mut buffer) => reads_in_place(device, &mut buffer),
        Err(_) => false,
    }
}

// The same, and of a buffer without room, for the last of those bytes.
fn fills_all_buffers(alloc: Global) -> bool {
    let mut device = MemDevice::new(alloc);
    fills_buffers(&mut device, alloc) && reads_into(&mut device, &mut Vec::new(alloc), &[248; 4088])
}

#[test]
fn a_buffer_is_read_into(rt: HostRuntime) {
    assert!(rt; fills_all_buffers(rt.alloc()));
}

// Whether what is read of three bytes is two, in a buffer that has room.
fn hands_short_over<D: Device + Drop>(mut device: D, buffer: &mut Vec<u8>) -> bool {
    device.write(1, &[1, 2, 3]).is_ok()
        && reads_into(&mut device, buffer, &[1, 2])
        && buffer.capacity() == 9
}

fn keeps_room_of_9<D: Device + Drop>(device: D, alloc: Global) -> bool {
    match Vec::with_capacity(alloc, 9) {
        Ok(mut buffer) => hands_short_over(device, &mut buffer),
        Err(_) => false,
    }
}

// Whether bytes come into a buffer that has no room.
fn grows(bytes: Vec<u8>, mut buffer: Vec<u8>) -> bool {
    hand_over(bytes, &mut buffer);
    buffer.as_slice() == [4, 5].as_slice()
}

fn grows_from_none(alloc: Global) -> bool {
    match vec![in alloc; 4, 5] {
        Ok(bytes) => grows(bytes, Vec::new(alloc)),
        Err(_) => false,
    }
}

#[test]
fn bytes_are_handed_over(rt: HostRuntime) {
    let device = Short {
        inner: MemDevice::new(rt.alloc()),
    };
    assert!(rt; keeps_room_of_9(device, rt.alloc()) && grows_from_none(rt.alloc()));
}

// Whether what is sent there and back is refused so, and so many faults are counted then.
fn refuses<D: Device + Drop>(device: &mut D, why: DeviceFault, faults: u64) -> bool {
    let is_so = match there_and_back(device, 1, &[1]) {
        Ok(_) => false,
        Err(fault) => fault == why,
    };
    is_so && device.faults() == faults
}

// Whether a byte less comes back, and no fault is counted.
fn comes_back_short(device: &mut Short<MemDevice>) -> bool {
    let is_short = match there_and_back(device, 1, &[1, 2]) {
        Ok(bytes) => bytes.as_slice() == [1].as_slice(),
        Err(_) => false,
    };
    is_short && device.faults() == 0 && gives(&mut device.inner, 1, &[1, 2])
}

fn refuse_all() -> bool {
    refuses(&mut Broken { faults: 0 }, DeviceFault::Device, 1)
        && refuses(&mut Starved {}, DeviceFault::Memory, 0)
        && !never_fails(&mut Starved {}, 1, &[1])
}

fn are_short_and_whole(alloc: Global) -> bool {
    let mut short = Short {
        inner: MemDevice::new(alloc),
    };
    comes_back_short(&mut short) && !never_fails(&mut short.inner, 1, &[1])
}

#[test]
fn other_devices(rt: HostRuntime) {
    assert!(rt; refuse_all() && are_short_and_whole(rt.alloc()));
}

// Whether two reads fail as these say, and no write.
fn fails_in_reads<D: Device + Drop>(device: &mut D, first: bool, second: bool) -> bool {
    fails_so(device, false, first, second) && device.faults() == u64::from(first || second)
}

fn fails_in_the_write<D: Device + Drop>(device: &mut D) -> bool {
    fails_so(device, true, true, true)
        && device.faults() == 3
        && device.write(1, &[7]).is_ok()
        && reads(device, &[7])
        && device.faults() == 3
}

// Whether the reads under key 1 give these, one after another.
fn reads_all<D: Device + Drop>(device: &mut D, answers: &[&[u8]]) -> bool {
    for wanted in answers {
        if !reads(device, wanted) {
            return false;
        }
    }
    true
}

// Whether bytes are written, and the reads after that give these.
fn answers_so<D: Device + Drop>(device: &mut D, bytes: &[u8], answers: &[&[u8]]) -> bool {
    device.write(1, bytes).is_ok() && reads_all(device, answers)
}

// Whether the first read under key 1 fails, as it does where a device under a liar fails.
fn first_fails<D: Device + Drop>(device: &mut D, bytes: &[u8]) -> bool {
    device.write(1, bytes).is_ok() && read_fails(device) && device.faults() == 1
}

// Whether a read of what was let go of fails.
fn last_fails<D: Device + Drop>(device: &mut D) -> bool {
    device.forget(1);
    read_fails(device) && device.faults() == 2
}

// Whether the first read fails, those after it give these, and the last, once the key is let go of, fails too.
fn fails_first<D: Device + Drop>(device: &mut D, bytes: &[u8], answers: &[&[u8]]) -> bool {
    first_fails(device, bytes) && reads_all(device, answers) && last_fails(device)
}

// Whether a device that fails in its first read, and is short in its second, counts reads into a buffer.
fn counts_reads<D: Device + Drop>(device: &mut D, buffer: &mut Vec<u8>) -> bool {
    device.write(1, &[1, 2]).is_ok()
        && fails_into(device, 1, buffer)
        && device.faults() == 1
        && reads_into(device, buffer, &[1])
        && reads_into(device, buffer, &[1, 2])
}

// The same, with a buffer that has other bytes.
fn counts_with_buffer<D: Device + Drop>(device: &mut D, alloc: Global) -> bool {
    match vec![in alloc; 9, 9, 9] {
        Ok(mut buffer) => counts_reads(device, &mut buffer),
        Err(_) => false,
    }
}

// What is asked of a device that fails or lies, so that each kind of device is called in one place.
enum Asked<'a> {
    FailsInReads(bool, bool),
    FailsInTheWrite,
    Answers(&'a [u8], &'a [&'a [u8]]),
    FailsFirst(&'a [u8], &'a [&'a [u8]]),
    CountsReads,
}

fn does<D: Device + Drop>(device: &mut D, alloc: Global, asked: Asked<'_>) -> bool {
    match asked {
        Asked::FailsInReads(first, second) => fails_in_reads(device, first, second),
        Asked::FailsInTheWrite => fails_in_the_write(device),
        Asked::Answers(bytes, answers) => answers_so(device, bytes, answers),
        Asked::FailsFirst(bytes, answers) => fails_first(device, bytes, answers),
        Asked::CountsReads => counts_with_buffer(device, alloc),
    }
}

// Of a device whose k-th call fails.
fn failing_does(alloc: Global, k: u64, asked: Asked<'_>) -> bool {
    let mut device = FailAt::new(MemDevice::new(alloc), k);
    does(&mut device, alloc, asked)
}

// Which read is short, or inverted.
enum Lie {
    Short(u64),
    Flip(u64),
}

fn lying<D: Device + Drop>(inner: D, lie: Lie) -> Liar<D> {
    match lie {
        Lie::Short(k) => Liar::short(inner, k),
        Lie::Flip(k) => Liar::flip(inner, k),
    }
}

// Of one that lies.
fn liar_does(alloc: Global, lie: Lie, asked: Asked<'_>) -> bool {
    let mut device = lying(MemDevice::new(alloc), lie);
    does(&mut device, alloc, asked)
}

// Of one that lies, over one whose second call fails.
fn failing_liar_does(alloc: Global, lie: Lie, asked: Asked<'_>) -> bool {
    let mut device = lying(FailAt::new(MemDevice::new(alloc), 2), lie);
    does(&mut device, alloc, asked)
}

#[test]
fn a_read_into_a_buffer_is_counted(rt: HostRuntime) {
    assert!(rt; failing_liar_does(rt.alloc(), Lie::Short(2), Asked::CountsReads));
}

const FAILING_READS: [(u64, bool, bool); 5] = [
    (0, false, false),
    (2, true, false),
    (3, false, true),
    (4, false, false),
    (u64::MAX, false, false),
];

fn fails_in_one_read(alloc: Global) -> bool {
    for (k, first, second) in FAILING_READS {
        if !failing_does(alloc, k, Asked::FailsInReads(first, second)) {
            return false;
        }
    }
    true
}

#[test]
fn one_call_fails(rt: HostRuntime) {
    assert!(rt; fails_in_one_read(rt.alloc()));
}

#[test]
fn a_write_that_fails_is_not_passed_on(rt: HostRuntime) {
    assert!(rt; failing_does(rt.alloc(), 1, Asked::FailsInTheWrite));
}

#[test]
fn over_memory_one_call_fails_at_most(rt: HostRuntime) {
    let mut device = FailAt::new(MemDevice::new(rt.alloc()), 1);
    assert!(rt; !fails_twice(&mut device, 1, &[7]));
    the_kth_call_fails::<MemDevice>();
    the_kth_read_lies::<FailAt<MemDevice>>();
}

fn fails_at_its_last_count() -> bool {
    let mut device = FailAt::new(Broken { faults: u64::MAX }, 1);
    read_fails(&mut device) && device.faults() == 0
}

#[test]
fn both_counts_wrap(rt: HostRuntime) {
    assert!(rt; fails_at_its_last_count());
}

#[test]
fn one_read_is_a_lie(rt: HostRuntime) {
    let short: [&[u8]; 3] = [&[1, 2, 255], &[1, 2], &[1, 2, 255]];
    let flip: [&[u8]; 2] = [&[255, 254, 0x5a, 0], &[0, 1, 0xa5, 255]];
    assert!(rt;
        liar_does(
            rt.alloc(),
            Lie::Short(2),
            Asked::Answers(&[1, 2, 255], &short)
        ) && liar_does(
            rt.alloc(),
            Lie::Flip(1),
            Asked::Answers(&[0, 1, 0xa5, 255], &flip)
        )
    );
}

#[test]
fn of_no_bytes_no_lie_is_made(rt: HostRuntime) {
    assert!(rt;
        liar_does(rt.alloc(), Lie::Short(1), Asked::Answers(&[], &[&[]]))
            && liar_does(rt.alloc(), Lie::Flip(1), Asked::Answers(&[], &[&[]]))
            && liar_does(
                rt.alloc(),
                Lie::Flip(0),
                Asked::Answers(&[9], &[&[9], &[9]])
            )
    );
}

#[test]
fn a_lie_over_a_failure(rt: HostRuntime) {
    assert!(rt;
        failing_liar_does(
            rt.alloc(),
            Lie::Short(1),
            Asked::FailsFirst(&[1, 2], &[&[1, 2]])
        ) && failing_liar_does(
            rt.alloc(),
            Lie::Flip(2),
            Asked::FailsFirst(&[0], &[&[255], &[0]])
        )
    );
}

// Whether this is what a fault is told as.
fn is_told(alloc: Global, fault: DeviceFault, wanted: &str) -> bool {
    match format!(in alloc; "{fault}") {
        Ok(told) => told.as_str() == wanted,
        Err(_) => false,
    }
}

#[test]
fn texts(rt: HostRuntime) {
    let alloc = rt.alloc();
    assert!(rt;
        DeviceFault::Memory != DeviceFault::Device
            && is_told(alloc, DeviceFault::Memory, "a growth was refused")
            && is_told(alloc, DeviceFault::Device, "the device failed")
    );
}
