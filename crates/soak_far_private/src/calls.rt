//! The calls of a heap, each beside what it should answer.

use crate::desk::Desk;
use crate::model::ROOM;
use far_device::Device;
use far_policy::Oldest;
use far_private::PrivateHeap;
use far_word::{LONGEST, POINTERS, Refused};

/// A range of an object's bytes, or of none.
#[derive(Clone, Copy)]
struct Part {
    pointer: u16,
    from: usize,
    count: usize,
}

// Why a range can't be reached, if it can't.
#[inline(always)]
fn barred(desk: &Desk, part: Part) -> Option<Refused> {
    let Some(object) = desk.object(part.pointer) else {
        return Some(Refused::NotHeld);
    };
    let end = part.from.saturating_add(part.count);
    if part.count == 0 || end > object.len {
        Some(Refused::Range)
    } else {
        None
    }
}

// Whether bytes that were read are those of the model.
#[inline(always)]
fn compare(desk: &Desk, part: Part, found: &[u8]) -> bool {
    desk.model.bytes(part.pointer, part.from, part.count) == Some(found)
}

// Reads a range: whether it had other bytes.
#[inline(always)]
fn read<D: Device + Drop>(
    heap: &mut PrivateHeap<D>,
    desk: &mut Desk,
    part: Part,
    out: &mut [u8],
) -> bool {
    let Some(place) = out.get_mut(..part.count) else {
        return false;
    };
    let expected = barred(desk, part);
    let answer = heap.read(part.pointer, part.from, place);
    desk.is_done(&answer, expected) && !compare(desk, part, place)
}

// Has the model take all bytes of an object that a device which lies has given others: whether they could be read.
#[inline(never)]
fn adopt<D: Device + Drop>(
    heap: &mut PrivateHeap<D>,
    desk: &mut Desk,
    pointer: u16,
    out: &mut [u8],
) -> bool {
    let Some(object) = desk.object(pointer) else {
        return false;
    };
    let Some(place) = out.get_mut(..object.len) else {
        return false;
    };
    if heap.read(pointer, 0, place).is_err() {
        return false;
    }
    desk.model.write(pointer, 0, place);
    true
}

// Takes an object for misled, if the device lies, and else for wrong.
#[inline(never)]
fn take_other<D: Device + Drop>(
    heap: &mut PrivateHeap<D>,
    desk: &mut Desk,
    pointer: u16,
    out: &mut [u8],
) {
    if !desk.allowed.lies {
        desk.expect(false);
        return;
    }
    desk.misled = desk.misled.saturating_add(1);
    let adopted = adopt(heap, desk, pointer, out) || adopt(heap, desk, pointer, out);
    desk.expect(adopted);
}

// Reads a range, and compares it.
#[inline(always)]
fn check<D: Device + Drop>(heap: &mut PrivateHeap<D>, desk: &mut Desk, part: Part, out: &mut [u8]) {
    if read(heap, desk, part, out) {
        take_other(heap, desk, part.pointer, out);
    }
}

// Writes a range.
#[inline(always)]
fn write<D: Device + Drop>(heap: &mut PrivateHeap<D>, desk: &mut Desk, part: Part, out: &mut [u8]) {
    let Some(place) = out.get_mut(..part.count) else {
        return;
    };
    desk.random.fill(place);
    let expected = barred(desk, part);
    let answer = heap.write(part.pointer, part.from, place);
    if desk.is_done(&answer, expected) {
        desk.model.write(part.pointer, part.from, place);
    }
}

// Adds a number to each byte.
fn add(bytes: &mut [u8], number: u8) {
    for byte in bytes {
        *byte = byte.wrapping_add(number);
    }
}

// Changes a range in one go.
fn update<D: Device + Drop>(
    heap: &mut PrivateHeap<D>,
    desk: &mut Desk,
    part: Part,
    out: &mut [u8],
) {
    let Some(place) = out.get_mut(..part.count) else {
        return;
    };
    let number = desk.random.byte();
    let expected = barred(desk, part);
    let answer = heap.update(part.pointer, part.from, place, |bytes| add(bytes, number));
    if !desk.is_done(&answer, expected) {
        return;
    }
    desk.model.add(part.pointer, part.from, part.count, number);
    let right = desk.allowed.lies || compare(desk, part, place);
    desk.expect(right);
}

// Why no object of so many bytes is made, if none is.
fn makes_none(desk: &Desk, len: u16) -> Option<Refused> {
    if len == 0 || len > LONGEST {
        Some(Refused::Length)
    } else if desk.count() == POINTERS as u64 {
        Some(Refused::NoPointer)
    } else {
        None
    }
}

// Makes an object of bytes, mostly of zeros, and reads it whole at times.
fn make<D: Device + Drop>(heap: &mut PrivateHeap<D>, desk: &mut Desk, out: &mut [u8]) {
    let len = desk.next_len();
    let structure = desk.random.byte();
    let expected = makes_none(desk, len);
    let Some(bytes) = out.get_mut(..len as usize) else {
        return;
    };
    bytes.fill(0);
    let answer = if desk.random.once_in(2) {
        desk.random.fill(bytes);
        heap.alloc_with(bytes, structure)
    } else {
        heap.alloc(len, structure)
    };
    if !desk.is_done(&answer, expected) {
        return;
    }
    let Ok(pointer) = answer else {
        return;
    };
    let is_new = desk.model.make(pointer, structure, bytes);
    desk.expect(is_new);
    if desk.random.once_in(4) {
        check(heap, desk, whole(desk, pointer), out);
    }
}

// Drops an object, and tries at times whether its pointer is free.
fn drop_one<D: Device + Drop>(heap: &mut PrivateHeap<D>, desk: &mut Desk, out: &mut [u8]) {
    let Some(pointer) = desk.pick() else {
        return;
    };
    let answer = heap.drop_object(pointer);
    if desk.is_done(&answer, None) {
        desk.model.drop_object(pointer);
    }
    if desk.random.once_in(4) {
        use_free(heap, desk, pointer, out);
    }
}

// All bytes of an object.
fn whole(desk: &Desk, pointer: u16) -> Part {
    let count = match desk.object(pointer) {
        Some(object) => object.len,
        None => 1,
    };
    Part {
        pointer,
        from: 0,
        count,
    }
}

// A range of an object, mostly a short one.
#[inline(always)]
fn range(desk: &mut Desk, pointer: u16) -> Part {
    let len = whole(desk, pointer).count as u64;
    let from = desk.random.below(len);
    let left = len.saturating_sub(from);
    let most = if desk.random.once_in(32) {
        left
    } else {
        left.min(32)
    };
    Part {
        pointer,
        from: from as usize,
        count: desk.random.below(most).saturating_add(1) as usize,
    }
}

// Looks at a pointer's cell.
fn look<D: Device + Drop>(heap: &PrivateHeap<D>, desk: &mut Desk, pointer: u16) {
    let object = desk.object(pointer);
    desk.expect(heap.holds(pointer) == object.is_some());
    desk.expect(heap.len_of(pointer).map(usize::from) == object.map(|object| object.len));
    desk.expect(heap.structure_of(pointer) == object.map(|object| object.structure));
}

// Makes a round, and compares what is told of the heap.
fn make_room<D: Device + Drop>(heap: &mut PrivateHeap<D>, desk: &mut Desk) {
    let most = desk.random.below(5) as usize;
    match heap.make_room(&mut Oldest, most) {
        Ok(freed) => desk.expect(freed <= most),
        Err(_) => desk.expect(false),
    }
    let told = heap.statistics();
    let bytes = told
        .live
        .saturating_add(told.dead)
        .saturating_add(told.unused);
    desk.expect(u64::from(told.near).saturating_add(u64::from(told.far)) == desk.count());
    desk.expect(bytes == desk.allowed.logs.saturating_mul(4096));
}

// Uses a pointer that may be free, or none of the heap's.
fn use_free<D: Device + Drop>(
    heap: &mut PrivateHeap<D>,
    desk: &mut Desk,
    pointer: u16,
    out: &mut [u8],
) {
    let part = Part {
        pointer,
        from: 0,
        count: 1,
    };
    look(heap, desk, pointer);
    check(heap, desk, part, out);
    update(heap, desk, part, out);
    write(heap, desk, part, out);
    if desk.object(pointer).is_none() {
        let answer = heap.drop_object(pointer);
        let _ = desk.is_done(&answer, Some(Refused::NotHeld));
    }
}

// Uses a range that isn't in its object, or just so.
fn use_edge<D: Device + Drop>(
    heap: &mut PrivateHeap<D>,
    desk: &mut Desk,
    pointer: u16,
    out: &mut [u8],
) {
    let len = whole(desk, pointer).count;
    let from = match desk.random.below(4) {
        0 => len,
        1 => len.saturating_sub(1),
        2 => usize::MAX,
        _ => 0,
    };
    let count = desk.random.below(3) as usize;
    let part = Part {
        pointer,
        from,
        count,
    };
    check(heap, desk, part, out);
    update(heap, desk, part, out);
    write(heap, desk, part, out);
    check(heap, desk, whole(desk, pointer), out);
}

// Makes an object or drops one, so that there are as many as there are to be.
fn change<D: Device + Drop>(heap: &mut PrivateHeap<D>, desk: &mut Desk, out: &mut [u8]) {
    let grows = desk.count() < desk.target;
    if grows != desk.random.once_in(4) {
        make(heap, desk, out);
    } else {
        drop_one(heap, desk, out);
    }
}

// Uses an object.
#[inline(always)]
fn use_one<D: Device + Drop>(
    heap: &mut PrivateHeap<D>,
    desk: &mut Desk,
    kind: u64,
    out: &mut [u8],
) {
    let Some(pointer) = desk.pick() else {
        return;
    };
    match kind {
        0..8 => check(heap, desk, whole(desk, pointer), out),
        8..12 => write(heap, desk, whole(desk, pointer), out),
        12..16 => use_edge(heap, desk, pointer, out),
        16..80 => {
            let part = range(desk, pointer);
            update(heap, desk, part, out);
        }
        80..640 => {
            let part = range(desk, pointer);
            check(heap, desk, part, out);
        }
        _ => {
            let part = range(desk, pointer);
            write(heap, desk, part, out);
        }
    }
}

// A call, or a few that belong together.
#[inline(always)]
fn call<D: Device + Drop>(heap: &mut PrivateHeap<D>, desk: &mut Desk, out: &mut [u8]) {
    match desk.random.below(1100) {
        kind @ 0..1024 => use_one(heap, desk, kind, out),
        1024 => make_room(heap, desk),
        1025..1028 => {
            let pointer = (desk.random.below(2100) % 65536) as u16;
            use_free(heap, desk, pointer, out);
        }
        _ => change(heap, desk, out),
    }
}

/// Makes so many calls at random.
pub fn make_calls<D: Device + Drop>(heap: &mut PrivateHeap<D>, desk: &mut Desk, calls: u64) {
    let mut out = [0; ROOM];
    for number in 0..calls {
        desk.wander(number);
        call(heap, desk, &mut out);
    }
}

/// Reads all that the heap has, and has not.
pub fn read_all<D: Device + Drop>(heap: &mut PrivateHeap<D>, desk: &mut Desk) {
    let mut out = [0; ROOM];
    for pointer in 0..POINTERS {
        check(heap, desk, whole(desk, pointer), &mut out);
    }
}
