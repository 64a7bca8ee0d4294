//! A heap on which a test is played, act by act.

use crate::tests::acts::{Act, Play, Range, byte_of, row, whole};
use crate::tests::calls::{Part, alloc, alloc_with, ask, drop_object, look, round, tell};
use crate::tests::devices::Flawed;
use crate::tests::rows::{fill, is_row};
use far_device::Device;
use far_private::PrivateHeap;
use std::alloc::Global;
use std::process::Abort;

/// A byte more than the longest object has.
const ROOM: usize = 4089;

/// A byte that no row begins with.
const OTHER: u8 = 0xee;

/// The name of objects that have none.
const NO_NAME: u64 = u64::MAX;

/// What a pointer's number is more than the pointer.
const POINTER: u64 = 1000;

/// A heap, and the pointers of the objects that the test has named.
#[derive(Drop)]
struct Stage<D: Device + Drop> {
    heap: PrivateHeap<D>,
    named: [u16; 32],
    patient: bool,
}

impl<D: Device + Drop> Stage<D> {
    // A number that is no name stands for a pointer.
    fn pointer(&self, name: u64) -> u16 {
        match self.named.get(name as usize) {
            Some(pointer) => *pointer,
            None => (name.wrapping_sub(POINTER) % 65536) as u16,
        }
    }

    // Whether what was said isn't the caller's fault, and may be otherwise the next time.
    fn is_to_try(&self, said: u8) -> bool {
        self.patient && (said == 1 || said == 2 || said == 10 || said == 11)
    }

    // Reads, writes or updates a range: what is said.
    fn ask(&mut self, verb: u8, range: Range, bytes: &mut [u8]) -> u8 {
        let part = Part {
            pointer: self.pointer(range.name),
            from: range.from as usize,
            more: byte_of(range.more),
        };
        let said = ask(&mut self.heap, verb, part, bytes);
        if !self.is_to_try(said) {
            return said;
        }
        ask(&mut self.heap, verb, part, bytes)
    }

    // Whether that is said, and the bytes are as they have to be.
    fn does_range(&mut self, verb: u8, range: Range, refusal: u8) -> bool {
        let mut room = [OTHER; ROOM];
        let Some(bytes) = room.get_mut(..range.count as usize) else {
            return false;
        };
        let (first, step) = (byte_of(range.first), byte_of(range.step));
        if verb == b'f' {
            fill(bytes, first, step);
        }
        let said = self.ask(verb, range, bytes);
        said == refusal && is_left(verb, said, bytes, first, step)
    }

    // Names an object that was made.
    fn give_name(&mut self, name: u64, pointer: u16) {
        if let Some(place) = self.named.get_mut(name as usize) {
            *place = pointer;
        }
    }

    // Makes an object of zeros: what is said.
    fn make(&mut self, name: u64, len: u16) -> u8 {
        let (mut said, mut pointer) = alloc(&mut self.heap, len, byte_of(name));
        if self.is_to_try(said) {
            (said, pointer) = alloc(&mut self.heap, len, byte_of(name));
        }
        self.give_name(name, pointer);
        said
    }

    // The same of a row.
    fn make_row(&mut self, name: u64, len: u16, first: u8, step: u8) -> u8 {
        let mut room = [0; ROOM];
        let Some(bytes) = room.get_mut(..len as usize) else {
            return self.make(name, len);
        };
        fill(bytes, first, step);
        let (mut said, mut pointer) = alloc_with(&mut self.heap, bytes, byte_of(name));
        if self.is_to_try(said) {
            (said, pointer) = alloc_with(&mut self.heap, bytes, byte_of(name));
        }
        self.give_name(name, pointer);
        said
    }

    // How many are made of a length, so many at most.
    fn make_many(&mut self, most: u16, len: u16, has_row: bool) -> u16 {
        for made in 0..most {
            let said = if has_row {
                self.make_row(NO_NAME, len, OTHER, 0)
            } else {
                self.make(NO_NAME, len)
            };
            if said != 0 {
                return made;
            }
        }
        most
    }

    // `new`.
    fn does_new(&mut self, act: &Act) -> bool {
        let (name, len) = (act.number(0), act.short(1));
        let said = act.refusal();
        (said == 0 || self.make_row(name, len, OTHER, 0) == said) && self.make(name, len) == said
    }

    // `bytes`.
    fn does_bytes(&mut self, act: &Act) -> bool {
        let (first, step) = (byte_of(act.number(2)), byte_of(act.number(3)));
        self.make_row(act.number(0), act.short(1), first, step) == act.refusal()
    }

    // `until`.
    fn does_until(&mut self, act: &Act) -> bool {
        let (least, most, len) = (act.short(0), act.short(1), act.short(2));
        let made = self.make_many(most.saturating_add(1), len, false);
        least <= made && made <= most && self.make(NO_NAME, len) == act.refusal()
    }

    // Acts that make objects.
    fn makes(&mut self, act: &Act) -> bool {
        let (count, len) = (act.short(0), act.short(1));
        match act.verb {
            b'n' => self.does_new(act),
            b'b' => self.does_bytes(act),
            b'm' => self.make_many(count, len, false) == count,
            b'p' => self.make_many(count, len, true) == count,
            _ => self.does_until(act),
        }
    }

    // Whether a row is written or read. One without bytes always is.
    fn has(&mut self, verb: u8, range: Range) -> bool {
        range.count == 0 || self.does_range(verb, range, 0)
    }

    // Whether a range is written and read, with all else of the object as it was.
    fn is_written(&mut self, name: u64, len: u64, from: u64, count: u64) -> bool {
        let end = from.saturating_add(count);
        let part = row(name, from, count, 101);
        self.has(b'f', row(name, 0, len, 1))
            && self.has(b'f', part)
            && self.has(b'h', part)
            && self.has(b'h', row(name, 0, from, 1))
            && self.has(
                b'h',
                row(name, end, len.saturating_sub(end), end.saturating_add(1)),
            )
    }

    // `each`.
    fn writes_each(&mut self, name: u64, len: u64) -> bool {
        let width = len.max(1);
        for range in 0..len.saturating_mul(len) {
            let from = range % width;
            let count = (range / width).saturating_add(1);
            if from.saturating_add(count) <= len && !self.is_written(name, len, from, count) {
                return false;
            }
        }
        true
    }

    // `set`.
    fn makes_set(&mut self, count: u64) -> bool {
        for name in 0..count {
            let all = whole(name, name);
            let len = (all.count % 65536) as u16;
            if self.make(name, len) != 0 || !self.has(b'f', all) {
                return false;
            }
        }
        true
    }

    // The byte that all bytes of an object of the set are, as one read has it; and it has no more.
    fn byte_in_all(&mut self, name: u64) -> Option<u8> {
        let all = whole(name, name);
        let mut room = [OTHER; ROOM];
        let bytes = room.get_mut(..all.count as usize)?;
        let said = self.ask(b'h', all, bytes);
        let byte = *bytes.first()?;
        let behind = row(name, all.count, 1, 0);
        if said == 0 && is_row(bytes, byte, 0) && self.does_range(b'h', behind, 8) {
            return Some(byte);
        }
        None
    }

    // `wrong`.
    fn has_wrong(&mut self, count: u64, most: u64) -> bool {
        let mut wrong: u64 = 0;
        for name in 0..count {
            let byte = byte_of(name);
            match self.byte_in_all(name) {
                Some(found) if found == byte => {}
                Some(found) if found == !byte => wrong = wrong.saturating_add(1),
                _ => return false,
            }
        }
        wrong <= most
    }

    // `once`.
    fn reads_each(&mut self, first: u64, count: u64) -> bool {
        for pointer in first..first.saturating_add(count) {
            if !self.has(b'h', row(pointer.saturating_add(POINTER), 0, 1, 0)) {
                return false;
            }
        }
        true
    }

    // Acts of several calls.
    fn does_several(&mut self, act: &Act) -> bool {
        let (first, second) = (act.number(0), act.number(1));
        match act.verb {
            b'e' => self.writes_each(first, second),
            b's' => self.makes_set(first),
            b'o' => self.reads_each(first, second),
            _ => self.has_wrong(first, second),
        }
    }

    // `drop`.
    fn does_drop(&mut self, act: &Act) -> bool {
        let pointer = self.pointer(act.number(0));
        drop_object(&mut self.heap, pointer) == act.refusal()
    }

    // `look`.
    fn does_look(&self, act: &Act) -> bool {
        let (len, structure) = look(&self.heap, self.pointer(act.number(0)));
        len == act.short(1) && (len == 0 || structure == byte_of(act.number(0)))
    }

    // `round`.
    fn does_round(&mut self, act: &Act) -> bool {
        let most = act.number(0) as usize;
        let freed = round(&mut self.heap, most);
        let less = act.number(2) as usize;
        act.number(1) as usize <= freed && freed <= most && (less == 0 || freed < less)
    }

    // Whether the bytes of all logs are told, and so many objects.
    fn tells_all(&self, logs: u64, objects: u64) -> bool {
        let told = tell(&self.heap);
        let bytes = told.live.saturating_add(told.dead);
        bytes.saturating_add(told.unused) == logs.saturating_mul(4096)
            && u64::from(told.near).saturating_add(u64::from(told.far)) == objects
    }

    // `tell`.
    fn does_tell(&self, act: &Act) -> bool {
        let told = tell(&self.heap);
        self.tells_all(act.number(0), act.number(1))
            && u64::from(told.far) == act.number(2)
            && told.fetches == act.number(3)
            && told.evictions == act.number(4)
            && told.writes_spared == act.number(5)
            && told.device_faults == act.number(6)
            && told.far_bytes == act.number(7)
            && told.moves == act.number(8)
            && told.looks == act.number(9)
    }

    // `gone`.
    fn does_gone(&self, act: &Act) -> bool {
        let told = tell(&self.heap);
        told.live == act.number(0) && told.dead == act.number(1) && told.rounds == act.number(2)
    }

    // Whether an act comes out as it should.
    fn does(&mut self, act: &Act) -> bool {
        match act.verb {
            b'f' | b'h' | b'a' => self.does_range(act.verb, act.range(), act.refusal()),
            b'n' | b'b' | b'm' | b'p' | b'u' => self.makes(act),
            b'e' | b's' | b'w' | b'o' => self.does_several(act),
            b'd' => self.does_drop(act),
            b'l' => self.does_look(act),
            b'r' => self.does_round(act),
            b't' => self.does_tell(act),
            b'g' => self.does_gone(act),
            _ => false,
        }
    }

    // Whether each act of a text does, and the last one is ended.
    fn does_text(&mut self, text: &str, turn: u64) -> bool {
        let mut act = Act::new();
        for letter in text.as_bytes() {
            if *letter == b';' {
                if !self.does(&act) {
                    return false;
                }
                act = Act::new();
            } else {
                act.take(*letter, turn);
            }
        }
        act.is_blank()
    }

    // The same of each text of a turn.
    fn does_turn(&mut self, texts: &[&str], turn: u64) -> bool {
        for text in texts {
            if !self.does_text(text, turn) {
                return false;
            }
        }
        true
    }

    // The same of each turn of a play.
    fn does_turns(&mut self, play: &Play) -> bool {
        for turn in 0..play.turns {
            if !self.does_turn(play.parts, turn.saturating_add(1)) {
                return false;
            }
        }
        true
    }
}

// Whether bytes are as a call leaves them that says so: a row where it is done, and else what they were before a read or an update.
fn is_left(verb: u8, said: u8, bytes: &[u8], first: u8, step: u8) -> bool {
    if said == 0 {
        is_row(bytes, first, step)
    } else {
        verb == b'f' || is_row(bytes, OTHER, 0)
    }
}

// Whether a play comes out on a heap over a device.
fn plays_on<D: Device + Drop>(alloc: Global, play: &Play, device: D) -> bool {
    match PrivateHeap::new(alloc, play.logs, false, device) {
        Ok(heap) => {
            let mut stage = Stage {
                heap,
                named: [u16::MAX; 32],
                patient: play.patient,
            };
            stage.does_turns(play)
        }
        Err(_) => false,
    }
}

// The first heap on which a play doesn't come out, or how many it has.
fn first_wrong(alloc: Global, play: &Play) -> u64 {
    for k in 0..play.heaps {
        let device = Flawed::new(alloc, play.flaw, play.at.saturating_add(k));
        if !plays_on(alloc, play, device) {
            return k;
        }
    }
    play.heaps
}

/// Each play comes out as it should on each of its heaps.
pub(super) fn play(rt: &impl Abort, alloc: Global, plays: &[Play]) {
    for play in plays {
        let wrong = first_wrong(alloc, play);
        assert!(rt; wrong == play.heaps, "{} {wrong}", play.name);
    }
}
