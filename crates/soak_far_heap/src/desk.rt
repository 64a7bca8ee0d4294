//! What a mutator does in a scope, with a record of its own of all that it wrote.

use crate::calls;
use crate::counts::{Count, Counts};
use crate::random::Random;
use crate::record::{Part, Pick, ROOM, Record};
use far_device::Device;
use far_heap::{HeapName, Mutator, Scope, Tried, View};
use far_word::{LONGEST, POINTERS, Refused, pointer_len};
use std::alloc::Global;
use std::sync::Wait;

/// How many objects a mutator has at most, and how long they are.
const MOST_OBJECTS: usize = 40;

const MOST_BYTES: u64 = 800;

/// What a mutator keeps beside its mutator.
#[derive(Drop)]
pub struct Desk {
    records: Vec<Record>,
    /// The count of the scope that is open, above 0.
    scope: u64,
    /// A view of an object that was dropped.
    stale: Option<View>,
    /// Whether there was no room for something.
    short: bool,
    random: Random,
    pub counts: Counts,
}

impl Desk {
    /// One with no object yet, over a device that fails at times or never.
    pub fn new(alloc: Global, seed: u64, fails: bool) -> Desk {
        Desk {
            records: Vec::new(alloc),
            scope: 0,
            stale: None,
            short: false,
            random: Random::new(seed),
            counts: Counts::new(fails),
        }
    }

    /// How many objects it has.
    pub fn objects(&self) -> usize {
        self.records.len()
    }

    /// A mutator's turn: it makes an object or drops one, at times, and works in a scope.
    pub fn turn<K: HeapName, D: Device + Drop, R: Wait>(
        &mut self,
        rt: &R,
        mut mutator: Mutator<K, D>,
    ) -> Mutator<K, D> {
        self.begin_scope();
        self.change(rt, &mut mutator);
        let mut scope = mutator.open();
        for _ in 0..self.uses() {
            self.step(rt, &mut scope);
        }
        scope.close()
    }

    /// Whether there was no room for something since this was asked last.
    pub fn takes_short(&mut self) -> bool {
        let short = self.short;
        self.short = false;
        short
    }

    fn begin_scope(&mut self) {
        self.scope = self.scope.saturating_add(1);
        self.counts.one(Count::Scopes);
    }

    // Makes an object or drops one, at times, before the scope is opened.
    fn change<K: HeapName, D: Device + Drop, R: Wait>(
        &mut self,
        rt: &R,
        mutator: &mut Mutator<K, D>,
    ) {
        match self.random.below(16) {
            0 | 1 => self.make(rt, mutator),
            2 if self.may_drop() => self.drop_one(rt, mutator),
            _ => {}
        }
    }

    // Makes an object.
    fn make<K: HeapName, D: Device + Drop, R: Wait>(
        &mut self,
        rt: &R,
        mutator: &mut Mutator<K, D>,
    ) {
        if let Some(len) = self.next_len() {
            let answer = calls::alloc(rt, mutator, len);
            self.take_made(len, answer);
        }
    }

    // Drops one.
    fn drop_one<K: HeapName, D: Device + Drop, R: Wait>(
        &mut self,
        rt: &R,
        mutator: &mut Mutator<K, D>,
    ) {
        if let Some(pick) = self.pick() {
            let answer = calls::drop_object(rt, mutator, pick.pointer);
            self.take_dropped(pick, answer);
        }
    }

    // How often the open scope uses an object; now and then for long.
    fn uses(&mut self) -> u64 {
        if self.random.once_in(128) {
            self.counts.one(Count::LongScopes);
            return 200;
        }
        self.random.below(9)
    }

    // Uses an object, or asks at times for what may be refused.
    fn step<K: HeapName, D: Device + Drop, R: Wait>(&mut self, rt: &R, scope: &mut Scope<K, D>) {
        match self.random.below(64) {
            0 => self.make_in(rt, scope),
            1 if self.may_drop() => self.drop_in(rt, scope),
            2 => self.use_unviewed(scope, self.stale),
            3 => self.use_stranger(rt, scope),
            4 | 5 => {
                let earlier = self.pick_view();
                self.use_unviewed(scope, earlier);
            }
            _ => self.use_one(rt, scope),
        }
    }

    // Makes an object in the open scope.
    fn make_in<K: HeapName, D: Device + Drop, R: Wait>(&mut self, rt: &R, scope: &mut Scope<K, D>) {
        if let Some(len) = self.next_len() {
            let answer = calls::alloc_in(rt, scope, len);
            self.take_made(len, answer);
        }
    }

    // Drops one there.
    fn drop_in<K: HeapName, D: Device + Drop, R: Wait>(&mut self, rt: &R, scope: &mut Scope<K, D>) {
        if let Some(pick) = self.pick() {
            let answer = calls::drop_in(rt, scope, pick.pointer);
            self.take_dropped(pick, answer);
        }
    }

    // The last view of an object at random.
    fn pick_view(&mut self) -> Option<View> {
        self.pick()?.view
    }

    // Whether an object is to be dropped: seldom, if there are few.
    fn may_drop(&mut self) -> bool {
        self.records.len() > 12 || self.random.once_in(16)
    }

    // The object at a place.
    fn object(&self, at: usize) -> Option<Pick> {
        let record = self.records.get(at)?;
        Some(Pick {
            at,
            pointer: record.pointer,
            len: record.len,
            view: record.view,
            viewed: record.scope == self.scope,
        })
    }

    // One of its objects, at random.
    fn pick(&mut self) -> Option<Pick> {
        let at = self.random.below(self.records.len() as u64);
        self.object(at as usize)
    }

    // Whether the open scope views the object of a pointer. `None` where it has no such object.
    fn viewed(&self, pointer: u16) -> Option<bool> {
        for record in &self.records {
            if record.pointer == pointer {
                return Some(record.scope == self.scope);
            }
        }
        None
    }

    // The length of the next object, if there is to be one; now and then one that is none.
    fn next_len(&mut self) -> Option<u16> {
        if self.records.len() >= MOST_OBJECTS {
            return None;
        }
        match self.random.below(64) {
            0 => Some(0),
            1 => Some(LONGEST + 1),
            _ => Some((1 + self.random.below(MOST_BYTES)) as u16),
        }
    }

    // Takes what came of making an object of zeros.
    fn take_made(&mut self, len: u16, answer: Result<u16, Refused>) {
        let is_length = len != 0 && len <= LONGEST;
        match answer {
            Ok(pointer) => {
                let right = is_length && self.viewed(pointer).is_none();
                self.counts.expect(right);
                self.counts.one(Count::Made);
                if self.records.push(Record::new(pointer, len)).is_err() {
                    self.counts.one(Count::Faults);
                }
            }
            Err(Refused::NoRoom) if is_length => {
                self.short = true;
                self.counts.one(Count::Unmade);
            }
            Err(Refused::NoPointer) if is_length => self.counts.one(Count::Unnamed),
            Err(_) if is_length => self.counts.one(Count::WrongAnswers),
            Err(why) => self.counts.judge(&[Some(why)], Refused::Length),
        }
    }

    // Takes what came of dropping an object, which is refused if the open scope views it.
    fn take_dropped(&mut self, pick: Pick, answer: Result<(), Refused>) {
        if pick.viewed {
            self.counts.judge(&[answer.err()], Refused::Held);
            return;
        }
        if answer.is_err() || pick.at >= self.records.len() {
            self.counts.one(Count::WrongAnswers);
            return;
        }
        self.records.swap_remove(pick.at);
        self.counts.one(Count::Dropped);
        if pick.view.is_some() {
            self.stale = pick.view;
        }
    }

    // Reads and writes a range that must be refused so.
    fn use_refused<K: HeapName, D: Device + Drop>(
        &mut self,
        scope: &mut Scope<K, D>,
        view: View,
        from: u16,
        bytes: &mut [u8],
        why: Refused,
    ) {
        let read = calls::read(scope, &view, from, bytes).err();
        let written = calls::write(scope, &view, from, bytes).err();
        self.counts.judge(&[read, written], why);
    }

    // Uses a view, of an earlier scope or of an object that was dropped, of a pointer that the open scope doesn't view.
    fn use_unviewed<K: HeapName, D: Device + Drop>(
        &mut self,
        scope: &mut Scope<K, D>,
        view: Option<View>,
    ) {
        if let Some(view) = view {
            if self.viewed(view.pointer()) != Some(true) {
                self.use_refused(scope, view, 0, &mut [255; 1], Refused::NotHeld);
            }
        }
    }

    // Uses a pointer that it doesn't use: another mutator's, or one that is free.
    fn use_stranger<K: HeapName, D: Device + Drop, R: Wait>(
        &mut self,
        rt: &R,
        scope: &mut Scope<K, D>,
    ) {
        let pointer = self.random.below(POINTERS as u64) as u16;
        if self.viewed(pointer).is_some() {
            return;
        }
        let tried = calls::try_view(scope, pointer).err();
        let viewed = calls::view(rt, scope, pointer).err();
        let dropped = calls::drop_in(rt, scope, pointer).err();
        self.counts
            .judge(&[tried, viewed, dropped], Refused::NotHeld);
    }

    // Views an object, and reads or writes bytes of it.
    fn use_one<K: HeapName, D: Device + Drop, R: Wait>(&mut self, rt: &R, scope: &mut Scope<K, D>) {
        let Some(pick) = self.pick() else {
            return;
        };
        let Some(whole) = self.view(rt, scope, pick) else {
            return;
        };
        match self.random.below(8) {
            0 => self.write(scope, whole),
            1 | 2 => {
                let part = self.part(whole);
                self.write(scope, part);
            }
            3 => self.pass_end(scope, whole.view),
            4 => self.read(scope, whole),
            _ => {}
        }
        let part = self.part(whole);
        self.read(scope, part);
    }

    // An object's bytes, in a view of it: the one that this scope made already, or a new one, without the lock if that does, but now and
    // then with it at once.
    fn view<K: HeapName, D: Device + Drop, R: Wait>(
        &mut self,
        rt: &R,
        scope: &mut Scope<K, D>,
        pick: Pick,
    ) -> Option<Part> {
        if pick.viewed && !self.random.once_in(4) {
            return self.seen(pick, pick.view);
        }
        let quick = self.try_quick(scope, pick.pointer);
        let found = match quick {
            Some(Ok(Tried::View(view))) => Some(view),
            _ => self.bring(rt, scope, pick),
        };
        self.take_quick(pick, quick);
        self.seen(pick, found)
    }

    // A view without the lock, but now and then none is asked for.
    fn try_quick<K: HeapName, D: Device + Drop>(
        &mut self,
        scope: &mut Scope<K, D>,
        pointer: u16,
    ) -> Option<Result<Tried, Refused>> {
        if self.random.once_in(8) {
            return None;
        }
        Some(calls::try_view(scope, pointer))
    }

    // A view with the lock.
    fn bring<K: HeapName, D: Device + Drop, R: Wait>(
        &mut self,
        rt: &R,
        scope: &mut Scope<K, D>,
        pick: Pick,
    ) -> Option<View> {
        let answer = calls::view(rt, scope, pick.pointer);
        self.brought(pick, answer)
    }

    // Takes what came of asking for a view without the lock, if that was done.
    fn take_quick(&mut self, pick: Pick, quick: Option<Result<Tried, Refused>>) {
        match quick {
            None => self.counts.one(Count::AtOnce),
            Some(Ok(Tried::View(_))) => self.counts.one(Count::Quick),
            Some(Ok(Tried::Slow(word))) => {
                self.counts.one(Count::Slow);
                self.counts.expect(!pick.viewed && pointer_len(word) != 0);
            }
            Some(Err(_)) => self.counts.one(Count::WrongAnswers),
        }
    }

    // Takes what came of asking with the lock.
    fn brought(&mut self, pick: Pick, answer: Result<View, Refused>) -> Option<View> {
        match answer {
            Ok(view) => Some(view),
            Err(why) => {
                self.take_unbrought(pick, why);
                None
            }
        }
    }

    // Takes why an object isn't brought near, which only one that isn't viewed may be: for want of room or memory, or since the device failed.
    fn take_unbrought(&mut self, pick: Pick, why: Refused) {
        if pick.viewed {
            self.counts.one(Count::WrongAnswers);
            return;
        }
        match why {
            Refused::NoRoom | Refused::Memory => {
                self.short = true;
                self.counts.one(Count::Full);
            }
            Refused::Device => self.counts.failed(),
            _ => self.counts.one(Count::WrongAnswers),
        }
    }

    // The bytes of an object that is viewed so.
    fn seen(&mut self, pick: Pick, found: Option<View>) -> Option<Part> {
        let view = found?;
        if view.pointer() != pick.pointer || view.len() != pick.len {
            self.counts.one(Count::WrongAnswers);
            return None;
        }
        let record = self.records.get_mut(pick.at)?;
        record.view = Some(view);
        record.scope = self.scope;
        Some(Part {
            at: pick.at,
            view,
            from: 0,
            count: pick.len,
        })
    }

    // A part of an object, at random.
    fn part(&mut self, whole: Part) -> Part {
        let from = self.random.below(whole.count as u64) as u16;
        let left = whole.count.saturating_sub(from);
        let count = self.random.below(left as u64) as u16;
        Part {
            from,
            count: count.saturating_add(1).min(left),
            ..whole
        }
    }

    // Reads a part, and compares it with the record.
    fn read<K: HeapName, D: Device + Drop>(&mut self, scope: &mut Scope<K, D>, part: Part) {
        let mut room = [0; ROOM];
        let out = &mut room[..(part.count as usize).min(ROOM)];
        let done = calls::read(scope, &part.view, part.from, out).is_ok();
        self.take_read(part, done, out);
    }

    fn take_read(&mut self, part: Part, done: bool, found: &[u8]) {
        let Some(record) = self.records.get(part.at) else {
            return;
        };
        let right = done && record.has(part.from as usize, found);
        self.counts.one(Count::Reads);
        self.counts.add(Count::Bytes, part.count as u64);
        if !right {
            self.counts.one(Count::WrongReads);
        }
    }

    // Writes a part, in its record too.
    fn write<K: HeapName, D: Device + Drop>(&mut self, scope: &mut Scope<K, D>, part: Part) {
        let Some(record) = self.records.get_mut(part.at) else {
            return;
        };
        let from = part.from as usize;
        let Some(bytes) = record.bytes.get_mut(from..from + part.count as usize) else {
            return;
        };
        self.random.fill(bytes);
        let written = calls::write(scope, &part.view, part.from, bytes).is_ok();
        self.counts.one(if written {
            Count::Writes
        } else {
            Count::WrongAnswers
        });
    }

    // Reads and writes a range that passes the object's end, or has no byte.
    fn pass_end<K: HeapName, D: Device + Drop>(&mut self, scope: &mut Scope<K, D>, view: View) {
        let len = view.len() as u64;
        let from = self.random.below(len + 8);
        let count = if self.random.once_in(4) {
            0
        } else {
            len.saturating_sub(from) + 1 + self.random.below(16)
        };
        let mut room = [0; ROOM];
        let bytes = &mut room[..(count as usize).min(ROOM)];
        let from = from.min(u16::MAX as u64) as u16;
        self.use_refused(scope, view, from, bytes, Refused::Range);
    }

    /// Reads all of an object in a scope of its own: whether it could be viewed.
    pub fn read_whole<K: HeapName, D: Device + Drop, R: Wait>(
        &mut self,
        rt: &R,
        scope: &mut Scope<K, D>,
        at: usize,
    ) -> bool {
        self.begin_scope();
        let Some(pick) = self.object(at) else {
            return false;
        };
        let Some(whole) = self.view(rt, scope, pick) else {
            return false;
        };
        self.read(scope, whole);
        true
    }
}
