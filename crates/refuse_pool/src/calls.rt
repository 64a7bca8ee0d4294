//! The calls, and what they should answer.

use far_device::Device;
use far_pool::{Handle, MakeDevice, Worker};
use far_word::Refused;

/// Objects.
pub(crate) const OBJECTS: u8 = 120;

/// Bytes of each.
pub(crate) const LEN: usize = 400;

/// A worker, its objects, and what came of the calls.
#[derive(Drop)]
pub struct Calls<D: Device + Drop, M: MakeDevice<D> + Drop> {
    pub(crate) worker: Worker<D, M>,
    handles: [Handle; 120],
    /// Answers that were wrong.
    pub wrong: u64,
    /// Calls that were refused once.
    pub refused: u64,
}

// The bytes of an object: its number, or its number and one more once it was changed.
pub(crate) fn bytes_of(number: u8, changes: u8) -> [u8; LEN] {
    [number.wrapping_add(changes); LEN]
}

impl<D: Device + Drop, M: MakeDevice<D> + Drop> Calls<D, M> {
    /// No call yet.
    pub fn new(worker: Worker<D, M>) -> Calls<D, M> {
        Calls {
            worker,
            handles: [Handle::from_bits(0); 120],
            wrong: 0,
            refused: 0,
        }
    }

    // Whether a call was done, or else is to be made once more.
    pub(crate) fn is_done(&mut self, answer: Result<(), Refused>) -> bool {
        match answer {
            Ok(()) => true,
            Err(_) => {
                self.refused = self.refused.saturating_add(1);
                false
            }
        }
    }

    pub(crate) fn expect(&mut self, right: bool) {
        if !right {
            self.wrong = self.wrong.saturating_add(1);
        }
    }

    // The handle of an object.
    pub(crate) fn handle_of(&self, number: u8) -> Handle {
        self.handles[number as usize % 120]
    }

    // Makes an object.
    fn put(&mut self, number: u8) {
        let bytes = bytes_of(number, 0);
        let mut answer = self.worker.alloc(&bytes, 1);
        if answer.is_err() {
            self.refused = self.refused.saturating_add(1);
            answer = self.worker.alloc(&bytes, 1);
        }
        match answer {
            Ok(handle) => self.handles[number as usize % 120] = handle,
            Err(_) => self.expect(false),
        }
    }

    // An object is as it was written last.
    fn get(&mut self, number: u8, changes: u8) {
        let handle = self.handle_of(number);
        let mut out = [0; LEN];
        let first = self.worker.read(handle, 0, &mut out);
        if !self.is_done(first) {
            let second = self.worker.read(handle, 0, &mut out);
            self.expect(second.is_ok());
        }
        self.expect(out == bytes_of(number, changes));
    }

    // Counts the bytes of an object up.
    fn count_up(&mut self, number: u8) {
        let handle = self.handle_of(number);
        let mut room = [0; LEN];
        let new = bytes_of(number, 1);
        let first = self.worker.update(handle, 0, &mut room, |bytes: &mut [u8]| bytes.fill(new[0]));
        if !self.is_done(first) {
            let second = self.worker.write(handle, 0, &new);
            self.expect(second.is_ok());
        }
    }

    /// Makes all objects.
    pub fn make(&mut self) {
        for number in 0..OBJECTS {
            self.put(number);
        }
    }

    /// Gets each and counts it up.
    pub fn change(&mut self) {
        for number in 0..OBJECTS {
            self.get(number, 0);
            self.count_up(number);
        }
    }

    /// Adds a heap.
    pub fn grow(&mut self) {
        if self.worker.add_heap().is_err() {
            self.refused = self.refused.saturating_add(1);
            let again = self.worker.add_heap().is_ok();
            self.expect(again);
        }
    }

    /// Drops each third object, and makes it anew.
    pub fn renew(&mut self) {
        for number in 0..OBJECTS {
            if number % 3 == 0 {
                let dropped = self
                    .worker
                    .drop_object(self.handles[number as usize % 120])
                    .is_ok();
                self.expect(dropped);
                self.put(number);
            }
        }
    }

    /// Each object is as it was written last, and there are no others.
    pub fn end(&mut self) {
        for number in 0..OBJECTS {
            self.get(number, if number % 3 == 0 { 0 } else { 1 });
        }
        let told = self.worker.statistics();
        let all = self.worker.handles().count() == OBJECTS as usize;
        self.expect(all && told.near.wrapping_add(told.far) == OBJECTS as u64 && told.far > 20);
    }
}
