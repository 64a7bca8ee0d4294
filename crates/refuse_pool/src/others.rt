//! The other calls: an object that is read whole, a value of many objects, objects by number.

use crate::calls::{Calls, LEN, OBJECTS, bytes_of};
use far_device::Device;
use far_large::Large;
use far_objects::Objects;
use far_pool::MakeDevice;
use std::alloc::Global;

/// Bytes of a value of three objects.
const LONG: usize = 9_000;

/// Objects by number.
const NUMBERS: usize = 40;

impl<D: Device + Drop, M: MakeDevice<D> + Drop> Calls<D, M> {
    // An object that is read whole is as it was written last.
    fn get_whole(&mut self, alloc: Global, number: u8) {
        let handle = self.handle_of(number);
        let mut whole = Vec::new(alloc);
        let first = self.worker.read_into(handle, &mut whole);
        if !self.is_done(first) {
            let second = self.worker.read_into(handle, &mut whole);
            self.expect(second.is_ok());
        }
        let bytes = bytes_of(number, if number % 3 == 0 { 0 } else { 1 });
        self.expect(whole.as_slice() == bytes.as_slice());
    }

    /// Reads each object whole.
    pub fn get_all_whole(&mut self, alloc: Global) {
        for number in 0..OBJECTS {
            self.get_whole(alloc, number);
        }
    }

    // Reads a value, and drops it.
    fn take_large(&mut self, large: Large, bytes: &[u8]) {
        let mut out = [0; LONG];
        let first = large.read(&mut self.worker, 0, &mut out);
        if !self.is_done(first) {
            let second = large.read(&mut self.worker, 0, &mut out);
            self.expect(second.is_ok());
        }
        self.expect(out.as_slice() == bytes);
        let dropped = large.drop_large(&mut self.worker).is_ok();
        self.expect(dropped);
    }

    /// Puts a value of three objects, which comes back. Of one that is refused no part stays, as the end finds.
    pub fn put_large(&mut self, alloc: Global) {
        let bytes = [7; LONG];
        let mut put = Large::put(alloc, &mut self.worker, &bytes);
        if put.is_err() {
            self.refused = self.refused.saturating_add(1);
            put = Large::put(alloc, &mut self.worker, &bytes);
        }
        match put {
            Ok(large) => self.take_large(large, &bytes),
            Err(_) => self.expect(false),
        }
    }

    // Makes an object of zeros, by number.
    fn make_zeros(&mut self) -> u32 {
        let mut made = Objects::alloc_zeros(&mut self.worker, LEN);
        if made.is_err() {
            self.refused = self.refused.saturating_add(1);
            made = Objects::alloc_zeros(&mut self.worker, LEN);
        }
        match made {
            Ok(number) => number,
            Err(_) => {
                self.expect(false);
                0
            }
        }
    }

    // Writes a byte of an object by number.
    fn write_number(&mut self, number: u32) {
        let first = Objects::write(&mut self.worker, number, 1, &[5]);
        if !self.is_done(first) {
            let second = Objects::write(&mut self.worker, number, 1, &[5]);
            self.expect(second.is_ok());
        }
    }

    // Reads what was written, and drops the object.
    fn take_number(&mut self, number: u32) {
        let mut out = [9; 2];
        let first = Objects::read(&mut self.worker, number, 0, &mut out);
        if !self.is_done(first) {
            let second = Objects::read(&mut self.worker, number, 0, &mut out);
            self.expect(second.is_ok());
        }
        self.expect(out == [0, 5]);
        let dropped = Objects::drop_object(&mut self.worker, number).is_ok();
        self.expect(dropped);
    }

    // Makes objects by number.
    fn make_numbers(&mut self) -> [u32; NUMBERS] {
        let mut numbers = [0; NUMBERS];
        for at in 0..NUMBERS {
            numbers[at] = self.make_zeros();
        }
        numbers
    }

    /// Makes objects by number, writes to each, reads and drops it.
    pub fn go_by_number(&mut self) {
        let numbers = self.make_numbers();
        for number in numbers {
            self.write_number(number);
            self.take_number(number);
        }
    }
}
