//! A look at a far object that stays where it is, over a core of the book's own.

ghost use Rattle.std.specs.Prelude.{◌≡◌, ◌+◌, ◌≤◌, length, OnErr};
ghost use Rattle.far_book.specs.book.Fetching.{IsFar};
ghost use Rattle.far_book.specs.book.Glancing.{Glances, len_there};
ghost use Rattle.far_book.specs.book.Placing.{core_in};

use crate::book::Book;
use far_device::{Device, DeviceFault};
use far_hand::Plain;
use far_word::{Refused, pointer_len};

impl<D: Device + Drop> Book<Plain, D> {
    /// Reads bytes of a far object, from one on, as many as `out` has, and leaves it far: as they were stored last, where the far side is honest.
    ///
    /// Refused [`Refused::Memory`] or [`Refused::Device`], which are the device's, and [`Refused::Damaged`], if the device gave more or fewer bytes than the
    /// object has. Refused or not, no word has changed, and the device holds what it held; refused, `out` is as it was.
    pub fn glance(&mut self, pointer: u16, from: u16, out: &mut [u8]) -> Result<(), Refused>
        requires far { IsFar (core_in self.old) pointer }
        requires inside { from + length out.old ≤ len_there (core_in self.old) pointer }
        ensures long { length out.new ≡ length out.old }
        ensures glances { Glances D.reads D.contents self.old self.new pointer from out.new result }
        ensures kept { OnErr result (out.new ≡ out.old) }
    {
        let len = pointer_len(self.near.core.cell(pointer));
        match self.device.read_into(pointer as u32, &mut self.buffer) {
            Ok(()) => {}
            Err(DeviceFault::Memory) => return Err(Refused::Memory),
            Err(DeviceFault::Device) => return Err(Refused::Device),
        }
        if self.buffer.len() != len as usize {
            return Err(Refused::Damaged);
        }
        let from = from as usize;
        let to = from + out.len();
        out.copy_from_slice(&self.buffer[from..to]);
        Ok(())
    }
}
