//! A heap as objects by number: a pointer is its number.

ghost use Rattle.std.specs.Prelude.{◌≡◌};

use crate::heap::PrivateHeap;
use far_device::Device;
use far_objects::Objects;
use far_word::{POINTERS, Refused};

impl<D: Device + Drop> Objects for PrivateHeap<D> {
    ghost use Rattle.far_private.specs.Heap.{IsOutside};
    ghost use Rattle.far_private.specs.Numbered.{IsNoPlace, far_of, known_of};

    ghost far = { λ s. far_of s };

    ghost unmade = { IsNoPlace };

    ghost unreached = { IsOutside };

    ghost known = { λ s. known_of s };

    fn alloc(&mut self, bytes: &[u8]) -> Result<u32, Refused> {
        match self.alloc_with(bytes, 0) {
            Ok(pointer) => {
                self.keeps_law();
                Ok(pointer as u32)
            }
            Err(why) => Err(why),
        }
    }

    fn alloc_zeros(&mut self, len: usize) -> Result<u32, Refused> {
        let Ok(short) = u16::try_from(len) else {
            return Err(Refused::Length);
        };
        match PrivateHeap::alloc(self, short, 0) {
            Ok(pointer) => {
                self.keeps_law();
                Ok(pointer as u32)
            }
            Err(why) => Err(why),
        }
    }

    fn len_of(&self, number: u32) -> Option<usize> {
        self.keeps_law();
        let Ok(pointer) = u16::try_from(number) else {
            return None;
        };
        match PrivateHeap::len_of(self, pointer) {
            Some(len) => Some(len as usize),
            None => None,
        }
    }

    fn read(&mut self, number: u32, from: usize, out: &mut [u8]) -> Result<(), Refused> {
        self.keeps_law();
        let Ok(pointer) = u16::try_from(number) else {
            return Err(Refused::NotHeld);
        };
        PrivateHeap::read(self, pointer, from, out)
    }

    fn write(&mut self, number: u32, from: usize, bytes: &[u8]) -> Result<(), Refused> {
        self.keeps_law();
        let Ok(pointer) = u16::try_from(number) else {
            return Err(Refused::NotHeld);
        };
        match PrivateHeap::write(self, pointer, from, bytes) {
            Ok(()) => {
                self.keeps_law();
                Ok(())
            }
            Err(why) => Err(why),
        }
    }

    fn drop_object(&mut self, number: u32) -> Result<(), Refused> {
        self.keeps_law();
        let Ok(pointer) = u16::try_from(number) else {
            return Err(Refused::NotHeld);
        };
        PrivateHeap::drop_object(self, pointer)
    }
}
