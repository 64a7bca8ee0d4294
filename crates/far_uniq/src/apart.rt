//! A worker of its own type.

ghost use Rattle.std.specs.Prelude.{◌≡◌};

use far_objects::Objects;
use far_word::Refused;

/// A worker as it is, under another type: so the compiler makes what counts lines apart from what prints them at once, which stays as fast
/// as in a program that doesn't count.
#[derive(Drop)]
pub struct Apart<O: Objects + Drop> {
    worker: O,
}

impl<O: Objects + Drop> Apart<O> {
    pub fn new(worker: O) -> Apart<O>
        ensures { result.worker ≡ worker }
    {
        Apart { worker }
    }

    pub fn worker(&self) -> &O {
        &self.worker
    }
}

impl<O: Objects + Drop> Objects for Apart<O> {
    ghost far = { λ s. O.far s.worker };

    ghost unmade = { O.unmade };

    ghost unreached = { O.unreached };

    ghost known = { λ s. O.known s.worker };

    fn alloc(&mut self, bytes: &[u8]) -> Result<u32, Refused> {
        self.worker.alloc(bytes)
    }

    fn alloc_zeros(&mut self, len: usize) -> Result<u32, Refused> {
        self.worker.alloc_zeros(len)
    }

    fn len_of(&self, number: u32) -> Option<usize> {
        self.worker.len_of(number)
    }

    fn read(&mut self, number: u32, from: usize, out: &mut [u8]) -> Result<(), Refused> {
        self.worker.read(number, from, out)
    }

    fn write(&mut self, number: u32, from: usize, bytes: &[u8]) -> Result<(), Refused> {
        self.worker.write(number, from, bytes)
    }

    fn drop_object(&mut self, number: u32) -> Result<(), Refused> {
        self.worker.drop_object(number)
    }
}
