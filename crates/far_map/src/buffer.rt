//! Where an object is read to.

ghost use Rattle.std.specs.Prelude.{◌≡◌, ◌≤◌, true, Some, IfErr, OnOk, length, take};
ghost use Rattle.far_objects.specs.declared.objects.TheConstants.{MOST as most};

use far_objects::{MOST, Objects};
use far_word::Refused;
use std::alloc::{AllocError, Global};
use std::marker::Model;

/// Room for one object.
#[derive(Drop)]
pub struct Buffer {
    bytes: Vec<u8>,
}

impl Model for Buffer {
    ghost use Rattle.std.specs.Prelude.{◌≡◌, List, ℕ, length};
    ghost use Rattle.far_objects.specs.declared.objects.TheConstants.{MOST as most};

    ghost Value = { List ℕ };

    ghost view = { λ b. b.bytes.items };

    ghost invariant = { λ b. length b.bytes.items ≡ most };
}

impl Buffer {
    pub fn new(alloc: Global) -> Result<Buffer, AllocError> {
        let bytes = vec![in alloc; 0u8; MOST]?;
        Ok(Buffer { bytes })
    }

    /// Reads an object of so many bytes.
    pub fn fill<O: Objects + Drop>(
        &mut self,
        worker: &mut O,
        number: u32,
        len: usize,
    ) -> Result<(), Refused>
        requires { (O.far worker.old).sizes number ≡ Some len }
        ensures far { O.far worker.new ≡ O.far worker.old }
        ensures read { (O.far worker.old).honest ≡ true → OnOk result ((O.far worker.old).bytes number ≡ Some (take len self.new)) }
        ensures within { len ≤ most }
        ensures why { IfErr result (O.unreached (O.far worker.old).honest) }
    {
        read_front(worker, number, self.bytes.as_mut_slice(), len)
    }

    /// The first bytes.
    pub fn part(&self, len: usize) -> &[u8]
        requires { len ≤ most }
        ensures { result.now ≡ take len self.now }
    {
        &self.bytes[..len]
    }
}

/// Reads an object into the first bytes of a buffer.
fn read_front<O: Objects + Drop>(
    worker: &mut O,
    number: u32,
    buffer: &mut [u8],
    len: usize,
) -> Result<(), Refused>
    requires there { (O.far worker.old).sizes number ≡ Some len }
    requires room { most ≤ length buffer.old }
    ensures far { O.far worker.new ≡ O.far worker.old }
    ensures read { (O.far worker.old).honest ≡ true → OnOk result ((O.far worker.old).bytes number ≡ Some (take len buffer.new)) }
    ensures long { length buffer.new ≡ length buffer.old }
    ensures within { len ≤ most }
    ensures why { IfErr result (O.unreached (O.far worker.old).honest) }
{
    worker.read(number, 0, &mut buffer[..len])
}
