//! Packed objects.

ghost use Rattle.std.specs.Prelude.{◌≡◌, ℕ, None, IfOk, IfErr};
ghost use Rattle.far_packed.specs.Blocks.{Sound, far_of, table};
ghost use Rattle.far_packed.specs.Causes.{OrMemory};

use crate::near::{MOST_BLOCKS, Near, len_at};
use crate::parts::Parts;
use crate::steps::{put, read, take_away, write};
use far_objects::{MOST, Objects};
use far_word::Refused;
use std::alloc::Global;

/// Values of 1 to 4,088 bytes, eight at most in one object of its worker, a block, as far as they fit. The block that is filled lies near.
#[derive(Drop)]
pub struct Packed<O: Objects + Drop> {
    parts: Parts<O>,
    alloc: Global,
    ghost sound: { Sound (O.far parts.worker) (table parts.near) },
}

impl<O: Objects + Drop> Packed<O> {
    /// No value. Each block takes 40 bytes near, by a table that grows. Refused [`Refused::Memory`] alone; the worker is dropped then.
    pub fn new(alloc: Global, worker: O) -> Result<Packed<O>, Refused>
        ensures worker { IfOk result (λ p. p.parts.worker ≡ worker) }
        ensures honest { IfOk result (λ p. (O.far p.parts.worker).honest ≡ (O.far worker).honest) }
        ensures none { IfOk result (λ p. (h : ℕ) → (far_of (O.far p.parts.worker) (table p.parts.near)).sizes h ≡ None) }
        ensures why { IfErr result (λ why. why ≡ Refused.Memory) }
    {
        Packed::roomy(alloc, worker, 1, MOST_BLOCKS)
    }

    /// The same, with near room for so many blocks, and no more than these: a value that would begin another one is refused
    /// [`Refused::Memory`].
    pub fn with_room(alloc: Global, worker: O, blocks: usize) -> Result<Packed<O>, Refused>
        ensures worker { IfOk result (λ p. p.parts.worker ≡ worker) }
        ensures honest { IfOk result (λ p. (O.far p.parts.worker).honest ≡ (O.far worker).honest) }
        ensures none { IfOk result (λ p. (h : ℕ) → (far_of (O.far p.parts.worker) (table p.parts.near)).sizes h ≡ None) }
        ensures why { IfErr result (λ why. why ≡ Refused.Memory) }
    {
        Packed::roomy(alloc, worker, blocks, blocks)
    }

    // Near room for so many blocks, and how many there may be.
    fn roomy(alloc: Global, worker: O, blocks: usize, most: usize) -> Result<Packed<O>, Refused>
        ensures worker { IfOk result (λ p. p.parts.worker ≡ worker) }
        ensures honest { IfOk result (λ p. (O.far p.parts.worker).honest ≡ (O.far worker).honest) }
        ensures none { IfOk result (λ p. (h : ℕ) → (far_of (O.far p.parts.worker) (table p.parts.near)).sizes h ≡ None) }
        ensures why { IfErr result (λ why. why ≡ Refused.Memory) }
    {
        let near = match Near::new(alloc, blocks, most) {
            Ok(near) => near,
            Err(why) => return Err(why),
        };
        Ok(Packed {
            parts: Parts { worker, near },
            alloc,
        })
    }

    /// Its worker.
    pub fn worker(&self) -> &O
        ensures { result.now ≡ self.now.parts.worker }
    {
        &self.parts.worker
    }
}

impl<O: Objects + Drop> Objects for Packed<O> {
    ghost use Rattle.far_packed.specs.Law.{known_of};

    ghost far = { λ s. far_of (O.far s.parts.worker) (table s.parts.near) };

    ghost unmade = { OrMemory O.unmade };

    ghost unreached = { O.unreached };

    ghost known = { λ s. known_of (O.far s.parts.worker) (table s.parts.near) (O.known s.parts.worker) s.sound };

    fn alloc(&mut self, bytes: &[u8]) -> Result<u32, Refused> {
        if bytes.is_empty() || bytes.len() > MOST {
            return Err(Refused::Length);
        }
        match put(&mut self.parts, bytes) {
            Ok(number) => Ok(number),
            Err(why) => Err(why),
        }
    }

    fn alloc_zeros(&mut self, len: usize) -> Result<u32, Refused> {
        if len == 0 || len > MOST {
            return Err(Refused::Length);
        }
        let Ok(zeros) = vec![in self.alloc; 0u8; len] else {
            return Err(Refused::Memory);
        };
        match put(&mut self.parts, zeros.as_slice()) {
            Ok(number) => Ok(number),
            Err(why) => Err(why),
        }
    }

    fn len_of(&self, number: u32) -> Option<usize> {
        len_at(&self.parts.near, number)
    }

    fn read(&mut self, number: u32, from: usize, out: &mut [u8]) -> Result<(), Refused> {
        read(&mut self.parts, number, from, out)
    }

    fn write(&mut self, number: u32, from: usize, bytes: &[u8]) -> Result<(), Refused> {
        write(&mut self.parts, number, from, bytes)
    }

    fn drop_object(&mut self, number: u32) -> Result<(), Refused> {
        take_away(&mut self.parts, number)
    }
}
