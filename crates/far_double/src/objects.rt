//! The double as objects.

ghost use Rattle.std.specs.Prelude.{◌≡◌, Some, None, IfErr};

use crate::double::{Double, rewritten};
use far_objects::{MOST, Objects};
use far_word::Refused;

impl Objects for Double {
    ghost use Rattle.far_double.specs.Held.{far_of, IsUnmade, IsUnreached};
    ghost use Rattle.far_double.specs.Law.{known_of};

    ghost far = { λ s. far_of s.0 s.1 };

    ghost unmade = { IsUnmade };

    ghost unreached = { λ honest why. IsUnreached why };

    ghost known = { λ s. known_of s.0 s.1 };

    fn alloc(&mut self, bytes: &[u8]) -> Result<u32, Refused> {
        if bytes.is_empty() || bytes.len() > MOST {
            return Err(Refused::Length);
        }
        if !self.is_lucky() {
            return Err(Refused::Device);
        }
        let Ok(own) = Vec::from_slice(self.allocator(), bytes) else {
            return Err(Refused::Memory);
        };
        match self.push(own) {
            Ok(number) => Ok(number),
            Err(why) => Err(why),
        }
    }

    fn alloc_zeros(&mut self, len: usize) -> Result<u32, Refused> {
        if len == 0 || len > MOST {
            return Err(Refused::Length);
        }
        if !self.is_lucky() {
            return Err(Refused::Device);
        }
        let Ok(own) = vec![in self.allocator(); 0u8; len] else {
            return Err(Refused::Memory);
        };
        match self.push(own) {
            Ok(number) => Ok(number),
            Err(why) => Err(why),
        }
    }

    fn len_of(&self, number: u32) -> Option<usize> {
        match self.bytes(number) {
            Some(bytes) => Some(bytes.len()),
            None => None,
        }
    }

    fn read(&mut self, number: u32, from: usize, out: &mut [u8]) -> Result<(), Refused> {
        let Some(len) = self.len_of(number) else {
            return Err(Refused::NotHeld);
        };
        if out.is_empty() || from > len || out.len() > len - from {
            return Err(Refused::Range);
        }
        if !self.is_lucky() {
            return Err(Refused::Device);
        }
        if !self.is_honest() {
            return Ok(());
        }
        let count = out.len();
        if let Some(bytes) = self.bytes(number) {
            out.copy_from_slice(&bytes[from..from + count]);
        }
        Ok(())
    }

    fn write(&mut self, number: u32, from: usize, bytes: &[u8]) -> Result<(), Refused> {
        let alloc = self.allocator();
        let Some(old) = self.bytes(number) else {
            return Err(Refused::NotHeld);
        };
        if bytes.is_empty() || from > old.len() || bytes.len() > old.len() - from {
            return Err(Refused::Range);
        }
        let new = match rewritten(alloc, old, from, bytes) {
            Ok(new) => new,
            Err(why) => return Err(why),
        };
        if !self.is_lucky() {
            return Err(Refused::Device);
        }
        self.put(number, new);
        Ok(())
    }

    fn drop_object(&mut self, number: u32) -> Result<(), Refused> {
        let Some(_bytes) = self.bytes(number) else {
            return Err(Refused::NotHeld);
        };
        self.take(number);
        Ok(())
    }
}
