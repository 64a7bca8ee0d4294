//! Large values.

ghost use Rattle.std.specs.Prelude.{◌≡◌, ◌<◌, ℕ, List, true, Some, None, Err, IfOk, IfErr, MatchBool, OnOk, OnErr, length, take, drop};
ghost use Rattle.far_word.specs.declared.refused.Refused.{Refused as Refusal};
ghost use Rattle.far_word.specs.declared.refused.Refused.TheVariants.{Length, NotHeld};
ghost use Rattle.far_objects.specs.Far.{barred};
ghost use Rattle.far_large.specs.Parts.{AsBefore, Holds, IsCount, IsWhyNotPut, IsWhyNotRead, Puts, Stands, Takes};

use crate::steps::{are_there, drop_first, place_all, read_parts};
use far_objects::{MOST, Objects};
use far_word::Refused;
use std::alloc::Global;
use std::marker::Model;

/// A value of one byte or more, in far objects of 4,088 bytes each but for the last.
#[derive(Drop)]
pub struct Large {
    len: usize,
    numbers: Vec<u32>,
}

impl Model for Large {
    ghost use Rattle.std.specs.Prelude.{length};
    ghost use Rattle.far_large.specs.Parts.{AreApart, IsCount, Parts};

    ghost Value = { Parts };

    ghost view = { λ l. record { len = l.len; numbers = l.numbers.items } };

    ghost invariant = { λ l. IsCount l.len (length l.numbers.items) × AreApart l.numbers.items (length l.numbers.items) };
}

impl Large {
    /// Makes far objects of the value's bytes, with 4 bytes near for each: all of them, or none. There are as many as the bytes need.
    ///
    /// Refused [`Refused::Length`] exactly where there is no byte; [`Refused::Memory`]; and as `worker` makes no object. The same objects are there as before then.
    pub fn put<O: Objects>(alloc: Global, worker: &mut O, bytes: &[u8]) -> Result<Large, Refused>
        ensures made { IfOk result (λ large. Puts large bytes.now (O.far worker.old) (O.far worker.new)) }
        ensures count { IfOk result (λ large. IsCount large.len (length large.numbers)) }
        ensures refused { OnErr result (AsBefore (O.far worker.old) (O.far worker.new)) }
        ensures empty { length bytes.now ≡ 0 → result ≡ Err Length }
        ensures why { IfErr result (λ why. IsWhyNotPut O.unmade (length bytes.now) why) }
    {
        if bytes.len() == 0 {
            return Err(Refused::Length);
        }
        let count = (bytes.len() - 1) / MOST + 1;
        let Ok(mut numbers) = vec![in alloc; 0u32; count] else {
            return Err(Refused::Memory);
        };
        match place_all(worker, bytes, numbers.as_mut_slice()) {
            Ok(()) => Ok(Large {
                len: bytes.len(),
                numbers,
            }),
            Err(why) => Err(why),
        }
    }

    /// How many bytes the value has.
    pub fn len(&self) -> usize
        ensures { result ≡ self.now.len }
    {
        self.len
    }

    /// Whether `worker` has all parts of the value. Nothing is fetched.
    pub fn is_held<O: Objects>(&self, worker: &O) -> bool
        ensures { MatchBool result (Stands (O.far worker.now) self.now) (Stands (O.far worker.now) self.now → ⊥) }
    {
        are_there(worker, self.numbers.as_slice(), self.len)
    }

    /// Reads bytes of the value, from one on, as many as `out` has.
    ///
    /// Refused [`Refused::Range`] first, exactly where `out` has no byte or they pass the value's end; then by the first part that isn't read: [`Refused::NotHeld`], only
    /// where `worker` hasn't got all parts, or as a far object isn't reached. `out` may have any bytes then.
    pub fn read<O: Objects>(
        &self,
        worker: &mut O,
        from: usize,
        out: &mut [u8],
    ) -> Result<(), Refused>
        ensures same { O.far worker.new ≡ O.far worker.old }
        ensures long { length out.new ≡ length out.old }
        ensures read { (bytes : List ℕ) → (O.far worker.old).honest ≡ true → Holds (O.far worker.old) self.now bytes → OnOk result (out.new ≡ take (length out.old) (drop from bytes)) }
        ensures done { OnOk result (barred (Some self.now.len) from (length out.old) ≡ None) }
        ensures barred { (why : Refusal) → barred (Some self.now.len) from (length out.old) ≡ Some why → result ≡ Err why }
        ensures why { IfErr result (λ why. IsWhyNotRead O.unreached (O.far worker.old) self.now (barred (Some self.now.len) from (length out.old)) why) }
    {
        if out.len() == 0 || from > self.len || out.len() > self.len - from {
            return Err(Refused::Range);
        }
        read_parts(worker, self.numbers.as_slice(), self.len, from, out)
    }

    /// Drops the value with all its parts. Refused [`Refused::NotHeld`] alone, exactly where `worker` hasn't got all parts; nothing has changed then.
    pub fn drop_large<O: Objects>(self, worker: &mut O) -> Result<(), Refused>
        ensures dropped { OnOk result (Takes self (O.far worker.old) (O.far worker.new)) }
        ensures refused { IfErr result (λ why. (why ≡ NotHeld) × (Stands (O.far worker.old) self → ⊥) × (O.far worker.new ≡ O.far worker.old)) }
    {
        if !self.is_held(worker) {
            return Err(Refused::NotHeld);
        }
        drop_first(worker, self.numbers.as_slice(), self.numbers.len());
        Ok(())
    }
}
