//! The objects.

ghost use Rattle.std.specs.Prelude.{◌≡◌, ◌+◌, ◌≤◌, ◌<◌, ◌++◌, ◌∷◌, [], Some, None, true, IfOk, OnOk, OnErr, IfErr, MatchOption, length, slice_set};
ghost use Rattle.far_objects.specs.Far.{is_length, with_range};
ghost use Rattle.far_double.specs.Held.{IsUnmade, object_at};

use far_objects::MOST;
use far_word::Refused;
use std::alloc::Global;
use std::marker::Model;

/// Objects by their numbers. `luck` is how many calls it answers before it refuses one.
#[derive(Drop)]
pub struct Double {
    objects: Vec<Option<Vec<u8>>>,
    honest: bool,
    room: usize,
    live: usize,
    luck: u64,
    every: u64,
    calls: u64,
    alloc: Global,
}

impl Model for Double {
    ghost use Rattle.std.specs.Prelude.{map, option_map, Bool, Option, List, ℕ};

    ghost Value = { Bool × List (Option (List ℕ)) };

    ghost view = { λ w. (w.honest, map (option_map (λ v. v.items)) w.objects.items) };
}

impl Double {
    /// No objects, and room for so many. One that isn't honest reads nothing into what it is lent. Each call of that many to make, read or
    /// write is refused [`Refused::Device`]; 0: none.
    pub fn new(alloc: Global, honest: bool, room: usize, every: u64) -> Double
        ensures honest { result.0 ≡ honest }
        ensures empty { result.1 ≡ [] }
    {
        Double {
            objects: Vec::new(alloc),
            honest,
            room,
            live: 0,
            luck: every,
            every,
            calls: 0,
            alloc,
        }
    }

    /// How many objects there are.
    pub fn live(&self) -> usize {
        self.live
    }

    /// How many calls to make, read or write there were that nothing barred.
    pub fn calls(&self) -> u64 {
        self.calls
    }

    /// Other room from here on.
    pub fn set_room(&mut self, room: usize)
        ensures { self.new ≡ self.old }
    {
        self.room = room;
    }

    /// Other luck from here on.
    pub fn set_every(&mut self, every: u64)
        ensures { self.new ≡ self.old }
    {
        self.every = every;
        self.luck = every;
    }

    pub fn is_honest(&self) -> bool
        ensures { result ≡ self.now.0 }
    {
        self.honest
    }

    pub fn allocator(&self) -> Global {
        self.alloc
    }

    /// Whether a call is answered. It is counted.
    pub fn is_lucky(&mut self) -> bool
        ensures { self.new ≡ self.old }
    {
        self.calls = self.calls.saturating_add(1);
        if self.every == 0 {
            return true;
        }
        if self.luck <= 1 {
            self.luck = self.every;
            return false;
        }
        self.luck -= 1;
        true
    }

    /// One object more, of these bytes. Its number.
    pub fn push(&mut self, bytes: Vec<u8>) -> Result<u32, Refused>
        ensures made { OnOk result (self.new ≡ (self.old.0, self.old.1 ++ Some bytes.items ∷ [])) }
        ensures number { IfOk result (λ h. h ≡ length self.old.1) }
        ensures refused { OnErr result (self.new ≡ self.old) }
        ensures why { IfErr result IsUnmade }
    {
        let number = self.objects.len();
        if number > u32::MAX as usize || self.live >= self.room {
            return Err(Refused::NoRoom);
        }
        let Ok(()) = self.objects.push(Some(bytes)) else {
            return Err(Refused::Memory);
        };
        self.live = self.live.saturating_add(1);
        Ok(number as u32)
    }

    /// An object's bytes.
    pub fn bytes(&self, number: u32) -> Option<&[u8]>
        ensures { MatchOption result (object_at self.now.1 number ≡ None) (λ bytes. object_at self.now.1 number ≡ Some bytes.now) }
    {
        let place = number as usize;
        if place >= self.objects.len() {
            return None;
        }
        let Some(bytes) = &self.objects[place] else {
            return None;
        };
        if bytes.is_empty() || bytes.len() > MOST {
            return None;
        }
        Some(bytes.as_slice())
    }

    /// Takes an object away.
    pub fn take(&mut self, number: u32)
        requires { number < length self.old.1 }
        ensures { self.new ≡ (self.old.0, slice_set self.old.1 number None) }
    {
        self.live = self.live.saturating_sub(1);
        self.objects[number as usize] = None;
    }

    /// Gives an object other bytes.
    pub fn put(&mut self, number: u32, bytes: Vec<u8>)
        requires { number < length self.old.1 }
        ensures { self.new ≡ (self.old.0, slice_set self.old.1 number (Some bytes.items)) }
    {
        self.objects[number as usize] = Some(bytes);
    }
}

/// Bytes with others in the place of those from here on.
pub fn rewritten(alloc: Global, old: &[u8], from: usize, bytes: &[u8]) -> Result<Vec<u8>, Refused>
    requires { from + length bytes.now ≤ length old.now }
    ensures made { IfOk result (λ v. v.items ≡ with_range old.now from bytes.now) }
    ensures why { IfErr result (λ why. why ≡ Refused.Memory) }
{
    let Ok(mut new) = Vec::from_slice(alloc, &old[..from]) else {
        return Err(Refused::Memory);
    };
    let Ok(()) = new.extend_from_slice(bytes) else {
        return Err(Refused::Memory);
    };
    let Ok(()) = new.extend_from_slice(&old[from + bytes.len()..]) else {
        return Err(Refused::Memory);
    };
    Ok(new)
}
