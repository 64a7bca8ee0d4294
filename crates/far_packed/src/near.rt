//! What lies near: where each value lies, and the bytes of the block that is filled.

ghost use Rattle.std.specs.Prelude.{◌≡◌, ◌<◌, ◌≤◌, ◌+◌, ◌/◌, [], ℕ, true, false, Some, None, IfOk, IfErr, OnErr, OnOk, length};
ghost use Rattle.far_objects.specs.declared.objects.TheConstants.{MOST as MOST_BYTES};
ghost use Rattle.far_objects.specs.Far.{Far, barred, with_range};
ghost use Rattle.far_packed.specs.Blocks.{Appends, Begins, Clears, Frees, HasRoom, Held, IsEmpty, Shaped, Stays, from_of, is_free, len_of, place_at, some_len, table, with_buffer};
ghost use Rattle.far_packed.specs.declared.near.Place.TheVariants.{Sealed};
ghost use Rattle.far_packed.specs.declared.near.TheConstants.{SLOTS as EIGHT};

use far_objects::MOST;
use far_word::Refused;
use std::alloc::Global;

/// How many values a block may have.
pub const SLOTS: usize = 8;

/// How many blocks there may be: so a value's number is below 2^31.
pub const MOST_BLOCKS: usize = 268_435_456;

/// Where a value lies in its block. No byte: there is none.
#[derive(Clone, Copy)]
pub struct Slot {
    pub from: u16,
    pub len: u16,
}

/// Where a block's bytes are. A free block names the next free one.
#[derive(Clone, Copy)]
pub enum Place {
    Open,
    Sealed(u32),
    Free(u32),
}

/// A range of a value's bytes: where its block is, and where it begins there.
#[derive(Clone, Copy)]
pub struct Found {
    pub place: Place,
    pub at: usize,
}

/// A slot for each number, eight a block; each block's place; which block is filled, how many of its slots are taken, and its bytes; and which
/// block is free.
#[derive(Drop)]
pub struct Near {
    pub slots: Vec<Slot>,
    pub places: Vec<Place>,
    pub current: usize,
    pub used: usize,
    pub buffer: Vec<u8>,
    pub free: u32,
    pub most: usize,
}

impl Near {
    /// One block, which is filled, and room for so many. No more than `most` may be made.
    pub fn new(alloc: Global, blocks: usize, most: usize) -> Result<Near, Refused>
        ensures shaped { IfOk result (λ near. Shaped (table near)) }
        ensures held { IfOk result (λ near. (far : Far) → Held far (table near)) }
        ensures none { IfOk result (λ near. (h : ℕ) → len_of (table near) h ≡ 0) }
        ensures why { IfErr result (λ why. why ≡ Refused.Memory) }
    {
        let Ok(mut slots) = Vec::with_capacity(alloc, blocks.saturating_mul(SLOTS)) else {
            return Err(Refused::Memory);
        };
        let Ok(mut places) = Vec::with_capacity(alloc, blocks) else {
            return Err(Refused::Memory);
        };
        let Ok(buffer) = Vec::with_capacity(alloc, MOST) else {
            return Err(Refused::Memory);
        };
        let Ok(()) = slots.extend_from_slice(&[Slot { from: 0, len: 0 }; SLOTS]) else {
            return Err(Refused::Memory);
        };
        let Ok(()) = places.push(Place::Open) else {
            return Err(Refused::Memory);
        };
        Ok(Near {
            slots,
            places,
            current: 0,
            used: 0,
            buffer,
            free: 0,
            most,
        })
    }
}

/// How many bytes a value has.
pub fn len_at(near: &Near, number: u32) -> Option<usize>
    ensures { result ≡ some_len (len_of (table near.now) number) }
{
    let at = number as usize;
    if at >= near.slots.len() {
        return None;
    }
    let slot = near.slots[at];
    if slot.len == 0 {
        return None;
    }
    Some(slot.len as usize)
}

/// Whether a value of so many bytes fits into the block that is filled.
pub fn has_room(near: &Near, len: usize) -> bool
    requires shaped { Shaped (table near.now) }
    requires long { len ≤ MOST_BYTES }
    ensures room { result ≡ true → HasRoom (table near.now) len }
    ensures full { result ≡ false → 0 < length near.now.buffer.items }
{
    near.used < SLOTS && len <= MOST - near.buffer.len()
}

/// Puts a value into the block that is filled. Its number.
pub fn append(near: &mut Near, bytes: &[u8]) -> Result<u32, Refused>
    requires shaped { Shaped (table near.old) }
    requires some { 0 < length bytes.now }
    requires room { HasRoom (table near.old) (length bytes.now) }
    ensures made { IfOk result (λ h. Appends h bytes.now (table near.old) (table near.new)) }
    ensures refused { OnErr result (table near.new ≡ table near.old) }
    ensures why { IfErr result (λ why. why ≡ Refused.Memory) }
{
    let from = near.buffer.len();
    let number = near.current * SLOTS + near.used;
    let Ok(()) = near.buffer.extend_from_slice(bytes) else {
        return Err(Refused::Memory);
    };
    near.slots[number] = Slot {
        from: from as u16,
        len: bytes.len() as u16,
    };
    near.used += 1;
    Ok(number as u32)
}

/// A free block. If there is none one more is made.
pub fn free_block(near: &mut Near) -> Result<usize, Refused>
    requires { Shaped (table near.old) }
    ensures stays { Stays (table near.old) (table near.new) }
    ensures buffer { near.new.buffer ≡ near.old.buffer }
    ensures within { IfOk result (λ block. block < length near.new.places.items) }
    ensures free { IfOk result (λ block. is_free (place_at near.new.places.items block) ≡ true) }
    ensures why { IfErr result (λ why. why ≡ Refused.Memory) }
{
    let head = near.free as usize;
    if head < near.places.len() {
        if let Place::Free(_) = near.places[head] {
            return Ok(head);
        }
    }
    add_block(near)
}

fn add_block(near: &mut Near) -> Result<usize, Refused>
    requires { Shaped (table near.old) }
    ensures stays { Stays (table near.old) (table near.new) }
    ensures buffer { near.new.buffer ≡ near.old.buffer }
    ensures within { IfOk result (λ block. block < length near.new.places.items) }
    ensures free { IfOk result (λ block. is_free (place_at near.new.places.items block) ≡ true) }
    ensures why { IfErr result (λ why. why ≡ Refused.Memory) }
{
    let count = near.places.len();
    if count >= near.most || count >= MOST_BLOCKS {
        return Err(Refused::Memory);
    }
    let Ok(()) = near.places.reserve(1) else {
        return Err(Refused::Memory);
    };
    let Ok(()) = near
        .slots
        .extend_from_slice(&[Slot { from: 0, len: 0 }; SLOTS])
    else {
        return Err(Refused::Memory);
    };
    let Ok(()) = near.places.push(Place::Free(0)) else {
        return Err(Refused::Memory);
    };
    near.free = count as u32;
    Ok(count)
}

/// The block that a free one names.
fn next_free(near: &Near, block: usize) -> u32
    requires { block < length near.now.places.items }
{
    match near.places[block] {
        Place::Free(next) => next,
        Place::Open | Place::Sealed(_) => 0,
    }
}

/// The block that is filled was sealed, as the object of this number. Another one, which was free, is filled from here on.
pub fn begin(near: &mut Near, block: usize, number: u32)
    requires shaped { Shaped (table near.old) }
    requires within { block < length near.old.places.items }
    requires free { is_free (place_at near.old.places.items block) ≡ true }
    requires fresh { (b : ℕ) → place_at near.old.places.items b ≡ Sealed number → ⊥ }
    requires filled { 0 < length near.old.buffer.items }
    ensures { Begins number (table near.old) (table near.new) }
{
    near.free = next_free(near, block);
    near.places[near.current] = Place::Sealed(number);
    near.places[block] = Place::Open;
    near.current = block;
    near.used = 0;
    near.buffer.clear();
}

/// A value is gone.
pub fn clear(near: &mut Near, number: u32)
    requires shaped { Shaped (table near.old) }
    requires there { 0 < len_of (table near.old) number }
    ensures { Clears number (table near.old) (table near.new) }
{
    near.slots[number as usize] = Slot { from: 0, len: 0 };
}

/// Whether a block has no value.
pub fn is_empty(near: &Near, block: usize) -> bool
    requires shaped { Shaped (table near.now) }
    requires within { block < length near.now.places.items }
    ensures empty { result ≡ true → IsEmpty (table near.now) block }
    ensures taken { result ≡ false → IsEmpty (table near.now) block → ⊥ }
{
    for at in block * SLOTS..block * SLOTS + SLOTS {
        if near.slots[at].len > 0 {
            return false;
        }
    }
    true
}

/// The block that is filled begins anew.
pub fn restart(near: &mut Near)
    requires shaped { Shaped (table near.old) }
    requires none { IsEmpty (table near.old) near.old.current }
    ensures stays { Stays (table near.old) (table near.new) }
    ensures used { near.new.used ≡ 0 }
    ensures buffer { near.new.buffer.items ≡ [] }
{
    near.buffer.clear();
    near.used = 0;
}

/// A block that was sealed is free.
pub fn set_free(near: &mut Near, block: usize)
    requires shaped { Shaped (table near.old) }
    requires within { block < length near.old.places.items }
    requires none { IsEmpty (table near.old) block }
    ensures { (number : ℕ) → place_at near.old.places.items block ≡ Sealed number → Frees number (table near.old) (table near.new) }
{
    near.places[block] = Place::Free(near.free);
    near.free = block as u32;
}

/// Where a range of a value's bytes lies. Refused as an access is.
pub fn find(near: &Near, number: u32, from: usize, count: usize) -> Result<Found, Refused>
    requires { Shaped (table near.now) }
    ensures place { IfOk result (λ found. found.place ≡ place_at near.now.places.items (number / EIGHT)) }
    ensures at { IfOk result (λ found. found.at ≡ from_of (table near.now) number + from) }
    ensures done { OnOk result (barred (some_len (len_of (table near.now) number)) from count ≡ None) }
    ensures barred { IfErr result (λ why. barred (some_len (len_of (table near.now) number)) from count ≡ Some why) }
{
    let at = number as usize;
    if at >= near.slots.len() {
        return Err(Refused::NotHeld);
    }
    let slot = near.slots[at];
    if slot.len == 0 {
        return Err(Refused::NotHeld);
    }
    let len = slot.len as usize;
    if count == 0 || from > len || count > len - from {
        return Err(Refused::Range);
    }
    Ok(Found {
        place: near.places[at / SLOTS],
        at: slot.from as usize + from,
    })
}

/// Writes bytes over those of the block that is filled.
pub fn overwrite(near: &mut Near, at: usize, bytes: &[u8])
    requires { at + length bytes.now ≤ length near.old.buffer.items }
    ensures { table near.new ≡ with_buffer (table near.old) (with_range near.old.buffer.items at bytes.now) }
{
    near.buffer[at..at + bytes.len()].copy_from_slice(bytes);
}
