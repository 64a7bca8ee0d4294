//! Steps on the parts.

ghost use Rattle.std.specs.Prelude.{◌≡◌, ◌<◌, ◌≤◌, ◌/◌, [], ℕ, true, Some, None, Err, IfOk, IfErr, IfSome, OnOk, OnErr, length, take, drop};
ghost use Rattle.far_word.specs.declared.refused.Refused.{Refused as Refusal};
ghost use Rattle.far_word.specs.declared.refused.Refused.TheVariants.{NotHeld};
ghost use Rattle.far_objects.specs.Far.{Drops, Makes, Others, Writes, IsWhyUnreached, barred, is_length};
ghost use Rattle.far_packed.specs.Blocks.{HasRoom, IsEmpty, Sound, far_of, place_at, table};
ghost use Rattle.far_packed.specs.declared.near.Place.TheVariants.{Sealed};
ghost use Rattle.far_packed.specs.declared.near.TheConstants.{SLOTS as EIGHT};
ghost use Rattle.far_packed.specs.Causes.{IsWhyNoRoom};
ghost use Rattle.far_objects.specs.declared.objects.TheConstants.{MOST};

use crate::near::{
    Place, SLOTS, append, begin, clear, find, free_block, has_room, is_empty, len_at, overwrite,
    restart, set_free,
};
use crate::parts::Parts;
use far_objects::Objects;
use far_word::Refused;

/// Seals the block that is filled, and begins another one.
fn turn<O: Objects + Drop>(parts: &mut Parts<O>) -> Result<(), Refused>
    requires sound { Sound (O.far parts.old.worker) (table parts.old.near) }
    requires filled { 0 < length parts.old.near.buffer.items }
    ensures sound { Sound (O.far parts.new.worker) (table parts.new.near) }
    ensures same { far_of (O.far parts.new.worker) (table parts.new.near) ≡ far_of (O.far parts.old.worker) (table parts.old.near) }
    ensures used { OnOk result (parts.new.near.used ≡ 0) }
    ensures buffer { OnOk result (parts.new.near.buffer.items ≡ []) }
    ensures why { IfErr result (IsWhyNoRoom O.unmade) }
{
    let block = match free_block(&mut parts.near) {
        Ok(block) => block,
        Err(why) => return Err(why),
    };
    match parts.worker.alloc(parts.near.buffer.as_slice()) {
        Ok(number) => {
            begin(&mut parts.near, block, number);
            Ok(())
        }
        Err(why) => Err(why),
    }
}

// Sees that the block that is filled has room for a value of so many bytes.
fn make_room<O: Objects + Drop>(parts: &mut Parts<O>, len: usize) -> Result<(), Refused>
    requires sound { Sound (O.far parts.old.worker) (table parts.old.near) }
    requires long { len ≤ MOST }
    ensures sound { Sound (O.far parts.new.worker) (table parts.new.near) }
    ensures same { far_of (O.far parts.new.worker) (table parts.new.near) ≡ far_of (O.far parts.old.worker) (table parts.old.near) }
    ensures room { OnOk result (HasRoom (table parts.new.near) len) }
    ensures why { IfErr result (IsWhyNoRoom O.unmade) }
{
    if has_room(&parts.near, len) {
        return Ok(());
    }
    match turn(parts) {
        Ok(()) => Ok(()),
        Err(why) => Err(why),
    }
}

/// Makes a value of these bytes, 1 to 4,088.
pub fn put<O: Objects + Drop>(parts: &mut Parts<O>, bytes: &[u8]) -> Result<u32, Refused>
    requires sound { Sound (O.far parts.old.worker) (table parts.old.near) }
    requires long { is_length (length bytes.now) ≡ true }
    ensures sound { Sound (O.far parts.new.worker) (table parts.new.near) }
    ensures made { IfOk result (λ h. Makes h bytes.now (far_of (O.far parts.old.worker) (table parts.old.near)) (far_of (O.far parts.new.worker) (table parts.new.near))) }
    ensures refused { OnErr result (far_of (O.far parts.new.worker) (table parts.new.near) ≡ far_of (O.far parts.old.worker) (table parts.old.near)) }
    ensures why { IfErr result (IsWhyNoRoom O.unmade) }
{
    match make_room(parts, bytes.len()) {
        Ok(()) => {}
        Err(why) => return Err(why),
    }
    match append(&mut parts.near, bytes) {
        Ok(number) => Ok(number),
        Err(why) => Err(why),
    }
}

/// Reads bytes of a value.
pub fn read<O: Objects + Drop>(
    parts: &mut Parts<O>,
    number: u32,
    from: usize,
    out: &mut [u8],
) -> Result<(), Refused>
    requires sound { Sound (O.far parts.old.worker) (table parts.old.near) }
    ensures sound { Sound (O.far parts.new.worker) (table parts.new.near) }
    ensures same { far_of (O.far parts.new.worker) (table parts.new.near) ≡ far_of (O.far parts.old.worker) (table parts.old.near) }
    ensures long { length out.new ≡ length out.old }
    ensures read { OnOk result (IfSome ((far_of (O.far parts.old.worker) (table parts.old.near)).bytes number) (λ bytes. out.new ≡ take (length out.old) (drop from bytes))) }
    ensures done { OnOk result (barred ((far_of (O.far parts.old.worker) (table parts.old.near)).sizes number) from (length out.old) ≡ None) }
    ensures barred { (why : Refusal) → barred ((far_of (O.far parts.old.worker) (table parts.old.near)).sizes number) from (length out.old) ≡ Some why → result ≡ Err why }
    ensures why { IfErr result (λ why. IsWhyUnreached O.unreached (O.far parts.old.worker).honest (barred ((far_of (O.far parts.old.worker) (table parts.old.near)).sizes number) from (length out.old)) why) }
    ensures kept { OnErr result (out.new ≡ out.old) }
{
    let found = match find(&parts.near, number, from, out.len()) {
        Ok(found) => found,
        Err(why) => return Err(why),
    };
    match found.place {
        Place::Open => {
            let count = out.len();
            out.copy_from_slice(&parts.near.buffer[found.at..found.at + count]);
            Ok(())
        }
        Place::Sealed(block) => match parts.worker.read(block, found.at, out) {
            Ok(()) => Ok(()),
            Err(why) => Err(why),
        },
        Place::Free(_) => Err(Refused::NotHeld),
    }
}

/// Writes bytes over those of a value.
pub fn write<O: Objects + Drop>(
    parts: &mut Parts<O>,
    number: u32,
    from: usize,
    bytes: &[u8],
) -> Result<(), Refused>
    requires sound { Sound (O.far parts.old.worker) (table parts.old.near) }
    ensures sound { Sound (O.far parts.new.worker) (table parts.new.near) }
    ensures written { OnOk result (Writes number from bytes.now (far_of (O.far parts.old.worker) (table parts.old.near)) (far_of (O.far parts.new.worker) (table parts.new.near))) }
    ensures refused { OnErr result (far_of (O.far parts.new.worker) (table parts.new.near) ≡ far_of (O.far parts.old.worker) (table parts.old.near)) }
    ensures done { OnOk result (barred ((far_of (O.far parts.old.worker) (table parts.old.near)).sizes number) from (length bytes.now) ≡ None) }
    ensures barred { (why : Refusal) → barred ((far_of (O.far parts.old.worker) (table parts.old.near)).sizes number) from (length bytes.now) ≡ Some why → result ≡ Err why }
    ensures why { IfErr result (λ why. IsWhyUnreached O.unreached (O.far parts.old.worker).honest (barred ((far_of (O.far parts.old.worker) (table parts.old.near)).sizes number) from (length bytes.now)) why) }
{
    let found = match find(&parts.near, number, from, bytes.len()) {
        Ok(found) => found,
        Err(why) => return Err(why),
    };
    match found.place {
        Place::Open => {
            overwrite(&mut parts.near, found.at, bytes);
            Ok(())
        }
        Place::Sealed(block) => match parts.worker.write(block, found.at, bytes) {
            Ok(()) => Ok(()),
            Err(why) => Err(why),
        },
        Place::Free(_) => Err(Refused::NotHeld),
    }
}

// Drops a block's object.
fn drop_block<O: Objects + Drop>(worker: &mut O, number: u32)
    ensures others { Others number (O.far worker.old) (O.far worker.new) }
    ensures gone { (O.far worker.new).sizes number ≡ None }
{
    let _ = worker.drop_object(number);
}

/// Lets a block go that has no value.
fn let_go<O: Objects + Drop>(parts: &mut Parts<O>, block: usize)
    requires sound { Sound (O.far parts.old.worker) (table parts.old.near) }
    requires within { block < length parts.old.near.places.items }
    requires none { IsEmpty (table parts.old.near) block }
    ensures sound { Sound (O.far parts.new.worker) (table parts.new.near) }
    ensures same { far_of (O.far parts.new.worker) (table parts.new.near) ≡ far_of (O.far parts.old.worker) (table parts.old.near) }
    ensures gone { (n : ℕ) → place_at parts.old.near.places.items block ≡ Sealed n → (O.far parts.new.worker).sizes n ≡ None }
{
    match parts.near.places[block] {
        Place::Open => restart(&mut parts.near),
        Place::Sealed(number) => {
            set_free(&mut parts.near, block);
            drop_block(&mut parts.worker, number);
        }
        Place::Free(_) => {}
    }
}

/// Takes a value away, and its block with the last one.
pub fn take_away<O: Objects + Drop>(parts: &mut Parts<O>, number: u32) -> Result<(), Refused>
    requires sound { Sound (O.far parts.old.worker) (table parts.old.near) }
    ensures sound { Sound (O.far parts.new.worker) (table parts.new.near) }
    ensures dropped { OnOk result (Drops number (far_of (O.far parts.old.worker) (table parts.old.near)) (far_of (O.far parts.new.worker) (table parts.new.near))) }
    ensures refused { IfErr result (λ why. (why ≡ NotHeld) × ((far_of (O.far parts.old.worker) (table parts.old.near)).sizes number ≡ None) × (far_of (O.far parts.new.worker) (table parts.new.near) ≡ far_of (O.far parts.old.worker) (table parts.old.near))) }
    ensures gone { OnOk result ((n : ℕ) → place_at parts.old.near.places.items (number / EIGHT) ≡ Sealed n → IsEmpty (table parts.new.near) (number / EIGHT) → (O.far parts.new.worker).sizes n ≡ None) }
{
    let Some(_len) = len_at(&parts.near, number) else {
        return Err(Refused::NotHeld);
    };
    clear(&mut parts.near, number);
    let block = number as usize / SLOTS;
    if is_empty(&parts.near, block) {
        let_go(parts, block);
    }
    Ok(())
}
