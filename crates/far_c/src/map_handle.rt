//! What C holds of a map.

ghost use Rattle.std.specs.Prelude.{◌≡◌, ◌↔◌, true, false, IsTrue, IsSome, None, Some};
ghost use Rattle.std.specs.Option.{option_map};

use crate::map_sealed::SealedMap;
use crate::parts::Parts;
use far_backed::BackedMap;
use std::alloc::Global;
use std::mem::replace;

/// What C holds of a map: `struct far_map { bool live; void *at; }`, all zero before it is opened and after it is closed.
#[repr(C)]
#[derive(Drop)]
pub struct FarMap {
    pub(crate) live: bool,
    pub(crate) held: SealedMap,
    ghost agrees: { IsTrue live ↔ IsSome held.kept },
}

// Takes the map out of what C holds, which has none then.
pub(crate) fn take_map_out(map: &mut FarMap, alloc: Global) -> Option<Box<BackedMap>>
    ensures taken { option_map (λ b. b.value) result ≡ map.old.held.kept }
    ensures left { map.new.held.kept ≡ None }
{
    if !map.live {
        return None;
    }
    let FarMap { live: _, held } = replace(
        map,
        FarMap {
            live: false,
            held: SealedMap::none(alloc),
        },
    );
    Some(held.into_parts().into_box())
}

// Gives it back.
pub(crate) fn give_map(map: &mut FarMap, it: Box<BackedMap>)
    requires { map.old.held.kept ≡ None }
    ensures { map.new.held.kept ≡ Some it.value }
{
    let held = SealedMap::of_parts(Parts::of(it));
    *map = FarMap { live: true, held };
}

// Gives C a new one; whether there is memory for it.
pub(crate) fn hold_map(map: &mut FarMap, alloc: Global, it: BackedMap) -> bool
    requires { map.old.held.kept ≡ None }
    ensures held { result ≡ true → map.new.held.kept ≡ Some it }
    ensures refused { result ≡ false → map.new.held.kept ≡ None }
{
    match Box::new(alloc, it) {
        Ok(it) => {
            give_map(map, it);
            true
        }
        Err(_) => false,
    }
}
