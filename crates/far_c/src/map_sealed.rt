//! A map behind a pointer that C may hold, or none.

ghost use Rattle.std.specs.Prelude.{◌≡◌, Option, Some, None, IsSome};
ghost use Rattle.far_backed.specs.Kept.{Kept};
ghost use Rattle.far_c.specs.SealedMap.{option_kept_coded, sealed_map_owns};

use crate::parts::Parts;
use far_backed::BackedMap;
use std::alloc::Global;
use std::marker::Model;
use std::ptr::null_mut;

#[repr(C)]
#[derive(Drop)]
pub struct SealedMap {
    at: *mut u8,
    alloc: Global,
    pub ghost kept: { Option Kept } by { option_kept_coded },
}

impl Model for SealedMap {
    ghost also_owns = { λ s. sealed_map_owns s.alloc s.at s.kept };
}

impl SealedMap {
    pub(crate) fn none(alloc: Global) -> SealedMap
        ensures { result.kept ≡ None }
    {
        SealedMap {
            at: null_mut(),
            alloc,
        }
    }

    pub(crate) fn of_parts(parts: Parts<BackedMap, Global>) -> SealedMap
        ensures { result.kept ≡ Some parts.value }
    {
        let Parts { ptr, alloc } = parts;
        SealedMap {
            at: ptr as *mut u8,
            alloc,
        }
    }

    pub(crate) fn into_parts(self) -> Parts<BackedMap, Global>
        requires { IsSome self.kept }
        ensures { self.kept ≡ Some result.value }
    {
        let SealedMap { at, alloc } = self;
        Parts {
            ptr: at as *mut BackedMap,
            alloc,
        }
    }
}
