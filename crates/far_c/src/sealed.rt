//! A worker behind a pointer that C may hold, or none.

ghost use Rattle.std.specs.Prelude.{◌≡◌, Option, Some, None, IsSome};
ghost use Rattle.far_pool.specs.Pool.{Pool};
ghost use Rattle.far_c.specs.Sealed.{option_pool_coded, sealed_owns};

use crate::parts::Parts;
use far_backed::Backed;
use std::alloc::Global;
use std::marker::Model;
use std::ptr::null_mut;

#[repr(C)]
#[derive(Drop)]
pub struct Sealed {
    at: *mut u8,
    alloc: Global,
    pub ghost pool: { Option Pool } by { option_pool_coded },
}

impl Model for Sealed {
    ghost also_owns = { λ s. sealed_owns s.alloc s.at s.pool };
}

impl Sealed {
    pub(crate) fn none(alloc: Global) -> Sealed
        ensures { result.pool ≡ None }
    {
        Sealed {
            at: null_mut(),
            alloc,
        }
    }

    pub(crate) fn of_parts(parts: Parts<Backed, Global>) -> Sealed
        ensures { result.pool ≡ Some parts.value }
    {
        let Parts { ptr, alloc } = parts;
        Sealed {
            at: ptr as *mut u8,
            alloc,
        }
    }

    pub(crate) fn into_parts(self) -> Parts<Backed, Global>
        requires { IsSome self.pool }
        ensures { self.pool ≡ Some result.value }
    {
        let Sealed { at, alloc } = self;
        Parts {
            ptr: at as *mut Backed,
            alloc,
        }
    }
}
