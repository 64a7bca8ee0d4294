//! What C holds of a worker.

ghost use Rattle.std.specs.Prelude.{◌≡◌, ◌↔◌, true, false, IsTrue, IsSome, None, Some};
ghost use Rattle.std.specs.Option.{option_map};

use crate::parts::Parts;
use crate::sealed::Sealed;
use far_backed::Backed;
use std::alloc::Global;
use std::mem::replace;

/// What C holds of a worker: `struct far_worker { bool live; void *at; }`, all zero before it is opened and after it is closed.
#[repr(C)]
#[derive(Drop)]
pub struct FarWorker {
    pub(crate) live: bool,
    pub(crate) held: Sealed,
    ghost agrees: { IsTrue live ↔ IsSome held.pool },
}

// Takes the worker out of what C holds, which has none then.
pub(crate) fn take_out(worker: &mut FarWorker, alloc: Global) -> Option<Box<Backed>>
    ensures taken { option_map (λ b. b.value) result ≡ worker.old.held.pool }
    ensures left { worker.new.held.pool ≡ None }
{
    if !worker.live {
        return None;
    }
    let FarWorker { live: _, held } = replace(
        worker,
        FarWorker {
            live: false,
            held: Sealed::none(alloc),
        },
    );
    Some(held.into_parts().into_box())
}

// Gives it back.
pub(crate) fn give(worker: &mut FarWorker, it: Box<Backed>)
    requires { worker.old.held.pool ≡ None }
    ensures { worker.new.held.pool ≡ Some it.value }
{
    let held = Sealed::of_parts(Parts::of(it));
    *worker = FarWorker { live: true, held };
}

// Gives C a new one; whether there is memory for it.
pub(crate) fn hold(worker: &mut FarWorker, alloc: Global, it: Backed) -> bool
    requires { worker.old.held.pool ≡ None }
    ensures held { result ≡ true → worker.new.held.pool ≡ Some it }
    ensures refused { result ≡ false → worker.new.held.pool ≡ None }
{
    match Box::new(alloc, it) {
        Ok(it) => {
            give(worker, it);
            true
        }
        Err(_) => false,
    }
}
