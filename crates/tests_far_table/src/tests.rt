//! Whether the calls of owners' seats do what was meant, by worked values. Words of cells come from the layout's own table of
//! examples.

mod beside;
mod calls;
mod growing;
mod owner;
mod rounds;

ghost use Rattle.std.specs.Prelude.{◌≡◌, map, IfOk};
ghost use Rattle.std.specs.List.{range_with_len};
ghost use Rattle.far_core.specs.state.CoreState.{core_state};
ghost use Rattle.tests_far_table.specs.Fits.{Ready, known_of};

use crate::Known;
use far_core::{Core, Event, Reply, Shape};
use far_device::MemDevice;
use far_table::{MutSeat, share};
use far_word::Refused;
use owner::{Act, Owner, known_of};
use std::alloc::{AllocError, Global};
use std::snapshot::Snapshot;

// Whether the events are answered so, in order.
fn happens(core: &mut Core, cases: &[(Event, Reply)]) -> bool {
    for (event, reply) in cases {
        if core.step(*event) != *reply {
            return false;
        }
    }
    true
}

// Whether an owner's calls are answered so, in order.
fn answers(owner: &mut Owner, cases: &[(Act, Reply)]) -> bool {
    for (act, reply) in cases {
        if owner.act(*act) != *reply {
            return false;
        }
    }
    true
}

// What the owners of a core know, by their numbers.
fn all_known(alloc: Global, core: &Core) -> Result<Vec<Known>, AllocError>
    ensures { IfOk result (λ all. all.items ≡ map (known_of (core_state core.now)) (range_with_len 0 (core_state core.now).mutators)) }
{
    core.keeps_law();
    let mutators = core.mutators();
    let mut all = Vec::with_capacity(alloc, mutators as usize)?;
    for number in 0..mutators {
        all.push_reserved(known_of(core, number));
    }
    Ok(all)
}

// The seats of a core that is shared, and what its owners know.
fn seats_of(alloc: Global, core: Core) -> Result<(Vec<MutSeat<MemDevice>>, Vec<Known>), Refused>
    ensures { IfOk result (λ r. Ready r.0.items r.1.items) }
{
    if !core.is_honest() || !core.has_copiers() {
        return Err(Refused::Range);
    }
    core.keeps_law();
    let device = MemDevice::new(alloc);
    let Ok(all) = all_known(alloc, &core) else {
        return Err(Refused::Memory);
    };
    let (_book, seats, _copiers) = share(alloc, core, Snapshot::of(&device))?;
    Ok((seats, all))
}

/// Shares a core of an honest far side. Its owners, the last first, each with its first pointer.
fn shared(alloc: Global, core: Core) -> Result<Vec<Owner>, Refused> {
    let (mut seats, all) = seats_of(alloc, core)?;
    let mut owners = Vec::new(alloc);
    for _ in 0..seats.len() {
        if let Some(owner) = Owner::last_of(&mut seats, &all) {
            if owners.push(owner).is_err() {
                return Err(Refused::Memory);
            }
        }
    }
    Ok(owners)
}

// A core of this shape on which these events have happened.
fn made(alloc: Global, shape: Shape, before: &[(Event, Reply)]) -> Result<Core, Refused> {
    let mut core = Core::new(alloc, shape, true)?;
    if happens(&mut core, before) {
        Ok(core)
    } else {
        Err(Refused::Range)
    }
}

/// Whether the calls of the owner of this number are answered so, once a core of this shape is shared on which these events have happened.
fn goes_on(
    alloc: Global,
    shape: Shape,
    before: &[(Event, Reply)],
    number: usize,
    cases: &[(Act, Reply)],
) -> bool {
    let Ok(core) = made(alloc, shape, before) else {
        return false;
    };
    let Ok(mut owners) = shared(alloc, core) else {
        return false;
    };
    let count = owners.len();
    if count as u64 != shape.mutators || number >= count {
        return false;
    }
    answers(&mut owners[count - 1 - number], cases)
}
