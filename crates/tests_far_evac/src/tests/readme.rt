//! The text of the crate's page, as a test.

use far_book::{Book, Plain};
use far_core::{Core, Event, Reply, Shape};
use far_device::MemDevice;
use far_evac::{Evac, Progress, RoundEnd};
use far_policy::Oldest;
use far_word::Refused;
use std::alloc::Global;

const SHAPE: Shape = Shape {
    logs: 4,
    mutators: 1,
    epoch: 0,
};

#[tactic(auto, using(crate::proofs::Uses::at_start, crate::proofs::Uses::at_start_alone))]
fn made(alloc: Global) -> Result<Evac<Plain, MemDevice>, Refused> {
    let core = Core::new(alloc, SHAPE, true)?;
    let book = Book::new(alloc, Plain { core }, MemDevice::new(alloc))?;
    Ok(Evac::new(book))
}

// The second object fills log 1, so that log 0 is sealed.
fn places(evac: &mut Evac<Plain, MemDevice>) -> Result<(), Refused> {
    for len in [8, 4088] {
        evac.keeps_law();
        let Some(pointer) = evac.book().free_cell(0) else {
            return Err(Refused::NoPointer);
        };
        evac.place(pointer, len, 1)?;
        evac.owner(Event::Adopt { owner: 0, pointer });
    }
    Ok(())
}

// The object's first word is to be 7, and it is hot from now on.
fn writes(evac: &mut Evac<Plain, MemDevice>) {
    let (owner, pointer, index, word) = (0, 0, 0, 7);
    evac.owner(Event::ReadEpoch { owner });
    evac.owner(Event::Open { owner });
    evac.owner(Event::Pin { owner, pointer });
    evac.owner(Event::Soil { owner, pointer });
    evac.owner(Event::Store {
        owner,
        pointer,
        index,
        word,
    });
    evac.owner(Event::Close { owner });
}

// At most 1 log, at most 9 turns.
fn is_rounded(evac: &mut Evac<Plain, MemDevice>) -> bool {
    let done = Progress {
        moved: 1,
        far: 0,
        dropped: 0,
        freed: 1,
        done: true,
    };
    evac.run_round(&mut Oldest, 1, 9) == Ok(RoundEnd::Done(done))
}

fn is_read(evac: &mut Evac<Plain, MemDevice>) -> bool {
    let (owner, pointer, index) = (0, 0, 0);
    evac.owner(Event::ReadEpoch { owner });
    evac.owner(Event::Open { owner });
    evac.owner(Event::Pin { owner, pointer });
    let load = Event::Load {
        owner,
        pointer,
        index,
    };
    evac.owner(load) == Reply::Word(7)
}

fn comes_out(evac: &mut Evac<Plain, MemDevice>) -> bool {
    if places(evac).is_err() {
        return false;
    }
    writes(evac);
    is_rounded(evac) && is_read(evac)
}

fn is_so(alloc: Global) -> bool {
    match made(alloc) {
        Ok(mut evac) => comes_out(&mut evac),
        Err(_) => false,
    }
}

#[test]
fn readme(rt: HostRuntime) {
    assert!(rt; is_so(rt.alloc()));
}
