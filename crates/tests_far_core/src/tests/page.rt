//! The example of the crate's page, README.md.

use crate::tests::acts::SMALL;
use far_core::{Core, Event, Reply};
use far_word::{Place, Refused};
use std::alloc::Global;

const OWNER: u8 = 0;

const POINTER: u16 = 0;

const NEAR: u64 = 0x8600_0000_0001_0008;

const VIEWED: u64 = 0xc600_0000_0001_0008;

// The book writes a header and a zero at the tail of log 0, and names them by pointer 0.
fn placed(alloc: Global, core: &mut Core) -> Result<Vec<Reply>, Refused> {
    let pointer = POINTER;
    let header = Event::Put {
        log: 0,
        at: 0,
        word: 0xa200_0000_0100_0008,
    };
    let zero = Event::Put {
        log: 0,
        at: 1,
        word: 0,
    };
    let name = Event::Name {
        pointer,
        old: 0,
        new: NEAR,
    };
    core.run(alloc, &[header, zero, name])
}

fn is_placed(alloc: Global, core: &mut Core) -> bool {
    match placed(alloc, core) {
        Ok(replies) => replies.as_slice() == [Reply::Done; 3].as_slice(),
        Err(_) => false,
    }
}

// The owner takes the pointer over, opens its scope and views the object.
fn views(core: &mut Core) -> bool {
    let (owner, pointer) = (OWNER, POINTER);
    let place = Place { log: 0, at: 0 };
    core.step(Event::Adopt { owner, pointer }) == Reply::Word(NEAR)
        && core.step(Event::ReadEpoch { owner }) == Reply::Epoch(0)
        && core.step(Event::Open { owner }) == Reply::Done
        && core.step(Event::Pin { owner, pointer }) == Reply::Held(place)
}

// It writes a word and reads it back; after its close a load isn't legal.
fn writes_and_reads(core: &mut Core) -> bool {
    let (owner, pointer, index) = (OWNER, POINTER, 0);
    let store = Event::Store {
        owner,
        pointer,
        index,
        word: 7,
    };
    let load = Event::Load {
        owner,
        pointer,
        index,
    };
    core.step(Event::Soil { owner, pointer }) == Reply::Word(VIEWED)
        && core.step(store) == Reply::Done
        && core.step(load) == Reply::Word(7)
        && core.step(Event::Close { owner }) == Reply::Done
        && core.step(load) == Reply::Refused
}

fn goes_so(alloc: Global, core: &mut Core) -> bool {
    is_placed(alloc, core) && views(core) && writes_and_reads(core)
}

fn is_told(alloc: Global) -> bool {
    match Core::new(alloc, SMALL, true) {
        Ok(mut core) => goes_so(alloc, &mut core),
        Err(_) => false,
    }
}

#[test]
fn the_page_of_the_crate(rt: HostRuntime) {
    assert!(rt; is_told(rt.alloc()));
}
