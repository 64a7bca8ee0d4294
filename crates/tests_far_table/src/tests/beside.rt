//! Owners side by side, each in a thread of its own.

ghost use Rattle.std.specs.Prelude.{◌<◌};

use crate::tests::owner::{Act, Owner};
use crate::tests::shared;
use far_core::{Core, Event, Reply, Shape};
use far_word::{CELLS, Mark, Refused};
use std::alloc::Global;
use std::thread;
use std::thread::{Threads, join};

// Places an object of 8 bytes for an owner's first pointer in log 0, after those of the owners before it.
fn places_first(core: &mut Core, owner: u8) -> bool {
    let (pointer, at) = (CELLS * owner as u16, 2 * owner as u16);
    let word = 0xa200_0000_0100_0008 | (pointer as u64) << 32;
    let new = 0x8600_0000_0001_0008 | (at as u64) << 24;
    let put = Event::Put { log: 0, at, word };
    let name = Event::Name {
        pointer,
        old: 0,
        new,
    };
    core.step(put) == Reply::Done && core.step(name) == Reply::Done
}

// The same for so many owners.
fn places_for(core: &mut Core, owners: u8) -> bool {
    for owner in 0..owners {
        if !places_first(core, owner) {
            return false;
        }
    }
    true
}

// Whether an owner opens its scope and views its object.
fn views(owner: &mut Owner) -> bool {
    owner.act(Act::ReadEpoch) == Reply::Epoch(5)
        && owner.act(Act::Open) == Reply::Done
        && matches!(owner.act(Act::Pin), Reply::Held(_))
}

// Whether an owner opens its scope, soils its object, writes a word, reads it and closes its scope.
fn takes_a_turn(owner: &mut Owner, before: u64, word: u64) -> bool {
    views(owner)
        && owner.act(Act::Load(0)) == Reply::Word(before)
        && matches!(owner.act(Act::Soil), Reply::Word(_))
        && owner.act(Act::Store(0, word)) == Reply::Done
        && owner.act(Act::Load(0)) == Reply::Word(word)
        && owner.act(Act::Close) == Reply::Done
}

// Whether an owner takes so many turns with words of its own, each of which it finds at the next.
fn takes_each(owner: &mut Owner, turns: u64, own: u64) -> bool {
    let mut before = 0;
    for turn in 0..turns {
        let word = own ^ turn;
        if !takes_a_turn(owner, before, word) {
            return false;
        }
        before = word;
    }
    true
}

// Whether an owner adopts its object and takes them.
fn takes_turns(mut owner: Owner, turns: u64, own: u64) -> bool {
    owner.act(Act::Adopt) != Reply::Refused && takes_each(&mut owner, turns, own)
}

fn placed(alloc: Global, owners: u8) -> Result<Core, Refused> {
    let shape = Shape {
        logs: 4,
        mutators: owners as u64,
        epoch: 5,
    };
    let mut core = Core::new(alloc, shape, true)?;
    if places_for(&mut core, owners) {
        Ok(core)
    } else {
        Err(Refused::Range)
    }
}

fn made(alloc: Global, owners: u8) -> Result<Vec<Owner>, Refused> {
    let core = placed(alloc, owners)?;
    shared(alloc, core)
}

// Whether two owners take turns side by side.
fn both_take_turns<R: Threads>(rt: &R, first: Owner, second: Owner) -> bool {
    let (a, b) = join(
        rt,
        move || takes_turns(first, 1000, 0xaaaa_0000),
        move || takes_turns(second, 1000, 0x5555_0000),
    );
    a && b
}

// The same of the last of some, and the one before it.
fn last_take_turns<R: Threads>(rt: &R, mut owners: Vec<Owner>) -> bool {
    match owners.pop() {
        Some(first) => take_turns_after(rt, first, owners.pop()),
        None => false,
    }
}

fn take_turns_after<R: Threads>(rt: &R, first: Owner, second: Option<Owner>) -> bool {
    match second {
        Some(second) => both_take_turns(rt, first, second),
        None => false,
    }
}

fn two_take_turns<R: Threads>(rt: &R, alloc: Global) -> bool {
    match made(alloc, 2) {
        Ok(owners) => last_take_turns(rt, owners),
        Err(_) => false,
    }
}

#[test]
fn owners_side_by_side(rt: HostRuntime) {
    assert!(rt; two_take_turns(&rt, rt.alloc()));
}

// Whether eight owners take turns, each in a thread of its own.
fn all_take_turns<R: Threads + Sync>(rt: &R, owners: Vec<Owner>) -> bool {
    let Ok(done) = thread::map_vec(rt, owners, &|owner| takes_turns(owner, 200, 0xff00)) else {
        return false;
    };
    done.as_slice() == [true; 8].as_slice()
}

fn eight_take_turns<R: Threads + Sync>(rt: &R, alloc: Global) -> bool {
    match made(alloc, 8) {
        Ok(owners) => all_take_turns(rt, owners),
        Err(_) => false,
    }
}

#[test]
fn eight_owners_in_eight_threads(rt: HostRuntime) {
    assert!(rt; eight_take_turns(&rt, rt.alloc()));
}

// The next of a row of numbers that look chosen at random.
fn next(state: u64) -> u64 {
    state
        .wrapping_mul(6_364_136_223_846_793_005)
        .wrapping_add(1_442_695_040_888_963_407)
}

fn act_of(state: u64) -> Act {
    let word = state % 256;
    match (state >> 30) % 1024 {
        0 => Act::Ask(Mark::Moved),
        1 => Act::Ask(Mark::Dropped),
        2..128 => Act::Adopt,
        128..320 => Act::ReadEpoch,
        320..480 => Act::Open,
        480..544 => Act::Close,
        544..704 => Act::Pin,
        704..864 => Act::Load(0),
        _ => Act::Store(0, word),
    }
}

// Whether an owner of eight that were shared, the last first, gets the answer that its event gets of a core that wasn't.
fn goes_alike(owners: &mut Vec<Owner>, core: &mut Core, number: u8, act: Act) -> bool
    requires { number < 8 }
{
    let event = act.event(number, CELLS * number as u16);
    match owners.get_mut(7 - number as usize) {
        Some(owner) => owner.act(act) == core.step(event),
        None => false,
    }
}

// Whether they do so at many events.
fn go_alike(owners: &mut Vec<Owner>, core: &mut Core) -> bool {
    let mut state = 1;
    for _ in 0..4000u16 {
        state = next(state);
        if !goes_alike(owners, core, (state >> 61) as u8, act_of(state)) {
            return false;
        }
    }
    true
}

// The same of owners that are made.
fn are_as(alloc: Global, core: &mut Core) -> bool {
    match made(alloc, 8) {
        Ok(mut owners) => go_alike(&mut owners, core),
        Err(_) => false,
    }
}

// The same of owners and a core that are made.
fn are_alike(alloc: Global) -> bool {
    match placed(alloc, 8) {
        Ok(mut core) => are_as(alloc, &mut core),
        Err(_) => false,
    }
}

#[test]
fn calls_answer_as_events_of_a_core(rt: HostRuntime) {
    assert!(rt; are_alike(rt.alloc()));
}
