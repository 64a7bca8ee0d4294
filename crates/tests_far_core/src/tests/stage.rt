//! A core on which a test is played, act by act.

use crate::tests::acts::{Act, Play};
use crate::tests::bytes::does_bytes;
use crate::tests::looks::all_shown;
use crate::tests::own_calls::{called, may};
use crate::tests::ranges::{
    copies_words, gets_words, has_pair, puts_words, puts_zeros, stores_at, stores_pair,
};
use far_core::{Core, Event, Reply};
use std::alloc::Global;
use std::process::Abort;

// Whether an event is answered so, and the core shows the same after it.
fn leaves(core: &mut Core, event: Event, reply: Reply) -> bool {
    let before = all_shown(core);
    core.step(event) == reply && all_shown(core) == before
}

// Whether each event is refused, and the core shows the same after it.
fn refuses(core: &mut Core, events: &[Event]) -> bool {
    for event in events {
        if !leaves(core, *event, Reply::Refused) {
            return false;
        }
    }
    true
}

// Whether an act comes out as it should.
fn does(core: &mut Core, act: Act) -> bool {
    match act {
        Act::Does(event, reply) => core.step(event) == reply,
        Act::Leaves(event, reply) => leaves(core, event, reply),
        Act::Refuses(events) => refuses(core, events),
        Act::Calls(event, reply) => called(core, event) == reply,
        Act::May(event, legal) => may(core, event) == legal,
        Act::StoresAt(index, word) => stores_at(core, 0, index, word),
        Act::StoresPair(words) => stores_pair(core, 0, words),
        Act::HasPair(words) => has_pair(core, words),
        Act::PutsZeros(place, count) => puts_zeros(core, place, count),
        Act::PutsWords(place, bytes, count) => puts_words(core, place, bytes, count),
        Act::GetsWords(place, count, bytes) => gets_words(core, place, count, bytes),
        Act::CopiesWords(from, to, count) => copies_words(core, from, to, count),
        _ => does_bytes(core, act),
    }
}

/// Whether each act comes out as it should.
pub(super) fn does_all(core: &mut Core, acts: &[Act]) -> bool {
    for act in acts {
        if !does(core, *act) {
            return false;
        }
    }
    true
}

// The same of each part.
fn does_parts(core: &mut Core, parts: &[&[Act]]) -> bool {
    for part in parts {
        if !does_all(core, part) {
            return false;
        }
    }
    true
}

// The same of a whole test: so many of these parts come first.
fn does_play(core: &mut Core, firsts: &[&[Act]], test: &Play) -> bool {
    test.after <= firsts.len()
        && does_parts(core, &firsts[..test.after])
        && does_parts(core, test.parts)
}

// The same on a new core.
fn comes_out(alloc: Global, firsts: &[&[Act]], test: &Play) -> bool {
    match Core::new(alloc, test.shape, test.honest) {
        Ok(mut core) => does_play(&mut core, firsts, test),
        Err(_) => false,
    }
}

/// Each test comes out as it should.
pub(super) fn play(rt: &impl Abort, alloc: Global, firsts: &[&[Act]], tests: &[Play]) {
    for test in tests {
        assert!(rt; comes_out(alloc, firsts, test), "{}", test.name);
    }
}
