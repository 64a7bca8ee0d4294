//! An evacuator on which a test is played, act by act.

use crate::tests::acts::{Act, Play};
use crate::tests::making::{evacuator, owner_does};
use crate::tests::steps::{home, round_does, shown};
use far_book::{Home, Near, Plain};
use far_device::Device;
use far_evac::{Evac, LogState, Phase};
use far_word::Refused;
use std::alloc::Global;
use std::process::Abort;

/// All that can be seen of an evacuator with four logs and three objects: the phase, the epoch, the logs, where the objects are.
#[derive(Clone, Copy, PartialEq)]
struct Seen {
    phase: Phase,
    epoch: u64,
    logs: [Option<LogState>; 4],
    homes: [Option<Home>; 3],
}

fn look<N: Near + Drop, D: Device + Drop>(evac: &mut Evac<N, D>) -> Seen {
    Seen {
        phase: evac.phase(),
        epoch: evac.book().shape().epoch,
        logs: [
            shown(evac, 0),
            shown(evac, 1),
            shown(evac, 2),
            shown(evac, 3),
        ],
        homes: [home(evac, 0), home(evac, 1), home(evac, 2)],
    }
}

// Whether an act comes out as it should, where this was noted before.
fn does<D: Device + Drop>(evac: &mut Evac<Plain, D>, noted: &mut Option<Seen>, act: Act) -> bool {
    match act {
        Act::Notes => {
            *noted = Some(look(evac));
            true
        }
        Act::AsNoted => *noted == Some(look(evac)),
        _ => match owner_does(evac, act) {
            Some(done) => done,
            None => round_does(evac, act),
        },
    }
}

/// Whether each act comes out as it should.
pub(super) fn does_all<D: Device + Drop>(evac: &mut Evac<Plain, D>, acts: &[Act]) -> bool {
    let mut noted = None;
    for act in acts {
        if !does(evac, &mut noted, *act) {
            return false;
        }
    }
    true
}

// The same of each part.
fn does_parts<D: Device + Drop>(evac: &mut Evac<Plain, D>, parts: &[&[Act]]) -> bool {
    for part in parts {
        if !does_all(evac, part) {
            return false;
        }
    }
    true
}

/// The same on a new evacuator, if that is made.
pub(super) fn plays_on<D: Device + Drop>(
    made: Result<Evac<Plain, D>, Refused>,
    parts: &[&[Act]],
) -> bool {
    match made {
        Ok(mut evac) => does_parts(&mut evac, parts),
        Err(_) => false,
    }
}

/// Each test comes out as it should, over a device in memory.
pub(super) fn play(rt: &impl Abort, alloc: Global, tests: &[Play]) {
    for test in tests {
        assert!(rt;
            plays_on(evacuator(alloc, test.shape), test.parts),
            "{}",
            test.name
        );
    }
}
