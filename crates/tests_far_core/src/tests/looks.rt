//! What a core shows.

use crate::tests::acts::Act;
use far_core::{Core, Event, Kind, Reply};
use far_word::{LOG_WORDS, Place};

/// What a core of at most four logs and two owners shows.
#[derive(Clone, Copy, PartialEq)]
pub(super) struct Shown {
    open_log: u8,
    logs: [Option<(Kind, u16)>; 4],
    owners: [(bool, bool); 2],
    pointers: [(u64, bool, bool); 5],
    words: [Reply; 3],
    jobs: [Reply; 3],
}

// What a log is, and its tail; `None` for a number that is no log's.
fn log_shown(core: &Core, log: u8) -> Option<(Kind, u16)> {
    if log < core.logs() {
        Some((core.kind(log), core.tail(log)))
    } else {
        None
    }
}

fn owner_shown(core: &Core, owner: u8) -> (bool, bool) {
    (core.is_open(owner), core.has_epoch(owner))
}

fn pointer_shown(core: &Core, pointer: u16) -> (u64, bool, bool) {
    let cell = core.cell(pointer);
    (cell, core.is_used(pointer), core.is_held(pointer))
}

fn word_shown(core: &mut Core, pointer: u16, index: u16) -> Reply {
    core.step(Event::Load {
        owner: 0,
        pointer,
        index,
    })
}

/// All that a core shows.
pub(super) fn all_shown(core: &mut Core) -> Shown {
    Shown {
        open_log: core.open_log(),
        logs: [
            log_shown(core, 0),
            log_shown(core, 1),
            log_shown(core, 2),
            log_shown(core, 3),
        ],
        owners: [owner_shown(core, 0), owner_shown(core, 1)],
        pointers: [
            pointer_shown(core, 0),
            pointer_shown(core, 1),
            pointer_shown(core, 2),
            pointer_shown(core, 3),
            pointer_shown(core, 256),
        ],
        words: [
            word_shown(core, 0, 0),
            word_shown(core, 0, 1),
            word_shown(core, 1, 0),
        ],
        jobs: [
            core.step(Event::SeeJob { job: 0 }),
            core.step(Event::SeeJob { job: 1 }),
            core.step(Event::SeeJob { job: 3 }),
        ],
    }
}

// Whether a word of a log is this.
fn has_word(core: &Core, place: Place, word: u64) -> bool {
    let Place { log, at } = place;
    log < core.logs() && at < LOG_WORDS && core.word(log, at) == word
}

// Whether a span begins at a place, or doesn't.
fn has_start(core: &Core, place: Place, begins: bool) -> bool {
    let Place { log, at } = place;
    log < core.logs() && at < LOG_WORDS && core.starts(log, at) == begins
}

/// Whether a look at a core shows what it should.
pub(super) fn shows(core: &Core, look: Act) -> bool {
    match look {
        Act::Sized(logs, mutators) => core.logs() == logs && core.mutators() == mutators,
        Act::Begun(epoch, honest) => core.epoch() == epoch && core.is_honest() == honest,
        Act::Log(log, kind, tail) => log_shown(core, log) == Some((kind, tail)),
        Act::OpenLog(log) => core.open_log() == log,
        Act::InRound(log, is_in) => core.is_in_round(log) == is_in,
        Act::WordAt(place, word) => has_word(core, place, word),
        Act::Starts(place, begins) => has_start(core, place, begins),
        _ => shows_owned(core, look),
    }
}

// The same of owners and pointers.
fn shows_owned(core: &Core, look: Act) -> bool {
    match look {
        Act::Owner(owner, open, read) => owner_shown(core, owner) == (open, read),
        Act::Scope(owner, word, read) => core.scope(owner) == word
            && core.remembered(owner) == read,
        Act::SeenClear(owner, clear) => core.is_clear(owner) == clear,
        Act::Cell(pointer, cell) => core.cell(pointer) == cell,
        Act::Pointer(pointer, cell, used, held) => pointer_shown(core, pointer)
            == (cell, used, held),
        Act::Used(pointer, used) => core.is_used(pointer) == used,
        Act::HeldAt(pointer, place) => core.held(pointer) == place,
        Act::Cells(count) => core.cells().len() == count,
        Act::Listed(number, cell) => core.cells().get(number).copied() == Some(cell),
        _ => false,
    }
}
