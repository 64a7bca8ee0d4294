//! Each event by its own call, where its guard is known to hold.

use far_core::{Core, Event, Kind, Reply};
use far_word::{CELLS, JOBS, LOG_WORDS, MOST_COPIERS, Mark, Place, PtrWord};

fn put(core: &mut Core, log: u8, at: u16, word: u64) -> Reply {
    if log < core.logs()
        && at < LOG_WORDS
        && core.kind(log) != Kind::Sealed
        && core.tail(log) <= at
    {
        core.put(log, at, word);
        return Reply::Done;
    }
    Reply::Refused
}

fn name(core: &mut Core, pointer: u16, old: u64, new: u64) -> Reply {
    if !core.may_name(pointer, old, new) {
        return Reply::Refused;
    }
    match core.name(pointer, old, new) {
        Ok(()) => Reply::Done,
        Err(cell) => Reply::Word(cell),
    }
}

fn get(core: &mut Core, log: u8, at: u16, free: bool) -> Reply {
    if core.may_get(log, at, free) {
        return Reply::Word(core.get(log, at, free));
    }
    Reply::Refused
}

fn advance(core: &mut Core, logs: u64) -> Reply {
    if core.may_advance(logs) {
        return Reply::Epoch(core.advance(logs));
    }
    Reply::Refused
}

// Of owner 0 and its pointers.
fn see(core: &Core, pointer: u16) -> Reply {
    if pointer < CELLS {
        return Reply::Word(core.see(pointer));
    }
    Reply::Refused
}

fn mark(core: &mut Core, pointer: u16) -> Reply {
    if pointer < CELLS {
        if let Some(PtrWord::Near { place, .. }) = PtrWord::read(core.see(pointer)) {
            if place.log < core.logs() && core.kind(place.log) == Kind::Sealed {
                return Reply::Word(core.mark(pointer));
            }
        }
    }
    Reply::Refused
}

fn clear(core: &mut Core, pointer: u16) -> Reply {
    if pointer < CELLS {
        if let Some(PtrWord::Near { .. }) = PtrWord::read(core.see(pointer)) {
            return Reply::Word(core.clear(pointer));
        }
    }
    Reply::Refused
}

fn see_job(core: &Core, job: u8) -> Reply {
    if job < JOBS {
        return Reply::Word(core.see_job(job));
    }
    Reply::Refused
}

fn peek_job(core: &Core, copier: u8, job: u8) -> Reply {
    if copier < MOST_COPIERS && job < JOBS {
        return Reply::Word(core.peek_job(copier, job));
    }
    Reply::Refused
}

fn offer(core: &mut Core, job: u8, pointer: u16, to: Place) -> Reply {
    if core.may_offer(job, pointer, to) {
        core.offer(job, pointer, to);
        return Reply::Done;
    }
    Reply::Refused
}

/// What an event answers if it is made by its own call; `Refused` where its guard isn't met. An owner's is owner 0's.
pub(super) fn called(core: &mut Core, event: Event) -> Reply {
    match event {
        Event::Put { log, at, word } => put(core, log, at, word),
        Event::Name { pointer, old, new } => name(core, pointer, old, new),
        Event::Get { log, at, free } => get(core, log, at, free),
        Event::Advance { logs } => advance(core, logs),
        Event::Look { owner: 0 } => Reply::Word(core.look(0)),
        Event::See { pointer } => see(core, pointer),
        Event::Mark { pointer } => mark(core, pointer),
        Event::Clear { pointer } => clear(core, pointer),
        Event::SeeJob { job } => see_job(core, job),
        Event::PeekJob { copier, job } => peek_job(core, copier, job),
        Event::Offer { job, pointer, to } => offer(core, job, pointer, to),
        _ => called_by_owner(core, event),
    }
}

fn read_epoch(core: &mut Core) -> Reply {
    if core.is_open(0) {
        return Reply::Refused;
    }
    Reply::Epoch(core.read_epoch(0))
}

fn open(core: &mut Core) -> Reply {
    if core.is_open(0) || !core.has_epoch(0) {
        return Reply::Refused;
    }
    core.open(0);
    Reply::Done
}

fn close(core: &mut Core) -> Reply {
    if !core.is_open(0) {
        return Reply::Refused;
    }
    core.close(0);
    Reply::Done
}

fn pin(core: &mut Core, pointer: u16) -> Reply {
    if core.is_open(0) && pointer < CELLS && core.is_used(pointer) && !core.is_held(pointer) {
        return match core.pin(0, pointer) {
            Ok(place) => Reply::Held(place),
            Err(word) => Reply::Word(word),
        };
    }
    Reply::Refused
}

fn load(core: &Core, pointer: u16) -> Reply {
    if pointer < CELLS && core.is_held(pointer) {
        if let Some(PtrWord::Near { len: 8, .. }) = PtrWord::read(core.cell(pointer)) {
            return Reply::Word(core.load(0, pointer, 0));
        }
    }
    Reply::Refused
}

fn soil(core: &mut Core, pointer: u16) -> Reply {
    if pointer < CELLS && core.is_held(pointer) {
        return Reply::Word(core.soil(0, pointer));
    }
    Reply::Refused
}

fn store(core: &mut Core, pointer: u16, word: u64) -> Reply {
    if pointer < CELLS && core.is_soiled(pointer) {
        if let Some(PtrWord::Near { len: 8, .. }) = PtrWord::read(core.cell(pointer)) {
            core.store(0, pointer, 0, word);
            return Reply::Done;
        }
    }
    Reply::Refused
}

fn adopt(core: &mut Core, pointer: u16) -> Reply {
    if pointer < CELLS && !core.is_used(pointer) {
        if let Some(word) = core.adopt(0, pointer) {
            return Reply::Word(word);
        }
    }
    Reply::Refused
}

fn drop_own(core: &mut Core, pointer: u16) -> Reply {
    if pointer < CELLS && core.is_used(pointer) && !core.is_held(pointer) {
        return Reply::Word(core.ask(0, pointer, Mark::Dropped));
    }
    Reply::Refused
}

// The same of an owner's event. Words are loaded and stored at index 0 of 8 bytes.
fn called_by_owner(core: &mut Core, event: Event) -> Reply {
    match event {
        Event::ReadEpoch { .. } => read_epoch(core),
        Event::Open { .. } => open(core),
        Event::Close { .. } => close(core),
        Event::Pin { pointer, .. } => pin(core, pointer),
        Event::Load { pointer, .. } => load(core, pointer),
        Event::Store { pointer, word, .. } => store(core, pointer, word),
        Event::Soil { pointer, .. } => soil(core, pointer),
        Event::Adopt { pointer, .. } => adopt(core, pointer),
        Event::Ask {
            pointer,
            mark: Mark::Dropped,
            ..
        } => drop_own(core, pointer),
        _ => Reply::Refused,
    }
}

/// What the test of an event's guard says; false if the core has none.
pub(super) fn may(core: &Core, event: Event) -> bool {
    match event {
        Event::Name { pointer, old, new } => core.may_name(pointer, old, new),
        Event::Get { log, at, free } => core.may_get(log, at, free),
        Event::Advance { logs } => core.may_advance(logs),
        Event::Offer { job, pointer, to } => core.may_offer(job, pointer, to),
        _ => false,
    }
}
