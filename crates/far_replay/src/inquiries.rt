//! What a heap is asked: where an object is, what a log has, and how many objects there are.

ghost use Rattle.std.specs.Prelude.{◌≡◌, ◌<◌, ◌*◌, length, map, take, sum};
ghost use Rattle.std.specs.List.{range_with_len};
ghost use Rattle.far_word.specs.declared.sizes.TheConstants.{MOST_LOGS};
ghost use Rattle.far_events.specs.state.Law.{Law};
ghost use Rattle.far_replay.specs.Audit.{bytes_by_log, lies_near, lies_far, pointers_by};
ghost use Rattle.far_text.specs.Command.{Mutator, Book as AsksBook, Where, Log, Audit};
ghost use Rattle.far_replay.specs.Events.{events_for};
ghost use Rattle.far_events.specs.events.Ranges.{after_events};
ghost use Rattle.far_replay.specs.Moment.{KeepsRound, moment_in, state_in};
ghost use Rattle.far_replay.specs.Outcome.{reply_by, IsInScratch};
ghost use Rattle.far_replay.specs.Turn.{log_line, reply_to};

use crate::outcome::{Outcome, Scratch};
use crate::owners::{FarSide, core_of, own_pointer};
use far_book::Plain;
use far_evac::{Evac, LogState};
use far_reply::{Counts, LogLine};
use far_word::{Refused, object_counts};

/// Tells where an owner's object is.
pub fn find_object(
    evac: &mut Evac<Plain, FarSide>,
    scratch: &mut Scratch,
    owner: u8,
    pointer: u64,
) -> Outcome
    requires known { owner < (state_in evac.old).mutators }
    requires law { Law (state_in evac.old) }
    ensures state { state_in evac.new ≡ after_events (state_in evac.old) (events_for (moment_in evac.old) (Mutator owner (Where pointer))) }
    ensures reply { reply_by scratch.new result ≡ reply_to (moment_in evac.old) (Mutator owner (Where pointer)) }
    ensures fits { IsInScratch result }
    ensures order { evac.new.book.order ≡ evac.old.book.order }
    ensures round { KeepsRound evac.old evac.new }
    ensures device { evac.new.book.device ≡ evac.old.book.device }
{
    let Some(pointer) = own_pointer(evac, owner, pointer) else {
        return Outcome::Refused(Refused::NotHeld);
    };
    let Some(home) = evac.locate(pointer) else {
        unreachable!()
    };
    scratch.home = home;
    Outcome::Lies
}

// What is told of a log.
fn log_told(evac: &Evac<Plain, FarSide>, log: u8) -> LogLine
    requires log { log < (state_in evac.now).logs }
    ensures { result ≡ log_line (moment_in evac.now) log }
{
    let LogState { kind, row } = evac.log(log);
    LogLine {
        log,
        kind,
        live: u64::from(row.live),
        dead: u64::from(row.dead),
        unused: u64::from(row.unused),
    }
}

/// Fills the buffer with a line of each log, by number.
pub fn tell_logs(evac: &Evac<Plain, FarSide>, lines: &mut [LogLine])
    requires room { length lines.old ≡ MOST_LOGS }
    ensures { take (state_in evac.now).logs lines.new ≡ map (log_line (moment_in evac.now)) (range_with_len 0 (state_in evac.now).logs) }
{
    for log in 0..core_of(evac).logs() {
        lines[log as usize] = log_told(evac, log);
    }
}

/// Tells the line of one log.
pub fn tell_log(evac: &Evac<Plain, FarSide>, scratch: &mut Scratch, log: u64) -> Outcome
    ensures reply { reply_by scratch.new result ≡ reply_to (moment_in evac.now) (AsksBook (Log log)) }
    ensures fits { IsInScratch result }
{
    if log >= u64::from(core_of(evac).logs()) {
        return Outcome::Refused(Refused::Range);
    }
    scratch.lines[0] = log_told(evac, log as u8);
    Outcome::Logs(1)
}

// How many objects are near, and how many are far.
fn count_objects(evac: &Evac<Plain, FarSide>) -> (u16, u16)
    ensures near { result.0 ≡ length (pointers_by lies_near (state_in evac.now)) }
    ensures far { result.1 ≡ length (pointers_by lies_far (state_in evac.now)) }
{
    let cells = core_of(evac).cells();
    let mut all = 0;
    let mut near = 0;
    for pointer in 0..cells.len() {
        let (is_kept, is_near) = object_counts(cells[pointer]);
        all += is_kept;
        near += is_near;
    }
    (near as u16, (all - near) as u16)
}

// The bytes that live spans take in all logs.
fn count_bytes(evac: &Evac<Plain, FarSide>) -> u64
    ensures { result ≡ sum (bytes_by_log (state_in evac.now)) }
{
    let mut live = 0;
    for log in 0..core_of(evac).logs() {
        live += u64::from(evac.log(log).row.live);
    }
    live
}

/// Counts the objects that are near and those that are far, and the live bytes of all logs.
pub fn audit(evac: &Evac<Plain, FarSide>, scratch: &mut Scratch) -> Outcome
    ensures reply { reply_by scratch.new result ≡ reply_to (moment_in evac.now) (AsksBook Audit) }
    ensures fits { IsInScratch result }
{
    let (near, far) = count_objects(evac);
    let live = count_bytes(evac);
    scratch.counts = Counts { near, far, live };
    Outcome::Audited
}
