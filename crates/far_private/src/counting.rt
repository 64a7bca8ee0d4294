//! What a heap has, and what it has done.

ghost use Rattle.std.specs.Prelude.{◌≡◌, ◌+◌, ◌*◌, ◌<◌, ◌≤◌, IsSome, is_some, length, filter, map, sum};
ghost use Rattle.std.specs.List.{range_with_len};
ghost use Rattle.far_word.specs.Mark.{bit_of};
ghost use Rattle.far_word.specs.Pointer.{read_of};
ghost use Rattle.far_core.specs.laws.Observed.{live_bytes};
ghost use Rattle.far_private.specs.FarBytes.{far_len, lies_far, said_far_len, says_far, says_here};
ghost use Rattle.far_private.specs.Objects.{objects_of, state_in};

use crate::cells::core_of;
use far_book::Plain;
use far_device::Device;
use far_evac::Evac;
use far_word::{POINTERS, PtrWord};

/// What a heap has, and what it has done since it was made.
#[derive(Clone, Copy, Debug, PartialEq, Eq)]
pub struct Statistics {
    /// Objects that lie in the logs, 0 to 2,048.
    pub near: u16,
    /// Objects that lie on the device alone, 0 to 2,048.
    pub far: u16,
    /// Bytes of the logs that objects take, with a header of 8 bytes each, and each in whole words.
    pub live: u64,
    /// Bytes of the logs that nothing needs any more, until a round gives their log back.
    pub dead: u64,
    /// Bytes of the logs that were not taken since their log was free. Live, dead and unused bytes make 4,096 a log.
    pub unused: u64,
    /// Bytes of the objects on the device alone, headers not counted.
    pub far_bytes: u64,
    /// Objects that were brought near.
    pub fetches: u64,
    /// Reads of far objects where these lie, also those that failed.
    pub looks: u64,
    /// Objects that went far.
    pub evictions: u64,
    /// Those of them that were not written, as the device had their bytes.
    pub writes_spared: u64,
    /// Objects that went to another place in the logs.
    pub moves: u64,
    /// Rounds that were made.
    pub rounds: u64,
    /// Calls of the device that it failed, modulo 2^64.
    pub device_faults: u64,
}

/// Tells what a heap has, and what it has done: so many looks were made. Nothing changes.
pub(crate) fn tell<D: Device + Drop>(evac: &Evac<Plain, D>, looks: u64) -> Statistics
    ensures objects { result.near + result.far ≡ length (filter (λ p. is_some ((objects_of (state_in evac.now)).object p)) (range_with_len 0 2048)) }
    ensures far { result.far ≡ length (filter (lies_far (state_in evac.now)) (range_with_len 0 2048)) }
    ensures far_bytes { result.far_bytes ≡ sum (map (far_len (state_in evac.now)) (range_with_len 0 2048)) }
    ensures live { result.live ≡ sum (map (live_bytes (state_in evac.now)) (range_with_len 0 (state_in evac.now).logs)) }
    ensures bytes { result.live + result.dead + result.unused ≡ 4096 * (state_in evac.now).logs }
    ensures spared { result.writes_spared ≤ result.evictions }
    ensures rounds { result.rounds ≡ (state_in evac.now).epoch }
    ensures faults { result.device_faults ≡ D.faults evac.now.book.device }
{
    let (near, far, far_bytes) = count_objects(evac);
    let (live, dead, unused) = count_bytes(evac);
    let done = evac.book().counts();
    Statistics {
        near,
        far,
        live,
        dead,
        unused,
        far_bytes,
        fetches: done.fetched,
        looks,
        evictions: evictions(done.written, done.spared),
        writes_spared: done.spared,
        moves: done.moved,
        rounds: core_of(evac).epoch(),
        device_faults: evac.book().faults(),
    }
}

// How many objects went far, of which so many were written, and so many weren't.
#[inline(always)]
fn evictions(written: u64, spared: u64) -> u64
    ensures { spared ≤ result }
{
    written.saturating_add(spared)
}

// How many objects are near, how many are far, and the bytes of those.
fn count_objects<D: Device + Drop>(evac: &Evac<Plain, D>) -> (u16, u16, u64)
    ensures all { result.0 + result.1 ≡ length (filter (λ p. is_some ((objects_of (state_in evac.now)).object p)) (range_with_len 0 2048)) }
    ensures far { result.1 ≡ length (filter (lies_far (state_in evac.now)) (range_with_len 0 2048)) }
    ensures far_bytes { result.2 ≡ sum (map (far_len (state_in evac.now)) (range_with_len 0 2048)) }
{
    let mut near = 0;
    let mut far = 0;
    let mut far_bytes = 0;
    for pointer in 0..POINTERS {
        let core = core_of(evac);
        core.keeps_law();
        let (is_near, is_far, len) = cell_counts(core.cell(pointer));
        near += is_near;
        far += is_far;
        far_bytes += len;
    }
    (near, far, far_bytes)
}

// What a cell adds to these.
fn cell_counts(word: u64) -> (u16, u16, u64)
    requires some { IsSome (read_of word) }
    ensures near { result.0 ≡ bit_of (says_here (read_of word)) }
    ensures far { result.1 ≡ bit_of (says_far (read_of word)) }
    ensures far_bytes { result.2 ≡ said_far_len (read_of word) }
{
    match PtrWord::known(word) {
        PtrWord::Near { marks, .. } => { if marks.dropped { (0, 0, 0) } else { (1, 0, 0) } }
        PtrWord::Far { len, marks, .. } => {
            if marks.dropped {
                (0, 0, 0)
            } else {
                (0, 1, u64::from(len))
            }
        }
        PtrWord::Free => (0, 0, 0),
    }
}

// The live, dead and unused bytes of all logs.
fn count_bytes<D: Device + Drop>(evac: &Evac<Plain, D>) -> (u64, u64, u64)
    ensures live { result.0 ≡ sum (map (live_bytes (state_in evac.now)) (range_with_len 0 (state_in evac.now).logs)) }
    ensures whole { result.0 + result.1 + result.2 ≡ 4096 * (state_in evac.now).logs }
{
    let mut live = 0;
    let mut dead = 0;
    let mut unused = 0;
    for log in 0..core_of(evac).logs() {
        let (more_live, more_dead, more_unused) = bytes_of_log(evac, log);
        live += more_live;
        dead += more_dead;
        unused += more_unused;
    }
    (live, dead, unused)
}

// Those of one log.
fn bytes_of_log<D: Device + Drop>(evac: &Evac<Plain, D>, log: u8) -> (u64, u64, u64)
    requires log { log < (state_in evac.now).logs }
    ensures live { result.0 ≡ live_bytes (state_in evac.now) log }
    ensures whole { result.0 + result.1 + result.2 ≡ 4096 }
{
    core_of(evac).bytes_make_log();
    let row = evac.log(log).row;
    (
        u64::from(row.live),
        u64::from(row.dead),
        u64::from(row.unused),
    )
}
