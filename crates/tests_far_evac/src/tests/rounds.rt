//! Whole rounds: what is done, and where all is after them.

use crate::tests::acts::Act::*;
use crate::tests::acts::Choice::Eldest;
use crate::tests::acts::{Act, End, Play};
use crate::tests::making::SMALL;
use crate::tests::stage::play;
use far_core::Shape;
use far_evac::{LogKind, Phase};
use far_word::{Mark, Place, Refused};

const THREE: Shape = Shape {
    logs: 3,
    mutators: 1,
    epoch: 0,
};

const LARGEST: Shape = Shape {
    logs: 64,
    mutators: 1,
    epoch: 0,
};

/// The bytes 1 to 8 in a word.
const COUNTED: u64 = 0x0807_0605_0403_0201;

const ROOM_MADE: &[Act] = &[
    MakesMany(2, 4088),
    MakesNone(8),
    Drops(0),
    Runs(Eldest, 1, 9, End::Done([0, 0, 0, 1])),
    Makes(8, 0),
    Log(0, LogKind::Open, [16, 0, 4080]),
];

// Of two objects in log 0 the one that was written moves, and the other goes far.
const TWO_PART: &[Act] = &[
    MakesMany(2, 8),
    Writes(0, COUNTED),
    MakesMany(1, 4088),
    Runs(Eldest, 1, 9, End::Done([1, 1, 0, 1])),
    Near(0, Place { log: 2, at: 0 }, false),
    Far(1),
];

// Log 0 is free then, and log 2 has the object that moved. Both are read, and the far one is near again.
const PARTED: &[Act] = &[
    Log(0, LogKind::Free, [0, 0, 4096]),
    Log(1, LogKind::Sealed, [4096, 0, 0]),
    Log(2, LogKind::Open, [16, 0, 4080]),
    Counts(2, 1, 4112),
    Reads(0, COUNTED),
    Reads(1, 0),
    Clean(1, Place { log: 2, at: 2 }, true),
];

const OPENED_ANEW: &[Act] = &[
    MakesMany(3, 4088),
    Opens,
    Views(1),
    Closes,
    Runs(Eldest, 2, 9, End::Done([1, 1, 0, 2])),
    Near(1, Place { log: 0, at: 0 }, false),
    Log(0, LogKind::Open, [4096, 0, 0]),
];

// A round with no turn stands before its marking, and no other begins meanwhile; one more turn brings it to the next phase each time.
const TURN_BY_TURN: &[Act] = &[
    MakesMany(1, 8),
    MakesMany(1, 4088),
    Runs(Eldest, 1, 0, End::Limit(Phase::Marking)),
    Runs(Eldest, 1, 9, End::Stopped([0, 0, 0, 0], Refused::Phase)),
    GivesUp(Ok(())),
    Runs(Eldest, 1, 1, End::Limit(Phase::Waiting)),
    GivesUp(Ok(())),
    Runs(Eldest, 1, 2, End::Limit(Phase::Evacuating)),
    Deals(9, [0, 1, 0, 1], true),
];

const IN_TIME: &[Act] = &[
    Runs(Eldest, 1, 9, End::Nothing),
    MakesMany(1, 8),
    MakesMany(1, 4088),
    Runs(Eldest, 0, 9, End::Nothing),
    Runs(Eldest, 1, 3, End::Done([0, 1, 0, 1])),
    In(Phase::Idle),
];

const SIXTEEN: &[Act] = &[
    MakesMany(16, 48),
    MakesMany(1, 4088),
    Runs(Eldest, 1, 1, End::Limit(Phase::Waiting)),
    GivesUp(Ok(())),
    Runs(Eldest, 1, 3, End::Done([0, 16, 0, 1])),
];

const SEVENTEEN: &[Act] = &[
    MakesMany(17, 48),
    MakesMany(1, 4088),
    Runs(Eldest, 1, 1, End::Limit(Phase::Marking)),
    GivesUp(Ok(())),
    Runs(Eldest, 1, 4, End::Limit(Phase::Evacuating)),
    Deals(9, [0, 1, 0, 1], true),
];

// The log of a dropped object waits in a round. It is given back where nothing is dealt with, and the log of a live one isn't.
const DEAD_LOG: &[Act] = &[
    MakesMany(3, 4088),
    Drops(0),
    Runs(Eldest, 2, 2, End::Limit(Phase::Evacuating)),
    Log(0, LogKind::Chosen, [0, 4096, 0]),
    Deals(0, [0, 0, 0, 1], false),
    Log(0, LogKind::Free, [0, 0, 4096]),
    Log(1, LogKind::Chosen, [4096, 0, 0]),
    Deals(0, [0, 0, 0, 0], false),
    Deals(1, [0, 1, 0, 1], true),
    Log(1, LogKind::Free, [0, 0, 4096]),
];

const ONE_RETIRED: &[Act] = &[
    MakesMany(2, 8),
    MakesMany(1, 4088),
    Runs(Eldest, 1, 2, End::Limit(Phase::Evacuating)),
    Asks(1, Mark::Dropped),
    Deals(1, [0, 1, 0, 0], false),
    Deals(1, [0, 0, 1, 1], true),
    Counts(1, 1, 4096),
];

// Objects 0 to 2 lie in log 0 and are hot, and 3 fills log 1.
const THREE_HOT: &[Act] = &[
    MakesMany(3, 8),
    MakesMany(1, 4088),
    Writes(0, 1),
    Writes(1, 2),
    Writes(2, COUNTED),
];

// The first round moves them, the second sends 3 far, and the third the others, once another object has sealed their log.
const THREE_ROUNDS: &[Act] = &[
    Runs(Eldest, 1, 9, End::Done([3, 0, 0, 1])),
    Runs(Eldest, 1, 9, End::Done([0, 1, 0, 1])),
    MakesMany(1, 4088),
    Runs(Eldest, 1, 9, End::Done([0, 3, 0, 1])),
    Counts(1, 4, 4096),
];

// All four come back with what was written.
const FOUR_READ: &[Act] = &[
    Reads(0, 1),
    Reads(1, 2),
    Reads(2, COUNTED),
    Reads(3, 0),
    Counts(5, 0, 8240),
];

const ALL_LOGS: &[Act] = &[
    MakesMany(63, 4088),
    MakesNone(4088),
    Runs(Eldest, 64, 9, End::Done([0, 62, 0, 62])),
    Counts(1, 62, 4096),
];

#[rattlefmt::skip]
const PLAYS: &[Play] = &[
    Play { name: "a_round_makes_room", shape: THREE, parts: &[ROOM_MADE] },
    // An object that was written lately goes to another log, one that wasn't goes far.
    Play { name: "a_plain_round", shape: SMALL, parts: &[TWO_PART, PARTED] },
    // Log 0 is given back, opened anew for the object of log 1, and isn't emptied again.
    Play { name: "a_log_that_is_opened_anew_stays", shape: SMALL, parts: &[OPENED_ANEW] },
    Play { name: "turns_run_out_in_each_phase", shape: SMALL, parts: &[TURN_BY_TURN] },
    // The turn that gives the last log back is the last that is needed.
    Play { name: "the_last_turn_may_end_a_round", shape: SMALL, parts: &[IN_TIME] },
    Play { name: "a_turn_has_16_objects", shape: SMALL, parts: &[SIXTEEN] },
    Play { name: "a_turn_has_16_objects", shape: SMALL, parts: &[SEVENTEEN] },
    // Log 0, where no object lives, is given back although nothing is dealt with; log 1 is not.
    Play { name: "no_object_is_dealt_with", shape: SMALL, parts: &[DEAD_LOG] },
    // An object that was dropped since it was marked is retired.
    Play { name: "a_dropped_object_is_retired", shape: SMALL, parts: &[ONE_RETIRED] },
    Play { name: "three_rounds_in_a_row", shape: SMALL, parts: &[THREE_HOT, THREE_ROUNDS, FOUR_READ] },
    // A round of all logs that the largest heap lets be sealed.
    Play { name: "the_largest_round", shape: LARGEST, parts: &[ALL_LOGS] },
];

#[test]
fn whole_rounds_are_made(rt: HostRuntime) {
    play(&rt, rt.alloc(), PLAYS);
}
