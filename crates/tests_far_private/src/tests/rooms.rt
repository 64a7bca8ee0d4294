//! Rounds that calls make where there is no room, over devices that take what they are given and over others.

use crate::tests::acts::{FOUR_LOGS, Play};
use crate::tests::devices::Flaw;
use crate::tests::stage::play;

// An object of each of some lengths.
const FIVE: &str = "new 0 8; new 1 100; new 2 1000; new 3 4088; new 4 1; \
    fill 0 0 8 10; fill 1 0 100 11; fill 2 0 1000 12; fill 3 0 4088 13; fill 4 0 1 14;";

// The same, made with their bytes.
const FIVE_GIVEN: &str =
    "bytes 0 8 10; bytes 1 100 11; bytes 2 1000 12; bytes 3 4088 13; bytes 4 1 14;";

const FIVE_ARE_THERE: &str =
    "has 0 0 8 10; has 1 0 100 11; has 2 0 1000 12; has 3 0 4088 13; has 4 0 1 14;";

// The middle of each is written anew, wherever it is, and stays so.
const REWRITTEN: &str = "fill 0 7 1 20; fill 1 50 9 21; fill 2 999 1 22; fill 3 1 4086 22; \
    add 3 1 4086 23 0 1; many 40 4088; \
    has 0 0 7 10; has 0 7 1 20; has 1 0 50 11; has 1 50 9 21; has 1 59 41 11; has 2 0 999 12; has 2 999 1 22; \
    has 3 0 1 13; has 3 1 4086 23; has 3 4087 1 13; has 4 0 1 14;";

// The same by updates.
const UPDATED: &str =
    "add 0 7 1 20 0 10; add 1 50 9 21 0 10; add 2 999 1 22 0 10; add 3 1 4086 23 0 10; pack 40 4088; \
    has 0 0 7 10; has 0 7 1 20; has 1 0 50 11; has 1 50 9 21; has 1 59 41 11; has 2 0 999 12; has 2 999 1 22; \
    has 3 0 1 13; has 3 1 4086 23; has 3 4087 1 13; has 4 0 1 14;";

const MANY_MORE: &str = "many 200 4088;";

const ROUNDS: &str = "round 0 0; round 1 1; round 2 0; round 64 0;";

// Rounds over a device that takes nothing give nothing back.
const VAIN_ROUNDS: &str = "round 1 0 1; round 2 0 1; round 64 0 1;";

// Over a device that takes nothing two or three logs fill, and then there is no room; what is there stays, and takes no harm from being asked for.
const FULL: &str = "until 0 2 4088 !2; new 7 4088 !2;";

// What is dropped makes room, also there.
const DROPPED_ROOM: &str = "drop 3; new 3 4088; has 3 0 4088 0; fill 3 0 4088 13;";

// An object of 100 bytes stays near, since the device doesn't take it: that keeps none of the other logs.
const STUBBORN: &str = "new 0 100; fill 0 0 100 5; many 100 4088; has 0 0 100 5; \
    new 1 100; fill 1 0 100 6; pack 100 4088; has 0 0 100 5; has 1 0 100 6;";

// All is hot, and what the device refuses lies in front once a round was made: another brings room.
const TWICE: &str =
    "new 1 4088; new 2 4088; new 0 100; new 3 3900; has 1 0 4088; has 2 0 4088; has 0 0 100; has 3 0 3900; \
    new 4 4088; has 0 0 100; has 1 0 4088; has 3 0 3900;";

// The device fails in one call, and there is room all the same.
const PASSES: &str = "new 0 4088; fill 0 0 4088 5; many 20 4088;";

// A write of a far object that is refused leaves nothing that keeps later calls from room.
const NOTHING_STAYS: &str =
    "new 0 8; fill 0 0 8 5; many 3 4088; round 2 0; fill 0 0 8 9 !10; many 20 4088; \
    has 0 0 8 5; fill 0 0 8 6; many 20 4088; has 0 0 8 6;";

// A pointer of each 256 has a long object, all others short ones.
const EACH_OWNER: &str =
    "many 255 1; new 0 4088; many 255 1; new 1 4088; many 255 1; new 2 4088; many 255 1; new 3 4088; \
    pack 255 1; new 4 4088; pack 255 1; new 5 4088; pack 255 1; new 6 4088; pack 255 1; new 7 4088;";

// The long ones are written and read by turns, each beside all that the others have left.
const BY_TURNS: &str = "fill 0 0 4088 k; fill 1 0 4088 k; fill 2 0 4088 k; fill 3 0 4088 k; \
    fill 4 0 4088 k; fill 5 0 4088 k; fill 6 0 4088 k; fill 7 0 4088 k; \
    has 7 0 4088 k; has 6 0 4088 k; has 5 0 4088 k; has 4 0 4088 k; has 4 0 4088 k; has 5 0 4088 k; has 6 0 4088 k; has 7 0 4088 k;";

// An object of 8 bytes leaves. The first read leaves it far, whichever range that is, and the second brings it near.
const COUNTED: &str =
    "tell 4; new 0 8; tell 4 1; many 1 4088; round 1 1; tell 4 2 1 0 1 0 0 8; look 0 8; has 0 8 1 !8; tell 4 2 1 0 1 0 0 8; \
    has 0 7 1 0; tell 4 2 1 0 1 0 0 8 0 1; has 0 0 1 0; tell 4 2 0 1 1 0 0 0 0 1;";

// It is read again, or dropped.
const READ_AGAIN: &str =
    "has 0 0 8 0; has 0 0 8 0; tell 4 2 0 1 1 0 0 0 0 1; drop 0; look 0; tell 4 1 0 1 1 0 0 0 0 1;";

// The second of two reads brings it each time that it left.
const TWICE_EACH_TIME: &str =
    "many 1 4088; round 64 1; tell 4 3 2 1 3 1 0 4096 0 1; has 0 0 8 0; tell 4 3 2 1 3 1 0 4096 0 2; has 0 0 8 0; tell 4 3 1 2 3 1 0 4088 0 2;";

// Of 300 far objects each is read once, and stays far. So many looks aren't remembered: the last object comes near at the next, the first one at the second.
const MANY_LOOKS: &str =
    "new 0 8; many 298 8; new 1 8; many 1 4088; round 64 1; tell 8 301 300 0 300 0 0 2400; once 0 300; tell 8 301 300 0 300 0 0 2400 0 300; \
    has 1 0 8 0; tell 8 301 299 1 300 0 0 2392 0 300; has 0 0 8 0; tell 8 301 299 1 300 0 0 2392 0 301; \
    has 0 0 8 0; tell 8 301 298 2 300 0 0 2384 0 301; \
    has 1010 0 8 0; has 1011 0 8 0; has 1010 0 8 0; tell 8 301 297 3 300 0 0 2376 0 303;";

// Pointers 0 and 1,024 are looked at, each for the first time: both stay far.
const LOOKS_APART: &str = "new 0 8; many 1023 8; new 1 8; many 1 4088; round 64 5; \
    has 0 0 8 0; has 1 0 8 0; tell 8 1026 1025 0 1025 0 0 8200 0 2;";

// The oldest four logs are full of what the device doesn't take: rounds that bring nothing aren't the last of a call.
const STUBBORN_IN_FRONT: &str = "many 150 100; many 100 4088; pack 100 4088;";

// All is hot, and in each log lies one that the device refuses: of three logs a second pass brings room.
const STUBBORN_IN_EACH: &str =
    "many 1 100; many 1 3980; many 1 100; many 1 3980; once 0 4; many 1 4088; once 0 4;";

// A call empties an eighth of 64 logs, and no more.
const FEW_LEAVE: &str = "many 64 4088; tell 64 64 8 0 8 0 0 32704;";

// Where all logs are full of what the device doesn't take, a far object is read all the same, and not written.
const FULL_READS: &str =
    "new 0 200; fill 0 0 200 5; many 3 4088; round 2 0; until 70 150 100 !2; look 0 200; has 0 0 200 5; has 0 0 200 5; has 0 0 200 5; \
    fill 0 0 8 9 !2; add 0 0 8 9 0 1 !2; has 0 0 200 5; has 0 0 200 5;";

// One that was read near moves, and doesn't leave.
const MOVED: &str =
    "new 0 8; has 0 0 8; has 0 0 8; many 1 4088; round 1 1; tell 4 2 0 0 0 0 0 0 1;";

// A call makes a round for the third of these. The one that was used moves in it, and the first of the three leaves.
const KEPT_IN_USE: &str = "new 0 8; has 0 0 8; has 0 0 8; many 3 4088; tell 4 4 1 0 1 0 0 4088 1;";

// It leaves again, with one that the device doesn't have yet, and isn't written, since the device has its bytes.
const SPARED: &str = "many 1 4088; round 64 1; tell 4 3 2 1 3 1 0 4096 0 1;";

// An object of bytes that nobody used since leaves, and doesn't move.
const UNUSED: &str = "bytes 0 8 9; many 1 4088; round 1 1; tell 4 2 1 0 1 0 0 8;";

// So does one that a write brought.
const BROUGHT: &str = "fill 0 0 8 5; many 1 4088; round 64 1; tell 4 3 2 1 3 0 0 4096;";

// So does one that an update brought.
const BROUGHT_TO_CHANGE: &str =
    "add 0 0 8 10 0 1; many 1 4088; round 64 1; tell 4 3 2 1 3 0 0 4096;";

// What is written or updated where it lies was used.
const WRITTEN: &str = "new 0 8; fill 0 0 8 5; many 1 4088; round 1 1; tell 4 2 0 0 0 0 0 0 1;";

const CHANGED: &str = "new 0 8; add 0 0 8 1 0 1; many 1 4088; round 1 1; tell 4 2 0 0 0 0 0 0 1;";

// A long one comes near too.
const LONG: &str =
    "new 0 4088; many 1 4088; round 64 1; has 0 0 4088; has 0 0 4088; tell 8 2 0 1 1 0 0 0 0 1;";

// For one that is read again a round is made.
const READ_MAKES_ROOM: &str =
    "new 0 8; many 4 4088; has 0 0 8; has 0 0 8; tell 4 5 3 1 4 0 0 12264 0 1;";

// After a round that the device stopped each call makes rounds as before.
const STOPPED: &str = "new 0 100; many 1 4088; round 1 0 1; many 100 4088; has 0 0 100;";

// A stubborn object behind eighteen that were dropped keeps none of the other logs either.
const BEHIND_DROPPED: &str =
    "new 1 8; new 2 8; new 3 8; new 4 8; new 5 8; new 6 8; new 7 8; new 8 8; new 9 8; \
    new 10 8; new 11 8; new 12 8; new 13 8; new 14 8; new 15 8; new 16 8; new 17 8; new 18 8; new 0 100; \
    drop 1; drop 2; drop 3; drop 4; drop 5; drop 6; drop 7; drop 8; drop 9; \
    drop 10; drop 11; drop 12; drop 13; drop 14; drop 15; drop 16; drop 17; drop 18; many 100 4088; has 0 0 100;";

// Of 255 far objects each is remembered, and comes near at its second read. They leave without a write, come again, and move once they were used. All of this is counted.
const MANY_COME: &str =
    "new 0 8; many 253 8; new 1 8; many 1 4088; round 64 1; once 0 255; tell 8 256 255 0 255 0 0 2040 0 255; \
    once 0 255; tell 8 256 0 255 255 0 0 0 0 255; many 1 4088; round 64 2; tell 8 257 256 255 511 255 0 6128 0 255; \
    once 0 255; once 0 255; once 0 255; many 1 4088; round 64 2; tell 8 258 3 510 513 256 0 8184 254 511;";

// What is dropped is dead until its log is given back.
const DEAD: &str =
    "new 0 8; new 1 100; drop 1; gone 16 112 0; many 1 4088; gone 4112 112 0; round 64 1 2; gone 4096 0 1;";

// The device fails the first write.
const FAULTS: &str =
    "new 0 8; many 1 4088; round 1 0 1; tell 4 2 0 0 0 0 1; round 1 1; tell 4 2 1 0 1 0 1 8;";

#[rattlefmt::skip]
const PLAYS: &[Play] = &[
    Play { name: "objects_go_far_and_come_back", parts: &[FIVE, FIVE_ARE_THERE, MANY_MORE, FIVE_ARE_THERE, ROUNDS, FIVE_ARE_THERE, REWRITTEN], ..FOUR_LOGS },
    Play { name: "far_objects_are_written", parts: &[FIVE, MANY_MORE, REWRITTEN], ..FOUR_LOGS },
    Play { name: "far_objects_are_updated", parts: &[FIVE_GIVEN, MANY_MORE, UPDATED], ..FOUR_LOGS },
    Play { name: "the_same_with_many_logs", logs: 64, parts: &[FIVE_GIVEN, FIVE_ARE_THERE, MANY_MORE, FIVE_ARE_THERE, REWRITTEN], ..FOUR_LOGS },
    Play { name: "the_same_with_three_logs", logs: 3, parts: &[FIVE, MANY_MORE, FIVE_ARE_THERE, REWRITTEN], ..FOUR_LOGS },
    Play { name: "what_is_refused_stays", flaw: Flaw::Refuses, parts: &[FIVE, FULL, FIVE_ARE_THERE, VAIN_ROUNDS, FIVE_ARE_THERE, DROPPED_ROOM, FIVE_ARE_THERE], ..FOUR_LOGS },
    Play { name: "so_does_what_there_is_no_memory_for", flaw: Flaw::Starves, parts: &[FIVE, FULL, FIVE_ARE_THERE, VAIN_ROUNDS, FIVE_ARE_THERE, DROPPED_ROOM, FIVE_ARE_THERE], ..FOUR_LOGS },
    Play { name: "a_stubborn_object_keeps_no_other_log", flaw: Flaw::Dislikes, at: 100, parts: &[STUBBORN], ..FOUR_LOGS },
    Play { name: "stubborn_objects_in_front_keep_no_log_behind", logs: 8, flaw: Flaw::Dislikes, at: 100, parts: &[STUBBORN_IN_FRONT], ..FOUR_LOGS },
    Play { name: "a_second_pass_brings_room", logs: 3, flaw: Flaw::Dislikes, at: 100, parts: &[STUBBORN_IN_EACH], ..FOUR_LOGS },
    Play { name: "a_second_round_brings_room", flaw: Flaw::Dislikes, at: 100, parts: &[TWICE], ..FOUR_LOGS },
    Play { name: "pointers_of_each_part_have_room", parts: &[EACH_OWNER, BY_TURNS, BY_TURNS], ..FOUR_LOGS },
    Play { name: "a_fetch_is_counted_once", parts: &[COUNTED, READ_AGAIN], ..FOUR_LOGS },
    Play { name: "a_second_read_brings_it_each_time", parts: &[COUNTED, TWICE_EACH_TIME], ..FOUR_LOGS },
    Play { name: "looks_are_forgotten", logs: 8, parts: &[MANY_LOOKS], ..FOUR_LOGS },
    Play { name: "looks_at_pointers_far_apart_are_two", logs: 8, parts: &[LOOKS_APART], ..FOUR_LOGS },
    Play { name: "a_call_sends_few_away", logs: 64, parts: &[FEW_LEAVE], ..FOUR_LOGS },
    Play { name: "a_full_heap_is_read", flaw: Flaw::Dislikes, at: 100, parts: &[FULL_READS], ..FOUR_LOGS },
    Play { name: "a_write_that_is_spared_is_counted", parts: &[COUNTED, SPARED], ..FOUR_LOGS },
    Play { name: "a_used_object_moves", parts: &[MOVED], ..FOUR_LOGS },
    Play { name: "a_call_moves_what_is_used", parts: &[KEPT_IN_USE], ..FOUR_LOGS },
    Play { name: "an_unused_object_leaves", parts: &[UNUSED, BROUGHT], ..FOUR_LOGS },
    Play { name: "so_does_one_that_an_update_brought", parts: &[UNUSED, BROUGHT_TO_CHANGE], ..FOUR_LOGS },
    Play { name: "bytes_of_logs_are_told", parts: &[DEAD], ..FOUR_LOGS },
    Play { name: "a_written_object_moves", parts: &[WRITTEN], ..FOUR_LOGS },
    Play { name: "an_updated_object_moves", parts: &[CHANGED], ..FOUR_LOGS },
    Play { name: "a_long_object_comes_near", logs: 8, parts: &[LONG], ..FOUR_LOGS },
    Play { name: "a_read_makes_room", parts: &[READ_MAKES_ROOM], ..FOUR_LOGS },
    Play { name: "a_stopped_round_leaves_room", flaw: Flaw::Dislikes, at: 100, parts: &[STOPPED], ..FOUR_LOGS },
    Play { name: "a_stubborn_object_behind_dropped_ones", flaw: Flaw::Dislikes, at: 100, parts: &[BEHIND_DROPPED], ..FOUR_LOGS },
    Play { name: "many_come_leave_and_move", logs: 8, parts: &[MANY_COME], ..FOUR_LOGS },
    Play { name: "faults_are_counted", flaw: Flaw::Fails, at: 1, parts: &[FAULTS], ..FOUR_LOGS },
    Play { name: "one_failure_leaves_room", flaw: Flaw::Fails, at: 1, parts: &[PASSES], ..FOUR_LOGS },
    Play { name: "a_later_one_does", flaw: Flaw::Lacks, at: 5, parts: &[PASSES], ..FOUR_LOGS },
    Play { name: "a_refused_write_leaves_room", flaw: Flaw::Fails, at: 4, parts: &[NOTHING_STAYS], ..FOUR_LOGS },
];

#[test]
fn rounds_make_room(rt: HostRuntime) {
    play(&rt, rt.alloc(), PLAYS);
}
