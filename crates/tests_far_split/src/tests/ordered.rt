//! Lines that are made in the order of their text, each in its thread, so that all replies are known, also those of rounds.

use super::talk::prints;
use super::turns::Turns;
use far_split::THE_BOOK;
use std::alloc::Global;
use std::sync::Wait;
use std::thread::Threads;

const B: u8 = THE_BOOK;

/// A text, the thread of each of its lines after the first, and what is printed.
#[derive(Clone, Copy)]
struct Row {
    text: &'static str,
    order: &'static [u8],
    told: &'static str,
}

fn is_told<R: Threads + Wait + Sync>(rt: &R, alloc: Global, row: Row) -> bool {
    let gate = Turns::new(row.order);
    prints(rt, alloc, row.text, &gate, row.told) && gate.are_over()
}

// A round moves an object, and sends another far, which comes back.
const FETCH: Row = Row {
    text: "\
heap 4 1
new 0 8 1
new 0 8 1
open 0
write 0 0 0 0102030405060708
close 0
new 0 4088 1
round oldest 1 9
log 0
log 1
log 2
audit
open 0
try 0 1
read 0 0 0 8
read 0 1 0 8
try 0 1
logs
round leastlive 0 9
",
    order: &[0, 0, 0, 0, 0, 0, B, B, B, B, B, 0, 0, 0, 0, 0, B, B],
    told: "\
mutator 0
pointer 0
pointer 1
ok
ok
ok
pointer 2
ok
refused 14 0400000000010008
data 0102030405060708
data 0000000000000000
ok
book
round done moved 1 far 1 dropped 0 freed 1
log 0 free live 0 dead 0 unused 4096
log 1 sealed live 4096 dead 0 unused 0
log 2 open live 16 dead 0 unused 4080
audit near 2 far 1 live 4112
log 0 free live 0 dead 0 unused 4096
log 1 sealed live 4096 dead 0 unused 0
log 2 open live 32 dead 0 unused 4064
log 3 free live 0 dead 0 unused 4096
round none
",
};

// For an object that is far no log is left but the one that is kept free.
const NO_ROOM: Row = Row {
    text: "\
heap 3 1
new 0 8 1
new 0 4088 1
round oldest 1 9
new 0 4088 1
open 0
read 0 0 0 9
read 0 0 0 8
write 0 0 0 ff
view 0 0
try 0 0
new 0 8 1
audit
",
    order: &[0, 0, B, 0, 0, 0, 0, 0, 0, 0, 0, B],
    told: "\
mutator 0
pointer 0
pointer 1
pointer 2
ok
refused 8
refused 2
refused 2
refused 2
refused 14 4400000000010008
refused 2
book
round done moved 0 far 1 dropped 0 freed 1
audit near 2 far 1 live 8192
",
};

// A round waits for a scope, and another can't begin.
const WAITING: Row = Row {
    text: "\
heap 4 2
new 0 8 1
new 1 4088 1
open 0
view 0 0
round oldest 1 9
round leastlive 1 9
log 0
log 4
log 18446744073709551615
write 0 0 0 bb
close 0
",
    order: &[0, 1, 0, 0, B, B, B, B, B, 0, 0],
    told: "\
mutator 0
pointer 0
ok
ok
ok
ok
mutator 1
pointer 256
book
round limit waiting
refused 12
log 0 chosen live 16 dead 0 unused 4080
refused 8
refused 8
",
};

// After the last epoch no round begins.
const LAST_EPOCH: Row = Row {
    text: "\
heap 4 1 4611686018427387903
new 0 8 1
new 0 4088 1
round oldest 1 9
",
    order: &[0, 0, B],
    told: "\
mutator 0
pointer 0
pointer 1
book
refused 13
",
};

// The device fails in its first call, which is to send an object far: the round stops there, and no other begins.
const FAILS_AT_ONCE: Row = Row {
    text: "\
heap 4 1
device fail 1
new 0 8 1
new 0 8 1
open 0
write 0 0 0 0102030405060708
close 0
new 0 4088 1
round oldest 1 9
log 0
audit
round oldest 1 9
open 0
read 0 0 0 8
read 0 1 0 8
",
    order: &[0, 0, 0, 0, 0, 0, B, B, B, B, 0, 0, 0],
    told: "\
mutator 0
pointer 0
pointer 1
ok
ok
ok
pointer 2
ok
data 0102030405060708
data 0000000000000000
book
refused 10 moved 1 far 0 dropped 0 freed 0
log 0 chosen live 16 dead 16 unused 4064
audit near 3 far 0 live 4128
refused 12
",
};

// It fails in its second: one object went far before.
const FAILS_NEXT: Row = Row {
    text: "\
heap 4 1
device fail 2
new 0 8 1
new 0 8 1
new 0 8 1
open 0
write 0 0 0 0102030405060708
close 0
new 0 4088 1
round oldest 1 9
log 0
audit
open 0
read 0 1 0 8
try 0 2
read 0 0 0 8
logs
",
    order: &[0, 0, 0, 0, 0, 0, 0, B, B, B, 0, 0, 0, 0, B],
    told: "\
mutator 0
pointer 0
pointer 1
pointer 2
ok
ok
ok
pointer 3
ok
data 0000000000000000
refused 14 a600000004010008
data 0102030405060708
book
refused 10 moved 1 far 1 dropped 0 freed 0
log 0 chosen live 16 dead 32 unused 4048
audit near 3 far 1 live 4128
log 0 chosen live 16 dead 32 unused 4048
log 1 sealed live 4096 dead 0 unused 0
log 2 open live 32 dead 0 unused 4064
log 3 free live 0 dead 0 unused 4096
",
};

// It fails in its second, which is to bring an object back: that comes when it is asked for again.
const FAILS_TO_FETCH: Row = Row {
    text: "\
heap 4 1
device fail 2
new 0 8 1
new 0 4088 1
round oldest 1 9
open 0
read 0 0 0 8
read 0 0 0 8
audit
",
    order: &[0, 0, B, 0, 0, 0, B],
    told: "\
mutator 0
pointer 0
pointer 1
ok
refused 10
data 0000000000000000
book
round done moved 0 far 1 dropped 0 freed 1
audit near 2 far 0 live 4112
",
};

// Its first read gives a byte too few: the object stays far, and comes when it is asked for again. One that was never far has what was written.
const READS_SHORT: Row = Row {
    text: "\
heap 4 1
device short 1
new 0 8 1
new 0 4088 1
round oldest 1 9
open 0
read 0 0 0 8
read 0 0 0 8
write 0 1 4086 aabb
read 0 1 4085 3
audit
",
    order: &[0, 0, B, 0, 0, 0, 0, 0, B],
    told: "\
mutator 0
pointer 0
pointer 1
ok
refused 11
data 0000000000000000
ok
data 00aabb
book
round done moved 0 far 1 dropped 0 freed 1
audit near 2 far 0 live 4112
",
};

// The second mutator's object is the second that is read, and its first view is refused: others keep their bytes.
const READS_SHORT_NEXT: Row = Row {
    text: "\
heap 6 2
device short 2
new 0 8 1
new 1 9 1
open 0
write 0 0 0 0102030405060708
close 0
open 1
write 1 256 0 a1a2a3a4a5a6a7a8a9
close 1
new 0 4088 1
round oldest 1 9
new 1 4088 1
round oldest 2 9
round oldest 2 9
open 0
open 1
read 0 0 0 8
view 1 256
try 1 256
write 1 256 8 ff
read 1 256 0 9
read 0 0 0 8
",
    order: &[
        0, 1, 0, 0, 0, 1, 1, 1, 0, B, 1, B, B, 0, 1, 0, 1, 1, 1, 1, 0,
    ],
    told: "\
mutator 0
pointer 0
ok
ok
ok
pointer 1
ok
data 0102030405060708
data 0102030405060708
mutator 1
pointer 256
ok
ok
ok
pointer 257
ok
refused 11
refused 14 4400000000010009
ok
data a1a2a3a4a5a6a7a8ff
book
round done moved 2 far 0 dropped 0 freed 1
round done moved 0 far 3 dropped 0 freed 2
round none
",
};

// Its first read gives each byte inverted, as long as none is written over; others keep theirs.
const READS_INVERTED: Row = Row {
    text: "\
heap 4 1
device flip 1
new 0 8 1
new 0 8 1
open 0
write 0 0 0 0102030405060708
close 0
new 0 4088 1
round oldest 1 9
open 0
read 0 1 0 8
write 0 1 2 00aa
read 0 1 0 8
read 0 0 0 8
close 0
open 0
read 0 1 0 4
",
    order: &[0, 0, 0, 0, 0, 0, B, 0, 0, 0, 0, 0, 0, 0, 0],
    told: "\
mutator 0
pointer 0
pointer 1
ok
ok
ok
pointer 2
ok
data ffffffffffffffff
ok
data ffff00aaffffffff
data 0102030405060708
ok
ok
data ffff00aa
book
round done moved 1 far 1 dropped 0 freed 1
",
};

// No call is the one that is number 0.
const NEVER_LIES: Row = Row {
    text: "\
heap 4 1
device flip 0
new 0 8 1
new 0 4088 1
round oldest 1 9
open 0
read 0 0 0 8
",
    order: &[0, 0, B, 0, 0],
    told: "\
mutator 0
pointer 0
pointer 1
ok
data 0000000000000000
book
round done moved 0 far 1 dropped 0 freed 1
",
};

// Two logs are sealed, and the younger has fewer live bytes: a round of least live bytes empties that one.
const LEAST_LIVE: Row = Row {
    text: "\
heap 5 1
new 0 4088 1
new 0 2000 1
new 0 4088 1
round leastlive 1 9
log 0
log 1
",
    order: &[0, 0, 0, B, B, B],
    told: "\
mutator 0
pointer 0
pointer 1
pointer 2
book
round done moved 0 far 1 dropped 0 freed 1
log 0 sealed live 4096 dead 0 unused 0
log 1 free live 0 dead 0 unused 4096
",
};

// And a round of the oldest empties the other.
const OLDEST: Row = Row {
    text: "\
heap 5 1
new 0 4088 1
new 0 2000 1
new 0 4088 1
round oldest 1 9
log 0
log 1
",
    order: &[0, 0, 0, B, B, B],
    told: "\
mutator 0
pointer 0
pointer 1
pointer 2
book
round done moved 0 far 1 dropped 0 freed 1
log 0 free live 0 dead 0 unused 4096
log 1 sealed live 2008 dead 0 unused 2088
",
};

// A far object's word names its data structure, also if the object was made in an open scope.
const STRUCTURES: Row = Row {
    text: "\
heap 4 1
new 0 8 4
open 0
new 0 8 6
close 0
new 0 4088 1
round oldest 1 9
open 0
try 0 0
try 0 1
",
    order: &[0, 0, 0, 0, 0, B, 0, 0, 0],
    told: "\
mutator 0
pointer 0
ok
pointer 1
ok
pointer 2
ok
refused 14 0400000000040008
refused 14 0400000000060008
book
round done moved 0 far 2 dropped 0 freed 1
",
};

#[test]
fn lines_in_order_are_answered_as_in_one_thread(rt: HostRuntime) {
    for (at, row) in [
        FETCH,
        NO_ROOM,
        WAITING,
        LAST_EPOCH,
        FAILS_AT_ONCE,
        FAILS_NEXT,
        FAILS_TO_FETCH,
        READS_SHORT,
        READS_SHORT_NEXT,
        READS_INVERTED,
        NEVER_LIES,
        LEAST_LIVE,
        OLDEST,
        STRUCTURES,
    ]
    .iter()
    .enumerate()
    {
        assert!(rt; is_told(&rt, rt.alloc(), *row), "row {at}");
    }
}
