//! Talks: commands of a text, each followed by the lines of its reply, two spaces in.

use super::talk::is_answered;

/// The first object is made and read.
const FIRST_OBJECT: &str = "\
heap 4 1
  ok
new 0 8 1
  pointer 0
open 0
  ok
read 0 0 0 8
  data 0000000000000000
logs
  log 0 open live 16 dead 0 unused 4080
  log 1 free live 0 dead 0 unused 4096
  log 2 free live 0 dead 0 unused 4096
  log 3 free live 0 dead 0 unused 4096
";

/// Nine bytes, which another mutator doesn't reach.
const PAGE: &str = "\
heap 4 2
  ok
# nine bytes, data structure 2
new 0 9 2
  pointer 0
read 0 0 0 9
  refused 5
open 0
  ok
write 0 0 7 c0ffee
  refused 8
write 0 0 7 c0ff
  ok
read 0 0 0 9
  data 00000000000000c0ff
open 1
  ok
read 1 0 0 1
  refused 7
close 0
  ok
";

/// Comments and empty lines change nothing.
const COMMENTS: &str = "\
# a heap
heap 4 1
  ok

#
new 0 8 1
  pointer 0
#\tany \x7f\r  spaces.
open 0
  ok
# open 0


close 0
  ok
";

/// Lengths out of range make nothing.
const LENGTHS: &str = "\
heap 4 1
  ok
new 0 0 1
  refused 4
new 0 4089 1
  refused 4
logs
  log 0 open live 0 dead 0 unused 4096
  log 1 free live 0 dead 0 unused 4096
  log 2 free live 0 dead 0 unused 4096
  log 3 free live 0 dead 0 unused 4096
log 0
  log 0 open live 0 dead 0 unused 4096
";

/// The last free log is kept in reserve.
const RESERVE: &str = "\
heap 3 1
  ok
new 0 4072 1
  pointer 0
new 0 4072 1
  pointer 1
logs
  log 0 sealed live 4080 dead 0 unused 16
  log 1 open live 4080 dead 0 unused 16
  log 2 free live 0 dead 0 unused 4096
new 0 4072 1
  refused 2
logs
  log 0 sealed live 4080 dead 0 unused 16
  log 1 open live 4080 dead 0 unused 16
  log 2 free live 0 dead 0 unused 4096
new 0 9 1
  refused 2
logs
  log 0 sealed live 4080 dead 0 unused 16
  log 1 open live 4080 dead 0 unused 16
  log 2 free live 0 dead 0 unused 4096
new 0 8 1
  pointer 2
logs
  log 0 sealed live 4080 dead 0 unused 16
  log 1 open live 4096 dead 0 unused 0
  log 2 free live 0 dead 0 unused 4096
new 0 1 1
  refused 2
logs
  log 0 sealed live 4080 dead 0 unused 16
  log 1 open live 4096 dead 0 unused 0
  log 2 free live 0 dead 0 unused 4096
open 0
  ok
read 0 2 0 8
  data 0000000000000000
where 0 2
  near 1 510 h
read 0 3 0 1
  refused 7
";

/// An object that gets no room seals nothing.
const REFUSED_OBJECT: &str = "\
heap 2 1
  ok
new 0 2032 1
  pointer 0
logs
  log 0 open live 2040 dead 0 unused 2056
  log 1 free live 0 dead 0 unused 4096
new 0 2049 1
  refused 2
logs
  log 0 open live 2040 dead 0 unused 2056
  log 1 free live 0 dead 0 unused 4096
new 0 4088 1
  refused 2
logs
  log 0 open live 2040 dead 0 unused 2056
  log 1 free live 0 dead 0 unused 4096
new 0 2048 1
  pointer 1
logs
  log 0 open live 4096 dead 0 unused 0
  log 1 free live 0 dead 0 unused 4096
new 0 1 1
  refused 2
";

/// A log that is passed over is sealed.
const PASSED_OVER: &str = "\
heap 4 2
  ok
new 0 3672 1
  pointer 0
logs
  log 0 open live 3680 dead 0 unused 416
  log 1 free live 0 dead 0 unused 4096
  log 2 free live 0 dead 0 unused 4096
  log 3 free live 0 dead 0 unused 4096
new 1 409 1
  pointer 256
logs
  log 0 sealed live 3680 dead 0 unused 416
  log 1 open live 424 dead 0 unused 3672
  log 2 free live 0 dead 0 unused 4096
  log 3 free live 0 dead 0 unused 4096
new 0 3664 1
  pointer 1
logs
  log 0 sealed live 3680 dead 0 unused 416
  log 1 open live 4096 dead 0 unused 0
  log 2 free live 0 dead 0 unused 4096
  log 3 free live 0 dead 0 unused 4096
new 1 1 1
  pointer 257
logs
  log 0 sealed live 3680 dead 0 unused 416
  log 1 sealed live 4096 dead 0 unused 0
  log 2 open live 16 dead 0 unused 4080
  log 3 free live 0 dead 0 unused 4096
";

/// An object may end with its log.
const LAST_WORD: &str = "\
heap 3 1
  ok
new 0 1 1
  pointer 0
new 0 4072 1
  pointer 1
logs
  log 0 open live 4096 dead 0 unused 0
  log 1 free live 0 dead 0 unused 4096
  log 2 free live 0 dead 0 unused 4096
new 0 4088 1
  pointer 2
logs
  log 0 sealed live 4096 dead 0 unused 0
  log 1 open live 4096 dead 0 unused 0
  log 2 free live 0 dead 0 unused 4096
new 0 4088 1
  refused 2
new 0 1 1
  refused 2
open 0
  ok
write 0 1 4071 77
  ok
write 0 2 4087 78
  ok
read 0 0 0 1
  data 00
read 0 1 4070 2
  data 0077
read 0 2 4086 2
  data 0078
read 0 2 0 1
  data 00
";

/// A byte too many goes to the next log.
const ONE_BYTE_TOO_MANY: &str = "\
heap 3 1
  ok
new 0 1 1
  pointer 0
new 0 4073 1
  pointer 1
logs
  log 0 sealed live 16 dead 0 unused 4080
  log 1 open live 4088 dead 0 unused 8
  log 2 free live 0 dead 0 unused 4096
new 0 1 1
  refused 2
";

/// An odd length: parts of words, and the padding.
const NINE_BYTES: &str = "\
heap 4 1
  ok
new 0 9 1
  pointer 0
open 0
  ok
write 0 0 8 ff
  ok
read 0 0 0 9
  data 0000000000000000ff
write 0 0 0 0102030405060708
  ok
read 0 0 0 9
  data 0102030405060708ff
write 0 0 7 a0a1
  ok
read 0 0 0 9
  data 01020304050607a0a1
read 0 0 6 3
  data 07a0a1
read 0 0 8 1
  data a1
log 0
  log 0 open live 24 dead 0 unused 4072
";

/// Bytes over two words, and neighbours that stay as they are.
const TWO_WORDS: &str = "\
heap 4 1
  ok
new 0 8 1
  pointer 0
new 0 17 1
  pointer 1
new 0 8 1
  pointer 2
open 0
  ok
write 0 0 0 f0f1f2f3f4f5f6f7
  ok
write 0 1 0 101112131415161718191a1b1c1d1e1f20
  ok
write 0 2 0 e0e1e2e3e4e5e6e7
  ok
write 0 1 6 aabbcc
  ok
read 0 1 0 17
  data 101112131415aabbcc191a1b1c1d1e1f20
write 0 1 15 ddee
  ok
read 0 1 0 17
  data 101112131415aabbcc191a1b1c1d1eddee
write 0 1 7 00000000000000000000
  ok
read 0 1 0 17
  data 101112131415aa00000000000000000000
read 0 0 0 8
  data f0f1f2f3f4f5f6f7
read 0 2 0 8
  data e0e1e2e3e4e5e6e7
logs
  log 0 open live 64 dead 0 unused 4032
  log 1 free live 0 dead 0 unused 4096
  log 2 free live 0 dead 0 unused 4096
  log 3 free live 0 dead 0 unused 4096
";

/// Digits in either case are answered in small ones.
const EITHER_CASE: &str = "\
heap 2 1
  ok
new 0 8 1
  pointer 0
open 0
  ok
write 0 0 0 AbCdEfaBcDeF0990
  ok
read 0 0 0 8
  data abcdefabcdef0990
";

/// The last mutator, pointer, length and byte that are in range.
const LAST_IN_RANGE: &str = "\
heap 4 8
  ok
new 7 1 255
  pointer 1792
new 7 4088 0
  pointer 1793
new 6 9 0
  pointer 1536
open 7
  ok
open 6
  ok
read 7 1792 0 1
  data 00
write 7 1792 0 ab
  ok
read 7 1792 0 1
  data ab
write 7 1793 4087 cd
  ok
read 7 1793 4087 1
  data cd
read 7 1793 4087 2
  refused 8
read 7 1793 4088 1
  refused 8
write 6 1536 8 ef
  ok
read 6 1536 0 9
  data 0000000000000000ef
read 6 1536 8 1
  data ef
close 7
  ok
close 7
  refused 5
close 8
  refused 8
read 6 1536 8 1
  data ef
";

/// Closing, reading and writing before any opening.
const NEVER_OPENED: &str = "\
heap 2 1
  ok
close 0
  refused 5
read 0 0 0 1
  refused 5
write 0 0 0 ff
  refused 5
open 0
  ok
read 0 0 0 1
  refused 7
write 0 0 0 ff
  refused 7
new 0 1 1
  pointer 0
write 0 0 0 ff
  ok
close 0
  ok
close 0
  refused 5
";

/// Mutators by turns, each with objects and a scope of its own.
const BY_TURNS: &str = "\
heap 4 3
  ok
new 1 8 1
  pointer 256
open 2
  ok
new 0 8 1
  pointer 0
open 0
  ok
new 2 8 1
  pointer 512
open 1
  ok
new 1 8 1
  pointer 257
new 0 8 1
  pointer 1
write 1 256 0 a1a1a1a1a1a1a1a1
  ok
write 0 1 0 0101010101010101
  ok
write 2 512 0 c0c0c0c0c0c0c0c0
  ok
write 1 257 0 b1b1b1b1b1b1b1b1
  ok
read 0 0 0 8
  data 0000000000000000
close 2
  ok
read 0 1 0 8
  data 0101010101010101
read 1 256 0 8
  data a1a1a1a1a1a1a1a1
read 1 257 0 8
  data b1b1b1b1b1b1b1b1
read 2 512 0 8
  refused 5
read 1 512 0 8
  refused 7
open 2
  ok
read 2 512 0 8
  data c0c0c0c0c0c0c0c0
";

/// Objects are made with the scope open or closed.
const SCOPES: &str = "\
heap 2 1
  ok
new 0 1 0
  pointer 0
open 0
  ok
new 0 2 255
  pointer 1
read 0 0 0 1
  data 00
read 0 1 0 2
  data 0000
close 0
  ok
new 0 3 7
  pointer 2
read 0 2 0 3
  refused 5
open 0
  ok
read 0 2 0 3
  data 000000
read 0 3 0 3
  refused 7
";

/// A log is filled to its last byte.
const FILLED_LOG: &str = "\
heap 4 1
  ok
new 0 4088 1
  pointer 0
log 0
  log 0 open live 4096 dead 0 unused 0
new 0 1 1
  pointer 1
log 0
  log 0 sealed live 4096 dead 0 unused 0
log 1
  log 1 open live 16 dead 0 unused 4080
";

/// Where objects are, and which of them were read.
const PLACES: &str = "\
heap 4 2
  ok
new 0 8 1
  pointer 0
new 1 4072 2
  pointer 256
new 0 9 3
  pointer 1
where 0 0
  near 0 0 -
where 1 256
  near 0 2 -
where 0 1
  near 1 0 -
open 0
  ok
read 0 1 0 9
  data 000000000000000000
where 0 1
  near 1 0 h
close 0
  ok
where 0 1
  near 1 0 h
where 0 0
  near 0 0 -
where 0 2
  refused 7
where 0 256
  refused 7
where 1 0
  refused 7
where 2 0
  refused 8
";

/// Objects and their bytes are counted.
const COUNTED: &str = "\
heap 3 2
  ok
audit
  audit near 0 far 0 live 0
new 0 8 1
  pointer 0
new 1 4072 2
  pointer 256
new 0 9 3
  pointer 1
audit
  audit near 3 far 0 live 4120
log 0
  log 0 sealed live 4096 dead 0 unused 0
log 1
  log 1 open live 24 dead 0 unused 4072
log 2
  log 2 free live 0 dead 0 unused 4096
log 3
  refused 8
";

/// An object is dropped once its scope is closed, and once only.
const DROPPED: &str = "\
heap 4 1
  ok
new 0 8 1
  pointer 0
open 0
  ok
read 0 0 0 8
  data 0000000000000000
drop 0 0
  refused 9
close 0
  ok
drop 0 0
  ok
log 0
  log 0 open live 0 dead 16 unused 4080
drop 0 0
  refused 7
audit
  audit near 0 far 0 live 0
";

/// What is viewed isn't dropped until its scope is closed; a drop is refused once there is no object.
const VIEWED: &str = "\
heap 4 1
  ok
new 0 8 1
  pointer 0
open 0
  ok
view 0 0
  ok
drop 0 0
  refused 9
close 0
  ok
drop 0 0
  ok
log 0
  log 0 open live 0 dead 16 unused 4080
drop 0 0
  refused 7
";

/// A try views an object: it is hot, and isn't dropped until its scope is closed.
const TRIED: &str = "\
heap 4 1
  ok
new 0 8 1
  pointer 0
try 0 0
  refused 5
where 0 0
  near 0 0 -
open 0
  ok
try 0 0
  ok
where 0 0
  near 0 0 h
try 0 0
  ok
drop 0 0
  refused 9
write 0 0 7 ff
  ok
close 0
  ok
drop 0 0
  ok
open 0
  ok
try 0 0
  refused 7
";

/// The pointer of a dropped object is given anew, and its bytes stay dead; an open scope forbids no drop of what it doesn't view.
const GIVEN_ANEW: &str = "\
heap 4 2
  ok
new 0 8 1
  pointer 0
new 0 9 2
  pointer 1
new 0 1 1
  pointer 2
new 1 8 1
  pointer 256
open 0
  ok
write 0 1 0 ff
  ok
drop 0 0
  ok
drop 0 1
  refused 9
drop 1 1
  refused 7
drop 0 256
  refused 7
drop 2 1
  refused 8
close 0
  ok
drop 0 1
  ok
log 0
  log 0 open live 32 dead 40 unused 4024
open 0
  ok
read 0 1 0 1
  refused 7
where 0 1
  refused 7
new 0 1 1
  pointer 0
new 0 3 4
  pointer 1
where 0 0
  near 0 9 -
where 0 1
  near 0 11 -
read 0 1 0 3
  data 000000
read 0 2 0 1
  data 00
where 0 2
  near 0 5 h
log 0
  log 0 open live 64 dead 40 unused 3992
audit
  audit near 4 far 0 live 64
new 0 8 1
  pointer 3
";

/// A log whose objects are all dropped is no free one.
const DEAD_LOGS: &str = "\
heap 2 1
  ok
new 0 4088 1
  pointer 0
drop 0 0
  ok
log 0
  log 0 open live 0 dead 4096 unused 0
new 0 1 1
  refused 2
log 1
  log 1 free live 0 dead 0 unused 4096
";

/// The smallest heap: another mutator than its own, a data structure too high, and a pointer that was never made.
const OUT_OF_RANGE: &str = "\
heap 2 1
  ok
new 1 8 1
  refused 8
new 0 8 256
  refused 8
open 0
  ok
read 0 5 0 8
  refused 7
";

const TALKS: [&str; 25] = [
    FIRST_OBJECT,
    PAGE,
    COMMENTS,
    LENGTHS,
    RESERVE,
    REFUSED_OBJECT,
    PASSED_OVER,
    LAST_WORD,
    ONE_BYTE_TOO_MANY,
    NINE_BYTES,
    TWO_WORDS,
    EITHER_CASE,
    LAST_IN_RANGE,
    NEVER_OPENED,
    BY_TURNS,
    SCOPES,
    FILLED_LOG,
    PLACES,
    COUNTED,
    DROPPED,
    VIEWED,
    TRIED,
    GIVEN_ANEW,
    DEAD_LOGS,
    OUT_OF_RANGE,
];

#[test]
fn talks_are_answered(rt: HostRuntime) {
    for talk in TALKS {
        assert!(rt; is_answered(rt.alloc(), talk), "at {talk}");
    }
}
