//! Commands that are refused: the first cause's number comes, and nothing changes.

use super::talk::{built, is_made_and_answered, is_made_and_run, push_times};
use far_replay::End;
use std::alloc::{AllocError, Global};

// Mutator 0 is open and has two objects. Mutator 1 is closed and has one.
const START: &str = "\
heap 4 2
  ok
new 0 9 1
  pointer 0
new 0 8 255
  pointer 1
new 1 8 0
  pointer 256
open 0
  ok
open 1
  ok
write 0 0 0 010203040506070809
  ok
write 0 1 0 1112131415161718
  ok
write 1 256 0 2122232425262728
  ok
close 1
  ok
";

// What shows the logs, the scopes and the data of the open mutator.
const SHOWN: &str = "\
logs
  log 0 open live 56 dead 0 unused 4040
  log 1 free live 0 dead 0 unused 4096
  log 2 free live 0 dead 0 unused 4096
  log 3 free live 0 dead 0 unused 4096
read 0 0 0 9
  data 010203040506070809
read 0 1 0 8
  data 1112131415161718
open 0
  refused 6
close 1
  refused 5
";

// What shows the rest, and changes it.
const REST: &str = "\
open 1
  ok
read 1 256 0 8
  data 2122232425262728
new 0 1 1
  pointer 2
new 1 1 1
  pointer 257
read 0 2 0 1
  data 00
read 1 257 0 1
  data 00
";

// The number of each refusal, and the command.
const REFUSED: &str = "\
6 open 0
8 open 2
8 open 3
8 open 8
8 open 255
8 open 256
8 open 257
8 open 4294967296
8 open 18446744073709551360
8 open 18446744073709551615
6 epoch 0
8 epoch 2
8 epoch 8
8 epoch 256
8 epoch 18446744073709551615
5 close 1
8 close 2
8 close 3
8 close 8
8 close 255
8 close 256
8 close 257
8 close 4294967296
8 close 18446744073709551360
8 close 18446744073709551615
8 new 2 8 1
8 new 256 8 1
8 new 18446744073709551615 8 1
8 new 0 8 256
8 new 0 8 257
8 new 0 8 18446744073709551615
4 new 0 0 1
4 new 1 0 255
4 new 0 4089 1
4 new 1 4096 0
4 new 0 65536 1
4 new 0 65537 1
4 new 0 18446744073709551615 1
8 new 2 0 1
8 new 2 4089 1
8 new 2 0 256
8 new 0 0 256
8 new 0 4089 256
8 new 0 18446744073709551615 256
8 new 18446744073709551615 18446744073709551615 18446744073709551615
8 read 2 0 0 8
8 read 2 512 0 8
8 read 3 0 9 0
8 read 256 0 0 8
8 read 257 256 0 8
8 read 18446744073709551615 0 0 8
8 read 18446744073709551615 18446744073709551615 18446744073709551615 18446744073709551615
8 write 2 0 0 ff
8 write 2 512 99 ff
8 write 256 0 0 ff
8 write 257 256 0 ff
8 write 18446744073709551615 0 0 ff
8 write 18446744073709551615 18446744073709551615 18446744073709551615 ff
5 read 1 256 0 8
5 read 1 256 0 9
5 read 1 256 0 0
5 read 1 0 0 8
5 read 1 257 0 8
5 read 1 999 99 0
5 read 1 18446744073709551615 18446744073709551615 18446744073709551615
5 write 1 256 0 ff
5 write 1 256 8 ff
5 write 1 0 0 ff
5 write 1 257 0 ff
5 write 1 18446744073709551615 18446744073709551615 ff
7 read 0 2 0 8
7 read 0 255 0 8
7 read 0 256 0 8
7 read 0 257 0 8
7 read 0 512 0 8
7 read 0 2047 0 8
7 read 0 2048 0 8
7 read 0 65536 0 8
7 read 0 65537 0 8
7 read 0 18446744073709486080 0 8
7 read 0 18446744073709551615 0 8
7 read 0 2 0 0
7 read 0 256 8 1
7 read 0 18446744073709551615 18446744073709551615 18446744073709551615
7 write 0 2 0 ff
7 write 0 255 0 ff
7 write 0 256 0 ff
7 write 0 2048 0 ff
7 write 0 65536 0 ff
7 write 0 18446744073709486080 0 ff
7 write 0 18446744073709551615 0 ff
7 write 0 18446744073709551615 18446744073709551615 ff
7 write 0 256 8 ff
8 read 0 0 0 0
8 read 0 0 8 0
8 read 0 0 9 0
8 read 0 0 0 10
8 read 0 0 1 9
8 read 0 0 8 2
8 read 0 0 9 1
8 read 0 0 10 1
8 read 0 0 0 16
8 read 0 1 0 9
8 read 0 1 8 1
8 read 0 0 0 4088
8 read 0 0 0 65537
8 read 0 0 65536 1
8 read 0 0 0 18446744073709551615
8 read 0 0 1 18446744073709551615
8 read 0 0 2 18446744073709551615
8 read 0 0 18446744073709551615 0
8 read 0 0 18446744073709551615 1
8 read 0 0 18446744073709551615 2
8 read 0 0 18446744073709551615 18446744073709551615
8 write 0 0 0 ffffffffffffffffffff
8 write 0 0 1 ffffffffffffffffff
8 write 0 0 8 ffff
8 write 0 0 9 ff
8 write 0 0 10 ff
8 write 0 1 0 ffffffffffffffffff
8 write 0 1 7 ffff
8 write 0 1 8 ff
8 write 0 0 65536 ff
8 write 0 0 65535 ffff
8 write 0 0 18446744073709551615 ff
8 write 0 0 18446744073709551615 ffff
8 write 0 0 18446744073709551608 ffffffffffffffffff
8 where 2 0
8 where 256 0
8 where 18446744073709551615 18446744073709551615
7 where 0 2
7 where 0 256
7 where 1 0
7 where 1 257
7 where 0 2048
7 where 0 65536
7 where 0 18446744073709551615
8 drop 2 0
8 drop 256 0
8 drop 18446744073709551615 18446744073709551615
8 view 2 0
8 view 18446744073709551615 18446744073709551615
5 view 1 256
5 view 1 999
7 view 0 2
7 view 0 256
7 view 0 18446744073709551615
8 try 2 0
8 try 18446744073709551615 18446744073709551615
5 try 1 256
5 try 1 999
7 try 0 2
7 try 0 256
7 try 0 18446744073709551615
7 drop 0 2
7 drop 0 256
7 drop 1 0
7 drop 1 257
7 drop 0 2048
7 drop 0 65536
7 drop 0 18446744073709551615
12 mark 0
12 mark 18446744073709551615
12 wait
12 evacuate 0
12 abort
9 drop 0 0
9 drop 0 1
8 log 4
8 log 64
8 log 255
8 log 256
8 log 260
8 log 4294967296
8 log 18446744073709551615
";

// Adds a command that is refused, and what shows that nothing has changed.
fn push_refused(talk: &mut String, row: &str) -> Result<(), AllocError> {
    let (number, command) = row.split_once(' ').unwrap_or(("", row));
    talk.push_str(command)?;
    talk.push_str("\n  refused ")?;
    talk.push_str(number)?;
    talk.push('\n')?;
    talk.push_str(SHOWN)
}

// The whole talk.
fn refused_talk(alloc: Global) -> Result<String, AllocError> {
    let mut talk = String::new(alloc);
    talk.push_str(START)?;
    for row in REFUSED.lines() {
        push_refused(&mut talk, row)?;
    }
    for bytes in [4088u64, 4089, 4096, 8185, 8186] {
        talk.push_str("write 0 0 0 ")?;
        push_times(&mut talk, "ff", bytes)?;
        talk.push_str("\n  refused 8\n")?;
        talk.push_str(SHOWN)?;
    }
    talk.push_str(REST)?;
    Ok(talk)
}

#[test]
fn refused_commands_change_nothing(rt: HostRuntime) {
    assert!(rt; is_made_and_answered(rt.alloc(), refused_talk(rt.alloc())));
}

const TOO_LONG: &[(&str, u64)] = &[("heap 4 1\nwrite 0 0 0 ", 1), ("ff", 8187)];

#[test]
fn a_write_that_is_too_long_for_a_line(rt: HostRuntime) {
    let made = built(rt.alloc(), TOO_LONG);
    assert!(rt; is_made_and_run(rt.alloc(), made, "refused 16 2\n", End::Refused));
}
