//! Talks to heaps whose device fails in one call, or lies in one read.

use super::rounds::PLAIN_ROUND;
use super::talk::{is_answered, is_made_and_answered};
use far_replay::{End, run};
use std::alloc::{AllocError, Global};

/// The device fails where an object is to leave, which stays; after an abort all is as it was.
const DEVICE_FAILS: &str = "\
heap 5 1
  ok
device fail 2
  ok
new 0 8 1
  pointer 0
new 0 8 1
  pointer 1
open 0
  ok
write 0 0 0 aa
  ok
write 0 1 0 bb
  ok
close 0
  ok
new 0 4088 1
  pointer 2
round oldest 1 9
  round done moved 2 far 0 dropped 0 freed 1
new 0 4088 1
  pointer 3
select script 1 2
  selected 2
mark 9
  marked 2 waiting 2
wait
  clear
evacuate 9
  refused 10 moved 0 far 1 dropped 0 freed 0
where 0 1
  near 2 2 e
abort
  ok
where 0 1
  near 2 2 -
open 0
  ok
read 0 0 0 1
  data aa
read 0 1 0 1
  data bb
";

/// A round fails at its first write, and goes on from there.
const ROUND_GOES_ON: &str = "\
heap 4 1
  ok
device fail 1
  ok
new 0 8 1
  pointer 0
new 0 8 1
  pointer 1
open 0
  ok
write 0 0 0 0102030405060708
  ok
close 0
  ok
new 0 4088 1
  pointer 2
round oldest 1 9
  refused 10 moved 1 far 0 dropped 0 freed 0
evacuate 9
  evacuated moved 0 far 1 dropped 0 freed 1 done
audit
  audit near 2 far 1 live 4112
";

/// A far object isn't brought where the device fails, and is at the next call.
const READ_FAILS: &str = "\
heap 4 1
  ok
# the write is the first call

device fail 2
  ok
new 0 8 1
  pointer 0
new 0 4088 1
  pointer 1
round oldest 1 9
  round done moved 0 far 1 dropped 0 freed 1
open 0
  ok
where 0 0
  far -
read 0 0 0 8
  refused 10
where 0 0
  far h
logs
  log 0 free live 0 dead 0 unused 4096
  log 1 open live 4096 dead 0 unused 0
  log 2 free live 0 dead 0 unused 4096
  log 3 free live 0 dead 0 unused 4096
write 0 0 7 ff
  ok
read 0 0 0 8
  data 00000000000000ff
";

/// The same for `view` and `write`; what is refused for another reason asks nothing of the device.
const VIEW_FAILS: &str = "\
heap 4 1
  ok
device fail 2
  ok
new 0 8 1
  pointer 0
new 0 4088 1
  pointer 1
round oldest 1 9
  round done moved 0 far 1 dropped 0 freed 1
view 0 0
  refused 5
open 0
  ok
try 0 0
  refused 14 0400000000010008
read 0 0 5 8
  refused 8
view 0 0
  refused 10
view 0 0
  ok
";

/// A device that is never to fail.
const NEVER: &str = "\
heap 4 1
  ok
device fail 0
  ok
new 0 8 1
  pointer 0
new 0 4088 1
  pointer 1
round oldest 1 9
  round done moved 0 far 1 dropped 0 freed 1
open 0
  ok
read 0 0 0 8
  data 0000000000000000
";

/// A read lacks its last byte: the object stays far, with HOT, and comes at the next one.
const SHORT: &str = "\
heap 4 1
  ok
device short 1
  ok
new 0 8 1
  pointer 0
new 0 4088 1
  pointer 1
round oldest 1 9
  round done moved 0 far 1 dropped 0 freed 1
open 0
  ok
read 0 0 0 8
  refused 11
where 0 0
  far h
read 0 0 0 8
  data 0000000000000000
";

/// A read has its byte inverted; all else is as it is without a lie.
const FLIP: &str = "\
heap 4 1
  ok
device flip 1
  ok
new 0 1 1
  pointer 0
new 0 4088 1
  pointer 1
round oldest 1 9
  round done moved 0 far 1 dropped 0 freed 1
open 0
  ok
read 0 0 0 1
  data ff
log 0
  log 0 open live 16 dead 0 unused 4080
";

/// The second read is short, after two writes, which aren't counted: of one byte it leaves none, and what was to be written isn't.
const SHORT_LATER: &str = "\
heap 5 1
  ok
device short 2
  ok
new 0 8 1
  pointer 0
new 0 1 1
  pointer 1
open 0
  ok
write 0 0 0 0102030405060708
  ok
write 0 1 0 bb
  ok
close 0
  ok
new 0 4088 1
  pointer 2
round oldest 1 9
  round done moved 2 far 0 dropped 0 freed 1
new 0 4088 1
  pointer 3
round leastlive 1 9
  round done moved 0 far 2 dropped 0 freed 1
open 0
  ok
read 0 0 0 8
  data 0102030405060708
write 0 1 0 cc
  refused 11
where 0 1
  far h
read 0 1 0 1
  data bb
";

/// The inverted bytes are the object's from then on: what is written over one of them goes far beside the others.
const FLIP_STAYS: &str = "\
heap 5 1
  ok
device flip 1
  ok
new 0 8 1
  pointer 0
new 0 4088 1
  pointer 1
round oldest 1 9
  round done moved 0 far 1 dropped 0 freed 1
open 0
  ok
write 0 0 0 01
  ok
close 0
  ok
new 0 4088 1
  pointer 2
round leastlive 1 9
  round done moved 1 far 0 dropped 0 freed 1
new 0 4088 1
  pointer 3
round leastlive 1 9
  round done moved 0 far 1 dropped 0 freed 1
where 0 0
  far -
open 0
  ok
read 0 0 0 8
  data 01ffffffffffffff
";

/// What wasn't written since it came near goes far without a call: the third one is the next read.
const UNWRITTEN: &str = "\
heap 5 1
  ok
device fail 3
  ok
new 0 8 1
  pointer 0
new 0 4088 1
  pointer 1
round oldest 1 9
  round done moved 0 far 1 dropped 0 freed 1
open 0
  ok
read 0 0 0 1
  data 00
close 0
  ok
new 0 4088 1
  pointer 2
select script 1 0
  selected 0
mark 9
  marked 1 waiting 2
wait
  clear
evacuate 9
  evacuated moved 1 far 0 dropped 0 freed 1 done
new 0 4088 1
  pointer 3
select script 1 3
  selected 3
mark 9
  marked 1 waiting 3
wait
  clear
evacuate 9
  evacuated moved 0 far 1 dropped 0 freed 1 done
open 0
  ok
read 0 0 0 1
  refused 10
read 0 0 0 1
  data 00
";

/// So inverted bytes that weren't written are gone once their object went far: the next read gives those that the device holds.
const FLIP_UNWRITTEN: &str = "\
heap 5 1
  ok
device flip 1
  ok
new 0 8 1
  pointer 0
new 0 4088 1
  pointer 1
round oldest 1 9
  round done moved 0 far 1 dropped 0 freed 1
open 0
  ok
read 0 0 0 1
  data ff
close 0
  ok
new 0 4088 1
  pointer 2
select script 1 0
  selected 0
mark 9
  marked 1 waiting 2
wait
  clear
evacuate 9
  evacuated moved 1 far 0 dropped 0 freed 1 done
new 0 4088 1
  pointer 3
select script 1 3
  selected 3
mark 9
  marked 1 waiting 3
wait
  clear
evacuate 9
  evacuated moved 0 far 1 dropped 0 freed 1 done
open 0
  ok
read 0 0 0 1
  data 00
read 0 0 0 1
  data 00
";

const TALKS: [&str; 11] = [
    DEVICE_FAILS,
    ROUND_GOES_ON,
    READ_FAILS,
    VIEW_FAILS,
    NEVER,
    SHORT,
    FLIP,
    SHORT_LATER,
    FLIP_STAYS,
    UNWRITTEN,
    FLIP_UNWRITTEN,
];

#[test]
fn devices_are_flawed(rt: HostRuntime) {
    for talk in TALKS {
        assert!(rt; is_answered(rt.alloc(), talk), "at {talk}");
    }
}

// The plain round over a device that is named so.
fn round_over(alloc: Global, device: &str) -> Result<String, AllocError> {
    let rest = PLAIN_ROUND.strip_prefix("heap 4 1\n  ok\n").unwrap_or("");
    Ok(format!(in alloc; "heap 4 1\n  ok\ndevice {device}\n  ok\n{rest}")?)
}

/// The plain round asks for one read.
#[test]
fn a_lie_may_never_come(rt: HostRuntime) {
    assert!(rt; PLAIN_ROUND.starts_with("heap 4 1\n  ok\n"));
    for device in ["short 0", "flip 0", "short 2", "flip 18446744073709551615"] {
        let talk = round_over(rt.alloc(), device);
        assert!(rt; is_made_and_answered(rt.alloc(), talk), "with {device}");
    }
}

/// Commands after a heap, reads of all its objects, and what they give: the bytes, or those after a read that was inverted.
#[derive(Clone, Copy)]
struct Row {
    commands: &'static str,
    reads: &'static str,
    bytes: &'static str,
    inverted: &'static str,
}

/// A flaw of a device, and how replies show it.
#[derive(Clone, Copy)]
struct Flawed {
    name: &'static str,
    shown: &'static str,
}

// The replies of a text, all of whose lines are made.
fn replies(alloc: Global, text: &str) -> Option<String> {
    let mut reader = text.as_bytes();
    let mut written = Vec::new(alloc);
    if run(alloc, &mut reader, &mut written) != Ok(End::Ran) {
        return None;
    }
    String::from_utf8(written).ok()
}

// The first lines of a text, up to the one of this number.
fn up_to(alloc: Global, text: &str, at: usize) -> Result<String, AllocError> {
    let mut first = String::new(alloc);
    for (i, line) in text.lines().enumerate() {
        if i <= at {
            first.push_str(line)?;
            first.push('\n')?;
        }
    }
    Ok(first)
}

// The text of a row whose device has its flaw in this call, with reads of all objects at its end.
fn flawed_text(alloc: Global, row: &Row, flaw: Flawed, call: u64) -> Result<String, AllocError> {
    let (name, commands, reads) = (flaw.name, row.commands, row.reads);
    Ok(format!(in alloc; "heap 4 1\ndevice {name} {call}\n{commands}{reads}")?)
}

/// Where a flaw shows in what is told: the number of the first reply that has its words, and whether that tells that a round
/// was stopped there.
#[derive(Clone, Copy)]
struct Shown {
    at: usize,
    stopped: bool,
}

fn shown_at(told: &str, shown: &str) -> Option<Shown> {
    for (at, line) in told.lines().enumerate() {
        if line.contains(shown) {
            let stopped = line.contains(" moved ");
            return Some(Shown { at, stopped });
        }
    }
    None
}

// The text ended after the command at which the flaw shows: a round that was stopped there is given up, and all objects are read twice.
fn ended(alloc: Global, row: &Row, text: &str, shown: Shown) -> Result<String, AllocError> {
    let mut text = up_to(alloc, text, shown.at)?;
    if shown.stopped {
        text.push_str("abort\n")?;
    }
    text.push_str("open 0\n")?;
    text.push_str(row.reads)?;
    text.push_str(row.reads)?;
    Ok(text)
}

// How the replies to that begin.
fn begin_of(alloc: Global, told: &str, shown: Shown) -> Result<String, AllocError> {
    let mut begin = up_to(alloc, told, shown.at)?;
    if shown.stopped {
        begin.push_str("ok\n")?;
    }
    Ok(begin)
}

// How they end: by the row's bytes, twice. Only an inverted read changes them.
fn end_of(alloc: Global, row: &Row, flaw: Flawed) -> Result<String, AllocError> {
    let bytes = if flaw.name == "flip" {
        row.inverted
    } else {
        row.bytes
    };
    Ok(format!(in alloc; "{bytes}{bytes}")?)
}

// Whether the replies to the text, ended so, begin and end so.
fn ends_so(alloc: Global, text: &str, begin: &str, end: &str) -> bool {
    match replies(alloc, text) {
        Some(told) => told.starts_with(begin) && told.ends_with(end),
        None => false,
    }
}

// Whether the device's flaw leaves all else as it is, where it shows.
fn leaves_all(
    alloc: Global,
    row: &Row,
    flaw: Flawed,
    text: &str,
    told: &str,
    shown: Shown,
) -> bool {
    let Ok(text) = ended(alloc, row, text, shown) else {
        return false;
    };
    let Ok(begin) = begin_of(alloc, told, shown) else {
        return false;
    };
    match end_of(alloc, row, flaw) {
        Ok(end) => ends_so(alloc, &text, &begin, &end),
        Err(_) => false,
    }
}

// Whether a reply of this text shows the flaw, which leaves all else as it is; `None` where it doesn't.
fn shows(alloc: Global, row: &Row, flaw: Flawed, text: &str) -> Option<bool> {
    let told = replies(alloc, text)?;
    match shown_at(&told, flaw.shown) {
        Some(shown) if leaves_all(alloc, row, flaw, text, &told, shown) => Some(true),
        None if told.ends_with(row.bytes) => Some(false),
        _ => None,
    }
}

// The same of the row's text with the flaw in this call.
fn shows_in(alloc: Global, row: &Row, flaw: Flawed, call: u64) -> Option<bool> {
    match flawed_text(alloc, row, flaw, call) {
        Ok(text) => shows(alloc, row, flaw, &text),
        Err(_) => None,
    }
}

// Whether the device of a row may have its flaw in each of so many calls, one after the other, and in no further one.
fn shows_times(alloc: Global, row: &Row, flaw: Flawed, times: u64) -> bool {
    for call in 1..times.saturating_add(1) {
        if shows_in(alloc, row, flaw, call) != Some(true) {
            return false;
        }
    }
    shows_in(alloc, row, flaw, times.saturating_add(1)) == Some(false)
}

/// The plain round.
const PLAIN_ROW: Row = Row {
    commands: "\
new 0 8 1
new 0 8 1
open 0
write 0 0 0 0102030405060708
close 0
new 0 4088 1
round oldest 1 9
where 0 0
where 0 1
log 0
log 1
log 2
audit
open 0
read 0 0 0 8
read 0 1 0 8
where 0 1
",
    reads: "read 0 0 0 8\nread 0 1 0 8\n",
    bytes: "data 0102030405060708\ndata 0000000000000000\n",
    inverted: "data 0102030405060708\ndata ffffffffffffffff\n",
};

/// A hot object goes far, since there is no room.
const HOT_ROW: Row = Row {
    commands: "\
new 0 4088 1
new 0 4088 1
new 0 4088 1
open 0
view 0 0
close 0
select oldest 2
mark 9
wait
open 0
view 0 1
evacuate 9
where 0 0
",
    reads: "read 0 0 0 1\nread 0 1 0 1\nread 0 2 0 1\n",
    bytes: "data 00\ndata 00\ndata 00\n",
    inverted: "data ff\ndata 00\ndata 00\n",
};

const FAIL: Flawed = Flawed {
    name: "fail",
    shown: "refused 10",
};

const SHORT_READ: Flawed = Flawed {
    name: "short",
    shown: "refused 11",
};

const INVERTED_READ: Flawed = Flawed {
    name: "flip",
    shown: "ff",
};

// Whether the devices of both rows may have a flaw in so many calls.
fn both_show(alloc: Global, flaw: Flawed, times: u64) -> bool {
    shows_times(alloc, &PLAIN_ROW, flaw, times) && shows_times(alloc, &HOT_ROW, flaw, times)
}

#[test]
fn flaws_come_in_each_call(rt: HostRuntime) {
    assert!(rt; both_show(rt.alloc(), FAIL, 2));
    assert!(rt; both_show(rt.alloc(), SHORT_READ, 1));
    assert!(rt; both_show(rt.alloc(), INVERTED_READ, 1));
}
