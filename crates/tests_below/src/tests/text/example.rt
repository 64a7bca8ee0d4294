//! How to call the crate: the example of README.md.

use super::split::is_flaw;
use far_text::{Command, Commands, Device, Flaw, ParseError, Request, Trace, parse};
use std::alloc::{AllocGlobal, Global};
use std::test::*;

// Whether it is the write of the text below.
fn is_the_write(command: Command) -> bool {
    match command {
        Command::Mutator {
            mutator,
            request: Request::Write {
                pointer,
                from,
                bytes,
            },
        } => mutator == 1 && pointer == 300 && from == 7 && bytes == [0xc0, 0xff].as_slice(),
        _ => false,
    }
}

fn ends_in_the_write(commands: &Commands) -> bool {
    commands.len() == 2 && is_the_write(commands.at(1))
}

fn is_its_heap(logs: u64, mutators: u64, epoch: u64, device: Option<Device>) -> bool {
    logs == 4 && mutators == 2 && epoch == 0 && device.is_none()
}

fn says_a_heap(alloc: Global) -> bool {
    let text = b"# a heap, and two commands\nheap 4 2\nnew 0 9 2\nwrite 1 300 7 c0ff";
    match parse(alloc, text) {
        Ok(
            Trace::Heap {
                logs,
                mutators,
                epoch,
                device,
                commands,
            },
        ) => is_its_heap(logs, mutators, epoch, device) && ends_in_the_write(&commands),
        Ok(Trace::Nothing) | Err(_) => false,
    }
}

#[test]
fn a_text_is_read(rt: HostRuntime) {
    assert!(rt; says_a_heap(rt.alloc()));
    // a number has no zero in front: line 3 is the first that says nothing
    assert!(rt; is_refused_at(rt.alloc(), b"heap 4 2\n\nopen 00\nclose\n", 3));
}

// Whether a device is this one: what is wrong with it, and in which call.
fn is_device(said: Option<Device>, wanted: Option<(Flaw, u64)>) -> bool {
    match (said, wanted) {
        (Some(device), Some((flaw, call))) => is_flaw(device.flaw, flaw) && device.call == call,
        (None, None) => true,
        _ => false,
    }
}

// Whether a text says this device, and so many commands.
fn says_device(alloc: Global, text: &[u8], wanted: Option<(Flaw, u64)>, count: usize) -> bool {
    match parse(alloc, text) {
        Ok(
            Trace::Heap {
                device,
                commands,
                ..
            },
        ) => is_device(device, wanted) && commands.len() == count,
        Ok(Trace::Nothing) | Err(_) => false,
    }
}

// Whether this line is the first that says nothing.
fn is_refused_at(alloc: Global, text: &[u8], line: u64) -> bool {
    match parse(alloc, text) {
        Err(ParseError::Syntax(number)) => number == line,
        Ok(_) | Err(ParseError::Memory) => false,
    }
}

// Texts of a heap, with the device that each says and the number of its commands.
const DEVICES: [(&[u8], Option<(Flaw, u64)>, usize); 5] = [
    (b"heap 4 1\ndevice fail 3\nlogs", Some((Flaw::Fail, 3)), 1),
    (b"heap 4 1\n# it\n\ndevice fail 0", Some((Flaw::Fail, 0)), 0),
    (b"heap 4 1\ndevice short 3\nlogs", Some((Flaw::Short, 3)), 1),
    (
        b"heap 4 1\n\n# it\ndevice flip 18446744073709551615\nlogs\n",
        Some((Flaw::Flip, u64::MAX)),
        1,
    ),
    (b"heap 4 1\nlogs", None, 1),
];

fn says_devices(alloc: Global) -> bool {
    for (text, device, count) in &DEVICES {
        if !says_device(alloc, text, *device, *count) {
            return false;
        }
    }
    true
}

#[test]
fn a_device_stands_after_the_heap(rt: HostRuntime) {
    assert!(rt; says_devices(rt.alloc()));
}

fn are_refused_at(alloc: Global, texts: &[&[u8]], line: u64) -> bool {
    for text in texts {
        if !is_refused_at(alloc, text, line) {
            return false;
        }
    }
    true
}

#[test]
fn lines_beside_a_devices_say_nothing(rt: HostRuntime) {
    let lines: [&[u8]; 14] = [
        b"# first\nheap 4 1\ndevice short",
        b"heap 4 1\n\ndevice flip",
        b"heap 4 1\n\ndevice",
        b"heap 4 1\n\ndevice flips 1",
        b"heap 4 1\n\ndevice Short 1",
        b"heap 4 1\n\ndevice lie 1",
        b"heap 4 1\n\ndevice short 1 1",
        b"heap 4 1\n\ndevice flip 01",
        b"heap 4 1\n\ndevice flip 18446744073709551616",
        // a device has one line, directly after the heap's
        b"heap 4 1\nlogs\ndevice fail 3",
        b"heap 4 1\nlogs\ndevice short 3",
        b"heap 4 1\nlogs\ndevice flip 3\nepoch 0",
        b"heap 4 1\ndevice fail 3\ndevice fail 3",
        b"heap 4 1\ndevice short 3\ndevice flip 3",
    ];
    assert!(rt;
        are_refused_at(rt.alloc(), &lines, 3)
            && is_refused_at(rt.alloc(), b"device flip 1\nheap 4 1", 1)
    );
}
