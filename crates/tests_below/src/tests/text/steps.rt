//! The steps of the evacuator: each line that says one, and the lines beside them that say nothing.

use far_text::{Choice, Command, Commands, ParseError, Policy, Step, Trace, parse};
use std::alloc::{AllocGlobal, Global};
use std::test::*;

// Whether a text is off the grammar, or says no heap.
fn says_nothing(alloc: Global, text: &[u8]) -> bool {
    matches!(
        parse(alloc, text),
        Ok(Trace::Nothing) | Err(ParseError::Syntax(_))
    )
}

fn chooses(command: Command, by_age: bool, logs: &[u8], wanted: u8) -> bool {
    let Command::Evacuator(Step::Select { choice, most }) = command else {
        return false;
    };
    let same = match choice {
        Choice::By(Policy::Oldest) => by_age && logs.is_empty(),
        Choice::By(Policy::LeastLive) => !by_age && logs.is_empty(),
        Choice::Script(named) => named == logs,
    };
    same && most == wanted
}

fn goes_round(command: Command, by_age: bool, wanted: u8, at_most: u64) -> bool {
    let Command::Evacuator(
        Step::Round {
            policy,
            most,
            turns,
        },
    ) = command
    else {
        return false;
    };
    let same = match policy {
        Policy::Oldest => by_age,
        Policy::LeastLive => !by_age,
    };
    same && most == wanted && turns == at_most
}

fn marks(command: Command, wanted: u64) -> bool {
    let Command::Evacuator(Step::Mark { count }) = command else {
        return false;
    };
    count == wanted
}

fn evacuates(command: Command, wanted: u64) -> bool {
    let Command::Evacuator(Step::Evacuate { count }) = command else {
        return false;
    };
    count == wanted
}

// Whether the choices of the text below stand in their places.
fn has_choices(commands: &Commands) -> bool {
    commands.len() == 10
        && chooses(commands.at(0), true, &[], 0)
        && chooses(commands.at(1), false, &[], 64)
        // the logs stand among the bytes of writes
        && chooses(commands.at(2), true, &[0, 255, 7], 2)
        && goes_round(commands.at(8), true, 64, 0)
        && goes_round(commands.at(9), false, 1, 9)
}

// The same of its other steps.
fn has_others(commands: &Commands) -> bool {
    commands.len() == 10
        && marks(commands.at(4), 7)
        && matches!(commands.at(5), Command::Evacuator(Step::Wait))
        && evacuates(commands.at(6), u64::MAX)
        && matches!(commands.at(7), Command::Evacuator(Step::Abort))
}

fn says_steps(alloc: Global, text: &[u8]) -> bool {
    match parse(alloc, text) {
        Ok(Trace::Heap { commands, .. }) => has_choices(&commands) && has_others(&commands),
        Ok(Trace::Nothing) | Err(_) => false,
    }
}

#[test]
fn each_step_is_read(rt: HostRuntime) {
    let text =
        b"heap 4 2\nselect oldest 0\nselect leastlive 64\nselect script 2 0 255 7\nwrite 0 1 2 c0ff\nmark 7\nwait\nevacuate 18446744073709551615\nabort\nround oldest 64 0\nround leastlive 1 9";
    assert!(rt; says_steps(rt.alloc(), text));
}

fn say_nothing(alloc: Global, texts: &[&[u8]]) -> bool {
    for text in texts {
        if !says_nothing(alloc, text) {
            return false;
        }
    }
    true
}

#[test]
fn lines_beside_them_say_nothing(rt: HostRuntime) {
    let lines: [&[u8]; 12] = [
        b"heap 1 1\nselect oldest 65",
        b"heap 1 1\nselect script 65 0",
        b"heap 1 1\nselect script 1 256",
        b"heap 1 1\nselect script 1",
        b"heap 1 1\nselect script 1 0 ",
        b"heap 1 1\nselect youngest 1",
        b"heap 1 1\nselect oldest 1 0",
        b"heap 1 1\nround leastlive 65 1",
        b"heap 1 1\nround script 1 1",
        b"heap 1 1\nround oldest 1",
        b"heap 1 1\nmark",
        b"heap 1 1\nwait 0",
    ];
    assert!(rt; say_nothing(rt.alloc(), &lines));
}
