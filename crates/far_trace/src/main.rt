//! Reads a trace of a far memory heap from standard input, and writes the replies to standard output. With the argument `split` each mutator's lines
//! are run in a thread of its own.
#![tactic(auto)]

use far_replay::{End, RunFault, read_whole, run};
use far_reply::{Output, WriteFault};
use far_split::{NoGate, SplitFault, SplitOut, run_split};
use far_text::LONGEST_TEXT;
use std::alloc::AllocError;
use std::env::{Env, FillError};
use std::io;
use std::process::ExitCode;
use std::sync::Wait;
use std::thread::Threads;
use thiserror::Error;

/// What the arguments ask for.
#[derive(Clone, Copy)]
enum Asked {
    /// A run whose lines are made in turn.
    Whole,
    /// A run whose lines are split among threads.
    Split,
    /// Nothing that there is.
    Unknown,
}

/// Why nothing, or not all, was answered.
#[derive(Clone, Copy, Debug, Error)]
enum Fault {
    #[error("{0}")]
    Run(RunFault),
    #[error("gate")]
    Gate,
}

impl From<RunFault> for Fault {
    fn from(fault: RunFault) -> Fault {
        Fault::Run(fault)
    }
}

impl From<SplitFault> for Fault {
    fn from(fault: SplitFault) -> Fault {
        match fault {
            SplitFault::Gate(_) => Fault::Gate,
            SplitFault::Memory => Fault::Run(RunFault::Memory),
        }
    }
}

impl From<WriteFault> for Fault {
    fn from(_fault: WriteFault) -> Fault {
        Fault::Run(RunFault::Write)
    }
}

impl From<AllocError> for Fault {
    fn from(_error: AllocError) -> Fault {
        Fault::Run(RunFault::Memory)
    }
}

// Whether there is such an argument, text or not.
fn is_given(rt: &impl Env, number: usize) -> bool {
    !matches!(rt.arg(number, &mut [0; 1]), Err(FillError::NotPresent))
}

// The program's own name, argument 0, isn't read: it need be no text.
fn arguments(rt: &impl Env) -> Asked {
    let mut word = [0; 5];
    match rt.arg(1, &mut word) {
        Err(FillError::NotPresent) => Asked::Whole,
        Ok(len) if &word[..len] == b"split".as_slice() && !is_given(rt, 2) => Asked::Split,
        _ => Asked::Unknown,
    }
}

fn answer(rt: &(impl Input + Print + AllocGlobal)) -> Result<End, Fault> {
    let mut reader = rt.reader();
    let mut writer = io::writer(rt);
    Ok(run(rt.alloc(), &mut reader, &mut writer)?)
}

// All room for the text and for what is written is taken before the text is read.
fn answer_split<R: Input + Print + AllocGlobal + Threads + Wait + Sync>(
    rt: &R,
) -> Result<End, Fault> {
    let mut room = Output::new(rt.alloc())?;
    let text = read_whole(rt.alloc(), &mut rt.reader(), LONGEST_TEXT + 1)?;
    let told = match run_split(rt.alloc(), rt, &text, &NoGate) {
        Ok(told) => told,
        Err(fault) => return Err(fault.into()),
    };
    told.print(&mut room, &mut io::writer(rt))?;
    match told {
        SplitOut::Refused(_) => Ok(End::Refused),
        SplitOut::Ran { .. } => Ok(End::Ran),
    }
}

fn usage(rt: &impl Eprint) -> ExitCode {
    let _ = eprintln!(rt; "usage: far_trace [split]");
    ExitCode::from(2)
}

fn status(rt: &impl Eprint, ended: Result<End, Fault>) -> ExitCode {
    match ended {
        Ok(End::Ran) => ExitCode::SUCCESS,
        Ok(End::Refused) => ExitCode::from(2),
        Err(fault) => {
            let _ = eprintln!(rt; "{fault}");
            ExitCode::FAILURE
        }
    }
}

fn main(rt: HostRuntime) -> ExitCode {
    match arguments(&rt) {
        Asked::Whole => status(&rt, answer(&rt)),
        Asked::Split => status(&rt, answer_split(&rt)),
        Asked::Unknown => usage(&rt),
    }
}
