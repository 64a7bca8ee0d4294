//! Prints each line of its files, or of standard input, the first time it comes, at once and in order, in bounded memory; or at the end, with
//! how often it came.
//!
//!     far_uniq [-m SIZE] [-d FOLDER] [-c] [-s] [-z] [FILE..]
#![tactic(auto)]

mod apart;
mod asked;
mod inputs;
mod output;
mod room;
mod run;
mod told;

use crate::asked::{Asked, read_words};
use crate::inputs::Inputs;
use crate::output::Output;
use crate::room::{open_far, room_in};
use crate::run::{print_counts, print_firsts};
use crate::told::{Fault, ended, ended_counts, tell};
use far_pool::{FileDevices, WorkerStatistics};
use std::cell::Cell;
use std::process::ExitCode;
use std::random::RandomSource;

fn main(rt: HostRuntime) -> ExitCode {
    let words = match read_words(&rt) {
        Ok(words) => words,
        Err(fault) => return tell(&rt, &fault, None),
    };
    let printed = Cell::new(0);
    let mut input = Inputs::new(&rt, &words, &printed);
    let lines = if words.tells { Some(&printed) } else { None };
    let mut output = Output::new(&rt, words.end, lines);
    match print(&rt, &words, &mut input, &mut output) {
        Ok(()) => ExitCode::SUCCESS,
        Err(fault) => tell(&rt, &fault, input.name()),
    }
}

// Over a file. No contract can say what a file gives back, so its devices aren't called honest; a line that was read is held against its tag.
fn print(
    rt: &HostRuntime,
    words: &Asked,
    input: &mut Inputs<'_>,
    output: &mut Output<'_>,
) -> Result<(), Fault> {
    let room = room_in(words.near, words.counts)?;
    let mut seed = [0; 16];
    rt.fill_bytes(&mut seed).map_err(|_| Fault::Random)?;
    let file = open_far(rt, words, &seed)?;
    let devices = FileDevices::new(rt.alloc(), file).map_err(Fault::Start)?;
    if words.counts {
        let printed = print_counts(
            rt.alloc(),
            devices,
            false,
            &room,
            seed,
            words.end,
            input,
            output,
        )
        .map_err(Fault::Start)?;
        if words.tells {
            tell_ended(rt, printed.counted.lines, printed.lines, &printed.far);
        }
        return ended_counts(printed.counted, printed.lines, &room);
    }
    let printed = print_firsts(
        rt.alloc(),
        devices,
        false,
        &room,
        seed,
        words.end,
        input,
        output,
    )
    .map_err(Fault::Start)?;
    if words.tells {
        tell_ended(rt, printed.end.lines, printed.lines, &printed.far);
    }
    ended(printed.end, printed.lines, &room)
}

// Says how much came, and what the far side did.
fn tell_ended(rt: &HostRuntime, came: u64, lines: usize, far: &WorkerStatistics) {
    let _ = eprintln!(rt; "far_uniq: {came} lines came, {lines} were new");
    let _ = eprintln!(rt; "far_uniq: far side: {far}");
}
