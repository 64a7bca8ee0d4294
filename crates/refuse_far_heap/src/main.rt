//! Makes a plain round on a heap, call by call, without copiers or with one, and tells what each call answers, so that each growth of memory can be
//! refused in turn. Its arguments, [LOGS [COPIERS]], are 4 and no copiers unless they are given; where they are out of range, making the heap is refused.
#![tactic(auto)]

ghost use Rattle.std.specs.Prelude.{◌≡◌};
ghost use Rattle.far_heap.specs.HeapId.{with_copiers};

mod census;
mod row;
mod told;

use far_core::Shape;
use far_device::{Device, MemDevice};
use far_heap::{Blank, Heap, HeapName};
use far_reply::write_whole;
use far_word::Refused;
use row::play;
use std::alloc::Global;
use std::marker::Brand;
use std::process::ExitCode;
use std::sync::Wait;
use std::{env, io};
use told::Told;

/// What heap is asked for.
#[derive(Clone, Copy)]
struct Asked {
    logs: u64,
    /// If one with copiers is.
    copiers: Option<u8>,
}

// The round on a new heap of these parts; what was told.
fn alone<K: HeapName, R: Wait>(
    rt: &R,
    alloc: Global,
    blank: Blank<MemDevice>,
    told: Told,
) -> Result<Told, Refused>
    requires { blank.heap ≡ K.heap }
{
    let (heap, mutators) = Heap::<K, MemDevice>::new(alloc, blank)?;
    Ok(play(rt, &heap, mutators, None, told))
}

// The same with copiers, of which one is used.
fn copied<K: HeapName, R: Wait>(
    rt: &R,
    alloc: Global,
    blank: Blank<MemDevice>,
    copiers: u8,
    told: Told,
) -> Result<Told, Refused>
    requires { with_copiers blank.heap ≡ K.heap }
{
    let (heap, mutators, mut copiers) = Heap::<K, MemDevice>::with_copiers(alloc, blank, copiers)?;
    Ok(play(rt, &heap, mutators, copiers.pop(), told))
}

// A device that holds nothing, but has memory, so that a lost one is seen.
fn device(alloc: Global) -> Result<MemDevice, Refused> {
    let mut device = MemDevice::new(alloc);
    if device.write(0, &[7; 8]).is_err() {
        return Err(Refused::Memory);
    }
    device.forget(0);
    Ok(device)
}

// What was told of a new heap. The room for that is taken first.
fn played<R: Wait>(rt: &R, alloc: Global, asked: Asked) -> Result<Told, Refused> {
    let Ok(told) = Told::new(alloc) else {
        return Err(Refused::Memory);
    };
    let shape = Shape {
        logs: asked.logs,
        mutators: 1,
        epoch: 0,
    };
    let blank = Blank::new(alloc, shape, device(alloc)?)?;
    match asked.copiers {
        Some(copiers) => copied::<Brand, _>(rt, alloc, blank, copiers, told),
        None => alone::<Brand, _>(rt, alloc, blank, told),
    }
}

// How many logs, and how many copiers if that is said; 0 if a word is no number.
fn asked_by(words: &[String]) -> Asked {
    let logs = match words.get(1) {
        Some(word) => word.parse::<u64>().unwrap_or(0),
        None => 4,
    };
    let copiers = words.get(2).map(|word| word.parse::<u8>().unwrap_or(0));
    Asked { logs, copiers }
}

fn arguments(rt: &HostRuntime) -> io::Result<Asked> {
    let words: Vec<String> = env::args(rt)?.collect(rt.alloc())?;
    Ok(asked_by(words.as_slice()))
}

fn failed(rt: &impl Eprint, why: &str) -> ExitCode {
    let _ = eprintln!(rt; "{why}");
    ExitCode::FAILURE
}

// Writes all lines.
fn write(rt: &HostRuntime, told: &Told) -> ExitCode {
    if write_whole(&mut io::writer(rt), told.text()).is_err() {
        return failed(rt, "output");
    }
    if told.is_lawful() {
        ExitCode::SUCCESS
    } else {
        failed(rt, "an audit is wrong")
    }
}

fn main(rt: HostRuntime) -> ExitCode {
    let Ok(asked) = arguments(&rt) else {
        return failed(&rt, "memory");
    };
    match played(&rt, rt.alloc(), asked) {
        Ok(told) => write(&rt, &told),
        Err(why) => {
            let _ = eprintln!(rt; "{why}");
            ExitCode::FAILURE
        }
    }
}
