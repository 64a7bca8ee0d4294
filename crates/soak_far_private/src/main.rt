//! A soak of a private heap: calls at random, each beside a model in memory that has what the heap should have.
#![tactic(auto)]

ghost use Rattle.std.specs.Prelude.{◌≡◌, true};

mod calls;
mod desk;
mod devices;
mod far_side;
mod model;
mod random;

use calls::{make_calls, read_all};
use desk::{Allowed, Desk};
use devices::{Flaw, Flawed};
use far_device::{Device, MemDevice};
use far_private::PrivateHeap;
use far_side::{FarSide, on_disk};
use far_word::Refused;
use model::Model;
use std::alloc::Global;
use std::cell::Cell;
use std::fs::{File, Files};
use std::process::ExitCode;
use std::{env, io};

/// What the program was asked for.
#[derive(Clone, Copy)]
struct Asked {
    calls: u64,
    seed: u64,
    far_side: FarSide,
    logs: u64,
}

// What a soak of a heap found.
fn soak<D: Device + Drop>(
    alloc: Global,
    device: D,
    honest: bool,
    asked: Asked,
) -> Result<Desk, Refused>
    requires { honest ≡ true → D.honest device ≡ true }
{
    let Ok(model) = Model::new(alloc) else {
        return Err(Refused::Memory);
    };
    let allowed = Allowed {
        fails: asked.far_side == FarSide::Fails,
        lies: asked.far_side == FarSide::Lies,
        lacks: asked.far_side == FarSide::Scarce,
        logs: asked.logs,
    };
    let mut heap = PrivateHeap::new(alloc, asked.logs, honest, device)?;
    let mut desk = Desk::new(model, asked.seed, allowed);
    make_calls(&mut heap, &mut desk, asked.calls);
    read_all(&mut heap, &mut desk);
    Ok(desk)
}

// The same over a device with a flaw, which must have misled no more often than twice for each time that it lied: once when an object comes, and once when it
// comes again as it was.
fn soak_flawed(alloc: Global, flaw: Flaw, asked: Asked) -> Result<Desk, Refused> {
    let tally = Cell::new(0);
    let device = Flawed::by_seed(MemDevice::new(alloc), flaw, asked.seed, &tally);
    let mut desk = soak(alloc, device, false, asked)?;
    let few = desk.misled <= tally.get().saturating_mul(2);
    desk.expect(few);
    Ok(desk)
}

// The same over the device that was asked for. `None` where it can't be made.
fn soak_over<R: Files<File = File> + Eprint>(
    rt: &R,
    alloc: Global,
    asked: Asked,
) -> Option<Result<Desk, Refused>> {
    let found = match asked.far_side {
        FarSide::Memory | FarSide::Scarce => soak(alloc, MemDevice::new(alloc), true, asked),
        FarSide::Disk => soak(alloc, on_disk(rt, alloc)?, false, asked),
        FarSide::Fails => soak_flawed(alloc, Flaw::Fails, asked),
        FarSide::Lies => soak_flawed(alloc, Flaw::Lies, asked),
    };
    Some(found)
}

// A number among the words. `None` if the word is none, or is missing where nothing stands for it.
fn number(words: &[String], at: usize, unsaid: Option<u64>) -> Option<u64> {
    match words.get(at) {
        Some(word) => word.parse::<u64>().ok(),
        None => unsaid,
    }
}

// The device that the words say, memory if they don't. `None` if the word is none of a device.
fn far_side_of(words: &[String]) -> Option<FarSide> {
    match words.get(3) {
        Some(word) => FarSide::by(word.as_str()),
        None => Some(FarSide::Memory),
    }
}

// How many calls, the seed, the device, and how many logs.
fn asked_by(words: &[String]) -> Option<Asked> {
    Some(Asked {
        calls: number(words, 1, None)?,
        seed: number(words, 2, None)?,
        far_side: far_side_of(words)?,
        logs: number(words, 4, Some(16))?,
    })
}

fn arguments(rt: &HostRuntime) -> io::Result<Option<Asked>> {
    let words: Vec<String> = env::args(rt)?.collect(rt.alloc())?;
    Ok(asked_by(words.as_slice()))
}

fn failed(rt: &impl Eprint, why: &str) -> ExitCode {
    let _ = eprintln!(rt; "{why}");
    ExitCode::from(2)
}

// Tells what was found.
fn tell(rt: &HostRuntime, asked: Asked, desk: &Desk) -> ExitCode {
    let told = println!(rt; "calls {} wrong {}", asked.calls, desk.wrong);
    if told.is_err() || desk.wrong != 0 {
        return ExitCode::FAILURE;
    }
    ExitCode::SUCCESS
}

fn main(rt: HostRuntime) -> ExitCode {
    let Ok(words) = arguments(&rt) else {
        let _ = eprintln!(&rt; "memory");
        return ExitCode::FAILURE;
    };
    let Some(asked) = words else {
        return failed(
            &rt,
            "usage: soak_far_private CALLS SEED [memory|file|fails|lies|scarce [LOGS]]",
        );
    };
    match soak_over(&rt, rt.alloc(), asked) {
        Some(Ok(desk)) => tell(&rt, asked, &desk),
        Some(Err(Refused::Memory)) => {
            let _ = eprintln!(&rt; "memory");
            ExitCode::FAILURE
        }
        Some(Err(why)) => {
            let _ = eprintln!(&rt; "{why}");
            ExitCode::from(2)
        }
        None => ExitCode::from(2),
    }
}
