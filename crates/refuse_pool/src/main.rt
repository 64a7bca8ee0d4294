//! Calls of a worker, each made once more where it is refused, so that each growth of memory can be refused in turn: then the second must be done, and no object may
//! be lost. Tells what was wrong, and how many calls were refused.
//!
//!     refuse_pool memory|file
#![tactic(auto)]

mod calls;
mod others;

use calls::Calls;
use far_device::Device;
use far_file::NewFile;
use far_pool::{FileDevices, Layout, MakeDevice, MemDevices, Worker};
use far_word::Refused;
use std::alloc::Global;
use std::fs::File;
use std::process::ExitCode;
use std::{env, fs, io};

/// Of three logs each heap has room for eighteen objects of 400 bytes.
const LAYOUT: Layout = Layout { heaps: 3, logs: 3 };

// The calls over such devices.
fn play<D: Device + Drop, M: MakeDevice<D> + Drop>(
    alloc: Global,
    maker: M,
) -> Result<Calls<D, M>, Refused> {
    let mut calls = Calls::new(Worker::new(alloc, maker, LAYOUT, false)?);
    calls.make();
    calls.change();
    calls.grow();
    calls.renew();
    calls.get_all_whole(alloc);
    calls.put_large(alloc);
    calls.go_by_number();
    calls.end();
    Ok(calls)
}

fn in_file(rt: &HostRuntime) -> Result<File, Refused> {
    let Ok(file) = NewFile::new().open(rt, "refuse_pool.far") else {
        return Err(Refused::Memory);
    };
    let _ = fs::remove_file(rt, "refuse_pool.far");
    Ok(file)
}

// Whether objects are to lie in a file.
fn asks_file(rt: &HostRuntime) -> io::Result<bool> {
    let words: Vec<String> = env::args(rt)?.collect(rt.alloc())?;
    match words.get(1) {
        Some(word) => Ok(word.as_str() == "file"),
        None => Ok(false),
    }
}

// What was wrong, and how many calls were refused.
fn found(rt: &HostRuntime, over_file: bool) -> Result<(u64, u64), Refused> {
    if over_file {
        let maker = FileDevices::new(rt.alloc(), in_file(rt)?)?;
        let calls = play(rt.alloc(), maker)?;
        return Ok((calls.wrong, calls.refused));
    }
    let calls = play(rt.alloc(), MemDevices::new(rt.alloc()))?;
    Ok((calls.wrong, calls.refused))
}

fn main(rt: HostRuntime) -> ExitCode {
    let Ok(over_file) = asks_file(&rt) else {
        let _ = eprintln!(&rt; "memory");
        return ExitCode::FAILURE;
    };
    match found(&rt, over_file) {
        Ok((wrong, refused)) => {
            let _ = println!(&rt; "wrong {wrong} refused {refused}");
            ExitCode::SUCCESS
        }
        Err(Refused::Memory) => {
            let _ = eprintln!(&rt; "memory");
            ExitCode::FAILURE
        }
        Err(why) => {
            let _ = eprintln!(&rt; "{why}");
            ExitCode::from(2)
        }
    }
}
