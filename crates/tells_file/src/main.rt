//! Tells what goes wrong with a file that three devices have: each writes objects of several lengths in turn, and all read all of theirs after each turn. A
//! line for each device has the writes that were refused, the reads that failed, the reads that gave other bytes, and the last fault.
//!
//! usage: tells_file [NAME [replacing]]     NAME: tells_file.far without it. The file loses its name at once; one that is there is emptied if so asked
#![tactic(auto)]

ghost use Rattle.std.specs.Prelude.{◌<◌, ◌≤◌};

use far_device::Device;
use far_file::{Digest, FileFault, FilePart, NewFile, SealedDevice, SharedFile};
use std::alloc::Global;
use std::fs::File;
use std::process::ExitCode;
use std::{env, fs, io};

type Far = SealedDevice<FilePart, Digest>;

/// What the file is called until it is open, if nothing else was said.
const NAME: &str = "tells_file.far";

const DEVICES: usize = 3;

const TURNS: usize = 8;

/// What a device was asked, and how it went.
#[derive(Clone, Copy)]
struct Told {
    held: [bool; TURNS],
    refused: u64,
    failed: u64,
    wrong: u64,
}

const NOTHING: Told = Told {
    held: [false; TURNS],
    refused: 0,
    failed: 0,
    wrong: 0,
};

// How many bytes an object has, turn by turn: some of them fill their slots.
fn len_of(turn: usize) -> usize
    ensures { result ≤ 4096 }
{
    match turn {
        0 => 64,
        1 => 4096,
        2 => 1000,
        3 => 65,
        4 => 4088,
        5 => 1,
        6 => 200,
        _ => 1024,
    }
}

// As many bytes as any object has, of which each is the one of this device's object: no other has it, and it isn't 0.
fn bytes_of(device: usize, turn: usize) -> [u8; 4096] {
    [(device % 8 * 16 + turn % 16 + 1) as u8; 4096]
}

// Writes an object.
fn put<D: Device>(far: &mut D, told: &mut Told, device: usize, turn: usize)
    requires { turn < 8 }
{
    let bytes = bytes_of(device, turn);
    if far.write(turn as u32, &bytes[..len_of(turn)]).is_ok() {
        told.held[turn] = true;
    } else {
        told.refused = told.refused.saturating_add(1);
    }
}

// Reads an object, if it was written.
fn look<D: Device>(far: &mut D, told: &mut Told, device: usize, turn: usize)
    requires { turn < 8 }
{
    if !told.held[turn] {
        return;
    }
    let Ok(bytes) = far.read(turn as u32) else {
        told.failed = told.failed.saturating_add(1);
        return;
    };
    let wanted = bytes_of(device, turn);
    if bytes.as_slice() != &wanted[..len_of(turn)] {
        told.wrong = told.wrong.saturating_add(1);
    }
}

// Reads what a device was given up to a turn.
fn look_back<D: Device>(far: &mut D, told: &mut Told, device: usize, turn: usize)
    requires { turn < 8 }
{
    for before in 0..turn + 1 {
        look(far, told, device, before);
    }
}

// Each device writes an object.
fn write_all<D: Device>(devices: &mut [D], told: &mut [Told; DEVICES], turn: usize)
    requires { turn < 8 }
{
    for device in 0..DEVICES {
        if let Some(far) = devices.get_mut(device) {
            put(far, &mut told[device], device, turn);
        }
    }
}

// Each device reads all of its own.
fn read_all<D: Device>(devices: &mut [D], told: &mut [Told; DEVICES], turn: usize)
    requires { turn < 8 }
{
    for device in 0..DEVICES {
        if let Some(far) = devices.get_mut(device) {
            look_back(far, &mut told[device], device, turn);
        }
    }
}

// All turns.
fn play<D: Device>(devices: &mut [D]) -> [Told; DEVICES] {
    let mut told = [NOTHING; DEVICES];
    for turn in 0..TURNS {
        write_all(devices, &mut told, turn);
        read_all(devices, &mut told, turn);
    }
    told
}

// page
// Devices over a file.
fn over(alloc: Global, file: File) -> Option<Vec<Far>> {
    let shared = SharedFile::new(alloc, file).ok()?;
    let mut devices = Vec::new(alloc);
    for _ in 0..DEVICES {
        devices.push(shared.device::<Digest>(alloc).ok()?).ok()?;
    }
    Some(devices)
}
// end

// A file that has lost its name; `None`, and why is told, where there is none.
fn open(rt: &HostRuntime, name: &str, replaces: bool) -> Option<File> {
    let how = NewFile::new();
    let how = if replaces { how.replacing() } else { how };
    let file = match how.open(rt, name) {
        Ok(file) => file,
        Err(why) => {
            let _ = eprintln!(rt; "tells_file: {name}: {why}");
            return None;
        }
    };
    if let Err(why) = fs::remove_file(rt, name) {
        let _ = eprintln!(rt; "tells_file: {name} keeps its name: {why}");
        return None;
    }
    Some(file)
}

// The line of a device.
fn tell(rt: &HostRuntime, device: usize, told: &Told, why: Option<FileFault>) -> io::Result<()> {
    let Told {
        refused,
        failed,
        wrong,
        ..
    } = *told;
    print!(rt;
        "device {device}: {refused} writes refused, {failed} reads failed, {wrong} wrong, "
    )?;
    match why {
        Some(why) => println!(rt; "{why}"),
        None => println!(rt; "no fault"),
    }
}

// All lines.
fn tell_all(rt: &HostRuntime, devices: &[Far], told: &[Told; DEVICES]) -> io::Result<()> {
    for device in 0..DEVICES {
        if let Some(far) = devices.get(device) {
            tell(rt, device, &told[device], far.why())?;
        }
    }
    Ok(())
}

// What the program was called with.
fn words_of(rt: &HostRuntime) -> io::Result<Vec<String>> {
    let words: Vec<String> = env::args(rt)?.collect(rt.alloc())?;
    Ok(words)
}

fn main(rt: HostRuntime) -> ExitCode {
    let Ok(words) = words_of(&rt) else {
        return ExitCode::from(4);
    };
    let name = match words.get(1) {
        Some(name) => name.as_str(),
        None => NAME,
    };
    let Some(file) = open(&rt, name, words.len() == 3) else {
        return ExitCode::from(3);
    };
    let Some(mut devices) = over(rt.alloc(), file) else {
        return ExitCode::from(4);
    };
    let told = play(devices.as_mut_slice());
    match tell_all(&rt, devices.as_slice(), &told) {
        Ok(()) => ExitCode::SUCCESS,
        Err(_) => ExitCode::FAILURE,
    }
}
