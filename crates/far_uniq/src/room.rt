//! What the memory is given to, and the far file.

ghost use Rattle.std.specs.Prelude.{◌≤◌, ◌+◌};
ghost use Rattle.far_uniq.specs.declared.room.TheConstants.{COUNT, LEAST, LINE};

use crate::asked::Asked;
use crate::told::Fault;
use far_file::NewFile;
use far_pool::{Layout, Plan};
use std::env::VarError;
use std::fs::File;
use std::io::{Error, ErrorKind};
use std::{env, fs};

/// Bytes beside objects, index and heaps: what is read and written at once, and the program itself.
const BESIDE: u64 = 3_145_728;

/// How many lines of up to 511 bytes lie in one object; of longer ones fewer do.
const TOGETHER: u64 = 8;

/// Bytes near that a line takes, wherever it lies: 12 of the index, and an eighth of what its object takes, 24 of its heap and 40 of where lines
/// lie in it.
const LINE: u64 = 20;

/// And those that it takes where lines are counted: 4 for what stands for it, 8 for its count.
const COUNT: u64 = 12;

/// Bytes for lines that lie near, for each line that there may be.
const LOGS: u64 = 12;

/// How many lines a heap has at most.
const HEAP: u64 = 2_048 * TOGETHER;

/// The least memory: for one heap, and the line that is read.
const LEAST: u64 = (BESIDE + HEAP * (LINE + LOGS)) * 32 / 31 + 1;

/// The same where lines are counted.
const LEAST_COUNTED: u64 = (BESIDE + HEAP * (LINE + COUNT + LOGS)) * 32 / 31 + 1;

#[derive(Drop)]
pub struct Room {
    pub layout: Layout,
    /// How many different lines there may be.
    pub lines: usize,
    /// In how many far objects they may lie.
    pub blocks: usize,
    /// How many bytes a line may have.
    pub longest: usize,
}

/// A 32nd of the memory is for the line that is read, and what is written of it. The rest is for what each line takes, and for lines that lie
/// near.
pub fn room_in(near: u64, counts: bool) -> Result<Room, Fault> {
    if counts {
        room_for(near, LINE + COUNT, LEAST_COUNTED)
    } else {
        room_for(near, LINE, LEAST)
    }
}

// The same, by how much a line takes, and the least memory then.
fn room_for(near: u64, line: u64, least: u64) -> Result<Room, Fault>
    requires line { line ≤ LINE + COUNT }
    requires least { LEAST ≤ least }
{
    if near < least {
        return Err(Fault::Small(least));
    }
    let longest = near / 64;
    let shared = near - BESIDE - 2 * longest;
    let lines = shared / (line + LOGS) / HEAP * HEAP;
    let plan = Plan {
        near: shared - lines * line,
        objects: lines / TOGETHER,
        typical: 512,
    };
    match plan.lay_out() {
        Ok(layout) => Ok(Room {
            layout,
            lines: lines as usize,
            blocks: (lines / TOGETHER) as usize,
            longest: longest as usize,
        }),
        Err(_) => Err(Fault::Large),
    }
}

// TMPDIR, if it has a name, else the current folder. One that is no text, or can't be had, isn't passed over.
fn temporary(rt: &HostRuntime) -> Result<String, Fault> {
    match env::var(rt, "TMPDIR") {
        Ok(folder) => {
            if !folder.is_empty() {
                return Ok(folder);
            }
        }
        Err(VarError::NotPresent) => {}
        Err(VarError::NotUnicode) => {
            return Err(Fault::File(Error::from(ErrorKind::InvalidInput)));
        }
        Err(VarError::OutOfMemory) => return Err(Fault::Memory),
    }
    String::from_str(rt.alloc(), ".").map_err(|_| Fault::Memory)
}

/// A new file, which nobody else may read; its name is taken away at once, or it isn't used.
pub fn open_far(rt: &HostRuntime, words: &Asked, seed: &[u8; 16]) -> Result<File, Fault> {
    let folder = match &words.folder {
        Some(folder) => String::from_str(rt.alloc(), folder.as_str()).map_err(|_| Fault::Memory)?,
        None => temporary(rt)?,
    };
    let name = format!(in rt.alloc(); "{folder}/far_uniq.{:016x}", word(seed)).map_err(
        |_| Fault::Memory,
    )?;
    match NewFile::new().open(rt, name.as_str()) {
        Ok(file) => {
            fs::remove_file(rt, name.as_str()).map_err(Fault::File)?;
            Ok(file)
        }
        Err(why) => Err(Fault::File(why)),
    }
}

// A number that nobody can guess who doesn't know the seed, and that doesn't tell it.
fn word(seed: &[u8; 16]) -> u64 {
    let mut all = 0u64;
    for byte in seed {
        all = all
            .wrapping_mul(1_099_511_628_211)
            .wrapping_add(*byte as u64);
    }
    all
}
