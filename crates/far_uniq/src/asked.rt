//! What the arguments ask for.

use crate::told::Fault;
use std::env;
use std::io::{Error, ErrorKind};

/// Bytes of memory, if nothing is said.
const NEAR: u64 = 67_108_864;

#[derive(Drop)]
pub struct Asked {
    /// Bytes of memory.
    pub near: u64,
    /// Where the far file lies.
    pub folder: Option<String>,
    /// What ends a line.
    pub end: u8,
    /// Whether lines are printed at the end, with how often each came.
    pub counts: bool,
    /// Whether it says each second and at its end how much came.
    pub tells: bool,
    pub files: Vec<String>,
}

// What a word may be followed by.
enum Next {
    Any,
    Size,
    Folder,
    File,
}

pub fn read_words(rt: &HostRuntime) -> Result<Asked, Fault> {
    let words: Vec<String> = match env::args(rt) {
        Ok(words) => words.collect(rt.alloc()).map_err(|_| Fault::Memory)?,
        Err(e) => return Err(unread(&e)),
    };
    let mut asked = Asked {
        near: NEAR,
        folder: None,
        end: b'\n',
        counts: false,
        tells: false,
        files: Vec::new(rt.alloc()),
    };
    let mut next = Next::Any;
    for at in 1..words.len() {
        next = take_word(&mut asked, rt, next, words[at].as_str())?;
    }
    match next {
        Next::Size | Next::Folder => Err(Fault::Usage),
        Next::Any | Next::File => Ok(asked),
    }
}

// Why the words can't be had: they are no text, or there is no memory.
fn unread(why: &Error) -> Fault {
    if why.kind() == ErrorKind::OutOfMemory {
        Fault::Memory
    } else {
        Fault::Usage
    }
}

fn take_word(asked: &mut Asked, rt: &HostRuntime, next: Next, word: &str) -> Result<Next, Fault> {
    match next {
        Next::Any => option(asked, rt, word),
        Next::Size => {
            asked.near = size(word).ok_or(Fault::Usage)?;
            Ok(Next::Any)
        }
        Next::Folder => {
            if word.is_empty() {
                return Err(Fault::Usage);
            }
            asked.folder = Some(String::from_str(rt.alloc(), word).map_err(|_| Fault::Memory)?);
            Ok(Next::Any)
        }
        Next::File => file(asked, rt, word),
    }
}

fn option(asked: &mut Asked, rt: &HostRuntime, word: &str) -> Result<Next, Fault> {
    match word {
        "-m" => return Ok(Next::Size),
        "-d" => return Ok(Next::Folder),
        "--" => return Ok(Next::File),
        "-c" => asked.counts = true,
        "-s" => asked.tells = true,
        "-z" => asked.end = 0,
        "-" => return file(asked, rt, word),
        _ => {
            if word.starts_with("-") {
                return Err(Fault::Usage);
            }
            return file(asked, rt, word);
        }
    }
    Ok(Next::Any)
}

fn file(asked: &mut Asked, rt: &HostRuntime, word: &str) -> Result<Next, Fault> {
    let own = String::from_str(rt.alloc(), word).map_err(|_| Fault::Memory)?;
    asked.files.push(own).map_err(|_| Fault::Memory)?;
    Ok(Next::File)
}

/// Bytes: a number, and perhaps K, M or G for so many times 1,024.
fn size(word: &str) -> Option<u64> {
    let bytes = word.as_bytes();
    let mut all = 0u64;
    for at in 0..bytes.len() {
        let byte = bytes[at];
        if byte.is_ascii_digit() {
            all = all.checked_mul(10)?.checked_add((byte - b'0') as u64)?;
        } else if at > 0 && at + 1 == bytes.len() {
            return all.checked_mul(unit(byte)?);
        } else {
            return None;
        }
    }
    if bytes.is_empty() { None } else { Some(all) }
}

fn unit(byte: u8) -> Option<u64> {
    match byte {
        b'K' => Some(1024),
        b'M' => Some(1_048_576),
        b'G' => Some(1_073_741_824),
        _ => None,
    }
}
