//! The devices over which it soaks.

use far_file::{FileDevice, NewFile};
use std::alloc::Global;
use std::fs;
use std::fs::{File, Files};

/// What has the bytes of far objects.
#[derive(Clone, Copy, PartialEq, Eq)]
pub enum FarSide {
    Memory,
    /// A file.
    Disk,
    /// Memory of which calls fail.
    Fails,
    /// Memory of which reads lie.
    Lies,
    /// Memory, where growth is refused at times.
    Scarce,
}

impl FarSide {
    /// The one of a word.
    pub fn by(word: &str) -> Option<FarSide> {
        match word {
            "memory" => Some(FarSide::Memory),
            "file" => Some(FarSide::Disk),
            "fails" => Some(FarSide::Fails),
            "lies" => Some(FarSide::Lies),
            "scarce" => Some(FarSide::Scarce),
            _ => None,
        }
    }
}

/// What a file is called until it is open.
const NAME: &str = "soak_far_private.far";

/// A device over a new file, which has lost its name. `None`, and why is told, where the file can't be made, or keeps its name.
pub fn on_disk<R: Files<File = File> + Eprint>(rt: &R, alloc: Global) -> Option<FileDevice<File>> {
    let file = match NewFile::new().open(rt, NAME) {
        Ok(file) => file,
        Err(why) => {
            let _ = eprintln!(rt; "soak_far_private: {NAME}: {why}");
            return None;
        }
    };
    if let Err(why) = fs::remove_file(rt, NAME) {
        let _ = eprintln!(rt; "soak_far_private: {NAME} keeps its name: {why}");
        return None;
    }
    Some(FileDevice::<File>::new(alloc, file))
}
