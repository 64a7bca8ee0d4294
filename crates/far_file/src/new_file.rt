//! How the file of a device is made.

ghost use Rattle.std.specs.Prelude.{◌≡◌, true, false, not};
ghost use Rattle.std.specs.Fs.{asks_read, asks_write, asks_append, asks_truncate, asks_create, asks_create_new};

use std::fs::{File, Files, OpenOptions};
use std::io;
use std::io::ErrorKind;
use std::os::fd::AsRawFd;
use std::os::unix::fs::OpenOptionsExt;
use std::path::AsPath;

/// The descriptors up to this one are standard input, output and errors.
const LAST_STREAM: i32 = 2;

/// How the file of a device is made: an empty one, read and written.
#[derive(Clone, Copy, Debug, PartialEq, Eq)]
pub struct NewFile {
    pub(crate) replaces: bool,
}

impl NewFile {
    /// A file that isn't there yet. If one has the name, it stays as it is, and the call that opens is refused `AlreadyExists`.
    pub fn new() -> NewFile
        ensures { result.replaces ≡ false }
    {
        NewFile { replaces: false }
    }

    /// If a file has the name, it is emptied and used: what it had is lost.
    pub fn replacing(self) -> NewFile
        ensures { result.replaces ≡ true }
    {
        NewFile { replaces: true }
    }

    /// Makes the file and opens it, for its owner alone: nobody else may read it, unless it was there before. Nobody else may use it while the device does, and it
    /// isn't taken away afterwards. Where standard input, output or errors are closed, it doesn't stand for them. Refused `InvalidInput` for what isn't a file, as a pipe
    /// or a device; else with the system's own error: `AlreadyExists`, `IsADirectory`, `NotFound`, `PermissionDenied`, `ReadOnlyFilesystem` and others.
    pub fn open<R: Files<File = File>, P: AsPath>(self, files: &R, path: P) -> io::Result<File> {
        let file = self.options().open(files, path)?;
        if !file.metadata()?.is_file() {
            let why = "what has the name is no file of bytes at positions";
            return Err(io::Error::new(ErrorKind::InvalidInput, why));
        }
        if file.as_raw_fd() > LAST_STREAM {
            return Ok(file);
        }
        // What is printed would go into it. Another descriptor of it is above these.
        file.try_clone()
    }

    // What the system is asked for.
    fn options(self) -> OpenOptions
        ensures read { asks_read result ≡ true }
        ensures write { asks_write result ≡ true }
        ensures append { asks_append result ≡ false }
        ensures empty { asks_truncate result ≡ self.replaces }
        ensures create { asks_create result ≡ self.replaces }
        ensures create_new { asks_create_new result ≡ not self.replaces }
    {
        let mut options = OpenOptions::new();
        // No contract says what `mode` leaves as it is, so all else is set after it.
        options.mode(0o600);
        options.append(false);
        options.read(true);
        options.write(true);
        options.truncate(self.replaces);
        options.create(self.replaces);
        options.create_new(!self.replaces);
        options
    }
}
