//! The output and the input.

ghost use Rattle.std.specs.Prelude.{◌≡◌, ◌<◌, ◌≤◌, ℕ, [], IfErr, IfOk, OnOk, OnErr, length, take};
ghost use Rattle.std.specs.Io.KnownBytes.{Appends, ReadConsumes, WriteAppends};
ghost use Rattle.far_firsts.specs.Lines.{IsPlain};
ghost use Rattle.far_firsts.specs.Causes.{Refuses};
ghost use Rattle.far_firsts.specs.Doing.{Halted, Wrote, known_of, state};

use crate::bytes::take_bytes;
use crate::end::Why;
use crate::midst::Midst;
use far_objects::Objects;
use far_seen::Seen;
use std::io;
use std::io::{Error, ErrorKind, Read, Write};

/// Reads once; again only where the system was interrupted.
pub fn read_some<R: Read>(input: &mut R, out: &mut [u8]) -> io::Result<usize>
    ensures within { IfOk result (λ n. n ≤ length out.new) }
    ensures long { length out.new ≡ length out.old }
    ensures bytes { ReadConsumes (R.remaining input.old) (R.remaining input.new) result out.new }
{
    'tries: for _ in 0..u64::MAX {
        match input.read(out) {
            Ok(n) => return Ok(n),
            Err(e) => {
                if e.kind() != ErrorKind::Interrupted {
                    return Err(e);
                }
            }
        }
    }
    Err(Error::from(ErrorKind::Interrupted))
}

/// Writes once, some of it; again only where the system was interrupted.
fn write_some<W: Write>(output: &mut W, bytes: &[u8]) -> io::Result<usize>
    ensures some { IfOk result (λ n. 0 < n) }
    ensures within { IfOk result (λ n. n ≤ length bytes.now) }
    ensures bytes { WriteAppends (W.contents output.old) (W.contents output.new) result bytes.now }
{
    'tries: for _ in 0..u64::MAX {
        match output.write(bytes) {
            Ok(n) => {
                if n == 0 {
                    return Err(Error::from(ErrorKind::WriteZero));
                }
                return Ok(n);
            }
            Err(e) => {
                if e.kind() != ErrorKind::Interrupted {
                    return Err(e);
                }
            }
        }
    }
    Err(Error::from(ErrorKind::Interrupted))
}

/// Writes all of it and flushes, or writes a part.
pub fn write_out<W: Write>(output: &mut W, bytes: &[u8]) -> io::Result<()>
    ensures all { OnOk result (Appends (W.contents output.old) (W.contents output.new) bytes.now) }
    ensures part { OnErr result ((k : ℕ) × Appends (W.contents output.old) (W.contents output.new) (take k bytes.now)) }
{
    let mut done = 0;
    while done < bytes.len() {
        match write_some(output, &bytes[done..]) {
            Ok(n) => done += n,
            Err(e) => return Err(e),
        }
    }
    output.flush()
}

/// Writes what is to be written. It is to be so no more.
pub fn let_out<W: Write>(output: &mut W, out: &mut Vec<u8>) -> io::Result<()>
    ensures empty { out.new.items ≡ [] }
    ensures all { OnOk result (Appends (W.contents output.old) (W.contents output.new) out.old.items) }
    ensures part { OnErr result ((k : ℕ) × Appends (W.contents output.old) (W.contents output.new) (take k out.old.items)) }
{
    if out.is_empty() {
        return Ok(());
    }
    let written = write_out(output, out.as_slice());
    out.clear();
    written
}

/// Takes the lines that end in these bytes, and writes those that are the first of their kind.
pub fn work<O: Objects + Drop, W: Write>(
    seen: &mut Seen<O>,
    end: u8,
    longest: usize,
    bytes: &[u8],
    midst: &mut Midst,
    output: &mut W,
) -> Result<(), Why>
    requires plain { IsPlain end midst.old.part.items }
    requires empty { midst.old.out.items ≡ [] }
    ensures honest { seen.new.honest ≡ seen.old.honest }
    ensures plain { OnOk result (IsPlain end midst.new.part.items) }
    ensures empty { midst.new.out.items ≡ [] }
    ensures wrote { OnOk result (Wrote seen.old.honest end bytes.now (state (known_of end seen.old) midst.old.part.items midst.old.count) (state (known_of end seen.new) midst.new.part.items midst.new.count) (W.contents output.old) (W.contents output.new)) }
    ensures halted { IfErr result (λ why. Halted longest (Refuses O.unmade O.unreached seen.old.honest) seen.old.honest end bytes.now (state (known_of end seen.old) midst.old.part.items midst.old.count) midst.new.count why (W.contents output.old) (W.contents output.new)) }
{
    let taken = take_bytes(seen, end, longest, bytes, midst);
    match let_out(output, &mut midst.out) {
        Ok(()) => taken,
        Err(e) => Err(Why::Output(e)),
    }
}
