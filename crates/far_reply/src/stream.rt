//! Reading and writing through readers and writers that may fail at any call.
ghost use Rattle.std.specs.Prelude.{◌≡◌, ◌≤◌, [], length, take, IfOk, IfSome};
ghost use Rattle.std.specs.Vec.{vec_capacity, vec_len};
ghost use Rattle.far_reply.specs.Stream.{Writes};

use std::io;
use std::io::{Read, Write};

/// The writer answered an error, or took nothing.
#[derive(Clone, Copy)]
pub struct WriteFault;

// How far the buffer grows for one call of a reader.
const PIECE: usize = 65_536;

// How much of it is filled at once.
const STEP: usize = 1_920;

/// Lets a buffer grow to so many bytes, of memory that was taken before. It is filled a little at a time: below
/// 2,048 bytes libc's `memset` uses no `rep stosb`.
pub fn grow(buffer: &mut Vec<u8>, to: usize)
    requires taken { to ≤ vec_capacity buffer.old }
    requires more { vec_len buffer.old ≤ to }
    ensures len { vec_len buffer.new ≡ to }
    ensures capacity { vec_capacity buffer.old ≤ vec_capacity buffer.new }
    ensures bytes { take (vec_len buffer.old) buffer.new.items ≡ buffer.old.items }
{
    while buffer.len() < to {
        let len = buffer.len() + STEP.min(to - buffer.len());
        buffer.resize(len, 0).unwrap();
    }
}

/// Reads to the end, or until there are `most` bytes, into a buffer that was taken before. Each error of the reader is passed
/// on.
pub fn read_text<R: Read>(reader: &mut R, buffer: &mut Vec<u8>, most: usize) -> io::Result<()>
    requires empty { buffer.old.items ≡ [] }
    requires room { most ≤ vec_capacity buffer.old }
    ensures { IfOk result (λ _. IfSome (R.remaining reader.old) (λ text. buffer.new.items ≡ take most text)) }
{
    let mut len = 0;
    while len < most {
        grow(buffer, len + PIECE.min(most - len));
        let n = reader.read(&mut buffer[len..])?;
        if n == 0 {
            buffer.truncate(len);
            return Ok(());
        }
        len += n;
    }
    Ok(())
}

/// Writes all the bytes, in as many calls of the writer as it needs. Refused [`WriteFault`] at the first call that answers an error, or takes nothing; a
/// proper prefix of the bytes is written then.
pub fn write_whole<W: Write>(writer: &mut W, bytes: &[u8]) -> Result<(), WriteFault>
    ensures { Writes (W.contents writer.old) (W.contents writer.new) result bytes.now }
{
    let mut done = 0;
    while done < bytes.len() {
        match writer.write(&bytes[done..]) {
            Ok(n) if n > 0 => done += n,
            _ => return Err(WriteFault),
        }
    }
    Ok(())
}
