//! The text of replies, in a buffer that was taken before.

ghost use Rattle.std.specs.Prelude.{◌≡◌, ◌++◌, ◌+◌, ◌*◌, ◌≤◌, ℕ, List, [], length, take, decimal, IfOk};
ghost use Rattle.hex.specs.Hex.{encode_lower};
ghost use Rattle.far_reply.specs.declared.output.TheConstants.Output.{CAPACITY};

use crate::stream::grow;
use itoa::Buffer;
use std::alloc::{AllocError, Global};
use std::marker::Model;

/// Text that grows within its buffer of [`Output::CAPACITY`] bytes. All of it is taken when it is made; after that it takes no memory.
#[derive(Drop)]
pub struct Output {
    buffer: Vec<u8>,
    len: usize,
}

impl Model for Output {
    ghost Value = { List ℕ };

    ghost view = { λ o. take o.len o.buffer.items };

    ghost invariant = { λ o. (length o.buffer.items ≡ CAPACITY) × (o.len ≤ CAPACITY) };
}

/// A vector of so many bytes.
pub fn zeros(alloc: Global, len: usize) -> Result<Vec<u8>, AllocError>
    ensures { IfOk result (λ v. length v.items ≡ len) }
{
    let mut buffer = Vec::with_capacity(alloc, len)?;
    grow(&mut buffer, len);
    Ok(buffer)
}

impl Output {
    /// The most bytes that the text has.
    pub const CAPACITY: usize = 65_536;

    /// An empty text. All its buffer is taken at once; `Err` if there is no memory for that.
    pub fn new(alloc: Global) -> Result<Output, AllocError>
        ensures { IfOk result (λ o. o ≡ []) }
    {
        Ok(Output {
            buffer: zeros(alloc, Output::CAPACITY)?,
            len: 0,
        })
    }

    /// Takes all text away.
    pub fn clear(&mut self)
        ensures { self.new ≡ [] }
    {
        self.len = 0;
    }

    /// How many bytes the text has.
    pub fn len(&self) -> usize
        ensures { result ≡ length self.now }
    {
        self.len
    }

    /// The text.
    pub fn as_slice(&self) -> &[u8]
        ensures { result.now ≡ self.now }
    {
        &self.buffer[..self.len]
    }

    /// Adds bytes to the text. There must be room for them.
    pub fn push(&mut self, bytes: &[u8])
        requires { length self.old + length bytes.now ≤ Self.CAPACITY }
        ensures { self.new ≡ self.old ++ bytes.now }
    {
        let end = self.len + bytes.len();
        self.buffer[self.len..end].copy_from_slice(bytes);
        self.len = end;
    }

    /// Adds a number in decimal. There must be room for 40 bytes.
    pub fn push_number(&mut self, n: u64)
        requires { length self.old + 40 ≤ Self.CAPACITY }
        ensures grown { self.new ≡ self.old ++ decimal n }
        ensures short { length self.new ≤ length self.old + 40 }
    {
        let mut buffer = Buffer::new();
        self.push(buffer.format(n).as_bytes());
    }

    /// Adds bytes in hex, two lower-case digits each. There must be room for the digits.
    pub fn push_hex(&mut self, bytes: &[u8])
        requires { length self.old + 2 * length bytes.now ≤ Self.CAPACITY }
        ensures grown { self.new ≡ self.old ++ encode_lower bytes.now }
        ensures long { length self.new ≡ length self.old + 2 * length bytes.now }
    {
        let end = self.len + 2 * bytes.len();
        hex::encode_to_slice(bytes, &mut self.buffer[self.len..end]).unwrap();
        self.len = end;
    }
}
