//! What can be a record.

ghost use Rattle.std.specs.Prelude.{◌≡◌, ℕ, List, length};

use byteorder::{ByteOrder, LittleEndian};

/// A value that is written as `SIZE` bytes, and read back from them.
pub trait Record {
    ghost SIZE: { ℕ };

    /// How many bytes it has. An array takes 1 to 4,088.
    const SIZE: usize;

    /// What bytes are read as. A far side that lies may give any bytes, so any have a value.
    ghost decoded: { List ℕ → Self };

    /// Writes the value's bytes: they are read as the value.
    fn encode(&self, out: &mut [u8])
        requires { length out.old ≡ SIZE }
        ensures { decoded out.new ≡ self.now };

    /// Reads a value.
    fn decode(bytes: &[u8]) -> Self
        requires { length bytes.now ≡ SIZE }
        ensures { result ≡ decoded bytes.now };
}

/// Its bytes, the lowest first.
impl Record for u64 {
    ghost use Rattle.byteorder.specs.Endian.{little_number};

    ghost SIZE = { 8 };

    const SIZE: usize = 8;

    ghost decoded = { λ bytes. little_number 8 bytes };

    fn encode(&self, out: &mut [u8]) {
        LittleEndian::write_u64(out, *self);
    }

    fn decode(bytes: &[u8]) -> u64 {
        LittleEndian::read_u64(bytes)
    }
}

/// Its bytes, the lowest first.
impl Record for u32 {
    ghost use Rattle.byteorder.specs.Endian.{little_number};

    ghost SIZE = { 4 };

    const SIZE: usize = 4;

    ghost decoded = { λ bytes. little_number 4 bytes };

    fn encode(&self, out: &mut [u8]) {
        LittleEndian::write_u32(out, *self);
    }

    fn decode(bytes: &[u8]) -> u32 {
        LittleEndian::read_u32(bytes)
    }
}

/// Its bytes, the lowest first.
impl Record for u16 {
    ghost use Rattle.byteorder.specs.Endian.{little_number};

    ghost SIZE = { 2 };

    const SIZE: usize = 2;

    ghost decoded = { λ bytes. little_number 2 bytes };

    fn encode(&self, out: &mut [u8]) {
        LittleEndian::write_u16(out, *self);
    }

    fn decode(bytes: &[u8]) -> u16 {
        LittleEndian::read_u16(bytes)
    }
}

/// Its byte.
impl Record for u8 {
    ghost use Rattle.std.specs.Prelude.{slice_index};

    ghost SIZE = { 1 };

    const SIZE: usize = 1;

    ghost decoded = { λ bytes. slice_index bytes 0 };

    fn encode(&self, out: &mut [u8]) {
        out[0] = *self;
    }

    fn decode(bytes: &[u8]) -> u8 {
        bytes[0]
    }
}

/// Its bits, as a u64's.
impl Record for i64 {
    ghost use Rattle.std.specs.Int.{cast_signed, w64};
    ghost use Rattle.byteorder.specs.Endian.{little_number};

    ghost SIZE = { 8 };

    const SIZE: usize = 8;

    ghost decoded = { λ bytes. cast_signed w64 (little_number 8 bytes) };

    fn encode(&self, out: &mut [u8]) {
        LittleEndian::write_i64(out, *self);
    }

    fn decode(bytes: &[u8]) -> i64 {
        LittleEndian::read_i64(bytes)
    }
}

/// The bytes as they are.
impl<const N: usize> Record for [u8; N] {
    ghost SIZE = { N };

    const SIZE: usize = N;

    ghost decoded = { λ bytes. bytes };

    fn encode(&self, out: &mut [u8]) {
        out.copy_from_slice(self);
    }

    fn decode(bytes: &[u8]) -> [u8; N] {
        let mut out = [0u8; N];
        out.copy_from_slice(bytes);
        out
    }
}
