// An object's bytes as integers, and as records of a fixed layout.
ghost use Rattle.std.specs.Prelude.{◌≡◌, ◌≤◌, ℕ, List};
ghost use Rattle.far_heap.specs.Values.{ReadsAs, WritesAs};
ghost use Rattle.far_word.specs.declared.sizes.TheConstants.{LONGEST};

use crate::name::HeapName;
use crate::scope::Scope;
use crate::view::View;
use byteorder::ByteOrder;
use far_device::Device;
use far_word::Refused;

/// A value that is kept in an object as `N` bytes, at most 4,088, and comes back from them.
pub trait FixedRecord<const N: usize> {
    /// The bytes that a value is kept as.
    ghost bytes_of: { Self → List ℕ };

    /// The value that bytes are read as.
    ghost value_of: { List ℕ → Self };

    /// The bytes of this value; read again, they are the value.
    fn to_bytes(self) -> [u8; N]
        ensures bytes { result ≡ bytes_of self }
        ensures back { value_of (bytes_of self) ≡ self };

    /// The value that these bytes are read as.
    fn from_bytes(bytes: &[u8; N]) -> Self
        ensures { result ≡ value_of bytes.now };

    /// No object is longer.
    ghost short: { N ≤ LONGEST };
}

impl<K: HeapName, D: Device + Drop> Scope<K, D> {
    // Reads so many bytes.
    #[inline(always)]
    fn read_array<const N: usize>(&mut self, view: &View, from: u16) -> Result<[u8; N], Refused>
        ensures same { self.new ≡ self.old }
        ensures read { ReadsAs (λ bytes. bytes) N self.old view.now.pointer from result }
    {
        let mut bytes = [0; N];
        match self.read(view, from, &mut bytes) {
            Ok(()) => Ok(bytes),
            Err(why) => Err(why),
        }
    }

    /// The integer of 16 bits whose bytes, in the order `B`, stand in an object from byte `from` on. Refused as [`Scope::read`] of two bytes is.
    #[inline(always)]
    pub fn read_u16<B: ByteOrder>(&mut self, view: &View, from: u16) -> Result<u16, Refused>
        ensures same { self.new ≡ self.old }
        ensures read { ReadsAs (B.number_of 2) 2 self.old view.now.pointer from result }
    {
        match self.read_array::<2>(view, from) {
            Ok(bytes) => Ok(B::read_u16(&bytes)),
            Err(why) => Err(why),
        }
    }

    /// The integer of 32 bits, as [`Scope::read_u16`]. Refused as [`Scope::read`] of four bytes is.
    #[inline(always)]
    pub fn read_u32<B: ByteOrder>(&mut self, view: &View, from: u16) -> Result<u32, Refused>
        ensures same { self.new ≡ self.old }
        ensures read { ReadsAs (B.number_of 4) 4 self.old view.now.pointer from result }
    {
        match self.read_array::<4>(view, from) {
            Ok(bytes) => Ok(B::read_u32(&bytes)),
            Err(why) => Err(why),
        }
    }

    /// The integer of 64 bits, as [`Scope::read_u16`]. Refused as [`Scope::read`] of eight bytes is.
    #[inline(always)]
    pub fn read_u64<B: ByteOrder>(&mut self, view: &View, from: u16) -> Result<u64, Refused>
        ensures same { self.new ≡ self.old }
        ensures read { ReadsAs (B.number_of 8) 8 self.old view.now.pointer from result }
    {
        match self.read_array::<8>(view, from) {
            Ok(bytes) => Ok(B::read_u64(&bytes)),
            Err(why) => Err(why),
        }
    }

    /// The value of a record whose bytes stand in an object from byte `from` on. Refused as [`Scope::read`] of `N` bytes is.
    #[inline(always)]
    pub fn read_record<const N: usize, V: FixedRecord<N>>(
        &mut self,
        view: &View,
        from: u16,
    ) -> Result<V, Refused>
        ensures same { self.new ≡ self.old }
        ensures read { ReadsAs V.value_of N self.old view.now.pointer from result }
    {
        match self.read_array::<N>(view, from) {
            Ok(bytes) => Ok(V::from_bytes(&bytes)),
            Err(why) => Err(why),
        }
    }

    /// Writes an integer of 16 bits, its bytes in the order `B`, over those of an object from byte `from` on. Refused as [`Scope::write`] of two bytes is.
    #[inline(always)]
    pub fn write_u16<B: ByteOrder>(
        &mut self,
        view: &View,
        from: u16,
        value: u16,
    ) -> Result<(), Refused>
        ensures { WritesAs (B.bytes_of 2 value) 2 self.old view.now.pointer from result self.new }
    {
        let mut bytes = [0; 2];
        B::write_u16(&mut bytes, value);
        self.write(view, from, &bytes)
    }

    /// Writes an integer of 32 bits, as [`Scope::write_u16`]. Refused as [`Scope::write`] of four bytes is.
    #[inline(always)]
    pub fn write_u32<B: ByteOrder>(
        &mut self,
        view: &View,
        from: u16,
        value: u32,
    ) -> Result<(), Refused>
        ensures { WritesAs (B.bytes_of 4 value) 4 self.old view.now.pointer from result self.new }
    {
        let mut bytes = [0; 4];
        B::write_u32(&mut bytes, value);
        self.write(view, from, &bytes)
    }

    /// Writes an integer of 64 bits, as [`Scope::write_u16`]. Refused as [`Scope::write`] of eight bytes is.
    #[inline(always)]
    pub fn write_u64<B: ByteOrder>(
        &mut self,
        view: &View,
        from: u16,
        value: u64,
    ) -> Result<(), Refused>
        ensures { WritesAs (B.bytes_of 8 value) 8 self.old view.now.pointer from result self.new }
    {
        let mut bytes = [0; 8];
        B::write_u64(&mut bytes, value);
        self.write(view, from, &bytes)
    }

    /// Writes a record's bytes over those of an object from byte `from` on; read again, they are the record. Refused as [`Scope::write`] of `N` bytes is.
    #[inline(always)]
    pub fn write_record<const N: usize, V: FixedRecord<N>>(
        &mut self,
        view: &View,
        from: u16,
        value: V,
    ) -> Result<(), Refused>
        ensures written { WritesAs (V.bytes_of value) N self.old view.now.pointer from result self.new }
        ensures back { V.value_of (V.bytes_of value) ≡ value }
    {
        self.write(view, from, &value.to_bytes())
    }
}
