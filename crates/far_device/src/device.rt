//! What may be counted on of a far side.

ghost use Rattle.std.specs.Prelude.{◌≡◌, ◌≢◌, ◌⊎◌, ◌^◌, ◌<◌, ◌≤◌, ℕ, Bool, true, false, List, Option, Some, None, IsSome, Result, Err, IfOk, IfSome, OnOk, length};
ghost use Rattle.std.specs.Vec.{vec_capacity};
ghost use Rattle.far_device.specs.Calls.{given, given_in};
ghost use Rattle.far_device.specs.Faults.{is_fault};
ghost use Rattle.far_device.specs.Following.{Follows, any_key, other_than};
ghost use Rattle.far_device.specs.declared.fault.DeviceFault.{DeviceFault};
ghost use Rattle.far_device.specs.declared.fault.DeviceFault.TheVariants.{Memory};

use crate::fault::DeviceFault;

/// A far side: bytes under keys. No clause says that a call succeeds; what is said holds of devices that fail and of devices
/// that lie.
pub trait Device {
    /// What the device holds: the bytes under each key, `None` where it holds none.
    ghost contents: { Self → ℕ → Option (List ℕ) };

    /// Whether what is read is what is stored. No call changes it.
    ghost honest: { Self → Bool };

    /// How many calls have answered [`DeviceFault::Device`]. It may wrap.
    ghost faults: { Self → ℕ };

    /// Each call of `forget` takes the key away. Of a device of which this isn't so it may also do nothing.
    ghost forgets: { Type 0 };

    /// A read into a buffer that has room for the bytes under the key takes no memory. Of a device of which this isn't so it may take
    /// some.
    ghost reads_in_place: { Type 0 };

    /// No more calls than so many will answer [`DeviceFault::Device`], as long as no key is read under which nothing is.
    ghost fails_at_most: { Self → ℕ → Type 0 };

    /// One write: the device before, a key, the bytes, the answer, and the device after. A caller who says so of two states has
    /// made that call, and no other between them.
    ghost writes: { Self → ℕ → List ℕ → Result (Unit {0}) DeviceFault → Self → Type 0 };

    /// One read: the device before, a key, the bytes that it gave or its fault, and the device after.
    ghost reads: { Self → ℕ → Result (List ℕ) DeviceFault → Self → Type 0 };

    /// One call of `forget`: the device before, a key, and the device after.
    ghost lets_go: { Self → ℕ → Self → Type 0 };

    /// Holds these bytes under the key, in place of what was there. After an error all other keys are as before, and
    /// under this one anything may be.
    fn write(&mut self, id: u32, bytes: &[u8]) -> Result<(), DeviceFault>
        ensures called { writes self.old id bytes.now result self.new }
        ensures set { OnOk result (contents self.new id ≡ Some bytes.now) };

    /// The bytes under the key; of a device that isn't honest any bytes, of any length. Of a key under which nothing is
    /// the answer is left open. The contents stay.
    fn read(&mut self, id: u32) -> Result<Vec<u8>, DeviceFault>
        ensures called { reads self.old id (given result) self.new }
        ensures given { honest self.old ≡ true → IfOk result (λ bytes. IfSome (contents self.old id) (λ stored. bytes.items ≡ stored)) }
        ensures kept { contents self.new ≡ contents self.old };

    /// One read, as [`Device::read`], whose bytes are put into a buffer in place of what it has. After an error it may have any bytes.
    /// It never has less room than before.
    fn read_into(&mut self, id: u32, buffer: &mut Vec<u8>) -> Result<(), DeviceFault>
        ensures called { reads self.old id (given_in result buffer.new.items) self.new }
        ensures given { honest self.old ≡ true → OnOk result (IfSome (contents self.old id) (λ stored. buffer.new.items ≡ stored)) }
        ensures kept { contents self.new ≡ contents self.old }
        ensures room { vec_capacity buffer.old ≤ vec_capacity buffer.new }
        ensures in_place { reads_in_place → IfSome (contents self.old id) (λ stored. length stored ≤ vec_capacity buffer.old → result ≢ Err Memory) };

    /// Takes the key away, with what is under it, or leaves all as it was.
    fn forget(&mut self, id: u32)
        ensures called { lets_go self.old id self.new }
        ensures gone { forgets → contents self.new id ≡ None }
        ensures left { (contents self.new id ≡ None) ⊎ (contents self.new id ≡ contents self.old id) };

    /// How many calls have answered [`DeviceFault::Device`], modulo 2^64.
    fn faults(&self) -> u64
        ensures { result ≡ faults self.now };

    /// The count has 64 bits.
    ghost wraps: { (s : Self) → faults s < 2 ^ 64 };

    /// A write leaves all other keys alone.
    ghost write_follows: { (s : Self) (id : ℕ) (bytes : List ℕ) (answer : Result (Unit {0}) DeviceFault) (t : Self) → writes s id bytes answer t →
        Follows contents honest faults fails_at_most (other_than id) (is_fault answer) s t };

    /// A read leaves every key alone. What may yet fail is said where something is under the key.
    ghost read_follows: { (s : Self) (id : ℕ) (answer : Result (List ℕ) DeviceFault) (t : Self) → reads s id answer t →
        Follows contents honest faults (λ d n. IsSome (contents s id) × fails_at_most d n) any_key (is_fault answer) s t };

    /// A call of `forget` leaves all other keys alone, and is no fault.
    ghost forget_follows: { (s : Self) (id : ℕ) (t : Self) → lets_go s id t →
        Follows contents honest faults fails_at_most (other_than id) false s t };
}
