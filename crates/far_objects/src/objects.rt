//! The trait.

ghost use Rattle.std.specs.Prelude.{◌≡◌, ◌+◌, ◌≤◌, ℕ, Bool, true, false, Some, None, Err, IfOk, IfErr, OnOk, OnErr, IfSome, length, replicate, take, drop};
ghost use Rattle.far_word.specs.declared.refused.Refused.{Refused as Refusal};
ghost use Rattle.far_word.specs.declared.refused.Refused.TheVariants.{Length, NotHeld};
ghost use Rattle.far_objects.specs.Far.{Drops, Far, IsWhyUnmade, IsWhyUnreached, Known, Makes, Writes, barred, is_length};

use far_word::Refused;

/// How many bytes an object may have.
pub const MOST: usize = 4_088;

/// Far objects by number. Each call may be refused, and then leaves all objects as they were. What is said holds where the far side
/// lies too, but for bytes.
///
/// Who is written over any `O: Objects` knows its causes of refusal only from a call that was refused so: a clause that says
/// `unreached honest why` says that such a call was.
pub trait Objects {
    /// The objects.
    ghost far: { Self → Far };

    /// Why no object is made, though its length is one.
    ghost unmade: { Refusal → Type 0 };

    /// Why an object that there is isn't reached, by whether the far side is honest.
    ghost unreached: { Bool → Refusal → Type 0 };

    /// Makes an object of these bytes, and answers its number, which none had.
    ///
    /// Refused, in this order: [`Refused::Length`] exactly where they aren't 1 to 4,088, and then as `unmade` says.
    fn alloc(&mut self, bytes: &[u8]) -> Result<u32, Refused>
        ensures made { IfOk result (λ h. Makes h bytes.now (far self.old) (far self.new)) }
        ensures done { OnOk result (is_length (length bytes.now) ≡ true) }
        ensures refused { OnErr result (far self.new ≡ far self.old) }
        ensures long { is_length (length bytes.now) ≡ false → result ≡ Err Length }
        ensures why { IfErr result (λ why. IsWhyUnmade unmade (length bytes.now) why) };

    /// The same of so many zeros.
    fn alloc_zeros(&mut self, len: usize) -> Result<u32, Refused>
        ensures made { IfOk result (λ h. Makes h (replicate len 0) (far self.old) (far self.new)) }
        ensures done { OnOk result (is_length len ≡ true) }
        ensures refused { OnErr result (far self.new ≡ far self.old) }
        ensures long { is_length len ≡ false → result ≡ Err Length }
        ensures why { IfErr result (λ why. IsWhyUnmade unmade len why) };

    /// How many bytes an object has; `None` exactly where there is none. Nothing is fetched.
    fn len_of(&self, number: u32) -> Option<usize>
        ensures { result ≡ (far self.now).sizes number };

    /// Reads bytes of an object, from one on, as many as `out` has.
    ///
    /// Refused, in this order: [`Refused::NotHeld`] exactly where there is no object, [`Refused::Range`] exactly where `out` has no byte or
    /// they pass its end, and then as `unreached` says. `out` is as it was then.
    fn read(&mut self, number: u32, from: usize, out: &mut [u8]) -> Result<(), Refused>
        ensures same { far self.new ≡ far self.old }
        ensures long { length out.new ≡ length out.old }
        ensures read { OnOk result (IfSome ((far self.old).bytes number) (λ bytes. out.new ≡ take (length out.old) (drop from bytes))) }
        ensures done { OnOk result (barred ((far self.old).sizes number) from (length out.old) ≡ None) }
        ensures barred { (why : Refusal) → barred ((far self.old).sizes number) from (length out.old) ≡ Some why → result ≡ Err why }
        ensures why { IfErr result (λ why. IsWhyUnreached unreached (far self.old).honest (barred ((far self.old).sizes number) from (length out.old)) why) }
        ensures kept { OnErr result (out.new ≡ out.old) };

    /// Writes bytes over those of an object, from one on. Refused as [`Objects::read`] is.
    fn write(&mut self, number: u32, from: usize, bytes: &[u8]) -> Result<(), Refused>
        ensures written { OnOk result (Writes number from bytes.now (far self.old) (far self.new)) }
        ensures done { OnOk result (barred ((far self.old).sizes number) from (length bytes.now) ≡ None) }
        ensures refused { OnErr result (far self.new ≡ far self.old) }
        ensures barred { (why : Refusal) → barred ((far self.old).sizes number) from (length bytes.now) ≡ Some why → result ≡ Err why }
        ensures why { IfErr result (λ why. IsWhyUnreached unreached (far self.old).honest (barred ((far self.old).sizes number) from (length bytes.now)) why) };

    /// Drops an object: there is none of its number then. Refused [`Refused::NotHeld`] alone, exactly where there was none.
    fn drop_object(&mut self, number: u32) -> Result<(), Refused>
        ensures dropped { OnOk result (Drops number (far self.old) (far self.new)) }
        ensures refused { IfErr result (λ why. (why ≡ NotHeld) × ((far self.old).sizes number ≡ None) × (far self.new ≡ far self.old)) };

    /// An object has 1 to 4,088 bytes, which are known where the far side is honest.
    ghost known: { (s : Self) → Known (far s) };
}
