//! Where far bytes go.

ghost use Rattle.std.specs.Prelude.{◌≡◌, Bool, true, IfOk, IfErr};
ghost use Rattle.far_word.specs.declared.refused.Refused.{Refused as Refusal};

use far_device::Device;
use far_word::Refused;

/// Makes the device of each heap.
pub trait MakeDevice<D: Device + Drop> {
    /// Whether the devices are honest.
    ghost honest: { Bool };

    /// By which causes it may refuse.
    ghost refuses: { Refusal → Type 0 };

    /// The device of a heap, by its number, 0 for the first: an honest one where all are. By which cause it refuses, the worker does.
    fn make(&mut self, heap: u32) -> Result<D, Refused>
        ensures honest { honest ≡ true → IfOk result (λ device. D.honest device ≡ true) }
        ensures refused { IfErr result refuses };
}
