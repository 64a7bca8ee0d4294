//! Handles as numbers.

ghost use Rattle.std.specs.Prelude.{◌≡◌};
ghost use Rattle.far_backed.specs.Named.{handle_of};

use far_pool::Handle;

// The handle of a number.
#[tactic(auto, using(crate::proofs::Numbers::named_is))]
pub(crate) fn named(number: u64) -> Handle
    ensures { result ≡ handle_of number }
{
    Handle::from_bits(number)
}

// The number of a handle.
#[tactic(auto, using(crate::proofs::Numbers::handle_is))]
pub(crate) fn number_of(handle: Handle) -> u64
    ensures { handle_of result ≡ handle }
{
    handle.to_bits()
}
