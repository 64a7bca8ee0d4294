//! What is known of a key.

ghost use Rattle.std.specs.Prelude.{◌≡◌, ◌≤◌, length};
ghost use Rattle.far_file.specs.Code.{len_of};
ghost use Rattle.far_file.specs.declared.place.TheConstants.{SLOT};

use crate::code::Code;
use crate::seal::Seal;
use std::snapshot::Snapshot;

/// How many bytes a key has, and in which slot; their seal, and for clauses alone which they are. A length above the largest slot's says that it has none.
#[derive(Drop)]
pub(crate) struct Held<L: Seal> {
    pub(crate) code: Code,
    pub(crate) seal: L,
    pub(crate) was: Snapshot<Vec<u8>>,
    ghost fits: { len_of code ≤ SLOT → length was.value.items ≡ len_of code },
    ghost sealed: { len_of code ≤ SLOT → L.Seal.kept seal ≡ L.Seal.digest was.value.items },
}
