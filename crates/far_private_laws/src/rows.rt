//! Each function makes a call, and ensures its row, or that it was refused; an update has two.

ghost use Rattle.std.specs.Prelude.{◌≡◌, ℕ, List, [], ◌∷◌, IfOk, OnErr, OnOk, length};
ghost use Rattle.std.specs.Fn.{FnOnceTakesAtMut};
ghost use Rattle.far_private.specs.HeapLaws.{Called, Calls, Drops, Makes, MakesWith, Reads, Refuses, Rounds, Writes};

use far_device::Device;
use far_policy::Policy;
use far_private::PrivateHeap;
use far_word::Refused;

/// [`PrivateHeap::alloc`].
pub fn makes<D: Device + Drop>(
    heap: &mut PrivateHeap<D>,
    len: u16,
    structure: u8,
) -> Result<u16, Refused>
    ensures row { IfOk result (λ p. Calls (Makes p len structure) heap.old heap.new) }
    ensures refused { OnErr result (Calls Refuses heap.old heap.new) }
{
    heap.alloc(len, structure)
}

/// [`PrivateHeap::alloc_with`].
pub fn makes_with<D: Device + Drop>(
    heap: &mut PrivateHeap<D>,
    bytes: &[u8],
    structure: u8,
) -> Result<u16, Refused>
    ensures row { IfOk result (λ p. Calls (MakesWith p structure bytes.now) heap.old heap.new) }
    ensures refused { OnErr result (Calls Refuses heap.old heap.new) }
{
    heap.alloc_with(bytes, structure)
}

/// [`PrivateHeap::read`].
pub fn reads<D: Device + Drop>(
    heap: &mut PrivateHeap<D>,
    pointer: u16,
    from: usize,
    out: &mut [u8],
) -> Result<(), Refused>
    ensures row { OnOk result (Calls (Reads pointer from out.new) heap.old heap.new) }
    ensures refused { OnErr result (Calls Refuses heap.old heap.new) }
{
    heap.read(pointer, from, out)
}

/// [`PrivateHeap::write`].
pub fn writes<D: Device + Drop>(
    heap: &mut PrivateHeap<D>,
    pointer: u16,
    from: usize,
    bytes: &[u8],
) -> Result<(), Refused>
    ensures row { OnOk result (Calls (Writes pointer from bytes.now) heap.old heap.new) }
    ensures refused { OnErr result (Calls Refuses heap.old heap.new) }
{
    heap.write(pointer, from, bytes)
}

/// [`PrivateHeap::update`]: a read, and a write of what it left in `bytes`.
pub fn updates<D: Device + Drop, F: FnOnce(&mut [u8])>(
    heap: &mut PrivateHeap<D>,
    pointer: u16,
    from: usize,
    bytes: &mut [u8],
    change: F,
) -> Result<(), Refused>
    requires takes { (read : List ℕ) → length read ≡ length bytes.old → FnOnceTakesAtMut F.FnOnce change read }
    ensures rows { OnOk result ((read : List ℕ) × Called heap.old (Reads pointer from read ∷ Writes pointer from bytes.new ∷ []) heap.new) }
    ensures refused { OnErr result (Calls Refuses heap.old heap.new) }
{
    heap.keeps_law();
    heap.update(pointer, from, bytes, change)
}

/// [`PrivateHeap::drop_object`].
pub fn drops<D: Device + Drop>(heap: &mut PrivateHeap<D>, pointer: u16) -> Result<(), Refused>
    ensures row { OnOk result (Calls (Drops pointer) heap.old heap.new) }
    ensures refused { OnErr result (Calls Refuses heap.old heap.new) }
{
    heap.drop_object(pointer)
}

/// [`PrivateHeap::make_room`].
pub fn rounds<D: Device + Drop, P: Policy>(
    heap: &mut PrivateHeap<D>,
    policy: &mut P,
    most: usize,
) -> Result<usize, Refused>
    ensures row { IfOk result (λ _. Calls Rounds heap.old heap.new) }
    ensures refused { OnErr result (Calls Refuses heap.old heap.new) }
{
    heap.make_room(policy, most)
}
