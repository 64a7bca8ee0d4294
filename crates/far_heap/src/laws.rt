//! What a mutator's calls mean, taken together.

ghost use Rattle.far_heap.specs.Calls.{ReadsGiveLastWrites};
ghost use Rattle.far_heap.specs.Refusals.{RefusalsAreSo};
ghost use Rattle.far_heap.specs.Values.{ValuesComeBack};

/// Where the far side is honest, each byte of a mutator's objects is what its own calls said of it last: the byte that it wrote last, 0 where it hasn't
/// written since the object was made. So it reads them, whatever rounds and other mutators did meanwhile.
pub fn reads_give_last_writes()
    ensures { ReadsGiveLastWrites }
{}

/// Which numbers refuse a call: of copiers, any but 1 to 8; of bytes of a new object, any but 1 to 4,088; for an access, the pointer of an object that isn't viewed, and a
/// range that has no byte or passes the object's end; for a drop, a pointer that isn't used, or whose object is viewed. No others do.
pub fn refusals_are_so()
    ensures { RefusalsAreSo }
{}

/// A value that was written comes back. Where the far side is honest, byte `k` of a write from byte `from` on stands at byte `from + k` of the object, and a read of as many
/// bytes from there on gives the value that they make, and isn't refused. Where a write is refused, a read of as many bytes is refused for the same cause.
pub fn values_come_back()
    ensures { ValuesComeBack }
{}
