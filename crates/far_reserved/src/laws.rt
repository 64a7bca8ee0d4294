//! What follows of the calls.

ghost use Rattle.far_reserved.specs.Reserved.{PutIsRefusedSo, PutIsThere};

/// What is put is there: a `get` of as many bytes from the same position gives those, and no fault.
pub fn what_is_put_is_there()
    ensures { PutIsThere }
{}

/// A `put` is refused [`StorageFault::Full`] alone, where its bytes pass the end of what is taken, and the room stays as it is.
pub fn puts_are_refused_when_full()
    ensures { PutIsRefusedSo }
{}
