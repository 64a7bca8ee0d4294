//! What a large value's holder may rely on, as contracts of functions that do nothing.

ghost use Rattle.far_large.specs.Parts.{ValuesStay};

/// A large value keeps its bytes in every call that is of no part of it, and what is made after it has other numbers.
pub fn values_stay()
    ensures { ValuesStay }
{}
