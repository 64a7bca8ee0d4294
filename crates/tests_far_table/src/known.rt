// What is known of an owner and one of its pointers when a test runs.

/// What an owner knows of its scope and of one pointer.
#[derive(Clone, Copy)]
pub struct Known {
    /// Whether the scope is open.
    pub opened: bool,
    /// Whether an epoch is remembered.
    pub read: bool,
    /// Whether the owner uses the pointer.
    pub used: bool,
    /// Whether it holds the object's place.
    pub held: bool,
    /// Whether it has soiled the object.
    pub soiled: bool,
    /// How many bytes the object has; 0 where it isn't used.
    pub len: u16,
}
