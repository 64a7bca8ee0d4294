//! Where a round stands.

/// Where a round stands.
#[derive(Clone, Copy, Debug, PartialEq, Eq)]
pub enum Phase {
    /// No round is running.
    Idle,
    /// The live objects of the chosen logs get EVAC.
    Marking,
    /// All have it, the epoch has risen, and some owner may be in an older scope.
    Waiting,
    /// Every owner was seen clear; the objects leave the chosen logs.
    Evacuating,
}
