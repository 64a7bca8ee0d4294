//! How far a round has come.

use crate::phase::Phase;
use far_policy::Chosen;

/// A round: the logs that were chosen for it, and how far it has come.
#[derive(Clone, Copy, Debug)]
pub(crate) struct Round {
    pub(crate) phase: Phase,
    /// The logs that were chosen, in their order.
    pub(crate) chosen: Chosen,
    /// In which of them marking, or the evacuation, stands; how many they are, where it has passed them all.
    pub(crate) index: usize,
    /// At which word of that log it stands.
    pub(crate) at: u16,
    /// How many owners were seen clear: those of lower number.
    pub(crate) seen: u8,
}

/// Where marking stands within the chosen logs: in which of them, and at which word of it.
#[derive(Clone, Copy)]
pub(crate) struct Cursor {
    pub(crate) index: usize,
    pub(crate) at: u16,
}
