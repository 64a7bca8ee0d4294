//! Where an object is.

use far_word::{Marks, Place};

/// Where an object is, with the marks of its cell.
#[derive(Clone, Copy, Debug, PartialEq, Eq)]
pub enum Home {
    /// In local memory, at a place.
    Near { place: Place, marks: Marks },
    /// On the far side.
    Far { marks: Marks },
}
