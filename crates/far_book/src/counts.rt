//! What a book has done.

use far_word::Mark;

/// What a book has done with objects since it was made. Each number stays at 2^64 - 1 once it is there.
#[derive(Clone, Copy, Debug, PartialEq, Eq)]
pub struct Counts {
    /// Objects that came near from the device.
    pub fetched: u64,
    /// Objects that went far and were written to the device.
    pub written: u64,
    /// Objects that went far without a write: the device had their bytes.
    pub spared: u64,
    /// Objects that went to another place, but those that copiers copied.
    pub moved: u64,
}

impl Counts {
    /// Nothing was done.
    pub(crate) fn none() -> Counts {
        Counts {
            fetched: 0,
            written: 0,
            spared: 0,
            moved: 0,
        }
    }

    /// An object came near.
    #[inline]
    pub(crate) fn fetch(&mut self) {
        self.fetched = self.fetched.saturating_add(1);
    }

    /// One went far that had this word: it was written if that has DIRTY.
    #[inline]
    pub(crate) fn leave(&mut self, word: u64) {
        if word & Mark::Dirty.mask() == 0 {
            self.spared = self.spared.saturating_add(1);
        } else {
            self.written = self.written.saturating_add(1);
        }
    }

    /// One was moved.
    #[inline]
    pub(crate) fn carry(&mut self) {
        self.moved = self.moved.saturating_add(1);
    }
}
