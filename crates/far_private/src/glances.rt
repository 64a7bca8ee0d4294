//! Which far objects were looked at of late.

/// So many words have a bit for each pointer.
const WORDS: usize = 32;

/// So many looks are remembered at most; then all are forgotten. An eighth or so of a heap's objects: one that is looked at again within so many
/// is worth a place near, as measured (misses, and rounds that places cost).
const MOST: u16 = 256;

/// The pointers of a heap whose far objects were looked at once of late.
#[derive(Drop)]
pub(crate) struct Glances {
    // Bit `k` of word `i` is set where pointer `64 * i + k` was.
    words: [u64; WORDS],
    // How many bits were set since all were clear.
    count: u16,
    // How often a far object was read where it lies, up to the largest number.
    looks: u64,
}

impl Glances {
    /// None was.
    pub(crate) fn none() -> Glances {
        Glances {
            words: [0; WORDS],
            count: 0,
            looks: 0,
        }
    }

    /// A far object is read where it lies.
    pub(crate) fn count_look(&mut self) {
        self.looks = self.looks.saturating_add(1);
    }

    /// How often one was.
    pub(crate) fn looks(&self) -> u64 {
        self.looks
    }

    /// Whether it was looked at of late: the next look is a first one then. If it wasn't, it is remembered.
    pub(crate) fn again(&mut self, pointer: u16) -> bool {
        let at = (pointer / 64 % 32) as usize;
        let bit = 1u64 << (pointer % 64);
        if self.words[at] & bit != 0 {
            self.words[at] &= !bit;
            return true;
        }
        if self.count >= MOST {
            self.words = [0; WORDS];
            self.count = 0;
        }
        self.words[at] |= bit;
        self.count = self.count.saturating_add(1);
        false
    }
}
