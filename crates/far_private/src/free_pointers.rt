//! Which pointers of a heap are free, as bits.

ghost use Rattle.std.specs.Prelude.{◌≡◌, ◌<◌, ◌==◌, ◌||◌, ◌&&◌, ℕ, false, true, not, MatchOption};
ghost use Rattle.far_private.specs.FreeBits.{IsSummary};

/// So many words have a bit for each pointer.
const WORDS: usize = 32;

/// A set of the pointers of a heap, 0 to 2,047. Its lowest is found in a few instructions, however many it has. It takes no memory
/// but its own.
#[derive(Drop)]
pub(crate) struct FreePointers {
    // Bit `k` is set where a bit of word `k` is.
    summary: u32,
    // Bit `k` of word `i` is set where pointer `64 * i + k` is in the set.
    words: [u64; WORDS],
    ghost summary_is: { IsSummary summary words },
}

impl FreePointers {
    ghost use Rattle.far_private.specs.FreePointers.{IsLowest, has};

    /// All pointers.
    pub(crate) fn all() -> FreePointers
        ensures { (p : ℕ) → p < 2048 → has result p ≡ true }
    {
        FreePointers {
            summary: u32::MAX,
            words: [u64::MAX; WORDS],
        }
    }

    /// The lowest pointer of the set; `None` exactly where it has none.
    #[inline(always)]
    pub(crate) fn lowest(&self) -> Option<u16>
        ensures { MatchOption result ((p : ℕ) → p < 2048 → has self.now p ≡ false) (λ p. IsLowest self.now p) }
    {
        if self.summary == 0 {
            return None;
        }
        let at = self.summary.trailing_zeros();
        let word = self.words[at as usize];
        Some(64 * at as u16 + word.trailing_zeros() as u16)
    }

    /// Puts a pointer into the set.
    #[inline(always)]
    pub(crate) fn insert(&mut self, pointer: u16)
        requires { pointer < 2048 }
        ensures { (p : ℕ) → has self.new p ≡ (p == pointer) || has self.old p }
    {
        let at = pointer / 64;
        self.words[at as usize] |= 1 << (pointer % 64);
        self.summary |= 1 << at;
    }

    /// Takes a pointer out of the set.
    #[inline(always)]
    pub(crate) fn remove(&mut self, pointer: u16)
        requires { pointer < 2048 }
        ensures { (p : ℕ) → has self.new p ≡ not (p == pointer) && has self.old p }
    {
        let at = pointer / 64;
        let left = self.words[at as usize] & !(1 << (pointer % 64));
        self.words[at as usize] = left;
        if left == 0 {
            self.summary &= !(1 << at);
        }
    }
}
