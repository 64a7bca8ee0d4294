//! Sets of small numbers, each in one word.

ghost use Rattle.std.specs.Prelude.{◌≡◌, ◌<◌, ◌≤◌, ◌==◌, ◌||◌, ◌&&◌, ℕ, false, true, not, nat_lt, MatchOption};
ghost use Rattle.far_book.specs.book.NumberSet.{has, IsLowest};

/// A set of numbers below 64: bit `k` of the word is set where `k` is in the set.
#[derive(Clone, Copy)]
pub(crate) struct NumberSet {
    word: u64,
}

impl NumberSet {
    /// The numbers below `end`.
    pub(crate) fn below(end: u8) -> NumberSet
        requires { end ≤ 64 }
        ensures { (k : ℕ) → k < 64 → has result k ≡ nat_lt k end }
    {
        let word = if end == 64 { u64::MAX } else { (1 << end) - 1 };
        NumberSet { word }
    }

    /// No number.
    pub(crate) fn none() -> NumberSet
        ensures { (k : ℕ) → has result k ≡ false }
    {
        NumberSet { word: 0 }
    }

    /// Whether a number is in the set; none from 64 on is.
    pub(crate) fn has(self, k: u8) -> bool
        ensures { result ≡ has self k }
    {
        k < 64 && self.word >> k & 1 == 1
    }

    /// Whether no number is in the set.
    pub(crate) fn is_empty(self) -> bool
        ensures empty { result ≡ true → (k : ℕ) → has self k ≡ false }
        ensures none { ((k : ℕ) → has self k ≡ false) → result ≡ true }
    {
        self.word == 0
    }

    /// Puts a number into the set.
    pub(crate) fn insert(&mut self, k: u8)
        requires { k < 64 }
        ensures { (i : ℕ) → has self.new i ≡ (i == k) || has self.old i }
    {
        self.word |= 1 << k;
    }

    /// Takes a number out of the set.
    pub(crate) fn remove(&mut self, k: u8)
        requires { k < 64 }
        ensures { (i : ℕ) → i < 64 → has self.new i ≡ not (i == k) && has self.old i }
    {
        self.word &= !(1 << k);
    }

    /// The lowest number of the set, by one instruction.
    pub(crate) fn lowest(self) -> Option<u8>
        ensures { MatchOption result ((k : ℕ) → k < 64 → has self k ≡ false) (λ k. IsLowest self k) }
    {
        if self.word == 0 {
            None
        } else {
            Some(self.word.trailing_zeros() as u8)
        }
    }

    /// The lowest number of the set, if that isn't its only one.
    pub(crate) fn lowest_of_two(self) -> Option<u8>
        ensures { MatchOption result ((i k : ℕ) → i < k → k < 64 → has self i ≡ true → has self k ≡ false) (λ k. IsLowest self k × ((i : ℕ) × (k < i) × (i < 64) × (has self i ≡ true))) }
    {
        let first = self.lowest()?;
        let mut rest = self;
        rest.remove(first);
        rest.lowest()?;
        Some(first)
    }
}
