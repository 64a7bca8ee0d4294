//! Rows of bits.

ghost use Rattle.std.specs.Prelude.{◌≡◌, ◌+◌, ◌*◌, ◌/◌, ◌<◌, ◌≤◌, ◌==◌, cond, false, true, slice_index, IfOk};
ghost use Rattle.std.specs.Vec.{vec_len};
ghost use Rattle.far_events.specs.state.Bits.{bit_in};
ghost use Rattle.far_events.specs.state.State.{put};

use std::alloc::{AllocError, Global};

/// A row of bits, 64 in a word.
#[derive(Drop)]
pub(crate) struct Bits {
    pub(crate) words: Vec<u64>,
}

impl Bits {
    /// So many words of bits that are not set.
    pub(crate) fn new(alloc: Global, words: usize) -> Result<Bits, AllocError>
        ensures sized { IfOk result (λ bits. vec_len bits.words ≡ words) }
        ensures clear { IfOk result (λ bits. bit_in bits ≡ (λ _. false)) }
    {
        Ok(Bits {
            words: vec![in alloc; 0; words]?,
        })
    }

    /// Whether a bit is set; none past the last is.
    #[inline]
    pub(crate) fn has(&self, bit: usize) -> bool
        ensures { result ≡ bit_in self.now bit }
    {
        let found = self.word_at(bit / 64);
        found >> (bit % 64) & 1 == 1
    }

    /// Whether a bit of the row is set.
    #[inline]
    pub(crate) fn at(&self, bit: usize) -> bool
        requires { bit < 64 * vec_len self.now.words }
        ensures { result ≡ bit_in self.now bit }
    {
        let found = self.words[bit / 64];
        found >> (bit % 64) & 1 == 1
    }

    /// A word of the row; 0 past the last.
    #[inline]
    fn word_at(&self, at: usize) -> u64
        ensures { result ≡ slice_index self.now.words.items at }
    {
        self.words.get(at).copied().unwrap_or(0)
    }

    /// A bit is set.
    #[inline]
    pub(crate) fn set(&mut self, bit: usize)
        requires { bit < 64 * vec_len self.old.words }
        ensures sized { vec_len self.new.words ≡ vec_len self.old.words }
        ensures set { bit_in self.new ≡ put (bit_in self.old) bit true }
    {
        let word = self.words[bit / 64];
        self.words[bit / 64] = word | 1 << (bit % 64);
    }

    /// No bit is set in a part of the row, of parts of so many words.
    #[inline]
    pub(crate) fn clear_part(&mut self, part: usize, words: usize)
        requires some { 0 < words }
        requires inside { part * words + words ≤ vec_len self.old.words }
        ensures sized { vec_len self.new.words ≡ vec_len self.old.words }
        ensures clear { bit_in self.new ≡ (λ b. cond (b / 64 / words == part) false (bit_in self.old b)) }
    {
        let from = part * words;
        self.words[from..from + words].fill(0);
    }
}
