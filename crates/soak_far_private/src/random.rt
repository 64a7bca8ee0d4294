//! Numbers that look chosen at random.

/// A row of such numbers.
#[derive(Drop)]
pub struct Random {
    state: u64,
}

impl Random {
    /// The row of a seed.
    pub fn new(seed: u64) -> Random {
        Random {
            state: seed ^ 0x9e37_79b9_7f4a_7c15 | 1,
        }
    }

    // The next number.
    #[inline(always)]
    fn next(&mut self) -> u64 {
        let mut x = self.state;
        x ^= x << 13;
        x ^= x >> 7;
        x ^= x << 17;
        self.state = x;
        x
    }

    /// A number below `end`, which is below 2^32; 0 where that is 0.
    #[inline(always)]
    pub fn below(&mut self, end: u64) -> u64 {
        (self.next() >> 32).wrapping_mul(end) >> 32
    }

    /// Whether one of so many times came.
    #[inline(always)]
    pub fn once_in(&mut self, times: u64) -> bool {
        self.below(times) == 0
    }

    /// A byte.
    #[inline(always)]
    pub fn byte(&mut self) -> u8 {
        (self.next() >> 32 & 255) as u8
    }

    /// Puts bytes at random in place of some: a first one, and each the one before and a step more.
    pub fn fill(&mut self, bytes: &mut [u8]) {
        let mut byte = self.byte();
        let step = self.byte();
        for place in bytes {
            *place = byte;
            byte = byte.wrapping_add(step);
        }
    }
}
