//! Numbers that look chosen at random.

ghost use Rattle.std.specs.Prelude.{◌≤◌};

/// A row of such numbers.
#[derive(Drop)]
pub struct Random {
    state: u64,
}

impl Random {
    /// The row of a seed.
    pub fn new(seed: u64) -> Random {
        Random {
            state: seed ^ 0x9e37_79b9_7f4a_7c15 | 1,
        }
    }

    // The next number.
    fn next(&mut self) -> u64 {
        let mut x = self.state;
        x ^= x << 13;
        x ^= x >> 7;
        x ^= x << 17;
        self.state = x;
        x
    }

    /// A number below `end`; 0 where that is 0.
    pub fn below(&mut self, end: u64) -> u64
        ensures { result ≤ end }
    {
        let number = self.next() >> 11;
        if end == 0 { 0 } else { number % end }
    }

    /// Whether one of so many times came.
    pub fn once_in(&mut self, times: u64) -> bool {
        self.below(times) == 0
    }

    /// Puts bytes at random in place of some.
    pub fn fill(&mut self, bytes: &mut [u8]) {
        for byte in bytes {
            *byte = (self.next() / 256 % 256) as u8;
        }
    }
}
