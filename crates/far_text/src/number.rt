//! Numbers of 64 bits that need no place of their own.

/// A number in two halves, which lie anywhere.
#[derive(Clone, Copy)]
pub struct Number {
    low: u32,
    high: u32,
}

impl Number {
    ghost use Rattle.std.specs.Prelude.{◌≡◌};
    ghost use Rattle.far_text.specs.Records.{number_in};

    /// The number, to be kept.
    #[inline(always)]
    pub fn of(n: u64) -> Number
        ensures { number_in result ≡ n }
    {
        Number {
            low: (n % 4_294_967_296) as u32,
            high: (n / 4_294_967_296) as u32,
        }
    }

    /// What it is.
    #[inline(always)]
    pub fn value(self) -> u64
        ensures { result ≡ number_in self }
    {
        u64::from(self.high) * 4_294_967_296 + u64::from(self.low)
    }
}
