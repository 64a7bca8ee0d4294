//! Who is asked before each line.

ghost use Rattle.std.specs.Prelude.{◌≡◌, ℕ, true, false};

/// Asked in each thread before each of its lines, and told after each. `who` is a mutator's number, or [`THE_BOOK`](crate::THE_BOOK) for the book's thread; `turn` is how many of
/// that thread's lines stand before this one. One gate is shared by all threads.
pub trait Gate: Sync {
    /// To which lines the gate may say no: of which thread, and how many of that thread's lines stand before it.
    ghost refuses: { Self → ℕ → ℕ → Type 0 };

    /// Whether the line may be made. A no ends that thread's lines.
    fn before(&self, who: u8, turn: u32) -> bool
        ensures no { result ≡ false → refuses self.now who turn };

    /// The line was answered.
    fn after(&self, who: u8, turn: u32);
}

/// One that lets all lines be made.
#[derive(Clone, Copy)]
pub struct NoGate;

impl Gate for NoGate {
    ghost refuses = { λ gate who turn. ⊥ };

    fn before(&self, _who: u8, _turn: u32) -> bool
        ensures { result ≡ true }
    {
        true
    }

    fn after(&self, _who: u8, _turn: u32) {}
}

/// What the book's thread is called when a gate is asked.
pub const THE_BOOK: u8 = 255;
