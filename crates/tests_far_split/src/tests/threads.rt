//! Two threads, of which one waits for the other.

ghost use Rattle.std.specs.Prelude.{◌≡◌};

use super::rows::{TWO, TWO_TOLD};
use super::talk::prints;
use super::tally::Tally;
use far_split::Gate;

/// Holds a mutator before its first line until another's first line is answered; says no where that doesn't come.
#[derive(Drop)]
struct Holds {
    held: u8,
    other: u8,
    answered: Tally,
}

impl Gate for Holds {
    ghost refuses = { λ gate who turn. (who ≡ gate.held) × (turn ≡ 0) };

    fn before(&self, who: u8, turn: u32) -> bool {
        who != self.held || turn != 0 || self.answered.wait_for(1)
    }

    fn after(&self, who: u8, turn: u32) {
        if who == self.other && turn == 0 {
            self.answered.raise();
        }
    }
}

#[test]
fn second_answers_while_first_is_held(rt: HostRuntime) {
    for (held, other) in [(0, 1), (1, 0)] {
        let gate = Holds {
            held,
            other,
            answered: Tally::new(),
        };
        assert!(rt;
            prints(&rt, rt.alloc(), TWO, &gate, TWO_TOLD),
            "with {held} held"
        );
    }
}
