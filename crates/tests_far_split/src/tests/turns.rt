//! A gate under which lines are made one after the other, in an order.

use super::tally::Tally;
use far_split::Gate;

/// Lets a line be made once all before it are answered.
#[derive(Drop)]
pub(super) struct Turns<'a> {
    // The thread of each line.
    order: &'a [u8],
    made: Tally,
}

impl<'a> Turns<'a> {
    pub(super) fn new(order: &'a [u8]) -> Turns<'a> {
        Turns {
            order,
            made: Tally::new(),
        }
    }

    /// Whether all lines were made.
    pub(super) fn are_over(&self) -> bool {
        self.made.count() == self.order.len() as u64
    }

    // How many lines come before a thread's line of this turn, which there must be.
    fn place(&self, who: u8, turn: u32) -> u64 {
        let mut left = turn;
        for (place, thread) in self.order.iter().enumerate() {
            if *thread == who {
                if left == 0 {
                    return place as u64;
                }
                left -= 1;
            }
        }
        u64::MAX
    }
}

impl Gate for Turns<'_> {
    ghost refuses = { λ gate who turn. Unit {0} };

    fn before(&self, who: u8, turn: u32) -> bool {
        self.made.wait_for(self.place(who, turn))
    }

    fn after(&self, _who: u8, _turn: u32) {
        self.made.raise();
    }
}
