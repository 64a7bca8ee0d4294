//! A gate that watches one thread, and says no to a line of some.

ghost use Rattle.std.specs.Prelude.{◌≡◌, ◌⊎◌, ◌≤◌, true};

use super::tally::Tally;
use far_split::Gate;

/// The lines that a gate says no to: those of one turn in the threads from the first to the last.
#[derive(Clone, Copy)]
pub(super) struct Stops {
    pub(super) first: u8,
    pub(super) last: u8,
    pub(super) turn: u32,
}

/// No line at all.
pub(super) const NO_STOPS: Stops = Stops {
    first: 1,
    last: 0,
    turn: 0,
};

/// Counts the calls of one thread, which must come in order: before each line, and after it.
#[derive(Drop)]
pub(super) struct Watch {
    who: u8,
    stops: Stops,
    // How many calls must have been answered no before the thread's first line is made.
    waits: u64,
    calls: Tally,
    strays: Tally,
    stopped: Tally,
}

impl Watch {
    pub(super) fn new(who: u8, stops: Stops) -> Watch {
        Watch {
            who,
            stops,
            waits: 0,
            calls: Tally::new(),
            strays: Tally::new(),
            stopped: Tally::new(),
        }
    }

    /// One whose thread waits before each line until the gate has said no to another.
    pub(super) fn waiting(who: u8, stops: Stops) -> Watch {
        Watch {
            waits: 1,
            ..Watch::new(who, stops)
        }
    }

    /// Whether so many calls came, each in its order.
    pub(super) fn has_calls(&self, calls: u64) -> bool {
        self.calls.count() == calls && self.strays.count() == 0
    }

    // A call of this thread, which must be the one of this number.
    fn take(&self, number: u64) {
        if self.calls.raise() != number {
            self.strays.raise();
        }
    }

    fn is_stopped(&self, who: u8, turn: u32) -> bool
        ensures { result ≡ true → (self.now.stops.first ≤ who) × (who ≤ self.now.stops.last) × (turn ≡ self.now.stops.turn) }
    {
        self.stops.first <= who && who <= self.stops.last && turn == self.stops.turn
    }
}

impl Gate for Watch {
    ghost refuses = { λ gate who turn. (who ≡ gate.who) ⊎ ((gate.stops.first ≤ who) × (who ≤ gate.stops.last) × (turn ≡ gate.stops.turn)) };

    fn before(&self, who: u8, turn: u32) -> bool {
        if who == self.who {
            self.take(2 * u64::from(turn));
            if !self.stopped.wait_for(self.waits) {
                return false;
            }
        }
        if self.is_stopped(who, turn) {
            self.stopped.raise();
            return false;
        }
        true
    }

    fn after(&self, who: u8, turn: u32) {
        if who == self.who {
            self.take(2 * u64::from(turn) + 1);
        }
    }
}
