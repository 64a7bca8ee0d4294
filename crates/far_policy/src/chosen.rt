//! A short list of log numbers, in one value.

ghost use Rattle.std.specs.Prelude.{◌≡◌, ◌<◌, ◌==◌, [], ◌∷◌, ◌++◌, length};
ghost use Rattle.far_policy.specs.Logs.{is_among};

use far_word::MOST_LOGS;
use std::marker::Model;

/// The most logs that a [`Chosen`] has, which are all of the largest heap.
pub const MOST_CHOSEN: usize = MOST_LOGS as usize;

/// A list of log numbers, [`MOST_CHOSEN`] at most. It takes no memory but its own.
#[derive(Clone, Copy, Debug, PartialEq, Eq)]
pub struct Chosen {
    logs: [u8; MOST_CHOSEN],
    count: usize,
}

// The places behind the logs have zeros, so that lists that are equal are equal values.
impl Model for Chosen {
    ghost use Rattle.std.specs.Prelude.{ℕ, List, length, take};
    ghost use Rattle.far_policy.specs.Filled.{IsFilled, filled_from, filled_from_view};

    ghost Value = { List ℕ };

    ghost view = { λ c. take c.count c.logs };

    ghost invariant = { λ c. IsFilled c.logs c.count };

    ghost inverse = { λ logs. record { logs = filled_from logs; count = length logs } };

    ghost inverse_ok = { λ c filled i. record {
      logs = (filled_from_view c.logs c.count filled).0 i;
      count = (filled_from_view c.logs c.count filled).1 i;
    } };
}

impl Chosen {
    /// No log.
    pub fn new() -> Chosen
        ensures { result ≡ [] }
    {
        Chosen {
            logs: [0; MOST_CHOSEN],
            count: 0,
        }
    }

    /// Puts a log at the end of a list that has fewer than [`MOST_CHOSEN`].
    pub fn push(&mut self, log: u8)
        requires room { length self.old < MOST_CHOSEN }
        ensures { self.new ≡ self.old ++ log ∷ [] }
    {
        self.logs[self.count] = log;
        self.count += 1;
    }

    /// Takes all logs out.
    pub fn clear(&mut self)
        ensures { self.new ≡ [] }
    {
        *self = Chosen::new();
    }

    /// The logs in their order.
    pub fn as_slice(&self) -> &[u8]
        ensures { result.now ≡ self.now }
    {
        &self.logs[..self.count]
    }

    /// How many there are.
    pub fn len(&self) -> usize
        ensures { result ≡ length self.now }
    {
        self.as_slice().len()
    }

    /// Whether there is none.
    pub fn is_empty(&self) -> bool
        ensures { result ≡ (length self.now == 0) }
    {
        self.count == 0
    }

    /// Whether a log is in the list.
    pub fn contains(&self, log: u8) -> bool
        ensures { result ≡ is_among self.now log }
    {
        self.as_slice().contains(&log)
    }
}
