//! What happened, in numbers.

use far_word::Refused;
use std::fmt;

/// What is counted, in the order in which it is told.
#[derive(Clone, Copy)]
pub enum Count {
    /// Ranges that were read and compared, the bytes in them, and the ranges in which a byte was another than the mutator's record has.
    Reads,
    Bytes,
    WrongReads,
    /// Ranges that were written.
    Writes,
    /// Scopes that were opened, and those that were kept open for long.
    Scopes,
    LongScopes,
    /// Objects that were made and dropped, and those for which there was no room, and no pointer.
    Made,
    Dropped,
    Unmade,
    Unnamed,
    /// Dereferences: those that took no lock; those that found a word on which no view may rest; those that went to the lock at once; and those for
    /// which there was no room.
    Quick,
    Slow,
    AtOnce,
    Full,
    /// Calls that had to be refused, and were.
    Refused,
    /// Answers that were others than they had to be.
    WrongAnswers,
    /// Rounds for which no log was chosen; those that were done, those of them by hand, those that came to the end of their turns, and those that were given up.
    Nothing,
    Rounds,
    ByHand,
    Limits,
    Aborts,
    /// What rounds moved, sent far, retired and freed.
    RoundMoved,
    RoundFar,
    RoundDropped,
    RoundFreed,
    /// Copies that copiers made, and those in whose midst one stopped for a while.
    Copies,
    Stops,
    /// Audits, and those that were wrong.
    Audits,
    WrongAudits,
    /// Calls for which memory was refused, and those that a device which fails refused.
    Faults,
    Failed,
}

/// How many are counted.
const ALL: usize = 31;

/// What each is called.
const NAMES: [&str; ALL] = [
    "reads",
    "bytes",
    "wrong_reads",
    "writes",
    "scopes",
    "long_scopes",
    "made",
    "dropped",
    "unmade",
    "unnamed",
    "quick",
    "slow",
    "at_once",
    "full",
    "refused",
    "wrong_answers",
    "nothing",
    "rounds",
    "by_hand",
    "limits",
    "aborts",
    "round_moved",
    "round_far",
    "round_dropped",
    "round_freed",
    "copies",
    "stops",
    "audits",
    "wrong_audits",
    "faults",
    "failed",
];

/// What mutators and rounds did.
#[derive(Drop)]
pub struct Counts {
    counted: [u64; ALL],
    /// Whether the device fails at times.
    fails: bool,
}

impl Counts {
    /// Nothing yet, over a device that fails at times or never.
    pub fn new(fails: bool) -> Counts {
        Counts {
            counted: [0; ALL],
            fails,
        }
    }

    /// Whether the device fails at times.
    pub fn fails(&self) -> bool {
        self.fails
    }

    /// Adds to a count.
    pub fn add(&mut self, what: Count, more: u64) {
        if let Some(count) = self.counted.get_mut(what as usize) {
            *count = count.saturating_add(more);
        }
    }

    /// Counts one more.
    pub fn one(&mut self, what: Count) {
        self.add(what, 1);
    }

    /// Counts a wrong answer, unless it is right.
    pub fn expect(&mut self, right: bool) {
        if !right {
            self.one(Count::WrongAnswers);
        }
    }

    /// Counts a call that the device refused, which is wrong of a device that never fails.
    pub fn failed(&mut self) {
        let what = if self.fails {
            Count::Failed
        } else {
            Count::WrongAnswers
        };
        self.one(what);
    }

    /// Counts calls that had to be refused so: whether they were.
    pub fn judge(&mut self, answers: &[Option<Refused>], why: Refused) {
        for answer in answers {
            let right = *answer == Some(why);
            self.one(if right {
                Count::Refused
            } else {
                Count::WrongAnswers
            });
        }
    }

    /// Adds what another counted.
    pub fn add_all(&mut self, other: &Counts) {
        for i in 0..ALL {
            self.counted[i] = self.counted[i].saturating_add(other.counted[i]);
        }
    }

    fn of(&self, what: Count) -> u64 {
        match self.counted.get(what as usize) {
            Some(count) => *count,
            None => 0,
        }
    }

    /// How much was wrong.
    pub fn wrong(&self) -> u64 {
        self.of(Count::WrongReads)
            .saturating_add(self.of(Count::WrongAnswers))
            .saturating_add(self.of(Count::WrongAudits))
    }
}

impl fmt::Debug for Counts {
    fn fmt<W: fmt::Write>(&self, f: &mut fmt::Formatter<W>) -> fmt::Result {
        let mut told = f.debug_struct("Counts");
        for i in 0..ALL {
            told.field(NAMES[i], &self.counted[i]);
        }
        told.finish()
    }
}
