//! Tests as texts: what a heap is asked, with what is to come of it. A further test is a row.
//!
//! An act is a word, of which the first letter counts, numbers, and `;`. A number that is left out is 0; `k` is the number of the turn; `!` stands
//! before the refusal that is to come, by its number ([`Refused::number`](far_word::Refused::number)). Objects have names of the test's own, 0 to
//! 31; a number from 1,000 on stands for the pointer that is 1,000 less. Bytes are told by the first one and by how much each is greater than
//! the one before.
//!
//! Act | What is done, and must come out
//! ---|---
//! `new NAME LEN` | an object of zeros is made; where that is refused, so is one of bytes
//! `bytes NAME LEN FIRST STEP` | one of bytes is made
//! `many COUNT LEN`, `pack COUNT LEN` | so many are made, of zeros or of bytes
//! `until LEAST MOST LEN` | as many are made as can be, and then one is refused
//! `fill NAME FROM COUNT FIRST STEP` | bytes are written
//! `has NAME FROM COUNT FIRST STEP` | these are read
//! `add NAME FROM COUNT FIRST STEP MORE` | an update adds MORE to each byte, which makes these
//! `each NAME LEN` | each range of an object is written, and leaves all else of it
//! `once FIRST COUNT` | of each of so many pointers the first byte is read once, and is 0
//! `drop NAME` | it is dropped
//! `look NAME LEN` | what its cell tells; 0: it has no object
//! `round MOST LEAST LESS` | a round of so many logs at most gives so many back, and fewer than LESS, unless that is 0
//! `tell LOGS OBJECTS FAR FETCHES EVICTIONS SPARED FAULTS BYTES MOVES LOOKS` | the statistics: BYTES are those of far objects
//! `gone LIVE DEAD ROUNDS` | the bytes of logs that objects take, and those that nothing needs; the rounds that were made
//! `set COUNT` | objects are made of many lengths, whose bytes are all their name
//! `wrong COUNT MOST` | of these all bytes of so many at most are inverted, and no other is wrong

use crate::tests::devices::Flaw;

/// An act, as it is read.
#[derive(Clone, Copy)]
pub(super) struct Act {
    /// The first letter of its word, or a space.
    pub(super) verb: u8,
    numbers: [u64; 11],
    // Which number is being read, from one on.
    at: usize,
}

/// A range of an object, with a row of bytes.
#[derive(Clone, Copy)]
pub(super) struct Range {
    pub(super) name: u64,
    pub(super) from: u64,
    pub(super) count: u64,
    pub(super) first: u64,
    pub(super) step: u64,
    /// By how much an update makes each byte greater.
    pub(super) more: u64,
}

/// A range with a row of which each byte is by one greater.
pub(super) fn row(name: u64, from: u64, count: u64, first: u64) -> Range {
    Range {
        name,
        from,
        count,
        first,
        step: 1,
        more: 0,
    }
}

/// All bytes of an object of a set, each this one.
pub(super) fn whole(name: u64, byte: u64) -> Range {
    Range {
        name,
        from: 0,
        count: name.wrapping_mul(421) % 4088 + 1,
        first: byte,
        step: 0,
        more: 0,
    }
}

/// The lowest byte of a number.
pub(super) fn byte_of(number: u64) -> u8 {
    (number % 256) as u8
}

/// The place of the refusal among the numbers.
const REFUSAL: usize = 10;

impl Act {
    /// One of which nothing is read.
    pub(super) fn new() -> Act {
        Act {
            verb: b' ',
            numbers: [0; 11],
            at: 0,
        }
    }

    /// Whether nothing is read of it.
    pub(super) fn is_blank(&self) -> bool {
        self.verb == b' '
    }

    /// Takes a letter of a text.
    pub(super) fn take(&mut self, letter: u8, turn: u64) {
        if self.verb == b' ' {
            self.verb = letter;
        } else if letter == b' ' {
            self.at = self.at.saturating_add(1);
        } else if letter == b'!' {
            self.at = REFUSAL + 1;
        } else if self.at > 0 {
            self.take_digit(letter, turn);
        }
    }

    fn take_digit(&mut self, letter: u8, turn: u64) {
        let at = self.at.saturating_sub(1);
        if let Some(number) = self.numbers.get_mut(at) {
            *number = if letter == b'k' {
                turn
            } else {
                number.wrapping_mul(10).wrapping_add(u64::from(letter % 16))
            };
        }
    }

    /// One of its numbers.
    pub(super) fn number(&self, at: usize) -> u64 {
        match self.numbers.get(at) {
            Some(number) => *number,
            None => 0,
        }
    }

    /// One of its numbers, as a length or a pointer.
    pub(super) fn short(&self, at: usize) -> u16 {
        (self.number(at) % 65536) as u16
    }

    /// The number of the refusal that is to come; 0: none.
    pub(super) fn refusal(&self) -> u8 {
        byte_of(self.number(REFUSAL))
    }

    /// The range that `fill`, `has` and `add` name.
    pub(super) fn range(&self) -> Range {
        Range {
            name: self.number(0),
            from: self.number(1),
            count: self.number(2),
            first: self.number(3),
            step: self.number(4),
            more: self.number(5),
        }
    }
}

/// A test: its name, and its parts.
#[derive(Clone, Copy)]
pub(super) struct Play {
    pub(super) name: &'static str,
    /// How many logs its heap has.
    pub(super) logs: u64,
    /// What is wrong with the device, and in which of its calls.
    pub(super) flaw: Flaw,
    pub(super) at: u64,
    /// How many heaps it is played on; for each the flaw is a call later.
    pub(super) heaps: u64,
    /// How many turns it has on each. Turns are counted from 1.
    pub(super) turns: u64,
    /// Whether what the device or a want of room refuses is asked once more.
    pub(super) patient: bool,
    pub(super) parts: &'static [&'static str],
}

/// Of these a row says what is another.
pub(super) const FOUR_LOGS: Play = Play {
    name: "",
    logs: 4,
    flaw: Flaw::Nothing,
    at: 0,
    heaps: 1,
    turns: 1,
    patient: false,
    parts: &[],
};
