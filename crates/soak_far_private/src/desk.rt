//! What is known beside the heap: what it should have, what it may refuse, what was wrong.

use crate::model::{Model, Object};
use crate::random::Random;
use far_word::Refused;

/// What a heap may refuse by no fault of its caller.
#[derive(Clone, Copy)]
pub struct Allowed {
    /// Its device fails.
    pub fails: bool,
    /// Its device lies.
    pub lies: bool,
    /// Growth is refused at times.
    pub lacks: bool,
    /// How many logs it has. With two no round can be made.
    pub logs: u64,
}

/// What one who soaks keeps.
#[derive(Drop)]
pub struct Desk {
    pub model: Model,
    pub random: Random,
    pub allowed: Allowed,
    /// How many objects there are to be, for a while.
    pub target: u64,
    /// Which objects are used most, for a while: the first of them among all.
    pub base: u64,
    /// Answers and bytes that were others than they had to be.
    pub wrong: u64,
    /// Objects that a device which lies has given other bytes.
    pub misled: u64,
    /// Calls that were refused by no fault of their caller.
    pub refused: u64,
}

impl Desk {
    /// One that knows nothing yet.
    pub fn new(model: Model, seed: u64, allowed: Allowed) -> Desk {
        Desk {
            model,
            random: Random::new(seed),
            allowed,
            target: 64,
            base: 0,
            wrong: 0,
            misled: 0,
            refused: 0,
        }
    }

    /// How many objects there are to be found.
    #[inline(always)]
    pub fn count(&self) -> u64 {
        self.model.count()
    }

    // The pointer of one of them, by its place.
    #[inline(always)]
    fn used(&self, at: u64) -> Option<u16> {
        self.model.used(at)
    }

    /// The object of a pointer, as it should be.
    #[inline(always)]
    pub fn object(&self, pointer: u16) -> Option<Object> {
        self.model.object(pointer)
    }

    /// Counts a thing that had to be so.
    #[inline(always)]
    pub fn expect(&mut self, right: bool) {
        if !right {
            self.wrong = self.wrong.saturating_add(1);
        }
    }

    // Whether the heap may refuse so by no fault of its caller.
    fn may_refuse(&self, why: Refused) -> bool {
        match why {
            Refused::Memory => true,
            Refused::NoRoom => self.allowed.logs < 3 || self.allowed.fails || self.allowed.lacks,
            Refused::Device => self.allowed.fails,
            Refused::Damaged => self.allowed.lies,
            _ => false,
        }
    }

    /// Whether a call did what was asked. It had to be refused as `expected` says, if that is anything.
    #[inline(always)]
    pub fn is_done<T>(&mut self, answer: &Result<T, Refused>, expected: Option<Refused>) -> bool {
        match (answer, expected) {
            (Ok(_), None) => true,
            (Ok(_), Some(_)) => {
                self.expect(false);
                false
            }
            (Err(why), Some(expected)) => {
                self.expect(*why == expected);
                false
            }
            (Err(why), None) => {
                self.refused = self.refused.saturating_add(1);
                self.expect(self.may_refuse(*why));
                false
            }
        }
    }

    /// Chooses anew, at times, how many objects there are to be, and which are used most.
    #[inline(always)]
    pub fn wander(&mut self, call: u64) {
        if call % 1024 == 0 {
            self.base = self.random.below(4096);
            if call % 65536 == 0 {
                self.target = self.random.below(2200);
            }
        }
    }

    /// The pointer of an object, mostly one of those that are used most.
    #[inline(always)]
    pub fn pick(&mut self) -> Option<u16> {
        let count = self.count();
        let at = match self.random.below(16) {
            0 => self.random.below(count),
            _ => {
                let at = self.base.wrapping_add(self.random.below(32));
                if at < count { at } else { at % count.max(1) }
            }
        };
        self.used(at)
    }

    /// The length of a new object, or one that no object has.
    pub fn next_len(&mut self) -> u16 {
        let most = match self.random.below(8) {
            0..4 => 64,
            4 | 5 => 512,
            6 => 4088,
            _ => return self.edge(),
        };
        (1 + self.random.below(most) % 4088) as u16
    }

    // A length that is just one, or just none.
    fn edge(&mut self) -> u16 {
        let edges = [0, 1, 7, 8, 9, 4087, 4088, 4089];
        let at = self.random.below(8) as usize;
        edges.get(at).copied().unwrap_or(8)
    }
}
