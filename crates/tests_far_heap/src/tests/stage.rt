//! A heap on which a test is played, act by act.

use crate::tests::acts::{Act, Choice, Went};
use crate::tests::copy_hands::CopyHand;
use crate::tests::flag::Tally;
use crate::tests::hands::Hand;
use crate::tests::looks::{Counted, count_of};
use crate::tests::steps::{By, comes_to, steps};
use far_core::Shape;
use far_device::Device;
use far_evac::{Census, EvacFault, Phase, RoundEnd};
use far_heap::{Evacuator, Heap, HeapName, Mutator, View};
use std::alloc::Global;
use std::mem;
use std::sync::Wait;

/// How a book stands: its round, and what lives where.
#[derive(Drop)]
struct Stand {
    phase: Phase,
    shape: Shape,
    census: Census,
}

// How a book stands; `None` where memory was refused.
fn stand_of<K: HeapName, D: Device + Drop>(book: &mut Evacuator<K, D>) -> Option<Stand> {
    let (phase, shape) = (book.phase(), book.shape());
    match book.audit() {
        Ok(census) => Some(Stand {
            phase,
            shape,
            census,
        }),
        Err(_) => None,
    }
}

// Whether two are the same.
fn are_same(before: &Stand, after: &Stand) -> bool {
    before.phase == after.phase
        && before.shape == after.shape
        && before.census.homes.as_slice() == after.census.homes.as_slice()
        && before.census.logs.as_slice() == after.census.logs.as_slice()
}

// Whether one object more is near, of so many bytes with its header, and the far ones are as they were.
fn has_one_more(before: Counted, after: Counted, size: u64) -> bool {
    after.near == before.near.saturating_add(1)
        && after.far == before.far
        && after.live == before.live.saturating_add(size)
        && after.whole
}

/// What two threads tell each other: that one has the book, and that it need not have it any more.
#[derive(Drop)]
pub(super) struct Signals {
    pub held: Tally,
    pub ended: Tally,
}

impl Signals {
    pub(super) fn new() -> Signals {
        Signals {
            held: Tally::new(),
            ended: Tally::new(),
        }
    }
}

/// A heap, with its mutators and copiers; two mutators at most play, of which one is at hand; and what was kept of them.
#[derive(Drop)]
pub(super) struct Stage<'h, K: HeapName, D: Device + Drop> {
    pub heap: &'h Heap<K, D>,
    pub signals: &'h Signals,
    pub alloc: Global,
    /// Those that don't play.
    pub mutators: Vec<Mutator<K, D>>,
    pub copiers: Vec<CopyHand<K, D>>,
    at_hand: Hand<K, D>,
    other: Hand<K, D>,
    view: Option<View>,
    // How often the last whole round asked its policy.
    asked: u64,
    noted: Option<Stand>,
}

impl<'h, K: HeapName, D: Device + Drop> Stage<'h, K, D> {
    /// One on which none plays yet.
    pub(super) fn new(
        (heap, signals): (&'h Heap<K, D>, &'h Signals),
        alloc: Global,
        mutators: Vec<Mutator<K, D>>,
        copiers: Vec<CopyHand<K, D>>,
    ) -> Stage<'h, K, D> {
        Stage {
            heap,
            signals,
            alloc,
            mutators,
            copiers,
            at_hand: Hand::Gone,
            other: Hand::Gone,
            view: None,
            asked: 0,
            noted: None,
        }
    }

    /// The first mutator is at hand, and the second is the other.
    pub(super) fn sets_out(&mut self) {
        self.at_hand = Hand::first_of(&mut self.mutators);
        self.other = Hand::first_of(&mut self.mutators);
    }

    /// Whether there are so many mutators that don't play, and so many copiers.
    pub(super) fn has(&self, mutators: usize, copiers: usize) -> bool {
        self.mutators.len() == mutators && self.copiers.len() == copiers
    }

    // Whether a copier goes on so.
    fn works(&mut self, number: usize, went: Went) -> bool {
        match self.copiers.get_mut(number) {
            Some(hand) => hand.goes_on() == went,
            None => false,
        }
    }

    // Whether each of so many does.
    fn all_work(&mut self, copiers: usize, went: Went) -> bool {
        for number in 0..copiers {
            if !self.works(number, went) {
                return false;
            }
        }
        true
    }

    // Whether a copier had a job, which is finished then.
    fn ends(&mut self, number: usize) -> bool {
        match self.copiers.get_mut(number) {
            Some(hand) => hand.ends(),
            None => false,
        }
    }

    // Drops a copier, which finishes its job; whether it was there.
    fn quits(&mut self, number: usize) -> bool {
        match self.copiers.get_mut(number) {
            Some(hand) => hand.quits(),
            None => false,
        }
    }

    // Loses a copier with its job; whether it was there.
    fn loses(&mut self, number: usize) -> bool {
        match self.copiers.get_mut(number) {
            Some(hand) => hand.is_lost(),
            None => false,
        }
    }

    // Ends the other thread's hold of the book.
    fn ends_hold(&self) -> bool {
        self.signals.ended.raise();
        true
    }

    // The other mutator is at hand from now on.
    fn turns(&mut self) -> bool {
        let first = mem::replace(&mut self.at_hand, Hand::Gone);
        self.at_hand = mem::replace(&mut self.other, first);
        true
    }

    // Keeps a view; whether there is one.
    fn keeps<R: Wait>(&mut self, rt: &R, pointer: u16, slowly: bool) -> bool {
        self.view = self.at_hand.views(rt, pointer, slowly);
        self.view.is_some()
    }

    /// Makes a whole round.
    pub(super) fn round<R: Wait>(
        &mut self,
        rt: &R,
        choice: Choice,
        most: usize,
        turns: u64,
    ) -> Result<RoundEnd, EvacFault> {
        let mut policy = By::new(choice);
        let came = self.heap.run_round(rt, &mut policy, most, turns);
        self.asked = policy.times();
        came
    }

    // Notes how the book stands.
    fn notes<R: Wait>(&mut self, rt: &R) -> bool {
        self.noted = stand_of(&mut *self.heap.book(rt));
        self.noted.is_some()
    }

    // Whether the book stands as it was noted; or, with one object more of so many bytes.
    fn is_as_noted<R: Wait>(&mut self, rt: &R, more: Option<u64>) -> bool {
        let found = stand_of(&mut *self.heap.book(rt));
        match (&self.noted, &found, more) {
            (Some(before), Some(after), None) => are_same(before, after),
            (Some(before), Some(after), Some(size)) => {
                has_one_more(count_of(&before.census), count_of(&after.census), size)
            }
            _ => false,
        }
    }

    /// Whether an act comes out as it should.
    pub(super) fn does<R: Wait>(&mut self, rt: &R, act: Act) -> bool {
        match act {
            Act::AwaitsHold => self.signals.held.wait_for(1),
            Act::EndsHold => self.ends_hold(),
            Act::Turns => self.turns(),
            Act::Keeps(pointer) => self.keeps(rt, pointer, false),
            Act::KeepsSlowly(pointer) => self.keeps(rt, pointer, true),
            Act::Runs(choice, most, turns, end) => comes_to(
                self.round(rt, choice, most, turns),
                end,
            ),
            Act::Asked(times) => self.asked == times,
            Act::Notes => self.notes(rt),
            Act::AsNoted => self.is_as_noted(rt, None),
            Act::OneMore(size) => self.is_as_noted(rt, Some(size)),
            Act::Works(number, went) => self.works(number, went),
            Act::AllWork(copiers, went) => self.all_work(copiers, went),
            Act::Ends(number, had) => self.ends(number) == had,
            Act::Quits(number) => self.quits(number),
            Act::Loses(number) => self.loses(number),
            _ => self.does_at_hand(rt, act),
        }
    }

    // The same of the mutator at hand, or of the book.
    fn does_at_hand<R: Wait>(&mut self, rt: &R, act: Act) -> bool {
        let view = self.view;
        match self.at_hand.does(rt, view, act) {
            Some(done) => done,
            None => steps(&mut *self.heap.book(rt), act),
        }
    }

    /// The same of each act.
    pub(super) fn does_all<R: Wait>(&mut self, rt: &R, acts: &[Act]) -> bool {
        for act in acts {
            if !self.does(rt, *act) {
                return false;
            }
        }
        true
    }

    /// The same of each part, with the first mutator at hand.
    pub(super) fn plays<R: Wait>(&mut self, rt: &R, parts: &[&[Act]]) -> bool {
        self.sets_out();
        for part in parts {
            if !self.does_all(rt, part) {
                return false;
            }
        }
        true
    }
}
