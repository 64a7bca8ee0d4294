//! The plain hand: a core that nobody else steps.

ghost use Rattle.std.specs.Prelude.{◌≡◌, ◌+◌, ◌<◌, true, false};
ghost use Rattle.far_core.specs.state.CoreState.{core_state};
ghost use Rattle.far_events.specs.state.Shape.{is_shape};
ghost use Rattle.far_hand.specs.MayBe.{Made, alone_lawful, alone_shown, alone_there, alone_told};
ghost use Rattle.far_hand.specs.ShapeOf.{shape_of};

use crate::hand::Near;
use far_core::{Core, Shape};
use far_word::{EPOCH_END, Place, Refused};

/// A core as the book's hand. It is still: what the view says is the state, whose words change by the book's calls alone.
#[derive(Debug, Drop)]
pub struct Plain {
    pub core: Core,
}

impl Near for Plain {
    ghost view = { λ s. core_state s.core };

    ghost still = { Unit {0} };

    ghost may_be = { λ s x. x ≡ core_state s.core };

    ghost makes = { λ s e r t. Made (core_state s.core) e r (core_state t.core) };

    ghost lawful = { λ s x is. alone_lawful (core_state s.core) x s.core.law is };

    ghost shown = { λ s x is. alone_shown (core_state s.core) x is };

    ghost there = { λ s. alone_there (core_state s.core) };

    ghost alone = { λ s _ x is. is };

    ghost told = { λ s t e r made. alone_told (core_state s.core) (core_state t.core) e r made };

    fn see(&mut self, pointer: u16) -> u64 {
        self.core.see(pointer)
    }

    fn mark(&mut self, pointer: u16) -> u64 {
        self.core.mark(pointer)
    }

    fn clear(&mut self, pointer: u16) -> u64 {
        self.core.clear(pointer)
    }

    fn get(&mut self, log: u8, at: u16, free: bool) -> u64 {
        self.core.get(log, at, free)
    }

    fn put(&mut self, log: u8, at: u16, word: u64) {
        self.core.put(log, at, word);
    }

    fn copy_words(&mut self, from: Place, to: Place, count: u16) {
        if count == 0 {
            return;
        }
        let source = Place {
            log: from.log,
            at: from.at + 1,
        };
        let target = Place {
            log: to.log,
            at: to.at + 1,
        };
        self.core.copy_words(source, target, count);
    }

    fn get_words(&mut self, log: u8, at: u16, count: u16, row: &mut [u8]) {
        self.core.get_words(Place { log, at }, count, row);
    }

    fn put_words(&mut self, log: u8, at: u16, bytes: &[u8], count: u16) {
        if count == 0 {
            return;
        }
        self.core.put_words(Place { log, at }, bytes, count);
    }

    fn put_zeros(&mut self, log: u8, at: u16, count: u16) {
        if count == 0 {
            return;
        }
        self.core.put_zeros(Place { log, at }, count);
    }

    #[inline(always)]
    fn name(&mut self, pointer: u16, old: u64, new: u64) -> Result<(), u64> {
        self.core.name(pointer, old, new)
    }

    fn advance(&mut self, logs: u64) -> Result<u64, Refused> {
        if !may_rise(&self.core) {
            return Err(Refused::EpochsSpent);
        }
        Ok(self.core.advance(logs))
    }

    fn look(&mut self, owner: u8) -> u64 {
        self.core.look(owner)
    }

    fn offer(&mut self, job: u8, pointer: u16, _from: Place, to: Place) {
        self.core.offer(job, pointer, to);
    }

    fn see_job(&mut self, job: u8) -> u64 {
        self.core.see_job(job)
    }

    fn collect(&mut self, job: u8, old: u64) -> Result<(), u64> {
        self.core.collect(job, old)
    }

    fn shape(&self) -> Shape {
        shape_of(&self.core)
    }
}

/// Whether there is a later epoch.
pub(crate) fn may_rise(core: &Core) -> bool
    ensures rises { result ≡ true → (core_state core.now).epoch + 1 < EPOCH_END }
    ensures spent { result ≡ false → (core_state core.now).epoch + 1 ≡ EPOCH_END }
{
    core.epoch() + 1 < EPOCH_END
}

/// How large a core is, and its epoch.
pub(crate) fn shape_of(core: &Core) -> Shape
    ensures is { result ≡ shape_of (core_state core.now) }
    ensures range { is_shape result ≡ true }
{
    core.keeps_law();
    Shape {
        logs: core.logs() as u64,
        mutators: core.mutators() as u64,
        epoch: core.epoch(),
    }
}
