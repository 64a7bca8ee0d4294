//! The beset hand's calls: each comes after a turn of the others.

ghost use Rattle.std.specs.Prelude.{◌≡◌, ◌+◌, ◌*◌, ◌<◌, ℕ, true, false};
ghost use Rattle.far_word.specs.declared.sizes.TheConstants.{LOG_WORDS};
ghost use Rattle.far_word.specs.Job.{IsJob, job_word};
ghost use Rattle.far_word.specs.Pointer.{read_of};
ghost use Rattle.far_hand.specs.BesetView.{TurnThen, beset_alone, beset_lawful, beset_may_be, beset_shown, beset_there, beset_told, beset_view};
ghost use Rattle.std.specs.Vec.{vec_len};
ghost use Rattle.far_core.specs.state.CoreState.{core_state};
ghost use Rattle.far_hand.specs.Masked.{word_at};
ghost use Rattle.far_hand.specs.Quiet.{IsQuietAt, is_quiet_word};

use crate::beset::Beset;
use crate::beset::rows::{count, find, find_job, forget, found_in, recount};
use crate::hand::Near;
use crate::plain::{may_rise, shape_of};
use far_core::Shape;
use far_word::{CELLS, Job, JobWord, Mark, Place, PtrWord, Refused, words_for};

impl Near for Beset {
    ghost view = { beset_view };

    ghost still = { ⊥ };

    ghost may_be = { beset_may_be };

    ghost makes = { TurnThen };

    ghost lawful = { beset_lawful };

    ghost shown = { beset_shown };

    ghost there = { beset_there };

    ghost alone = { beset_alone };

    ghost told = { beset_told };

    fn see(&mut self, pointer: u16) -> u64 {
        self.turn();
        let cell = self.core.see(pointer);
        find(&mut self.found, pointer, cell);
        cell
    }

    fn mark(&mut self, pointer: u16) -> u64 {
        self.turn();
        let cell = self.core.mark(pointer);
        find(&mut self.found, pointer, cell | Mark::Evac.mask());
        cell
    }

    fn clear(&mut self, pointer: u16) -> u64 {
        self.turn();
        let cell = self.core.clear(pointer);
        find(&mut self.found, pointer, cell & !Mark::Evac.mask());
        forget(&mut self.counted);
        cell
    }

    fn get(&mut self, log: u8, at: u16, free: bool) -> u64 {
        self.turn();
        let quiet = self.is_quiet_at(log, at);
        let word = self.core.get(log, at, free);
        recount(&mut self.counted, free, quiet, log, at);
        word
    }

    fn put(&mut self, log: u8, at: u16, word: u64) {
        self.turn();
        self.core.put(log, at, word);
        count(&mut self.counted, log, at);
    }

    fn name(&mut self, pointer: u16, old: u64, new: u64) -> Result<(), u64> {
        self.turn();
        match self.core.name(pointer, old, new) {
            Ok(()) => {
                find(&mut self.found, pointer, new);
                forget(&mut self.counted);
                Ok(())
            }
            Err(found) => {
                find(&mut self.found, pointer, found);
                Err(found)
            }
        }
    }

    fn advance(&mut self, logs: u64) -> Result<u64, Refused> {
        self.turn();
        if !may_rise(&self.core) {
            return Err(Refused::EpochsSpent);
        }
        let epoch = self.core.advance(logs);
        forget(&mut self.counted);
        Ok(epoch)
    }

    fn look(&mut self, owner: u8) -> u64 {
        self.turn();
        self.core.look(owner)
    }

    fn offer(&mut self, job: u8, pointer: u16, from: Place, to: Place) {
        self.turn();
        self.core.offer(job, pointer, to);
        forget(&mut self.counted);
        find_job(&mut self.jobs, job, offered(pointer, from, to));
    }

    fn see_job(&mut self, job: u8) -> u64 {
        self.turn();
        let word = self.core.see_job(job);
        find_job(&mut self.jobs, job, word);
        word
    }

    fn collect(&mut self, job: u8, old: u64) -> Result<(), u64> {
        self.turn();
        match self.core.collect(job, old) {
            Ok(()) => {
                find_job(&mut self.jobs, job, 0);
                Ok(())
            }
            Err(found) => {
                find_job(&mut self.jobs, job, found);
                Err(found)
            }
        }
    }

    fn shape(&self) -> Shape {
        shape_of(&self.core)
    }
}

/// The word of a job that is offered.
fn offered(pointer: u16, from: Place, to: Place) -> u64
    requires { IsJob record { pointer = pointer; from = from; to = to } }
    ensures { result ≡ job_word (JobWord.Offered record { pointer = pointer; from = from; to = to }) }
{
    let job = Job { pointer, from, to };
    JobWord::Offered { job }.pack()
}

impl Beset {
    /// Whether a word of a log is a data word of an object that was found quiet.
    fn is_quiet_at(&self, log: u8, at: u16) -> bool
        requires { at < LOG_WORDS }
        ensures quiet { result ≡ true → IsQuietAt (beset_view self.now) (log * LOG_WORDS + at) }
        ensures all { result ≡ false → ¬ IsQuietAt (beset_view self.now) (log * LOG_WORDS + at) }
    {
        for pointer in 0..self.found.len() {
            if self.is_quiet_word(pointer, log, at) {
                return true;
            }
        }
        false
    }

    /// Whether a word of a log is a data word of the object that a pointer's cell was found to name, and the object is quiet: by
    /// MOVE, or by the round.
    fn is_quiet_word(&self, pointer: usize, log: u8, at: u16) -> bool
        requires { pointer < vec_len self.now.found }
        ensures { result ≡ is_quiet_word (core_state self.now.core).round (core_state self.now.core).clear pointer (read_of (word_at self.now.found.items pointer)) log at }
    {
        let owner = pointer / CELLS as usize;
        match PtrWord::read(found_in(&self.found, pointer)) {
            Some(
                PtrWord::Near {
                    len,
                    place,
                    marks,
                    ..
                },
            ) => {
                let quiet = marks.moved
                    || (marks.evac
                        && self.core.is_in_round(place.log)
                        && self.core.is_clear(owner as u8));
                quiet && (place.log == log && place.at < at && at <= place.at + words_for(len))
            }
            _ => false,
        }
    }
}
