//! How often each line came.

ghost use Rattle.std.specs.Prelude.{◌≡◌, ◌<◌, ◌+◌, ◌∷◌, [], ℕ, List, true, Err, IfOk, IfErr, OnOk, OnErr, length};
ghost use Rattle.std.specs.Hash.DefaultHasher as sip;
ghost use Rattle.far_word.specs.declared.refused.Refused.TheVariants.{Length, Memory};
ghost use Rattle.far_seen.specs.Causes.{IsWhyPut, IsWhyUnread};
ghost use Rattle.far_seen.specs.Lines.{stamp_of};
ghost use Rattle.far_seen.specs.Tallied.{count_of, counted, line_of, often, times, total};

use crate::enter::{count_again, enter, find_line, has_slot};
use crate::near::Near;
use crate::parts::Store;
use crate::read::read_line;
use crate::roll::Roll;
use crate::seen::{LINES, homes};
use crate::steps::make_roomy;
use far_index::{Index, seeded, slots_for, tag_of_key};
use far_objects::{MOST, Objects};
use far_word::Refused;
use std::alloc::Global;
use std::marker::Model;

/// How often each line of one byte or more came, in the order in which each came first. Near it has 12 bytes a line beside what a
/// [`Seen`](crate::Seen) has. Which line it was is said where the worker is honest.
#[derive(Drop)]
pub struct Tally<O: Objects + Drop> {
    roll: Roll<O>,
}

impl<O: Objects + Drop> Model for Tally<O> {
    ghost use Rattle.far_seen.specs.Listed.{Listed, all_of, counts_from, stamp_for};
    ghost use Rattle.far_seen.specs.Parts.{Sound, plain};
    ghost use Rattle.far_seen.specs.Stored.{Stored};
    ghost use Rattle.far_seen.specs.Tallied.{Tallied, tallied_code};

    ghost Value = { Tallied };

    ghost coded = { tallied_code };

    ghost view = { λ s. record { honest = (O.far s.roll.store.worker).honest; lines = counts_from (all_of (O.far s.roll.store.worker) s.roll.store.longs.items s.roll.numbers.items).bytes 0 s.roll.counts.items; seed = s.roll.near.seed; stamps = counts_from (stamp_for (all_of (O.far s.roll.store.worker) s.roll.store.longs.items s.roll.numbers.items).sizes s.roll.near.slots) 0 s.roll.counts.items } };

    ghost invariant = { λ s. Stored (O.far s.roll.store.worker) s.roll.store.longs.items × Sound (plain (all_of (O.far s.roll.store.worker) s.roll.store.longs.items s.roll.numbers.items) s.roll.near) × Listed s.roll.near.slots s.roll.numbers.items s.roll.counts.items };
}

impl<O: Objects + Drop> Tally<O> {
    /// No line. The seed is for the hash of the lines: who chooses lines mustn't know it. Refused [`Refused::Memory`] alone.
    pub fn new(alloc: Global, worker: O, seed: [u8; 16]) -> Result<Tally<O>, Refused>
        ensures honest { IfOk result (λ t. t.honest ≡ (O.far worker).honest) }
        ensures empty { IfOk result (λ t. t.lines ≡ []) }
        ensures seed { IfOk result (λ t. t.seed ≡ sip.write sip.initial seed) }
        ensures stamps { IfOk result (λ t. t.stamps ≡ []) }
        ensures why { IfErr result (λ why. why ≡ Memory) }
    {
        Tally::roomy(alloc, worker, seed, LINES, usize::MAX)
    }

    /// The same, with near room for so many lines, 24 bytes each; it takes no more. A line above 4,088 bytes counts as many as it has
    /// objects, and 4.
    pub fn with_room(
        alloc: Global,
        worker: O,
        seed: [u8; 16],
        lines: usize,
    ) -> Result<Tally<O>, Refused>
        ensures honest { IfOk result (λ t. t.honest ≡ (O.far worker).honest) }
        ensures empty { IfOk result (λ t. t.lines ≡ []) }
        ensures seed { IfOk result (λ t. t.seed ≡ sip.write sip.initial seed) }
        ensures stamps { IfOk result (λ t. t.stamps ≡ []) }
        ensures why { IfErr result (λ why. why ≡ Memory) }
    {
        Tally::roomy(alloc, worker, seed, lines, lines)
    }

    // Near room for so many lines, and how many there may be.
    fn roomy(
        alloc: Global,
        worker: O,
        seed: [u8; 16],
        lines: usize,
        room: usize,
    ) -> Result<Tally<O>, Refused>
        ensures honest { IfOk result (λ t. t.honest ≡ (O.far worker).honest) }
        ensures empty { IfOk result (λ t. t.lines ≡ []) }
        ensures seed { IfOk result (λ t. t.seed ≡ sip.write sip.initial seed) }
        ensures stamps { IfOk result (λ t. t.stamps ≡ []) }
        ensures why { IfErr result (λ why. why ≡ Memory) }
    {
        let buckets = homes(lines);
        let Ok(slots) = Index::new(alloc, slots_for(buckets)) else {
            return Err(Refused::Memory);
        };
        let Ok(buffer) = Vec::with_capacity(alloc, MOST) else {
            return Err(Refused::Memory);
        };
        let Ok(numbers) = Vec::with_capacity(alloc, lines) else {
            return Err(Refused::Memory);
        };
        let Ok(counts) = Vec::with_capacity(alloc, lines) else {
            return Err(Refused::Memory);
        };
        let longs = Vec::new(alloc);
        let near = Near {
            slots,
            buckets,
            count: 0,
            seed: seeded(seed),
        };
        let store = Store {
            worker,
            longs,
            room,
            buffer,
            alloc,
        };
        Ok(Tally {
            roll: Roll {
                store,
                numbers,
                counts,
                near,
            },
        })
    }

    /// How many different lines came.
    pub fn len(&self) -> usize
        ensures lines { result ≡ length self.now.lines }
        ensures even { times self.now.stamps ≡ times self.now.lines }
    {
        self.roll.counts.len()
    }

    /// Its worker.
    pub fn worker(&self) -> &O
        ensures { (O.far result.now).honest ≡ self.now.honest }
    {
        &self.roll.store.worker
    }

    /// Counts a line. One that didn't come before costs no far read, unless another one has its tag of 48 bits and its length. Whatever the
    /// far side gives, it is one more of those.
    ///
    /// Refused: [`Refused::Length`] exactly where it has no byte; [`Refused::Memory`] where near room can't be had, or there is no more for
    /// long lines, or where it came 2^64 - 1 times; [`Refused::Damaged`] where a line was read that hasn't the tag of what was put, as none
    /// of an honest far side; or as the worker refuses to read or to make an object. Then the tally is as it was.
    pub fn add(&mut self, line: &[u8]) -> Result<(), Refused>
        ensures honest { self.new.honest ≡ self.old.honest }
        ensures counted { self.old.honest ≡ true → OnOk result (self.new.lines ≡ counted self.old.lines line.now) }
        ensures total { OnOk result (total self.new.lines ≡ total self.old.lines + 1) }
        ensures seed { self.new.seed ≡ self.old.seed }
        ensures stamps { OnOk result ((q : List ℕ) → often q self.new.stamps ≡ often q ((stamp_of self.old.seed line.now, 1) ∷ self.old.stamps)) }
        ensures refused { OnErr result (self.new ≡ self.old) }
        ensures none { length line.now ≡ 0 → result ≡ Err Length }
        ensures why { IfErr result (IsWhyPut O.unmade O.unreached self.old.honest (length line.now)) }
    {
        if line.is_empty() {
            return Err(Refused::Length);
        }
        let tag = tag_of_key(&self.roll.near.seed, line);
        match find_line(
            &mut self.roll.store,
            self.roll.numbers.as_slice(),
            &self.roll.near,
            tag,
            line,
        ) {
            Ok(Some(place)) => return count_again(&mut self.roll.counts, place as usize),
            Ok(None) => {}
            Err(why) => return Err(why),
        }
        match enter(&mut self.roll, tag, line) {
            Ok(()) => {
                make_roomy(self.roll.store.alloc, &mut self.roll.near);
                Ok(())
            }
            Err(why) => Err(why),
        }
    }

    /// Makes `out` the line that came first as the so many-th, from 0, and answers how often it came. After an error `out` may have any bytes.
    /// Whatever the far side gives, it has the tag and the length of what was put there.
    ///
    /// Refused: [`Refused::Memory`]; [`Refused::Damaged`] where what was read hasn't the tag of what was put, as nothing of an honest far
    /// side; or as the worker reads no object.
    pub fn read(&mut self, place: usize, out: &mut Vec<u8>) -> Result<u64, Refused>
        requires { place < length self.old.lines }
        ensures same { self.new ≡ self.old }
        ensures line { self.old.honest ≡ true → OnOk result (out.new.items ≡ line_of self.old.lines place) }
        ensures count { IfOk result (λ n. n ≡ count_of self.old.lines place) }
        ensures stamp { OnOk result (stamp_of self.old.seed out.new.items ≡ line_of self.old.stamps place) }
        ensures some { OnOk result (0 < length out.new.items) }
        ensures why { IfErr result (IsWhyUnread O.unreached self.old.honest) }
    {
        match read_line(&mut self.roll.store, self.roll.numbers[place], out) {
            Ok(()) => {}
            Err(why) => return Err(why),
        }
        let tag = tag_of_key(&self.roll.near.seed, out.as_slice());
        if !has_slot(&self.roll.near, tag, place) {
            return Err(Refused::Damaged);
        }
        Ok(self.roll.counts[place])
    }
}
