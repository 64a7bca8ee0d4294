//! The set.

ghost use Rattle.std.specs.Prelude.{◌≡◌, ◌<◌, ◌+◌, ◌/◌, true, false, not, Err, IfOk, IfErr, OnOk, OnErr, length};
ghost use Rattle.std.specs.FinSet as set;
ghost use Rattle.std.specs.Hash.DefaultHasher as sip;
ghost use Rattle.far_word.specs.declared.refused.Refused.TheVariants.{Length, Memory};
ghost use Rattle.far_seen.specs.Causes.{IsWhyPut};
ghost use Rattle.far_seen.specs.Lines.{stamp_of};

use crate::near::Near;
use crate::parts::{Parts, Store};
use crate::steps::{add, find, make_roomy};
use far_index::{Index, seeded, slots_for, tag_of_key};
use far_objects::{MOST, Objects};
use far_word::Refused;
use std::alloc::Global;
use std::marker::Model;

/// A set of lines of one byte or more. One of up to 4,088 bytes is an object of its worker, a longer one several. Near it has 10 bytes a
/// slot, and for each long line some 100, and 4 for each of its objects. Which lines it has is said where the worker is honest.
#[derive(Drop)]
pub struct Seen<O: Objects + Drop> {
    parts: Parts<O>,
}

impl<O: Objects + Drop> Model for Seen<O> {
    ghost use Rattle.far_seen.specs.Lines.{Lines, lines_code};
    ghost use Rattle.far_seen.specs.Parts.{Sound, plain, lines_of};
    ghost use Rattle.far_seen.specs.Stored.{Stored, with_longs};

    ghost Value = { Lines };

    ghost coded = { lines_code };

    ghost view = { λ s. lines_of (plain (with_longs (O.far s.parts.store.worker) s.parts.store.longs.items) s.parts.near) };

    ghost invariant = { λ s. Stored (O.far s.parts.store.worker) s.parts.store.longs.items × Sound (plain (with_longs (O.far s.parts.store.worker) s.parts.store.longs.items) s.parts.near) };
}

/// How many lines an index begins with room for.
pub const LINES: usize = 48;

/// So many homes that seven eighths of them are these.
pub fn homes(lines: usize) -> usize
    ensures some { 0 < result }
    ensures room { result < 18446744073709551615 → lines + result / 8 < result }
{
    lines.saturating_add(lines / 7).saturating_add(2)
}

impl<O: Objects + Drop> Seen<O> {
    /// An empty set. The seed is for the hash of the lines: who chooses lines mustn't know it. Refused [`Refused::Memory`] alone.
    pub fn new(alloc: Global, worker: O, seed: [u8; 16]) -> Result<Seen<O>, Refused>
        ensures honest { IfOk result (λ s. s.honest ≡ (O.far worker).honest) }
        ensures empty { IfOk result (λ s. s.lines ≡ set.empty) }
        ensures seed { IfOk result (λ s. s.seed ≡ sip.write sip.initial seed) }
        ensures stamps { IfOk result (λ s. s.stamps ≡ set.empty) }
        ensures why { IfErr result (λ why. why ≡ Memory) }
    {
        Seen::roomy(alloc, worker, seed, LINES, usize::MAX)
    }

    /// The same, with an index that has room for so many lines, 12 bytes each; it takes no more. A line above 4,088 bytes counts as many
    /// as it has objects, and 4.
    pub fn with_room(
        alloc: Global,
        worker: O,
        seed: [u8; 16],
        lines: usize,
    ) -> Result<Seen<O>, Refused>
        ensures honest { IfOk result (λ s. s.honest ≡ (O.far worker).honest) }
        ensures empty { IfOk result (λ s. s.lines ≡ set.empty) }
        ensures seed { IfOk result (λ s. s.seed ≡ sip.write sip.initial seed) }
        ensures stamps { IfOk result (λ s. s.stamps ≡ set.empty) }
        ensures why { IfErr result (λ why. why ≡ Memory) }
    {
        Seen::roomy(alloc, worker, seed, lines, lines)
    }

    // An index for so many lines, and how many there may be.
    fn roomy(
        alloc: Global,
        worker: O,
        seed: [u8; 16],
        lines: usize,
        room: usize,
    ) -> Result<Seen<O>, Refused>
        ensures honest { IfOk result (λ s. s.honest ≡ (O.far worker).honest) }
        ensures empty { IfOk result (λ s. s.lines ≡ set.empty) }
        ensures seed { IfOk result (λ s. s.seed ≡ sip.write sip.initial seed) }
        ensures stamps { IfOk result (λ s. s.stamps ≡ set.empty) }
        ensures why { IfErr result (λ why. why ≡ Memory) }
    {
        let buckets = homes(lines);
        let Ok(slots) = Index::new(alloc, slots_for(buckets)) else {
            return Err(Refused::Memory);
        };
        let Ok(buffer) = Vec::with_capacity(alloc, MOST) else {
            return Err(Refused::Memory);
        };
        let longs = Vec::new(alloc);
        let near = Near {
            slots,
            buckets,
            count: 0,
            seed: seeded(seed),
        };
        Ok(Seen {
            parts: Parts {
                store: Store {
                    worker,
                    longs,
                    room,
                    buffer,
                    alloc,
                },
                near,
            },
        })
    }

    /// How many lines it has.
    pub fn len(&self) -> usize
        ensures { self.now.honest ≡ true → result ≡ set.len self.now.lines }
    {
        self.parts.near.count
    }

    /// Its worker.
    pub fn worker(&self) -> &O
        ensures { (O.far result.now).honest ≡ self.now.honest }
    {
        &self.parts.store.worker
    }

    /// Puts a line. Whether it is the first of its kind. A line that wasn't there costs no far read, unless another one has its tag of 48
    /// bits and its length. Whatever the far side gives, it is called known only if one of its tag and its length was put.
    ///
    /// Refused: [`Refused::Length`] exactly where it has no byte; [`Refused::Memory`] where the index can't grow, or there is no more near
    /// room for long lines; [`Refused::Damaged`] where a line was read that hasn't the tag of what was put, as none of an honest far side; or
    /// as the worker refuses to read or to make an object. Then the set is as it was.
    pub fn first(&mut self, line: &[u8]) -> Result<bool, Refused>
        ensures honest { self.new.honest ≡ self.old.honest }
        ensures first { self.old.honest ≡ true → IfOk result (λ new. new ≡ not (set.contains self.old.lines line.now)) }
        ensures put { self.old.honest ≡ true → OnOk result (self.new.lines ≡ set.insert self.old.lines line.now) }
        ensures seed { self.new.seed ≡ self.old.seed }
        ensures known { IfOk result (λ new. new ≡ false → set.contains self.old.stamps (stamp_of self.old.seed line.now) ≡ true) }
        ensures stamps { OnOk result (self.new.stamps ≡ set.insert self.old.stamps (stamp_of self.old.seed line.now)) }
        ensures refused { OnErr result (self.new ≡ self.old) }
        ensures none { length line.now ≡ 0 → result ≡ Err Length }
        ensures why { IfErr result (IsWhyPut O.unmade O.unreached self.old.honest (length line.now)) }
    {
        if line.is_empty() {
            return Err(Refused::Length);
        }
        let tag = tag_of_key(&self.parts.near.seed, line);
        match find(&mut self.parts, tag, line) {
            Ok(true) => return Ok(false),
            Ok(false) => {}
            Err(why) => return Err(why),
        }
        match add(&mut self.parts, tag, line) {
            Ok(()) => {
                make_roomy(self.parts.store.alloc, &mut self.parts.near);
                Ok(true)
            }
            Err(why) => Err(why),
        }
    }
}
