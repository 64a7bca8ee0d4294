//! How many heaps a worker needs, and what they cost.

ghost use Rattle.std.specs.Prelude.{◌≡◌, ◌+◌, ◌*◌, ◌/◌, ℕ, ◌<◌, ◌≤◌, ◌⊎◌, IfOk, IfErr, max, min};
ghost use Rattle.far_word.specs.declared.sizes.TheConstants.{LONGEST, MOST_LOGS};
ghost use Rattle.far_pool.specs.Plans.{IsLaid, IsUnplanned, heaps_for, least_logs, least_near};

use far_word::{LONGEST, MOST_LOGS, POINTERS, size_of};
use thiserror::Error;

/// Bytes of a log.
const LOG: u64 = 4096;

/// Bytes that a heap takes beside its logs: of 2,048 pointers cells, places, marks and generations, 16 bytes each; 4,088 to fetch objects into; 8 KiB of a device over
/// a file; and some 2 KiB.
const HEAP_BESIDE: u64 = 47_104;

/// Bytes that a log takes beside its words.
const LOG_BESIDE: u64 = 80;

/// The most heaps of a layout.
const MOST_HEAPS: u64 = 2_097_152;

/// The most objects of a plan.
const MOST_OBJECTS: u64 = 4_294_967_296;

/// What a worker is to have.
#[derive(Clone, Copy, Debug, PartialEq, Eq)]
pub struct Plan {
    /// Bytes for objects that lie near. What they cost beside is told by [`Layout::metadata`].
    pub near: u64,
    /// How many objects there may be, near and far, up to 2^32.
    pub objects: u64,
    /// How many bytes most of them have, 1 to 4,088.
    pub typical: u16,
}

/// Heaps of a worker.
#[derive(Clone, Copy, Debug, PartialEq, Eq)]
pub struct Layout {
    /// How many there are.
    pub heaps: u32,
    /// How many logs of 4,096 bytes each has, 2 to 64.
    pub logs: u64,
}

impl Layout {
    /// Bytes of its logs, of at most 64 a heap.
    pub fn near(&self) -> u64
        ensures { self.now.logs ≤ MOST_LOGS → result ≡ self.now.heaps * self.now.logs * LOG }
    {
        self.heaps as u64 * self.logs.min(MOST_LOGS as u64) * LOG
    }

    /// Bytes of memory that its heaps take beside their logs, full of objects, with those of a device over a file: 23 bytes an object of a full heap. What else a device
    /// takes isn't counted, as far objects in memory.
    pub fn metadata(&self) -> u64
        ensures { self.now.logs ≤ MOST_LOGS → result ≡ self.now.heaps * (HEAP_BESIDE + self.now.logs * LOG_BESIDE) }
    {
        self.heaps as u64 * (HEAP_BESIDE + self.logs.min(MOST_LOGS as u64) * LOG_BESIDE)
    }
}

/// Why a plan can't be laid out.
#[derive(Clone, Copy, Debug, PartialEq, Eq, Error)]
pub enum Unplanned {
    #[error("an object has 1 to 4088 bytes")]
    Length,
    #[error("a worker has at most {0} objects")]
    Objects(u64),
    #[error("there is no room near for so many objects: {0} bytes would do")]
    Near(u64),
}

impl Plan {
    /// A plan for so many bytes near: objects of 64 bytes, four times as many as find room there, 2^32 at most. From 12,288 bytes on it can be laid out.
    pub fn for_near(near: u64) -> Plan
        ensures near { result.near ≡ near }
        ensures typical { result.typical ≡ 64 }
        ensures objects { result.objects ≡ min (near / 18) MOST_OBJECTS }
        ensures enough { 12288 ≤ near → least_near result ≤ near }
    {
        Plan {
            near,
            objects: (near / 18).min(MOST_OBJECTS),
            typical: 64,
        }
    }

    /// The fewest bytes near that would do: each heap has room for rounds and for eight objects of the typical length. Meant for plans of at most 2^32 objects of 1
    /// to 4,088 bytes.
    pub fn least_near(&self) -> u64
        requires objects { self.now.objects ≤ MOST_OBJECTS }
        requires typical { self.now.typical ≤ LONGEST }
        ensures { result ≡ least_near self.now }
    {
        heaps_for(self.objects) * least_logs(self.typical) * LOG
    }

    /// How many heaps of how many logs it comes to.
    ///
    /// Refused, in this order, and only then: [`Unplanned::Length`], [`Unplanned::Objects`], and [`Unplanned::Near`] with the fewest bytes that would do.
    pub fn lay_out(&self) -> Result<Layout, Unplanned>
        ensures laid { IfOk result (IsLaid self.now) }
        ensures refused { IfErr result (IsUnplanned self.now) }
    {
        if self.typical == 0 || self.typical > LONGEST {
            return Err(Unplanned::Length);
        }
        if self.objects > MOST_OBJECTS {
            return Err(Unplanned::Objects(MOST_OBJECTS));
        }
        let least = self.least_near();
        if self.near < least {
            return Err(Unplanned::Near(least));
        }
        Ok(share(heaps_for(self.objects), self.near / LOG))
    }
}

// As few heaps as may be, so many at least, of all these logs.
fn share(least: u64, all: u64) -> Layout
    requires some { 0 < least }
    requires few { least ≤ MOST_HEAPS }
    ensures near { result.heaps * result.logs ≤ all }
    ensures heaps { least ≤ result.heaps }
    ensures logs { (n : ℕ) → n ≤ MOST_LOGS → least * n ≤ all → n ≤ result.logs }
    ensures most { result.logs ≤ MOST_LOGS }
    ensures most_heaps { result.heaps ≤ MOST_HEAPS }
    ensures few { (result.heaps ≡ least) ⊎ (result.heaps * MOST_LOGS ≤ all) }
    ensures full { ((result.logs < MOST_LOGS) × (all < result.heaps * (result.logs + 1))) ⊎ ((result.logs ≡ MOST_LOGS) × ((all < (result.heaps + 1) * MOST_LOGS) ⊎ (result.heaps ≡ MOST_HEAPS))) }
{
    let heaps = least.max((all / 64).min(MOST_HEAPS));
    let logs = (all / heaps).min(MOST_LOGS as u64);
    Layout {
        heaps: heaps as u32,
        logs,
    }
}

// The fewest heaps that have pointers for so many objects.
fn heaps_for(objects: u64) -> u64
    ensures { result ≡ heaps_for objects }
{
    objects.div_ceil(POINTERS as u64).max(1)
}

// The fewest logs of a heap.
fn least_logs(typical: u16) -> u64
    ensures { result ≡ least_logs typical }
{
    2 + (size_of(typical) as u64).div_ceil(64)
}
