//! What a worker has, and what it has done.

ghost use Rattle.std.specs.Prelude.{◌≡◌, ◌+◌, ◌*◌, ◌/◌, ◌<◌, ◌^◌, ◌≤◌, None};
ghost use Rattle.far_pool.specs.Statistics.{Adds, compared, misses_per_thousand};

use far_private::Statistics;
use std::fmt;

/// What a worker has, and what it has done since it was made: sums over its heaps.
#[derive(Clone, Copy, Debug, PartialEq, Eq)]
pub struct WorkerStatistics {
    /// Its heaps.
    pub heaps: u32,
    /// Objects that lie in the logs.
    pub near: u64,
    /// Objects that lie on a device alone.
    pub far: u64,
    /// Bytes of the logs that objects take, with a header of 8 bytes each, and each in whole words.
    pub live: u64,
    /// Bytes of the logs that nothing needs any more, until a round gives their log back.
    pub dead: u64,
    /// Bytes of the logs that were not taken since their log was free.
    pub unused: u64,
    /// Bytes of the objects on the devices alone, headers not counted.
    pub far_bytes: u64,
    /// Calls of `read`, `read_into`, `write` and `update`, reads and writes by number, also those that were refused, modulo 2^64.
    pub accesses: u64,
    /// Objects that were brought near.
    pub fetches: u64,
    /// Reads of far objects where these lie, also those that failed.
    pub looks: u64,
    /// Objects that went far.
    pub evictions: u64,
    /// Those of them that were not written, as the device had their bytes.
    pub writes_spared: u64,
    /// Objects that went to another place in the logs.
    pub moves: u64,
    /// Rounds that were made.
    pub rounds: u64,
    /// Calls of devices that these failed.
    pub device_faults: u64,
    /// The heap whose device failed most often, the first of them; `None` if none did.
    pub worst: Option<u32>,
    /// How often that failed.
    pub worst_faults: u64,
}

impl WorkerStatistics {
    // Of no heap, after so many accesses.
    pub(crate) fn none(accesses: u64) -> WorkerStatistics
        ensures objects { result.near + result.far ≡ 0 }
        ensures heaps { result.heaps ≡ 0 }
        ensures worst { result.worst ≡ None }
        ensures faults { result.worst_faults ≡ 0 }
    {
        WorkerStatistics {
            heaps: 0,
            near: 0,
            far: 0,
            live: 0,
            dead: 0,
            unused: 0,
            far_bytes: 0,
            accesses,
            fetches: 0,
            looks: 0,
            evictions: 0,
            writes_spared: 0,
            moves: 0,
            rounds: 0,
            device_faults: 0,
            worst: None,
            worst_faults: 0,
        }
    }

    // Whether the next heap's device failed more often than any before.
    fn compare(&mut self, faults: u64)
        ensures { self.new ≡ compared faults self.old }
    {
        if faults > self.worst_faults {
            self.worst = Some(self.heaps);
            self.worst_faults = faults;
        }
    }

    // Of a heap more.
    pub(crate) fn add(&mut self, more: &Statistics)
        requires { self.old.near + self.old.far ≤ 2 ^ 60 }
        ensures { Adds self.old more.now self.new }
    {
        self.compare(more.device_faults);
        self.heaps = self.heaps.saturating_add(1);
        self.near += u64::from(more.near);
        self.far += u64::from(more.far);
        self.live = self.live.saturating_add(more.live);
        self.dead = self.dead.saturating_add(more.dead);
        self.unused = self.unused.saturating_add(more.unused);
        self.far_bytes = self.far_bytes.saturating_add(more.far_bytes);
        self.fetches = self.fetches.saturating_add(more.fetches);
        self.looks = self.looks.saturating_add(more.looks);
        self.evictions = self.evictions.saturating_add(more.evictions);
        self.writes_spared = self.writes_spared.saturating_add(more.writes_spared);
        self.moves = self.moves.saturating_add(more.moves);
        self.rounds = self.rounds.saturating_add(more.rounds);
        self.device_faults = self.device_faults.saturating_add(more.device_faults);
    }

    /// How many far objects were read in a thousand accesses, whether or not they came near, rounded down; 0 where there was no access.
    pub fn misses_per_thousand(&self) -> u64
        ensures { self.now.fetches + self.now.looks ≤ 2 ^ 54 → result ≡ misses_per_thousand self.now }
    {
        if self.accesses == 0 {
            return 0;
        }
        let misses = self.fetches.saturating_add(self.looks);
        misses.saturating_mul(1000) / self.accesses
    }

    // What it has, in words.
    fn tell_objects<W: fmt::Write>(&self, f: &mut fmt::Formatter<W>) -> fmt::Result {
        write!(
            f,
            "heaps {} near {} far {} live {} dead {} unused {} far_bytes {}",
            self.heaps, self.near, self.far, self.live, self.dead, self.unused, self.far_bytes
        )
    }

    // What it has done.
    fn tell_work<W: fmt::Write>(&self, f: &mut fmt::Formatter<W>) -> fmt::Result {
        write!(
            f,
            " accesses {} misses_per_thousand {} fetches {} looks {} evictions {} spared {} moves {} rounds {}",
            self.accesses,
            self.misses_per_thousand(),
            self.fetches,
            self.looks,
            self.evictions,
            self.writes_spared,
            self.moves,
            self.rounds
        )
    }

    // What devices failed.
    fn tell_faults<W: fmt::Write>(&self, f: &mut fmt::Formatter<W>) -> fmt::Result {
        match self.worst {
            Some(heap) => write!(
                f,
                " faults {} worst {heap} worst_faults {}",
                self.device_faults, self.worst_faults
            ),
            None => write!(f, " faults {} worst none", self.device_faults),
        }
    }
}

impl fmt::Display for WorkerStatistics {
    fn fmt<W: fmt::Write>(&self, f: &mut fmt::Formatter<W>) -> fmt::Result {
        self.tell_objects(f)?;
        self.tell_work(f)?;
        self.tell_faults(f)
    }
}
