//! What a worker has, for C.

ghost use Rattle.std.specs.Prelude.{◌≡◌};

use far_pool::WorkerStatistics;

/// What a worker has, and what it has done since it was opened: `struct far_statistics`. The fields are those of far_pool's `WorkerStatistics`.
#[repr(C)]
#[derive(Clone, Copy)]
pub struct FarStatistics {
    pub near: u64,
    pub far: u64,
    pub live: u64,
    pub dead: u64,
    pub unused: u64,
    pub far_bytes: u64,
    pub accesses: u64,
    pub fetches: u64,
    pub looks: u64,
    pub evictions: u64,
    pub writes_spared: u64,
    pub moves: u64,
    pub rounds: u64,
    pub device_faults: u64,
    pub heaps: u32,
}

impl FarStatistics {
    pub(crate) fn of(all: WorkerStatistics) -> FarStatistics
        // objects, and bytes, as they lie now
        ensures near { result.near ≡ all.near }
        ensures far { result.far ≡ all.far }
        ensures live { result.live ≡ all.live }
        ensures dead { result.dead ≡ all.dead }
        ensures unused { result.unused ≡ all.unused }
        ensures far_bytes { result.far_bytes ≡ all.far_bytes }

        // what was counted so far
        ensures accesses { result.accesses ≡ all.accesses }
        ensures fetches { result.fetches ≡ all.fetches }
        ensures looks { result.looks ≡ all.looks }
        ensures evictions { result.evictions ≡ all.evictions }
        ensures writes_spared { result.writes_spared ≡ all.writes_spared }
        ensures moves { result.moves ≡ all.moves }
        ensures rounds { result.rounds ≡ all.rounds }

        // what devices failed at, and how many heaps there are
        ensures device_faults { result.device_faults ≡ all.device_faults }
        ensures heaps { result.heaps ≡ all.heaps }
    {
        FarStatistics {
            near: all.near,
            far: all.far,
            live: all.live,
            dead: all.dead,
            unused: all.unused,
            far_bytes: all.far_bytes,
            accesses: all.accesses,
            fetches: all.fetches,
            looks: all.looks,
            evictions: all.evictions,
            writes_spared: all.writes_spared,
            moves: all.moves,
            rounds: all.rounds,
            device_faults: all.device_faults,
            heaps: all.heaps,
        }
    }
}
