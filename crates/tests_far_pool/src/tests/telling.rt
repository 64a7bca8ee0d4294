//! What a worker tells of its accesses and its devices, and how it is printed.

ghost use Rattle.std.specs.Prelude.{◌≡◌, false};

use far_file::{FileDevice, MemStorage, Storage, StorageFault};
use far_pool::{Handle, Layout, MakeDevice, Worker, WorkerStatistics};
use far_word::Refused;
use std::alloc::Global;

/// Storage in memory, which takes nothing at so many calls.
#[derive(Drop)]
struct Shut {
    bytes: MemStorage,
    refuses: u64,
}

impl Storage for Shut {
    ghost seen = { λ _ _. 0 };

    ghost honest = { λ _. false };

    ghost puts = { λ _ _ _ _ _. Unit {0} };

    ghost gets = { λ _ _ _ _. Unit {0} };

    fn put(&mut self, at: u64, bytes: &[u8]) -> Result<(), StorageFault> {
        if self.refuses > 0 {
            self.refuses -= 1;
            return Err(StorageFault::Failed);
        }
        self.bytes.put(at, bytes)
    }

    fn get(&self, at: u64, buffer: &mut [u8]) -> Result<(), StorageFault> {
        self.bytes.get(at, buffer)
    }
}

/// Makes devices of which that of the third heap takes nothing, and those beside it nothing at first.
#[derive(Drop)]
struct ShutDevices {
    alloc: Global,
}

impl MakeDevice<FileDevice<Shut>> for ShutDevices {
    ghost honest = { false };

    ghost refuses = { λ why. Unit {0} };

    fn make(&mut self, heap: u32) -> Result<FileDevice<Shut>, Refused> {
        let shut = Shut {
            bytes: MemStorage::new(self.alloc),
            refuses: match heap {
                0 => 0,
                2 => u64::MAX,
                _ => 3,
            },
        };
        Ok(FileDevice::<Shut>::new(self.alloc, shut))
    }
}

// Makes 120 objects, as far as there is room for them, each with a write, an update and a read: how many, and the first of them.
fn make(worker: &mut Worker<FileDevice<Shut>, ShutDevices>) -> Result<(u64, Handle), Refused> {
    let mut first = Handle::from_bits(u64::MAX);
    let mut made: u64 = 0;
    for number in 0..120u8 {
        if let Ok(handle) = worker.alloc(&[number; 400], 1) {
            worker.write(handle, 0, &[7])?;
            worker.update(handle, 1, &mut [0], |bytes: &mut [u8]| bytes.fill(7))?;
            worker.read(handle, 0, &mut [0])?;
            first = if made == 0 { handle } else { first };
            made = made.saturating_add(1);
        }
    }
    Ok((made, first))
}

type Told = Worker<FileDevice<Shut>, ShutDevices>;

// Whether each access of a handle is refused: four accesses.
fn is_refused(worker: &mut Told, handle: Handle, whole: &mut Vec<u8>) -> bool {
    let none = Err(Refused::NotHeld);
    worker.read(handle, 0, &mut [0]) == none
        && worker.write(handle, 0, &[7]) == none
        && worker.update(handle, 0, &mut [0], |bytes: &mut [u8]| bytes.fill(7)) == none
        && worker.read_into(handle, whole) == none
}

// Reads the first, which is far and comes near at the second read; asks for another generation, and for a heap that there isn't; and drops it. Each call but the last is an access.
fn told(alloc: Global) -> Result<(bool, WorkerStatistics), Refused> {
    let layout = Layout { heaps: 4, logs: 3 };
    let mut worker = Worker::new(alloc, ShutDevices { alloc }, layout, false)?;
    let (made, first) = make(&mut worker)?;
    let before = worker.statistics();
    let mut whole = Vec::new(alloc);
    worker.read(first, 0, &mut [0])?;
    let old = Handle::from_bits(first.to_bits().wrapping_add(1));
    let gone = is_refused(&mut worker, old, &mut whole);
    let none = is_refused(&mut worker, Handle::from_bits(u64::MAX), &mut whole);
    worker.read_into(first, &mut whole)?;
    worker.drop_object(first)?;
    let right = before.accesses == made.saturating_mul(3)
        && before.looks == 0
        && before.fetches == 0
        && before.misses_per_thousand() == 0
        && whole.len() == 400;
    Ok((right && gone && none, worker.statistics()))
}

// What the heaps have and have done, in all. The third is the worst, in the midst of two whose devices failed three times.
const ALL: WorkerStatistics = WorkerStatistics {
    heaps: 4,
    near: 56,
    far: 53,
    live: 22_848,
    dead: 408,
    unused: 25_896,
    far_bytes: 21_200,
    accesses: 340,
    fetches: 1,
    looks: 1,
    evictions: 54,
    writes_spared: 0,
    moves: 286,
    rounds: 44,
    device_faults: 216,
    worst: Some(2),
    worst_faults: 210,
};

#[test]
fn a_worker_tells_accesses_and_the_worst_heap(rt: HostRuntime) {
    match told(rt.alloc()) {
        Ok((right, all)) => assert!(rt; right && all == ALL, "{right} {all}"),
        Err(_) => assert!(rt; false),
    }
}

const TOLD: WorkerStatistics = WorkerStatistics {
    heaps: 1,
    near: 2,
    far: 3,
    live: 4,
    dead: 5,
    unused: 6,
    far_bytes: 7,
    accesses: 8000,
    fetches: 3,
    looks: 6,
    evictions: 10,
    writes_spared: 11,
    moves: 12,
    rounds: 13,
    device_faults: 14,
    worst: Some(15),
    worst_faults: 16,
};

const LINE: &str =
    "heaps 1 near 2 far 3 live 4 dead 5 unused 6 far_bytes 7 accesses 8000 misses_per_thousand 1 fetches 3 looks 6 evictions 10 spared 11 moves 12 rounds 13 faults 14 worst 15 worst_faults 16";

// The same where no device failed.
const NO_FAULT: WorkerStatistics = WorkerStatistics {
    device_faults: 0,
    worst: None,
    worst_faults: 0,
    ..TOLD
};

const LINE_WITHOUT: &str =
    "heaps 1 near 2 far 3 live 4 dead 5 unused 6 far_bytes 7 accesses 8000 misses_per_thousand 1 fetches 3 looks 6 evictions 10 spared 11 moves 12 rounds 13 faults 0 worst none";

#[test]
fn statistics_are_one_line(rt: HostRuntime) {
    for (told, line) in [(TOLD, LINE), (NO_FAULT, LINE_WITHOUT)] {
        match format!(in rt.alloc(); "{told}") {
            Ok(text) => assert!(rt; text.as_str() == line),
            Err(_) => assert!(rt; false),
        }
    }
}
