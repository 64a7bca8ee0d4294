//! A soak of the running heap: mutators, each in a thread of its own, make and drop objects, view them, write them and read them back at random, and
//! compare each byte that they read with a record of their own, while one more thread makes whole rounds, and copiers, if there are any, copy objects.
#![tactic(auto)]

ghost use Rattle.std.specs.Prelude.{◌≡◌};
ghost use Rattle.far_heap.specs.HeapId.{with_copiers};

mod by_hand;
mod calls;
mod census;
mod copier;
mod counts;
mod desk;
mod failing;
mod far_side;
mod gate;
mod random;
mod record;
mod rounds;
mod writer;

use census::audits;
use copier::copy;
use counts::{Count, Counts};
use failing::Failing;
use far_core::Shape;
use far_device::{Device, MemDevice};
use far_heap::{Blank, Copier, Heap, HeapName, Mutator};
use far_side::{FarSide, on_disk};
use gate::Gate;
use rounds::make_rounds;
use std::alloc::{AllocError, Global};
use std::fs::{File, Files};
use std::marker::Brand;
use std::process::ExitCode;
use std::sync::Wait;
use std::thread::Threads;
use std::{env, io, thread};
use writer::{Writer, read_all, write};

/// What the program was asked for.
#[derive(Clone, Copy)]
struct Asked {
    turns: u64,
    seed: u64,
    tells: bool,
    mutators: u64,
    logs: u64,
    /// If that was said.
    copiers: Option<u8>,
    far_side: FarSide,
}

impl Asked {
    // The seed of a mutator or a copier.
    fn seed_of(self, number: u64) -> u64 {
        self.seed
            .wrapping_mul(64)
            .wrapping_add(number)
            .wrapping_add(1)
    }

    // Whether the device fails at times.
    fn fails(self) -> bool {
        matches!(self.far_side, FarSide::Faulty)
    }
}

// What all writers counted together, once all objects were read again, with a wrong audit more where the heap has another number of objects.
fn judge<K: HeapName, D: Device + Drop, R: Wait>(
    rt: &R,
    heap: &Heap<K, D>,
    writers: Vec<Writer<K, D>>,
    all: &mut Counts,
) {
    let mut objects = 0usize;
    for writer in writers {
        let desk = read_all(rt, heap, writer);
        all.add_all(&desk.counts);
        objects = objects.saturating_add(desk.objects());
    }
    if audits(&mut *heap.book(rt), Some(objects)) != Some(true) {
        all.one(Count::WrongAudits);
    }
}

// What all mutators did, each in a thread of its own.
fn write_all<K: HeapName + Send + Sync, D: Device + Drop + Send, R: Threads + Wait + Sync>(
    rt: &R,
    alloc: Global,
    gate: &Gate,
    mutators: Vec<Mutator<K, D>>,
    asked: Asked,
) -> Result<Vec<Writer<K, D>>, AllocError> {
    thread::map_vec(
        rt,
        mutators,
        &|mutator| write(rt, alloc, gate, asked, mutator),
    )
}

// What the mutators and the thread of rounds did with a heap.
fn work_beside<K: HeapName + Send + Sync, D: Device + Drop + Send, R: Threads + Wait + Sync>(
    rt: &R,
    alloc: Global,
    heap: &Heap<K, D>,
    mutators: Vec<Mutator<K, D>>,
    gate: &Gate,
    asked: Asked,
) -> Option<Counts> {
    let writers = || {
        let written = write_all(rt, alloc, gate, mutators, asked);
        gate.end();
        written
    };
    let rounds = || make_rounds(rt, heap, gate, asked);
    // Where no thread can be made rounds are run last, when all writers have ended.
    let (mut counts, written) = thread::join(rt, rounds, writers);
    match written {
        Ok(writers) => {
            judge(rt, heap, writers, &mut counts);
            Some(counts)
        }
        Err(_) => None,
    }
}

// What all copiers did, each in a thread of its own.
fn copy_all<K: HeapName + Send + Sync, D: Device + Drop + Send, R: Threads + Wait + Sync>(
    rt: &R,
    copiers: Vec<Copier<K, D>>,
    gate: &Gate,
    asked: Asked,
) -> Result<Vec<Counts>, AllocError> {
    thread::map_vec(rt, copiers, &|copier| copy(gate, asked, copier))
}

// The sum of what was counted.
fn sum(mut all: Counts, more: &[Counts]) -> Counts {
    for counts in more {
        all.add_all(counts);
    }
    all
}

// What all threads did with a heap, the copiers' too.
fn work_copied<K: HeapName + Send + Sync, D: Device + Drop + Send, R: Threads + Wait + Sync>(
    rt: &R,
    alloc: Global,
    heap: &Heap<K, D>,
    mutators: Vec<Mutator<K, D>>,
    copiers: Vec<Copier<K, D>>,
    asked: Asked,
) -> Option<Counts> {
    let gate = Gate::new();
    let passed = &gate;
    let copies = || copy_all(rt, copiers, passed, asked);
    let others = || {
        let counts = work_beside(rt, alloc, heap, mutators, passed, asked);
        passed.close();
        counts
    };
    let (copied, counts) = thread::join(rt, copies, others);
    match copied {
        Ok(copied) => Some(sum(counts?, copied.as_slice())),
        Err(_) => None,
    }
}

// The same with a heap of these parts, with copiers.
fn copied<K: HeapName + Send + Sync, D: Device + Drop + Send, R: Threads + Wait + Sync>(
    rt: &R,
    alloc: Global,
    blank: Blank<D>,
    copiers: u8,
    asked: Asked,
) -> Option<Counts>
    requires { with_copiers blank.heap ≡ K.heap }
{
    match Heap::<K, D>::with_copiers(alloc, blank, copiers) {
        Ok((heap, mutators, copiers)) => work_copied(rt, alloc, &heap, mutators, copiers, asked),
        Err(_) => None,
    }
}

// The same without.
fn beside<K: HeapName + Send + Sync, D: Device + Drop + Send, R: Threads + Wait + Sync>(
    rt: &R,
    alloc: Global,
    blank: Blank<D>,
    asked: Asked,
) -> Option<Counts>
    requires { blank.heap ≡ K.heap }
{
    match Heap::<K, D>::new(alloc, blank) {
        Ok((heap, mutators)) => work_beside(rt, alloc, &heap, mutators, &Gate::new(), asked),
        Err(_) => None,
    }
}

// What all threads did with a new heap of so many copiers over a device.
fn soak<D: Device + Drop + Send, R: Threads + Wait + Sync>(
    rt: &R,
    alloc: Global,
    device: D,
    copiers: u8,
    asked: Asked,
) -> Option<Counts> {
    let shape = Shape {
        logs: asked.logs,
        mutators: asked.mutators,
        epoch: 0,
    };
    let Ok(blank) = Blank::new(alloc, shape, device) else {
        return None;
    };
    if copiers > 0 {
        copied::<Brand, D, R>(rt, alloc, blank, copiers, asked)
    } else {
        beside::<Brand, D, R>(rt, alloc, blank, asked)
    }
}

// The same over the device that was asked for.
fn soak_over<R: Files<File = File> + Eprint + Threads + Wait + Sync>(
    rt: &R,
    alloc: Global,
    copiers: u8,
    asked: Asked,
) -> Option<Counts> {
    match asked.far_side {
        FarSide::Memory => soak(rt, alloc, MemDevice::new(alloc), copiers, asked),
        FarSide::Disk => soak(rt, alloc, on_disk(rt, alloc)?, copiers, asked),
        FarSide::Faulty => {
            let device = Failing::by_seed(alloc, asked.seed);
            soak(rt, alloc, device, copiers, asked)
        }
    }
}

// The same of each heap that was asked for: of one without copiers and of one with two, unless their number was said.
fn soak_each<R: Files<File = File> + Eprint + Threads + Wait + Sync>(
    rt: &R,
    alloc: Global,
    asked: Asked,
) -> Option<Counts> {
    if let Some(copiers) = asked.copiers {
        return soak_over(rt, alloc, copiers, asked);
    }
    let mut all = soak_over(rt, alloc, 0, asked)?;
    all.add_all(&soak_over(rt, alloc, 2, asked)?);
    Some(all)
}

// A number among the words. `None` if the word is none, or is missing where nothing stands for it.
fn number(words: &[String], at: usize, unsaid: Option<u64>) -> Option<u64> {
    match words.get(at) {
        Some(word) => word.parse::<u64>().ok(),
        None => unsaid,
    }
}

// Whether all counts are to be told. `None` if the word is another.
fn tells(words: &[String]) -> Option<bool> {
    match words.get(3) {
        Some(word) if word.as_str() == "tell" => Some(true),
        Some(_) => None,
        None => Some(false),
    }
}

// How many copiers the words say, if they do. `None` if the word is no such number.
fn copiers(words: &[String]) -> Option<Option<u8>> {
    match words.get(6) {
        Some(word) => Some(Some(word.parse::<u8>().ok()?)),
        None => Some(None),
    }
}

// The device that the words say, memory if they don't. `None` if the word is none of a device.
fn far_side_of(words: &[String]) -> Option<FarSide> {
    match words.get(7) {
        Some(word) => FarSide::by(word.as_str()),
        None => Some(FarSide::Memory),
    }
}

// The turns of each mutator, the seed, whether all counts are to be told, how large the heap is, and its device.
fn asked_by(words: &[String]) -> Option<Asked> {
    Some(Asked {
        turns: number(words, 1, None)?,
        seed: number(words, 2, None)?,
        tells: tells(words)?,
        mutators: number(words, 4, Some(4))?,
        logs: number(words, 5, Some(16))?,
        copiers: copiers(words)?,
        far_side: far_side_of(words)?,
    })
}

fn arguments(rt: &HostRuntime) -> io::Result<Option<Asked>> {
    let words: Vec<String> = env::args(rt)?.collect(rt.alloc())?;
    Ok(asked_by(words.as_slice()))
}

fn usage(rt: &impl Eprint) -> ExitCode {
    let _ = eprintln!(rt;
        "usage: soak_far_heap TURNS SEED [tell [MUTATORS [LOGS [COPIERS [DEVICE]]]]]"
    );
    ExitCode::from(2)
}

fn tell(rt: &impl Print, counts: &Counts, tells: bool) -> io::Result<()> {
    println!(rt; "wrong {}", counts.wrong())?;
    if tells {
        println!(rt; "{counts:?}")?;
    }
    Ok(())
}

fn main(rt: HostRuntime) -> ExitCode {
    let Ok(Some(asked)) = arguments(&rt) else {
        return usage(&rt);
    };
    let Some(counts) = soak_each(&rt, rt.alloc(), asked) else {
        return ExitCode::from(2);
    };
    if tell(&rt, &counts, asked.tells).is_err() || counts.wrong() != 0 {
        return ExitCode::FAILURE;
    }
    ExitCode::SUCCESS
}
