//! The program that far_heap's page begins with: two mutators at work, and a thread that makes rounds.

ghost use Rattle.std.specs.Prelude.{◌≡◌};

use crate::tests::looks::{blank, sized};
use byteorder::LittleEndian;
use far_device::MemDevice;
use far_evac::RoundEnd;
use far_heap::{Blank, Heap, HeapName, Mutator, Scope, lend};
use far_policy::Oldest;
use far_word::Refused;
use std::alloc::{AllocError, Global};
use std::marker::Brand;
use std::sync::Wait;
use std::test::Fail;
use std::thread;
use std::thread::Threads;

// Writes an integer into an object and reads it back.
fn once<K: HeapName, R: Wait>(
    rt: &R,
    scope: &mut Scope<K, MemDevice>,
    pointer: u16,
    number: u64,
) -> Result<bool, Refused> {
    let view = scope.view(rt, pointer)?;
    scope.write_u64::<LittleEndian>(&view, 8, number)?;
    Ok(scope.read_u64::<LittleEndian>(&view, 8)? == number)
}

// A hundred times, in a scope of its own each time.
fn work<K: HeapName, R: Wait>(rt: &R, mut mutator: Mutator<K, MemDevice>) -> Result<bool, Refused> {
    let pointer = mutator.alloc(rt, 64, 1)?;
    for turn in 0..100 {
        let (closed, done) = lend(
            mutator.open(),
            |scope: &mut Scope<K, MemDevice>| once(rt, scope, pointer, turn),
        );
        mutator = closed;
        if !done? {
            return Ok(false);
        }
    }
    mutator.drop_object(rt, pointer)?;
    Ok(true)
}

// Makes ten rounds; whether each ended, or was given up.
fn rounds<K: HeapName, R: Wait>(rt: &R, heap: &Heap<K, MemDevice>) -> bool {
    for _ in 0..10u8 {
        match heap.run_round(rt, &mut Oldest, 2, 1000) {
            Ok(RoundEnd::Limit(_)) => {
                if heap.book(rt).abort().is_err() {
                    return false;
                }
            }
            Ok(RoundEnd::Done(_)) | Ok(RoundEnd::Nothing) => {}
            Err(_) => return false,
        }
    }
    true
}

/// What a thread does.
#[derive(Drop)]
enum Job<K: HeapName> {
    Work(Mutator<K, MemDevice>),
    Rounds,
}

fn run<K: HeapName, R: Wait>(rt: &R, heap: &Heap<K, MemDevice>, job: Job<K>) -> bool {
    match job {
        Job::Work(mutator) => matches!(work(rt, mutator), Ok(true)),
        Job::Rounds => rounds(rt, heap),
    }
}

fn jobs_of<K: HeapName>(
    alloc: Global,
    mutators: Vec<Mutator<K, MemDevice>>,
) -> Result<Vec<Job<K>>, AllocError> {
    let mut jobs = Vec::new(alloc);
    for mutator in mutators {
        jobs.push(Job::Work(mutator))?;
    }
    jobs.push(Job::Rounds)?;
    Ok(jobs)
}

// Whether all threads do what they should.
fn all_work<K: HeapName + Send + Sync, R: Threads + Wait + Sync>(
    rt: &R,
    alloc: Global,
    heap: &Heap<K, MemDevice>,
    mutators: Vec<Mutator<K, MemDevice>>,
) -> bool {
    let Ok(jobs) = jobs_of(alloc, mutators) else {
        return false;
    };
    match thread::map_vec(rt, jobs, &|job| run(rt, heap, job)) {
        Ok(done) => done.iter().all(|it| *it),
        Err(_) => false,
    }
}

fn begins<K: HeapName + Send + Sync, R: Threads + Wait + Sync>(
    rt: &R,
    alloc: Global,
    blank: Blank<MemDevice>,
) -> bool
    requires { blank.heap ≡ K.heap }
{
    match Heap::<K, _>::new(alloc, blank) {
        Ok((heap, mutators)) => all_work(rt, alloc, &heap, mutators),
        Err(_) => false,
    }
}

#[test]
fn readme(rt: HostRuntime) -> Result<(), Fail> {
    let blank = blank(&rt, sized(8, 2))?;
    assert!(rt; begins::<Brand, _>(&rt, rt.alloc(), blank));
    Ok(())
}
