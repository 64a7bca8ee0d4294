//! The examples of docs/USING.md, which has what stands here between `// page` and `// end`: scripts/using.py compares them.

ghost use Rattle.std.specs.Prelude.{◌≡◌};
ghost use Rattle.far_heap.specs.HeapId.{with_copiers};

use crate::tests::looks::{new_blank, sized};
use byteorder::LittleEndian;
use far_device::{FailAt, MemDevice};
use far_evac::RoundEnd;
use far_heap::{Blank, Copier, Heap, HeapName, Mutator, Scope, lend};
use far_policy::{LeastLive, Oldest};
use far_word::Refused;
use std::alloc::{AllocError, Global};
use std::marker::Brand;
use std::sync::Wait;
use std::sync::atomic::{AtomicU64, Ordering};
use std::thread;
use std::thread::{Threads, join};

/// What the program keeps in an object of 16 bytes.
#[derive(Clone, Copy, PartialEq)]
struct Account {
    number: u64,
    balance: u64,
}

fn put<K: HeapName, R: Wait>(
    rt: &R,
    scope: &mut Scope<K, MemDevice>,
    account: Account,
) -> Result<u16, Refused> {
    // page
    let pointer = scope.alloc(rt, 16, 1)?;
    let view = scope.view(rt, pointer)?;
    scope.write_u64::<LittleEndian>(&view, 0, account.number)?;
    scope.write_u64::<LittleEndian>(&view, 8, account.balance)?;
    // end
    Ok(pointer)
}

fn get<K: HeapName, R: Wait>(
    rt: &R,
    scope: &mut Scope<K, MemDevice>,
    pointer: u16,
) -> Result<Account, Refused> {
    // page
    let view = scope.view(rt, pointer)?;
    Ok(Account {
        number: scope.read_u64::<LittleEndian>(&view, 0)?,
        balance: scope.read_u64::<LittleEndian>(&view, 8)?,
    })
    // end
}

const ALICE: Account = Account {
    number: 1,
    balance: 900,
};

// Whether an account comes back as it was put.
fn keeps_one<K: HeapName, R: Wait>(
    rt: &R,
    scope: &mut Scope<K, MemDevice>,
) -> Result<bool, Refused> {
    let pointer = put(rt, scope, ALICE)?;
    Ok(get(rt, scope, pointer)? == ALICE)
}

fn in_a_scope<K: HeapName, R: Wait>(
    rt: &R,
    mutator: Mutator<K, MemDevice>,
) -> (Mutator<K, MemDevice>, Result<bool, Refused>) {
    // page
    let (mutator, kept) = lend(
        mutator.open(),
        |scope: &mut Scope<K, MemDevice>| keeps_one(rt, scope), // may return early by `?`
    );
    // end
    (mutator, kept)
}

// page
// A round of at most two logs. It is given up after a thousand turns: then another scope stayed open, or a copy wasn't made.
fn make_room<K: HeapName, R: Wait>(rt: &R, heap: &Heap<K, MemDevice>) -> Result<(), Refused> {
    match heap.run_round(rt, &mut LeastLive, 2, 1000) {
        Ok(RoundEnd::Limit(_)) => heap.book(rt).abort(),
        Ok(_) => Ok(()),
        Err(fault) if fault.why == Refused::Phase => Ok(()), // another thread makes a round
        Err(fault) => {
            let _ = heap.book(rt).abort(); // else the round stands, and no other begins
            Err(fault.why)
        }
    }
}
// end

// A new object, for which rounds are made where there is no room. The mutator's scope is closed.
fn alloc_with_rounds<K: HeapName, R: Wait>(
    rt: &R,
    heap: &Heap<K, MemDevice>,
    mutator: &mut Mutator<K, MemDevice>,
    len: u16,
) -> Result<u16, Refused> {
    // page
    for _ in 0..9u8 {
        match mutator.alloc(rt, len, 1) {
            Err(Refused::NoRoom) => make_room(rt, heap)?,
            made => return made,
        }
    }
    Err(Refused::NoRoom)
    // end
}

// Whether the program's objects outgrow three logs, and the first comes back.
fn outgrows<K: HeapName, R: Wait>(
    rt: &R,
    heap: &Heap<K, MemDevice>,
    mutator: Mutator<K, MemDevice>,
) -> bool {
    let (mut mutator, kept) = in_a_scope(rt, mutator);
    for _ in 0..6u8 {
        if alloc_with_rounds(rt, heap, &mut mutator, 4088).is_err() {
            return false;
        }
    }
    let mut scope = mutator.open();
    let found = get(rt, &mut scope, 0);
    scope.close();
    kept == Ok(true) && found == Ok(ALICE)
}

fn one_heap<K: HeapName, R: Wait>(rt: &R, alloc: Global, blank: Blank<MemDevice>) -> bool
    requires { blank.heap ≡ K.heap }
{
    let Ok((heap, mut mutators)) = Heap::<K, _>::new(alloc, blank) else {
        return false;
    };
    match mutators.pop() {
        Some(mutator) => outgrows(rt, &heap, mutator),
        None => false,
    }
}

#[test]
fn records_and_rounds(rt: HostRuntime) {
    let blank = new_blank(&rt, rt.alloc(), sized(4, 1));
    assert!(rt; one_heap::<Brand, _>(&rt, rt.alloc(), blank));
}

// Each mutator works in a thread, and after that in another one.
fn two_waves<K: HeapName + Send + Sync, R: Threads + Wait + Sync>(
    rt: &R,
    mutators: Vec<Mutator<K, MemDevice>>,
) -> Result<Vec<Mutator<K, MemDevice>>, AllocError> {
    // page
    let mutators = thread::map_vec(rt, mutators, &|mutator| in_a_scope(rt, mutator).0)?;
    thread::map_vec(rt, mutators, &|mutator| in_a_scope(rt, mutator).0) // in other threads
    // end
}

// page
fn two_heaps<K: HeapName + Send + Sync, L: HeapName, R: Threads + Wait + Sync>(
    rt: &R,
    alloc: Global,
    blanks: (Blank<MemDevice>, Blank<MemDevice>),
) -> bool
    requires one { blanks.0.heap ≡ K.heap }
    requires other { blanks.1.heap ≡ L.heap }
// end
{
    let Ok((_one, mutators)) = Heap::<K, _>::new(alloc, blanks.0) else {
        return false;
    };
    let Ok((other, mut others)) = Heap::<L, _>::new(alloc, blanks.1) else {
        return false;
    };
    let Some(mutator) = others.pop() else {
        return false;
    };
    two_waves(rt, mutators).is_ok() && outgrows(rt, &other, mutator)
}

#[test]
fn two_heaps_in_one_program(rt: HostRuntime) {
    let blanks = (
        new_blank(&rt, rt.alloc(), sized(4, 2)),
        new_blank(&rt, rt.alloc(), sized(4, 1)),
    );
    assert!(rt; two_heaps::<Brand, Brand, _>(&rt, rt.alloc(), blanks));
}

// A round over a device that may fail: at a failure the next turn tries the same object again.
fn round_past_failures<K: HeapName, R: Wait>(
    rt: &R,
    heap: &Heap<K, FailAt<MemDevice>>,
) -> Result<(), Refused> {
    // page
    let mut why = match heap.run_round(rt, &mut Oldest, 1, 1000) {
        Ok(_) => return Ok(()),
        Err(fault) => fault.why,
    };
    for _ in 0..3u8 {
        match heap.book(rt).turn() {
            Ok(made) if made.done => return Ok(()),
            Ok(_) => {}
            Err(fault) => why = fault.why,
        }
    }
    Err(why)
    // end
}

fn over_a_device<K: HeapName, R: Wait>(
    rt: &R,
    alloc: Global,
    blank: Blank<FailAt<MemDevice>>,
) -> bool
    requires { blank.heap ≡ K.heap }
{
    let Ok((heap, mut mutators)) = Heap::<K, _>::new(alloc, blank) else {
        return false;
    };
    let Some(mut mutator) = mutators.pop() else {
        return false;
    };
    let made = mutator.alloc(rt, 8, 1).is_ok() && mutator.alloc(rt, 4088, 1).is_ok();
    made && round_past_failures(rt, &heap).is_ok()
}

#[test]
fn a_device_that_fails(rt: HostRuntime) {
    let device = FailAt::new(MemDevice::new(rt.alloc()), 1);
    let Ok(blank) = Blank::new(rt.alloc(), sized(4, 1), device) else {
        panic!(rt; "no heap is made");
    };
    assert!(rt; over_a_device::<Brand, _>(&rt, rt.alloc(), blank));
}

// page
// Copies what rounds offer, until all is over.
fn copies<K: HeapName, R: Wait>(rt: &R, mut copier: Copier<K, MemDevice>, over: &AtomicU64) {
    for _ in rt.forever() {
        match copier.claim() {
            Ok(copying) => copier = copying.finish(),
            Err(free) => {
                copier = free;
                if over.load(Ordering::SeqCst) > 0 {
                    return;
                }
                thread::yield_now();
            }
        }
    }
}
// end

// Whether a round moves the account by a copier, which is told then that all is over.
fn moves_beside<K: HeapName, R: Wait>(
    rt: &R,
    heap: &Heap<K, MemDevice>,
    mutator: Mutator<K, MemDevice>,
    over: &AtomicU64,
) -> bool {
    let (mut mutator, kept) = in_a_scope(rt, mutator);
    let made = mutator.alloc(rt, 4088, 1);
    let ended = heap.run_round(rt, &mut Oldest, 1, 1_000_000);
    over.store(1, Ordering::SeqCst);
    let mut scope = mutator.open();
    let found = get(rt, &mut scope, 0);
    scope.close();
    let moved = matches!(ended, Ok(RoundEnd::Done(done)) if done.moved == 1);
    moved && made == Ok(1) && kept == Ok(true) && found == Ok(ALICE)
}

fn with_a_copier<K: HeapName + Send + Sync, R: Threads + Wait + Sync>(
    rt: &R,
    alloc: Global,
    blank: Blank<MemDevice>,
) -> bool
    requires { with_copiers blank.heap ≡ K.heap }
{
    let Ok((heap, mut mutators, mut copiers)) = Heap::<K, _>::with_copiers(alloc, blank, 1) else {
        return false;
    };
    let (Some(mutator), Some(copier)) = (mutators.pop(), copiers.pop()) else {
        return false;
    };
    let (over, heap) = (&AtomicU64::new(0), &heap);
    let (_copied, came) = join(
        rt,
        move || copies(rt, copier, over),
        move || moves_beside(rt, heap, mutator, over),
    );
    came
}

#[test]
fn rounds_beside_a_copier(rt: HostRuntime) {
    let blank = new_blank(&rt, rt.alloc(), sized(4, 1));
    assert!(rt; with_a_copier::<Brand, _>(&rt, rt.alloc(), blank));
}
