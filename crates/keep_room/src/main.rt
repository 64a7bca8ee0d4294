//! One thread makes rounds, so that there is room, while another changes more objects than fit near. Each holds what was written last, or the program ends with 1.
#![tactic(auto)]

ghost use Rattle.std.specs.Prelude.{◌≡◌};

use byteorder::LittleEndian;
use far_core::Shape;
use far_device::MemDevice;
use far_heap::{Blank, Heap, HeapName, Scope};
use far_policy::Oldest;
use far_word::Refused;
use std::marker::Brand;
use std::sync::{Mutex, Wait};
use std::thread::{Threads, join, yield_now};

// Makes rounds, of at most two logs, until all changes are made.
fn keep_room<K: HeapName, R: Wait>(rt: &R, heap: &Heap<K, MemDevice>, over: &Mutex<bool>) {
    for _ in rt.forever().take_while(|_| !*over.lock(rt)) {
        let _ = heap.run_round(rt, &mut Oldest, 2, 1000);
        let _ = heap.book(rt).abort(); // while a round stands no other begins
        yield_now();
    }
}

// Writes a number into one of the objects, by turns, if it holds the one before. A new one holds 0.
fn change<K: HeapName, R: Wait>(
    rt: &R,
    scope: &mut Scope<K, MemDevice>,
    objects: &mut [u16; 200],
    number: usize,
) -> Result<(), Refused> {
    if number < 200 {
        objects[number] = scope.alloc(rt, 200, 1)?;
    }
    let view = scope.view(rt, objects[number % 200])?;
    if scope.read_u64::<LittleEndian>(&view, 0)? != number.saturating_sub(200) as u64 {
        return Err(Refused::Damaged);
    }
    scope.write_u64::<LittleEndian>(&view, 0, number as u64)
}

// Has one thread make rounds and another all changes, each in a scope of its own, and again where it was refused room.
fn begins<K: HeapName + Send + Sync, R: AllocGlobal + Threads + Wait + Sync>(
    rt: &R,
    blank: Blank<MemDevice>,
) -> Result<(), Refused>
    requires { blank.heap ≡ K.heap }
{
    let (heap, mut mutators) = Heap::<K, _>::new(rt.alloc(), blank)?;
    let (mut mutator, over) = (mutators.pop().ok_or(Refused::Shape)?, Mutex::new(false));
    let changes = || {
        let (mut objects, mut number, mut last) = ([0; 200], 0, Ok(()));
        for _ in rt.forever() {
            let mut scope = mutator.open();
            last = change(rt, &mut scope, &mut objects, number);
            mutator = scope.close();
            match last {
                Ok(()) if number < 2000 => number += 1,
                Err(Refused::NoRoom) => yield_now(),
                _ => break,
            }
        }
        *over.lock(rt) = true;
        last
    };
    join(rt, || keep_room(rt, &heap, &over), changes).1
}

fn main(rt: HostRuntime) -> Result<(), Refused> {
    let shape = Shape {
        logs: 8,
        mutators: 1,
        epoch: 0,
    };
    let blank = Blank::new(rt.alloc(), shape, MemDevice::new(rt.alloc()))?;
    begins::<Brand, _>(&rt, blank)?;
    let _ = println!(rt; "each object held what was written last");
    Ok(())
}
