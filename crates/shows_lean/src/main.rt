//! Sends all that a heap of plain words can hold to a file, some 8 MiB, and tells by how much the program grew meanwhile: an object that is far takes no near
//! memory but its cell and its flags, where the core keeps no stored words. Where it keeps them, the program grows by 8 MiB too, and ends with 1.
//!
//! The file is made where the program runs, and loses its name at once. What is resident is told by the system, in `/proc/self/status`.
#![tactic(auto)]

ghost use Rattle.std.specs.Prelude.{◌≡◌, ◌<◌, true};
ghost use Rattle.far_core.specs.state.CoreState.{core_state};

use far_book::{Book, Home, Plain};
use far_core::{Core, Shape};
use far_evac::Evac;
use far_file::{FileDevice, NewFile};
use far_policy::Oldest;
use far_word::{CELLS, LONGEST, MOST_MUTATORS, Refused};
use std::alloc::Global;
use std::fs::File;
use std::process::ExitCode;
use std::{fs, io};

type Heap = Evac<Plain, FileDevice<File>>;

/// Few logs and all mutators, so that nearly all is far.
const SHAPE: Shape = Shape {
    logs: 8,
    mutators: 8,
    epoch: 0,
};

/// By how much the program may grow, in KiB: an eighth of what goes far. It takes more than none, since its code is read as it runs, and some
/// systems count pages late: by 64, or by twice the processors.
const MOST_GROWTH: u64 = 1024;

/// What the file is called until it is open.
const NAME: &str = "shows_lean.far";

// A new file without a name; `None`, and why is told, where there is none.
fn far_side(rt: &HostRuntime) -> Option<File> {
    let file = match NewFile::new().open(rt, NAME) {
        Ok(file) => file,
        Err(why) => {
            let _ = eprintln!(rt; "shows_lean: {NAME}: {why}");
            return None;
        }
    };
    if let Err(why) = fs::remove_file(rt, NAME) {
        let _ = eprintln!(rt; "shows_lean: {NAME} keeps its name: {why}");
        return None;
    }
    Some(file)
}

// A heap over an empty file.
fn new_heap(alloc: Global, file: File) -> Result<Heap, Refused> {
    let core = Core::without_stored(alloc, SHAPE, false)?;
    let device = FileDevice::<File>::new(alloc, file);
    let book = Book::new(alloc, Plain { core }, device)?;
    Ok(Evac::new(book))
}

// Whether the heap has a mutator of this number.
fn has_mutator(heap: &Heap, owner: u8) -> bool
    ensures { result ≡ true → owner < (core_state heap.now.book.near.core).mutators }
{
    u64::from(owner) < heap.book().shape().mutators
}

// Makes an object as long as can be, if the mutator has a pointer left and there is room: whether it was made.
fn is_placed(heap: &mut Heap, owner: u8) -> bool {
    if !has_mutator(heap, owner) {
        return false;
    }
    heap.keeps_law();
    match heap.book().free_cell(owner) {
        Some(pointer) => heap.place(pointer, LONGEST, 1).is_ok(),
        None => false,
    }
}

// The same; where there is no room a round makes some.
fn is_made(heap: &mut Heap, owner: u8) -> bool {
    is_placed(heap, owner) || heap.run_round(&mut Oldest, 2, 1000).is_ok() && is_placed(heap, owner)
}

// Makes as many objects as a mutator has pointers: how many were made.
fn make_all(heap: &mut Heap, owner: u8) -> usize {
    (0..CELLS).filter(|_| is_made(heap, owner)).count()
}

// Whether a pointer's object is far.
fn is_far(heap: &mut Heap, pointer: u16) -> bool {
    has_mutator(heap, (pointer / CELLS) as u8)
        && matches!(heap.locate(pointer), Some(Home::Far { .. }))
}

// How many objects are far.
fn count_far(heap: &mut Heap) -> usize {
    (0..CELLS * MOST_MUTATORS as u16)
        .filter(|pointer| is_far(heap, *pointer))
        .count()
}

// The program's resident memory, in KiB.
fn resident(rt: &HostRuntime) -> Option<u64> {
    let text = fs::read_to_string(rt, "/proc/self/status").ok()?;
    let line = text.lines().find(|line| line.starts_with("VmRSS:"))?;
    line.split_whitespace().nth(1)?.parse().ok()
}

// Makes as many objects as all mutators have pointers: how many were made.
fn make_everything(heap: &mut Heap) -> usize {
    let mut made: usize = 0;
    for owner in 0..MOST_MUTATORS {
        made = made.saturating_add(make_all(heap, owner));
    }
    made
}

// Tells by how much the program grew: whether by little.
fn tells_growth(rt: &HostRuntime, before: Option<u64>, after: Option<u64>) -> io::Result<bool> {
    let (Some(before), Some(after)) = (before, after) else {
        println!(rt; "/proc/self/status tells no VmRSS")?;
        return Ok(false);
    };
    let grown = after.saturating_sub(before);
    if grown < MOST_GROWTH {
        println!(rt; "the program grew by less than {MOST_GROWTH} KiB")?;
        return Ok(true);
    }
    println!(rt; "the program grew by {grown} KiB")?;
    Ok(false)
}

// Fills the heap, and tells what is far and how the program grew: whether by little.
fn fill(rt: &HostRuntime, heap: &mut Heap) -> io::Result<bool> {
    let before = resident(rt);
    let made = make_everything(heap);
    let far = count_far(heap);
    let after = resident(rt);
    println!(rt; "{made} objects of {LONGEST} bytes, {far} of them far")?;
    tells_growth(rt, before, after)
}

fn main(rt: HostRuntime) -> ExitCode {
    let Some(file) = far_side(&rt) else {
        return ExitCode::from(3);
    };
    let Ok(mut heap) = new_heap(rt.alloc(), file) else {
        return ExitCode::from(4);
    };
    match fill(&rt, &mut heap) {
        Ok(true) => ExitCode::SUCCESS,
        Ok(false) | Err(_) => ExitCode::FAILURE,
    }
}
