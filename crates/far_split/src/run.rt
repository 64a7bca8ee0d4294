//! A split text is run: each mutator's lines in a thread of its own, the book's in another.

ghost use Rattle.std.specs.Prelude.{◌≡◌, ◌<◌, ◌≤◌, ℕ, Option, false, [], length, map, None, Some, Ok, IfErr, IfOk, IsOk};
ghost use Rattle.far_text.specs.declared.text.TheConstants.{LONGEST_TEXT};
ghost use Rattle.std.specs.Option.{option_map};
ghost use Rattle.far_text.specs.Command.{as_device, Device as SaidDevice};
ghost use Rattle.far_replay.specs.Answers.{is_true};
ghost use Rattle.far_replay.specs.Flawed.{IsFlawed};
ghost use Rattle.far_text.specs.Split.{split_of, SplitHeap};
ghost use Rattle.far_text.specs.SplitText.{AreOwn};
ghost use Rattle.far_text.specs.Threads.{Thread as AnyThread, lines_in};
ghost use Rattle.far_hand.specs.ShapeOf.{shape_of as shape_in};
ghost use Rattle.far_table.specs.BookSeats.{seat_view};
ghost use Rattle.far_heap.specs.Blanks.{IsUnused, newcomers};
ghost use Rattle.far_split.specs.Joined.{AreShort, IsFault, IsFaultAfter, MayEnd, MayStop, RanSo, SplitAnswers, as_joined, who_at};
ghost use Rattle.far_split.specs.Jobs.{AreEnds, AreJobs, AreStops, EndsSo, IsJobAt, Joins, StopsSo};

use crate::books::make_book_lines;
use crate::gate::{Gate, THE_BOOK};
use crate::mutators::{Stop, make_lines};
use crate::replies::Replies;
use crate::split_out::SplitOut;
use far_core::Shape;
use far_heap::{Blank, Heap, HeapName, Mutator};
use far_replay::{FarSide, far_side_of};
use far_text::{Device, ParseError, SplitText, SplitTrace, Thread, parse_split, splitting_is_said};
use far_word::Refused;
use std::alloc::{AllocError, Global};
use std::marker::Brand;
use std::sync::Wait;
use std::thread;
use std::thread::Threads;

/// Why a split text wasn't answered.
#[derive(Clone, Copy, Debug, PartialEq, Eq)]
pub enum SplitFault {
    /// The gate ended the thread of this mutator, or of the book, which is [`THE_BOOK`].
    Gate(u8),
    /// Memory was refused for the text, the heap, lists or replies. Which of them isn't told, and no replies are given.
    Memory,
}

impl From<AllocError> for SplitFault {
    ghost use Rattle.std.specs.Prelude.{◌≡◌};
    ghost use Rattle.far_split.specs.declared.run.SplitFault.TheVariants.{Memory};

    ghost from_gives = { λ _ e. e ≡ Memory };

    fn from(_e: AllocError) -> SplitFault {
        SplitFault::Memory
    }
}

/// What a thread does.
#[derive(Drop)]
enum Job<K: HeapName> {
    /// It makes the lines of this mutator, which has this number.
    Mutator(Mutator<K, FarSide>, u8),
    /// It makes the book's.
    Book,
}

/// How a thread ended: all its lines were answered, or it was stopped.
type End = Result<Replies, Stop>;

// A job for each mutator, by number, and the book's.
fn jobs_of<K: HeapName>(
    alloc: Global,
    mut mutators: Vec<Mutator<K, FarSide>>,
) -> Result<Vec<Job<K>>, AllocError>
    requires new { mutators.items ≡ newcomers K.heap }
    requires few { K.heap.mutators ≤ 8 }
    ensures { IfOk result (λ jobs. AreJobs K.heap jobs.items) }
{
    let many = mutators.len();
    let mut jobs = Vec::with_capacity(alloc, many + 1)?;
    for number in 0..many {
        jobs.push_reserved(Job::Mutator(mutators.remove(0), number as u8));
    }
    jobs.push_reserved(Job::Book);
    Ok(jobs)
}

// Makes the lines of a thread.
fn run_job<K: HeapName, R: Wait, G: Gate>(
    alloc: Global,
    rt: &R,
    heap: &Heap<K, FarSide>,
    text: &SplitText,
    gate: &G,
    job: Job<K>,
) -> End
    requires own { (thread : AnyThread) → AreOwn K.heap.mutators thread (lines_in thread text.now) }
    requires ready { (at : ℕ) × IsJobAt K.heap at job }
    ensures ended { (at : ℕ) → IsJobAt K.heap at job → EndsSo K.heap text.now at result }
    ensures stopped { (at : ℕ) → IsJobAt K.heap at job → StopsSo (G.refuses gate.now) K.heap text.now at result }
{
    match job {
        Job::Mutator(mutator, number) => {
            let thread = Thread::Mutator(u64::from(number));
            let Ok(lines) = text.lines_of(alloc, thread) else {
                return Err(Stop::Memory);
            };
            make_lines(alloc, rt, mutator, number, &lines, gate)
        }
        Job::Book => {
            let Ok(lines) = text.lines_of(alloc, Thread::Book) else {
                return Err(Stop::Memory);
            };
            make_book_lines(alloc, rt, heap, &lines, gate)
        }
    }
}

// Does each job in a thread of its own, and waits for all: how each ended, in their order.
fn run_jobs<K: HeapName + Send + Sync, R: Threads + Wait + Sync, G: Gate>(
    alloc: Global,
    rt: &R,
    heap: &Heap<K, FarSide>,
    text: &SplitText,
    gate: &G,
    jobs: Vec<Job<K>>,
) -> Result<Vec<End>, AllocError>
    requires own { (thread : AnyThread) → AreOwn K.heap.mutators thread (lines_in thread text.now) }
    requires jobs { AreJobs K.heap jobs.items }
    ensures ended { IfOk result (λ ends. AreEnds K.heap text.now ends.items) }
    ensures stopped { IfOk result (λ ends. AreStops (G.refuses gate.now) K.heap text.now ends.items) }
{
    let make = |job: Job<K>| -> End
        requires { ((thread : AnyThread) → AreOwn K.heap.mutators thread (lines_in thread text.now)) × ((at : ℕ) × IsJobAt K.heap at job) }
        ensures ended { (at : ℕ) → IsJobAt K.heap at job → EndsSo K.heap text.entry.now at result }
        ensures stopped { (at : ℕ) → IsJobAt K.heap at job → StopsSo (G.refuses gate.entry.now) K.heap text.entry.now at result }
    { run_job(alloc, rt, heap, text, gate, job) };
    thread::map_vec(rt, jobs, &make)
}

// Who the thread at a place is, of so many.
fn who_at(at: usize, many: usize) -> u8
    requires few { (at < many) × (many < 256) }
    ensures { result ≡ who_at many at }
{
    if at + 1 == many { THE_BOOK } else { at as u8 }
}

// The fault that threads ended with, the mutators' by number, then the book's: the first that its gate stopped, else memory, if some was refused it.
fn fault_of(ends: &[End]) -> Option<SplitFault>
    requires few { length ends.now < 256 }
    ensures { IsFault ends.now result }
{
    let mut fault = None;
    for (at, end) in ends.iter().enumerate() {
        if let Err(stop) = end {
            match stop {
                Stop::Gate => return Some(SplitFault::Gate(who_at(at, ends.len()))),
                Stop::Memory => fault = Some(SplitFault::Memory),
            }
        }
    }
    fault
}

// The replies to all threads' lines, none of which was stopped.
fn parts_of(alloc: Global, mut ends: Vec<End>) -> Result<Vec<Replies>, AllocError>
    requires { IsFault ends.items None }
    ensures { IfOk result (λ parts. ends.items ≡ map Ok parts.items) }
{
    let many = ends.len();
    let mut parts = Vec::with_capacity(alloc, many)?;
    for _ in 0..many {
        let Ok(told) = ends.remove(0) else {
            unreachable!()
        };
        parts.push_reserved(told);
    }
    Ok(parts)
}

// What all threads were answered, the book's last; or the fault that they ended with: memory only if no thread was stopped by its gate.
fn join(alloc: Global, ends: Vec<End>) -> Result<SplitOut, SplitFault>
    requires some { 0 < length ends.items }
    requires few { length ends.items < 256 }
    ensures joined { IfOk result (Joins ends.items) }
    ensures fault { IfErr result (IsFaultAfter ends.items) }
{
    if let Some(fault) = fault_of(&ends) {
        return Err(fault);
    }
    let mut parts = parts_of(alloc, ends)?;
    let Some(book) = parts.pop() else {
        unreachable!()
    };
    Ok(SplitOut::Ran {
        mutators: parts,
        book,
    })
}

// Begins the heap of a blank, and runs all threads on it.
fn run_named<K: HeapName + Send + Sync, R: Threads + Wait + Sync, G: Gate>(
    alloc: Global,
    rt: &R,
    blank: Blank<FarSide>,
    text: &SplitText,
    gate: &G,
) -> Result<SplitOut, SplitFault>
    // the heap is the one that the name names, without copiers and of eight mutators at most, and nobody has used it; each line is one of its threads'
    requires name { blank.heap ≡ K.heap }
    requires few { K.heap.mutators ≤ 8 }
    requires alone { K.heap.copying ≡ false }
    requires size { (K.heap.logs ≡ (shape_in (seat_view blank.book.near)).logs) × (K.heap.mutators ≡ (shape_in (seat_view blank.book.near)).mutators) }
    requires unused { IsUnused (seat_view blank.book.near) }
    requires order { blank.book.order ≡ [] }
    requires own { (thread : AnyThread) → AreOwn K.heap.mutators thread (lines_in thread text.now) }

    // done: over a device with the flaw that is said, each thread was answered as its own lines may be; and each reply can be printed
    ensures ran { (device : Option SaidDevice) → IsFlawed device blank.book.device → K.heap.honest ≡ is_true device → IfOk result (λ out. RanSo (shape_in (seat_view blank.book.near)) device text.now (as_joined out)) }
    ensures short { IfOk result (λ out. AreShort (as_joined out)) }

    // refused only as a gate refuses a thread one of its lines, or memory was refused
    ensures fault { IfErr result (MayStop (G.refuses gate.now) K.heap.mutators text.now) }
{
    let Ok((heap, mutators)) = Heap::<K, FarSide>::new(alloc, blank) else {
        return Err(SplitFault::Memory);
    };
    let jobs = jobs_of(alloc, mutators)?;
    let ends = run_jobs(alloc, rt, &heap, text, gate, jobs)?;
    join(alloc, ends)
}

// Runs lines on a heap of this shape, if there can be one.
fn run_on<R: Threads + Wait + Sync, G: Gate>(
    alloc: Global,
    rt: &R,
    shape: Shape,
    device: Option<Device>,
    text: &SplitText,
    gate: &G,
) -> Result<SplitOut, SplitFault>
    requires own { (thread : AnyThread) → AreOwn shape.mutators thread (lines_in thread text.now) }
    ensures answered { IfOk result (λ out. SplitAnswers (Ok (SplitHeap shape.logs shape.mutators shape.epoch (option_map as_device device) text.now)) (as_joined out)) }
    ensures short { IfOk result (λ out. AreShort (as_joined out)) }
    ensures fault { IfErr result (MayEnd (G.refuses gate.now) (Ok (SplitHeap shape.logs shape.mutators shape.epoch (option_map as_device device) text.now))) }
{
    match Blank::new(alloc, shape, far_side_of(alloc, device)) {
        Ok(blank) => run_named::<Brand, R, G>(alloc, rt, blank, text, gate),
        Err(Refused::Shape) => Ok(SplitOut::Refused(Refused::Shape)),
        Err(_) => Err(SplitFault::Memory),
    }
}

/// Runs a text whose commands are split among threads: each mutator's lines in a thread of its own, in order, and the book's in another, all on one running
/// heap. The gate is asked in each thread before each of its lines. A text that says nothing has no mutators and no replies.
///
/// A text off the grammar is answered by [`Refused::Syntax`] alone, one whose heap's shape is out of range by [`Refused::Shape`], and nothing runs. A text that
/// is too long is off the grammar, and takes no memory.
///
/// Faults, once all threads have ended: [`SplitFault::Gate`] where the gate ended threads, with the least of them, by a no to one of its lines; else [`SplitFault::Memory`] where memory was
/// refused to the call itself, for the heap, lists or replies. Where an audit or a round is refused memory, that is its reply; no other line is answered so.
///
/// Where the system can't begin a thread, its lines are made in another's, before or after that one's.
pub fn run_split<R: Threads + Wait + Sync, G: Gate>(
    alloc: Global,
    rt: &R,
    text: &[u8],
    gate: &G,
) -> Result<SplitOut, SplitFault>
    ensures answered { IfOk result (λ out. SplitAnswers (split_of text.now) (as_joined out)) }
    ensures short { IfOk result (λ out. AreShort (as_joined out)) }
    ensures fault { IfErr result (MayEnd (G.refuses gate.now) (split_of text.now)) }
    ensures long { LONGEST_TEXT < length text.now → IsOk result }
{
    splitting_is_said();
    match parse_split(alloc, text) {
        Ok(SplitTrace::Nothing) => Ok(SplitOut::Ran {
            mutators: Vec::new(alloc),
            book: Replies::new(alloc),
        }),
        Ok(
            SplitTrace::Heap {
                logs,
                mutators,
                epoch,
                device,
                lines,
            },
        ) => {
            let shape = Shape {
                logs,
                mutators,
                epoch,
            };
            run_on(alloc, rt, shape, device, &lines, gate)
        }
        Err(ParseError::Syntax(line)) => Ok(SplitOut::Refused(Refused::Syntax(line))),
        Err(ParseError::Memory) => Err(SplitFault::Memory),
    }
}
