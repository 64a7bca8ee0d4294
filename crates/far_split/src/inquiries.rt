//! What the book is asked beside the mutators: what a log has, and how many objects there are.

ghost use Rattle.std.specs.Prelude.{◌≡◌, ◌<◌, ◌≤◌, ◌-◌, filter, length, map, IfOk};
ghost use Rattle.std.specs.List.{range_with_len};
ghost use Rattle.far_evac.specs.declared.census.Housed.{Housed as HousedAt};
ghost use Rattle.far_table.specs.BookSeats.{seat_view};
ghost use Rattle.far_evac.specs.EvacOf.{moment};
ghost use Rattle.far_text.specs.Command.{Audit, Book, Log, as_inquiry};
ghost use Rattle.far_reply.specs.Reply.{IsShort};
ghost use Rattle.far_replay.specs.Turn.{log_line};
ghost use Rattle.far_split.specs.BookTold.{TellsLine, TellsRange, lies_far, lies_near, live_in};
ghost use Rattle.far_split.specs.Kept.{line_told, lines_told};
ghost use Rattle.far_split.specs.Told.{TellsFewLogs, as_reply};

use crate::told::{Answer, LogWords};
use far_book::Home;
use far_evac::{Housed, LogState};
use far_heap::{Evacuator, Heap, HeapName};
use far_replay::FarSide;
use far_reply::Counts;
use far_text::Inquiry;
use far_word::Refused;
use std::alloc::{AllocError, Global};
use std::sync::Wait;

// What is told of a log: all its bytes are whole words.
fn words_of<K: HeapName>(book: &Evacuator<K, FarSide>, log: u8) -> LogWords
    requires log { log < (seat_view book.now.book.near).logs }
    ensures { line_told log result ≡ log_line (moment seat_view book.now) log }
{
    book.keeps_law();
    let LogState { kind, row } = book.log(log);
    LogWords {
        kind,
        live: row.live / 8,
        dead: row.dead / 8,
    }
}

// What is told of each log, from one on, before another.
fn rows_of<K: HeapName>(
    alloc: Global,
    book: &Evacuator<K, FarSide>,
    first: u8,
    end: u8,
) -> Result<Vec<LogWords>, AllocError>
    requires logs { (first ≤ end) × (end ≤ (seat_view book.now.book.near).logs) }
    ensures { IfOk result (λ rows. lines_told first rows.items ≡ map (log_line (moment seat_view book.now)) (range_with_len first (end - first))) }
{
    let mut rows = Vec::with_capacity(alloc, usize::from(end - first))?;
    for log in first..end {
        rows.push_reserved(words_of(book, log));
    }
    Ok(rows)
}

// Tells each log from one on, before another. `Err` where there is no memory for their lines.
fn logs_told<K: HeapName>(
    alloc: Global,
    book: &Evacuator<K, FarSide>,
    first: u8,
    end: u8,
) -> Result<Answer, AllocError>
    requires logs { (first ≤ end) × (end ≤ (seat_view book.now.book.near).logs) }
    ensures told { IfOk result (λ told. TellsRange K.heap first (end - first) (as_reply told)) }
    ensures short { IfOk result (λ told. IsShort (as_reply told)) }
    ensures few { IfOk result TellsFewLogs }
{
    book.keeps_law();
    let rows = rows_of(alloc, book, first, end)?;
    Ok(Answer::Logs { first, rows })
}

// Tells one log, if the heap has it. `Err` where there is no memory for its line.
fn log_told<K: HeapName>(
    alloc: Global,
    book: &Evacuator<K, FarSide>,
    log: u64,
) -> Result<Answer, AllocError>
    ensures told { IfOk result (λ told. TellsLine K.heap (Book (Log log)) (as_reply told)) }
    ensures short { IfOk result (λ told. IsShort (as_reply told)) }
    ensures few { IfOk result TellsFewLogs }
{
    book.keeps_law();
    if log >= book.shape().logs {
        return Ok(Answer::Refused(Refused::Range));
    }
    let log = log as u8;
    logs_told(alloc, book, log, log + 1)
}

// How many objects are near, and how many are far.
fn count_homes(homes: &[Housed]) -> (u16, u16)
    requires few { length homes.now < 65536 }
    ensures near { result.0 ≡ length (filter (λ (housed : HousedAt). lies_near housed.home) homes.now) }
    ensures far { result.1 ≡ length (filter (λ (housed : HousedAt). lies_far housed.home) homes.now) }
{
    let mut near = 0;
    let mut far = 0;
    for housed in homes {
        match housed.home {
            Home::Near { .. } => near += 1,
            Home::Far { .. } => far += 1,
        }
    }
    (near, far)
}

// The bytes that objects take in all logs.
fn count_bytes(logs: &[LogState]) -> u64
    requires few { length logs.now < 65536 }
    ensures { result ≡ live_in logs.now }
{
    let mut live = 0;
    for log in logs {
        live += u64::from(log.row.live);
    }
    live
}

// Counts the near objects, the far ones, and the live bytes of all logs.
fn audit_told<K: HeapName>(book: &mut Evacuator<K, FarSide>) -> Answer
    ensures told { TellsLine K.heap (Book Audit) (as_reply result) }
    ensures short { IsShort (as_reply result) }
    ensures few { TellsFewLogs result }
{
    match book.audit() {
        Ok(census) => {
            book.keeps_law();
            let (near, far) = count_homes(&census.homes);
            let live = count_bytes(&census.logs);
            Answer::Audited(Counts { near, far, live })
        }
        Err(why) => Answer::Refused(why),
    }
}

/// Answers what the book is asked, under the heap's lock. `Err` where there is no memory for what is told of logs.
pub(crate) fn inquire<K: HeapName, R: Wait>(
    alloc: Global,
    rt: &R,
    heap: &Heap<K, FarSide>,
    inquiry: Inquiry,
) -> Result<Answer, AllocError>
    ensures told { IfOk result (λ told. TellsLine K.heap (Book (as_inquiry inquiry)) (as_reply told)) }
    ensures short { IfOk result (λ told. IsShort (as_reply told)) }
    ensures few { IfOk result TellsFewLogs }
{
    let mut guard = heap.book(rt);
    let book = &mut *guard;
    book.keeps_law();
    match inquiry {
        Inquiry::Logs => logs_told(alloc, book, 0, book.shape().logs as u8),
        Inquiry::Log { log } => log_told(alloc, book, log),
        Inquiry::Audit => Ok(audit_told(book)),
    }
}
