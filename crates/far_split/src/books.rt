//! The book's lines.

ghost use Rattle.std.specs.Prelude.{◌≡◌, true, IfErr, IfOk};
ghost use Rattle.std.specs.List.{AllByRecursion};
ghost use Rattle.far_text.specs.Command.{as_command};
ghost use Rattle.far_text.specs.SplitText.{AreOwn};
ghost use Rattle.far_text.specs.Threads.{OfBook, is_of};
ghost use Rattle.far_reply.specs.Reply.{IsShort};
ghost use Rattle.far_split.specs.BookTold.{BookTold, TellsLine};
ghost use Rattle.far_split.specs.Here.{commands_of};
ghost use Rattle.far_split.specs.Jobs.{StopsBy};
ghost use Rattle.far_split.specs.Told.{TellsFewLogs, as_reply};

use crate::gate::{Gate, THE_BOOK};
use crate::inquiries::inquire;
use crate::mutators::Stop;
use crate::replies::{Replies, Room};
use crate::rounds::make_round;
use crate::told::Answer;
use far_heap::{Heap, HeapName};
use far_replay::FarSide;
use far_text::{Command, Inquiry, Lines, Step};
use std::alloc::{AllocError, Global};
use std::sync::Wait;

// Makes a line of the book's. `Err` where there is no memory for what is told of logs.
fn make_line<K: HeapName, R: Wait>(
    alloc: Global,
    rt: &R,
    heap: &Heap<K, FarSide>,
    command: Command<'_>,
) -> Result<Answer, AllocError>
    requires own { is_of OfBook (as_command command) ≡ true }
    ensures told { IfOk result (λ told. TellsLine K.heap (as_command command.entry) (as_reply told)) }
    ensures short { IfOk result (λ told. IsShort (as_reply told)) }
    ensures few { IfOk result TellsFewLogs }
{
    match command {
        Command::Book(inquiry) => inquire(alloc, rt, heap, inquiry),
        Command::Evacuator(
            Step::Round {
                policy,
                most,
                turns,
            },
        ) => Ok(make_round(rt, heap, policy, most, turns)),
        _ => unreachable!(),
    }
}

// How much room the replies to these lines take on a heap of so many logs.
fn room_for(lines: &Lines<'_>, logs: usize) -> Room {
    let mut room = Room {
        replies: lines.len(),
        bytes: 0,
        logs: 0,
        rounds: 0,
    };
    for place in 0..lines.len() {
        let (_, command) = lines.at(place);
        match command {
            Command::Book(Inquiry::Logs) => room.logs = room.logs.saturating_add(logs),
            Command::Book(Inquiry::Log { .. }) => room.logs = room.logs.saturating_add(1),
            Command::Evacuator(_) => room.rounds = room.rounds.saturating_add(1),
            _ => {}
        }
    }
    room
}

/// Makes the book's lines, in order, asking the gate before each: what each was answered. The room for all answers is taken before the first line.
///
/// [`Stop::Gate`] where the gate says no to a line; [`Stop::Memory`] where there is no room for the answers, or for what a line is to tell of logs.
pub(crate) fn make_book_lines<K: HeapName, R: Wait, G: Gate>(
    alloc: Global,
    rt: &R,
    heap: &Heap<K, FarSide>,
    lines: &Lines<'_>,
    gate: &G,
) -> Result<Replies, Stop>
    requires own { AreOwn K.heap.mutators OfBook lines.now }
    ensures told { IfOk result (BookTold K.heap (commands_of lines.now)) }
    ensures short { IfOk result (AllByRecursion IsShort) }
    ensures stopped { IfErr result (StopsBy (G.refuses gate.now) THE_BOOK lines.now) }
{
    let logs = heap.book(rt).shape().logs as usize;
    let Ok(mut told) = Replies::with_room(alloc, room_for(lines, logs)) else {
        return Err(Stop::Memory);
    };
    let mut turn = 0u32;
    for at in 0..lines.len() {
        if !gate.before(THE_BOOK, turn) {
            return Err(Stop::Gate);
        }
        let (_, command) = lines.at(at);
        let Ok(answer) = make_line(alloc, rt, heap, command) else {
            return Err(Stop::Memory);
        };
        let Ok(()) = told.push(answer) else {
            return Err(Stop::Memory);
        };
        gate.after(THE_BOOK, turn);
        turn = turn.saturating_add(1);
    }
    Ok(told)
}
