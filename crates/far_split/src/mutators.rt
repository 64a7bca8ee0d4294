//! A mutator's lines, made in its thread.

ghost use Rattle.std.specs.Prelude.{◌≡◌, IfErr, IfOk};
ghost use Rattle.std.specs.List.{AllByRecursion};
ghost use Rattle.far_heap.specs.Mine.{newcomer};
ghost use Rattle.far_alone.specs.Own.{nothing};
ghost use Rattle.far_reply.specs.Reply.{IsShort};
ghost use Rattle.far_text.specs.SplitText.{AreOwn};
ghost use Rattle.far_text.specs.Threads.{OfMutator};
ghost use Rattle.far_split.specs.Here.{AloneOn, commands_of};
ghost use Rattle.far_split.specs.Jobs.{StopsBy};

use crate::gate::Gate;
use crate::replies::{Replies, Room};
use crate::slot::Slot;
use far_heap::{HeapName, Mutator};
use far_replay::FarSide;
use far_text::{Command, Lines, Request};
use far_word::LONGEST;
use std::alloc::Global;
use std::sync::Wait;

/// Why a thread ended before its last line.
#[derive(Clone, Copy)]
pub(crate) enum Stop {
    Gate,
    Memory,
}

// How much room the replies to these lines take, where each object that is read has the bytes.
fn room_for(lines: &Lines<'_>) -> Room {
    let mut room = Room {
        replies: lines.len(),
        bytes: 0,
        logs: 0,
        rounds: 0,
    };
    for place in 0..lines.len() {
        let (_, command) = lines.at(place);
        if let Command::Mutator {
            request: Request::Read { len, .. },
            ..
        } = command
        {
            if len <= u64::from(LONGEST) {
                room.bytes = room.bytes.saturating_add(len as usize);
            }
        }
    }
    room
}

/// Makes a new mutator's lines, in order, asking the gate before each: what each was answered. The room for all answers is taken before the
/// first line. A scope that is open after the last line, or where the thread stops, stays open.
///
/// [`Stop::Gate`] where the gate says no to a line; [`Stop::Memory`] where there is no room for the list, or for the bytes that a read is to tell, which
/// is asked for before the read. No line is refused 1: to bring an object takes no memory.
pub(crate) fn make_lines<K: HeapName, R: Wait, G: Gate>(
    alloc: Global,
    rt: &R,
    mutator: Mutator<K, FarSide>,
    number: u8,
    lines: &Lines<'_>,
    gate: &G,
) -> Result<Replies, Stop>
    requires new { mutator ≡ newcomer K.heap.table number K.heap.honest }
    requires own { AreOwn K.heap.mutators (OfMutator number) lines.now }
    ensures told { IfOk result (AloneOn K.heap number nothing (commands_of lines.now)) }
    ensures short { IfOk result (AllByRecursion IsShort) }
    ensures stopped { IfErr result (StopsBy (G.refuses gate.now) number lines.now) }
{
    let Ok(mut told) = Replies::with_room(alloc, room_for(lines)) else {
        return Err(Stop::Memory);
    };
    let mut slot = Slot::Closed(mutator);
    let mut turn = 0u32;
    for at in 0..lines.len() {
        if !gate.before(number, turn) {
            return Err(Stop::Gate);
        }
        let (_, command) = lines.at(at);
        let Command::Mutator { request, .. } = command else {
            unreachable!()
        };
        let Ok((next, answer)) = slot.answer(alloc, rt, request) else {
            return Err(Stop::Memory);
        };
        slot = next;
        let Ok(()) = told.push(answer) else {
            return Err(Stop::Memory);
        };
        gate.after(number, turn);
        turn = turn.saturating_add(1);
    }
    Ok(told)
}
