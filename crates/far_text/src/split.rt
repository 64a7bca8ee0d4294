//! A whole text whose commands are split among threads: nothing, or a heap, its device if that is said, and commands that one of
//! its threads runs.

ghost use Rattle.std.specs.Prelude.{◌≡◌, ◌<◌, ◌≤◌, ◌+◌, length, Err, Ok, IfOk, IfErr};
ghost use Rattle.far_text.specs.Cursor.{lines_left};
ghost use Rattle.far_text.specs.Grammar.{IsFault};
ghost use Rattle.far_text.specs.Split.{split_commands, split_of};
ghost use Rattle.far_text.specs.SplitParsed.{as_split};
ghost use Rattle.far_text.specs.declared.text.TheConstants.{LONGEST_TEXT};
ghost use Rattle.far_text.specs.declared.text.ParseError;

use crate::command::{Device, Entry};
use crate::line::{Line, line_first};
use crate::split_text::SplitText;
use crate::text::{LONGEST_TEXT, ParseError, device_line, heap_line};
use std::alloc::Global;

/// What a text says whose commands are split among threads.
#[derive(Drop)]
pub enum SplitTrace {
    /// No line says anything.
    Nothing,
    /// A heap, its device if that is said, and the commands after it.
    Heap {
        logs: u64,
        mutators: u64,
        epoch: u64,
        device: Option<Device>,
        lines: SplitText,
    },
}

// The commands of the lines after this number, or the first of them that says none, or one without a thread.
fn split_after(
    alloc: Global,
    mutators: u64,
    number: u64,
    lines: Option<&[u8]>,
) -> Result<SplitText, ParseError>
    requires counted { number + length (lines_left lines) ≤ LONGEST_TEXT + 1 }
    ensures lines { IfOk result (λ split. split_commands mutators (number + 1) (lines_left lines.entry) ≡ Ok split) }
    ensures fault { IfErr result (λ e. IsFault e (split_commands mutators (number + 1) (lines_left lines.entry))) }
{
    let mut split = SplitText::new(alloc)?;
    let mut number = number;
    let mut lines = lines;
    while let Some(text) = lines {
        number += 1;
        let Some((line, after)) = line_first(text) else {
            return Err(ParseError::Syntax(number));
        };
        if let Line::Said(entry) = line {
            let Entry::Command(command) = entry else {
                return Err(ParseError::Syntax(number));
            };
            if !split.push(mutators, number as u32, command)? {
                return Err(ParseError::Syntax(number));
            }
        }
        lines = after;
    }
    Ok(split)
}

/// What a text says whose commands are split among threads; or its first line off the grammar, or whose
/// command has no thread: one that asks where an object is, or for the epoch, a step of the evacuator that isn't a `round`, or
/// one of a mutator that the heap hasn't. Refused [`ParseError::Memory`] if there is no memory for the commands.
pub fn parse_split(alloc: Global, text: &[u8]) -> Result<SplitTrace, ParseError>
    ensures trace { IfOk result (λ split. split_of text.now ≡ Ok (as_split split)) }
    ensures fault { IfErr result (λ e. IsFault e (split_of text.now)) }
    ensures long { LONGEST_TEXT < length text.now → result ≡ Err (ParseError.Syntax 0) }
{
    if text.len() > LONGEST_TEXT {
        return Err(ParseError::Syntax(0));
    }
    let Some(heap) = heap_line(text)? else {
        return Ok(SplitTrace::Nothing);
    };
    let (device, number, lines) = device_line(heap.number, heap.lines);
    Ok(SplitTrace::Heap {
        logs: heap.logs,
        mutators: heap.mutators,
        epoch: heap.epoch,
        device,
        lines: split_after(alloc, heap.mutators, number, lines)?,
    })
}
