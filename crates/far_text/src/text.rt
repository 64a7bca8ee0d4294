//! A whole text: nothing, or a heap, its device if that is said, and commands.

ghost use Rattle.std.specs.Prelude.{◌≡◌, ◌<◌, ◌≤◌, ◌+◌, ℕ, length, slice_index, true, Ok, Err, None, IfOk, IfErr, IfSome};
ghost use Rattle.far_text.specs.Parsed.{as_trace};
ghost use Rattle.far_text.specs.Cursor.{lines_left};
ghost use Rattle.far_text.specs.declared.text.TheConstants.{LONGEST_TEXT};
ghost use Rattle.std.specs.Option.{option_map};
ghost use Rattle.far_text.specs.Command.{as_device};
ghost use Rattle.far_text.specs.Grammar.{beside, device_sought, trace_of, lines_of, read_commands, IsFault};
ghost use Rattle.far_text.specs.HeapSought.{NoHeap, HeapAt, heap_sought};

use crate::adding::add_line;
use crate::command::{Device, Entry};
use crate::commands::Commands;
use crate::line::{Line, line_first, skipped_first};
use std::alloc::{AllocError, AllocFailed, Global};
use thiserror::Error;

/// The most bytes that a text has.
pub const LONGEST_TEXT: usize = 1_048_576;

/// Why a text was not read.
#[derive(Clone, Copy, Debug, PartialEq, Eq, Error)]
pub enum ParseError {
    #[error("memory")]
    Memory,
    /// The first line off the grammar, from 1, or 0 for a text that is too long.
    #[error("line {0} is off the grammar")]
    Syntax(u64),
}

impl From<AllocError> for ParseError {
    ghost use Rattle.std.specs.Prelude.{◌≡◌};
    ghost use Rattle.far_text.specs.declared.text.ParseError.TheVariants.{Memory};

    ghost from_gives = { λ _ e. e ≡ Memory };

    fn from(_e: AllocError) -> ParseError {
        ParseError::Memory
    }
}

impl<T: Drop> From<AllocFailed<T>> for ParseError {
    ghost use Rattle.std.specs.Prelude.{◌≡◌};
    ghost use Rattle.far_text.specs.declared.text.ParseError.TheVariants.{Memory};

    ghost from_gives = { λ _ e. e ≡ Memory };

    fn from(_e: AllocFailed<T>) -> ParseError {
        ParseError::Memory
    }
}

/// What a text says.
#[derive(Drop)]
pub enum Trace {
    /// No line says anything.
    Nothing,
    /// A heap, its device if that is said, and the commands after it.
    Heap {
        logs: u64,
        mutators: u64,
        epoch: u64,
        device: Option<Device>,
        commands: Commands,
    },
}

/// The heap's line: what it says, its number, and the lines after it.
#[derive(Clone, Copy)]
pub struct HeapLine<'a> {
    pub logs: u64,
    pub mutators: u64,
    pub epoch: u64,
    pub number: u64,
    pub lines: Option<&'a [u8]>,
}

/// Looks for the heap's line: None where no line says anything, an error where one that says no heap comes before it.
pub fn heap_line(text: &[u8]) -> Result<Option<HeapLine<'_>>, ParseError>
    requires short { length text.now ≤ LONGEST_TEXT }
    ensures none { result ≡ Ok None → heap_sought 1 (lines_of text.now) ≡ Ok NoHeap }
    ensures heap { IfOk result (λ found. IfSome found (λ heap. heap_sought 1 (lines_of text.now) ≡ Ok (HeapAt heap.logs heap.mutators heap.epoch heap.number (lines_left heap.lines)))) }
    ensures counted { IfOk result (λ found. IfSome found (λ heap. heap.number + length (lines_left heap.lines) ≤ LONGEST_TEXT + 1)) }
    ensures fault { IfErr result (λ e. IsFault e (heap_sought 1 (lines_of text.now))) }
{
    let mut number = 0u64;
    let mut lines = Some(text);
    while let Some(text) = lines {
        number += 1;
        let Some((line, after)) = line_first(text) else {
            return Err(ParseError::Syntax(number));
        };
        if let Line::Said(entry) = line {
            return match entry {
                Entry::Heap {
                    logs,
                    mutators,
                    epoch,
                } => Ok(Some(HeapLine {
                    logs,
                    mutators,
                    epoch,
                    number,
                    lines: after,
                })),
                Entry::Device(_) => Err(ParseError::Syntax(number)),
                Entry::Command(_) => Err(ParseError::Syntax(number)),
            };
        }
        lines = after;
    }
    Ok(None)
}

/// The heap's device, if the first of these lines that says anything says one; the number of the device's line, or, if no device
/// is said, `number`, which is that of the line before these; and the lines after that line.
pub fn device_line(number: u64, lines: Option<&[u8]>) -> (Option<Device>, u64, Option<&[u8]>)
    requires counted { number + length (lines_left lines) ≤ LONGEST_TEXT + 1 }
    ensures value { beside (number + 1) (lines_left lines.entry) ≡ (option_map as_device result.0, result.1 + 1, lines_left result.2) }
    ensures counted { result.1 + length (lines_left result.2) ≤ LONGEST_TEXT + 1 }
{
    let mut at = number;
    let mut left = lines;
    while let Some(text) = left {
        at += 1;
        let Some((line, after)) = line_first(text) else {
            return (None, number, lines);
        };
        if let Line::Said(entry) = line {
            return match entry {
                Entry::Device(device) => (Some(device), at, after),
                Entry::Heap { .. } | Entry::Command(_) => (None, number, lines),
            };
        }
        left = after;
    }
    (None, number, lines)
}

// Whether an empty line or a comment is the first line of a text, all of whose bytes are ASCII.
fn begins_skipped(text: &[u8]) -> bool
    ensures { result ≡ true → (k : ℕ) → slice_index text.now k < 128 }
{
    !text.is_empty() && (text[0] == b'#' || text[0] == b'\n') && text.is_ascii()
}

// Passes over empty lines and comments after this number, perhaps not over all. The number of the last of them, and the lines
// after it. Where a text has many of them, they are read once.
#[inline(never)]
fn skip_lines(number: u64, lines: Option<&[u8]>) -> (u64, Option<&[u8]>)
    requires counted { number + length (lines_left lines) ≤ LONGEST_TEXT + 1 }
    ensures device { device_sought (number + 1) (lines_left lines.entry) ≡ device_sought (result.0 + 1) (lines_left result.1) }
    ensures commands { read_commands (number + 1) (lines_left lines.entry) ≡ read_commands (result.0 + 1) (lines_left result.1) }
    ensures counted { result.0 + length (lines_left result.1) ≤ LONGEST_TEXT + 1 }
{
    let Some(text) = lines else {
        return (number, lines);
    };
    if !begins_skipped(text) {
        return (number, lines);
    }
    let mut at = number;
    let mut left = lines;
    while let Some(text) = left {
        let Some(after) = skipped_first(text) else {
            return (at, left);
        };
        at += 1;
        left = after;
    }
    (at, left)
}

// The commands of the lines after this number, or the first of them that says none. Apart from its caller it has registers
// enough.
#[inline(never)]
fn commands_after(alloc: Global, number: u64, lines: Option<&[u8]>) -> Result<Commands, ParseError>
    requires counted { number + length (lines_left lines) ≤ LONGEST_TEXT + 1 }
    ensures commands { IfOk result (λ commands. read_commands (number + 1) (lines_left lines.entry) ≡ Ok commands) }
    ensures fault { IfErr result (λ e. IsFault e (read_commands (number + 1) (lines_left lines.entry))) }
{
    let mut commands = Commands::new(alloc)?;
    let mut number = number;
    let mut lines = lines;
    while let Some(text) = lines {
        number += 1;
        let Some(after) = add_line(&mut commands, text)? else {
            return Err(ParseError::Syntax(number));
        };
        lines = after;
    }
    Ok(commands)
}

/// What a text says, or its first line off the grammar: a heap comes first, and nowhere else; directly after the heap its device
/// may come. Refused [`ParseError::Memory`] if there is no memory for the commands.
pub fn parse(alloc: Global, text: &[u8]) -> Result<Trace, ParseError>
    ensures trace { IfOk result (λ trace. trace_of text.now ≡ Ok (as_trace trace)) }
    ensures fault { IfErr result (λ e. IsFault e (trace_of text.now)) }
    ensures long { LONGEST_TEXT < length text.now → result ≡ Err (ParseError.Syntax 0) }
{
    if text.len() > LONGEST_TEXT {
        return Err(ParseError::Syntax(0));
    }
    let Some(heap) = heap_line(text)? else {
        return Ok(Trace::Nothing);
    };
    let (number, lines) = skip_lines(heap.number, heap.lines);
    let (device, number, lines) = device_line(number, lines);
    Ok(Trace::Heap {
        logs: heap.logs,
        mutators: heap.mutators,
        epoch: heap.epoch,
        device,
        commands: commands_after(alloc, number, lines)?,
    })
}
