//! The commands of a text, added as its lines are read.

ghost use Rattle.std.specs.Prelude.{◌≡◌, ◌≤◌, ◌<◌, ◌==◌, length, false, slice_index, Some, None, IfOk, IfSome, IfNone};
ghost use Rattle.far_text.specs.declared.text.TheConstants.{LONGEST_TEXT};
ghost use Rattle.std.specs.Option.{option_and_then};
ghost use Rattle.far_text.specs.Cursor.{first_line, lines_after_first, lines_left, words_in};
ghost use Rattle.far_text.specs.Grammar.{Bad, line_of, entry_of};
ghost use Rattle.far_text.specs.Spelled.{as_line, entry_spelled};
ghost use Rattle.far_text.specs.Parsed.{with_line};

use crate::command::{
    Entry, Spelled, close_spelled, drop_spelled, entry_by_first_word, new_spelled, open_spelled,
    read_spelled, view_spelled, write_spelled,
};
use crate::commands::Commands;
use crate::cursor::{Rest, after_name};
use crate::line::{Line, comment_first, line_spelled};
use std::alloc::AllocError;

// Adds the command of the first line of a text, where this is what the line says. The lines after it; None where it is off
// the grammar, or what it says can't be kept.
#[inline(always)]
fn add_read<'a>(
    commands: &mut Commands,
    text: &[u8],
    read: Option<(Line<'a>, Option<&'a [u8]>)>,
) -> Result<Option<Option<&'a [u8]>>, AllocError>
    requires few { length commands.old ≤ LONGEST_TEXT }
    requires bad { IfNone read (line_of (first_line text.now) ≡ Bad) }
    requires line { IfSome read (λ found. as_line found.0 ≡ line_of (first_line text.now)) }
    requires lines { IfSome read (λ found. lines_left found.1 ≡ lines_after_first text.now) }
    ensures added { IfOk result (λ found. IfSome found (λ _. with_line commands.old (line_of (first_line text.now)) ≡ Some commands.new)) }
    ensures lines { IfOk result (λ found. IfSome found (λ after. lines_left after ≡ lines_after_first text.now)) }
    ensures bad { IfOk result (λ found. IfNone found (with_line commands.old (line_of (first_line text.now)) ≡ None)) }
{
    let Some((line, after)) = read else {
        return Ok(None);
    };
    if let Line::Said(entry) = line {
        let Entry::Command(command) = entry else {
            return Ok(None);
        };
        if !commands.push(command)? {
            return Ok(None);
        }
    }
    Ok(Some(after))
}

// Adds the command of the first line of a text, where this is what its words spell.
#[inline(always)]
fn add_spelled<'a>(
    commands: &mut Commands,
    text: &[u8],
    spelled: Option<Spelled<'a>>,
) -> Result<Option<Option<&'a [u8]>>, AllocError>
    requires few { length commands.old ≤ LONGEST_TEXT }
    requires some { 0 < length text.now }
    requires content { (slice_index text.now 0 == 10) ≡ false }
    requires other { (slice_index text.now 0 == 35) ≡ false }
    requires value { option_and_then (λ found. entry_spelled found.0) spelled ≡ entry_of (words_in text.now) }
    requires lines { IfSome spelled (λ found. lines_left found.1 ≡ lines_after_first text.now) }
    ensures added { IfOk result (λ found. IfSome found (λ _. with_line commands.old (line_of (first_line text.now)) ≡ Some commands.new)) }
    ensures lines { IfOk result (λ found. IfSome found (λ after. lines_left after ≡ lines_after_first text.now)) }
    ensures bad { IfOk result (λ found. IfNone found (with_line commands.old (line_of (first_line text.now)) ≡ None)) }
{
    add_read(commands, text, line_spelled(text, spelled))
}

// Adds the command of the first line of a text, by its first word. It stands apart, so that no other line pays for it.
#[inline(never)]
fn add_by_first_word<'a>(
    commands: &mut Commands,
    text: &'a [u8],
) -> Result<Option<Option<&'a [u8]>>, AllocError>
    requires few { length commands.old ≤ LONGEST_TEXT }
    requires some { 0 < length text.now }
    requires content { (slice_index text.now 0 == 10) ≡ false }
    requires other { (slice_index text.now 0 == 35) ≡ false }
    ensures added { IfOk result (λ found. IfSome found (λ _. with_line commands.old (line_of (first_line text.now)) ≡ Some commands.new)) }
    ensures lines { IfOk result (λ found. IfSome found (λ after. lines_left after ≡ lines_after_first text.now)) }
    ensures bad { IfOk result (λ found. IfNone found (with_line commands.old (line_of (first_line text.now)) ≡ None)) }
{
    add_spelled(commands, text, entry_by_first_word(text))
}

// The same, its answer taken apart, so that what the others answer need not stand in memory.
#[inline(always)]
fn add_rarer<'a>(
    commands: &mut Commands,
    text: &'a [u8],
) -> Result<Option<Option<&'a [u8]>>, AllocError>
    requires few { length commands.old ≤ LONGEST_TEXT }
    requires some { 0 < length text.now }
    requires content { (slice_index text.now 0 == 10) ≡ false }
    requires other { (slice_index text.now 0 == 35) ≡ false }
    ensures added { IfOk result (λ found. IfSome found (λ _. with_line commands.old (line_of (first_line text.now)) ≡ Some commands.new)) }
    ensures lines { IfOk result (λ found. IfSome found (λ after. lines_left after ≡ lines_after_first text.now)) }
    ensures bad { IfOk result (λ found. IfNone found (with_line commands.old (line_of (first_line text.now)) ≡ None)) }
{
    match add_by_first_word(commands, text) {
        Ok(added) => Ok(added),
        Err(error) => Err(error),
    }
}

// Adds the command of the first line of a text, found by its first byte where objects or scopes come or go, else by its first
// word.
#[inline(always)]
fn add_coming<'a>(
    commands: &mut Commands,
    text: &'a [u8],
) -> Result<Option<Option<&'a [u8]>>, AllocError>
    requires few { length commands.old ≤ LONGEST_TEXT }
    requires some { 0 < length text.now }
    requires content { (slice_index text.now 0 == 10) ≡ false }
    requires other { (slice_index text.now 0 == 35) ≡ false }
    ensures added { IfOk result (λ found. IfSome found (λ _. with_line commands.old (line_of (first_line text.now)) ≡ Some commands.new)) }
    ensures lines { IfOk result (λ found. IfSome found (λ after. lines_left after ≡ lines_after_first text.now)) }
    ensures bad { IfOk result (λ found. IfNone found (with_line commands.old (line_of (first_line text.now)) ≡ None)) }
{
    match text[0] {
        b'n' => {
            if let Some(rest) = after_name(text, b"new") {
                return add_spelled(commands, text, new_spelled(Rest::Words(rest)));
            }
        }
        b'd' => {
            if let Some(rest) = after_name(text, b"drop") {
                return add_spelled(commands, text, drop_spelled(Rest::Words(rest)));
            }
        }
        b'o' => {
            if let Some(rest) = after_name(text, b"open") {
                return add_spelled(commands, text, open_spelled(Rest::Words(rest)));
            }
        }
        b'c' => {
            if let Some(rest) = after_name(text, b"close") {
                return add_spelled(commands, text, close_spelled(Rest::Words(rest)));
            }
        }
        _ => {}
    }
    add_rarer(commands, text)
}

// Adds the command of the first line of a text. Those that traces are full of are known by their first bytes, and each is
// added where it is read.
#[inline(always)]
fn add_entry<'a>(
    commands: &mut Commands,
    text: &'a [u8],
) -> Result<Option<Option<&'a [u8]>>, AllocError>
    requires few { length commands.old ≤ LONGEST_TEXT }
    requires some { 0 < length text.now }
    requires content { (slice_index text.now 0 == 10) ≡ false }
    requires other { (slice_index text.now 0 == 35) ≡ false }
    ensures added { IfOk result (λ found. IfSome found (λ _. with_line commands.old (line_of (first_line text.now)) ≡ Some commands.new)) }
    ensures lines { IfOk result (λ found. IfSome found (λ after. lines_left after ≡ lines_after_first text.now)) }
    ensures bad { IfOk result (λ found. IfNone found (with_line commands.old (line_of (first_line text.now)) ≡ None)) }
{
    match text[0] {
        b'r' => {
            if let Some(rest) = after_name(text, b"read") {
                return add_spelled(commands, text, read_spelled(Rest::Words(rest)));
            }
        }
        b'w' => {
            if let Some(rest) = after_name(text, b"write") {
                return add_spelled(commands, text, write_spelled(Rest::Words(rest)));
            }
        }
        b'v' => {
            if let Some(rest) = after_name(text, b"view") {
                return add_spelled(commands, text, view_spelled(Rest::Words(rest)));
            }
        }
        _ => return add_coming(commands, text),
    }
    add_rarer(commands, text)
}

/// Adds the command of the first line of a text, if it says one, and nothing where it is passed over. The lines after it;
/// None where it is off the grammar, says a heap, or can't be kept.
#[inline(always)]
pub fn add_line<'a>(
    commands: &mut Commands,
    text: &'a [u8],
) -> Result<Option<Option<&'a [u8]>>, AllocError>
    requires few { length commands.old ≤ LONGEST_TEXT }
    ensures added { IfOk result (λ found. IfSome found (λ _. with_line commands.old (line_of (first_line text.now)) ≡ Some commands.new)) }
    ensures lines { IfOk result (λ found. IfSome found (λ after. lines_left after ≡ lines_after_first text.now)) }
    ensures bad { IfOk result (λ found. IfNone found (with_line commands.old (line_of (first_line text.now)) ≡ None)) }
{
    if text.is_empty() {
        return Ok(Some(None));
    }
    if text[0] == b'\n' {
        return Ok(Some(Some(&text[1..])));
    }
    if text[0] == b'#' {
        return add_read(commands, text, comment_first(text));
    }
    add_entry(commands, text)
}
