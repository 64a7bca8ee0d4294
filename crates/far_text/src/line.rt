//! What each line of a text says.

ghost use Rattle.std.specs.Prelude.{◌≡◌, ◌≤◌, ◌<◌, ◌+◌, ◌==◌, ℕ, length, drop, true, false, slice_index, IfSome, IfNone};
ghost use Rattle.std.specs.Option.{option_and_then};
ghost use Rattle.far_text.specs.Spelled.{entry_spelled, as_line};
ghost use Rattle.far_text.specs.Grammar.{entry_of, line_of, Bad, Skipped};
ghost use Rattle.far_text.specs.Cursor.{first_line, lines_after_first, lines_left, words_in};

use crate::command::{Entry, Spelled, entry_by_first_word};
use crate::cursor::line_end;
use crate::hex_word::LONGEST_LINE;

/// What a line says.
#[derive(Clone, Copy)]
pub enum Line<'a> {
    /// An empty line or a comment.
    Skipped,
    Said(Entry<'a>),
}

// Where the first line of a text ends, if all its bytes are ASCII.
#[inline(always)]
fn ascii_len(text: &[u8]) -> Option<usize>
    ensures bound { IfSome result (λ len. len ≤ length text.now) }
    ensures ascii { IfSome result (λ len. (k : ℕ) → k < len → slice_index text.now k < 128) }
    ensures inside { IfSome result (λ len. (k : ℕ) → k < len → (slice_index text.now k == 10) ≡ false) }
    ensures ends { IfSome result (λ len. len < length text.now → slice_index text.now len ≡ 10) }
    ensures other { IfNone result ((at : ℕ) × (at < length text.now) × (128 ≤ slice_index text.now at) × ((k : ℕ) → k < at → (slice_index text.now k == 10) ≡ false)) }
{
    let len = line_end(text);
    if text[..len].is_ascii() {
        Some(len)
    } else {
        None
    }
}

// The lines after a comment, which a text begins with, and of which is known where it ends and that all its bytes are ASCII;
// None where it is too long.
#[inline(always)]
fn comment_ends(text: &[u8], len: usize) -> Option<Option<&[u8]>>
    // the text begins with #; its first `len` bytes are ASCII without a newline, and behind them is one, or the text's end
    requires some { 0 < length text.now }
    requires comment { slice_index text.now 0 ≡ 35 }
    requires bound { len ≤ length text.now }
    requires ascii { (k : ℕ) → k < len → slice_index text.now k < 128 }
    requires inside { (k : ℕ) → k < len → (slice_index text.now k == 10) ≡ false }
    requires ends { len < length text.now → slice_index text.now len ≡ 10 }

    // `None`: the line is too long, and so a bad one
    ensures bad { IfNone result (line_of (first_line text.now) ≡ Bad) }

    // else the line says nothing, and the answer is the text behind it, if there's any
    ensures line { IfSome result (λ _. line_of (first_line text.now) ≡ Skipped) }
    ensures lines { IfSome result (λ after. lines_left after ≡ lines_after_first text.now) }
    ensures rest { IfSome result (λ after. IfSome after (λ rest. rest.now ≡ drop (len + 1) text.now)) }
{
    if len > LONGEST_LINE {
        return None;
    }
    if len == text.len() {
        return Some(None);
    }
    Some(Some(&text[len + 1..]))
}

/// Reads a comment, which a text begins with.
#[inline(always)]
pub fn comment_first(text: &[u8]) -> Option<(Line<'_>, Option<&[u8]>)>
    requires some { 0 < length text.now }
    requires comment { slice_index text.now 0 ≡ 35 }
    ensures bad { IfNone result (line_of (first_line text.now) ≡ Bad) }
    ensures line { IfSome result (λ found. as_line found.0 ≡ line_of (first_line text.now)) }
    ensures lines { IfSome result (λ found. lines_left found.1 ≡ lines_after_first text.now) }
{
    let len = ascii_len(text)?;
    let after = comment_ends(text, len)?;
    Some((Line::Skipped, after))
}

/// The lines after the first of a text of ASCII, where this is an empty line or a comment. Whether bytes are ASCII is known for
/// many lines at once.
#[inline(always)]
pub fn skipped_first(text: &[u8]) -> Option<Option<&[u8]>>
    requires ascii { (k : ℕ) → slice_index text.now k < 128 }
    ensures line { IfSome result (λ _. line_of (first_line text.now) ≡ Skipped) }
    ensures lines { IfSome result (λ after. lines_left after ≡ lines_after_first text.now) }
    ensures ascii { IfSome result (λ after. IfSome after (λ rest. (k : ℕ) → slice_index rest.now k < 128)) }
{
    if text.is_empty() {
        return Some(None);
    }
    if text[0] == b'\n' {
        return Some(Some(&text[1..]));
    }
    if text[0] != b'#' {
        return None;
    }
    comment_ends(text, line_end(text))
}

// How many bytes the first line of a text has, where these are the lines after it.
#[inline(always)]
fn line_len(text: &[u8], lines: Option<&[u8]>) -> usize
    requires { lines_left lines ≡ lines_after_first text.now }
    ensures { result ≡ length (first_line text.now) }
{
    match lines {
        None => text.len(),
        Some(lines) => text.len() - lines.len() - 1,
    }
}

/// The line that a text begins with, where this is what its words spell.
#[inline(always)]
pub fn line_spelled<'a>(
    text: &[u8],
    spelled: Option<Spelled<'a>>,
) -> Option<(Line<'a>, Option<&'a [u8]>)>
    requires some { 0 < length text.now }
    requires content { (slice_index text.now 0 == 10) ≡ false }
    requires other { (slice_index text.now 0 == 35) ≡ false }
    requires value { option_and_then (λ found. entry_spelled found.0) spelled ≡ entry_of (words_in text.now) }
    requires lines { IfSome spelled (λ found. lines_left found.1 ≡ lines_after_first text.now) }
    ensures bad { IfNone result (line_of (first_line text.now) ≡ Bad) }
    ensures line { IfSome result (λ found. as_line found.0 ≡ line_of (first_line text.now)) }
    ensures lines { IfSome result (λ found. lines_left found.1 ≡ lines_after_first text.now) }
{
    let Some((entry, lines)) = spelled else {
        return None;
    };
    if line_len(text, lines) > LONGEST_LINE {
        return None;
    }
    Some((Line::Said(entry), lines))
}

/// What the first line of a text says, and the lines after it; None where it is off the grammar.
#[inline(always)]
pub fn line_first(text: &[u8]) -> Option<(Line<'_>, Option<&[u8]>)>
    ensures bad { IfNone result (line_of (first_line text.now) ≡ Bad) }
    ensures line { IfSome result (λ found. as_line found.0 ≡ line_of (first_line text.now)) }
    ensures lines { IfSome result (λ found. lines_left found.1 ≡ lines_after_first text.now) }
{
    if text.is_empty() {
        return Some((Line::Skipped, None));
    }
    if text[0] == b'\n' {
        return Some((Line::Skipped, Some(&text[1..])));
    }
    if text[0] == b'#' {
        return comment_first(text);
    }
    line_spelled(text, entry_by_first_word(text))
}
