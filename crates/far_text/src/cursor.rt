//! A text that is read word by word, each byte once.

ghost use Rattle.std.specs.Prelude.{◌≡◌, ◌≤◌, ◌<◌, ◌+◌, ◌*◌, ◌%◌, ◌^◌, ◌==◌, ◌∷◌, ◌++◌, ℕ, List, [], length, take, drop, true, false, not, slice_index, IfSome, IfNone};
ghost use Rattle.std.specs.Char.{is_ascii_digit};
ghost use Rattle.std.specs.Int.{IsInRange};
ghost use Rattle.std.specs.List.{list_all};
ghost use Rattle.std.specs.Option.{option_and_then, option_map};
ghost use Rattle.std.specs.Str.Parse.{digits_value};
ghost use Rattle.far_text.specs.Grammar.{bytes_in, next_number, last_bytes};
ghost use Rattle.far_text.specs.Cursor.{is_end, first_line, words_in, words_left, lines_after_first, lines_after, lines_left};

use memchr::{memchr, memchr2};

/// What is left of a text after a word of one of its lines.
#[derive(Clone, Copy)]
pub enum Rest<'a> {
    /// More words of the line, and the lines after it.
    Words(&'a [u8]),
    /// The lines after the line, if any.
    Lines(Option<&'a [u8]>),
}

// What is left after a word that ends before this byte, or None if it goes on.
#[inline(always)]
fn rest_at(text: &[u8], at: usize) -> Option<Rest<'_>>
    requires { at ≤ length text.now }
    ensures words { IfSome result (λ rest. words_in (drop at text.now) ≡ [] ∷ words_left rest) }
    ensures lines { IfSome result (λ rest. lines_after_first (drop at text.now) ≡ lines_after rest) }
    ensures longer { IfNone result ((at < length text.now) × (is_end (slice_index text.now at) ≡ false)) }
{
    if at == text.len() {
        return Some(Rest::Lines(None));
    }
    match text[at] {
        b' ' => Some(Rest::Words(&text[at + 1..])),
        b'\n' => Some(Rest::Lines(Some(&text[at + 1..]))),
        _ => None,
    }
}

#[inline(always)]
fn word_len(text: &[u8]) -> usize
    ensures bound { result ≤ length text.now }
    ensures inside { (k : ℕ) → k < result → is_end (slice_index text.now k) ≡ false }
    ensures ends { result < length text.now → is_end (slice_index text.now result) ≡ true }
{
    match memchr2(b' ', b'\n', text) {
        Some(end) => end,
        None => text.len(),
    }
}

/// The first word of a text, and what is left after it.
#[inline(always)]
pub fn word_first(text: &[u8]) -> (&[u8], Rest<'_>)
    ensures words { words_in text.now ≡ result.0.now ∷ words_left result.1 }
    ensures lines { lines_after_first text.now ≡ lines_after result.1 }
{
    let len = word_len(text);
    (&text[..len], rest_at(text, len).unwrap())
}

/// What stands behind a name and a space at the front of a text, if it begins so.
#[inline(always)]
pub fn after_name<'a>(text: &'a [u8], name: &[u8]) -> Option<&'a [u8]>
    requires { list_all (λ b. not (is_end b)) name.now ≡ true }
    ensures words { IfSome result (λ rest. words_in text.now ≡ name.now ∷ words_in rest.now) }
    ensures lines { IfSome result (λ rest. lines_after_first text.now ≡ lines_after_first rest.now) }
    ensures none { IfNone result ((rest : List ℕ) → text.now ≡ name.now ++ 32 ∷ rest → ⊥) }
{
    let len = name.len();
    if text.len() <= len || text[len] != b' ' {
        return None;
    }
    let mut at = 0;
    while at < len {
        if text[at] != name[at] {
            return None;
        }
        at += 1;
    }
    Some(&text[len + 1..])
}

// The number that the digits in front of a text print, all of them, and what is left after it.
#[inline(always)]
fn printed_number(text: &[u8], len: usize, n: u64) -> Option<(u64, Rest<'_>)>
    requires fits { len ≤ length text.now }
    requires digits { (k : ℕ) → k < len → IsInRange 48 57 (slice_index text.now k) }
    requires value { n ≡ digits_value 10 (take len text.now) }
    requires stops { len < length text.now → is_ascii_digit (slice_index text.now len) ≡ false }
    ensures number { option_map (λ found. (found.0, words_left found.1)) result ≡ next_number (words_in text.now) }
    ensures lines { IfSome result (λ found. lines_after_first text.now ≡ lines_after found.1) }
{
    if len == 0 {
        return None;
    }
    if len > 1 && text[0] == b'0' {
        return None;
    }
    let rest = rest_at(text, len)?;
    Some((n, rest))
}

// The digits in front of a text: the number that they print, modulo 2^64, and how many they are. It stands apart, since
// most numbers are read without it.
#[inline(never)]
fn digits_first(text: &[u8]) -> (u64, usize)
    ensures fits { result.1 ≤ length text.now }
    ensures digits { (k : ℕ) → k < result.1 → IsInRange 48 57 (slice_index text.now k) }
    ensures value { result.0 ≡ digits_value 10 (take result.1 text.now) % 2 ^ 64 }
    ensures stops { result.1 < length text.now → is_ascii_digit (slice_index text.now result.1) ≡ false }
{
    let mut n = 0u64;
    let mut len = 0;
    while len < text.len() && text[len].is_ascii_digit() {
        n = n.wrapping_mul(10).wrapping_add(u64::from(text[len] - b'0'));
        len += 1;
    }
    (n, len)
}

// The number that digits print, if it is below 2^64.
#[cold]
#[inline(never)]
fn long_number(digits: &[u8]) -> Option<u64>
    requires { (k : ℕ) → k < length digits.now → IsInRange 48 57 (slice_index digits.now k) }
    ensures value { IfSome result (λ n. n ≡ digits_value 10 digits.now) }
    ensures large { IfNone result (2 ^ 64 ≤ digits_value 10 digits.now) }
{
    let mut n = 0u64;
    for digit in digits {
        n = n.checked_mul(10)?.checked_add(u64::from(*digit - b'0'))?;
    }
    Some(n)
}

// The number that a few digits in front of a text and the next byte print, if that is a digit too.
#[inline(always)]
fn one_digit_more(text: &[u8], len: usize, n: u64) -> Option<u64>
    requires inside { len < length text.now }
    requires small { n < 1000 }
    requires digits { (k : ℕ) → k < len → IsInRange 48 57 (slice_index text.now k) }
    requires value { n ≡ digits_value 10 (take len text.now) }
    ensures digits { IfSome result (λ _. (k : ℕ) → k < len + 1 → IsInRange 48 57 (slice_index text.now k)) }
    ensures value { IfSome result (λ more. more ≡ digits_value 10 (take (len + 1) text.now)) }
    ensures small { IfSome result (λ more. more < n * 10 + 10) }
    ensures stops { IfNone result (is_ascii_digit (slice_index text.now len) ≡ false) }
{
    let byte = text[len];
    if byte.is_ascii_digit() {
        Some(n * 10 + u64::from(byte - b'0'))
    } else {
        None
    }
}

// The same as `digits_first`, sooner if they are at most four.
#[inline(always)]
fn few_digits_first(text: &[u8]) -> (u64, usize)
    ensures fits { result.1 ≤ length text.now }
    ensures digits { (k : ℕ) → k < result.1 → IsInRange 48 57 (slice_index text.now k) }
    ensures value { result.0 ≡ digits_value 10 (take result.1 text.now) % 2 ^ 64 }
    ensures stops { result.1 < length text.now → is_ascii_digit (slice_index text.now result.1) ≡ false }
{
    if text.len() <= 4 {
        return digits_first(text);
    }
    let Some(one) = one_digit_more(text, 0, 0) else {
        return (0, 0);
    };
    let Some(two) = one_digit_more(text, 1, one) else {
        return (one, 1);
    };
    let Some(three) = one_digit_more(text, 2, two) else {
        return (two, 2);
    };
    let Some(four) = one_digit_more(text, 3, three) else {
        return (three, 3);
    };
    if text[4].is_ascii_digit() {
        return digits_first(text);
    }
    (four, 4)
}

/// The number that the first word of a text prints, and what is left after it.
#[inline(always)]
pub fn number_first(text: &[u8]) -> Option<(u64, Rest<'_>)>
    ensures number { option_map (λ found. (found.0, words_left found.1)) result ≡ next_number (words_in text.now) }
    ensures lines { IfSome result (λ found. lines_after_first text.now ≡ lines_after found.1) }
{
    let (n, len) = few_digits_first(text);
    // Nineteen digits are always below 2^64.
    if len < 20 {
        return printed_number(text, len, n);
    }
    let n = long_number(&text[..len])?;
    printed_number(text, len, n)
}

/// The number that the next word prints, and what is left after it.
#[inline(always)]
pub fn next_number_of(rest: Rest<'_>) -> Option<(u64, Rest<'_>)>
    ensures number { option_map (λ found. (found.0, words_left found.1)) result ≡ next_number (words_left rest.entry) }
    ensures lines { IfSome result (λ found. lines_after found.1 ≡ lines_after rest.entry) }
{
    match rest {
        Rest::Words(text) => number_first(text),
        Rest::Lines(_) => None,
    }
}

/// The next word, and what is left after it.
pub fn next_word_of(rest: Rest<'_>) -> Option<(&[u8], Rest<'_>)>
    ensures none { IfNone result (words_left rest.entry ≡ []) }
    ensures words { IfSome result (λ found. words_left rest.entry ≡ found.0.now ∷ words_left found.1) }
    ensures lines { IfSome result (λ found. lines_after found.1 ≡ lines_after rest.entry) }
{
    match rest {
        Rest::Words(text) => Some(word_first(text)),
        Rest::Lines(_) => None,
    }
}

/// Where the first line of a text ends.
#[inline(always)]
pub fn line_end(text: &[u8]) -> usize
    ensures bound { result ≤ length text.now }
    ensures inside { (k : ℕ) → k < result → (slice_index text.now k == 10) ≡ false }
    ensures ends { result < length text.now → slice_index text.now result ≡ 10 }
{
    match memchr(b'\n', text) {
        Some(end) => end,
        None => text.len(),
    }
}

// The first line of a text, and the lines after it, if any.
#[inline(always)]
fn split_line(text: &[u8]) -> (&[u8], Option<&[u8]>)
    ensures line { result.0.now ≡ first_line text.now }
    ensures lines { lines_left result.1 ≡ lines_after_first text.now }
{
    let len = line_end(text);
    if len == text.len() {
        return (text, None);
    }
    (&text[..len], Some(&text[len + 1..]))
}

// The rest of the line, which spells bytes exactly if it is one word in hex, and the lines after it.
#[inline(always)]
#[tactic(auto, using(crate::proofs::LastWord::one_word))]
fn line_bytes(text: &[u8]) -> (&[u8], Option<&[u8]>)
    ensures bytes { bytes_in result.0.now ≡ last_bytes (words_in text.now) }
    ensures lines { lines_left result.1 ≡ lines_after_first text.now }
{
    split_line(text)
}

/// What spells bytes if it is a word in hex, and the last one of its line, and the lines after it.
#[inline(always)]
pub fn last_bytes_of(rest: Rest<'_>) -> Option<(&[u8], Option<&[u8]>)>
    ensures bytes { option_and_then (λ found. bytes_in found.0.now) result ≡ last_bytes (words_left rest.entry) }
    ensures lines { IfSome result (λ found. lines_left found.1 ≡ lines_after rest.entry) }
{
    match rest {
        Rest::Words(text) => Some(line_bytes(text)),
        Rest::Lines(_) => None,
    }
}

/// A text that begins with all words that are left of the line, if there are any, and the lines after it.
pub fn last_words_of(rest: Rest<'_>) -> Option<(&[u8], Option<&[u8]>)>
    ensures none { IfNone result (words_left rest.entry ≡ []) }
    ensures words { IfSome result (λ found. words_in found.0.now ≡ words_left rest.entry) }
    ensures lines { IfSome result (λ found. lines_left found.1 ≡ lines_after rest.entry) }
{
    match rest {
        Rest::Words(text) => Some((text, split_line(text).1)),
        Rest::Lines(_) => None,
    }
}
