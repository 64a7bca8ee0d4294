//! An image of a log made one of this heap's version.

ghost use Rattle.std.specs.Prelude.{◌≡◌, ℕ, ◌<◌, ◌≤◌, length, slice_index, All, List, IfOk, IfErr};
ghost use Rattle.far_word.specs.declared.sizes.TheConstants.{LOG_WORDS};
ghost use Rattle.far_word.specs.declared.version.Version.TheVariants.{First};
ghost use Rattle.far_word.specs.Header.{pointers, version_of};
ghost use Rattle.far_log.specs.declared.span.Span.{Span};
ghost use Rattle.far_log.specs.Convert.{IsConverted, IsRenewed, renumbered};
ghost use Rattle.far_log.specs.Walk.{FirstBad, IsImage, IsWalkBy};

use crate::span::size_of;
use crate::walking::{BadWord, span_from};
use far_word::{CELLS, HeadWord, HeadWordV1, Version};

/// Writes the version 2 image of the log whose image `words` is, of either version, and answers its tail, which is `tail`:
/// the same spans, whose headers name the pointers of this heap, the same cell of the same mutator; all data words stay. The
/// words of `out`, which has `tail` words or more, stay as they are from the tail on. An image of version 2 is copied.
///
/// If the words are no image the answer is the first bad word, that which [`crate::walk`] names, and all of `out` stays as it
/// is. No memory is taken.
pub fn convert(words: &[u64], tail: usize, out: &mut [u64]) -> Result<usize, BadWord>
    requires within { tail ≤ length words.now }
    requires log { length words.now ≤ LOG_WORDS }
    requires room { tail ≤ length out.old }
    ensures tail { IfOk result (λ end. end ≡ tail) }
    ensures image { IfOk result (λ _. IsConverted (λ i. slice_index words.now i) (λ i. slice_index out.new i) tail) }
    ensures rest { IfOk result (λ _. (i : ℕ) → tail ≤ i → slice_index out.new i ≡ slice_index out.old i) }
    ensures length { length out.new ≡ length out.old }
    ensures bad { IfErr result (λ bad. FirstBad (λ i. slice_index words.now i) tail bad.at bad.word) }
    ensures stays { IfErr result (λ _. out.new ≡ out.old) }
{
    check(words, tail)?;
    copy_front(words, tail, out);
    let Version::First = version_in(words) else {
        return Ok(tail);
    };
    renew_headers(words, tail, out);
    Ok(tail)
}

// The version that the first word says.
fn version_in(words: &[u64]) -> Version
    ensures { result ≡ version_of (slice_index words.now 0) }
{
    match words.first() {
        Some(word) => Version::of(*word),
        None => Version::Second,
    }
}

// Whether the words below the tail are spans; else the first bad word.
fn check(words: &[u64], tail: usize) -> Result<(), BadWord>
    requires within { tail ≤ length words.now }
    requires log { length words.now ≤ LOG_WORDS }
    ensures image { IfOk result (λ _. (spans : List Span) × IsImage (λ i. slice_index words.now i) tail spans) }
    ensures bad { IfErr result (λ bad. FirstBad (λ i. slice_index words.now i) tail bad.at bad.word) }
{
    let mut at = 0;
    while at < tail {
        let span = span_from(words, tail, at)?;
        at += size_of(span.len);
    }
    Ok(())
}

// Copies the words below the tail.
fn copy_front(words: &[u64], tail: usize, out: &mut [u64])
    requires within { tail ≤ length words.now }
    requires room { tail ≤ length out.old }
    ensures front { (i : ℕ) → i < tail → slice_index out.new i ≡ slice_index words.now i }
    ensures rest { (i : ℕ) → tail ≤ i → slice_index out.new i ≡ slice_index out.old i }
    ensures length { length out.new ≡ length out.old }
{
    out[..tail].copy_from_slice(&words[..tail]);
}

// Writes the headers of version 2 over the copies of those of a version 1 image.
fn renew_headers(words: &[u64], tail: usize, out: &mut [u64])
    requires within { tail ≤ length words.now }
    requires room { tail ≤ length out.old }
    requires image { (spans : List Span) × IsWalkBy First (λ i. slice_index words.now i) tail spans }
    requires same { (i : ℕ) → i < tail → slice_index out.old i ≡ slice_index words.now i }
    ensures image { (spans : List Span) × IsWalkBy First (λ i. slice_index words.now i) tail spans × All (IsRenewed First (λ i. slice_index words.now i) (λ i. slice_index out.new i)) spans }
    ensures rest { (i : ℕ) → tail ≤ i → slice_index out.new i ≡ slice_index out.old i }
    ensures length { length out.new ≡ length out.old }
{
    let mut at = 0;
    while at < tail {
        let HeadWordV1 { pointer, len, ds } = HeadWordV1::known(words[at]);
        let pointer = renumbered(pointer);
        out[at] = HeadWord { pointer, len, ds }.pack();
        at += size_of(len);
    }
}

// The number here of a pointer of version 1: the same cell of the same mutator.
fn renumbered(pointer: u16) -> u16
    requires { pointer < pointers First }
    ensures { result ≡ renumbered First pointer }
{
    let cells = Version::First.cells();
    pointer / cells * CELLS + pointer % cells
}
