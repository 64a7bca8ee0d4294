//! The spans of a log, read off its words.

ghost use Rattle.std.specs.Prelude.{◌≡◌, ◌+◌, ◌/◌, ◌<◌, ◌≤◌, ◌↔◌, length, slice_index, IfOk, IfErr, IsTrue};
ghost use Rattle.std.specs.Vec.{vec_capacity};
ghost use Rattle.far_word.specs.declared.sizes.TheConstants.{LOG_WORDS};
ghost use Rattle.far_word.specs.Sizes.{size_of};
ghost use Rattle.far_word.specs.Header.{version_of};
ghost use Rattle.far_log.specs.Spans.{StandsBy};
ghost use Rattle.far_log.specs.Walk.{IsImage, IsFault, IsBadSpan, end_for, last_limit};

use crate::span::{Span, size_of};
use far_word::Version;
use std::alloc::Global;
use thiserror::Error;

/// The first word of a log that belongs to no span: where it stands, and the word.
#[derive(Clone, Copy, Debug, PartialEq, Eq, Error)]
#[error("word {at} of the log is {word:016x}")]
pub struct BadWord {
    /// Where it stands in its log, in words.
    pub at: u16,
    /// The word itself.
    pub word: u64,
}

/// Why a walk has no list of spans.
#[derive(Clone, Copy, Debug, PartialEq, Eq, Error)]
pub enum WalkFault {
    #[error("a growth was refused")]
    Memory,
    #[error("{0}")]
    Bad(BadWord),
}

impl From<BadWord> for WalkFault {
    ghost use Rattle.std.specs.Prelude.{◌≡◌};
    ghost use Rattle.far_log.specs.declared.walking.WalkFault.TheVariants.{Bad};

    ghost from_gives = { λ bad fault. fault ≡ Bad bad };

    fn from(bad: BadWord) -> WalkFault {
        WalkFault::Bad(bad)
    }
}

/// The spans of a log from its word 0 to its tail, in order: `words` are those of the log, as many as are at hand, and
/// `tail` says how many of them spans take. The first word says the version of the image ([`Version::of`]), and each header
/// is of that version.
///
/// Where the words have no such list the fault names the first that is bad: a word at a header's place that is off the
/// layout of the version, or whose span passes the tail or the end of the version's log, or the last data word of a span
/// that hasn't zeros behind its last byte. All memory is taken first, for half as many spans as `tail` has words; if it is
/// refused the fault is [`WalkFault::Memory`].
pub fn walk(alloc: Global, words: &[u64], tail: usize) -> Result<Vec<Span>, WalkFault>
    requires within { tail ≤ length words.now }
    requires log { length words.now ≤ LOG_WORDS }
    ensures spans { IfOk result (λ spans. IsImage (λ i. slice_index words.now i) tail spans.items) }
    ensures room { IfOk result (λ spans. vec_capacity spans ≡ tail / 2) }
    ensures fault { IfErr result (λ fault. IsFault (λ i. slice_index words.now i) tail fault) }
{
    let Ok(mut spans) = Vec::with_capacity(alloc, tail / 2) else {
        return Err(WalkFault::Memory);
    };
    let mut at = 0;
    while at < tail {
        let span = span_from(words, tail, at)?;
        spans.push_reserved(span);
        at += size_of(span.len);
    }
    Ok(spans)
}

// The span whose header stands at a place below the tail, or the word that keeps a span from standing there.
pub(crate) fn span_from(words: &[u64], tail: usize, from: usize) -> Result<Span, BadWord>
    requires below { from < tail }
    requires within { tail ≤ length words.now }
    requires log { length words.now ≤ LOG_WORDS }
    ensures span { IfOk result (λ span. (span.at ≡ from) × (from + size_of span.len ≤ end_for (version_of (slice_index words.now 0)) tail) × StandsBy (version_of (slice_index words.now 0)) (λ i. slice_index words.now i) span) }
    ensures bad { IfErr result (λ bad. (bad.word ≡ slice_index words.now bad.at) × IsBadSpan (version_of (slice_index words.now 0)) (λ i. slice_index words.now i) (end_for (version_of (slice_index words.now 0)) tail) from bad.at) }
{
    let version = Version::of(words[0]);
    let word = words[from];
    let at = from as u16;
    let Some(head) = version.header(word) else {
        return Err(BadWord { at, word });
    };
    let next = from + size_of(head.len);
    if next > end_for(version, tail) {
        return Err(BadWord { at, word });
    }
    let last = words[next - 1];
    if !is_padded(last, head.len) {
        return Err(BadWord {
            at: (next - 1) as u16,
            word: last,
        });
    }
    Ok(Span {
        at,
        p: head.pointer,
        len: head.len,
        ds: head.ds,
    })
}

// Where the spans of an image end at the latest: none passes the tail, and none the end of a log of its version.
fn end_for(version: Version, tail: usize) -> usize
    ensures { result ≡ end_for version tail }
{
    tail.min(version.log_words() as usize)
}

// Whether the last data word of an object of `len` bytes has zeros behind the last byte.
fn is_padded(last: u64, len: u16) -> bool
    requires { 0 < len }
    ensures { IsTrue result ↔ (last < last_limit len) }
{
    let spare = (8 - len % 8) % 8;
    last <= u64::MAX >> (8 * spare)
}
