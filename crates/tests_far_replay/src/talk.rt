//! Texts, and the answers that a run is to give.

use far_replay::{End, run};
use std::alloc::{AllocError, Global};

/// Whether a run of the text writes this answer, and ends so.
pub fn is_run(alloc: Global, text: &str, answer: &str, end: End) -> bool {
    let mut reader = text.as_bytes();
    let mut written = Vec::new(alloc);
    let ended = run(alloc, &mut reader, &mut written);
    ended == Ok(end) && written.as_slice() == answer.as_bytes()
}

/// The same of a text that is made, if it is.
pub fn is_made_and_run(
    alloc: Global,
    made: Result<String, AllocError>,
    answer: &str,
    end: End,
) -> bool {
    match made {
        Ok(text) => is_run(alloc, &text, answer, end),
        Err(_) => false,
    }
}

// Adds a line.
fn push_line(text: &mut String, line: &str) -> Result<(), AllocError> {
    text.push_str(line)?;
    text.push('\n')
}

// Adds a line of a talk: a reply, two spaces in, to the answer, and any other to the text.
fn push_said(text: &mut String, answer: &mut String, line: &str) -> Result<(), AllocError> {
    match line.strip_prefix("  ") {
        Some(reply) => push_line(answer, reply),
        None => push_line(text, line),
    }
}

// The text of a talk, and its answer.
fn parts_of(alloc: Global, talk: &str) -> Result<(String, String), AllocError> {
    let mut text = String::new(alloc);
    let mut answer = String::new(alloc);
    for line in talk.lines() {
        push_said(&mut text, &mut answer, line)?;
    }
    Ok((text, answer))
}

/// Whether a talk is answered so. It has commands, and after each the lines of its reply, two spaces in.
pub fn is_answered(alloc: Global, talk: &str) -> bool {
    match parts_of(alloc, talk) {
        Ok((text, answer)) => is_run(alloc, &text, &answer, End::Ran),
        Err(_) => false,
    }
}

/// The same of a talk that is made, if it is.
pub fn is_made_and_answered(alloc: Global, made: Result<String, AllocError>) -> bool {
    match made {
        Ok(talk) => is_answered(alloc, &talk),
        Err(_) => false,
    }
}

/// Adds the same text so many times.
pub fn push_times(text: &mut String, part: &str, times: u64) -> Result<(), AllocError> {
    for _ in 0..times {
        text.push_str(part)?;
    }
    Ok(())
}

/// A text of parts, each so many times.
pub fn built(alloc: Global, parts: &[(&str, u64)]) -> Result<String, AllocError> {
    let mut text = String::new(alloc);
    for (part, times) in parts {
        push_times(&mut text, part, *times)?;
    }
    Ok(text)
}
