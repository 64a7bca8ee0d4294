//! What is told of a text that isn't read.

use far_text::ParseError;
use std::alloc::{AllocGlobal, Global};
use std::test::*;

// Whether this is a fault's text.
fn is_told(alloc: Global, fault: ParseError, wanted: &str) -> bool {
    match format!(in alloc; "{fault}") {
        Ok(told) => told.as_str() == wanted,
        Err(_) => false,
    }
}

#[test]
fn texts(rt: HostRuntime) {
    let alloc = rt.alloc();
    assert!(rt;
        is_told(alloc, ParseError::Memory, "memory")
            && is_told(alloc, ParseError::Syntax(7), "line 7 is off the grammar")
    );
}
