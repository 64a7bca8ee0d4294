//! Spans in which objects live.

use far_log::Span;

/// A span in which an object lives, and the object's cell as it was found.
#[derive(Clone, Copy, Debug)]
pub struct LiveSpan {
    pub span: Span,
    pub cell: u64,
}
