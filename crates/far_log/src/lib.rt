//! What the words of one log say: a list of spans, each a header and the data words of one object.
//!
//! [`walk`] reads that list, or names the first word that belongs to none. [`convert`] makes the image of this heap's version
//! of an image of either.
#![tactic(auto)]

mod converting;
mod laws;
mod row;
mod span;
mod walking;

pub use converting::convert;
pub use laws::{
    bad_words_are_first, images_are_converted, later_words_say_nothing, spans_hold_bytes,
    spans_take_all, walks_are_one, words_have_one_span,
};
pub use row::LogRow;
pub use span::{Span, size_of};
pub use walking::{BadWord, WalkFault, walk};
