//! The replies of a trace: what each is printed as, and how texts are read and written through readers and writers that may fail.
//!
//! A [`Reply`] is printed by [`Reply::print_to`] into an [`Output`], which takes all its memory when it is made. [`ReplyWriter`] hands replies on to
//! a writer; [`write_whole`] and [`read_text`] are the loops over it and over a reader.
#![tactic(auto)]

mod limits;
mod output;
mod reply;
mod reply_words;
mod reply_writer;
mod stream;

pub use limits::reply_limits_are;
pub use output::Output;
pub use reply::{Counts, LONGEST_REPLY, LogLine, Reply};
pub use reply_words::replies_read;
pub use reply_writer::ReplyWriter;
pub use stream::{WriteFault, read_text, write_whole};
