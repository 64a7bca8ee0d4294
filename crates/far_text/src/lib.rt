//! A trace, a text of commands, is read: as nothing, or as a heap, perhaps its device, and commands, or refused by its first line off the grammar.
//!
//! [`parse`] does it. The grammar is a definition (`specs/Grammar.antt`); [`grammar_is_said`] is the law that says in other
//! words what it is worth. What the commands do is far_replay's.
#![tactic(auto)]

mod adding;
mod command;
mod commands;
mod cursor;
mod hex_word;
mod laws;
mod line;
mod number;
mod split;
mod split_text;
mod steps;
mod text;
mod threads;

pub use command::{
    Choice, Command, Device, Flaw, Inquiry, LOG_NAMES, MOST_CHOSEN, Policy, Request, Step,
};
pub use commands::Commands;
pub use laws::{grammar_is_said, limits_are, splitting_is_said};
pub use split::{SplitTrace, parse_split};
pub use split_text::{Lines, SplitText};
pub use text::{LONGEST_TEXT, ParseError, Trace, parse};
pub use threads::Thread;
