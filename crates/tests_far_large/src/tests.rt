//! Large values over far objects in memory.

mod coming;
mod refusing;
