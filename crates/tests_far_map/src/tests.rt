//! A map over far objects in memory.

mod cases;
mod page;
mod rows;
