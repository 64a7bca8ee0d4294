//! A map of entries of any length over far objects in memory.

mod beside;
mod cases;
mod changes;
mod holding;
mod page;
mod telling;
