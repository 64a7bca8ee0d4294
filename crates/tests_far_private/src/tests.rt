//! A private heap's calls, by worked values.

mod acts;
mod calls;
mod devices;
mod failing;
mod ranges;
mod readme;
mod refusals;
mod rooms;
mod rows;
mod stage;
