//! A pool's calls, by worked values.

mod dealing;
mod devices;
mod large;
mod numbers;
mod planning;
mod readme;
mod stale;
mod telling;
