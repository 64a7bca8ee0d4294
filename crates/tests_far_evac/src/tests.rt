//! Whether the clauses say what was meant, by worked values.

mod aborting;
mod acts;
mod asking;
mod beside;
mod choosing;
mod copying;
mod devices;
mod making;
mod passing;
mod readme;
mod refusals;
mod rounds;
mod stage;
mod steps;
mod waiting;
