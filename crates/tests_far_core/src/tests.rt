//! Whether the clauses say what was meant, by worked values. All words come from the layout's own table of examples.

mod acts;
mod bytes;
mod calls;
mod copied;
mod copiers;
mod dropping;
mod filling;
mod freeing;
mod jobs;
mod leaving;
mod looks;
mod moving;
mod own_calls;
mod page;
mod peopled;
mod ranges;
mod reading;
mod refusing;
mod rounds;
mod stage;
mod values;
