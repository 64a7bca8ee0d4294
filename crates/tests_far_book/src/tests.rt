//! Whether the clauses say what was meant, by worked values.

mod acts;
mod books;
mod calls;
mod copies;
mod devices;
mod hands;
mod jobs;
mod leaving;
mod moving;
mod owners;
mod owning;
mod returning;
mod rounds;
mod stage;
