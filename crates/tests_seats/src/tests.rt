//! Whether book, evacuator and owners do on shared words what was meant, by worked values; in one thread, one call after the other.

mod acts;
mod copiers;
mod heaps;
mod jobs;
mod moving;
mod owners;
mod pairs;
mod rounds;
mod stale;
