//! Arrays over far objects in memory. `rt try --test --fail-alloc N` refuses growth N: each test holds then too.

mod page;
mod playing;
mod rows;
mod turning;
mod values;
