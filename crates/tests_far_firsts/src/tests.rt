//! Texts over far objects in memory, and what is printed of them.

mod counts;
mod faults;
mod restless;
mod streams;
mod texts;
