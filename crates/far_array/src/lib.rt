//! Arrays in far objects: of records of one size, and of values.
#![tactic(auto)]

mod array;
mod blocks;
mod folds;
mod parts;
mod reads;
mod record;
mod rows;
mod steps;
mod swap;
mod values;

pub use array::Array;
pub use record::Record;
pub use values::ArrayOf;
