//! A module for each crate.

mod device;
mod log;
mod policy;
mod text;
mod word;
