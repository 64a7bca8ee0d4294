//! A far side in bytes that are all taken when it is opened: a device over [`Reserved`], and [`EitherDevice`], which is one of two.
#![tactic(auto)]

mod either;
mod laws;
mod reserved;

pub use either::EitherDevice;
pub use laws::{puts_are_refused_when_full, what_is_put_is_there};
pub use reserved::Reserved;
