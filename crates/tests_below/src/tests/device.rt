//! Of far_device: devices of other kinds, what a caller can say of any of them, and worked values of the one in memory.

mod any;
mod failing;
mod lying;
mod values;
