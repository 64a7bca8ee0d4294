//! Of far_policy: policies of other kinds, what a caller can say of any of them, and worked values of the three.

mod any;
mod own;
mod values;
